ghost use Rattle.std.specs.Prelude.{◌≡◌, ◌≤◌, []};
ghost use Rattle.std.specs.{Arc.arc_value, Vec.vec_capacity};
ghost use Rattle.ert_locks.specs.Names.{IsDesk};

use crate::joining::{join_callers, join_scheds};
use crate::opening::{seat_callers, seat_scheds};
use crate::rooms::{PaddedLock, Room};
use crossbeam_utils::CachePadded;
use ert_defs::{Actor, NoMemory, Settings};
use ert_locks::{CallerSeat, DeskName, Locked, SchedSeat};
use ert_mail::{InboxPart, MailPart};
use ert_table::{Desk, KeeperPart, Pass};
use ert_timers::{SchedPart, WheelPart};
use ert_world::{Parts, World};
use std::alloc::Global;
use std::sync::{Arc, Mutex};

/// The clock and timer service for many threads, on the desk that `L` names. Its calls are those of a `Session`.
#[derive(Drop)]
pub struct Service<L: DeskName> {
    desk: Arc<Desk>,
    pub(crate) keeper: PaddedLock<Locked<KeeperPart, L>>,
    pub(crate) wheels: Room<WheelPart, L>,
    pub(crate) inboxes: Room<InboxPart, L>,
    pub(crate) mails: Room<MailPart, L>,
    /// Empty, with room for all parts of schedulers.
    scheds: Vec<SchedPart>,
    ghost named: { IsDesk L.table L.settings (arc_value desk) },
    ghost no_scheds: { scheds.items ≡ [] },
    ghost room: { L.settings.schedulers ≤ vec_capacity scheds },
}

/// A service that was opened: what threads share, the seats of its threads, in order of number, and the pass
/// of which all were divided.
#[derive(Drop)]
pub struct Opened<L: DeskName> {
    pub service: Service<L>,
    pub rest: Pass,
    pub scheds: Vec<SchedSeat<L>>,
    pub callers: Vec<CallerSeat<L>>,
}

impl<L: DeskName> Service<L> {
    ghost use Rattle.std.specs.Prelude.{◌≡◌, IfOk, All};
    ghost use Rattle.std.specs.Arc.{arc_value};
    ghost use Rattle.ert_defs.specs.{declared.entry.Actor.TheVariants.{Caller, Sched}, Settings.IsChecked};
    ghost use Rattle.ert_laws.specs.KeptLaws.{KeepsLaws};
    ghost use Rattle.ert_world.specs.{Parts.parts_of, Worlds.AreFit};
    ghost use Rattle.ert_service.specs.{Dividing.{AreSeated, IsPassOf}, Joining.{AreNumbered, HasOwn}};
    ghost use Rattle.ert_table.specs.{Desks.front_of, Views.Begins};

    /// Opens a service on the desk of a world that was taken apart, which `L` names. Each part gets its lock
    /// and each thread its seat; no entry is made.
    ///
    /// If memory runs out, the parts are given up.
    pub fn open(alloc: Global, parts: Parts) -> Result<Opened<L>, NoMemory>
        requires desk { IsDesk L.table L.settings (arc_value parts.desk) }
        requires fit { AreFit (arc_value parts.desk) parts.pass 1 (parts_of parts.keeper parts.wheels.items parts.inboxes.items parts.mails.items parts.scheds.items) }
        ensures rest { IfOk result (λ o. IsPassOf L.table L.settings o.rest) }
        ensures front { IfOk result (λ o. front_of o.rest ≡ front_of parts.pass) }
        ensures scheds { IfOk result (λ o. AreSeated (λ s. s.part.wheel) (λ s. front_of s.pass) L.settings.schedulers (front_of parts.pass) o.scheds.items) }
        ensures callers { IfOk result (λ o. AreSeated (λ s. s.number) (λ s. front_of s.pass) L.settings.callers (front_of parts.pass) o.callers.items) }
    {
        let Parts {
            desk,
            mut pass,
            keeper,
            wheels,
            inboxes,
            mails,
            scheds,
            ..
        } = parts;
        let room = Vec::with_capacity(alloc, scheds.len())?;
        let shared: &Desk = &desk;
        let own = pass.split(shared, Actor::Keeper);
        let keeper = Locked::new(keeper, own);
        let wheels = Room::lock_all(alloc, shared, &mut pass, wheels)?;
        let inboxes = Room::lock_all(alloc, shared, &mut pass, inboxes)?;
        let mails = Room::lock_all(alloc, shared, &mut pass, mails)?;
        let scheds = seat_scheds(alloc, shared, &mut pass, scheds)?;
        let callers = seat_callers(alloc, shared, &mut pass)?;
        let service = Service {
            desk,
            keeper: CachePadded::new(Mutex::new(keeper)),
            wheels,
            inboxes,
            mails,
            scheds: room,
        };
        Ok(Opened {
            service,
            rest: pass,
            scheds,
            callers,
        })
    }

    /// Closes the service: the passes are joined, the parts are taken from their locks, and a world is put
    /// together of them, whose wheels lose the rows of the timers that were cancelled. No entry is made, and no memory is
    /// taken.
    ///
    /// It takes the pass that `open` gave and all seats, in order of number. The world's history begins with
    /// what each of them knew, and has no other entries of a seat's actor. It is legal, and keeps the laws of time, of
    /// timers and of mail.
    pub fn close(self, rest: Pass, scheds: Vec<SchedSeat<L>>, callers: Vec<CallerSeat<L>>) -> World
        requires rest { IsPassOf L.table L.settings rest }
        requires scheds { AreNumbered (λ s. s.part.wheel) L.settings.schedulers scheds.items }
        requires callers { AreNumbered (λ s. s.number) L.settings.callers callers.items }
        ensures settings { result.settings ≡ L.settings }
        ensures next { result.next ≡ 1 }
        ensures laws { KeepsLaws result.settings result.history }
        ensures rest { Begins (front_of rest) result.history }
        ensures scheds { All (λ s. HasOwn (Sched s.part.wheel) (front_of s.pass) result.history) scheds.items }
        ensures callers { All (λ s. HasOwn (Caller s.number) (front_of s.pass) result.history) callers.items }
    {
        let Service {
            desk,
            keeper,
            wheels,
            inboxes,
            mails,
            scheds: room,
            ..
        } = self;
        let mut pass = rest;
        let (keeper, own) = keeper.into_inner().into_inner().into_parts();
        let shared: &Desk = &desk;
        pass.join(shared, own);
        let wheels = wheels.gather_all(shared, &mut pass);
        let inboxes = inboxes.gather_all(shared, &mut pass);
        let mails = mails.gather_all(shared, &mut pass);
        let scheds = join_scheds(shared, &mut pass, scheds, room);
        join_callers(shared, &mut pass, callers);
        let settings = *shared.settings();
        World::from_parts(Parts {
            settings,
            keeper,
            wheels,
            inboxes,
            mails,
            scheds,
            pass,
            desk,
        })
    }

    /// What the service was opened with.
    pub fn settings(&self) -> &Settings
        ensures value { result.now ≡ L.settings }
        ensures checked { IsChecked L.settings }
    {
        self.desk().settings()
    }

    /// The desk, for the calls of a `Pass`, which take no lock.
    pub(crate) fn desk(&self) -> &Desk
        ensures { IsDesk L.table L.settings result.now }
    {
        &self.desk
    }
}
