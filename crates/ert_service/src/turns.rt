//! The calls of schedulers that take several locks, one after the other (the chains of `ert_world`).
#![tactic(auto, using(crate::proofs::LegalFronts::legal_front))]

use crate::session::SchedSession;
use ert_defs::NoMemory;
use ert_effects::Turned;
use ert_locks::DeskName;
use ert_world::chains::{deliver, serve, turn};
use std::sync::Wait;

impl<'a, L: DeskName, R: Wait> SchedSession<'a, L, R> {
    ghost use Rattle.std.specs.Prelude.{◌≡◌, OnOk};
    ghost use Rattle.ert_effects.specs.{Chains.{Serves, Delivers, Turns}, Ways.beside};
    ghost use Rattle.ert_defs.specs.{States.state, declared.entry.Actor.TheVariants.Sched};
    ghost use Rattle.ert_locks.specs.Passes.{FrontGrows};
    ghost use Rattle.ert_service.specs.{Fronts.IsLegal, Settled.NoneWaits};
    ghost use Rattle.ert_table.specs.Desks.{front_of};

    /// Serves one request: that in the scheduler's hand, or the first of its inbox. False comes where there is
    /// none.
    ///
    /// If memory runs out, the request stays in the hand.
    pub fn serve(&mut self) -> Result<bool, NoMemory>
        ensures call { FrontGrows (Serves L.settings (beside L.settings (Sched self.old.seat.part.wheel)) self.old.seat.part.wheel result) self.old.seat.pass self.new.seat.pass }
        ensures number { self.new.seat.part.wheel ≡ self.old.seat.part.wheel }
        ensures legal { IsLegal L.settings (front_of self.new.seat.pass) }
    {
        let sched = self.seat.part.wheel;
        serve(self, sched)
    }

    /// Hands over the scheduler's expired timers until there is none, and answers how many messages were put
    /// into mailboxes and how many were thrown away, since their process has exited.
    ///
    /// If memory runs out, those that weren't handed over stay in the list.
    pub fn deliver(&mut self) -> Result<(u32, u32), NoMemory>
        ensures none { OnOk result (NoneWaits (state L.settings (front_of self.new.seat.pass)) self.old.seat.part.wheel) }
        ensures call { FrontGrows (Delivers L.settings (beside L.settings (Sched self.old.seat.part.wheel)) self.old.seat.part.wheel result) self.old.seat.pass self.new.seat.pass }
        ensures number { self.new.seat.part.wheel ≡ self.old.seat.part.wheel }
        ensures legal { IsLegal L.settings (front_of self.new.seat.pass) }
    {
        let sched = self.seat.part.wheel;
        deliver(self, sched)
    }

    /// A turn of a scheduler: it serves requests until there is none, 64 at most, lets due timers expire, and
    /// hands over all expired timers.
    ///
    /// If memory runs out, what was done stays done.
    pub fn turn(&mut self) -> Result<Turned, NoMemory>
        ensures none { OnOk result (NoneWaits (state L.settings (front_of self.new.seat.pass)) self.old.seat.part.wheel) }
        ensures call { FrontGrows (Turns L.settings (beside L.settings (Sched self.old.seat.part.wheel)) self.old.seat.part.wheel result) self.old.seat.pass self.new.seat.pass }
        ensures number { self.new.seat.part.wheel ≡ self.old.seat.part.wheel }
        ensures legal { IsLegal L.settings (front_of self.new.seat.pass) }
    {
        let sched = self.seat.part.wheel;
        turn(self, sched)
    }
}
