ghost use Rattle.std.specs.Prelude.{◌≡◌};

use crate::state::{Clock, Exits, Inboxes, Looks, Mailboxes, Schedulers, Timers};
use ert_defs::milliseconds::{deadline_of, down, left};
use ert_defs::{Actor, Entry, Event, NoMemory, Settings, Status, TimerRef};
use std::alloc::Global;

/// The state after the entries so far.
#[derive(Drop)]
pub struct Judge {
    pub settings: Settings,
    pub clock: Clock,
    pub looks: Looks,
    pub timers: Timers,
    pub exits: Exits,
    pub mailboxes: Mailboxes,
    pub inboxes: Inboxes,
    pub schedulers: Schedulers,
}

impl Judge {
    ghost use Rattle.std.specs.Prelude.{◌↔◌, IsTrue, IfOk, OnOk};
    ghost use Rattle.ert_defs.specs.Clocks as clocks;
    ghost use Rattle.ert_defs.specs.{Legal.left_of, Settings.IsChecked};
    ghost use Rattle.ert_defs.specs.Milliseconds as milliseconds;
    ghost use Rattle.ert_clock.specs.Faces.{face_of};
    ghost use Rattle.ert_judge.specs.{Parts.ArmsNew, Wheels.{timers_at, IsFirstDue}, Shown.{IsOpening, MayFollow, ClockFollows, deadline_by, Follows, last_look, last_status, shown}};

    /// The state at the opening.
    pub(crate) fn open(alloc: Global, settings: &Settings) -> Result<Judge, NoMemory>
        requires { IsChecked settings.now }
        ensures { IfOk result (λ judge. IsOpening settings.now judge) }
    {
        Ok(Judge {
            settings: *settings,
            clock: Clock::opening(settings),
            looks: Looks::new(alloc, settings)?,
            timers: Timers::new(alloc, settings.schedulers)?,
            exits: Exits::new(alloc),
            mailboxes: Mailboxes::new(alloc),
            inboxes: Inboxes::new(alloc, settings.schedulers)?,
            schedulers: Schedulers::new(alloc, settings.schedulers)?,
        })
    }

    /// Goes on by an entry that is legal. A part that reads another goes on before that one does, so that it
    /// finds it as it was before the entry.
    pub(crate) fn follow(&mut self, entry: &Entry) -> Result<(), NoMemory>
        requires clock { MayFollow self.old.settings (face_of self.old.clock.face) entry.now.event }
        requires arms { ArmsNew entry.now.event self.old.timers }
        ensures { OnOk result (Follows self.old entry.now self.new) }
    {
        let event = &entry.event;
        let deadline = self.deadline(entry);
        self.mailboxes.follow(entry.with, event, &self.schedulers)?;
        self.schedulers.follow(entry.by, event, &self.timers)?;
        self.timers.follow(event, deadline)?;
        self.looks.follow(entry.by, event);
        self.exits.follow(event)?;
        self.inboxes.follow(entry.with, event)?;
        self.follow_clock(event);
        Ok(())
    }

    /// The deadline that the timer which an entry arms was started for.
    fn deadline(&self, entry: &Entry) -> Option<u64>
        ensures { result ≡ deadline_by self.now.settings (last_look self.now entry.now.by) entry.now.event }
    {
        match entry.event {
            Event::Arm { start, .. } => {
                deadline_of(&self.settings, start.when, self.looks.of(entry.by))
            }
            _ => None,
        }
    }

    /// The clock goes on by an event.
    fn follow_clock(&mut self, event: &Event)
        requires { MayFollow self.old.settings (face_of self.old.clock.face) event.now }
        ensures clock { ClockFollows self.old.settings self.old.clock event.now self.new.clock }
        ensures others { self.new ≡ record self.old { clock = self.new.clock } }
    {
        match *event {
            Event::Tick { reading, act, now } => self.clock.tick(&self.settings, reading, act, now),
            Event::Shift { offset, state } => self.clock.shift(offset, state),
            _ => {}
        }
    }

    /// The status of the last timer of a slot.
    pub(crate) fn last_status(&self, wheel: u32, slot: u32) -> Option<Status>
        ensures { result ≡ last_status self.now wheel slot }
    {
        self.timers.status(TimerRef {
            wheel,
            slot,
            generation: self.timers.uses(wheel, slot).last,
        })
    }

    /// The milliseconds left of a timer by the last look of an actor, where it is armed.
    pub(crate) fn left(&self, by: Actor, timer: TimerRef) -> Option<u128>
        ensures { (c : clocks.Clock) → result ≡ left_of self.now.settings (shown c self.now) by timer }
    {
        match self.timers.find(timer) {
            Some(found) if found.status == Status::Armed => {
                Some(left(&self.settings, found.row.deadline, self.looks.of(by)))
            }
            _ => None,
        }
    }

    /// Whether a timer is due by the last look of an actor and the first of its wheel, but for its own status.
    pub(crate) fn is_next(&self, by: Actor, timer: TimerRef) -> bool
        ensures { IsTrue result ↔ IsFirstDue (timers_at self.now.timers timer.wheel) timer (milliseconds.down self.now.settings (last_look self.now by)) }
    {
        let now = down(&self.settings, self.looks.of(by));
        self.timers.is_first(timer, now)
    }
}
