//! The call that cancels all timers of a process, which lives on.
use crate::world::{CALLER, World};
use ert_defs::{Actor, TimerRef};

impl World {
    ghost use Rattle.std.specs.Option.{is_some};
    ghost use Rattle.std.specs.Prelude.{◌≡◌, ◌<◌, ◌≤◌, count_by, slice_index_or};
    ghost use Rattle.ert_defs.specs.{Legal.Legal, declared.entry.Actor.TheVariants.Caller, declared.settings.TheConstants.MOST_SLOTS};
    ghost use Rattle.ert_effects.specs.TimerCalls.{Cancels};
    ghost use Rattle.ert_timers.specs.{Freeing.IsHeld, Parts.Part};
    ghost use Rattle.ert_world.specs.{Cancelling.{CancelsAll, CancelsOn, IsHeldAt}, Held.HoldsFewer, Stepping.Stays, Worlds.{Goes, HasForgotten, By}};

    /// Cancels all timers of a process (`cancel_timer`), in all wheels, and answers how many were cancelled. The process
    /// lives on, and can have timers again. Messages of timers that had expired stay.
    ///
    /// Then no timer of the process is armed, and the wheels hold no row of those that were cancelled. No memory is taken.
    pub fn cancel_all(&mut self, process: u32) -> u64
        requires { process < self.old.settings.processes }
        ensures call { Goes self.old (λ way. CancelsAll self.old.settings way process result) self.new }
        ensures stays { Stays self.old self.new }
    {
        self.is_legal();
        let mut count = 0;
        for wheel in 0..self.settings().schedulers {
            count += self.cancel_on(wheel, process);
        }
        count
    }

    /// Cancels all timers of a process in one wheel.
    fn cancel_on(&mut self, wheel: u32, process: u32) -> u64
        requires wheel { wheel < self.old.settings.schedulers }
        requires process { process < self.old.settings.processes }
        ensures call { Goes self.old (λ way. CancelsOn self.old.settings way process (wheel, result)) self.new }
        ensures stays { Stays self.old self.new }
        ensures few { result ≤ MOST_SLOTS }
    {
        self.is_bounded(wheel);
        let mut count = 0;
        while let Some(timer) = self.held_for(wheel, process) {
            count += u64::from(self.end_timer(timer).is_some());
        }
        count
    }

    /// A timer of a wheel for a process that the wheel holds; None where none is.
    fn held_for(&mut self, wheel: u32, process: u32) -> Option<TimerRef>
        requires wheel { wheel < self.old.settings.schedulers }
        requires process { process < self.old.settings.processes }
        ensures same { self.new ≡ self.old }
        ensures held { IsHeldAt self.old wheel process result }
    {
        self.wheels[wheel as usize].held_for(process)
    }

    /// For the prover alone: its history is legal, and a wheel holds as many rows as it may have slots, at most.
    fn is_bounded(&self, wheel: u32)
        requires { wheel < self.now.settings.schedulers }
        ensures legal { Legal self.now.settings self.now.history }
        ensures few { (d : Part) → count_by is_some (slice_index_or self.now.wheels wheel d).keys ≤ MOST_SLOTS }
    {
        let _kept = &self.pass;
    }

    /// Cancels a timer that its wheel holds, and drops the row. None comes where a seat had cancelled it.
    fn end_timer(&mut self, timer: TimerRef) -> Option<u64>
        requires wheel { timer.wheel < self.old.settings.schedulers }
        requires held { (d : Part) → IsHeld (slice_index_or self.old.wheels timer.wheel d) timer }
        ensures call { Goes self.old (By self.old (λ g. Cancels g (Caller 0) timer result)) self.new }
        ensures stays { Stays self.old self.new }
        ensures forgotten { HasForgotten self.new timer }
        ensures fewer { HoldsFewer self.old self.new timer.wheel 1 }
    {
        let by = Actor::Caller(CALLER);
        let left = self.pass.cancel_timer(&self.desk, by, timer);
        self.wheels[timer.wheel as usize].forget(&self.pass, timer);
        left
    }
}
