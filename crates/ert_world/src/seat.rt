//! The seat of a thread.
use crate::world::World;
use ert_defs::{Actor, OffsetState, TimerRef};
use ert_table::{Desk, Pass};
use std::marker::Model;
use std::sync::Arc;

/// A share of a desk, and the pass with one caller of it.
///
/// Its calls take no lock and no memory, and wait for nobody: any thread may make them, beside the calls of the
/// world that gave the seat and those of all other seats.
#[derive(Drop)]
pub struct Seat {
    pub(crate) desk: Arc<Desk>,
    pub(crate) pass: Pass,
    /// The number of the caller.
    pub(crate) number: u32,
}

impl Model for Seat {
    ghost use Rattle.std.specs.Arc.{arc_value};
    ghost use Rattle.ert_world.specs.Seats.{Seated, seated, SitsAs};

    ghost Value = { Seated };

    ghost view = { λ s. seated (arc_value s.desk) s.pass s.number };

    ghost invariant = { λ s. SitsAs (arc_value s.desk) s.pass s.number };
}

impl Seat {
    ghost use Rattle.std.specs.Prelude.{◌≡◌, ◌<◌};
    ghost use Rattle.ert_effects.specs.{ClockCalls.{TellsTime, TellsOffset, TellsSystemTime}, TimerCalls.{Reads, Cancels}, WheelCalls.TellsAlive};
    ghost use Rattle.ert_defs.specs.declared.entry.Actor.TheVariants.{Caller};
    ghost use Rattle.ert_world.specs.Seats.{Steps, BySeat};

    /// The number of the caller.
    pub fn number(&self) -> u32
        ensures { result ≡ self.now.number }
    {
        self.number
    }

    /// How many processes the service has.
    pub fn processes(&self) -> u32
        ensures { result ≡ self.now.settings.processes }
    {
        self.desk.settings().processes
    }

    /// Monotonic time, in nanoseconds (`erlang:monotonic_time`). It never falls from one call to a later one.
    pub fn monotonic_time(&mut self) -> i64
        ensures { Steps self.old (BySeat self.old (λ g. TellsTime g (Caller self.old.number) result)) self.new }
    {
        self.pass
            .monotonic_time(&self.desk, Actor::Caller(self.number))
    }

    /// The time offset, in nanoseconds, with its state (`erlang:time_offset`).
    pub fn time_offset(&mut self) -> (i64, OffsetState)
        ensures { Steps self.old (BySeat self.old (λ g. TellsOffset g (Caller self.old.number) result)) self.new }
    {
        self.pass
            .time_offset(&self.desk, Actor::Caller(self.number))
    }

    /// System time, in nanoseconds: monotonic time, and then the time offset added (`erlang:system_time`).
    pub fn system_time(&mut self) -> i64
        ensures { Steps self.old (BySeat self.old (λ g. TellsSystemTime g (Caller self.old.number) result)) self.new }
    {
        self.pass
            .system_time(&self.desk, Actor::Caller(self.number))
    }

    /// Cancels a timer, and answers how many milliseconds were left (`cancel_timer`); None where the reference
    /// names no timer that is armed. Its wheel holds the row until the timer would be due.
    #[inline]
    pub fn cancel_timer(&mut self, timer: TimerRef) -> Option<u64>
        ensures { Steps self.old (BySeat self.old (λ g. Cancels g (Caller self.old.number) timer result)) self.new }
    {
        self.pass
            .cancel_timer(&self.desk, Actor::Caller(self.number), timer)
    }

    /// How many milliseconds are left of a timer (`read_timer`); None where the reference names no timer that is
    /// armed.
    #[inline]
    pub fn read_timer(&mut self, timer: TimerRef) -> Option<u64>
        ensures { Steps self.old (BySeat self.old (λ g. Reads g (Caller self.old.number) timer result)) self.new }
    {
        self.pass
            .read_timer(&self.desk, Actor::Caller(self.number), timer)
    }

    /// Whether a process hasn't exited (`is_process_alive`).
    pub fn is_alive(&mut self, process: u32) -> bool
        requires { process < self.old.settings.processes }
        ensures { Steps self.old (BySeat self.old (λ g. TellsAlive g (Caller self.old.number) process result)) self.new }
    {
        self.pass
            .is_alive(&self.desk, Actor::Caller(self.number), process)
    }
}

fn crosses<T: Send>(_: &T) {}

/// A seat and a world may go to another thread.
fn _may_cross(seat: &Seat, world: &World) {
    crosses(seat);
    crosses(world);
}
