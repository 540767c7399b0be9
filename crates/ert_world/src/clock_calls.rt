//! The calls of a world on the clock.
use crate::world::{CALLER, World};
use ert_clock::{ClockErr, Moved};
use ert_defs::{Actor, OffsetState, Reading};

impl World {
    ghost use Rattle.std.specs.Prelude.{◌≡◌, ◌+ℤ◌};
    ghost use Rattle.ert_effects.specs.ClockCalls.{Ticks, Finalizes, TellsTime, TellsOffset, TellsSystemTime};
    ghost use Rattle.ert_clock.specs.Ticks.{act_of, Gives, ClockFinalizesFrom};
    ghost use Rattle.ert_defs.specs.declared.entry.Actor.TheVariants.{Caller};
    ghost use Rattle.ert_world.specs.Worlds.{Goes, GoesOnClock, By};

    /// Takes one reading of the OS clocks. `force` asks for a check of the clock, as if one were due.
    ///
    /// It is refused where the clock refuses it (`ClockErr`), and then it makes no entry.
    pub fn tick(&mut self, reading: Reading, force: bool) -> Result<Moved, ClockErr>
        ensures gives { Gives self.old.clock reading (act_of force) result self.new.clock }
        ensures call { GoesOnClock self.old (By self.old (λ g. Ticks g 0 reading force result)) self.new }
    {
        self.keeper
            .tick(&self.desk, &mut self.pass, CALLER, reading, force)
    }

    /// Finalizes the time offset (`erlang:system_flag(time_offset, finalize)`), and answers the state
    /// before. Only a preliminary offset moves.
    ///
    /// It is refused where the clock refuses it (`ClockErr`), and then it makes no entry.
    pub fn finalize(&mut self, reading: Reading) -> Result<(OffsetState, Moved), ClockErr>
        ensures gives { ClockFinalizesFrom self.old.clock.face.state self.old.clock reading result self.new.clock }
        ensures call { GoesOnClock self.old (By self.old (λ g. Finalizes g 0 reading result)) self.new }
    {
        self.keeper
            .finalize(&self.desk, &mut self.pass, CALLER, reading)
    }

    /// Monotonic time, in nanoseconds (`erlang:monotonic_time`).
    pub fn monotonic_time(&mut self) -> i64
        ensures value { result ≡ self.old.clock.face.time }
        ensures call { Goes self.old (By self.old (λ g. TellsTime g (Caller 0) result)) self.new }
    {
        self.pass.monotonic_time(&self.desk, Actor::Caller(CALLER))
    }

    /// The time offset, in nanoseconds, with its state (`erlang:time_offset`).
    pub fn time_offset(&mut self) -> (i64, OffsetState)
        ensures value { result.0 ≡ self.old.clock.face.offset }
        ensures state { result.1 ≡ self.old.clock.face.state }
        ensures call { Goes self.old (By self.old (λ g. TellsOffset g (Caller 0) result)) self.new }
    {
        self.pass.time_offset(&self.desk, Actor::Caller(CALLER))
    }

    /// System time, in nanoseconds: monotonic time plus the time offset (`erlang:system_time`).
    pub fn system_time(&mut self) -> i64
        ensures value { result ≡ self.old.clock.face.time +ℤ self.old.clock.face.offset }
        ensures call { Goes self.old (By self.old (λ g. TellsSystemTime g (Caller 0) result)) self.new }
    {
        self.pass.system_time(&self.desk, Actor::Caller(CALLER))
    }
}
