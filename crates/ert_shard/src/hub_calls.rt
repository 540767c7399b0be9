//! The calls of a hub: on the clock, and by caller 0 on timers and processes.
use crate::hub::Hub;
use ert_clock::{ClockErr, Moved};
use ert_defs::{Actor, OffsetState, Reading, TimerRef};

/// Who makes the calls of a hub.
const CALLER: u32 = 0;

impl Hub {
    ghost use Rattle.std.specs.Prelude.{◌≡◌, ◌<◌, ◌+ℤ◌};
    ghost use Rattle.ert_clock.specs.Ticks.{act_of, Gives, ClockFinalizesFrom};
    ghost use Rattle.ert_defs.specs.declared.entry.Actor.TheVariants.{Caller};
    ghost use Rattle.ert_effects.specs.{ClockCalls.{Ticks, Finalizes, TellsTime, TellsOffset, TellsSystemTime}, TimerCalls.{Reads, Cancels}, WheelCalls.TellsAlive};
    ghost use Rattle.ert_shard.specs.Hubs.{HubGoes, HubSteps, HubBy};

    /// Takes one reading of the OS clocks. `force` asks for a check of the clock, as if one were due.
    ///
    /// It is refused where the clock refuses it (`ClockErr`), and then it makes no entry.
    pub fn tick(&mut self, reading: Reading, force: bool) -> Result<Moved, ClockErr>
        ensures gives { Gives self.old.clock reading (act_of force) result self.new.clock }
        ensures call { HubGoes self.old (HubBy self.old (λ g. Ticks g 0 reading force result)) self.new }
    {
        self.keeper
            .tick(&self.desk, &mut self.pass, CALLER, reading, force)
    }

    /// Finalizes the time offset (`erlang:system_flag(time_offset, finalize)`), and answers the state before. Only a
    /// preliminary offset moves.
    ///
    /// It is refused where the clock refuses it (`ClockErr`), and then it makes no entry.
    pub fn finalize(&mut self, reading: Reading) -> Result<(OffsetState, Moved), ClockErr>
        ensures gives { ClockFinalizesFrom self.old.clock.face.state self.old.clock reading result self.new.clock }
        ensures call { HubGoes self.old (HubBy self.old (λ g. Finalizes g 0 reading result)) self.new }
    {
        self.keeper
            .finalize(&self.desk, &mut self.pass, CALLER, reading)
    }

    /// The last published time: monotonic time, in nanoseconds, without an entry of its own.
    pub fn published(&self) -> i64
        ensures { result ≡ self.now.clock.face.time }
    {
        self.keeper.clock().now()
    }

    /// Monotonic time, in nanoseconds (`erlang:monotonic_time`).
    pub fn monotonic_time(&mut self) -> i64
        ensures value { result ≡ self.old.clock.face.time }
        ensures call { HubSteps self.old (HubBy self.old (λ g. TellsTime g (Caller 0) result)) self.new }
    {
        self.pass.monotonic_time(&self.desk, Actor::Caller(CALLER))
    }

    /// The time offset, in nanoseconds, with its state (`erlang:time_offset`).
    pub fn time_offset(&mut self) -> (i64, OffsetState)
        ensures value { result.0 ≡ self.old.clock.face.offset }
        ensures state { result.1 ≡ self.old.clock.face.state }
        ensures call { HubSteps self.old (HubBy self.old (λ g. TellsOffset g (Caller 0) result)) self.new }
    {
        self.pass.time_offset(&self.desk, Actor::Caller(CALLER))
    }

    /// System time, in nanoseconds: monotonic time plus the time offset (`erlang:system_time`).
    pub fn system_time(&mut self) -> i64
        ensures value { result ≡ self.old.clock.face.time +ℤ self.old.clock.face.offset }
        ensures call { HubSteps self.old (HubBy self.old (λ g. TellsSystemTime g (Caller 0) result)) self.new }
    {
        self.pass.system_time(&self.desk, Actor::Caller(CALLER))
    }

    /// Cancels a timer of whatever wheel, and answers how many milliseconds were left (`cancel_timer`); None where the
    /// reference names no timer that is armed. Its wheel holds the row until the timer would be due.
    pub fn cancel_timer(&mut self, timer: TimerRef) -> Option<u64>
        ensures { HubSteps self.old (HubBy self.old (λ g. Cancels g (Caller 0) timer result)) self.new }
    {
        self.pass
            .cancel_timer(&self.desk, Actor::Caller(CALLER), timer)
    }

    /// How many milliseconds are left of a timer of whatever wheel (`read_timer`); None where the reference names no
    /// timer that is armed.
    pub fn read_timer(&mut self, timer: TimerRef) -> Option<u64>
        ensures { HubSteps self.old (HubBy self.old (λ g. Reads g (Caller 0) timer result)) self.new }
    {
        self.pass
            .read_timer(&self.desk, Actor::Caller(CALLER), timer)
    }

    /// Whether a process hasn't exited (`is_process_alive`).
    pub fn is_alive(&mut self, process: u32) -> bool
        requires { process < self.old.settings.processes }
        ensures { HubSteps self.old (HubBy self.old (λ g. TellsAlive g (Caller 0) process result)) self.new }
    {
        self.pass
            .is_alive(&self.desk, Actor::Caller(CALLER), process)
    }
}
