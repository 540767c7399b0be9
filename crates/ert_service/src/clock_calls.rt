//! The calls of callers on the clock.
#![tactic(auto, using(crate::proofs::LegalFronts::legal_front, crate::proofs::Alone::made_alone))]

use crate::session::{CallerSession, Session};
use ert_clock::{ClockErr, Moved};
use ert_defs::{Actor, OffsetState, Reading};
use ert_locks::DeskName;
use std::sync::Wait;

impl<'a, L: DeskName, R: Wait> CallerSession<'a, L, R> {
    ghost use Rattle.std.specs.Prelude.{◌≡◌};
    ghost use Rattle.ert_effects.specs.ClockCalls.{Ticks, Finalizes, TellsTime, TellsOffset, TellsSystemTime};
    ghost use Rattle.ert_defs.specs.declared.entry.Actor.TheVariants.{Keeper, Caller};
    ghost use Rattle.ert_locks.specs.Passes.{StepsWith};
    ghost use Rattle.ert_service.specs.Fronts.{IsLegal, StepsAlone};
    ghost use Rattle.ert_table.specs.Desks.{front_of};

    /// Takes one reading of the OS clocks. `force` asks for a check of the clock, as if one were due.
    ///
    /// It is refused where the clock refuses it (`ClockErr`), and then it makes no entry.
    pub fn tick(&mut self, reading: Reading, force: bool) -> Result<Moved, ClockErr>
        ensures call { StepsWith L.settings (Caller self.old.seat.number) Keeper (Ticks L.settings self.old.seat.number reading force result) self.old.seat.pass self.new.seat.pass }
        ensures number { self.new.seat.number ≡ self.old.seat.number }
        ensures legal { IsLegal L.settings (front_of self.new.seat.pass) }
    {
        let mut keeper = self.service.keeper.lock(self.rt);
        keeper.tick(self.service.desk(), &mut self.seat, reading, force)
    }

    /// Finalizes the time offset (`erlang:system_flag(time_offset, finalize)`), and answers the state
    /// before. Only a preliminary offset moves.
    ///
    /// It is refused where the clock refuses it (`ClockErr`), and then it makes no entry.
    pub fn finalize(&mut self, reading: Reading) -> Result<(OffsetState, Moved), ClockErr>
        ensures call { StepsWith L.settings (Caller self.old.seat.number) Keeper (Finalizes L.settings self.old.seat.number reading result) self.old.seat.pass self.new.seat.pass }
        ensures number { self.new.seat.number ≡ self.old.seat.number }
        ensures legal { IsLegal L.settings (front_of self.new.seat.pass) }
    {
        let mut keeper = self.service.keeper.lock(self.rt);
        keeper.finalize(self.service.desk(), &mut self.seat, reading)
    }

    /// Erlang monotonic time, in nanoseconds (`erlang` module reference, `monotonic_time`). It takes no lock.
    ///
    /// It never falls from one call to a later one.
    pub fn monotonic_time(&mut self) -> i64
        ensures call { StepsAlone L.settings (Caller self.old.seat.number) (TellsTime L.settings (Caller self.old.seat.number) result) self.old.seat.pass self.new.seat.pass }
        ensures number { self.new.seat.number ≡ self.old.seat.number }
        ensures legal { IsLegal L.settings (front_of self.new.seat.pass) }
    {
        let Session { service, seat, .. } = self;
        let by = Actor::Caller(seat.number);
        seat.pass.monotonic_time(service.desk(), by)
    }

    /// Erlang system time, in nanoseconds: the time, and the time offset added that is read after it (`erlang`
    /// module reference, `system_time`). It takes no lock.
    pub fn system_time(&mut self) -> i64
        ensures call { StepsAlone L.settings (Caller self.old.seat.number) (TellsSystemTime L.settings (Caller self.old.seat.number) result) self.old.seat.pass self.new.seat.pass }
        ensures number { self.new.seat.number ≡ self.old.seat.number }
        ensures legal { IsLegal L.settings (front_of self.new.seat.pass) }
    {
        let Session { service, seat, .. } = self;
        let by = Actor::Caller(seat.number);
        seat.pass.system_time(service.desk(), by)
    }

    /// The time offset, in nanoseconds, and its state (`erlang` module reference, `time_offset`). It takes no
    /// lock.
    pub fn time_offset(&mut self) -> (i64, OffsetState)
        ensures call { StepsAlone L.settings (Caller self.old.seat.number) (TellsOffset L.settings (Caller self.old.seat.number) result) self.old.seat.pass self.new.seat.pass }
        ensures number { self.new.seat.number ≡ self.old.seat.number }
        ensures legal { IsLegal L.settings (front_of self.new.seat.pass) }
    {
        let Session { service, seat, .. } = self;
        let by = Actor::Caller(seat.number);
        seat.pass.time_offset(service.desk(), by)
    }
}
