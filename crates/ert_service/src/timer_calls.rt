//! The calls of callers on timers.
#![tactic(auto, using(crate::proofs::LegalFronts::legal_front))]

use crate::session::{CallerSession, Session};
use ert_defs::{Actor, Start, TimerRef};
use ert_effects::StartErr;
use ert_locks::DeskName;
use std::sync::Wait;

impl<'a, L: DeskName, R: Wait> CallerSession<'a, L, R> {
    ghost use Rattle.std.specs.Prelude.{◌≡◌, ◌≢◌, ◌<◌, Err, IfOk, None};
    ghost use Rattle.ert_table.specs.{Left.TellsLeft, Desks.{front_of, view_of}};
    ghost use Rattle.ert_effects.specs.{TimerCalls.{Starts, Reads, Cancels}, declared.answers.StartErr.TheVariants.NoMemory as OutOfMemory};
    ghost use Rattle.ert_defs.specs.{Legal.names_timer, States.{HasExited, state}, declared.entry.Actor.TheVariants.{Wheel, Caller}};
    ghost use Rattle.ert_locks.specs.Passes.{StepsWith};
    ghost use Rattle.ert_service.specs.{Fronts.{IsLegal, StepsAlone}, Settled.WasSettled};
    ghost use Rattle.ert_world.specs.Known.{WasStarted};

    /// Starts a timer on a wheel (`erlang` module reference, `start_timer` and `send_after`).
    ///
    /// BadArg comes where the start has no deadline at the time of the call, and Full where each slot of the
    /// wheel that was looked at is taken or rests (`Settings::looks`), or the wheel has had 2^53 timers. A timer for a
    /// process that has exited is started and cancelled at once, so that it is settled when the call returns.
    /// No memory is taken.
    pub fn start(&mut self, wheel: u32, start: &Start) -> Result<TimerRef, StartErr>
        requires wheel { wheel < L.settings.schedulers }
        requires dest { start.now.dest < L.settings.processes }
        ensures memory { result ≢ Err OutOfMemory }
        ensures settled { HasExited L.settings (front_of self.old.seat.pass) start.now.dest
            → IfOk result (λ timer. WasSettled (state L.settings (front_of self.new.seat.pass)) timer) }
        ensures call { StepsWith L.settings (Caller self.old.seat.number) (Wheel wheel)
            (Starts L.settings self.old.seat.number wheel start.now result) self.old.seat.pass self.new.seat.pass }
        ensures number { self.new.seat.number ≡ self.old.seat.number }
        ensures legal { IsLegal L.settings (front_of self.new.seat.pass) }
        ensures started { IfOk result (λ timer. WasStarted (state L.settings (front_of self.new.seat.pass)) timer) }
    {
        let mut locked = self.service.wheels.at(self.rt, wheel);
        locked.start(self.service.desk(), &mut self.seat, start)
    }

    /// Cancels a timer, and tells the whole milliseconds that were left of it (`erlang` module reference,
    /// `cancel_timer`). It takes no lock, and its wheel holds the row until the timer would be due.
    ///
    /// None comes exactly where the reference is out of range or its timer isn't armed at the last step of the
    /// call: of a timer that the caller knows to be started, once it has settled. `learn` tells a caller of a start that
    /// another made.
    pub fn cancel_timer(&mut self, timer: TimerRef) -> Option<u64>
        ensures left { TellsLeft (names_timer L.settings timer) L.settings (Caller self.old.seat.number) timer result (view_of self.new.seat.pass) }
        ensures call { StepsAlone L.settings (Caller self.old.seat.number) (Cancels L.settings (Caller self.old.seat.number) timer result) self.old.seat.pass self.new.seat.pass }
        ensures number { self.new.seat.number ≡ self.old.seat.number }
        ensures legal { IsLegal L.settings (front_of self.new.seat.pass) }
        ensures known { WasStarted (state L.settings (front_of self.old.seat.pass)) timer → result ≡ None
            → WasSettled (state L.settings (front_of self.new.seat.pass)) timer }
    {
        let Session { service, seat, .. } = self;
        let by = Actor::Caller(seat.number);
        seat.pass.cancel_timer(service.desk(), by, timer)
    }

    /// The whole milliseconds left of a timer (`erlang` module reference, `read_timer`). It takes no lock.
    ///
    /// None comes exactly where the reference is out of range or its timer isn't armed: of a timer that the caller knows to
    /// be started, once it has settled.
    pub fn read_timer(&mut self, timer: TimerRef) -> Option<u64>
        ensures left { TellsLeft (names_timer L.settings timer) L.settings (Caller self.old.seat.number) timer result (view_of self.new.seat.pass) }
        ensures call { StepsAlone L.settings (Caller self.old.seat.number) (Reads L.settings (Caller self.old.seat.number) timer result) self.old.seat.pass self.new.seat.pass }
        ensures number { self.new.seat.number ≡ self.old.seat.number }
        ensures legal { IsLegal L.settings (front_of self.new.seat.pass) }
        ensures known { WasStarted (state L.settings (front_of self.old.seat.pass)) timer → result ≡ None
            → WasSettled (state L.settings (front_of self.new.seat.pass)) timer }
    {
        let Session { service, seat, .. } = self;
        let by = Actor::Caller(seat.number);
        seat.pass.read_timer(service.desk(), by, timer)
    }
}
