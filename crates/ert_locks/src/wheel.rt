//! A wheel behind its lock.
ghost use Rattle.std.specs.Prelude.{◌≡◌, ◌≤◌, ◌-◌, IfOk};
ghost use Rattle.ert_effects.specs.WheelCalls.{Advances};
ghost use Rattle.ert_locks.specs.{Hands.counted, Kinds.{scheds, wheels}, Lent.IsGivenBack};
ghost use Rattle.ert_table.specs.Desks.{Belongs, front_of, settings_of, view_of};
ghost use Rattle.ert_timers.specs.{Parts.{HoldsSched, PartStands}, SchedParts.SchedStands};
ghost use Rattle.ert_defs.specs.declared.settings.TheConstants.{MOST_SLOTS};

use crate::locked::Locked;
use crate::names::DeskName;
use crate::seats::{CallerSeat, SchedSeat};
use ert_defs::{NoMemory, Start, TimerRef};
use ert_effects::StartErr;
use ert_table::{Desk, Pass};
use ert_timers::{SchedPart, WheelPart};
use std::marker::Brand;

impl<L: DeskName> Locked<WheelPart, L> {
    ghost use Rattle.std.specs.Prelude.{◌≡◌, ◌≢◌, ◌<◌, true, Err};
    ghost use Rattle.ert_effects.specs.{Chains.{AdvancesWheel, SweepsWheel}, TimerCalls.Starts, Ways.beside, declared.answers.StartErr.TheVariants.NoMemory as OutOfMemory};
    ghost use Rattle.ert_defs.specs.{States.state, declared.entry.Actor.TheVariants.{Wheel, Sched, Caller}};
    ghost use Rattle.ert_locks.specs.{Names.IsDesk, Passes.{FrontGrows, StepsWith}};
    ghost use Rattle.ert_table.specs.Desks.{front_of};

    /// Starts a timer for a caller (`erlang` module reference, `start_timer` and `send_after`).
    ///
    /// BadArg comes where the start has no deadline at the time of the call, and Full where each slot of the
    /// wheel that was looked at is taken or rests (`Settings::looks`), or the wheel has had 2^53 timers. A timer for a
    /// process that has exited is started and cancelled at once. No memory is taken.
    #[tactic(auto, using(crate::proofs::Own::starts_have))]
    pub fn start(
        &mut self,
        desk: &Desk,
        seat: &mut CallerSeat<L>,
        start: &Start,
    ) -> Result<TimerRef, StartErr>
        requires desk { IsDesk L.table L.settings desk.now }
        requires dest { start.now.dest < L.settings.processes }
        ensures same { self.new ≡ self.old }
        ensures number { seat.new.number ≡ seat.old.number }
        ensures memory { result ≢ Err OutOfMemory }
        ensures call { StepsWith L.settings (Caller seat.old.number) (Wheel self.old)
            (Starts L.settings seat.old.number self.old start.now result) seat.old.pass seat.new.pass }
    {
        self.lend::<Brand, _, _, _>(desk, &mut seat.number, &mut seat.pass, |part, pass, by| {
            part.start(desk, pass, *by, start)
        })
    }

    /// Cancels all timers of a process that the caller has seen to have exited.
    pub fn sweep(&mut self, desk: &Desk, seat: &mut CallerSeat<L>, process: u32)
        requires desk { IsDesk L.table L.settings desk.now }
        requires in_range { process < L.settings.processes }
        requires exited { (state L.settings (front_of seat.old.pass)).exited process ≡ true }
        ensures same { self.new ≡ self.old }
        ensures number { seat.new.number ≡ seat.old.number }
        ensures call { FrontGrows (SweepsWheel L.settings (beside L.settings (Caller seat.old.number)) seat.old.number process self.old) seat.old.pass seat.new.pass }
    {
        self.lend::<Brand, _, _, _>(desk, &mut seat.number, &mut seat.pass, |part, pass, by| {
            part.sweep(desk, pass, *by, process);
        });
    }

    /// Lets every due timer expire, for the scheduler of this wheel, and answers the time, in whole
    /// milliseconds since the start time, and how many expired.
    ///
    /// If memory runs out, none has expired.
    pub fn advance(&mut self, desk: &Desk, seat: &mut SchedSeat<L>) -> Result<(u64, u32), NoMemory>
        requires desk { IsDesk L.table L.settings desk.now }
        requires own { self.old ≡ seat.old.part.wheel }
        ensures same { self.new ≡ self.old }
        ensures number { seat.new.part.wheel ≡ seat.old.part.wheel }
        ensures call { FrontGrows (AdvancesWheel L.settings (beside L.settings (Sched seat.old.part.wheel)) seat.old.part.wheel result) seat.old.pass seat.new.pass }
    {
        self.lend::<Brand, _, _, _>(desk, &mut seat.part, &mut seat.pass, |part, pass, sched| {
            advance_for(part, desk, pass, sched)
        })
    }
}

/// Lets every due timer of a wheel expire for its scheduler, and answers the time and how many expired.
fn advance_for(
    part: &mut WheelPart,
    desk: &Desk,
    pass: &mut Pass,
    sched: &mut SchedPart,
) -> Result<(u64, u32), NoMemory>
    requires wheel { part.old.number ≡ sched.old.wheel }
    requires belongs { Belongs desk.now pass.old }
    requires holds { HoldsSched (view_of pass.old) part.old.number }
    requires stands { PartStands (settings_of desk.now) (front_of pass.old) part.old }
    requires sched { SchedStands (settings_of desk.now) (front_of pass.old) sched.old }
    ensures { IsGivenBack desk.now wheels scheds (λ g w n. Advances g w result) part.old pass.old sched.old part.new pass.new sched.new }
{
    let before = sched.expired.len();
    let to = part.advance(desk, pass, &mut sched.expired);
    let after = sched.expired.len();
    counted(to, before, after)
}

/// What an advance answers, where there were so many expired timers before it and after it.
fn counted(to: Result<u64, NoMemory>, before: usize, after: usize) -> Result<(u64, u32), NoMemory>
    requires { IfOk to (λ at. (before ≤ after) × (after - before ≤ MOST_SLOTS)) }
    ensures { result ≡ counted to (after - before) }
{
    let to = to?;
    Ok((to, (after - before) as u32))
}
