//! Chains of single steps, whatever makes these: a scheduler's turn and its parts, and the exit of a process.
ghost use Rattle.std.specs.Prelude.{◌≡◌, ◌<◌, IfOk, true};
ghost use Rattle.ert_effects.specs.{Chains.{Serves, ServesAll, Delivers, Turns, SweepsWheels, Exits}, Ways.Grows};
ghost use Rattle.ert_defs.specs.States.{state};

use crate::steps::{CallerSteps, SchedSteps};
use ert_defs::NoMemory;
use ert_effects::{SERVED_A_TURN, Turned};
use ert_mail::Handed;

/// Serves one request: that in the scheduler's hand, or the first of its inbox. False comes where there is none.
///
/// If memory runs out, the request stays in the hand.
#[inline(always)]
pub fn serve<S: SchedSteps>(steps: &mut S, sched: u32) -> Result<bool, NoMemory>
    requires { S.acts steps.old sched }
    ensures call { Grows (Serves (S.settings steps.old) (S.way (S.settings steps.old) (S.mark steps.old) sched) sched result) (S.history steps.old) (S.history steps.new) }
    ensures legal { S.is_legal steps.new }
    ensures stays { S.stays steps.old steps.new }
{
    let Some(request) = steps.hold(sched) else {
        return Ok(false);
    };
    steps.answer_held(sched, &request)?;
    Ok(true)
}

/// Serves requests until there is none, 64 at most, and answers how many were served.
#[inline(always)]
pub fn serve_all<S: SchedSteps>(steps: &mut S, sched: u32) -> Result<u32, NoMemory>
    requires { S.acts steps.old sched }
    ensures call { Grows (ServesAll (S.settings steps.old) (S.way (S.settings steps.old) (S.mark steps.old) sched) sched result) (S.history steps.old) (S.history steps.new) }
    ensures legal { S.is_legal steps.new }
    ensures stays { S.stays steps.old steps.new }
{
    for served in 0..SERVED_A_TURN {
        if !serve(steps, sched)? {
            return Ok(served);
        }
    }
    Ok(SERVED_A_TURN)
}

/// Hands over the scheduler's expired timers until there is none, and answers how many messages were put into
/// mailboxes and how many were thrown away, since their process has exited.
///
/// If memory runs out, those that weren't handed over stay in the list.
#[inline(always)]
pub fn deliver<S: SchedSteps>(steps: &mut S, sched: u32) -> Result<(u32, u32), NoMemory>
    requires { S.acts steps.old sched }
    ensures call { Grows (Delivers (S.settings steps.old) (S.way (S.settings steps.old) (S.mark steps.old) sched) sched result) (S.history steps.old) (S.history steps.new) }
    ensures legal { S.is_legal steps.new }
    ensures stays { S.stays steps.old steps.new }
{
    let mut put = 0;
    let mut dropped = 0;
    while let Some(expired) = steps.first_of_expired(sched) {
        match steps.hand_first(sched, &expired)? {
            Handed::Put => put += 1,
            Handed::Dropped => dropped += 1,
        }
    }
    Ok((put, dropped))
}

/// A turn of a scheduler: it serves requests until there is none, 64 at most, lets due timers expire, and hands
/// over all expired timers.
///
/// If memory runs out, what was done stays done.
pub fn turn<S: SchedSteps>(steps: &mut S, sched: u32) -> Result<Turned, NoMemory>
    requires { S.acts steps.old sched }
    ensures call { Grows (Turns (S.settings steps.old) (S.way (S.settings steps.old) (S.mark steps.old) sched) sched result) (S.history steps.old) (S.history steps.new) }
    ensures legal { S.is_legal steps.new }
    ensures passed { IfOk result (λ t. S.passed steps.new sched t.to) }
    ensures stays { S.stays steps.old steps.new }
{
    let served = serve_all(steps, sched)?;
    let (to, expired) = steps.advance_wheel(sched)?;
    let (put, dropped) = deliver(steps, sched)?;
    Ok(Turned {
        served,
        to,
        expired,
        put,
        dropped,
    })
}

/// Lets a process exit, cancels its timers in all wheels, one after the other, and answers true; false, and no
/// more, where it had exited before.
pub fn exit<S: CallerSteps>(steps: &mut S, by: u32, process: u32) -> bool
    requires acts { S.acts steps.old by }
    requires in_range { process < (S.settings steps.old).processes }
    ensures call { Grows (Exits (S.settings steps.old) (S.way (S.settings steps.old) (S.mark steps.old) by) by process result) (S.history steps.old) (S.history steps.new) }
    ensures legal { S.is_legal steps.new }
    ensures stays { S.stays steps.old steps.new }
{
    if !steps.mark_exited(by, process) {
        return false;
    }
    sweep_all(steps, by, process);
    true
}

/// Cancels all timers of a process that has exited.
fn sweep_all<S: CallerSteps>(steps: &mut S, by: u32, process: u32)
    requires acts { S.acts steps.old by }
    requires in_range { process < (S.settings steps.old).processes }
    requires legal { S.is_legal steps.old }
    requires exited { (state (S.settings steps.old) (S.history steps.old)).exited process ≡ true }
    ensures call { Grows (SweepsWheels (S.settings steps.old) (S.way (S.settings steps.old) (S.mark steps.old) by) by process 0 (S.settings steps.old).schedulers) (S.history steps.old) (S.history steps.new) }
    ensures legal { S.is_legal steps.new }
    ensures stays { S.stays steps.old steps.new }
{
    for wheel in 0..steps.schedulers() {
        steps.sweep_wheel(by, process, wheel);
    }
}
