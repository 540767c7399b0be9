//! Why a scheduler can't hand over an expired timer, or take or answer a request.

ghost use Rattle.std.specs.Prelude.{◌≡◌, IfSome, IfNone, Some, None, true};
ghost use Rattle.ert_defs.specs.{Clocks.Clock, Legal.{IsFirst, CanAnswer}, Mails.first_of};
ghost use Rattle.ert_judge.specs.{Breaks.{DeliverBreaks, DropBreaks, PickBreaks, AnswerBreaks}, Shown.shown, Parts.{sched_at, exited_at, inbox_at}};

use crate::judge::Judge;
use crate::reasons::Reason;
use ert_defs::{Actor, Request, TimerRef};

/// Why an expired timer can't be put into a mailbox.
pub fn of_deliver(judge: &Judge, with: Option<Actor>, timer: TimerRef) -> Option<Reason>
    ensures some { IfSome result (DeliverBreaks (sched_at judge.now.schedulers timer.wheel).expired with timer) }
    ensures none { IfNone result ((first : IsFirst (sched_at judge.now.schedulers timer.wheel).expired timer)
        × (with ≡ Some (Actor.MailOf first.row.dest))) }
{
    let Some(row) = judge.schedulers.first_expired(timer.wheel) else {
        return Some(Reason::NoneWaits);
    };
    if timer != row.timer {
        return Some(Reason::OtherWaits { first: row.timer });
    }
    if with == Some(Actor::MailOf(row.dest)) {
        None
    } else {
        Some(Reason::OtherDest { dest: row.dest })
    }
}

/// Why an expired timer can't be thrown away.
pub fn of_drop(judge: &Judge, timer: TimerRef) -> Option<Reason>
    ensures some { IfSome result (DropBreaks (sched_at judge.now.schedulers timer.wheel).expired (exited_at judge.now.exits) timer) }
    ensures none { IfNone result ((first : IsFirst (sched_at judge.now.schedulers timer.wheel).expired timer)
        × (exited_at judge.now.exits first.row.dest ≡ true)) }
{
    let Some(row) = judge.schedulers.first_expired(timer.wheel) else {
        return Some(Reason::NoneWaits);
    };
    if row.timer != timer {
        return Some(Reason::OtherWaits { first: row.timer });
    }
    if judge.exits.has_exited(row.dest) {
        None
    } else {
        Some(Reason::NotExited { dest: row.dest })
    }
}

/// Why a scheduler can't take this from its inbox.
pub fn of_pick(judge: &Judge, wheel: u32, got: Option<Request>) -> Option<Reason>
    ensures some { IfSome result (PickBreaks (sched_at judge.now.schedulers wheel) (inbox_at judge.now.inboxes wheel) got) }
    ensures none { IfNone result (((sched_at judge.now.schedulers wheel).hand ≡ None) × (got ≡ first_of (inbox_at judge.now.inboxes wheel))) }
{
    if let Some(request) = judge.schedulers.hand(wheel) {
        return Some(Reason::HandFull { request });
    }
    let first = judge.inboxes.first(wheel);
    if got == first {
        None
    } else {
        Some(Reason::OtherRequest { first })
    }
}

/// Why a scheduler can't answer so.
pub fn of_answer(
    judge: &Judge,
    with: Option<Actor>,
    wheel: u32,
    left: Option<u64>,
) -> Option<Reason>
    ensures some { IfSome result (AnswerBreaks judge.now.settings (sched_at judge.now.schedulers wheel) with left) }
    ensures none { (c : Clock) → IfNone result (CanAnswer judge.now.settings (shown c judge.now) with wheel left) }
{
    let Some(request) = judge.schedulers.hand(wheel) else {
        return Some(Reason::HandEmpty);
    };
    if with != Some(Actor::MailOf(request.reply_to)) {
        return Some(Reason::OtherAsker {
            process: request.reply_to,
        });
    }
    if request.timer.is_in_range(&judge.settings) {
        let outcome = judge.schedulers.outcome(wheel);
        if outcome == Some(left) {
            None
        } else {
            Some(Reason::OtherOutcome { outcome })
        }
    } else if left.is_some() {
        Some(Reason::NothingLeft)
    } else {
        None
    }
}
