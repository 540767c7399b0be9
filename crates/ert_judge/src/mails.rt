//! Why an event of a mailbox can't follow.

ghost use Rattle.std.specs.Prelude.{◌≡◌, ◌<◌, IfSome, IfNone, length};
ghost use Rattle.ert_defs.specs.{Legal.stands_in, Mails.first_of};
ghost use Rattle.ert_judge.specs.{Breaks.{TakeBreaks, UnwatchBreaks, WatchBreaks}, Parts.mail_at};

use crate::judge::Judge;
use crate::reasons::Reason;
use ert_defs::Mail;

/// How many monitors of a process may stand (profile).
const MONITORS: usize = 64;

/// Why a message can't be taken.
pub fn of_take(judge: &Judge, process: u32, got: Option<Mail>) -> Option<Reason>
    ensures some { IfSome result (TakeBreaks (mail_at judge.now.mailboxes process).queue got) }
    ensures none { IfNone result (got ≡ first_of (mail_at judge.now.mailboxes process).queue) }
{
    let first = judge.mailboxes.first(process);
    if got == first {
        None
    } else {
        Some(Reason::OtherMail { first })
    }
}

/// Why the end of a monitor can't find that it stood, or not.
pub fn of_unwatch(judge: &Judge, process: u32, monitor: u32, was: bool) -> Option<Reason>
    ensures some { IfSome result (UnwatchBreaks (mail_at judge.now.mailboxes process) monitor was) }
    ensures none { IfNone result (was ≡ stands_in monitor (mail_at judge.now.mailboxes process).monitors) }
{
    let stands = judge.mailboxes.has_monitor(process, monitor);
    if was == stands {
        None
    } else {
        Some(Reason::OtherMonitor { stands })
    }
}

/// Why a monitor can't be made.
pub fn of_watch(judge: &Judge, process: u32, monitor: u32, told: i64) -> Option<Reason>
    ensures some { IfSome result (WatchBreaks judge.now.clock.face.offset (mail_at judge.now.mailboxes process) monitor told) }
    ensures none { IfNone result ((monitor ≡ (mail_at judge.now.mailboxes process).next)
        × (length (mail_at judge.now.mailboxes process).monitors < 64) × (told ≡ judge.now.clock.face.offset)) }
{
    let next = judge.mailboxes.next(process);
    if monitor as u64 != next {
        return Some(Reason::OtherNumber { next });
    }
    let count = judge.mailboxes.count(process);
    if count >= MONITORS {
        return Some(Reason::TooMany { count });
    }
    let offset = judge.clock.face.offset;
    if told == offset {
        None
    } else {
        Some(Reason::OtherOffset { offset })
    }
}
