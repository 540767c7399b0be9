ghost use Rattle.std.specs.Prelude.{◌≡◌, ◌↔◌, IfSome, IfNone, List, None};
ghost use Rattle.ert_defs.specs.Clocks as of_clocks;
ghost use Rattle.ert_defs.specs.{Legal.{Can, Known, Found}, States.state};
ghost use Rattle.ert_defs.specs.declared.entry.Entry as entries;
ghost use Rattle.ert_defs.specs.declared.settings.Settings as settings;
ghost use Rattle.ert_judge.specs.{Shown.{ClockIs, OwnTimers, HasFollowed, shown}, Breaks.Breaks, Reasons.IsFirstReason};

use crate::clocks::{of_look, of_off, of_shift, of_tell, of_tick};
use crate::hands::{of_answer, of_deliver, of_drop, of_pick};
use crate::judge::Judge;
use crate::mails::{of_take, of_unwatch, of_watch};
use crate::ranges::out_of_range;
use crate::reasons::Reason;
use crate::timers::{of_advanced, of_arm, of_expire, of_left, of_mark, of_orphan, of_probe};
use ert_defs::{Entry, Event};

/// Why an entry can't follow the history that a judge stands for; None exactly where it can.
pub fn reason(judge: &Judge, entry: &Entry) -> Option<Reason>
    ensures why { (g : settings.Settings) (h : List entries.Entry) → HasFollowed g h judge.now
        → IfSome result (IsFirstReason g (state g h) entry.now) }
    ensures legal { (g : settings.Settings) (h : List entries.Entry) → HasFollowed g h judge.now
        → (result ≡ None) ↔ Can g (state g h) entry.now }
{
    match out_of_range(&judge.settings, entry) {
        Some(reason) => Some(reason),
        None => broken(judge, entry),
    }
}

/// The condition of its event that an entry in range breaks.
fn broken(judge: &Judge, entry: &Entry) -> Option<Reason>
    ensures some { (c : of_clocks.Clock) → ClockIs judge.now.settings c judge.now.clock → OwnTimers judge.now
        → IfSome result (Breaks judge.now.settings (shown c judge.now) entry.now.by entry.now.with entry.now.event) }
    ensures none { (c : of_clocks.Clock) → ClockIs judge.now.settings c judge.now.clock → OwnTimers judge.now
        → IfNone result (Known judge.now.settings (shown c judge.now) entry.now.by entry.now.with entry.now.event
        × Found judge.now.settings (shown c judge.now) entry.now.by entry.now.event) }
{
    let clock = &judge.clock;
    match entry.event {
        Event::Tick { reading, act, now } => of_tick(&judge.settings, clock, reading, act, now),
        Event::Shift { offset, state } => of_shift(clock, offset, state),
        Event::Look { now } => of_look(clock, now),
        Event::Off { offset, state } => of_off(clock, offset, state),
        Event::Arm { timer, start } => of_arm(judge, entry.by, timer, start),
        Event::Probe { wheel, slot, found } => of_probe(judge, wheel, slot, found),
        Event::Peek { timer, left } => of_left(judge, entry.by, timer, left),
        Event::Cancel { timer, left } => of_left(judge, entry.by, timer, left),
        Event::Expire { timer } => of_expire(judge, entry.by, timer),
        Event::Orphan { timer } => of_orphan(judge, timer),
        Event::Deliver { timer } => of_deliver(judge, entry.with, timer),
        Event::Drop { timer } => of_drop(judge, timer),
        Event::Mark { process, was, .. } => of_mark(judge, process, was),
        Event::Advanced { wheel, to } => of_advanced(judge, entry.by, wheel, to),
        Event::Ask { .. } => None,
        Event::Pick { wheel, got } => of_pick(judge, wheel, got),
        Event::Answer { wheel, left } => of_answer(judge, entry.with, wheel, left),
        Event::Take { process, got } => of_take(judge, process, got),
        Event::Unwatch {
            process,
            monitor,
            was,
        } => of_unwatch(judge, process, monitor, was),
        Event::Watch {
            process,
            monitor,
            offset,
        } => of_watch(judge, process, monitor, offset),
        Event::Tell { offset, .. } => of_tell(clock, offset),
    }
}
