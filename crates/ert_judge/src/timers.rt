//! Why an event of the timers can't follow.

ghost use Rattle.std.specs.Prelude.{◌≡◌, ◌↔◌, ◌≤◌, ◌+◌, ◌<ℤ◌, ◌≤ℤ◌, pos, nat_le, true, IsTrue, IfSome, IfNone, Some, false};
ghost use Rattle.ert_defs.specs.{Clocks.Clock, Legal.{CanArm, IsNext, HasDestExited, AllSettled, left_of}, Timers.{turned, is_taken}};
ghost use Rattle.ert_defs.specs.Milliseconds as milliseconds;
ghost use Rattle.ert_judge.specs.{Shown.{shown, last_look, last_status, OwnTimers}, Breaks.{ArmBreaks, UseBreaks, ProbeBreaks, LeftBreaks, ExpireBreaks, OrphanBreaks, AdvancedBreaks, MarkBreaks, IsUse}, Parts.{status_at, rows_in}};
ghost use Rattle.ert_judge.specs.{Parts.exited_at, Uses.uses_of, Wheels.{timers_at, timer_in, IsFirstDue}};
ghost use Rattle.ert_defs.specs.Timers as timers;

use crate::judge::Judge;
use crate::reasons::Reason;
use crate::state::{Timer, Uses};
use ert_defs::milliseconds::{deadline_of, down, passed};
use ert_defs::{Actor, Start, Status, TimerRef, use_of};

/// How many timers a wheel may have had (profile).
const TIMERS_OF_WHEEL: usize = 1 << 53;

/// Why a timer can't be armed.
pub fn of_arm(judge: &Judge, by: Actor, timer: TimerRef, start: Start) -> Option<Reason>
    ensures some { (c : Clock) → IfSome result (ArmBreaks judge.now.settings (shown c judge.now) by timer start) }
    ensures none { (c : Clock) → IfNone result (CanArm judge.now.settings (shown c judge.now) by timer
        (milliseconds.deadline_of judge.now.settings start (last_look judge.now by))) }
{
    match judge.last_status(timer.wheel, timer.slot) {
        Some(Status::Armed) => Some(Reason::SlotTaken {
            status: Status::Armed,
        }),
        Some(Status::Expired) => Some(Reason::SlotTaken {
            status: Status::Expired,
        }),
        _ => of_free(judge, by, timer, start),
    }
}

/// Why a timer can't be armed in a slot that isn't taken.
fn of_free(judge: &Judge, by: Actor, timer: TimerRef, start: Start) -> Option<Reason>
    requires { is_taken (last_status judge.now timer.wheel timer.slot) ≡ false }
    ensures some { (c : Clock) → IfSome result (ArmBreaks judge.now.settings (shown c judge.now) by timer start) }
    ensures none { (c : Clock) → IfNone result (CanArm judge.now.settings (shown c judge.now) by timer
        (milliseconds.deadline_of judge.now.settings start (last_look judge.now by))) }
{
    let look = judge.looks.of(by);
    let deadline = deadline_of(&judge.settings, start.when, look);
    let uses = judge.timers.uses(timer.wheel, timer.slot);
    let now = passed(&judge.settings, look);
    if let Some(reason) = of_use(&uses, now, deadline, timer.generation) {
        return Some(reason);
    }
    if judge.timers.count(timer.wheel) >= TIMERS_OF_WHEEL {
        Some(Reason::WheelUsed)
    } else {
        None
    }
}

/// Why a generation isn't the next of a slot with these uses, for a start at a look of so many milliseconds.
fn of_use(uses: &Uses, now: u128, deadline: Option<u64>, generation: u64) -> Option<Reason>
    ensures some { IfSome result (UseBreaks (uses_of uses.now) now deadline generation) }
    ensures none { IfNone result (IsUse (uses_of uses.now) now deadline generation) }
{
    let round = uses.turned();
    let until = round.since;
    if now < until as u128 {
        return Some(Reason::Rests { until });
    }
    let next = use_of(round.last) + 1;
    if until == 0 && generation != next {
        return Some(Reason::OtherGeneration { next });
    }
    match deadline {
        Some(wanted) => of_wanted(uses, now, wanted, generation),
        None => Some(Reason::NoDeadline),
    }
}

/// The same of a slot that doesn't rest, for a start with this deadline: in the first round the generation is
/// the next use.
fn of_wanted(uses: &Uses, now: u128, wanted: u64, generation: u64) -> Option<Reason>
    requires rested { (turned (uses_of uses.now)).since ≤ now }
    requires first { (turned (uses_of uses.now)).since ≡ 0 → generation ≡ timers.use_of (turned (uses_of uses.now)).last + 1 }
    ensures some { IfSome result (UseBreaks (uses_of uses.now) now (Some wanted) generation) }
    ensures none { IfNone result (IsUse (uses_of uses.now) now (Some wanted) generation) }
{
    match uses.next(now, wanted) {
        None => Some(Reason::NoDeadline),
        Some(next) => {
            if next == generation {
                None
            } else {
                Some(Reason::OtherGeneration { next })
            }
        }
    }
}

/// Why a look at the last timer of a slot can't find this.
pub fn of_probe(judge: &Judge, wheel: u32, slot: u32, found: Option<Status>) -> Option<Reason>
    ensures some { (c : Clock) → IfSome result (ProbeBreaks (shown c judge.now) wheel slot found) }
    ensures none { IfNone result (found ≡ last_status judge.now wheel slot) }
{
    let status = judge.last_status(wheel, slot);
    if found == status {
        None
    } else {
        Some(Reason::OtherStatus { status })
    }
}

/// Why a read or a cancel can't tell that so much is left.
pub fn of_left(judge: &Judge, by: Actor, timer: TimerRef, told: Option<u64>) -> Option<Reason>
    ensures some { (c : Clock) → IfSome result (LeftBreaks judge.now.settings (shown c judge.now) by timer told) }
    ensures none { (c : Clock) → IfNone result (told ≡ left_of judge.now.settings (shown c judge.now) by timer) }
{
    let left = judge.left(by, timer);
    if is_left(told, left) {
        None
    } else {
        Some(Reason::OtherLeft { left })
    }
}

/// Whether this is told where so many milliseconds are left.
fn is_left(told: Option<u64>, left: Option<u128>) -> bool
    ensures { IsTrue result ↔ (told ≡ left) }
{
    match (told, left) {
        (Some(told), Some(left)) => told as u128 == left,
        (None, None) => true,
        _ => false,
    }
}

/// Why a timer can't expire.
pub fn of_expire(judge: &Judge, by: Actor, timer: TimerRef) -> Option<Reason>
    ensures some { (c : Clock) → OwnTimers judge.now → IfSome result (ExpireBreaks judge.now.settings (shown c judge.now) by timer) }
    ensures none { (c : Clock) → OwnTimers judge.now → IfNone result (IsNext judge.now.settings (shown c judge.now) by timer
        × (status_at judge.now.timers timer ≡ Some Status.Armed)) }
{
    let Some(found) = judge.timers.find(timer) else {
        return Some(Reason::NotArmed { status: None });
    };
    if found.status != Status::Armed {
        return Some(Reason::NotArmed {
            status: Some(found.status),
        });
    }
    if judge.is_next(by, timer) {
        return None;
    }
    Some(of_not_next(judge, by, timer, found))
}

/// Why an armed timer isn't the next of its wheel.
fn of_not_next(judge: &Judge, by: Actor, timer: TimerRef, found: Timer) -> Reason
    requires found { timer_in (timers_at judge.now.timers timer.wheel) timer ≡ Some found }
    requires armed { found.status ≡ Status.Armed }
    requires never { IsFirstDue (timers_at judge.now.timers timer.wheel) timer
        (milliseconds.down judge.now.settings (last_look judge.now by)) → ⊥ }
    ensures { (c : Clock) → OwnTimers judge.now → ExpireBreaks judge.now.settings (shown c judge.now) by timer result }
{
    let deadline = found.row.deadline;
    let looked = down(&judge.settings, judge.looks.of(by));
    if is_early(deadline, looked) {
        return Reason::NotDue {
            scheduler: timer.wheel,
            deadline,
            looked,
        };
    }
    let Some(first) = judge.timers.first_armed(timer.wheel) else {
        return Reason::NotNext;
    };
    if first.row.deadline < deadline {
        Reason::Later {
            first: first.row.timer,
            deadline: first.row.deadline,
        }
    } else {
        Reason::NotNext
    }
}

/// Whether a deadline is later than so many milliseconds.
fn is_early(deadline: u64, looked: i128) -> bool
    ensures early { result ≡ true → looked <ℤ pos deadline }
    ensures due { result ≡ false → pos deadline ≤ℤ looked }
{
    looked < deadline as i128
}

/// Why the destination of a timer can't have been found to have exited.
pub fn of_orphan(judge: &Judge, timer: TimerRef) -> Option<Reason>
    ensures some { (c : Clock) → IfSome result (OrphanBreaks (shown c judge.now) timer) }
    ensures none { (c : Clock) → IfNone result (HasDestExited (shown c judge.now) timer
        × (status_at judge.now.timers timer ≡ Some Status.Armed)) }
{
    let Some(found) = judge.timers.find(timer) else {
        return Some(Reason::NotArmed { status: None });
    };
    if found.status != Status::Armed {
        return Some(Reason::NotArmed {
            status: Some(found.status),
        });
    }
    if judge.exits.has_exited(found.row.dest) {
        None
    } else {
        Some(Reason::NotExited {
            dest: found.row.dest,
        })
    }
}

/// Why a look at a process can't find that it had exited, or not.
pub fn of_mark(judge: &Judge, process: u32, was: bool) -> Option<Reason>
    ensures some { IfSome result (MarkBreaks (exited_at judge.now.exits process) was) }
    ensures none { IfNone result (was ≡ exited_at judge.now.exits process) }
{
    let exited = judge.exits.has_exited(process);
    if was == exited {
        None
    } else {
        Some(Reason::OtherExit { exited })
    }
}

/// Why a wheel can't have settled all that was due at so many milliseconds.
pub fn of_advanced(judge: &Judge, by: Actor, wheel: u32, to: u64) -> Option<Reason>
    ensures some { (c : Clock) → OwnTimers judge.now → IfSome result (AdvancedBreaks judge.now.settings (shown c judge.now) by wheel to) }
    ensures none { (c : Clock) → OwnTimers judge.now → IfNone result ((pos to ≡ milliseconds.down judge.now.settings (last_look judge.now by))
        × AllSettled (status_at judge.now.timers) (λ d. nat_le d to) (rows_in judge.now.timers wheel)) }
{
    let looked = down(&judge.settings, judge.looks.of(by));
    if !is_at(to, looked) {
        return Some(Reason::OtherMilliseconds { looked });
    }
    let first = judge.timers.first_armed(wheel)?;
    if first.row.deadline <= to {
        Some(Reason::StillArmed {
            timer: first.row.timer,
            deadline: first.row.deadline,
        })
    } else {
        None
    }
}

fn is_at(to: u64, looked: i128) -> bool
    ensures { IsTrue result ↔ (pos to ≡ looked) }
{
    to as i128 == looked
}
