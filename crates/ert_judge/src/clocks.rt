//! Why an event of the clock can't follow.

ghost use Rattle.std.specs.Prelude.{◌≡◌, ◌↔◌, IsTrue, IfSome, IfNone, Some, None};
ghost use Rattle.ert_clock.specs.Faces.{face_of};
ghost use Rattle.ert_defs.specs.Legal.{CanTick};
ghost use Rattle.ert_judge.specs.Breaks.{TickBreaks, ShiftBreaks, LookBreaks, OffBreaks, TellBreaks};

use crate::reasons::Reason;
use crate::state::{Clock, may_act};
use ert_clock::is_offset;
use ert_defs::{Act, OffsetState, Reading, Settings};

/// Why a tick can't be made.
pub fn of_tick(
    settings: &Settings,
    clock: &Clock,
    reading: Reading,
    act: Act,
    now: i64,
) -> Option<Reason>
    ensures some { IfSome result (TickBreaks settings.now (face_of clock.now.face) clock.now.due reading act now) }
    ensures none { IfNone result ((clock.now.due ≡ None) × CanTick settings.now (face_of clock.now.face) reading act now) }
{
    if let Some((offset, state)) = clock.due {
        return Some(Reason::ShiftFirst { offset, state });
    }
    if !reading.is_valid() {
        return Some(Reason::BadReading);
    }
    if !may_act(act, clock.face.state) {
        return Some(Reason::NotPreliminary {
            state: clock.face.state,
        });
    }
    let time = clock.face.time_after(settings, reading);
    if !is_time(now, time) {
        return Some(Reason::OtherTick { time });
    }
    let (offset, state) = clock.face.due_after(settings, reading, act, now)?;
    if is_offset(offset) {
        None
    } else {
        Some(Reason::OffsetPast { offset, state })
    }
}

fn is_time(told: i64, time: i128) -> bool
    ensures { IsTrue result ↔ (told ≡ time) }
{
    told as i128 == time
}

/// Why a shift can't be made.
pub fn of_shift(clock: &Clock, offset: i64, state: OffsetState) -> Option<Reason>
    ensures some { IfSome result (ShiftBreaks clock.now.due offset state) }
    ensures none { IfNone result (clock.now.due ≡ Some (offset, state)) }
{
    if clock.due == Some((offset, state)) {
        None
    } else {
        Some(Reason::OtherShift { due: clock.due })
    }
}

/// Why a look can't tell this time.
pub fn of_look(clock: &Clock, told: i64) -> Option<Reason>
    ensures some { IfSome result (LookBreaks clock.now.face.time told) }
    ensures none { IfNone result (told ≡ clock.now.face.time) }
{
    let now = clock.face.time;
    if told == now {
        None
    } else {
        Some(Reason::OtherTime { now })
    }
}

/// Why a reading of the offset can't tell these.
pub fn of_off(clock: &Clock, told: i64, told_state: OffsetState) -> Option<Reason>
    ensures some { IfSome result (OffBreaks clock.now.face.offset clock.now.face.state told told_state) }
    ensures none { IfNone result ((told ≡ clock.now.face.offset) × (told_state ≡ clock.now.face.state)) }
{
    let offset = clock.face.offset;
    let state = clock.face.state;
    if told != offset {
        Some(Reason::OtherOffset { offset })
    } else if told_state != state {
        Some(Reason::OtherState { state })
    } else {
        None
    }
}

/// Why a process can't be told this offset.
pub fn of_tell(clock: &Clock, told: i64) -> Option<Reason>
    ensures some { IfSome result (TellBreaks clock.now.face.offset told) }
    ensures none { IfNone result (told ≡ clock.now.face.offset) }
{
    let offset = clock.face.offset;
    if told == offset {
        None
    } else {
        Some(Reason::OtherOffset { offset })
    }
}
