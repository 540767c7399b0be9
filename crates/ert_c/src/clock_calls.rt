//! The calls on the clock.
ghost use Rattle.std.specs.Prelude.{◌≡◌};
ghost use Rattle.ert_c.specs.ClockCalls.{state_as, moved_as, IsMoved, IsFinalized};

use crate::status::{BAD_READING, OFFSET_WIDE, OK};
use ert_clock::{ClockErr, Moved};
use ert_defs::OffsetState;

/// What a tick or a finalization did.
#[repr(C)]
#[derive(Clone, Copy)]
pub struct ErtMoved {
    /// Monotonic time after it, in nanoseconds.
    pub now: i64,
    /// The new time offset, in nanoseconds, where it was set.
    pub shift: i64,
    /// 1 where the time offset was set, and else 0.
    pub shifted: u32,
}

/// The time offset.
#[repr(C)]
#[derive(Clone, Copy)]
pub struct ErtOffset {
    /// In nanoseconds.
    pub offset: i64,
    /// 0, 1 and 2: preliminary, final and volatile.
    pub state: u32,
}

/// The number of a state of the offset.
pub(crate) fn state_as(state: OffsetState) -> u32
    ensures { result ≡ state_as state }
{
    match state {
        OffsetState::Preliminary => 0,
        OffsetState::Final => 1,
        OffsetState::Volatile => 2,
    }
}

fn moved_as(moved: Moved) -> ErtMoved
    ensures { result ≡ moved_as moved }
{
    match moved.shift {
        Some(shift) => ErtMoved {
            now: moved.now,
            shift,
            shifted: 1,
        },
        None => ErtMoved {
            now: moved.now,
            shift: 0,
            shifted: 0,
        },
    }
}

/// Returns the answer of a tick.
pub(crate) fn tell_moved(answer: Result<Moved, ClockErr>, moved: &mut ErtMoved) -> i32
    ensures { IsMoved answer moved.old result moved.new }
{
    match answer {
        Ok(done) => {
            *moved = moved_as(done);
            OK
        }
        Err(ClockErr::BadReading) => BAD_READING,
        Err(ClockErr::OffsetWide { value: _ }) => OFFSET_WIDE,
    }
}

/// Returns the answer of a finalization.
pub(crate) fn tell_finalized(
    answer: Result<(OffsetState, Moved), ClockErr>,
    before: &mut u32,
    moved: &mut ErtMoved,
) -> i32
    ensures { IsFinalized answer before.old moved.old result before.new moved.new }
{
    match answer {
        Ok((state, done)) => {
            *before = state_as(state);
            *moved = moved_as(done);
            OK
        }
        Err(ClockErr::BadReading) => BAD_READING,
        Err(ClockErr::OffsetWide { value: _ }) => OFFSET_WIDE,
    }
}
