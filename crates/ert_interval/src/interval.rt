//! One interval, and its fixed deadlines.
ghost use Rattle.std.specs.Prelude.{◌≡◌, ◌+◌, ◌≤◌, ◌↔◌, IsTrue};
ghost use Rattle.ert_interval.specs.Deadlines.{NextIs, start_at, time_of_deadline};
ghost use Rattle.ert_defs.specs.Settings.{IsStart};

use ert_defs::milliseconds::{LAST_DEADLINE, NANOSECONDS_PER_MILLISECOND};
use ert_defs::{Kind, Settings, Start, TimerRef, When};

/// Where an interval stands.
#[derive(Clone, Copy, Debug, PartialEq, Eq)]
pub enum IntervalState {
    /// Its last timer is armed, or a turn of its wheel starts the next.
    Running,
    /// A turn found no free slot for its next timer. The next turn tries again.
    Waiting,
    /// It was stopped.
    Stopped,
    /// Its destination has exited, or its next deadline is above the greatest.
    Ended,
}

impl IntervalState {
    ghost use Rattle.ert_interval.specs.Intervals.{IsOpen};

    /// Whether a turn goes on with an interval in this state.
    pub(crate) fn is_open(self) -> bool
        ensures { IsTrue result ↔ IsOpen self }
    {
        matches!(self, IntervalState::Running | IntervalState::Waiting)
    }
}

/// What was asked for, what came of it, and the timers so far.
#[derive(Drop)]
pub struct Interval {
    /// The scheduler that manages its timers.
    pub(crate) wheel: u32,
    /// Its first deadline, an Erlang monotonic time in milliseconds.
    pub(crate) first: i64,
    /// Milliseconds from one deadline to the next, at least 1.
    pub(crate) period: u64,
    /// The process that its messages go to.
    pub(crate) dest: u32,
    pub(crate) msg: u64,
    pub(crate) state: IntervalState,
    /// Its last timer.
    pub(crate) last: TimerRef,
    /// The deadline that it was started for, in milliseconds after the start time.
    pub(crate) deadline: u64,
    /// All its timers, in order.
    pub(crate) firings: Vec<TimerRef>,
}

/// The deadline after one that a timer was started for; None where it is above 8796093022207.
pub(crate) fn next_deadline(deadline: u64, period: u64) -> Option<u64>
    requires { deadline ≤ 8796093022207 }
    ensures { NextIs (deadline + period) result }
{
    if period <= LAST_DEADLINE - deadline {
        Some(deadline + period)
    } else {
        None
    }
}

/// The monotonic time in milliseconds of a deadline.
fn time_of(deadline: u64, settings: &Settings) -> i64
    requires start { IsStart settings.now.start }
    requires high { deadline ≤ 8796093022207 }
    ensures { result ≡ time_of_deadline settings.now deadline }
{
    deadline as i64 + settings.start.div_euclid(NANOSECONDS_PER_MILLISECOND)
}

/// The start of a timer of an interval, for a monotonic time in milliseconds. All of them are wrapped.
pub(crate) fn start_at(time: i64, dest: u32, msg: u64) -> Start
    ensures { result ≡ start_at time dest msg }
{
    Start {
        when: When::At(time),
        dest,
        msg,
        kind: Kind::Wrapped,
    }
}

/// The start of a timer of an interval, for a deadline.
pub(crate) fn start_for(deadline: u64, settings: &Settings, dest: u32, msg: u64) -> Start
    requires start { IsStart settings.now.start }
    requires high { deadline ≤ 8796093022207 }
    ensures { result ≡ start_at (time_of_deadline settings.now deadline) dest msg }
{
    start_at(time_of(deadline, settings), dest, msg)
}
