//! Intervals: timers that fire again and again, at fixed absolute times.
//!
//! **What it is.** An interval has a first deadline and a period. Its timers have the deadlines
//! `first`, `first + period`, `first + 2 * period`.. , whatever the time is when they are started. So none is
//! skipped and none drifts. A turn of the wheel's scheduler starts the next timer of each interval whose last
//! one isn't armed any more: one for each interval in a turn, so late ones catch up turn by turn.
//!
//! One interval over a late turn, with `first` 10 and a period of 5 (milliseconds):
//!
//! ```text
//! deadlines    10        15        20        25        30
//! turn at 10    fires 10, arms 15
//! (no turn from 10 to 27)
//! turn at 27              fires 15, arms 20
//! turn at 27                        fires 20, arms 25
//! turn at 27                                  fires 25, arms 30
//! turn at 27                                            fires none: 30 is armed
//! ```
//!
//! It differs from `timer:send_interval`, whose messages come from a process of its own: here each firing is
//! a timer of a wheel, whose reference can be had (`IntervalWorld::firings`), and no message is sent but by
//! a turn.
//!
//! **What it promises.** Each call keeps `AreIntervalsKept` (specs/Intervals): the `j`-th timer of an interval has a
//! row in the history with the deadline of `first + j * period`, each but the last has expired, and had
//! before the next was armed, and a stopped interval has no armed timer. In a later round of its slot, after
//! 262143 uses, a deadline that has passed at the start of its timer counts as the time of the look then: the
//! timer is late as it was, and the deadlines of the next ones stay (`HasToldDeadline`). Each call says how the states
//! move (specs/Calls and specs/Turns). A turn adds to the history, after the world's own turn, exactly the
//! entries of its intervals in order of number: the read of the last timer, the look at the destination and
//! the start of the next timer (specs/Going). So each timer that a turn starts is the new firing of an interval.
//!
//! The module `intervals` of the crate `ert_tests` is an example of its use.
//!
//! **Cost.** A turn reads the last timer of each Running or Waiting interval of its wheel, in order of
//! number, and passes over the others.
//!
//! Of two intervals that are due with one free slot the lower number gets it. After memory ran out, the intervals
//! before have made their steps, and the one in hand has started nothing.
//!
//! An interval differs from `timer:send_interval` of the standard library in three ways: its deadlines are those that
//! were asked for (one that has passed may count as the time of the turn), not the time at which a process comes round
//! to it; a firing is a timer, with a reference that can be read; and a late turn sends one message of each interval,
//! so a burst after a pause is spread over turns.
//!
//! **One late interval.**
//!
//! 1. **The interval.** `every(0, 10, 5, 0, 9)` (`crates/ert_interval/src/intervals.rt`) starts a timer with the
//!    deadline 10. Each `turn` of scheduler 0 makes the world's turn, and then goes over the intervals of the wheel
//!    (`turns.rt`): the last timer of this one has expired, so `go_on` (`going.rt`) starts the next, with the deadline
//!    15, whatever the time is.
//! 2. **A late turn.** When the next turn comes at 27, the timer of 15 expires and that of 20 is started, which is late
//!    already. The turn after it lets that expire, and starts the one of 25; a third does so again, and then 30 is
//!    armed. No deadline is skipped, each firing is late by what the turn was late, and as soon as the turns come in
//!    time, so do the firings.
//!
//! **Choices.**
//!
//! - **A turn looks at the last timer of each open interval of its wheel**, in order of number, since the world does
//!   not tell which timers expired.
//! - **That intervals are kept (`AreIntervalsKept`) is a condition and a promise of each call**, so that a reader of the
//!   contracts sees what is kept.
//! - **What the intervals of a turn do is a chain of their own calls**: a body that starts a stray timer is refused.
#![tactic(auto)]

mod going;
mod interval;
mod intervals;
mod turns;

pub use interval::IntervalState;
pub use intervals::{IntervalErr, IntervalWorld};
pub use turns::IntervalTurn;
