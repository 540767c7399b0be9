//! The clock of the service, for one thread: it turns readings of the operating system's clocks into
//! Erlang monotonic time and the time offset (ERTS User's Guide, "Time and Time Correction in Erlang").
//! It stands on `ert_defs`, takes no memory, and its calls look at a dozen numbers.
//!
//! **What is kept.** The settings, and a face (`faces.rt`): the time, the offset with its state, the
//! greatest OS monotonic time so far, and what the last check found: the time, the OS monotonic time and
//! the OS system time then, with the rate that it set. No call keeps a list of readings. The first
//! reading counts as the last check, at the start time and with rate 0.
//!
//! **Time.** It moves only at a tick. With correction it is on a line from the last check: the time there,
//! and what OS monotonic time has grown since, faster or slower by the rate in parts per million, rounded
//! down. A reading whose OS monotonic time is below an earlier one counts as that. Without correction the
//! time is OS system time less the offset, and stays where that would be earlier. It never falls.
//!
//! **Checks.** A tick is a check where it is forced, or where the last check is a minute away: in OS
//! monotonic time with correction, in OS system time without. A check ends the tick. The line starts again
//! at the time to which the tick came, so that a new rate never makes time leap. In state final the rate is
//! one percent up where OS system time is more than 100 milliseconds ahead of system time (time plus
//! offset), 500 parts per million where it is more than one ahead, the same down where it is behind, and
//! else 0. In the other states it is 0. A rate stands until the next check.
//!
//! **The offset.** In no time warp mode it is final from the start. In multi time warp mode it is
//! volatile, and a check that finds it more than a millisecond off sets it to OS system time less time. In
//! single time warp mode it is preliminary until `finalize`, which is a tick without a check: it sets the
//! offset, makes it final, and counts as a check from then on, with rate 0. The offset stays between -2^62
//! and 2^62: a tick or a finalization that would move it further is refused, and changes nothing.
//!
//! **What the contracts say.** `ert_defs` has the same rules as definitions, on a face found by looking
//! back over a history. The clauses `gives` pin what each call answers and leaves, by these rules. The
//! clauses `stands` say it of histories: a clock that stood for a legal history stands, after a call, for
//! that history with the call's entries last, a Tick and then the Shift that it made due. All numbers
//! fit 64 bits, or 128 where they are multiplied: that is proved from bounds which each clock keeps.
//!
//! **Choices.**
//!
//! - **The rate is computed also without correction**, where it changes nothing.
//! - **The history finds the last check by looking back**; the code keeps three numbers.
//! - **The clock computes in 128 bits**, since three numbers of 64 bits may differ by more; a refused offset is told
//!   with 128.
//! - **A product is divided in 64 bits if they suffice**, and not at all if it is 0: a division of 128 bits took a
//!   quarter of a tick.
#![tactic(auto)]

mod clock;
mod faces;

pub use clock::{Clock, ClockErr, Moved};
pub use faces::{Face, Line, is_offset};
