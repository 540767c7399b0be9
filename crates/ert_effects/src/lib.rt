//! What each call of the service may record, and what it answers.
//!
//! A call makes entries and answers by them. `specs/` has a relation for each call: of the settings, of who
//! makes the call, of its arguments and its answer, of the state before, and of the list of its entries. The
//! cases go by the answer, refusals and running out of memory among them. What no step of the call tells is asked of
//! the state; what a step tells, a time or an offset, is a field of its entry. So the same relation is read
//! where others step between: there too, what it asks of the state belongs to an actor that the call holds.
//!
//! | calls | relations |
//! |---|---|
//! | on the clock | `specs/ClockCalls` |
//! | that read, cancel and start timers | `specs/TimerCalls` |
//! | that gives an armed timer a new deadline | `specs/RestartCalls` |
//! | that looks how much room a wheel has | `specs/RoomCalls` |
//! | over the timers of a wheel, and on exits | `specs/WheelCalls` |
//! | over so many of them at most | `specs/SomeCalls` |
//! | on the mailbox and the monitors of a process | `specs/MailCalls` |
//! | on asynchronous requests | `specs/RequestCalls` |
//! | of several locked steps: to serve, to deliver, a turn, an exit | `specs/Chains` |
//!
//! **Ways.** A locked step comes about in a way (`specs/Ways`): alone, so that its entries are the whole
//! piece by which the history grows, or beside others, so that they stand in the piece among entries of
//! others. A call of several locked steps is said once, with the way as an argument. A history that grows by
//! a call after another grows by both, whatever the way.
//!
//! **What the entries tell** of an answer, `specs/Told` names.
//!
//! It stands on `ert_defs`, and on `ert_clock` for what a tick answers. The answers that the parts of the
//! service give are types of this crate.
//!
//! **Choices.**
//!
//! - **What each call may record is stated once**, as a relation by cases on the answer (`ert_effects`); no function,
//!   since a start may take any free slot.
//! - **A call of several locks is a chain of locked steps** over a way, so one text serves one thread and many.
//! - **The number of a monitor in an answer is at most 4294967295**, so that a monitor and the refusal for want of
//!   numbers exclude each other.
//! - **A cancel without the exchange answers none.** The relation says so itself.
//! - **A sweep cancels only timers whose row names the process that exits**, so an exit can't cancel another process's
//!   timer.
//! - **A sweep leaves no armed timer of its wheel for the process**, since the wheel is held.
//! - **What a call leaves settled is a clause if the caller can say it, and otherwise a law** for all later histories,
//!   with the call's clause as its premise.
#![tactic(auto)]

mod answers;
mod laws;
mod told_answers;
mod worked;
mod worked_some;

pub use answers::{
    Handed, Left, MonitorErr, RestartErr, Room, SERVED_A_TURN, StartErr, Taken, Turned,
};
pub use laws::{answers_are_read, exits_settle_timers, messages_are_read, turns_deliver_all};
pub use told_answers::{asks_are_told, exits_are_told, turns_are_told};
pub use worked::{
    advances_are_judged, cancels_are_judged, exits_are_judged, messages_are_judged,
    monitors_are_judged, refusals_are_judged, starts_are_judged, turns_are_judged,
};
pub use worked_some::bounded_advances_are_judged;
