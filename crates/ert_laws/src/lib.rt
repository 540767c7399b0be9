//! The laws of the model: what a stranger may expect of each legal history. What the clock may do, the lives
//! of timers and how many have which status, the order of messages, what a message tells of a change of the time
//! offset, and what the numbers in a history name. Worked histories test the definitions.
//!
//! It stands on `ert_defs` alone. Its functions do nothing: each has laws as its contract, so that they are
//! proved wherever this crate is. They stand apart from the model so that a change of a law proves nothing anew
//! but the law and what cites it; what the proofs of the service rest on stands in `ert_defs`.
//!
//! **Choices.**
//!
//! - **Most laws are apart from the model** (`ert_laws`), so that a change of a law proves none of the service anew.
//! - **A life is read off the entries**, and a message has its timer beside it, since that of a bare timer does not
//!   name it.
//! - **The counts of timers by status are among the laws**, below the services and the transcript, since both cite
//!   them.
//! - **What is so of every legal history is one record** (`KeepsLaws`), which needs only that the settings were
//!   checked. It is a law of `ert_laws`; `into_desk`, `Service::close` and the program promise it, so that their reader
//!   need not go from `Legal` to the laws by himself.
#![tactic(auto)]

mod all_laws;
mod changes;
mod clock_laws;
mod counts;
mod lives;
mod mail_order;
mod punctual;
mod ranges;
mod worked;

pub use all_laws::legal_histories_keep_the_laws;
pub use changes::changes_tell_another_offset;
pub use clock_laws::{
    clock_is_permitted, clock_looks_back, no_timer_expires_early, rounds_have_begun,
    time_never_falls, times_stay_in_range,
};
pub use counts::{statuses_are_counted, timers_are_counted, timers_are_few};
pub use lives::{expired_timers_wait_once, timers_have_six_lives};
pub use mail_order::{mailboxes_keep_order, timer_messages_come_in_order};
pub use punctual::due_messages_are_put;
pub use ranges::{
    expired_timers_are_few, requests_are_in_range, rows_are_in_range, timers_have_rows,
};
pub use worked::{histories_are_judged, lives_and_mail_are_read};
