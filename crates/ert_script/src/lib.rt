//! Runs a list of ops on a world, and writes the text of their replies.
//!
//! It stands on `ert_world`, whose calls it makes, on `ert_ops`, whose definitions say which history
//! an op allows with its reply and what its line is, and on `ert_io` for the output. `do_op` does one op,
//! over whoever makes the calls (`Doer`): here a world, and in a race a caller of a service. `reply_op` does one on a
//! world, and binds the label of a start once its timer was started. `run_ops` does a list of them and writes one
//! line for each; `do_ops` does them and writes nothing, and `write_settled` tells how many timers have which status.
//! What they did is a script run: a piece of history for each op, with its reply.
//!
//! **Labels.** A message is printed with the label of its timer, and an op names a timer by its label: `LabelMap`
//! finds each from the other, so that neither costs more where many labels are bound. The labels of a list stand
//! in it, so that the next list finds them.
//!
//! **Text.** `write_line` appends the line of a reply to a page. `put` appends a line and writes the page out where
//! it is full, so that many lines take one write.
//!
//! Where memory runs out, a world has done some first ops, and of the next what it makes before it takes memory
//! (`specs/Doing`, `BreaksOff`): for most ops nothing.
//!
//! **Choices.**
//!
//! - **Labels are the scripts' own.** A world and a service do not bind them.
//! - **After a failed write the first part of some first ops' lines is written**, or of the transcript.
//! - **Labels are found by two ordered maps**; the first label that was bound to a timer is printed.
//! - **One dispatcher does the ops of scripts and of races**, over a trait of the calls that a caller makes (`Doer`).
//! - **The line of the counts is written in `ert_script`**, since the crate of the lines lies below the world.
#![tactic(auto)]

mod clock_line;
mod doer;
mod doing;
mod first;
mod label_map;
mod line;
mod mail_line;
mod output;
mod replies;
mod reply;
mod run;
mod sched_ops;
mod settled;
mod words;
mod world_doer;

pub use doer::Doer;
pub use doing::do_op;
pub use label_map::{LabelMap, NO_TIMER, label_asked};
pub use line::{write_end, write_line};
pub use output::{RunErr, write_page};
pub use reply::{reply_op, tick};
pub use run::{do_ops, history_stands, run_ops};
pub use settled::write_settled;
