//! The commands of the programs over texts in memory as a static library for C: what `include/ertime_text.h` declares.
//!
//! `run_text` is what `ertime run` does with a scenario, and `judge_text` what `ertaudit` does with a history. Each takes
//! the bytes of an input, and gives an `Answer`: how it ended, what the program writes to standard output,
//! and the message that it writes to standard error. No stream stands between, no clock and no thread, so the contracts
//! speak of the very bytes: at `Done` the output is the transcript of the scenario, at `Refused` the bytes are refused,
//! by that line and with the message of a true explanation. Only memory may keep an input from its answer: without
//! memory for all of it nothing is told. `specs/Answers` says what each status means. The crate stands on `ert_program`,
//! which runs, and `ert_explain`, on `ert_audit`, which judges, and on `ert_io`; `sink` is a sink into memory, which
//! `run` writes to.
//!
//! The export `ert_run` makes the call `run_text`, and `ert_judge` the call `judge_text`: each tells how long the
//! two texts of the answer are, and copies what fits of them into the buffers of the caller. An export takes slices and
//! references alone: no handle, no pointer that is followed, nothing that lasts from one call to the next. So no proof
//! here is about memory, and each contract says of the very bytes what `specs/Texts` names.
//!
//! No exported function asks anything of its caller (there is no `requires`), and none follows a pointer but those of
//! the slices that it is passed.
//!
//! **A scenario from C.** `ert_run` (`exports.rt`) → `run_text` (`running.rt`) → `run` (`ert_program`) over the bytes,
//! into a `TextSink` → where it refuses them, `message_on` (`ert_explain`) → `copy_over` (`copying.rt`) puts what fits of
//! both texts into the caller's buffers.
//!
//! **Choices.**
//!
//! - **The programs over texts answer all or nothing.** The library could write the front of an answer where memory
//!   runs out, and leave out a message, as the programs do with their streams. But then status 3 would promise less:
//!   that a message is true if one comes. Now at each status the texts are whole, and a body that leaves out the
//!   message is refused.
//! - **A text that is too long is refused before anything is copied**, so status 8 has its exact cause in the contract.
//! - **An export takes slices and copies**: it follows no pointer of its own.
#![tactic(auto)]

mod answer;
mod copying;
mod exports;
mod judging;
mod running;
mod sink;

pub use exports::ErtTold;
