//! Races: ops on one thread, then lists of several threads at once, and the report of all.
//!
//! `race_on` lends a world to several threads: each caller does its list and each scheduler its turns, over one
//! service. When all have returned, the world is put together again, and each scheduler makes one turn more.
//! `run_race` does the ops first, and writes the report. What comes of it is an outcome (`specs/Outcomes`): one
//! legal history, and the report of its replies. `specs/Made` says what one actor makes in a stretch of a history
//! beside others, and `specs/Reports` what the text is. Many outcomes come of one race, since the threads may step
//! in any order; each race has one (`races_have_outcomes`).
//!
//! **The threads.** One of them keeps the clock, and acts as caller 0; one makes turns, for each scheduler; and
//! each further one does a list of ops as a caller of its own. Each worker has its seat (`ert_locks`), whose pass
//! knows a first part of the history. What it knows at the end is longer by what it did and what others did
//! meanwhile. A list of ops is a script run of them (`ert_ops`), told over the way `beside`: it stands piece
//! by piece, each piece allowed with its reply in the state at its place. The turns of a scheduler stand so too.
//! If memory runs out, a worker stops, and has its seat still, whose pass knows what the first ops made, and the
//! one that failed.
//!
//! **Labels.** A list knows the labels that were bound before the race, by the `LabelMap` of the ops, which all
//! workers share, and its own, for which it keeps another. It knows none of another list.
//!
//! The threads are those of `ert_service` and `ert_locks`, the ops and the text those of `ert_script`.
//!
//! **Choices.**
//!
//! - **The outcome of a race is stated on positions** (`MakesInStretch`), since a call without entries has a place too.
//! - **A list of ops of a race keeps an index of its own labels** beside the shared one, so nothing is copied.
//! - **The turns of a scheduler in a race print nothing**, so no vector of their answers is kept.
//! - **The workers of callers and of schedulers are two `map_vec`**, each over seats of one type.
//! - **A race's report is gathered whole before it is written**: the replies are held until all threads have returned
//!   anyway.

mod contested;
mod existence;
mod gates;
mod laws;
mod list;
mod op;
mod race;
mod report;
mod round;
mod run;
mod session_doer;
mod turns;
mod workers;

pub use contested::a_contest_has_an_outcome;
pub use existence::races_have_outcomes;
pub use gates::{FreeGate, Gate, LedgerGate};
pub use laws::lists_are_done_whole;
pub use list::ListDone;
pub use race::{RaceEnd, race_on};
pub use run::run_race;
