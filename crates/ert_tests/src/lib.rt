//! Tests of public calls, in one crate: a crate of tests loads and compiles all that it stands on. They stand apart from
//! the crates that they test, so that each of these is proved once, and not a second time with its tests.
//!
//! They are of readings of the machine's clocks, the words of a desk and unique integers; of what a world leaves on its desk, of
//! a hub with its shards, of names and intervals over a world, and of a service's opening; of scenarios that are migrated, of the
//! program over streams in memory of which a call fails, and of races over gates that choose which of two steps comes first. A
//! test is a table of steps, each a call with its answer, that one function goes through. What a scenario can show stands in
//! `examples/ertime` in place of here, what a race can show in `examples/races`, what a program in C can show in
//! `examples/c/tests`, and what is read and written of a text in `examples/messages`.
//!
//! **Choices.**
//!
//! - **Tests of a world are in a crate of their own**, and look up that no seat was given out.
//! - **Tests are tables of steps that one function runs.** A comparison in line is proved with all that the calls
//!   before it promise. What a scenario can show is an example with its transcript.
//! - **All tests in Rattle are one crate** (`ert_tests`): a crate of tests loads the statements of what it stands on
//!   and compiles their code, some processor minutes, whatever it holds. What an example, a race or a program in C
//!   shows is tested there alone: so a service is only opened, used once and closed here, and each call of it stands in
//!   `examples/races`.
//! - **What is read of scenarios and histories is told by rows of `examples/messages` alone.** A table of ops or of
//!   entries beside its text tests the reader without the program, but costs a proof of its comparison and the load of
//!   a library; a row tells the same by what comes of each value, and a reader that took one word for another would
//!   write another line or find a legal history illegal.
//! - **That threads cross on one service is shown by a race of 40,000 calls that a script makes** (`.ci/check_races`),
//!   which counts in the report what each timer came to. As a test in Rattle it was twenty functions, of which each had
//!   to be proved.
#![tactic(auto)]

#[cfg(test)]
mod examples;
#[cfg(test)]
mod tests;
