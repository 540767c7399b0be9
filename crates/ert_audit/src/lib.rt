//! What the program `ertaudit` does, over any source and sink of bytes: it reads a history of the clock and timer
//! service that was written down, and tells whether it is legal.
//!
//! `audit` is the whole of that; its contract says what each status means, by the spelling of histories
//! (`spelling`) and the model of the service (`ert_defs`). `explain` tells why a history isn't legal, or why a text
//! spells none; its contract says that what is told is so. Without streams, `find_in` judges a text, `Finding::verdict`
//! gives the verdict, `write_verdict` its line, and `message_on` the message. `spelling` reads. The crate stands on
//! `ert_judge`, which finds the first entry that isn't legal and the condition that it breaks, and on `ert_io`;
//! of the service itself it has only the clock's rules on plain numbers.
//!
//! The crate `ert_audit_cli` hands it the standard streams of the machine.
//!
//! **Choices.**
//!
//! - **A text is read whole before it is judged**, since a misspelling further on counts first.
//! - **The auditor reads no words of its command line.**
//! - **What `ertaudit` does is a library, `ert_audit`**, and `ert_audit_cli` a `main` over it, as `ert_cli` is over
//!   `ert_program`, so that other crates can stand on it.
//! - **What an audit says and why are two functions.** `audit` gives back the text with the status and with what was
//!   found of it, from which `explain` makes the message: so a reader of the verdict needs no definition of a message,
//!   and a text is read and judged once.
#![tactic(auto)]

mod auditing;
mod explaining;
mod lines;
mod refusing;
mod spelling;
mod status;
mod verdict;

pub use auditing::{Audited, audit};
pub use explaining::{explain, message_on};
pub use spelling::one_spelling;
pub use status::AuditStatus;
pub use verdict::{Finding, Verdict, find_in, one_verdict, write_verdict};
