//! Reads histories that were written down: the settings of a service and a list of entries, one to a line.
//!
//! `specs/Spelling` says which bytes spell which history and
//! at which line other bytes are misspelled, by the words of each part (`specs/Parts`, `specs/Entries`).
//! The code reads each line from the left, a function for each part, and takes no memory but for the list
//! of entries. `docs/FORMATS.md` tells the spelling in words.
//!
//! **Choices.**
//!
//! - **A written history is read word by word where it stands**, so memory is needed for the entries alone.
//! - **Settings that no service can be opened with are misspelled at line 1.**

mod actors;
mod cutting;
mod entries;
mod events;
mod faults;
mod history;
mod laws;
mod mails;
mod numbers;
mod settings;
mod timers;
mod turns;
mod wanted;
mod words;

pub use faults::{fault_in, first_word, unfit};
pub use history::{History, SpellingErr, read_history};
pub use laws::one_spelling;
pub use wanted::{Wanted, WordFault};
