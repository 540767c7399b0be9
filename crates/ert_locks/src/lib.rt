//! What stands behind the locks of a service for many threads, and what its threads hold.
//!
//! **Seats.** A thread acts as one caller or as one scheduler. Its seat has the pass with that one actor
//! (`CallerSeat`, `SchedSeat`); the seat of a scheduler also has the scheduler's part, which stands for what
//! the pass knows.
//!
//! **Locked values.** The clock's part, each wheel, each inbox and each mailbox (`DeskPart`) stands behind a
//! lock of its own, with the pass that has its one actor (`Locked`). What is kept while the lock is free: the
//! part stands for the front of that pass, and the actor has the part's number (`specs/Kinds`, `Fits`). A call
//! is lent the value (`Locked::lend`). It joins the seat's pass to the value's, makes its steps, and divides them
//! again. So its entries stand whole in the history: from the place at which it has the lock on, no entry of the
//! seat's actor or of the part comes between them, and they are allowed in the state at that place
//! (`specs/Passes`, `StepsWith`; in `ert_effects` `specs/Ways`, `beside`).
//!
//! **Names.** What is behind a lock is known by its type alone. So seats and locked values carry the name of
//! one desk (`DeskName`): its identity and its settings.
//!
//! It stands on `ert_defs`, `ert_clock`, `ert_effects`, `ert_table` and on the parts' crates.
//!
//! **Choices.**
//!
//! - **A call of a service borrows its seat**: it takes the pass out, joins it to the locked one, steps, and splits it
//!   off again.
#![tactic(auto)]

mod allowed;
mod desk_part;
mod inbox;
mod keeper;
mod lending;
mod locked;
mod mail;
mod names;
mod notes;
mod seats;
mod wheel;

pub use desk_part::DeskPart;
pub use locked::Locked;
pub use names::DeskName;
pub use notes::DeskNote;
pub use seats::{CallerSeat, SchedSeat};
