//! The state of the model, kept so that an auditor of histories finds each part of it without a scan.
//!
//! The model of `ert_defs` says what the state is after an entry. Here each part of that state has a type,
//! and goes on by an event by its own rule: the clock, the last looks, the timers of each wheel, the exits,
//! the mailboxes, the inboxes and the schedulers. A part has a cell for each number, and its `follow` says exactly
//! what each becomes (`specs/Parts`). Those of callers and of schedulers, some thousand at most, lie in lists that are
//! made at the opening; those of slots and of processes in maps, which have what an entry has named. Queues are taken
//! off at the front. A wheel's timers stand in order of arming, and beside them what finds them (`specs/Indexes`): the
//! place of each by slot and generation, the uses of each slot, and the armed ones in order of
//! deadline and then of arming. So an entry takes time that grows with the logarithm of what stands, but for
//! the at most 64 monitors of a process. The clock is that of
//! `ert_clock`, and the monitors are those of `ert_defs`.
//!
//! **Choices.**
//!
//! - **The auditor keeps timers in order of arming, and an ordered set of the armed ones**; ordered maps, since a text
//!   could be written to slow down a hash map with a fixed seed.

mod clock;
mod exits;
mod inboxes;
mod lists;
mod looks;
mod mailboxes;
mod schedulers;
mod timers;
mod uses;
mod wheels;

pub use clock::{Clock, may_act};
pub use ert_defs::milliseconds::{deadline_of, down, left, passed};
pub use exits::Exits;
pub use inboxes::Inboxes;
pub use looks::Looks;
pub use mailboxes::Mailboxes;
pub use schedulers::Schedulers;
pub use timers::Timers;
pub use uses::Uses;
pub use wheels::Timer;
