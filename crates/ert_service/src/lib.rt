//! The service for many threads: one desk, and every part behind a lock of its own.
//!
//! **What it is.** Threads share a `Service` by a `&`. A thread acts as a caller or as a scheduler, by its
//! seat (`ert_locks`), and makes its calls through a `Session`, which has the seat. The calls that tell the time,
//! read or cancel a timer, or look whether a process is alive take no lock. Each other call takes the lock of the
//! part that it needs, one after the other where it needs several, and at most one is held at a time.
//!
//! **What it promises.** Each call that returns takes place: the history has grown by it, in the words that
//! tell a call of one thread too (`ert_effects`), said over the way `beside`. So from the place at which a
//! call gets a lock on, no other entry of the seat's actor or of the part stands between its own, and they
//! are allowed in the state at that place. A call that has taken several locks is the chain of its steps,
//! between which others may step. What a seat knows is a legal history.
//!
//! The number of the part behind a lock is known to its holder alone. So a call that finds another number lets
//! go and tries again. Nothing is claimed of progress: a call may wait for a lock for ever.
//!
//! It stands on `ert_locks` and `ert_world`, on the parts' crates, `ert_table` and `ert_effects`.
//!
//! Nothing is claimed of progress, of fairness, or of order between threads that never met: a call may wait for a lock
//! for ever.
//!
//! **Choices.**
//!
//! - **A service is opened from the parts of a world**, because a world's value does not tell which desk it has.
//! - **The calls of a service are methods of one struct** (`Session`: the service, what waits for its locks, the seat),
//!   those without a lock too, so no program handles a pass. It has its seat by value, since a contract over a borrowed
//!   seat has to say for each call that the borrow is still the same. A scripted caller is a struct around it
//!   (`SessionDoer`), since an impl of another crate's trait has to name a type of its own crate.
//! - **The memory for closing a service is taken when it is opened**; the parts are put in order by their numbers.
#![tactic(auto)]

mod clock_calls;
mod exits;
mod joining;
mod laws;
mod mail_calls;
mod noting;
mod opening;
mod rooms;
mod sched_steps;
mod service;
mod session;
mod timer_calls;
mod turns;

pub use ert_effects::Turned;
pub use ert_locks::{CallerSeat, DeskName, DeskNote, SchedSeat};
pub use laws::calls_settle_timers;
pub use service::{Opened, Service};
pub use session::{CallerSession, SchedSession, Session};
