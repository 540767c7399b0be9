//! Registered names (`erlang` module reference, `register`), and timers that are started for a name.
//!
//! **What it is.** A world (`ert_world`) with the names of processes beside it. A timer that is started for a
//! name goes to the process that has the name when its message is handed over, and not to the one that had it
//! at the start. Process 0 is the registrar: the world sends the messages for names to it, each with the place
//! of its row, where name, message and kind stand. A turn of a scheduler then hands them over.
//!
//! **What it promises.** Each call says how the names, the rows and the named mail change, and how the world's
//! history grows (`specs/Calls.antt`). `NameWorld::world` says what every history has: it is legal, each timer
//! has one life and so one message, the registrar lives and has the messages of named timers alone, and no exit
//! settles one of these (`specs/Promised.antt`). Each name is that of a process that lives (`specs/Living.antt`).
//!
//! The module `names` of the crate `ert_tests` is an example of its use.
//!
//! **What it costs.** To register, to look up and to hand over goes with the logarithm of how many names there
//! are, in std's ordered maps; a name stands in memory twice. A row stays for the life of the world: some 40 bytes
//! and the bytes of its name, for each start. A turn looks at the messages of the registrar alone. To take
//! named mail goes over what waits for all processes.
//!
//! So a named timer's message is handed over once at most: each life has one message at most, what was put into the
//! registrar's mailbox was taken once or stands there, and each message that was taken is posted once or lost.
//!
//! **One message for a name.**
//!
//! 1. **The start.** `start_named(0, After(1), "db", 7, Wrapped)` (`crates/ert_names/src/named_calls.rt`) keeps a row
//!    with the name, the message and the kind, say at place 0. It starts a wrapped timer of the world for process 0,
//!    whose message is 0, the place. The owner of the name is not looked up.
//! 2. **Another owner.** `unregister("db")` and `register("db", 2)` change the two maps of the registry (`registry.rt`)
//!    alone.
//! 3. **The turn.** `turn(0)` (`turns.rt`) makes the world's turn, which lets the timer expire and puts `Timeout {
//!    timer, msg: 0 }` into the mailbox of process 0. Then `hand_next` makes room for one mail and takes that message.
//!    Row 0 has the name `db`, which process 2 has now: the mail with the message 7 is its, and the first process, that
//!    had the name at the start, gets nothing. A test of names (`ert_tests`) does just this.
//!
//! **Choices.**
//!
//! - **Messages for names go to process 0, the registrar**, as wrapped timers whose message is the place of a row,
//!   which stays for the life of the world.
//! - **The names of processes are in two ordered maps**, by name and by process, since an exit takes the name of a
//!   process.
//! - **Named mail is one list with its processes**, so that room can be made before a message is taken; taking goes
//!   over all that waits.
//! - **`register` and `take_named` record a look at the process**: whether it has exited is a fact of the history.
#![tactic(auto)]

mod named;
mod named_calls;
mod names;
mod registry;
mod turns;
mod world;
mod world_calls;

pub use ert_defs::NoMemory;
pub use named::{NameErr, NamedMail, NamedTaken, NamedTurn};
pub use world::NameWorld;
