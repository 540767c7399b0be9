//! The service as a static library for C: what `include/ertime.h` declares.
//!
//! **The handle** (`ErtWorld`) is a struct of two words in the caller's memory: where a boxed `World` lies,
//! and whether there is one. C may hold it, for a static library may not show C a type with atomic words in it.
//! What lies behind it is a field of the contracts alone (`WorldPlace`, `value`), so each exported function says
//! what it does to the service. The handle of a seat (`ErtSeat`, `SeatPlace`) is the same with a boxed `Seat`. No
//! call follows both handles at once but the one that opens a seat, and that takes nothing of the seat's: two
//! handles can't be known to be of one service. The handles of a hub (`ErtHub`) and of a shard (`ErtShard`) are of the
//! same form, with a boxed `Hub` and `Shard`. A hub gives a shard or a seat, by a call of both handles that takes nothing
//! of the other's; and no shard comes back to its hub, since nothing tells that they are of one service: it is closed.
//!
//! **The place** (`Place`) is what the two have in common: three short functions reach the pointer, at any type,
//! with proofs by hand. C is shown no type parameter, so what it holds are structs of their own, and one function
//! of each (`as_place`) lends it as a `Place`: it owns the same, word for word, and the two have one proof by hand
//! (`proofs/Cast`). A place can't be dropped: so nothing can be forgotten in one.
//!
//! **The calls** are those of `ert_world::World` and `Seat`, and of `ert_shard::Hub` and `Shard`, each between a test and a telling. A closed handle is
//! answered and never followed; a number out of range is answered before the call, whose `requires` it would break;
//! then the call is made, and its answer is told by a status and by what is written (`tell_..`). So a contract
//! reads, by `specs/Through`: through this handle the service makes this call with some answer, and that answer
//! is told by this status and these values. No exported function asks anything of its caller.
//!
//! | file | what it has |
//! |---|---|
//! | `place`, `handle` | where a box lies, and the handles of a world and of a seat |
//! | `status`, `laws` | the statuses; that each has a number of its own |
//! | `opening`, `clock_calls`, `timer_calls`, `mail_calls`, `turn_calls`, `waiting_calls` | the structs that cross, what they mean, and how answers are told |
//! | `clock_exports`, `timer_exports`, `mail_exports`, `turn_exports`, `waiting_exports`, `seat_exports`, `version_exports` | the exported functions of a world and of a seat, and the version |
//! | `shard_handle` | the handles of a hub and of a shard |
//! | `hub_exports`, `shard_exports`, `shard_mail_exports`, `shard_request_exports`, `shard_turn_exports`, `shard_waiting_exports` | their exported functions |
//!
//! What C owes (pointers to values, one call at a time on a handle, no copy of an open handle) nothing checks;
//! `docs/EMBEDDING.md` lists it. It stands on `ert_world`, `ert_shard` and what they name, and on the allocator.
//!
//! After a refusal what was passed to be written is as it was. Close leaves the handle closed, and code that forgets a
//! service is refused by the type check. Room in a mailbox or a list of expired timers isn't seen of a service: that it
//! is there after `OK`, or was given back, is a clause of the mailbox (`ert_mail`) and of the list (`ert_timers`), and
//! not of the exported calls.
//!
//! **What is proved.** A contract says of a call through a handle, by `specs/Through`:
//!
//! - **A closed handle.** The call returns `ERT_CLOSED`, the handle stays closed, and nothing that C passed is written.
//! - **An open handle** stands for a service. The call is that of `ert_world::World`: the history that it knows grows
//!   by a piece. In that piece the entries that no seat made are exactly those that this call may make with this
//!   answer, in the state before the piece. After the call the service stands behind the handle, which is never left
//!   closed.
//! - **A seat** that is open stands for its caller. Its history grows in the same way by that caller's entries, and is
//!   legal: so what a seat returns is what its history has at that place. A seat is on the desk of the service that gave
//!   it (`GivesSeat`, `table`), and every call leaves its handle on that desk. What any two open handles of one desk know
//!   are beginnings of one legal history, in which no timer ends twice and no time goes back (`src/laws.rt`,
//!   `KnowOneHistory` of `ert_shard`). C has no call of both: nothing that it can compute tells that two handles are of one
//!   service.
//! - **A hub and a shard** that are open stand for what `ert_shard` says of them: in the piece by which the history
//!   grows the entries of the shard's own actors are exactly those that the call may make with this answer, beside all
//!   other threads, and the history is legal (`specs/HubCalls`, `specs/ShardCalls`). `ert_hub_shard` gives the last
//!   scheduler and the last processes, and `ert_hub_seat` the next caller after those of the schedulers; that the shard
//!   or the seat is of the hub's service is in its contract (`GivesShard` and `HubGivesSeat`, `table`).
//! - **Opening a seat** gives it the service's next caller, which is then no longer the service's (`specs/SeatCalls`).
//!   `ERT_NO_SEAT` comes exactly if each caller but 0 was given out, and after every refusal nothing has changed behind
//!   either handle.
//! - **A number out of range.** The call returns `ERT_RANGE` exactly if a number is out of range, and the service is as
//!   it was.
//! - **Each status has its cause.** It is tied to the answer of the call (`specs/Told`, `specs/ClockCalls`), and each
//!   answer's own cause stands in the contract of that call. After a refusal the out parameters are what they were.
//! - **Opening a service** returns `ERT_OK` only with a service of the settings that C passed (`specs/Opened`), whose
//!   history is empty, and each `ERT_BAD_..` exactly if its fault is there and none before it is.
//! - **Closing** leaves the handle closed. The place of a service can't be dropped, so code that forgets one is
//!   refused, by the type check or by the prover. That the memory is then given back is up to `Box`, which contracts
//!   cannot express.
//!
//! Three short functions reach the pointer in a handle; they fill, empty and lend the place of a box of any type
//! (`src/place.rt`). One more for each kind of handle lends it as such a place (`src/handle.rt`), since a type
//! parameter may not appear in what C sees. Their proofs were written by hand. That a seat, a world, a hub and a shard
//! may go to another thread is proved in their own crates (`Send`). No other function follows a raw pointer.
//!
//! **Choices.**
//!
//! - **A shard doesn't come back to its hub in C.** To join two passes it has to be proved that they are of one desk.
//!   Nothing that is computed proves that: pointers into two blocks may not be compared, a counted reference tells no
//!   identity, and a number that the hub and its shards keep proves it only if no other service ever had it, which no
//!   clause can say of a library without state of its own.
//! - **The name of a timer has 16 bytes**, since its generation has 64 bits; so the version is 1 and the soname
//!   `libertime.so.1`.
//! - **The place of a box is written once for boxes of any type**, since a type parameter may not stand in what C sees.
//! - **The right to free a block is named by the heap's own contract** in `std`, since no crate of this repository may
//!   use the C library.
//! - **A seat that finds no memory gives its caller back.**
//! - **`ert_settings_init` and the texts are inline functions of the header**: an exported function can return no
//!   pointer, and what a program compiles in has the texts of the header that it knows. The version at run time is a
//!   number for the same reason (`ert_version`).
#![tactic(auto)]

mod clock_calls;
mod clock_exports;
mod handle;
mod hub_exports;
mod laws;
mod mail_calls;
mod mail_exports;
mod opening;
mod place;
mod seat_exports;
mod shard_exports;
mod shard_handle;
mod shard_mail_exports;
mod shard_request_exports;
mod shard_turn_exports;
mod shard_waiting_exports;
mod status;
mod timer_calls;
mod timer_exports;
mod turn_calls;
mod turn_exports;
mod version_exports;
mod waiting_calls;
mod waiting_exports;

pub use clock_calls::{ErtMoved, ErtOffset};
pub use handle::{ErtSeat, ErtWorld};
pub use laws::{
    constants_are_fixed, hub_and_seat_know_one_history, hub_and_shard_know_one_history,
    seats_know_one_history, shard_and_seat_know_one_history, shards_know_one_history,
    world_and_seat_know_one_history,
};
pub use mail_calls::{ErtMail, ErtRequest};
pub use opening::{ErtReading, ErtSettings};
pub use shard_handle::{ErtHub, ErtShard};
pub use timer_calls::{ErtStart, ErtTimer};
pub use turn_calls::{ErtAdvanced, ErtDelivered, ErtTurned};
pub use version_exports::VERSION;
pub use waiting_calls::ErtTurnedSome;
