//! A world divided among threads, without locks: a hub with the clock, and a shard for each scheduler.
//!
//! **Who has what.** A `Hub` takes a world that gave out no seat (`ert_world`), and has its clock, caller 0, every part
//! and every actor. `Hub::shard` takes from it the last scheduler that is left, with its wheel and its inbox, the caller
//! of the next number, and the last processes that are left, with their mailboxes: a `Shard`. `Hub::seat` takes from it
//! the next caller after those of the schedulers: a `Seat` (`ert_world`), for a thread that reads and cancels timers and
//! starts none. All are shares of one desk (`ert_table`), and each has a pass that holds its own actors. All may go from
//! thread to thread (`Send`). Nobody takes a lock, and nobody waits.
//!
//! | call | made by | what it does | work |
//! |---|---|---|---|
//! | `Hub::new`, `into_world` | | makes a hub of a world, and a world of a hub to which all came back | constant |
//! | `Hub::shard` | | gives a scheduler and processes to a shard | those processes, and the schedulers that are left |
//! | `Hub::seat` | | gives the next caller a seat | constant |
//! | `Hub::join` | | takes the last shard back that was given of those that are out (`is_next`) | those processes |
//! | `Hub::join_all` | | takes shards back in whatever order they stand | those processes, and the square of how many |
//! | `Hub::tick`, `finalize` | the clock, with caller 0 | takes a reading; finalizes the offset | constant |
//! | `monotonic_time`, `time_offset`, `system_time` | caller 0 or the shard's | reads the clock | constant |
//! | `cancel_timer`, `read_timer`, `is_alive` | caller 0 or the shard's | cancels or reads a timer of any wheel; looks whether a process has exited | constant |
//! | `Shard::start` | the shard's caller | starts a timer for a process of the shard | constant where a slot is known to be free, else the settings' `looks` at most |
//! | `Shard::restart` | the shard's caller | gives an armed timer of any wheel a new deadline, on the shard's wheel | as a cancel and a start |
//! | `Shard::exit` | the shard's caller | lets a process exit, and cancels its timers | those timers |
//! | `Shard::ask` | the shard's caller | asks the shard's scheduler to cancel or to read a timer of any wheel | constant |
//! | `Shard::take`, `monitor`, `demonitor`, `notify` | the shard's caller | calls on the mailbox of a process of the shard | constant, or the monitors of the process |
//! | `Shard::take_some` | the shard's caller | takes the first messages of a process of the shard, so many at most | those messages |
//! | `Shard::next_mail` | the shard's caller | finds a process of the shard that hasn't exited and has mail | as in `ert_world` |
//! | `Shard::serve`, `advance`, `deliver`, `turn` | the shard's scheduler | serves a request; lets due timers expire; hands them over; all three | as in `ert_world` |
//! | `Shard::advance_some`, `deliver_some`, `turn_some` | the shard's scheduler | the same, of so many timers at most | as in `ert_world` |
//! | `Shard::held`, `expired`, `mail_count` | | no entry: how much waits | constant |
//! | `Shard::reserve_mail`, `shrink_mail` | | no entry: makes room for messages in a mailbox, gives back what its messages don't need | those messages |
//! | `Shard::reserve_expired`, `shrink_expired` | | no entry: makes room for timers in the shard's list of expired ones, gives back what those that wait don't need | those timers |
//! | `Shard::next_due`, `drop_settled` | the shard's scheduler | tells how early a timer may be due; drops the timers that others cancelled | as in `ert_world` |
//! | `Hub::published` | | no entry: the last published time | as in `ert_world` |
//!
//! **What it promises.** Users see of a shard its desk, its settings, the history that it knows, its share and its wheel
//! (`specs/Shards`, `Owned`). Each call says what it answers, and that the history grows by a piece in which the entries
//! of the shard's own actors are just those that the call may make with this answer, by the relations of `ert_effects`,
//! in the state before the piece (`ShardGoes`, in the way `as_share`). Others make entries between. All these histories are
//! beginnings of the desk's one legal history, in which each timer settles once, whoever cancels it: a cancel is one
//! exchange on the timer's word. The calls of a hub are said in the same way (`specs/Hubs`, `Rest`).
//!
//! Each timer of a shard's wheel is for a process of the shard, since `start` and `restart` ask for that and no other
//! has entries of the wheel (`AreHome`). So a timer that expires finds its mailbox, and an exit has to sweep the
//! shard's own wheel alone: no other wheel has timers for the process. For a wheel that comes back keeps its timers,
//! and the hub remembers which processes its shard had: it goes to another shard with these, or with more, but with
//! none that a wheel that stays has timers for. And a world whose wheels had timers before it was divided gives no
//! shard (`ShardErr::Used`), since of those nothing is known: divide a world that was just opened.
//!
//! A request goes to the shard's own inbox, and its answer to a process of the shard. A world may have had requests when it
//! was divided: one whose answer is for a process of another shard isn't served (`ServeErr::NotHome`), and no other after
//! it, until the shard comes back.
//!
//! **What it hasn't.** A shard starts no timer for a process of another shard, and asks no other shard's scheduler. A
//! timer that another shard cancelled keeps its row and its slot until it would be due, `next_due` comes on it first, or
//! `drop_settled` drops it.
//!
//! **Memory.** `start`, `restart`, `cancel_timer`, `read_timer`, `take`, `take_some`, `exit`, `next_due`, `drop_settled`, the calls on the clock, `join`
//! and `join_all` take none, and of the calls of `next_mail` only the first of a shard does, for its list. Where there is
//! none, `next_mail`, `ask`, `monitor`, `notify`, `reserve_mail`, `shrink_mail`, `reserve_expired` and `shrink_expired` change
//! nothing, `serve` keeps the request in the hand, `advance` and `advance_some` let no timer expire, `deliver` and
//! `deliver_some` keep what wasn't handed over, `shard` and `seat` leave everything as it was.
//!
//! It stands on `ert_defs`, `ert_clock`, `ert_effects`, `ert_table`, `ert_wheel`, `ert_timers`, `ert_mail` and
//! `ert_world`, and its proofs on the laws of `ert_laws`.
//!
//! Nothing is claimed of the time that a call takes, nor of a start for a process of another shard and of a request to
//! another shard's scheduler, for which a shard has no call. A start asks that the destination is a process of the
//! shard, and so a delivery always finds its mailbox there. No call takes a lock, waits or is tried again.
//!
//! **Choices.**
//!
//! - **Shards come back from a vector of the program** (`join_all`), and the hub keeps none aside: its parts stay in
//!   order of number without places for those that are out, and what waits is the program's to see. The vectors of a
//!   hub keep the room that they had in the world, so a shard comes back without memory.
//! - **A shard is refused where a wheel that stays has timers for unknown processes**, or for those of the shard: so an
//!   exit sweeps one wheel, and the refusal has a name (`Used`) at the first cut of a world that was in use.
//! - **A shard asks its own scheduler**, whatever wheel the timer is of. The inbox of another shard is that of another
//!   thread; and a cancel is one exchange on the timer's word, whoever makes it. The answer goes to a process of the
//!   shard, whose mailbox is there.
//! - **A request of before the division for another shard's process isn't served** (`NotHome`), and stays in the hand
//!   until the shard is back. The cut can't refuse it, since an inbox doesn't tell whether it is empty. A turn goes on
//!   without it, and nothing else depends on it: no hub that was just opened has requests.
//! - **Unused bytes at both ends of a shard and of a hub.** The blocks that an allocator gives one after the other
//!   belong to different threads: a shard, the mailboxes of the next one, that shard. A trace of the addresses that
//!   each call uses, by valgrind's tool lackey, found that `next_mail` of a shard wrote a cache line that turns and
//!   takes of the next one read, if the sizes fell so, as with 64 slots; and a tick wrote within 128 bytes of the words
//!   of the desk that each start reads. Two threads that each started a timer, let it expire, asked for the mailbox and
//!   took its message took 210 to 290 ns for that, and one alone 100 to 145. 64 bytes that nobody uses at each end of a
//!   shard and of a hub. Then the two threads took 109 to 141 ns, as each alone (pinned to two processors, the least of
//!   windows of 25 microseconds in which both went on, at a load of 13). No line is left in the trace that one shard
//!   writes and another uses, but for the words of the desk. The price: 128 bytes for each. Mailboxes and what else
//!   stands in vectors has no such bytes: beside it stands a shard, or memory of the same one. The allocator can't be
//!   asked for lines, since that of the toolchain gives no alignment above 16.
#![tactic(auto)]

mod bounded;
mod dividing;
mod exits;
mod held;
mod hub;
mod hub_calls;
mod joining;
mod laws;
mod mail_calls;
mod mailing;
mod noting;
mod requests;
mod reserving;
mod restart;
mod seating;
mod shard;
mod sleeping;
mod turns;

pub use dividing::ShardErr;
pub use ert_table::Note;
pub use hub::Hub;
pub use requests::ServeErr;
pub use shard::Shard;
pub use turns::Turn;
