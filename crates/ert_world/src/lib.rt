//! The clock and timer service: a world of every part on one desk, and seats for threads beside it.
//!
//! **Who has what.** A desk's atomic words (`ert_table`) are shared by counted references (`Arc`). A `World` has a
//! pass that holds every actor of the desk but the callers that have seats, and all parts: the clock's
//! (`KeeperPart`), for each scheduler its wheel and a `SchedPart` (`ert_timers`) and its inbox, for each process its
//! mailbox (both `ert_mail`). It makes all calls, by one thread at a time. A seat (`Seat`) has the pass with
//! one caller: it tells the time, reads and cancels timers and looks whether a process lives, beside the calls of
//! the world and of all other seats. Nobody takes a lock, and nobody waits. Both may go from thread to thread
//! (`Send`).
//!
//! | call | made by | what it does | work |
//! |---|---|---|---|
//! | `open` | | makes a service with an empty history | each word and each slot once |
//! | `seat` | | gives the next caller a seat | constant |
//! | `meet` | | lets the world and a seat learn what the other knows | constant |
//! | `tick`, `finalize` | the clock, with caller 0 | takes a reading; finalizes the offset | constant |
//! | `monotonic_time`, `time_offset`, `system_time` | caller 0 or a seat | reads the clock | constant |
//! | `start` | caller 0 | starts a timer on a wheel | constant where a slot is known to be free, else the settings' `looks` at most |
//! | `room` | caller 0 | looks how many slots of a wheel can take a timer | each slot of the wheel |
//! | `cancel_timer` | caller 0 or a seat | cancels a timer; the world's also lets its wheel forget it | constant |
//! | `restart` | caller 0 | cancels an armed timer and starts one on its wheel | as `cancel_timer` and `start` |
//! | `read_timer`, `is_alive` | caller 0 or a seat | reads a timer; looks whether a process has exited | constant |
//! | `mark_exit` | caller 0 | lets a process exit | constant |
//! | `exit` | caller 0 | `mark_exit`, and then cancels the timers of the process in every wheel | the wheels and those timers |
//! | `cancel_all` | caller 0 | cancels the timers of a process in every wheel; it lives on | the wheels and those timers |
//! | `ask` | caller 0 | puts a request to cancel or to read a timer into the inbox of its wheel | constant |
//! | `take` | caller 0 | takes the first message of a process | constant |
//! | `take_some` | caller 0 | takes so many messages of a process at most | those messages |
//! | `next_mail` | caller 0 | finds a process that hasn't exited and has mail | constant, amortized; the first one each process |
//! | `monitor`, `demonitor`, `notify` | caller 0 | makes, removes and informs monitors of the time offset | the monitors of the process, 64 at most |
//! | `serve` | a scheduler | answers the request in its hand, or else the first of its inbox | constant |
//! | `advance` | a scheduler | lets the timers of its wheel expire that are due | those timers and the buckets that are visited |
//! | `next_due` | a scheduler | probes the slots of the timers that are due next until one is armed, and tells how early a timer of its wheel may be due | constant while the last answer holds; else 64 timers at most of each level of the wheel, those that were cancelled by seats, 1,024 at most, and where one was started late those that the next advance takes |
//! | `drop_settled` | a scheduler | probes each slot that has a timer, and drops those that seats cancelled | every slot once |
//! | `deliver` | a scheduler | hands over its expired timers, until none is left; the slot of each can then take a timer again | those timers |
//! | `turn` | a scheduler | serves requests, 64 at most, advances, and delivers | as these three |
//! | `turn_some` | a scheduler | the same, and delivers so many expired timers at most | as these three |
//! | `seats`, `settings`, `published` | | no entry: how many seats were given out, settings and the last published time | constant |
//! | `held`, `expired`, `mail_count` | | no entry: how many timers a wheel holds, how many expired ones and how many messages wait | constant |
//! | `reserve_mail`, `shrink_mail` | | no entry: makes room for messages in a mailbox, gives back what its messages don't need | those messages |
//! | `reserve_expired`, `shrink_expired` | | no entry: makes room for timers in a scheduler's list of expired ones, gives back what those that wait don't need | those timers |
//! | `counts` | | no entry: how many timers have which status | the wheels, the schedulers and the processes |
//! | `into_parts`, `into_desk` | | no entry: takes a world apart, ends it | constant |
//! | `Seat::from_parts`, `into_parts` | | no entry: puts a seat together, takes one apart | constant |
//! | `from_parts` | | no entry: puts a world together, and looks at each timer that a wheel holds | each slot of each wheel |
//!
//! **What it promises.** Users see of a world its settings, the history that it knows, what its clock shows, the
//! caller that is to get the next seat, and its wheels (`specs/Worlds`, `Seen`). Each call says what it answers, and
//! that the history grows by entries which this call may make with this answer and by no others (`Goes`); the
//! definition of each call stands in `ert_effects`, over a way in which its steps come about. Where seats were given
//! out, entries of theirs stand between: of the entries that the history gains, those that no seat made are just what
//! the call may make, in the state before the piece (`specs/Ways`, `beside_seats`). Where none was, the piece is
//! the call's entries, as those of one thread (`lone`): a list of calls stands for one legal history. `into_desk`
//! gives out the desk and the pass that know it, and says that it is legal, that each timer has one of six lives, and
//! that the mail is in order (`specs/Lived`). A seat's history grows in the same way, by entries of its caller
//! (`as_caller`). All these histories are beginnings of the desk's one legal history: where a world and a seat meet,
//! of what the two knew one begins the other, and then both know the longer.
//!
//! What a world has that no seat touches is as its history tells: the clock moves by the world's ticks alone, and
//! so do wheels, inboxes, mailboxes and schedulers' lists by its calls. Timers are different: a seat may cancel
//! one, and its wheel isn't told. The row is held until the timer would be due, `next_due` comes on it first, or
//! `drop_settled` drops it.
//!
//! Where no seat was given out, all timers that a wheel holds are armed: `cancel_timer`, and `serve` for a request to
//! cancel, drop the row of what they cancelled, and `from_parts` drops the rows of what others cancelled before. So
//! `counts`, which asks for that, need not look at any timer.
//!
//! **Chains.** `serve`, `deliver`, `turn` and `exit` are made of single steps (`steps.rt`), over two traits: what a
//! scheduler does (`SchedSteps`: answer a request, advance, hand over) and what a caller does (`CallerSteps`: mark,
//! sweep). They are written and proved once (`chains.rt`), for all that has the steps: a world, and each service
//! of parts with locks of their own (`ert_service`).
//!
//! **Memory.** `start`, `room`, `next_due`, `drop_settled`, `cancel_timer`, `cancel_all`, `read_timer`, `take`, `take_some`, `exit`, `meet`, the
//! calls on the clock and all calls of a seat take none. Where there is none, `seat`, `ask`, `monitor`, `notify`,
//! `reserve_mail`, `shrink_mail`, `reserve_expired`, `shrink_expired` and the first `next_mail` change nothing, `advance`
//! lets no timer expire, `serve` keeps the request in the hand, `deliver` keeps what wasn't handed over, and of a turn what
//! was done stays done. So each of them can be made again. No call copies a part.
//!
//! It stands on `ert_defs`, `ert_clock`, `ert_effects`, `ert_table`, `ert_timers` and `ert_mail`, and its proofs on the laws of `ert_laws`.
//!
//! **Choices.**
//!
//! - **A world's calls are made by caller 0**, so that each op has the same entries whatever the number of callers.
//! - **A wheel that no seat shares holds armed timers alone**, and that is part of what a world is: no call says it.
//!   A caller that puts parts together looks once at each timer that is held (`World::from_parts`, `WheelPart::drop_settled`), by
//!   loads that are no entries, since the pass that holds every actor knows the whole history. A turn that looked at
//!   every slot for that, with an entry for each look, was a second relation of every advance and turn.
//! - **`counts` adds up counters that the parts keep** and scans no timer; its laws add and never subtract.
//! - **A world is seen as settings, a history, a clock, the next caller to get a seat, and its wheels.** A call's
//!   clause says that the history goes on by a piece that the call may make with its answer.
//! - **The calls of several steps are chains over two traits of single steps** (`SchedSteps`, `CallerSteps`), which a
//!   world and a session with a service have.
//! - **A cancel of a world forgets the row at once**, so the slot is free for the next start.
//! - **`next_mail` looks whether the process that it tells has exited**, as `take` does, and records the look. An exit
//!   that a seat's caller made could come at any time, so what the world knows by itself doesn't decide it. A process
//!   that is found exited leaves the list: each is met once, so the work stays constant, amortized.
//! - **The room of mailboxes and of lists of expired timers isn't seen of a world** (`reserve_mail`, `shrink_mail`,
//!   `reserve_expired`, `shrink_expired`): what is seen is as it was. Otherwise each call that takes or puts a message
//!   or a timer would have to say what it does to it. That room is made and given back is a clause of the mailbox and
//!   of the list, and of the world a test with each allocation refused.
//! - **How many slots rest is told by a look at each** (`ready`). A slot's rest ends when its deadlines have passed,
//!   without a call: a count in constant time would need a second order of the slots, by the ends of their rests.
//! - **No call tells how many messages wait in all mailboxes.** A sum kept in constant time is a counter that each
//!   take, delivery, answer and `notify` writes; nothing bounds the sum of the lengths of 524,288 mailboxes by 64 bits,
//!   so it would be one of 128 bits with a bound on each mailbox beside it. A turn tells how many messages it put, and
//!   a loop knows how many it took.
//! - **A turn that finds nothing is one function.** Most turns of a loop find no request and no due timer. Such a turn
//!   with its tick went through five calls, each of which saved the registers that only its rare work needs: 345
//!   instructions, 34.7 ns. By hints on inlining the path of a turn that finds nothing is part of the exported call.
//!   What answers a request, collects due rows, lets them expire, moves rows to lower levels and checks the clock are
//!   functions apart. The tick is part of the exported call too, once in that of a world and once in that of a hub.
//!   Both are 270 instructions. No code and no proof is other than before. The price: An advance that finds due rows
//!   makes two calls more. Deliveries stay in the turn: a call for each made an idle turn 0.3 ns shorter and a delivery
//!   28 instructions longer. A body of the clock's check apart, or a turn that first asks whether there is a request,
//!   would save less than a nanosecond.
#![tactic(auto)]

mod bounded;
mod cancelling;
pub mod chains;
mod clock_calls;
mod counts;
mod held;
mod laws;
mod mail_calls;
mod mailing;
mod meeting;
mod noting;
mod opening;
mod parts;
mod reserving;
mod restart;
mod seat;
mod seat_err;
mod seat_parts;
mod sleeping;
mod stepping;
mod steps;
mod timer_calls;
mod turns;
mod world;

pub use counts::Counts;
pub use ert_effects::{RestartErr, Room, Turned};
pub use ert_table::Note;
pub use laws::{
    entries_are_divided, next_due_goes_on, started_timers_are_known, turns_put_due_messages,
};
pub use mailing::TakeEnd;
pub use parts::Parts;
pub use seat::Seat;
pub use seat_err::SeatErr;
pub use steps::{CallerSteps, SchedSteps};
pub use world::World;
