//! One scheduler's timers, on the desk.
//!
//! **What it is.** A `WheelPart` is what one thread at a time has of the timers of one scheduler, and with it
//! a pass that holds the wheel. The state that all threads share of a timer is the word of its slot on the
//! desk (`ert_table`): status, deadline and use. The part keeps what has no word, by slot: the destination,
//! the message and the kind of the last timer, its generation, and one above the greatest deadline of all the
//! slot's timers. A timer that is held as armed also has a row in a timing wheel (`ert_wheel`), which tells what is
//! due, and its slot stands in the chain of its process there, so that an exit costs in proportion to the timers of
//! that process. Its order in the wheel is how many timers of the wheel were armed before it. A timer that is settled leaves
//! the wheel, and its slot stays in the chain until it is used for another process, or until the process is swept. So a start
//! for the process of the slot's last timer changes no chain of a process, nor reads one: what is stored of the slot says that
//! it stands there. The wheel holds what is kept of a slot, as the slot's value (`Stored`), with deadline and order of the
//! slot's last row. A slot is written there when it is first taken, with some of those that come next; until then it is held
//! free, and what is kept of it counts as that of a slot that was never used. So a slot that isn't held free is written, and
//! no call on it tests that.
//!
//! **What others do.** Any thread may cancel a timer by one exchange on its word, and tells the part nothing.
//! So a held timer may be settled already. An advance finds that out when its own exchange misses; a start
//! finds it out when it runs out of free slots and looks for some; `next_due` by a probe of the timer that is due next, and
//! `probe_rows` by one of each. Whoever has the part when a timer is
//! cancelled or its message is handed over says so, by `forget` or `reuse`: then the slot is held free at once, and
//! no start has to look for it.
//!
//! **Rounds.** A slot is used 262,143 times in a round, which is as far as a word counts. Then it rests until
//! the deadlines of all its timers have passed, and begins its next round. The generations of the first round
//! are 1 to 262143. One of a later round is the use times 2^43, plus the deadline, and there a deadline that has
//! passed counts as the time of the start: so it is another than those of all earlier rounds, and no
//! reference ever names two timers. A slot's round is the first exactly where its last generation is below
//! 2^43, so nothing is kept of when it began.
//!
//! A slot that rests isn't held free. Where a start finds no slot held free it looks at as many slots as the settings'
//! `looks`, or at all where there are fewer, from where the last such look stopped, round and round, and holds those free
//! that have rested by the time of its look. It answers `Full` where each of them is taken or rests, or where the wheel
//! has had 2^53 timers, which bounds all counts.
//!
//! How long a slot rests depends on the longest wait of its round. So the slots that are held free stand on two stacks,
//! one of them for those that have had a long wait. One that is freed goes to the other, since nothing of it is read then.
//! A start looks at the top of that; where it is empty, at the least slot that was never taken, and where there is none of
//! these at the top of the stack of long waits. Where the slot has had a long wait, of 2^22 milliseconds or more, that
//! isn't over, a start with a long wait takes it, and one with a short wait puts it on the stack of long waits and takes
//! the next one. Else a short wait takes it, and a long one takes the top of the stack of long waits or a slot that was
//! never taken, where there is one. Then few slots have the long waits, and the others rest for as long as short waits
//! take. If each start took what was freed last, each slot would soon have had a long wait, and all would rest until those
//! pass: of 64 slots, with 50 starts a second that are all cancelled at once and one in a hundred of which waits 49.7 days,
//! 87 of 100 starts of sixty days find all resting, in a simulation; with two stacks none does.
//!
//! | call | what it does | work |
//! |---|---|---|
//! | `start` | looks at the time, stores the word of a free slot, asks whether the destination has exited | constant; where none is held free the settings' `looks` at most, or all slots where there are fewer |
//! | `restart` | looks at the time, and exchanges the word of an armed timer for that of the next one in its slot; or takes another slot, cancels and starts | as `start` |
//! | `advance` | looks at the time, and tries each due timer in order of deadline and then of start | the due timers and the buckets that are visited |
//! | `advance_some` | does so with so many timers at most, and tells what is left | the timers that it tries, as many that move in the wheel, late timers, and those of one millisecond, which are put in order once (`ert_wheel`, `Wheel::first_due`) |
//! | `sweep` | tries each timer of a process that has exited | those timers, each once |
//! | `held_for` | finds a timer of a process that is held | constant, amortized: a slot without a timer leaves the chain |
//! | `forget` | drops the row of a timer that the pass has seen settled, and holds its slot free where its round has uses left | constant |
//! | `reuse` | holds the slot of a timer free whose message was handed over, where its round has uses left | constant |
//! | `room` | looks at the time and at every slot, and tells how many can take a timer and from when on one more can | every slot once |
//! | `next_due` | probes the slots of the timers that are due next until one is armed, and tells how early a timer may be due | constant while the last answer holds; else 64 timers at most of each level of the wheel, and where one was started late those that the next advance takes; and again for each timer that others cancelled, 1,024 at most |
//! | `probe_rows` | probes each slot that has a timer, and drops the rows of those that others cancelled | every slot once |
//! | `tally` | counts | none |
//! | `drop_settled` | with a pass that holds every actor, looks at each timer that is held, and drops the rows of those that others cancelled | every slot once |
//!
//! A start that looks at slots knows from then on those of them that can be used again; so only where these rest or
//! are taken does the next start look at others. An advance also moves some timers of the window of 512 milliseconds that comes
//! next, for each millisecond that passed, and where a window begins those that are left in it. A sweep does work too for the slots whose last timer went to the
//! process and was settled.
//!
//! Each timer is tried once, by one exchange, and then its row goes. No call waits for anybody. Only `open`
//! takes memory, and `advance` and `advance_some` for the list of expired timers, before the first of them expires, where it
//! hasn't the room. `ExpiredList::reserve` makes that ahead, and `shrink` gives it back.
//!
//! **What it promises.** The part stands for the front of its pass (`specs/Parts`, `PartStands`). Each call keeps
//! that, and takes place with exactly the entries that `ert_effects` says for its answer.
//!
//! Each timer that is held is armed, or was cancelled by one who told the part nothing. A part is tidy where none was
//! (`specs/Tidy`); then it holds as many as are armed. No call but a cancel, which no part makes, ends that, and
//! `forget` of the cancelled timer mends it. With a pass that holds every actor `drop_settled` makes any part tidy.
//!
//! A `SchedPart` is what the scheduler itself has: the request that it is about to answer, and the list of its expired
//! timers. The free slots of a wheel (`FreeSlots`) take memory when they are made, and no more.
//!
//! It stands on `ert_defs`, `ert_effects`, `ert_wheel` and `ert_table`.
//!
//! **`next_due`.** `World::next_due` → `WheelPart::next_due` (`sleeping.rt`) → `Wheel::next_due`: `first_window` finds the
//! first buckets of a level that have rows by their marks, and `least_in` the least deadline there; where there are too
//! many rows the begin of the next bucket's window is told. `Wheel::teller` has the slot whose row told it: the scheduler probes that (`probe_row`), and
//! where its timer isn't armed the row goes (`forget`) and the wheel is asked again.
//!
//! **Choices.**
//!
//! - **An advance collects what is due, where an advance with a bound takes one after the other.** With the second way
//!   for both, an advance would need no list of due rows, but it would have to take memory for as many expired timers
//!   as the wheel holds, or break off in the midst of the due ones.
//! - **A part that stands is said to stand on by one law**, for each longer history with no more entries of its actor.
//! - **A timer's order in the wheel is its place among the wheel's timers**, so the next order is the count of armed
//!   timers.
//! - **The timers of a process are in a chain of their own**, so that an exit costs in proportion to them. The slot of
//!   an expired timer stays in it until it is used again or the chain is swept, since taking it out at once was a cache
//!   miss.
//! - **A held timer that is not armed was cancelled** (`HoldsRows`, `live`), so its slot is free at once. A world frees
//!   the slot of an expired timer when it has delivered its message (`reuse`); a service would need the wheel's lock
//!   for that, so there a start finds it.
//! - **A resting slot is not held free**, and nothing wakes it: a start that knows of no free slot finds it.
//! - **The due rows of an advance are in a vector that the part keeps**, with room for a row of each slot.
#![tactic(auto)]

mod advancing;
mod bounded;
mod dropping;
mod expired_list;
mod free_slots;
mod held_for;
mod laws;
mod looking;
mod moving;
mod part;
mod restarting;
mod room;
mod sched_part;
mod sleeping;
mod slot;
mod starting;
mod sweeping;

pub use ert_effects::{RestartErr, Room, StartErr};
pub use expired_list::ExpiredList;
pub use laws::{
    calls_leave_other_parts, cancels_leave_other_timers_tidy, parts_stand_on,
    tidy_parts_hold_what_is_armed,
};
pub use part::{Tally, WheelPart};
pub use sched_part::SchedPart;
