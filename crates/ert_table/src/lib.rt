//! The heart of the service: one table of atomic words, on which every thread's steps form one legal
//! history.
//!
//! # The words
//!
//! The state that threads share is a row of 64-bit words: one has the time, one the offset, then each slot
//! of each wheel has one, and each process (`ert_defs`, `specs/Words.antt`). There is no lock, and nothing
//! else is shared. Each call on a word is one atomic step, sequentially consistent: a load, a store, a
//! compare-and-exchange or an or. It takes no memory, never waits, is never tried again and can't be
//! refused.
//!
//! A step that writes a word takes its whole cache line from the other processors, and the time word is
//! read by nearly every call. So seven words that are never used stand behind the time, behind the offset
//! and behind the slots of each wheel: none of these groups shares a line with another, and threads that
//! start and cancel timers on wheels of their own don't disturb each other. Eight such words stand in front of
//! the time and behind the processes, whose words each start reads: so no write to what the heap puts beside the
//! table takes a line from them.
//!
//! # The history
//!
//! Each step is recorded as one entry of a history. The history stands in the proofs alone: no list is
//! kept anywhere. The rule of the table, which holds between any two steps whatever the threads do, is:
//! there is one history, it is legal by the desk's settings, and the words are those of its state. What is
//! no word (mailboxes, inboxes, what a scheduler holds in its hand) is data of the crates above. They have
//! no step of their own, so a load of the time word records what was done with them: the entry is what
//! counts, and the time that it finds is welcome anyway.
//!
//! # Passes
//!
//! A thread steps with a `Pass`. It has no bytes, and carries two things. The *actors* that it holds are
//! what it may do: an entry is made by one or two actors, and each actor is held by at most one pass. Its
//! *front* is what it knows: a beginning of the history, which has all entries of its actors. So what an
//! actor's own part of the state was at the front, it still is at the next step, however many entries of
//! others stand between. That is why a step can be prepared from the front and be legal when it is made.
//!
//! A pass divides (`Pass::split`, `split_share`) and two become one (`Pass::join`). The joined one knows the longer of
//! the two fronts, which the other begins. A `Note` is a pass without actors: taken of one pass (`Pass::note`) and
//! given to the thread of another, it tells that one all that the first knew (`Pass::learn`).
//!
//! # What a step asks and tells
//!
//! It asks that the pass holds the entry's actors, that the entry is in range, and that what its maker
//! must know is so at the front (`MayStep`). What the step itself finds out is no condition: whether a
//! timer was still armed, or a process had exited. It tells that the entry is last in the new front,
//! that none of the entries between the old front and it has an actor of the pass, and that the new front
//! is legal (`Appends`). For calls of several steps `TakesPlace` says that their entries are all that the
//! front has gained of the pass's actors.
//!
//! # The steps
//!
//! | call | step on a word | entries |
//! |---|---|---|
//! | `store_time` | stores the time | Tick |
//! | `load_time` | loads it | Look; and what has no word: Advanced, Ask, Pick, Answer, Take, Unwatch |
//! | `store_offset` | stores the offset | Shift |
//! | `load_offset` | loads it | Off, Watch, Tell |
//! | `arm`, `arm_at` | stores a slot | Arm |
//! | `load_timer` | loads one | Probe, Peek |
//! | `peek` | the same, and compares it with that of a timer | Peek |
//! | `see_timer` | loads one, with the pass that holds every actor | none |
//! | `settle` | exchanges one, if it is as expected | Cancel, Expire, Orphan, Deliver, Drop; on a miss Cancel or Probe |
//! | `renew` | exchanges one, if it is as expected | Cancel and Arm; on a miss Cancel |
//! | `cancel` | does what `peek` does, and what `settle` does where the timer is armed | Peek, Cancel |
//! | `mark` | ors 1 into the word of a process that exits, and else loads it | Mark |
//!
//! A store needs no care for other writers: the time and the offset are the clock's part's alone, and a
//! free slot is the wheel's. A slot that is taken may be settled by anybody, so there the whole word is
//! compared, generation and all: a timer is settled once, and an old reference never touches a newer timer
//! of its slot.
//!
//! # The words of values
//!
//! A time, an offset and a slot's last timer are each one number: `ert_defs` (`specs/Words.antt`) says which. Packing
//! gives just that number, unpacking gives back what was packed, and two values have two words (`word_laws.rt`). The words
//! are packed by sums and powers of two, which compile to shifts and masks.
//!
//! # The calls
//!
//! The calls of the clock and timer service that take no memory and no lock, and wait for nobody, are methods of `Pass`. Each is
//! some steps, made as a caller or a scheduler that the pass holds. A step can't be refused, so a call makes its steps
//! once and answers from what they found. Other threads may step between two steps of one call. So a cancel whose timer
//! was still armed when it was read can miss it, and then answers that nothing was cancelled.
//!
//! | call | entries | answer |
//! |---|---|---|
//! | `monotonic_time`, `look` | Look | its time |
//! | `time_offset` | Off | its offset, and the state of that |
//! | `system_time` | Look, Off | the time of the one and the offset of the other, added |
//! | `read_timer` | Look; Peek where the reference is in range | what the Peek found left |
//! | `cancel_timer` | the same; Cancel where the Peek found something left | what the Cancel found left |
//! | `is_alive` | Mark | whether the process had not exited |
//! | `mark_exit` | Mark, which exits it | the same |
//!
//! What each call may record with its answer stands in `ert_effects`: its entries in order, and the answer
//! that is read from them. What is left of a timer is told by the look that the same call made: the whole
//! milliseconds from that time to the deadline (`specs/Left.antt`).
//!
//! Beside these stands the clock's part (`KeeperPart`), whose holder moves the clock.
//!
//! It stands on `ert_defs`, `ert_clock`, `ert_effects` and the kit's `atomic_table`.
//!
//! **One cancel, from the call to the word.** This is how a cancel goes on the desk while other threads step too. In
//! the program there is one thread, which is caller 0.
//!
//! 1. **The call.** A thread that holds the actor Caller 3 calls `pass.cancel_timer(desk, Actor::Caller(3), timer)`
//!    (`timer_calls.rt`) with a reference of wheel 0, slot 5 and generation 2.
//! 2. **The look.** `Pass::load_time` loads the time word (`clock_steps.rt`). That is the entry
//!    Look by Caller 3, and its time is what is left of the timer counted from.
//! 3. **The peek.** The reference is in range, so `Pass::cancel` loads the word of slot 5 (`timer_steps.rt`), which
//!    stands at place 24 + 5 of the table (`places.rt`): the time is at 8, and no cache line has words of two wheels,
//!    or of a wheel and the time. By `armed_deadline` (`timer_words.rt`) it is the word of a timer
//!    that is armed, of generation 2, with the deadline 40: the entry Peek, with what is left by the look.
//! 4. **The exchange.** Then it makes one compare-and-exchange on the same word, from armed, 40, 2 to cancelled, 40, 2.
//!    The whole word is compared, so it succeeds only if exactly this timer is armed at that moment. If it does, it is
//!    the entry Cancel with the number; if another thread was faster, it is a Cancel that found nothing. It is never
//!    tried again.
//! 5. **The answer.** The number of milliseconds, or none. The contract says that the call took place with entries that
//!    `Cancels` allows (`crates/ert_effects/specs/TimerCalls.antt`): the three entries are in the history in this
//!    order, with none of Caller 3's between, whatever other threads did meanwhile; and the law of the model says that
//!    no other entry settles this timer, before or after.
//!
//! **Choices.**
//!
//! - **A desk keeps the width of a wheel and the place of its first process**, which its settings tell. So a step
//!   multiplies once for the place of its word: a start is seven instructions shorter, of 253 in
//!   `bench/instructions.txt` before, and a cancel two of 144.
//! - **A desk is opened from a list of its words**, which is copied: the table of atomic words has no other
//!   constructor.
//! - **The missed timer's slot may have a newer timer.** That the last one is not armed is told only if the timer is
//!   the last of its slot by what the pass knows.
//! - **A finalization of an offset that is not preliminary makes an Off by Keeper** and takes no reading.
//! - **A cancel and a restart test the generation of a name of the first round by one comparison, and a cancel rounds
//!   the time before the exchange**: so the word is asked for as soon as wheel and slot are tested, and the time
//!   needn't be read again behind the exchange, across which the compiler keeps nothing that other threads may write.
//!   In the first round the generation is the use. The path of later rounds is a function apart, and so is that of a
//!   restart that needs another slot. They take names, starts and looks in parts, and give the answer of a restart in
//!   two, since a struct that is passed or given back by memory is written there on the other path too. A restart is
//!   26 instructions shorter by it, of 312 in `bench/instructions.txt`, and a cancel five of 106. A name that is
//!   given back by memory in two halves and read there as a whole costs the restart more than these instructions: the
//!   read waits for both writes.
#![tactic(auto)]

mod carry;
mod clock_calls;
mod clock_steps;
mod clock_words;
mod desk;
mod keeper;
mod laws;
mod notes;
mod opening;
mod passes;
mod places;
mod plays;
mod process_calls;
mod process_steps;
mod renew_steps;
mod seeing;
mod share;
mod timer_calls;
mod timer_steps;
mod timer_words;
mod view;
mod word_laws;

pub use carry::{OffsetCarry, Settle, TimeCarry, TimerCarry};
pub use clock_words::{offset_of, offset_word, time_of, time_word};
pub use desk::{Desk, Pass, Words};
pub use keeper::KeeperPart;
pub use laws::{calls_take_place, steps_stand_in_order};
pub use notes::Note;
pub use places::SlotPlace;
pub use renew_steps::ArmedWord;
pub use share::{Share, Span};
pub use timer_words::{armed_word, timer_of, timer_word, word_deadline, word_generation};
pub use view::{Met, View};
pub use word_laws::{offsets_have_words, timers_have_words, times_have_words};
