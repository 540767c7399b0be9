//! Unique integers and timestamps, for many threads: `unique_integer` and `timestamp` of the `erlang`
//! module. No list is kept where a program runs, no call takes a lock, and only opening takes memory.
//!
//! # A draw is one fetch-and-add
//!
//! All monotonic numbers come from one 64-bit word, the greatest that was drawn. A draw (`Uniques::monotonic`)
//! adds 1 to it and answers the sum, in one atomic step, sequentially consistent. So two draws never find the
//! same word, none is tried again, and a draw after another, in whatever thread, has the greater number. A
//! counter in each thread with the thread's number added would give different numbers too, but not rising
//! ones: a thread that has seen another's number could draw a lesser one.
//!
//! The rule of the table holds between any two steps of any threads (`specs/Rule`). The views of the passes,
//! which stand in proofs alone, have the lists of what each drew, and all lists together are the numbers from
//! 1 to the word, each once. A draw appends the new word to one list; nothing else changes a list. So at the
//! close, where all passes come back, nothing is left out and nothing stands twice.
//!
//! # Passes and shares
//!
//! A thread draws with a pass (`UniquePass`), one of those that were opened. Nothing in an atomic word says
//! that it won't wrap around, nor which passes there are. The shares say both: each pass that was opened has
//! the share 1, a pass draws at most 2^40 numbers for its share, and all shares add up to the number of
//! passes, at most 1,024. So the word stays at most 2^50. And a pass that has taken in all others has all
//! shares, so nobody else can have drawn a number: that is how the word at the close is known to be the
//! count of the draws that came back.
//!
//! # What `meet` carries
//!
//! A pass knows the greatest number that it has seen, its own draws and what others told it, and its next
//! number is greater. What one thread has drawn reaches another by no step of the word. `Uniques::meet` makes
//! a note of the one pass, a view with the same greatest number, no draws and the share 0, and the other pass
//! takes it in. So the share, and with it the right to draw, stays where it is.
//!
//! # Plain numbers
//!
//! `UniquePass::plain` makes no step at all. Each pass answers from a range of 2^40 numbers of its own, by its
//! number, so the answers of all passes are different (`plain_numbers_differ`), in no order between passes.
//!
//! It stands on `ert_defs`, for `NoMemory`, and the kit's `atomic_table`.
//!
//! **One draw.** `Uniques::monotonic` (`ert_unique`) adds one to a single word of a table of its own, and the answer is
//! above all that the pass has seen; `UniquePass::plain` makes no step: each pass has a range of 2^40 numbers.
//!
//! **Choices.**
//!
//! - **Unique integers have a table of their own**, since no rule of the clock or the timers speaks of them.
//! - **A pass of unique integers counts its draws at run time**, so that Spent needs no look at the word.
//! - **A draw that would be spent makes no step**, and a plain answer none either.
//! - **The lists of draws are compared by counting**: each number from 1 to `n` stands in them once.
//! - **`meet` is a note, not a step**: the right to draw stays where it was.
//! - **That plain numbers differ is a law on any passes with different numbers.**
//! - **Opening unique integers takes an allocator**, and closing none.
//! - **A timestamp of a negative system time is none**, since the reference's type has three non-negative numbers.
//! - **A monotonic number is at most 2^40 times the number of passes**, so it never wraps.
#![tactic(auto)]

mod laws;
mod monotonic;
mod opening;
mod plain;
mod plays;
mod stamp;
mod uniques;
mod view;

pub use laws::{
    monotonic_numbers_rise, plain_numbers_differ, plain_numbers_tell, stamps_are_whole,
};
pub use stamp::{Stamp, stamp_of};
pub use uniques::{Spent, UniquePass, Uniques};
pub use view::{UniqueRule, View};
