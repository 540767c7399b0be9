ghost use Rattle.std.specs.Prelude.{◌≡◌, ◌^◌, ◌<◌, ◌≤◌, [], length, All};
ghost use Rattle.std.specs.List.Sorted.{IsStrictlyIncreasing};

use crate::view::{UniqueRule, View};
use atomic_table::{Seat, Table};
use std::alloc::Global;

/// How many numbers of each kind a pass may answer: 2^40.
pub(crate) const MOST: u64 = 1 << 40;

/// A pass has answered 2^40 numbers of the kind that was asked for.
#[derive(Clone, Copy, Debug, PartialEq, Eq)]
pub struct Spent;

/// The unique integers of a system: the word that threads share by a `&`. It has the greatest monotonic
/// number that was drawn.
///
///     let (uniques, mut passes) = Uniques::open(alloc, 1)?;
///     let mut pass = passes.pop().expect(rt, "a pass for each thread");
///     let first = uniques.monotonic(&mut pass);       // 1
///     let second = uniques.monotonic(&mut pass);      // 2, above all that were drawn
///     let plain = pass.plain();                       // 1: a pass has plain numbers of its own
#[derive(Drop)]
pub struct Uniques {
    pub(crate) table: Table<(), View, u32, UniqueRule, Global>,
    ghost in_range: { (1 ≤ table.shared.key) × (table.shared.key ≤ 1024) },
    ghost one_word: { table.shared.table_id.words ≡ 1 },
    ghost no_slots: { table.shared.table_id.slots ≡ 0 },
}

/// The right of a thread to draw numbers, and what it has drawn and seen.
#[derive(Drop)]
pub struct UniquePass {
    pub(crate) seat: Seat<(), View>,
    /// Which of the passes it is: 0 to 1,023.
    pub(crate) number: u32,
    /// How many monotonic numbers it drew.
    pub(crate) drawn: u64,
    /// How many plain numbers it answered.
    pub(crate) plains: u64,
    ghost bare: { seat.me.1 ≡ [] },
    ghost share: { seat.me.0.share ≡ 1 },
    ghost numbered: { number < 1024 },
    ghost counted: { drawn ≡ length seat.me.0.draws },
    ghost few: { drawn ≤ 2 ^ 40 },
    ghost plain: { plains ≤ 2 ^ 40 },
    ghost greatest: { All (λ n. n ≤ seat.me.0.seen) seat.me.0.draws },
    ghost rising: { IsStrictlyIncreasing seat.me.0.draws },
}
