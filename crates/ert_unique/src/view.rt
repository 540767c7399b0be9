ghost use Rattle.ert_unique.specs.{Rule.AreUniqueDraws, Views.first_share};

use atomic_table::TableRule;
use std::collections::LinkedList;

/// What a pass knows. No value of it is made: it stands in contracts and proofs alone.
pub struct View {
    /// The monotonic numbers that the pass drew, in order.
    pub draws: LinkedList<u64>,
    /// The greatest number that the pass has seen; 0 at first.
    pub seen: u64,
    /// 1 for a pass, 0 for a note of what one has seen: how often 2^40 numbers it may draw.
    pub share: u32,
    /// How many passes were opened, unless the pass was taken in by another.
    pub passes: u32,
}

/// The rule of the table: the draws of all passes together are the numbers from 1 to the word.
pub struct UniqueRule;

impl TableRule<(), View, u32> for UniqueRule {
    ghost holds = { λ passes s. AreUniqueDraws passes s.words s.views };

    ghost first = { first_share };
}
