//! Plain unique integers.
ghost use Rattle.std.specs.Prelude.{◌≡◌, ◌+◌, ◌^◌, ◌≤◌, IfOk, OnErr, OnOk};
ghost use Rattle.ert_unique.specs.{Passes.{draws_of, seen_of, number_of, plains_of, BelongsToUniques}, Plain.plain_answer, declared.uniques.Uniques.Uniques};

use crate::uniques::{MOST, Spent, UniquePass};

impl UniquePass {
    /// Answers a number that no pass of the same system answers twice as a plain one (`erlang` module
    /// reference, `unique_integer` with `positive`): 1 to 2^40 times the number of passes, in no order
    /// between passes. No step is made.
    ///
    /// Spent comes exactly where the pass has answered 2^40 plain numbers.
    pub fn plain(&mut self) -> Result<u64, Spent>
        ensures answer { IfOk result (λ n. n ≡ plain_answer (number_of self.old) (plains_of self.new)) }
        ensures plains { OnOk result (plains_of self.new ≡ plains_of self.old + 1) }
        ensures room { OnOk result (plains_of self.new ≤ 2 ^ 40) }
        ensures number { number_of self.new ≡ number_of self.old }
        ensures draws { draws_of self.new ≡ draws_of self.old }
        ensures seen { seen_of self.new ≡ seen_of self.old }
        ensures belongs { (u : Uniques) → BelongsToUniques u self.old → BelongsToUniques u self.new }
        ensures spent { OnErr result ((plains_of self.old ≡ 2 ^ 40) × (self.new ≡ self.old)) }
    {
        if self.plains == MOST {
            return Err(Spent);
        }
        self.plains += 1;
        Ok(self.number as u64 * MOST + self.plains)
    }
}
