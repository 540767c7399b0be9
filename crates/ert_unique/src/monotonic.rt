//! Monotonic unique integers, and what passes tell each other of them.
ghost use Rattle.std.specs.Prelude.{◌≡◌, ◌*◌, ◌^◌, ◌<◌, ◌≤◌, max, [], ◌∷◌, ◌++◌, length, IfOk, OnErr, OnOk};
ghost use Rattle.ert_unique.specs.Passes.{passes_of, draws_of, seen_of, number_of, plains_of, BelongsToUniques, IsSamePass};

use crate::plays::{Draws, Notes, Unites};
use crate::uniques::{MOST, Spent, UniquePass, Uniques};

impl Uniques {
    /// Draws a number that is greater than every number that the pass has seen (`erlang` module reference,
    /// `unique_integer` with `monotonic` and `positive`): 1 to 2^40 times the number of passes.
    ///
    /// Spent comes exactly where the pass has drawn 2^40 numbers. Then no step is made.
    pub fn monotonic(&self, pass: &mut UniquePass) -> Result<u64, Spent>
        requires belongs { BelongsToUniques self.now pass.old }
        ensures belongs { BelongsToUniques self.now pass.new }
        ensures draws { IfOk result (λ n. draws_of pass.new ≡ draws_of pass.old ++ n ∷ []) }
        ensures rises { IfOk result (λ n. seen_of pass.old < n) }
        ensures seen { IfOk result (λ n. seen_of pass.new ≡ n) }
        ensures range { IfOk result (λ n. n ≤ 2 ^ 40 * passes_of self.now) }
        ensures number { number_of pass.new ≡ number_of pass.old }
        ensures plains { plains_of pass.new ≡ plains_of pass.old }
        ensures room { OnOk result (length (draws_of pass.old) < 2 ^ 40) }
        ensures spent { OnErr result ((length (draws_of pass.old) ≡ 2 ^ 40) × (pass.new ≡ pass.old)) }
    {
        if pass.drawn == MOST {
            return Err(Spent);
        }
        pass.drawn += 1;
        let greatest = self.table.shared.fetch_add::<Draws>(&mut pass.seat, 0, 1);
        Ok(greatest + 1)
    }

    /// Tells a pass what another has seen: its next number is greater than that too. Nothing else changes.
    pub fn meet(&self, pass: &mut UniquePass, other: &mut UniquePass)
        requires belongs { BelongsToUniques self.now pass.old }
        requires other_belongs { BelongsToUniques self.now other.old }
        ensures belongs { BelongsToUniques self.now pass.new }
        ensures other_belongs { BelongsToUniques self.now other.new }
        ensures seen { seen_of pass.new ≡ max (seen_of pass.old) (seen_of other.old) }
        ensures still { IsSamePass pass.old pass.new }
        ensures other_still { IsSamePass other.old other.new }
        ensures other_seen { seen_of other.new ≡ seen_of other.old }
    {
        let note = self.table.shared.split_seat::<Notes>(&mut other.seat);
        self.table.shared.join_seat::<Unites>(&mut pass.seat, note);
    }
}
