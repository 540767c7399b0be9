//! The oldest row of a bucket that is due.

ghost use Rattle.std.specs.Prelude.{◌≡◌, ◌<◌, ℕ, MatchOption, length};
ghost use Rattle.ert_wheel.specs.{FirstDue.{NoneDueIn, IsOldestDue}, NextDue.MayWalk, Rings.{Place, AreChains}, Rows.row_told, Wheels.{held_keys, places}, declared.row.Key.Key, declared.row.TheConstants.BUCKETS};

use crate::kept::Kept;
use crate::keyed::Keyed;
use crate::marked::MarkedChains;
use crate::row::HeldRow;

/// The oldest row of a bucket with a deadline at most `to`; None where it has none.
///
/// It looks at the older rows of the bucket, whose deadlines are later.
pub fn oldest_due<T: Keyed>(
    chains: &MarkedChains,
    kept: &Kept<T>,
    bucket: u32,
    to: u64,
) -> Option<HeldRow>
    requires bucket { bucket < BUCKETS }
    requires may { MayWalk chains.now (held_keys chains.now kept.now.keys) }
    requires kept { length kept.now.keys ≡ chains.now.written }
    ensures { (spot : Key → Place)
        → AreChains chains.now (places spot (held_keys chains.now kept.now.keys))
        → MatchOption result (NoneDueIn (held_keys chains.now kept.now.keys) spot bucket to)
        (λ row. IsOldestDue (held_keys chains.now kept.now.keys) spot bucket to (row_told (held_keys chains.now kept.now.keys) row)) }
{
    let mut next = chains.oldest(bucket);
    while let Some(slot) = next {
        let deadline = kept.deadline(slot);
        if deadline <= to {
            return Some(HeldRow { deadline, slot });
        }
        next = chains.newer(slot);
    }
    None
}
