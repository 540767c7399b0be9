//! A walk over a bucket from its newest row to its oldest, as far as they are in order of start.

ghost use Rattle.std.specs.Bool.{OnTrue};
ghost use Rattle.std.specs.Prelude.{◌≡◌, ◌≤◌, ◌<◌, ℕ, IfSome, MatchOption, length};
ghost use Rattle.ert_wheel.specs.{Ordering.{all_risen, risen_from, HasRowDue, IsAllRisen}, Wheels.{held_keys, IsWheel}};

use crate::kept::Kept;
use crate::keyed::Keyed;
use crate::marked::MarkedChains;
use crate::ordered::{ALL, Ordered};
use crate::renewing::{Sorting, sorting_of};
use crate::row::NEVER;
use crate::windows::bucket_of_window;

/// So many rows may be looked at for each move, and as many but one for none.
const LOOKS: u64 = 8;

/// Goes on with the walk over the bucket of the next time, so far as moves allow. Whether all rows are in order; where one isn't, a
/// sort of the bucket begins.
pub fn walk_down<T: Keyed>(
    chains: &MarkedChains,
    kept: &Kept<T>,
    ordered: &mut Ordered,
    sorting: &mut Sorting,
    next_time: u64,
    moves: &mut u32,
) -> bool
    requires wheel { (count : ℕ) × IsWheel next_time count ordered.old (held_keys chains.now kept.now.keys) chains.now }
    requires kept { length kept.now.keys ≡ chains.now.written }
    requires most { chains.now.written ≤ chains.now.slots }
    ensures wheel { (count : ℕ) → IsWheel next_time count ordered.old (held_keys chains.now kept.now.keys) chains.now
        → IsWheel next_time count ordered.new (held_keys chains.now kept.now.keys) chains.now }
    ensures done { OnTrue result (IsAllRisen next_time ordered.new) }
    ensures fewer { moves.new ≤ moves.old }
{
    let Some(first) = first_risen(chains, kept, *ordered, next_time) else {
        *ordered = Ordered {
            time: next_time,
            rising: ALL,
        };
        return true;
    };
    *ordered = Ordered {
        time: next_time,
        rising: first,
    };
    let mut left = *moves as u64 * LOOKS + (LOOKS - 1);
    while let Some(older) = chains.older(ordered.rising) {
        if kept.order(older) > kept.order(ordered.rising) {
            *sorting = sorting_of(next_time);
            *moves = (left / LOOKS) as u32;
            return false;
        }
        if left == 0 {
            *moves = 0;
            return false;
        }
        left -= 1;
        ordered.rising = older;
    }
    *moves = (left / LOOKS) as u32;
    ordered.rising = ALL;
    true
}

/// The slot of the row from which the rows of the bucket are known to be in order; None where it has no row.
#[inline]
fn first_risen<T: Keyed>(
    chains: &MarkedChains,
    kept: &Kept<T>,
    ordered: Ordered,
    next_time: u64,
) -> Option<u32>
    requires wheel { (count : ℕ) × IsWheel next_time count ordered (held_keys chains.now kept.now.keys) chains.now }
    requires kept { length kept.now.keys ≡ chains.now.written }
    requires most { chains.now.written ≤ chains.now.slots }
    ensures wheel { (count : ℕ) → IsWheel next_time count ordered (held_keys chains.now kept.now.keys) chains.now
        → MatchOption result (IsWheel next_time count (all_risen next_time) (held_keys chains.now kept.now.keys) chains.now)
        (λ slot. IsWheel next_time count (risen_from next_time slot) (held_keys chains.now kept.now.keys) chains.now) }
    ensures due { IfSome result (HasRowDue (held_keys chains.now kept.now.keys) next_time) }
{
    if ordered.time == next_time && is_due(chains, kept, next_time, ordered.rising) {
        return Some(ordered.rising);
    }
    chains.newest(bucket_of_window(0, next_time))
}

/// Whether a slot has a row that is due by a time.
#[inline]
pub fn is_due<T: Keyed>(chains: &MarkedChains, kept: &Kept<T>, time: u64, slot: u32) -> bool
    requires kept { length kept.now.keys ≡ chains.now.written }
    requires most { chains.now.written ≤ chains.now.slots }
    ensures written { OnTrue result (slot < chains.now.written) }
    ensures due { OnTrue result (HasRowDue (held_keys chains.now kept.now.keys) time slot) }
{
    if slot as usize >= kept.len() || chains.is_alone(slot) {
        return false;
    }
    kept.deadline(slot) <= time
}
