//! A slot's row that another takes the place of.
ghost use Rattle.std.specs.Bool.{OnTrue};
ghost use Rattle.std.specs.Prelude.{◌≡◌, ◌<◌, max};
ghost use Rattle.ert_wheel.specs.{Levels.StaysPut, Replacing.MovesOrStays, Rings.MayTake, declared.row.TheConstants.NEVER};

use super::{Wheel, lower};
use crate::keyed::Keyed;
use crate::marked::MarkedChains;
use crate::row::Row;
use crate::windows::bucket;

impl<T: Keyed> Wheel<T> {
    ghost use Rattle.std.specs.Prelude.{◌≡◌, ◌<◌, ℕ, Some, IfSome, IsSome, max, slice_set};
    ghost use Rattle.ert_wheel.specs.{Rows.{key_in, key_of}, Standing.ComesOrStays, declared.row.TheConstants.NEVER};

    /// Puts a row in the place of the one that its slot has, with a value of the slot that has the row's key in it, as a
    /// `remove` and an `insert` do.
    /// The order is above that of every row that is held.
    ///
    /// No chain is written where the row is due in no earlier window of 512 milliseconds than the one before it, if that window
    /// comes after the next one, or where the slot is the newest of the bucket to which the row belongs.
    #[inline(always)]
    pub fn replace(&mut self, row: Row, value: T)
        requires slot { row.slot < self.old.owners.written }
        requires held { IsSome (key_in self.old.keys row.slot) }
        requires deadline { row.deadline < NEVER }
        requires newest { (slot : ℕ) → IfSome (key_in self.old.keys slot) (λ key. key.order < row.order) }
        requires key { T.key value ≡ key_of row }
        ensures keys { self.new.keys ≡ slice_set self.old.keys row.slot (Some (key_of row)) }
        ensures stands { ComesOrStays self.old.keys self.old.stands self.new.stands self.old.passed row.slot (max row.deadline self.old.passed) }
        ensures owners { self.new.owners ≡ self.old.owners }
        ensures values { self.new.values ≡ slice_set self.old.values row.slot value }
        ensures passed { self.new.passed ≡ self.old.passed }
    {
        let was = self.kept.deadline(row.slot);
        move_row(&mut self.buckets, self.next_time, was, row);
        self.kept.set(row.slot, value);
        lower(&mut self.floor, &mut self.teller, row);
    }
}

/// Moves a slot to the bucket of its row, from that of another one that was due at a time, where it doesn't stay put.
#[inline(always)]
fn move_row(chains: &mut MarkedChains, next_time: u64, was: u64, row: Row)
    requires may { MayTake chains.old row.slot }
    requires written { row.slot < chains.old.written }
    requires next { next_time < NEVER }
    requires deadline { row.deadline < NEVER }
    ensures slots { chains.new.slots ≡ chains.old.slots }
    ensures homes { chains.new.homes ≡ chains.old.homes }
    ensures written { chains.new.written ≡ chains.old.written }
    ensures moves { MovesOrStays next_time was (max row.deadline next_time) chains.old chains.new row.slot }
{
    if stays_put(next_time, was, row.deadline) {
        return;
    }
    let home = bucket(next_time, row.deadline.max(next_time));
    chains.renew(row.slot, home);
}

/// Whether a row that was due at one time stays where it is if it is due at another one.
///
/// It stands above the lowest level, and no later than it is due at either time. When time comes to its window, it goes to the
/// bucket of its deadline.
#[inline(always)]
fn stays_put(next_time: u64, was: u64, time: u64) -> bool
    ensures { OnTrue result (StaysPut next_time was time) }
{
    was >> 9 > (next_time >> 9) + 1 && was >> 9 <= time >> 9
}
