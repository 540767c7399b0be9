ghost use Rattle.std.specs.Prelude.{◌≡◌, min};

use crate::chains::Chains;
use crate::falling::move_on;
use crate::kept::Kept;
use crate::keyed::Keyed;
use crate::marked::MarkedChains;
use crate::ordered::Ordered;
use crate::renewing::{Sorting, sorting_of};
use crate::row::{HeldRow, LAST, NEVER, Row};
use crate::windows::bucket;
use ert_defs::NoMemory;
use std::alloc::Global;
use std::marker::Model;

mod due;
mod first;
mod next;
mod replacing;

/// A timing wheel of levels: rows by their slots, and the due ones in order of deadline. Beside these it has a value
/// of each slot, and a chain of slots for each owner.
///
/// It has room for one row of each slot below a number that is fixed when it is made, and takes no
/// memory after that. A contract sees it as the list of the slots' keys, with None for a slot without a
/// row, as the list of the buckets in which the rows stand, as the list of the values of those that are written, as the chains
/// of the owners, and as the first time that wasn't passed.
///
/// The slots below a number are written, at first none (`write_up_to`). A slot that is written has a value with a row or
/// without, and may so be in an owner's chain. One that isn't has no row, no value and no owner, and no call is made for it.
///
///     let mut wheel = Wheel::new(alloc, 64, 1)?;
///     let mut due = Vec::with_capacity(alloc, 64)?;
///     wheel.write_up_to(4, Key { deadline: 0, order: 0 });
///     wheel.insert(Row { deadline: 20, order: 0, slot: 3 }, Key { deadline: 20, order: 0 });
///     wheel.advance(20, &mut due);        // gives that row, and takes it out
#[derive(Drop)]
pub struct Wheel<T: Keyed> {
    // The next time: the first that wasn't passed.
    next_time: u64,
    // A lower bound of all deadlines: the next time, or the last answer of `next_due` where that is later and no row was
    // put in late since.
    floor: u64,
    // The slot whose row told the floor; any other where none did. Whoever reads it looks whether it does.
    teller: u32,
    len: u32,
    // How many rows have fallen from the next window of level 1 ahead of time.
    fallen: u32,
    // How far the rows of the next time's bucket are known to be in order of start.
    ordered: Ordered,
    // How far they are sorted.
    sorting: Sorting,
    kept: Kept<T>,
    buckets: MarkedChains,
    owners: Chains,
}

impl<T: Keyed> Model for Wheel<T> {
    ghost use Rattle.ert_wheel.specs.{Rows.Held, Standing.homes_of, Wheels.{held_keys, IsWheelAlike}};

    ghost Value = { Held T };

    ghost view = { λ w. record {
      keys = held_keys w.buckets w.kept.keys;
      stands = homes_of w.buckets;
      owners = w.owners;
      values = w.kept.values;
      passed = w.next_time;
    } };

    ghost invariant = { λ w. IsWheelAlike w.next_time w.len w.ordered w.floor w.kept w.buckets w.owners };
}

impl<T: Keyed> Wheel<T> {
    ghost use Rattle.std.specs.Prelude.{◌≡◌, ◌↔◌, ◌+◌, ◌-◌, ◌<◌, ◌≤◌, ◌^◌, ℕ, Option, Some, None, IsTrue, IsSome, IfSome, IfOk, MatchOption, All, [], ◌++◌, count_by, length, map, max, min, option_map, replicate, slice_set, vec_capacity};
    ghost use Rattle.std.specs.{List.slice_get, List.Sorted.IsSortedBy, Option.is_some};
    ghost use Rattle.ert_wheel.specs.{Rings.{Place, AreChains, MayPut, Puts, PutsInHome, MayTake, GivesUpPlace, Finds}, Rows.{key_in, key_of, rows_told, told_at, times, due_count, left_at, comes_before}, Standing.{ComesTo, StayOrFall}};
    ghost use Rattle.ert_wheel.specs.{declared.row.TheConstants.{NEVER, LAST}};

    /// A wheel without rows, with room for one of each slot below `slots`, of which none is written. The numbers of
    /// owners are below `owners`, and none has a slot.
    pub fn new(alloc: Global, slots: u32, owners: u32) -> Result<Wheel<T>, NoMemory>
        requires slots { slots ≤ 2 ^ 30 }
        requires owners { owners ≤ 2 ^ 30 }
        ensures keys { IfOk result (λ wheel. wheel.keys ≡ replicate slots None) }
        ensures stands { IfOk result (λ wheel. wheel.stands ≡ replicate slots None) }
        ensures slots { IfOk result (λ wheel. wheel.owners.slots ≡ slots) }
        ensures homes { IfOk result (λ wheel. wheel.owners.homes ≡ owners) }
        ensures unowned { IfOk result (λ wheel. AreChains wheel.owners (λ _. None)) }
        ensures written { IfOk result (λ wheel. wheel.owners.written ≡ 0) }
        ensures values { IfOk result (λ wheel. wheel.values ≡ []) }
        ensures passed { IfOk result (λ wheel. wheel.passed ≡ 0) }
    {
        let kept = Kept::new(alloc, slots)?;
        let buckets = MarkedChains::new(alloc, slots)?;
        let owners = Chains::new(alloc, slots, owners)?;
        Ok(Wheel {
            next_time: 0,
            floor: 0,
            teller: 0,
            len: 0,
            fallen: 0,
            ordered: Ordered {
                time: NEVER,
                rising: 0,
            },
            sorting: sorting_of(NEVER),
            kept,
            buckets,
            owners,
        })
    }

    /// How many rows there are.
    pub fn len(&self) -> usize
        ensures { result ≡ count_by is_some self.now.keys }
    {
        self.len as usize
    }

    /// Whether there is no row.
    pub fn is_empty(&self) -> bool
        ensures { IsTrue result ↔ (count_by is_some self.now.keys ≡ 0) }
    {
        self.len == 0
    }

    /// The row of a slot; None where it has none.
    pub fn row(&self, slot: u32) -> Option<HeldRow>
        requires { slot < self.now.owners.written }
        ensures { result ≡ option_map (told_at slot) (key_in self.now.keys slot) }
    {
        if self.buckets.is_alone(slot) {
            return None;
        }
        Some(HeldRow {
            deadline: self.kept.deadline(slot),
            slot,
        })
    }

    /// How many slots there are.
    pub fn slots(&self) -> u32
        ensures { result ≡ length self.now.keys }
    {
        self.buckets.slots()
    }

    /// How many slots are written.
    #[inline]
    pub fn written(&self) -> usize
        ensures written { result ≡ self.now.owners.written }
        ensures values { result ≡ length self.now.values }
    {
        self.kept.len()
    }

    /// Writes slots up to so many, each with this value, without a row and without an owner. It takes no memory.
    #[cold]
    #[inline(never)]
    pub fn write_up_to(&mut self, count: u32, value: T)
        requires more { self.old.owners.written ≤ count }
        requires most { count ≤ length self.old.keys }
        requires owned { count ≤ self.old.owners.slots }
        ensures keys { self.new.keys ≡ self.old.keys }
        ensures stands { self.new.stands ≡ self.old.stands }
        ensures owners { self.new.owners ≡ record self.old.owners { written = count } }
        ensures values { self.new.values ≡ self.old.values ++ replicate (count - self.old.owners.written) value }
        ensures passed { self.new.passed ≡ self.old.passed }
    {
        self.kept.write_up_to(count, value);
        self.buckets.write_up_to(count);
        self.owners.write_up_to(count);
    }

    /// The value of a slot: that of the last row that was put in, or the one with which it was written.
    #[inline]
    pub fn value(&self, slot: u32) -> T
        requires { slot < self.now.owners.written }
        ensures { slice_get self.now.values slot ≡ Some result }
    {
        self.kept.value(slot)
    }

    /// Gives a slot another value, with the same key in it.
    #[inline]
    pub fn change(&mut self, slot: u32, value: T)
        requires written { slot < self.old.owners.written }
        requires same { IfSome (slice_get self.old.values slot) (λ old. T.key value ≡ T.key old) }
        ensures keys { self.new.keys ≡ self.old.keys }
        ensures stands { self.new.stands ≡ self.old.stands }
        ensures owners { self.new.owners ≡ self.old.owners }
        ensures values { self.new.values ≡ slice_set self.old.values slot value }
        ensures passed { self.new.passed ≡ self.old.passed }
    {
        self.kept.set(slot, value);
    }

    /// Puts a row in, with a value of its slot that has the row's key in it. The slot has no row, and the order is above that of
    /// every row that is held.
    ///
    /// A row whose deadline was passed already is given by the next advance. A deadline is at most `LAST`.
    #[inline]
    pub fn insert(&mut self, row: Row, value: T)
        requires slot { row.slot < self.old.owners.written }
        requires vacant { key_in self.old.keys row.slot ≡ None }
        requires deadline { row.deadline < NEVER }
        requires newest { (slot : ℕ) → IfSome (key_in self.old.keys slot) (λ key. key.order < row.order) }
        requires key { T.key value ≡ key_of row }
        ensures keys { self.new.keys ≡ slice_set self.old.keys row.slot (Some (key_of row)) }
        ensures stands { ComesTo self.old.stands self.new.stands self.old.passed row.slot (max row.deadline self.old.passed) }
        ensures owners { self.new.owners ≡ self.old.owners }
        ensures values { self.new.values ≡ slice_set self.old.values row.slot value }
        ensures passed { self.new.passed ≡ self.old.passed }
    {
        let home = bucket(self.next_time, row.deadline.max(self.next_time));
        self.buckets.put(row.slot, home);
        self.kept.set(row.slot, value);
        lower(&mut self.floor, &mut self.teller, row);
        self.len += 1;
    }

    /// Takes the row of a slot out; false exactly where there is none.
    #[inline]
    pub fn remove(&mut self, slot: u32) -> bool
        requires { slot < self.old.owners.written }
        ensures found { IsTrue result ↔ IsSome (key_in self.old.keys slot) }
        ensures none { key_in self.old.keys slot ≡ None → self.new ≡ self.old }
        ensures left { self.new.keys ≡ slice_set self.old.keys slot None }
        ensures stands { self.new.stands ≡ slice_set self.old.stands slot None }
        ensures owners { self.new.owners ≡ self.old.owners }
        ensures values { self.new.values ≡ self.old.values }
        ensures passed { self.new.passed ≡ self.old.passed }
    {
        if self.buckets.is_alone(slot) {
            return false;
        }
        self.buckets.take(slot);
        self.len -= 1;
        true
    }

    /// Puts a slot that is in no owner's chain into that of an owner, as its newest.
    #[inline]
    pub fn own(&mut self, slot: u32, owner: u32)
        requires may { MayPut self.old.owners slot owner }
        requires written { slot < self.old.owners.written }
        ensures keys { self.new.keys ≡ self.old.keys }
        ensures stands { self.new.stands ≡ self.old.stands }
        ensures values { self.new.values ≡ self.old.values }
        ensures passed { self.new.passed ≡ self.old.passed }
        ensures slots { self.new.owners.slots ≡ self.old.owners.slots }
        ensures homes { self.new.owners.homes ≡ self.old.owners.homes }
        ensures written { self.new.owners.written ≡ self.old.owners.written }
        ensures owned { Puts self.old.owners self.new.owners slot owner }
        ensures in_home { PutsInHome self.old.owners self.new.owners slot owner }
    {
        self.owners.put(slot, owner);
    }

    /// Takes a slot out of its owner's chain, where it is in one.
    #[inline]
    pub fn disown(&mut self, slot: u32)
        requires may { MayTake self.old.owners slot }
        requires written { slot < self.old.owners.written }
        ensures keys { self.new.keys ≡ self.old.keys }
        ensures stands { self.new.stands ≡ self.old.stands }
        ensures values { self.new.values ≡ self.old.values }
        ensures passed { self.new.passed ≡ self.old.passed }
        ensures slots { self.new.owners.slots ≡ self.old.owners.slots }
        ensures homes { self.new.owners.homes ≡ self.old.owners.homes }
        ensures written { self.new.owners.written ≡ self.old.owners.written }
        ensures disowned { GivesUpPlace self.old.owners self.new.owners slot }
    {
        self.owners.take(slot);
    }

    /// Whether a slot is in the chain of an owner.
    #[inline]
    pub fn is_owned(&self, slot: u32) -> bool
        requires { slot < self.now.owners.written }
        ensures { (places : ℕ → Option Place) → AreChains self.now.owners places
            → IsTrue result ↔ IsSome (places slot) }
    {
        !self.owners.is_alone(slot)
    }

    /// The newest slot of an owner; None where it has none.
    #[inline]
    pub fn newest_owned(&self, owner: u32) -> Option<u32>
        requires { owner < self.now.owners.homes }
        ensures finds { (places : ℕ → Option Place) → AreChains self.now.owners places
            → Finds self.now.owners places owner (2 ^ 64) result }
        ensures written { IfSome result (λ slot. slot < self.now.owners.written) }
    {
        self.owners.newest(owner)
    }

    /// Tells that nothing is left up to `to`: no later call looks at a time up to it again. Where this comes into
    /// other windows of a level, the rows that are left in their buckets go to those of their deadlines; before that some do ahead of
    /// time, in each millisecond that passes.
    ///
    /// A wheel that isn't told so gives the same rows, but looks at more and more buckets.
    #[inline(always)]
    pub fn pass(&mut self, to: u64)
        requires { (slot : ℕ) → IfSome (key_in self.old.keys slot) (λ key. to < key.deadline) }
        ensures keys { self.new.keys ≡ self.old.keys }
        ensures stands { StayOrFall self.old.keys self.new.passed self.old.stands self.new.stands }
        ensures owners { self.new.owners ≡ self.old.owners }
        ensures values { self.new.values ≡ self.old.values }
        ensures passed { self.new.passed ≡ max self.old.passed (min (to + 1) LAST) }
    {
        let after = to.min(LAST - 1) + 1;
        let was = self.next_time;
        let next_time = was.max(after);
        self.fallen = move_on(&mut self.buckets, &self.kept, was, next_time, self.fallen);
        self.next_time = next_time;
        self.ordered.time = NEVER;
        self.floor = self.floor.max(after);
    }

    /// Takes the rows with a deadline at most `to` out, and writes them into `out` as `due` does.
    pub fn advance(&mut self, to: u64, out: &mut Vec<HeldRow>)
        requires { length self.old.keys ≤ vec_capacity out.old }
        ensures each { (slot : ℕ) → times slot (rows_told self.old.keys out.new.items) ≡ due_count to (key_in self.old.keys slot) }
        ensures rows { All (λ row. key_in self.old.keys row.slot ≡ Some (key_of row)) (rows_told self.old.keys out.new.items) }
        ensures sorted { IsSortedBy comes_before (rows_told self.old.keys out.new.items) }
        ensures capacity { vec_capacity out.new ≡ vec_capacity out.old }
        ensures left { self.new.keys ≡ map (left_at to) self.old.keys }
        ensures stands { StayOrFall self.new.keys self.new.passed self.old.stands self.new.stands }
        ensures owners { self.new.owners ≡ self.old.owners }
        ensures values { self.new.values ≡ self.old.values }
        ensures passed { self.new.passed ≡ max self.old.passed (min (to + 1) LAST) }
    {
        self.due(to, out);
        for row in out.iter() {
            self.remove(row.slot);
        }
        self.pass(to);
    }
}

/// Lowers a floor to the deadline of a row that is below it. Most deadlines are above it, and then nothing is written.
#[inline]
fn lower(floor: &mut u64, teller: &mut u32, row: Row)
    ensures { floor.new ≡ min floor.old row.deadline }
{
    if row.deadline < *floor {
        *floor = row.deadline;
        *teller = row.slot;
    }
}
