ghost use Rattle.std.specs.Prelude.{◌≡◌, ◌↔◌, ◌≤◌, IfOk, IsTrue};

use crate::chains::Chains;
use crate::marks::Marks;
use crate::row::BUCKETS;
use ert_defs::NoMemory;
use std::alloc::Global;
use std::marker::Model;

/// The chains of the buckets, with a mark for each bucket that has a slot.
#[derive(Drop)]
pub struct MarkedChains {
    chains: Chains,
    marks: Marks,
}

impl Model for MarkedChains {
    ghost use Rattle.ert_wheel.specs.{Marks.AreMarked, Rings.Rings};

    ghost Value = { Rings };

    ghost view = { λ m. m.chains };

    ghost invariant = { λ m. AreMarked m.chains m.marks };
}

impl MarkedChains {
    ghost use Rattle.std.specs.Prelude.{◌≡◌, ◌↔◌, ◌+◌, ◌*◌, ◌<◌, ◌≤◌, ◌^◌, ℕ, Option, None, IfOk, IfSome, IsTrue};
    ghost use Rattle.ert_wheel.specs.{Links.{next_at, prev_at}, Marks.{FirstUsed, FirstWindow}, Rings.{Place, AreChains, MayPut, Puts, PutsInHome, PutsOldestInHome, MayTake, GivesUpPlace, MovesSlot, node_slot, Finds, FindsOldest}};
    ghost use Rattle.ert_wheel.specs.{declared.row.TheConstants.{BUCKETS, NEVER}};

    /// All chains empty, and no slot written. No call takes memory after this.
    pub fn new(alloc: Global, slots: u32) -> Result<MarkedChains, NoMemory>
        requires { slots ≤ 2 ^ 30 }
        ensures slots { IfOk result (λ chains. chains.slots ≡ slots) }
        ensures homes { IfOk result (λ chains. chains.homes ≡ BUCKETS) }
        ensures written { IfOk result (λ chains. chains.written ≡ 0) }
        ensures empty { IfOk result (λ chains. AreChains chains (λ _. None)) }
    {
        let chains = Chains::new(alloc, slots, BUCKETS)?;
        Ok(MarkedChains {
            chains,
            marks: Marks::new(),
        })
    }

    /// How many slots there are.
    #[inline]
    pub fn slots(&self) -> u32
        ensures { result ≡ self.now.slots }
    {
        self.chains.slots()
    }

    /// Writes slots up to so many, each in no chain.
    pub fn write_up_to(&mut self, count: u32)
        requires more { self.old.written ≤ count }
        requires most { count ≤ self.old.slots }
        ensures { self.new ≡ record self.old { written = count } }
    {
        self.chains.write_up_to(count);
    }

    /// Puts a slot that is in no chain into that of a bucket, as its newest.
    ///
    /// The mark is written whether it stands or not: where timers come to buckets at random, a branch on it costs more.
    #[inline]
    pub fn put(&mut self, slot: u32, home: u32)
        requires may { MayPut self.old slot home }
        requires written { slot < self.old.written }
        ensures slots { self.new.slots ≡ self.old.slots }
        ensures homes { self.new.homes ≡ self.old.homes }
        ensures written { self.new.written ≡ self.old.written }
        ensures chains { Puts self.old self.new slot home }
        ensures in_home { PutsInHome self.old self.new slot home }
    {
        self.chains.put(slot, home);
        self.marks.set(home);
    }

    /// Puts a slot that is in no chain into that of a bucket, as its oldest.
    #[inline]
    pub fn put_oldest(&mut self, slot: u32, home: u32)
        requires may { MayPut self.old slot home }
        requires written { slot < self.old.written }
        ensures slots { self.new.slots ≡ self.old.slots }
        ensures homes { self.new.homes ≡ self.old.homes }
        ensures written { self.new.written ≡ self.old.written }
        ensures in_home { PutsOldestInHome self.old self.new slot home }
    {
        self.chains.put_oldest(slot, home);
        self.marks.set(home);
    }

    /// Takes a slot out of its chain, where it is in one.
    #[inline]
    pub fn take(&mut self, slot: u32)
        requires may { MayTake self.old slot }
        requires written { slot < self.old.written }
        ensures slots { self.new.slots ≡ self.old.slots }
        ensures homes { self.new.homes ≡ self.old.homes }
        ensures written { self.new.written ≡ self.old.written }
        ensures chains { GivesUpPlace self.old self.new slot }
    {
        let only = self.chains.only_of(slot);
        self.chains.take(slot);
        if let Some(home) = only {
            self.marks.clear(home);
        }
    }

    /// Makes a slot the newest of a bucket, from whatever chain it is in. Where it is that already nothing is written.
    #[inline]
    pub fn renew(&mut self, slot: u32, home: u32)
        requires slot { MayTake self.old slot }
        requires written { slot < self.old.written }
        requires home { home < BUCKETS }
        ensures slots { self.new.slots ≡ self.old.slots }
        ensures homes { self.new.homes ≡ self.old.homes }
        ensures written { self.new.written ≡ self.old.written }
        ensures chains { MovesSlot self.old self.new slot home }
    {
        if self.chains.is_newest(slot, home) {
            return;
        }
        self.take(slot);
        self.put(slot, home);
    }

    /// Whether a slot is alone in its ring: it is in no chain.
    #[inline]
    pub fn is_alone(&self, slot: u32) -> bool
        requires { slot < self.now.written }
        ensures { IsTrue result ↔ (next_at self.now.links slot ≡ slot) }
    {
        self.chains.is_alone(slot)
    }

    /// The first window of a level whose bucket has a slot, from one on and before an end; the end where there is none.
    #[inline]
    pub fn first_window(&self, level: u32, from: u64, end: u64) -> u64
        requires level { level ≤ 4 }
        requires from { from ≤ end }
        requires few { end ≤ from + 1024 }
        requires end { end * 512 ^ level ≤ NEVER }
        ensures up { from ≤ result }
        ensures low { result ≤ end }
        ensures first { (places : ℕ → Option Place) → AreChains self.now places
            → FirstWindow self.now places level from end result }
    {
        let base = level * 1024;
        let at = (from & 1023) as u32;
        let stop = at + (end - from) as u32;
        let last = base + stop.min(1024);
        let found = self.first_used(base + at, last);
        if found < last || stop <= 1024 {
            return from + (found - base - at) as u64;
        }
        // The windows take the buckets in turn: those that are left begin with the first bucket.
        let found = self.first_used(base, base + stop - 1024);
        from + (found + 1024 - base - at) as u64
    }

    /// The first bucket that has a slot, from one on and before an end; the end where there is none.
    #[inline]
    fn first_used(&self, from: u32, end: u32) -> u32
        requires from { from ≤ end }
        requires end { end ≤ BUCKETS }
        ensures up { from ≤ result }
        ensures low { result ≤ end }
        ensures first { (places : ℕ → Option Place) → AreChains self.now places
            → FirstUsed self.now places from end result }
    {
        self.marks.first(from, end)
    }

    /// The newest slot of a bucket; None where it has none.
    #[inline]
    pub fn newest(&self, home: u32) -> Option<u32>
        requires { home < BUCKETS }
        ensures finds { (places : ℕ → Option Place) → AreChains self.now places
            → Finds self.now places home (2 ^ 64) result }
        ensures written { IfSome result (λ slot. slot < self.now.written) }
    {
        self.chains.newest(home)
    }

    /// The oldest slot of a bucket; None where it has none.
    #[inline]
    pub fn oldest(&self, home: u32) -> Option<u32>
        requires { home < BUCKETS }
        ensures finds { (places : ℕ → Option Place) → AreChains self.now places
            → FindsOldest self.now places home 0 result }
        ensures written { IfSome result (λ slot. slot < self.now.written) }
    {
        self.chains.oldest(home)
    }

    /// The slot that is next older than this one in its chain; None where there is none.
    #[inline]
    pub fn older(&self, slot: u32) -> Option<u32>
        requires { slot < self.now.written }
        ensures finds { (places : ℕ → Option Place) (place : Place) → AreChains self.now places
            → places slot ≡ Some place → Finds self.now places place.home place.order result }
        ensures link { result ≡ node_slot self.now.slots (next_at self.now.links slot) }
        ensures written { IfSome result (λ slot. slot < self.now.written) }
    {
        self.chains.older(slot)
    }

    /// The slot that is next newer than this one in its chain; None where there is none.
    #[inline]
    pub fn newer(&self, slot: u32) -> Option<u32>
        requires { slot < self.now.written }
        ensures finds { (places : ℕ → Option Place) (place : Place) → AreChains self.now places
            → places slot ≡ Some place → FindsOldest self.now places place.home (place.order + 1) result }
        ensures link { result ≡ node_slot self.now.slots (prev_at self.now.links slot) }
        ensures written { IfSome result (λ slot. slot < self.now.written) }
    {
        self.chains.newer(slot)
    }
}
