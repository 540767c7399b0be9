ghost use Rattle.std.specs.Prelude.{◌≡◌, ◌↔◌, ◌≤◌, IfOk, IsTrue};

use crate::links::{Link, add_alone, link_in, next_of, prev_of, unlink};
use ert_defs::NoMemory;
use std::alloc::Global;
use std::marker::Model;

/// A chain of slots for each home.
///
/// A slot is in the chain of one home, or in none. A chain has its slots in the order in which they were put in, the
/// newest first. Why a slot belongs to a home is the wheel's or its user's to know.
///
/// There is room for the links of all slots from the beginning, and those of the slots below a number are written. A slot
/// that isn't written is in no chain.
#[derive(Drop)]
pub struct Chains {
    slots: u32,
    homes: u32,
    // Those of the homes' heads, and then those of the slots that are written. A link names the places of two others.
    links: Vec<Link>,
}

impl Model for Chains {
    ghost use Rattle.std.specs.Prelude.{vec_capacity};
    ghost use Rattle.ert_wheel.specs.{Links.AreWritten, Rings.{Rings, seen_rings}};

    ghost Value = { Rings };

    ghost view = { λ c. seen_rings c.slots c.homes c.links.items };

    ghost invariant = { λ c. AreWritten c.slots c.homes c.links.items (vec_capacity c.links) };
}

impl Chains {
    ghost use Rattle.std.specs.Prelude.{◌≡◌, ◌↔◌, ◌+◌, ◌<◌, ◌≤◌, ◌^◌, ℕ, Option, Some, None, IfOk, IfSome, IsTrue, MatchOption};
    ghost use Rattle.ert_wheel.specs.{Chained.{Spliced, Unspliced}, Links.{next_at, prev_at, place_slot}, Rings.{Place, AreChains, MayPut, Puts, PutsInHome, PutsOldestInHome, MayTake, GivesUpPlace, node_slot, Finds, FindsOldest, IsOnlyOf}};
    ghost use Rattle.ert_wheel.specs.{Rings.HasOthers};

    /// All chains empty, and no slot written. No call takes memory after this.
    pub fn new(alloc: Global, slots: u32, homes: u32) -> Result<Chains, NoMemory>
        requires slots { slots ≤ 2 ^ 30 }
        requires homes { homes ≤ 2 ^ 30 }
        ensures slots { IfOk result (λ chains. chains.slots ≡ slots) }
        ensures homes { IfOk result (λ chains. chains.homes ≡ homes) }
        ensures written { IfOk result (λ chains. chains.written ≡ 0) }
        ensures empty { IfOk result (λ chains. AreChains chains (λ _. None)) }
        ensures heads { IfOk result (λ chains. (home : ℕ) → home < homes → next_at chains.links (slots + home) ≡ slots + home) }
    {
        let mut links = Vec::with_capacity(alloc, (slots + homes) as usize)?;
        add_alone(&mut links, homes);
        Ok(Chains {
            slots,
            homes,
            links,
        })
    }

    /// How many slots there are.
    #[inline]
    pub fn slots(&self) -> u32
        ensures { result ≡ self.now.slots }
    {
        self.slots
    }

    /// Writes slots up to so many, each in no chain.
    #[cold]
    #[inline(never)]
    pub fn write_up_to(&mut self, count: u32)
        requires more { self.old.written ≤ count }
        requires most { count ≤ self.old.slots }
        ensures { self.new ≡ record self.old { written = count } }
    {
        add_alone(&mut self.links, self.homes + count);
    }

    /// Puts a slot that is in no chain into that of a home, as its newest.
    #[inline]
    pub fn put(&mut self, slot: u32, home: u32)
        requires may { MayPut self.old slot home }
        requires written { slot < self.old.written }
        ensures slots { self.new.slots ≡ self.old.slots }
        ensures homes { self.new.homes ≡ self.old.homes }
        ensures written { self.new.written ≡ self.old.written }
        ensures chains { Puts self.old self.new slot home }
        ensures in_home { PutsInHome self.old self.new slot home }
        ensures spliced { Spliced (next_at self.old.links) (prev_at self.old.links)
            (next_at self.new.links) (prev_at self.new.links) (self.old.slots + home) slot }
    {
        let node = self.homes + slot;
        link_in(&mut self.links, home, node);
    }

    /// Puts a slot that is in no chain into that of a home, as its oldest.
    #[inline]
    pub fn put_oldest(&mut self, slot: u32, home: u32)
        requires may { MayPut self.old slot home }
        requires written { slot < self.old.written }
        ensures slots { self.new.slots ≡ self.old.slots }
        ensures homes { self.new.homes ≡ self.old.homes }
        ensures written { self.new.written ≡ self.old.written }
        ensures in_home { PutsOldestInHome self.old self.new slot home }
        ensures spliced { Spliced (next_at self.old.links) (prev_at self.old.links)
            (next_at self.new.links) (prev_at self.new.links) (prev_at self.old.links (self.old.slots + home)) slot }
    {
        let node = self.homes + slot;
        let last = prev_of(&self.links, home);
        link_in(&mut self.links, last, node);
    }

    /// Takes a slot out of its chain, where it is in one.
    #[inline]
    pub fn take(&mut self, slot: u32)
        requires may { MayTake self.old slot }
        requires written { slot < self.old.written }
        ensures slots { self.new.slots ≡ self.old.slots }
        ensures homes { self.new.homes ≡ self.old.homes }
        ensures written { self.new.written ≡ self.old.written }
        ensures chains { GivesUpPlace self.old self.new slot }
        ensures unspliced { Unspliced (next_at self.old.links) (prev_at self.old.links)
            (next_at self.new.links) (prev_at self.new.links) slot }
    {
        let node = self.homes + slot;
        unlink(&mut self.links, node);
    }

    /// Whether a slot is alone in its ring: it is in no chain.
    #[inline]
    pub fn is_alone(&self, slot: u32) -> bool
        requires { slot < self.now.written }
        ensures { IsTrue result ↔ (next_at self.now.links slot ≡ slot) }
    {
        let node = self.homes + slot;
        next_of(&self.links, node) == node
    }

    /// The home whose only slot this is; None where its home has others, or it is in no chain.
    #[inline]
    pub fn only_of(&self, slot: u32) -> Option<u32>
        requires { slot < self.now.written }
        ensures { MatchOption result (HasOthers self.now slot) (IsOnlyOf self.now slot) }
    {
        let node = self.homes + slot;
        let next = next_of(&self.links, node);
        if next != prev_of(&self.links, node) {
            return None;
        }
        if next >= self.homes {
            return None;
        }
        Some(next)
    }

    /// The newest slot of a home; None where it has none.
    #[inline]
    pub fn newest(&self, home: u32) -> Option<u32>
        requires { home < self.now.homes }
        ensures finds { (places : ℕ → Option Place) → AreChains self.now places
            → Finds self.now places home (2 ^ 64) result }
        ensures written { IfSome result (λ slot. slot < self.now.written) }
    {
        self.slot_at(next_of(&self.links, home))
    }

    /// Whether a slot is the newest of a home.
    #[inline]
    pub fn is_newest(&self, slot: u32, home: u32) -> bool
        requires { home < self.now.homes }
        ensures { IsTrue result → (places : ℕ → Option Place) → AreChains self.now places
            → Finds self.now places home (2 ^ 64) (Some slot) }
    {
        match self.newest(home) {
            Some(newest) => newest == slot,
            None => false,
        }
    }

    /// The oldest slot of a home; None where it has none.
    #[inline]
    pub fn oldest(&self, home: u32) -> Option<u32>
        requires { home < self.now.homes }
        ensures finds { (places : ℕ → Option Place) → AreChains self.now places
            → FindsOldest self.now places home 0 result }
        ensures written { IfSome result (λ slot. slot < self.now.written) }
    {
        self.slot_at(prev_of(&self.links, home))
    }

    /// The slot that is next older than this one in its chain; None where there is none.
    #[inline]
    pub fn older(&self, slot: u32) -> Option<u32>
        requires { slot < self.now.written }
        ensures finds { (places : ℕ → Option Place) (place : Place) → AreChains self.now places
            → places slot ≡ Some place → Finds self.now places place.home place.order result }
        ensures link { result ≡ node_slot self.now.slots (next_at self.now.links slot) }
        ensures written { IfSome result (λ slot. slot < self.now.written) }
    {
        self.slot_at(next_of(&self.links, self.homes + slot))
    }

    /// The slot that is next newer than this one in its chain; None where there is none.
    #[inline]
    pub fn newer(&self, slot: u32) -> Option<u32>
        requires { slot < self.now.written }
        ensures finds { (places : ℕ → Option Place) (place : Place) → AreChains self.now places
            → places slot ≡ Some place → FindsOldest self.now places place.home (place.order + 1) result }
        ensures link { result ≡ node_slot self.now.slots (prev_at self.now.links slot) }
        ensures written { IfSome result (λ slot. slot < self.now.written) }
    {
        self.slot_at(prev_of(&self.links, self.homes + slot))
    }

    // The slot that is stored at a place, and none of a head.
    #[inline]
    fn slot_at(&self, place: u32) -> Option<u32>
        ensures { result ≡ place_slot self.now.homes place }
    {
        if place < self.homes {
            None
        } else {
            Some(place - self.homes)
        }
    }
}
