ghost use Rattle.std.specs.Prelude.{◌≡◌, ◌↔◌, ◌<◌, ◌≤◌, ◌-◌, ℕ, IfOk, IsTrue, Option, option_map, replicate, true};
ghost use Rattle.ert_timers.specs.{Owners.{MayThin, FindsRow}, Parts.{AreJoined, all_slots}};
ghost use Rattle.ert_wheel.specs.{Rings.{Place, AreChains}, Rows.row_told};

use self::changes::part_from;
use crate::expired_list::ExpiredList;
use crate::free_slots::FreeSlots;
use crate::slot::Stored;
use ert_defs::{NoMemory, Settings, TimerRef, TimerRow};
use ert_wheel::{HeldRow, Wheel};
use std::alloc::Global;
use std::marker::Model;
use std::mem;

mod changes;
mod due;
mod renewing;

/// From how many milliseconds on a wait is long, some 70 minutes.
const LONG_WAIT: u64 = 1 << 22;

/// A use of a slot.
#[derive(Clone, Copy)]
pub struct Use {
    /// The generation of its timer.
    pub(crate) generation: u64,
    /// The deadline of its timer, in milliseconds after the start time.
    pub(crate) deadline: u64,
}

/// The timers of one scheduler: what is kept of each, and the wheel that tells which are due.
#[derive(Drop)]
pub struct WheelPart {
    /// The number of the scheduler and of its wheel.
    number: u32,
    /// Where the next search for a free slot begins.
    next_look: u32,
    /// The timers that are held as armed, and for each process the chain of the slots whose timers go to it. A slot
    /// without such a timer stays in its chain until it is used for another process, or until the chain is swept.
    wheel: Wheel<Stored>,
    /// The slots that are known to be free.
    free: FreeSlots,
    /// How many timers were armed. That is also the order of the next one.
    arms: u64,
    /// How many expired, and how many were cancelled because their destination had exited.
    expires: u64,
    orphans: u64,
    /// The due rows of an advance, kept for the next one.
    due: Vec<HeldRow>,
    alloc: Global,
}

// Most of it are the marks of the buckets.
const _: () = prove!(size_of::<WheelPart>() == 824);

/// How many timers of a wheel there were.
#[derive(Clone, Copy, Debug, PartialEq, Eq)]
pub struct Tally {
    /// How many were armed.
    pub arms: u64,
    /// How many expired.
    pub expires: u64,
    /// How many were cancelled because their destination had exited.
    pub orphans: u64,
    /// How many the part still holds as armed.
    pub rows: u64,
}

impl Model for WheelPart {
    ghost use Rattle.ert_timers.specs.{Parts.{Part, part_code, all_slots, AreStoredFit}, Free.free_set};

    ghost Value = { Part };

    ghost coded = { part_code };

    ghost view = { λ p. record {
      number = p.number;
      processes = p.wheel.owners.homes;
      slots = all_slots p.wheel.values p.wheel.owners.slots;
      keys = p.wheel.keys;
      free = (free_set p.free).held;
      arms = p.arms;
      expires = p.expires;
      orphans = p.orphans;
      passed = p.wheel.passed;
      next_look = p.next_look;
      stands = p.wheel.stands;
    } };

    ghost invariant = { λ p. AreStoredFit p.wheel.values p.wheel.keys (free_set p.free) p.wheel.owners p.arms p.expires p.orphans };
}

impl WheelPart {
    ghost use Rattle.std.specs.Option.{is_some};
    ghost use Rattle.std.specs.Prelude.{◌≡◌, ◌<◌, ◌≤◌, IfOk, IfSome, ℕ, length, count_by, min, [], option_map, vec_capacity};
    ghost use Rattle.ert_defs.specs.Settings.{IsChecked};
    ghost use Rattle.ert_timers.specs.{Freeing.IsInUse, Parts.{PartStands, held_row, slot_at}, Slots.stored_slot, Expiring.AreDue, Changes.{NextOf, gone_on}, NextDue.IsNextHeld};
    ghost use Rattle.ert_wheel.specs.{Rows.{key_in, key_of, row_told, rows_told, told_at}, Standing.StayOrFall};

    /// The part of a wheel of a desk that has just been opened. It has no timer.
    pub fn open(alloc: Global, settings: &Settings, wheel: u32) -> Result<WheelPart, NoMemory>
        requires checked { IsChecked settings.now }
        requires in_range { wheel < settings.now.schedulers }
        ensures number { IfOk result (λ part. part.number ≡ wheel) }
        ensures stands { IfOk result (PartStands settings.now []) }
        ensures passed { IfOk result (λ part. part.passed ≡ 0) }
    {
        let timers = Wheel::new(alloc, settings.slots, settings.processes)?;
        let free = FreeSlots::new(alloc, settings.slots)?;
        let due = Vec::with_capacity(alloc, settings.slots as usize)?;
        Ok(WheelPart {
            number: wheel,
            next_look: 0,
            wheel: timers,
            free,
            arms: 0,
            expires: 0,
            orphans: 0,
            due,
            alloc,
        })
    }

    /// The number of the scheduler and of its wheel.
    pub fn number(&self) -> u32
        ensures { result ≡ self.now.number }
    {
        self.number
    }

    /// The counts of the wheel's timers. The first three are those of the history that the part stands for.
    pub fn tally(&self) -> Tally
        ensures arms { result.arms ≡ self.now.arms }
        ensures expires { result.expires ≡ self.now.expires }
        ensures orphans { result.orphans ≡ self.now.orphans }
        ensures rows { result.rows ≡ count_by is_some self.now.keys }
    {
        Tally {
            arms: self.arms,
            expires: self.expires,
            orphans: self.orphans,
            rows: self.wheel.len() as u64,
        }
    }

    /// How many timers were armed.
    pub(crate) fn arms(&self) -> u64
        ensures { result ≡ self.now.arms }
    {
        self.arms
    }

    /// How many slots there are.
    pub(crate) fn slot_count(&self) -> u32
        ensures { result ≡ length self.now.slots }
    {
        self.wheel.slots()
    }

    /// Where the next search for a free slot begins; one past the last slot means the first.
    pub(crate) fn next_look(&self) -> u32
        ensures { result ≡ min self.now.next_look (length self.now.slots) }
    {
        self.next_look.min(self.slot_count())
    }

    /// Keeps from which slot on the next such start looks.
    pub(crate) fn set_next_look(&mut self, slot: u32)
        ensures { self.new ≡ record self.old { next_look = slot } }
    {
        self.next_look = slot;
    }

    /// What is kept of a slot, whether it is written or not.
    fn kept_of(&self, slot: u32) -> Stored
        requires { slot < length self.now.slots }
        ensures { stored_slot result ≡ slot_at self.now.slots slot }
    {
        if slot as usize >= self.wheel.written() {
            return Stored::unused();
        }
        self.wheel.value(slot)
    }

    /// The row of a slot; None where the slot has none.
    pub(crate) fn row(&self, slot: u32) -> Option<HeldRow>
        requires { slot < length self.now.slots }
        ensures { result ≡ option_map (told_at slot) (key_in self.now.keys slot) }
    {
        if slot as usize >= self.wheel.written() {
            return None;
        }
        self.wheel.row(slot)
    }

    /// The timer of a row.
    pub(crate) fn timer(&self, row: HeldRow) -> TimerRow
        requires low { row.slot < length self.now.slots }
        requires used { IsInUse self.now row.slot }
        ensures { result ≡ held_row self.now.number self.now.slots row.slot (key_of (row_told self.now.keys row)) }
    {
        let last = self.wheel.value(row.slot);
        TimerRow {
            timer: TimerRef {
                wheel: self.number,
                slot: row.slot,
                generation: last.generation(),
            },
            deadline: row.deadline,
            dest: last.dest(),
            msg: last.msg(),
            kind: last.kind(),
        }
    }

    /// The row of a process whose slot came into its chain last; None where the process has none. Slots that come before it
    /// in the chain have no row any more, and leave it.
    pub(crate) fn newest_of(&mut self, process: u32) -> Option<HeldRow>
        requires { process < self.old.processes }
        ensures part { self.new ≡ self.old }
        ensures row { NextOf self.new process (option_map (row_told self.new.keys) result) }
    {
        find_row(&mut self.wheel, process)
    }

    /// The vector of an advance, with room for a row of each slot. It is to be kept again (`keep_list`). What it has in it an advance
    /// with a bound may go on with.
    pub(crate) fn lend_list(&mut self) -> Result<Vec<HeldRow>, NoMemory>
        ensures part { self.new ≡ self.old }
        ensures room { IfOk result (λ due. length self.old.keys ≤ vec_capacity due) }
    {
        let mut due = mem::replace(&mut self.due, Vec::new(self.alloc));
        let slots = self.wheel.slots() as usize;
        if due.capacity() < slots {
            due.clear();
            due.reserve(slots)?;
        }
        Ok(due)
    }

    /// The rows with a deadline up to `to`, in order of deadline and then of start, with room for their timers
    /// in the list. If memory runs out, the vector of rows is kept for the next advance, which takes no memory for it.
    #[inline(never)]
    pub(crate) fn find_due(
        &mut self,
        to: u64,
        expired: &mut ExpiredList,
    ) -> Result<Vec<HeldRow>, NoMemory>
        ensures part { self.new ≡ self.old }
        ensures due { IfOk result (λ due. AreDue self.old to (rows_told self.old.keys due.items)) }
        ensures expired { expired.new.rows ≡ expired.old.rows }
        ensures room { IfOk result (λ due. length due.items ≤ expired.new.room) }
    {
        let mut due = self.lend_list()?;
        self.wheel.due(to, &mut due);
        if expired.reserve(due.len()).is_err() {
            self.keep_list(due);
            return Err(NoMemory);
        }
        Ok(due)
    }

    /// How early the first row may be due.
    pub(crate) fn first_due(&mut self) -> Option<u64>
        ensures held { IsNextHeld self.old result }
        ensures part { self.new ≡ self.old }
    {
        self.wheel.next_due()
    }

    /// Tells the wheel that nothing is due up to `to`.
    pub(crate) fn go_on(&mut self, to: u64)
        requires { (slot : ℕ) → IfSome (key_in self.old.keys slot) (λ key. to < key.deadline) }
        ensures part { self.new ≡ gone_on self.old to self.new.stands }
        ensures stands { StayOrFall self.old.keys self.new.passed self.old.stands self.new.stands }
    {
        self.wheel.pass(to);
    }

    /// Keeps the vector of an advance for the next one.
    pub(crate) fn keep_list(&mut self, due: Vec<HeldRow>)
        ensures { self.new ≡ self.old }
    {
        self.due = due;
    }
}

/// Whether a deadline is a long wait away from a time, both in milliseconds after the start time. Which free
/// slot a start takes hangs on it, and nothing else does.
pub(crate) fn is_long(now: u64, deadline: u64) -> bool
    ensures { IsTrue result ↔ (4194304 ≤ deadline - now) }
{
    deadline.saturating_sub(now) >= LONG_WAIT
}

/// Whether it is certain that neither of two deadlines is a long wait away from a time, all in milliseconds after the start
/// time. Most waits are short, and then one sum tells it of both.
#[inline(always)]
pub(crate) fn are_short(now: u64, first: u64, second: u64) -> bool
    ensures first { result ≡ true → first - now < 4194304 }
    ensures second { result ≡ true → second - now < 4194304 }
{
    let end = now.wrapping_add(LONG_WAIT);
    first < end && second < end
}

/// A row of the chain of a process; None where it has none. Slots without a row that are met leave the chain.
fn find_row(wheel: &mut Wheel<Stored>, process: u32) -> Option<HeldRow>
    requires process { process < wheel.old.owners.homes }
    requires may { MayThin wheel.old.owners wheel.old.keys }
    ensures keys { wheel.new.keys ≡ wheel.old.keys }
    ensures stored { (n : ℕ) → all_slots wheel.new.values n ≡ all_slots wheel.old.values n }
    ensures joined { AreJoined wheel.old.values wheel.old.owners → AreJoined wheel.new.values wheel.new.owners }
    ensures slots { wheel.new.owners.slots ≡ wheel.old.owners.slots }
    ensures homes { wheel.new.owners.homes ≡ wheel.old.owners.homes }
    ensures written { wheel.new.owners.written ≡ wheel.old.owners.written }
    ensures passed { wheel.new.passed ≡ wheel.old.passed }
    ensures stands { wheel.new.stands ≡ wheel.old.stands }
    ensures finds { (places : ℕ → Option Place) → AreChains wheel.old.owners places
        → FindsRow wheel.old.keys places process wheel.new.owners (option_map (row_told wheel.old.keys) result) }
{
    while let Some(slot) = wheel.newest_owned(process) {
        if let Some(row) = wheel.row(slot) {
            return Some(row);
        }
        part_from(wheel, slot);
    }
    None
}
