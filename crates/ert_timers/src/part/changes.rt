//! How the small calls change what a part keeps.
ghost use Rattle.std.specs.FinSet as set;
ghost use Rattle.std.specs.Prelude.{◌≡◌, ◌≤◌, ◌<◌, ℕ, Option, Some, IfSome, IsSome, MatchBool, false, true, nat_lt, length};
ghost use Rattle.ert_defs.specs.Timers as timers;
ghost use Rattle.ert_defs.specs.Words as words;
ghost use Rattle.ert_defs.specs.declared.timer.Status.TheVariants.{Armed};
ghost use Rattle.ert_timers.specs.Changes as changes;
ghost use Rattle.ert_timers.specs.{Owners.{MayJoin, Joins}, Parts.{AreJoined, IsWritten, all_slots}, Slots.{stored_slot, stored_key}, Free.{free_set, with_short, with_long, TakesLong, TakesNextSlot}};
ghost use Rattle.ert_wheel.specs.Rings.{Place, AreChains, MayTake, GivesUpPlace};
ghost use Rattle.ert_table.specs.Ranges.{IsTimer};

use super::{Use, WheelPart, are_short, is_long};
use crate::free_slots::FreeSlots;
use crate::slot::Stored;
use ert_defs::{FIRST_LATER_GENERATION, Start, TimerRef, USES_OF_ROUND, use_of};
use ert_wheel::{Row, Wheel};

/// How many slots are written at once, at the first use of the first of them: 3 KiB.
const WRITTEN_AT_ONCE: u32 = 64;

impl Stored {
    /// Whether it was used less often than a round allows.
    fn has_uses(self) -> bool
        ensures { result ≡ changes.has_uses (stored_slot self) }
    {
        has_uses(self.generation())
    }

    /// What is stored of it with the timer of a start, which is the next one of this order and has this word while it is armed.
    #[inline]
    pub(super) fn used(self, start: &Start, next: Use, word: u64, order: u64) -> Stored
        requires timer { IsTimer next.deadline next.generation }
        requires word { word ≡ words.timer_word Armed next.deadline next.generation }
        requires order { order ≤ 9007199254740992 }
        requires dest { start.now.dest < 524288 }
        ensures slot { stored_slot result ≡ changes.slot_for next (stored_slot self).above start.now }
        ensures key { stored_key result ≡ record { deadline = next.deadline; order = order } }
    {
        let above = self.above().max(next.deadline + 1);
        Stored::new(word, order, above, start.dest, start.msg, start.kind)
    }

    /// Whether it rests at a time in milliseconds after the start time: its round has no use left, and the
    /// deadline of one of its timers hasn't passed.
    fn is_resting(self, now: u64) -> bool
        ensures { result ≡ changes.is_resting (stored_slot self) now }
    {
        !self.has_uses() && now < self.above()
    }

    /// The use that comes next, where it doesn't rest, for a timer that is started at a time with a deadline,
    /// both in milliseconds after the start time.
    ///
    /// In a later round a deadline that has passed counts as the time of the start. So each generation of it is
    /// another than those of earlier rounds, whose deadlines have all passed when it begins.
    fn next_use(self, now: u64, deadline: u64) -> Use
        requires now { now ≤ 8796093022207 }
        requires deadline { deadline ≤ 8796093022207 }
        ensures { result ≡ changes.next_use (stored_slot self).generation now deadline }
    {
        Use::after(self.generation(), now, deadline)
    }
}

impl Use {
    /// The same by the generation of the slot's last timer.
    #[inline]
    pub(crate) fn after(last: u64, now: u64, deadline: u64) -> Use
        requires now { now ≤ 8796093022207 }
        requires deadline { deadline ≤ 8796093022207 }
        ensures { result ≡ changes.next_use last now deadline }
    {
        if last < USES_OF_ROUND {
            return Use {
                generation: last + 1,
                deadline,
            };
        }
        let deadline = now.max(deadline);
        let used = if has_uses(last) { use_of(last) } else { 0 };
        Use {
            generation: FIRST_LATER_GENERATION * (used + 1) + deadline,
            deadline,
        }
    }
}

impl WheelPart {
    ghost use Rattle.std.specs.Bool.{OnTrue};
    ghost use Rattle.std.specs.FinSet as set;
    ghost use Rattle.std.specs.Prelude.{◌≡◌, ◌↔◌, ◌<◌, ◌≤◌, IfSome, IfNone, IsSome, IsTrue, ℕ, false, true, length, max, None};
    ghost use Rattle.ert_timers.specs.{Parts.{slot_at, last_timer}, Changes.{MayBecomeFree, freed, picked, kept, dropped, let_go, given_back, reused, LostRow}, Freeing.{IsHeld, IsInUse, IsLetGo}};
    ghost use Rattle.ert_wheel.specs.{Rows.key_in, Standing.ComesTo};

    /// Takes a slot out that is held free, for a timer that is started at a time with a deadline, both in
    /// milliseconds after the start time; None exactly where none is.
    ///
    /// That is the next one, where it has had a long wait that isn't over and the timer's is long too, or neither is
    /// so. Else a long wait takes the top of the stack of long waits, or one that was never taken, where there is one; and
    /// for a short one the slot goes to that stack, and the one after it is taken.
    #[inline(always)]
    pub(crate) fn pick(&mut self, now: u64, deadline: u64) -> Option<u32>
        ensures none { IfNone result ((slot : ℕ) → set.contains self.old.free slot ≡ false) }
        ensures unchanged { IfNone result (self.new ≡ self.old) }
        ensures held { IfSome result (λ slot. set.contains self.old.free slot ≡ true) }
        ensures picked { IfSome result (λ slot. self.new ≡ picked self.old slot) }
        ensures usable { IfSome result (MayBecomeFree self.new) }
    {
        let slot = self.free.pick()?;
        write(&mut self.wheel, slot);
        let above = self.wheel.value(slot).above();
        if are_short(now, above, deadline) {
            return Some(slot);
        }
        let long = is_long(now, deadline);
        if is_long(now, above) == long {
            return Some(slot);
        }
        let other = exchange(&mut self.free, slot, long)?;
        write(&mut self.wheel, other);
        Some(other)
    }

    /// Whether a slot rests at a time in milliseconds after the start time.
    pub(crate) fn is_resting(&self, slot: u32, now: u64) -> bool
        requires { slot < length self.now.slots }
        ensures { result ≡ changes.is_resting (slot_at self.now.slots slot) now }
    {
        self.kept_of(slot).is_resting(now)
    }

    /// One above the greatest deadline of a slot's timers, in milliseconds after the start time; 0 where there
    /// is none.
    pub(crate) fn above(&self, slot: u32) -> u64
        requires { slot < length self.now.slots }
        ensures { result ≡ (slot_at self.now.slots slot).above }
    {
        self.kept_of(slot).above()
    }

    /// The next use of a slot that doesn't rest, for a timer that is started at a time with a deadline, both
    /// in milliseconds after the start time.
    pub(crate) fn next_use(&self, slot: u32, now: u64, deadline: u64) -> Use
        requires low { slot < length self.now.slots }
        requires used { IsInUse self.now slot }
        requires now { now ≤ 8796093022207 }
        requires deadline { deadline ≤ 8796093022207 }
        ensures { result ≡ changes.next_use (slot_at self.now.slots slot).generation now deadline }
    {
        self.wheel.value(slot).next_use(now, deadline)
    }

    /// Holds a slot free from now on: on the stack of long waits where it has had a wait that is long at a time in
    /// milliseconds after the start time, and else on that of short ones.
    pub(crate) fn free_slot(&mut self, slot: u32, now: u64)
        requires low { slot < length self.old.slots }
        requires away { set.contains self.old.free slot ≡ false }
        requires vacant { key_in self.old.keys slot ≡ None }
        ensures { self.new ≡ freed self.old slot }
    {
        let long = is_long(now, self.wheel.value(slot).above());
        put(&mut self.free, slot, long);
    }

    /// Drops the row of a slot, and tells whether there was one. The slot stays in the chain of its process: to take
    /// it out here would touch two more slots.
    pub(crate) fn drop_row(&mut self, slot: u32) -> bool
        requires low { slot < length self.old.slots }
        requires used { IsInUse self.old slot }
        ensures found { IsTrue result ↔ IsSome (key_in self.old.keys slot) }
        ensures none { key_in self.old.keys slot ≡ None → self.new ≡ self.old }
        ensures left { self.new ≡ dropped self.old slot }
        ensures lost { OnTrue result (LostRow self.new slot) }
    {
        self.wheel.remove(slot)
    }

    /// Drops the row of a timer that was tried, and counts whether it expired.
    pub(crate) fn let_go(&mut self, slot: u32, expired: bool)
        requires low { slot < length self.old.slots }
        requires held { IsSome (key_in self.old.keys slot) }
        ensures { self.new ≡ let_go self.old slot expired }
    {
        self.drop_row(slot);
        self.expires += u64::from(expired);
    }

    /// Takes a slot without a row out of the chain of its process.
    fn leave(&mut self, slot: u32)
        requires low { slot < length self.old.slots }
        requires vacant { key_in self.old.keys slot ≡ None }
        requires away { set.contains self.old.free slot ≡ false }
        ensures { self.new ≡ self.old }
    {
        part_from(&mut self.wheel, slot);
    }

    /// Drops the row of a timer that has been settled but hasn't expired, counts whether it was cancelled
    /// for an exit, and holds its slot free where the slot's round has uses left. The slot leaves the chain of its
    /// process, so that a sweep doesn't meet it again.
    pub(crate) fn give_back(&mut self, timer: TimerRef, orphaned: bool)
        requires { IsHeld self.old timer }
        ensures { self.new ≡ given_back self.old timer.slot orphaned }
    {
        self.drop_row(timer.slot);
        self.leave(timer.slot);
        self.orphans += u64::from(orphaned);
        self.free_after(timer);
    }

    /// Holds the slot of its last timer free where the slot's round has uses left, on the stack of short waits. That is
    /// told by the timer's generation, so what is kept of the slot isn't read for it: a start that takes it looks at that.
    pub(crate) fn free_after(&mut self, timer: TimerRef)
        requires { IsLetGo self.old timer }
        ensures { self.new ≡ reused self.old timer.slot }
    {
        if has_uses(timer.generation) {
            self.free.put(timer.slot);
        }
    }

    /// Puts in the timer of a start, in a slot that was held free. Where the slot's last timer went to the same process
    /// the slot stays in the chain of that, and no chain of a process is read or written but for one link.
    #[inline(always)]
    pub(crate) fn keep(&mut self, slot: u32, start: &Start, next: Use, word: u64) -> TimerRef
        requires free { MayBecomeFree self.old slot }
        requires dest { start.now.dest < self.old.processes }
        requires timer { IsTimer next.deadline next.generation }
        requires word { word ≡ words.timer_word Armed next.deadline next.generation }
        requires few { self.old.arms < 9007199254740992 }
        ensures kept { self.new ≡ kept self.old slot start.now next self.new.stands }
        ensures stands { ComesTo self.old.stands self.new.stands self.old.passed slot (max next.deadline self.old.passed) }
        ensures timer { result ≡ last_timer self.new.number self.new.slots slot }
    {
        let last = self.wheel.value(slot);
        let stays = last.is_with(start.dest);
        let row = Row {
            deadline: next.deadline,
            order: self.arms,
            slot,
        };
        self.arms += 1;
        self.wheel
            .insert(row, last.used(start, next, word, row.order));
        join(&mut self.wheel, slot, start.dest, stays);
        TimerRef {
            wheel: self.number,
            slot,
            generation: next.generation,
        }
    }
}

/// Whether a slot was used less often than a round allows, by the generation of its last timer.
pub(super) fn has_uses(generation: u64) -> bool
    ensures { result ≡ nat_lt (timers.use_of generation) 262143 }
{
    use_of(generation) < USES_OF_ROUND
}

/// Writes what is kept of a slot where that isn't written yet: so it is with one that is taken for the first time.
#[inline(always)]
fn write(wheel: &mut Wheel<Stored>, slot: u32)
    requires low { slot < length wheel.old.keys }
    requires same { length wheel.old.keys ≡ wheel.old.owners.slots }
    ensures written { slot < wheel.new.owners.written }
    ensures more { IsWritten wheel.old wheel.new wheel.new.owners.written }
{
    if slot as usize >= wheel.written() {
        write_more(wheel, slot);
    }
}

/// Writes a slot that isn't written, those below it, and some of those that come next.
#[cold]
#[inline(never)]
fn write_more(wheel: &mut Wheel<Stored>, slot: u32)
    requires low { slot < length wheel.old.keys }
    requires same { length wheel.old.keys ≡ wheel.old.owners.slots }
    requires high { wheel.old.owners.written ≤ slot }
    ensures written { slot < wheel.new.owners.written }
    ensures more { IsWritten wheel.old wheel.new wheel.new.owners.written }
{
    let count = slot.saturating_add(WRITTEN_AT_ONCE).min(wheel.slots());
    wheel.write_up_to(count, Stored::unused());
}

/// Puts a slot into the chain of a process, where it doesn't stay in it.
#[inline]
pub(super) fn join(wheel: &mut Wheel<Stored>, slot: u32, process: u32, stays: bool)
    requires process { process < wheel.old.owners.homes }
    requires may { MayTake wheel.old.owners slot }
    requires written { slot < wheel.old.owners.written }
    ensures keys { wheel.new.keys ≡ wheel.old.keys }
    ensures values { wheel.new.values ≡ wheel.old.values }
    ensures passed { wheel.new.passed ≡ wheel.old.passed }
    ensures stands { wheel.new.stands ≡ wheel.old.stands }
    ensures slots { wheel.new.owners.slots ≡ wheel.old.owners.slots }
    ensures homes { wheel.new.owners.homes ≡ wheel.old.owners.homes }
    ensures written { wheel.new.owners.written ≡ wheel.old.owners.written }
    ensures joins { (places : ℕ → Option Place) (bound : ℕ) → AreChains wheel.old.owners places
        → MayJoin places slot process bound stays → Joins wheel.new.owners places slot process bound }
{
    if stays {
        return;
    }
    take_out(wheel, slot);
    wheel.own(slot, process);
}

/// The same where it mostly stays.
#[inline(always)]
pub(super) fn join_seldom(wheel: &mut Wheel<Stored>, slot: u32, process: u32, stays: bool)
    requires process { process < wheel.old.owners.homes }
    requires may { MayTake wheel.old.owners slot }
    requires written { slot < wheel.old.owners.written }
    ensures keys { wheel.new.keys ≡ wheel.old.keys }
    ensures values { wheel.new.values ≡ wheel.old.values }
    ensures passed { wheel.new.passed ≡ wheel.old.passed }
    ensures stands { wheel.new.stands ≡ wheel.old.stands }
    ensures slots { wheel.new.owners.slots ≡ wheel.old.owners.slots }
    ensures homes { wheel.new.owners.homes ≡ wheel.old.owners.homes }
    ensures written { wheel.new.owners.written ≡ wheel.old.owners.written }
    ensures joins { (places : ℕ → Option Place) (bound : ℕ) → AreChains wheel.old.owners places
        → MayJoin places slot process bound stays → Joins wheel.new.owners places slot process bound }
{
    if stays {
        return;
    }
    join_anew(wheel, slot, process);
}

/// The same where it doesn't stay.
#[cold]
#[inline(never)]
fn join_anew(wheel: &mut Wheel<Stored>, slot: u32, process: u32)
    requires process { process < wheel.old.owners.homes }
    requires may { MayTake wheel.old.owners slot }
    requires written { slot < wheel.old.owners.written }
    ensures keys { wheel.new.keys ≡ wheel.old.keys }
    ensures values { wheel.new.values ≡ wheel.old.values }
    ensures passed { wheel.new.passed ≡ wheel.old.passed }
    ensures stands { wheel.new.stands ≡ wheel.old.stands }
    ensures slots { wheel.new.owners.slots ≡ wheel.old.owners.slots }
    ensures homes { wheel.new.owners.homes ≡ wheel.old.owners.homes }
    ensures written { wheel.new.owners.written ≡ wheel.old.owners.written }
    ensures joins { (places : ℕ → Option Place) (bound : ℕ) → AreChains wheel.old.owners places
        → MayJoin places slot process bound false → Joins wheel.new.owners places slot process bound }
{
    join(wheel, slot, process, false);
}

/// Takes a slot out of the chain of its process, where it is in one, with the note that it stands there.
pub(super) fn part_from(wheel: &mut Wheel<Stored>, slot: u32)
    requires may { MayTake wheel.old.owners slot }
    requires written { slot < wheel.old.owners.written }
    ensures keys { wheel.new.keys ≡ wheel.old.keys }
    ensures stored { (n : ℕ) → all_slots wheel.new.values n ≡ all_slots wheel.old.values n }
    ensures passed { wheel.new.passed ≡ wheel.old.passed }
    ensures stands { wheel.new.stands ≡ wheel.old.stands }
    ensures slots { wheel.new.owners.slots ≡ wheel.old.owners.slots }
    ensures homes { wheel.new.owners.homes ≡ wheel.old.owners.homes }
    ensures written { wheel.new.owners.written ≡ wheel.old.owners.written }
    ensures parted { GivesUpPlace wheel.old.owners wheel.new.owners slot }
    ensures joined { AreJoined wheel.old.values wheel.old.owners → AreJoined wheel.new.values wheel.new.owners }
{
    let stored = wheel.value(slot);
    wheel.change(slot, stored.apart());
    wheel.disown(slot);
}

/// Takes a slot out of its chain, where it is in one. In a slot's first use it isn't, and then nothing is written.
#[inline]
fn take_out(wheel: &mut Wheel<Stored>, slot: u32)
    requires may { MayTake wheel.old.owners slot }
    requires written { slot < wheel.old.owners.written }
    ensures keys { wheel.new.keys ≡ wheel.old.keys }
    ensures values { wheel.new.values ≡ wheel.old.values }
    ensures passed { wheel.new.passed ≡ wheel.old.passed }
    ensures stands { wheel.new.stands ≡ wheel.old.stands }
    ensures slots { wheel.new.owners.slots ≡ wheel.old.owners.slots }
    ensures homes { wheel.new.owners.homes ≡ wheel.old.owners.homes }
    ensures written { wheel.new.owners.written ≡ wheel.old.owners.written }
    ensures taken { GivesUpPlace wheel.old.owners wheel.new.owners slot }
{
    if wheel.is_owned(slot) {
        wheel.disown(slot);
    }
}

/// Adds a slot that was taken out again, on the stack for waits of the other length, and takes another, as for a long wait or
/// as for a short one.
#[inline(never)]
fn exchange(free: &mut FreeSlots, slot: u32, long: bool) -> Option<u32>
    requires in_range { slot < free.old.slots }
    requires away { set.contains (free_set free.old).held slot ≡ false }
    ensures some { IsSome result }
    ensures held { IfSome result (λ other. set.contains (set.insert (free_set free.old).held slot) other ≡ true) }
    ensures taken { IfSome result (λ other.
        free_set free.new ≡ record (free_set free.old) { held = set.remove (set.insert (free_set free.old).held slot) other }) }
    ensures which { IfSome result (λ other. MatchBool long
        (TakesLong (with_short free.old slot) free.new other) (TakesNextSlot (with_long free.old slot) free.new other)) }
{
    put(free, slot, !long);
    if long { free.pick_long() } else { free.pick() }
}

/// Adds a slot that isn't held free, on the stack of long waits or on that of short ones.
fn put(free: &mut FreeSlots, slot: u32, long: bool)
    requires in_range { slot < free.old.slots }
    requires away { set.contains (free_set free.old).held slot ≡ false }
    ensures held { free_set free.new ≡ record (free_set free.old) { held = set.insert (free_set free.old).held slot } }
    ensures stack { MatchBool long (free.new ≡ with_long free.old slot) (free.new ≡ with_short free.old slot) }
{
    if long {
        free.put_long(slot);
    } else {
        free.put(slot);
    }
}
