//! Timers that are started.
ghost use Rattle.std.specs.Prelude.{◌≡◌, ◌+◌, ◌<◌, ◌≤◌, cond, nat_eq};
ghost use Rattle.ert_defs.specs.Timers as timers;
ghost use Rattle.ert_timers.specs.Starting.{status_shown};

use crate::looking::{Ahead, look_ahead};
use crate::part::{Use, WheelPart};
use ert_defs::{Actor, Start, Status, TimerRef};
use ert_effects::StartErr;
use ert_table::{Desk, Pass, Settle, TimerCarry, armed_word};

/// How many timers a wheel can have.
pub(crate) const MOST_TIMERS: u64 = 1 << 53;

impl WheelPart {
    ghost use Rattle.std.specs.FinSet as set;
    ghost use Rattle.std.specs.Prelude.{◌≡◌, ◌≢◌, ◌<◌, ◌≤◌, ℕ, true, false, length, Err};
    ghost use Rattle.ert_defs.specs.{Milliseconds.{natural, down}, States.state};
    ghost use Rattle.ert_effects.specs.{TimerCalls.Starts, declared.answers.StartErr.TheVariants.{Full, NoMemory}};
    ghost use Rattle.ert_table.specs.{Desks.{settings_of, view_of, front_of, state_of, Belongs}, Calls.IsMade};
    ghost use Rattle.ert_timers.specs.{Changes.MayBecomeFree, Looking.now_in, Parts.{HoldsCaller, PartStands, slot_at, last_timer}, Frees.{IsUsedUp, UsesFree}, Searching.{HasOpenSlot, Searches}, Passed.GainsOne, Starting.HoldsTimer};
    ghost use Rattle.ert_timers.specs.{Starting.{IsUseFor, Orphans, Arms, Ends, LooksAt, LooksAtSome, LooksAround, TakesSlot}};

    /// Starts a timer for a caller (`erlang` module reference, `start_timer`), by the time that the call
    /// itself looks up.
    ///
    /// Where no slot is known to be free, as many as the settings' `looks` are looked at, or all where there are fewer,
    /// from where the last such look stopped, round and round. It is `Full` only where each of them is taken or rests,
    /// or where the wheel has had 2^53 timers. Known to be free are the slots whose timer a caller cancelled that held
    /// the part, or was delivered or dropped, and whose round has uses left. So a look finds none but those whose timer
    /// somebody cancelled that didn't hold the part, and those whose rest has just ended: of these a start of a wheel
    /// with more slots may see none, and the next ones go on. A timer for a process that has exited is started, and
    /// cancelled at once. No memory is taken.
    #[inline(always)]
    pub fn start(
        &mut self,
        desk: &Desk,
        pass: &mut Pass,
        by: u32,
        start: &Start,
    ) -> Result<TimerRef, StartErr>
        requires belongs { Belongs desk.now pass.old }
        requires holds { HoldsCaller (settings_of desk.now) (view_of pass.old) by self.old.number }
        requires stands { PartStands (settings_of desk.now) (front_of pass.old) self.old }
        requires dest { start.now.dest < (settings_of desk.now).processes }
        ensures belongs { Belongs desk.now pass.new }
        ensures number { self.new.number ≡ self.old.number }
        ensures stands { PartStands (settings_of desk.now) (front_of pass.new) self.new }
        ensures call { IsMade (settings_of desk.now) (view_of pass.old) (Starts (settings_of desk.now) by self.old.number start.now result) (view_of pass.new) }
        ensures memory { result ≢ Err NoMemory }
        ensures full { result ≡ Err Full → IsUsedUp self.old self.new }
        ensures searched { result ≡ Err Full → self.old.arms < 9007199254740992 → IsMade (settings_of desk.now) (view_of pass.old) (Searches (settings_of desk.now) by self.old self.new) (view_of pass.new) }
        ensures ready { HasOpenSlot (settings_of desk.now) (state_of desk.now pass.old) self.old → result ≢ Err Full }
        ensures frees { UsesFree self.old self.new result }
        ensures rows { GainsOne self.old self.new result }
    {
        let Some(ahead) = look_ahead(desk, pass, by, start) else {
            return Err(StartErr::BadArg);
        };
        if self.arms() >= MOST_TIMERS {
            return Err(StartErr::Full);
        }
        let Some(slot) = self.take_slot(desk, pass, by, ahead) else {
            return Err(StartErr::Full);
        };
        let next = self.next_use(slot, ahead.rounded_down(), ahead.deadline);
        let timer = self.arm(desk, pass, by, slot, start, next);
        self.end(desk, pass, by, timer, start.dest, next.deadline);
        Ok(timer)
    }

    /// A slot that can take a timer. Where none is known to be free, slots are looked at.
    #[inline(always)]
    pub(crate) fn take_slot(
        &mut self,
        desk: &Desk,
        pass: &mut Pass,
        by: u32,
        ahead: Ahead,
    ) -> Option<u32>
        requires belongs { Belongs desk.now pass.old }
        requires holds { HoldsCaller (settings_of desk.now) (view_of pass.old) by self.old.number }
        requires stands { PartStands (settings_of desk.now) (front_of pass.old) self.old }
        requires now { now_in ahead ≡ natural (down (settings_of desk.now) (state_of desk.now pass.old).clock.now) }
        ensures belongs { Belongs desk.now pass.new }
        ensures call { TakesSlot (settings_of desk.now) (view_of pass.old) by (now_in ahead) self.old self.new result (view_of pass.new) }
    {
        if let Some(slot) = self.pick(ahead.up, ahead.deadline) {
            return Some(slot);
        }
        self.look_around(desk, pass, by, ahead.rounded_down());
        self.pick(ahead.up, ahead.deadline)
    }

    /// Looks at as many slots as the settings' `looks`, or at all where there are fewer, where none is held free, and
    /// holds those free that can take a timer at a time in milliseconds.
    #[cold]
    #[inline(never)]
    fn look_around(&mut self, desk: &Desk, pass: &mut Pass, by: u32, now: u64)
        requires belongs { Belongs desk.now pass.old }
        requires holds { HoldsCaller (settings_of desk.now) (view_of pass.old) by self.old.number }
        requires stands { PartStands (settings_of desk.now) (front_of pass.old) self.old }
        requires past { now ≤ natural (down (settings_of desk.now) (state_of desk.now pass.old).clock.now) }
        requires none { (slot : ℕ) → set.contains self.old.free slot ≡ false }
        ensures belongs { Belongs desk.now pass.new }
        ensures call { LooksAround (settings_of desk.now) (view_of pass.old) by now self.old self.new (view_of pass.new) }
    {
        let from = self.next_look();
        let (ahead, behind) = round(self.slot_count(), from, desk.settings().looks);
        self.set_next_look(round_end(from, ahead, behind));
        self.look_at_some(desk, pass, by, now, from, from + ahead);
        self.look_at_some(desk, pass, by, now, 0, behind);
    }

    /// Looks at the slots from one on, up to another, where none of them is held free, and holds those free that can
    /// take a timer at a time in milliseconds.
    fn look_at_some(&mut self, desk: &Desk, pass: &mut Pass, by: u32, now: u64, from: u32, to: u32)
        requires belongs { Belongs desk.now pass.old }
        requires holds { HoldsCaller (settings_of desk.now) (view_of pass.old) by self.old.number }
        requires stands { PartStands (settings_of desk.now) (front_of pass.old) self.old }
        requires past { now ≤ natural (down (settings_of desk.now) (state_of desk.now pass.old).clock.now) }
        requires order { from ≤ to }
        requires low { to ≤ length self.old.slots }
        requires none { (slot : ℕ) → from ≤ slot → slot < to → set.contains self.old.free slot ≡ false }
        ensures belongs { Belongs desk.now pass.new }
        ensures call { LooksAtSome (settings_of desk.now) (view_of pass.old) by now self.old self.new from to (view_of pass.new) }
    {
        for slot in from..to {
            self.look_at(desk, pass, by, slot, now);
        }
    }

    /// Looks at a slot that isn't held free, and holds it free where it can take a timer at a time in
    /// milliseconds.
    fn look_at(&mut self, desk: &Desk, pass: &mut Pass, by: u32, slot: u32, now: u64)
        requires belongs { Belongs desk.now pass.old }
        requires holds { HoldsCaller (settings_of desk.now) (view_of pass.old) by self.old.number }
        requires stands { PartStands (settings_of desk.now) (front_of pass.old) self.old }
        requires past { now ≤ natural (down (settings_of desk.now) (state_of desk.now pass.old).clock.now) }
        requires low { slot < length self.old.slots }
        requires away { set.contains self.old.free slot ≡ false }
        ensures belongs { Belongs desk.now pass.new }
        ensures call { LooksAt (settings_of desk.now) (view_of pass.old) by now self.old self.new slot (view_of pass.new) }
    {
        let wheel = self.number();
        let carry = TimerCarry::Probe { wheel, slot };
        let shown = pass.load_timer(desk, Actor::Caller(by), &carry);
        if is_taken(shown) {
            return;
        }
        self.drop_row(slot);
        if self.is_resting(slot, now) {
            return;
        }
        self.free_slot(slot, now);
    }

    /// Arms the next timer of a slot that can take it, by the caller's last look.
    #[inline(always)]
    pub(crate) fn arm(
        &mut self,
        desk: &Desk,
        pass: &mut Pass,
        by: u32,
        slot: u32,
        start: &Start,
        next: Use,
    ) -> TimerRef
        requires belongs { Belongs desk.now pass.old }
        requires holds { HoldsCaller (settings_of desk.now) (view_of pass.old) by self.old.number }
        requires stands { PartStands (settings_of desk.now) (front_of pass.old) self.old }
        requires free { MayBecomeFree self.old slot }
        requires usable { timers.is_taken ((state (settings_of desk.now) (front_of pass.old)).status (last_timer self.old.number self.old.slots slot)) ≡ false }
        requires dest { start.now.dest < (settings_of desk.now).processes }
        requires next { IsUseFor (settings_of desk.now) (state_of desk.now pass.old) by self.old.number slot start.now next }
        requires few { self.old.arms < 9007199254740992 }
        ensures belongs { Belongs desk.now pass.new }
        ensures call { Arms (settings_of desk.now) (view_of pass.old) by self.old self.new slot next start.now result (view_of pass.new) }
    {
        let place = desk.touch(self.number(), slot);
        let word = armed_word(next.deadline, next.generation);
        let timer = self.keep(slot, start, next, word);
        pass.arm_at(desk, by, timer, start, next.deadline, word, place);
        timer
    }

    /// Cancels a timer that has just been armed, where its destination is seen to have exited.
    #[inline(always)]
    pub(crate) fn end(
        &mut self,
        desk: &Desk,
        pass: &mut Pass,
        by: u32,
        timer: TimerRef,
        dest: u32,
        deadline: u64,
    )
        requires belongs { Belongs desk.now pass.old }
        requires holds { HoldsCaller (settings_of desk.now) (view_of pass.old) by self.old.number }
        requires stands { PartStands (settings_of desk.now) (front_of pass.old) self.old }
        requires held { HoldsTimer self.old timer deadline }
        requires dest { (slot_at self.old.slots timer.slot).dest ≡ dest }
        requires in_range { dest < (settings_of desk.now).processes }
        ensures belongs { Belongs desk.now pass.new }
        ensures call { Ends (settings_of desk.now) (view_of pass.old) by self.old self.new dest timer (view_of pass.new) }
    {
        if !pass.mark(desk, Actor::Caller(by), dest, false) {
            return;
        }
        self.orphan_last(desk, pass, by, timer.slot, timer.generation, deadline);
    }

    /// The same as `orphan` for the last timer of a slot. Its name comes in parts: so a start, which seldom gets here,
    /// needn't write it to memory.
    #[cold]
    #[inline(never)]
    fn orphan_last(
        &mut self,
        desk: &Desk,
        pass: &mut Pass,
        by: u32,
        slot: u32,
        generation: u64,
        deadline: u64,
    )
        requires belongs { Belongs desk.now pass.old }
        requires holds { HoldsCaller (settings_of desk.now) (view_of pass.old) by self.old.number }
        requires stands { PartStands (settings_of desk.now) (front_of pass.old) self.old }
        requires generation { generation ≡ (slot_at self.old.slots slot).generation }
        requires held { HoldsTimer self.old (last_timer self.old.number self.old.slots slot) deadline }
        requires exited { (state (settings_of desk.now) (front_of pass.old)).exited (slot_at self.old.slots slot).dest ≡ true }
        ensures belongs { Belongs desk.now pass.new }
        ensures call { Orphans (settings_of desk.now) (view_of pass.old) by self.old self.new (last_timer self.old.number self.old.slots slot) (view_of pass.new) }
    {
        let timer = TimerRef {
            wheel: self.number(),
            slot,
            generation,
        };
        self.orphan(desk, pass, by, timer, deadline);
    }

    /// Tries to cancel a timer because its destination has exited, and holds its slot free where the slot's round
    /// has uses left.
    pub(crate) fn orphan(
        &mut self,
        desk: &Desk,
        pass: &mut Pass,
        by: u32,
        timer: TimerRef,
        deadline: u64,
    )
        requires belongs { Belongs desk.now pass.old }
        requires holds { HoldsCaller (settings_of desk.now) (view_of pass.old) by self.old.number }
        requires stands { PartStands (settings_of desk.now) (front_of pass.old) self.old }
        requires held { HoldsTimer self.old timer deadline }
        requires exited { (state (settings_of desk.now) (front_of pass.old)).exited (slot_at self.old.slots timer.slot).dest ≡ true }
        ensures belongs { Belongs desk.now pass.new }
        ensures call { Orphans (settings_of desk.now) (view_of pass.old) by self.old self.new timer (view_of pass.new) }
    {
        let hit = pass.settle(desk, Actor::Caller(by), timer, deadline, Settle::Orphan);
        self.give_back(timer, hit);
    }
}

/// How many slots a start looks at from one on, and how many then from the first on: so many in all, or all slots.
fn round(slots: u32, from: u32, looks: u32) -> (u32, u32)
    requires { from ≤ slots }
    ensures within { from + result.0 ≤ slots }
    ensures apart { result.1 ≤ from }
    ensures all { slots ≤ looks → result.0 + result.1 ≡ slots }
    ensures many { looks ≤ slots → result.0 + result.1 ≡ looks }
    ensures some { 1 ≤ looks → from < slots → 1 ≤ result.0 }
{
    let count = if slots <= looks { slots } else { looks };
    let left = slots - from;
    if count <= left {
        (count, 0)
    } else {
        (left, count - left)
    }
}

/// The slot behind those of a round.
fn round_end(from: u32, ahead: u32, behind: u32) -> u32
    requires { from + ahead < 4294967296 }
    ensures { result ≡ cond (nat_eq behind 0) (from + ahead) behind }
{
    if behind == 0 { from + ahead } else { behind }
}

/// Whether the last timer of a slot takes it, by what the slot shows.
pub(crate) fn is_taken(shown: Option<(Status, u64, u64)>) -> bool
    ensures { result ≡ timers.is_taken (status_shown shown) }
{
    matches!(shown, Some((Status::Armed | Status::Expired, _, _)))
}
