//! How long nothing can be due, and the rows of timers that others have settled.
use crate::dropping::is_armed;
use crate::part::WheelPart;
use ert_defs::Actor;
use ert_table::{Desk, Pass, TimerCarry};

/// So many rows of settled timers go at once where the next due time is asked for.
const SETTLED_AT_ONCE: u32 = 1024;

impl WheelPart {
    ghost use Rattle.std.specs.Prelude.{◌≡◌, ◌≢◌, ◌<◌, IsSome, Some, false, length, List};
    ghost use Rattle.ert_defs.specs.{States.state, declared.entry.Entry.Entry, declared.settings.Settings.Settings, declared.timer.Status.TheVariants.Armed};
    ghost use Rattle.ert_effects.specs.Sleeping.{ProbesForNext};
    ghost use Rattle.ert_table.specs.{Calls.IsMade, Desks.{settings_of, view_of, front_of, state_of, Belongs}};
    ghost use Rattle.ert_timers.specs.{Asking.AsksOn, Changes.given_back, NextDue.{NoneArmedBefore, IsNearest, IsNextHeld}, Frees.FreesRows, Parts.{HoldsSched, PartStands, last_timer}, Passed.LosesRows, Sleeping.{AsksNext, IsFoundNext}};
    ghost use Rattle.ert_timers.specs.{Sleeping.{ProbesRow, ProbesRows}, Tidy.IsTidy};
    ghost use Rattle.ert_wheel.specs.Rows.{key_in};

    /// How early a timer may be due, in whole milliseconds since the start time, as `advance` answers; None
    /// where no timer is held.
    ///
    /// No armed timer is due before it. It is the deadline of a timer that is held, or the begin of a window of 512 milliseconds
    /// or a wider one, after the time of the last advance; two such begins are 512 milliseconds apart at least (`ert_wheel`,
    /// `Wheel::next_due`). The scheduler probes the slot of the timer that tells it. Where another thread has cancelled it the row goes, its slot is held free where its round has uses left, and
    /// the next row is asked for: so that timer was armed at the probe. After 1,024 such rows the answer may be too early for
    /// the sake of a timer that was cancelled; so it may where the time is before the first that the last advance
    /// left, as where a timer was started late. It is never too late.
    ///
    /// The answer of the wheel is kept: until time comes to it, an earlier timer is started or its own timer goes or moves, a call
    /// is a few comparisons and that probe.
    pub fn next_due(&mut self, desk: &Desk, pass: &mut Pass) -> Option<u64>
        requires belongs { Belongs desk.now pass.old }
        requires holds { HoldsSched (view_of pass.old) self.old.number }
        requires stands { PartStands (settings_of desk.now) (front_of pass.old) self.old }
        ensures belongs { Belongs desk.now pass.new }
        ensures number { self.new.number ≡ self.old.number }
        ensures stands { PartStands (settings_of desk.now) (front_of pass.new) self.new }
        ensures call { IsMade (settings_of desk.now) (view_of pass.old) (ProbesForNext (settings_of desk.now) self.old.number) (view_of pass.new) }
        ensures held { IsNextHeld self.new result }
        ensures armed { (g : Settings) (h : List Entry) → PartStands g h self.new → NoneArmedBefore (state g h) self.new.number result }
        ensures nearest { (g : Settings) (h : List Entry) → PartStands g h self.new → IsTidy (state g h) self.new
            → IsNearest (state g h) self.new.number self.new.passed result }
        // So a body that drops no row, or gives up after fewer, is refused.
        ensures found { IsFoundNext (state_of desk.now pass.new) self.old self.new result }
        ensures loses { LosesRows self.old self.new }
        ensures frees { FreesRows self.old self.new }
        ensures time { self.new.passed ≡ self.old.passed }
    {
        self.ask_next(desk, pass)
    }

    /// Asks how early the next row may be due, and probes its slot, until its timer is armed or so many rows have gone.
    #[inline(always)]
    fn ask_next(&mut self, desk: &Desk, pass: &mut Pass) -> Option<u64>
        requires belongs { Belongs desk.now pass.old }
        requires holds { HoldsSched (view_of pass.old) self.old.number }
        requires stands { PartStands (settings_of desk.now) (front_of pass.old) self.old }
        ensures belongs { Belongs desk.now pass.new }
        ensures call { AsksNext (settings_of desk.now) (view_of pass.old) self.old self.new result (view_of pass.new) }
    {
        if let Some((time, slot)) = self.kept_due() {
            if self.probe_row(desk, pass, slot) {
                return Some(time);
            }
            return self.ask_on(desk, pass, SETTLED_AT_ONCE - 1);
        }
        self.ask_on(desk, pass, SETTLED_AT_ONCE)
    }

    /// The same where no answer is kept, or its timer isn't armed: until so many rows have gone.
    #[cold]
    #[inline(never)]
    fn ask_on(&mut self, desk: &Desk, pass: &mut Pass, most: u32) -> Option<u64>
        requires belongs { Belongs desk.now pass.old }
        requires holds { HoldsSched (view_of pass.old) self.old.number }
        requires stands { PartStands (settings_of desk.now) (front_of pass.old) self.old }
        ensures belongs { Belongs desk.now pass.new }
        ensures call { AsksOn (settings_of desk.now) (view_of pass.old) self.old self.new most result (view_of pass.new) }
    {
        for _ in 0..most {
            let Some(time) = self.first_due() else {
                return None;
            };
            let Some(slot) = self.teller(time) else {
                return Some(time);
            };
            if self.probe_row(desk, pass, slot) {
                return Some(time);
            }
        }
        self.first_due()
    }

    /// Probes every slot that has a row, by the scheduler, and drops the rows of timers that others have cancelled. Their slots
    /// are held free where their rounds have uses left. It answers how many rows went.
    ///
    /// Each row that is left is of a timer that its probe found armed. It takes no memory.
    pub fn probe_rows(&mut self, desk: &Desk, pass: &mut Pass) -> u32
        requires belongs { Belongs desk.now pass.old }
        requires holds { HoldsSched (view_of pass.old) self.old.number }
        requires stands { PartStands (settings_of desk.now) (front_of pass.old) self.old }
        ensures belongs { Belongs desk.now pass.new }
        ensures number { self.new.number ≡ self.old.number }
        ensures stands { PartStands (settings_of desk.now) (front_of pass.new) self.new }
        ensures call { ProbesRows (settings_of desk.now) (view_of pass.old) self.old self.new result (view_of pass.new) }
        ensures loses { LosesRows self.old self.new }
        ensures frees { FreesRows self.old self.new }
        ensures time { self.new.passed ≡ self.old.passed }
    {
        let mut dropped = 0;
        for slot in 0..self.slot_count() {
            if self.row(slot).is_none() {
                continue;
            }
            if !self.probe_row(desk, pass, slot) {
                dropped += 1;
            }
        }
        dropped
    }

    /// Probes a slot that has a row, and tells whether its timer is armed. Else the row goes.
    #[inline]
    fn probe_row(&mut self, desk: &Desk, pass: &mut Pass, slot: u32) -> bool
        requires belongs { Belongs desk.now pass.old }
        requires holds { HoldsSched (view_of pass.old) self.old.number }
        requires stands { PartStands (settings_of desk.now) (front_of pass.old) self.old }
        requires low { slot < length self.old.slots }
        requires row { IsSome (key_in self.old.keys slot) }
        ensures belongs { Belongs desk.now pass.new }
        ensures call { ProbesRow (settings_of desk.now) (view_of pass.old) self.old self.new slot result (view_of pass.new) }
    {
        let wheel = self.number();
        let carry = TimerCarry::Probe { wheel, slot };
        let shown = pass.load_timer(desk, Actor::Sched(wheel), &carry);
        if is_armed(shown) {
            return true;
        }
        self.forget_last(desk, pass, slot);
        false
    }

    /// Forgets the last timer of a slot that has a row, which the pass has seen settled.
    #[cold]
    #[inline(never)]
    fn forget_last(&mut self, desk: &Desk, pass: &Pass, slot: u32)
        requires belongs { Belongs desk.now pass.now }
        requires stands { PartStands (settings_of desk.now) (front_of pass.now) self.old }
        requires low { slot < length self.old.slots }
        requires row { IsSome (key_in self.old.keys slot) }
        requires settled { (state_of desk.now pass.now).status (last_timer self.old.number self.old.slots slot) ≢ Some Armed }
        ensures stands { PartStands (settings_of desk.now) (front_of pass.now) self.new }
        ensures part { self.new ≡ given_back self.old slot false }
    {
        // For the prover alone: what is known of a desk is known of one that is read.
        let _settings = desk.settings();
        self.forget(pass, self.last_timer(slot));
    }
}
