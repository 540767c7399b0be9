//! A timer that is given a new deadline in another slot than its own.
ghost use Rattle.std.specs.Prelude.{◌≡◌};
ghost use Rattle.ert_timers.specs.Restarting.{refused_or};

use crate::looking::Ahead;
use crate::part::{Use, WheelPart};
use crate::starting::MOST_TIMERS;
use ert_defs::{Actor, Kind, Start, TimerRef, When};
use ert_effects::RestartErr;
use ert_table::{Desk, Pass, SlotPlace};

impl WheelPart {
    ghost use Rattle.std.specs.Prelude.{◌≡◌, ◌≢◌, ◌<◌, ℕ, true, Some, Err, MatchResult};
    ghost use Rattle.ert_defs.specs.{Legal.names_timer, Timers.timer_at, declared.timer.Start.Start as GivenStart, States.State, declared.timer.Status.TheVariants.Armed};
    ghost use Rattle.ert_effects.specs.{RestartCalls.RestartEnds, declared.answers.RestartErr.TheVariants.Full};
    ghost use Rattle.ert_table.specs.{Calls.IsMade, Desks.{settings_of, view_of, front_of, state_of, Belongs}, Places.IsPlaceOf};
    ghost use Rattle.ert_timers.specs.{Looking.now_in, Parts.{HoldsCaller, PartStands, last_timer}, Freeing.IsHeld, Frees.{IsUsedUp, KeepsFree, TakesFree, UsesFree}, Passed.{GainsOne, LosesRows}, declared.part.Use.Use as Coming};
    ghost use Rattle.ert_timers.specs.{Restarting.{HasLooked, HasSlotFor, EndsAfter, HasLetGo, refused_or}};
    ghost use Rattle.std.specs.FinSet as set;

    /// Gives a timer a new deadline in another slot, or refuses for want of one, after the caller's look. All comes in
    /// parts, and goes in two: so a restart, which seldom gets here, needn't write or read it in memory.
    #[cold]
    #[inline(never)]
    pub(crate) fn restart_in_parts(
        &mut self,
        desk: &Desk,
        pass: &mut Pass,
        by: u32,
        wheel: u32,
        slot: u32,
        generation: u64,
        when: When,
        dest: u32,
        msg: u64,
        kind: Kind,
        passed: u64,
        up: u64,
        deadline: u64,
        place: SlotPlace,
        named: &mut TimerRef,
    ) -> Option<RestartErr>
        requires belongs { Belongs desk.now pass.old }
        requires holds { HoldsCaller (settings_of desk.now) (view_of pass.old) by self.old.number }
        requires stands { PartStands (settings_of desk.now) (front_of pass.old) self.old }
        requires dest { dest < (settings_of desk.now).processes }
        requires in_range { names_timer (settings_of desk.now) (timer_at wheel slot generation) ≡ true }
        requires place { IsPlaceOf (settings_of desk.now) wheel slot place }
        requires looked { HasLooked (settings_of desk.now) (state_of desk.now pass.old) by (record { when = when; dest = dest; msg = msg; kind = kind }) (record { passed = passed; up = up; deadline = deadline }) }
        ensures belongs { Belongs desk.now pass.new }
        ensures number { self.new.number ≡ self.old.number }
        ensures stands { PartStands (settings_of desk.now) (front_of pass.new) self.new }
        ensures call { IsMade (settings_of desk.now) (view_of pass.old) (EndsAfter (settings_of desk.now) by self.old.number (timer_at wheel slot generation) (record { when = when; dest = dest; msg = msg; kind = kind }) (now_in (record { passed = passed; up = up; deadline = deadline })) (refused_or result named.new)) (view_of pass.new) }
        ensures full { refused_or result named.new ≡ Err Full → IsUsedUp self.old self.new }
        ensures frees { UsesFree self.old self.new (refused_or result named.new) }
        ensures rows { GainsOne self.old self.new (refused_or result named.new) }
        ensures gone { HasLetGo (timer_at wheel slot generation) (refused_or result named.new) self.new }
    {
        let timer = TimerRef {
            wheel,
            slot,
            generation,
        };
        let start = Start {
            when,
            dest,
            msg,
            kind,
        };
        let ahead = Ahead {
            passed,
            up,
            deadline,
        };
        let answer = self.restart_elsewhere(desk, pass, by, timer, start, ahead, place);
        told(answer, named)
    }

    /// The same with all in one.
    #[inline(always)]
    fn restart_elsewhere(
        &mut self,
        desk: &Desk,
        pass: &mut Pass,
        by: u32,
        timer: TimerRef,
        start: Start,
        ahead: Ahead,
        place: SlotPlace,
    ) -> Result<TimerRef, RestartErr>
        requires belongs { Belongs desk.now pass.old }
        requires holds { HoldsCaller (settings_of desk.now) (view_of pass.old) by self.old.number }
        requires stands { PartStands (settings_of desk.now) (front_of pass.old) self.old }
        requires dest { start.dest < (settings_of desk.now).processes }
        requires in_range { names_timer (settings_of desk.now) timer ≡ true }
        requires place { IsPlaceOf (settings_of desk.now) timer.wheel timer.slot place }
        requires looked { HasLooked (settings_of desk.now) (state_of desk.now pass.old) by start ahead }
        ensures belongs { Belongs desk.now pass.new }
        ensures number { self.new.number ≡ self.old.number }
        ensures stands { PartStands (settings_of desk.now) (front_of pass.new) self.new }
        ensures call { IsMade (settings_of desk.now) (view_of pass.old) (EndsAfter (settings_of desk.now) by self.old.number timer start (now_in ahead) result) (view_of pass.new) }
        ensures full { result ≡ Err Full → IsUsedUp self.old self.new }
        ensures frees { UsesFree self.old self.new result }
        ensures rows { GainsOne self.old self.new result }
        ensures gone { HasLetGo timer result self.new }
    {
        if self.may_stay(timer) {
            let Some(slot) = self.pick(ahead.up, ahead.deadline) else {
                return self.restart_here(desk, pass, by, timer, &start, ahead, place);
            };
            let now = ahead.rounded_down();
            let next = self.next_use(slot, now, ahead.deadline);
            return self.restart_in(desk, pass, by, timer, &start, place, slot, now, next);
        }
        if self.arms() >= MOST_TIMERS {
            return Err(self.refuse(desk, pass, by, timer, place));
        }
        let Some(slot) = self.take_slot(desk, pass, by, ahead) else {
            return Err(self.refuse(desk, pass, by, timer, place));
        };
        let now = ahead.rounded_down();
        let next = self.next_use(slot, now, ahead.deadline);
        self.restart_in(desk, pass, by, timer, &start, place, slot, now, next)
    }

    /// Gives a timer a new deadline in a slot that was taken for that: the timer is cancelled where it is armed, and then the
    /// new one is started. Else the slot is held free again, at a time in milliseconds after the start time.
    fn restart_in(
        &mut self,
        desk: &Desk,
        pass: &mut Pass,
        by: u32,
        timer: TimerRef,
        start: &Start,
        place: SlotPlace,
        slot: u32,
        now: u64,
        next: Use,
    ) -> Result<TimerRef, RestartErr>
        requires belongs { Belongs desk.now pass.old }
        requires holds { HoldsCaller (settings_of desk.now) (view_of pass.old) by self.old.number }
        requires stands { PartStands (settings_of desk.now) (front_of pass.old) self.old }
        requires dest { start.now.dest < (settings_of desk.now).processes }
        requires in_range { names_timer (settings_of desk.now) timer ≡ true }
        requires place { IsPlaceOf (settings_of desk.now) timer.wheel timer.slot place }
        requires found { HasSlotFor (settings_of desk.now) (state_of desk.now pass.old) by self.old slot start.now next }
        ensures belongs { Belongs desk.now pass.new }
        ensures number { self.new.number ≡ self.old.number }
        ensures stands { PartStands (settings_of desk.now) (front_of pass.new) self.new }
        ensures call { IsMade (settings_of desk.now) (view_of pass.old) (λ s es. RestartEnds true by self.old.number timer start.now result es) (view_of pass.new) }
        ensures not_full { result ≢ Err Full }
        ensures frees { KeepsFree self.old self.new }
        ensures back { MatchResult result (λ named. named ≡ last_timer self.new.number self.new.slots slot) (λ _. set.contains self.new.free slot ≡ true) }
        ensures rows { GainsOne self.old self.new result }
        ensures gone { HasLetGo timer result self.new }
    {
        let Some(read) = pass.peek_word(desk, Actor::Caller(by), timer, place) else {
            self.free_slot(slot, now);
            return Err(RestartErr::NotArmed);
        };
        if !pass.cancel_word(desk, Actor::Caller(by), timer, read, place) {
            self.free_slot(slot, now);
            return Err(RestartErr::NotArmed);
        }
        self.let_go_of(desk, pass, timer);
        let named = self.arm(desk, pass, by, slot, start, next);
        self.end(desk, pass, by, named, start.dest, next.deadline);
        Ok(named)
    }

    /// Forgets a timer that was cancelled, where it is of this wheel.
    fn let_go_of(&mut self, desk: &Desk, pass: &Pass, timer: TimerRef)
        requires belongs { Belongs desk.now pass.now }
        requires stands { PartStands (settings_of desk.now) (front_of pass.now) self.old }
        requires held { timer.wheel ≡ self.old.number → IsHeld self.old timer }
        requires settled { (state_of desk.now pass.now).status timer ≢ Some Armed }
        ensures number { self.new.number ≡ self.old.number }
        ensures stands { PartStands (settings_of desk.now) (front_of pass.now) self.new }
        ensures gone { IsHeld self.new timer → ⊥ }
        ensures loses { LosesRows self.old self.new }
        ensures frees { KeepsFree self.old self.new }
        ensures slots { (s : State) (by slot : ℕ) (start : GivenStart) (next : Coming) → HasSlotFor (settings_of desk.now) s by self.old slot start next
            → HasSlotFor (settings_of desk.now) s by self.new slot start next }
    {
        // For the prover alone: what is known of a desk is known of one that is read.
        let _settings = desk.settings();
        if timer.wheel == self.number() {
            self.forget(pass, timer);
        }
    }

    /// Why a timer isn't given a new deadline for which there is no slot: it is armed or not. Nothing changes.
    fn refuse(
        &self,
        desk: &Desk,
        pass: &mut Pass,
        by: u32,
        timer: TimerRef,
        place: SlotPlace,
    ) -> RestartErr
        requires belongs { Belongs desk.now pass.old }
        requires holds { HoldsCaller (settings_of desk.now) (view_of pass.old) by self.now.number }
        requires stands { PartStands (settings_of desk.now) (front_of pass.old) self.now }
        requires in_range { names_timer (settings_of desk.now) timer ≡ true }
        requires place { IsPlaceOf (settings_of desk.now) timer.wheel timer.slot place }
        ensures belongs { Belongs desk.now pass.new }
        ensures stands { PartStands (settings_of desk.now) (front_of pass.new) self.now }
        ensures call { (wheel : ℕ) (start : GivenStart) → IsMade (settings_of desk.now) (view_of pass.old)
            (λ s es. RestartEnds true by wheel timer start (Err result) es) (view_of pass.new) }
    {
        match pass.peek_word(desk, Actor::Caller(by), timer, place) {
            Some(_) => RestartErr::Full,
            None => RestartErr::NotArmed,
        }
    }
}

/// An answer in two parts: the name is put into its place, and why there is none is told.
#[inline(always)]
pub(crate) fn told(answer: Result<TimerRef, RestartErr>, named: &mut TimerRef) -> Option<RestartErr>
    ensures { refused_or result named.new ≡ answer }
{
    match answer {
        Ok(next) => {
            *named = next;
            None
        }
        Err(refused) => Some(refused),
    }
}

/// The answer of two parts.
#[inline(always)]
pub(crate) fn refused_or(
    refused: Option<RestartErr>,
    named: TimerRef,
) -> Result<TimerRef, RestartErr>
    ensures { result ≡ refused_or refused named }
{
    match refused {
        Some(refused) => Err(refused),
        None => Ok(named),
    }
}
