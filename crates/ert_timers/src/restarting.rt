//! A timer that is given a new deadline.

use crate::looking::{Ahead, look_ahead};
use crate::moving::{refused_or, told};
use crate::part::{Use, WheelPart};
use ert_defs::{Actor, Kind, Start, TimerRef, USES_OF_ROUND, When};
use ert_effects::RestartErr;
use ert_table::{Desk, Pass, SlotPlace, armed_word};

impl WheelPart {
    ghost use Rattle.std.specs.Prelude.{◌≡◌, ◌≢◌, ◌<◌, true, Err};
    ghost use Rattle.ert_defs.specs.{Legal.names_timer, Timers.timer_at};
    ghost use Rattle.ert_effects.specs.{RestartCalls.{Restarts, RestartEnds}, declared.answers.RestartErr.TheVariants.Full};
    ghost use Rattle.ert_table.specs.{Calls.IsMade, Desks.{settings_of, view_of, front_of, state_of, Belongs}, Places.IsPlaceOf};
    ghost use Rattle.ert_timers.specs.{Parts.{HoldsCaller, PartStands}, Frees.{IsUsedUp, UsesFree}, Passed.GainsOne, Restarting.{MayStay, HasLooked, HasLetGo, refused_or}};

    /// Gives an armed timer, of whatever wheel, a new deadline for a caller (as `uv_timer_again` of libuv), by the time that
    /// the call itself looks up: it is cancelled, and another is started on this wheel.
    ///
    /// A timer of this wheel mostly gives its slot and the place of its row to the new one: then one exchange of the slot's
    /// word cancels the old one and starts the new one. Another slot is taken, as by a start, where the timer is of another
    /// wheel, where the slot's round has no use left, or where one of both waits is long and the other isn't and a slot is
    /// known to be free. It is taken before the timer is cancelled: so a timer is lost by no answer. No memory is taken.
    #[inline(always)]
    pub fn restart(
        &mut self,
        desk: &Desk,
        pass: &mut Pass,
        by: u32,
        timer: TimerRef,
        start: &Start,
    ) -> Result<TimerRef, RestartErr>
        requires belongs { Belongs desk.now pass.old }
        requires holds { HoldsCaller (settings_of desk.now) (view_of pass.old) by self.old.number }
        requires stands { PartStands (settings_of desk.now) (front_of pass.old) self.old }
        requires dest { start.now.dest < (settings_of desk.now).processes }
        ensures belongs { Belongs desk.now pass.new }
        ensures number { self.new.number ≡ self.old.number }
        ensures stands { PartStands (settings_of desk.now) (front_of pass.new) self.new }
        ensures call { IsMade (settings_of desk.now) (view_of pass.old) (Restarts (settings_of desk.now) by self.old.number timer start.now result) (view_of pass.new) }
        ensures full { result ≡ Err Full → IsUsedUp self.old self.new }
        ensures frees { UsesFree self.old self.new result }
        ensures rows { GainsOne self.old self.new result }
        ensures gone { HasLetGo timer result self.new }
    {
        // Few timers are of a later round. Of all others the generation is the use of the round itself.
        if timer.generation <= USES_OF_ROUND {
            return self.restart_by_name(desk, pass, by, timer, start);
        }
        let mut named = timer;
        let refused = self.restart_of_later_round(
            desk,
            pass,
            by,
            timer.wheel,
            timer.slot,
            timer.generation,
            start.when,
            start.dest,
            start.msg,
            start.kind,
            &mut named,
        );
        refused_or(refused, named)
    }

    /// The same for a timer of a later round of its slot. Name and start come in parts, and the answer goes in
    /// two: so a restart, which seldom gets here, needn't write or read them in memory.
    #[cold]
    #[inline(never)]
    fn restart_of_later_round(
        &mut self,
        desk: &Desk,
        pass: &mut Pass,
        by: u32,
        wheel: u32,
        slot: u32,
        generation: u64,
        when: When,
        dest: u32,
        msg: u64,
        kind: Kind,
        named: &mut TimerRef,
    ) -> Option<RestartErr>
        requires belongs { Belongs desk.now pass.old }
        requires holds { HoldsCaller (settings_of desk.now) (view_of pass.old) by self.old.number }
        requires stands { PartStands (settings_of desk.now) (front_of pass.old) self.old }
        requires dest { dest < (settings_of desk.now).processes }
        ensures belongs { Belongs desk.now pass.new }
        ensures number { self.new.number ≡ self.old.number }
        ensures stands { PartStands (settings_of desk.now) (front_of pass.new) self.new }
        ensures call { IsMade (settings_of desk.now) (view_of pass.old) (Restarts (settings_of desk.now) by self.old.number (timer_at wheel slot generation) (record { when = when; dest = dest; msg = msg; kind = kind }) (refused_or result named.new)) (view_of pass.new) }
        ensures full { refused_or result named.new ≡ Err Full → IsUsedUp self.old self.new }
        ensures frees { UsesFree self.old self.new (refused_or result named.new) }
        ensures rows { GainsOne self.old self.new (refused_or result named.new) }
        ensures gone { HasLetGo (timer_at wheel slot generation) (refused_or result named.new) self.new }
    {
        let timer = TimerRef {
            wheel,
            slot,
            generation,
        };
        let start = Start {
            when,
            dest,
            msg,
            kind,
        };
        let answer = self.restart_by_name(desk, pass, by, timer, &start);
        told(answer, named)
    }

    /// The same for any timer.
    #[inline(always)]
    fn restart_by_name(
        &mut self,
        desk: &Desk,
        pass: &mut Pass,
        by: u32,
        timer: TimerRef,
        start: &Start,
    ) -> Result<TimerRef, RestartErr>
        requires belongs { Belongs desk.now pass.old }
        requires holds { HoldsCaller (settings_of desk.now) (view_of pass.old) by self.old.number }
        requires stands { PartStands (settings_of desk.now) (front_of pass.old) self.old }
        requires dest { start.now.dest < (settings_of desk.now).processes }
        ensures belongs { Belongs desk.now pass.new }
        ensures number { self.new.number ≡ self.old.number }
        ensures stands { PartStands (settings_of desk.now) (front_of pass.new) self.new }
        ensures call { IsMade (settings_of desk.now) (view_of pass.old) (Restarts (settings_of desk.now) by self.old.number timer start.now result) (view_of pass.new) }
        ensures full { result ≡ Err Full → IsUsedUp self.old self.new }
        ensures frees { UsesFree self.old self.new result }
        ensures rows { GainsOne self.old self.new result }
        ensures gone { HasLetGo timer result self.new }
    {
        let Some(ahead) = look_ahead(desk, pass, by, start) else {
            return Err(RestartErr::BadArg);
        };
        if !timer.has_slot(desk.settings()) {
            return Err(RestartErr::NotArmed);
        }
        // The word is on its way from memory while the generation is tested.
        let place = desk.touch(timer.wheel, timer.slot);
        if !timer.has_generation() {
            return Err(RestartErr::NotArmed);
        }
        if !self.may_stay(timer) || !self.suits(timer.slot, ahead.up, ahead.deadline) {
            let mut named = timer;
            let refused = self.restart_in_parts(
                desk,
                pass,
                by,
                timer.wheel,
                timer.slot,
                timer.generation,
                start.when,
                start.dest,
                start.msg,
                start.kind,
                ahead.passed,
                ahead.up,
                ahead.deadline,
                place,
                &mut named,
            );
            return refused_or(refused, named);
        }
        self.restart_here(desk, pass, by, timer, start, ahead, place)
    }

    /// Gives a timer a new deadline in its own slot, after the caller's look: by one exchange where it is armed.
    #[inline(always)]
    pub(crate) fn restart_here(
        &mut self,
        desk: &Desk,
        pass: &mut Pass,
        by: u32,
        timer: TimerRef,
        start: &Start,
        ahead: Ahead,
        place: SlotPlace,
    ) -> Result<TimerRef, RestartErr>
        requires belongs { Belongs desk.now pass.old }
        requires holds { HoldsCaller (settings_of desk.now) (view_of pass.old) by self.old.number }
        requires stands { PartStands (settings_of desk.now) (front_of pass.old) self.old }
        requires dest { start.now.dest < (settings_of desk.now).processes }
        requires in_range { names_timer (settings_of desk.now) timer ≡ true }
        requires place { IsPlaceOf (settings_of desk.now) timer.wheel timer.slot place }
        requires stays { MayStay self.old timer }
        requires looked { HasLooked (settings_of desk.now) (state_of desk.now pass.old) by start.now ahead }
        ensures belongs { Belongs desk.now pass.new }
        ensures number { self.new.number ≡ self.old.number }
        ensures stands { PartStands (settings_of desk.now) (front_of pass.new) self.new }
        ensures call { IsMade (settings_of desk.now) (view_of pass.old) (λ s es. RestartEnds true by self.old.number timer start.now result es) (view_of pass.new) }
        ensures not_full { result ≢ Err Full }
        ensures frees { UsesFree self.old self.new result }
        ensures rows { GainsOne self.old self.new result }
        ensures gone { HasLetGo timer result self.new }
    {
        let Some(read) = pass.peek_word(desk, Actor::Caller(by), timer, place) else {
            return Err(RestartErr::NotArmed);
        };
        let now = ahead.rounded_down();
        let next = Use::after(timer.generation, now, ahead.deadline);
        let generation = next.generation;
        let word = armed_word(next.deadline, generation);
        if !pass.renew(
            desk,
            by,
            timer,
            read,
            generation,
            start,
            next.deadline,
            word,
            place,
        ) {
            return Err(RestartErr::NotArmed);
        }
        let named = self.renew(timer.slot, start, next, word);
        self.end(desk, pass, by, named, start.dest, next.deadline);
        Ok(named)
    }
}
