//! A slot that has the row of a timer that was settled, and takes the next one at once.
use super::changes::{has_uses, join_seldom};
use super::{Use, WheelPart, are_short, is_long};
use crate::starting::MOST_TIMERS;
use ert_defs::{Start, TimerRef};
use ert_wheel::Row;

impl WheelPart {
    ghost use Rattle.std.specs.Prelude.{◌≡◌, ◌↔◌, ◌<◌, ◌≤◌, ◌-◌, IsTrue, length, max, true, false};
    ghost use Rattle.ert_timers.specs.{Changes.kept, Parts.{last_timer, slot_at}, Restarting.{CanRenew, MayStay}};
    ghost use Rattle.ert_effects.specs.RestartCalls.{NeedsSlot};
    ghost use Rattle.ert_wheel.specs.Standing.{ComesOrStays};
    ghost use Rattle.ert_table.specs.Ranges.{IsTimer};
    ghost use Rattle.ert_defs.specs.Words as words;
    ghost use Rattle.ert_defs.specs.declared.timer.Status.TheVariants.{Armed};

    /// Puts in the timer of a start, in the slot of one that has a row still, whose place the new one takes. Where both
    /// go to the same process no chain of a process is read or written.
    #[inline(always)]
    pub(crate) fn renew(&mut self, slot: u32, start: &Start, next: Use, word: u64) -> TimerRef
        requires can { CanRenew self.old slot }
        requires dest { start.now.dest < self.old.processes }
        requires timer { IsTimer next.deadline next.generation }
        requires word { word ≡ words.timer_word Armed next.deadline next.generation }
        ensures kept { self.new ≡ kept self.old slot start.now next self.new.stands }
        ensures stands { ComesOrStays self.old.keys self.old.stands self.new.stands self.old.passed slot (max next.deadline self.old.passed) }
        ensures timer { result ≡ last_timer self.new.number self.new.slots slot }
    {
        let last = self.wheel.value(slot);
        let row = Row {
            deadline: next.deadline,
            order: self.arms,
            slot,
        };
        self.arms += 1;
        self.wheel
            .replace(row, last.used(start, next, word, row.order));
        let stays = last.dest() == start.dest;
        join_seldom(&mut self.wheel, slot, start.dest, stays);
        TimerRef {
            wheel: self.number,
            slot,
            generation: next.generation,
        }
    }

    /// Whether the next timer can have the slot of one, where that is armed.
    #[inline(always)]
    pub(crate) fn may_stay(&self, timer: TimerRef) -> bool
        ensures stays { result ≡ true → MayStay self.now timer }
        ensures needs { result ≡ false → self.now.arms < 9007199254740992 → NeedsSlot self.now.number timer }
    {
        timer.wheel == self.number && has_uses(timer.generation) && self.arms < MOST_TIMERS
    }

    /// Whether a slot suits a timer that is started at a time with a deadline, both in milliseconds after the start time: it
    /// has had a long wait that isn't over and the timer's is long too, or neither is so. Few slots have the long waits.
    #[inline(always)]
    pub(crate) fn suits(&self, slot: u32, now: u64, deadline: u64) -> bool
        requires { slot < length self.now.slots }
        ensures { IsTrue result ↔ ((4194304 ≤ (slot_at self.now.slots slot).above - now) ↔ (4194304 ≤ deadline - now)) }
    {
        let above = self.kept_of(slot).above();
        are_short(now, above, deadline) || is_long(now, above) == is_long(now, deadline)
    }
}
