//! The first row that is due, the one that tells when, and how many rows there are at most.
ghost use Rattle.std.specs.Prelude.{◌≡◌};

use super::WheelPart;
use ert_defs::TimerRef;
use ert_wheel::{FirstDue, HeldRow};

impl WheelPart {
    ghost use Rattle.std.specs.{Bool.OnTrue, Option.is_some};
    ghost use Rattle.ert_timers.specs.{Expiring.AreDue, NextDue.IsNextHeld, Parts.last_timer, Trying.come_to};
    ghost use Rattle.std.specs.Prelude.{◌≡◌, ◌<◌, ◌≤◌, IfNone, IfSome, MatchOption, Some, [], count_by, length, min, vec_capacity};
    ghost use Rattle.ert_wheel.specs.{NextDue.{IsNextDue, TellsNext}, FirstDue.IsFirstTold, Standing.StayOrFall};

    /// The first row that is due at `to`, by deadline and then by start, where so many rows at most may move in the wheel; they are
    /// counted down. The time of the wheel goes on with it, and past `to` where no row is due. `scratch` is the
    /// vector of an advance: rows of one deadline are put in order of start there.
    pub(crate) fn first_row_due(
        &mut self,
        to: u64,
        moves: &mut u32,
        scratch: &mut Vec<HeldRow>,
    ) -> FirstDue
        requires to { to ≤ 8796093022207 }
        requires room { length self.old.keys ≤ vec_capacity scratch.old }
        ensures part { self.new ≡ come_to self.old self.new.passed self.new.stands }
        ensures time { self.old.passed ≤ self.new.passed }
        ensures first { IsFirstTold self.old.keys self.new.stands self.new.passed to result }
        ensures stands { StayOrFall self.old.keys self.new.passed self.old.stands self.new.stands }
        ensures capacity { vec_capacity scratch.new ≡ vec_capacity scratch.old }
    {
        self.wheel.first_due(to, moves, scratch)
    }

    /// Whether no row is due at `to`, as far as the buckets tell: where it is false, one may be.
    #[inline]
    pub(crate) fn is_idle(&self, to: u64) -> bool
        ensures { OnTrue result (AreDue self.now to []) }
    {
        !self.wheel.may_be_due(to)
    }

    /// How early the next row may be due, with the slot of the row that tells it, where both are kept.
    #[inline]
    pub(crate) fn kept_due(&self) -> Option<(u64, u32)>
        ensures held { IfSome result (λ kept. IsNextHeld self.now (Some kept.0)) }
        ensures tells { IfSome result (λ kept. TellsNext self.now.keys self.now.stands self.now.passed kept.0 kept.1) }
    {
        self.wheel.kept_due()
    }

    /// The slot of a row that tells when the next one is due. None only where the time is before the first that wasn't passed.
    #[inline]
    pub(crate) fn teller(&self, time: u64) -> Option<u32>
        requires { IsNextDue self.now.keys self.now.stands self.now.passed time }
        ensures tells { IfSome result (TellsNext self.now.keys self.now.stands self.now.passed time) }
        ensures late { IfNone result (time < self.now.passed) }
    {
        self.wheel.teller(time)
    }

    /// The last timer of a slot.
    pub(crate) fn last_timer(&self, slot: u32) -> TimerRef
        requires { slot < length self.now.slots }
        ensures { result ≡ last_timer self.now.number self.now.slots slot }
    {
        TimerRef {
            wheel: self.number,
            slot,
            generation: self.kept_of(slot).generation(),
        }
    }

    /// So many rows, or all where there are fewer.
    pub(crate) fn rows_at_most(&self, most: u32) -> usize
        ensures { result ≡ min most (count_by is_some self.now.keys) }
    {
        (most as usize).min(self.wheel.len())
    }
}
