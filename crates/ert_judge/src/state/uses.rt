ghost use Rattle.std.specs.Prelude.{◌≡◌, ◌≤◌, zero, suc};
ghost use Rattle.ert_defs.specs.Timers as timers;

use ert_defs::milliseconds::LAST_DEADLINE;
use ert_defs::{FIRST_LATER_GENERATION, TimerRow, USES_OF_ROUND, use_of};

/// The uses of a slot.
#[derive(Clone, Copy)]
pub struct Uses {
    /// The generation of its last timer, 0 where there is none.
    pub last: u64,
    /// The milliseconds after the start time from which on its round may have timers, 0 in the first.
    pub since: u64,
    /// One above the greatest deadline of its timers in milliseconds after the start time, 0 where there are
    /// none.
    pub above: u64,
}

impl Uses {
    ghost use Rattle.std.specs.Prelude.{◌≡◌, ◌<◌, ◌≤◌, ◌↔◌, ℕ, Some};
    ghost use Rattle.ert_defs.specs.Timers as timers;
    ghost use Rattle.ert_judge.specs.Uses.{uses_of, none_kept, used_by};

    /// Those of a slot that had no timer.
    pub fn none() -> Uses
        ensures { result ≡ none_kept }
    {
        Uses {
            last: 0,
            since: 0,
            above: 0,
        }
    }

    /// The uses by which the next timer is started: after the 262143rd use of a round those at the beginning
    /// of the next.
    pub fn turned(&self) -> Uses
        ensures turned { uses_of result ≡ timers.turned (uses_of self.now) }
        ensures room { timers.use_of result.last < 262143 }
    {
        if use_of(self.last) < USES_OF_ROUND {
            *self
        } else {
            Uses {
                last: 0,
                since: self.above,
                above: self.above,
            }
        }
    }

    /// The uses after one more timer.
    pub fn with(&self, row: &TimerRow) -> Uses
        requires { row.now.deadline ≤ 8796093022207 }
        ensures { uses_of result ≡ used_by row.now (uses_of self.now) }
    {
        Uses {
            last: row.timer.generation,
            since: self.turned().since,
            above: self.above.max(row.deadline + 1),
        }
    }

    /// The generation of the next timer, where it is started at a look of so many milliseconds for this
    /// deadline. None where the slot rests, or the deadline would be outside the limits.
    pub fn next(&self, now: u128, wanted: u64) -> Option<u64>
        ensures { (n : ℕ) → (result ≡ Some n) ↔ timers.IsNextUse (uses_of self.now) now wanted n }
    {
        let round = self.turned();
        let deadline = deadline_in(round.since, now, wanted);
        if now < round.since as u128 || deadline > LAST_DEADLINE as u128 {
            return None;
        }
        let count = use_of(round.last) + 1;
        Some(generation_in(round.since, count, deadline as u64))
    }
}

/// The deadline of a timer in a round, for one that is wanted at a look of so many milliseconds.
fn deadline_in(since: u64, now: u128, wanted: u64) -> u128
    ensures { result ≡ timers.deadline_in since now wanted }
{
    if since == 0 {
        wanted as u128
    } else {
        now.max(wanted as u128)
    }
}

/// The generation of a use of a slot in a round.
fn generation_in(since: u64, count: u64, deadline: u64) -> u64
    requires count { count ≤ 262143 }
    requires deadline { deadline ≤ 8796093022207 }
    ensures { result ≡ timers.generation_in since count deadline }
{
    if since == 0 {
        count
    } else {
        FIRST_LATER_GENERATION * count + deadline
    }
}

/// The deadline of a timer that was started for one: a generation of a later round tells it.
pub fn deadline_told(generation: u64, wanted: u64) -> u64
    ensures told { result ≡ timers.deadline_told generation wanted }
    ensures low { wanted ≤ 8796093022207 → result ≤ 8796093022207 }
{
    if generation < FIRST_LATER_GENERATION {
        wanted
    } else {
        generation % FIRST_LATER_GENERATION
    }
}
