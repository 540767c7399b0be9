ghost use Rattle.std.specs.Prelude.{◌≡◌, ◌↔◌, IsTrue};
ghost use Rattle.ert_defs.specs.Legal.{IsSlot, is_generation, names_timer};
ghost use Rattle.ert_defs.specs.Timers as timers;

use crate::settings::Settings;

/// Names one timer of one scheduler (`erlang` module reference, `start_timer`).
///
/// It is in range where `wheel` is below the number of schedulers, `slot` below the number of slots and
/// `generation` is from 1 to 262143 or from 2^43 to 2^61 - 1. Any other reference never named a timer.
#[derive(Clone, Copy, Debug, PartialEq, Eq)]
pub struct TimerRef {
    /// The scheduler that manages the timer.
    pub wheel: u32,
    /// The slot of that scheduler's wheel.
    pub slot: u32,
    /// Which use of the slot it is, from 1; after 262143 uses that of its round, times 2^43, plus the
    /// timer's deadline.
    pub generation: u64,
}

/// How often a slot can be used in a round (profile).
pub const USES_OF_ROUND: u64 = 262_143;

/// The least generation of a later round.
pub const FIRST_LATER_GENERATION: u64 = 1 << 43;

impl TimerRef {
    /// Whether the reference is in range.
    pub fn is_in_range(&self, settings: &Settings) -> bool
        ensures { result ≡ names_timer settings.now self.now }
    {
        self.has_slot(settings) && self.has_generation()
    }

    /// Whether it names a slot: its wheel and its slot are in range.
    pub fn has_slot(&self, settings: &Settings) -> bool
        ensures { IsTrue result ↔ IsSlot settings.now self.now.wheel self.now.slot }
    {
        self.wheel < settings.schedulers && self.slot < settings.slots
    }

    /// Whether its generation is one that a timer can have.
    pub fn has_generation(&self) -> bool
        ensures { result ≡ is_generation self.now.generation }
    {
        1 <= use_of(self.generation) && use_of(self.generation) <= USES_OF_ROUND
    }
}

/// Which use of its round a generation is, 1 to 262143 where it is in range.
pub fn use_of(generation: u64) -> u64
    ensures { result ≡ timers.use_of generation }
{
    if generation < FIRST_LATER_GENERATION {
        generation
    } else {
        generation / FIRST_LATER_GENERATION
    }
}

/// When a timer is to expire (`erlang` module reference, `start_timer`, option `abs`).
#[derive(Clone, Copy, Debug, PartialEq, Eq)]
pub enum When {
    /// So many milliseconds after the start of the timer; negative is refused.
    After(i64),
    /// At this Erlang monotonic time in milliseconds. A time that has passed is allowed.
    At(i64),
}

/// What a timer sends (`erlang` module reference, `start_timer` and `send_after`).
#[derive(Clone, Copy, Debug, PartialEq, Eq)]
pub enum Kind {
    /// `start_timer`: the message `timeout` with the reference.
    Wrapped,
    /// `send_after`: the message alone.
    Bare,
}

/// What a timer is started with.
#[derive(Clone, Copy, Debug, PartialEq, Eq)]
pub struct Start {
    pub when: When,
    /// The process that the message goes to.
    pub dest: u32,
    pub msg: u64,
    pub kind: Kind,
}

/// Where a timer stands in its life. It moves from armed to expired, cancelled or orphaned, and from
/// expired to delivered or dropped.
#[derive(Clone, Copy, Debug, PartialEq, Eq)]
pub enum Status {
    Armed,
    Expired,
    /// Its message is in the mailbox of its destination.
    Delivered,
    Cancelled,
    /// Cancelled because its destination had exited.
    Orphaned,
    /// Expired, and its destination had exited when its message was handed over.
    Dropped,
}

/// What stays of a timer from its start on.
#[derive(Clone, Copy, Debug, PartialEq, Eq)]
pub struct TimerRow {
    pub timer: TimerRef,
    /// In milliseconds after the start time, 0 to 8796093022207.
    pub deadline: u64,
    pub dest: u32,
    pub msg: u64,
    pub kind: Kind,
}
