ghost use Rattle.std.specs.Prelude.{◌≡◌, ◌↔◌, IsTrue};
ghost use Rattle.ert_defs.specs.{Lines.{first_state, end_time}, Settings.{IsStart, HasCounts, Checks}, Readings.IsValid};

use crate::milliseconds::{LAST_DEADLINE, NANOSECONDS_PER_MILLISECOND};

/// How long a service may run, in nanoseconds: more than a quarter of a millennium (profile).
const SPAN: i64 = LAST_DEADLINE as i64 * NANOSECONDS_PER_MILLISECOND;

/// The most schedulers that a service can have (profile): so many that the generations of all their timers, of 53 bits
/// each, add up to at most 2^63.
pub const MOST_SCHEDULERS: u32 = 1_024;

/// The most processes (profile): a slot keeps the process that it notifies in 19 bits.
pub const MOST_PROCESSES: u32 = 524_288;

/// The greatest product of schedulers and processes (profile): each scheduler has a chain of timers for each process.
pub const MOST_CHAINS: u64 = 67_108_864;

/// The most timer slots of a scheduler (profile).
pub const MOST_SLOTS: u32 = 16_777_216;

/// The most timer slots of all schedulers together (profile).
pub const MOST_SLOTS_IN_ALL: u64 = 67_108_864;

/// The most callers (profile): one, and one more for each scheduler.
pub const MOST_CALLERS: u32 = 1_025;

/// How many slots a start of a scenario looks at that knows of none that is free (profile): more than a scenario has
/// ops, so that a wheel is full where a start of a scenario is refused, and a scenario has one transcript.
pub const SCENARIO_LOOKS: u32 = 131_072;

/// The time warp modes (ERTS User's Guide, "Time Warp Modes").
#[derive(Clone, Copy, Debug, PartialEq, Eq)]
pub enum Mode {
    /// The time offset never changes.
    No,
    /// The time offset changes once, when it is finalized.
    Single,
    /// The time offset may change at each check.
    Multi,
}

impl Mode {
    /// The state of the offset at the opening.
    pub fn first_state(self) -> OffsetState
        ensures { result ≡ first_state self }
    {
        match self {
            Mode::No => OffsetState::Final,
            Mode::Single => OffsetState::Preliminary,
            Mode::Multi => OffsetState::Volatile,
        }
    }
}

/// The state of the time offset (ERTS User's Guide, "Time Warp Modes").
#[derive(Clone, Copy, Debug, PartialEq, Eq)]
pub enum OffsetState {
    /// It changes when it is finalized, and not before.
    Preliminary,
    /// It never changes again.
    Final,
    /// It may change at each check.
    Volatile,
}

/// One reading of the clocks of the operating system, in nanoseconds.
///
/// It is valid where `mono` is from 0 to below 2^62 and `sys` lies between -2^61 and 2^61.
#[derive(Clone, Copy, Debug, PartialEq, Eq)]
pub struct Reading {
    /// OS monotonic time. A value below that of an earlier reading counts as that one.
    pub mono: i64,
    /// OS system time.
    pub sys: i64,
}

impl Reading {
    /// Whether the reading is valid.
    pub fn is_valid(&self) -> bool
        ensures { IsTrue result ↔ IsValid self.now }
    {
        0 <= self.mono && self.mono < 1 << 62 && -(1 << 61) < self.sys && self.sys < 1 << 61
    }
}

/// What a clock and timer service is opened with.
#[derive(Clone, Copy, Debug, PartialEq, Eq)]
pub struct Settings {
    pub mode: Mode,
    /// Whether time correction is on (ERTS User's Guide, "Time Correction").
    pub correction: bool,
    /// Monotonic time at the opening, in nanoseconds: a multiple of 1,000,000 from -2^58 to 2^58.
    pub start: i64,
    /// 1 to `MOST_SCHEDULERS`.
    pub schedulers: u32,
    /// 1 to `MOST_PROCESSES`; times the schedulers at most `MOST_CHAINS`.
    pub processes: u32,
    /// Timer slots of each scheduler, 1 to `MOST_SLOTS`; at most `MOST_SLOTS_IN_ALL` of all schedulers.
    pub slots: u32,
    /// How many slots of its wheel a start looks at that knows of none that is free, 1 or more; it looks at all where
    /// there are fewer.
    pub looks: u32,
    /// 1 to `MOST_CALLERS`.
    pub callers: u32,
    /// The reading that the clock opens with.
    pub first: Reading,
}

/// Why settings are refused: the first of these, in this order.
#[derive(Clone, Copy, Debug, PartialEq, Eq)]
pub enum SettingsFault {
    /// The start time is no multiple of 1,000,000, or outside -2^58 to 2^58.
    Start,
    /// The first reading isn't valid.
    First,
    /// A number of schedulers, processes, slots, looks or callers is outside its limits.
    Count,
}

impl Settings {
    /// Tells whether a service can be opened with these settings, and else the first fault.
    pub fn check(&self) -> Result<(), SettingsFault>
        ensures { Checks self.now result }
    {
        if !self.has_start() {
            return Err(SettingsFault::Start);
        }
        if !self.first.is_valid() {
            return Err(SettingsFault::First);
        }
        if !self.has_counts() {
            return Err(SettingsFault::Count);
        }
        Ok(())
    }

    /// The end time, which valid readings never reach, in nanoseconds (`erlang:system_info`, `end_time`).
    pub fn end(&self) -> i64
        requires { IsStart self.now.start }
        ensures { result ≡ end_time self.now }
    {
        self.start + SPAN
    }

    fn has_start(&self) -> bool
        ensures { IsTrue result ↔ IsStart self.now.start }
    {
        self.start.rem_euclid(NANOSECONDS_PER_MILLISECOND) == 0
            && -(1 << 58) <= self.start
            && self.start <= 1 << 58
    }

    fn has_counts(&self) -> bool
        ensures { IsTrue result ↔ HasCounts self.now }
    {
        let chains = self.schedulers as u64 * self.processes as u64;
        let slots = self.schedulers as u64 * self.slots as u64;
        1 <= self.schedulers
            && self.schedulers <= MOST_SCHEDULERS
            && 1 <= self.processes
            && self.processes <= MOST_PROCESSES
            && chains <= MOST_CHAINS
            && 1 <= self.slots
            && self.slots <= MOST_SLOTS
            && slots <= MOST_SLOTS_IN_ALL
            && 1 <= self.looks
            && 1 <= self.callers
            && self.callers <= MOST_CALLERS
    }
}
