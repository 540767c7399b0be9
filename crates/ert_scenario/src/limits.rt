//! The limits of scenarios, in format 1 and 2 (profile). A service can have greater counts.

/// The most schedulers.
pub const MOST_SCHEDULERS: u32 = 64;

/// The most processes.
pub const MOST_PROCESSES: u32 = 1_024;

/// The most timer slots of a scheduler.
pub const MOST_SLOTS: u32 = 65_536;

/// The most timer slots of all schedulers together.
pub const MOST_SLOTS_IN_ALL: u32 = 262_144;

/// The most callers' lists of a race.
pub const MOST_LISTS: u32 = 16;

/// The most callers: one, and one more for each callers' list of a race.
pub const MOST_CALLERS: u32 = 17;

/// The most turns of each scheduler in a race.
pub const MOST_TURNS: u32 = 10_000;

/// The most ops, in all lists together.
pub const MOST_OPS: u32 = 100_000;
