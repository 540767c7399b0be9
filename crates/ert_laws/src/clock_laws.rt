//! Laws on the clock over all legal histories, each the contract of a function that does nothing.

ghost use Rattle.ert_laws.specs.ClockLaws.{LawOfTime, LawOfFirstLooks, LawOfLastLooks, LawOfExpiry, LawOfPermission, LawOfStart, LawOfEnd, LawOfSums, LawOfBases, LawOfRounds};

/// In a legal history monotonic time never falls (ERTS User's Guide, "Erlang Monotonic Time"), and the
/// last look of an actor is of no time before the start time and of none to come.
pub fn time_never_falls()
    ensures time { LawOfTime }
    ensures first_looks { LawOfFirstLooks }
    ensures last_looks { LawOfLastLooks }
{}

/// In a legal history no timer expires before its deadline (`erlang` module reference, `start_timer`).
pub fn no_timer_expires_early()
    ensures { LawOfExpiry }
{}

/// In a legal history the clock moves only as it may: with time correction by 99 to 101 percent of OS
/// monotonic time, and its offset only as the mode permits (ERTS User's Guide, "Time Correction" and
/// "Time Warp Modes").
pub fn clock_is_permitted()
    ensures { LawOfPermission }
{}

/// In a legal history the time is never before the start time and never comes to the end time (`erlang` module
/// reference, `system_info(end_time)`), and its sum with the offset, as it is or comes to be, fits 64 bits.
pub fn times_stay_in_range()
    ensures start { LawOfStart }
    ensures end { LawOfEnd }
    ensures sums { LawOfSums }
{}

/// The line that the clock is on is that of the last tick that was a check or a finalization, and that of
/// the first reading where there is none (ERTS User's Guide, "Time Correction").
pub fn clock_looks_back()
    ensures { LawOfBases }
{}

/// The round that a slot is in has begun: a look that is taken now finds no slot resting but one that was
/// used 262143 times in its round, and of which the deadline of some timer hasn't passed.
pub fn rounds_have_begun()
    ensures { LawOfRounds }
{}
