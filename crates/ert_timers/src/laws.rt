//! Laws of the timers of a scheduler, each the contract of a function that does nothing.

ghost use Rattle.ert_timers.specs.Laws.{LawOfStandingParts, LawOfStartEntries, LawOfRestartEntries, LawOfAdvanceEntries, LawOfSweeps, LawOfRooms, LawOfProbes, LawOfTidyCounts, LawOfWholeCancels};

/// A part stands on while its wheel has no more entries, whatever others do meanwhile.
pub fn parts_stand_on()
    ensures { LawOfStandingParts }
{}

/// Each call on a part makes entries of the caller or scheduler and of that wheel alone. So every other part
/// of the service stands on.
pub fn calls_leave_other_parts()
    ensures starts { LawOfStartEntries }
    ensures restarts { LawOfRestartEntries }
    ensures advances { LawOfAdvanceEntries }
    ensures sweeps { LawOfSweeps }
    ensures rooms { LawOfRooms }
    ensures probes { LawOfProbes }
{}

/// A tidy part holds exactly the armed timers of its wheel: it has as many rows as they are.
pub fn tidy_parts_hold_what_is_armed()
    ensures { LawOfTidyCounts }
{}

/// A cancel by a pass that holds every actor leaves a tidy part tidy but for its timer. So `forget` makes it
/// tidy again.
pub fn cancels_leave_other_timers_tidy()
    ensures { LawOfWholeCancels }
{}
