//! Laws on what the calls answer, each the contract of a function that does nothing.

ghost use Rattle.ert_effects.specs.Laws.{LawOfTicks, LawOfFinalizations, LawOfTimes, LawOfOffsets, LawOfSystemTimes, LawOfReads, LawOfCancels, LawOfStarts, LawOfAdvances, LawOfMarks, LawOfHandedOver, LawOfTaken, LawOfMonitors};
ghost use Rattle.ert_effects.specs.Laws.{LawOfDemonitors, LawOfTold, LawOfPicks, LawOfAnswers, LawOfExits, LawOfTurns};

/// The answers of the calls on the clock and on timers are read from their entries: in one state the same
/// entries have one answer, unless memory ran out.
pub fn answers_are_read()
    ensures ticks { LawOfTicks }
    ensures finalizations { LawOfFinalizations }
    ensures times { LawOfTimes }
    ensures offsets { LawOfOffsets }
    ensures system_times { LawOfSystemTimes }
    ensures reads { LawOfReads }
    ensures cancels { LawOfCancels }
    ensures starts { LawOfStarts }
    ensures advances { LawOfAdvances }
    ensures marks { LawOfMarks }
{}

/// So are those of the calls on mailboxes, monitors and requests.
pub fn messages_are_read()
    ensures handed_over { LawOfHandedOver }
    ensures taken { LawOfTaken }
    ensures monitors { LawOfMonitors }
    ensures demonitors { LawOfDemonitors }
    ensures told { LawOfTold }
    ensures picks { LawOfPicks }
    ensures answers { LawOfAnswers }
{}

/// After an exit no timer that was armed for the process before it is armed, whatever came between its
/// steps and comes after.
pub fn exits_settle_timers()
    ensures { LawOfExits }
{}

/// After a turn no expired timer waits at the scheduler, and it served 64 requests at most.
pub fn turns_deliver_all()
    ensures { LawOfTurns }
{}
