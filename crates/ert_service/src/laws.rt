//! A law on what the calls of a service leave settled, the contract of a function that does nothing.
ghost use Rattle.ert_service.specs.Settled.{LawOfSettledByAdvance, LawOfSettledByExit, LawOfSettledByStart, LawOfNoneWaiting};

/// What a call has settled stays so, whatever the history has after it: after an advance the timers that
/// were due, after an exit those for the process, after a start for a process that has exited its timer. After
/// a turn no expired timer waits.
pub fn calls_settle_timers()
    ensures advances { LawOfSettledByAdvance }
    ensures exits { LawOfSettledByExit }
    ensures starts { LawOfSettledByStart }
    ensures turns { LawOfNoneWaiting }
{}
