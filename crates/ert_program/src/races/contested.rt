//! A worked race, of which a history and its report are known.

ghost use Rattle.std.specs.Prelude.{codes};
ghost use Rattle.ert_program.specs.{WorkedRace.{two_callers, one_start, two_cancels, contest}, Outcomes.IsOutcome};

/// Two callers cancel one timer at once: one of them is told what was left of it, and the other that it had ended.
pub fn a_contest_has_an_outcome()
    ensures { IsOutcome two_callers one_start two_cancels contest
        (codes "start ok\nkeeper\ncancel false\ncaller 1\ncancel 5\nsettled armed 0 expired 0 delivered 0 dropped 0 cancelled 1 orphaned 0\nend 0\n") }
{}
