ghost use Rattle.ert_wheel.specs.NextDue.{LawOfNearAnswers, LawOfRareAnswers, LawOfLaterDue, LawOfTrueWindows};

/// What `Wheel::next_due` answers is exact where it is near, is a deadline but once for each window of 512 milliseconds, and goes
/// on with time. Where no row stands too early, it is a deadline or the begin of a window in which a row is due.
pub fn answers_are_rare()
    ensures near { LawOfNearAnswers }
    ensures rare { LawOfRareAnswers }
    ensures later { LawOfLaterDue }
    ensures windows { LawOfTrueWindows }
{}
