//! Laws that no relation is too strong, each the contract of a function that does nothing.

ghost use Rattle.ert_ops.specs.Existence.{LawOfPossibleCalls, LawOfExistence};

/// After each legal history, by settings that are in range, each call has an answer other than out of memory, with
/// entries that are legal there. So no relation of a call can be met only by a body that gives up.
pub fn calls_have_answers()
    ensures { LawOfPossibleCalls }
{}

/// Ops that are in range have a transcript, which is the text of the plain service.
pub fn transcripts_exist()
    ensures { LawOfExistence }
{}
