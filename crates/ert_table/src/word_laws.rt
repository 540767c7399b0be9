//! That two values have two words. Each law is the contract of a function that does nothing, so that
//! it is proved wherever this crate is.

ghost use Rattle.ert_table.specs.WordLaws.{LawOfTimeWords, LawOfOffsetWords, LawOfTimers, LawOfIdle};

/// Two times have two words, at one start time.
pub fn times_have_words()
    ensures { LawOfTimeWords }
{}

/// Two offsets have two words, and so have a final offset and one that isn't.
pub fn offsets_have_words()
    ensures { LawOfOffsetWords }
{}

/// The words of two timers differ where their statuses, deadlines or generations do, and differ from the
/// word of a slot that was never used.
pub fn timers_have_words()
    ensures timers { LawOfTimers }
    ensures idle { LawOfIdle }
{}
