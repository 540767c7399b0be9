//! What the numbers in a legal history name.

ghost use Rattle.ert_laws.specs.Ranges.{LawOfInboxes, LawOfHands, LawOfRowRanges, LawOfExpiredRanges, LawOfFirstRanges, LawOfFew, LawOfStanding};

/// Each request that waits in an inbox, and each that a scheduler has in its hand, names a process in range.
pub fn requests_are_in_range()
    ensures inboxes { LawOfInboxes }
    ensures hands { LawOfHands }
{}

/// Each row of a wheel is of a timer of that wheel, and its wheel, slot and destination are in range. So are
/// those of the expired timers that wait at a scheduler, and of the first of these.
pub fn rows_are_in_range()
    ensures rows { LawOfRowRanges }
    ensures expired { LawOfExpiredRanges }
    ensures first { LawOfFirstRanges }
{}

/// At most as many expired timers wait at a scheduler as its wheel has slots.
pub fn expired_timers_are_few()
    ensures { LawOfFew }
{}

/// Each timer that was ever armed has a row.
pub fn timers_have_rows()
    ensures { LawOfStanding }
{}
