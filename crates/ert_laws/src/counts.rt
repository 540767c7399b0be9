//! How many timers there are.

ghost use Rattle.ert_laws.specs.Counts.{LawOfArms, LawOfExpiries, LawOfOrphans, LawOfWaits, LawOfDeliveries, LawOfSix, LawOfMany, LawOfAll, LawOfCounts, LawOfOneCount};

/// How many timers of a wheel there are, and how many have which status, is told by the entries that arm
/// them, let them expire, deliver them and cancel them for an exit.
pub fn timers_are_counted()
    ensures arms { LawOfArms }
    ensures expiries { LawOfExpiries }
    ensures orphans { LawOfOrphans }
    ensures waits { LawOfWaits }
    ensures deliveries { LawOfDeliveries }
    ensures six { LawOfSix }
{}

/// So the counts of all timers by their status are just those that agree with these entries, and with the
/// numbers of armed timers and of expired ones that wait.
pub fn statuses_are_counted()
    ensures counts { LawOfCounts }
    ensures one { LawOfOneCount }
{}

/// A wheel has at most 2^53 timers.
pub fn timers_are_few()
    ensures many { LawOfMany }
    ensures all { LawOfAll }
{}
