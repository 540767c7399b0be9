//! Laws of mailboxes and inboxes, each the contract of a function that does nothing.

ghost use Rattle.ert_mail.specs.Laws.{LawOfStandingMailboxes, LawOfStandingInboxes, LawOfTakes, LawOfMonitorEntries, LawOfDemonitorEntries, LawOfTells, LawOfHandingOver, LawOfAnswerEntries, LawOfAsks, LawOfPickEntries};

/// A mailbox stands on while its process's mailbox has no more entries, whatever others do meanwhile.
pub fn mailboxes_stand_on()
    ensures { LawOfStandingMailboxes }
{}

/// An inbox stands on while it has no more entries, whatever others do meanwhile.
pub fn inboxes_stand_on()
    ensures { LawOfStandingInboxes }
{}

/// Each call on a mailbox or an inbox makes entries of the caller or scheduler and of that one alone. So every
/// other part of the service stands on.
pub fn calls_leave_other_parts()
    ensures takes { LawOfTakes }
    ensures monitors { LawOfMonitorEntries }
    ensures demonitors { LawOfDemonitorEntries }
    ensures notifies { LawOfTells }
    ensures hands_over { LawOfHandingOver }
    ensures answers { LawOfAnswerEntries }
    ensures asks { LawOfAsks }
    ensures picks { LawOfPickEntries }
{}
