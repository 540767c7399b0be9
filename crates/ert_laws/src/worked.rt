//! What the model and the definitions of lives and mail say of short histories that were judged by hand.

ghost use Rattle.ert_laws.specs.Judged.{TimerWaits, EarlyExpiryIsRefused, TimerIsDelivered, TimerIsCancelled, OtherCancelIsRefused, TimerIsOrphaned, EarlyOrphanIsRefused, RequestIsAnswered, OtherAnswerIsRefused, MonitorIsToldOnce};
ghost use Rattle.ert_laws.specs.WorkedMail.{LivesAreRead, MailIsRead, ExpiryIsInOrder};

/// The model judges the worked histories as they were judged by hand.
pub fn histories_are_judged()
    ensures waits { TimerWaits }
    ensures early_expiry { EarlyExpiryIsRefused }
    ensures delivered { TimerIsDelivered }
    ensures cancelled { TimerIsCancelled }
    ensures other_cancel { OtherCancelIsRefused }
    ensures orphaned { TimerIsOrphaned }
    ensures early_orphan { EarlyOrphanIsRefused }
    ensures answered { RequestIsAnswered }
    ensures other_answer { OtherAnswerIsRefused }
    ensures told_once { MonitorIsToldOnce }
{}

/// The lives of timers, and what was put into mailboxes and taken, are read off the worked histories as they
/// were by hand.
pub fn lives_and_mail_are_read()
    ensures lives { LivesAreRead }
    ensures mail { MailIsRead }
    ensures order { ExpiryIsInOrder }
{}
