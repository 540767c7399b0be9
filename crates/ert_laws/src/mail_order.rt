//! The order of messages.

ghost use Rattle.ert_laws.specs.MailOrder.{LawOfMailboxes, LawOfExpiryOrder, LawOfOrder};

/// What was put into a mailbox is, in order, what was taken from it and then what stands in it.
pub fn mailboxes_keep_order()
    ensures { LawOfMailboxes }
{}

/// A scheduler hands its timers over in order of expiry (`erlang` module reference, `start_timer` and `send_after`).
/// So the messages of its timers stand in each mailbox, and are taken, in that order: those of its delivered timers for
/// that process, each once, and no others.
pub fn timer_messages_come_in_order()
    ensures turns { LawOfExpiryOrder }
    ensures order { LawOfOrder }
{}
