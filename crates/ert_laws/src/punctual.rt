//! When messages of timers are put.

ghost use Rattle.ert_laws.specs.Punctual.{LawOfPutMessages, LawOfDueTimers, LawOfPutOrder};

/// Once a wheel was advanced to a time and its scheduler has handed over what expired, the message of each timer that
/// had been started by then, with a deadline at most that time, is in the mailbox of its process or was taken from it:
/// it was put there once and nowhere else, unless the timer was cancelled or the process has exited. The messages of a
/// wheel's timers to one process are put by deadline, and for one deadline in order of starting.
pub fn due_messages_are_put()
    ensures due { LawOfDueTimers }
    ensures put { LawOfPutMessages }
    ensures order { LawOfPutOrder }
{}
