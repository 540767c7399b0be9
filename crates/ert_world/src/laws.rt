//! Laws on whose entries are whose, on how early a timer may be due, on what a turn puts into mailboxes, and on what is known
//! of a timer that was started.
ghost use Rattle.ert_world.specs.{DueTurns.{LawOfDueHandings, LawOfDueTurns}, Known.{LawOfStarted, LawOfKnownStarts, LawOfNone}, Laws.{LawOfNoSeats, LawOfSeats, LawOfLaterAnswers}};

/// Where no seat was given out all entries are the world's own, and none of a caller with a seat ever is.
pub fn entries_are_divided()
    ensures none { LawOfNoSeats }
    ensures seats { LawOfSeats }
{}

/// After an advance or a turn of a scheduler `next_due` answers a later time.
pub fn next_due_goes_on()
    ensures { LawOfLaterAnswers }
{}

/// After a turn of its scheduler to a time, the message of each timer that was started before the turn, with a deadline at
/// most that time, was put into the mailbox of its process once and nowhere else, unless the timer was cancelled or the
/// process had exited by the end of the turn. It stands there or was taken. The messages of a scheduler's timers to one
/// process are put by deadline, and for one deadline in order of starting (`due_messages_are_put` of `ert_laws`).
pub fn turns_put_due_messages()
    ensures handings { LawOfDueHandings }
    ensures turns { LawOfDueTurns }
{}

/// Who started a timer knows that, and so does whoever learns a note that was taken then or later. Where a cancel or a read
/// that a world, a seat, a shard or a session makes tells that nothing is left of a timer which its caller knew to be
/// started, the timer has settled: it was cancelled, or it has expired, or its process had exited. So None never comes for
/// want of knowledge.
pub fn started_timers_are_known()
    ensures stays { LawOfStarted }
    ensures starts { LawOfKnownStarts }
    ensures none { LawOfNone }
{}
