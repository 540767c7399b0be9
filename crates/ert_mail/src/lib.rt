//! The mailbox of a process: its messages, and its monitors of the time offset. And the inbox of a scheduler:
//! the asynchronous requests that wait for it.
//!
//! **What it is.** One thread at a time has a process's part, and with it a pass that holds the actor of that
//! mailbox, beside the caller or the scheduler who acts. What the part keeps is data of its own and no word
//! that others see: the messages, first to last, the monitors in order of number, each with the offset that
//! the process was last told, the number of the next monitor, and how many messages of timers were ever put.
//! Each change of it is recorded by a step on the desk, on a word that is read at the same time: an exit, the
//! time or the offset.
//!
//! An inbox is the same for a scheduler: one thread has it, with a pass that holds its actor, beside the caller
//! who asks or the scheduler itself. Its requests stand first to last.
//!
//! | call | made by | steps | answer |
//! |---|---|---|---|
//! | `take` | a caller | looks whether the process has exited; if not, records what was taken | the first message, Empty or Exited |
//! | `deliver` | a scheduler | looks whether the process has exited; then hands over the timer | Put or Dropped |
//! | `answer` | a scheduler | those of a cancel or a read; records the answer | what was left |
//! | `monitor` | a caller | reads the offset, which counts as told | the number, or Full |
//! | `demonitor` | a caller | records that it was removed | whether it stood |
//! | `notify` | a caller | reads the offset | how many messages were put |
//! | `ask` | a caller | records the request, which is put last | |
//! | `pick` | a scheduler | records the first request, which goes into its empty hand | that request, if one waits |
//!
//! **What it promises.** A part stands for the front of the pass before and after each call: its messages,
//! monitors, numbers and count, or its requests, are those of the history. Each call makes just the entries that
//! it may make with its answer (`ert_effects`, `specs/MailCalls` and `specs/RequestCalls`). Where a call also
//! changes what the scheduler has, it tells what that is then. A part stands on while others act
//! (`mailboxes_stand_on`, `inboxes_stand_on`).
//!
//! **Memory.** A call that may put something makes room first, and takes no step where it finds none. So when
//! out of memory nothing has changed: a request is still in the hand, and its timer as it was. `take`,
//! `demonitor` and `pick` take no memory. `reserve` makes room for messages ahead, and `shrink` gives back what they don't
//! need. Messages and requests stand in rings: to put or to take one moves no other.
//!
//! It stands on `ert_defs`, `ert_laws`, `ert_effects` and `ert_table`.
//!
//! **One asynchronous cancel, from the ask to the message.** A process can have a timer cancelled without waiting for
//! the answer. Process 2 asks to cancel the timer of wheel 1, slot 5 and generation 2; scheduler 1 does it, at its next
//! turn.
//!
//! 1. **The ask.** A thread that holds Caller 3 takes the inbox of scheduler 1, and calls `InboxPart::ask(desk, pass,
//!    3, request)` (`crates/ert_mail/src/inbox.rt`), where the request has the kind Cancel, the timer, `reply_to` 2 and
//!    `info` true. It makes room in the ring of requests; without memory it ends here, and nothing was recorded. Then
//!    `Pass::load_time` loads the time word, only so that the entry Ask by Caller 3 with Inbox 1 stands in the history,
//!    and the request is put last in the ring.
//! 2. **The pick.** A thread that holds Sched 1 takes that inbox, and calls `InboxPart::pick`. The hand of scheduler 1
//!    is empty in the history. The first request is taken off the ring, and the load of the time word is the entry Pick
//!    by Sched 1 with Inbox 1. The contract says that in the state after it the request is in the hand (`sched`): where
//!    it stands now belongs to the scheduler, and the inbox is free for others.
//! 3. **Room in the mailbox.** The same thread takes the mailbox of process 2, and calls `MailPart::answer(desk, pass,
//!    1, &request)` (`crates/ert_mail/src/part.rt`). It makes room for one message. Without memory it ends here: the
//!    request is in the hand, the timer as it was, and the next turn tries again.
//! 4. **The cancel.** `reply` (`crates/ert_mail/src/replies.rt`) calls `cancel_timer` as Sched 1: a look, a peek and an
//!    exchange (`ert_table`). What the exchange found left is the result of the scheduler's last step on the request,
//!    and so what the answer has to say: an answer by an earlier look would be no legal entry.
//! 5. **The answer.** The last load of the time word is the entry Answer by Sched 1 with MailOf 2. In the history it
//!    empties the hand and puts CancelDone with the number, or with none, last in the mailbox; the code puts that
//!    message last in its ring (`put_answer`). The mailbox stands for the new front (`stands`), and the hand of the
//!    scheduler is empty in it (`sched`).
//! 6. **The take.** A thread that holds Caller 0 takes the mailbox of process 2, and calls `MailPart::take`. A look at
//!    the exit of the process finds it alive, and the first message is taken, with the entry Take:
//!    `Taken::Mail(Mail::CancelDone { timer, left: Some(31) })`, where 31 milliseconds were left.
//!
//! **Choices.**
//!
//! - **A mailbox is seen with the room that it has**, and a refusal changes nothing else; out of memory comes only if
//!   there was no room.
//! - **A mailbox gives memory back when the program asks** (`shrink`), and not by itself when messages are taken: the
//!   next burst would take it again, and might find none. `shrink` moves the messages within their block, and lets the
//!   allocator make that smaller; if it can't, the call says so (`NoMemory`), so that after OK nothing is left over,
//!   and a body that does nothing is refused.
//! - **The part of a process tells what its scheduler has** after `deliver`, `answer` and `pick`.
//! - **An answer takes its room also if none is wanted**, so the call has one way through.
//! - **The count of delivered messages is proved to fit 64 bits.**
#![tactic(auto)]

mod handing;
mod inbox;
mod laws;
mod list;
mod part;
mod replies;
mod turns;
mod watching;

pub use ert_effects::{Handed, MonitorErr, Taken};
pub use inbox::InboxPart;
pub use laws::{calls_leave_other_parts, inboxes_stand_on, mailboxes_stand_on};
pub use list::MailList;
pub use part::MailPart;
