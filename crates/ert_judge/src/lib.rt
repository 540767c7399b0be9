//! Judges histories: which entry is the first that isn't legal, and why.
//!
//! The model of `ert_defs` says when an entry is legal in a state. A judge keeps that state by its parts
//! (`state`) and walks once over the entries (`first_stop`): it asks for a reason why the next entry can't follow;
//! where there is none each part goes on by it, and else the place and the reason are given back.
//!
//! `reason` is the one decider: an entry is legal exactly where it tells none. It looks for the condition that the entry
//! breaks, with the values that decide: that it is in range (`ranges`), then what its event asks of the clock
//! (`clocks`), of the timers (`timers`, `hands`) or of the mailboxes (`mails`). What a reason says stands in
//! `specs/`, in the words of the model; `laws` says that a reason that holds excludes the entry, and `texts` writes
//! it for a person.
//! It stands on `ert_defs`, and on `ert_clock` for the rules of the clock.
//!
//! **One entry, judged.** Take `examples/ertaudit/early_expiry.txt`, whose line 7 is `s0 w0 expire 0 0 1`: a timer with
//! the deadline 6 expires, and its scheduler's last look was at 1 millisecond.
//!
//! 1. **The words.** `audit` (`crates/ert_audit/src/auditing.rt`) reads all bytes and hands them to `read_history`
//!    (`crates/ert_audit/src/spelling/history.rt`), which cuts off one line after the other. Each line is read word by word
//!    from the left (`entries.rt`): the actors `s0` and `w0`, the name `expire`, and the three numbers of the timer
//!    (`events.rt`, `timers.rt`). What is read is spelled so, and what is spelled so is read; so no other entry has
//!    this line.
//! 2. **The range.** `first_stop` (`crates/ert_judge/src/stops.rt`) has walked over the five entries before, and its
//!    judge stands for them: its parts (`state.rt`) are the model's state after them. `out_of_range`
//!    (`ranges.rt`) finds that the entry is by the scheduler of the timer's wheel and with that wheel, and that the slot
//!    exists, and so no reason.
//! 3. **What the event asks.** `of_expire` (`timers.rt`) finds the timer by its slot and generation: it is armed, with the
//!    deadline 6. `Looks::of` tells the last look of scheduler 0, 1000000, and `down`
//!    (`crates/ert_defs/src/milliseconds.rt`) the whole milliseconds of it, 1; 6 isn't 1 or less. So the reason is
//!    `NotDue`, and by the contract of `reason` the model doesn't allow the entry (`crates/ert_defs/specs/Legal.antt`,
//!    `IsNext`).
//! 4. **The line.** The place is 5, counted from 0, and the settings have line 1, so the verdict is `Illegal { line: 7
//!    }` (`crates/ert_audit/src/verdict.rt`). `illegal 7` is written, the status is 1, and the message on standard error
//!    tells the reason.
//!
//! **Choices.**
//!
//! - **The auditor shares one piece of code with the service: the clock's rules on plain numbers** (`ert_clock::Face`).
//!   Two copies were proved against the same definitions, so the second protected nothing.
//! - **Of several broken conditions the first is told, in one order**, and each reason has in its definition that none
//!   before it holds. A rank beside the reasons would have needed a proof over all of them for each. Of the armed
//!   timers the first by deadline and arming is told, since it is the one that comes next.
#![tactic(auto)]

mod clocks;
mod finding;
mod hands;
mod judge;
mod laws;
mod mails;
mod ranges;
mod reasons;
mod state;
mod stops;
mod texts;
mod timers;
mod words;

pub use finding::reason;
pub use judge::Judge;
pub use laws::reasons_exclude;
pub use reasons::{Counted, Maker, Partner, Reason};
pub use stops::{Stop, first_stop};
pub use texts::write_reason;
