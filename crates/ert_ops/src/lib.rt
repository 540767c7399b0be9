//! The ops of a scenario, what they may print, and the law that settings and ops have one transcript.
//!
//! An op is one call on the service with its arguments, and a reply what it answers. `ert_scenario` reads ops from JSON.
//! `specs/` has the rest: which arguments are in range where a service was opened with some settings (`specs/Ranges`),
//! that no two starts have one label (`specs/Labels`), which entries an op allows with its reply (`specs/Calls`), the
//! line of a reply, and the script runs of a list of ops, which are legal histories with their text (`specs/Scripts`).
//! A race has a list of ops for each of its threads (`specs/Races`).
//!
//! An op of conversion names two units of time (`erlang` module reference, `convert_time_unit`): `convert` gives the
//! exact floor of the converted time, and an answer of its own exactly where that doesn't fit 64 bits.
//!
//! **The plain service** is the model as a function of settings and ops. A start may take any free slot, so a list of ops
//! has many script runs. In the plain service each start has a slot of its own, whose number is the timer's label: so it
//! has one run, which computes. The text of every script run is the one that it computes, and so settings and ops have
//! one transcript (`one_transcript`). They have one, since after each legal history each call has an answer
//! (`transcripts_exist`, `calls_have_answers`).
//!
//! | op | what the plain service does (`op_piece`) |
//! |---|---|
//! | `tick`, `check`, `finalize` | Tick to the time by the rules, and Shift if one is due; nothing, and the offset that would be too wide, if it is; a finalization of another state than preliminary reads the offset |
//! | `time`, `system`, `offset`, `info`, `convert` | the look or looks, and the answer by the clock |
//! | `start`, `send_after` | a look; then, if the start has a deadline and fewer rows of the wheel take a slot (`taken_slots`: armed, or expired and not handed over) than there are slots, Arm and Mark, and Orphan if the destination had exited. Else `badarg`, and then `full` |
//! | `cancel`, `cancel_quiet`, `read` | a look; if the reference is a timer's, Peek, and for a cancel, if something was left, Cancel |
//! | `cancel_async`, `read_async` | Ask |
//! | `serve` | the request in the hand, or the inbox's first by a Pick: the look, Peek and Cancel of that request, and Answer; without a request a Pick of none |
//! | `advance` | a look; Expire for each armed row whose deadline is at most the whole milliseconds of the time, by deadline and, for one deadline, in order of starting (`due_rows`); Advanced |
//! | `deliver` | for each expired timer of the scheduler, in order: Mark, and Deliver, or Drop if the destination has exited |
//! | `turn` | `serve` until none waits, 64 times at most; `advance`; `deliver` |
//! | `receive`, `alive` | Mark; for a receive of a process that hasn't exited, Take |
//! | `exit` | Mark; if the process hadn't exited, wheel by wheel an Orphan for each armed row for it |
//! | `monitor`, `demonitor`, `notify` | Watch, or Off if 64 stand or the number 4294967295 was given; Unwatch; Tell |
//!
//! `ert_program` says by it what `ertime run` writes.
//!
//! Its laws have the premises of a scenario: no two starts with one label, and at most 100,000 ops.
//!
//! **One start, in two services.** The law of one transcript compares any service with the plain one.
//! Take the ops `["start",7,0,"rel",5,0,9]`, `["tick",0,5000000]`, `["turn",0]` and
//! `["receive",0]`, without time correction.
//!
//! 1. **A service.** A start is allowed to look at slots and to take any that is free (`specs/Calls`, and `Starts` of
//!    `ert_effects`), say slot 3: the entries are a Look, four Probes, the Arm of the timer (0, 3, 1), and a Mark. The
//!    label 7 is bound to that reference (`specs/Scripts`, `labels_after`).
//! 2. **The plain service.** `start_now` (`specs/PlainTimers`) counts no taken row, which is below 1,024 slots, and
//!    arms (0, 7, 1): the slot is the label. Its entries are a Look, the Arm and a Mark.
//! 3. **The same but for names.** (0, 7, 1) is the name of (0, 3, 1) (`proofs/Bound`, `IsName`), and the two states
//!    differ in names alone (`proofs/Shown`, `Shows`). Each event keeps that (`proofs/Steps`).
//! 4. **The turn.** At 5 milliseconds the timer is due, so the one service makes Expire of (0, 3, 1), and the other of
//!    (0, 7, 1). Each puts its message into the mailbox.
//! 5. **The line.** The one prints the label that its list has for (0, 3, 1), and the other the slot of (0, 7, 1):
//!    `receive timeout 7 9`, both times.
//!
//! **Choices.**
//!
//! - **A conversion is the floor of the quotient** of a product of 127 bits. Native is the nanosecond.
//! - **`info` makes one Off** and takes the rest from the settings.
//! - **A script run is said of any caller and way**, so the lists of a race are script runs too.
//! - **A worked scenario's text is in a contract**, so that a mutant of a definition that changes it is rejected.
//! - **A label is a timer's name in the proofs as in the lines**, since no two starts have one label.
//! - **The transcript is that of one determined run.** A start may take any free slot, so two runs of the same ops have
//!   other references. Each run is compared with the plain service, in which a timer's slot is its label, in the
//!   model's own states and events. The price: A second statement of each op. The plain history need not be legal,
//!   since its slots may be out of range. That a full wheel is told by a count rests on no slot waiting, which takes
//!   more starts than a scenario has ops.
#![tactic(auto)]

mod conversion;
mod existence;
mod laws;
mod op;
mod race;
mod reply;
mod unit;
mod worked;

pub use conversion::{TooWide, convert};
pub use existence::{calls_have_answers, transcripts_exist};
pub use laws::{conversions_round_down, first_lines, one_transcript};
pub use op::Op;
pub use race::RaceLists;
pub use reply::Reply;
pub use unit::Unit;
pub use worked::{a_cancel_has_a_transcript, transcripts_are_judged};
