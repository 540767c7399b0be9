//! What the program `ertime` does, over any source and sink of bytes, any clock and any gate: it reads a scenario
//! of the clock and timer service, and writes one line for each reply.
//!
//! **The command line** (`command_line`): which command its words are. `clap` reads them. `specs/Commands` says which lists
//! of words are which command, as a function that computes, without a word about `clap`; `command_of` gives exactly that. A
//! list with a word that is empty, or that has a character other than a to z and 0 to 9, is no command before `clap` is
//! asked: so no word is a flag.
//!
//! `ertime` is the whole program; its contract says what each status means. Its commands stand in `running` and
//! `racing`, which `reading` gives a scenario, and in `living` and `stressing`. What `run` writes is told by the function
//! of `ert_ops`, what `race` writes by an outcome (`races`, `specs/Runs`, `specs/Races`); what is refused is told
//! apart (`specs/RefusedInputs`). It stands on `ert_scenario`, which reads,
//! `ert_script`, which runs the ops on a world, `ert_service`, on which threads run lists of them, `ert_io`, and
//! `ert_table`, whose desk it returns. Where it refuses its input it returns the bytes and their refusal, which
//! `ert_explain` explains.
//!
//! `stress` runs a scenario that `generate` makes from a number, the same each time. `specs/Generated` defines the
//! scenario of each seed as a function that computes: the draws of a linear congruential generator (`specs/Draws`),
//! and the op that each draw chooses (`specs/Steps`). A generated scenario keeps the ranges that one read from bytes
//! keeps (`generated_scenarios_are_valid`).
//!
//! The crate `ert_cli` hands it the command line and the standard streams of the machine.
//!
//! **One line of input, from the bytes to the end.** Take the scenario `examples/ertime/frozen_clock.json`, and its
//! third op, `["tick",2000000000,1767222000000000000]`: the OS system clock has leapt back by an hour.
//!
//! 1. **The bytes.** `main` (`crates/ert_cli/src/main.rt`) hands the words of the command line, standard input and
//!    standard output to `ertime` (`crates/ert_program/src/program.rt`). The input is a `StdSource`, a type of `ert_io`
//!    that counts the reads that fail; for the proofs it also logs what they gave. `read_all`
//!    (`crates/ert_io/src/reading.rt`) asks it for pieces of 64 KiB until it ends, and gives a vector of bytes.
//! 2. **The value.** `read_scenario` (`crates/ert_scenario/src/scenario.rt`) first tries the quick way (`quick.rt`):
//!    one pass over the tokens of the text, which reads each op into a buffer of values that is used again for the
//!    next. If anything is unusual, a fault above all, it gives nothing, and `serde_json` reads the bytes into a value
//!    (`read_slowly`), over whose lists `scan` goes once (`scanning.rt`, `walk.rt`). Either way `op_of` or `op_from`
//!    (`rows.rt`) finds the row of its name, `tick`, whose arguments are two integers that make a valid reading. The
//!    definition has the same rows (`specs/Rows.antt`), so a row of the code is proved by looking at it.
//! 3. **The op.** Now it is `Op::Tick { mono: 2000000000, sys: 1767222000000000000 }`, in a vector of ops beside the
//!    settings: a `Scenario`.
//! 4. **The world.** `run` (`crates/ert_program/src/running.rt`) opens a `World` (`crates/ert_world/src/world.rt`) for
//!    the settings: a desk of atomic words (`crates/ert_table`), the pass that holds every actor, and every part: the
//!    clock's (`crates/ert_table/src/keeper.rt`), and those of wheels, inboxes, mailboxes and schedulers. It hands the
//!    world with the ops and the output to `run_ops` (`crates/ert_script/src/run.rt`), which does one op after the
//!    other. What it has done so far is a script run (`crates/ert_ops/specs/Scripts.antt`): a legal history, the
//!    replies, and the labels that starts have bound.
//! 5. **The clock.** `reply_op` (`reply.rt`) hands the op to `do_op` (`doing.rt`), which does the ops of a caller for
//!    whoever makes its calls (`Doer`). Here that is a world: it calls `World::tick`, that `KeeperPart::tick`
//!    (`crates/ert_table/src/keeper.rt`) for caller 0, and that first `Clock::tick` (`crates/ert_clock/src/clock.rt`).
//!    The clock's time is 1000000000 and its offset 1767225600000000000, so OS system time less the offset is
//!    -3600000000000, an hour ago: the time stays. The clock's contract says that it then stands for the history with
//!    one entry more: `Tick` by Keeper with Caller 0, with this reading and the time 1000000000. By the model
//!    (`crates/ert_defs/specs/Legal.antt`, `CanTick`) that is the only time with which the entry is legal.
//! 6. **The word.** The clock has answered, so nothing can be refused any more. `Pass::store_time`
//!    (`crates/ert_table/src/clock_steps.rt`) stores the time word, the nanoseconds since the start, 1000000000: one
//!    atomic step, and that very entry in the desk's history. No shift is due, so the offset word stays. The pass holds
//!    every actor, so no other entry came between: its front, the whole history, has grown by just this one
//!    (`World::tick`, clause `call`).
//! 7. **The reply.** It is `Reply::Tick { now: 1000000000, shift: None }`. `put` (`crates/ert_script/src/output.rt`)
//!    appends its line, `tick 1000000000` (`line.rt`), to a page, and writes a page out when it has 64 KiB.
//! 8. **The end.** After the last op the page is written out by `write_all` (`crates/ert_io/src/writing.rt`) to a
//!    `StdSink`, and then the line `end 2000000000`. `World::into_desk` gives out the desk and the pass. `ertime`
//!    answers Done and returns both, and its contract says what that means: all of the input was read, it is a
//!    scenario, what was written is its transcript, a function of its settings and ops, and the history of the pass is
//!    that of a script run that has this text. `Desk::close` returns its words, as they are after the last line.
//!
//! **`live N`.** `live` (`ert_program`, `living.rt`) → `OsClock::read` (`ert_io`) N times: the first reading opens a
//! `World`, each later one is a tick → after each, `monotonic_time` and `system_time` make a line, and all lines are
//! written at the end.
//!
//! **`stress SEED N`.** `stress` (`stressing.rt`) → `generate` (`generation.rt`) draws the ops from the seed → `do_ops`
//! (`ert_script`) does them on a `World` and writes nothing → `World::counts` → `write_settled` and the end line.
//!
//! **Choices.**
//!
//! - **The program returns its desk instead of its words**, since closing a desk takes memory.
//! - **`run` says which text it writes**, as the plain service prints it: a function that computes and is unique by its
//!   form, and 300 lines less of definitions to believe than a script run of calls. That a script run has that text is
//!   a law, and the clause on the desk names the script run with its legal history, as `race` names an outcome. After
//!   a failed write a first part of that very text stands.
//! - **The program's contract has one record a command.**
//! - **`live` writes its lines at the end**, all at once; they are below 64 KiB.
//! - **`clap` is told no help flag and no help subcommand**; `command_of` takes an allocator, since `clap` allocates.
//! - **A command line with a word that is not UTF-8** is read as one without words.
//! - **What `ertime` does is a library, `ert_program`**, and `ert_cli` a `main` over it, so that its tests need not
//!   prove it twice.
//! - **Why input was refused is told on standard error**, by reading the input once more; standard output and statuses
//!   are for scripts.
//! - **The explanation of a refusal isn't part of `ertime`.** It returns the bytes with their refusal, and `main` hands
//!   them to `explain`. So a reader of what `run` writes needs no definition of a message, and the message has a
//!   contract of its own.
//! - **The desk has clauses of its own**, beside those of the text: the same plan, history and text, told once more of
//!   what is returned. A reader of the text alone needs no pass.
#![tactic(auto)]

mod command;
mod command_line;
mod ending;
mod generation;
mod generator;
mod in_memory;
mod laws;
mod living;
mod parser;
mod program;
mod races;
mod racing;
mod reading;
mod refusal;
mod running;
mod stressing;

pub use ending::{EndStatus, Ended, Refusal};
pub use generation::generate;
pub use in_memory::run_in_memory;
pub use laws::{first_draws, generated_scenarios_are_valid};
pub use program::ertime;
pub use races::{
    FreeGate, Gate, LedgerGate, ListDone, RaceEnd, a_contest_has_an_outcome, lists_are_done_whole,
    race_on, races_have_outcomes, run_race,
};
pub use running::run;
