//! The types of the clock and timer service, and (in `specs/`) the model that they are judged by: one
//! list of entries, the state after it, and what makes it legal. What is done with the monitors of a process stands here too,
//! for the service and the auditor. It stands on nothing.
//!
//! An entry is one atomic step on the service, made by one or two actors. `docs/MODEL.md` has the
//! definitions in words. The laws of the model are the contracts of functions that do nothing. Those that the
//! proofs of the service rest on stand here: what a legal history is made of, locality, and how the statuses of
//! timers move. The others stand in `ert_laws`, which also judges the worked histories of `specs/Worked`.
//!
//! **Choices.**
//!
//! - **The state is a record of total functions**, each part changed only under a test that the entry has the part's
//!   actor: so "depends on the entries of its actor alone" is one short lemma a part.
//! - **Legal is a type by recursion with the state**, with three parts for each entry: in range, what the maker must
//!   know, what the step finds.
//! - **Rows are the records of expired timers too**, so that no look-up stands between an expiry and its delivery.
//! - **What a Pick or a Take got needs no range of its own**: it was in range when it was put.
//! - **A generation has a range only at Arm**, so a caller may ask about any reference that it was handed.
//! - **A wheel has at most 2^53 timers**: so great that it is no limit, and small enough that sums over 1,024 wheels
//!   fit 64 bits.
//! - **A scheduler's Probe looks only at its own wheel.** Look, Off, Peek, Cancel and Mark may be made by any
//!   scheduler.
//! - **An answer rests on the scheduler's last Peek or Cancel** of the same reference since the Pick.
//! - **Milliseconds, roundings and deadlines are defined once, in `ert_defs`**: in a fast form for times that a clock
//!   shows, and a total one for any time of a written history.
//! - **The entry of each event is made by one definition** (`ert_defs`, `Entries`).
//! - **A monitor is one type, of the model and of the code**, and what is done with a list of them stands in
//!   `ert_defs`, since the service and the auditor both keep such lists.
#![tactic(auto)]

mod entry;
mod laws;
mod mail;
mod memory;
pub mod milliseconds;
mod monitors;
mod settings;
mod timer;

pub use entry::{Act, Actor, Entry, Event};
pub use laws::{entries_are_local, limits_are_fixed, prefixes_are_legal, timers_settle_once};
pub use mail::{Mail, Monitor, Request, RequestKind};
pub use memory::NoMemory;
pub use monitors::{has_monitor, notify_monitors, remove_monitor};
pub use settings::{
    MOST_CALLERS, MOST_CHAINS, MOST_PROCESSES, MOST_SCHEDULERS, MOST_SLOTS, MOST_SLOTS_IN_ALL,
    Mode, OffsetState, Reading, SCENARIO_LOOKS, Settings, SettingsFault,
};
pub use timer::{
    FIRST_LATER_GENERATION, Kind, Start, Status, TimerRef, TimerRow, USES_OF_ROUND, When, use_of,
};
