//! Reads a scenario, which is what a service is opened with and the list of ops that are run on it, from
//! bytes of JSON, in format 1 or 2; and, where one is wanted, with the lists of ops of a race, which several
//! threads do after that.
//!
//! It stands on `serde_json`, which reads the bytes, on `ert_defs`, which has the settings and the test of
//! a reading, and on `ert_ops`, which has the ops and the units of time.
//! `specs/Scenarios` says which bytes are a scenario and which refusal other bytes have, as a function of
//! the JSON value: of the fields (`specs/Fields`), of a row for each op (`specs/Rows`), of the kinds of
//! their values (`specs/Kinds`, `specs/Units`), of the lists of ops (`specs/Lists`), and of the ranges of their
//! numbers and the labels of earlier starts (`specs/Ranges`, `specs/Labels`). The code is made of the same parts. The rows stand in groups: the
//! ops of a group may stand in the same lists, and one group is those in which the formats differ. A new op is
//! a variant of `Op`, a row, a function that reads its arguments, and a line of the ranges.
//!
//! Reading goes in two steps, each in time proportional to the ops. The walk finds what each value is, and the
//! first fault of shape; then the ops are tested for their ranges, with a flag for each label. The walk keeps
//! the ops of all lists one after the other, in the order of their places; those of a race are cut out of them
//! at the end.
//!
//! A scenario without a race that has no fault, and is written as programs write it, is read in one pass over
//! the tokens of its text, with no value (`quick`), by the same functions for an op's arguments, the fields, the
//! ranges and the labels. Wherever anything is unusual, that pass gives nothing; then the value is read, and
//! the two steps alone tell faults.
//!
//! All bytes have one answer, and `read_scenario` gives it, unless memory runs out. A fault is told with
//! the least place that has it. `migrate` makes a value of format 1 one of format 2 that is the same scenario.
//!
//! **Choices.**
//!
//! - **A refusal names the least place**: not JSON, then a shape fault, a range fault, a limit, so the answer depends
//!   on the bytes alone.
//! - **A place is a 32-bit number**; a count that would not fit is answered by out of memory.
//! - **`-0` and numbers beyond 64 bits are no integers**, since the JSON reader gives floats for them.
//! - **A value that a later equal key overrides is not checked**, but has to be JSON.
//! - **A count, label, process, scheduler or monitor that does not fit 32 bits is a range fault**; an integer that does
//!   not fit 64 bits a shape fault.
//! - **Fields that would refuse settings are range faults at place 0**, whichever came first.
//! - **The labels that starts have taken are a flag for each of the 1,000,000 labels**, so an op is tested in constant
//!   time.
//! - **A scenario of format 1 is read by the rows of format 1** and not migrated first; a law says that its migrated
//!   value is the same scenario.
//! - **`migrate` leaves as it is a value that is no object**, and each field that should be a list and is not.
//! - **What a scenario's bytes mean is said by `serde_json`**, and the quick way reads them by `json`, over whose
//!   grammar that meaning is defined.
//! - **The fields of a race are in one object**, and who calls `read_scenario` says whether it wants a race.
//! - **The settings of a scenario are tested for one caller**, so too many lists are a limit.
//! - **The walk over the ops of all lists keeps one list of ops**; the lists of the race are cut out of it at the end.
//! - **What may stand in which list is a choice of groups of rows** (`ListDoer`, `groups_of`): a `tick` in a caller's list
//!   is unknown there.
//! - **Two ways of reading a scenario.** Reading by way of a JSON value is slow, but its grammar is what the statement
//!   on bytes rests on. The quick way reads tokens by the crate `json`; its contract is only what it gives, so it may
//!   give up anywhere; the way over the value of `serde_json` has the whole contract. Both use the same functions for
//!   an op's arguments, the fields, ranges and labels. The price: An op is added in one place, but what is unusual
//!   costs a second reading.
#![tactic(auto)]

mod cutting;
mod doer;
mod fault;
mod fields;
mod format;
mod kinds;
mod labels;
mod laws;
pub mod limits;
mod lists;
mod migration;
mod quick;
mod ranges;
mod rows;
mod scanning;
mod scenario;
mod units;
mod walk;

pub use ert_ops::Op;
pub use fields::{are_fields, are_race_fields, is_field, is_race_field};
pub use laws::{
    least_places, limits_are_fixed, migrated_is_the_same, one_verdict, races_are_accepted,
    range_faults_of_ops, scenarios_are_accepted, scenarios_are_valid, some_verdict,
};
pub use migration::migrate;
pub use scenario::{Scenario, ScenarioErr, read_scenario};
