//! Why bytes are no scenario, for a person: at which line and column, at which op, and what is wrong.
//!
//! `explain` writes the message that explains a refusal to a sink, and `message_on` gives it. The crate stands on
//! `ert_scenario`, which says which refusal bytes have, on `serde_json`, which reads them, on `strsim`, which finds the
//! nearest known name, and on `ert_io`.
//! `specs/Explained` says when an explanation is true of bytes: it is of the very refusal, its cause is what is wrong
//! with the value at that place (`specs/FieldShapes`, `specs/FieldRanges`, `specs/OpShapes`, `specs/OpRanges`,
//! `specs/Labels`, `specs/Excesses`), its position lies in the bytes (`specs/Positions`), and what it shows of them is
//! the text of the value or the name that the cause is about (`specs/Refused`, `specs/OwnTexts`), or nothing.
//! `specs/Messages` says which line tells an explanation.
//!
//! The value is read once more, and only for bytes that were refused. Where a value stands in the text is found by a
//! scanner over its pieces (`scanner`, `locate`), of which no clause speaks: a value has no places. So the piece that it
//! found is read by itself and compared with the value, and shown only if they are the same (`own_text`). The scanner
//! also finds where a text stops being JSON.
//!
//! **Choices.**
//!
//! - **What a refusal shows of the input is read again and compared.** A value of JSON has no places, so no clause
//!   could say that the scanner found the right bytes. Now they are read by themselves, and shown only if they are the
//!   refused value; of an array or an object the bracket or brace is enough, since no more than its kind is shown. A
//!   definition of JSON with places was the other way: it would pin the position too, and be a second grammar to read.
#![tactic(auto)]

mod cause;
mod excess;
mod expected;
mod explanation;
mod field;
mod field_range;
mod field_shape;
mod find;
mod json_stop;
mod labels;
mod locate;
mod message;
mod near;
mod op_name;
mod op_range;
mod op_shape;
mod own_text;
mod param;
mod place;
mod position;
mod refused;
mod scanner;
mod shown;
mod telling;
mod value_kind;
mod words;

pub use cause::Cause;
pub use excess::Excess;
pub use expected::Expected;
pub use explanation::Explanation;
pub use field::Field;
pub use field_range::FieldRange;
pub use field_shape::FieldShape;
pub use near::Near;
pub use op_name::OpName;
pub use op_range::{Limits, OutOfRange};
pub use op_shape::OpShape;
pub use param::{Param, Signature};
pub use place::ListName;
pub use position::Position;
pub use telling::{explain, message_on};
