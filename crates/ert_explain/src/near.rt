//! The known name that is nearest to an unknown one.

use crate::cause::Cause;
use crate::field::Field;
use crate::field_shape::FieldShape;
use crate::op_name::OpName;
use crate::op_shape::OpShape;
use serde_json::Value;
use std::alloc::Global;
use strsim::osa_distance;

/// So many edits lead at most from a name to one that is near.
const MOST_EDITS: usize = 2;

/// A known name.
#[derive(Clone, Copy)]
pub enum Near {
    /// That of an op.
    Op(OpName),
    /// That of a field.
    Field(Field),
}

const OPS: [OpName; 25] = [
    OpName::Tick,
    OpName::Check,
    OpName::Finalize,
    OpName::Notify,
    OpName::Serve,
    OpName::Advance,
    OpName::Deliver,
    OpName::Turn,
    OpName::Time,
    OpName::System,
    OpName::Offset,
    OpName::Info,
    OpName::Convert,
    OpName::Receive,
    OpName::Exit,
    OpName::Alive,
    OpName::Monitor,
    OpName::Demonitor,
    OpName::Start,
    OpName::Cancel,
    OpName::Read,
    OpName::CancelAsync,
    OpName::ReadAsync,
    OpName::SendAfter,
    OpName::CancelQuiet,
];

const FIELDS: [Field; 10] = [
    Field::Format,
    Field::Mode,
    Field::Correction,
    Field::Start,
    Field::Schedulers,
    Field::Processes,
    Field::Slots,
    Field::First,
    Field::Ops,
    Field::Race,
];

const RACE_FIELDS: [Field; 3] = [Field::Turns, Field::Keeper, Field::Callers];

/// The known name that is nearest to the one in quotes, where that is unknown and one is near.
pub(crate) fn nearest(alloc: Global, quoted: &[u8], cause: Cause) -> Option<Near> {
    match cause {
        Cause::Op(OpShape::Unknown) => nearest_op(alloc, quoted),
        Cause::Fields(FieldShape::OtherField) => nearest_field(alloc, quoted, &FIELDS),
        Cause::Fields(FieldShape::OtherRaceField) => nearest_field(alloc, quoted, &RACE_FIELDS),
        _ => None,
    }
}

fn nearest_op(alloc: Global, quoted: &[u8]) -> Option<Near> {
    let mut best = None;
    let mut most = MOST_EDITS;
    for op in OPS {
        if let Some(edits) = edits_to(alloc, quoted, op.word(), most) {
            best = Some(Near::Op(op));
            most = edits.saturating_sub(1);
        }
    }
    best
}

fn nearest_field(alloc: Global, quoted: &[u8], fields: &[Field]) -> Option<Near> {
    let mut best = None;
    let mut most = MOST_EDITS;
    for field in fields {
        if let Some(edits) = edits_to(alloc, quoted, field.name(), most) {
            best = Some(Near::Field(*field));
            most = edits.saturating_sub(1);
        }
    }
    best
}

/// How many edits lead from a name in quotes to a known one, where there are at most so many, and fewer than half
/// as many as the known one has letters.
fn edits_to(alloc: Global, quoted: &[u8], known: &str, most: usize) -> Option<usize> {
    let Ok(Value::String(name)) = Value::from_slice(alloc, quoted) else {
        return None;
    };
    let edits = osa_distance(alloc, name.as_str(), known).ok()?;
    if edits <= most && edits < known.len() / 2 {
        Some(edits)
    } else {
        None
    }
}
