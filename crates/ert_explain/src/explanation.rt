//! Why bytes are no scenario.
ghost use Rattle.std.specs.Prelude.{◌≡◌, ◌≢◌, Bool, IfOk};
ghost use Rattle.serde_json.specs.View.{view};
ghost use Rattle.ert_scenario.specs.{Scenarios.HasRefusal, declared.scenario.ScenarioErr.TheVariants.Json};
ghost use Rattle.ert_explain.specs.{Explained.{IsExplained, IsExplainedBy, IsCauseIn, IsShapeCause, IsRangeCauseAt, IsRangeCause, IsLabelCause, of_shape, of_range, shape_cause, argument_out, is_one, part_at}, FieldRanges.fields_range};
ghost use Rattle.ert_explain.specs.{FieldShapes.fields_shape};

use crate::cause::Cause;
use crate::excess::excess_of;
use crate::field::Field;
use crate::field_range::{counts_of, fields_range, number_at};
use crate::field_shape::fields_shape;
use crate::find::find;
use crate::json_stop::json_stop;
use crate::labels::earlier_start;
use crate::near::{Near, nearest};
use crate::op_range::{OutOfRange, op_range};
use crate::op_shape::op_shape;
use crate::own_text::is_own_text;
use crate::place::op_at;
use crate::position::{Position, position_at};
use ert_defs::NoMemory;
use ert_scenario::ScenarioErr;
use serde_json::Value;
use std::alloc::Global;

/// Why bytes are no scenario.
#[derive(Clone, Copy)]
pub struct Explanation {
    /// The refusal that is explained, with its place.
    pub refusal: ScenarioErr,
    /// What is wrong there.
    pub cause: Cause,
    /// Where that stands in the bytes.
    pub position: Position,
    /// The length in bytes of the text there, which is the value or the name that is wrong: of an array or an object
    /// its opening bracket or brace; 0 where none is to be shown.
    pub length: usize,
    /// The nearest known name, where a name is unknown and one is near.
    pub near: Option<Near>,
}

/// The explanation of a refusal of bytes, of a scenario with a race where one is wanted. It fails only when memory runs
/// out.
pub fn explanation_of(
    alloc: Global,
    bytes: &[u8],
    race: bool,
    refusal: &ScenarioErr,
) -> Result<Explanation, NoMemory>
    requires { HasRefusal race bytes.now refusal.now }
    ensures { IfOk result (λ e. IsExplained race bytes.now refusal.now e) }
{
    match *refusal {
        ScenarioErr::Json => Ok(json_explanation(alloc, bytes)),
        other => explain_value(alloc, bytes, race, other),
    }
}

/// The same of bytes that are JSON.
#[tactic(auto, using(crate::proofs::Explaining::explained))]
fn explain_value(
    alloc: Global,
    bytes: &[u8],
    race: bool,
    refusal: ScenarioErr,
) -> Result<Explanation, NoMemory>
    requires { refusal ≢ Json }
    ensures { IfOk result (λ e. IsExplained race bytes.now refusal e) }
{
    match Value::from_slice(alloc, bytes) {
        Ok(value) => Ok(value_explanation(alloc, bytes, race, refusal, &value)),
        Err(_) => Err(NoMemory),
    }
}

/// Where bytes stop being JSON.
fn json_explanation(alloc: Global, bytes: &[u8]) -> Explanation
    ensures { (race : Bool) → IsExplained race bytes.now Json result }
{
    let (offset, expected) = json_stop(alloc, bytes);
    Explanation {
        refusal: ScenarioErr::Json,
        cause: Cause::Json(expected),
        position: position_at(bytes, offset),
        length: 0,
        near: None,
    }
}

/// The explanation of the refusal of a value.
fn value_explanation(
    alloc: Global,
    bytes: &[u8],
    race: bool,
    refusal: ScenarioErr,
    value: &Value,
) -> Explanation
    requires { refusal ≢ Json }
    ensures { IsExplainedBy race (view value.now) bytes.now refusal result }
{
    let cause = cause_of(value, race, refusal);
    let piece = find(alloc, bytes, value, race, refusal, cause);
    let position = position_at(bytes, piece.start);
    let length = piece.end.saturating_sub(piece.start);
    let part = part_at(bytes, position.offset, length);
    let told = Explanation {
        refusal,
        cause,
        position,
        length,
        near: nearest(alloc, part, cause),
    };
    if is_own_text(alloc, part, value, race, refusal, cause) {
        return told;
    }
    Explanation {
        length: 0,
        near: None,
        ..told
    }
}

/// What is wrong with a value that has this refusal.
fn cause_of(value: &Value, race: bool, refusal: ScenarioErr) -> Cause
    requires { refusal ≢ Json }
    ensures { IsCauseIn race (view value.now) refusal result }
{
    match refusal {
        ScenarioErr::Shape(place) => shape_cause_at(value, race, place),
        ScenarioErr::Range(place) => range_cause_at(value, race, place),
        ScenarioErr::Limit(_) => Cause::Excess(excess_of(value, race)),
        ScenarioErr::NoMemory => Cause::Other,
        ScenarioErr::Json => unreachable!(),
    }
}

/// What is wrong with the shape at a place.
fn shape_cause_at(value: &Value, race: bool, place: u32) -> Cause
    ensures { IsShapeCause race (view value.now) place result }
{
    if place == 0 {
        fields_cause(value, race)
    } else {
        shape_cause(value, race, place as usize - 1)
    }
}

/// What is wrong with the shape of the fields.
fn fields_cause(value: &Value, race: bool) -> Cause
    ensures { result ≡ of_shape (fields_shape race (view value.now)) }
{
    match fields_shape(value, race) {
        Some(shape) => Cause::Fields(shape),
        None => Cause::Other,
    }
}

/// What is wrong with the range at a place.
fn range_cause_at(value: &Value, race: bool, place: u32) -> Cause
    ensures { IsRangeCauseAt race (view value.now) place result }
{
    if place == 0 {
        fields_range_cause(value, race)
    } else {
        range_cause(value, race, place as usize - 1)
    }
}

/// What is wrong with the range of the fields.
fn fields_range_cause(value: &Value, race: bool) -> Cause
    ensures { result ≡ of_range (fields_range race (view value.now)) }
{
    match fields_range(value, race) {
        Some(range) => Cause::FieldRange(range),
        None => Cause::Other,
    }
}

/// What is wrong with the shape of the op of this number, from 0.
fn shape_cause(value: &Value, race: bool, number: usize) -> Cause
    ensures { result ≡ shape_cause race (view value.now) number }
{
    match op_at(value, race, number) {
        Some(op) => Cause::Op(op_shape(is_one(value), op.list, op.value)),
        None => Cause::Other,
    }
}

/// What is wrong with the range of the op of this number, from 0.
fn range_cause(value: &Value, race: bool, number: usize) -> Cause
    ensures { IsRangeCause race (view value.now) number result }
{
    match argument_out(value, race, number) {
        Some(out) => Cause::Argument(out),
        None => label_cause(value, race, number),
    }
}

/// The first argument of the op of this number that is out of its range.
fn argument_out(value: &Value, race: bool, number: usize) -> Option<OutOfRange>
    ensures { result ≡ argument_out race (view value.now) number }
{
    let op = op_at(value, race, number)?;
    op_range(is_one(value), counts_of(value), op.value)
}

/// The start that has taken the label of the start of this number.
fn label_cause(value: &Value, race: bool, number: usize) -> Cause
    ensures { IsLabelCause race (view value.now) number result }
{
    match earlier_start(value, race, number) {
        Some(place) => Cause::Label(place),
        None => Cause::Other,
    }
}

/// Whether the format is 1.
fn is_one(value: &Value) -> bool
    ensures { result ≡ is_one (view value.now) }
{
    number_at(value, Field::Format, 0) == 1
}

/// So many bytes from an offset on; fewer where the bytes end before.
pub(crate) fn part_at(bytes: &[u8], offset: usize, length: usize) -> &[u8]
    ensures { result.now ≡ part_at bytes.now offset length }
{
    let (_, rest) = bytes.split_at(offset.min(bytes.len()));
    let (part, _) = rest.split_at(length.min(rest.len()));
    part
}
