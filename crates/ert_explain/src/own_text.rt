//! Whether bytes are the text of what a refusal is about.
ghost use Rattle.std.specs.Prelude.{◌≡◌, Some, IsTrue, option_map};
ghost use Rattle.serde_json.specs.View.{view, number_view};
ghost use Rattle.ert_explain.specs.OwnTexts.{is_trimmed, IsSameNumber, IsSameScalar, IsScalarText, IsTextOf, is_known, IsOtherName, IsTextOfOther, IsTextOfName, IsOwnText};

use crate::cause::Cause;
use crate::field_shape::FieldShape;
use crate::refused::refused_value;
use ert_scenario::{ScenarioErr, is_field, is_race_field};
use serde_json::{Number, Value};
use std::alloc::Global;

/// Whether a part of the input is the text of the value or of the name that a cause is about. Where memory runs out, it
/// is taken for none.
pub(crate) fn is_own_text(
    alloc: Global,
    part: &[u8],
    value: &Value,
    race: bool,
    refusal: ScenarioErr,
    cause: Cause,
) -> bool
    ensures { IsTrue result → IsOwnText race (view value.now) refusal cause part.now }
{
    is_bare(part)
        && match refused_value(value, race, refusal, cause) {
            Some(refused) => is_text_of(alloc, part, refused),
            None => is_text_of_name(alloc, part, value, cause),
        }
}

/// Whether there are bytes, of which neither the first nor the last is a blank.
fn is_bare(part: &[u8]) -> bool
    ensures { result ≡ is_trimmed part.now }
{
    !part.is_empty() && part[0] > b' ' && part[part.len() - 1] > b' '
}

/// Whether bytes are the text of this value, or open it where it is an array or an object.
fn is_text_of(alloc: Global, part: &[u8], value: &Value) -> bool
    ensures { IsTrue result → IsTextOf part.now (Some (view value.now)) }
{
    match value {
        Value::Array(_) => part == b"[".as_slice(),
        Value::Object(_) => part == b"{".as_slice(),
        _ => is_scalar_text(alloc, part, value),
    }
}

/// The same of a value that is neither.
fn is_scalar_text(alloc: Global, part: &[u8], value: &Value) -> bool
    ensures { IsTrue result → IsScalarText part.now (view value.now) }
{
    match Value::from_slice(alloc, part) {
        Ok(read) => is_same(&read, value),
        Err(_) => false,
    }
}

/// Whether two values that are neither arrays nor objects are the same.
fn is_same(read: &Value, value: &Value) -> bool
    ensures { IsTrue result → IsSameScalar (view read.now) (view value.now) }
{
    match (read, value) {
        (Value::Null, Value::Null) => true,
        (Value::Bool(b), Value::Bool(c)) => *b == *c,
        (Value::Number(m), Value::Number(n)) => is_same_number(m, n),
        (Value::String(s), Value::String(t)) => s.as_str() == t.as_str(),
        _ => false,
    }
}

/// Whether two numbers are the same.
fn is_same_number(m: &Number, n: &Number) -> bool
    ensures { IsTrue result → IsSameNumber (number_view m.now) (number_view n.now) }
{
    match (m.as_f64(), n.as_f64()) {
        (Some(x), Some(y)) => m.as_i128() == n.as_i128() && x == y,
        _ => false,
    }
}

/// Whether bytes are the text of the name that a cause is about.
fn is_text_of_name(alloc: Global, part: &[u8], value: &Value, cause: Cause) -> bool
    ensures { IsTrue result → IsTextOfName (view value.now) cause part.now }
{
    match cause {
        Cause::Fields(FieldShape::OtherField) => is_text_of_other(alloc, part, Some(value), false),
        Cause::Fields(FieldShape::OtherRaceField) => {
            is_text_of_other(alloc, part, value.get("race"), true)
        }
        _ => false,
    }
}

/// Whether bytes are the text of the name of a member that is no field of a scenario, or of a race.
fn is_text_of_other(alloc: Global, part: &[u8], holder: Option<&Value>, of_race: bool) -> bool
    ensures { IsTrue result → IsTextOfOther of_race (option_map (λ v. view v.now) holder.entry) part.now }
{
    match Value::from_slice(alloc, part) {
        Ok(Value::String(name)) => is_other_name(holder, name.as_str(), of_race),
        _ => false,
    }
}

/// Whether there is an object that has a member of this name, and no field of a scenario, or of a race, has it.
fn is_other_name(holder: Option<&Value>, name: &str, of_race: bool) -> bool
    ensures { IsTrue result → IsOtherName of_race (option_map (λ v. view v.now) holder.entry) name.now }
{
    match holder {
        Some(object) => object.get(name).is_some() && !is_known(name, of_race),
        None => false,
    }
}

/// Whether it is the name of a field of a scenario, or of a race.
pub(crate) fn is_known(name: &str, of_race: bool) -> bool
    ensures { result ≡ is_known of_race name.now }
{
    if of_race {
        is_race_field(name)
    } else {
        is_field(name, true)
    }
}
