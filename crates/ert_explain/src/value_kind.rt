//! Which kind of value an argument has.
ghost use Rattle.std.specs.Prelude.{◌≡◌, option_map};
ghost use Rattle.serde_json.specs.View.{view};
ghost use Rattle.ert_explain.specs.Kinds.{is_wrong, no_integer, no_natural, no_boolean, no_origin, no_unit, is_unit_name};

use crate::param::Param;
use serde_json::Value;

/// Whether a value isn't of the kind that the argument asks for, whatever its range.
pub(crate) fn is_wrong(param: Param, value: &Value) -> bool
    ensures { result ≡ is_wrong param (view value.now) }
{
    match param {
        Param::Mono | Param::Sys | Param::Time => no_integer(value),
        Param::Label | Param::Scheduler | Param::Process | Param::Monitor => no_integer(value),
        Param::Milliseconds => no_integer(value),
        Param::From | Param::To => no_unit(value),
        Param::Origin => no_origin(value),
        Param::Message => no_natural(value),
        Param::Told => no_boolean(value),
    }
}

/// Whether it is no integer of 64 bits with sign.
#[tactic(auto, unfolding(crate::specs::Kinds::no_integer))]
pub(crate) fn no_integer(value: &Value) -> bool
    ensures { result ≡ no_integer (view value.now) }
{
    value.as_i64().is_none()
}

/// Whether it is no integer from 0 to below 2^64.
#[tactic(auto, unfolding(crate::specs::Kinds::no_natural))]
fn no_natural(value: &Value) -> bool
    ensures { result ≡ no_natural (view value.now) }
{
    value.as_u64().is_none()
}

/// Whether it is neither `true` nor `false`.
#[tactic(auto, unfolding(crate::specs::Kinds::no_boolean))]
pub(crate) fn no_boolean(value: &Value) -> bool
    ensures { result ≡ no_boolean (view value.now) }
{
    value.as_bool().is_none()
}

/// Whether it is neither `"rel"` nor `"abs"`.
#[tactic(auto, unfolding(crate::specs::Kinds::no_origin))]
fn no_origin(value: &Value) -> bool
    ensures { result ≡ no_origin (view value.now) }
{
    match value.as_str() {
        Some(name) => !matches!(name, "rel" | "abs"),
        None => true,
    }
}

/// Whether it is neither the name of a unit nor a natural.
#[tactic(auto, unfolding(crate::specs::Kinds::no_unit))]
fn no_unit(value: &Value) -> bool
    ensures { result ≡ no_unit (view value.now) }
{
    match value.as_str() {
        Some(name) => !is_unit_name(name),
        None => no_natural(value),
    }
}

/// Whether it is the name of a unit.
fn is_unit_name(name: &str) -> bool
    ensures { result ≡ is_unit_name name.now }
{
    matches!(
        name,
        "second" | "millisecond" | "microsecond" | "nanosecond" | "native"
    )
}
