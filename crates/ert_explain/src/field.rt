//! The fields of a scenario.
ghost use Rattle.std.specs.Prelude.{◌≡◌, map};
ghost use Rattle.serde_json.specs.View.{view};
ghost use Rattle.ert_explain.specs.FieldNames.{member_name, is_needed, is_wrong_value, is_no_reading, is_no_pair, no_array, no_object, no_mode};

use crate::value_kind::{no_boolean, no_integer};
use serde_json::Value;

/// A field of a scenario, or of the object in its field `race`.
#[derive(Clone, Copy)]
pub enum Field {
    Format,
    Mode,
    Correction,
    Start,
    Schedulers,
    Processes,
    Slots,
    First,
    Ops,
    Race,
    /// Of a race: how many turns each scheduler makes.
    Turns,
    /// Of a race: the list of the clock's thread.
    Keeper,
    /// Of a race: the lists of callers.
    Callers,
}

impl Field {
    /// The name of its member.
    #[tactic(auto, unfolding(crate::specs::FieldNames::member_name))]
    pub(crate) fn name(self) -> &'static str
        ensures { result.now ≡ member_name self }
    {
        match self {
            Field::Format => "format",
            Field::Mode => "mode",
            Field::Correction => "correction",
            Field::Start => "start",
            Field::Schedulers => "schedulers",
            Field::Processes => "processes",
            Field::Slots => "slots",
            Field::First => "first",
            Field::Ops => "ops",
            Field::Race => "race",
            Field::Turns => "turns",
            Field::Keeper => "keeper",
            Field::Callers => "callers",
        }
    }

    /// Whether it may not be absent.
    pub(crate) fn is_needed(self) -> bool
        ensures { result ≡ is_needed self }
    {
        match self {
            Field::Mode | Field::Correction | Field::Start => false,
            Field::Schedulers | Field::Processes | Field::Slots => false,
            _ => true,
        }
    }

    /// Whether a value isn't of its kind, whatever the range.
    pub(crate) fn is_wrong_value(self, value: &Value) -> bool
        ensures { result ≡ is_wrong_value self (view value.now) }
    {
        match self {
            Field::Format | Field::Start | Field::Turns => no_integer(value),
            Field::Schedulers | Field::Processes | Field::Slots => no_integer(value),
            Field::Mode => no_mode(value),
            Field::Correction => no_boolean(value),
            Field::First => is_no_reading(value),
            Field::Ops | Field::Keeper | Field::Callers => no_array(value),
            Field::Race => no_object(value),
        }
    }
}

/// Whether it is no array.
fn no_array(value: &Value) -> bool
    ensures { result ≡ no_array (view value.now) }
{
    value.as_array().is_none()
}

/// Whether it is no object.
fn no_object(value: &Value) -> bool
    ensures { result ≡ no_object (view value.now) }
{
    value.as_object().is_none()
}

/// Whether it is none of `"no"`, `"single"` and `"multi"`.
#[tactic(auto, unfolding(crate::specs::FieldNames::no_mode))]
fn no_mode(value: &Value) -> bool
    ensures { result ≡ no_mode (view value.now) }
{
    match value.as_str() {
        Some(name) => !matches!(name, "no" | "single" | "multi"),
        None => true,
    }
}

/// Whether it is no array of two integers.
#[tactic(auto, using(ert_scenario::proofs::Listed::list_of_items), unfolding(crate::specs::FieldNames::is_no_reading))]
fn is_no_reading(value: &Value) -> bool
    ensures { result ≡ is_no_reading (view value.now) }
{
    match value.as_array() {
        Some(items) => is_no_pair(items.as_slice()),
        None => true,
    }
}

/// Whether the items aren't two integers.
fn is_no_pair(items: &[Value]) -> bool
    ensures { result ≡ is_no_pair (map view items.now) }
{
    match items {
        [mono, sys] => no_integer(mono) || no_integer(sys),
        _ => true,
    }
}
