//! What is wrong with the shape of the fields of a scenario.
ghost use Rattle.std.specs.Prelude.{◌≡◌, map};
ghost use Rattle.serde_json.specs.View.{view};
ghost use Rattle.ert_explain.specs.FieldShapes.{field_shape, names_shape, plain_shape, given_shape, fields_shape, race_names_shape, race_shape, in_race_shape, caller_from};

use crate::field::Field;
use crate::place::items_of;
use ert_scenario::{are_fields, are_race_fields};
use serde_json::Value;

/// What is wrong with the shape of the fields: the first of these that is, and of the fields the first in the order
/// of `Field`.
#[derive(Clone, Copy)]
pub enum FieldShape {
    /// The input is no object.
    NoObject,
    /// A member has the name of no field.
    OtherField,
    /// There is a field `race`, and no race is wanted.
    RaceGiven,
    /// A field that is needed isn't there.
    Missing(Field),
    /// The value of a field isn't of its kind.
    Kind(Field),
    /// In the object of the field `race` a member has the name of no field of a race.
    OtherRaceField,
    /// The list of the caller with this number, from 1, is no array.
    Caller(usize),
}

/// What is wrong with the shape of the fields, if anything is.
pub(crate) fn fields_shape(value: &Value, race: bool) -> Option<FieldShape>
    ensures { result ≡ fields_shape race (view value.now) }
{
    names_shape(value)
        .or(given_shape(value, race))
        .or(plain_shape(value))
        .or(race_shape(value, race))
}

/// An object has the names of fields alone.
#[tactic(auto, using(ert_scenario::proofs::Members::are_named_view), unfolding(crate::specs::FieldShapes::names_shape))]
fn names_shape(value: &Value) -> Option<FieldShape>
    ensures { result ≡ names_shape (view value.now) }
{
    match value.as_object() {
        Some(members) if are_fields(members, true) => None,
        Some(_) => Some(FieldShape::OtherField),
        None => Some(FieldShape::NoObject),
    }
}

/// A race stands there only where one is wanted.
#[tactic(auto, unfolding(crate::specs::FieldShapes::given_shape))]
fn given_shape(value: &Value, race: bool) -> Option<FieldShape>
    ensures { result ≡ given_shape race (view value.now) }
{
    match value.get("race") {
        Some(_) if !race => Some(FieldShape::RaceGiven),
        _ => None,
    }
}

/// The fields but for the race.
#[tactic(auto, unfolding(crate::specs::FieldShapes::plain_shape))]
fn plain_shape(value: &Value) -> Option<FieldShape>
    ensures { result ≡ plain_shape (view value.now) }
{
    field_shape(value, Field::Format)
        .or(field_shape(value, Field::Mode))
        .or(field_shape(value, Field::Correction))
        .or(field_shape(value, Field::Start))
        .or(field_shape(value, Field::Schedulers))
        .or(field_shape(value, Field::Processes))
        .or(field_shape(value, Field::Slots))
        .or(field_shape(value, Field::First))
        .or(field_shape(value, Field::Ops))
}

/// One field of an object.
#[tactic(auto, unfolding(crate::specs::FieldShapes::field_shape))]
fn field_shape(value: &Value, field: Field) -> Option<FieldShape>
    ensures { result ≡ field_shape field (view value.now) }
{
    match value.get(field.name()) {
        Some(it) if field.is_wrong_value(it) => Some(FieldShape::Kind(field)),
        None if field.is_needed() => Some(FieldShape::Missing(field)),
        _ => None,
    }
}

/// The field of the race, where one is wanted.
#[tactic(auto, unfolding(crate::specs::FieldShapes::race_shape))]
fn race_shape(value: &Value, race: bool) -> Option<FieldShape>
    ensures { result ≡ race_shape race (view value.now) }
{
    if !race {
        return None;
    }
    match value.get("race") {
        Some(it) => field_shape(value, Field::Race).or(in_race_shape(it)),
        None => Some(FieldShape::Missing(Field::Race)),
    }
}

/// The fields of a race.
#[tactic(auto, unfolding(crate::specs::FieldShapes::in_race_shape))]
fn in_race_shape(race: &Value) -> Option<FieldShape>
    ensures { result ≡ in_race_shape (view race.now) }
{
    race_names_shape(race)
        .or(field_shape(race, Field::Turns))
        .or(field_shape(race, Field::Keeper))
        .or(field_shape(race, Field::Callers))
        .or(caller_shape(items_of(race.get("callers"))))
}

/// An object has the names of fields of a race alone.
#[tactic(auto, using(ert_scenario::proofs::Members::are_named_view), unfolding(crate::specs::FieldShapes::race_names_shape))]
fn race_names_shape(race: &Value) -> Option<FieldShape>
    ensures { result ≡ race_names_shape (view race.now) }
{
    match race.as_object() {
        Some(members) if !are_race_fields(members) => Some(FieldShape::OtherRaceField),
        _ => None,
    }
}

/// The lists of callers are arrays.
fn caller_shape(lists: &[Value]) -> Option<FieldShape>
    ensures { result ≡ caller_from 0 (map view lists.now) }
{
    for (caller, list) in lists.iter().enumerate() {
        if list.as_array().is_none() {
            return Some(FieldShape::Caller(caller + 1));
        }
    }
    None
}
