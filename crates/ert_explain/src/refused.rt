//! The value that a refusal is about.
ghost use Rattle.std.specs.Prelude.{◌≡◌, map, option_map, slice_get};
ghost use Rattle.serde_json.specs.View.{view};
ghost use Rattle.ert_scenario.specs.declared.scenario.ScenarioErr.TheVariants.{Shape};
ghost use Rattle.ert_explain.specs.Refused.{race_value, field_value, reading_index, shape_value, range_value, value_in_fields, arg_at, shape_item, value_in_items, items_of_op, refused_value};

use crate::cause::Cause;
use crate::field::Field;
use crate::field_range::FieldRange;
use crate::field_shape::FieldShape;
use crate::op_shape::OpShape;
use crate::param::Param;
use crate::place::{items_of, op_at};
use ert_scenario::ScenarioErr;
use serde_json::Value;

/// The value that a cause is about, where it is about one.
pub(crate) fn refused_value(
    value: &Value,
    race: bool,
    refusal: ScenarioErr,
    cause: Cause,
) -> Option<&Value>
    ensures { option_map (λ v. view v.now) result ≡ refused_value race (view value.now) refusal cause }
{
    value_in_fields(value, cause).or(value_in_items(items_of_op(value, race, refusal), cause))
}

/// The value of the field that a cause is about.
fn value_in_fields(value: &Value, cause: Cause) -> Option<&Value>
    ensures { option_map (λ v. view v.now) result ≡ value_in_fields cause (view value.now) }
{
    match cause {
        Cause::Fields(shape) => shape_value(value, shape),
        Cause::FieldRange(range) => range_value(value, range),
        _ => None,
    }
}

/// The value of a field that has a fault of the shape.
fn shape_value(value: &Value, shape: FieldShape) -> Option<&Value>
    ensures { option_map (λ v. view v.now) result ≡ shape_value shape (view value.now) }
{
    match shape {
        FieldShape::Kind(field) => field_value(value, field),
        _ => None,
    }
}

/// The value of a field that is out of its range.
fn range_value(value: &Value, range: FieldRange) -> Option<&Value>
    ensures { option_map (λ v. view v.now) result ≡ range_value range (view value.now) }
{
    match range {
        FieldRange::Outside(field, _) => field_value(value, field),
        FieldRange::PartOfMillisecond => field_value(value, Field::Start),
        FieldRange::Reading(param, _) => {
            item_at(
                items_of(value.get(Field::First.name())),
                reading_index(param),
            )
        }
        FieldRange::ManySlots => None,
    }
}

/// Which item of the first reading it is.
fn reading_index(param: Param) -> usize
    ensures { result ≡ reading_index param }
{
    match param {
        Param::Mono => 0,
        _ => 1,
    }
}

/// The value of a field.
fn field_value(value: &Value, field: Field) -> Option<&Value>
    ensures { option_map (λ v. view v.now) result ≡ field_value field (view value.now) }
{
    match field {
        Field::Turns | Field::Keeper | Field::Callers => race_value(value, field),
        _ => value.get(field.name()),
    }
}

/// The value of a field of a race.
fn race_value(value: &Value, field: Field) -> Option<&Value>
    ensures { option_map (λ v. view v.now) result ≡ race_value field (view value.now) }
{
    value.get("race")?.get(field.name())
}

/// The items of the op at the place of a refusal.
fn items_of_op(value: &Value, race: bool, refusal: ScenarioErr) -> &[Value]
    ensures { map view result.now ≡ items_of_op race (view value.now) refusal }
{
    match refusal {
        ScenarioErr::Shape(place) | ScenarioErr::Range(place) => items_at(value, race, place),
        _ => &[],
    }
}

/// The items of the op at a place.
fn items_at(value: &Value, race: bool, place: u32) -> &[Value]
    ensures { map view result.now ≡ items_of_op race (view value.now) (Shape place) }
{
    match op_at(value, race, (place as usize).saturating_sub(1)) {
        Some(op) => items_of(Some(op.value)),
        None => &[],
    }
}

/// The item of an op that a cause is about.
fn value_in_items(items: &[Value], cause: Cause) -> Option<&Value>
    ensures { option_map (λ v. view v.now) result ≡ value_in_items cause (map view items.now) }
{
    match cause {
        Cause::Op(shape) => shape_item(items, shape),
        Cause::Argument(out) => arg_at(items, out.index),
        Cause::Label(_) => arg_at(items, 0),
        _ => None,
    }
}

/// The item of an op that has a fault of the shape.
fn shape_item(items: &[Value], shape: OpShape) -> Option<&Value>
    ensures { option_map (λ v. view v.now) result ≡ shape_item shape (map view items.now) }
{
    match shape {
        OpShape::Unknown => item_at(items, 0),
        OpShape::Kind(index, _) => arg_at(items, index),
        _ => None,
    }
}

/// The argument of an op that has this index.
fn arg_at(items: &[Value], index: usize) -> Option<&Value>
    ensures { option_map (λ v. view v.now) result ≡ arg_at index (map view items.now) }
{
    match items {
        [_, args @ ..] => item_at(args, index),
        [] => None,
    }
}

/// The item of this index.
fn item_at(items: &[Value], index: usize) -> Option<&Value>
    ensures { option_map (λ v. view v.now) result ≡ slice_get (map view items.now) index }
{
    items.get(index)
}
