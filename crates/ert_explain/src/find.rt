//! Where what is wrong stands in the text.

use crate::cause::Cause;
use crate::excess::Excess;
use crate::field::Field;
use crate::field_range::FieldRange;
use crate::field_shape::FieldShape;
use crate::locate::Locator;
use crate::op_shape::OpShape;
use crate::param::Param;
use crate::place::{ListName, PlacedOp, op_at};
use crate::scanner::Piece;
use ert_scenario::ScenarioErr;
use serde_json::Value;
use std::alloc::Global;

/// The piece of a text that is wrong, or at which it is.
pub(crate) fn find(
    alloc: Global,
    bytes: &[u8],
    value: &Value,
    race: bool,
    refusal: ScenarioErr,
    cause: Cause,
) -> Piece {
    let whole = Locator::new(alloc, bytes);
    let found = match refusal {
        ScenarioErr::Shape(place) | ScenarioErr::Range(place) if place > 0 => {
            at_place(whole, value, race, place, cause)
        }
        _ => in_fields(whole, cause),
    };
    found.piece()
}

/// To what is wrong with the op at a place.
fn at_place<'a>(
    whole: Locator<'a>,
    value: &Value,
    race: bool,
    place: u32,
    cause: Cause,
) -> Locator<'a> {
    match op_at(value, race, (place as usize).saturating_sub(1)) {
        Some(op) => in_op(to_op(whole, op), cause),
        None => whole,
    }
}

/// To an op.
fn to_op<'a>(whole: Locator<'a>, op: PlacedOp<'_>) -> Locator<'a> {
    match op.list {
        ListName::Ops => whole.member("ops").item(op.index),
        ListName::Keeper => whole.member("race").member("keeper").item(op.index),
        ListName::Caller(caller) => whole
            .member("race")
            .member("callers")
            .item(caller)
            .item(op.index),
    }
}

/// From an op to what is wrong with it.
fn in_op(op: Locator<'_>, cause: Cause) -> Locator<'_> {
    match cause {
        Cause::Op(OpShape::Kind(index, _)) => op.item(index.saturating_add(1)),
        Cause::Op(OpShape::NoName | OpShape::Unknown) => op.item(0),
        Cause::Op(OpShape::Late(_) | OpShape::Elsewhere(..)) => op.item(0),
        Cause::Argument(out) => op.item(out.index.saturating_add(1)),
        Cause::Label(_) => op.item(1),
        _ => op,
    }
}

/// To what is wrong with the fields.
fn in_fields(whole: Locator<'_>, cause: Cause) -> Locator<'_> {
    match cause {
        Cause::Fields(shape) => to_shape(whole, shape),
        Cause::FieldRange(FieldRange::Outside(field, _)) => to_field(whole, field),
        Cause::FieldRange(FieldRange::ManySlots) => to_field(whole, Field::Slots),
        Cause::FieldRange(FieldRange::PartOfMillisecond) => to_field(whole, Field::Start),
        Cause::FieldRange(FieldRange::Reading(param, _)) => {
            let index = if param == Param::Mono { 0 } else { 1 };
            to_field(whole, Field::First).item(index)
        }
        Cause::Excess(Excess::Callers(_)) => to_field(whole, Field::Callers),
        Cause::Excess(Excess::Turns(_)) => to_field(whole, Field::Turns),
        Cause::Excess(Excess::Ops) => to_field(whole, Field::Ops),
        _ => whole,
    }
}

/// To what is wrong with the shape of the fields.
fn to_shape(whole: Locator<'_>, shape: FieldShape) -> Locator<'_> {
    match shape {
        FieldShape::NoObject => whole,
        FieldShape::OtherField => whole.other_name(false),
        FieldShape::RaceGiven => to_field(whole, Field::Race),
        FieldShape::Missing(Field::Turns | Field::Keeper | Field::Callers) => {
            to_field(whole, Field::Race)
        }
        FieldShape::Missing(_) => whole,
        FieldShape::Kind(field) => to_field(whole, field),
        FieldShape::OtherRaceField => to_field(whole, Field::Race).other_name(true),
        FieldShape::Caller(number) => {
            to_field(whole, Field::Callers).item(number.saturating_sub(1))
        }
    }
}

/// To the value of a field.
fn to_field(whole: Locator<'_>, field: Field) -> Locator<'_> {
    match field {
        Field::Turns | Field::Keeper | Field::Callers => {
            whole.member("race").member(field.name())
        }
        _ => whole.member(field.name()),
    }
}
