//! What a message says of a field.
ghost use Rattle.std.specs.Prelude.{◌≡◌, ◌++◌, OnOk, string_bytes};
ghost use Rattle.ert_explain.specs.{declared.field_range.FieldRange.TheVariants.ManySlots, Messages.{fields_front, range_front, fields_back, range_back, missing_text, caller_text}};

use super::hints::{write_has_to, write_limits, write_named, write_near, write_param};
use crate::field::Field;
use crate::field_range::FieldRange;
use crate::field_shape::FieldShape;
use crate::near::Near;
use ert_scenario::limits::MOST_SLOTS_IN_ALL;
use std::alloc::AllocError;
use std::fmt::Write;

/// Appends what is wrong with the shape of the fields, up to the part that is shown.
pub(super) fn write_fields_front(page: &mut String, shape: FieldShape) -> Result<(), AllocError>
    ensures { OnOk result (string_bytes page.new ≡ string_bytes page.old ++ fields_front shape) }
{
    match shape {
        FieldShape::NoObject => page.push_str("a scenario has to be an object"),
        FieldShape::OtherField => page.push_str("there is no field "),
        FieldShape::RaceGiven => {
            page.push_str("the field \"race\" is for the command race alone")
        }
        FieldShape::Missing(field) => write_missing(page, field),
        FieldShape::Kind(field) => write_named(page, "\"", field.name(), "\" is "),
        FieldShape::OtherRaceField => page.push_str("a race has no field "),
        FieldShape::Caller(number) => write_caller(page, number),
    }
}

fn write_missing(page: &mut String, field: Field) -> Result<(), AllocError>
    ensures { OnOk result (string_bytes page.new ≡ string_bytes page.old ++ missing_text field) }
{
    write_named(page, "the field \"", field.name(), "\" is missing")
}

fn write_caller(page: &mut String, number: usize) -> Result<(), AllocError>
    ensures { OnOk result (string_bytes page.new ≡ string_bytes page.old ++ caller_text number) }
{
    write!(page, "the list of caller {number} has to be an array")
}

/// Appends which field is out of its range.
pub(super) fn write_range_front(page: &mut String, range: FieldRange) -> Result<(), AllocError>
    ensures { OnOk result (string_bytes page.new ≡ string_bytes page.old ++ range_front range) }
{
    match range {
        FieldRange::Outside(field, _) => write_named(page, "\"", field.name(), "\" is "),
        FieldRange::ManySlots => write_many_slots(page),
        FieldRange::PartOfMillisecond => page.push_str("\"start\" is "),
        FieldRange::Reading(param, _) => write_param(page, param),
    }
}

/// Appends that there are too many slots.
fn write_many_slots(page: &mut String) -> Result<(), AllocError>
    ensures { OnOk result (string_bytes page.new ≡ string_bytes page.old ++ range_front ManySlots) }
{
    write!(
        page,
        "all schedulers together have more than {MOST_SLOTS_IN_ALL} slots"
    )
}

/// Appends what the field has to be, or a name that may be meant.
pub(super) fn write_fields_back(
    page: &mut String,
    shape: FieldShape,
    near: Option<Near>,
) -> Result<(), AllocError>
    ensures { OnOk result (string_bytes page.new ≡ string_bytes page.old ++ fields_back shape near) }
{
    match shape {
        FieldShape::OtherField | FieldShape::OtherRaceField => write_near(page, near),
        FieldShape::Kind(field) => write_has_to(page, field.kind()),
        _ => Ok(()),
    }
}

/// Appends where the number has to be.
pub(super) fn write_range_back(page: &mut String, range: FieldRange) -> Result<(), AllocError>
    ensures { OnOk result (string_bytes page.new ≡ string_bytes page.old ++ range_back range) }
{
    match range {
        FieldRange::Outside(_, limits) | FieldRange::Reading(_, limits) => {
            write_limits(page, limits)
        }
        FieldRange::PartOfMillisecond => { page.push_str("; it has to be a multiple of 1000000") }
        FieldRange::ManySlots => Ok(()),
    }
}
