//! The message that tells an explanation.
ghost use Rattle.std.specs.Prelude.{◌≡◌, ◌++◌, OnOk, codes, string_bytes};
ghost use Rattle.ert_explain.specs.Messages.{message, is_showing, head_text, place_text, op_place_text, front_text, middle_text, back_text};

mod fields;
mod hints;
mod ops;

use crate::cause::Cause;
use crate::explanation::{Explanation, part_at};
use crate::field_range::FieldRange;
use crate::field_shape::FieldShape;
use crate::near::Near;
use crate::op_shape::OpShape;
use crate::shown::write_shown;
use ert_scenario::ScenarioErr;
use fields::{write_fields_back, write_fields_front, write_range_back, write_range_front};
use hints::{write_limits, write_named, write_param};
use ops::{write_excess, write_op_back, write_op_front};
use std::alloc::AllocError;
use std::fmt::Write;

/// Appends the line of an explanation of these bytes: where, at which op, and what is wrong.
pub fn write_message(
    page: &mut String,
    bytes: &[u8],
    explanation: &Explanation,
) -> Result<(), AllocError>
    ensures { OnOk result (string_bytes page.new ≡ string_bytes page.old ++ message bytes.now explanation.now) }
{
    write_head(page, explanation)?;
    write_front(page, explanation.cause)?;
    let part = part_at(bytes, explanation.position.offset, explanation.length);
    write_middle(page, explanation.cause, part)?;
    write_back(page, explanation.cause, explanation.near)?;
    write_newline(page)
}

fn write_newline(page: &mut String) -> Result<(), AllocError>
    ensures { OnOk result (string_bytes page.new ≡ string_bytes page.old ++ codes "\n") }
{
    page.push_str("\n")
}

/// Appends the line and the column, and the place.
#[tactic(auto, using(crate::proofs::Texts::joined))]
fn write_head(page: &mut String, explanation: &Explanation) -> Result<(), AllocError>
    ensures { OnOk result (string_bytes page.new ≡ string_bytes page.old ++ head_text explanation.now) }
{
    let line = explanation.position.line;
    let column = explanation.position.column;
    write!(page, "scenario:{line}:{column}: ")?;
    write_place(page, explanation.refusal)
}

/// Appends the number of the op, where it is one.
fn write_place(page: &mut String, refusal: ScenarioErr) -> Result<(), AllocError>
    ensures { OnOk result (string_bytes page.new ≡ string_bytes page.old ++ place_text refusal) }
{
    match refusal {
        ScenarioErr::Shape(place) | ScenarioErr::Range(place) => write_op_place(page, place),
        _ => Ok(()),
    }
}

/// Appends the number of the op, where the place isn't 0.
fn write_op_place(page: &mut String, place: u32) -> Result<(), AllocError>
    ensures { OnOk result (string_bytes page.new ≡ string_bytes page.old ++ op_place_text place) }
{
    if place == 0 {
        return Ok(());
    }
    write!(page, "op {place}: ")
}

/// Appends what stands before the part that is shown, or all where none is.
fn write_front(page: &mut String, cause: Cause) -> Result<(), AllocError>
    ensures { OnOk result (string_bytes page.new ≡ string_bytes page.old ++ front_text cause) }
{
    match cause {
        Cause::Json(expected) => write_named(page, "expected ", expected.text(), " here"),
        Cause::Fields(shape) => write_fields_front(page, shape),
        Cause::FieldRange(range) => write_range_front(page, range),
        Cause::Op(shape) => write_op_front(page, shape),
        Cause::Argument(out) => write_param(page, out.param),
        Cause::Label(_) => page.push_str("label "),
        Cause::Excess(excess) => write_excess(page, excess),
        Cause::Other => page.push_str("this is no scenario"),
    }
}

/// Whether a part of the input is shown.
fn is_showing(cause: Cause) -> bool
    ensures { result ≡ is_showing cause }
{
    match cause {
        Cause::Fields(FieldShape::OtherField | FieldShape::Kind(_)) => true,
        Cause::Fields(FieldShape::OtherRaceField) => true,
        Cause::FieldRange(FieldRange::ManySlots) => false,
        Cause::FieldRange(_) => true,
        Cause::Op(OpShape::Unknown | OpShape::Kind(..)) => true,
        Cause::Argument(_) | Cause::Label(_) => true,
        _ => false,
    }
}

/// Appends the part of the input that is shown.
fn write_middle(page: &mut String, cause: Cause, part: &[u8]) -> Result<(), AllocError>
    ensures { OnOk result (string_bytes page.new ≡ string_bytes page.old ++ middle_text cause part.now) }
{
    if is_showing(cause) {
        write_shown(page, part)
    } else {
        Ok(())
    }
}

/// Appends what stands behind the part that is shown.
fn write_back(page: &mut String, cause: Cause, near: Option<Near>) -> Result<(), AllocError>
    ensures { OnOk result (string_bytes page.new ≡ string_bytes page.old ++ back_text cause near) }
{
    match cause {
        Cause::Fields(shape) => write_fields_back(page, shape, near),
        Cause::FieldRange(range) => write_range_back(page, range),
        Cause::Op(shape) => write_op_back(page, shape, near),
        Cause::Argument(out) => write_limits(page, out.limits),
        Cause::Label(place) => write!(page, " is that of op {place}"),
        _ => Ok(()),
    }
}
