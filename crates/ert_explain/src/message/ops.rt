//! What a message says of an op, or of too many of something.
ghost use Rattle.std.specs.Prelude.{◌≡◌, ◌++◌, OnOk, string_bytes};
ghost use Rattle.ert_explain.specs.{Messages.{op_front, op_back, excess_front, late_text, elsewhere_text, not_in_text}, declared.excess.Excess.TheVariants.{Callers, Turns}, declared.op_shape.OpShape.TheVariants.Count};

use super::hints::{write_has_to, write_named, write_near, write_param};
use crate::excess::Excess;
use crate::near::Near;
use crate::op_name::OpName;
use crate::op_shape::OpShape;
use crate::param::Signature;
use crate::place::ListName;
use ert_scenario::limits::{MOST_LISTS, MOST_OPS, MOST_TURNS};
use std::alloc::AllocError;
use std::fmt::Write;

/// Appends what is wrong with the shape of an op, up to the part that is shown.
pub(super) fn write_op_front(page: &mut String, shape: OpShape) -> Result<(), AllocError>
    ensures { OnOk result (string_bytes page.new ≡ string_bytes page.old ++ op_front shape) }
{
    match shape {
        OpShape::NoArray => page.push_str("an op has to be an array"),
        OpShape::NoName => page.push_str("an op has to begin with its name"),
        OpShape::Unknown => page.push_str("there is no op "),
        OpShape::Late(op) => write_late(page, op),
        OpShape::Elsewhere(op, list) => write_elsewhere(page, op, list),
        OpShape::Count(op, signature, count) => write_count(page, op, signature, count),
        OpShape::Kind(_, param) => write_param(page, param),
        OpShape::Sound => page.push_str("this is no op"),
    }
}

/// Appends how many arguments an op takes, and how many it has.
fn write_count(
    page: &mut String,
    op: OpName,
    signature: Signature,
    count: usize,
) -> Result<(), AllocError>
    ensures { OnOk result (string_bytes page.new ≡ string_bytes page.old ++ op_front (Count op signature count)) }
{
    write_named(page, "\"", op.word(), "\" takes ")?;
    write!(page, "{} and has {count}", signature.text())
}

fn write_late(page: &mut String, op: OpName) -> Result<(), AllocError>
    ensures { OnOk result (string_bytes page.new ≡ string_bytes page.old ++ late_text op) }
{
    write_named(page, "\"", op.word(), "\" is in format 2 only")
}

#[tactic(auto, using(crate::proofs::Texts::joined))]
fn write_elsewhere(page: &mut String, op: OpName, list: ListName) -> Result<(), AllocError>
    ensures { OnOk result (string_bytes page.new ≡ string_bytes page.old ++ elsewhere_text op list) }
{
    write_not_in(page, op)?;
    page.push_str(list.text())
}

#[tactic(auto, unfolding(crate::specs::Messages::not_in_text))]
fn write_not_in(page: &mut String, op: OpName) -> Result<(), AllocError>
    ensures { OnOk result (string_bytes page.new ≡ string_bytes page.old ++ not_in_text op) }
{
    write_named(page, "\"", op.word(), "\" may not stand in ")
}

/// Appends what the argument has to be, or a name that may be meant.
pub(super) fn write_op_back(
    page: &mut String,
    shape: OpShape,
    near: Option<Near>,
) -> Result<(), AllocError>
    ensures { OnOk result (string_bytes page.new ≡ string_bytes page.old ++ op_back shape near) }
{
    match shape {
        OpShape::Unknown => write_near(page, near),
        OpShape::Kind(_, param) => write_has_to(page, param.kind()),
        _ => Ok(()),
    }
}

/// Appends of what there is too much.
pub(super) fn write_excess(page: &mut String, excess: Excess) -> Result<(), AllocError>
    ensures { OnOk result (string_bytes page.new ≡ string_bytes page.old ++ excess_front excess) }
{
    match excess {
        Excess::Callers(count) => write_callers(page, count),
        Excess::Turns(turns) => write_turns(page, turns),
        Excess::Ops => write!(page, "there are more than {MOST_OPS} ops"),
    }
}

/// Appends how many callers' lists there are, and how many may be.
fn write_callers(page: &mut String, count: usize) -> Result<(), AllocError>
    ensures { OnOk result (string_bytes page.new ≡ string_bytes page.old ++ excess_front (Callers count)) }
{
    write!(
        page,
        "there are {count} lists of callers, and at most {MOST_LISTS} may be"
    )
}

/// The same of turns.
fn write_turns(page: &mut String, turns: i64) -> Result<(), AllocError>
    ensures { OnOk result (string_bytes page.new ≡ string_bytes page.old ++ excess_front (Turns turns)) }
{
    write!(
        page,
        "there are {turns} turns, and at most {MOST_TURNS} may be"
    )
}
