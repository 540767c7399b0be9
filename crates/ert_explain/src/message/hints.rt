//! What a message says that there has to be, and which name may be meant.
ghost use Rattle.std.specs.Prelude.{◌≡◌, ◌++◌, OnOk, codes, string_bytes};
ghost use Rattle.std.specs.Fmt.{signed_decimal};
ghost use Rattle.ert_explain.specs.{Messages.{from_front, from_text, to_text, between_text, limits_text, has_to_text, hint_text, near_text}, Words.param_word};

use crate::near::Near;
use crate::op_range::Limits;
use crate::param::Param;
use std::alloc::AllocError;
use std::fmt::Write;

/// Appends where a number has to be.
pub(super) fn write_limits(page: &mut String, limits: Limits) -> Result<(), AllocError>
    ensures { OnOk result (string_bytes page.new ≡ string_bytes page.old ++ limits_text limits) }
{
    write_between(page, limits.least, limits.greatest)
}

/// Appends from which number to which one has to be.
#[tactic(auto, using(crate::proofs::Texts::joined))]
fn write_between(page: &mut String, least: i64, greatest: i64) -> Result<(), AllocError>
    ensures { OnOk result (string_bytes page.new ≡ string_bytes page.old ++ between_text least greatest) }
{
    write_from(page, least)?;
    write_to(page, greatest)
}

#[tactic(auto, using(crate::proofs::Texts::joined))]
fn write_from(page: &mut String, least: i64) -> Result<(), AllocError>
    ensures { OnOk result (string_bytes page.new ≡ string_bytes page.old ++ from_text least) }
{
    write_from_front(page)?;
    write_number(page, least)
}

#[tactic(auto, unfolding(crate::specs::Messages::from_front))]
fn write_from_front(page: &mut String) -> Result<(), AllocError>
    ensures { OnOk result (string_bytes page.new ≡ string_bytes page.old ++ from_front) }
{
    page.push_str("; it has to be from ")
}

fn write_number(page: &mut String, number: i64) -> Result<(), AllocError>
    ensures { OnOk result (string_bytes page.new ≡ string_bytes page.old ++ signed_decimal number) }
{
    write!(page, "{number}")
}

#[tactic(auto, unfolding(crate::specs::Messages::to_text))]
fn write_to(page: &mut String, greatest: i64) -> Result<(), AllocError>
    ensures { OnOk result (string_bytes page.new ≡ string_bytes page.old ++ to_text greatest) }
{
    write!(page, " to {greatest}")
}

/// Appends what a value has to be.
pub(super) fn write_has_to(page: &mut String, kind: &str) -> Result<(), AllocError>
    ensures { OnOk result (string_bytes page.new ≡ string_bytes page.old ++ has_to_text kind.now) }
{
    write!(page, "; it has to be {kind}")
}

/// Appends the nearest known name, where there is one.
pub(super) fn write_near(page: &mut String, near: Option<Near>) -> Result<(), AllocError>
    ensures { OnOk result (string_bytes page.new ≡ string_bytes page.old ++ near_text near) }
{
    match near {
        Some(Near::Op(op)) => write_hint(page, op.word()),
        Some(Near::Field(field)) => write_hint(page, field.name()),
        None => Ok(()),
    }
}

/// Appends a name that may be meant.
fn write_hint(page: &mut String, name: &str) -> Result<(), AllocError>
    ensures { OnOk result (string_bytes page.new ≡ string_bytes page.old ++ hint_text name.now) }
{
    write_named(page, "; did you mean \"", name, "\"?")
}

/// Appends which argument or item the part that is shown says.
pub(super) fn write_param(page: &mut String, param: Param) -> Result<(), AllocError>
    ensures { OnOk result (string_bytes page.new ≡ string_bytes page.old ++ (param_word param ++ codes " is ")) }
{
    page.push_str(param.word())?;
    page.push_str(" is ")
}

/// Appends a name between two texts.
pub(super) fn write_named(
    page: &mut String,
    front: &str,
    name: &str,
    back: &str,
) -> Result<(), AllocError>
    ensures { OnOk result (string_bytes page.new ≡ string_bytes page.old ++ (front.now ++ (name.now ++ back.now))) }
{
    page.push_str(front)?;
    page.push_str(name)?;
    page.push_str(back)
}
