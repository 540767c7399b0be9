//! The format of a scenario.

ghost use Rattle.std.specs.Prelude.{◌≡◌, option_map};
ghost use Rattle.serde_json.specs.View.{view};
ghost use Rattle.ert_scenario.specs.{Fields.{format_by, format_of}, Kinds.integer};

use crate::kinds::integer;
use serde_json::Value;

/// Whose ops a scenario has.
#[derive(Clone, Copy)]
pub(crate) enum Format {
    /// The field `format` is the integer 1.
    One,
    /// It is 2. A value whose format is neither is no scenario, and its ops are read as those of this one.
    Two,
}

/// The format that the ops of a value are read by.
#[tactic(auto, unfolding(crate::specs::Fields::format_of))]
pub(crate) fn format_of(value: &Value) -> Format
    ensures { result ≡ format_of (view value.now) }
{
    format_from(value.get("format"))
}

/// The format that the value of the field `format` names.
pub(crate) fn format_from(value: Option<&Value>) -> Format
    ensures { result ≡ format_by (integer (option_map (λ v. view v.now) value.entry)) }
{
    match integer(value) {
        Ok(1) => Format::One,
        _ => Format::Two,
    }
}
