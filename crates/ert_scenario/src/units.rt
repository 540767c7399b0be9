//! The units of time in a scenario (`erlang` module reference, type `time_unit`).

ghost use Rattle.std.specs.Prelude.{◌≡◌, option_map};
ghost use Rattle.serde_json.specs.View.{view};
ghost use Rattle.ert_scenario.specs.{Kinds.called, Units.{unit_names, unit_of, time_unit}};

use crate::fault::Fault;
use crate::kinds::{natural, text};
use ert_ops::Unit;
use serde_json::Value;

/// A unit: a string that is its name, or a natural that is its parts per second.
#[tactic(auto, unfolding(crate::specs::Units::time_unit))]
pub(crate) fn time_unit(value: Option<&Value>) -> Result<Unit, Fault>
    ensures { result ≡ time_unit (option_map (λ v. view v.now) value.entry) }
{
    match text(value) {
        Ok(name) => unit_called(name),
        Err(_) => unit_of(natural(value)?),
    }
}

/// The unit of this name.
fn unit_called(name: &str) -> Result<Unit, Fault>
    ensures { result ≡ called name.now unit_names }
{
    match name {
        "second" => Ok(Unit::second()),
        "millisecond" => Ok(Unit::millisecond()),
        "microsecond" => Ok(Unit::microsecond()),
        "nanosecond" => Ok(Unit::nanosecond()),
        "native" => Ok(Unit::native()),
        _ => Err(Fault::Shape),
    }
}

/// The unit of which a second has so many.
#[tactic(auto, using(crate::proofs::Parts::unit_where_parts))]
fn unit_of(parts: u64) -> Result<Unit, Fault>
    ensures { result ≡ unit_of parts }
{
    Unit::parts(parts).ok_or(Fault::Range)
}
