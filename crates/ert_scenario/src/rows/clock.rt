//! The ops that read the clock, and the one that converts a time.

ghost use Rattle.std.specs.Prelude.{◌≡◌, map, Some, None};
ghost use Rattle.serde_json.specs.View.{view};
ghost use Rattle.ert_scenario.specs.Rows.{convert_row, clock_rows, row_in};

use super::plain;
use crate::fault::Fault;
use crate::kinds::{both, end, integer, next};
use crate::units::time_unit;
use ert_ops::Op;
use serde_json::Value;

/// The op of this name, where it is one of them.
#[tactic(auto, unfolding(crate::specs::Rows::clock_rows))]
pub(super) fn op(name: &str, args: &[Value]) -> Option<Result<Op, Fault>>
    ensures { result ≡ row_in name.now clock_rows (map view args.now) }
{
    match name {
        "time" => Some(plain(Op::Time, args)),
        "system" => Some(plain(Op::System, args)),
        "offset" => Some(plain(Op::Offset, args)),
        "info" => Some(plain(Op::Info, args)),
        "convert" => Some(convert(args)),
        _ => None,
    }
}

/// `["convert",time,from,to]`.
#[tactic(auto, unfolding(crate::specs::Rows::convert_row))]
fn convert(args: &[Value]) -> Result<Op, Fault>
    ensures { result ≡ convert_row (map view args.now) }
{
    let (time, args) = next(args);
    let (from, args) = next(args);
    let (to, args) = next(args);
    let units = both(time_unit(from), both(time_unit(to), end(args)));
    let (time, (from, (to, ()))) = both(integer(time), units)?;
    Ok(Op::Convert { time, from, to })
}
