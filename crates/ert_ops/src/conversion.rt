ghost use Rattle.std.specs.Prelude.{◌≡◌, ◌↔◌, IsOk, IfOk, FitsSigned};
ghost use Rattle.std.specs.Int.{w64};
ghost use Rattle.ert_ops.specs.Conversions.{converted};

use crate::unit::Unit;

/// A converted time doesn't fit 64 bits.
#[derive(Clone, Copy, Debug, PartialEq, Eq)]
pub struct TooWide;

/// Converts a time from one unit to another, rounded down (`erlang` module reference,
/// `convert_time_unit`).
pub fn convert(time: i64, from: Unit, to: Unit) -> Result<i64, TooWide>
    ensures rounded_down { IfOk result (λ x. x ≡ converted time from to) }
    ensures fits { IsOk result ↔ FitsSigned w64 (converted time from to) }
{
    let product = time as i128 * to.per_second() as i128;
    let floor = product.div_euclid(from.per_second() as i128);
    i64::try_from(floor).map_err(|_| TooWide)
}
