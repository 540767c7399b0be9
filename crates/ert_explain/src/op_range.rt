//! Which argument of an op is out of its range.
ghost use Rattle.std.specs.Prelude.{◌≡◌, map, option_map, Some, None};
ghost use Rattle.serde_json.specs.View.{view};
ghost use Rattle.ert_explain.specs.OpRanges.{limits_of, last_below, is_out, out_param, out_from, signature_in, args_in, op_range};

use crate::op_name::op_called;
use crate::param::{Param, Signature, signature_of};
use crate::place::items_of;
use serde_json::Value;

/// From which number to which a value may be.
#[derive(Clone, Copy)]
pub struct Limits {
    /// The least.
    pub least: i64,
    /// The greatest.
    pub greatest: i64,
}

/// How many schedulers and processes the fields of a scenario say.
#[derive(Clone, Copy)]
pub(crate) struct Counts {
    pub(crate) schedulers: i64,
    pub(crate) processes: i64,
}

/// An argument that is out of its range.
#[derive(Clone, Copy)]
pub struct OutOfRange {
    /// Its index, from 0.
    pub index: usize,
    /// What it says.
    pub param: Param,
    /// Where it has to be.
    pub limits: Limits,
}

/// The first argument of an op of format 1 or 2 that is out of its range.
#[tactic(auto, unfolding(crate::specs::OpRanges::op_range))]
pub(crate) fn op_range(is_one: bool, counts: Counts, op: &Value) -> Option<OutOfRange>
    ensures { result ≡ op_range is_one counts (view op.now) }
{
    let items = items_of(Some(op));
    match items {
        [name, args @ ..] => first_out(signature_in(is_one, name)?, counts, args),
        [] => None,
    }
}

/// The arguments of the op of this name.
fn signature_in(is_one: bool, name: &Value) -> Option<Signature>
    ensures { result ≡ signature_in is_one (view name.now) }
{
    let op = op_called(name.as_str()?)?;
    Some(signature_of(is_one, op))
}

/// The first argument that is out of its range.
fn first_out(signature: Signature, counts: Counts, args: &[Value]) -> Option<OutOfRange>
    ensures { result ≡ out_from signature counts 0 (map view args.now) }
{
    for (i, arg) in args.iter().enumerate() {
        if let Some(out) = out_param(signature, counts, i, arg) {
            return Some(out);
        }
    }
    None
}

/// The argument of this index, where it is out of its range.
fn out_param(signature: Signature, counts: Counts, index: usize, arg: &Value) -> Option<OutOfRange>
    ensures { result ≡ out_param signature counts index (view arg.now) }
{
    let param = signature.param(index)?;
    let limits = limits_of(counts, param)?;
    if is_out(limits, arg) {
        Some(OutOfRange {
            index,
            param,
            limits,
        })
    } else {
        None
    }
}

/// Where an argument has to be, if any number isn't right there.
fn limits_of(counts: Counts, param: Param) -> Option<Limits>
    ensures { result ≡ limits_of counts param }
{
    let (least, greatest) = match param {
        Param::Mono => (0, 4_611_686_018_427_387_903),
        Param::Sys => (-2_305_843_009_213_693_951, 2_305_843_009_213_693_951),
        Param::From | Param::To => (1, i64::MAX),
        Param::Label => (0, 999_999),
        Param::Scheduler => (0, last_below(counts.schedulers)),
        Param::Process => (0, last_below(counts.processes)),
        Param::Monitor => (0, 4_294_967_295),
        Param::Time | Param::Milliseconds => return None,
        Param::Origin | Param::Message | Param::Told => return None,
    };
    Some(Limits { least, greatest })
}

/// The last of so many, which begin at 0.
fn last_below(count: i64) -> i64
    ensures { result ≡ last_below count }
{
    if count > 0 { count - 1 } else { 0 }
}

/// Whether a value is an integer outside of limits. One of 2^63 and more is above all.
#[tactic(auto, unfolding(crate::specs::OpRanges::is_out))]
pub(crate) fn is_out(limits: Limits, value: &Value) -> bool
    ensures { result ≡ is_out limits (view value.now) }
{
    match value.as_i64() {
        Some(number) => number < limits.least || limits.greatest < number,
        None => value.as_u64().is_some(),
    }
}
