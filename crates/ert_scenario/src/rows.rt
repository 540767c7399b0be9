//! The ops of a scenario: a function for each group, that reads the arguments of its ops.

ghost use Rattle.std.specs.Prelude.{◌≡◌, map};
ghost use Rattle.serde_json.specs.View.{view};
ghost use Rattle.ert_scenario.specs.Rows.{without_args, caller_groups, groups_of, op_named, op_from, op_of};

mod clock;
mod formats;
mod keeper;
mod processes;
mod scheds;
mod timers;

use crate::doer::ListDoer;
use crate::fault::Fault;
use crate::format::Format;
use crate::kinds::{end, listed, next, text};
use ert_ops::Op;
use serde_json::Value;

/// The op that a value is in the list of a doer, before the ranges of its numbers are tested.
#[tactic(auto, unfolding(crate::specs::Rows::op_of))]
pub(crate) fn op_of(format: Format, doer: ListDoer, value: &Value) -> Result<Op, Fault>
    ensures { result ≡ op_of format doer (view value.now) }
{
    op_from(format, doer, listed(Some(value))?)
}

/// The op that items are.
pub(crate) fn op_from(format: Format, doer: ListDoer, items: &[Value]) -> Result<Op, Fault>
    ensures { result ≡ op_from format doer (map view items.now) }
{
    let (name, args) = next(items);
    named(format, doer, text(name)?, args)
}

/// The op of this name in the list of a doer.
fn named(format: Format, doer: ListDoer, name: &str, args: &[Value]) -> Result<Op, Fault>
    ensures { result ≡ op_named name.now (groups_of doer format) (map view args.now) }
{
    match doer {
        ListDoer::Everyone => anyones_op(format, name, args),
        ListDoer::Keeper => keepers_op(name, args),
        ListDoer::Caller => callers_op(format, name, args),
    }
}

/// The op of this name, whoever does it.
fn anyones_op(format: Format, name: &str, args: &[Value]) -> Result<Op, Fault>
    ensures { result ≡ op_named name.now (groups_of ListDoer.Everyone format) (map view args.now) }
{
    if let Some(found) = keeper::op(name, args) {
        return found;
    }
    if let Some(found) = scheds::op(name, args) {
        return found;
    }
    callers_op(format, name, args)
}

/// The op of this name, where the clock's thread may do it.
fn keepers_op(name: &str, args: &[Value]) -> Result<Op, Fault>
    ensures { result ≡ op_named name.now (groups_of ListDoer.Keeper Format.Two) (map view args.now) }
{
    if let Some(found) = keeper::op(name, args) {
        return found;
    }
    keeper::shared_op(name, args).unwrap_or(Err(Fault::Shape))
}

/// The op of this name, where a caller may do it.
fn callers_op(format: Format, name: &str, args: &[Value]) -> Result<Op, Fault>
    ensures { result ≡ op_named name.now (caller_groups format) (map view args.now) }
{
    if let Some(found) = keeper::shared_op(name, args) {
        return found;
    }
    if let Some(found) = clock::op(name, args) {
        return found;
    }
    if let Some(found) = processes::op(name, args) {
        return found;
    }
    if let Some(found) = timers::op(name, args) {
        return found;
    }
    formats::op(format, name, args).unwrap_or(Err(Fault::Shape))
}

/// An op without arguments.
fn plain(op: Op, args: &[Value]) -> Result<Op, Fault>
    ensures { result ≡ without_args op (map view args.now) }
{
    end(args)?;
    Ok(op)
}
