//! The ops of timers that are the same in both formats.

ghost use Rattle.std.specs.Prelude.{◌≡◌, map, option_map, Some, None};
ghost use Rattle.serde_json.specs.View.{view};
ghost use Rattle.ert_scenario.specs.{Kinds.called, Rows.{timer_rows, row_in, since_names, since as since_by, when_from, message_args, deadline_args, start_args, start_row}};

use crate::fault::Fault;
use crate::kinds::{both, end, integer, natural, next, one_word, text, word};
use ert_defs::When;
use ert_ops::Op;
use serde_json::Value;

/// What the milliseconds of a start count from.
#[derive(Clone, Copy)]
pub(crate) enum Origin {
    /// `"rel"`: the time of the start.
    Now,
    /// `"abs"`: Erlang monotonic time 0.
    Zero,
}

/// The arguments of a start.
#[derive(Clone, Copy)]
pub(crate) struct StartArgs {
    pub(crate) label: u32,
    pub(crate) wheel: u32,
    pub(crate) when: When,
    pub(crate) dest: u32,
    pub(crate) msg: u64,
}

/// The op of this name, where it is one of them.
#[tactic(auto, unfolding(crate::specs::Rows::timer_rows))]
pub(super) fn op(name: &str, args: &[Value]) -> Option<Result<Op, Fault>>
    ensures { result ≡ row_in name.now timer_rows (map view args.now) }
{
    match name {
        "start" => Some(start(args)),
        "cancel" => Some(one_word(args).map(|label| Op::Cancel { label })),
        "read" => Some(one_word(args).map(|label| Op::Read { label })),
        _ => None,
    }
}

/// `["start",label,scheduler,"rel" or "abs",milliseconds,process,message]`.
fn start(args: &[Value]) -> Result<Op, Fault>
    ensures { result ≡ start_row (map view args.now) }
{
    start_args(args).map(|start| Op::Start {
        label: start.label,
        wheel: start.wheel,
        when: start.when,
        dest: start.dest,
        msg: start.msg,
    })
}

/// The arguments of a start.
#[tactic(auto, unfolding(crate::specs::Rows::start_args))]
pub(super) fn start_args(args: &[Value]) -> Result<StartArgs, Fault>
    ensures { result ≡ start_args (map view args.now) }
{
    let (label, args) = next(args);
    let (wheel, args) = next(args);
    let others = both(word(wheel), deadline_args(args));
    let (label, (wheel, (when, (dest, msg)))) = both(word(label), others)?;
    Ok(StartArgs {
        label,
        wheel,
        when,
        dest,
        msg,
    })
}

/// `"rel"` or `"abs"`, milliseconds, and then the process and the message.
#[tactic(auto, unfolding(crate::specs::Rows::deadline_args))]
fn deadline_args(args: &[Value]) -> Result<(When, (u32, u64)), Fault>
    ensures { result ≡ deadline_args (map view args.now) }
{
    let (origin, args) = next(args);
    let (ms, args) = next(args);
    let others = both(integer(ms), message_args(args));
    let (origin, (ms, message)) = both(since(origin), others)?;
    Ok((when_of(origin, ms), message))
}

/// The process that a message goes to, and the message.
#[tactic(auto, unfolding(crate::specs::Rows::message_args))]
fn message_args(args: &[Value]) -> Result<(u32, u64), Fault>
    ensures { result ≡ message_args (map view args.now) }
{
    let (dest, args) = next(args);
    let (msg, args) = next(args);
    let (dest, (msg, ())) = both(word(dest), both(natural(msg), end(args)))?;
    Ok((dest, msg))
}

/// `"rel"` or `"abs"`.
#[tactic(auto, unfolding(crate::specs::Rows::since))]
fn since(value: Option<&Value>) -> Result<Origin, Fault>
    ensures { result ≡ since_by (option_map (λ v. view v.now) value.entry) }
{
    since_called(text(value)?)
}

/// What this name says.
fn since_called(name: &str) -> Result<Origin, Fault>
    ensures { result ≡ called name.now since_names }
{
    match name {
        "rel" => Ok(Origin::Now),
        "abs" => Ok(Origin::Zero),
        _ => Err(Fault::Shape),
    }
}

/// The deadline that is so many milliseconds from there.
fn when_of(origin: Origin, ms: i64) -> When
    ensures { result ≡ when_from origin ms }
{
    match origin {
        Origin::Now => When::After(ms),
        Origin::Zero => When::At(ms),
    }
}
