//! The ops in which the formats differ.

ghost use Rattle.std.specs.Prelude.{◌≡◌, map, Some, None};
ghost use Rattle.serde_json.specs.View.{view};
ghost use Rattle.ert_scenario.specs.Rows.{rows_of_one, rows_of_two, rows_of_format, row_in, send_after_row, request_args};

use super::timers::start_args;
use crate::fault::Fault;
use crate::format::Format;
use crate::kinds::{boolean, both, end, next, one_word, two_words, word};
use ert_ops::Op;
use serde_json::Value;

/// The op of this name, where it is one of them.
pub(super) fn op(format: Format, name: &str, args: &[Value]) -> Option<Result<Op, Fault>>
    ensures { result ≡ row_in name.now (rows_of_format format) (map view args.now) }
{
    match format {
        Format::One => op_of_one(name, args),
        Format::Two => op_of_two(name, args),
    }
}

/// In format 1 a process is always told what was left of the timer.
#[tactic(auto, unfolding(crate::specs::Rows::rows_of_one))]
fn op_of_one(name: &str, args: &[Value]) -> Option<Result<Op, Fault>>
    ensures { result ≡ row_in name.now rows_of_one (map view args.now) }
{
    match name {
        "cancel_async" => Some(two_words(args).map(|(label, process)| Op::CancelAsync {
            label,
            process,
            info: true,
        })),
        "read_async" => Some(two_words(args).map(|(label, process)| Op::ReadAsync {
            label,
            process,
            info: true,
        })),
        _ => None,
    }
}

/// In format 2 the op says whether it is told. There are also messages that come alone, and cancels whose
/// answer isn't told.
#[tactic(auto, unfolding(crate::specs::Rows::rows_of_two))]
fn op_of_two(name: &str, args: &[Value]) -> Option<Result<Op, Fault>>
    ensures { result ≡ row_in name.now rows_of_two (map view args.now) }
{
    match name {
        "cancel_async" => Some(asked(args).map(|(label, process, info)| Op::CancelAsync {
            label,
            process,
            info,
        })),
        "read_async" => Some(asked(args).map(|(label, process, info)| Op::ReadAsync {
            label,
            process,
            info,
        })),
        "send_after" => Some(send_after(args)),
        "cancel_quiet" => Some(one_word(args).map(|label| Op::CancelQuiet { label })),
        _ => None,
    }
}

/// `["send_after",label,..]`, as a start.
fn send_after(args: &[Value]) -> Result<Op, Fault>
    ensures { result ≡ send_after_row (map view args.now) }
{
    start_args(args).map(|start| Op::SendAfter {
        label: start.label,
        wheel: start.wheel,
        when: start.when,
        dest: start.dest,
        msg: start.msg,
    })
}

/// The label, the process, and whether it is told.
#[tactic(auto, unfolding(crate::specs::Rows::request_args))]
fn asked(args: &[Value]) -> Result<(u32, u32, bool), Fault>
    ensures { result ≡ request_args (map view args.now) }
{
    let (label, args) = next(args);
    let (process, args) = next(args);
    let (info, args) = next(args);
    let told = both(boolean(info), end(args));
    let (label, (process, (info, ()))) = both(word(label), both(word(process), told))?;
    Ok((label, process, info))
}
