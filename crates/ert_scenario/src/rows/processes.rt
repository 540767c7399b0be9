//! The ops of processes.

ghost use Rattle.std.specs.Prelude.{◌≡◌, map, Some, None};
ghost use Rattle.serde_json.specs.View.{view};
ghost use Rattle.ert_scenario.specs.Rows.{process_rows, row_in};

use crate::fault::Fault;
use crate::kinds::{one_word, two_words};
use ert_ops::Op;
use serde_json::Value;

/// The op of this name, where it is one of them.
#[tactic(auto, unfolding(crate::specs::Rows::process_rows))]
pub(super) fn op(name: &str, args: &[Value]) -> Option<Result<Op, Fault>>
    ensures { result ≡ row_in name.now process_rows (map view args.now) }
{
    match name {
        "receive" => Some(one_word(args).map(|process| Op::Receive { process })),
        "exit" => Some(one_word(args).map(|process| Op::Exit { process })),
        "alive" => Some(one_word(args).map(|process| Op::Alive { process })),
        "monitor" => Some(one_word(args).map(|process| Op::Monitor { process })),
        "demonitor" => Some(two_words(args).map(|(process, monitor)| Op::Demonitor {
            process,
            monitor,
        })),
        _ => None,
    }
}
