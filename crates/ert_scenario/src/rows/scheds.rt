//! The ops of schedulers.

ghost use Rattle.std.specs.Prelude.{◌≡◌, map, Some, None};
ghost use Rattle.serde_json.specs.View.{view};
ghost use Rattle.ert_scenario.specs.Rows.{sched_rows, row_in};

use crate::fault::Fault;
use crate::kinds::one_word;
use ert_ops::Op;
use serde_json::Value;

/// The op of this name, where it is one of them.
#[tactic(auto, unfolding(crate::specs::Rows::sched_rows))]
pub(super) fn op(name: &str, args: &[Value]) -> Option<Result<Op, Fault>>
    ensures { result ≡ row_in name.now sched_rows (map view args.now) }
{
    match name {
        "serve" => Some(one_word(args).map(|sched| Op::Serve { sched })),
        "advance" => Some(one_word(args).map(|sched| Op::Advance { sched })),
        "deliver" => Some(one_word(args).map(|sched| Op::Deliver { sched })),
        "turn" => Some(one_word(args).map(|sched| Op::Turn { sched })),
        _ => None,
    }
}
