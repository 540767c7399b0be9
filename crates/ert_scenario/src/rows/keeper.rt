//! The ops that hand the clock a reading, and the one that tells a process of the time offset.

ghost use Rattle.std.specs.Prelude.{◌≡◌, map, Some, None};
ghost use Rattle.serde_json.specs.View.{view};
ghost use Rattle.ert_scenario.specs.Rows.{keeper_rows, shared_rows, row_in, with_reading};

use crate::fault::Fault;
use crate::kinds::{one_word, reading_from};
use ert_defs::Reading;
use ert_ops::Op;
use serde_json::Value;

/// The op of this name, where it is one of them: the keeper of the clock does these.
#[tactic(auto, unfolding(crate::specs::Rows::keeper_rows))]
pub(super) fn op(name: &str, args: &[Value]) -> Option<Result<Op, Fault>>
    ensures { result ≡ row_in name.now keeper_rows (map view args.now) }
{
    match name {
        "tick" => Some(reading_from(args).map(|Reading { mono, sys }| Op::Tick { mono, sys })),
        "check" => Some(reading_from(args).map(|Reading { mono, sys }| Op::Check { mono, sys })),
        "finalize" => Some(reading_from(args).map(|Reading { mono, sys }| Op::Finalize {
            mono,
            sys,
        })),
        _ => None,
    }
}

/// The op of this name, where it is one that the keeper and callers may do.
#[tactic(auto, unfolding(crate::specs::Rows::shared_rows))]
pub(super) fn shared_op(name: &str, args: &[Value]) -> Option<Result<Op, Fault>>
    ensures { result ≡ row_in name.now shared_rows (map view args.now) }
{
    match name {
        "notify" => Some(one_word(args).map(|process| Op::Notify { process })),
        _ => None,
    }
}
