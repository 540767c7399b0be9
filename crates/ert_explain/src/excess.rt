//! Of what a scenario has too many.
ghost use Rattle.std.specs.Prelude.{◌≡◌, map};
ghost use Rattle.serde_json.specs.View.{view};
ghost use Rattle.ert_explain.specs.Excesses.{excess_of, race_excess};

use crate::field::Field;
use crate::field_range::number_at;
use crate::place::items_of;
use ert_scenario::limits::{MOST_LISTS, MOST_TURNS};
use serde_json::Value;

/// Of what a scenario has too many.
#[derive(Clone, Copy)]
pub enum Excess {
    /// So many callers' lists, which are more than `MOST_LISTS`.
    Callers(usize),
    /// So many turns, which are more than `MOST_TURNS`.
    Turns(i64),
    /// Neither of these, so ops: there are more than `MOST_OPS` in all lists together.
    Ops,
}

/// Of what a scenario with such a fault has too many.
#[tactic(auto, unfolding(crate::specs::Excesses::excess_of))]
pub(crate) fn excess_of(value: &Value, race: bool) -> Excess
    ensures { result ≡ excess_of race (view value.now) }
{
    match value.get("race") {
        Some(it) if race => race_excess(
            items_of(it.get("callers")).len(),
            number_at(it, Field::Turns, 0),
        ),
        _ => Excess::Ops,
    }
}

/// The same of a race with so many callers' lists and turns.
fn race_excess(callers: usize, turns: i64) -> Excess
    ensures { result ≡ race_excess callers turns }
{
    if callers > MOST_LISTS as usize {
        return Excess::Callers(callers);
    }
    if turns > MOST_TURNS as i64 {
        return Excess::Turns(turns);
    }
    Excess::Ops
}
