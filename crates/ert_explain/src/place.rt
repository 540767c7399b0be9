//! The ops of a value, by their places.
ghost use Rattle.std.specs.Prelude.{◌≡◌, map, option_map};
ghost use Rattle.serde_json.specs.View.{view};
ghost use Rattle.ert_scenario.specs.Kinds.{listed, or_empty};
ghost use Rattle.ert_explain.specs.Places.{op_seen, item_at, caller_op_at, race_op_at, op_at};

use serde_json::Value;

/// A list of ops of a scenario.
#[derive(Clone, Copy)]
pub enum ListName {
    /// The field `ops`.
    Ops,
    /// The list of the clock's thread in the field `race`.
    Keeper,
    /// That of the caller with this number, from 0.
    Caller(usize),
}

/// An op that stands in a value.
#[derive(Clone, Copy)]
pub(crate) struct PlacedOp<'a> {
    pub(crate) list: ListName,
    /// Its index in the list.
    pub(crate) index: usize,
    pub(crate) value: &'a Value,
}

/// The op of this number, from 0, in all lists together, with those of a race where one is wanted.
#[tactic(auto, unfolding(crate::specs::Places::op_at))]
pub(crate) fn op_at(value: &Value, race: bool, number: usize) -> Option<PlacedOp<'_>>
    ensures { option_map op_seen result ≡ op_at race (view value.now) number }
{
    let ops = items_of(value.get("ops"));
    if number < ops.len() {
        return item_at(ListName::Ops, ops, number);
    }
    if !race {
        return None;
    }
    race_op_at(value.get("race")?, number - ops.len())
}

/// The op of this number in the lists of a race.
#[tactic(auto, unfolding(crate::specs::Places::race_op_at))]
fn race_op_at(race: &Value, number: usize) -> Option<PlacedOp<'_>>
    ensures { option_map op_seen result ≡ race_op_at (view race.now) number }
{
    let keeper = items_of(race.get("keeper"));
    if number < keeper.len() {
        return item_at(ListName::Keeper, keeper, number);
    }
    caller_op_at(items_of(race.get("callers")), number - keeper.len())
}

/// The op of this number in the lists of callers.
fn caller_op_at(lists: &[Value], number: usize) -> Option<PlacedOp<'_>>
    ensures { option_map op_seen result ≡ caller_op_at 0 (map view lists.now) number }
{
    let mut rest = number;
    for (caller, list) in lists.iter().enumerate() {
        let items = items_of(Some(list));
        if rest < items.len() {
            return item_at(ListName::Caller(caller), items, rest);
        }
        rest -= items.len();
    }
    None
}

/// The item of a list that has this index.
fn item_at(list: ListName, items: &[Value], index: usize) -> Option<PlacedOp<'_>>
    ensures { option_map op_seen result ≡ item_at list (map view items.now) index }
{
    let value = items.get(index)?;
    Some(PlacedOp { list, index, value })
}

/// The items of an array; other values have none.
#[tactic(auto, using(ert_scenario::proofs::Listed::list_of_items), unfolding(ert_scenario::specs::Kinds::listed, ert_scenario::specs::Kinds::of_kind))]
pub(crate) fn items_of(value: Option<&Value>) -> &[Value]
    ensures { map view result.now ≡ or_empty (listed (option_map (λ v. view v.now) value.entry)) }
{
    match value.and_then(Value::as_array) {
        Some(items) => items.as_slice(),
        None => &[],
    }
}
