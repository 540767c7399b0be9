//! The labels of starts.
ghost use Rattle.std.specs.Prelude.{◌≡◌, None, map, IfSome};
ghost use Rattle.serde_json.specs.View.{view};
ghost use Rattle.ert_explain.specs.Labels.{label_of_start, items_label, start_label, label_at, IsSameLabel, IsNewLabel};

use crate::op_name::{OpName, op_called};
use crate::place::{items_of, op_at};
use serde_json::Value;

/// The place, from 1, of an earlier start with the label of the start of this number, from 0.
pub(crate) fn earlier_start(value: &Value, race: bool, number: usize) -> Option<usize>
    ensures found { IfSome result (λ place. IsSameLabel race (view value.now) place number) }
    ensures none { result ≡ None → IsNewLabel race (view value.now) number }
{
    let label = label_at(value, race, number)?;
    for j in 0..number {
        if label_at(value, race, j) == Some(label) {
            return Some(j + 1);
        }
    }
    None
}

/// The label of the op of this number, where it is a start.
fn label_at(value: &Value, race: bool, number: usize) -> Option<i64>
    ensures { result ≡ label_at race (view value.now) number }
{
    let op = op_at(value, race, number)?;
    label_in(op.value)
}

/// The label of an op, where it is a start.
fn label_in(op: &Value) -> Option<i64>
    ensures { result ≡ label_of_start (view op.now) }
{
    items_label(items_of(Some(op)))
}

/// The same of its items.
fn items_label(items: &[Value]) -> Option<i64>
    ensures { result ≡ items_label (map view items.now) }
{
    match items {
        [name, label, ..] => start_label(name, label),
        _ => None,
    }
}

/// The label of an op of this name, where it is a start.
#[tactic(auto, unfolding(crate::specs::Labels::start_label))]
fn start_label(name: &Value, label: &Value) -> Option<i64>
    ensures { result ≡ start_label (view name.now) (view label.now) }
{
    match op_called(name.as_str()?)? {
        OpName::Start | OpName::SendAfter => label.as_i64(),
        _ => None,
    }
}
