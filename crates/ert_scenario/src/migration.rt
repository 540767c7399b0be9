//! Values of format 1, made values of format 2.

ghost use Rattle.std.specs.Prelude.{◌≡◌, map, codes, Ok, IfOk, OnOk};
ghost use Rattle.serde_json.specs.{View.{view, members_view}, Data.put as with_member};
ghost use Rattle.ert_defs.specs.Mails.{first_of};
ghost use Rattle.ert_scenario.specs.{Kinds.text as text_of, Migration.{is_ask, migrated_items, migrated_op, each, migrated_list, with_field, changed, migrated_race, migrated}};

use crate::kinds::{next, text};
use ert_defs::NoMemory;
use serde_json::{Map, Value};
use std::alloc::{AllocError, Global};

/// Makes a value of format 1 one of format 2: `format` is 2, and every `cancel_async` and `read_async` has
/// `true` as its last argument, in the lists of a race too. All else stays. Where the value is a scenario, what
/// is made is the same one.
///
/// A value that is no object stays as it is, and so does a field that should be a list and isn't.
#[tactic(auto, unfolding(crate::specs::Migration::migrated))]
pub fn migrate(alloc: Global, value: Value) -> Result<Value, NoMemory>
    ensures { IfOk result (λ v. view v ≡ migrated (view value)) }
{
    let value = with_list(alloc, value, "ops")?;
    let value = with_race(alloc, value)?;
    Ok(with_field(alloc, value, "format", Value::from(2u8))?)
}

/// The value, with its race migrated.
#[tactic(auto, unfolding(crate::specs::Migration::changed))]
fn with_race(alloc: Global, value: Value) -> Result<Value, AllocError>
    ensures { IfOk result (λ v. view v ≡ changed (codes "race") migrated_race (view value)) }
{
    let Some(race) = value.get("race") else {
        return Ok(value);
    };
    let race = migrated_race(alloc, race)?;
    with_field(alloc, value, "race", race)
}

/// A race, migrated.
fn migrated_race(alloc: Global, race: &Value) -> Result<Value, AllocError>
    ensures { IfOk result (λ v. view v ≡ migrated_race (view race.now)) }
{
    let race = with_list(alloc, race.clone()?, "keeper")?;
    with_lists(alloc, race, "callers")
}

/// The value, with the list of ops in this field migrated.
#[tactic(auto, unfolding(crate::specs::Migration::changed))]
fn with_list(alloc: Global, value: Value, name: &str) -> Result<Value, AllocError>
    ensures { IfOk result (λ v. view v ≡ changed name.now migrated_list (view value)) }
{
    let Some(list) = value.get(name) else {
        return Ok(value);
    };
    let list = migrated_list(alloc, list)?;
    with_field(alloc, value, name, list)
}

/// The value, with the lists of ops in the array in this field migrated.
#[tactic(auto, unfolding(crate::specs::Migration::changed))]
fn with_lists(alloc: Global, value: Value, name: &str) -> Result<Value, AllocError>
    ensures { IfOk result (λ v. view v ≡ changed name.now (each migrated_list) (view value)) }
{
    let Some(lists) = value.get(name) else {
        return Ok(value);
    };
    let lists = migrated_lists(alloc, lists)?;
    with_field(alloc, value, name, lists)
}

/// An array of lists of ops, migrated.
#[tactic(auto, unfolding(crate::specs::Migration::each))]
fn migrated_lists(alloc: Global, value: &Value) -> Result<Value, AllocError>
    ensures { IfOk result (λ v. view v ≡ each migrated_list (view value.now)) }
{
    match value {
        Value::Array(lists) => Ok(Value::Array(all_lists(alloc, lists)?)),
        other => other.clone(),
    }
}

/// A list of ops, migrated.
#[tactic(auto, unfolding(crate::specs::Migration::each))]
fn migrated_list(alloc: Global, value: &Value) -> Result<Value, AllocError>
    ensures { IfOk result (λ v. view v ≡ migrated_list (view value.now)) }
{
    match value {
        Value::Array(ops) => Ok(Value::Array(migrated_ops(alloc, ops)?)),
        other => other.clone(),
    }
}

/// Lists of ops, migrated.
fn all_lists(alloc: Global, lists: &[Value]) -> Result<Vec<Value>, AllocError>
    ensures { IfOk result (λ v. map view v.items ≡ map migrated_list (map view lists.now)) }
{
    let mut migrated = Vec::with_capacity(alloc, lists.len())?;
    for list in lists {
        migrated.push(migrated_list(alloc, list)?)?;
    }
    Ok(migrated)
}

/// The ops, migrated.
fn migrated_ops(alloc: Global, ops: &[Value]) -> Result<Vec<Value>, AllocError>
    ensures { IfOk result (λ v. map view v.items ≡ map migrated_op (map view ops.now)) }
{
    let mut migrated = Vec::with_capacity(alloc, ops.len())?;
    for op in ops {
        migrated.push(migrated_op(op)?)?;
    }
    Ok(migrated)
}

/// An op, migrated.
#[tactic(auto, unfolding(crate::specs::Migration::migrated_op))]
fn migrated_op(op: &Value) -> Result<Value, AllocError>
    ensures { IfOk result (λ v. view v ≡ migrated_op (view op.now)) }
{
    match op.clone()? {
        Value::Array(items) => Ok(Value::Array(migrated_items(items)?)),
        other => Ok(other),
    }
}

/// The items of an op: one that asks a scheduler gets `true` as its last argument.
#[tactic(auto, unfolding(crate::specs::Migration::migrated_items))]
fn migrated_items(mut items: Vec<Value>) -> Result<Vec<Value>, AllocError>
    ensures { IfOk result (λ v. map view v.items ≡ migrated_items (map view items.items)) }
{
    if is_ask(&items) {
        items.push(Value::Bool(true))?;
    }
    Ok(items)
}

/// Whether the items are those of an op that asks a scheduler.
fn is_ask(items: &[Value]) -> bool
    ensures { result ≡ is_ask (text_of (first_of (map view items.now))) }
{
    let (name, _) = next(items);
    match text(name) {
        Ok(name) => asks(name),
        Err(_) => false,
    }
}

/// Whether it is the name of an op that asks a scheduler.
fn asks(name: &str) -> bool
    ensures { result ≡ is_ask (Ok name.now) }
{
    matches!(name, "cancel_async" | "read_async")
}

/// The value, where it is an object with this field.
#[tactic(auto, unfolding(crate::specs::Migration::with_field))]
fn with_field(alloc: Global, value: Value, name: &str, field: Value) -> Result<Value, AllocError>
    ensures { IfOk result (λ v. view v ≡ with_field name.now (view field) (view value)) }
{
    match value {
        Value::Object(mut fields) => {
            put(alloc, &mut fields, name, field)?;
            Ok(Value::Object(fields))
        }
        other => Ok(other),
    }
}

/// Puts a field into an object.
pub(crate) fn put(
    alloc: Global,
    fields: &mut Map<String, Value>,
    name: &str,
    field: Value,
) -> Result<(), AllocError>
    ensures { OnOk result (members_view fields.new.entries
        ≡ with_member name.now (view field) (members_view fields.old.entries)) }
{
    let name = String::from_str(alloc, name)?;
    fields.insert(name, field)?;
    Ok(())
}
