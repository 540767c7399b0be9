//! What is wrong with the shape of an op.
ghost use Rattle.std.specs.Prelude.{◌≡◌, map, option_map};
ghost use Rattle.serde_json.specs.View.{view};
ghost use Rattle.ert_explain.specs.OpShapes.{op_shape, items_shape, named_shape, args_shape, wrong_from, wrong_param};

use crate::op_name::{OpName, op_called};
use crate::param::{Param, Signature, signature_of};
use crate::place::ListName;
use crate::value_kind::is_wrong;
use serde_json::Value;

/// What is wrong with the shape of an op: the first of these that is.
#[derive(Clone, Copy)]
pub enum OpShape {
    /// It is no array.
    NoArray,
    /// Its first item is no string, or there is none.
    NoName,
    /// No op has this name.
    Unknown,
    /// The op is in format 2 only, and the format is 1.
    Late(OpName),
    /// The op may not stand in this list.
    Elsewhere(OpName, ListName),
    /// It has so many arguments, and not those of its signature.
    Count(OpName, Signature, usize),
    /// The argument of this index, from 0, isn't of its kind.
    Kind(usize, Param),
    /// None of these.
    Sound,
}

/// What is wrong with the shape of an op in this list, of format 1 or 2.
#[tactic(auto, using(ert_scenario::proofs::Listed::list_of_items), unfolding(crate::specs::OpShapes::op_shape))]
pub(crate) fn op_shape(is_one: bool, list: ListName, op: &Value) -> OpShape
    ensures { result ≡ op_shape is_one list (view op.now) }
{
    match op.as_array() {
        Some(items) => items_shape(is_one, list, items.as_slice()),
        None => OpShape::NoArray,
    }
}

/// The same of its items.
fn items_shape(is_one: bool, list: ListName, items: &[Value]) -> OpShape
    ensures { result ≡ items_shape is_one list (map view items.now) }
{
    match items {
        [name, args @ ..] => named_shape(is_one, list, name.as_str(), args),
        [] => OpShape::NoName,
    }
}

/// The same of its name, where its first item is a string, and its arguments.
#[tactic(auto, unfolding(crate::specs::OpShapes::named_shape))]
fn named_shape(is_one: bool, list: ListName, name: Option<&str>, args: &[Value]) -> OpShape
    ensures { result ≡ named_shape is_one list (option_map (λ s. s.now) name.entry) (map view args.now) }
{
    let Some(name) = name else {
        return OpShape::NoName;
    };
    match op_called(name) {
        Some(op) => args_shape(is_one, list, op, args),
        None => OpShape::Unknown,
    }
}

/// The same of an op that there is.
#[tactic(auto, unfolding(crate::specs::OpShapes::args_shape))]
fn args_shape(is_one: bool, list: ListName, op: OpName, args: &[Value]) -> OpShape
    ensures { result ≡ args_shape is_one list op (map view args.now) }
{
    if is_one && op.is_late() {
        return OpShape::Late(op);
    }
    if !op.may_stand(list) {
        return OpShape::Elsewhere(op, list);
    }
    let signature = signature_of(is_one, op);
    if args.len() != signature.arity() {
        return OpShape::Count(op, signature, args.len());
    }
    match first_wrong(signature, args) {
        Some((index, param)) => OpShape::Kind(index, param),
        None => OpShape::Sound,
    }
}

/// The first argument that isn't of its kind, with its index.
fn first_wrong(signature: Signature, args: &[Value]) -> Option<(usize, Param)>
    ensures { result ≡ wrong_from signature 0 (map view args.now) }
{
    for (i, arg) in args.iter().enumerate() {
        if let Some(param) = wrong_param(signature, i, arg) {
            return Some((i, param));
        }
    }
    None
}

/// What the argument of this index says, where it isn't of its kind.
fn wrong_param(signature: Signature, index: usize, arg: &Value) -> Option<Param>
    ensures { result ≡ wrong_param signature index (view arg.now) }
{
    match signature.param(index) {
        Some(param) if is_wrong(param, arg) => Some(param),
        _ => None,
    }
}
