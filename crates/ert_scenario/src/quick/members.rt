//! The members of a scenario's object, from the tokens of a text.

ghost use Rattle.std.specs.Prelude.{◌≡◌, ◌<◌, ◌∷◌, [], ℕ, suc, Some, None, false, codes, length, IsTrue, IfOk, IfSome};
ghost use Rattle.std.specs.Str.{bytes_eq};
ghost use Rattle.json.specs.{Json.{value as json_value, members as json_members}, Token.begin_object};
ghost use Rattle.serde_json.specs.{Data.{Members, object, no_members}, Read.{of_json, of_members, converted}};
ghost use Rattle.ert_scenario.specs.QuickMembers.{IsSeenAs, ReadsMember};

use super::ops::read_ops;
use super::tokens::read_value;
use crate::format::{Format, format_from};
use crate::migration::put;
use ert_ops::Op;
use json::{Reader, Token};
use serde_json::{Map, Value};
use std::alloc::{AllocError, Global};

/// The members of a scenario's object.
#[derive(Drop)]
pub(super) struct Seen {
    /// All but `ops`.
    pub(super) fields: Map<String, Value>,
    /// The format that the field `format` names, or 2 as long as it wasn't read.
    pub(super) named: Format,
    /// The format that the ops were read by, once they were.
    pub(super) format: Option<Format>,
    /// The ops.
    pub(super) ops: Vec<Op>,
}

/// The object that comes next, with room for so many ops.
pub(super) fn read_object(
    alloc: Global,
    reader: &mut Reader<'_>,
    room: usize,
) -> Result<Option<Seen>, AllocError>
    ensures { IfOk result (λ o. IfSome o (λ seen. (all : Members)
        × (converted of_json (json_value 127 reader.old) ≡ Some (object all, reader.new))
        × IsSeenAs seen all)) }
{
    if !takes_begin_object(reader) {
        return Ok(None);
    }
    let mut seen = Seen {
        fields: Map::new(alloc),
        named: Format::Two,
        format: None,
        ops: Vec::with_capacity(alloc, room)?,
    };
    if !read_members(alloc, reader, &mut seen)? {
        return Ok(None);
    }
    Ok(Some(seen))
}

/// Takes the brace that opens an object, where it is next.
fn takes_begin_object(reader: &mut Reader<'_>) -> bool
    ensures { IsTrue result → reader.old ≡ begin_object ∷ reader.new }
{
    matches!(reader.next(), Some(Token::BeginObject))
}

/// The members of an object after the brace that opens it.
fn read_members(alloc: Global, reader: &mut Reader<'_>, seen: &mut Seen) -> Result<bool, AllocError>
    requires fields { seen.old.fields.entries ≡ [] }
    requires ops { seen.old.format ≡ None }
    ensures { IfOk result (λ all_read. IsTrue all_read → (all : Members)
        × ((depth : ℕ) → converted (λ ms. of_members ms no_members) (json_members (json_value (suc (suc depth))) (length reader.old) reader.old)
        ≡ Some (all, reader.new))
        × IsSeenAs seen.new all) }
{
    'members: loop {
        match reader.next_key() {
            Ok(Some(name)) => {
                if !read_member(alloc, reader, name, seen)? {
                    return Ok(false);
                }
            }
            Ok(None) => return Ok(true),
            Err(_) => return Ok(false),
        }
    }
}

/// The value of the member of this name.
fn read_member(
    alloc: Global,
    reader: &mut Reader<'_>,
    name: &str,
    seen: &mut Seen,
) -> Result<bool, AllocError>
    ensures read { IfOk result (λ all. IsTrue all → ReadsMember name.now reader.old reader.new seen.old seen.new) }
    ensures shorter { IfOk result (λ all. IsTrue all → length reader.new < length reader.old) }
{
    if name == "ops" {
        read_list(alloc, reader, seen)
    } else {
        read_field(alloc, reader, name, seen)
    }
}

/// The ops.
fn read_list(alloc: Global, reader: &mut Reader<'_>, seen: &mut Seen) -> Result<bool, AllocError>
    ensures read { IfOk result (λ all. IsTrue all → ReadsMember (codes "ops") reader.old reader.new seen.old seen.new) }
    ensures shorter { IfOk result (λ all. IsTrue all → length reader.new < length reader.old) }
{
    let format = seen.named;
    if !read_ops(alloc, reader, format, &mut seen.ops)? {
        return Ok(false);
    }
    seen.format = Some(format);
    Ok(true)
}

/// The value of a field of this name, which isn't `ops`.
fn read_field(
    alloc: Global,
    reader: &mut Reader<'_>,
    name: &str,
    seen: &mut Seen,
) -> Result<bool, AllocError>
    requires { bytes_eq name.now (codes "ops") ≡ false }
    ensures read { IfOk result (λ all. IsTrue all → ReadsMember name.now reader.old reader.new seen.old seen.new) }
    ensures shorter { IfOk result (λ all. IsTrue all → length reader.new < length reader.old) }
{
    let Some(value) = read_value(alloc, reader)? else {
        return Ok(false);
    };
    seen.named = format_after(seen.named, name, &value);
    put(alloc, &mut seen.fields, name, value)?;
    Ok(true)
}

/// The format that is named after a field, where this was named before.
fn format_after(named: Format, name: &str, value: &Value) -> Format {
    if name == "format" {
        format_from(Some(value))
    } else {
        named
    }
}
