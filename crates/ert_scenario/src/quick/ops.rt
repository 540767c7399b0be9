//! The ops of a list, from the tokens of a text.

ghost use Rattle.std.specs.Prelude.{◌<◌, length, IsTrue, IfOk, IfSome};
ghost use Rattle.ert_scenario.specs.Quick.{ReadsOp, ReadsOps};

use super::tokens::{read_items, takes_begin_array};
use crate::doer::ListDoer;
use crate::format::Format;
use crate::rows::op_from;
use ert_ops::Op;
use json::Reader;
use serde_json::Value;
use std::alloc::{AllocError, Global};

/// Reads an array of ops, each an array of scalars, in place of these ops.
pub(super) fn read_ops(
    alloc: Global,
    reader: &mut Reader<'_>,
    format: Format,
    ops: &mut Vec<Op>,
) -> Result<bool, AllocError>
    ensures read { IfOk result (λ all. IsTrue all → ReadsOps format reader.old reader.new ops.new.items) }
    ensures shorter { IfOk result (λ all. IsTrue all → length reader.new < length reader.old) }
{
    ops.clear();
    if !takes_begin_array(reader) {
        return Ok(false);
    }
    let mut args = Vec::new(alloc);
    'ops: while !reader.take_end_array() {
        let Some(op) = read_op(alloc, reader, format, &mut args)? else {
            return Ok(false);
        };
        ops.push(op)?;
    }
    Ok(true)
}

/// The next op. Its items are read into this buffer.
fn read_op(
    alloc: Global,
    reader: &mut Reader<'_>,
    format: Format,
    args: &mut Vec<Value>,
) -> Result<Option<Op>, AllocError>
    ensures read { IfOk result (λ o. IfSome o (λ op. ReadsOp format reader.old reader.new op)) }
    ensures shorter { IfOk result (λ o. IfSome o (λ _. length reader.new < length reader.old)) }
{
    args.clear();
    if !takes_begin_array(reader) || !read_items(alloc, reader, args)? {
        return Ok(None);
    }
    match op_from(format, ListDoer::Everyone, args) {
        Ok(op) => Ok(Some(op)),
        Err(_) => Ok(None),
    }
}
