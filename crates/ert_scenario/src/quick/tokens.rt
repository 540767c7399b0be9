//! Values that hold no object, and no array in an array, from the tokens of a text.

ghost use Rattle.std.specs.Prelude.{◌≡◌, ◌<◌, ◌∷◌, ◌==◌, [], ℕ, suc, true, false, Some, length, slice_index, option_map, IsTrue, IfOk, IfSome};
ghost use Rattle.json.specs.{Json.{value as json_value, items as json_items}, Reads.token_of, Token.begin_array};
ghost use Rattle.serde_json.specs.{Data.number as number_data, Read.{number_of, number_from, of_json, of_items, converted}, View.{view, items_view}};
ghost use Rattle.ert_scenario.specs.Quick.{scalar_of};

use fast_float::Numeral;
use json::{Reader, Token};
use serde_json::Value;
use std::alloc::{AllocError, Global};

/// The value of a field: a scalar, or an array of scalars.
pub(super) fn read_value(
    alloc: Global,
    reader: &mut Reader<'_>,
) -> Result<Option<Value>, AllocError>
    ensures read { IfOk result (λ o. IfSome o (λ v. (depth : ℕ)
        → converted of_json (json_value (suc depth) reader.old) ≡ Some (view v, reader.new))) }
    ensures shorter { IfOk result (λ o. IfSome o (λ _. length reader.new < length reader.old)) }
{
    let Some(token) = reader.next() else {
        return Ok(None);
    };
    match token {
        Token::BeginArray => read_array(alloc, reader),
        _ => scalar(alloc, token),
    }
}

/// The rest of an array of scalars, after the bracket that opens it.
fn read_array(alloc: Global, reader: &mut Reader<'_>) -> Result<Option<Value>, AllocError>
    ensures read { IfOk result (λ o. IfSome o (λ v. (depth : ℕ)
        → converted of_json (json_value (suc depth) (begin_array ∷ reader.old)) ≡ Some (view v, reader.new))) }
    ensures shorter { IfOk result (λ o. IfSome o (λ _. length reader.new < length reader.old)) }
{
    let mut items = Vec::new(alloc);
    if read_items(alloc, reader, &mut items)? {
        Ok(Some(Value::Array(items)))
    } else {
        Ok(None)
    }
}

/// Takes the bracket that opens an array, where it is next.
pub(super) fn takes_begin_array(reader: &mut Reader<'_>) -> bool
    ensures { IsTrue result → reader.old ≡ begin_array ∷ reader.new }
{
    matches!(reader.next(), Some(Token::BeginArray))
}

/// The items of an array after the bracket that opens it, where each is a scalar.
pub(super) fn read_items(
    alloc: Global,
    reader: &mut Reader<'_>,
    items: &mut Vec<Value>,
) -> Result<bool, AllocError>
    requires { items.old.items ≡ [] }
    ensures read { IfOk result (λ all. IsTrue all → (depth : ℕ)
        → converted of_items (json_items (json_value depth) (length reader.old) reader.old)
        ≡ Some (items_view items.new.items, reader.new)) }
    ensures shorter { IfOk result (λ all. IsTrue all → length reader.new < length reader.old) }
{
    'items: while !reader.take_end_array() {
        let Some(token) = reader.next() else {
            return Ok(false);
        };
        let Some(item) = scalar(alloc, token)? else {
            return Ok(false);
        };
        items.push(item)?;
    }
    Ok(true)
}

/// The value of a token that is a string, `true`, `false` or an integer of 64 bits.
fn scalar(alloc: Global, token: Token<'_>) -> Result<Option<Value>, AllocError>
    ensures { IfOk result (λ o. IfSome o (λ v. scalar_of (token_of token.entry) ≡ Some (view v))) }
{
    match token {
        Token::String(text) => Ok(Some(Value::String(String::from_str(alloc, text)?))),
        Token::Bool(b) => Ok(Some(Value::Bool(b))),
        Token::Number(text) => Ok(integer(text)),
        _ => Ok(None),
    }
}

/// The value of a number's text that is an integer of 64 bits.
fn integer(text: &str) -> Option<Value>
    ensures { IfSome result (λ v. option_map number_data (number_of text.now) ≡ Some (view v)) }
{
    let bytes = text.as_bytes();
    if has_minus(bytes) {
        negative(&Numeral::scan(&bytes[1..]))
    } else {
        unsigned(&Numeral::scan(bytes))
    }
}

fn has_minus(bytes: &[u8]) -> bool
    ensures value { result ≡ (slice_index bytes.now 0 == 45) }
    ensures len { IsTrue result → 0 < length bytes.now }
{
    !bytes.is_empty() && bytes[0] == b'-'
}

fn unsigned(numeral: &Numeral<'_>) -> Option<Value>
    ensures { IfSome result (λ v. option_map number_data (number_from false numeral.now) ≡ Some (view v)) }
{
    match numeral.to_u64() {
        Some(n) => Some(Value::from(n)),
        None => None,
    }
}

fn negative(numeral: &Numeral<'_>) -> Option<Value>
    ensures { IfSome result (λ v. option_map number_data (number_from true numeral.now) ≡ Some (view v)) }
{
    match numeral.to_i64(true) {
        Some(n) if n < 0 => Some(Value::from(n)),
        _ => None,
    }
}
