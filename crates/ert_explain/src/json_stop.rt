//! Where bytes stop being JSON.

use crate::expected::Expected;
use crate::scanner::{Piece, PieceKind, Scanner};
use serde_json::Value;
use std::alloc::Global;

/// A number with fewer bytes and no exponent fits a float of 64 bits.
const LONG: usize = 300;

/// How many bytes come before those bytes stop being JSON, and what could stand there.
pub(crate) fn json_stop(alloc: Global, bytes: &[u8]) -> (usize, Expected) {
    let (offset, expected) = first_stop(alloc, bytes);
    match std::str::from_utf8(bytes) {
        Err(e) if e.valid_up_to() <= offset => (e.valid_up_to(), Expected::Utf8),
        _ => (offset, expected),
    }
}

/// The same of bytes that are text.
fn first_stop(alloc: Global, bytes: &[u8]) -> (usize, Expected) {
    let mut scanner = Scanner::new(bytes, 0);
    for _ in 0..=bytes.len() {
        match scanner.next() {
            Ok(Some(piece)) => {
                if let Some(expected) = stop_in(alloc, bytes, piece) {
                    return (piece.start, expected);
                }
            }
            Ok(None) => break,
            Err(expected) => return (scanner.offset(), expected),
        }
    }
    (scanner.offset(), Expected::End)
}

/// What could stand in place of a piece that looks like JSON, and isn't.
fn stop_in(alloc: Global, bytes: &[u8], piece: Piece) -> Option<Expected> {
    let part = bytes.get(piece.start..piece.end)?;
    let expected = match piece.kind {
        PieceKind::Name | PieceKind::Text if part.contains(&b'\\') => Expected::WholePairs,
        PieceKind::Number if may_be_large(part) => Expected::SmallerNumber,
        _ => return None,
    };
    match Value::from_slice(alloc, part) {
        Err(e) if !e.is_memory() => Some(expected),
        _ => None,
    }
}

/// Whether a number may be too large for a float of 64 bits.
fn may_be_large(number: &[u8]) -> bool {
    number.len() >= LONG || number.contains(&b'e') || number.contains(&b'E')
}
