//! Numbers: decimal, with a leading minus where negative, and with no other sign and no leading zero.

ghost use Rattle.std.specs.Prelude.{◌≡◌};
ghost use Rattle.ert_audit.specs.{Cuts.words_of, Readers.{value_and_rest, is_plain, natural_of, small_of, integer_of, negative_by}, Reading.{read_small, read_natural, read_integer}};

use crate::spelling::words::{Words, next_word};
use std::str;

/// A number of 32 bits.
#[tactic(auto, unfolding(crate::specs::Reading::read_small))]
pub(crate) fn small(words: &mut Words) -> Option<u32>
    ensures { value_and_rest result words.new ≡ read_small (words_of words.old) }
{
    small_of(next_word(words)?)
}

/// A number of 64 bits.
#[tactic(auto, unfolding(crate::specs::Reading::read_natural))]
pub(crate) fn natural(words: &mut Words) -> Option<u64>
    ensures { value_and_rest result words.new ≡ read_natural (words_of words.old) }
{
    natural_of(next_word(words)?)
}

/// A number of 64 bits that may be negative.
#[tactic(auto, unfolding(crate::specs::Reading::read_integer))]
pub(crate) fn integer(words: &mut Words) -> Option<i64>
    ensures { value_and_rest result words.new ≡ read_integer (words_of words.old) }
{
    integer_of(next_word(words)?)
}

/// The number of 32 bits that a word is.
#[tactic(auto, unfolding(crate::specs::Readers::small_of))]
pub(crate) fn small_of(word: &[u8]) -> Option<u32>
    ensures { result ≡ small_of word.now }
{
    u32::try_from(natural_of(word)?).ok()
}

/// The number of 64 bits that a word is.
#[tactic(auto, unfolding(crate::specs::Readers::natural_of))]
fn natural_of(word: &[u8]) -> Option<u64>
    ensures { result ≡ natural_of word.now }
{
    if !is_plain(word) {
        return None;
    }
    match str::from_utf8(word) {
        Ok(digits) => digits.parse().ok(),
        Err(_) => None,
    }
}

/// Whether a word begins as a number does: with a digit, which is 0 only where it stands alone.
fn is_plain(word: &[u8]) -> bool
    ensures { result ≡ is_plain word.now }
{
    matches!(word, [b'0'..=b'9'] | [b'1'..=b'9', _, ..])
}

/// The number of 64 bits, which may be negative, that a word is.
#[tactic(auto, unfolding(crate::specs::Readers::integer_of))]
fn integer_of(word: &[u8]) -> Option<i64>
    ensures { result ≡ integer_of word.now }
{
    match word {
        [b'-', digits @ ..] => below_zero(natural_of(digits)?),
        _ => i64::try_from(natural_of(word)?).ok(),
    }
}

/// The number that is so far below 0, and not 0.
fn below_zero(distance: u64) -> Option<i64>
    ensures { result ≡ negative_by distance }
{
    let less = i64::try_from(distance.checked_sub(1)?).ok()?;
    Some(-1 - less)
}
