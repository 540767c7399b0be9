//! The words of a line, and those of them that are names.

ghost use Rattle.std.specs.Prelude.{◌≡◌, option_map};
ghost use Rattle.ert_audit.specs.{Cuts.words_of, Readers.{value_and_rest, read_word, read_text, none_at}, Reading.read_bool};

use crate::spelling::cutting::cut;
use std::str;

/// The words of a line that are still to be read: the bytes that they stand in, or nothing after the last.
pub(crate) type Words<'a> = Option<&'a [u8]>;

/// The next word, which may have no bytes.
#[tactic(auto, using(crate::proofs::Splits::cut_words, crate::proofs::Splits::free_words), unfolding(crate::specs::Readers::read_word))]
pub(crate) fn next_word<'a>(words: &mut Words<'a>) -> Option<&'a [u8]>
    ensures { option_map (λ x. (x.now, words_of words.new)) result ≡ read_word (words_of words.old) }
{
    let line = (*words)?;
    match cut(line, b' ') {
        Some((word, rest)) => {
            *words = Some(rest);
            Some(word)
        }
        None => {
            *words = None;
            Some(line)
        }
    }
}

/// The next word as text. A word that isn't UTF-8 is none.
#[tactic(auto, using(crate::proofs::Splits::no_text, crate::proofs::Splits::text), unfolding(crate::specs::Readers::read_word, crate::specs::Readers::read_text))]
pub(crate) fn next_text<'a>(words: &mut Words<'a>) -> Option<&'a str>
    ensures { option_map (λ x. (x.now, words_of words.new)) result ≡ read_text (words_of words.old) }
{
    match str::from_utf8(next_word(words)?) {
        Ok(text) => Some(text),
        Err(_) => None,
    }
}

/// The words after the word `none`.
#[tactic(auto, unfolding(crate::specs::Readers::read_word, crate::specs::Readers::none_at))]
pub(crate) fn none(words: Words) -> Option<Words>
    ensures { option_map words_of result ≡ none_at (words_of words.entry) }
{
    let mut rest = words;
    if next_word(&mut rest)? == b"none".as_slice() {
        Some(rest)
    } else {
        None
    }
}

/// `true` or `false`.
#[tactic(auto, unfolding(crate::specs::Reading::read_bool))]
pub(crate) fn truth(words: &mut Words) -> Option<bool>
    ensures { value_and_rest result words.new ≡ read_bool (words_of words.old) }
{
    match next_text(words)? {
        "true" => Some(true),
        "false" => Some(false),
        _ => None,
    }
}
