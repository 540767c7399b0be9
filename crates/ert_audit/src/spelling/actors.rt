//! The actors of an entry.

ghost use Rattle.std.specs.Prelude.{◌≡◌, Some};
ghost use Rattle.ert_audit.specs.{Cuts.words_of, Readers.value_and_rest, Reading.{lettered, actor_of, with_of, read_actor, read_with}};

use crate::spelling::numbers::small_of;
use crate::spelling::words::{Words, next_word};
use ert_defs::Actor;

/// The actor that made an entry.
#[tactic(auto, unfolding(crate::specs::Reading::read_actor))]
pub(crate) fn actor(words: &mut Words) -> Option<Actor>
    ensures { value_and_rest result words.new ≡ read_actor (words_of words.old) }
{
    actor_of(next_word(words)?)
}

/// The second actor that made an entry, where there is one.
#[tactic(auto, unfolding(crate::specs::Reading::read_with))]
pub(crate) fn with(words: &mut Words) -> Option<Option<Actor>>
    ensures { value_and_rest result words.new ≡ read_with (words_of words.old) }
{
    with_of(next_word(words)?)
}

/// The actor that a word names: a letter, and its number. The clock has a letter alone.
#[tactic(auto, using(crate::proofs::Splits::no_number), unfolding(crate::specs::Reading::actor_of))]
fn actor_of(word: &[u8]) -> Option<Actor>
    ensures { result ≡ actor_of word.now }
{
    match word {
        [] => None,
        [b'k', number @ ..] => {
            if number.is_empty() {
                Some(Actor::Keeper)
            } else {
                None
            }
        }
        [letter, number @ ..] => lettered(*letter, small_of(number)?),
    }
}

/// The actor of this letter that has this number.
fn lettered(letter: u8, number: u32) -> Option<Actor>
    ensures { result ≡ lettered letter (Some number) }
{
    match letter {
        b'w' => Some(Actor::Wheel(number)),
        b'i' => Some(Actor::Inbox(number)),
        b's' => Some(Actor::Sched(number)),
        b'm' => Some(Actor::MailOf(number)),
        b'c' => Some(Actor::Caller(number)),
        _ => None,
    }
}

/// The second actor that a word names, or that there is none.
#[tactic(auto, unfolding(crate::specs::Reading::with_of))]
fn with_of(word: &[u8]) -> Option<Option<Actor>>
    ensures { result ≡ with_of word.now }
{
    if word == b"-".as_slice() {
        return Some(None);
    }
    Some(Some(actor_of(word)?))
}
