//! Entries.

ghost use Rattle.std.specs.Prelude.{◌≡◌};
ghost use Rattle.ert_audit.specs.{Cuts.{words_of, words_in}, Readers.{value_and_rest, whole}, Events.read_one_entry};

use crate::spelling::actors::{actor, with};
use crate::spelling::events::event;
use crate::spelling::words::Words;
use ert_defs::Entry;

/// The entry that a line is.
#[tactic(auto, using(crate::proofs::Splits::something_left))]
pub(crate) fn entry_of(line: &[u8]) -> Option<Entry>
    ensures { result ≡ whole read_one_entry (words_in line.now) }
{
    let mut words = Some(line);
    let entry = entry(&mut words)?;
    match words {
        None => Some(entry),
        Some(_) => None,
    }
}

/// An entry: its actors, and its event.
#[tactic(auto, unfolding(crate::specs::Events::read_one_entry))]
fn entry(words: &mut Words) -> Option<Entry>
    ensures { value_and_rest result words.new ≡ read_one_entry (words_of words.old) }
{
    let by = actor(words)?;
    let with = with(words)?;
    let event = event(words)?;
    Some(Entry { by, with, event })
}
