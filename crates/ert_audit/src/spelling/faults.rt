//! Where a line stops being spelled: each word of it is tried by the reader whose turn it is.

ghost use Rattle.std.specs.Prelude.{◌≡◌, ◌≤◌, ◌+◌, ◌∷◌, length, drop, is_some, IfSome, IfNone};
ghost use Rattle.ert_defs.specs.declared.settings.SettingsFault as settings;
ghost use Rattle.ert_audit.specs.{Cuts.words_in, Faults.{word_in, words_from, is_read, fault_from, line_fault, first_turns, turns_after, IsUnfit}, Readers.meant_by, Reading.when_rows};

use crate::spelling::actors::{actor, with};
use crate::spelling::cutting::cut;
use crate::spelling::mails::request_kind;
use crate::spelling::numbers::{integer, natural, small};
use crate::spelling::settings::{act, mode, settings_of, state};
use crate::spelling::timers::{found, kind, left};
use crate::spelling::turns::{event_turns, first_turns, mail_turns, turns_after};
use crate::spelling::wanted::{Wanted, WordFault};
use crate::spelling::words::truth;
use ert_defs::SettingsFault;

/// Where the line of settings, or of an entry, stops being spelled; None where it is spelled to its end.
pub fn fault_in(line: &[u8], is_first: bool) -> Option<WordFault>
    ensures fault { result ≡ line_fault is_first line.now }
    ensures within { IfSome result (λ fault. fault.before ≤ length line.now) }
{
    let mut turns = first_turns(is_first);
    let mut at = 0;
    while let [wanted, more @ ..] = turns {
        if at > line.len() {
            return Some(WordFault {
                before: line.len(),
                wanted: *wanted,
            });
        }
        let word = first_word(line, at);
        if !is_read(*wanted, word) {
            return Some(WordFault {
                before: at,
                wanted: *wanted,
            });
        }
        at += word.len() + 1;
        turns = turns_after(*wanted, word, more);
    }
    if at > line.len() {
        return None;
    }
    Some(WordFault {
        before: at.saturating_sub(1),
        wanted: Wanted::End,
    })
}

/// Why no service can be opened with the settings of a line.
pub fn unfit(line: &[u8]) -> Option<SettingsFault>
    ensures some { IfSome result (IsUnfit line.now) }
    ensures none { IfNone result ((fault : settings.SettingsFault) → IsUnfit line.now fault → ⊥) }
{
    let settings = settings_of(line)?;
    match settings.check() {
        Ok(()) => None,
        Err(fault) => Some(fault),
    }
}

/// The word of a line after so many bytes.
pub fn first_word(line: &[u8], before: usize) -> &[u8]
    requires { before ≤ length line.now }
    ensures word { result.now ≡ word_in (drop before line.now) }
    ensures more { words_from line.now before ≡ result.now ∷ words_from line.now (before + length result.now + 1) }
    ensures short { before + length result.now ≤ length line.now }
{
    match cut(&line[before..], b' ') {
        Some((word, _)) => word,
        None => &line[before..],
    }
}

/// Whether a word is read by the reader of what could stand there.
#[tactic(auto, using(crate::proofs::Unseen::same_some, crate::proofs::Unseen::is_event, crate::proofs::Unseen::is_mail), unfolding(crate::specs::Faults::is_read))]
fn is_read(wanted: Wanted, word: &[u8]) -> bool
    ensures { result ≡ is_read wanted word.now }
{
    let mut words = Some(word);
    match wanted {
        Wanted::SettingsWord => word == b"settings".as_slice(),
        Wanted::Mode => mode(&mut words).is_some(),
        Wanted::Truth => truth(&mut words).is_some(),
        Wanted::Integer => integer(&mut words).is_some(),
        Wanted::Small => small(&mut words).is_some(),
        Wanted::Natural => natural(&mut words).is_some(),
        Wanted::Act => act(&mut words).is_some(),
        Wanted::State => state(&mut words).is_some(),
        Wanted::Found => found(&mut words).is_some(),
        Wanted::Kind => kind(&mut words).is_some(),
        Wanted::When => is_when(word),
        Wanted::Actor => actor(&mut words).is_some(),
        Wanted::Partner => with(&mut words).is_some(),
        Wanted::Event => event_turns(word).is_some(),
        Wanted::RequestKind => request_kind(&mut words).is_some(),
        Wanted::Picked => word == b"none".as_slice() || request_kind(&mut words).is_some(),
        Wanted::Taken => word == b"none".as_slice() || mail_turns(word).is_some(),
        Wanted::Left => left(&mut words).is_some(),
        Wanted::End => false,
    }
}

/// Whether a word stands before the time of a timer.
fn is_when(word: &[u8]) -> bool
    ensures { result ≡ is_some (meant_by word.now when_rows) }
{
    word == b"after".as_slice() || word == b"at".as_slice()
}
