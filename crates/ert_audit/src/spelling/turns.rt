//! Whose turn it is to read each word of a line.

ghost use Rattle.std.specs.Prelude.{◌≡◌, [], option_map, unwrap_or};
ghost use Rattle.ert_audit.specs.{Faults.{first_turns, turns_after, request_turns, turn_rows, later_turn_rows, mail_turn_rows, meaning}, Readers.meant_by};

use crate::spelling::wanted::Wanted;
use crate::spelling::words::next_text;

/// In the first line of a history, up to the name of the event in the others.
pub(crate) fn first_turns(is_first: bool) -> &'static [Wanted]
    ensures { result.now ≡ first_turns is_first }
{
    use Wanted::{Actor, Event, Integer, Mode, Partner, SettingsWord, Small, Truth};
    if is_first {
        &[
            SettingsWord,
            Mode,
            Truth,
            Integer,
            Small,
            Small,
            Small,
            Small,
            Integer,
            Integer,
        ]
    } else {
        &[Actor, Partner, Event]
    }
}

/// After a word, where these were to follow.
pub(crate) fn turns_after(wanted: Wanted, word: &[u8], more: &'static [Wanted]) -> &'static [Wanted]
    ensures { result.now ≡ turns_after wanted word.now more.now }
{
    match wanted {
        Wanted::Event => known(event_turns(word)),
        Wanted::Picked => request_turns(word),
        Wanted::Taken => known(mail_turns(word)),
        _ => more,
    }
}

/// The turns of a name; none where it is no name.
fn known(turns: Option<&'static [Wanted]>) -> &'static [Wanted]
    ensures { result.now ≡ unwrap_or (option_map (λ x. x.now) turns.entry) [] }
{
    match turns {
        Some(turns) => turns,
        None => &[],
    }
}

/// In the rest of a request.
#[tactic(auto, unfolding(crate::specs::Faults::request_turns))]
fn request_turns(word: &[u8]) -> &'static [Wanted]
    ensures { result.now ≡ request_turns word.now }
{
    use Wanted::{Natural, Small, Truth};
    if word == b"none".as_slice() {
        &[]
    } else {
        &[Small, Small, Natural, Small, Truth]
    }
}

/// In the fields of an event, where a word is the name of one.
pub(crate) fn event_turns(word: &[u8]) -> Option<&'static [Wanted]>
    ensures { option_map (λ x. x.now) result ≡ meaning turn_rows word.now }
{
    let name = next_text(&mut Some(word))?;
    turns_of_event(name)
}

/// In the fields of a message, where a word is the name of one.
pub(crate) fn mail_turns(word: &[u8]) -> Option<&'static [Wanted]>
    ensures { option_map (λ x. x.now) result ≡ meaning mail_turn_rows word.now }
{
    let name = next_text(&mut Some(word))?;
    turns_of_mail(name)
}

fn turns_of_event(name: &str) -> Option<&'static [Wanted]>
    ensures { option_map (λ x. x.now) result ≡ meant_by name.now turn_rows }
{
    use Wanted::{Act, Found, Integer, Kind, Left, Natural, Small, State, When};
    match name {
        "tick" => Some(&[Integer, Integer, Act, Integer]),
        "shift" => Some(&[Integer, State]),
        "look" => Some(&[Integer]),
        "off" => Some(&[Integer, State]),
        "arm" => Some(&[Small, Small, Natural, When, Integer, Small, Natural, Kind]),
        "probe" => Some(&[Small, Small, Found]),
        "peek" => Some(&[Small, Small, Natural, Left]),
        "cancel" => Some(&[Small, Small, Natural, Left]),
        "expire" => Some(&[Small, Small, Natural]),
        "orphan" => Some(&[Small, Small, Natural]),
        "deliver" => Some(&[Small, Small, Natural]),
        "drop" => Some(&[Small, Small, Natural]),
        _ => turns_of_later(name),
    }
}

/// The same of the events that are no timer's and not the clock's.
fn turns_of_later(name: &str) -> Option<&'static [Wanted]>
    ensures { option_map (λ x. x.now) result ≡ meant_by name.now later_turn_rows }
{
    use Wanted::{Integer, Left, Natural, Picked, RequestKind, Small, Taken, Truth};
    match name {
        "mark" => Some(&[Small, Truth, Truth]),
        "advanced" => Some(&[Small, Natural]),
        "ask" => Some(&[Small, RequestKind, Small, Small, Natural, Small, Truth]),
        "pick" => Some(&[Small, Picked]),
        "answer" => Some(&[Small, Left]),
        "take" => Some(&[Small, Taken]),
        "unwatch" => Some(&[Small, Small, Truth]),
        "watch" => Some(&[Small, Small, Integer]),
        "tell" => Some(&[Small, Integer]),
        _ => None,
    }
}

fn turns_of_mail(name: &str) -> Option<&'static [Wanted]>
    ensures { option_map (λ x. x.now) result ≡ meant_by name.now mail_turn_rows }
{
    use Wanted::{Integer, Left, Natural, Small};
    match name {
        "timeout" => Some(&[Small, Small, Natural, Natural]),
        "bare" => Some(&[Natural]),
        "cancel_done" => Some(&[Small, Small, Natural, Left]),
        "read_done" => Some(&[Small, Small, Natural, Left]),
        "change" => Some(&[Small, Integer]),
        _ => None,
    }
}
