//! The parts that events of timers have.

ghost use Rattle.std.specs.Prelude.{◌≡◌};
ghost use Rattle.ert_audit.specs.{Cuts.words_of, Readers.{value_and_rest, optional}, Reading.{read_timer, read_when, read_kind, read_start, read_status, read_left}};

use crate::spelling::numbers::{integer, natural, small};
use crate::spelling::words::{Words, next_text, none};
use ert_defs::{Kind, Start, Status, TimerRef, When};

/// A reference to a timer.
#[tactic(auto, unfolding(crate::specs::Reading::read_timer))]
pub(crate) fn timer(words: &mut Words) -> Option<TimerRef>
    ensures { value_and_rest result words.new ≡ read_timer (words_of words.old) }
{
    let wheel = small(words)?;
    let slot = small(words)?;
    let generation = natural(words)?;
    Some(TimerRef {
        wheel,
        slot,
        generation,
    })
}

/// What a timer is started with.
#[tactic(auto, unfolding(crate::specs::Reading::read_start))]
pub(crate) fn start(words: &mut Words) -> Option<Start>
    ensures { value_and_rest result words.new ≡ read_start (words_of words.old) }
{
    let when = when(words)?;
    let dest = small(words)?;
    let msg = natural(words)?;
    let kind = kind(words)?;
    Some(Start {
        when,
        dest,
        msg,
        kind,
    })
}

/// When a timer is to expire.
#[tactic(auto, unfolding(crate::specs::Reading::read_when))]
fn when(words: &mut Words) -> Option<When>
    ensures { value_and_rest result words.new ≡ read_when (words_of words.old) }
{
    match next_text(words)? {
        "after" => Some(When::After(integer(words)?)),
        "at" => Some(When::At(integer(words)?)),
        _ => None,
    }
}

/// What a timer sends.
#[tactic(auto, unfolding(crate::specs::Reading::read_kind))]
pub(crate) fn kind(words: &mut Words) -> Option<Kind>
    ensures { value_and_rest result words.new ≡ read_kind (words_of words.old) }
{
    match next_text(words)? {
        "wrapped" => Some(Kind::Wrapped),
        "bare" => Some(Kind::Bare),
        _ => None,
    }
}

/// Where a timer stood, where there was one.
pub(crate) fn found(words: &mut Words) -> Option<Option<Status>>
    ensures { value_and_rest result words.new ≡ optional read_status (words_of words.old) }
{
    if let Some(rest) = none(*words) {
        *words = rest;
        return Some(None);
    }
    Some(Some(status(words)?))
}

/// Where a timer stands.
#[tactic(auto, unfolding(crate::specs::Reading::read_status))]
fn status(words: &mut Words) -> Option<Status>
    ensures { value_and_rest result words.new ≡ read_status (words_of words.old) }
{
    match next_text(words)? {
        "armed" => Some(Status::Armed),
        "expired" => Some(Status::Expired),
        "delivered" => Some(Status::Delivered),
        "cancelled" => Some(Status::Cancelled),
        "orphaned" => Some(Status::Orphaned),
        "dropped" => Some(Status::Dropped),
        _ => None,
    }
}

/// How many milliseconds were left, where the timer was armed.
#[tactic(auto, unfolding(crate::specs::Reading::read_left))]
pub(crate) fn left(words: &mut Words) -> Option<Option<u64>>
    ensures { value_and_rest result words.new ≡ read_left (words_of words.old) }
{
    if let Some(rest) = none(*words) {
        *words = rest;
        return Some(None);
    }
    Some(Some(natural(words)?))
}
