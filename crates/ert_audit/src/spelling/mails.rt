//! Requests, and messages in mailboxes.

ghost use Rattle.std.specs.Prelude.{◌≡◌};
ghost use Rattle.ert_audit.specs.{Cuts.words_of, Readers.{value_and_rest, optional, read_named}, Reading.{read_request_kind, read_request, read_mail, mail_rows, read_timeout, read_bare, read_cancel_done, read_read_done, read_change}};

use crate::spelling::numbers::{integer, natural, small};
use crate::spelling::timers::{left, timer};
use crate::spelling::words::{Words, next_text, none, truth};
use ert_defs::{Mail, Request, RequestKind};

/// A request.
#[tactic(auto, unfolding(crate::specs::Reading::read_request))]
pub(crate) fn request(words: &mut Words) -> Option<Request>
    ensures { value_and_rest result words.new ≡ read_request (words_of words.old) }
{
    let kind = request_kind(words)?;
    let timer = timer(words)?;
    let reply_to = small(words)?;
    let info = truth(words)?;
    Some(Request {
        kind,
        timer,
        reply_to,
        info,
    })
}

/// What a request asks for.
#[tactic(auto, unfolding(crate::specs::Reading::read_request_kind))]
pub(crate) fn request_kind(words: &mut Words) -> Option<RequestKind>
    ensures { value_and_rest result words.new ≡ read_request_kind (words_of words.old) }
{
    match next_text(words)? {
        "cancel" => Some(RequestKind::Cancel),
        "read" => Some(RequestKind::Read),
        _ => None,
    }
}

/// A request, or that there was none.
pub(crate) fn picked(words: &mut Words) -> Option<Option<Request>>
    ensures { value_and_rest result words.new ≡ optional read_request (words_of words.old) }
{
    if let Some(rest) = none(*words) {
        *words = rest;
        return Some(None);
    }
    Some(Some(request(words)?))
}

/// A message, or that there was none.
pub(crate) fn taken(words: &mut Words) -> Option<Option<Mail>>
    ensures { value_and_rest result words.new ≡ optional read_mail (words_of words.old) }
{
    if let Some(rest) = none(*words) {
        *words = rest;
        return Some(None);
    }
    Some(Some(mail(words)?))
}

/// A message in a mailbox.
#[tactic(auto, unfolding(crate::specs::Reading::read_mail))]
fn mail(words: &mut Words) -> Option<Mail>
    ensures { value_and_rest result words.new ≡ read_mail (words_of words.old) }
{
    called(next_text(words)?, words)
}

/// The message of this name.
fn called(name: &str, words: &mut Words) -> Option<Mail>
    ensures { value_and_rest result words.new ≡ read_named name.now mail_rows (words_of words.old) }
{
    match name {
        "timeout" => timeout(words),
        "bare" => bare(words),
        "cancel_done" => cancel_done(words),
        "read_done" => read_done(words),
        "change" => change(words),
        _ => None,
    }
}

/// A timer has expired.
#[tactic(auto, unfolding(crate::specs::Reading::read_timeout))]
fn timeout(words: &mut Words) -> Option<Mail>
    ensures { value_and_rest result words.new ≡ read_timeout (words_of words.old) }
{
    let timer = timer(words)?;
    let msg = natural(words)?;
    Some(Mail::Timeout { timer, msg })
}

/// A message alone.
#[tactic(auto, unfolding(crate::specs::Reading::read_bare))]
fn bare(words: &mut Words) -> Option<Mail>
    ensures { value_and_rest result words.new ≡ read_bare (words_of words.old) }
{
    let msg = natural(words)?;
    Some(Mail::Bare { msg })
}

/// The answer to a cancel.
#[tactic(auto, unfolding(crate::specs::Reading::read_cancel_done))]
fn cancel_done(words: &mut Words) -> Option<Mail>
    ensures { value_and_rest result words.new ≡ read_cancel_done (words_of words.old) }
{
    let timer = timer(words)?;
    let left = left(words)?;
    Some(Mail::CancelDone { timer, left })
}

/// The answer to a read.
#[tactic(auto, unfolding(crate::specs::Reading::read_read_done))]
fn read_done(words: &mut Words) -> Option<Mail>
    ensures { value_and_rest result words.new ≡ read_read_done (words_of words.old) }
{
    let timer = timer(words)?;
    let left = left(words)?;
    Some(Mail::ReadDone { timer, left })
}

/// A change of the offset.
#[tactic(auto, unfolding(crate::specs::Reading::read_change))]
fn change(words: &mut Words) -> Option<Mail>
    ensures { value_and_rest result words.new ≡ read_change (words_of words.old) }
{
    let monitor = small(words)?;
    let offset = integer(words)?;
    Some(Mail::Change { monitor, offset })
}
