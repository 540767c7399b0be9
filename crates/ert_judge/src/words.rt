//! The words and the parts of texts.

ghost use Rattle.std.specs.Prelude.{◌≡◌, ◌++◌, OnOk, string_bytes};
ghost use Rattle.ert_judge.specs.Texts.{offset_state_word, standing_word, thing_word, asked_word, truth_word, request_text, answer_text, mail_text};

use crate::reasons::Counted;
use ert_defs::{Mail, OffsetState, Request, RequestKind, Status, TimerRef};
use std::alloc::AllocError;
use std::fmt::Write;

#[tactic(auto, unfolding(crate::specs::Texts::offset_state_word))]
pub fn state_word(state: OffsetState) -> &'static str
    ensures { result.now ≡ offset_state_word state }
{
    match state {
        OffsetState::Preliminary => "preliminary",
        OffsetState::Final => "final",
        OffsetState::Volatile => "volatile",
    }
}

#[tactic(auto, unfolding(crate::specs::Texts::standing_word))]
pub fn status_word(status: Status) -> &'static str
    ensures { result.now ≡ standing_word status }
{
    match status {
        Status::Armed => "armed",
        Status::Expired => "expired",
        Status::Delivered => "delivered",
        Status::Cancelled => "cancelled",
        Status::Orphaned => "orphaned",
        Status::Dropped => "dropped",
    }
}

#[tactic(auto, unfolding(crate::specs::Texts::thing_word))]
pub fn thing_word(thing: Counted) -> &'static str
    ensures { result.now ≡ thing_word thing }
{
    match thing {
        Counted::Callers => "caller",
        Counted::Schedulers => "scheduler",
        Counted::Processes => "process",
        Counted::Slots => "slot",
    }
}

#[tactic(auto, unfolding(crate::specs::Texts::asked_word))]
fn kind_word(kind: RequestKind) -> &'static str
    ensures { result.now ≡ asked_word kind }
{
    match kind {
        RequestKind::Cancel => "cancel",
        RequestKind::Read => "read",
    }
}

#[tactic(auto, unfolding(crate::specs::Texts::truth_word))]
fn bool_word(is_so: bool) -> &'static str
    ensures { result.now ≡ truth_word is_so }
{
    if is_so { "true" } else { "false" }
}

/// A request, spelled as in a history.
pub fn write_request(page: &mut String, request: Request) -> Result<(), AllocError>
    ensures { OnOk result (string_bytes page.new ≡ string_bytes page.old ++ request_text request) }
{
    let timer = request.timer;
    write!(
        page,
        "{} {} {} {} {} {}",
        kind_word(request.kind),
        timer.wheel,
        timer.slot,
        timer.generation,
        request.reply_to,
        bool_word(request.info)
    )
}

/// What an answer tells to be left.
pub fn write_left(page: &mut String, left: Option<u64>) -> Result<(), AllocError>
    ensures { OnOk result (string_bytes page.new ≡ string_bytes page.old ++ answer_text left) }
{
    match left {
        None => write!(page, " none"),
        Some(left) => write!(page, " {left}"),
    }
}

/// A message, spelled as in a history.
pub fn write_mail(page: &mut String, mail: Mail) -> Result<(), AllocError>
    ensures { OnOk result (string_bytes page.new ≡ string_bytes page.old ++ mail_text mail) }
{
    match mail {
        Mail::Timeout { timer, msg } => write_timeout(page, timer, msg),
        Mail::Bare { msg } => write!(page, "bare {msg}"),
        Mail::CancelDone { timer, left } => write_cancel_done(page, timer, left),
        Mail::ReadDone { timer, left } => write_read_done(page, timer, left),
        Mail::Change { monitor, offset } => write!(page, "change {monitor} {offset}"),
    }
}

fn write_timeout(page: &mut String, timer: TimerRef, msg: u64) -> Result<(), AllocError>
    ensures { OnOk result (string_bytes page.new ≡ string_bytes page.old ++ mail_text (Mail.Timeout timer msg)) }
{
    write!(
        page,
        "timeout {} {} {} {msg}",
        timer.wheel, timer.slot, timer.generation
    )
}

fn write_cancel_done(
    page: &mut String,
    timer: TimerRef,
    left: Option<u64>,
) -> Result<(), AllocError>
    ensures { OnOk result (string_bytes page.new ≡ string_bytes page.old ++ mail_text (Mail.CancelDone timer left)) }
{
    let TimerRef { wheel, slot, .. } = timer;
    let last = timer.generation;
    match left {
        None => write!(page, "cancel_done {wheel} {slot} {last} none"),
        Some(left) => write!(page, "cancel_done {wheel} {slot} {last} {left}"),
    }
}

fn write_read_done(page: &mut String, timer: TimerRef, left: Option<u64>) -> Result<(), AllocError>
    ensures { OnOk result (string_bytes page.new ≡ string_bytes page.old ++ mail_text (Mail.ReadDone timer left)) }
{
    let TimerRef { wheel, slot, .. } = timer;
    let last = timer.generation;
    match left {
        None => write!(page, "read_done {wheel} {slot} {last} none"),
        Some(left) => write!(page, "read_done {wheel} {slot} {last} {left}"),
    }
}
