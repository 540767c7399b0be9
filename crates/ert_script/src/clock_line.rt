//! The lines that tell times and the offset.
ghost use Rattle.std.specs.Prelude.{◌≡◌, ℕ, ◌++◌, codes, OnOk, string_bytes};
ghost use Rattle.std.specs.Fmt.{signed_decimal};
ghost use Rattle.ert_defs.specs.declared.timer.TimerRef.{TimerRef};
ghost use Rattle.ert_script.specs.Told.{IsClockReply};
ghost use Rattle.ert_ops.specs.Lines.{line_of};
ghost use Rattle.ert_ops.specs.Texts.{◌⋅◌, moved_text, state_text, info_front, info_middle, info_back, offset_text};

use crate::words::{bool_word, mode_word, state_word};
use ert_defs::{Mode, OffsetState};
use ert_ops::Reply;
use std::alloc::AllocError;
use std::fmt::Write;

/// Appends the line of a reply that tells times or the offset.
pub fn write_clock(page: &mut String, reply: &Reply) -> Result<(), AllocError>
    requires { IsClockReply reply.now }
    ensures { (name : TimerRef → ℕ) → OnOk result (string_bytes page.new ≡ string_bytes page.old ++ line_of name reply.now) }
{
    match *reply {
        Reply::Tick { now, shift } => write_moved(page, "tick ", now, shift),
        Reply::TickWide { value } => write_wide(page, "tick offset_wide ", value),
        Reply::Check { now, shift } => write_moved(page, "check ", now, shift),
        Reply::CheckWide { value } => write_wide(page, "check offset_wide ", value),
        Reply::Finalize { old, now, shift } => write_finalize(page, old, now, shift),
        Reply::FinalizeWide { value } => write_wide(page, "finalize offset_wide ", value),
        Reply::Time { now } => write_time(page, "time ", now),
        Reply::System { time } => write_time(page, "system ", time),
        Reply::Offset { offset, state } => write_offset(page, offset, state),
        Reply::Info {
            start,
            end,
            mode,
            correction,
            offset,
            state,
        } => write_info(page, start, end, mode, correction, offset, state),
        Reply::Convert { value } => write_time(page, "convert ", value),
        _ => unreachable!(),
    }
}

/// A line with this front that tells a time, and the new offset where it moved.
fn write_moved(
    page: &mut String,
    front: &str,
    now: i64,
    shift: Option<i64>,
) -> Result<(), AllocError>
    ensures { OnOk result (string_bytes page.new ≡ string_bytes page.old ++ (front.now ⋅ moved_text now shift)) }
{
    match shift {
        None => write!(page, "{front}{now}\n"),
        Some(offset) => write!(page, "{front}{now} offset {offset}\n"),
    }
}

/// A line with this front that tells the value to which a refused move would have brought the offset.
fn write_wide(page: &mut String, front: &str, value: i128) -> Result<(), AllocError>
    ensures { OnOk result (string_bytes page.new ≡ string_bytes page.old ++ (front.now ⋅ signed_decimal value ⋅ codes "\n")) }
{
    write!(page, "{front}{value}\n")
}

/// A line with this front that tells a time.
fn write_time(page: &mut String, front: &str, time: i64) -> Result<(), AllocError>
    ensures { OnOk result (string_bytes page.new ≡ string_bytes page.old ++ (front.now ⋅ signed_decimal time ⋅ codes "\n")) }
{
    write!(page, "{front}{time}\n")
}

/// The line of a finalization: the state before it, and what `write_moved` tells.
#[tactic(auto, using(crate::proofs::Texts::joined))]
fn write_finalize(
    page: &mut String,
    old: OffsetState,
    now: i64,
    shift: Option<i64>,
) -> Result<(), AllocError>
    ensures { OnOk result (string_bytes page.new
        ≡ string_bytes page.old ++ (codes "finalize " ⋅ state_text old ⋅ codes " " ⋅ moved_text now shift)) }
{
    write!(page, "finalize {}", state_word(old))?;
    write_moved(page, " ", now, shift)
}

/// The line of the offset: its value and its state.
fn write_offset(page: &mut String, offset: i64, state: OffsetState) -> Result<(), AllocError>
    ensures { OnOk result (string_bytes page.new ≡ string_bytes page.old ++ (codes "offset " ⋅ offset_text offset state)) }
{
    write!(page, "offset {offset} {}\n", state_word(state))
}

/// The line of the settings.
#[tactic(auto, using(crate::proofs::Texts::joined))]
fn write_info(
    page: &mut String,
    start: i64,
    end: i64,
    mode: Mode,
    correction: bool,
    offset: i64,
    state: OffsetState,
) -> Result<(), AllocError>
    ensures { OnOk result (string_bytes page.new
        ≡ string_bytes page.old ++ (info_front start end mode ⋅ info_middle correction ⋅ info_back offset state)) }
{
    write_info_front(page, start, end, mode)?;
    write_info_behind(page, correction, offset, state)
}

#[tactic(auto, unfolding(ert_ops::specs::Texts::info_front))]
fn write_info_front(page: &mut String, start: i64, end: i64, mode: Mode) -> Result<(), AllocError>
    ensures { OnOk result (string_bytes page.new ≡ string_bytes page.old ++ info_front start end mode) }
{
    write!(
        page,
        "info start {start} end {end} mode {}",
        mode_word(mode)
    )
}

// The rest of the line of the settings.
#[tactic(auto, using(crate::proofs::Texts::joined))]
fn write_info_behind(
    page: &mut String,
    correction: bool,
    offset: i64,
    state: OffsetState,
) -> Result<(), AllocError>
    ensures { OnOk result (string_bytes page.new ≡ string_bytes page.old ++ (info_middle correction ⋅ info_back offset state)) }
{
    write_info_middle(page, correction)?;
    write_info_back(page, offset, state)
}

#[tactic(auto, unfolding(ert_ops::specs::Texts::info_middle))]
fn write_info_middle(page: &mut String, correction: bool) -> Result<(), AllocError>
    ensures { OnOk result (string_bytes page.new ≡ string_bytes page.old ++ info_middle correction) }
{
    write!(page, " correction {}", bool_word(correction))
}

#[tactic(auto, unfolding(ert_ops::specs::Texts::info_back))]
fn write_info_back(page: &mut String, offset: i64, state: OffsetState) -> Result<(), AllocError>
    ensures { OnOk result (string_bytes page.new ≡ string_bytes page.old ++ info_back offset state) }
{
    write!(page, " offset {offset} state {}\n", state_word(state))
}
