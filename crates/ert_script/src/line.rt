ghost use Rattle.std.specs.Prelude.{◌≡◌, ℕ, ◌++◌, codes, OnOk, string_bytes};
ghost use Rattle.std.specs.Fmt.{decimal};
ghost use Rattle.ert_defs.specs.declared.timer.TimerRef.{TimerRef};
ghost use Rattle.ert_script.specs.Told.{IsFixedReply};
ghost use Rattle.ert_ops.specs.{Labels.label_of, Lines.line_of};
ghost use Rattle.ert_ops.specs.Texts.{◌⋅◌, bool_text, end_line};

use crate::clock_line::write_clock;
use crate::label_map::LabelMap;
use crate::mail_line::{write_left, write_mail, write_turn};
use crate::words::bool_word;
use ert_ops::Reply;
use std::alloc::AllocError;
use std::fmt::Write;

/// Appends the line of a reply. A message is told with the label of its timer: the first that was bound to
/// it, or its slot where there is none.
pub fn write_line(page: &mut String, reply: &Reply, labels: &LabelMap) -> Result<(), AllocError>
    ensures { OnOk result (string_bytes page.new ≡ string_bytes page.old ++ line_of (label_of labels.now) reply.now) }
{
    match *reply {
        Reply::Tick { .. }
        | Reply::TickWide { .. }
        | Reply::Check { .. }
        | Reply::CheckWide { .. }
        | Reply::Finalize { .. }
        | Reply::FinalizeWide { .. }
        | Reply::Time { .. }
        | Reply::System { .. }
        | Reply::Offset { .. }
        | Reply::Info { .. }
        | Reply::Convert { .. } => write_clock(page, reply),
        Reply::Cancel { left } => write_left(page, "cancel ", left),
        Reply::Read { left } => write_left(page, "read ", left),
        Reply::Advance { to, expired } => write_advance(page, to, expired),
        Reply::Deliver { put, dropped } => write_delivered(page, put, dropped),
        Reply::Turn { turned } => write_turn(page, &turned),
        Reply::Received { mail } => write_mail(page, &mail, labels),
        Reply::Alive { alive } => write_bool(page, "alive ", alive),
        Reply::Monitor { number } => write_number(page, "monitor ", number),
        Reply::Demonitor { stood } => write_bool(page, "demonitor ", stood),
        Reply::Notify { put } => write_number(page, "notify ", put),
        _ => page.push_str(fixed_line(reply)),
    }
}

/// The line of a reply that tells no value.
fn fixed_line(reply: &Reply) -> &'static str
    requires { IsFixedReply reply.now }
    ensures { (name : TimerRef → ℕ) → result.now ≡ line_of name reply.now }
{
    match *reply {
        Reply::ConvertTooWide => "convert too_wide\n",
        Reply::StartOk { .. } => "start ok\n",
        Reply::StartBadArg => "start badarg\n",
        Reply::StartFull => "start full\n",
        Reply::SendAfterOk { .. } => "send_after ok\n",
        Reply::SendAfterBadArg => "send_after badarg\n",
        Reply::SendAfterFull => "send_after full\n",
        Reply::CancelQuiet => "cancel_quiet ok\n",
        Reply::CancelAsync => "cancel_async ok\n",
        Reply::ReadAsync => "read_async ok\n",
        Reply::Serve { served: true } => "serve 1\n",
        Reply::Serve { served: false } => "serve 0\n",
        Reply::ReceivedEmpty => "receive empty\n",
        Reply::ReceivedExited => "receive exited\n",
        Reply::Exit { was_alive: true } => "exit ok\n",
        Reply::Exit { was_alive: false } => "exit already\n",
        Reply::MonitorFull => "monitor full\n",
        _ => unreachable!(),
    }
}

/// Appends the last line of a transcript.
pub fn write_end(page: &mut String, now: i64) -> Result<(), AllocError>
    ensures { OnOk result (string_bytes page.new ≡ string_bytes page.old ++ end_line now) }
{
    write!(page, "end {now}\n")
}

/// A line with this front that tells a number.
fn write_number(page: &mut String, front: &str, number: u32) -> Result<(), AllocError>
    ensures { OnOk result (string_bytes page.new ≡ string_bytes page.old ++ (front.now ⋅ decimal number ⋅ codes "\n")) }
{
    write!(page, "{front}{number}\n")
}

/// A line with this front that tells whether something is so.
fn write_bool(page: &mut String, front: &str, is_so: bool) -> Result<(), AllocError>
    ensures { OnOk result (string_bytes page.new ≡ string_bytes page.old ++ (front.now ⋅ bool_text is_so ⋅ codes "\n")) }
{
    write!(page, "{front}{}\n", bool_word(is_so))
}

/// The line of an advance.
fn write_advance(page: &mut String, to: u64, expired: u32) -> Result<(), AllocError>
    ensures { OnOk result (string_bytes page.new
        ≡ string_bytes page.old ++ (codes "advance " ⋅ decimal to ⋅ codes " " ⋅ decimal expired ⋅ codes "\n")) }
{
    write!(page, "advance {to} {expired}\n")
}

/// The line of a delivery.
fn write_delivered(page: &mut String, put: u32, dropped: u32) -> Result<(), AllocError>
    ensures { OnOk result (string_bytes page.new
        ≡ string_bytes page.old ++ (codes "deliver " ⋅ decimal put ⋅ codes " " ⋅ decimal dropped ⋅ codes "\n")) }
{
    write!(page, "deliver {put} {dropped}\n")
}
