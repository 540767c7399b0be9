//! The lines of what was received, and of what a turn did.
ghost use Rattle.std.specs.Prelude.{◌≡◌, ◌++◌, codes, OnOk, string_bytes};
ghost use Rattle.std.specs.Fmt.{decimal, signed_decimal};
ghost use Rattle.ert_ops.specs.{Labels.label_of, Lines.{left_text, mail_line, turn_line}};
ghost use Rattle.ert_ops.specs.Texts.{◌⋅◌};

use crate::label_map::LabelMap;
use ert_defs::Mail;
use ert_effects::Turned;
use std::alloc::AllocError;
use std::fmt::Write;

/// The line of a message that was received.
pub fn write_mail(page: &mut String, mail: &Mail, labels: &LabelMap) -> Result<(), AllocError>
    ensures { OnOk result (string_bytes page.new ≡ string_bytes page.old ++ mail_line (label_of labels.now) mail.now) }
{
    match *mail {
        Mail::Timeout { timer, msg } => write_timeout(page, labels.label(&timer), msg),
        Mail::Bare { msg } => write_bare(page, msg),
        Mail::CancelDone { timer, left } => {
            write_done(page, "receive cancel_timer ", labels.label(&timer), left)
        }
        Mail::ReadDone { timer, left } => {
            write_done(page, "receive read_timer ", labels.label(&timer), left)
        }
        Mail::Change { monitor, offset } => write_change(page, monitor, offset),
    }
}

/// A line with this front that tells the milliseconds left of a timer, or that it wasn't armed.
pub fn write_left(page: &mut String, front: &str, left: Option<u64>) -> Result<(), AllocError>
    ensures { OnOk result (string_bytes page.new ≡ string_bytes page.old ++ (front.now ⋅ left_text left)) }
{
    match left {
        Some(left) => write!(page, "{front}{left}\n"),
        None => write!(page, "{front}false\n"),
    }
}

/// The line of what a turn did.
pub fn write_turn(page: &mut String, turned: &Turned) -> Result<(), AllocError>
    ensures { OnOk result (string_bytes page.new ≡ string_bytes page.old ++ turn_line turned.now) }
{
    let Turned {
        served,
        to,
        expired,
        put,
        dropped,
    } = *turned;
    write!(page, "turn {served} {to} {expired} {put} {dropped}\n")
}

fn write_timeout(page: &mut String, label: u32, msg: u64) -> Result<(), AllocError>
    ensures { OnOk result (string_bytes page.new
        ≡ string_bytes page.old ++ (codes "receive timeout " ⋅ decimal label ⋅ codes " " ⋅ decimal msg ⋅ codes "\n")) }
{
    write!(page, "receive timeout {label} {msg}\n")
}

fn write_bare(page: &mut String, msg: u64) -> Result<(), AllocError>
    ensures { OnOk result (string_bytes page.new ≡ string_bytes page.old ++ (codes "receive message " ⋅ decimal msg ⋅ codes "\n")) }
{
    write!(page, "receive message {msg}\n")
}

// The answer to a request, with this front: the label of its timer, and what was left.
#[tactic(auto, using(crate::proofs::Texts::joined))]
fn write_done(
    page: &mut String,
    front: &str,
    label: u32,
    left: Option<u64>,
) -> Result<(), AllocError>
    ensures { OnOk result (string_bytes page.new ≡ string_bytes page.old ++ (front.now ⋅ decimal label ⋅ codes " " ⋅ left_text left)) }
{
    write!(page, "{front}{label}")?;
    write_left(page, " ", left)
}

fn write_change(page: &mut String, monitor: u32, offset: i64) -> Result<(), AllocError>
    ensures { OnOk result (string_bytes page.new
        ≡ string_bytes page.old ++ (codes "receive change " ⋅ decimal monitor ⋅ codes " " ⋅ signed_decimal offset ⋅ codes "\n")) }
{
    write!(page, "receive change ")?;
    write_told(page, monitor, offset)
}

// The number of a monitor, and the offset that it was told.
fn write_told(page: &mut String, monitor: u32, offset: i64) -> Result<(), AllocError>
    ensures { OnOk result (string_bytes page.new
        ≡ string_bytes page.old ++ (decimal monitor ⋅ codes " " ⋅ signed_decimal offset ⋅ codes "\n")) }
{
    write!(page, "{monitor} {offset}\n")
}
