//! The lines of a text, and how bytes are shown.

ghost use Rattle.std.specs.Prelude.{◌≡◌, ◌++◌, ◌∷◌, [], ◌<◌, length, codes, is_some, IfSome, OnOk, string_bytes, if◌then◌else◌};
ghost use Rattle.std.specs.List.{flat_map};
ghost use Rattle.ert_audit.specs.Messages.{after_at, line_end, lines_on, line_after, hex_digit, is_shown_as_is, shown_byte, shortened};

use std::alloc::AllocError;

/// How many bytes are shown at most.
const SHOWN: usize = 60;

/// The line of a text after so many lines, without its newline.
pub fn line_after(text: &[u8], lines: usize) -> &[u8]
    ensures { result.now ≡ line_after text.now lines }
{
    let rest = lines_on(text, lines);
    match line_end(rest) {
        Some(end) => &rest[..end],
        None => rest,
    }
}

/// The bytes after so many lines.
fn lines_on(text: &[u8], lines: usize) -> &[u8]
    ensures { result.now ≡ lines_on lines text.now }
{
    let mut rest = text;
    for _passed in 0..lines {
        rest = after_line(rest);
    }
    rest
}

/// The bytes after the first line.
fn after_line(bytes: &[u8]) -> &[u8]
    ensures { result.now ≡ after_at bytes.now (line_end bytes.now) }
{
    match line_end(bytes) {
        Some(end) => &bytes[end + 1..],
        None => bytes,
    }
}

/// Whether the line after so many lines has a newline at its end.
pub fn has_end(text: &[u8], lines: usize) -> bool
    ensures { result ≡ is_some (line_end (lines_on lines text.now)) }
{
    line_end(lines_on(text, lines)).is_some()
}

/// Where the first newline stands.
fn line_end(bytes: &[u8]) -> Option<usize>
    ensures end { result ≡ line_end bytes.now }
    ensures within { IfSome result (λ end. end < length bytes.now) }
{
    bytes.iter().position(|b| *b == b'\n')
}

/// Appends bytes as they are shown.
pub fn write_shown(page: &mut String, bytes: &[u8]) -> Result<(), AllocError>
    ensures { OnOk result (string_bytes page.new ≡ string_bytes page.old ++ shortened bytes.now) }
{
    write_bytes(page, &bytes[..SHOWN.min(bytes.len())])?;
    write_more(page, bytes.len() > SHOWN)
}

/// Appends a mark where there are more bytes.
fn write_more(page: &mut String, more: bool) -> Result<(), AllocError>
    ensures { OnOk result (string_bytes page.new ≡ string_bytes page.old ++ (if more then codes ".." else [])) }
{
    if more { page.push_str("..") } else { Ok(()) }
}

/// Appends each of some bytes as it is shown.
fn write_bytes(page: &mut String, bytes: &[u8]) -> Result<(), AllocError>
    ensures { OnOk result (string_bytes page.new ≡ string_bytes page.old ++ flat_map shown_byte bytes.now) }
{
    for byte in bytes {
        write_byte(page, *byte)?;
    }
    Ok(())
}

/// Appends a byte as it is shown.
fn write_byte(page: &mut String, byte: u8) -> Result<(), AllocError>
    ensures { OnOk result (string_bytes page.new ≡ string_bytes page.old ++ shown_byte byte) }
{
    if is_plain(byte) {
        push(page, byte)
    } else {
        write_hex(page, hex_digit(byte / 16), hex_digit(byte % 16))
    }
}

/// Appends a byte by its two digits.
fn write_hex(page: &mut String, high: u8, low: u8) -> Result<(), AllocError>
    requires high { high < 128 }
    requires low { low < 128 }
    ensures { OnOk result (string_bytes page.new ≡ string_bytes page.old ++ 92 ∷ 120 ∷ high ∷ low ∷ []) }
{
    push(page, b'\\')?;
    push(page, b'x')?;
    push(page, high)?;
    push(page, low)
}

/// Appends an ASCII byte.
fn push(page: &mut String, byte: u8) -> Result<(), AllocError>
    requires { byte < 128 }
    ensures { OnOk result (string_bytes page.new ≡ string_bytes page.old ++ byte ∷ []) }
{
    page.push(byte as char)
}

/// Whether a byte is shown as it is.
fn is_plain(byte: u8) -> bool
    ensures { result ≡ is_shown_as_is byte }
{
    32 <= byte && byte < 127 && byte != b'\\'
}

/// The digit of a number below 16.
fn hex_digit(number: u8) -> u8
    requires { number < 16 }
    ensures digit { result ≡ hex_digit number }
    ensures ascii { result < 128 }
{
    if number < 10 {
        48 + number
    } else {
        87 + number
    }
}
