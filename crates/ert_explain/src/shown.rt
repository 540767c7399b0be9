//! What a message shows of the input.
ghost use Rattle.std.specs.Prelude.{◌≡◌, ◌<◌, ◌++◌, OnOk, length, min, take, string_bytes};
ghost use Rattle.ert_explain.specs.Shown.{nibble, escaped_byte, escaped, shown_value, shown_part};

use std::alloc::AllocError;

/// Appends a value or a name of the input: what an array or an object is, or the bytes, of which each that isn't
/// a printable one of ASCII is escaped. At most 60 of them are shown.
pub(crate) fn write_shown(page: &mut String, part: &[u8]) -> Result<(), AllocError>
    ensures { OnOk result (string_bytes page.new ≡ string_bytes page.old ++ shown_value part.now) }
{
    match part.first().copied() {
        Some(b'[') => page.push_str("an array"),
        Some(b'{') => page.push_str("an object"),
        _ => write_part(page, part),
    }
}

/// Appends at most 60 bytes of a text, escaped, and dots where there are more.
#[tactic(auto, using(crate::proofs::Texts::joined))]
fn write_part(page: &mut String, part: &[u8]) -> Result<(), AllocError>
    ensures { OnOk result (string_bytes page.new ≡ string_bytes page.old ++ shown_part part.now) }
{
    if part.len() <= 60 {
        return write_escaped(page, part);
    }
    write_escaped(page, front_of(part))?;
    page.push_str("..")
}

/// The first 60 bytes, or all where there are fewer.
fn front_of(part: &[u8]) -> &[u8]
    ensures { result.now ≡ take (min 60 (length part.now)) part.now }
{
    let (front, _) = part.split_at(60.min(part.len()));
    front
}

/// Appends bytes, escaped.
fn write_escaped(page: &mut String, bytes: &[u8]) -> Result<(), AllocError>
    ensures { OnOk result (string_bytes page.new ≡ string_bytes page.old ++ escaped bytes.now) }
{
    for b in bytes {
        write_byte(page, *b)?;
    }
    Ok(())
}

/// Appends a byte: a printable one of ASCII as it is, and else two hexadecimal digits.
fn write_byte(page: &mut String, b: u8) -> Result<(), AllocError>
    ensures { OnOk result (string_bytes page.new ≡ string_bytes page.old ++ escaped_byte b) }
{
    if (32..127).contains(&b) {
        return page.push(char::from(b));
    }
    page.push_str("\\x")?;
    page.push(nibble(b / 16))?;
    page.push(nibble(b % 16))
}

/// A hexadecimal digit.
fn nibble(n: u8) -> char
    requires { n < 16 }
    ensures value { result ≡ nibble n }
    ensures ascii { result < 128 }
{
    if n < 10 {
        char::from(b'0' + n)
    } else {
        char::from(b'a' + (n - 10))
    }
}
