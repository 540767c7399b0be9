//! Where a byte of the input stands, as editors count.
ghost use Rattle.std.specs.Prelude.{◌≡◌, ◌≤◌, ◌==◌, length, count_by};
ghost use Rattle.ert_explain.specs.Positions.{position_at, since_newline};

/// A place in the input: in front of a byte, or at the end.
#[derive(Clone, Copy)]
pub struct Position {
    /// How many bytes come before it.
    pub offset: usize,
    /// Its line, from 1. A line ends with its newline.
    pub line: usize,
    /// Its byte in the line, from 1.
    pub column: usize,
}

/// The place behind so many bytes; the end where there are fewer.
#[tactic(auto, unfolding(crate::specs::Positions::position_at))]
pub(crate) fn position_at(bytes: &[u8], offset: usize) -> Position
    ensures { result ≡ position_at bytes.now offset }
{
    let (before, _) = bytes.split_at(offset.min(bytes.len()));
    Position {
        offset: before.len(),
        line: newlines(before) + 1,
        column: since_newline(before) + 1,
    }
}

/// How many newlines there are.
fn newlines(before: &[u8]) -> usize
    ensures count { result ≡ count_by (λ b. b == 10) before.now }
    ensures few { result ≤ length before.now }
{
    before.iter().filter(|b| **b == b'\n').count()
}

/// How many bytes stand behind the last newline, or at all where there is none.
fn since_newline(before: &[u8]) -> usize
    ensures count { result ≡ since_newline 0 before.now }
    ensures few { result ≤ length before.now }
{
    let mut count = 0;
    for b in before {
        if *b == b'\n' {
            count = 0;
        } else {
            count += 1;
        }
    }
    count
}
