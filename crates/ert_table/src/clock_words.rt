ghost use Rattle.std.specs.Prelude.{◌≡◌, ℤ, Bool};
ghost use Rattle.ert_defs.specs.Lines.{IsOffset};
ghost use Rattle.ert_table.specs.Ranges.{IsTime, IsTimeWord, IsOffsetWord};
ghost use Rattle.ert_defs.specs.Words as words;

/// What is added to an offset, so that none is negative in its word.
const MIDDLE: i64 = 1 << 62;

/// The word of a time, both in nanoseconds: how long after the start it is.
///
/// The time is from the start to 8796093022207000000 nanoseconds after it.
pub fn time_word(now: i64, start: i64) -> u64
    requires { IsTime now start }
    ensures { result ≡ words.time_word now start }
{
    (now - start) as u64
}

/// The time of a word that was packed with this start time.
pub fn time_of(word: u64, start: i64) -> i64
    requires { IsTimeWord word start }
    ensures unpacks { (now : ℤ) → IsTime now start → word ≡ words.time_word now start
        → result ≡ now }
    ensures packs { word ≡ words.time_word result start }
    ensures in_range { IsTime result start }
{
    start + word as i64
}

/// The word of an offset in nanoseconds, which lies between -2^62 and 2^62, and of whether it is final.
pub fn offset_word(offset: i64, fin: bool) -> u64
    requires { IsOffset offset }
    ensures { result ≡ words.offset_word offset fin }
{
    (offset + MIDDLE) as u64 * 2 + fin as u64
}

/// The offset of a word, and whether it is final.
pub fn offset_of(word: u64) -> (i64, bool)
    requires { IsOffsetWord word }
    ensures unpacks { (offset : ℤ) (final : Bool) → IsOffset offset
        → word ≡ words.offset_word offset final → result ≡ (offset, final) }
    ensures packs { word ≡ words.offset_word result.0 result.1 }
    ensures in_range { IsOffset result.0 }
{
    ((word / 2) as i64 - MIDDLE, word % 2 == 1)
}
