ghost use Rattle.std.specs.Prelude.{◌≡◌};
ghost use Rattle.ert_unique.specs.Stamps.{stamp};

/// A time as three numbers (`erlang` module reference, `timestamp`). Together they are
/// `mega * 10^12 + secs * 10^6 + micro` microseconds.
#[derive(Clone, Copy, Debug, PartialEq, Eq)]
pub struct Stamp {
    /// Millions of seconds: 0 to 9223.
    pub mega: i64,
    /// Seconds: 0 to 999,999.
    pub secs: i64,
    /// Microseconds: 0 to 999,999.
    pub micro: i64,
}

/// The timestamp of a system time, in nanoseconds since the epoch (`erlang` module reference,
/// `timestamp`). Its microseconds are rounded down.
///
/// None comes exactly where the time is negative.
pub fn stamp_of(system: i64) -> Option<Stamp>
    ensures { result ≡ stamp system }
{
    if system < 0 {
        return None;
    }
    let micros = system / 1_000;
    let seconds = micros / 1_000_000;
    let mega = micros / 1_000_000_000_000;
    Some(Stamp {
        mega,
        secs: seconds - mega * 1_000_000,
        micro: micros % 1_000_000,
    })
}
