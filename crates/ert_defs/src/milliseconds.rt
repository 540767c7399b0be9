//! Whole milliseconds after the start time, and the deadlines of starts.
//!
//! Rounding has two forms. A clock shows times from the start time to below the end time: for such a time the
//! difference has 64 bits, and one division is all. A history that is judged may hold any time: there the
//! difference has 65 bits.
ghost use Rattle.std.specs.Prelude.{pos, ℤ, ◌≡◌, ◌≤◌, ◌-ℤ◌, ◌≤ℤ◌, ◌<ℤ◌, IfSome, FitsSigned};
ghost use Rattle.std.specs.Int.{w64, int_div_euclid};
ghost use Rattle.ert_defs.specs.Lines.{end_time};
ghost use Rattle.ert_defs.specs.Milliseconds as milliseconds;

use crate::settings::Settings;
use crate::timer::When;

/// Nanoseconds in a millisecond.
pub const NANOSECONDS_PER_MILLISECOND: i64 = 1_000_000;

/// The greatest deadline of a timer, in milliseconds after the start time (profile).
pub const LAST_DEADLINE: u64 = 8_796_093_022_207;

/// The milliseconds from the start time to a time that a clock shows, rounded down.
#[inline]
pub fn rounded_down(settings: &Settings, now: i64) -> u64
    requires low { settings.now.start ≤ℤ now }
    requires high { now <ℤ end_time settings.now }
    ensures { pos result ≡ milliseconds.down settings.now now }
{
    (now - settings.start).div_euclid(NANOSECONDS_PER_MILLISECOND) as u64
}

/// The milliseconds from the start time to a time that a clock shows, rounded up.
#[inline]
pub fn rounded_up(settings: &Settings, now: i64) -> u64
    requires low { settings.now.start ≤ℤ now }
    requires high { now <ℤ end_time settings.now }
    ensures { pos result ≡ milliseconds.up settings.now now }
{
    ((now - settings.start) as u64 + 999_999) / NANOSECONDS_PER_MILLISECOND as u64
}

/// The milliseconds from the start time to a time that a clock shows, rounded down and up.
#[inline]
pub fn rounded(settings: &Settings, now: i64) -> (u64, u64)
    requires low { settings.now.start ≤ℤ now }
    requires high { now <ℤ end_time settings.now }
    ensures down { pos result.0 ≡ milliseconds.down settings.now now }
    ensures up { pos result.1 ≡ milliseconds.up settings.now now }
    ensures down_high { result.0 ≤ 8796093022207 }
    ensures up_high { result.1 ≤ 8796093022207 }
{
    let nanoseconds = (now - settings.start) as u64;
    let down = nanoseconds / NANOSECONDS_PER_MILLISECOND as u64;
    let rest = nanoseconds % NANOSECONDS_PER_MILLISECOND as u64;
    (down, down + u64::from(rest != 0))
}

/// The milliseconds from the start time to any time, rounded down.
pub fn down(settings: &Settings, time: i64) -> i128
    ensures { result ≡ milliseconds.down settings.now time }
{
    millionth(time as i128 - settings.start as i128)
}

/// The whole milliseconds that have passed from the start time to any time; 0 before the start time.
pub fn passed(settings: &Settings, time: i64) -> u128
    ensures { result ≡ milliseconds.natural (milliseconds.down settings.now time) }
{
    let passed = down(settings, time);
    if passed < 0 { 0 } else { passed as u128 }
}

/// The milliseconds from the start time to any time, rounded up.
fn up(settings: &Settings, time: i64) -> i128
    ensures value { result ≡ milliseconds.up settings.now time }
    ensures fits { FitsSigned w64 result }
{
    millionth(time as i128 - settings.start as i128 + 999_999)
}

/// The whole milliseconds left of a timer at any time; 0 where the deadline has passed.
pub fn left(settings: &Settings, deadline: u64, time: i64) -> u128
    ensures { result ≡ milliseconds.left settings.now deadline time }
{
    let left = deadline as i128 - up(settings, time);
    if left < 0 { 0 } else { left as u128 }
}

/// The deadline of a timer that is started at any time, in milliseconds after the start time
/// (`erlang` module reference, `start_timer`). None is refused: it is outside its limits, or the timer would
/// run for less than no time.
pub fn deadline_of(settings: &Settings, when: When, time: i64) -> Option<u64>
    ensures { result ≡ milliseconds.deadline_when settings.now when time }
{
    deadline_after(settings, when, up(settings, time) as i64)
}

/// The deadline of a timer that is started so many milliseconds after the start time, rounded up.
#[inline]
pub fn deadline_after(settings: &Settings, when: When, up: i64) -> Option<u64>
    ensures told { (time : ℤ) → up ≡ milliseconds.up settings.now time → result ≡ milliseconds.deadline_when settings.now when time }
    ensures high { IfSome result (λ deadline. deadline ≤ 8796093022207) }
{
    match when {
        When::After(wait) if wait < 0 => None,
        When::After(wait) => within_limits(up.checked_add(wait)?),
        When::At(time) => deadline_at(settings, time),
    }
}

/// The deadline at a monotonic time in milliseconds, in milliseconds after the start time; None where it is
/// outside its limits, 0 to 8796093022207.
#[inline]
pub fn deadline_at(settings: &Settings, time: i64) -> Option<u64>
    ensures told { result ≡ milliseconds.deadline_at (time -ℤ int_div_euclid settings.now.start (pos 1000000)) }
    ensures high { IfSome result (λ deadline. deadline ≤ 8796093022207) }
{
    within_limits(time.checked_sub(settings.start.div_euclid(NANOSECONDS_PER_MILLISECOND))?)
}

/// A deadline, where it is within its limits.
#[inline]
fn within_limits(deadline: i64) -> Option<u64>
    ensures told { result ≡ milliseconds.deadline_at deadline }
    ensures high { IfSome result (λ deadline. deadline ≤ 8796093022207) }
{
    if deadline < 0 || deadline > LAST_DEADLINE as i64 {
        return None;
    }
    Some(deadline as u64)
}

/// A millionth of a number, rounded down.
///
/// A division of 128 bits takes several times as long as one of 64, and none is needed for 0, as while a clock
/// runs at the rate of OS monotonic time.
pub fn millionth(product: i128) -> i128
    ensures { result ≡ int_div_euclid product (pos 1000000) }
{
    if product == 0 {
        0
    } else if i64::MIN as i128 <= product && product <= i64::MAX as i128 {
        (product as i64).div_euclid(1_000_000) as i128
    } else {
        product.div_euclid(1_000_000)
    }
}
