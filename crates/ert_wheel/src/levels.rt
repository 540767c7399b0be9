//! The rows of a level: which of them are due, and how early one may be.

ghost use Rattle.std.specs.Prelude.{◌≡◌, ◌+◌, ◌<◌, ◌≤◌, ℕ, length, vec_capacity};
ghost use Rattle.ert_wheel.specs.{NextDue.{NoneBefore, MayLookAbove, IsEarlyOrNever, NoneOn}, Standing.homes_of, Walks.{StandOnLevels, AreCollected, MayCollectLevel, MayLook}, Wheels.held_keys, declared.row.Key.Key};
ghost use Rattle.ert_wheel.specs.{declared.row.TheConstants.BUCKETS};

use crate::kept::Kept;
use crate::keyed::Keyed;
use crate::marked::MarkedChains;
use crate::row::{HeldRow, LAST};
use crate::telling::Early;
use crate::walk::{collect, least_in};
use crate::windows::{begin_of, bucket_of_window, window_on, windows_end};

/// So many rows of a level are looked at, to tell how early one may be due.
const FEW: u32 = 64;

/// Adds the due rows of a level, where those of the levels above are there.
pub fn collect_level<T: Keyed>(
    chains: &MarkedChains,
    kept: &Kept<T>,
    level: u32,
    next_time: u64,
    to: u64,
    rows: &mut Vec<HeldRow>,
)
    requires level { level ≤ 4 }
    requires room { chains.now.slots ≤ vec_capacity rows.old }
    requires may { MayCollectLevel next_time chains.now (held_keys chains.now kept.now.keys) (level + 1) to rows.old.items }
    requires kept { length kept.now.keys ≡ chains.now.written }
    ensures collects { (levels : Key → ℕ)
        → StandOnLevels next_time chains.now (held_keys chains.now kept.now.keys) levels
        → AreCollected (held_keys chains.now kept.now.keys) levels (level + 1) to rows.old.items
        → AreCollected (held_keys chains.now kept.now.keys) levels level to rows.new.items }
    ensures capacity { vec_capacity rows.new ≡ vec_capacity rows.old }
{
    // Above the lowest level no row is in the window of the next time.
    let from = window_on(level, next_time) + level.min(1) as u64;
    let last = window_on(level, to.min(LAST).max(next_time));
    let end = (last + 1).min(windows_end(level, next_time));
    let mut window = chains.first_window(level, from, end);
    while window < end {
        collect(chains, kept, bucket_of_window(level, window), to, rows);
        window = chains.first_window(level, window + 1, end);
    }
}

/// The earlier of a time and of how early a row above the lowest level may be due.
pub fn early_above<T: Keyed>(
    chains: &MarkedChains,
    kept: &Kept<T>,
    next_time: u64,
    near: Early,
) -> Early
    requires may { MayLookAbove next_time chains.now (held_keys chains.now kept.now.keys) near.time }
    requires kept { length kept.now.keys ≡ chains.now.written }
    ensures none_before { NoneBefore (held_keys chains.now kept.now.keys) result.time }
    ensures early { IsEarlyOrNever (held_keys chains.now kept.now.keys) (homes_of chains.now) next_time result.time }
{
    let mut earliest = near;
    let mut level = 1;
    while level <= 4 {
        // No row of this level or of one above is in an earlier window.
        if begin_of(level, window_on(level, next_time) + 1) >= earliest.time {
            return earliest;
        }
        earliest = early_on(chains, kept, level, next_time, earliest);
        level += 1;
    }
    earliest
}

/// The earlier of a time and of how early a row of a level above the lowest may be due.
///
/// The rows of the level's windows that begin before are looked at, `FEW` at most. Where there are more, that is the begin of a
/// window: its rows may be due then, and those of the windows before it are later.
fn early_on<T: Keyed>(
    chains: &MarkedChains,
    kept: &Kept<T>,
    level: u32,
    next_time: u64,
    before: Early,
) -> Early
    requires level { 1 ≤ level }
    requires highest { level ≤ 4 }
    requires may { MayLook next_time chains.now (held_keys chains.now kept.now.keys) }
    requires early { IsEarlyOrNever (held_keys chains.now kept.now.keys) (homes_of chains.now) next_time before.time }
    requires kept { length kept.now.keys ≡ chains.now.written }
    ensures low { result.time ≤ before.time }
    ensures early { IsEarlyOrNever (held_keys chains.now kept.now.keys) (homes_of chains.now) next_time result.time }
    ensures none { (levels : Key → ℕ)
        → StandOnLevels next_time chains.now (held_keys chains.now kept.now.keys) levels
        → NoneOn (held_keys chains.now kept.now.keys) levels level result.time }
{
    let end = windows_end(level, next_time);
    let mut earliest = before;
    let mut seen = 0;
    let mut window = chains.first_window(level, window_on(level, next_time) + 1, end);
    while window < end {
        let begin = begin_of(level, window);
        if begin >= earliest.time {
            return earliest;
        }
        let bucket = bucket_of_window(level, window);
        let Some(least) = least_in(chains, kept, bucket, Some(FEW), &mut seen) else {
            return begin_in(chains, bucket, begin);
        };
        earliest = earliest.earlier(least);
        window = chains.first_window(level, window + 1, end);
    }
    earliest
}

/// A time, as a row of a bucket tells it.
pub fn begin_in(chains: &MarkedChains, bucket: u32, time: u64) -> Early
    requires { bucket < BUCKETS }
    ensures { result.time ≡ time }
{
    let slot = chains.newest(bucket).unwrap_or(0);
    Early { time, slot }
}
