//! The windows of levels, and the buckets of times on them.

ghost use Rattle.std.specs.Prelude.{◌≡◌, ◌+◌, ◌*◌, ◌/◌, ◌^◌, ◌<◌, ◌≤◌, min};
ghost use Rattle.ert_wheel.specs.{Levels.{bucket_of_window, bucket_on, IsBucketBelow, IsLeastBucket}, declared.row.TheConstants.{NEVER, BUCKETS}};

use crate::row::NEVER;

/// The window of a level in which a time stands. A window of level l is 512 ^ l milliseconds wide.
#[inline]
pub fn window_on(level: u32, time: u64) -> u64
    requires { level ≤ 4 }
    ensures { result ≡ time / 512 ^ level }
{
    time >> (level * 9)
}

/// When a window of a level begins.
#[inline]
pub fn begin_of(level: u32, window: u64) -> u64
    requires level { level ≤ 4 }
    requires fits { window * 512 ^ level < 2 ^ 64 }
    ensures { result ≡ window * 512 ^ level }
{
    window << (level * 9)
}

/// The bucket of a window on a level.
#[inline]
pub fn bucket_of_window(level: u32, window: u64) -> u32
    requires level { level ≤ 4 }
    requires window { window * 512 ^ level < NEVER }
    ensures is { result ≡ bucket_of_window level window }
    ensures low { result < BUCKETS }
{
    level * 1024 + (window & 1023) as u32
}

/// The bucket of the window of level 1 after that in which a time stands.
#[inline]
pub fn bucket_after(time: u64) -> u32
    ensures is { result ≡ bucket_of_window 1 (time / 512 + 1) }
    ensures low { result < BUCKETS }
{
    1024 + ((time >> 9) + 1 & 1023) as u32
}

/// The bucket of a time on a level.
#[inline]
pub fn bucket_on(level: u32, time: u64) -> u32
    requires level { level ≤ 4 }
    requires time { time < NEVER }
    ensures is { result ≡ bucket_on level time }
    ensures low { result < BUCKETS }
{
    level * 1024 + (window_on(level, time) & 1023) as u32
}

/// The bucket of a time on the least level on which it may stand, seen from the next time.
#[inline]
pub fn bucket(next_time: u64, time: u64) -> u32
    requires next { next_time ≤ time }
    requires time { time < NEVER }
    ensures is { IsLeastBucket next_time time result }
    ensures low { result < BUCKETS }
{
    // Most times are on one of the two lowest levels.
    if time >> 9 <= (next_time >> 9) + 1 {
        return bucket_on(0, time);
    }
    if time >> 18 <= (next_time >> 18) + 1 {
        return bucket_on(1, time);
    }
    far_bucket(next_time, time)
}

/// And where that is none of the two lowest.
fn far_bucket(next_time: u64, time: u64) -> u32
    requires next { next_time ≤ time }
    requires time { time < NEVER }
    requires far { next_time / 262144 + 1 < time / 262144 }
    ensures is { IsLeastBucket next_time time result }
    ensures low { result < BUCKETS }
{
    if time >> 27 <= (next_time >> 27) + 1 {
        return bucket_on(2, time);
    }
    if time >> 36 <= (next_time >> 36) + 1 {
        return bucket_on(3, time);
    }
    bucket_on(4, time)
}

/// The bucket of a time where it comes from a window of a level: on the level below, where it is in that window and after the next
/// time, and else on the least level on which it may stand.
#[inline]
pub fn bucket_below(next_time: u64, level: u32, window: u64, time: u64) -> u32
    requires next { next_time ≤ time }
    requires time { time < NEVER }
    requires level { 1 ≤ level }
    requires highest { level ≤ 4 }
    ensures is { IsBucketBelow next_time level window time result }
    ensures low { result < BUCKETS }
{
    if time > next_time && window_on(level, time) == window {
        return bucket_on(level - 1, time);
    }
    bucket(next_time, time)
}

/// The end of the windows of a level in which a time may be that stands on it.
#[inline]
pub fn windows_end(level: u32, next_time: u64) -> u64
    requires level { level ≤ 4 }
    requires next { next_time < NEVER }
    ensures { result ≡ min ((next_time / 512 ^ level / 512 + 2) * 512) (NEVER / 512 ^ level) }
{
    (((window_on(level, next_time) >> 9) + 2) << 9).min(window_on(level, NEVER))
}
