//! Words that were computed by hand from the table of fields. In which order slots are taken is shown by
//! `examples/c/tests/lasting.c`.

use ert_defs::Status;
use ert_table::{offset_of, offset_word, time_of, time_word, timer_of, timer_word};

/// The last time, counted from the start.
const LAST: i64 = 8_796_093_022_207_000_000;

/// A time, the start, and the word of the time.
const TIMES: [(i64, i64, u64); 5] = [
    (11_000_000, 0, 11_000_000),
    (-(1 << 58), -(1 << 58), 0),
    (i64::MIN, i64::MIN, 0),
    (i64::MIN + LAST, i64::MIN, LAST as u64),
    ((1 << 58) + LAST, 1 << 58, LAST as u64),
];

#[test]
fn times_are_packed(rt: HostRuntime) {
    for (now, start, want) in TIMES {
        assert!(rt; start <= now && now as i128 <= start as i128 + LAST as i128);
        let word = time_word(now, start);
        assert!(rt;
            word == want && time_of(word, start) == now,
            "{now} from {start}: {word}"
        );
    }
}

/// An offset, whether it is the last, and its word.
const OFFSETS: [(i64, bool, u64); 6] = [
    (0, true, 9_223_372_036_854_775_809),
    (0, false, 9_223_372_036_854_775_808),
    (-4_611_686_018_427_387_903, false, 2),
    (-4_611_686_018_427_387_903, true, 3),
    (4_611_686_018_427_387_903, false, u64::MAX - 1),
    (4_611_686_018_427_387_903, true, u64::MAX),
];

#[test]
fn offsets_are_packed(rt: HostRuntime) {
    for (offset, last, want) in OFFSETS {
        assert!(rt; -(1 << 62) < offset && offset < 1 << 62);
        let word = offset_word(offset, last);
        assert!(rt;
            word == want && offset_of(word) == (offset, last),
            "{offset} {last}: {word}"
        );
    }
}

const TIMERS: [(Status, u64, u64, u64); 7] = [
    (Status::Armed, 7, 3, 211_106_232_533_049),
    (Status::Delivered, 11, 1, 70_368_744_177_755),
    (Status::Armed, 0, 1, 70_368_744_177_665),
    (Status::Expired, 0, 1, 70_368_744_177_666),
    (Status::Cancelled, 0, 1, 70_368_744_177_668),
    (Status::Orphaned, 0, 1, 70_368_744_177_669),
    (Status::Dropped, 8_796_093_022_207, 262_143, u64::MAX - 1),
];

#[test]
fn timers_are_packed(rt: HostRuntime) {
    for (status, deadline, generation, want) in TIMERS {
        assert!(rt; deadline <= 8_796_093_022_207 && 1 <= generation && generation <= 262_143);
        let word = timer_word(status, deadline, generation);
        let timer = timer_of(word);
        assert!(rt;
            word == want && timer == Some((status, deadline, generation)),
            "{want}: {word} {timer:?}"
        );
    }
    assert!(rt; timer_of(0).is_none());
}
