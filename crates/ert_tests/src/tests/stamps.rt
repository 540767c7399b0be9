//! Timestamps that were computed by hand.

use ert_unique::{Stamp, stamp_of};

/// System times, each with the parts of its timestamp.
const ROWS: [(i64, (i64, i64, i64)); 7] = [
    (1_767_225_610_400_000_000, (1_767, 225_610, 400_000)),
    (0, (0, 0, 0)),
    (999, (0, 0, 0)),
    (1_000, (0, 0, 1)),
    (999_999_999_999_999, (0, 999_999, 999_999)),
    (1_000_000_000_000_000, (1, 0, 0)),
    (i64::MAX, (9_223, 372_036, 854_775)),
];

/// System times that have none.
const BEFORE_1970: [i64; 4] = [-1, -999, -1_000, i64::MIN];

#[test]
fn stamps_of_times(rt: HostRuntime) {
    for (system, (mega, secs, micro)) in ROWS {
        let want = Stamp { mega, secs, micro };
        assert!(rt; stamp_of(system) == Some(want), "{system}");
    }
    for system in BEFORE_1970 {
        assert!(rt; stamp_of(system).is_none(), "{system}");
    }
}
