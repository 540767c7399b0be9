//! The clocks of the machine. A clock in memory is what `program` runs the program over.
use ert_defs::Reading;
use ert_io::{Failed, HostClock, OsClock};
use std::io;
use std::process::Abort;
use std::time::{Clock, Duration};

// The least nanoseconds that don't fit 64 signed bits.
const PAST_THE_END: u64 = 1 << 63;

// 1 January 2020, in nanoseconds since 1970.
const YEAR_2020: i64 = 1_577_836_800_000_000_000;

#[test]
fn the_machine_is_read(rt: HostRuntime) {
    let mut clock = HostClock::new(&rt);
    let mut least = 0;
    for _ in 0..2 {
        let read = clock.read();
        let Ok(reading) = read else {
            return assert!(rt; false, "{read:?}");
        };
        assert!(rt;
            reading.is_valid() && reading.sys > YEAR_2020 && reading.mono >= least,
            "{reading:?}"
        );
        least = reading.mono;
    }
}

/// Clocks that stand still.
#[derive(Clone, Copy)]
struct Still {
    monotonic: u64,
    since_1970: u64,
}

impl Clock for Still {
    fn monotonic(&self) -> io::Result<Duration> {
        Ok(Duration::from_nanos(self.monotonic))
    }

    fn since_1970(&self) -> io::Result<Duration> {
        Ok(Duration::from_nanos(self.since_1970))
    }
}

#[test]
fn monotonic_time_counts_from_the_making(rt: HostRuntime) {
    let last = Reading {
        mono: 0,
        sys: i64::MAX,
    };
    let rows = [
        (PAST_THE_END, PAST_THE_END - 1, Ok(last)),
        (PAST_THE_END, PAST_THE_END, Err(Failed)),
    ];
    for (monotonic, since_1970, want) in rows {
        let still = Still {
            monotonic,
            since_1970,
        };
        let got = HostClock::new(&still).read();
        assert!(rt; got == want, "{got:?}, not {want:?}");
    }
}
