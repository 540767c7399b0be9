ghost use Rattle.std.specs.Prelude.{◌≡◌, ◌≤◌, ◌≤ℤ◌, [], ◌∷◌, ◌++◌, pos, IfOk, IfSome, OnOk, OnErr};
ghost use Rattle.ert_io.specs.Faults.{one_more};

use crate::failed::Failed;
use crate::log::Log;
use crate::os_clock::OsClock;
use ert_defs::Reading;
use std::time::{Clock, Instant, SystemTime, UNIX_EPOCH};

/// The clocks of the machine. They tell the readings that they gave, and not those that they have left.
///
/// `mono` is the nanoseconds since the moment at which this was made, and `sys` those since 1970. A clock
/// that can't be read, that tells a time before 1970, or whose nanoseconds don't fit 64 signed bits makes
/// the reading fail. Where the monotonic clock couldn't be read at that first moment, every reading fails.
#[derive(Drop)]
pub struct HostClock<C> {
    // What std's clocks ask of the runtime.
    clock: C,
    // When this was made.
    began: Option<Instant>,
    faults: u64,
    // The readings that were given.
    log: Log<Reading>,
}

impl<C: Clock> HostClock<C> {
    /// Reads the clocks of `clock`, and counts `mono` from now on.
    pub fn new(clock: C) -> HostClock<C>
        ensures faults { ⟦<Self as OsClock>⟧.faults result ≡ 0 }
        ensures given { ⟦<Self as OsClock>⟧.given result ≡ [] }
    {
        let began = Instant::now(&clock).ok();
        HostClock {
            clock,
            began,
            faults: 0,
            log: Log::new(),
        }
    }
}

impl<C: Clock> OsClock for HostClock<C> {
    ghost faults = { λ s. s.faults };

    ghost given = { λ s. s.log.items };

    fn read(&mut self) -> Result<Reading, Failed>
        ensures mono { IfOk result (λ r. pos 0 ≤ℤ r.mono) }
        ensures sys { IfOk result (λ r. pos 0 ≤ℤ r.sys) }
        ensures given { IfOk result (λ r. ⟦<Self as OsClock>⟧.given self.new ≡ ⟦<Self as OsClock>⟧.given self.old ++ r ∷ []) }
        ensures kept { OnErr result (⟦<Self as OsClock>⟧.given self.new ≡ ⟦<Self as OsClock>⟧.given self.old) }
        ensures ok { OnOk result (⟦<Self as OsClock>⟧.faults self.new ≡ ⟦<Self as OsClock>⟧.faults self.old) }
        ensures err { OnErr result (⟦<Self as OsClock>⟧.faults self.new ≡ one_more (⟦<Self as OsClock>⟧.faults self.old)) }
        ensures later { ⟦<Self as OsClock>⟧.faults self.old ≤ ⟦<Self as OsClock>⟧.faults self.new }
    {
        match reading_since(&self.clock, self.began) {
            Some(reading) => {
                self.log = self.log.and(&[reading]);
                Ok(reading)
            }
            None => {
                self.faults = self.faults.saturating_add(1);
                Err(Failed)
            }
        }
    }
}

// A reading of both clocks, with `mono` since `began`.
fn reading_since<C: Clock>(clock: &C, began: Option<Instant>) -> Option<Reading>
    ensures mono { IfSome result (λ r. pos 0 ≤ℤ r.mono) }
    ensures sys { IfSome result (λ r. pos 0 ≤ℤ r.sys) }
{
    let since_made = Instant::now(clock).ok()?.duration_since(began?);
    let wall = SystemTime::now(clock).ok()?;
    let since_1970 = wall.duration_since(UNIX_EPOCH).ok()?;
    Some(Reading {
        mono: i64::try_from(since_made.as_nanos()).ok()?,
        sys: i64::try_from(since_1970.as_nanos()).ok()?,
    })
}
