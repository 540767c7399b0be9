use crate::calls::Calls;
use crate::failed::Failed;
use crate::os_clock::OsClock;
use ert_defs::Reading;

/// A clock whose readings lie in memory, some of which fail.
#[derive(Debug, Drop)]
pub struct MemClock {
    readings: Vec<Reading>,
    // How many of the readings were given.
    next: usize,
    calls: Calls,
}

impl MemClock {
    ghost use Rattle.std.specs.Prelude.{◌≡◌, [], Some};
    ghost use Rattle.ert_io.specs.Clocks.{clock_reads, failing_clock_reads};

    /// HandsOut `readings`, one in a call. `fails` lists the numbers, from 1, of the calls that are to fail;
    /// a call that finds no reading left fails too.
    pub fn new(readings: Vec<Reading>, fails: Vec<u32>) -> MemClock
        ensures left { ⟦<Self as OsClock>⟧.left result ≡ Some readings.items }
        ensures given { ⟦<Self as OsClock>⟧.given result ≡ [] }
        ensures faults { ⟦<Self as OsClock>⟧.faults result ≡ 0 }
        ensures reads { clock_reads result ≡ 0 }
        ensures failing { failing_clock_reads result ≡ fails.items }
    {
        MemClock {
            readings,
            next: 0,
            calls: Calls::new(fails),
        }
    }
}

impl OsClock for MemClock {
    ghost use Rattle.std.specs.Prelude.{◌≡◌, ◌≤◌, ◌↔◌, ◌⊎◌, [], ◌∷◌, ◌++◌, Some, Contains, IfOk, IsErr, OnOk, OnErr};
    ghost use Rattle.ert_io.specs.{Faults.one_more, Clocks.{readings_given, readings_left, clock_reads, failing_clock_reads}};

    ghost faults = { λ s. s.calls.faults };

    ghost given = { λ s. readings_given s };

    ghost left = { λ s. Some (readings_left s) };

    fn read(&mut self) -> Result<Reading, Failed>
        ensures fails { IsErr result ↔ (Contains (failing_clock_reads self.old) (clock_reads self.new) ⊎ (readings_left self.old ≡ [])) }
        ensures given { IfOk result (λ r. readings_given self.new ≡ readings_given self.old ++ r ∷ []) }
        ensures left { IfOk result (λ r. readings_left self.old ≡ r ∷ readings_left self.new) }
        ensures kept { OnErr result (readings_given self.new ≡ readings_given self.old) }
        ensures left_kept { OnErr result (readings_left self.new ≡ readings_left self.old) }
        ensures ok { OnOk result (⟦<Self as OsClock>⟧.faults self.new ≡ ⟦<Self as OsClock>⟧.faults self.old) }
        ensures err { OnErr result (⟦<Self as OsClock>⟧.faults self.new ≡ one_more (⟦<Self as OsClock>⟧.faults self.old)) }
        ensures later { ⟦<Self as OsClock>⟧.faults self.old ≤ ⟦<Self as OsClock>⟧.faults self.new }

        ensures reads { clock_reads self.new ≡ one_more (clock_reads self.old) }
        ensures failing { failing_clock_reads self.new ≡ failing_clock_reads self.old }
    {
        if self.calls.begin() {
            return Err(self.calls.fail());
        }
        let Some(reading) = self.readings.get(self.next).copied() else {
            return Err(self.calls.fail());
        };
        self.next += 1;
        Ok(reading)
    }
}
