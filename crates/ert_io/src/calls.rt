ghost use Rattle.std.specs.Prelude.{◌≡◌, ◌≤◌, ◌↔◌, Contains, IsTrue};
ghost use Rattle.ert_io.specs.Faults.{one_more};

use crate::failed::Failed;

/// The calls of a source, a sink or a clock in memory: which of them are to fail, how many were made, and how
/// many failed. Both counts stop at the last value of their type.
#[derive(Debug, Drop)]
pub(crate) struct Calls {
    fails: Vec<u32>,
    made: u64,
    faults: u64,
}

impl Calls {
    /// No call was made; those with these numbers, from 1, are to fail.
    pub(crate) fn new(fails: Vec<u32>) -> Calls
        ensures { result ≡ record { fails = fails; made = 0; faults = 0 } }
    {
        Calls {
            fails,
            made: 0,
            faults: 0,
        }
    }

    /// Counts one more call, and tells whether its number, from 1, is among those that are to fail.
    pub(crate) fn begin(&mut self) -> bool
        ensures made { self.new ≡ record self.old { made = one_more self.old.made } }
        ensures fails { IsTrue result ↔ Contains self.old.fails.items self.new.made }
    {
        self.made = self.made.saturating_add(1);
        let made = self.made;
        self.fails.iter().any(|number| u64::from(*number) == made)
    }

    /// Counts one more fault.
    pub(crate) fn fail(&mut self) -> Failed
        ensures faults { self.new ≡ record self.old { faults = one_more self.old.faults } }
        ensures later { self.old.faults ≤ self.new.faults }
    {
        self.faults = self.faults.saturating_add(1);
        Failed
    }
}
