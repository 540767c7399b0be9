use ert_defs::{Event, NoMemory};
use std::alloc::Global;
use std::collections::BTreeSet;

/// Which processes have exited. It takes memory for those alone.
#[derive(Drop)]
pub struct Exits {
    exited: BTreeSet<u32>,
}

impl Exits {
    ghost use Rattle.std.specs.Prelude.{◌≡◌, ℕ, OnOk, true, false};
    ghost use Rattle.ert_defs.specs.States.{exited_after};
    ghost use Rattle.ert_judge.specs.Parts.{exited_at};

    /// No process has exited.
    pub fn new(alloc: Global) -> Exits
        ensures { (p : ℕ) → exited_at result p ≡ false }
    {
        Exits {
            exited: BTreeSet::new(alloc),
        }
    }

    /// Whether a process has exited.
    pub fn has_exited(&self, process: u32) -> bool
        ensures { result ≡ exited_at self.now process }
    {
        self.exited.contains(&process)
    }

    /// Goes on by an event.
    pub fn follow(&mut self, event: &Event) -> Result<(), NoMemory>
        ensures { OnOk result ((p : ℕ) → exited_at self.new p ≡ exited_after p (exited_at self.old p) event.now) }
    {
        if let Event::Mark {
            process,
            exits: true,
            ..
        } = *event
        {
            return self.add(process);
        }
        Ok(())
    }

    /// Adds a process that has exited.
    fn add(&mut self, process: u32) -> Result<(), NoMemory>
        ensures { OnOk result ((p : ℕ) → exited_at self.new p ≡ exited_after p (exited_at self.old p) (Event.Mark process true false)) }
    {
        match self.exited.insert(process) {
            Ok(_) => Ok(()),
            Err(_) => Err(NoMemory),
        }
    }
}
