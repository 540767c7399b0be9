//! Which process has which name.
ghost use Rattle.std.specs.Prelude.{◌≡◌};

use ert_defs::NoMemory;
use std::alloc::Global;
use std::collections::BTreeMap;
use std::marker::Model;

/// The names of processes: each name is of one process, and each process has one name at most. To look a
/// name up, to add one and to remove one goes in proportion to the logarithm of how many there are.
#[derive(Drop)]
pub(crate) struct Registry {
    processes: BTreeMap<String, u32>,
    names: BTreeMap<u32, String>,
}

impl Model for Registry {
    ghost use Rattle.std.specs.Prelude.{ℕ};
    ghost use Rattle.std.specs.{Ordering.nat_cmp, Cmp.Lexicographic.slice_cmp, Coded.{coded_ℕ, coded_list}};
    ghost use Rattle.std.specs.FinMap as map;
    ghost use Rattle.ert_names.specs.Names.{processes_of, names_of, AreInverse};

    ghost Value = { map.FinMap (slice_cmp nat_cmp) ℕ };

    ghost coded = { map.code (coded_list coded_ℕ) coded_ℕ };

    ghost view = { λ r. processes_of r.processes.entries };

    ghost invariant = { λ r. AreInverse (processes_of r.processes.entries) (names_of r.names.entries) };
}

impl Registry {
    ghost use Rattle.std.specs.Prelude.{None, true, false, OnOk, OnErr};
    ghost use Rattle.std.specs.FinMap as map;
    ghost use Rattle.ert_names.specs.Names.{Unnamed, IsWithout};

    /// No process has a name.
    pub(crate) fn new(alloc: Global) -> Registry
        ensures { result ≡ map.empty }
    {
        Registry {
            processes: BTreeMap::new(alloc),
            names: BTreeMap::new(alloc),
        }
    }

    /// The process that has a name.
    pub(crate) fn process(&self, name: &str) -> Option<u32>
        ensures { result ≡ map.get self.now name.now }
    {
        self.processes.get(name).copied()
    }

    /// Whether a process has a name.
    pub(crate) fn has_name(&self, process: u32) -> bool
        ensures unnamed { result ≡ false → Unnamed self.now process }
        ensures named { result ≡ true → Unnamed self.now process → ⊥ }
    {
        self.names.contains_key(&process)
    }

    /// Gives a name that no process has to a process that has none.
    ///
    /// If memory runs out, nothing has changed.
    pub(crate) fn insert(&mut self, alloc: Global, name: &str, process: u32) -> Result<(), NoMemory>
        requires free { map.get self.old name.now ≡ None }
        requires unnamed { Unnamed self.old process }
        ensures ok { OnOk result (self.new ≡ map.insert self.old name.now process) }
        ensures err { OnErr result (self.new ≡ self.old) }
    {
        let key = name.to_string(alloc)?;
        let held = name.to_string(alloc)?;
        let Ok(_) = self.processes.insert(key, process) else {
            return Err(NoMemory);
        };
        match self.names.insert(process, held) {
            Ok(_) => Ok(()),
            Err(_) => {
                self.processes.remove(name);
                Err(NoMemory)
            }
        }
    }

    /// Removes a name, and gives the process that had it.
    pub(crate) fn remove(&mut self, name: &str) -> Option<u32>
        ensures value { result ≡ map.get self.old name.now }
        ensures removed { self.new ≡ map.remove self.old name.now }
    {
        let process = self.processes.remove(name)?;
        self.names.remove(&process);
        Some(process)
    }

    /// Removes the name of a process, if it has one.
    pub(crate) fn remove_process(&mut self, process: u32)
        ensures { IsWithout self.old process self.new }
    {
        if let Some(name) = self.names.remove(&process) {
            self.processes.remove(name.as_str());
        }
    }
}
