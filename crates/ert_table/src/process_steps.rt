//! Steps on the words of processes.
ghost use Rattle.std.specs.Prelude.{◌≡◌, nat_eq, true, false};
ghost use Rattle.ert_table.specs.Desks.{settings_of, Belongs, Makes, MayMark};
ghost use Rattle.ert_defs.specs.Entries.{mark_entry};

use crate::desk::{Desk, Pass};
use crate::plays::{Adds, Carried};
use ert_defs::Actor;
use std::marker::Brand;

impl Pass {
    /// Whether a process had exited. Where `exits` is true it has exited from now on.
    ///
    /// Only a mark that exits writes the word.
    pub fn mark(&mut self, desk: &Desk, by: Actor, process: u32, exits: bool) -> bool
        requires belongs { Belongs desk.now self.old }
        requires may { MayMark desk.now self.old by process exits }
        ensures belongs { Belongs desk.now self.new }
        ensures step { Makes desk.now self.old (mark_entry by process exits result) self.new }
    {
        if exits {
            self.exit_as::<Brand>(desk, by, process) == 1
        } else {
            self.load_exit_as::<Brand>(desk, by, process) == 1
        }
    }

    fn exit_as<C: Carried>(&mut self, desk: &Desk, by: Actor, process: u32) -> u64
        requires settings { C.settings ≡ settings_of desk.now }
        requires entry { C.entry ≡ (λ n. mark_entry by process true (nat_eq n 1)) }
        requires belongs { Belongs desk.now self.old }
        requires may { MayMark desk.now self.old by process true }
        ensures belongs { Belongs desk.now self.new }
        ensures step { Makes desk.now self.old (mark_entry by process true (nat_eq result 1)) self.new }
    {
        let place = desk.process_place(process as usize);
        desk.table
            .shared
            .fetch_or::<Adds<C>>(&mut self.seat, place, 1)
    }

    fn load_exit_as<C: Carried>(&mut self, desk: &Desk, by: Actor, process: u32) -> u64
        requires settings { C.settings ≡ settings_of desk.now }
        requires entry { C.entry ≡ (λ n. mark_entry by process false (nat_eq n 1)) }
        requires belongs { Belongs desk.now self.old }
        requires may { MayMark desk.now self.old by process false }
        ensures belongs { Belongs desk.now self.new }
        ensures step { Makes desk.now self.old (mark_entry by process false (nat_eq result 1)) self.new }
    {
        let place = desk.process_place(process as usize);
        desk.table.shared.load::<Adds<C>>(&mut self.seat, place)
    }
}
