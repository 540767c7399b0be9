use crate::named::{NamedMail, NamedRow};
use crate::registry::Registry;
use ert_defs::{NoMemory, Settings};
use ert_world::World;
use std::alloc::Global;
use std::marker::Model;

/// The process to which the world sends the messages for names. It never exits, and no caller names it.
pub(crate) const REGISTRAR: u32 = 0;

/// The clock and timer service for one thread, with names of processes and timers that are started for a
/// name.
#[derive(Drop)]
pub struct NameWorld {
    pub(crate) alloc: Global,
    pub(crate) world: World,
    pub(crate) registry: Registry,
    pub(crate) rows: Vec<NamedRow>,
    /// The named mail that waits, first to last, each with its process.
    pub(crate) mail: Vec<(u32, NamedMail)>,
}

impl Model for NameWorld {
    ghost use Rattle.std.specs.{Coded.{codes, coded_ℕ, coded_list}, Cmp.Lexicographic.slice_cmp, Ordering.nat_cmp};
    ghost use Rattle.std.specs.FinMap as map;
    ghost use Rattle.std.specs.Prelude.{length};
    ghost use Rattle.ert_names.specs.{Fits.FitsNames, Registered.{Registered, seen_with_names}};
    ghost use Rattle.ert_timers.specs.Parts.{part_code};

    ghost Value = { Registered };

    ghost coded = { Prim.hlevel (codes, part_code, map.code {R = slice_cmp nat_cmp} (coded_list coded_ℕ) coded_ℕ) };

    ghost view = { λ w. seen_with_names w.world w.registry w.rows.items w.mail.items };

    ghost invariant = { λ w. FitsNames (length w.rows.items) w.registry w.world };
}

impl NameWorld {
    ghost use Rattle.std.specs.Prelude.{◌≡◌, ◌≤◌, [], length, IfOk};
    ghost use Rattle.std.specs.FinMap as map;
    ghost use Rattle.ert_defs.specs.Settings.{IsChecked};
    ghost use Rattle.ert_names.specs.{Living.AreLiving, Openings.IsOpenedWithoutNames, Promised.IsPromised};

    /// Opens a service without names.
    pub fn open(alloc: Global, settings: &Settings) -> Result<NameWorld, NoMemory>
        requires checked { IsChecked settings.now }
        requires processes { 2 ≤ settings.now.processes }
        ensures { IfOk result (IsOpenedWithoutNames settings.now) }
    {
        Ok(NameWorld {
            alloc,
            world: World::open(alloc, settings)?,
            registry: Registry::new(alloc),
            rows: Vec::new(alloc),
            mail: Vec::new(alloc),
        })
    }

    /// The world with its clock, its timers and its mailboxes. It gave out no seat, and its history is legal. The
    /// registrar lives and has the messages of named timers alone, and no exit settles one of these. Each name is
    /// that of a process that lives.
    pub fn world(&self) -> &World
        ensures value { result.now ≡ self.now.world }
        ensures promised { IsPromised (length self.now.rows) self.now.world }
        ensures living { AreLiving self.now.names self.now.world }
    {
        // What a world promises is known of one that is borrowed, and so of the one that is lent.
        let _settings = self.world.settings();
        &self.world
    }
}
