//! Notes that a shard and a hub take and learn.
use crate::hub::Hub;
use crate::shard::Shard;
use ert_table::Note;

impl Shard {
    ghost use Rattle.std.specs.Prelude.{◌≡◌};
    ghost use Rattle.ert_table.specs.{Notes.IsNoteOf, Views.{Begins, longer}};
    ghost use Rattle.ert_shard.specs.Shards.{ShardSteps, ShardBy};
    ghost use Rattle.ert_world.specs.Ways.{MakesNone};

    /// Takes a note of what the shard knows, for whoever the program gives it to. No entry is made.
    pub fn note(&mut self) -> Note
        ensures note { IsNoteOf self.old.table self.old.settings result }
        ensures known { result.front ≡ self.old.history }
        ensures same { self.new ≡ self.old }
    {
        self.pass.note(&self.desk)
    }

    /// Learns what a note of the shard's desk knows, whoever took it. No entry is made.
    ///
    /// A timer that was started before the note was taken is known from here on.
    pub fn learn(&mut self, note: Note)
        requires { IsNoteOf self.old.table self.old.settings note }
        ensures call { ShardSteps self.old (ShardBy self.old MakesNone) self.new }
        ensures front { self.new.history ≡ longer self.old.history note.front }
        ensures known { Begins note.front self.new.history }
        ensures wheel { self.new.wheel ≡ self.old.wheel }
    {
        self.pass.learn(&self.desk, note);
    }
}

impl Hub {
    ghost use Rattle.std.specs.Prelude.{◌≡◌};
    ghost use Rattle.ert_table.specs.{Notes.IsNoteOf, Views.{Begins, longer}};
    ghost use Rattle.ert_shard.specs.Hubs.{HubSteps, HubBy};
    ghost use Rattle.ert_world.specs.Ways.{MakesNone};

    /// Takes a note of what the hub knows, for whoever the program gives it to. No entry is made.
    pub fn note(&mut self) -> Note
        ensures note { IsNoteOf self.old.table self.old.settings result }
        ensures known { result.front ≡ self.old.history }
        ensures same { self.new ≡ self.old }
    {
        self.pass.note(&self.desk)
    }

    /// Learns what a note of the hub's desk knows, whoever took it. No entry is made.
    pub fn learn(&mut self, note: Note)
        requires { IsNoteOf self.old.table self.old.settings note }
        ensures call { HubSteps self.old (HubBy self.old MakesNone) self.new }
        ensures front { self.new.history ≡ longer self.old.history note.front }
        ensures known { Begins note.front self.new.history }
    {
        self.pass.learn(&self.desk, note);
    }
}
