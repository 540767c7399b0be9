//! Notes that a seat and a world take and learn.
use crate::seat::Seat;
use crate::world::World;
use ert_table::Note;

impl Seat {
    ghost use Rattle.std.specs.Prelude.{◌≡◌};
    ghost use Rattle.ert_table.specs.{Notes.IsNoteOf, Views.{Begins, longer}};
    ghost use Rattle.ert_world.specs.{Seats.{Steps, BySeat}, Ways.MakesNone};

    /// Takes a note of what the seat knows, for whoever the program gives it to. No entry is made.
    pub fn note(&mut self) -> Note
        ensures note { IsNoteOf self.old.table self.old.settings result }
        ensures known { result.front ≡ self.old.history }
        ensures same { self.new ≡ self.old }
    {
        self.pass.note(&self.desk)
    }

    /// Learns what a note of the seat's desk knows, whoever took it. No entry is made.
    ///
    /// A timer that was started before the note was taken is known from here on.
    pub fn learn(&mut self, note: Note)
        requires { IsNoteOf self.old.table self.old.settings note }
        ensures call { Steps self.old (BySeat self.old MakesNone) self.new }
        ensures front { self.new.history ≡ longer self.old.history note.front }
        ensures known { Begins note.front self.new.history }
    {
        self.pass.learn(&self.desk, note);
    }
}

impl World {
    ghost use Rattle.std.specs.Prelude.{◌≡◌};
    ghost use Rattle.ert_table.specs.{Notes.IsNoteOf, Views.{Begins, longer}};
    ghost use Rattle.ert_world.specs.{Worlds.{Goes, By}, Ways.MakesNone};

    /// Takes a note of what the world knows, for whoever the program gives it to. No entry is made.
    pub fn note(&mut self) -> Note
        ensures note { IsNoteOf self.old.table self.old.settings result }
        ensures known { result.front ≡ self.old.history }
        ensures same { self.new ≡ self.old }
    {
        self.pass.note(&self.desk)
    }

    /// Learns what a note of the world's desk knows, whoever took it. No entry is made.
    pub fn learn(&mut self, note: Note)
        requires { IsNoteOf self.old.table self.old.settings note }
        ensures call { Goes self.old (By self.old MakesNone) self.new }
        ensures front { self.new.history ≡ longer self.old.history note.front }
        ensures known { Begins note.front self.new.history }
        ensures wheels { self.new.wheels ≡ self.old.wheels }
    {
        self.pass.learn(&self.desk, note);
    }
}
