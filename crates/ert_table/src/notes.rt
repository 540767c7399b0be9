//! Notes: what a pass knew, for another thread.
ghost use Rattle.std.specs.Prelude.{◌≡◌};
ghost use Rattle.ert_table.specs.{Desks.{settings_of, view_of, front_of, actors_of, Belongs}, Notes.{IsNoteOf, HasLearned}};

use crate::desk::{Desk, Pass};
use crate::plays::Notes;
use std::marker::Model;

/// What a pass knew when the note was taken: the history had at least these entries then.
///
/// It has no bytes and holds no actor, so no step is made with it. It may go to another thread, through whatever channel
/// the program has, and the pass that learns it knows as much from then on. It isn't `Copy`, since the rule of the table
/// counts each: whoever wants several takes several.
#[derive(Drop)]
pub struct Note {
    pass: Pass,
}

impl Model for Note {
    ghost use Rattle.std.specs.Prelude.{◌≡◌, []};
    ghost use Rattle.ert_table.specs.{Desks.actors_of, Notes.{Noted, noted}};

    ghost Value = { Noted };

    ghost view = { λ n. noted n.pass };

    ghost invariant = { λ n. actors_of n.pass ≡ [] };
}

impl Pass {
    /// Takes a note of what the pass knows. It makes no entry, and the pass is as it was.
    pub fn note(&mut self, desk: &Desk) -> Note
        requires { Belongs desk.now self.old }
        ensures belongs { Belongs desk.now self.new }
        ensures actors { actors_of self.new ≡ actors_of self.old }
        ensures front { front_of self.new ≡ front_of self.old }
        ensures note { IsNoteOf desk.now.table.shared.table_id (settings_of desk.now) result }
        ensures known { result.front ≡ front_of self.old }
    {
        Note {
            pass: Pass {
                seat: desk.table.shared.split_seat::<Notes>(&mut self.seat),
            },
        }
    }

    /// Learns what a note knows, whoever took it. It makes no entry.
    ///
    /// So what was done before the note was taken stands in the pass's front from here on: a timer that was started
    /// before is known, and no later step can find that it never was.
    pub fn learn(&mut self, desk: &Desk, note: Note)
        requires belongs { Belongs desk.now self.old }
        requires note { IsNoteOf desk.now.table.shared.table_id (settings_of desk.now) note }
        ensures belongs { Belongs desk.now self.new }
        ensures learned { HasLearned (settings_of desk.now) (view_of self.old) note.front (view_of self.new) }
    {
        let Note { pass } = note;
        self.join(desk, pass);
    }
}

fn crosses<T: Send>(_: &T) {}

/// A note may go to another thread.
fn _may_cross(note: &Note) {
    crosses(note);
}
