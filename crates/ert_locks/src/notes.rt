//! Notes of what the seats of a desk know.
ghost use Rattle.std.specs.Prelude.{◌≡◌};
ghost use Rattle.ert_table.specs.Notes.{IsNoteOf};

use crate::names::DeskName;
use ert_table::Note;
use std::marker::PhantomData;

/// A note of the desk that `L` names: what a seat knew when it was taken.
///
/// Its type tells the desk, so whoever gets it, through whatever channel, can learn it.
#[derive(Drop)]
pub struct DeskNote<L: DeskName> {
    pub note: Note,
    pub of: PhantomData<L>,
    pub ghost of_desk: { IsNoteOf L.table L.settings note },
}

impl<L: DeskName> DeskNote<L> {
    /// The note, which is of the desk.
    pub fn new(note: Note) -> DeskNote<L>
        requires { IsNoteOf L.table L.settings note }
        ensures { result.note ≡ note }
    {
        DeskNote {
            note,
            of: PhantomData,
        }
    }
}
