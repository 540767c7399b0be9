//! Loads that are recorded nowhere.
ghost use Rattle.std.specs.Prelude.{◌≡◌};
ghost use Rattle.ert_defs.specs.{Legal.{Legal, IsSlot}, Words.word_of_slot};
ghost use Rattle.ert_table.specs.{Desks.{settings_of, view_of, front_of, actors_of, state_of, Belongs}, Held.IsWhole, Settlings.shown_in};

use crate::desk::{Desk, Pass};
use crate::plays::{Named, Shows};
use crate::timer_words::timer_of;
use ert_defs::Status;
use std::marker::Brand;

impl Pass {
    /// Loads the word of a slot with the pass that holds every actor. No entry is made: the pass knows the whole
    /// history, so nobody needs to be told of the look.
    ///
    /// It shows what `load_timer` does.
    pub fn see_timer(&mut self, desk: &Desk, wheel: u32, slot: u32) -> Option<(Status, u64, u64)>
        requires belongs { Belongs desk.now self.old }
        requires whole { IsWhole (settings_of desk.now) (actors_of self.old) }
        requires slot { IsSlot (settings_of desk.now) wheel slot }
        ensures belongs { Belongs desk.now self.new }
        ensures same { view_of self.new ≡ view_of self.old }
        ensures shown { result ≡ shown_in (state_of desk.now self.old) wheel slot }
    {
        let word = self.see_timer_as::<Brand>(desk, wheel, slot);
        timer_of(word)
    }

    fn see_timer_as<C: Named>(&mut self, desk: &Desk, wheel: u32, slot: u32) -> u64
        requires pick { C.settings ≡ settings_of desk.now }
        requires belongs { Belongs desk.now self.old }
        requires whole { IsWhole (settings_of desk.now) (actors_of self.old) }
        requires slot { IsSlot (settings_of desk.now) wheel slot }
        ensures belongs { Belongs desk.now self.new }
        ensures same { view_of self.new ≡ view_of self.old }
        ensures legal { Legal (settings_of desk.now) (front_of self.old) }
        ensures word { word_of_slot (state_of desk.now self.old) wheel slot ≡ result }
    {
        let place = desk.slot_place(wheel as usize, slot as usize);
        desk.table.shared.load::<Shows<C>>(&mut self.seat, place)
    }
}
