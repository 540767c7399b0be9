//! Steps on the words of slots.
ghost use Rattle.std.specs.Prelude.{◌≡◌, ◌≢◌, true, Some};
ghost use Rattle.ert_defs.specs.{Actors.IsUser, Legal.{IsSlot, names_timer}, declared.timer.Status.TheVariants.Armed, Entries.arm_entry};
ghost use Rattle.ert_defs.specs.Words as words;
ghost use Rattle.ert_table.specs.{Desks.{settings_of, view_of, actors_of, state_of, Belongs, MayMake, Makes, MayLoadTimer, read_made, settled_made, SettlesOrMisses, IsDeadlineOf}, Held.is_held, Peeking.{Peeks, PeeksAndCancels}};
ghost use Rattle.ert_table.specs.{Places.IsPlaceOf, Settlings.{HasRow, status_from, status_to, settle_entry, parts_in, shown_in, wheel_in, slot_in}};
ghost use Rattle.ert_table.specs.Places as places;

use crate::carry::{Settle, TimerCarry};
use crate::desk::{Desk, Pass};
use crate::places::SlotPlace;
use crate::plays::{Adds, Carried, Compares, Loads};
use crate::timer_words::{armed_deadline, armed_word, timer_of, timer_word, word_after};
use ert_defs::{Actor, Start, Status, TimerRef};
use std::marker::Brand;

impl Settle {
    /// The status of a timer that can be settled so.
    fn status_before(self) -> Status
        ensures { result ≡ status_from self }
    {
        match self {
            Settle::Cancel | Settle::Expire | Settle::Orphan => Status::Armed,
            Settle::Deliver | Settle::Drop => Status::Expired,
        }
    }

    /// The status that it gets.
    fn status_after(self) -> Status
        ensures { result ≡ status_to self }
    {
        match self {
            Settle::Cancel => Status::Cancelled,
            Settle::Expire => Status::Expired,
            Settle::Orphan => Status::Orphaned,
            Settle::Deliver => Status::Delivered,
            Settle::Drop => Status::Dropped,
        }
    }
}

impl Desk {
    /// Begins to bring the word of a slot into the caches. It is no step, and tells nothing: a caller that will write the
    /// word waits for it beside what else it reads, and not after all that it has written.
    #[inline(always)]
    pub fn touch(&self, wheel: u32, slot: u32) -> SlotPlace
        requires { IsSlot (settings_of self.now) wheel slot }
        ensures { IsPlaceOf (settings_of self.now) wheel slot result }
    {
        let place = self.slot_place(wheel as usize, slot as usize);
        self.table.shared.peek(place);
        SlotPlace { place }
    }
}

impl Pass {
    /// Starts a timer in a slot that is free (`erlang` module reference, `start_timer`).
    ///
    /// `deadline` is that of the timer by the caller's last look, in milliseconds after the start time.
    pub fn arm(&mut self, desk: &Desk, by: u32, timer: TimerRef, start: &Start, deadline: u64)
        requires belongs { Belongs desk.now self.old }
        requires may { MayMake desk.now self.old (arm_entry by timer start.now) }
        requires deadline { IsDeadlineOf desk.now self.old by timer start.now deadline }
        ensures belongs { Belongs desk.now self.new }
        ensures step { Makes desk.now self.old (arm_entry by timer start.now) self.new }
    {
        let place = SlotPlace {
            place: desk.slot_place(timer.wheel as usize, timer.slot as usize),
        };
        let word = armed_word(deadline, timer.generation);
        self.arm_at(desk, by, timer, start, deadline, word, place);
    }

    /// The same, where the word of the timer is known, and the place of the slot from `Desk::touch`.
    #[inline(always)]
    pub fn arm_at(
        &mut self,
        desk: &Desk,
        by: u32,
        timer: TimerRef,
        start: &Start,
        deadline: u64,
        word: u64,
        place: SlotPlace,
    )
        requires belongs { Belongs desk.now self.old }
        requires may { MayMake desk.now self.old (arm_entry by timer start.now) }
        requires deadline { IsDeadlineOf desk.now self.old by timer start.now deadline }
        requires word { word ≡ words.timer_word Armed deadline timer.generation }
        requires place { IsPlaceOf (settings_of desk.now) timer.wheel timer.slot place }
        ensures belongs { Belongs desk.now self.new }
        ensures step { Makes desk.now self.old (arm_entry by timer start.now) self.new }
    {
        self.arm_as::<Brand>(desk, by, timer, start, deadline, word, place);
    }

    #[inline(always)]
    fn arm_as<C: Carried>(
        &mut self,
        desk: &Desk,
        by: u32,
        timer: TimerRef,
        start: &Start,
        deadline: u64,
        word: u64,
        place: SlotPlace,
    )
        requires settings { C.settings ≡ settings_of desk.now }
        requires belongs { Belongs desk.now self.old }
        requires may { MayMake desk.now self.old (arm_entry by timer start.now) }
        requires entry { C.entry ≡ (λ n. arm_entry by timer start.now) }
        requires deadline { IsDeadlineOf desk.now self.old by timer start.now deadline }
        requires word { word ≡ words.timer_word Armed deadline timer.generation }
        requires place { IsPlaceOf (settings_of desk.now) timer.wheel timer.slot place }
        ensures belongs { Belongs desk.now self.new }
        ensures step { Makes desk.now self.old (arm_entry by timer start.now) self.new }
    {
        desk.table
            .shared
            .store::<Adds<C>>(&mut self.seat, place.place, word);
    }

    /// Settles an armed timer, or hands over one that has expired, and answers whether it did.
    ///
    /// `deadline` is that of the timer, in milliseconds after the start time. Either way the timer isn't
    /// armed any more. A timer that has expired stays so until it is handed over, so that can't fail.
    pub fn settle(
        &mut self,
        desk: &Desk,
        by: Actor,
        timer: TimerRef,
        deadline: u64,
        how: Settle,
    ) -> bool
        requires belongs { Belongs desk.now self.old }
        requires row { HasRow (state_of desk.now self.old) timer deadline }
        requires may { MayMake desk.now self.old (settled_made desk.now self.old by timer deadline how) }
        ensures belongs { Belongs desk.now self.new }
        ensures step { SettlesOrMisses desk.now self.old by timer deadline how result self.new }
        ensures settled { (state_of desk.now self.new).status timer ≢ Some Armed }
    {
        let place = desk.slot_place(timer.wheel as usize, timer.slot as usize);
        let word = timer_word(how.status_before(), deadline, timer.generation);
        self.settle_as::<Brand>(desk, by, how, timer, deadline, place, word)
    }

    /// The same, where the place and the word of the timer are known already.
    #[inline(always)]
    pub(crate) fn settle_as<C: Carried>(
        &mut self,
        desk: &Desk,
        by: Actor,
        how: Settle,
        timer: TimerRef,
        deadline: u64,
        place: usize,
        word: u64,
    ) -> bool
        requires settings { C.settings ≡ settings_of desk.now }
        requires belongs { Belongs desk.now self.old }
        requires row { HasRow (state_of desk.now self.old) timer deadline }
        requires place { place ≡ places.slot_place (settings_of desk.now) timer.wheel timer.slot }
        requires word { word ≡ words.timer_word (status_from how) deadline timer.generation }
        requires entry { C.entry ≡ settle_entry (settings_of desk.now) (state_of desk.now self.old) by timer deadline how }
        requires may { MayMake desk.now self.old (settled_made desk.now self.old by timer deadline how) }
        ensures belongs { Belongs desk.now self.new }
        ensures step { SettlesOrMisses desk.now self.old by timer deadline how result self.new }
        ensures settled { (state_of desk.now self.new).status timer ≢ Some Armed }
    {
        let new = word_after(word, how.status_after(), timer.generation);
        let found = desk
            .table
            .shared
            .compare_exchange::<Compares<C>>(&mut self.seat, place, word, new);
        found == word
    }

    /// Reads a timer that is in range (`erlang` module reference, `read_timer`): its deadline where it is armed, in
    /// milliseconds after the start time.
    #[inline(always)]
    pub fn peek(&mut self, desk: &Desk, by: Actor, timer: TimerRef) -> Option<u64>
        requires belongs { Belongs desk.now self.old }
        requires held { is_held (actors_of self.old) by ≡ true }
        requires user { IsUser (settings_of desk.now) by }
        requires in_range { names_timer (settings_of desk.now) timer ≡ true }
        ensures belongs { Belongs desk.now self.new }
        ensures step { Peeks (settings_of desk.now) (view_of self.old) by timer result (view_of self.new) }
    {
        let place = desk.slot_place(timer.wheel as usize, timer.slot as usize);
        let word = self.load_timer_as::<Brand>(desk, by, &TimerCarry::Peek { timer }, place);
        armed_deadline(word, timer.generation)
    }

    /// Reads a timer that is in range, and cancels it where it is armed (`erlang` module reference, `cancel_timer`): its
    /// deadline where it was cancelled, in milliseconds after the start time.
    ///
    /// These are two steps. The exchange expects the word that was loaded, so it misses the timer where somebody else
    /// settled it in between.
    #[inline(always)]
    pub fn cancel(&mut self, desk: &Desk, by: Actor, timer: TimerRef) -> Option<u64>
        requires belongs { Belongs desk.now self.old }
        requires held { is_held (actors_of self.old) by ≡ true }
        requires user { IsUser (settings_of desk.now) by }
        requires in_range { names_timer (settings_of desk.now) timer ≡ true }
        ensures belongs { Belongs desk.now self.new }
        ensures steps { PeeksAndCancels (settings_of desk.now) (view_of self.old) by timer result (view_of self.new) }
    {
        let place = desk.slot_place(timer.wheel as usize, timer.slot as usize);
        let word = self.load_timer_as::<Brand>(desk, by, &TimerCarry::Peek { timer }, place);
        let deadline = armed_deadline(word, timer.generation)?;
        if self.settle_as::<Brand>(desk, by, Settle::Cancel, timer, deadline, place, word) {
            Some(deadline)
        } else {
            None
        }
    }

    /// Loads the word of a slot, and records what is carried.
    ///
    /// It shows the status of the last timer of the slot, its deadline in milliseconds after the start
    /// time, and its generation, or only which use of its round that is where it isn't armed; None where
    /// the slot was never used.
    pub fn load_timer(
        &mut self,
        desk: &Desk,
        by: Actor,
        carry: &TimerCarry,
    ) -> Option<(Status, u64, u64)>
        requires belongs { Belongs desk.now self.old }
        requires may { MayLoadTimer desk.now self.old by carry.now }
        ensures belongs { Belongs desk.now self.new }
        ensures step { Makes desk.now self.old (read_made desk.now self.old by carry.now result) self.new }
        ensures shown { result ≡ shown_in (state_of desk.now self.new) (wheel_in carry.now) (slot_in carry.now) }
    {
        let (wheel, slot) = carry.slot();
        let place = desk.slot_place(wheel as usize, slot as usize);
        let word = self.load_timer_as::<Brand>(desk, by, carry, place);
        timer_of(word)
    }

    #[inline(always)]
    pub(crate) fn load_timer_as<C: Carried>(
        &mut self,
        desk: &Desk,
        by: Actor,
        carry: &TimerCarry,
        place: usize,
    ) -> u64
        requires settings { C.settings ≡ settings_of desk.now }
        requires entry { C.entry ≡ (λ n. read_made desk.now self.old by carry.now (parts_in n)) }
        requires belongs { Belongs desk.now self.old }
        requires may { MayLoadTimer desk.now self.old by carry.now }
        requires place { place ≡ places.slot_place (settings_of desk.now) (wheel_in carry.now) (slot_in carry.now) }
        ensures belongs { Belongs desk.now self.new }
        ensures step { Makes desk.now self.old (read_made desk.now self.old by carry.now (parts_in result)) self.new }
        ensures word { words.word_of_slot (state_of desk.now self.new) (wheel_in carry.now) (slot_in carry.now) ≡ result }
    {
        desk.table.shared.load::<Loads<C>>(&mut self.seat, place)
    }
}

impl TimerCarry {
    /// The wheel and the slot that are looked at.
    fn slot(&self) -> (u32, u32)
        ensures { result ≡ (wheel_in self.now, slot_in self.now) }
    {
        match self {
            TimerCarry::Probe { wheel, slot } => (*wheel, *slot),
            TimerCarry::Peek { timer } => (timer.wheel, timer.slot),
        }
    }
}
