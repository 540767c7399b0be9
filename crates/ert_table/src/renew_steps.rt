//! The steps of a restart: a timer's word is read, and exchanged for that of the next timer of its slot.
ghost use Rattle.std.specs.Prelude.{◌≡◌, nat_eq, true};
ghost use Rattle.ert_defs.specs.{Actors.IsUser, Legal.names_timer, Timers.timer_at, declared.entry.Actor.TheVariants.Caller, declared.timer.Status.TheVariants.Armed};
ghost use Rattle.ert_defs.specs.Words as words;
ghost use Rattle.ert_table.specs.{Calls.AppendsAll, Desks.{settings_of, view_of, actors_of, state_of, Belongs, IsDeadlineOf, SettlesOrMisses}, Held.is_held, Places.IsPlaceOf, Renewals.{IsWordOf, MayRenew, PeeksWord, renewal}};
ghost use Rattle.ert_table.specs.{declared.carry.Settle.TheVariants.Cancel as ToCancel, Ranges.word_deadline};

use crate::carry::{Settle, TimerCarry};
use crate::desk::{Desk, Pass};
use crate::places::SlotPlace;
use crate::plays::{CarriedAll, ComparesAll};
use crate::timer_words::{armed_deadline, word_deadline};
use ert_defs::{Actor, Start, TimerRef};
use std::marker::Brand;

/// The word of a timer that was armed when it was read.
#[derive(Clone, Copy, Debug, PartialEq, Eq)]
pub struct ArmedWord {
    pub(crate) word: u64,
}

impl ArmedWord {
    /// The deadline that it has, in milliseconds after the start time.
    #[inline(always)]
    fn deadline(self) -> u64
        ensures { result ≡ word_deadline self.word }
    {
        word_deadline(self.word)
    }
}

impl Pass {
    /// Reads a timer that is in range (`erlang` module reference, `read_timer`), in a slot whose place is known from
    /// `Desk::touch`: its word where it is armed.
    #[inline(always)]
    pub fn peek_word(
        &mut self,
        desk: &Desk,
        by: Actor,
        timer: TimerRef,
        place: SlotPlace,
    ) -> Option<ArmedWord>
        requires belongs { Belongs desk.now self.old }
        requires held { is_held (actors_of self.old) by ≡ true }
        requires user { IsUser (settings_of desk.now) by }
        requires in_range { names_timer (settings_of desk.now) timer ≡ true }
        requires place { IsPlaceOf (settings_of desk.now) timer.wheel timer.slot place }
        ensures belongs { Belongs desk.now self.new }
        ensures step { PeeksWord (settings_of desk.now) (view_of self.old) by timer result (view_of self.new) }
    {
        let carry = TimerCarry::Peek { timer };
        let word = self.load_timer_as::<Brand>(desk, by, &carry, place.place);
        let _deadline = armed_deadline(word, timer.generation)?;
        Some(ArmedWord { word })
    }

    /// Cancels a timer whose word was read, and answers whether it did: it doesn't where somebody else settled it in
    /// between. Either way it isn't armed any more.
    #[inline(always)]
    pub fn cancel_word(
        &mut self,
        desk: &Desk,
        by: Actor,
        timer: TimerRef,
        read: ArmedWord,
        place: SlotPlace,
    ) -> bool
        requires belongs { Belongs desk.now self.old }
        requires held { is_held (actors_of self.old) by ≡ true }
        requires user { IsUser (settings_of desk.now) by }
        requires in_range { names_timer (settings_of desk.now) timer ≡ true }
        requires place { IsPlaceOf (settings_of desk.now) timer.wheel timer.slot place }
        requires read { IsWordOf (state_of desk.now self.old) timer read }
        ensures belongs { Belongs desk.now self.new }
        ensures step { SettlesOrMisses desk.now self.old by timer (word_deadline read.word) ToCancel result self.new }
    {
        let deadline = read.deadline();
        self.settle_as::<Brand>(
            desk,
            by,
            Settle::Cancel,
            timer,
            deadline,
            place.place,
            read.word,
        )
    }

    /// Cancels a timer whose word was read, and starts the next one of its slot, of a generation, by one exchange. It
    /// answers whether it did: where somebody else settled the timer in between, none is started.
    ///
    /// `deadline` is that of the next timer by the caller's last look, in milliseconds after the start time, and `word` is its
    /// word.
    #[inline(always)]
    pub fn renew(
        &mut self,
        desk: &Desk,
        by: u32,
        timer: TimerRef,
        read: ArmedWord,
        generation: u64,
        start: &Start,
        deadline: u64,
        word: u64,
        place: SlotPlace,
    ) -> bool
        requires belongs { Belongs desk.now self.old }
        requires read { IsWordOf (state_of desk.now self.old) timer read }
        requires may { MayRenew (settings_of desk.now) (view_of self.old) by timer generation start.now }
        requires deadline { IsDeadlineOf desk.now self.old by (timer_at timer.wheel timer.slot generation) start.now deadline }
        requires word { word ≡ words.timer_word Armed deadline generation }
        requires place { IsPlaceOf (settings_of desk.now) timer.wheel timer.slot place }
        ensures belongs { Belongs desk.now self.new }
        ensures step { AppendsAll (settings_of desk.now) (view_of self.old)
            (renewal (settings_of desk.now) ((state_of desk.now self.old).looked (Caller by)) by timer (word_deadline read.word) generation start.now result)
            (view_of self.new) }
    {
        self.renew_as::<Brand>(
            desk, by, timer, read, generation, start, deadline, word, place,
        )
    }

    #[inline(always)]
    fn renew_as<C: CarriedAll>(
        &mut self,
        desk: &Desk,
        by: u32,
        timer: TimerRef,
        read: ArmedWord,
        generation: u64,
        start: &Start,
        deadline: u64,
        word: u64,
        place: SlotPlace,
    ) -> bool
        requires settings { C.settings ≡ settings_of desk.now }
        requires entries { C.entries ≡ (λ n. renewal (settings_of desk.now) ((state_of desk.now self.old).looked (Caller by)) by timer (word_deadline read.word) generation start.now (nat_eq n read.word)) }
        requires belongs { Belongs desk.now self.old }
        requires read { IsWordOf (state_of desk.now self.old) timer read }
        requires may { MayRenew (settings_of desk.now) (view_of self.old) by timer generation start.now }
        requires deadline { IsDeadlineOf desk.now self.old by (timer_at timer.wheel timer.slot generation) start.now deadline }
        requires word { word ≡ words.timer_word Armed deadline generation }
        requires place { IsPlaceOf (settings_of desk.now) timer.wheel timer.slot place }
        ensures belongs { Belongs desk.now self.new }
        ensures step { AppendsAll (settings_of desk.now) (view_of self.old)
            (renewal (settings_of desk.now) ((state_of desk.now self.old).looked (Caller by)) by timer (word_deadline read.word) generation start.now result)
            (view_of self.new) }
    {
        let found = desk
            .table
            .shared
            .compare_exchange::<ComparesAll<C>>(&mut self.seat, place.place, read.word, word);
        found == read.word
    }
}
