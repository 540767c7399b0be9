//! Steps on the words of the time and of the offset.
ghost use Rattle.std.specs.Prelude.{◌≡◌};
ghost use Rattle.ert_defs.specs.{Words.{time_word, offset_word, is_final}, Entries.{tick_entry, shift_entry}};
ghost use Rattle.ert_table.specs.{Desks.{settings_of, state_of, Belongs, MayMake, Makes, MayLoadTime, MayLoadOffset, offset_made, offset_loaded}, Entries.{time_entry, time_in, state_where}};

use crate::carry::{OffsetCarry, TimeCarry};
use crate::clock_words::{offset_of, offset_word, time_of, time_word};
use crate::desk::{Desk, Pass};
use crate::places::{OFFSET, TIME};
use crate::plays::{Adds, Carried, Loads};
use ert_defs::{Act, Actor, Mode, OffsetState, Reading};
use std::marker::Brand;

impl Pass {
    /// Stores the time that follows from a reading: the tick of a caller, whose clock part the pass holds.
    ///
    /// `now` is in nanoseconds.
    pub fn store_time(&mut self, desk: &Desk, by: u32, reading: Reading, act: Act, now: i64)
        requires belongs { Belongs desk.now self.old }
        requires may { MayMake desk.now self.old (tick_entry by reading act now) }
        ensures belongs { Belongs desk.now self.new }
        ensures step { Makes desk.now self.old (tick_entry by reading act now) self.new }
    {
        self.store_time_as::<Brand>(desk, by, reading, act, now);
    }

    fn store_time_as<C: Carried>(
        &mut self,
        desk: &Desk,
        by: u32,
        reading: Reading,
        act: Act,
        now: i64,
    )
        requires settings { C.settings ≡ settings_of desk.now }
        requires entry { C.entry ≡ (λ n. tick_entry by reading act now) }
        requires belongs { Belongs desk.now self.old }
        requires may { MayMake desk.now self.old (tick_entry by reading act now) }
        ensures belongs { Belongs desk.now self.new }
        ensures step { Makes desk.now self.old (tick_entry by reading act now) self.new }
    {
        let word = time_word(now, desk.settings.start);
        desk.table
            .shared
            .store::<Adds<C>>(&mut self.seat, TIME, word);
    }

    /// Loads the time, in nanoseconds, and records what is carried.
    pub fn load_time(&mut self, desk: &Desk, by: Actor, carry: &TimeCarry) -> i64
        requires belongs { Belongs desk.now self.old }
        requires may { MayLoadTime desk.now self.old by carry.now }
        ensures belongs { Belongs desk.now self.new }
        ensures step { Makes desk.now self.old (time_entry by carry.now result) self.new }
        ensures time { result ≡ (state_of desk.now self.new).clock.now }
    {
        let word = self.load_time_as::<Brand>(desk, by, carry);
        time_of(word, desk.settings.start)
    }

    fn load_time_as<C: Carried>(&mut self, desk: &Desk, by: Actor, carry: &TimeCarry) -> u64
        requires settings { C.settings ≡ settings_of desk.now }
        requires entry { C.entry ≡ (λ n. time_entry by carry.now (time_in (settings_of desk.now) n)) }
        requires belongs { Belongs desk.now self.old }
        requires may { MayLoadTime desk.now self.old by carry.now }
        ensures belongs { Belongs desk.now self.new }
        ensures step { Makes desk.now self.old (time_entry by carry.now (time_in (settings_of desk.now) result)) self.new }
        ensures word { time_word (state_of desk.now self.new).clock.now (settings_of desk.now).start ≡ result }
    {
        desk.table.shared.load::<Loads<C>>(&mut self.seat, TIME)
    }

    /// Stores the offset that the last tick made due: the shift of a caller, whose clock part the pass holds.
    ///
    /// `offset` is in nanoseconds.
    pub fn store_offset(&mut self, desk: &Desk, by: u32, offset: i64, state: OffsetState)
        requires belongs { Belongs desk.now self.old }
        requires may { MayMake desk.now self.old (shift_entry by offset state) }
        ensures belongs { Belongs desk.now self.new }
        ensures step { Makes desk.now self.old (shift_entry by offset state) self.new }
    {
        self.store_offset_as::<Brand>(desk, by, offset, state);
    }

    fn store_offset_as<C: Carried>(&mut self, desk: &Desk, by: u32, offset: i64, state: OffsetState)
        requires settings { C.settings ≡ settings_of desk.now }
        requires entry { C.entry ≡ (λ n. shift_entry by offset state) }
        requires belongs { Belongs desk.now self.old }
        requires may { MayMake desk.now self.old (shift_entry by offset state) }
        ensures belongs { Belongs desk.now self.new }
        ensures step { Makes desk.now self.old (shift_entry by offset state) self.new }
    {
        let word = offset_word(offset, state_is_final(state));
        desk.table
            .shared
            .store::<Adds<C>>(&mut self.seat, OFFSET, word);
    }

    /// Loads the offset, in nanoseconds, and its state, and records what is carried.
    ///
    /// Where the clock's part reads it, the entry is with the caller of least number that the pass holds.
    pub fn load_offset(&mut self, desk: &Desk, by: Actor, carry: &OffsetCarry) -> (i64, OffsetState)
        requires belongs { Belongs desk.now self.old }
        requires may { MayLoadOffset desk.now self.old by carry.now }
        ensures belongs { Belongs desk.now self.new }
        ensures step { Makes desk.now self.old (offset_made desk.now self.old by carry.now result.0 result.1) self.new }
        ensures offset { result.0 ≡ (state_of desk.now self.new).clock.offset }
        ensures state { result.1 ≡ (state_of desk.now self.new).clock.state }
    {
        let word = self.load_offset_as::<Brand>(desk, by, carry);
        let (offset, is_final) = offset_of(word);
        (offset, state_at(desk.settings.mode, is_final))
    }

    fn load_offset_as<C: Carried>(&mut self, desk: &Desk, by: Actor, carry: &OffsetCarry) -> u64
        requires settings { C.settings ≡ settings_of desk.now }
        requires entry { C.entry ≡ (λ n. offset_loaded desk.now self.old by carry.now n) }
        requires belongs { Belongs desk.now self.old }
        requires may { MayLoadOffset desk.now self.old by carry.now }
        ensures belongs { Belongs desk.now self.new }
        ensures step { Makes desk.now self.old (offset_loaded desk.now self.old by carry.now result) self.new }
        ensures word { let clock = (state_of desk.now self.new).clock in offset_word clock.offset (is_final clock.state) ≡ result }
    {
        desk.table.shared.load::<Loads<C>>(&mut self.seat, OFFSET)
    }
}

fn state_is_final(state: OffsetState) -> bool
    ensures { result ≡ is_final state }
{
    matches!(state, OffsetState::Final)
}

/// The state of an offset that is final or not yet.
fn state_at(mode: Mode, is_final: bool) -> OffsetState
    ensures { result ≡ state_where mode is_final }
{
    if is_final {
        return OffsetState::Final;
    }
    match mode {
        Mode::No => OffsetState::Final,
        Mode::Single => OffsetState::Preliminary,
        Mode::Multi => OffsetState::Volatile,
    }
}
