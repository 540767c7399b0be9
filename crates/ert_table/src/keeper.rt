//! The clock's part of the service: it publishes what the clock does (`ert_clock`) on the desk, so that each thread can
//! read the time and the offset.
//!
//! **What it is.** One thread at a time has the part, and with it a pass that holds the actor of the clock and the caller
//! who moves it. The plain clock answers a reading first, and alone: it decides what is refused, before any step. Then the
//! part stores what moved: the time, and after it the offset where the tick made a shift due. A finalization of an offset
//! that isn't preliminary moves nothing, and is recorded by one read of the offset.
//!
//! **What it promises.** The part's clock stands for the front of the pass: it shows what the clock of that history shows,
//! and no shift is due. Between the two stores of a tick other threads may step, and may read the new time with the old
//! offset, but none of their entries is the clock's. Each call keeps this, answers exactly as the clock does, and takes
//! place on the pass with exactly its entries. A refused call takes no step and changes nothing. No call takes memory.
ghost use Rattle.std.specs.Prelude.{◌≡◌};
ghost use Rattle.ert_clock.specs.Ticks.{state_by};

use crate::carry::OffsetCarry;
use crate::desk::{Desk, Pass};
use ert_clock::{Clock, ClockErr, Moved};
use ert_defs::{Act, Actor, OffsetState, Reading, Settings};
use std::marker::Model;

/// The clock's part of a desk: the clock whose moves it publishes.
#[derive(Drop)]
pub struct KeeperPart {
    clock: Clock,
}

impl Model for KeeperPart {
    ghost use Rattle.ert_clock.specs.Shown.{Shown};

    ghost Value = { Shown };

    ghost view = { λ p. p.clock };
}

impl KeeperPart {
    ghost use Rattle.std.specs.Prelude.{◌≡◌, []};
    ghost use Rattle.std.specs.Result.{IfErr};
    ghost use Rattle.ert_effects.specs.ClockCalls.{Ticks, Finalizes};
    ghost use Rattle.ert_table.specs.{Calls.IsMade, Desks.{settings_of, view_of, front_of, Belongs}, Takes.TakesPlace, Published.{HoldsKeeper, ReadsByLeastCaller, IsAhead, IsStill, unmoved_entries}};
    ghost use Rattle.ert_defs.specs.Settings.{IsChecked};
    ghost use Rattle.ert_clock.specs.{Shown.{ClockStands, opening_shown}, Ticks.{act_of, Gives, ClockFinalizesFrom, tick_entries}};

    /// The part of a desk that has just been opened: its clock is that of the opening.
    pub fn open(settings: &Settings) -> KeeperPart
        requires checked { IsChecked settings.now }
        ensures opens { result ≡ opening_shown settings.now }
        ensures stands { ClockStands settings.now [] result }
    {
        KeeperPart {
            clock: Clock::new(settings),
        }
    }

    /// The part's clock: the time and the offset that were published last.
    pub fn clock(&self) -> &Clock
        ensures { result.now ≡ self.now }
    {
        &self.clock
    }

    /// Takes one reading for a caller, and publishes the time that follows and then the offset, where that
    /// was set (ERTS User's Guide, "Time Correction" and "Time Warp Modes"). `force` asks for a check.
    ///
    /// It is refused where the clock refuses it (`ClockErr`), and then no step is taken.
    #[inline(always)]
    pub fn tick(
        &mut self,
        desk: &Desk,
        pass: &mut Pass,
        by: u32,
        reading: Reading,
        force: bool,
    ) -> Result<Moved, ClockErr>
        requires belongs { Belongs desk.now pass.old }
        requires holds { HoldsKeeper (settings_of desk.now) (view_of pass.old) by }
        requires stands { ClockStands (settings_of desk.now) (front_of pass.old) self.old }
        ensures belongs { Belongs desk.now pass.new }
        ensures gives { Gives self.old reading (act_of force) result self.new }
        ensures call { IsMade (settings_of desk.now) (view_of pass.old) (Ticks (settings_of desk.now) by reading force result) (view_of pass.new) }
        ensures refused { IfErr result (λ e. view_of pass.new ≡ view_of pass.old) }
        ensures stands { ClockStands (settings_of desk.now) (front_of pass.new) self.new }
    {
        let moved = self.clock.tick(reading, force)?;
        let act = if force { Act::Force } else { Act::Plain };
        self.publish(desk, pass, by, reading, act, moved);
        Ok(moved)
    }

    /// Finalizes the time offset for a caller, and answers the state that it had (`erlang:system_flag`,
    /// `time_offset`). From preliminary it publishes a tick and then the final offset. From another state
    /// it moves nothing, and only reads the offset.
    ///
    /// It is refused where the clock refuses it (`ClockErr`), and then no step is taken.
    pub fn finalize(
        &mut self,
        desk: &Desk,
        pass: &mut Pass,
        by: u32,
        reading: Reading,
    ) -> Result<(OffsetState, Moved), ClockErr>
        requires belongs { Belongs desk.now pass.old }
        requires holds { HoldsKeeper (settings_of desk.now) (view_of pass.old) by }
        requires least { ReadsByLeastCaller self.old.face.state (settings_of desk.now) (view_of pass.old) by }
        requires stands { ClockStands (settings_of desk.now) (front_of pass.old) self.old }
        ensures belongs { Belongs desk.now pass.new }
        ensures gives { ClockFinalizesFrom self.old.face.state self.old reading result self.new }
        ensures call { IsMade (settings_of desk.now) (view_of pass.old) (Finalizes (settings_of desk.now) by reading result) (view_of pass.new) }
        ensures refused { IfErr result (λ e. view_of pass.new ≡ view_of pass.old) }
        ensures stands { ClockStands (settings_of desk.now) (front_of pass.new) self.new }
    {
        let (state, moved) = self.clock.finalize(reading)?;
        if state == OffsetState::Preliminary {
            self.publish(desk, pass, by, reading, Act::Finalize, moved);
        } else {
            self.read_offset(desk, pass, by);
        }
        Ok((state, moved))
    }

    /// Stores what a tick moved, which the clock has done already: the time and then the offset.
    fn publish(
        &self,
        desk: &Desk,
        pass: &mut Pass,
        by: u32,
        reading: Reading,
        act: Act,
        moved: Moved,
    )
        requires belongs { Belongs desk.now pass.old }
        requires holds { HoldsKeeper (settings_of desk.now) (view_of pass.old) by }
        requires ahead { IsAhead (settings_of desk.now) (front_of pass.old) reading act moved self.now }
        ensures belongs { Belongs desk.now pass.new }
        ensures takes { TakesPlace (settings_of desk.now) (view_of pass.old) (tick_entries by reading act moved.now moved.shift) (view_of pass.new) }
        ensures stands { ClockStands (settings_of desk.now) (front_of pass.new) self.now }
    {
        pass.store_time(desk, by, reading, act, moved.now);
        if let Some(offset) = moved.shift {
            pass.store_offset(desk, by, offset, state_by(act));
        }
    }

    /// Records that the offset wasn't finalized, by a read of it.
    fn read_offset(&self, desk: &Desk, pass: &mut Pass, by: u32)
        requires belongs { Belongs desk.now pass.old }
        requires holds { HoldsKeeper (settings_of desk.now) (view_of pass.old) by }
        requires still { IsStill (settings_of desk.now) (view_of pass.old) by self.now }
        ensures belongs { Belongs desk.now pass.new }
        ensures takes { TakesPlace (settings_of desk.now) (view_of pass.old) (unmoved_entries by self.now) (view_of pass.new) }
        ensures stands { ClockStands (settings_of desk.now) (front_of pass.new) self.now }
    {
        pass.load_offset(desk, Actor::Keeper, &OffsetCarry::Off);
    }
}

/// The state to which a shift sets the offset.
fn state_by(act: Act) -> OffsetState
    ensures { result ≡ state_by act }
{
    match act {
        Act::Finalize => OffsetState::Final,
        Act::Plain | Act::Force => OffsetState::Volatile,
    }
}
