//! Calls that tell the time.
ghost use Rattle.std.specs.Prelude.{◌≡◌, ◌≤ℤ◌, ◌<ℤ◌, true};
ghost use Rattle.ert_defs.specs.{Actors.IsUser, Lines.end_time, States.state, Entries.look_entry};
ghost use Rattle.ert_table.specs.{Desks.{settings_of, view_of, front_of, actors_of, Belongs}, Held.is_held, Takes.Appends, Calls.IsMade};
ghost use Rattle.ert_effects.specs.ClockCalls.{TellsTime, TellsOffset, TellsSystemTime};

use crate::carry::{OffsetCarry, TimeCarry};
use crate::desk::{Desk, Pass};
use ert_defs::{Actor, OffsetState};

impl Pass {
    /// Erlang monotonic time, in nanoseconds (`erlang` module reference, `monotonic_time`).
    ///
    /// It never falls from one call to a later one.
    pub fn monotonic_time(&mut self, desk: &Desk, by: Actor) -> i64
        requires belongs { Belongs desk.now self.old }
        requires held { is_held (actors_of self.old) by ≡ true }
        requires user { IsUser (settings_of desk.now) by }
        ensures belongs { Belongs desk.now self.new }
        ensures call { IsMade (settings_of desk.now) (view_of self.old) (TellsTime (settings_of desk.now) by result) (view_of self.new) }
    {
        self.look(desk, by)
    }

    /// The time offset, in nanoseconds, and its state (`erlang` module reference, `time_offset`).
    pub fn time_offset(&mut self, desk: &Desk, by: Actor) -> (i64, OffsetState)
        requires belongs { Belongs desk.now self.old }
        requires held { is_held (actors_of self.old) by ≡ true }
        requires user { IsUser (settings_of desk.now) by }
        ensures belongs { Belongs desk.now self.new }
        ensures call { IsMade (settings_of desk.now) (view_of self.old) (TellsOffset (settings_of desk.now) by result) (view_of self.new) }
    {
        self.load_offset(desk, by, &OffsetCarry::Off)
    }

    /// Erlang system time, in nanoseconds (`erlang` module reference, `system_time`).
    ///
    /// The offset is read after the time. Their sum always fits.
    pub fn system_time(&mut self, desk: &Desk, by: Actor) -> i64
        requires belongs { Belongs desk.now self.old }
        requires held { is_held (actors_of self.old) by ≡ true }
        requires user { IsUser (settings_of desk.now) by }
        ensures belongs { Belongs desk.now self.new }
        ensures call { IsMade (settings_of desk.now) (view_of self.old) (TellsSystemTime (settings_of desk.now) by result) (view_of self.new) }
    {
        let now = self.look(desk, by);
        let (offset, _) = self.load_offset(desk, by, &OffsetCarry::Off);
        now + offset
    }

    /// One step: Erlang monotonic time, in nanoseconds, which lies between the start time and the end time.
    ///
    /// It is `monotonic_time` for calls of several steps: its entry is the last of the new front.
    pub fn look(&mut self, desk: &Desk, by: Actor) -> i64
        requires belongs { Belongs desk.now self.old }
        requires held { is_held (actors_of self.old) by ≡ true }
        requires user { IsUser (settings_of desk.now) by }
        ensures belongs { Belongs desk.now self.new }
        ensures step { Appends (settings_of desk.now) (view_of self.old) (look_entry by result) (view_of self.new) }
        ensures time { result ≡ (state (settings_of desk.now) (front_of self.new)).clock.now }
        ensures low { (settings_of desk.now).start ≤ℤ result }
        ensures high { result <ℤ end_time (settings_of desk.now) }
    {
        self.load_time(desk, by, &TimeCarry::Look)
    }
}
