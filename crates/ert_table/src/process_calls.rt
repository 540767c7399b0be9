//! Calls on the exits of processes.
ghost use Rattle.std.specs.Prelude.{◌≡◌, ◌<◌, true};
ghost use Rattle.ert_defs.specs.Actors.{IsUser};
ghost use Rattle.ert_table.specs.{Desks.{settings_of, view_of, actors_of, Belongs}, Held.is_held, Calls.IsMade};
ghost use Rattle.ert_effects.specs.WheelCalls.{TellsAlive, MarksExit};

use crate::desk::{Desk, Pass};
use ert_defs::Actor;

impl Pass {
    /// Whether a process has not exited (`erlang` module reference, `is_process_alive`).
    pub fn is_alive(&mut self, desk: &Desk, by: Actor, process: u32) -> bool
        requires belongs { Belongs desk.now self.old }
        requires held { is_held (actors_of self.old) by ≡ true }
        requires user { IsUser (settings_of desk.now) by }
        requires in_range { process < (settings_of desk.now).processes }
        ensures belongs { Belongs desk.now self.new }
        ensures call { IsMade (settings_of desk.now) (view_of self.old) (TellsAlive (settings_of desk.now) by process result) (view_of self.new) }
    {
        !self.mark(desk, by, process, false)
    }

    /// Lets a process exit, and tells whether it had not exited before.
    ///
    /// The timers that are armed for the process stay so.
    pub fn mark_exit(&mut self, desk: &Desk, by: Actor, process: u32) -> bool
        requires belongs { Belongs desk.now self.old }
        requires held { is_held (actors_of self.old) by ≡ true }
        requires user { IsUser (settings_of desk.now) by }
        requires in_range { process < (settings_of desk.now).processes }
        ensures belongs { Belongs desk.now self.new }
        ensures call { IsMade (settings_of desk.now) (view_of self.old) (MarksExit (settings_of desk.now) by process result) (view_of self.new) }
    {
        !self.mark(desk, by, process, true)
    }
}
