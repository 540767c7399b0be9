//! Calls that read and cancel timers.
//!
//! A cancel is always inlined. A reference that is passed by memory was written in parts just before, and is read as
//! a whole: so it waits until all writes before it are done, among them those that miss the caches. In a run of
//! cancels these are those of the one before.
ghost use Rattle.std.specs.Prelude.{◌≡◌, ◌≤ℤ◌, ◌<ℤ◌, true};
ghost use Rattle.ert_defs.specs.{Actors.IsUser, Lines.end_time};
ghost use Rattle.ert_defs.specs.Milliseconds as milliseconds;
ghost use Rattle.ert_table.specs.{Desks.{settings_of, view_of, actors_of, Belongs}, Held.is_held, Left.IsMadeTellingLeft};
ghost use Rattle.ert_effects.specs.TimerCalls.{Reads, Cancels};

use crate::desk::{Desk, Pass};
use ert_defs::milliseconds::rounded_up;
use ert_defs::{Actor, Settings, TimerRef};

impl Pass {
    /// The whole milliseconds left of a timer (`erlang` module reference, `read_timer`).
    ///
    /// None comes exactly where the reference is out of range or its timer isn't armed.
    pub fn read_timer(&mut self, desk: &Desk, by: Actor, timer: TimerRef) -> Option<u64>
        requires belongs { Belongs desk.now self.old }
        requires held { is_held (actors_of self.old) by ≡ true }
        requires user { IsUser (settings_of desk.now) by }
        ensures belongs { Belongs desk.now self.new }
        ensures call { IsMadeTellingLeft (settings_of desk.now) (view_of self.old) by timer result (Reads (settings_of desk.now) by timer result) (view_of self.new) }
    {
        let now = self.look(desk, by);
        if !timer.is_in_range(desk.settings()) {
            return None;
        }
        let deadline = self.peek(desk, by, timer)?;
        Some(left(desk.settings(), deadline, now))
    }

    /// Cancels a timer, and tells the whole milliseconds that were left of it (`erlang` module reference,
    /// `cancel_timer`).
    ///
    /// None comes exactly where the reference is out of range or its timer isn't armed at the last step of the
    /// call.
    #[inline(always)]
    pub fn cancel_timer(&mut self, desk: &Desk, by: Actor, timer: TimerRef) -> Option<u64>
        requires belongs { Belongs desk.now self.old }
        requires held { is_held (actors_of self.old) by ≡ true }
        requires user { IsUser (settings_of desk.now) by }
        ensures belongs { Belongs desk.now self.new }
        ensures call { IsMadeTellingLeft (settings_of desk.now) (view_of self.old) by timer result (Cancels (settings_of desk.now) by timer result) (view_of self.new) }
    {
        let now = self.look(desk, by);
        let settings = desk.settings();
        // All that hangs on the time alone is reckoned before the exchange, behind which the time would be read again.
        let up = rounded_up(settings, now);
        if !timer.is_in_range(settings) {
            return None;
        }
        let deadline = self.cancel(desk, by, timer)?;
        Some(deadline.saturating_sub(up))
    }
}

/// The whole milliseconds from a time to a deadline; 0 where the deadline has passed.
fn left(settings: &Settings, deadline: u64, now: i64) -> u64
    requires low { settings.now.start ≤ℤ now }
    requires high { now <ℤ end_time settings.now }
    ensures { result ≡ milliseconds.left settings.now deadline now }
{
    deadline.saturating_sub(rounded_up(settings, now))
}
