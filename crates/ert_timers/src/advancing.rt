//! Timers that expire.
ghost use Rattle.std.specs.Prelude.{◌≡◌, ◌<◌, length};

use crate::expired_list::ExpiredList;
use crate::looking::look_down;
use crate::part::WheelPart;
use ert_defs::{Actor, NoMemory};
use ert_table::{Desk, Pass, Settle, TimeCarry};
use ert_wheel::HeldRow;

impl WheelPart {
    ghost use Rattle.std.specs.Prelude.{◌≡◌, ◌<◌, ◌≤◌, IfOk, Some, length};
    ghost use Rattle.ert_defs.specs.{Legal.IsNext, States.state, declared.entry.Actor.TheVariants.Sched};
    ghost use Rattle.ert_table.specs.{Desks.{settings_of, view_of, front_of, Belongs}, Calls.IsMade};
    ghost use Rattle.ert_timers.specs.{Expiring.{Expires, ExpiresSome, IsReady, IsTried, IsAdvanced, TriesHeld}, Parts.{HoldsSched, PartStands, last_timer}, Passed.{HasPassed, LosesRows}};
    ghost use Rattle.ert_wheel.specs.Rows.{key_in, key_of, row_told, rows_told};

    /// Lets every timer expire whose deadline has come, by the time that the call itself looks up. Their
    /// timers are added to `expired`, in order of deadline and then of start. The answer is that time, in whole
    /// milliseconds since the start time, rounded down.
    ///
    /// A due timer that doesn't expire was settled by another. No timer is tried that has no row. The row of each due timer goes, and then no row is held
    /// that is due by that time. All memory is taken before the first timer expires:
    /// after NoMemory none has.
    #[inline(always)]
    pub fn advance(
        &mut self,
        desk: &Desk,
        pass: &mut Pass,
        expired: &mut ExpiredList,
    ) -> Result<u64, NoMemory>
        requires belongs { Belongs desk.now pass.old }
        requires holds { HoldsSched (view_of pass.old) self.old.number }
        requires stands { PartStands (settings_of desk.now) (front_of pass.old) self.old }
        ensures belongs { Belongs desk.now pass.new }
        ensures number { self.new.number ≡ self.old.number }
        ensures stands { PartStands (settings_of desk.now) (front_of pass.new) self.new }
        ensures call { IsAdvanced (settings_of desk.now) (view_of pass.old) self.old.number result expired.old expired.new (view_of pass.new) }
        ensures held { IfOk result (λ to. IsMade (settings_of desk.now) (view_of pass.old) (TriesHeld self.old to) (view_of pass.new)) }
        ensures passed { IfOk result (λ to. HasPassed self.new to) }
        ensures loses { LosesRows self.old self.new }
    {
        let to = self.try_due(desk, pass, expired)?;
        pass.load_time(
            desk,
            Actor::Sched(self.number()),
            &TimeCarry::Advanced { to },
        );
        Ok(to)
    }

    /// Looks at the time, and tries all rows that are due by it.
    #[inline(always)]
    pub(crate) fn try_due(
        &mut self,
        desk: &Desk,
        pass: &mut Pass,
        expired: &mut ExpiredList,
    ) -> Result<u64, NoMemory>
        requires belongs { Belongs desk.now pass.old }
        requires holds { HoldsSched (view_of pass.old) self.old.number }
        requires stands { PartStands (settings_of desk.now) (front_of pass.old) self.old }
        ensures belongs { Belongs desk.now pass.new }
        ensures call { IsTried (settings_of desk.now) (view_of pass.old) self.old self.new result expired.old expired.new (view_of pass.new) }
        ensures on { IfOk result (λ to. to < self.new.passed) }
    {
        let to = look_down(desk, pass, Actor::Sched(self.number()));
        if self.is_idle(to) {
            self.go_on(to);
            return Ok(to);
        }
        let due = self.find_due(to, expired)?;
        self.expire_all(desk, pass, to, &due, expired);
        self.keep_list(due);
        Ok(to)
    }

    /// Tries all rows that are due at `to`, in order.
    #[inline(never)]
    fn expire_all(
        &mut self,
        desk: &Desk,
        pass: &mut Pass,
        to: u64,
        due: &[HeldRow],
        expired: &mut ExpiredList,
    )
        requires belongs { Belongs desk.now pass.old }
        requires holds { HoldsSched (view_of pass.old) self.old.number }
        requires ready { IsReady (settings_of desk.now) (front_of pass.old) self.old to (rows_told self.old.keys due.now) }
        requires room { length due.now ≤ expired.old.room }
        requires few { to ≤ 8796093022207 }
        ensures belongs { Belongs desk.now pass.new }
        ensures call { ExpiresSome (settings_of desk.now) (view_of pass.old) self.old self.new to (rows_told self.old.keys due.now) (length due.now)
            expired.old expired.new (view_of pass.new) }
        ensures on { to < self.new.passed }
    {
        for row in due {
            self.expire(desk, pass, *row, expired);
        }
        self.go_on(to);
    }

    /// Tries to let a timer expire, and drops its row.
    #[inline(always)]
    pub(crate) fn expire(
        &mut self,
        desk: &Desk,
        pass: &mut Pass,
        row: HeldRow,
        expired: &mut ExpiredList,
    )
        requires belongs { Belongs desk.now pass.old }
        requires holds { HoldsSched (view_of pass.old) self.old.number }
        requires stands { PartStands (settings_of desk.now) (front_of pass.old) self.old }
        requires held { key_in self.old.keys row.slot ≡ Some (key_of (row_told self.old.keys row)) }
        requires low { row.slot < length self.old.slots }
        requires first { IsNext (settings_of desk.now) (state (settings_of desk.now) (front_of pass.old)) (Sched self.old.number)
            (last_timer self.old.number self.old.slots row.slot) }
        requires room { 0 < expired.old.room }
        ensures belongs { Belongs desk.now pass.new }
        ensures call { Expires (settings_of desk.now) (view_of pass.old) self.old self.new (row_told self.old.keys row) expired.old expired.new (view_of pass.new) }
    {
        let timer = self.timer(row);
        let sched = Actor::Sched(self.number());
        let hit = pass.settle(desk, sched, timer.timer, timer.deadline, Settle::Expire);
        self.let_go(row.slot, hit);
        if !hit {
            return;
        }
        expired.push(timer);
    }
}
