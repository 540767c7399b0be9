//! Timers that expire, so many at most.
ghost use Rattle.std.specs.Prelude.{◌≡◌};

use crate::expired_list::ExpiredList;
use crate::looking::look_down;
use crate::part::WheelPart;
use ert_defs::{Actor, NoMemory};
use ert_effects::Left;
use ert_table::{Desk, Pass, TimeCarry};
use ert_wheel::{FirstDue, HeldRow};

impl WheelPart {
    ghost use Rattle.std.specs.Option.{is_some};
    ghost use Rattle.std.specs.Prelude.{◌≡◌, ◌≤◌, IfOk, ℕ, count_by, length, min, vec_capacity};
    ghost use Rattle.ert_effects.specs.SomeCalls.{AreTried};
    ghost use Rattle.ert_table.specs.Desks.{settings_of, view_of, front_of, Belongs};
    ghost use Rattle.ert_timers.specs.{Parts.{HoldsSched, PartStands}, Passed.LosesRows, Trying.{IsLooked, IsLeft, IsAdvancedSome, HasDue, HasExpiredSome, IsTriedSome, LosesSome}};

    /// Advances as `advance` does, but tries so many timers at most, and tells what is left.
    ///
    /// Where more are due it has tried just so many, and the next advance goes on with the others. So many rows at most move in
    /// the wheel, to lower levels or into order of start: where none can expire for that, `Left::Moving` is told, and the next advance
    /// goes on with the moves. With 0 none is tried and none moves. All memory is taken before the first timer expires: after NoMemory
    /// none has.
    pub fn advance_some(
        &mut self,
        desk: &Desk,
        pass: &mut Pass,
        most: u32,
        expired: &mut ExpiredList,
    ) -> Result<(u64, Left), NoMemory>
        requires belongs { Belongs desk.now pass.old }
        requires holds { HoldsSched (view_of pass.old) self.old.number }
        requires stands { PartStands (settings_of desk.now) (front_of pass.old) self.old }
        ensures belongs { Belongs desk.now pass.new }
        ensures number { self.new.number ≡ self.old.number }
        ensures stands { PartStands (settings_of desk.now) (front_of pass.new) self.new }
        ensures call { IsAdvancedSome (settings_of desk.now) (view_of pass.old) self.old self.new most result expired.old expired.new (view_of pass.new) }
        ensures left { IfOk result (λ answer. IsLeft self.new answer.0 answer.1) }
        // So a body that returns that more are due is refused where it tries fewer timers, and where it tries timers
        // that were settled long ago and leaves their rows.
        ensures fewer { IfOk result (λ answer. LosesSome answer.1 most self.old self.new) }
        ensures loses { LosesRows self.old self.new }
    {
        expired.reserve(self.rows_at_most(most))?;
        let mut scratch = self.lend_list()?;
        let answer = self.advance_with(desk, pass, most, &mut scratch, expired);
        self.keep_list(scratch);
        Ok(answer)
    }

    /// And so with all memory taken.
    fn advance_with(
        &mut self,
        desk: &Desk,
        pass: &mut Pass,
        most: u32,
        scratch: &mut Vec<HeldRow>,
        expired: &mut ExpiredList,
    ) -> (u64, Left)
        requires belongs { Belongs desk.now pass.old }
        requires holds { HoldsSched (view_of pass.old) self.old.number }
        requires stands { PartStands (settings_of desk.now) (front_of pass.old) self.old }
        requires room { min most (count_by is_some self.old.keys) ≤ expired.old.room }
        requires scratch { length self.old.keys ≤ vec_capacity scratch.old }
        ensures belongs { Belongs desk.now pass.new }
        ensures number { self.new.number ≡ self.old.number }
        ensures stands { PartStands (settings_of desk.now) (front_of pass.new) self.new }
        ensures call { HasExpiredSome (settings_of desk.now) (view_of pass.old) self.old self.new most result.0 result.1 expired.old expired.new (view_of pass.new) }
        ensures left { IsLeft self.new result.0 result.1 }
        ensures fewer { LosesSome result.1 most self.old self.new }
        ensures loses { LosesRows self.old self.new }
    {
        let to = look_down(desk, pass, Actor::Sched(self.number()));
        let left = self.try_some(desk, pass, to, most, scratch, expired);
        if left.is_more() {
            return (to, left);
        }
        pass.load_time(
            desk,
            Actor::Sched(self.number()),
            &TimeCarry::Advanced { to },
        );
        (to, left)
    }

    /// Tries so many at most of the rows that are due at `to`, in order, and tells what is left.
    fn try_some(
        &mut self,
        desk: &Desk,
        pass: &mut Pass,
        to: u64,
        most: u32,
        scratch: &mut Vec<HeldRow>,
        expired: &mut ExpiredList,
    ) -> Left
        requires belongs { Belongs desk.now pass.old }
        requires holds { HoldsSched (view_of pass.old) self.old.number }
        requires looked { IsLooked (settings_of desk.now) (front_of pass.old) self.old to }
        requires room { min most (count_by is_some self.old.keys) ≤ expired.old.room }
        requires few { to ≤ 8796093022207 }
        requires scratch { length self.old.keys ≤ vec_capacity scratch.old }
        ensures belongs { Belongs desk.now pass.new }
        ensures call { IsTriedSome (settings_of desk.now) (view_of pass.old) self.old self.new to most result expired.old expired.new (view_of pass.new) }
        ensures left { IsLeft self.new to result }
    {
        let mut left = most;
        let mut moves = most;
        loop {
            let row = match self.first_row_due(to, &mut moves, scratch) {
                FirstDue::Row(row) => row,
                FirstDue::Nothing => return Left::Nothing,
                FirstDue::Moving => return Left::Moving,
            };
            if left == 0 {
                return Left::Due;
            }
            self.expire(desk, pass, row, expired);
            left -= 1;
        }
    }
}
