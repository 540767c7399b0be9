//! The first row that is due, one at a time.
ghost use Rattle.std.specs.Prelude.{◌≡◌};

use super::Wheel;
use crate::falling::{fall_before, fall_on};
use crate::keyed::Keyed;
use crate::oldest::oldest_due;
use crate::ordering::order_some;
use crate::rising::is_due;
use crate::row::{FirstDue, HeldRow, LAST, NEVER};
use crate::windows::{begin_of, bucket_of_window, window_on};

impl<T: Keyed> Wheel<T> {
    ghost use Rattle.std.specs.Bool.{OnTrue};
    ghost use Rattle.std.specs.Prelude.{◌≡◌, ◌+◌, ◌-◌, ◌<◌, ◌≤◌, ℕ, IfSome, MatchBool, MatchOption, length, max, min, vec_capacity};
    ghost use Rattle.ert_wheel.specs.{FirstDue.{NoRowDue, HasToMove, IsFirstDueAt, IsFirstTold, IsNextStop, IsReached, MayBeDue, SomeRowDue}, NextDue.NoneBefore, Rows.key_in, Standing.StayOrFall, declared.row.TheConstants.LAST};

    /// Whether a row may be due at `to`: one is due by then or by the next time, or a window begins by then where rows stand. False
    /// comes only where none is due by then.
    ///
    /// Before the time that `next_due` told last it is one comparison, and up to the next time one look at a bucket. Within the
    /// next time's window of 512 milliseconds it looks at a few words, and at no row; else it looks for the next due row.
    #[inline]
    pub fn may_be_due(&self, to: u64) -> bool
        ensures { MatchBool result (MayBeDue self.now.keys self.now.stands self.now.passed to) (NoRowDue self.now.keys to) }
    {
        if to < self.floor {
            return false;
        }
        if to <= self.next_time {
            return self.is_any_due();
        }
        if to >> 9 > self.next_time >> 9 {
            return self.begins_by(to);
        }
        let end = to + 1;
        self.buckets.first_window(0, self.next_time, end) < end
    }

    /// Whether a row is late, or due at the next time.
    #[inline]
    fn is_any_due(&self) -> bool
        ensures { MatchBool result (SomeRowDue self.now.keys self.now.passed) (NoRowDue self.now.keys self.now.passed) }
    {
        let home = bucket_of_window(0, self.next_time);
        self.buckets.newest(home).is_some()
    }

    /// Whether a row may be due at `to`, where that is in a later window of the lowest level than the next time.
    #[inline(never)]
    fn begins_by(&self, to: u64) -> bool
        requires { self.now.passed ≤ to }
        ensures { MatchBool result (MayBeDue self.now.keys self.now.stands self.now.passed to) (NoRowDue self.now.keys to) }
    {
        match self.earliest() {
            Some(early) => early.time <= to,
            None => false,
        }
    }

    /// The first row, by deadline and then by order, where its deadline is at most `to`. It stays in the wheel. Where no row is
    /// due by then, time passes `to`. `scratch` is to have room for one row of each slot. What is in it is a hint of the last call: the next
    /// one comes on faster where it is kept.
    ///
    /// Time moves on to the row's deadline, where that is later than the next time. Before it comes into another window of a
    /// level the rows of the window's bucket fall, so many at most as `moves` has, which are counted down. Where more are
    /// left time stands in the last millisecond before the window: the next call goes on there. Each row falls once from each
    /// level at most, and a row that was replaced once more. Rows that stand too early in the windows between are counted too, but
    /// don't hold time up: on each level there are no more than `next_due` looks at.
    ///
    /// The bucket of the next time is put in order of start before its first row is told. That is a walk over it where its rows came in
    /// order, eight rows for each of the moves, and else a sort, one row for each. The other work is constant, but where rows were put in
    /// late since time moved on. Then it looks at the rows of the next time's bucket that are older than the first, and at all of them
    /// where a row is the first with its deadline.
    pub fn first_due(&mut self, to: u64, moves: &mut u32, scratch: &mut Vec<HeldRow>) -> FirstDue
        requires to { to < LAST }
        ensures first { IsFirstTold self.old.keys self.new.stands self.new.passed to result }
        ensures keys { self.new.keys ≡ self.old.keys }
        ensures stands { StayOrFall self.old.keys self.new.passed self.old.stands self.new.stands }
        ensures owners { self.new.owners ≡ self.old.owners }
        ensures values { self.new.values ≡ self.old.values }
        ensures passed { self.old.passed ≤ self.new.passed }
        ensures no_further { self.new.passed ≤ max self.old.passed (to + 1) }
        ensures fewer { moves.new ≤ moves.old }
        ensures capacity { vec_capacity scratch.new ≡ vec_capacity scratch.old }
    {
        if let Some(told) = self.first_kept(to, moves, scratch) {
            return told;
        }
        match self.reach(to, moves) {
            Some(stop) => self.first_by(stop, to, moves, scratch),
            None => FirstDue::Moving,
        }
    }

    /// What the floor and the kept slot tell of the first row that is due by `to`.
    #[inline]
    fn first_kept(
        &mut self,
        to: u64,
        moves: &mut u32,
        scratch: &mut Vec<HeldRow>,
    ) -> Option<FirstDue>
        ensures first { IfSome result (IsFirstTold self.old.keys self.old.stands self.old.passed to) }
        ensures same { self.new ≡ self.old }
        ensures fewer { moves.new ≤ moves.old }
        ensures capacity { vec_capacity scratch.new ≡ vec_capacity scratch.old }
    {
        let floor = self.floor;
        match self.first_at(floor, moves, scratch) {
            FirstDue::Row(row) => {
                if row.deadline <= to {
                    return Some(FirstDue::Row(row));
                }
                None
            }
            FirstDue::Moving => {
                if self.is_due_by(to) {
                    return Some(FirstDue::Moving);
                }
                None
            }
            FirstDue::Nothing => None,
        }
    }

    /// Whether the row of the kept slot is due by a time.
    #[inline]
    fn is_due_by(&self, to: u64) -> bool
        ensures { OnTrue result (SomeRowDue self.now.keys to) }
    {
        is_due(&self.buckets, &self.kept, to, self.teller)
    }

    /// Lets time come to the least deadline, where that is at most `to`, and else past `to`. Tells that time; None where more
    /// rows have to fall before than may.
    fn reach(&mut self, to: u64, moves: &mut u32) -> Option<u64>
        requires { to < LAST }
        ensures reached { MatchOption result (HasToMove self.old.keys self.new.stands self.new.passed to) (IsReached self.old.keys self.new.stands self.new.passed to) }
        ensures keys { self.new.keys ≡ self.old.keys }
        ensures stands { StayOrFall self.old.keys self.new.passed self.old.stands self.new.stands }
        ensures owners { self.new.owners ≡ self.old.owners }
        ensures values { self.new.values ≡ self.old.values }
        ensures passed { self.old.passed ≤ self.new.passed }
        ensures no_further { self.new.passed ≤ max self.old.passed (to + 1) }
        ensures fewer { moves.new ≤ moves.old }
    {
        let mut stop = self.next_stop(to);
        while stop > self.next_time {
            if !self.come_to(stop, moves) {
                return None;
            }
            stop = self.next_stop(to);
        }
        Some(stop)
    }

    /// The first row that is due by `to`, where time has come to its deadline, or past `to`.
    fn first_by(
        &mut self,
        reached: u64,
        to: u64,
        moves: &mut u32,
        scratch: &mut Vec<HeldRow>,
    ) -> FirstDue
        requires reached { IsReached self.old.keys self.old.stands self.old.passed to reached }
        ensures first { IsFirstTold self.old.keys self.new.stands self.new.passed to result }
        ensures same { self.new ≡ self.old }
        ensures fewer { moves.new ≤ moves.old }
        ensures capacity { vec_capacity scratch.new ≡ vec_capacity scratch.old }
    {
        if reached > to {
            return FirstDue::Nothing;
        }
        self.floor = self.floor.max(reached);
        self.first_at(reached, moves, scratch)
    }

    /// The first row where it is due at a time before which none is; nothing where none is due at that time, if this is no later
    /// than the next time. Where more rows have to be put in order before than may, that is told.
    #[inline]
    fn first_at(&mut self, time: u64, moves: &mut u32, scratch: &mut Vec<HeldRow>) -> FirstDue
        requires before { NoneBefore self.old.keys time }
        ensures first { IsFirstDueAt self.old.keys self.old.passed time result }
        ensures same { self.new ≡ self.old }
        ensures fewer { moves.new ≤ moves.old }
        ensures capacity { vec_capacity scratch.new ≡ vec_capacity scratch.old }
    {
        let done = order_some(
            &mut self.buckets,
            &self.kept,
            &mut self.ordered,
            &mut self.sorting,
            self.next_time,
            moves,
            scratch,
        );
        if !done {
            return FirstDue::Moving;
        }
        let home = bucket_of_window(0, self.next_time);
        let Some(row) = oldest_due(&self.buckets, &self.kept, home, time) else {
            return FirstDue::Nothing;
        };
        FirstDue::Row(row)
    }

    /// Where time may come to next: how early a row may be due by `to`, or the millisecond after it.
    fn next_stop(&mut self, to: u64) -> u64
        requires { to < LAST }
        ensures stop { IsNextStop self.old.keys self.old.stands self.old.passed to result }
        ensures same { self.new ≡ self.old }
    {
        match self.next_due() {
            Some(time) => time.min(to + 1),
            None => to + 1,
        }
    }

    /// Lets time come to a later one, before which no row is due, but no more rows fall than may. False where time stands
    /// before the begin of a window that has a row.
    fn come_to(&mut self, time: u64, moves: &mut u32) -> bool
        requires before { NoneBefore self.old.keys time }
        requires later { self.old.passed < time }
        requires most { time ≤ LAST }
        ensures come { MatchBool result (self.new.passed ≡ time) (HasToMove self.old.keys self.new.stands self.new.passed (time - 1)) }
        ensures keys { self.new.keys ≡ self.old.keys }
        ensures stands { StayOrFall self.old.keys self.new.passed self.old.stands self.new.stands }
        ensures owners { self.new.owners ≡ self.old.owners }
        ensures values { self.new.values ≡ self.old.values }
        ensures passed { self.old.passed ≤ self.new.passed }
        ensures no_further { self.new.passed ≤ time }
        ensures fewer { moves.new ≤ moves.old }
    {
        let mut level = if time >> 9 == self.next_time >> 9 {
            0
        } else {
            4
        };
        while level > 0 {
            if self.is_before(level, time, moves) {
                return false;
            }
            level -= 1;
        }
        self.pass_slowly(time - 1, moves);
        true
    }

    /// Lets time come to the last millisecond before the window of a level that has a later time, where it isn't in that
    /// window, and rows of the window fall, no more than may. Whether some are left.
    fn is_before(&mut self, level: u32, time: u64, moves: &mut u32) -> bool
        requires level { 1 ≤ level }
        requires highest { level ≤ 4 }
        requires before { NoneBefore self.old.keys time }
        requires later { self.old.passed < time }
        requires most { time ≤ LAST }
        ensures left { OnTrue result (HasToMove self.old.keys self.new.stands self.new.passed (time - 1)) }
        ensures keys { self.new.keys ≡ self.old.keys }
        ensures stands { StayOrFall self.old.keys self.new.passed self.old.stands self.new.stands }
        ensures owners { self.new.owners ≡ self.old.owners }
        ensures values { self.new.values ≡ self.old.values }
        ensures passed { self.old.passed ≤ self.new.passed }
        ensures no_further { self.new.passed < time }
        ensures fewer { moves.new ≤ moves.old }
    {
        let window = window_on(level, time);
        if window == window_on(level, self.next_time) {
            return false;
        }
        let begin = begin_of(level, window);
        self.pass_slowly(begin - 2, moves);
        self.ordered.time = NEVER;
        fall_before(&mut self.buckets, &self.kept, self.next_time, level, moves)
    }

    /// Passes a time as `pass` does, but no more rows fall ahead of time than may.
    fn pass_slowly(&mut self, to: u64, moves: &mut u32)
        requires { (slot : ℕ) → IfSome (key_in self.old.keys slot) (λ key. to < key.deadline) }
        ensures keys { self.new.keys ≡ self.old.keys }
        ensures stands { StayOrFall self.old.keys self.new.passed self.old.stands self.new.stands }
        ensures owners { self.new.owners ≡ self.old.owners }
        ensures values { self.new.values ≡ self.old.values }
        ensures passed { self.new.passed ≡ max self.old.passed (min (to + 1) LAST) }
        ensures fewer { moves.new ≤ moves.old }
    {
        let after = to.min(LAST - 1) + 1;
        let was = self.next_time;
        let next_time = was.max(after);
        self.fallen = fall_on(
            &mut self.buckets,
            &self.kept,
            was,
            next_time,
            self.fallen,
            moves,
        );
        self.next_time = next_time;
        self.ordered.time = NEVER;
        self.floor = self.floor.max(after);
    }
}
