//! When the next row is due.
use super::Wheel;
use crate::keyed::Keyed;
use crate::levels::{begin_in, early_above};
use crate::row::NEVER;
use crate::telling::Early;
use crate::walk::least_in;
use crate::windows::{begin_of, bucket_of_window, window_on, windows_end};

impl<T: Keyed> Wheel<T> {
    ghost use Rattle.std.specs.Prelude.{◌≡◌, ◌↔◌, ◌<◌, ◌≤◌, IfNone, IfSome, IsSome, IsTrue, MatchOption};
    ghost use Rattle.ert_wheel.specs.{FirstDue.SomeRowDue, NextDue.{NoRow, NoneBeginsOn, IsDueAt, IsDueOf, IsNextDue, TellsNext, WindowBegins}};

    /// How early the next row may be due, in milliseconds; None exactly where there is no row.
    ///
    /// No row has an earlier deadline: the answer is never late. It is a row's deadline, or the begin of a window of 512 milliseconds
    /// or of a wider one, after the first time that wasn't passed, in which a row stands. So it is exact where the least deadline is
    /// in that time's window of 512 milliseconds. A row stands no later than it is due: one that was replaced may stand where it was
    /// due before. Whoever lets time pass up to the answer and asks again is told a deadline, or a time that is 512 milliseconds
    /// later at least: so a loop wakes early once at most for each window in which rows stand.
    ///
    /// It looks at the windows of each level that have rows and may have the earliest, and there at 64 rows of each level at most;
    /// where these are all, the answer is exact. Only where a row was put in late since the last pass does it look at each late
    /// row, and at those of the next time.
    ///
    /// The answer is kept, with the slot whose row told it. As long as that row is due then, or a row stands in the window that
    /// begins then, and no earlier row is put in, a call is a few comparisons.
    pub fn next_due(&mut self) -> Option<u64>
        ensures due { MatchOption result (NoRow self.old.keys) (IsNextDue self.old.keys self.old.stands self.old.passed) }
        ensures keys { self.new.keys ≡ self.old.keys }
        ensures stands { self.new.stands ≡ self.old.stands }
        ensures owners { self.new.owners ≡ self.old.owners }
        ensures values { self.new.values ≡ self.old.values }
        ensures passed { self.new.passed ≡ self.old.passed }
    {
        if self.told_at(self.floor).is_some() {
            return Some(self.floor);
        }
        let early = self.earliest()?;
        self.floor = early.time;
        self.teller = early.slot;
        Some(early.time)
    }

    /// The slot of a row that tells when the next one is due: it is due at that time, or stands in a window that begins then.
    /// None only where the time is before the first that wasn't passed, as where a row was put in late.
    ///
    /// After `next_due` it is the slot that is kept, or one of the window that begins then: a few comparisons. Only where there is no
    /// such row does it go over the slots.
    #[inline]
    pub fn teller(&self, time: u64) -> Option<u32>
        requires { IsNextDue self.now.keys self.now.stands self.now.passed time }
        ensures tells { IfSome result (TellsNext self.now.keys self.now.stands self.now.passed time) }
        ensures late { IfNone result (time < self.now.passed) }
    {
        if let Some(slot) = self.told_at(time) {
            return Some(slot);
        }
        if time < self.next_time {
            return None;
        }
        self.find_due(time)
    }

    /// The answer of `next_due` that is kept, with the slot of a row that tells it; None where it doesn't stand any more, or no row
    /// is known to tell it.
    #[inline]
    pub fn kept_due(&self) -> Option<(u64, u32)>
        ensures due { IfSome result (λ kept. IsNextDue self.now.keys self.now.stands self.now.passed kept.0) }
        ensures tells { IfSome result (λ kept. TellsNext self.now.keys self.now.stands self.now.passed kept.0 kept.1) }
    {
        match self.told_at(self.floor) {
            Some(slot) => Some((self.floor, slot)),
            None => None,
        }
    }

    /// The slot of a row that tells a time: the one that is kept, where its row is due then, or one that stands in a window that
    /// begins then. None only where no row does.
    #[inline]
    fn told_at(&self, time: u64) -> Option<u32>
        ensures tells { IfSome result (TellsNext self.now.keys self.now.stands self.now.passed time) }
        ensures none { IfNone result (WindowBegins self.now.keys self.now.stands self.now.passed time → ⊥) }
    {
        if self.is_due_at(self.teller, time) {
            return Some(self.teller);
        }
        let mut level = 1;
        while level <= 4 {
            if let Some(slot) = self.stands_from(level, time) {
                return Some(slot);
            }
            level += 1;
        }
        None
    }

    /// Whether a slot is written whose row is due at a time.
    #[inline]
    fn is_due_at(&self, slot: u32, time: u64) -> bool
        ensures { IsTrue result ↔ IsDueOf self.now.keys slot time }
    {
        if slot as usize >= self.kept.len() {
            return false;
        }
        match self.row(slot) {
            Some(row) => row.deadline == time,
            None => false,
        }
    }

    /// A slot that stands in the window of a level that begins at a time, where that is after the next time.
    #[inline]
    fn stands_from(&self, level: u32, time: u64) -> Option<u32>
        requires level { 1 ≤ level }
        requires highest { level ≤ 4 }
        ensures tells { IfSome result (TellsNext self.now.keys self.now.stands self.now.passed time) }
        ensures none { IfNone result (NoneBeginsOn self.now.keys self.now.stands self.now.passed level time) }
    {
        let window = window_on(level, time);
        if time <= self.next_time || begin_of(level, window) != time {
            return None;
        }
        if window >= windows_end(level, self.next_time) {
            return None;
        }
        self.buckets.newest(bucket_of_window(level, window))
    }

    /// The least slot whose row is due at a time.
    #[cold]
    #[inline(never)]
    fn find_due(&self, time: u64) -> Option<u32>
        requires { IsDueAt self.now.keys time }
        ensures tells { IfSome result (TellsNext self.now.keys self.now.stands self.now.passed time) }
        ensures found { IsSome result }
    {
        for slot in 0..self.kept.len() as u32 {
            if self.is_due_at(slot, time) {
                return Some(slot);
            }
        }
        None
    }

    /// How early the next row may be due, and a slot that tells it.
    pub(super) fn earliest(&self) -> Option<Early>
        ensures { MatchOption result (NoRow self.now.keys) (λ early. IsNextDue self.now.keys self.now.stands self.now.passed early.time) }
    {
        if self.is_empty() {
            return None;
        }
        let end = windows_end(0, self.next_time);
        let near = self.buckets.first_window(0, self.next_time, end);
        if near == self.next_time {
            return self.due_at_once();
        }
        if near == end {
            let never = Early {
                time: NEVER,
                slot: 0,
            };
            return Some(early_above(&self.buckets, &self.kept, self.next_time, never));
        }
        let first = begin_in(&self.buckets, bucket_of_window(0, near), near);
        // In the next time's window of 512 milliseconds all rows stand on the lowest level.
        if near >> 9 == self.next_time >> 9 {
            return Some(first);
        }
        Some(early_above(&self.buckets, &self.kept, self.next_time, first))
    }

    /// The least deadline, where a row is late or due at the next time.
    #[inline]
    fn due_at_once(&self) -> Option<Early>
        requires { SomeRowDue self.now.keys self.now.passed }
        ensures { MatchOption result (NoRow self.now.keys) (λ early. IsNextDue self.now.keys self.now.stands self.now.passed early.time) }
    {
        let home = bucket_of_window(0, self.next_time);
        if self.floor >= self.next_time {
            return Some(begin_in(&self.buckets, home, self.next_time));
        }
        let mut seen = 0;
        least_in(&self.buckets, &self.kept, home, None, &mut seen)
    }
}
