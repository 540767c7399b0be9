use crate::state::uses::{Uses, deadline_told};
use crate::state::wheels::{Timer, Wheel};
use ert_defs::{Event, NoMemory, Start, Status, TimerRef, TimerRow};
use std::alloc::Global;
use std::marker::Model;

/// The timers of each wheel.
#[derive(Drop)]
pub struct Timers {
    wheels: Vec<Wheel>,
}

impl Model for Timers {
    ghost use Rattle.std.specs.Prelude.{List};
    ghost use Rattle.ert_judge.specs.declared.state.wheels.Timer.{Timer};

    ghost Value = { List (List Timer) };

    ghost view = { λ x. x.wheels.items };
}

impl Timers {
    ghost use Rattle.std.specs.Prelude.{◌≡◌, ◌≢◌, ◌≤◌, ◌↔◌, IfOk, IfSome, MatchOption, OnOk, IsTrue, replicate, [], true, nat_le, length};
    ghost use Rattle.ert_defs.specs.Timers.{row_of};
    ghost use Rattle.ert_judge.specs.{Wheels.{timers_at, timer_in, is_settled, IsFirstDue}, Indexes.IsFirstArmed, Uses.{uses_of, uses_in, IsNewUse}, Parts.{status_at, rows_in, timers_after, with_moved, with_armed, ArmsNew}};

    /// So many wheels with no timers.
    pub fn new(alloc: Global, schedulers: u32) -> Result<Timers, NoMemory>
        ensures { IfOk result (λ timers. timers ≡ replicate schedulers []) }
    {
        let mut wheels = Vec::new(alloc);
        for _ in 0..schedulers {
            if wheels.push(Wheel::new(alloc)).is_err() {
                return Err(NoMemory);
            }
        }
        Ok(Timers { wheels })
    }

    /// The timer of a reference.
    pub fn find(&self, timer: TimerRef) -> Option<Timer>
        ensures { result ≡ timer_in (timers_at self.now timer.wheel) timer }
    {
        self.wheels.get(timer.wheel as usize)?.find(timer)
    }

    /// The row of a timer.
    pub fn row(&self, timer: TimerRef) -> Option<TimerRow>
        ensures { result ≡ row_of (rows_in self.now timer.wheel) timer }
    {
        Some(self.find(timer)?.row)
    }

    /// The status of a timer, None where it was never armed.
    pub fn status(&self, timer: TimerRef) -> Option<Status>
        ensures { result ≡ status_at self.now timer }
    {
        Some(self.find(timer)?.status)
    }

    /// How many timers a wheel has had.
    pub fn count(&self, wheel: u32) -> usize
        ensures { result ≡ length (timers_at self.now wheel) }
    {
        match self.wheels.get(wheel as usize) {
            Some(timers) => timers.count(),
            None => 0,
        }
    }

    /// The uses of a slot.
    pub fn uses(&self, wheel: u32, slot: u32) -> Uses
        ensures { uses_of result ≡ uses_in (timers_at self.now wheel) slot }
    {
        match self.wheels.get(wheel as usize) {
            Some(timers) => timers.uses(slot),
            None => Uses::none(),
        }
    }

    /// The first of the armed timers of a wheel, by deadline and then by arming.
    pub fn first_armed(&self, wheel: u32) -> Option<Timer>
        ensures { MatchOption result (is_settled (λ d. true) (timers_at self.now wheel) ≡ true) (IsFirstArmed (timers_at self.now wheel)) }
    {
        self.wheels.get(wheel as usize)?.first_armed()
    }

    /// Whether a timer is due by this many milliseconds, and no armed one of its wheel comes before it.
    pub fn is_first(&self, timer: TimerRef, now: i128) -> bool
        ensures { IsTrue result ↔ IsFirstDue (timers_at self.now timer.wheel) timer now }
    {
        match self.wheels.get(timer.wheel as usize) {
            Some(timers) => timers.is_first(timer, now),
            None => false,
        }
    }

    /// Goes on by an event. A timer that is armed by it was started for this deadline, and no timer of its
    /// slot has its generation.
    pub fn follow(&mut self, event: &Event, deadline: Option<u64>) -> Result<(), NoMemory>
        requires new { ArmsNew event.now self.old }
        requires low { IfSome deadline (λ d. d ≤ 8796093022207) }
        ensures { OnOk result (self.new ≡ timers_after deadline event.now self.old) }
    {
        match *event {
            Event::Arm { timer, start } => self.arm(timer, start, deadline),
            Event::Cancel { timer, .. } => {
                self.settle(timer, Status::Armed, Status::Cancelled);
                Ok(())
            }
            Event::Expire { timer } => {
                self.settle(timer, Status::Armed, Status::Expired);
                Ok(())
            }
            Event::Orphan { timer } => {
                self.settle(timer, Status::Armed, Status::Orphaned);
                Ok(())
            }
            Event::Deliver { timer } => {
                self.settle(timer, Status::Expired, Status::Delivered);
                Ok(())
            }
            Event::Drop { timer } => {
                self.settle(timer, Status::Expired, Status::Dropped);
                Ok(())
            }
            _ => Ok(()),
        }
    }

    /// Moves a timer from one status to another, where it has the first. No timer is armed again.
    fn settle(&mut self, timer: TimerRef, from: Status, to: Status)
        requires { to ≢ Status.Armed }
        ensures { self.new ≡ with_moved timer from to self.old }
    {
        if let Some(wheel) = self.wheels.get_mut(timer.wheel as usize) {
            wheel.settle(timer, from, to);
        }
    }

    /// Arms a timer, where its start has a deadline.
    fn arm(&mut self, timer: TimerRef, start: Start, deadline: Option<u64>) -> Result<(), NoMemory>
        requires new { IsNewUse (timers_at self.old timer.wheel) timer.slot timer.generation }
        requires low { IfSome deadline (λ d. d ≤ 8796093022207) }
        ensures { OnOk result (self.new ≡ with_armed timer start deadline self.old) }
    {
        let Some(wanted) = deadline else {
            return Ok(());
        };
        let row = TimerRow {
            timer,
            deadline: deadline_told(timer.generation, wanted),
            dest: start.dest,
            msg: start.msg,
            kind: start.kind,
        };
        match self.wheels.get_mut(timer.wheel as usize) {
            Some(wheel) => wheel.arm(row),
            None => Ok(()),
        }
    }
}
