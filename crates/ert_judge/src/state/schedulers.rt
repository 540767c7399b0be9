ghost use Rattle.std.specs.Prelude.{◌≡◌, OnOk};
ghost use Rattle.ert_defs.specs.Mails.{sched_after, is_about};
ghost use Rattle.ert_judge.specs.Parts.{rows_in, with_result, after_expiry, with_hand};

use crate::state::lists::{drop_first, first, put};
use crate::state::timers::Timers;
use ert_defs::{Actor, Event, NoMemory, Request, TimerRef, TimerRow};
use std::alloc::Global;
use std::collections::VecDeque;
use std::marker::Model;

/// What one scheduler has.
#[derive(Drop)]
struct Scheduler {
    /// The request in its hand.
    hand: Option<Request>,
    /// The result of its last step on that.
    outcome: Option<Option<u64>>,
    /// Its expired timers that are not handed over, in order of expiry.
    expired: VecDeque<TimerRow>,
}

impl Model for Scheduler {
    ghost use Rattle.ert_defs.specs.Mails.{SchedState};

    ghost Value = { SchedState };

    ghost view = { λ s. record { hand = s.hand; result = s.outcome; expired = s.expired.items } };
}

impl Scheduler {
    /// Goes on by an event of this scheduler.
    fn follow(&mut self, event: &Event, timers: &Timers) -> Result<(), NoMemory>
        ensures { OnOk result (self.new ≡ sched_after (rows_in timers.now) self.old event.now) }
    {
        match *event {
            Event::Peek { timer, left } | Event::Cancel { timer, left } => {
                self.note(timer, left);
                Ok(())
            }
            Event::Expire { timer } => self.expire(timers.row(timer)),
            Event::Deliver { .. } | Event::Drop { .. } => {
                drop_first(&mut self.expired);
                Ok(())
            }
            Event::Pick { got, .. } => {
                self.hold(got);
                Ok(())
            }
            Event::Answer { .. } => {
                self.hold(None);
                Ok(())
            }
            _ => Ok(()),
        }
    }

    /// Keeps what was found of a timer, where the request in the hand is about it.
    fn note(&mut self, timer: TimerRef, left: Option<u64>)
        ensures { self.new ≡ with_result timer left self.old }
    {
        if is_about(timer, self.hand) {
            self.outcome = Some(left);
        }
    }

    /// Puts an expired timer last, where it has a row.
    fn expire(&mut self, row: Option<TimerRow>) -> Result<(), NoMemory>
        ensures { OnOk result (self.new ≡ after_expiry row self.old) }
    {
        match row {
            Some(row) => put(&mut self.expired, row),
            None => Ok(()),
        }
    }

    /// Takes a request into the hand, or empties it.
    fn hold(&mut self, request: Option<Request>)
        ensures { self.new ≡ with_hand request self.old }
    {
        self.hand = request;
        self.outcome = None;
    }
}

/// Whether the request in the hand is about this timer.
fn is_about(timer: TimerRef, hand: Option<Request>) -> bool
    ensures { result ≡ is_about timer hand }
{
    match hand {
        Some(request) => request.timer == timer,
        None => false,
    }
}

/// What each scheduler has.
#[derive(Drop)]
pub struct Schedulers {
    schedulers: Vec<Scheduler>,
}

impl Model for Schedulers {
    ghost use Rattle.std.specs.Prelude.{List};
    ghost use Rattle.ert_defs.specs.Mails.{SchedState};

    ghost Value = { List SchedState };

    ghost view = { λ x. x.schedulers.items };
}

impl Schedulers {
    ghost use Rattle.std.specs.Prelude.{◌≡◌, IfOk, OnOk, replicate};
    ghost use Rattle.ert_defs.specs.Mails.{first_of, idle_sched};
    ghost use Rattle.ert_judge.specs.Parts.{sched_at, scheds_after};

    /// So many schedulers that have nothing.
    pub fn new(alloc: Global, count: u32) -> Result<Schedulers, NoMemory>
        ensures { IfOk result (λ schedulers. schedulers ≡ replicate count idle_sched) }
    {
        let mut schedulers = Vec::new(alloc);
        for _ in 0..count {
            let scheduler = Scheduler {
                hand: None,
                outcome: None,
                expired: VecDeque::new(alloc),
            };
            if schedulers.push(scheduler).is_err() {
                return Err(NoMemory);
            }
        }
        Ok(Schedulers { schedulers })
    }

    /// The request in the hand of a scheduler.
    pub fn hand(&self, number: u32) -> Option<Request>
        ensures { result ≡ (sched_at self.now number).hand }
    {
        self.schedulers.get(number as usize)?.hand
    }

    /// The result of a scheduler's last step on the request in its hand.
    pub fn outcome(&self, number: u32) -> Option<Option<u64>>
        ensures { result ≡ (sched_at self.now number).result }
    {
        self.schedulers.get(number as usize)?.outcome
    }

    /// The first of a scheduler's expired timers.
    pub fn first_expired(&self, number: u32) -> Option<TimerRow>
        ensures { result ≡ first_of (sched_at self.now number).expired }
    {
        first(&self.schedulers.get(number as usize)?.expired)
    }

    /// Goes on by an event of an actor. The timers are as they were before it.
    pub fn follow(&mut self, by: Actor, event: &Event, timers: &Timers) -> Result<(), NoMemory>
        ensures { OnOk result (self.new ≡ scheds_after (rows_in timers.now) by event.now self.old) }
    {
        let Actor::Sched(number) = by else {
            return Ok(());
        };
        match self.schedulers.get_mut(number as usize) {
            Some(scheduler) => scheduler.follow(event, timers),
            None => Ok(()),
        }
    }
}
