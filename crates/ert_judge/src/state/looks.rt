ghost use Rattle.std.specs.Prelude.{◌≡◌, set};

use ert_defs::{Actor, Event, NoMemory, Settings};
use std::alloc::Global;

/// The time in the last look of each caller and each scheduler, in nanoseconds.
#[derive(Drop)]
pub struct Looks {
    /// The start time, where there was no look.
    start: i64,
    callers: Vec<i64>,
    schedulers: Vec<i64>,
}

impl Looks {
    ghost use Rattle.std.specs.Prelude.{◌≡◌, IfOk};
    ghost use Rattle.ert_judge.specs.Parts.{no_looks, look_of, looks_after, looks_in};

    /// Nobody has looked.
    pub fn new(alloc: Global, settings: &Settings) -> Result<Looks, NoMemory>
        ensures { IfOk result (λ looks. looks_in looks ≡ no_looks settings.now) }
    {
        let start = settings.start;
        Ok(Looks {
            start,
            callers: vec![in alloc; start; settings.callers as usize]?,
            schedulers: vec![in alloc; start; settings.schedulers as usize]?,
        })
    }

    /// The time in the last look of an actor.
    pub fn of(&self, actor: Actor) -> i64
        ensures { result ≡ look_of (looks_in self.now) actor }
    {
        let look = match actor {
            Actor::Caller(number) => self.callers.get(number as usize),
            Actor::Sched(number) => self.schedulers.get(number as usize),
            _ => None,
        };
        match look {
            Some(time) => *time,
            None => self.start,
        }
    }

    /// Goes on by an event of an actor.
    pub fn follow(&mut self, by: Actor, event: &Event)
        ensures { looks_in self.new ≡ looks_after by event.now (looks_in self.old) }
    {
        if let Event::Look { now } = *event {
            self.set(by, now);
        }
    }

    fn set(&mut self, by: Actor, now: i64)
        ensures { looks_in self.new ≡ looks_after by (Event.Look now) (looks_in self.old) }
    {
        match by {
            Actor::Caller(number) => put(&mut self.callers, number, now),
            Actor::Sched(number) => put(&mut self.schedulers, number, now),
            _ => {}
        }
    }
}

/// Puts a time into the place of an actor, where there is one.
fn put(looks: &mut [i64], number: u32, now: i64)
    ensures { looks.new ≡ set looks.old number now }
{
    let place = number as usize;
    if place < looks.len() {
        looks[place] = now;
    }
}
