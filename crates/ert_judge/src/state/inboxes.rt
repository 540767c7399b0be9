ghost use Rattle.std.specs.Prelude.{◌≡◌, OnOk};
ghost use Rattle.ert_defs.specs.Mails.{inbox_after};

use crate::state::lists::{drop_first, first, put};
use ert_defs::{Actor, Event, NoMemory, Request};
use std::alloc::Global;
use std::collections::VecDeque;
use std::marker::Model;

/// The requests that wait for one scheduler.
#[derive(Drop)]
struct Inbox {
    requests: VecDeque<Request>,
}

impl Model for Inbox {
    ghost use Rattle.std.specs.Prelude.{List};
    ghost use Rattle.ert_defs.specs.declared.mail.Request.{Request};

    ghost Value = { List Request };

    ghost view = { λ x. x.requests.items };
}

impl Inbox {
    /// Goes on by an event of this inbox.
    fn follow(&mut self, event: &Event) -> Result<(), NoMemory>
        ensures { OnOk result (self.new ≡ inbox_after self.old event.now) }
    {
        match *event {
            Event::Ask { request, .. } => put(&mut self.requests, request),
            Event::Pick { .. } => {
                drop_first(&mut self.requests);
                Ok(())
            }
            _ => Ok(()),
        }
    }
}

/// The requests that wait for each scheduler.
#[derive(Drop)]
pub struct Inboxes {
    inboxes: Vec<Inbox>,
}

impl Model for Inboxes {
    ghost use Rattle.std.specs.Prelude.{List};
    ghost use Rattle.ert_defs.specs.declared.mail.Request.{Request};

    ghost Value = { List (List Request) };

    ghost view = { λ x. x.inboxes.items };
}

impl Inboxes {
    ghost use Rattle.std.specs.Prelude.{◌≡◌, IfOk, OnOk, replicate, []};
    ghost use Rattle.ert_defs.specs.Mails.{first_of};
    ghost use Rattle.ert_judge.specs.Parts.{inbox_at, inboxes_after};

    /// So many empty inboxes.
    pub fn new(alloc: Global, schedulers: u32) -> Result<Inboxes, NoMemory>
        ensures { IfOk result (λ inboxes. inboxes ≡ replicate schedulers []) }
    {
        let mut inboxes = Vec::new(alloc);
        for _ in 0..schedulers {
            let inbox = Inbox {
                requests: VecDeque::new(alloc),
            };
            if inboxes.push(inbox).is_err() {
                return Err(NoMemory);
            }
        }
        Ok(Inboxes { inboxes })
    }

    /// The first request that waits for a scheduler.
    pub fn first(&self, wheel: u32) -> Option<Request>
        ensures { result ≡ first_of (inbox_at self.now wheel) }
    {
        match self.inboxes.get(wheel as usize) {
            Some(inbox) => first(&inbox.requests),
            None => None,
        }
    }

    /// Goes on by an event that is made with an actor.
    pub fn follow(&mut self, with: Option<Actor>, event: &Event) -> Result<(), NoMemory>
        ensures { OnOk result (self.new ≡ inboxes_after with event.now self.old) }
    {
        let Some(Actor::Inbox(wheel)) = with else {
            return Ok(());
        };
        match self.inboxes.get_mut(wheel as usize) {
            Some(inbox) => inbox.follow(event),
            None => Ok(()),
        }
    }
}
