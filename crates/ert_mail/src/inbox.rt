ghost use Rattle.std.specs.Prelude.{◌≡◌};

use ert_defs::{Actor, NoMemory, Request};
use ert_table::{Desk, Pass, TimeCarry};
use std::alloc::Global;
use std::collections::VecDeque;
use std::marker::Model;

/// The inbox of a scheduler: the asynchronous requests that wait for it, first to last.
#[derive(Drop)]
pub struct InboxPart {
    wheel: u32,
    queue: VecDeque<Request>,
}

impl Model for InboxPart {
    ghost use Rattle.ert_mail.specs.Inboxes.{Waiting};

    ghost Value = { Waiting };

    ghost view = { λ p. record { wheel = p.wheel; requests = p.queue.items } };
}

impl InboxPart {
    ghost use Rattle.std.specs.Prelude.{◌<◌, [], ◌∷◌, ◌++◌, None, OnOk, OnErr};
    ghost use Rattle.ert_effects.specs.RequestCalls.{Asks, Picks};
    ghost use Rattle.ert_defs.specs.Mails.{first_of, others_of};
    ghost use Rattle.ert_table.specs.{Calls.{IsMade, IsMadeIfOk}, Desks.{settings_of, view_of, front_of, state_of, Belongs}};
    ghost use Rattle.ert_mail.specs.Inboxes.{IsAskers, HoldsInboxAndSched, InboxStands, sched_after_pick};

    /// The inbox of a scheduler on a desk that has just been opened. It is empty.
    pub fn open(alloc: Global, wheel: u32) -> InboxPart
        ensures { result ≡ record { wheel = wheel; requests = [] } }
    {
        InboxPart {
            wheel,
            queue: VecDeque::new(alloc),
        }
    }

    /// The number of the scheduler.
    pub fn wheel(&self) -> u32
        ensures { result ≡ self.now.wheel }
    {
        self.wheel
    }

    /// Puts a request last (`erlang` module reference, `cancel_timer` and `read_timer`, option `async`).
    ///
    /// If memory runs out, no step was taken and nothing has changed.
    pub fn ask(
        &mut self,
        desk: &Desk,
        pass: &mut Pass,
        by: u32,
        request: Request,
    ) -> Result<(), NoMemory>
        requires belongs { Belongs desk.now pass.old }
        requires holds { IsAskers (settings_of desk.now) (view_of pass.old) by self.old.wheel }
        requires in_range { request.reply_to < (settings_of desk.now).processes }
        requires stands { InboxStands (settings_of desk.now) (front_of pass.old) self.old }
        ensures belongs { Belongs desk.now pass.new }
        ensures call { IsMadeIfOk (settings_of desk.now) (view_of pass.old) (Asks (settings_of desk.now) by self.old.wheel request) result (view_of pass.new) }
        ensures last { OnOk result (self.new.requests ≡ self.old.requests ++ request ∷ []) }
        ensures err { OnErr result (self.new ≡ self.old) }
        ensures wheel { self.new.wheel ≡ self.old.wheel }
        ensures stands { InboxStands (settings_of desk.now) (front_of pass.new) self.new }
    {
        self.queue.reserve(1)?;
        let wheel = self.wheel;
        pass.load_time(desk, Actor::Caller(by), &TimeCarry::Ask { wheel, request });
        self.queue.push_back_reserved(request);
        Ok(())
    }

    /// Takes the first request, for the scheduler whose hand is empty. None comes exactly where none waits.
    pub fn pick(&mut self, desk: &Desk, pass: &mut Pass) -> Option<Request>
        requires belongs { Belongs desk.now pass.old }
        requires holds { HoldsInboxAndSched (settings_of desk.now) (view_of pass.old) self.old.wheel }
        requires empty { ((state_of desk.now pass.old).scheds self.old.wheel).hand ≡ None }
        requires stands { InboxStands (settings_of desk.now) (front_of pass.old) self.old }
        ensures belongs { Belongs desk.now pass.new }
        ensures call { IsMade (settings_of desk.now) (view_of pass.old) (Picks (settings_of desk.now) self.old.wheel result) (view_of pass.new) }
        ensures first { result ≡ first_of self.old.requests }
        ensures others { self.new.requests ≡ others_of self.old.requests }
        ensures sched { (state_of desk.now pass.new).scheds self.old.wheel ≡ sched_after_pick result ((state_of desk.now pass.old).scheds self.old.wheel) }
        ensures wheel { self.new.wheel ≡ self.old.wheel }
        ensures stands { InboxStands (settings_of desk.now) (front_of pass.new) self.new }
    {
        let got = self.queue.pop_front();
        pass.load_time(desk, Actor::Sched(self.wheel), &TimeCarry::Pick { got });
        got
    }
}
