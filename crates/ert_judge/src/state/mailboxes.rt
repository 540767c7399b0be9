ghost use Rattle.std.specs.Prelude.{◌≡◌, OnOk};
ghost use Rattle.ert_defs.specs.Mails.{mail_after};
ghost use Rattle.ert_judge.specs.Parts.{scheds_in, with_message, with_answer_in, unwatched, watched, told_all};

use crate::state::lists::{drop_first, first, push, put};
use crate::state::schedulers::Schedulers;
use ert_defs::{
    Actor, Event, Mail, Monitor, NoMemory, Request, TimerRow, has_monitor, notify_monitors,
    remove_monitor,
};
use std::alloc::Global;
use std::collections::{BTreeMap, VecDeque};
use std::marker::Model;

/// What one process has.
#[derive(Drop)]
struct Mailbox {
    queue: VecDeque<Mail>,
    /// In order of number.
    monitors: Vec<Monitor>,
    /// The number of the next monitor.
    next: u64,
}

impl Model for Mailbox {
    ghost use Rattle.ert_defs.specs.Mails.{MailState};

    ghost Value = { MailState };

    ghost view = { λ m. record { queue = m.queue.items; monitors = m.monitors.items; next = m.next } };
}

impl Mailbox {
    ghost use Rattle.std.specs.Prelude.{◌≡◌};
    ghost use Rattle.ert_defs.specs.Mails.{no_mail};

    /// That of a process that has nothing.
    fn new(alloc: Global) -> Mailbox
        ensures { result ≡ no_mail }
    {
        Mailbox {
            queue: VecDeque::new(alloc),
            monitors: Vec::new(alloc),
            next: 0,
        }
    }

    /// Goes on by an event of this mailbox. The schedulers are as they were before it.
    fn follow(&mut self, event: &Event, schedulers: &Schedulers) -> Result<(), NoMemory>
        ensures { OnOk result (self.new ≡ mail_after (scheds_in schedulers.now) self.old event.now) }
    {
        match *event {
            Event::Deliver { timer } => self.deliver(schedulers.first_expired(timer.wheel)),
            Event::Answer { wheel, left } => self.answer(schedulers.hand(wheel), left),
            Event::Take { .. } => {
                drop_first(&mut self.queue);
                Ok(())
            }
            Event::Unwatch { monitor, .. } => {
                self.unwatch(monitor);
                Ok(())
            }
            Event::Watch {
                monitor,
                offset,
                ..
            } => self.watch(monitor, offset),
            Event::Tell { offset, .. } => self.tell(offset),
            _ => Ok(()),
        }
    }

    /// Puts the message of an expired timer last.
    fn deliver(&mut self, row: Option<TimerRow>) -> Result<(), NoMemory>
        ensures { OnOk result (self.new ≡ with_message row self.old) }
    {
        match row {
            Some(row) => put(&mut self.queue, Mail::of_expired(&row)),
            None => Ok(()),
        }
    }

    /// Puts the answer to a request last, where one is wanted.
    fn answer(&mut self, request: Option<Request>, left: Option<u64>) -> Result<(), NoMemory>
        ensures { OnOk result (self.new ≡ with_answer_in request left self.old) }
    {
        match request {
            Some(request) if request.info => put(&mut self.queue, Mail::of_answer(&request, left)),
            _ => Ok(()),
        }
    }

    /// Removes a monitor.
    fn unwatch(&mut self, monitor: u32)
        ensures { self.new ≡ unwatched monitor self.old }
    {
        remove_monitor(&mut self.monitors, monitor);
    }

    /// Adds a monitor, which has been told this offset.
    fn watch(&mut self, monitor: u32, offset: i64) -> Result<(), NoMemory>
        ensures { OnOk result (self.new ≡ watched monitor offset self.old) }
    {
        let made = Monitor {
            number: monitor,
            told: offset,
        };
        self.next = monitor as u64 + 1;
        push(&mut self.monitors, made)
    }

    /// Puts a message for each monitor that an offset is new to, and counts it as told.
    fn tell(&mut self, offset: i64) -> Result<(), NoMemory>
        ensures { OnOk result (self.new ≡ told_all offset self.old) }
    {
        self.queue.reserve(self.monitors.len())?;
        notify_monitors(&mut self.monitors, &mut self.queue, offset);
        Ok(())
    }
}

/// What each process has. It takes memory for those alone that had something.
#[derive(Drop)]
pub struct Mailboxes {
    alloc: Global,
    /// By process. One that isn't here has nothing.
    mailboxes: BTreeMap<u32, Mailbox>,
}

impl Mailboxes {
    ghost use Rattle.std.specs.Prelude.{◌≡◌, ℕ, OnOk, length};
    ghost use Rattle.ert_defs.specs.{Legal.stands_in, Mails.{first_of, no_mail}};
    ghost use Rattle.ert_judge.specs.Parts.{mail_at, mail_after_with, scheds_in};

    /// No process has anything.
    pub fn new(alloc: Global) -> Mailboxes
        ensures { (p : ℕ) → mail_at result p ≡ no_mail }
    {
        Mailboxes {
            alloc,
            mailboxes: BTreeMap::new(alloc),
        }
    }

    /// The first message of a process.
    pub fn first(&self, process: u32) -> Option<Mail>
        ensures { result ≡ first_of (mail_at self.now process).queue }
    {
        first(&self.mailboxes.get(&process)?.queue)
    }

    /// Whether a monitor of a process stands.
    pub fn has_monitor(&self, process: u32, monitor: u32) -> bool
        ensures { result ≡ stands_in monitor (mail_at self.now process).monitors }
    {
        match self.mailboxes.get(&process) {
            Some(mailbox) => has_monitor(&mailbox.monitors, monitor),
            None => false,
        }
    }

    /// How many monitors of a process stand.
    pub fn count(&self, process: u32) -> usize
        ensures { result ≡ length (mail_at self.now process).monitors }
    {
        match self.mailboxes.get(&process) {
            Some(mailbox) => mailbox.monitors.len(),
            None => 0,
        }
    }

    /// The number of a process's next monitor.
    pub fn next(&self, process: u32) -> u64
        ensures { result ≡ (mail_at self.now process).next }
    {
        match self.mailboxes.get(&process) {
            Some(mailbox) => mailbox.next,
            None => 0,
        }
    }

    /// Goes on by an event that is made with an actor. The schedulers are as they were before it.
    pub fn follow(
        &mut self,
        with: Option<Actor>,
        event: &Event,
        schedulers: &Schedulers,
    ) -> Result<(), NoMemory>
        ensures { OnOk result ((p : ℕ) → mail_at self.new p
            ≡ mail_after_with (scheds_in schedulers.now) with event.now p (mail_at self.old p)) }
    {
        let Some(Actor::MailOf(process)) = with else {
            return Ok(());
        };
        if let Some(mailbox) = self.mailboxes.get_mut(&process) {
            return mailbox.follow(event, schedulers);
        }
        let mut mailbox = Mailbox::new(self.alloc);
        mailbox.follow(event, schedulers)?;
        match self.mailboxes.insert(process, mailbox) {
            Ok(_) => Ok(()),
            Err(_) => Err(NoMemory),
        }
    }
}
