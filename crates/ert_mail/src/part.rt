ghost use Rattle.std.specs.Prelude.{◌≡◌};

use crate::handing::hand_over;
use crate::replies::{put_answer, reply};
use ert_defs::{Actor, Mail, Monitor, NoMemory, Request, TimerRow};
use ert_effects::{Handed, Taken};
use ert_table::{Desk, Pass, TimeCarry};
use std::alloc::Global;
use std::collections::VecDeque;
use std::marker::Model;

/// The mailbox of a process, with the monitors of the time offset that the process has.
#[derive(Drop)]
pub struct MailPart {
    pub(crate) process: u32,
    /// The messages, first to last.
    pub(crate) queue: VecDeque<Mail>,
    /// In order of number, 64 at most.
    pub(crate) monitors: Vec<Monitor>,
    /// The number of the next monitor.
    pub(crate) next: u64,
    /// How many messages of expired timers were ever put.
    pub(crate) delivered: u64,
}

impl Model for MailPart {
    ghost use Rattle.std.specs.Prelude.{◌≤◌, ◌-◌, vec_len};
    ghost use Rattle.std.specs.VecDeque.{deque_len, deque_capacity};
    ghost use Rattle.ert_mail.specs.Mailboxes.{Mailbox, mailbox_seen};

    ghost Value = { Mailbox };

    ghost view = { λ p. mailbox_seen p.process p.queue.items p.monitors.items p.next p.delivered (deque_capacity p.queue - deque_len p.queue) };

    ghost invariant = { λ p. vec_len p.monitors ≤ 64 };
}

impl MailPart {
    ghost use Rattle.std.specs.Prelude.{◌≢◌, ◌+◌, ◌<◌, ◌≤◌, [], Some, OnOk, OnErr, length};
    ghost use Rattle.ert_defs.specs.Mails.{first_of};
    ghost use Rattle.ert_effects.specs.{MailCalls.{HandsOver, Takes}, RequestCalls.Answers};
    ghost use Rattle.ert_table.specs.{Calls.{IsMade, IsMadeIfOk}, Desks.{settings_of, view_of, front_of, state_of, Belongs}};
    ghost use Rattle.ert_mail.specs.Mailboxes.{IsEmpty, IsSame, IsCallers, HoldsMailboxAndSched, IsTaken, MailboxStands, handed, sched_after_answer};

    /// The mailbox of a process on a desk that has just been opened. It is empty.
    pub fn open(alloc: Global, process: u32) -> MailPart
        ensures { IsEmpty process result }
    {
        MailPart {
            process,
            queue: VecDeque::new(alloc),
            monitors: Vec::new(alloc),
            next: 0,
            delivered: 0,
        }
    }

    /// The number of the process.
    pub fn process(&self) -> u32
        ensures { result ≡ self.now.process }
    {
        self.process
    }

    /// How many messages of expired timers were ever put into it.
    pub fn delivered(&self) -> u64
        ensures { result ≡ self.now.delivered }
    {
        self.delivered
    }

    /// How many messages wait in it.
    pub fn waiting(&self) -> u64
        ensures { result ≡ length self.now.held.queue }
    {
        self.queue.len() as u64
    }

    /// Makes room for so many more messages: then as many calls of `deliver` and `answer` take no memory, since each takes up
    /// the room of one at most, and a `take` none.
    ///
    /// Out of memory comes only where there wasn't the room.
    pub fn reserve(&mut self, count: usize) -> Result<(), NoMemory>
        ensures room { OnOk result (count ≤ self.new.room) }
        ensures more { self.old.room ≤ self.new.room }
        ensures same { IsSame self.old self.new }
        ensures memory { OnErr result (self.old.room < count) }
    {
        self.queue.reserve(count)?;
        Ok(())
    }

    /// Gives back the memory that its messages don't need: all of it where it has none. They are moved to a smaller block,
    /// so the work is in proportion to their number.
    ///
    /// Out of memory comes only where it has messages and room, and the smaller block couldn't be had.
    pub fn shrink(&mut self) -> Result<(), NoMemory>
        ensures room { OnOk result (self.new.room ≡ 0) }
        ensures less { self.new.room ≤ self.old.room }
        ensures same { IsSame self.old self.new }
        ensures memory { OnErr result ((0 < self.old.room) × (self.old.held.queue ≢ [])) }
    {
        self.queue.shrink_to_fit();
        if self.queue.len() < self.queue.capacity() {
            return Err(NoMemory);
        }
        Ok(())
    }

    /// Takes the first message, unless the process is seen to have exited.
    pub fn take(&mut self, desk: &Desk, pass: &mut Pass, by: u32) -> Taken
        requires belongs { Belongs desk.now pass.old }
        requires holds { IsCallers (settings_of desk.now) (view_of pass.old) by self.old.process }
        requires stands { MailboxStands (settings_of desk.now) (front_of pass.old) self.old }
        ensures belongs { Belongs desk.now pass.new }
        ensures call { IsMade (settings_of desk.now) (view_of pass.old) (Takes (settings_of desk.now) by self.old.process result) (view_of pass.new) }
        ensures taken { IsTaken self.old.held.queue result self.new.held.queue }
        ensures room { self.old.room ≤ self.new.room }
        ensures process { self.new.process ≡ self.old.process }
        ensures stands { MailboxStands (settings_of desk.now) (front_of pass.new) self.new }
    {
        let by = Actor::Caller(by);
        let process = self.process;
        if pass.mark(desk, by, process, false) {
            return Taken::Exited;
        }
        let got = self.queue.pop_front();
        pass.load_time(desk, by, &TimeCarry::Take { process, got });
        match got {
            Some(mail) => Taken::Mail(mail),
            None => Taken::Empty,
        }
    }

    /// Hands over an expired timer to its process, for its scheduler of which it is the first: its message
    /// is put last, or thrown away where the process is seen to have exited.
    ///
    /// It takes up the room of one message at most. Out of memory comes only where there was no room. Then no step was taken
    /// and nothing has changed.
    #[inline(always)]
    pub fn deliver(
        &mut self,
        desk: &Desk,
        pass: &mut Pass,
        expired: &TimerRow,
    ) -> Result<Handed, NoMemory>
        requires belongs { Belongs desk.now pass.old }
        requires holds { HoldsMailboxAndSched (settings_of desk.now) (view_of pass.old) expired.now.timer.wheel self.old.process }
        requires dest { expired.now.dest ≡ self.old.process }
        requires first { first_of ((state_of desk.now pass.old).scheds expired.now.timer.wheel).expired ≡ Some expired.now }
        requires stands { MailboxStands (settings_of desk.now) (front_of pass.old) self.old }
        ensures belongs { Belongs desk.now pass.new }
        ensures call { IsMadeIfOk (settings_of desk.now) (view_of pass.old)
            (HandsOver (settings_of desk.now) expired.now.timer.wheel expired.now) result (view_of pass.new) }
        ensures sched { (state_of desk.now pass.new).scheds expired.now.timer.wheel ≡ handed result ((state_of desk.now pass.old).scheds expired.now.timer.wheel) }
        ensures memory { OnErr result (self.old.room ≡ 0) }
        ensures room { self.old.room ≤ self.new.room + 1 }
        ensures err { OnErr result (IsSame self.old self.new) }
        ensures process { self.new.process ≡ self.old.process }
        ensures stands { MailboxStands (settings_of desk.now) (front_of pass.new) self.new }
    {
        self.queue.reserve(1)?;
        if let Handed::Dropped = hand_over(desk, pass, expired) {
            return Ok(Handed::Dropped);
        }
        self.queue.push_back_reserved(Mail::of_expired(expired));
        self.delivered += 1;
        Ok(Handed::Put)
    }

    /// Answers the request in the hand of a scheduler: cancels or reads its timer, puts the answer last where
    /// one is wanted, empties the hand, and tells the whole milliseconds that were left of the timer.
    ///
    /// It takes up the room of one message at most. Out of memory comes only where there was no room. Then no step was taken
    /// and nothing has changed: the request is in the hand, and the timer is as it was.
    pub fn answer(
        &mut self,
        desk: &Desk,
        pass: &mut Pass,
        sched: u32,
        request: &Request,
    ) -> Result<Option<u64>, NoMemory>
        requires belongs { Belongs desk.now pass.old }
        requires holds { HoldsMailboxAndSched (settings_of desk.now) (view_of pass.old) sched self.old.process }
        requires asker { request.now.reply_to ≡ self.old.process }
        requires hand { ((state_of desk.now pass.old).scheds sched).hand ≡ Some request.now }
        requires stands { MailboxStands (settings_of desk.now) (front_of pass.old) self.old }
        ensures belongs { Belongs desk.now pass.new }
        ensures call { IsMadeIfOk (settings_of desk.now) (view_of pass.old) (Answers (settings_of desk.now) sched request.now) result (view_of pass.new) }
        ensures sched { (state_of desk.now pass.new).scheds sched ≡ sched_after_answer result ((state_of desk.now pass.old).scheds sched) }
        ensures process { self.new.process ≡ self.old.process }
        ensures stands { MailboxStands (settings_of desk.now) (front_of pass.new) self.new }
        ensures memory { OnErr result (self.old.room ≡ 0) }
        ensures room { self.old.room ≤ self.new.room + 1 }
        ensures err { OnErr result (IsSame self.old self.new) }
    {
        self.queue.reserve(1)?;
        let left = reply(desk, pass, sched, request);
        put_answer(&mut self.queue, request, left);
        Ok(left)
    }
}
