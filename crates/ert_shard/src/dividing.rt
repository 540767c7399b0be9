//! Shards that are given, and that come back.
ghost use Rattle.std.specs.Prelude.{◌≡◌, ◌≤◌, true};
ghost use Rattle.ert_table.specs.{Desks.{front_of, actors_of, Belongs}, Held.is_held};
ghost use Rattle.ert_shard.specs.Hubs.{MovesActor, MovesMails, HoldsMails};

use crate::hub::{Home, Hub};
use crate::shard::Shard;
use ert_defs::Actor;
use ert_table::{Desk, Pass};
use std::sync::Arc;

/// Why no shard is given.
#[derive(Clone, Copy, Debug, PartialEq, Eq)]
pub enum ShardErr {
    /// A wheel has had timers, and their processes aren't known to be those that its shard is to have, or, of a wheel that
    /// stays, those that stay: it was no shard's before, or one's that had other processes.
    Used,
    /// There is no memory.
    NoMemory,
}

impl Hub {
    ghost use Rattle.std.specs.Prelude.{◌≡◌, ◌↔◌, ◌<◌, ◌≤◌, ℕ, IfOk, OnOk, OnErr, IfErr, IsTrue};
    ghost use Rattle.ert_defs.specs.{Actors.of, declared.entry.Actor.TheVariants.Wheel};
    ghost use Rattle.ert_shard.specs.{Hubs.{GivesShard, AreKnown, IsAtHome, IsShardRefused, IsLastOut, TakesBack, share_below}, Shards.AreHome};

    /// Gives the last scheduler that is left, with so many of the last processes that are left, to a shard.
    ///
    /// No other wheel has a timer for a process of the shard: a wheel that was a shard's before comes with its timers, and
    /// the shard gets the processes that the other had, or more, but none that a wheel that stays has timers for; and no
    /// shard is given of a world whose wheels had timers before it was divided (`Used`). After a refusal nothing has
    /// changed.
    pub fn shard(&mut self, processes: u32) -> Result<Shard, ShardErr>
        requires some { 0 < self.old.left }
        requires few { processes ≤ self.old.first }
        ensures gives { IfOk result (λ shard. GivesShard self.old processes self.new shard) }
        ensures home { IfOk result (λ shard. AreHome shard.share (of shard.history (Wheel shard.share.number))) }
        ensures apart { OnOk result ((w : ℕ) → w < self.new.left → AreHome (share_below w self.new.first) (of self.new.history (Wheel w))) }
        ensures refused { IfErr result (IsShardRefused self.old processes) }
        ensures same { OnErr result (self.new ≡ self.old) }
    {
        let number = self.left - 1;
        let to = self.first;
        let from = to - processes;
        if !self.is_at_home(processes) {
            return Err(ShardErr::Used);
        }
        let out = self.desk.settings().schedulers - number;
        if self.homes.reserve(out as usize).is_err() {
            return Err(ShardErr::NoMemory);
        }
        let Ok(desk) = Arc::try_clone(&self.desk) else {
            return Err(ShardErr::NoMemory);
        };
        let Ok(mails) = self.mails.split_off(from as usize) else {
            return Err(ShardErr::NoMemory);
        };
        let mut pass = self.pass.split(&desk, Actor::Caller(number + 1));
        move_actor(&desk, &mut self.pass, &mut pass, Actor::Wheel(number));
        move_actor(&desk, &mut self.pass, &mut pass, Actor::Inbox(number));
        move_actor(&desk, &mut self.pass, &mut pass, Actor::Sched(number));
        move_mails(&desk, &mut self.pass, &mut pass, from, to);
        let wheel = self.wheels.pop().unwrap();
        let inbox = self.inboxes.pop().unwrap();
        let sched = self.scheds.pop().unwrap();
        self.homes.pop();
        self.left = number;
        self.first = from;
        Ok(Shard {
            before: [0; 8],
            desk,
            pass,
            number,
            from,
            to,
            wheel,
            inbox,
            sched,
            mails,
            list: None,
            after: [0; 8],
        })
    }

    /// Whether the timers of the last wheel that is left are known to be for so many of the last processes, and those of
    /// the others for the processes before them.
    fn is_at_home(&self, processes: u32) -> bool
        requires some { 0 < self.now.left }
        requires few { processes ≤ self.now.first }
        ensures { IsTrue result ↔ IsAtHome self.now processes }
    {
        let from = self.first - processes;
        let last = self.left - 1;
        for wheel in 0..last {
            if !self.are_known(wheel, 0, from) {
                return false;
            }
        }
        self.are_known(last, from, self.first)
    }

    /// Whether the timers of a wheel that is left are known to be for processes from one on, below another.
    fn are_known(&self, wheel: u32, from: u32, to: u32) -> bool
        requires { wheel < self.now.left }
        ensures { IsTrue result ↔ AreKnown self.now wheel from to }
    {
        if self.wheels[wheel as usize].tally().arms == 0 {
            return true;
        }
        let after = (self.left - wheel) as usize;
        if self.homes.len() < after {
            return false;
        }
        self.homes[self.homes.len() - after].is_within(from, to)
    }

    /// Whether a shard is the next that can come back: the last that was given of those that are out.
    pub fn is_next(&self, shard: &Shard) -> bool
        ensures { IsTrue result ↔ IsLastOut self.now shard.now }
    {
        shard.number == self.left && shard.from == self.first
    }

    /// Takes a shard back: the last that was given of those that are out (`is_next`). It takes no memory.
    ///
    /// Both know one legal history then: the longer of the two that they knew, which the other begins.
    pub fn join(&mut self, shard: Shard)
        requires table { shard.table ≡ self.old.table }
        requires settings { shard.settings ≡ self.old.settings }
        requires next { IsLastOut self.old shard }
        ensures takes { TakesBack self.old shard self.new }
        ensures home { AreHome shard.share (of self.new.history (Wheel shard.share.number)) }
    {
        let Shard {
            pass,
            number,
            from,
            to,
            wheel,
            inbox,
            sched,
            mut mails,
            ..
        } = shard;
        self.pass.join(&self.desk, pass);
        self.wheels.push_reserved(wheel);
        self.inboxes.push_reserved(inbox);
        self.scheds.push_reserved(sched);
        let _joined = self.mails.append(&mut mails);
        self.homes.push_reserved(Home { from, to });
        self.left = number + 1;
        self.first = to;
    }
}

/// Moves an actor from one pass to another that knows as much.
fn move_actor(desk: &Desk, from: &mut Pass, to: &mut Pass, actor: Actor)
    requires from { Belongs desk.now from.old }
    requires to { Belongs desk.now to.old }
    requires held { is_held (actors_of from.old) actor ≡ true }
    requires front { front_of to.old ≡ front_of from.old }
    ensures from { Belongs desk.now from.new }
    ensures to { Belongs desk.now to.new }
    ensures moves { MovesActor actor from.old to.old from.new to.new }
{
    let one = from.split(desk, actor);
    to.join(desk, one);
}

/// Moves the actors of mailboxes.
fn move_mails(desk: &Desk, from: &mut Pass, to: &mut Pass, first: u32, last: u32)
    requires from { Belongs desk.now from.old }
    requires to { Belongs desk.now to.old }
    requires held { HoldsMails first last from.old }
    requires ordered { first ≤ last }
    requires front { front_of to.old ≡ front_of from.old }
    ensures from { Belongs desk.now from.new }
    ensures to { Belongs desk.now to.new }
    ensures moves { MovesMails first last from.old to.old from.new to.new }
{
    for process in first..last {
        move_actor(desk, from, to, Actor::MailOf(process));
    }
}
