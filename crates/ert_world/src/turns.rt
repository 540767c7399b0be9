//! The calls of schedulers: to serve requests, to advance the wheel, to deliver messages, and all three.
ghost use Rattle.std.specs.Prelude.{◌≡◌};
ghost use Rattle.ert_world.specs.Worlds.{left_for};

use crate::chains;
use crate::mailing::may_get_mail;
use crate::world::World;
use ert_defs::{NoMemory, Request, RequestKind, TimerRow};
use ert_effects::Turned;
use ert_mail::Handed;

impl World {
    ghost use Rattle.std.specs.Prelude.{◌≡◌, ◌<◌, ◌≤◌, Some, None, length, IfOk, OnOk};
    ghost use Rattle.ert_effects.specs.{Chains.{Serves, AdvancesWheel, Hands, Delivers, Turns}, RequestCalls.Picks, Ways.Grows};
    ghost use Rattle.ert_defs.specs.{Legal.Legal, Mails.{first_of, others_of}, States.state};
    ghost use Rattle.ert_world.specs.{Worlds.{Goes, HasPassedAt, By, IsHandedIn, KeepRows, way_of, world_sched}, Stepping.Stays, Tried.TriesHeldAt};

    /// Serves one request: that in the scheduler's hand, or the first of its inbox. False comes where there is
    /// none. Where it cancelled a timer, the wheel of that holds no row of it.
    ///
    /// If memory runs out, the request stays in the hand.
    pub fn serve(&mut self, sched: u32) -> Result<bool, NoMemory>
        requires { sched < self.old.settings.schedulers }
        ensures call { Goes self.old (λ way. Serves self.old.settings way sched result) self.new }
        ensures stays { Stays self.old self.new }
    {
        chains::serve(self, sched)
    }

    /// The request in a scheduler's hand.
    pub(crate) fn hand(&self, sched: u32) -> Option<Request>
        requires { sched < self.now.settings.schedulers }
        ensures hand { result ≡ (world_sched self.now sched).hand }
        ensures legal { Legal self.now.settings self.now.history }
    {
        self.scheds[sched as usize].hand
    }

    /// Takes the first request of the inbox into the empty hand.
    pub(crate) fn pick(&mut self, sched: u32) -> Option<Request>
        requires sched { sched < self.old.settings.schedulers }
        requires empty { (world_sched self.old sched).hand ≡ None }
        ensures stays { Stays self.old self.new }
        ensures call { Goes self.old (By self.old (λ g. Picks g sched result)) self.new }
        ensures hand { (world_sched self.new sched).hand ≡ result }
    {
        let got = self.inboxes[sched as usize].pick(&self.desk, &mut self.pass);
        self.scheds[sched as usize].take_up(got);
        got
    }

    /// Lets every timer of the scheduler's wheel expire that is due, and answers the time, in whole
    /// milliseconds since the start time, and how many expired.
    ///
    /// If memory runs out, none has expired. Else the wheel holds no row then that is due by that time.
    #[inline(always)]
    pub fn advance(&mut self, sched: u32) -> Result<(u64, u32), NoMemory>
        requires { sched < self.old.settings.schedulers }
        ensures call { Goes self.old (λ way. AdvancesWheel self.old.settings way sched result) self.new }
        // So what `next_due` answers then is later (`next_due_goes_on`), and an event loop gets on.
        ensures passed { IfOk result (λ answer. HasPassedAt self.new sched answer.0) }
        ensures held { IfOk result (λ answer. TriesHeldAt self.old self.new sched answer.0) }
        ensures stays { Stays self.old self.new }
    {
        let part = &mut self.scheds[sched as usize];
        let before = part.expired.len();
        let to = self.wheels[sched as usize].advance(
            &self.desk,
            &mut self.pass,
            &mut part.expired,
        )?;
        Ok((to, (part.expired.len() - before) as u32))
    }

    /// Hands over the scheduler's expired timers until there is none, and answers how many messages were put
    /// into mailboxes and how many were thrown away, since their process has exited.
    ///
    /// If memory runs out, those that weren't handed over stay in the list.
    pub fn deliver(&mut self, sched: u32) -> Result<(u32, u32), NoMemory>
        requires { sched < self.old.settings.schedulers }
        ensures call { Goes self.old (λ way. Delivers self.old.settings way sched result) self.new }
        ensures stays { Stays self.old self.new }
    {
        chains::deliver(self, sched)
    }

    /// Hands over the scheduler's first expired timer.
    #[inline(always)]
    pub(crate) fn hand_over(&mut self, sched: u32, expired: &TimerRow) -> Result<Handed, NoMemory>
        requires sched { sched < self.old.settings.schedulers }
        requires first { first_of (world_sched self.old sched).expired ≡ Some expired.now }
        ensures call { Goes self.old (λ way. Hands self.old.settings way sched result) self.new }
        ensures stays { Stays self.old self.new }
        ensures expired { OnOk result ((world_sched self.new sched).expired ≡ others_of (world_sched self.old sched).expired) }
        ensures handed { OnOk result (IsHandedIn self.new expired.now.timer) }
        ensures wheels { self.new.wheels ≡ self.old.wheels }
    {
        may_get_mail(&mut self.list, expired.dest);
        let handed = self.mails[expired.dest as usize].deliver(
            &self.desk,
            &mut self.pass,
            expired,
        )?;
        self.scheds[sched as usize].expired.pop();
        Ok(handed)
    }

    /// Hands over the scheduler's first expired timer, and holds its slot free.
    #[inline(always)]
    pub(crate) fn hand_next(&mut self, sched: u32, expired: &TimerRow) -> Result<Handed, NoMemory>
        requires sched { sched < self.old.settings.schedulers }
        requires first { first_of (world_sched self.old sched).expired ≡ Some expired.now }
        ensures call { Grows (Hands self.old.settings (way_of self.old) sched result) self.old.history self.new.history }
        ensures legal { Legal self.new.settings self.new.history }
        ensures expired { OnOk result ((world_sched self.new sched).expired ≡ others_of (world_sched self.old sched).expired) }
        ensures stays { Stays self.old self.new }
        ensures kept { KeepRows self.old self.new }
    {
        let handed = self.hand_over(sched, expired)?;
        self.reuse(expired.timer);
        Ok(handed)
    }

    /// A turn of a scheduler: it serves requests until there is none, 64 at most, lets due timers expire, and
    /// hands over all expired timers. Then the wheel holds no row that is due by the time of the advance.
    ///
    /// If memory runs out, what was done stays done.
    pub fn turn(&mut self, sched: u32) -> Result<Turned, NoMemory>
        requires { sched < self.old.settings.schedulers }
        ensures call { Goes self.old (λ way. Turns self.old.settings way sched result) self.new }
        ensures passed { IfOk result (λ t. HasPassedAt self.new sched t.to) }
        ensures stays { Stays self.old self.new }
    {
        chains::turn(self, sched)
    }
}

/// What was left of a timer that was cancelled for a request; None where it wasn't, or was only read.
pub(crate) fn cancelled_left(kind: RequestKind, left: Option<u64>) -> Option<u64>
    ensures { result ≡ left_for kind left }
{
    match kind {
        RequestKind::Cancel => left,
        RequestKind::Read => None,
    }
}
