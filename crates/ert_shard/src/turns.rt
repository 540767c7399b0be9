//! The turns of a shard.
use crate::mailing::may_get_mail;
use crate::shard::Shard;
use ert_defs::{NoMemory, TimerRow};
use ert_mail::Handed;

/// What a turn of a shard did.
#[derive(Clone, Copy, Debug, PartialEq, Eq)]
pub struct Turn {
    /// How many requests were served, 0 to `SERVED_A_TURN` of `ert_effects`.
    pub served: u32,
    /// The time of the advance, in whole milliseconds since the start time.
    pub to: u64,
    /// How many timers expired.
    pub expired: u32,
    /// How many messages were put into mailboxes.
    pub put: u32,
    /// How many messages were thrown away, since their process has exited.
    pub dropped: u32,
}

impl Shard {
    ghost use Rattle.std.specs.Prelude.{◌≡◌, ◌≤◌, Some, [], ◌∷◌, length, IfOk, OnOk};
    ghost use Rattle.ert_effects.specs.Chains.{AdvancesWheel, Hands, Delivers};
    ghost use Rattle.ert_defs.specs.{Legal.Legal, Mails.{first_of, others_of}, States.state, declared.entry.Actor.TheVariants.Wheel, declared.settings.TheConstants.MOST_SLOTS};
    ghost use Rattle.ert_shard.specs.{Shards.{ShardGoes, ShardSteps}, Turning.{shard_expired, ShardTurns}};
    ghost use Rattle.ert_timers.specs.{Expiring.TriesHeld, Passed.HasPassed};
    ghost use Rattle.ert_world.specs.Worlds.{KeepsRows};

    /// Lets every timer of the shard's wheel expire that is due, and answers the time, in whole milliseconds
    /// since the start time, and how many expired.
    ///
    /// If memory runs out, none has expired. Else the wheel holds no row then that is due by that time.
    pub fn advance(&mut self) -> Result<(u64, u32), NoMemory>
        ensures call { ShardSteps self.old (λ way. AdvancesWheel self.old.settings way self.old.share.number result) self.new }
        ensures passed { IfOk result (λ answer. HasPassed self.new.wheel answer.0) }
        ensures held { IfOk result (λ answer. ShardGoes self.old (λ way. way (Wheel self.old.share.number ∷ []) (TriesHeld self.old.wheel answer.0)) self.new) }
    {
        let before = self.sched.expired.len();
        let to = self
            .wheel
            .advance(&self.desk, &mut self.pass, &mut self.sched.expired)?;
        Ok((to, (self.sched.expired.len() - before) as u32))
    }

    /// The shard's first expired timer.
    pub(crate) fn first_of_expired(&self) -> Option<TimerRow>
        ensures first { result ≡ first_of (shard_expired self.now) }
        ensures few { length (shard_expired self.now) ≤ MOST_SLOTS }
        ensures legal { Legal self.now.settings self.now.history }
    {
        self.sched.expired.first()
    }

    /// Hands over the shard's first expired timer to a process of its own.
    pub(crate) fn hand_first(&mut self, expired: &TimerRow) -> Result<Handed, NoMemory>
        requires { first_of (shard_expired self.old) ≡ Some expired.now }
        ensures call { ShardSteps self.old (λ way. Hands self.old.settings way self.old.share.number result) self.new }
        ensures expired { OnOk result (shard_expired self.new ≡ others_of (shard_expired self.old)) }
        ensures kept { KeepsRows self.old.wheel self.new.wheel }
    {
        let place = expired.dest - self.from;
        may_get_mail(&mut self.list, place);
        let handed = self.mails[place as usize].deliver(&self.desk, &mut self.pass, expired)?;
        self.sched.expired.pop();
        self.wheel.reuse(&self.pass, expired.timer);
        Ok(handed)
    }

    /// Hands over the shard's expired timers until there is none, and answers how many messages were put into
    /// mailboxes and how many were thrown away, since their process has exited.
    ///
    /// If memory runs out, those that weren't handed over stay in the list.
    pub fn deliver(&mut self) -> Result<(u32, u32), NoMemory>
        ensures { ShardSteps self.old (λ way. Delivers self.old.settings way self.old.share.number result) self.new }
    {
        let mut put = 0;
        let mut dropped = 0;
        while let Some(expired) = self.first_of_expired() {
            match self.hand_first(&expired)? {
                Handed::Put => put += 1,
                Handed::Dropped => dropped += 1,
            }
        }
        Ok((put, dropped))
    }

    /// A turn of the shard: it serves requests until there is none, 64 at most, lets due timers expire, and hands over all
    /// expired timers. Then the wheel holds no row that is due by the time of the advance.
    ///
    /// It serves none from one on whose answer is for a process of another shard (`ServeErr::NotHome`).
    ///
    /// If memory runs out, what was done stays done.
    pub fn turn(&mut self) -> Result<Turn, NoMemory>
        ensures call { ShardSteps self.old (λ way. ShardTurns self.old.settings way self.old.share result) self.new }
        ensures passed { IfOk result (λ t. HasPassed self.new.wheel t.to) }
    {
        let served = self.serve_all()?;
        let (to, expired) = self.advance()?;
        let (put, dropped) = self.deliver()?;
        Ok(Turn {
            served,
            to,
            expired,
            put,
            dropped,
        })
    }
}
