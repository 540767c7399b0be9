//! The turn of a shard in which so many timers at most expire, and so many are handed over.
use crate::shard::Shard;
use crate::turns::Turn;
use ert_defs::NoMemory;
use ert_effects::Left;
use ert_mail::Handed;

impl Shard {
    ghost use Rattle.std.specs.Prelude.{◌≡◌, true, IfOk};
    ghost use Rattle.ert_effects.specs.SomeCalls.{AdvancesWheelSome};
    ghost use Rattle.ert_shard.specs.{Shards.ShardSteps, Turning.{HasTurnedMost, IsMoreLeft, TurnsUpTo}};
    ghost use Rattle.ert_timers.specs.Trying.{IsLeft, LosesSome};
    ghost use Rattle.ert_world.specs.{Bounded.DeliversSome, Worlds.KeepsRows};

    /// Lets so many timers at most of the shard's wheel expire that are due, and answers the time, in whole
    /// milliseconds since the start time, how many expired, and what is left.
    ///
    /// Where more are due so many were tried: a timer that another thread cancelled counts too. So many rows at most move in
    /// the wheel: where it can't come to that time for this, the next advance goes on with them (`Left::Moving`). If memory runs
    /// out, none has expired.
    pub fn advance_some(&mut self, most: u32) -> Result<(u64, u32, Left), NoMemory>
        ensures call { ShardSteps self.old (λ way. AdvancesWheelSome self.old.settings way self.old.share.number most result) self.new }
        ensures left { IfOk result (λ answer. IsLeft self.new.wheel answer.0 answer.2) }
        ensures fewer { IfOk result (λ answer. LosesSome answer.2 most self.old.wheel self.new.wheel) }
    {
        let before = self.sched.expired.len();
        let (to, left) = self
            .wheel
            .advance_some(&self.desk, &mut self.pass, most, &mut self.sched.expired)?;
        Ok((to, (self.sched.expired.len() - before) as u32, left))
    }

    /// Hands over the shard's expired timers until there is none, but so many at most. It answers how many messages were
    /// put into mailboxes, how many were thrown away, since their process has exited, and whether more timers wait.
    ///
    /// If memory runs out, those that weren't handed over stay in the list.
    pub fn deliver_some(&mut self, most: u32) -> Result<(u32, u32, bool), NoMemory>
        ensures call { ShardSteps self.old (λ way. DeliversSome self.old.settings way self.old.share.number most result) self.new }
        ensures kept { KeepsRows self.old.wheel self.new.wheel }
    {
        let mut put = 0;
        let mut dropped = 0;
        'hands: while put + dropped < most {
            let Some(expired) = self.first_of_expired() else {
                return Ok((put, dropped, false));
            };
            match self.hand_first(&expired)? {
                Handed::Put => put += 1,
                Handed::Dropped => dropped += 1,
            }
        }
        let more = self.first_of_expired().is_some();
        Ok((put, dropped, more))
    }

    /// A turn of the shard (`turn`) in which so many timers at most expire, and so many messages at most are handed over.
    /// It tells whether there is more: timers that are due by the time of the advance, expired ones that wait, or rows that
    /// have to move in the wheel before that comes to the time (`advance_some`). The next turn goes on with them, in their order.
    ///
    /// With 0 at most it serves requests and tells what there is. If memory runs out, what was done stays done.
    pub fn turn_some(&mut self, most: u32) -> Result<(Turn, bool), NoMemory>
        ensures call { ShardSteps self.old (λ way. TurnsUpTo self.old.settings way self.old.share most result) self.new }
        ensures left { IfOk result (λ answer. IsMoreLeft self.new answer.0.to answer.1) }
        ensures done { IfOk result (λ answer. answer.1 ≡ true → HasTurnedMost self.old.wheel self.new.wheel most answer.0) }
    {
        let served = self.serve_all()?;
        let (to, expired, left) = self.advance_some(most)?;
        let (put, dropped, waits) = self.deliver_some(most)?;
        let turn = Turn {
            served,
            to,
            expired,
            put,
            dropped,
        };
        Ok((turn, left.is_more() || waits))
    }
}
