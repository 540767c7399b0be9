//! The turn of a scheduler in which so many timers at most expire, and so many are handed over.
ghost use Rattle.std.specs.Prelude.{◌≡◌};

use crate::chains::serve_all;
use crate::steps::SchedSteps;
use crate::world::World;
use ert_defs::NoMemory;
use ert_effects::{Left, Turned};
use ert_mail::Handed;

impl World {
    ghost use Rattle.std.specs.Prelude.{◌≡◌, ◌<◌, true, IfOk};
    ghost use Rattle.ert_defs.specs.Legal.{Legal};
    ghost use Rattle.ert_effects.specs.{SomeCalls.AdvancesWheelSome, Ways.Grows};
    ghost use Rattle.ert_world.specs.{Bounded.{DeliversSome, TurnsSome, IsLeftAt, IsMoreAt, LosesSomeAt, HasDoneMost}, Stepping.Stays, Worlds.{Goes, KeepRows, way_of}};

    /// Lets so many timers at most of the scheduler's wheel expire that are due, and answers the time, in whole
    /// milliseconds since the start time, how many expired, and what is left.
    ///
    /// Where more are due so many were tried: a timer that another thread cancelled counts too. So many rows at most move in
    /// the wheel: where it can't come to that time for this, the next advance goes on with them (`Left::Moving`). If memory runs
    /// out, none has expired.
    pub fn advance_some(&mut self, sched: u32, most: u32) -> Result<(u64, u32, Left), NoMemory>
        requires { sched < self.old.settings.schedulers }
        ensures call { Goes self.old (λ way. AdvancesWheelSome self.old.settings way sched most result) self.new }
        ensures left { IfOk result (λ answer. IsLeftAt self.new sched answer.0 answer.2) }
        ensures fewer { IfOk result (λ answer. LosesSomeAt self.old self.new sched answer.2 most) }
        ensures stays { Stays self.old self.new }
    {
        let part = &mut self.scheds[sched as usize];
        let before = part.expired.len();
        let (to, left) = self.wheels[sched as usize].advance_some(
            &self.desk,
            &mut self.pass,
            most,
            &mut part.expired,
        )?;
        Ok((to, (part.expired.len() - before) as u32, left))
    }

    /// Hands over the scheduler's expired timers until there is none, but so many at most. It answers how many messages
    /// were put into mailboxes, how many were thrown away, since their process has exited, and whether more timers wait.
    ///
    /// If memory runs out, those that weren't handed over stay in the list.
    fn deliver_some(&mut self, sched: u32, most: u32) -> Result<(u32, u32, bool), NoMemory>
        requires { sched < self.old.settings.schedulers }
        ensures call { Grows (DeliversSome self.old.settings (way_of self.old) sched most result) self.old.history self.new.history }
        ensures legal { Legal self.new.settings self.new.history }
        ensures stays { Stays self.old self.new }
        ensures kept { KeepRows self.old self.new }
    {
        let mut put = 0;
        let mut dropped = 0;
        'hands: while put + dropped < most {
            let Some(expired) = self.first_of_expired(sched) else {
                return Ok((put, dropped, false));
            };
            match self.hand_next(sched, &expired)? {
                Handed::Put => put += 1,
                Handed::Dropped => dropped += 1,
            }
        }
        let more = self.first_of_expired(sched).is_some();
        Ok((put, dropped, more))
    }

    /// A turn of a scheduler (`turn`) in which so many timers at most expire, and so many messages at most are handed over.
    /// It tells whether there is more: timers that are due by the time of the advance, expired ones that wait, or rows that
    /// have to move in the wheel before that comes to the time (`advance_some`). The next turn goes on with them, in their order.
    ///
    /// With 0 at most it serves requests and tells what there is. If memory runs out, what was done stays done.
    pub fn turn_some(&mut self, sched: u32, most: u32) -> Result<(Turned, bool), NoMemory>
        requires { sched < self.old.settings.schedulers }
        ensures call { Goes self.old (λ way. TurnsSome self.old.settings way sched most result) self.new }
        ensures left { IfOk result (λ answer. IsMoreAt self.new sched answer.0.to answer.1) }
        ensures done { IfOk result (λ answer. answer.1 ≡ true → HasDoneMost self.old self.new sched most answer.0) }
        // No row comes in a turn. So turns with a bound of 1 or more get on, but for those that only move rows, which
        // no clause counts.
        ensures stays { Stays self.old self.new }
    {
        let served = serve_all(self, sched)?;
        let (to, expired, left) = self.advance_some(sched, most)?;
        let (put, dropped, waits) = self.deliver_some(sched, most)?;
        let turned = Turned {
            served,
            to,
            expired,
            put,
            dropped,
        };
        Ok((turned, left.is_more() || waits))
    }
}
