//! A world makes the single steps of its schedulers, and those of caller 0.
use crate::mailing::may_get_mail;
use crate::steps::{CallerSteps, SchedSteps};
use crate::turns::cancelled_left;
use crate::world::{CALLER, World};
use ert_defs::{NoMemory, Request, TimerRow};
use ert_mail::Handed;

impl SchedSteps for World {
    ghost use Rattle.std.specs.Prelude.{◌≡◌, ◌<◌};
    ghost use Rattle.ert_defs.specs.Legal.{Legal};
    ghost use Rattle.ert_world.specs.{Stepping.{Stays, stay, same, in_range, still_passed}, Worlds.HasPassedAt, Ways.beside_seats};

    ghost settings = { λ w. w.settings };

    ghost history = { λ w. w.history };

    ghost is_legal = { λ w. Legal w.settings w.history };

    ghost mark = { λ w. w.next };

    ghost way = { λ g next sched. beside_seats g next };

    ghost acts = { λ w sched. sched < w.settings.schedulers };

    ghost stays = { Stays };

    ghost passed = { HasPassedAt };

    fn hold(&mut self, sched: u32) -> Option<Request> {
        match self.hand(sched) {
            Some(request) => Some(request),
            None => self.pick(sched),
        }
    }

    #[inline(never)]
    fn answer_held(&mut self, sched: u32, request: &Request) -> Result<Option<u64>, NoMemory> {
        may_get_mail(&mut self.list, request.reply_to);
        let left = self.mails[request.reply_to as usize].answer(
            &self.desk,
            &mut self.pass,
            sched,
            request,
        )?;
        self.scheds[sched as usize].hand = None;
        if cancelled_left(request.kind, left).is_none() {
            return Ok(left);
        }
        self.wheels[request.timer.wheel as usize].forget(&self.pass, request.timer);
        Ok(left)
    }

    fn advance_wheel(&mut self, sched: u32) -> Result<(u64, u32), NoMemory> {
        self.advance(sched)
    }

    fn first_of_expired(&self, sched: u32) -> Option<TimerRow> {
        self.scheds[sched as usize].expired.first()
    }

    #[inline(always)]
    fn hand_first(&mut self, sched: u32, expired: &TimerRow) -> Result<Handed, NoMemory> {
        self.hand_next(sched, expired)
    }

    ghost same_settings = { λ a b stays. stays.settings };

    ghost same_mark = { λ a b stays. stays.next };

    ghost acts_on = { in_range };

    ghost still_passed = { still_passed };

    ghost stay = { stay };

    ghost same = { same };
}

impl CallerSteps for World {
    ghost use Rattle.std.specs.Prelude.{◌≡◌};
    ghost use Rattle.ert_defs.specs.Legal.{Legal};
    ghost use Rattle.ert_world.specs.{Stepping.{Stays, stay, same}, Ways.beside_seats};

    ghost settings = { λ w. w.settings };

    ghost history = { λ w. w.history };

    ghost is_legal = { λ w. Legal w.settings w.history };

    ghost mark = { λ w. w.next };

    ghost way = { λ g next by. beside_seats g next };

    ghost acts = { λ w by. by ≡ 0 };

    ghost stays = { Stays };

    fn schedulers(&self) -> u32 {
        self.desk.settings().schedulers
    }

    fn mark_exited(&mut self, by: u32, process: u32) -> bool {
        self.mark_exit(process)
    }

    fn sweep_wheel(&mut self, by: u32, process: u32, wheel: u32) {
        self.wheels[wheel as usize].sweep(&self.desk, &mut self.pass, CALLER, process);
    }

    ghost same_settings = { λ a b stays. stays.settings };

    ghost same_mark = { λ a b stays. stays.next };

    ghost acts_on = { λ a b by stays acts. acts };

    ghost stay = { stay };

    ghost same = { same };
}
