//! The steps of a scheduler, each under one lock.
#![tactic(auto, using(crate::proofs::LegalFronts::legal_front))]

ghost use Rattle.std.specs.Prelude.{◌≡◌, ◌<◌, Some};
ghost use Rattle.ert_defs.specs.Mails.{first_of};

use crate::session::SchedSession;
use ert_defs::{NoMemory, Request, TimerRow};
use ert_locks::{DeskName, SchedSeat};
use ert_mail::Handed;
use ert_world::SchedSteps;
use std::sync::Wait;

impl<'a, L: DeskName, R: Wait> SchedSession<'a, L, R> {
    ghost use Rattle.std.specs.Prelude.{◌≡◌, None, IfOk};
    ghost use Rattle.ert_effects.specs.{Chains.AdvancesWheel, RequestCalls.Picks, Ways.beside};
    ghost use Rattle.ert_defs.specs.{States.state, declared.entry.Actor.TheVariants.{Inbox, Sched}};
    ghost use Rattle.ert_locks.specs.Passes.{FrontGrows, StepsWith};
    ghost use Rattle.ert_service.specs.{Fronts.IsLegal, Settled.NoneDue};
    ghost use Rattle.ert_table.specs.Desks.{front_of};

    /// Takes the first request of the inbox into the empty hand.
    fn pick(&mut self) -> Option<Request>
        requires empty { self.old.seat.part.hand ≡ None }
        ensures hand { self.new.seat.part.hand ≡ result }
        ensures call { StepsWith L.settings (Sched self.old.seat.part.wheel) (Inbox self.old.seat.part.wheel)
            (Picks L.settings self.old.seat.part.wheel result) self.old.seat.pass self.new.seat.pass }
        ensures number { self.new.seat.part.wheel ≡ self.old.seat.part.wheel }
    {
        let wheel = self.seat.part.wheel;
        let mut inbox = self.service.inboxes.at(self.rt, wheel);
        inbox.pick(self.service.desk(), &mut self.seat)
    }

    /// Lets every timer of the scheduler's wheel expire that is due, and answers the time, in whole
    /// milliseconds since the start time, and how many expired. After that no timer of the wheel is armed that
    /// is due by then.
    ///
    /// If memory runs out, none has expired.
    pub fn advance(&mut self) -> Result<(u64, u32), NoMemory>
        ensures due { IfOk result (λ answer. NoneDue (state L.settings (front_of self.new.seat.pass)) self.old.seat.part.wheel answer.0) }
        ensures call { FrontGrows (AdvancesWheel L.settings (beside L.settings (Sched self.old.seat.part.wheel)) self.old.seat.part.wheel result) self.old.seat.pass self.new.seat.pass }
        ensures number { self.new.seat.part.wheel ≡ self.old.seat.part.wheel }
        ensures legal { IsLegal L.settings (front_of self.new.seat.pass) }
    {
        let wheel = self.seat.part.wheel;
        let mut locked = self.service.wheels.at(self.rt, wheel);
        locked.advance(self.service.desk(), &mut self.seat)
    }
}

impl<'a, L: DeskName, R: Wait> SchedSteps for SchedSession<'a, L, R> {
    ghost use Rattle.std.specs.Prelude.{◌≡◌};
    ghost use Rattle.std.proofs.Common.{refl, ◌∙◌};
    ghost use Rattle.ert_effects.specs.Ways.{beside};
    ghost use Rattle.ert_defs.specs.declared.entry.Actor.TheVariants.{Sched};
    ghost use Rattle.ert_service.specs.Fronts.{IsLegal};
    ghost use Rattle.ert_table.specs.Desks.{front_of};

    ghost settings = { λ s. L.settings };

    ghost history = { λ s. front_of s.seat.pass };

    ghost is_legal = { λ s. IsLegal L.settings (front_of s.seat.pass) };

    ghost mark = { λ s. 0 };

    ghost way = { λ g mark sched. beside g (Sched sched) };

    ghost acts = { λ s sched. s.seat.part.wheel ≡ sched };

    ghost stays = { λ s t. t.seat.part.wheel ≡ s.seat.part.wheel };

    /// Others may start timers of the wheel between two steps.
    ghost passed = { λ s sched to. Unit {0} };

    fn hold(&mut self, _sched: u32) -> Option<Request> {
        match self.seat.part.hand {
            Some(request) => Some(request),
            None => self.pick(),
        }
    }

    fn answer_held(&mut self, _sched: u32, request: &Request) -> Result<Option<u64>, NoMemory> {
        let process = asker_of(&self.seat, request);
        let mut mailbox = self.service.mails.at(self.rt, process);
        mailbox.answer(self.service.desk(), &mut self.seat, request)
    }

    fn advance_wheel(&mut self, _sched: u32) -> Result<(u64, u32), NoMemory> {
        self.advance()
    }

    fn first_of_expired(&self, _sched: u32) -> Option<TimerRow> {
        self.seat.part.expired.first()
    }

    fn hand_first(&mut self, _sched: u32, expired: &TimerRow) -> Result<Handed, NoMemory> {
        let process = destination_of(&self.seat, expired);
        let mut mailbox = self.service.mails.at(self.rt, process);
        mailbox.hand_over(self.service.desk(), &mut self.seat, expired)
    }

    ghost same_settings = { λ s t stay. refl };

    ghost same_mark = { λ s t stay. refl };

    ghost acts_on = { λ s t sched stay acts. stay ∙ acts };

    ghost still_passed = { λ s t sched to stay passed. passed };

    ghost stay = { λ s t u one other. other ∙ one };

    ghost same = { λ s. refl };
}

/// The process that is to get the answer to the request in a scheduler's hand.
fn asker_of<L: DeskName>(seat: &SchedSeat<L>, request: &Request) -> u32
    requires { seat.now.part.hand ≡ Some request.now }
    ensures value { result ≡ request.now.reply_to }
    ensures in_range { result < L.settings.processes }
{
    // For the prover alone: what is known of a seat is known of one that is read.
    let _seat = seat;
    request.reply_to
}

/// The process that is to get the message of a scheduler's first expired timer.
fn destination_of<L: DeskName>(seat: &SchedSeat<L>, expired: &TimerRow) -> u32
    requires { first_of seat.now.part.expired.rows ≡ Some expired.now }
    ensures value { result ≡ expired.now.dest }
    ensures in_range { result < L.settings.processes }
{
    // For the prover alone: what is known of a seat is known of one that is read.
    let _seat = seat;
    expired.dest
}
