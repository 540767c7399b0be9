//! The exit of a process.
#![tactic(auto, using(crate::proofs::LegalFronts::legal_front, crate::proofs::Alone::made_alone))]

use crate::session::{CallerSession, Session};
use ert_defs::Actor;
use ert_locks::DeskName;
use ert_world::CallerSteps;
use ert_world::chains::exit;
use std::sync::Wait;

impl<'a, L: DeskName, R: Wait> CallerSession<'a, L, R> {
    ghost use Rattle.std.specs.Prelude.{◌≡◌, ◌<◌, ℕ, true};
    ghost use Rattle.ert_effects.specs.{Chains.Exits, Ways.beside, WheelCalls.{MarksExit, TellsAlive}};
    ghost use Rattle.ert_defs.specs.{States.{HasExited, state}, declared.entry.Actor.TheVariants.Caller};
    ghost use Rattle.ert_locks.specs.Passes.{FrontGrows};
    ghost use Rattle.ert_service.specs.{Fronts.{IsLegal, StepsAlone}, Settled.NoneFor};
    ghost use Rattle.ert_table.specs.Desks.{front_of};

    /// Lets a process exit, cancels its timers in all wheels, one after the other, and answers true; false,
    /// and no more, where it had exited before (`exit`). No memory is taken.
    pub fn exit(&mut self, process: u32) -> bool
        requires { process < L.settings.processes }
        ensures swept { result ≡ true → (wheel : ℕ) → wheel < L.settings.schedulers
            → NoneFor (state L.settings (front_of self.old.seat.pass)) (state L.settings (front_of self.new.seat.pass)) wheel process }
        ensures call { FrontGrows (Exits L.settings (beside L.settings (Caller self.old.seat.number)) self.old.seat.number process result) self.old.seat.pass self.new.seat.pass }
        ensures number { self.new.seat.number ≡ self.old.seat.number }
        ensures legal { IsLegal L.settings (front_of self.new.seat.pass) }
    {
        let by = self.seat.number;
        exit(self, by, process)
    }

    /// Lets a process exit, and tells whether it hadn't before. Its timers stay armed. It takes no lock.
    pub fn mark_exit(&mut self, process: u32) -> bool
        requires { process < L.settings.processes }
        ensures exited { HasExited L.settings (front_of self.new.seat.pass) process }
        ensures call { StepsAlone L.settings (Caller self.old.seat.number) (MarksExit L.settings (Caller self.old.seat.number) process result) self.old.seat.pass self.new.seat.pass }
        ensures number { self.new.seat.number ≡ self.old.seat.number }
        ensures legal { IsLegal L.settings (front_of self.new.seat.pass) }
    {
        let Session { service, seat, .. } = self;
        let by = Actor::Caller(seat.number);
        seat.pass.mark_exit(service.desk(), by, process)
    }

    /// Whether a process hasn't exited (`erlang` module reference, `is_process_alive`). It takes no lock.
    pub fn is_alive(&mut self, process: u32) -> bool
        requires { process < L.settings.processes }
        ensures call { StepsAlone L.settings (Caller self.old.seat.number) (TellsAlive L.settings (Caller self.old.seat.number) process result) self.old.seat.pass self.new.seat.pass }
        ensures number { self.new.seat.number ≡ self.old.seat.number }
        ensures legal { IsLegal L.settings (front_of self.new.seat.pass) }
    {
        let Session { service, seat, .. } = self;
        let by = Actor::Caller(seat.number);
        seat.pass.is_alive(service.desk(), by, process)
    }
}

impl<'a, L: DeskName, R: Wait> CallerSteps for CallerSession<'a, L, R> {
    ghost use Rattle.std.specs.Prelude.{◌≡◌};
    ghost use Rattle.std.proofs.Common.{refl, ◌∙◌};
    ghost use Rattle.ert_effects.specs.Ways.{beside};
    ghost use Rattle.ert_defs.specs.declared.entry.Actor.TheVariants.{Caller};
    ghost use Rattle.ert_service.specs.Fronts.{IsLegal};
    ghost use Rattle.ert_table.specs.Desks.{front_of};

    ghost settings = { λ s. L.settings };

    ghost history = { λ s. front_of s.seat.pass };

    ghost is_legal = { λ s. IsLegal L.settings (front_of s.seat.pass) };

    ghost mark = { λ s. 0 };

    ghost way = { λ g mark by. beside g (Caller by) };

    ghost acts = { λ s by. s.seat.number ≡ by };

    ghost stays = { λ s t. t.seat.number ≡ s.seat.number };

    fn schedulers(&self) -> u32 {
        self.service.settings().schedulers
    }

    fn mark_exited(&mut self, _by: u32, process: u32) -> bool {
        self.mark_exit(process)
    }

    fn sweep_wheel(&mut self, _by: u32, process: u32, wheel: u32) {
        let mut locked = self.service.wheels.at(self.rt, wheel);
        locked.sweep(self.service.desk(), &mut self.seat, process);
    }

    ghost same_settings = { λ s t stay. refl };

    ghost same_mark = { λ s t stay. refl };

    ghost acts_on = { λ s t by stay acts. stay ∙ acts };

    ghost stay = { λ s t u one other. other ∙ one };

    ghost same = { λ s. refl };
}
