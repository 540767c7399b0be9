//! Notes that callers take and learn.
#![tactic(auto, using(crate::proofs::LegalFronts::legal_front))]

use crate::session::{CallerSession, Session};
use ert_locks::{DeskName, DeskNote};
use std::sync::Wait;

impl<'a, L: DeskName, R: Wait> CallerSession<'a, L, R> {
    ghost use Rattle.std.specs.Prelude.{◌≡◌};
    ghost use Rattle.ert_defs.specs.declared.entry.Actor.TheVariants.{Caller};
    ghost use Rattle.ert_service.specs.Fronts.{IsLegal, StepsAlone};
    ghost use Rattle.ert_table.specs.{Desks.front_of, Views.{Begins, longer}};
    ghost use Rattle.ert_world.specs.Ways.{MakesNone};

    /// Takes a note of what the caller knows, for whoever the program gives it to. No entry is made, and it takes no lock.
    ///
    /// With a timer's name it is all that another caller needs to know the timer, whatever channel both go through:
    ///
    ///     let timer = session.start(0, start)?;
    ///     let note = session.note();
    ///     other.learn(note);              // knows the timer from here on
    ///     Ok(other.cancel_timer(timer))   // None only once the timer has settled
    pub fn note(&mut self) -> DeskNote<L>
        ensures known { result.note.front ≡ front_of self.old.seat.pass }
        ensures same { front_of self.new.seat.pass ≡ front_of self.old.seat.pass }
        ensures number { self.new.seat.number ≡ self.old.seat.number }
    {
        let Session { service, seat, .. } = self;
        DeskNote::new(seat.pass.note(service.desk()))
    }

    /// Learns what a note knows, whoever took it. No entry is made, and it takes no lock.
    ///
    /// A timer that was started before the note was taken is known from here on.
    pub fn learn(&mut self, note: DeskNote<L>)
        ensures call { StepsAlone L.settings (Caller self.old.seat.number) (MakesNone L.settings) self.old.seat.pass self.new.seat.pass }
        ensures front { front_of self.new.seat.pass ≡ longer (front_of self.old.seat.pass) note.note.front }
        ensures known { Begins note.note.front (front_of self.new.seat.pass) }
        ensures number { self.new.seat.number ≡ self.old.seat.number }
        ensures legal { IsLegal L.settings (front_of self.new.seat.pass) }
    {
        let Session { service, seat, .. } = self;
        let DeskNote { note, .. } = note;
        seat.pass.learn(service.desk(), note);
    }
}
