//! An inbox behind its lock.
use crate::locked::Locked;
use crate::names::DeskName;
use crate::seats::{CallerSeat, SchedSeat};
use ert_defs::{NoMemory, Request};
use ert_mail::InboxPart;
use ert_table::Desk;
use std::marker::Brand;

impl<L: DeskName> Locked<InboxPart, L> {
    ghost use Rattle.std.specs.Prelude.{◌≡◌, ◌<◌, None};
    ghost use Rattle.ert_effects.specs.RequestCalls.{Asks, Picks};
    ghost use Rattle.ert_defs.specs.declared.entry.Actor.TheVariants.{Inbox, Sched, Caller};
    ghost use Rattle.ert_locks.specs.{Names.IsDesk, Passes.StepsWith};

    /// Puts a request last, for a caller (`cancel_timer` and `read_timer`, option `async`).
    ///
    /// If memory runs out, nothing has changed.
    #[tactic(auto, using(crate::proofs::Own::asks_have, ert_table::proofs::Makings::if_ok_made))]
    pub fn ask(
        &mut self,
        desk: &Desk,
        seat: &mut CallerSeat<L>,
        request: Request,
    ) -> Result<(), NoMemory>
        requires desk { IsDesk L.table L.settings desk.now }
        requires in_range { request.reply_to < L.settings.processes }
        ensures same { self.new ≡ self.old }
        ensures number { seat.new.number ≡ seat.old.number }
        ensures call { StepsWith L.settings (Caller seat.old.number) (Inbox self.old)
            (Asks L.settings seat.old.number self.old request result) seat.old.pass seat.new.pass }
    {
        self.lend::<Brand, _, _, _>(desk, &mut seat.number, &mut seat.pass, |part, pass, by| {
            part.ask(desk, pass, *by, request)
        })
    }

    /// Takes the first request into the empty hand of the scheduler of this inbox; None where there is none.
    #[tactic(auto, using(crate::proofs::Own::picks_have))]
    pub fn pick(&mut self, desk: &Desk, seat: &mut SchedSeat<L>) -> Option<Request>
        requires desk { IsDesk L.table L.settings desk.now }
        requires own { self.old ≡ seat.old.part.wheel }
        requires empty { seat.old.part.hand ≡ None }
        ensures same { self.new ≡ self.old }
        ensures number { seat.new.part.wheel ≡ seat.old.part.wheel }
        ensures hand { seat.new.part.hand ≡ result }
        ensures call { StepsWith L.settings (Sched seat.old.part.wheel) (Inbox seat.old.part.wheel)
            (Picks L.settings seat.old.part.wheel result) seat.old.pass seat.new.pass }
    {
        self.lend::<Brand, _, _, _>(desk, &mut seat.part, &mut seat.pass, |part, pass, sched| {
            let got = part.pick(desk, pass);
            sched.hand = got;
            got
        })
    }
}
