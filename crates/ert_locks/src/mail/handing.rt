//! The steps of a scheduler on a mailbox.
ghost use Rattle.std.specs.Prelude.{◌≡◌};
ghost use Rattle.ert_locks.specs.Hands.{hand_left, rows_left};

use crate::locked::Locked;
use crate::names::DeskName;
use crate::seats::SchedSeat;
use ert_defs::{NoMemory, Request, TimerRow};
use ert_mail::{Handed, MailPart};
use ert_table::Desk;
use ert_timers::ExpiredList;
use std::marker::Brand;

impl<L: DeskName> Locked<MailPart, L> {
    ghost use Rattle.std.specs.Prelude.{◌≡◌, Some, OnOk};
    ghost use Rattle.ert_effects.specs.{Chains.Hands, RequestCalls.Answers, Ways.beside};
    ghost use Rattle.ert_defs.specs.{Mails.{first_of, others_of}, declared.entry.Actor.TheVariants.{MailOf, Sched}};
    ghost use Rattle.ert_locks.specs.{Names.IsDesk, Passes.{FrontGrows, StepsWith}};

    /// Answers the request in the hand of a scheduler, of which this mailbox's process is to get the answer,
    /// and empties the hand. It tells the whole milliseconds that were left of the timer.
    ///
    /// If memory runs out, nothing has changed.
    pub fn answer(
        &mut self,
        desk: &Desk,
        seat: &mut SchedSeat<L>,
        request: &Request,
    ) -> Result<Option<u64>, NoMemory>
        requires desk { IsDesk L.table L.settings desk.now }
        requires own { self.old ≡ request.now.reply_to }
        requires hand { seat.old.part.hand ≡ Some request.now }
        ensures same { self.new ≡ self.old }
        ensures number { seat.new.part.wheel ≡ seat.old.part.wheel }
        ensures call { StepsWith L.settings (Sched seat.old.part.wheel) (MailOf request.now.reply_to)
            (Answers L.settings seat.old.part.wheel request.now result) seat.old.pass seat.new.pass }
    {
        self.lend::<Brand, _, _, _>(desk, &mut seat.part, &mut seat.pass, |part, pass, sched| {
            let left = part.answer(desk, pass, sched.wheel, request);
            sched.hand = hand_after(sched.hand, &left);
            left
        })
    }

    /// Hands over the first expired timer of a scheduler, whose destination is this mailbox's process.
    ///
    /// If memory runs out, nothing has changed.
    #[tactic(auto, using(crate::proofs::Own::hands_have))]
    pub fn hand_over(
        &mut self,
        desk: &Desk,
        seat: &mut SchedSeat<L>,
        expired: &TimerRow,
    ) -> Result<Handed, NoMemory>
        requires desk { IsDesk L.table L.settings desk.now }
        requires own { self.old ≡ expired.now.dest }
        requires first { first_of seat.old.part.expired.rows ≡ Some expired.now }
        ensures same { self.new ≡ self.old }
        ensures number { seat.new.part.wheel ≡ seat.old.part.wheel }
        ensures expired { OnOk result (seat.new.part.expired.rows ≡ others_of seat.old.part.expired.rows) }
        ensures call { FrontGrows (Hands L.settings (beside L.settings (Sched seat.old.part.wheel)) seat.old.part.wheel result) seat.old.pass seat.new.pass }
    {
        self.lend::<Brand, _, _, _>(desk, &mut seat.part, &mut seat.pass, |part, pass, sched| {
            let handed = part.deliver(desk, pass, expired);
            drop_handed(&mut sched.expired, &handed);
            handed
        })
    }
}

/// What is in a scheduler's hand after its request was answered, or wasn't because memory ran out.
fn hand_after(hand: Option<Request>, left: &Result<Option<u64>, NoMemory>) -> Option<Request>
    ensures { result ≡ hand_left left.now hand }
{
    match left {
        Ok(_) => None,
        Err(_) => hand,
    }
}

/// Drops the first expired timer, if it was handed over.
fn drop_handed(expired: &mut ExpiredList, handed: &Result<Handed, NoMemory>)
    ensures { expired.new.rows ≡ rows_left handed.now expired.old.rows }
{
    match handed {
        Ok(_) => {
            expired.pop();
        }
        Err(_) => {}
    }
}
