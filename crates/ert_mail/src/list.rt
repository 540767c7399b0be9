//! The processes whose mailboxes may have mail.
use crate::part::MailPart;
use crate::turns::Turns;
use ert_defs::{Actor, NoMemory};
use ert_table::{Desk, Pass};
use std::alloc::Global;
use std::marker::Model;

/// The processes whose mailboxes may have mail, each once, in a row.
///
/// One is put last where its mailbox may get mail, and stays until it is its turn and the mailbox is found empty, or the
/// process exited. So each put is paid for by one look, and to find the next process takes constant time, amortized.
#[derive(Drop)]
pub struct MailList {
    /// The processes in the row.
    row: Turns,
    /// By process, whether it is in the row.
    listed: Vec<bool>,
}

impl Model for MailList {
    ghost use Rattle.ert_mail.specs.{Lists.IsRow, Turns.{TurnRow, row_code}};

    ghost Value = { TurnRow };

    ghost coded = { row_code };

    ghost view = { λ m. m.row };

    ghost invariant = { λ m. IsRow m.row m.listed.items };
}

impl MailList {
    ghost use Rattle.std.specs.Prelude.{◌≡◌, ◌<◌, ◌∷◌, [], false, IfOk, IfSome, IfNone, length};
    ghost use Rattle.std.specs.List.{range_with_len};
    ghost use Rattle.ert_defs.specs.Legal.{Legal};
    ghost use Rattle.ert_table.specs.{Calls.IsMade, Desks.{settings_of, view_of, front_of, state_of, Belongs}};
    ghost use Rattle.ert_mail.specs.{Turns.is_listed, Lists.{AreListed, CanLook, HaveMailFrom, IsNextIn, LooksForMail, exited_from, with_listed}};

    /// A list with every process below a number, in order.
    pub fn all(alloc: Global, processes: u32) -> Result<MailList, NoMemory>
        ensures { IfOk result (λ list. list ≡ record { bound = processes; held = range_with_len 0 processes }) }
    {
        let row = Turns::new(alloc, processes)?;
        let listed = vec![in alloc; true; processes as usize]?;
        Ok(MailList { row, listed })
    }

    /// Puts a process last, unless it is listed.
    pub fn put(&mut self, process: u32)
        requires { process < self.old.bound }
        ensures { self.new ≡ with_listed self.old process }
    {
        if self.listed[process as usize] {
            return;
        }
        self.listed[process as usize] = true;
        self.row.put(process);
    }

    /// Takes the first process out; None where none is listed.
    fn pick(&mut self) -> Option<u32>
        ensures none { IfNone result (self.new ≡ self.old) }
        ensures empty { IfNone result (self.old.held ≡ []) }
        ensures picked { IfSome result (λ process. self.old ≡ record self.new { held = process ∷ self.new.held }) }
        ensures away { IfSome result (λ process. is_listed self.new process ≡ false) }
        ensures in_range { IfSome result (λ process. process < self.old.bound) }
    {
        let process = self.row.pick_first()?;
        self.listed[process as usize] = false;
        Some(process)
    }

    /// The first process of the row that hasn't exited and whose mailbox has mail; None exactly where there is none. It is
    /// put last, so that each has its turn, and those before it leave the row. The mailboxes are those of the processes
    /// from `first` on, and the answer is counted from it.
    ///
    /// The caller looks whether the process whose turn it is has exited: then none of its messages can be taken, and it
    /// leaves the row.
    pub fn next(
        &mut self,
        desk: &Desk,
        pass: &mut Pass,
        by: u32,
        first: u32,
        mails: &[MailPart],
    ) -> Option<u32>
        requires belongs { Belongs desk.now pass.old }
        requires legal { Legal (settings_of desk.now) (front_of pass.old) }
        requires caller { CanLook (settings_of desk.now) (view_of pass.old) by first (length mails.now) }
        requires listed { AreListed (exited_from first (state_of desk.now pass.old).exited) self.old mails.now }
        requires mail { HaveMailFrom first (state_of desk.now pass.old) mails.now }
        ensures belongs { Belongs desk.now pass.new }
        ensures call { IsMade (settings_of desk.now) (view_of pass.old) (LooksForMail first by self.old.held result self.new.held) (view_of pass.new) }
        ensures listed { AreListed (exited_from first (state_of desk.now pass.new).exited) self.new mails.now }
        ensures bound { self.new.bound ≡ self.old.bound }
        ensures next { IsNextIn (exited_from first (state_of desk.now pass.new).exited) mails.now result }
    {
        while let Some(process) = self.pick() {
            if mails[process as usize].waiting() == 0 {
                continue;
            }
            if !pass.mark(desk, Actor::Caller(by), first + process, false) {
                self.put(process);
                return Some(process);
            }
        }
        None
    }
}
