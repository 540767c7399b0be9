//! The calls of a shard that find a process with mail, and take several messages.
ghost use Rattle.std.specs.Prelude.{◌≡◌, ◌<◌, IfSome, option_map};
ghost use Rattle.ert_mail.specs.Lists.{with_listed};

use crate::shard::Shard;
use ert_defs::{Mail, NoMemory};
use ert_mail::{MailList, Taken};
use ert_world::TakeEnd;

/// Lists a process whose mailbox may get mail, counted from the first of the shard.
pub(crate) fn may_get_mail(list: &mut Option<MailList>, place: u32)
    requires { IfSome list.old (λ row. place < row.bound) }
    ensures { list.new ≡ option_map (λ row. with_listed row place) list.old }
{
    if let Some(list) = list {
        list.put(place);
    }
}

impl Shard {
    ghost use Rattle.std.specs.Prelude.{◌≡◌, ◌+◌, ◌≤◌, None, IfOk, OnErr, vec_len};
    ghost use Rattle.std.specs.Vec.{vec_capacity};
    ghost use Rattle.ert_shard.specs.{Receiving.{ShardFindsMail, ShardTakesInto}, Shards.IsHome};

    /// A process of the shard that hasn't exited and whose mailbox has mail; None exactly where there is none. Each has its
    /// turn: the next call tells another, where another has mail. The messages of one that has exited can't be taken, and
    /// it isn't told.
    ///
    /// The shard's caller looks whether the process whose turn it is has exited. The work is constant, amortized: one step
    /// for each process whose mailbox got mail since it was found empty or exited. The first call of a shard makes the
    /// list, with a step and 5 bytes for each of its processes; later calls take no memory. If memory runs out, nothing
    /// has changed.
    pub fn next_mail(&mut self) -> Result<Option<u32>, NoMemory>
        ensures next { IfOk result (λ answer. ShardFindsMail self.old answer self.new) }
        ensures memory { OnErr result ((self.old.turns ≡ None) × (self.new ≡ self.old)) }
    {
        let mut list = match self.list.take() {
            Some(list) => list,
            None => MailList::all(*self.mails.allocator(), self.to - self.from)?,
        };
        let by = self.number + 1;
        let next = list.next(&self.desk, &mut self.pass, by, self.from, &self.mails);
        self.list = Some(list);
        match next {
            Some(place) => Ok(Some(self.from + place)),
            None => Ok(None),
        }
    }

    /// Takes the first messages of a process of the shard (`receive`), so many at most, and puts them last into a vector
    /// with room for them. It ends with the first take that finds the mailbox empty, or that the process has exited, and
    /// tells that. No memory is taken.
    pub fn take_some(&mut self, process: u32, most: usize, mails: &mut Vec<Mail>) -> TakeEnd
        requires process { IsHome self.old.share process }
        requires room { vec_len mails.old + most ≤ vec_capacity mails.old }
        ensures { ShardTakesInto self.old process most mails.old.items mails.new.items result self.new }
    {
        self.keeps_laws();
        let mut taken = 0;
        while taken < most {
            match self.take(process) {
                Taken::Mail(mail) => mails.push_reserved(mail),
                Taken::Empty => return TakeEnd::Empty,
                Taken::Exited => return TakeEnd::Exited,
            }
            taken += 1;
        }
        TakeEnd::Most
    }
}
