//! The calls of a shard on the mailboxes of its processes.
use crate::mailing::may_get_mail;
use crate::shard::Shard;
use ert_defs::NoMemory;
use ert_mail::{MonitorErr, Taken};

impl Shard {
    ghost use Rattle.std.specs.Prelude.{◌+◌};
    ghost use Rattle.ert_effects.specs.MailCalls.{Takes, Monitors, Demonitors, Notifies};
    ghost use Rattle.ert_shard.specs.Shards.{ShardSteps, ShardBy, IsHome};

    /// Takes the first message of a process of the shard (`receive`): Exited where the process has exited, whatever
    /// it has, and Empty where it has none.
    pub fn take(&mut self, process: u32) -> Taken
        requires { IsHome self.old.share process }
        ensures { ShardSteps self.old (ShardBy self.old (λ g. Takes g (self.old.share.number + 1) process result)) self.new }
    {
        let by = self.number + 1;
        self.mails[(process - self.from) as usize].take(&self.desk, &mut self.pass, by)
    }

    /// Makes a monitor of the time offset for a process of the shard (`erlang` module reference, `monitor`, type
    /// `time_offset`), and gives its number.
    ///
    /// Full comes where 64 monitors of the process stand, or its last number was given. After a refusal nothing has
    /// changed.
    pub fn monitor(&mut self, process: u32) -> Result<u32, MonitorErr>
        requires { IsHome self.old.share process }
        ensures { ShardSteps self.old (ShardBy self.old (λ g. Monitors g (self.old.share.number + 1) process result)) self.new }
    {
        let by = self.number + 1;
        self.mails[(process - self.from) as usize].monitor(&self.desk, &mut self.pass, by)
    }

    /// Removes a monitor of a process of the shard (`demonitor`), and tells whether it stood.
    pub fn demonitor(&mut self, process: u32, monitor: u32) -> bool
        requires { IsHome self.old.share process }
        ensures { ShardSteps self.old (ShardBy self.old (λ g. Demonitors g (self.old.share.number + 1) process monitor result)) self.new }
    {
        let by = self.number + 1;
        let mail = &mut self.mails[(process - self.from) as usize];
        mail.demonitor(&self.desk, &mut self.pass, by, monitor)
    }

    /// Notifies a process of the shard of the time offset by one message for each monitor to which it is news, and answers
    /// how many there were (ERTS User's Guide, "Time Warp Modes": `CHANGE` messages).
    ///
    /// If memory runs out, nothing has changed.
    pub fn notify(&mut self, process: u32) -> Result<u32, NoMemory>
        requires { IsHome self.old.share process }
        ensures { ShardSteps self.old (ShardBy self.old (λ g. Notifies g (self.old.share.number + 1) process result)) self.new }
    {
        let by = self.number + 1;
        let place = process - self.from;
        may_get_mail(&mut self.list, place);
        self.mails[place as usize].notify(&self.desk, &mut self.pass, by)
    }
}
