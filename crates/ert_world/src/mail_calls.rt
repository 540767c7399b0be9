//! The calls of callers on mailboxes and inboxes.
use crate::mailing::may_get_mail;
use crate::world::{CALLER, World};
use ert_defs::{NoMemory, Request};
use ert_mail::{MonitorErr, Taken};

impl World {
    ghost use Rattle.std.specs.Prelude.{◌≡◌, ◌<◌};
    ghost use Rattle.ert_effects.specs.{MailCalls.{Takes, Monitors, Demonitors, Notifies}, RequestCalls.{Asks, inbox_for}};
    ghost use Rattle.ert_world.specs.Worlds.{Goes, By};

    /// Asks the scheduler of a timer to cancel or to read it (`erlang` module reference, `cancel_timer` and
    /// `read_timer`, option `async`). A reference of no wheel goes to the first scheduler.
    ///
    /// If memory runs out, nothing has changed.
    pub fn ask(&mut self, request: Request) -> Result<(), NoMemory>
        requires { request.reply_to < self.old.settings.processes }
        ensures call { Goes self.old (By self.old (λ g. Asks g 0 (inbox_for g request) request result)) self.new }
    {
        let wheel = self.inbox_for(&request);
        self.inboxes[wheel as usize].ask(&self.desk, &mut self.pass, CALLER, request)
    }

    /// The number of the inbox that a request goes to.
    fn inbox_for(&self, request: &Request) -> u32
        ensures value { result ≡ inbox_for self.now.settings request.now }
        ensures in_range { result < self.now.settings.schedulers }
    {
        request.inbox(self.desk.settings())
    }

    /// Takes the first message of a process (`receive`): Exited where the process has exited, whatever it
    /// has, and Empty where it has none.
    pub fn take(&mut self, process: u32) -> Taken
        requires { process < self.old.settings.processes }
        ensures call { Goes self.old (By self.old (λ g. Takes g 0 process result)) self.new }
    {
        self.mails[process as usize].take(&self.desk, &mut self.pass, CALLER)
    }

    /// Makes a monitor of the time offset for a process (`erlang` module reference, `monitor`, type
    /// `time_offset`), and gives its number.
    ///
    /// Full comes where 64 monitors of the process stand, or its last number was given. After a refusal
    /// nothing has changed.
    pub fn monitor(&mut self, process: u32) -> Result<u32, MonitorErr>
        requires { process < self.old.settings.processes }
        ensures call { Goes self.old (By self.old (λ g. Monitors g 0 process result)) self.new }
    {
        self.mails[process as usize].monitor(&self.desk, &mut self.pass, CALLER)
    }

    /// Removes a monitor (`demonitor`), and tells whether it stood.
    pub fn demonitor(&mut self, process: u32, monitor: u32) -> bool
        requires { process < self.old.settings.processes }
        ensures call { Goes self.old (By self.old (λ g. Demonitors g 0 process monitor result)) self.new }
    {
        self.mails[process as usize].demonitor(&self.desk, &mut self.pass, CALLER, monitor)
    }

    /// Notifies a process of the time offset by one message for each monitor to which it is news, and answers how
    /// many there were (ERTS User's Guide, "Time Warp Modes": `CHANGE` messages).
    ///
    /// If memory runs out, nothing has changed.
    pub fn notify(&mut self, process: u32) -> Result<u32, NoMemory>
        requires { process < self.old.settings.processes }
        ensures call { Goes self.old (By self.old (λ g. Notifies g 0 process result)) self.new }
    {
        may_get_mail(&mut self.list, process);
        self.mails[process as usize].notify(&self.desk, &mut self.pass, CALLER)
    }
}
