//! Timers that are started for a name, and the named mail that comes of them.
use crate::named::{NamedMail, NamedRow, NamedTaken};
use crate::world::{NameWorld, REGISTRAR};
use ert_defs::{Kind, Start, TimerRef, When};
use ert_timers::StartErr;

impl NameWorld {
    ghost use Rattle.std.specs.Prelude.{◌≡◌, ◌<◌, Err};
    ghost use Rattle.ert_effects.specs.declared.answers.StartErr.TheVariants.{Full};
    ghost use Rattle.ert_world.specs.Frees.{IsUsedUpAt};
    ghost use Rattle.ert_names.specs.Calls.{StartsNamed, TakesNamed, IsPlace, first_for, others_for};

    /// Starts a timer on a wheel for a name: when it expires, its message goes to the process that has the
    /// name at the turn that hands it over. No process needs to have the name now, and it may be any text.
    ///
    /// It is refused as `World::start` is, and then no row is kept. If memory runs out, nothing has changed.
    pub fn start_named(
        &mut self,
        wheel: u32,
        when: When,
        name: &str,
        msg: u64,
        kind: Kind,
    ) -> Result<TimerRef, StartErr>
        requires { wheel < self.old.world.settings.schedulers }
        ensures call { StartsNamed self.old wheel when (record { name = name.now; msg = msg; kind = kind }) result self.new }
        ensures full { result ≡ Err Full → IsUsedUpAt self.old.world self.new.world wheel }
    {
        let Ok(name) = name.to_string(self.alloc) else {
            return Err(StartErr::NoMemory);
        };
        let Ok(()) = self.rows.reserve(1) else {
            return Err(StartErr::NoMemory);
        };
        let start = Start {
            when,
            dest: REGISTRAR,
            msg: self.rows.len() as u64,
            kind: Kind::Wrapped,
        };
        let timer = self.world.start(wheel, &start)?;
        self.rows.push_reserved(NamedRow { name, msg, kind });
        Ok(timer)
    }

    /// Takes the first named mail of a process: Exited where the process has exited, whatever it has, and
    /// Empty where it has none. It goes over the mail that waits for all processes.
    pub fn take_named(&mut self, process: u32) -> NamedTaken
        requires { process < self.old.world.settings.processes }
        ensures call { TakesNamed self.old process result self.new }
    {
        if !self.world.is_alive(process) {
            return NamedTaken::Exited;
        }
        match self.first_mail(process) {
            Some(mail) => NamedTaken::Mail(mail),
            None => NamedTaken::Empty,
        }
    }

    /// Takes the first mail of a process out of all that waits.
    fn first_mail(&mut self, process: u32) -> Option<NamedMail>
        ensures value { result ≡ first_for process self.old.mail }
        ensures mail { self.new ≡ record self.old { mail = others_for process self.old.mail } }
    {
        let place = self.first_place(process)?;
        Some(self.mail.remove(place).1)
    }

    /// The place of the first mail of a process among all that waits.
    fn first_place(&self, process: u32) -> Option<usize>
        ensures { IsPlace process self.now.mail result }
    {
        for place in 0..self.mail.len() {
            if self.mail[place].0 == process {
                return Some(place);
            }
        }
        None
    }
}
