//! Turns: what the scheduler of a wheel does, and then the messages for names are handed over.
ghost use Rattle.std.specs.Prelude.{◌≡◌, ℕ};
ghost use Rattle.ert_names.specs.{Fits.FitsRows, Handing.{TakesNext, timeout_of}};

use crate::named::{NamedMail, NamedTurn};
use crate::world::{NameWorld, REGISTRAR};
use ert_defs::{Mail, NoMemory, TimerRef};
use ert_mail::Taken;
use ert_world::World;

impl NameWorld {
    ghost use Rattle.std.specs.Prelude.{◌<◌};
    ghost use Rattle.ert_names.specs.{Calls.TurnsNamed, Handing.{HandsAll, HandsNext}};

    /// A turn of a scheduler, as `World::turn`, and then every message for a name goes to the named mail of
    /// the process that has the name now, in order. It is lost where no process has it.
    ///
    /// If memory runs out, what was done stays done, and the messages that weren't handed over wait for the
    /// next turn.
    pub fn turn(&mut self, sched: u32) -> Result<NamedTurn, NoMemory>
        requires { sched < self.old.world.settings.schedulers }
        ensures call { TurnsNamed self.old sched result self.new }
    {
        let turned = self.world.turn(sched)?;
        let (handed, lost) = self.hand_all()?;
        Ok(NamedTurn {
            turned,
            handed,
            lost,
        })
    }

    /// Hands over the messages for names until there is none, and answers how many were handed and how many
    /// were lost.
    fn hand_all(&mut self) -> Result<(u64, u64), NoMemory>
        ensures call { HandsAll self.old result self.new }
    {
        // That few messages wait is known of the world that is borrowed here.
        let _settings = self.world.settings();
        let mut handed = 0;
        let mut lost = 0;
        while let Some(was_handed) = self.hand_next()? {
            if was_handed {
                handed += 1;
            } else {
                lost += 1;
            }
        }
        Ok((handed, lost))
    }

    /// Hands over the first message for a name, and tells whether a process has the name; None where there is
    /// no message.
    ///
    /// If memory runs out, nothing has changed.
    fn hand_next(&mut self) -> Result<Option<bool>, NoMemory>
        ensures call { HandsNext self.old result self.new }
    {
        self.mail.reserve(1)?;
        let Some((timer, place)) = take_message(&mut self.world) else {
            return Ok(None);
        };
        let row = &self.rows[place as usize];
        let Some(process) = self.registry.process(row.name.as_str()) else {
            return Ok(Some(false));
        };
        self.mail.push_reserved((
            process,
            NamedMail {
                timer,
                msg: row.msg,
                kind: row.kind,
            },
        ));
        Ok(Some(true))
    }
}

/// Takes the first message of the registrar: the timer that sent it, and the place of its row.
fn take_message(world: &mut World) -> Option<(TimerRef, u64)>
    requires { (n : ℕ) × FitsRows n world.old }
    ensures call { (n : ℕ) → FitsRows n world.old → TakesNext n world.old result world.new }
{
    let taken = world.take(REGISTRAR);
    timeout_of(taken)
}

/// The timer and the message of what was taken, if it came from a wrapped timer.
fn timeout_of(taken: Taken) -> Option<(TimerRef, u64)>
    ensures { result ≡ timeout_of taken }
{
    match taken {
        Taken::Mail(Mail::Timeout { timer, msg }) => Some((timer, msg)),
        Taken::Mail(_) | Taken::Empty | Taken::Exited => None,
    }
}
