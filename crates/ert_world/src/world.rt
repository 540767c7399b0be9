ghost use Rattle.std.specs.Prelude.{IfOk};
ghost use Rattle.ert_defs.specs.Settings.{IsChecked};

use crate::opening::{open_inboxes, open_mails, open_scheds, open_wheels};
use crate::seat::Seat;
use crate::seat_err::SeatErr;
use ert_defs::{Actor, NoMemory, Settings};
use ert_mail::{InboxPart, MailList, MailPart};
use ert_table::{Desk, KeeperPart, Pass};
use ert_timers::{SchedPart, WheelPart};
use std::alloc::Global;
use std::marker::Model;
use std::sync::Arc;

/// Who makes the calls that no scheduler makes.
pub(crate) const CALLER: u32 = 0;

/// The clock and timer service: a share of a desk, the pass with every actor of it but the callers that have seats,
/// and every part.
///
/// The calls of schedulers are made by the scheduler that is named, and all others by caller 0.
///
///     let mut world = World::open(alloc, &SETTINGS)?;
///     assert!(rt; world.settings().schedulers == 1 && world.settings().processes == 1);
///     let start = Start { when: When::After(50), dest: 0, msg: 7, kind: Kind::Wrapped };
///     let timer = world.start(0, &start);             // on the wheel of scheduler 0, for process 0
///     let reading = Reading { mono: 50_000_000, sys: 50_000_000 };
///     let moved = world.tick(reading, false);         // the clock takes a reading
///     world.turn(0)?;                                 // the timer expires, and its message is delivered
///     let message = world.take(0);                    // Taken::Mail(Mail::Timeout { timer, msg: 7 })
#[derive(Drop)]
pub struct World {
    pub(crate) desk: Arc<Desk>,
    pub(crate) pass: Pass,
    pub(crate) keeper: KeeperPart,
    pub(crate) wheels: Vec<WheelPart>,
    pub(crate) inboxes: Vec<InboxPart>,
    pub(crate) mails: Vec<MailPart>,
    pub(crate) scheds: Vec<SchedPart>,
    /// The processes whose mailboxes may have mail, from the first `next_mail` on.
    pub(crate) list: Option<MailList>,
    /// The least caller that was given no seat.
    pub(crate) next: u32,
}

impl Model for World {
    ghost use Rattle.std.specs.{Arc.arc_value, Coded.codes};
    ghost use Rattle.ert_timers.specs.Parts.{part_code};
    ghost use Rattle.ert_mail.specs.Turns.{row_code};
    ghost use Rattle.ert_world.specs.{Parts.parts_of, Worlds.{Seen, seen, AreKept}};

    ghost Value = { Seen };

    ghost coded = { Prim.hlevel (codes, part_code, row_code) };

    ghost view = { λ w. seen (arc_value w.desk) w.pass w.next w.keeper w.wheels.items w.list };

    ghost invariant = { λ w. AreKept (arc_value w.desk) w.pass w.next (record (parts_of w.keeper w.wheels.items w.inboxes.items w.mails.items w.scheds.items) { turns = w.list }) };
}

impl World {
    ghost use Rattle.std.specs.Arc.{arc_value};
    ghost use Rattle.std.specs.Prelude.{◌≡◌, ◌+◌, IfErr, OnErr};
    ghost use Rattle.ert_defs.specs.Legal.{Legal};
    ghost use Rattle.ert_laws.specs.KeptLaws.{KeepsLaws};
    ghost use Rattle.ert_table.specs.Desks.{settings_of, KnowsAll};
    ghost use Rattle.ert_world.specs.{Openings.IsOpened, Seats.{GivesSeat, IsSeatRefused}, Worlds.StandsFor};

    /// Opens a service. Its history is empty, and no seat is given out.
    pub fn open(alloc: Global, settings: &Settings) -> Result<World, NoMemory>
        requires { IsChecked settings.now }
        ensures { IfOk result (IsOpened settings.now) }
    {
        let (desk, pass) = Desk::open(alloc, settings)?;
        let wheels = open_wheels(alloc, settings)?;
        let inboxes = open_inboxes(alloc, settings.schedulers)?;
        let mails = open_mails(alloc, settings.processes)?;
        let scheds = open_scheds(alloc, settings.schedulers)?;
        let Ok(desk) = Arc::new(alloc, desk) else {
            return Err(NoMemory);
        };
        Ok(World {
            desk,
            pass,
            keeper: KeeperPart::open(settings),
            wheels,
            inboxes,
            mails,
            scheds,
            list: None,
            next: CALLER + 1,
        })
    }

    /// Gives the next caller a seat: it can step as that caller from any thread, and the world no longer can.
    ///
    /// After a refusal nothing has changed.
    pub fn seat(&mut self, alloc: Global) -> Result<Box<Seat, Global>, SeatErr>
        ensures seat { IfOk result (λ seat. GivesSeat self.old self.new seat.value) }
        ensures refused { IfErr result (IsSeatRefused self.old) }
        ensures same { OnErr result (self.new ≡ self.old) }
    {
        let number = self.next;
        if number >= self.desk.settings().callers {
            return Err(SeatErr::NoSeat);
        }
        let Ok(desk) = Arc::try_clone(&self.desk) else {
            return Err(SeatErr::NoMemory);
        };
        let pass = self.pass.split(&self.desk, Actor::Caller(number));
        match Box::new(alloc, Seat { desk, pass, number }) {
            Ok(seat) => {
                self.next = number + 1;
                Ok(seat)
            }
            Err(failed) => {
                let Seat { pass, .. } = failed.value;
                self.pass.join(&self.desk, pass);
                Err(SeatErr::NoMemory)
            }
        }
    }

    /// How many seats were given out: callers 1 to this number have one.
    pub fn seats(&self) -> u32
        ensures { result + 1 ≡ self.now.next }
    {
        self.next - 1
    }

    /// The settings that the service was opened with, by which its history is legal.
    pub fn settings(&self) -> &Settings
        ensures value { result.now ≡ self.now.settings }
        ensures stands { StandsFor self.now.settings self.now.history self.now }
        ensures legal { Legal self.now.settings self.now.history }
    {
        self.desk.settings()
    }

    /// The last published time: monotonic time, in nanoseconds, without an entry of its own.
    pub fn published(&self) -> i64
        ensures { result ≡ self.now.clock.face.time }
    {
        self.keeper.clock().now()
    }

    /// Ends the service, of which no seat was given out, and gives out its share of the desk and the pass with every
    /// actor. Its history is legal, and keeps the laws of time, of timers and of mail.
    pub fn into_desk(self) -> (Arc<Desk>, Pass)
        requires { self.next ≡ 1 }
        ensures settings { settings_of (arc_value result.0) ≡ self.settings }
        ensures history { KnowsAll (arc_value result.0) result.1 self.history }
        ensures laws { KeepsLaws self.settings self.history }
    {
        let World { desk, pass, .. } = self;
        (desk, pass)
    }
}
