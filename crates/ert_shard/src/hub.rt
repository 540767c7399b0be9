//! What is left of a world that is divided: the clock, and what was given to no shard.
ghost use Rattle.std.specs.Prelude.{◌≡◌};

use ert_defs::Settings;
use ert_mail::{InboxPart, MailPart};
use ert_table::{Desk, KeeperPart, Pass};
use ert_timers::{SchedPart, WheelPart};
use ert_world::{Parts, World};
use std::marker::Model;
use std::sync::Arc;

/// Which processes a shard had: those from one on, below another.
#[derive(Clone, Copy)]
pub(crate) struct Home {
    pub(crate) from: u32,
    pub(crate) to: u32,
}

impl Home {
    ghost use Rattle.std.specs.Prelude.{◌≤◌, ◌↔◌, IsTrue};

    /// Whether these are among the processes from one on, below another.
    pub(crate) fn is_within(&self, from: u32, to: u32) -> bool
        ensures { IsTrue result ↔ ((from ≤ self.now.from) × (self.now.to ≤ to)) }
    {
        from <= self.from && self.to <= to
    }
}

/// What is left of a world: its clock with caller 0, the callers that no scheduler and no seat has, and the schedulers and
/// the processes that were given to no shard, each from 0 on.
///
/// Shards are cut from its end: the last scheduler and the last processes go to the next shard, and the last shard that
/// was given comes back first (`join_all` takes them in this order). There is room for all of them. One thread at a time
/// has the hub and ticks, beside all shards. There are 64 unused bytes at each end, as in a shard: a tick writes no cache
/// line that a shard reads, but for the words of the desk.
#[derive(Drop)]
pub struct Hub {
    pub(crate) before: [u64; 8],
    pub(crate) desk: Arc<Desk>,
    pub(crate) pass: Pass,
    pub(crate) keeper: KeeperPart,
    pub(crate) wheels: Vec<WheelPart>,
    pub(crate) inboxes: Vec<InboxPart>,
    pub(crate) mails: Vec<MailPart>,
    pub(crate) scheds: Vec<SchedPart>,
    /// How many schedulers and how many processes are left.
    pub(crate) left: u32,
    pub(crate) first: u32,
    /// The least caller after those of the schedulers that was given no seat.
    pub(crate) next: u32,
    /// Which processes the shards had that came back: for the last of the schedulers that are left.
    pub(crate) homes: Vec<Home>,
    pub(crate) after: [u64; 8],
}

impl Model for Hub {
    ghost use Rattle.std.specs.Prelude.{◌+◌, ◌-◌, ◌≤◌};
    ghost use Rattle.std.specs.{Arc.arc_value, Vec.{vec_len, vec_capacity}};
    ghost use Rattle.ert_table.specs.Desks.{settings_of};
    ghost use Rattle.ert_world.specs.Parts.{parts_of};
    ghost use Rattle.ert_shard.specs.Hubs.{Rest, rest, IsRest, HasRoomForAll};

    ghost Value = { Rest };

    ghost view = { λ h. rest (arc_value h.desk) h.pass h.keeper h.left h.first h.next h.homes.items };

    ghost invariant = { λ h. IsRest (arc_value h.desk) h.pass h.left h.first h.next h.homes.items (parts_of h.keeper h.wheels.items h.inboxes.items h.mails.items h.scheds.items)
        × HasRoomForAll (settings_of (arc_value h.desk)) (vec_capacity h.wheels) (vec_capacity h.inboxes) (vec_capacity h.mails) (vec_capacity h.scheds)
        × (vec_len h.homes + ((settings_of (arc_value h.desk)).schedulers - h.left) ≤ vec_capacity h.homes) };
}

impl Hub {
    ghost use Rattle.std.specs.Prelude.{◌≡◌, ◌+◌, ◌<◌};
    ghost use Rattle.ert_shard.specs.Hubs.{IsFresh, IsWorldAgain};

    /// What is left of a world that gave out no seat: all of it. There is a caller for each scheduler, and one more.
    pub fn new(world: World) -> Hub
        requires lone { world.next ≡ 1 }
        requires callers { world.settings.schedulers < world.settings.callers }
        ensures { IsFresh world result }
    {
        let Parts {
            desk,
            pass,
            keeper,
            wheels,
            inboxes,
            mails,
            scheds,
            settings,
        } = world.into_parts();
        let homes = Vec::new(*wheels.allocator());
        Hub {
            before: [0; 8],
            desk,
            pass,
            keeper,
            wheels,
            inboxes,
            mails,
            scheds,
            left: settings.schedulers,
            first: settings.processes,
            next: settings.schedulers + 1,
            homes,
            after: [0; 8],
        }
    }

    /// The settings that the service was opened with.
    pub fn settings(&self) -> &Settings
        ensures { result.now ≡ self.now.settings }
    {
        self.desk.settings()
    }

    /// How many schedulers are left: the next shard gets the last of them.
    pub fn schedulers_left(&self) -> u32
        ensures { result ≡ self.now.left }
    {
        self.left
    }

    /// How many processes are left: the next shard gets the last of them.
    pub fn processes_left(&self) -> u32
        ensures { result ≡ self.now.first }
    {
        self.first
    }

    /// The world again, once every scheduler and every process is back, where no seat was given.
    pub fn into_world(self) -> World
        requires schedulers { self.left ≡ self.settings.schedulers }
        requires processes { self.first ≡ self.settings.processes }
        requires seats { self.next ≡ self.settings.schedulers + 1 }
        ensures { IsWorldAgain self result }
    {
        let settings = *self.desk.settings();
        World::from_parts(Parts {
            settings,
            desk: self.desk,
            pass: self.pass,
            keeper: self.keeper,
            wheels: self.wheels,
            inboxes: self.inboxes,
            mails: self.mails,
            scheds: self.scheds,
        })
    }
}

fn crosses<T: Send>(_: &T) {}

/// A hub may go to another thread.
fn _may_cross(hub: &Hub) {
    crosses(hub);
}
