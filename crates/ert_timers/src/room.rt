//! How much room a wheel has.
ghost use Rattle.std.specs.Prelude.{◌≡◌};
ghost use Rattle.ert_effects.specs.RoomCalls.{sooner};
ghost use Rattle.ert_timers.specs.Rooms.{first_with};

use crate::looking::look_down;
use crate::part::WheelPart;
use crate::starting::{MOST_TIMERS, is_taken};
use ert_defs::Actor;
use ert_effects::Room;
use ert_table::{Desk, Pass, TimerCarry};

/// What is known before any slot was looked at, and where no slot can ever take a timer.
const NO_ROOM: Room = Room {
    free: 0,
    ready: None,
};

impl WheelPart {
    ghost use Rattle.std.specs.Prelude.{◌≡◌, ◌<◌, ◌≤◌, ◌+◌, length, unwrap_or};
    ghost use Rattle.ert_effects.specs.RoomCalls.{TellsRoom};
    ghost use Rattle.ert_table.specs.{Calls.IsMade, Desks.{settings_of, view_of, front_of, state_of, Belongs}};
    ghost use Rattle.ert_timers.specs.{Parts.{HoldsCaller, PartStands}, Rooms.{FindsFree, SeesSlot, SeesAll}, Searching.HasOpenSlot};

    /// Looks at the time and at every slot: how many slots can take a timer now, and from when on one more
    /// can that rests and isn't taken. A wheel that has had 2^53 timers takes no more.
    ///
    /// Each slot is looked at once, in order. The next start that finds none held free looks at the first of those that can
    /// take a timer: so it isn't `Full` where there is one. No memory is taken.
    pub fn room(&mut self, desk: &Desk, pass: &mut Pass, by: u32) -> Room
        requires belongs { Belongs desk.now pass.old }
        requires holds { HoldsCaller (settings_of desk.now) (view_of pass.old) by self.old.number }
        requires stands { PartStands (settings_of desk.now) (front_of pass.old) self.old }
        ensures belongs { Belongs desk.now pass.new }
        ensures stands { PartStands (settings_of desk.now) (front_of pass.new) self.new }
        ensures call { IsMade (settings_of desk.now) (view_of pass.old) (TellsRoom (settings_of desk.now) by self.old.number result) (view_of pass.new) }
        ensures part { self.new ≡ record self.old { next_look = self.new.next_look } }
        ensures ready { 1 ≤ result.free → HasOpenSlot (settings_of desk.now) (state_of desk.now pass.new) self.new }
    {
        let (room, first) = self.see_slots(desk, pass, by);
        self.begin_next_look_at(first);
        if self.arms() < MOST_TIMERS {
            room
        } else {
            NO_ROOM
        }
    }

    /// Lets the next look for a free slot begin at this one, where there is one.
    fn begin_next_look_at(&mut self, first: Option<u32>)
        ensures { self.new ≡ record self.old { next_look = unwrap_or first self.old.next_look } }
    {
        if let Some(slot) = first {
            self.set_next_look(slot);
        }
    }

    /// Looks at the time and at every slot, and tells what is known by that, and the first slot that can take a timer.
    fn see_slots(&self, desk: &Desk, pass: &mut Pass, by: u32) -> (Room, Option<u32>)
        requires belongs { Belongs desk.now pass.old }
        requires holds { HoldsCaller (settings_of desk.now) (view_of pass.old) by self.now.number }
        requires stands { PartStands (settings_of desk.now) (front_of pass.old) self.now }
        ensures belongs { Belongs desk.now pass.new }
        ensures call { SeesAll (settings_of desk.now) (view_of pass.old) by self.now result.0 (view_of pass.new) }
        ensures first { FindsFree (settings_of desk.now) (state_of desk.now pass.new) self.now result.0 result.1 }
    {
        let now = look_down(desk, pass, Actor::Caller(by));
        let mut room = NO_ROOM;
        let mut first = None;
        for slot in 0..self.slot_count() {
            room = self.see_slot(desk, pass, by, slot, now, room);
            first = first_with(first, slot, room.free);
        }
        (room, first)
    }

    /// Looks at a slot: what is known with it, at a time in milliseconds after the start time.
    fn see_slot(
        &self,
        desk: &Desk,
        pass: &mut Pass,
        by: u32,
        slot: u32,
        now: u64,
        before: Room,
    ) -> Room
        requires belongs { Belongs desk.now pass.old }
        requires holds { HoldsCaller (settings_of desk.now) (view_of pass.old) by self.now.number }
        requires stands { PartStands (settings_of desk.now) (front_of pass.old) self.now }
        requires low { slot < length self.now.slots }
        requires few { before.free ≤ slot }
        ensures belongs { Belongs desk.now pass.new }
        ensures call { SeesSlot (settings_of desk.now) (view_of pass.old) by now self.now slot before result (view_of pass.new) }
        ensures few { result.free ≤ slot + 1 }
    {
        let wheel = self.number();
        let carry = TimerCarry::Probe { wheel, slot };
        let shown = pass.load_timer(desk, Actor::Caller(by), &carry);
        if is_taken(shown) {
            return before;
        }
        if self.is_resting(slot, now) {
            return Room {
                free: before.free,
                ready: sooner(self.above(slot), before.ready),
            };
        }
        Room {
            free: before.free + 1,
            ready: before.ready,
        }
    }
}

/// The first slot that was found free, by the first before it, and how many were with it.
fn first_with(first: Option<u32>, slot: u32, free: u32) -> Option<u32>
    ensures { result ≡ first_with first slot free }
{
    if first.is_none() && free > 0 {
        Some(slot)
    } else {
        first
    }
}

/// The lesser of two times, where there are two.
fn sooner(time: u64, other: Option<u64>) -> Option<u64>
    ensures { result ≡ sooner time other }
{
    match other {
        None => Some(time),
        Some(other) => Some(time.min(other)),
    }
}
