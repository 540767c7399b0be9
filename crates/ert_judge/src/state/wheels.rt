ghost use Rattle.std.specs.Prelude.{◌≡◌, ◌==◌, ◌↔◌, ◌≤ℤ◌, ℕ, pos, IsTrue, true, OnOk, OnErr, IsSome, if◌then◌else◌};
ghost use Rattle.std.specs.{BTreeMap.get, Ordering.nat_cmp};
ghost use Rattle.ert_judge.specs.Indexes.{PutsPlace, Sets, kept_at};

use crate::state::lists::push;
use crate::state::uses::Uses;
use ert_defs::{NoMemory, Status, TimerRef, TimerRow};
use std::alloc::Global;
use std::collections::{BTreeMap, BTreeSet};
use std::marker::Model;

/// A timer of a wheel.
#[derive(Clone, Copy, PartialEq, Eq)]
pub struct Timer {
    pub row: TimerRow,
    pub status: Status,
}

/// The timers of one wheel, in order of arming, with what finds them. None of them is ever taken off.
#[derive(Drop)]
pub struct Wheel {
    timers: Vec<Timer>,
    /// The place of each timer, by its slot and its generation. A place may stand here for which there was
    /// no memory for the timer itself.
    places: BTreeMap<(u32, u64), usize>,
    /// The uses of each slot. A slot that isn't here had no timer.
    slots: BTreeMap<u32, Uses>,
    /// The deadline and the place of each armed timer.
    armed: BTreeSet<(u64, usize)>,
}

impl Model for Wheel {
    ghost use Rattle.std.specs.Prelude.{List};
    ghost use Rattle.ert_judge.specs.{declared.state.wheels.Timer.Timer, Indexes.IsIndexed};

    ghost Value = { List Timer };

    ghost view = { λ w. w.timers.items };

    ghost invariant = { λ w. IsIndexed w.timers.items w.places w.slots w.armed };
}

impl Wheel {
    ghost use Rattle.std.specs.Prelude.{◌≡◌, ◌≢◌, ◌≤◌, ◌++◌, ◌∷◌, [], OnOk, OnErr, MatchOption, slice_get, length, ◌↔◌, IsTrue, nat_le, true};
    ghost use Rattle.ert_judge.specs.{Wheels.{timer_in, is_settled, moved, IsFirstDue}, Uses.{uses_of, uses_in, IsNewUse}, Indexes.{IsUnknown, StandsAt, HasNoneBefore, IsFirstArmed}};

    /// A wheel with no timers.
    pub fn new(alloc: Global) -> Wheel
        ensures { result ≡ [] }
    {
        Wheel {
            timers: Vec::new(alloc),
            places: BTreeMap::new(alloc),
            slots: BTreeMap::new(alloc),
            armed: BTreeSet::new(alloc),
        }
    }

    /// The place of a reference's timer, and the timer.
    fn locate(&self, wanted: TimerRef) -> Option<(usize, Timer)>
        ensures { MatchOption result (IsUnknown self.now wanted) (λ found. StandsAt self.now wanted found.0 found.1) }
    {
        let place = *self.places.get(&(wanted.slot, wanted.generation))?;
        let timer = *self.timers.get(place)?;
        if timer.row.timer == wanted {
            Some((place, timer))
        } else {
            None
        }
    }

    /// The timer of a reference.
    pub fn find(&self, timer: TimerRef) -> Option<Timer>
        ensures { result ≡ timer_in self.now timer }
    {
        let (_, found) = self.locate(timer)?;
        Some(found)
    }

    /// How many timers there are.
    pub fn count(&self) -> usize
        ensures { result ≡ length self.now }
    {
        self.timers.len()
    }

    /// The uses of a slot.
    pub fn uses(&self, slot: u32) -> Uses
        ensures { uses_of result ≡ uses_in self.now slot }
    {
        match self.slots.get(&slot) {
            Some(uses) => *uses,
            None => Uses::none(),
        }
    }

    /// The first of the armed timers, by deadline and then by arming.
    pub fn first_armed(&self) -> Option<Timer>
        ensures { MatchOption result (is_settled (λ d. true) self.now ≡ true) (IsFirstArmed self.now) }
    {
        let first = self.armed.first()?;
        Some(self.timers[first.1])
    }

    /// Whether a timer is due by this many milliseconds, and no armed one comes before it.
    pub fn is_first(&self, timer: TimerRef, now: i128) -> bool
        ensures { IsTrue result ↔ IsFirstDue self.now timer now }
    {
        match self.locate(timer) {
            Some((place, found)) => is_due(found, now) && self.has_none_before(place, found),
            None => false,
        }
    }

    /// Whether no armed timer comes before that at a place, by deadline and then by arming: the first tells.
    fn has_none_before(&self, place: usize, timer: Timer) -> bool
        requires { slice_get self.now place ≡ Some timer }
        ensures { IsTrue result ↔ HasNoneBefore self.now place timer.row.deadline }
    {
        let deadline = timer.row.deadline;
        match self.armed.first() {
            Some(first) => deadline < first.0 || (deadline == first.0 && place <= first.1),
            None => true,
        }
    }

    /// Puts an armed timer last. No timer of its slot has its generation, and its deadline is within the
    /// limits; without memory for it the timers stay as they were.
    pub fn arm(&mut self, row: TimerRow) -> Result<(), NoMemory>
        requires new { IsNewUse self.old row.timer.slot row.timer.generation }
        requires low { row.deadline ≤ 8796093022207 }
        ensures armed { OnOk result (self.new ≡ self.old ++ (record { row = row; status = Status.Armed }) ∷ []) }
        ensures kept { OnErr result (self.new ≡ self.old) }
    {
        let place = self.timers.len();
        let timer = Timer {
            row,
            status: Status::Armed,
        };
        let uses = self.uses(row.timer.slot).with(&row);
        make_room(&mut self.slots, row.timer.slot)?;
        put_place(&mut self.places, row.timer, place)?;
        push(&mut self.timers, timer)?;
        match put_armed(&mut self.armed, row.deadline, place) {
            Ok(()) => {
                put_uses(&mut self.slots, row.timer.slot, uses);
                Ok(())
            }
            Err(error) => {
                self.timers.pop();
                Err(error)
            }
        }
    }

    /// Moves a timer from one status to another, where it has the first. No timer is armed again.
    pub fn settle(&mut self, timer: TimerRef, from: Status, to: Status)
        requires { to ≢ Status.Armed }
        ensures { self.new ≡ moved timer from to self.old }
    {
        let Some((place, found)) = self.locate(timer) else {
            return;
        };
        if found.status == from {
            self.timers[place].status = to;
            self.armed.remove(&(found.row.deadline, place));
        }
    }
}

/// Whether a timer is due by this many milliseconds.
fn is_due(timer: Timer, now: i128) -> bool
    ensures { IsTrue result ↔ (pos timer.row.deadline ≤ℤ now) }
{
    timer.row.deadline as i128 <= now
}

/// Makes room for the uses of a slot.
fn make_room(slots: &mut BTreeMap<u32, Uses>, slot: u32) -> Result<(), NoMemory>
    ensures room { OnOk result (IsSome (get nat_cmp slots.new slot)) }
    ensures kept { (k : ℕ) → kept_at slots.new k ≡ kept_at slots.old k }
{
    if slots.contains_key(&slot) {
        return Ok(());
    }
    match slots.insert(slot, Uses::none()) {
        Ok(_) => Ok(()),
        Err(_) => Err(NoMemory),
    }
}

/// Puts the uses of a slot for which there is room.
fn put_uses(slots: &mut BTreeMap<u32, Uses>, slot: u32, uses: Uses)
    requires { IsSome (get nat_cmp slots.old slot) }
    ensures { (k : ℕ) → kept_at slots.new k ≡ (if slot == k then uses else kept_at slots.old k) }
{
    if let Some(kept) = slots.get_mut(&slot) {
        *kept = uses;
    }
}

/// Puts the place of a timer among those by slot and generation. Without memory these stay as they were.
fn put_place(
    places: &mut BTreeMap<(u32, u64), usize>,
    timer: TimerRef,
    place: usize,
) -> Result<(), NoMemory>
    ensures put { OnOk result (PutsPlace places.old places.new timer.slot timer.generation place) }
    ensures kept { OnErr result (places.new.entries ≡ places.old.entries) }
{
    match places.insert((timer.slot, timer.generation), place) {
        Ok(_) => Ok(()),
        Err(_) => Err(NoMemory),
    }
}

/// Puts the deadline and the place of an armed timer among those of the others. Without memory these stay as
/// they were.
fn put_armed(
    armed: &mut BTreeSet<(u64, usize)>,
    deadline: u64,
    place: usize,
) -> Result<(), NoMemory>
    ensures put { OnOk result (Sets armed.old armed.new deadline place true) }
    ensures kept { OnErr result (armed.new.keys ≡ armed.old.keys) }
{
    match armed.insert((deadline, place)) {
        Ok(_) => Ok(()),
        Err(_) => Err(NoMemory),
    }
}
