//! The parts of one kind, each behind a lock of its own.
ghost use Rattle.std.specs.Prelude.{◌≡◌, ◌<◌, ◌≤◌, [], vec_len, slice_set, Some, IfOk};
ghost use Rattle.std.specs.Vec.{vec_capacity};
ghost use Rattle.ert_service.specs.Gathering.{AreEmpty, somes};

use crossbeam_utils::CachePadded;
use ert_defs::NoMemory;
use ert_locks::{DeskName, DeskPart, Locked};
use ert_table::{Desk, Pass};
use std::alloc::Global;
use std::sync::{Mutex, MutexGuard, Wait};

/// A lock on cache lines of its own, so that threads at different parts don't write lines of each other's.
pub(crate) type PaddedLock<T> = CachePadded<Mutex<T>>;

/// The locks of all parts of a kind; and empty places and an empty vector with room for the parts, so that to
/// close the service takes no memory.
#[derive(Drop)]
pub(crate) struct Room<P: DeskPart + Drop, L: DeskName> {
    locks: Vec<PaddedLock<Locked<P, L>>>,
    places: Vec<Option<P>>,
    parts: Vec<P>,
    ghost counted: { vec_len locks ≡ P.kind.count L.settings },
    ghost no_place: { AreEmpty (P.kind.count L.settings) places.items },
    ghost no_part: { parts.items ≡ [] },
    ghost room: { P.kind.count L.settings ≤ vec_capacity parts },
}

impl<P: DeskPart + Drop, L: DeskName> Room<P, L> {
    ghost use Rattle.std.specs.Prelude.{◌≡◌, ◌<◌, ℕ, true, IfOk};
    ghost use Rattle.std.specs.Sync.Mutex.{mutex_guard_value};
    ghost use Rattle.ert_defs.specs.Legal.{Legal};
    ghost use Rattle.ert_locks.specs.Names.{IsDesk};
    ghost use Rattle.ert_service.specs.{Dividing.{AreFirst, KeepsBut}, Gathering.{AreIn, IsSeen}};
    ghost use Rattle.ert_table.specs.{Desks.{actors_of, front_of, view_of, Belongs}, Held.is_held};

    /// Gives each part its lock, with the pass that has its actor.
    pub(crate) fn lock_all(
        alloc: Global,
        desk: &Desk,
        pass: &mut Pass,
        parts: Vec<P>,
    ) -> Result<Room<P, L>, NoMemory>
        requires desk { IsDesk L.table L.settings desk.now }
        requires belongs { Belongs desk.now pass.old }
        requires parts { AreFirst P.kind L.settings (P.kind.count L.settings) (front_of pass.old) parts.items }
        requires held { (i : ℕ) → i < P.kind.count L.settings → is_held (actors_of pass.old) (P.kind.actor i) ≡ true }
        ensures belongs { Belongs desk.now pass.new }
        ensures front { front_of pass.new ≡ front_of pass.old }
        ensures kept { KeepsBut P.kind.actor (actors_of pass.old) (actors_of pass.new) }
    {
        let places = empty_places(alloc, parts.len())?;
        let room = Vec::with_capacity(alloc, parts.len())?;
        let mut locks = Vec::with_capacity(alloc, parts.len())?;
        for part in parts {
            let own = pass.split(desk, part.own_actor());
            locks.push_reserved(CachePadded::new(Mutex::new(Locked::new(part, own))));
        }
        Ok(Room {
            locks,
            places,
            parts: room,
        })
    }

    /// Waits for the lock of the part with this number.
    pub(crate) fn at<R: Wait>(&self, rt: &R, number: u32) -> MutexGuard<'_, Locked<P, L>>
        requires { number < P.kind.count L.settings }
        ensures { mutex_guard_value result ≡ number }
    {
        for _ in rt.forever() {
            let locked = self.locks[number as usize].lock(rt);
            if locked.number() == number {
                return locked;
            }
        }
        unreachable!()
    }

    /// Takes the parts from their locks, joins their passes, and puts them in order of number.
    pub(crate) fn gather_all(self, desk: &Desk, pass: &mut Pass) -> Vec<P>
        requires desk { IsDesk L.table L.settings desk.now }
        requires belongs { Belongs desk.now pass.old }
        requires legal { Legal L.settings (front_of pass.old) }
        ensures belongs { Belongs desk.now pass.new }
        ensures legal { Legal L.settings (front_of pass.new) }
        ensures seen { IsSeen (view_of pass.old) (view_of pass.new) }
        ensures parts { AreIn P.kind L.settings (P.kind.count L.settings) (view_of pass.new) result.items }
    {
        let Room {
            locks,
            mut places,
            parts,
            ..
        } = self;
        for lock in locks {
            let (part, own) = lock.into_inner().into_inner().into_parts();
            pass.join(desk, own);
            let number = part.own_number();
            put(&mut places, number, part);
        }
        take_all(places, parts)
    }
}

/// So many places with nothing in them.
fn empty_places<P: Drop>(alloc: Global, count: usize) -> Result<Vec<Option<P>>, NoMemory>
    ensures { IfOk result (λ places. AreEmpty count places.items) }
{
    let mut places = Vec::with_capacity(alloc, count)?;
    for _ in 0..count {
        places.push_reserved(None);
    }
    Ok(places)
}

/// Puts a part into the place of its number.
fn put<P: Drop>(places: &mut Vec<Option<P>>, number: u32, part: P)
    requires { number < vec_len places.old }
    ensures { places.new.items ≡ slice_set places.old.items number (Some part) }
{
    places[number as usize] = Some(part);
}

/// Takes the parts out of their places, in order, into a vector with room for them.
fn take_all<P: Drop>(places: Vec<Option<P>>, parts: Vec<P>) -> Vec<P>
    requires parts { parts.items ≡ [] }
    requires room { vec_len places ≤ vec_capacity parts }
    ensures { result.items ≡ somes places.items }
{
    let mut parts = parts;
    for place in places {
        if let Some(part) = place {
            parts.push_reserved(part);
        }
    }
    parts
}
