use crate::keyed::Keyed;
use ert_defs::NoMemory;
use std::alloc::Global;
use std::marker::Model;

/// A value of each slot, with the key of the slot's last row in it.
///
/// There is room for all slots from the beginning, and the slots below a number are written.
#[derive(Drop)]
pub struct Kept<T: Keyed> {
    values: Vec<T>,
}

impl<T: Keyed> Model for Kept<T> {
    ghost use Rattle.std.specs.Prelude.{map, vec_capacity};
    ghost use Rattle.ert_wheel.specs.Kept.{KeptSlots};

    ghost Value = { KeptSlots T };

    ghost view = { λ k. record { keys = map T.key k.values.items; values = k.values.items; room = vec_capacity k.values } };
}

impl<T: Keyed> Kept<T> {
    ghost use Rattle.std.specs.Prelude.{◌≡◌, ◌-◌, ◌<◌, ◌≤◌, [], ◌++◌, IfOk, IfSome, Some, length, replicate, slice_index_or, slice_set};
    ghost use Rattle.std.specs.List.{slice_get};
    ghost use Rattle.ert_wheel.specs.{Walks.stored_order, Wheels.no_key};

    /// Room for so many slots, of which none is written. No call takes memory after this.
    pub fn new(alloc: Global, slots: u32) -> Result<Kept<T>, NoMemory>
        ensures keys { IfOk result (λ kept. kept.keys ≡ []) }
        ensures values { IfOk result (λ kept. kept.values ≡ []) }
        ensures room { IfOk result (λ kept. slots ≤ kept.room) }
    {
        let values = Vec::with_capacity(alloc, slots as usize)?;
        Ok(Kept { values })
    }

    /// How many slots are written.
    #[inline]
    pub fn len(&self) -> usize
        ensures keys { result ≡ length self.now.keys }
        ensures values { result ≡ length self.now.values }
    {
        self.values.len()
    }

    /// Writes slots up to so many, each with this value.
    #[cold]
    #[inline(never)]
    pub fn write_up_to(&mut self, count: u32, value: T)
        requires more { length self.old.keys ≤ count }
        requires room { count ≤ self.old.room }
        ensures keys { self.new.keys ≡ self.old.keys ++ replicate (count - length self.old.keys) (T.key value) }
        ensures values { self.new.values ≡ self.old.values ++ replicate (count - length self.old.keys) value }
        ensures room { self.old.room ≤ self.new.room }
    {
        // There is room for them.
        let _ = self.values.resize(count as usize, value);
    }

    /// The deadline of a slot's last row.
    #[inline]
    pub fn deadline(&self, slot: u32) -> u64
        requires { slot < length self.now.keys }
        ensures { result ≡ (slice_index_or self.now.keys slot no_key).deadline }
    {
        self.values[slot as usize].deadline()
    }

    /// The order of a slot's last row.
    #[inline]
    pub fn order(&self, slot: u32) -> u64
        requires { slot < length self.now.keys }
        ensures { result ≡ (slice_index_or self.now.keys slot no_key).order }
    {
        self.values[slot as usize].order()
    }

    /// The order of a slot's last row; 0 where the slot isn't written.
    #[inline]
    pub fn order_if_any(&self, slot: u32) -> u64
        ensures { result ≡ stored_order self.now.keys slot }
    {
        match self.values.get(slot as usize) {
            Some(value) => value.order(),
            None => 0,
        }
    }

    /// The value of a slot.
    #[inline]
    pub fn value(&self, slot: u32) -> T
        requires { slot < length self.now.keys }
        ensures { slice_get self.now.values slot ≡ Some result }
    {
        self.values[slot as usize]
    }

    /// Gives a slot another value, with another key in it or the same.
    #[inline]
    pub fn set(&mut self, slot: u32, value: T)
        requires { slot < length self.old.keys }
        ensures keys { self.new.keys ≡ slice_set self.old.keys slot (T.key value) }
        ensures same { IfSome (slice_get self.old.values slot) (λ old. T.key value ≡ T.key old) → self.new.keys ≡ self.old.keys }
        ensures values { self.new.values ≡ slice_set self.old.values slot value }
        ensures room { self.new.room ≡ self.old.room }
    {
        self.values[slot as usize] = value;
    }
}
