ghost use Rattle.std.specs.Prelude.{◌≡◌, ◌≤◌, MatchOption, vec_capacity};
ghost use Rattle.ert_timers.specs.Free.{free_at, TakesNextSlot, HasNoneFree};

use ert_defs::NoMemory;
use std::alloc::Global;
use std::marker::Model;

/// The slots of one scheduler that a timer may be started in.
///
/// Those that were put back stand on two stacks: one for slots that short waits take first, and one for those that long
/// waits take first. The slots that were never taken are those from a number on, so no memory is
/// written for them. Each call takes constant time, and no more memory: each stack has room for all slots from the
/// beginning.
#[derive(Drop)]
pub struct FreeSlots {
    slots: u32,
    // From here on no slot was ever taken.
    fresh: u32,
    short: Vec<u32>,
    long: Vec<u32>,
}

impl Model for FreeSlots {
    ghost use Rattle.std.specs.Prelude.{vec_capacity};
    ghost use Rattle.ert_timers.specs.Free.{Free, free_code, IsStacked};

    ghost Value = { Free };

    ghost coded = { free_code };

    ghost view = { λ f. record { slots = f.slots; fresh = f.fresh; short = f.short.items; long = f.long.items } };

    ghost invariant = { λ f. IsStacked f.slots f.fresh f.short.items f.long.items (vec_capacity f.short) (vec_capacity f.long) };
}

impl FreeSlots {
    ghost use Rattle.std.specs.Prelude.{◌≡◌, ◌↔◌, ◌<◌, ℕ, true, false, [], IfOk, IfSome, IfNone, IsNone, nat_lt};
    ghost use Rattle.std.specs.FinSet as set;
    ghost use Rattle.ert_timers.specs.Free.{free_at, free_list, free_set, with_short, with_long, TakesLong, TakesNextSlot};

    /// Holds every slot below `slots`. None was ever taken.
    pub fn new(alloc: Global, slots: u32) -> Result<FreeSlots, NoMemory>
        ensures slots { IfOk result (λ free. free.slots ≡ slots) }
        ensures fresh { IfOk result (λ free. free ≡ free_at slots 0 [] []) }
        ensures every { IfOk result (λ free. (slot : ℕ)
            → set.contains (free_set free).held slot ≡ nat_lt slot slots) }
    {
        let short = Vec::with_capacity(alloc, slots as usize)?;
        let long = Vec::with_capacity(alloc, slots as usize)?;
        Ok(FreeSlots {
            slots,
            fresh: 0,
            short,
            long,
        })
    }

    /// Takes a slot out, as for a short wait: the top of the stack of short waits, else the least slot that was never
    /// taken, and else the top of the stack of long waits. None exactly where none is held.
    #[inline]
    pub fn pick(&mut self) -> Option<u32>
        ensures none { IsNone result ↔ (free_list self.old ≡ []) }
        ensures unchanged { IfNone result (self.new ≡ self.old) }
        ensures next { IfSome result (TakesNextSlot self.old self.new) }
        ensures held { IfSome result (λ slot. set.contains (free_set self.old).held slot ≡ true) }
        ensures taken { IfSome result (λ slot.
            free_set self.new ≡ record (free_set self.old) { held = set.remove (free_set self.old).held slot }) }
        ensures in_range { IfSome result (λ slot. slot < self.old.slots) }
    {
        next(&mut self.short, &mut self.fresh, self.slots, &mut self.long)
    }

    /// Takes a slot out, as for a long wait: the top of the stack of long waits, else the least slot that was never taken,
    /// and else the top of the stack of short waits. None exactly where none is held.
    pub fn pick_long(&mut self) -> Option<u32>
        ensures none { IsNone result ↔ (free_list self.old ≡ []) }
        ensures unchanged { IfNone result (self.new ≡ self.old) }
        ensures next { IfSome result (TakesLong self.old self.new) }
        ensures held { IfSome result (λ slot. set.contains (free_set self.old).held slot ≡ true) }
        ensures taken { IfSome result (λ slot.
            free_set self.new ≡ record (free_set self.old) { held = set.remove (free_set self.old).held slot }) }
        ensures in_range { IfSome result (λ slot. slot < self.old.slots) }
    {
        next(&mut self.long, &mut self.fresh, self.slots, &mut self.short)
    }

    /// Adds a slot that isn't held, on the stack of short waits.
    #[inline]
    pub fn put(&mut self, slot: u32)
        requires in_range { slot < self.old.slots }
        requires away { set.contains (free_set self.old).held slot ≡ false }
        ensures top { self.new ≡ with_short self.old slot }
        ensures held { free_set self.new ≡ record (free_set self.old) { held = set.insert (free_set self.old).held slot } }
    {
        // There is room for each of the slots.
        self.short.push_reserved(slot);
    }

    /// Adds a slot that isn't held, on the stack of long waits.
    pub fn put_long(&mut self, slot: u32)
        requires in_range { slot < self.old.slots }
        requires away { set.contains (free_set self.old).held slot ≡ false }
        ensures top { self.new ≡ with_long self.old slot }
        ensures held { free_set self.new ≡ record (free_set self.old) { held = set.insert (free_set self.old).held slot } }
    {
        // There is room for each of the slots.
        self.long.push_reserved(slot);
    }
}

/// Takes the top of a stack; where that is empty the least slot that was never taken, and where there is none the top of
/// another stack.
#[inline]
fn next(first: &mut Vec<u32>, fresh: &mut u32, slots: u32, second: &mut Vec<u32>) -> Option<u32>
    ensures found { MatchOption result
        (HasNoneFree (free_at slots fresh.old first.old.items second.old.items) (free_at slots fresh.new first.new.items second.new.items))
        (TakesNextSlot (free_at slots fresh.old first.old.items second.old.items) (free_at slots fresh.new first.new.items second.new.items)) }
    ensures first_room { vec_capacity first.new ≡ vec_capacity first.old }
    ensures second_room { vec_capacity second.new ≡ vec_capacity second.old }
{
    if let Some(slot) = first.pop() {
        return Some(slot);
    }
    let least = *fresh;
    if least < slots {
        *fresh = least + 1;
        return Some(least);
    }
    second.pop()
}
