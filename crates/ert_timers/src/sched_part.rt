use crate::expired_list::ExpiredList;
use ert_defs::Request;
use std::alloc::Global;

/// What a scheduler has: the request that it is about to answer, and its expired timers whose messages it
/// hasn't handed over, in order of expiry.
#[derive(Drop)]
pub struct SchedPart {
    /// The number of the scheduler and of its wheel.
    pub wheel: u32,
    pub hand: Option<Request>,
    pub expired: ExpiredList,
}

impl SchedPart {
    ghost use Rattle.std.specs.Prelude.{◌≡◌, [], None};

    /// The part of a scheduler on a desk that has just been opened. It has nothing.
    pub fn open(alloc: Global, wheel: u32) -> SchedPart
        ensures number { result.wheel ≡ wheel }
        ensures hand { result.hand ≡ None }
        ensures expired { result.expired.rows ≡ [] }
    {
        SchedPart {
            wheel,
            hand: None,
            expired: ExpiredList::new(alloc),
        }
    }

    /// Takes a request into the empty hand, where there is one: an empty hand isn't written anew.
    #[inline(always)]
    pub fn take_up(&mut self, got: Option<Request>)
        requires { self.old.hand ≡ None }
        ensures wheel { self.new.wheel ≡ self.old.wheel }
        ensures hand { self.new.hand ≡ got }
        ensures expired { self.new.expired ≡ self.old.expired }
    {
        if got.is_some() {
            self.hand = got;
        }
    }
}
