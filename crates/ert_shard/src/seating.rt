//! Seats, for threads that read and cancel timers and start none.
use crate::hub::Hub;
use ert_defs::Actor;
use ert_world::{Seat, SeatErr};
use std::alloc::Global;
use std::sync::Arc;

impl Hub {
    ghost use Rattle.std.specs.Prelude.{◌≡◌, ◌+◌, OnErr, IfOk, IfErr};
    ghost use Rattle.ert_shard.specs.Hubs.{HubGivesSeat, HubRefusesSeat};

    /// Gives the next caller after those of the schedulers a seat: it can step as that caller from any thread, beside
    /// the hub and all shards.
    ///
    /// NoSeat comes where each of them has a seat. After a refusal nothing has changed.
    pub fn seat(&mut self, alloc: Global) -> Result<Box<Seat, Global>, SeatErr>
        ensures seat { IfOk result (λ seat. HubGivesSeat self.old self.new seat.value) }
        ensures refused { IfErr result (HubRefusesSeat self.old) }
        ensures same { OnErr result (self.new ≡ self.old) }
    {
        let number = self.next;
        if number >= self.desk.settings().callers {
            return Err(SeatErr::NoSeat);
        }
        let Ok(desk) = Arc::try_clone(&self.desk) else {
            return Err(SeatErr::NoMemory);
        };
        let pass = self.pass.split(&self.desk, Actor::Caller(number));
        match Box::new(alloc, Seat::from_parts(desk, pass, number)) {
            Ok(seat) => {
                self.next = number + 1;
                Ok(seat)
            }
            Err(failed) => {
                let (_desk, pass) = failed.value.into_parts();
                self.pass.join(&self.desk, pass);
                Err(SeatErr::NoMemory)
            }
        }
    }

    /// How many seats were given: the first callers after those of the schedulers have one.
    pub fn seats(&self) -> u32
        ensures { result + self.now.settings.schedulers + 1 ≡ self.now.next }
    {
        self.next - self.desk.settings().schedulers - 1
    }
}
