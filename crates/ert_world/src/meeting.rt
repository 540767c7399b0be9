//! A world and a seat that meet.
use crate::seat::Seat;
use crate::world::World;
use ert_defs::Actor;

impl World {
    ghost use Rattle.std.specs.Prelude.{◌≡◌};
    ghost use Rattle.ert_world.specs.Seats.{Meets};

    /// Lets the world and a seat of its desk learn what the other knows, and gives the seat back. No entry is
    /// made.
    ///
    /// Both know one legal history then: the longer of the two that they knew, which the other begins.
    pub fn meet(&mut self, seat: Seat) -> Seat
        requires table { seat.table ≡ self.old.table }
        requires settings { seat.settings ≡ self.old.settings }
        ensures { Meets self.old seat self.new result }
    {
        let Seat { desk, pass, number } = seat;
        self.pass.join(&self.desk, pass);
        let pass = self.pass.split(&self.desk, Actor::Caller(number));
        Seat { desk, pass, number }
    }
}
