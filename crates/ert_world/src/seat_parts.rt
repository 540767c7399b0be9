//! A seat put together, and taken apart.
ghost use Rattle.std.specs.Arc.{arc_value};
ghost use Rattle.std.specs.Prelude.{◌≡◌};
ghost use Rattle.ert_world.specs.Seats.{SitsAs, seated};

use crate::seat::Seat;
use ert_table::{Desk, Pass};
use std::sync::Arc;

impl Seat {
    /// A seat of a share of a desk and the pass with one caller of it, which has this number.
    pub fn from_parts(desk: Arc<Desk>, pass: Pass, number: u32) -> Seat
        requires { SitsAs (arc_value desk) pass number }
        ensures { result ≡ seated (arc_value desk) pass number }
    {
        Seat { desk, pass, number }
    }

    /// The share of the desk and the pass of a seat.
    pub fn into_parts(self) -> (Arc<Desk>, Pass)
        ensures sits { SitsAs (arc_value result.0) result.1 self.number }
        ensures same { self ≡ seated (arc_value result.0) result.1 self.number }
    {
        (self.desk, self.pass)
    }
}
