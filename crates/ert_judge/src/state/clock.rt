ghost use Rattle.std.specs.Prelude.{◌≡◌, ◌↔◌, IsTrue};
ghost use Rattle.ert_defs.specs.{Clocks.{face, first_clock}, Lines.{IsInRange, MayAct, time_after, due_after, ticked, shifted}, Legal.CanTick, Settings.IsChecked};
ghost use Rattle.ert_clock.specs.Faces.{face_of};

use ert_clock::Face;
use ert_defs::{Act, OffsetState, Reading, Settings};

/// The clock of a history.
#[derive(Clone, Copy)]
pub struct Clock {
    /// Its numbers.
    pub face: Face,
    /// The shift that is due.
    pub due: Option<(i64, OffsetState)>,
}

/// Only a preliminary offset can be finalized.
pub fn may_act(act: Act, state: OffsetState) -> bool
    ensures { IsTrue result ↔ MayAct act state }
{
    match act {
        Act::Plain | Act::Force => true,
        Act::Finalize => state == OffsetState::Preliminary,
    }
}

/// A shift within its limits, in 64 bits.
fn narrowed(due: Option<(i128, OffsetState)>) -> Option<(i64, OffsetState)>
    requires { IsInRange due }
    ensures { result ≡ due }
{
    match due {
        None => None,
        Some((offset, state)) => Some((offset as i64, state)),
    }
}

impl Clock {
    ghost use Rattle.std.specs.Prelude.{None};

    /// The clock at the opening. The first reading counts as a check.
    pub fn opening(settings: &Settings) -> Clock
        requires { IsChecked settings.now }
        ensures face { face_of result.face ≡ face settings.now (first_clock settings.now) }
        ensures due { result.due ≡ None }
    {
        Clock {
            face: Face::opening(settings),
            due: None,
        }
    }

    /// Takes a tick to a time.
    pub fn tick(&mut self, settings: &Settings, reading: Reading, act: Act, now: i64)
        requires { CanTick settings.now (face_of self.old.face) reading act now }
        ensures face { face_of self.new.face ≡ ticked settings.now (face_of self.old.face) reading act now }
        ensures due { self.new.due ≡ due_after settings.now (face_of self.old.face) reading act now }
    {
        let due = narrowed(self.face.due_after(settings, reading, act, now));
        self.face.tick(settings, reading, act, now);
        self.due = due;
    }

    /// Makes the shift that was due.
    pub fn shift(&mut self, offset: i64, state: OffsetState)
        ensures face { face_of self.new.face ≡ shifted (face_of self.old.face) (Some (offset, state)) }
        ensures due { self.new.due ≡ None }
    {
        self.face.shift(Some((offset, state)));
        self.due = None;
    }
}
