//! The call that gives an armed timer a new deadline.
ghost use Rattle.std.specs.Prelude.{◌≡◌, ◌<◌};
ghost use Rattle.ert_world.specs.Restarts as restarts;

use crate::world::{CALLER, World};
use ert_defs::{Settings, Start, TimerRef};
use ert_effects::RestartErr;

impl World {
    ghost use Rattle.std.specs.Prelude.{◌≡◌, ◌<◌, Err};
    ghost use Rattle.ert_effects.specs.{RestartCalls.Restarts, declared.answers.RestartErr.TheVariants.{BadArg, Full}};
    ghost use Rattle.ert_world.specs.{Frees.{IsUsedUpAt, UsesFreeAt}, Restarts.{Forgets, HasNoDeadline, wheel_for}, Worlds.{Goes, By}};

    /// Gives an armed timer a new deadline, and answers its new name (as `uv_timer_again` of libuv): it is
    /// cancelled, and one is started on its wheel.
    ///
    /// Mostly that has its slot, and one step does both (`WheelPart::restart`). Each refusal is decided before: so a timer is
    /// lost by no answer. Where one was cancelled its wheel holds no row of it. No memory is taken.
    #[inline(always)]
    pub fn restart(&mut self, timer: TimerRef, start: &Start) -> Result<TimerRef, RestartErr>
        requires { start.now.dest < self.old.settings.processes }
        ensures call { Goes self.old (By self.old (λ g. Restarts g 0 (wheel_for g timer) timer start.now result)) self.new }
        ensures time { result ≡ Err BadArg → HasNoDeadline self.old start.now }
        ensures full { result ≡ Err Full → IsUsedUpAt self.old self.new (wheel_for self.old.settings timer) }
        ensures frees { UsesFreeAt self.old self.new (wheel_for self.old.settings timer) result }
        ensures forgotten { Forgets timer result self.new }
    {
        let wheel = wheel_for(self.desk.settings(), timer);
        self.wheels[wheel].restart(&self.desk, &mut self.pass, CALLER, timer, start)
    }
}

/// The wheel of a timer, or the first one where there is none of its number.
#[inline(always)]
fn wheel_for(settings: &Settings, timer: TimerRef) -> usize
    requires { 0 < settings.now.schedulers }
    ensures wheel { result ≡ restarts.wheel_for settings.now timer }
    ensures low { result < settings.now.schedulers }
{
    if timer.wheel < settings.schedulers {
        timer.wheel as usize
    } else {
        0
    }
}
