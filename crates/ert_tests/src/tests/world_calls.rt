//! What a caller has to know of a world, looked up.
ghost use Rattle.std.specs.Prelude.{◌≡◌, ◌<◌};

use ert_world::World;
use std::process::Abort;

pub(crate) fn is_process(rt: &impl Abort, world: &World, process: u32)
    ensures { process < world.now.settings.processes }
{
    assert!(rt; process < world.settings().processes);
}

pub(crate) fn is_scheduler(rt: &impl Abort, world: &World, sched: u32)
    ensures { sched < world.now.settings.schedulers }
{
    assert!(rt; sched < world.settings().schedulers);
}

/// A world gave out no seat.
pub(crate) fn is_alone(rt: &impl Abort, world: &World)
    ensures { world.now.next ≡ 1 }
{
    assert!(rt; world.seats() == 0);
}
