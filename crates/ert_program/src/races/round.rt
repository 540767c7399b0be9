//! The last turns of a race.
ghost use Rattle.std.specs.Prelude.{◌≡◌, OnOk};
ghost use Rattle.ert_program.specs.Ends.{EndsRound};

use ert_defs::NoMemory;
use ert_world::World;

/// Makes a turn of each scheduler of a world that gave out no seat, in order of number.
pub fn last_round(world: &mut World) -> Result<(), NoMemory>
    requires { world.old.next ≡ 1 }
    ensures { OnOk result (EndsRound world.old world.new) }
{
    for sched in 0..world.settings().schedulers {
        world.turn(sched)?;
    }
    Ok(())
}
