//! The ops of schedulers. Without memory each leaves what it did before.
ghost use Rattle.std.specs.Prelude.{◌≡◌, ◌<◌, IfOk, OnErr};
ghost use Rattle.ert_ops.specs.{declared.op.Op.Op, Labels.Labels};
ghost use Rattle.ert_script.specs.Scripts.{DoesWith, Fails};

use ert_defs::NoMemory;
use ert_ops::Reply;
use ert_world::World;

/// A scheduler answers one request.
pub fn serve(world: &mut World, sched: u32) -> Result<Reply, NoMemory>
    requires sched { sched < world.old.settings.schedulers }
    requires lone { world.old.next ≡ 1 }
    ensures ok { (ls : Labels) → IfOk result (λ reply. DoesWith world.old ls (Op.Serve sched) reply world.new ls) }
    ensures err { (ls : Labels) → OnErr result (Fails world.old ls (Op.Serve sched) world.new) }
{
    match world.serve(sched) {
        Ok(served) => Ok(Reply::Serve { served }),
        Err(e) => Err(e),
    }
}

/// A scheduler lets its due timers expire.
pub fn advance(world: &mut World, sched: u32) -> Result<Reply, NoMemory>
    requires sched { sched < world.old.settings.schedulers }
    requires lone { world.old.next ≡ 1 }
    ensures ok { (ls : Labels) → IfOk result (λ reply. DoesWith world.old ls (Op.Advance sched) reply world.new ls) }
    ensures err { (ls : Labels) → OnErr result (Fails world.old ls (Op.Advance sched) world.new) }
{
    match world.advance(sched) {
        Ok((to, expired)) => Ok(Reply::Advance { to, expired }),
        Err(e) => Err(e),
    }
}

/// A scheduler hands over the messages of its expired timers.
pub fn deliver(world: &mut World, sched: u32) -> Result<Reply, NoMemory>
    requires sched { sched < world.old.settings.schedulers }
    requires lone { world.old.next ≡ 1 }
    ensures ok { (ls : Labels) → IfOk result (λ reply. DoesWith world.old ls (Op.Deliver sched) reply world.new ls) }
    ensures err { (ls : Labels) → OnErr result (Fails world.old ls (Op.Deliver sched) world.new) }
{
    match world.deliver(sched) {
        Ok((put, dropped)) => Ok(Reply::Deliver { put, dropped }),
        Err(e) => Err(e),
    }
}

/// A scheduler does these three, one after the other.
pub fn turn(world: &mut World, sched: u32) -> Result<Reply, NoMemory>
    requires sched { sched < world.old.settings.schedulers }
    requires lone { world.old.next ≡ 1 }
    ensures ok { (ls : Labels) → IfOk result (λ reply. DoesWith world.old ls (Op.Turn sched) reply world.new ls) }
    ensures err { (ls : Labels) → OnErr result (Fails world.old ls (Op.Turn sched) world.new) }
{
    match world.turn(sched) {
        Ok(turned) => Ok(Reply::Turn { turned }),
        Err(e) => Err(e),
    }
}
