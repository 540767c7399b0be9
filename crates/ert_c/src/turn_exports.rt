//! The exported calls of schedulers, and those that make room in a list of expired timers and give it back.
ghost use Rattle.ert_c.specs.{Calls.{AnswersAtSched, ServesBy, AdvancesBy, DeliversBy, TurnsBy, LooksAheadForC, DropsForC}, Mailing.ChangesListRoom, Told.{IsServed, IsAdvanceTold, IsDelivered, IsTurned, IsDueTold}, Waiting.IsCount};

use crate::handle::{ErtWorld, at_sched, opened};
use crate::mail_calls::tell_done;
use crate::status::{CLOSED, RANGE};
use crate::turn_calls::{
    ErtAdvanced, ErtDelivered, ErtTurned, tell_advanced, tell_delivered, tell_due, tell_served,
    tell_turned,
};
use crate::waiting_calls::tell_count;

/// Serves one request of a scheduler.
#[unsafe(no_mangle)]
pub extern "C" fn ert_world_serve(world: &mut ErtWorld, sched: u32, served: &mut u32) -> i32
    ensures { AnswersAtSched sched (ServesBy sched) IsServed served.old served.new world.old.place.value result world.new.place.value }
{
    let service = at_sched!(world, sched);
    let answer = service.serve(sched);
    tell_served(answer, served)
}

/// Lets the due timers of a scheduler expire.
#[unsafe(no_mangle)]
pub extern "C" fn ert_world_advance(
    world: &mut ErtWorld,
    sched: u32,
    advanced: &mut ErtAdvanced,
) -> i32
    ensures { AnswersAtSched sched (AdvancesBy sched) IsAdvanceTold advanced.old advanced.new world.old.place.value result world.new.place.value }
{
    let service = at_sched!(world, sched);
    let answer = service.advance(sched);
    tell_advanced(answer, advanced)
}

/// Hands over the expired timers of a scheduler.
#[unsafe(no_mangle)]
pub extern "C" fn ert_world_deliver(
    world: &mut ErtWorld,
    sched: u32,
    delivered: &mut ErtDelivered,
) -> i32
    ensures { AnswersAtSched sched (DeliversBy sched) IsDelivered delivered.old delivered.new world.old.place.value result world.new.place.value }
{
    let service = at_sched!(world, sched);
    let answer = service.deliver(sched);
    tell_delivered(answer, delivered)
}

/// Makes a turn of a scheduler: serves, advances and delivers.
#[unsafe(no_mangle)]
pub extern "C" fn ert_world_turn(world: &mut ErtWorld, sched: u32, turned: &mut ErtTurned) -> i32
    ensures { AnswersAtSched sched (TurnsBy sched) IsTurned turned.old turned.new world.old.place.value result world.new.place.value }
{
    let service = at_sched!(world, sched);
    let answer = service.turn(sched);
    tell_turned(answer, turned)
}

/// Tells how early a timer of a scheduler may be due.
#[unsafe(no_mangle)]
pub extern "C" fn ert_world_next_due(world: &mut ErtWorld, sched: u32, due: &mut u64) -> i32
    ensures { AnswersAtSched sched (LooksAheadForC sched) IsDueTold due.old due.new world.old.place.value result world.new.place.value }
{
    let service = at_sched!(world, sched);
    let answer = service.next_due(sched);
    tell_due(answer, due)
}

/// Drops the timers of a scheduler's wheel that seats have cancelled, and tells how many they were.
#[unsafe(no_mangle)]
pub extern "C" fn ert_world_drop_settled(world: &mut ErtWorld, sched: u32, dropped: &mut u64) -> i32
    ensures { AnswersAtSched sched (DropsForC sched) (λ answer _. IsCount answer) dropped.old dropped.new world.old.place.value result world.new.place.value }
{
    let service = at_sched!(world, sched);
    let answer = service.drop_settled(sched);
    tell_count(u64::from(answer), dropped)
}

/// Makes room in the list of expired timers of a scheduler for so many more.
#[unsafe(no_mangle)]
pub extern "C" fn ert_world_reserve_expired(world: &mut ErtWorld, sched: u32, count: usize) -> i32
    ensures { ChangesListRoom sched world.old.place.value result world.new.place.value }
{
    let service = at_sched!(world, sched);
    let answer = service.reserve_expired(sched, count);
    tell_done(answer)
}

/// Gives back the memory of the list of expired timers of a scheduler that those which wait don't need.
#[unsafe(no_mangle)]
pub extern "C" fn ert_world_shrink_expired(world: &mut ErtWorld, sched: u32) -> i32
    ensures { ChangesListRoom sched world.old.place.value result world.new.place.value }
{
    let service = at_sched!(world, sched);
    let answer = service.shrink_expired(sched);
    tell_done(answer)
}
