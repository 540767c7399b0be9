//! What schedulers did, as C is told it.
ghost use Rattle.std.specs.Prelude.{◌≡◌};
ghost use Rattle.ert_c.specs.Told.{turned_as, IsGiven, IsServed, IsAdvanceTold, IsDelivered, IsTurned, IsDueTold};

use crate::status::{EMPTY, NO_MEMORY, OK};
use ert_defs::NoMemory;
use ert_effects::Turned;

/// How far a wheel was advanced.
#[repr(C)]
#[derive(Clone, Copy)]
pub struct ErtAdvanced {
    /// In milliseconds since the start time.
    pub to: u64,
    /// How many timers expired.
    pub expired: u32,
}

/// What was handed over.
#[repr(C)]
#[derive(Clone, Copy)]
pub struct ErtDelivered {
    /// How many messages were put into mailboxes.
    pub put: u32,
    /// How many were thrown away.
    pub dropped: u32,
}

/// What a turn did.
#[repr(C)]
#[derive(Clone, Copy)]
pub struct ErtTurned {
    /// In milliseconds since the start time.
    pub to: u64,
    pub served: u32,
    pub expired: u32,
    pub put: u32,
    pub dropped: u32,
}

/// Returns what a call gave, or that there was no memory for it.
pub(crate) fn tell<T: Copy>(answer: Result<T, NoMemory>, place: &mut T) -> i32
    ensures { IsGiven (λ given. given) answer place.old result place.new }
{
    match answer {
        Ok(given) => {
            *place = given;
            OK
        }
        Err(_) => NO_MEMORY,
    }
}

/// Returns whether a request was served.
pub(crate) fn tell_served(answer: Result<bool, NoMemory>, served: &mut u32) -> i32
    ensures { IsServed answer served.old result served.new }
{
    tell(answer.map(|one| u32::from(one)), served)
}

/// Returns how far a wheel was advanced.
pub(crate) fn tell_advanced(answer: Result<(u64, u32), NoMemory>, advanced: &mut ErtAdvanced) -> i32
    ensures { IsAdvanceTold answer advanced.old result advanced.new }
{
    tell(
        answer.map(|(to, expired)| ErtAdvanced { to, expired }),
        advanced,
    )
}

/// Returns what was handed over.
pub(crate) fn tell_delivered(
    answer: Result<(u32, u32), NoMemory>,
    delivered: &mut ErtDelivered,
) -> i32
    ensures { IsDelivered answer delivered.old result delivered.new }
{
    tell(
        answer.map(|(put, dropped)| ErtDelivered { put, dropped }),
        delivered,
    )
}

/// Returns what a turn did.
pub(crate) fn tell_turned(answer: Result<Turned, NoMemory>, turned: &mut ErtTurned) -> i32
    ensures { IsTurned answer turned.old result turned.new }
{
    tell(answer.map(turned_as), turned)
}

fn turned_as(done: Turned) -> ErtTurned
    ensures { result ≡ turned_as done }
{
    ErtTurned {
        to: done.to,
        served: done.served,
        expired: done.expired,
        put: done.put,
        dropped: done.dropped,
    }
}

/// Returns how early a timer may be due.
pub(crate) fn tell_due(answer: Option<u64>, due: &mut u64) -> i32
    ensures { IsDueTold answer due.old result due.new }
{
    match answer {
        Some(time) => {
            *due = time;
            OK
        }
        None => EMPTY,
    }
}
