//! The session of a thread with a service.

use crate::service::Service;
use ert_locks::{CallerSeat, DeskName, SchedSeat};
use std::sync::Wait;

/// What a thread makes its calls through: the service, what waits for its locks, and the thread's seat, which
/// `Service::close` takes back.
///
///     let timer = session.start(0, start)?;   // takes the lock of wheel 0
///     Ok(session.cancel_timer(timer))         // takes none
#[derive(Drop)]
pub struct Session<'a, L: DeskName, R: Wait, S> {
    pub service: &'a Service<L>,
    pub rt: &'a R,
    pub seat: S,
}

/// The session of a caller.
pub type CallerSession<'a, L, R> = Session<'a, L, R, CallerSeat<L>>;

/// The session of a scheduler.
pub type SchedSession<'a, L, R> = Session<'a, L, R, SchedSeat<L>>;
