//! The statuses that calls answer: 0, or why a call was refused or stopped.

/// The call has done what it says.
pub const OK: i32 = 0;
/// The handle is closed.
pub const CLOSED: i32 = -1;
/// The handle is open.
pub const OPEN: i32 = -2;

/// There is no memory for the call.
pub const NO_MEMORY: i32 = -3;
/// The settings have another size than these of the library.
pub const BAD_SIZE: i32 = -4;
/// There is no such time warp mode.
pub const BAD_MODE: i32 = -5;
/// The start time is no multiple of a millisecond, or outside its limits.
pub const BAD_START: i32 = -6;
/// The reading isn't valid.
pub const BAD_READING: i32 = -7;
/// A number of schedulers, processes, slots or callers is outside its limits.
pub const BAD_COUNT: i32 = -8;
/// The time offset would leave its limits.
pub const OFFSET_WIDE: i32 = -9;
/// There is no such process or scheduler.
pub const RANGE: i32 = -10;
/// A timer can't be due at that time.
pub const BAD_TIME: i32 = -11;
/// The wheel has no free slot, or the process no place for a monitor.
pub const FULL: i32 = -12;
/// The timer isn't armed.
pub const NO_TIMER: i32 = -13;
/// There is no message.
pub const EMPTY: i32 = -14;
/// The process has exited.
pub const EXITED: i32 = -15;
/// There is no such kind of request.
pub const BAD_KIND: i32 = -16;
/// The monitor doesn't stand.
pub const NO_MONITOR: i32 = -17;
/// Every caller but 0 has a seat.
pub const NO_SEAT: i32 = -18;
/// No scheduler is left that a shard could have.
pub const NO_SHARD: i32 = -19;
