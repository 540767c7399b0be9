use crate::unit::Unit;
use ert_defs::When;

/// One op of a scenario, with the call of the `erlang` module reference that it is like.
///
/// A label, 0 to 999,999, stands for the timer that the start with this label armed. A label of no such
/// start stands for a reference that never named a timer. Processes and schedulers are numbered from 0.
#[derive(Clone, Copy, Debug, PartialEq, Eq)]
#[rattlefmt::skip]
pub enum Op {
    /// `["tick",mono,sys]`: the clock takes this reading, in nanoseconds, and checks itself where a check
    /// is due. The reading is valid.
    Tick { mono: i64, sys: i64 },
    /// `["check",mono,sys]`: the clock takes this reading and checks itself. The reading is valid.
    Check { mono: i64, sys: i64 },
    /// `["finalize",mono,sys]`: the clock takes this reading, and the time offset is finalized
    /// (`system_flag`, `time_offset`). The reading is valid.
    Finalize { mono: i64, sys: i64 },
    /// `["notify",process]`: a process is told the time offset, where it is news to it.
    Notify { process: u32 },
    /// `["time"]`: Erlang monotonic time is read (`monotonic_time`).
    Time,
    /// `["system"]`: Erlang system time is read (`system_time`).
    System,
    /// `["offset"]`: the time offset is read (`time_offset`).
    Offset,
    /// `["info"]`: the settings and the state of the clock are read (`system_info`).
    Info,
    /// `["convert",time,from,to]`: a time is converted from one unit to another (`convert_time_unit`). A unit
    /// is its name (`"second"`, `"millisecond"`, `"microsecond"`, `"nanosecond"` or `"native"`) or its
    /// parts per second, 1 to 2^63 - 1.
    Convert { time: i64, from: Unit, to: Unit },
    /// `["start",label,scheduler,"rel" or "abs",milliseconds,process,message]`: a timer is started that sends
    /// its message with its reference (`start_timer`).
    Start { label: u32, wheel: u32, when: When, dest: u32, msg: u64 },
    /// `["send_after",label,..]`, as a start, in format 2: a timer is started that sends its message alone
    /// (`send_after`).
    SendAfter { label: u32, wheel: u32, when: When, dest: u32, msg: u64 },
    /// `["cancel",label]`: a timer is cancelled (`cancel_timer`).
    Cancel { label: u32 },
    /// `["cancel_quiet",label]`, in format 2: a timer is cancelled, and what was left isn't told
    /// (`cancel_timer`, option `info`).
    CancelQuiet { label: u32 },
    /// `["read",label]`: the milliseconds left of a timer are read (`read_timer`).
    Read { label: u32 },
    /// `["cancel_async",label,process,info]`: the scheduler of a timer is asked to cancel it, and to tell the
    /// process what was left where `info` is true (`cancel_timer`, options `async` and `info`). In format 1
    /// the op has no `info`, and it is true.
    CancelAsync { label: u32, process: u32, info: bool },
    /// `["read_async",label,process,info]`: the same, and the timer is only read.
    ReadAsync { label: u32, process: u32, info: bool },
    /// `["serve",scheduler]`: a scheduler answers one request.
    Serve { sched: u32 },
    /// `["advance",scheduler]`: a scheduler lets its due timers expire.
    Advance { sched: u32 },
    /// `["deliver",scheduler]`: a scheduler hands over the messages of its expired timers.
    Deliver { sched: u32 },
    /// `["turn",scheduler]`: a scheduler does these three one after the other, and serves at most 64 requests.
    Turn { sched: u32 },
    /// `["receive",process]`: a process takes the first message of its mailbox (`receive`).
    Receive { process: u32 },
    /// `["exit",process]`: a process exits, and its timers are cancelled (`exit`).
    Exit { process: u32 },
    /// `["alive",process]`: whether a process hasn't exited (`is_process_alive`).
    Alive { process: u32 },
    /// `["monitor",process]`: a process monitors the time offset (`monitor`, type `time_offset`).
    Monitor { process: u32 },
    /// `["demonitor",process,monitor]`: a process no longer does (`demonitor`).
    Demonitor { process: u32, monitor: u32 },
}
