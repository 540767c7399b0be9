//! Where bytes come from and where they go, and what the machine's clocks read: a `Source` and a `Sink`,
//! whose contracts say which bytes each call moves, and when it fails, and an `OsClock`, which gives
//! readings. It stands on std, `thiserror` and `ert_defs`, which has the readings.
//!
//! Each has a count of faults, which never falls. A call answers `Failed` only where the count rose in
//! that call, so a caller that claims a fault has met one. A source tells the bytes that its reads gave and
//! whether it has ended, a sink the bytes that it took, and a clock the readings that it gave. What is to come each
//! may tell: a source the bytes that it has left, a sink the room that it has, and a clock the readings that it has
//! left; the clauses hold either way.
//!
//! `StdSource` and `StdSink` stand over std's readers and writers, `HostClock` over the machine's clocks, each with a
//! log of what it has moved, which takes no memory (`log.rt`),
//! and `MemSource`, `MemSink` and `MemClock` over memory, with failures that a test chooses. `SureSource`
//! and `SureSink` never fail; `SureSink` alone tells its room. `read_all` reads to the end of a source within
//! a limit, and `write_all` writes all of some bytes: each tells exactly what was moved.
//!
//! `StdSource`, `StdSink` and `HostClock` have the same clauses over the machine, by their logs, whose functions do
//! nothing at run time; they are proved by hand, step by step. What the machine answers is trusted.
//!
//! **Choices.**
//!
//! - **Streams tell what they have moved, and what is to come only where it is known.** A source of the machine can't
//!   tell what it has left, but what its reads gave it can, by a log that takes no memory (`Log`): so the clauses of
//!   the programs hold of the process's own streams, and no argument about generic code is needed. What a sink took is
//!   told by every sink, and is no option any more.
//! - **Room is told as a number beside the bytes that a sink took** (`SinkTold`), and a call has the condition that all
//!   that it may write fits.
//! - **The constructors of sources take no allocator** if they are handed their vectors.
//! - **An interrupted read or write counts as a failure** at the adapters over the standard streams.
//! - **A host clock whose first monotonic reading failed fails at every reading.** A time before 1970 is a failure.
//! - **After a failed read at most the limit was taken**, so a body that reads on past a fault is refused.
#![tactic(auto)]

mod calls;
mod failed;
mod host;
mod host_clock;
mod log;
mod mem_clock;
mod mem_sink;
mod mem_source;
mod os_clock;
mod reading;
mod sink;
mod source;
mod sure_sink;
mod sure_source;
mod writing;

pub use failed::Failed;
pub use host::{StdSink, StdSource};
pub use host_clock::HostClock;
pub use mem_clock::MemClock;
pub use mem_sink::MemSink;
pub use mem_source::MemSource;
pub use os_clock::OsClock;
pub use reading::{MAX_INPUT, ReadErr, read_all};
pub use sink::Sink;
pub use source::Source;
pub use sure_sink::SureSink;
pub use sure_source::SureSource;
pub use writing::{WriteErr, write_all};
