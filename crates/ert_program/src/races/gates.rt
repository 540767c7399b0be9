//! Gates: where a worker may be held before one of its turns, so that a test can choose which of two turns
//! comes first.
use std::sync::atomic::{AtomicBool, Ordering};
use std::thread;

/// What a worker passes before each of its turns.
pub trait Gate {
    /// A worker is about to begin a turn; its turns count from 1.
    fn before(&self, worker: u32, turn: u64);
}

/// A gate that holds nobody.
#[derive(Clone, Copy, Debug)]
pub struct FreeGate;

impl Gate for FreeGate {
    fn before(&self, _worker: u32, _turn: u64) {}
}

/// A gate for tests. It holds one turn of a worker until another turn of a worker has begun, for a number of
/// tries. After these it lets go. It remembers that, and that the turn came.
#[derive(Drop)]
pub struct LedgerGate {
    /// The worker and the turn that are held.
    held: (u32, u64),
    /// The worker and the turn that are awaited.
    awaited: (u32, u64),
    tries: u64,
    held_came: AtomicBool,
    awaited_came: AtomicBool,
    let_go: AtomicBool,
}

impl LedgerGate {
    /// Holds `held` until `awaited` has begun, for so many tries.
    pub fn new(held: (u32, u64), awaited: (u32, u64), tries: u64) -> LedgerGate {
        LedgerGate {
            held,
            awaited,
            tries,
            held_came: AtomicBool::new(false),
            awaited_came: AtomicBool::new(false),
            let_go: AtomicBool::new(false),
        }
    }

    /// Whether the turn that the gate holds came to it.
    pub fn has_held(&self) -> bool {
        self.held_came.load(Ordering::SeqCst)
    }

    /// Whether the gate let a turn go that it should have held longer.
    pub fn has_let_go(&self) -> bool {
        self.let_go.load(Ordering::SeqCst)
    }

    /// Waits for the awaited turn, for so many tries.
    fn hold(&self) {
        for _ in 0..self.tries {
            if self.awaited_came.load(Ordering::SeqCst) {
                return;
            }
            thread::yield_now();
        }
        self.let_go.store(true, Ordering::SeqCst);
    }
}

impl Gate for LedgerGate {
    fn before(&self, worker: u32, turn: u64) {
        if (worker, turn) == self.awaited {
            self.awaited_came.store(true, Ordering::SeqCst);
        }
        if (worker, turn) == self.held {
            self.held_came.store(true, Ordering::SeqCst);
            self.hold();
        }
    }
}
