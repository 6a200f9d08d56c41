//! What the benches of a run know of one another while they are driven.
use std::sync::atomic::{AtomicBool, AtomicU64, Ordering};

/// The benches that are driven at one time. What it tells may be old when it is read, so it decides
/// who waits, and how long, and nothing else.
#[derive(Drop)]
pub(crate) struct Crowd {
    /// Whether one began.
    begun: AtomicBool,
    /// How many are awake.
    awake: AtomicU64,
    /// Whether two were awake at one time.
    met: AtomicBool,
}

impl Crowd {
    /// A crowd of which none began.
    pub(crate) fn new() -> Crowd {
        Crowd {
            begun: AtomicBool::new(false),
            awake: AtomicU64::new(0),
            met: AtomicBool::new(false),
        }
    }

    /// One of them begins, awake; tells whether it is the first.
    pub(crate) fn begin(&self) -> bool {
        self.wake();
        !self.begun.swap(true, Ordering::SeqCst)
    }

    /// One of them wakes.
    pub(crate) fn wake(&self) {
        if self.awake.fetch_add(1, Ordering::SeqCst) > 0 {
            self.met.store(true, Ordering::SeqCst);
        }
    }

    /// One of them falls asleep.
    pub(crate) fn sleep(&self) {
        self.awake.fetch_sub(1, Ordering::SeqCst);
    }

    /// Whether one of them is awake, so that another may go on by what it puts.
    pub(crate) fn is_awake(&self) -> bool {
        self.awake.load(Ordering::SeqCst) > 0
    }

    /// Whether two were awake at one time: where one thread drives all, none ever are.
    pub(crate) fn has_met(&self) -> bool {
        self.met.load(Ordering::SeqCst)
    }
}
