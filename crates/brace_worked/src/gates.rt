//! Workers that are held at a gate until another one has passed it.
use crate::answer::{Desk, Found};
use crate::case::Case;
use crate::texts::append_line;
use crate::unfit::Unfit;
use brace_io::Gate;
use std::alloc::Global;
use std::sync::Wait;
use std::sync::atomic::{AtomicU64, Ordering};
use std::thread;
use std::thread::Threads;

/// A bench that is held at a tick until the other one has passed the gate so many times.
pub type Hold = (usize, u64, u64);

/// A gate that holds benches 0 and 1, each hold for at most 10,000,000 looks.
#[derive(Drop)]
struct HoldingGate {
    holds: [Hold; 2],
    first: AtomicU64,
    second: AtomicU64,
    ran_out: AtomicU64,
}

impl HoldingGate {
    fn make(holds: [Hold; 2]) -> HoldingGate {
        HoldingGate {
            holds,
            first: AtomicU64::new(0),
            second: AtomicU64::new(0),
            ran_out: AtomicU64::new(0),
        }
    }

    /// How often a bench has passed.
    fn count(&self, bench: usize) -> &AtomicU64 {
        if bench == 0 {
            &self.first
        } else {
            &self.second
        }
    }

    /// Waits until a bench has passed so many times.
    fn hold(&self, other: usize, times: u64) {
        for _ in 0..10_000_000 {
            if self.count(other).load(Ordering::SeqCst) >= times {
                return;
            }
            thread::yield_now();
        }
        self.ran_out.fetch_add(1, Ordering::SeqCst);
    }
}

impl Gate for HoldingGate {
    fn pass(&self, bench: usize, tick: u64) {
        for (held, at, times) in self.holds {
            if held == bench && at == tick {
                self.hold(if bench == 0 { 1 } else { 0 }, times);
            }
        }
        self.count(bench).fetch_add(1, Ordering::SeqCst);
    }
}

const RESTING: &str = "class T { public state fixed x; public state fixed y; }";

const RUN: &str = "run --script s --agents a --ticks 4 --every 4 --cuts k --workers 2";

/// Two agents in two parts that never meet.
fn resting<'a>(alloc: Global) -> Result<Case<'a>, Unfit> {
    let mut case = Case::new(alloc, RUN);
    append_line(&mut case.script, RESTING)?;
    append_line(&mut case.agents, "T,1,0,0")?;
    append_line(&mut case.agents, "T,2,100,0")?;
    append_line(&mut case.cuts, "at 0 x 50 y")?;
    Ok(case)
}

/// Whether no hold of a gate runs out over two parts that never meet, on two workers.
pub fn is_passed<R: Threads + Wait + Sync>(
    rt: &R,
    alloc: Global,
    holds: [Hold; 2],
) -> Result<bool, Unfit> {
    let gate = HoldingGate::make(holds);
    let mut desk = Desk::of(alloc, &resting(alloc)?, Found::Nothing)?;
    let status = desk.give(rt, alloc, RUN, &gate)?;
    Ok(status == 0 && gate.ran_out.load(Ordering::SeqCst) == 0)
}
