//! Commands of which each call fails in turn.
use crate::answer::{Desk, Found};
use crate::case::{Case, Failing};
use crate::unfit::Unfit;
use brace_io::OpenGate;
use std::alloc::Global;
use std::sync::Wait;
use std::thread::Threads;

/// A number of calls that no command of the file gets to.
const MOST_CALLS: u64 = 10_000;

/// How often a command is given, with these words, until none of its calls is left that fails and
/// it comes to what was worked; none where it comes to anything but such a failure before.
pub fn times_until_worked<R: Threads + Wait + Sync>(
    rt: &R,
    alloc: Global,
    case: &Case,
    words: &str,
    failing: Failing,
) -> Result<Option<u64>, Unfit> {
    for number in 1..MOST_CALLS {
        let found = match failing {
            Failing::Shelf => Found::ShelfFails(number),
            Failing::Sink => Found::SinkFails(number),
        };
        let mut desk = Desk::of(alloc, case, found)?;
        let status = desk.give(rt, alloc, words, &OpenGate)?;
        if status == case.status && desk.is_as(case) {
            return Ok(Some(number));
        }
        if !desk.has_failed(failing, status) || !desk.holds_fronts(case) {
            return Ok(None);
        }
    }
    Ok(None)
}

impl Desk {
    /// Whether the status and the message are those of a call that failed.
    fn has_failed(&self, failing: Failing, status: u8) -> bool {
        let (out, err) = (self.out.inner.bytes(), self.err.inner.bytes());
        match (failing, status) {
            (Failing::Sink, 9) => err == b"brace: write fault\n".as_slice(),
            (Failing::Shelf, 8) => err.ends_with(b": read fault\n") && out.is_empty(),
            (Failing::Shelf, 10) => err.ends_with(b": save fault\n"),
            _ => false,
        }
    }
}
