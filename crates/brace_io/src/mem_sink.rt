ghost use Rattle.std.specs.Prelude.{◌≡◌, ◌<◌, ◌≤◌, ◌-◌, [], ◌++◌, min, take, length, is_err, IfOk, OnOk, OnErr, true, false, Some};
ghost use Rattle.brace_io.specs.Counts.{Rose, next_count};
ghost use Rattle.brace_io.specs.Sinks.{Gains, GainsFront};
ghost use Rattle.brace_io.specs.MemSinks.{Kept, write_fails, flush_fails};

use crate::count::Count;
use crate::{Failed, Sink};
use brace_num::NoMemory;
use std::alloc::Global;
use std::marker::Model;

/// A sink in memory with a room in bytes, all of which it takes when it is made. The calls of
/// `write` and `flush` whose numbers it was given, counted from 1, fail, and so does a write of a
/// piece that is not empty once the room is spent.
#[derive(Drop)]
pub struct MemSink {
    bytes: Vec<u8>,
    room: usize,
    fails: Vec<u64>,
    calls: Count,
    faults: Count,
    clean: bool,
}

impl Model for MemSink {
    ghost use Rattle.std.specs.Prelude.{◌≤◌, vec_len, vec_capacity};
    ghost use Rattle.brace_io.specs.MemSinks.{Kept};

    ghost Value = { Kept };

    ghost view = { λ s. record {
      written = s.bytes.items;
      room = s.room;
      fails = s.fails.items;
      calls = s.calls;
      faults = s.faults;
      clean = s.clean;
    } };

    ghost invariant = { λ s. (vec_len s.bytes ≤ s.room) × (s.room ≤ vec_capacity s.bytes) };
}

impl MemSink {
    /// A clean sink that holds nothing, with room for `room` bytes; `fails` are the numbers of the
    /// calls that fail.
    pub fn make(alloc: Global, room: u64, fails: Vec<u64>) -> Result<MemSink, NoMemory>
        ensures { IfOk result (λ sink. sink ≡
            record {
              written = [];
              room = room;
              fails = fails.items;
              calls = 0;
              faults = 0;
              clean = true;
            }) }
    {
        Ok(MemSink {
            bytes: Vec::with_capacity(alloc, room as usize)?,
            room: room as usize,
            fails,
            calls: Count::zero(),
            faults: Count::zero(),
            clean: true,
        })
    }

    /// All that was written.
    pub fn bytes(&self) -> &[u8]
        ensures { result.now ≡ self.now.written }
    {
        self.bytes.as_slice()
    }
}

impl Sink for MemSink {
    ghost written = { λ s. Some s.written };

    ghost faults = { λ s. s.faults };

    ghost clean = { λ s. s.clean };

    fn write(&mut self, piece: &[u8]) -> Result<usize, Failed>
        ensures never_falls { self.old.faults ≤ self.new.faults }
        ensures fails { is_err result ≡ write_fails self.old piece.now }
        ensures count { IfOk result (λ n. n
            ≡ min (length piece.now) (self.old.room - length self.old.written)) }
        ensures wrote { IfOk result (λ n. self.new ≡
            record self.old {
              written = self.old.written ++
                  take n piece.now;
              calls = next_count self.old.calls;
              clean = false;
            }) }
        ensures failed { OnErr result (self.new ≡
            record self.old {
              calls = next_count self.old.calls;
              faults = next_count self.old.faults;
              clean = false;
            }) }
    {
        self.calls.raise();
        self.clean = false;
        let left = self.room - self.bytes.len();
        if self.fails.contains(&self.calls.number()) || !piece.is_empty() && left == 0 {
            self.faults.raise();
            return Err(Failed);
        }
        let n = piece.len().min(left);
        if self.bytes.extend_from_slice(&piece[..n]).is_err() {
            self.faults.raise();
            return Err(Failed);
        }
        Ok(n)
    }

    fn flush(&mut self) -> Result<(), Failed>
        ensures never_falls { self.old.faults ≤ self.new.faults }
        ensures fails { is_err result ≡ flush_fails self.old }
        ensures flushed { OnOk result (self.new ≡
            record self.old { calls = next_count self.old.calls; clean = true }) }
        ensures failed { OnErr result (self.new ≡
            record self.old {
              calls = next_count self.old.calls;
              faults = next_count self.old.faults;
            }) }
    {
        self.calls.raise();
        if self.fails.contains(&self.calls.number()) {
            self.faults.raise();
            return Err(Failed);
        }
        self.clean = true;
        Ok(())
    }
}
