ghost use Rattle.std.specs.Prelude.{◌≡◌, ◌<◌, ◌≤◌, ℕ, List, Option, IfOk, OnOk, OnErr, length, take, Bool, true, false};
ghost use Rattle.brace_io.specs.Counts.{Rose};
ghost use Rattle.brace_io.specs.Sinks.{Gains, GainsFront};

use crate::Failed;

/// Where bytes go, one behind the other.
pub trait Sink {
    /// All that was written, where the sink tells it.
    ghost written: { Self → Option (List ℕ) };

    /// How many calls failed; a count of 64 bits that never falls.
    ghost faults: { Self → ℕ };

    /// Nothing was written since the last flush that answered Ok.
    ghost clean: { Self → Bool };

    /// Writes a front of the piece, and answers its length in bytes.
    fn write(&mut self, piece: &[u8]) -> Result<usize, Failed>
        ensures within { IfOk result (λ n. n ≤ length piece.now) }
        ensures adds { IfOk result
            (λ n. Gains (written self.old) (written self.new) (take n piece.now)) }
        ensures adds_front { OnErr result
            (GainsFront (written self.old) (written self.new) piece.now) }
        ensures unclean { clean self.new ≡ false }
        ensures never_falls { faults self.old ≤ faults self.new }
        ensures rose { OnErr result (Rose (faults self.old) (faults self.new)) }
        ensures rose_at_none { IfOk result (λ n. n ≡ 0 → 0 < length piece.now
            → Rose (faults self.old) (faults self.new)) };

    /// Hands on what was written so far. After a failure the sink is as clean as before.
    fn flush(&mut self) -> Result<(), Failed>
        ensures same { written self.new ≡ written self.old }
        ensures cleaned { OnOk result (clean self.new ≡ true) }
        ensures as_clean { OnErr result (clean self.new ≡ clean self.old) }
        ensures never_falls { faults self.old ≤ faults self.new }
        ensures rose { OnErr result (Rose (faults self.old) (faults self.new)) };
}
