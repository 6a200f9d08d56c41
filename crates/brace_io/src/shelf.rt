ghost use Rattle.std.specs.Prelude.{◌≡◌, ◌<◌, ◌≤◌, ◌+◌, ◌⊎◌, ◌≢◌, ℕ, List, [], Option, Ok, Err, IfOk, OnOk, OnErr, IfErr, MatchResult, length, take, true, false};
ghost use Rattle.brace_io.specs.Counts.{Rose};
ghost use Rattle.brace_io.specs.Shelves.{Files, Stage, Idle, held_at, tells, Holds, Has, Lacks, ReadsFrom, WritesTo, StoppedAt, IsReading, IsWriting, writes, Next, OnlyAt, Adds, AddsFront};

use crate::{Failed, ReadFault};

/// A shelf of files, each with a name. One file at a time is read or written, from its first byte
/// on.
pub trait Shelf {
    /// What the shelf holds, where it tells that.
    ghost held: { Self → Option Files };

    /// How many calls failed; a count of 64 bits that never falls.
    ghost faults: { Self → ℕ };

    /// Where the shelf stands between two calls.
    ghost stage: { Self → Stage };

    /// Begins to read a file at its first byte.
    fn begin_read(&mut self, name: &str) -> Result<(), ReadFault>
        requires { writes (stage self.old) ≡ false }
        ensures held_alone { held self.new ≡ held self.old }
        ensures has { OnOk result (Has (held self.old) name.now) }
        ensures lacks { IfErr result (λ fault. fault ≡ ReadFault.Absent
            → Lacks (held self.old) name.now) }
        ensures reads { OnOk result (ReadsFrom (held self.old) (stage self.new) name.now 0) }
        ensures idle { IfErr result (λ fault. fault ≡ ReadFault.Absent → stage self.new ≡ Idle) }
        ensures stops { IfErr result (λ fault. fault ≡ ReadFault.Failed
            → StoppedAt (held self.old) (stage self.new) name.now) }
        ensures faults_alone { result ≢ Err ReadFault.Failed → faults self.new ≡ faults self.old }
        ensures never_falls { faults self.old ≤ faults self.new }
        ensures rose { IfErr result (λ fault. fault ≡ ReadFault.Failed
            → Rose (faults self.old) (faults self.new)) };

    /// Reads the next bytes into the front of the buffer, and answers their number; 0 into a buffer
    /// that is not empty is the end.
    fn read(&mut self, buffer: &mut [u8]) -> Result<usize, Failed>
        requires { IsReading (held self.old) (stage self.old) }
        ensures held_alone { held self.new ≡ held self.old }
        ensures within { IfOk result (λ n. n ≤ length buffer.new) }
        ensures next { IfOk result (λ n. (name file : List ℕ) (place : ℕ)
            → ReadsFrom (held self.old) (stage self.old) name place
            → held_at (held self.old) name ≡ Some file → Next file place buffer.new n) }
        ensures reads { IfOk result (λ n. (name : List ℕ) (place : ℕ)
            → ReadsFrom (held self.old) (stage self.old) name place
            → ReadsFrom (held self.old) (stage self.new) name (place + n)) }
        ensures stops { OnErr result ((name : List ℕ) (place : ℕ)
            → ReadsFrom (held self.old) (stage self.old) name place
            → StoppedAt (held self.old) (stage self.new) name) }
        ensures faults_alone { OnOk result (faults self.new ≡ faults self.old) }
        ensures never_falls { faults self.old ≤ faults self.new }
        ensures rose { OnErr result (Rose (faults self.old) (faults self.new)) };

    /// Makes the name hold nothing, and begins to write it.
    fn create(&mut self, name: &str) -> Result<(), Failed>
        requires { writes (stage self.old) ≡ false }
        ensures only { OnlyAt (held self.old) (held self.new) name.now }
        ensures empty { OnOk result (Holds (held self.new) name.now []) }
        ensures kept_or_empty { OnErr result
            ((held_at (held self.new) name.now ≡ held_at (held self.old) name.now)
            ⊎ Holds (held self.new) name.now []) }
        ensures writes { OnOk result (WritesTo (held self.new) (stage self.new) name.now) }
        ensures stops { OnErr result (StoppedAt (held self.new) (stage self.new) name.now) }
        ensures never_falls { faults self.old ≤ faults self.new }
        ensures rose { OnErr result (Rose (faults self.old) (faults self.new)) };

    /// Adds a front of the piece to the name that is written, and answers its length in bytes; 0 of
    /// a piece that is not empty is a failure.
    fn append(&mut self, piece: &[u8]) -> Result<usize, Failed>
        requires { IsWriting (held self.old) (stage self.old) }
        ensures only { (name : List ℕ) → WritesTo (held self.old) (stage self.old) name
            → OnlyAt (held self.old) (held self.new) name }
        ensures within { IfOk result (λ n. n ≤ length piece.now) }
        ensures adds { IfOk result (λ n. (name : List ℕ)
            → WritesTo (held self.old) (stage self.old) name
            → Adds (held self.old) (held self.new) name (take n piece.now)) }
        ensures adds_front { OnErr result ((name : List ℕ)
            → WritesTo (held self.old) (stage self.old) name
            → AddsFront (held self.old) (held self.new) name piece.now) }
        ensures writes { IfOk result (λ n. (n ≡ 0 → length piece.now ≡ 0)
            → stage self.new ≡ stage self.old) }
        ensures stops { OnErr result ((name : List ℕ)
            → WritesTo (held self.old) (stage self.old) name
            → StoppedAt (held self.new) (stage self.new) name) }
        ensures stops_at_none { IfOk result (λ n. n ≡ 0 → 0 < length piece.now → (name : List ℕ)
            → WritesTo (held self.old) (stage self.old) name
            → StoppedAt (held self.new) (stage self.new) name) }
        ensures never_falls { faults self.old ≤ faults self.new }
        ensures rose { OnErr result (Rose (faults self.old) (faults self.new)) }
        ensures rose_at_none { IfOk result (λ n. n ≡ 0 → 0 < length piece.now
            → Rose (faults self.old) (faults self.new)) };

    /// Ends the writing.
    fn finish(&mut self) -> Result<(), Failed>
        requires { IsWriting (held self.old) (stage self.old) }
        ensures held_alone { held self.new ≡ held self.old }
        ensures idle { OnOk result (stage self.new ≡ Idle) }
        ensures stops { OnErr result ((name : List ℕ)
            → WritesTo (held self.old) (stage self.old) name
            → StoppedAt (held self.new) (stage self.new) name) }
        ensures never_falls { faults self.old ≤ faults self.new }
        ensures rose { OnErr result (Rose (faults self.old) (faults self.new)) };
}
