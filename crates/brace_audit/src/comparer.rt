//! The bytes of a file beside those that are expected.
ghost use Rattle.std.specs.Prelude.{◌≡◌, ◌<◌, ◌≤◌, ◌+◌, ◌-◌, ◌==◌, ◌≢◌, [], ◌∷◌, ℕ, cond, Err, IfOk, OnOk, OnErr, length, false};
ghost use Rattle.brace_model.specs.declared.fault.Fault.{Fault};
ghost use Rattle.brace_io.specs.Counts.{Rose};
ghost use Rattle.brace_io.specs.Shelves.{writes, StoppedAt};
ghost use Rattle.brace_audit.specs.declared.fault.AuditFault.TheVariants as found;
ghost use Rattle.brace_audit.specs.inner.Leaving.{Leaves};
ghost use Rattle.brace_audit.specs.inner.Reading.{Comparing, GoesOn, Departs, Stops, GoesFurther};

use crate::AuditFault;
use brace_io::{Failed, Shelf};
use brace_num::NoMemory;
use std::alloc::{AllocError, Global};

/// The most bytes that one read asks for.
const CHUNK: usize = 65536;

/// A place in a file that is read in pieces: its bytes up to there were the expected ones.
#[derive(Drop)]
pub(crate) struct Comparer {
    chunk: Vec<u8>,
    /// Where the first byte of the chunk stands that was not compared.
    place: usize,
    /// How many bytes of the chunk were read.
    filled: usize,
    /// The number of the line of that byte, from 1.
    line: u64,
}

impl Comparer {
    /// A comparer that has read nothing.
    pub(crate) fn make(alloc: Global) -> Result<Comparer, AllocError>
        ensures chunk { IfOk result (λ c. 0 < length c.chunk.items) }
        ensures place { IfOk result (λ c. c.place ≡ 0) }
        ensures filled { IfOk result (λ c. c.filled ≡ 0) }
        ensures line { IfOk result (λ c. c.line ≡ 1) }
    {
        let chunk = vec![in alloc; 0; CHUNK]?;
        Ok(Comparer {
            chunk,
            place: 0,
            filled: 0,
            line: 1,
        })
    }

    /// Reads more where all that was read is compared; where that is nothing, the file ends.
    fn fill<S: Shelf>(&mut self, shelf: &mut S, name: &str) -> Result<(), Failed>
        requires { Comparing (S.held shelf.old) (S.stage shelf.old) name.now self.old }
        ensures goes_on { OnOk result (GoesOn (S.held shelf.old) (S.stage shelf.old) self.old
            (S.held shelf.new) (S.stage shelf.new) self.new name.now []) }
        ensures stops { OnOk result (self.new.place ≡ self.new.filled
            → Stops (S.held shelf.old) (S.stage shelf.old) self.old name.now) }
        ensures held_alone { S.held shelf.new ≡ S.held shelf.old }
        ensures not_writing { writes (S.stage shelf.new) ≡ false }
        ensures faults_alone { OnOk result (S.faults shelf.new ≡ S.faults shelf.old) }
        ensures never_falls { S.faults shelf.old ≤ S.faults shelf.new }
        ensures rose { OnErr result (Rose (S.faults shelf.old) (S.faults shelf.new)) }
        ensures stopped { OnErr result
            (StoppedAt (S.held shelf.old) (S.stage shelf.new) name.now) }
    {
        if self.place < self.filled {
            return Ok(());
        }
        let got = shelf.read(&mut self.chunk)?;
        self.place = 0;
        self.filled = got;
        Ok(())
    }

    /// Goes behind a byte that was the expected one.
    fn pass(&mut self, byte: u8) -> Result<(), NoMemory>
        requires { self.old.place < self.old.filled }
        ensures { OnOk result (self.new ≡ record self.old {
          place = self.old.place + 1;
          line = self.old.line + cond (byte == 10) 1 0;
        }) }
    {
        if byte == b'\n' {
            match self.line.checked_add(1) {
                Some(line) => self.line = line,
                None => return Err(NoMemory),
            }
        }
        self.place += 1;
        Ok(())
    }

    /// Goes behind the next byte of the file where it is this one.
    fn expect_byte<S: Shelf>(
        &mut self,
        shelf: &mut S,
        name: &str,
        byte: u8,
    ) -> Result<(), AuditFault>
        requires { Comparing (S.held shelf.old) (S.stage shelf.old) name.now self.old }
        ensures goes_on { OnOk result (GoesOn (S.held shelf.old) (S.stage shelf.old) self.old
            (S.held shelf.new) (S.stage shelf.new) self.new name.now (byte ∷ [])) }
        ensures departs { (line : ℕ) → result ≡ Err (found.Differs line)
            → Departs (S.held shelf.old) (S.stage shelf.old) self.old name.now (byte ∷ []) line }
        ensures present { result ≢ Err found.Absent }
        ensures faultless { (f : Fault) → result ≢ Err (found.Fault f) }
        ensures leaves { Leaves S.Shelf shelf.old shelf.new name.now (result ≡ Err found.Failed) }
    {
        self.fill(shelf, name)?;
        if self.place == self.filled {
            return Err(AuditFault::Differs(self.line));
        }
        if self.chunk[self.place] != byte {
            return Err(AuditFault::Differs(self.line));
        }
        self.pass(byte)?;
        Ok(())
    }

    /// Goes behind the next bytes of the file where they are these.
    pub(crate) fn expect<S: Shelf>(
        &mut self,
        shelf: &mut S,
        name: &str,
        piece: &[u8],
    ) -> Result<(), AuditFault>
        requires { Comparing (S.held shelf.old) (S.stage shelf.old) name.now self.old }
        ensures goes_on { OnOk result (GoesOn (S.held shelf.old) (S.stage shelf.old) self.old
            (S.held shelf.new) (S.stage shelf.new) self.new name.now piece.now) }
        ensures departs { (line : ℕ) → result ≡ Err (found.Differs line)
            → Departs (S.held shelf.old) (S.stage shelf.old) self.old name.now piece.now line }
        ensures present { result ≢ Err found.Absent }
        ensures faultless { (f : Fault) → result ≢ Err (found.Fault f) }
        ensures leaves { Leaves S.Shelf shelf.old shelf.new name.now (result ≡ Err found.Failed) }
    {
        let mut done = 0;
        while done < piece.len() {
            self.expect_byte(shelf, name, piece[done])?;
            done += 1;
        }
        Ok(())
    }

    /// Whether the file ends here.
    pub(crate) fn expect_end<S: Shelf>(
        &mut self,
        shelf: &mut S,
        name: &str,
    ) -> Result<(), AuditFault>
        requires { Comparing (S.held shelf.old) (S.stage shelf.old) name.now self.old }
        ensures stops { OnOk result
            (Stops (S.held shelf.old) (S.stage shelf.old) self.old name.now) }
        ensures goes_further { (line : ℕ) → result ≡ Err (found.Differs line)
            → GoesFurther (S.held shelf.old) (S.stage shelf.old) self.old name.now line }
        ensures present { result ≢ Err found.Absent }
        ensures faultless { (f : Fault) → result ≢ Err (found.Fault f) }
        ensures leaves { Leaves S.Shelf shelf.old shelf.new name.now (result ≡ Err found.Failed) }
    {
        self.fill(shelf, name)?;
        if self.place != self.filled {
            return Err(AuditFault::Differs(self.line));
        }
        Ok(())
    }
}
