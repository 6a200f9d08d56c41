ghost use Rattle.std.specs.Prelude.{◌≡◌, ◌≤◌, ◌+◌, ◌≢◌, ◌⊎◌, Err, IfOk, IfErr, length, vec_len, true, false};
ghost use Rattle.brace_io.specs.Counts.{Rose};
ghost use Rattle.brace_io.specs.Shelves.{Idle, tells, Holds, HoldsOver, Lacks, ReadsFrom, ReadsWithin, StoppedAt, writes};

use crate::{ReadFault, Shelf, WholeFault};
use std::alloc::{AllocError, Global};

/// The most bytes that one read asks for.
const CHUNK: usize = 65536;

/// Reads a file of at most `limit` bytes whole. It stops at the first byte past the limit.
pub fn read_whole<S: Shelf>(
    alloc: Global,
    shelf: &mut S,
    name: &str,
    limit: u64,
) -> Result<Vec<u8>, WholeFault>
    requires { writes (S.stage shelf.old) ≡ false }
    ensures held_alone { S.held shelf.new ≡ S.held shelf.old }
    ensures all { IfOk result (λ bytes. Holds (S.held shelf.old) name.now bytes.items) }
    ensures within { IfOk result (λ bytes. length bytes.items ≤ limit) }
    ensures reads { IfOk result (λ bytes. ReadsFrom (S.held shelf.old) (S.stage shelf.new) name.now
        (length bytes.items)) }
    ensures lacks { IfErr result (λ fault. fault ≡ WholeFault.Absent
        → Lacks (S.held shelf.old) name.now) }
    ensures idle { IfErr result (λ fault. fault ≡ WholeFault.Absent → S.stage shelf.new ≡ Idle) }
    ensures long { IfErr result (λ fault. fault ≡ WholeFault.TooLong
        → HoldsOver (S.held shelf.old) name.now limit) }
    ensures stops_past { IfErr result (λ fault. fault ≡ WholeFault.TooLong
        → ReadsFrom (S.held shelf.old) (S.stage shelf.new) name.now (limit + 1)) }
    ensures refused { IfErr result (λ fault. fault ≡ WholeFault.NoMemory
        → ReadsWithin (S.held shelf.old) (S.stage shelf.new) name.now limit) }
    ensures stops { IfErr result (λ fault. fault ≡ WholeFault.Failed
        → StoppedAt (S.held shelf.old) (S.stage shelf.new) name.now) }
    ensures not_writing { writes (S.stage shelf.new) ≡ false }
    ensures absent { tells (S.held shelf.old) ≡ true → Lacks (S.held shelf.old) name.now
        → IfErr result (λ fault. (fault ≡ WholeFault.Absent) ⊎ (fault ≡ WholeFault.Failed)) }
    ensures faults_alone { result ≢ Err WholeFault.Failed
        → S.faults shelf.new ≡ S.faults shelf.old }
    ensures never_falls { S.faults shelf.old ≤ S.faults shelf.new }
    ensures rose { IfErr result (λ fault. fault ≡ WholeFault.Failed
        → Rose (S.faults shelf.old) (S.faults shelf.new)) }
{
    match shelf.begin_read(name) {
        Ok(()) => {}
        Err(ReadFault::Absent) => return Err(WholeFault::Absent),
        Err(ReadFault::Failed) => return Err(WholeFault::Failed),
    }
    let mut chunk = zeros(alloc, CHUNK)?;
    let mut bytes = Vec::new(alloc);
    'file: loop {
        let room = limit - bytes.len() as u64;
        let wanted = room.min(CHUNK as u64 - 1) as usize + 1;
        let buffer = &mut chunk[..wanted];
        let got = shelf.read(buffer)?;
        if got == 0 {
            return Ok(bytes);
        }
        if got as u64 > room {
            return Err(WholeFault::TooLong);
        }
        bytes.extend_from_slice(&buffer[..got])?;
    }
}

/// A vector of zeros.
fn zeros(alloc: Global, length: usize) -> Result<Vec<u8>, AllocError>
    ensures { IfOk result (λ bytes. vec_len bytes ≡ length) }
{
    Ok(vec![in alloc; 0; length]?)
}
