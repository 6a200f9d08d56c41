ghost use Rattle.std.specs.Prelude.{◌≡◌, ◌<◌, ◌≤◌, [], OnOk, OnErr, length, false};
ghost use Rattle.brace_io.specs.Counts.{Rose};
ghost use Rattle.brace_io.specs.Shelves.{Idle, Holds, HoldsFront, WritesTo, StoppedAt, writes, OnlyAt, SavedFront};
ghost use Rattle.brace_io.specs.Sinks.{Gains, GainsFront};

use crate::{Failed, Shelf, Sink};

/// Writes a piece whole. After a failure a front of it was written.
pub fn write_whole<O: Sink>(out: &mut O, piece: &[u8]) -> Result<(), Failed>
    ensures all { OnOk result (Gains (O.written out.old) (O.written out.new) piece.now) }
    ensures front { OnErr result (GainsFront (O.written out.old) (O.written out.new) piece.now) }
    ensures nothing { length piece.now ≡ 0 → out.new ≡ out.old }
    ensures fails_at_bytes { OnErr result (0 < length piece.now) }
    ensures unclean { 0 < length piece.now → O.clean out.new ≡ false }
    ensures never_falls { O.faults out.old ≤ O.faults out.new }
    ensures rose { OnErr result (Rose (O.faults out.old) (O.faults out.new)) }
{
    let mut done = 0;
    while done < piece.len() {
        let n = out.write(&piece[done..])?;
        if n == 0 {
            return Err(Failed);
        }
        done += n;
    }
    Ok(())
}

/// Saves a piece whole under a name. After a failure the name is as it was, or holds a front of the
/// piece.
pub fn save_whole<S: Shelf>(shelf: &mut S, name: &str, piece: &[u8]) -> Result<(), Failed>
    requires { writes (S.stage shelf.old) ≡ false }
    ensures only { OnlyAt (S.held shelf.old) (S.held shelf.new) name.now }
    ensures all { OnOk result (Holds (S.held shelf.new) name.now piece.now) }
    ensures idle { OnOk result (S.stage shelf.new ≡ Idle) }
    ensures front { OnErr result
        (SavedFront (S.held shelf.old) (S.held shelf.new) name.now piece.now) }
    ensures stops { OnErr result (StoppedAt (S.held shelf.new) (S.stage shelf.new) name.now) }
    ensures never_falls { S.faults shelf.old ≤ S.faults shelf.new }
    ensures rose { OnErr result (Rose (S.faults shelf.old) (S.faults shelf.new)) }
{
    shelf.create(name)?;
    append_whole(shelf, name, piece)?;
    shelf.finish()
}

/// Appends a piece whole to the name that is written.
fn append_whole<S: Shelf>(shelf: &mut S, name: &str, piece: &[u8]) -> Result<(), Failed>
    requires writes { WritesTo (S.held shelf.old) (S.stage shelf.old) name.now }
    requires empty { Holds (S.held shelf.old) name.now [] }
    ensures only { OnlyAt (S.held shelf.old) (S.held shelf.new) name.now }
    ensures all { OnOk result (Holds (S.held shelf.new) name.now piece.now) }
    ensures writes { OnOk result (WritesTo (S.held shelf.new) (S.stage shelf.new) name.now) }
    ensures front { OnErr result (HoldsFront (S.held shelf.new) name.now piece.now) }
    ensures stops { OnErr result (StoppedAt (S.held shelf.new) (S.stage shelf.new) name.now) }
    ensures never_falls { S.faults shelf.old ≤ S.faults shelf.new }
    ensures rose { OnErr result (Rose (S.faults shelf.old) (S.faults shelf.new)) }
{
    let mut done = 0;
    while done < piece.len() {
        let n = shelf.append(&piece[done..])?;
        if n == 0 {
            return Err(Failed);
        }
        done += n;
    }
    Ok(())
}
