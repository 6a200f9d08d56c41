//! The watches of a file.
ghost use Rattle.std.specs.Prelude.{◌≡◌, ◌≤◌, ◌<◌, ℕ, length, map, IfOk, IfErr, OnOk, Ok, Err, Some, None};
ghost use Rattle.brace_watch.specs.Lines.{texts_of};
ghost use Rattle.brace_watch.specs.Watches.{watch_of, watches_in, fault_of, first_fault, IsWatch, AreWatches};
ghost use Rattle.std.specs.List.{All};
ghost use Rattle.brace_watch.specs.declared.kinds.WatchKind.{WatchKind};
ghost use Rattle.brace_watch.specs.declared.kinds.WatchFault.TheVariants.{Bad};

use crate::line::read_line;
use crate::name::watch_of;
use crate::{Watch, WatchFault, WatchKind};
use brace_cuts::split_lines;
use brace_model::Program;
use brace_num::{List, NoMemory};
use std::alloc::Global;

/// The watches that a file asks for in the runs of a program, at most 64, in the order of its
/// lines; or its first faulty line with that line's first fault.
///
/// A line is `count CLASS`, or `sum`, `min` or `max` with `CLASS FIELD`, and may go on with
/// ` where FIELD OP VALUE`. It takes time in proportion to the bytes.
pub fn read_watch(alloc: Global, program: &Program, bytes: &[u8]) -> Result<Vec<Watch>, WatchFault>
    ensures watches { IfOk result (λ watches. watches.items
        ≡ watches_in program.now (texts_of bytes.now)) }
    ensures faultless { OnOk result (first_fault program.now (texts_of bytes.now) ≡ None) }
    ensures first { (number : ℕ) (kind : WatchKind) → result ≡ Err (Bad number kind)
        → first_fault program.now (texts_of bytes.now) ≡ Some (number, kind) }
    ensures asked { IfOk result (λ watches. AreWatches program.now watches.items) }
    ensures each { IfOk result (λ watches. All (IsWatch program.now) watches.items) }
    ensures few { IfOk result (λ watches. length watches.items ≤ 64) }
{
    let texts = split_texts(alloc, bytes)?;
    let watches = read_lines(alloc, program, texts.as_slice())?;
    Ok(watches.into_vec())
}

// The watches of some lines.
fn read_lines(alloc: Global, program: &Program, texts: &[&[u8]]) -> Result<List<Watch>, WatchFault>
    ensures watches { IfOk result (λ watches. watches
        ≡ watches_in program.now (map (λ t. t.now) texts.now)) }
    ensures faultless { OnOk result (first_fault program.now (map (λ t. t.now) texts.now) ≡ None) }
    ensures first { (number : ℕ) (kind : WatchKind) → result ≡ Err (Bad number kind)
        → first_fault program.now (map (λ t. t.now) texts.now) ≡ Some (number, kind) }
    ensures few { IfOk result (λ watches. length watches ≤ 64) }
{
    let mut watches = List::new(alloc);
    for text in texts {
        let number = watches.as_slice().len() as u64 + 1;
        let line = read_line(alloc, text)?;
        match judge(number, watch_of(program, line)?) {
            Ok(watch) => watches.push(watch)?,
            Err(kind) => return Err(WatchFault::Bad(number, kind)),
        }
    }
    Ok(watches)
}

impl From<NoMemory> for WatchFault {
    ghost use Rattle.brace_watch.specs.declared.kinds.WatchFault.TheVariants as fault;

    ghost from_gives = { λ _ given. given ≡ fault.NoMemory };

    fn from(_: NoMemory) -> WatchFault {
        WatchFault::NoMemory
    }
}

const MOST_WATCHES: u64 = 64;

// The watch of line number n, unless the line has a fault.
fn judge(number: u64, watch: Result<Watch, WatchKind>) -> Result<Watch, WatchKind>
    ensures ok { IfOk result (λ good. (watch ≡ Ok good) × (fault_of number watch ≡ None)) }
    ensures err { IfErr result (λ kind. fault_of number watch ≡ Some kind) }
    ensures few { OnOk result (number ≤ 64) }
{
    let watch = watch?;
    if number > MOST_WATCHES {
        return Err(WatchKind::TooMany);
    }
    Ok(watch)
}

// The lines of a file, of which an empty one has none.
fn split_texts<'a>(alloc: Global, bytes: &'a [u8]) -> Result<Vec<&'a [u8]>, NoMemory>
    ensures { IfOk result (λ lines. map (λ p. p.now) lines.items ≡ texts_of bytes.now) }
{
    if bytes.is_empty() {
        return Ok(Vec::new(alloc));
    }
    split_lines(alloc, bytes)
}
