//! The plan of a text.
ghost use Rattle.std.specs.Prelude.{◌≡◌, ◌<◌, ◌==◌, ℕ, ◌&&◌, length, slice_get, map, option_map, unwrap_or, IfOk, IfErr, OnOk, Ok, Err, Some, None};
ghost use Rattle.brace_cuts.specs.CutPlans.{lines_of, without_last_end, lines_in, is_later, is_rising, are_alike, fault_of, fault_behind, first_fault, IsPlan};
ghost use Rattle.brace_cuts.specs.declared.kinds.PlanKind.{PlanKind};
ghost use Rattle.brace_cuts.specs.declared.kinds.PlanFault.TheVariants.{Bad};

use crate::line::{pieces, read_line};
use crate::space::{are_too_many, both_rise};
use crate::{CutLine, CutPlan, Cuts, PlanFault, PlanKind};
use brace_num::{List, NoMemory};
use std::alloc::Global;

/// The plan of a text, for epochs of so many ticks (at least 1); or the first faulty line with its
/// first fault.
///
/// A line is `at TICK x C.. y D..`, with one space between its parts: from that tick on, at most
/// 2^32, the plane is cut at these numbers along x and along y. It takes time in proportion to the
/// bytes.
pub fn read_plan(alloc: Global, bytes: &[u8], epoch: u64) -> Result<CutPlan, PlanFault>
    requires { 0 < epoch }
    ensures plan { IfOk result (λ plan. plan.lines ≡ lines_in (lines_of bytes.now)) }
    ensures faultless { OnOk result (first_fault epoch (lines_of bytes.now) ≡ None) }
    ensures first { (number : ℕ) (kind : PlanKind) → result ≡ Err (Bad number kind)
        → first_fault epoch (lines_of bytes.now) ≡ Some (number, kind) }
    ensures lawful { IfOk result (IsPlan epoch) }
{
    let texts = split_lines(alloc, bytes)?;
    let lines = read_lines(alloc, texts.as_slice(), epoch)?;
    Ok(CutPlan { lines })
}

// The lines of some texts, of which there is at least one.
fn read_lines(alloc: Global, texts: &[&[u8]], epoch: u64) -> Result<List<CutLine>, PlanFault>
    requires some { 0 < length texts.now }
    requires epoch { 0 < epoch }
    ensures lines { IfOk result (λ lines. lines ≡ lines_in (map (λ t. t.now) texts.now)) }
    ensures faultless { OnOk result (first_fault epoch (map (λ t. t.now) texts.now) ≡ None) }
    ensures first { (number : ℕ) (kind : PlanKind) → result ≡ Err (Bad number kind)
        → first_fault epoch (map (λ t. t.now) texts.now) ≡ Some (number, kind) }
    ensures lawful { IfOk result (λ lines. IsPlan epoch (record { lines = lines })) }
{
    let mut lines = List::new(alloc);
    for text in texts {
        let number = lines.as_slice().len() as u64 + 1;
        let line = read_line(alloc, text)?;
        match judge(lines.as_slice(), line, epoch) {
            Ok(line) => lines.push(line)?,
            Err(kind) => return Err(PlanFault::Bad(number, kind)),
        }
    }
    Ok(lines)
}

// The line that a text is, unless it has a fault behind these lines.
fn judge(earlier: &[CutLine], line: Option<CutLine>, epoch: u64) -> Result<CutLine, PlanKind>
    requires { 0 < epoch }
    ensures ok { IfOk result (λ good. (line ≡ Some good)
        × (fault_behind epoch earlier.now line ≡ None)) }
    ensures err { IfErr result (λ kind. fault_behind epoch earlier.now line ≡ Some kind) }
{
    let Some(line) = line else {
        return Err(PlanKind::BadLine);
    };
    match fault_of(earlier, &line, epoch) {
        None => Ok(line),
        Some(kind) => Err(kind),
    }
}

impl From<NoMemory> for PlanFault {
    ghost use Rattle.brace_cuts.specs.declared.kinds.PlanFault.TheVariants as fault;

    ghost from_gives = { λ _ given. given ≡ fault.NoMemory };

    fn from(_: NoMemory) -> PlanFault {
        PlanFault::NoMemory
    }
}

/// The lines of a text. Each ends with its byte 10, which the last may lack.
pub fn split_lines<'a>(alloc: Global, bytes: &'a [u8]) -> Result<Vec<&'a [u8]>, NoMemory>
    ensures { IfOk result (λ lines. map (λ p. p.now) lines.items ≡ lines_of bytes.now) }
{
    Ok(pieces(alloc, without_last_end(bytes), b'\n')?)
}

fn without_last_end<'a>(bytes: &'a [u8]) -> &'a [u8]
    ensures { result.now ≡ without_last_end bytes.now }
{
    match bytes {
        [front @ .., b'\n'] => front,
        _ => bytes,
    }
}

// The first fault of a line of the form behind these lines, if it has one.
fn fault_of(earlier: &[CutLine], line: &CutLine, epoch: u64) -> Option<PlanKind>
    requires { 0 < epoch }
    ensures { result ≡ fault_of epoch earlier.now line.now }
{
    if !is_rising(earlier, line) {
        Some(PlanKind::NotRising)
    } else if line.tick % epoch != 0 {
        Some(PlanKind::OffEpoch)
    } else if !is_like_first(earlier, line) {
        Some(PlanKind::OtherCount)
    } else if are_too_many(&line.cuts) {
        Some(PlanKind::TooMany)
    } else {
        None
    }
}

fn is_rising(earlier: &[CutLine], line: &CutLine) -> bool
    ensures { result ≡ is_rising earlier.now line.now }
{
    both_rise(&line.cuts) && is_later(earlier.last(), line.tick)
}

fn is_later(before: Option<&CutLine>, tick: u64) -> bool
    ensures { result ≡ is_later (option_map (λ line. line.now) before.entry) tick }
{
    match before {
        None => tick == 0,
        Some(line) => line.tick < tick,
    }
}

// Whether a line has as many cuts along x and along y as the first one.
fn is_like_first(earlier: &[CutLine], line: &CutLine) -> bool
    ensures { result ≡ are_alike (unwrap_or (slice_get earlier.now 0) line.now) line.now }
{
    match earlier.first() {
        Some(first) => are_alike(&first.cuts, &line.cuts),
        None => true,
    }
}

fn are_alike(a: &Cuts, b: &Cuts) -> bool
    ensures { result ≡
        (length a.now.xs == length b.now.xs && length a.now.ys == length b.now.ys) }
{
    a.xs.as_slice().len() == b.xs.as_slice().len() && a.ys.as_slice().len() == b.ys.as_slice().len()
}
