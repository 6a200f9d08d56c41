//! One line of a cut plan.
ghost use Rattle.std.specs.Prelude.{◌≡◌, ◌==◌, map, position, codes, IfOk};
ghost use Rattle.std.specs.List.{slice_split};
ghost use Rattle.std.specs.Str.{bytes_eq};
ghost use Rattle.brace_cuts.specs.CutPlans.{tick_in_range, tick_of, cut_in_range, cut_of, cuts_of, line_with, line_around, line_in, line_of};

use crate::{CutLine, Cuts};
use brace_num::{List, NoMemory, read_count, read_fixed};
use std::alloc::{AllocError, Global};

const LAST_TICK: u64 = 4_294_967_296;

/// What stands between the bytes of a kind.
pub fn pieces<'a>(alloc: Global, bytes: &'a [u8], end: u8) -> Result<Vec<&'a [u8]>, AllocError>
    ensures { IfOk result (λ pieces. map (λ p. p.now) pieces.items
        ≡ slice_split (λ b. b == end) bytes.now) }
{
    bytes.split(move |byte| *byte == end).collect(alloc)
}

/// The line that a text is, if it has the form of one.
pub(crate) fn read_line(alloc: Global, text: &[u8]) -> Result<Option<CutLine>, NoMemory>
    ensures { IfOk result (λ line. line ≡ line_of text.now) }
{
    let parts = pieces(alloc, text, b' ')?;
    read_parts(alloc, parts.as_slice())
}

fn read_parts(alloc: Global, parts: &[&[u8]]) -> Result<Option<CutLine>, NoMemory>
    ensures { IfOk result (λ line. line ≡ line_in (map (λ p. p.now) parts.now)) }
{
    match parts {
        [at, tick, x, cuts @ ..] if *at == b"at".as_slice() && *x == b"x".as_slice() => {
            read_rest(alloc, tick, cuts)
        }
        _ => Ok(None),
    }
}

// The line of a tick, cuts along x, `y`, and cuts along y.
fn read_rest(alloc: Global, tick: &[u8], cuts: &[&[u8]]) -> Result<Option<CutLine>, NoMemory>
    ensures { IfOk result (λ line. line ≡ line_around tick.now (map (λ p. p.now) cuts.now)
        (position (λ part. bytes_eq part (codes "y")) (map (λ p. p.now) cuts.now))) }
{
    let Some(y) = find_y(cuts) else {
        return Ok(None);
    };
    let xs = read_cuts(alloc, &cuts[..y])?;
    let ys = read_cuts(alloc, &cuts[y + 1..])?;
    Ok(line_with(read_tick(tick), xs, ys))
}

fn line_with(tick: Option<u64>, xs: Option<List<i64>>, ys: Option<List<i64>>) -> Option<CutLine>
    ensures { result ≡ line_with tick xs ys }
{
    let (tick, xs, ys) = (tick?, xs?, ys?);
    Some(CutLine {
        tick,
        cuts: Cuts { xs, ys },
    })
}

fn find_y(parts: &[&[u8]]) -> Option<usize>
    ensures { result ≡ position (λ part. bytes_eq part.now (codes "y")) parts.now }
{
    parts.iter().position(|part| *part == b"y".as_slice())
}

fn read_tick(text: &[u8]) -> Option<u64>
    ensures { result ≡ tick_of text.now }
{
    tick_in_range(read_count(text))
}

fn tick_in_range(count: Option<u64>) -> Option<u64>
    ensures { result ≡ tick_in_range count }
{
    match count {
        Some(tick) if tick <= LAST_TICK => Some(tick),
        _ => None,
    }
}

// The cuts of some texts, where each spells one.
fn read_cuts(alloc: Global, texts: &[&[u8]]) -> Result<Option<List<i64>>, NoMemory>
    ensures { IfOk result (λ cuts. cuts ≡ cuts_of (map (λ p. p.now) texts.now)) }
{
    let mut cuts = List::new(alloc);
    for text in texts {
        let Some(cut) = read_cut(text) else {
            return Ok(None);
        };
        cuts.push(cut)?;
    }
    Ok(Some(cuts))
}

fn read_cut(text: &[u8]) -> Option<i64>
    ensures { result ≡ cut_of text.now }
{
    cut_in_range(read_fixed(text))
}

fn cut_in_range(number: Option<i64>) -> Option<i64>
    ensures { result ≡ cut_in_range number }
{
    match number {
        Some(cut) if cut > i64::MIN => Some(cut),
        _ => None,
    }
}
