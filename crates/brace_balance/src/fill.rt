//! Strips that are filled from the left.
ghost use Rattle.std.specs.Prelude.{◌≡◌, ◌++◌, ◌<◌, IfOk, OnOk, IsTrue, length, slice_get};
ghost use Rattle.brace_balance.specs.Loads.{never_falls};
ghost use Rattle.brace_balance.specs.Fillings.{not_below, filled, first_of_strips};

use brace_num::{List, NoMemory};
use std::alloc::Global;

/// The numbers that are not below `cut`, found by halving.
fn not_below(xs: &[i64], cut: i64) -> &[i64]
    requires { IsTrue (never_falls xs.now) }
    ensures { result.now ≡ not_below cut xs.now }
{
    let start = xs.partition_point(|v| *v < cut);
    &xs[start..]
}

/// The number at a place, if there is one.
fn number_at(xs: &[i64], i: usize) -> Option<i64>
    ensures { result ≡ slice_get xs.now i }
{
    xs.get(i).copied()
}

/// How many cuts there are, at most `most`, if strips are filled from the left with up to `n`.
pub(crate) fn count_filled(xs: &[i64], n: usize, most: u32) -> u32
    requires { IsTrue (never_falls xs.now) }
    ensures { result ≡ length (filled n most xs.now) }
{
    let mut rest = xs;
    for i in 0..most {
        match number_at(rest, n) {
            None => return i,
            Some(cut) => rest = not_below(rest, cut),
        }
    }
    most
}

/// Pushes these cuts.
pub(crate) fn fill(cuts: &mut List<i64>, xs: &[i64], n: usize, most: u32) -> Result<(), NoMemory>
    requires { IsTrue (never_falls xs.now) }
    ensures { OnOk result (cuts.new ≡ cuts.old ++ filled n most xs.now) }
{
    let mut rest = xs;
    for i in 0..most {
        match number_at(rest, n) {
            None => return Ok(()),
            Some(cut) => {
                cuts.push(cut)?;
                rest = not_below(rest, cut);
            }
        }
    }
    Ok(())
}

/// The first numbers of the first strips, one more than `most`.
pub(crate) fn posts(alloc: Global, xs: &[i64], n: usize, most: u32) -> Result<List<i64>, NoMemory>
    requires filled { 0 < length xs.now }
    requires sorted { IsTrue (never_falls xs.now) }
    ensures { IfOk result (λ posts. posts ≡ first_of_strips n most xs.now) }
{
    let mut posts = List::new(alloc);
    posts.push(xs[0])?;
    fill(&mut posts, xs, n, most)?;
    Ok(posts)
}
