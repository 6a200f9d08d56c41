ghost use Rattle.std.specs.Prelude.{◌≡◌, ℕ, ◌<◌, ◌≤◌, ◌+◌, ◌++◌, ◌∷◌, [], length, take, if◌then◌else◌, IfOk, OnOk};
ghost use Rattle.std.specs.List.{list_all};
ghost use Rattle.brace_fold.specs.inner.Sights.{Appended, found_around, found_in, is_found, is_seen, meets_cut, spots_along};

use crate::cells::{Cells, Run, Runs, Spot};
use brace_code::Redo;
use brace_plan::{Axis, Side, stands};

/// A bound whose limit is known.
#[derive(Clone, Copy, Drop)]
pub struct Cut {
    pub axis: Axis,
    pub side: Side,
    pub limit: i64,
}

/// What an agent looks for: agents of a class within a range of it, but not itself.
#[derive(Clone, Copy, Drop)]
pub struct Eye {
    pub x: i64,
    pub y: i64,
    pub range: u64,
    pub class: u32,
    pub place: u32,
}

/// Whether an agent at a spot meets a cut.
fn meets(cut: &Cut, spot: &Spot) -> bool
    ensures { result ≡ meets_cut spot.now cut.now }
{
    match cut.axis {
        Axis::X => stands(cut.side, cut.limit, spot.x),
        Axis::Y => stands(cut.side, cut.limit, spot.y),
    }
}

/// Whether an agent at a spot meets all cuts.
fn meets_all(cuts: &[Cut], spot: &Spot) -> bool
    ensures { result ≡ list_all (meets_cut spot.now) cuts.now }
{
    for cut in cuts {
        if !meets(cut, spot) {
            return false;
        }
    }
    true
}

/// Whether an agent at a spot is of the class and within the range, told without a branch.
fn is_seen(eye: &Eye, spot: &Spot) -> bool
    ensures { result ≡ is_seen eye.now spot.now }
{
    (spot.class == eye.class)
        & (eye.x.abs_diff(spot.x) <= eye.range)
        & (eye.y.abs_diff(spot.y) <= eye.range)
}

/// Whether an agent at a spot is looked for and meets all cuts.
fn is_found(eye: &Eye, cuts: &[Cut], spot: &Spot) -> bool
    ensures { result ≡ is_found eye.now cuts.now spot.now }
{
    is_seen(eye, spot) && spot.place != eye.place && meets_all(cuts, spot)
}

/// Whether an agent at a spot is looked for, told without a branch.
fn is_sought(eye: &Eye, spot: &Spot) -> bool
    ensures { result ≡ is_found eye.now [] spot.now }
{
    is_seen(eye, spot) & (spot.place != eye.place)
}

// Writes a row at a place, and goes on from the next place if it is kept: no branch depends on it.
#[tactic(auto, using(crate::proofs::Looks::put_kept))]
fn put_kept(out: &mut [u32], at: usize, row: u32, keeps: bool) -> usize
    requires { at < length out.old }
    ensures front { take result out.new ≡ take at out.old ++ (if keeps then row ∷ [] else []) }
    ensures next { result ≤ at + 1 }
{
    out[at] = row;
    at + usize::from(keeps)
}

/// Writes the places of the agents at spots that are looked for from a count of places on, and
/// gives the count of places behind them.
#[tactic(auto, using(crate::proofs::Looks::found_more))]
fn scan_into(spots: &[Spot], eye: Eye, out: &mut [u32], from: usize) -> usize
    requires { from + length spots.now ≤ length out.old }
    ensures within { result ≤ from + length spots.now }
    ensures found { take result out.new ≡ take from out.old ++ found_in eye [] spots.now }
{
    let mut count = from;
    for spot in spots {
        count = put_kept(out, count, spot.place, is_sought(&eye, spot));
    }
    count
}

/// Makes rows no fewer than so many.
pub fn make_room(rows: &mut Vec<u32>, count: usize) -> Result<(), Redo>
    ensures long { OnOk result (count ≤ length rows.new.items) }
    ensures kept { OnOk result ((n : ℕ) → n ≤ length rows.old.items
        → take n rows.new.items ≡ take n rows.old.items) }
{
    if rows.len() < count {
        rows.resize(count, 0)?;
    }
    Ok(())
}

/// The spots of a run.
fn along<'a>(cells: &'a Cells, run: &Run) -> Result<&'a [Spot], Redo>
    ensures { IfOk result (λ spots.
        spots.now ≡ spots_along run.now cells.now.spots.items) }
{
    if run.start > run.end || run.end > cells.spots.len() {
        return Err(Redo);
    }
    Ok(&cells.spots[run.start..run.end])
}

/// How many come with three counts more.
pub fn past_all(from: usize, west: usize, middle: usize, east: usize) -> Result<usize, Redo>
    ensures { IfOk result (λ n. n ≡ from + west + middle + east) }
{
    let Some(first) = from.checked_add(west) else {
        return Err(Redo);
    };
    let Some(second) = first.checked_add(middle) else {
        return Err(Redo);
    };
    match second.checked_add(east) {
        Some(all) => Ok(all),
        None => Err(Redo),
    }
}

/// Appends the places of the agents in runs that are looked for, run by run, behind so many rows.
#[tactic(auto, using(crate::proofs::Looks::found_runs))]
fn scan_around(
    cells: &Cells,
    runs: &Runs,
    eye: &Eye,
    near: &mut Vec<u32>,
    from: usize,
) -> Result<usize, Redo>
    requires { from ≤ length near.old.items }
    ensures { IfOk result (λ count. Appended from count near.old.items near.new.items
        (found_around eye.now [] cells.now.spots.items runs.now)) }
{
    let west = along(cells, &runs.west)?;
    let middle = along(cells, &runs.middle)?;
    let east = along(cells, &runs.east)?;
    let most = past_all(from, west.len(), middle.len(), east.len())?;
    make_room(near, most)?;
    let first = scan_into(west, *eye, near, from);
    let second = scan_into(middle, *eye, near, first);
    Ok(scan_into(east, *eye, near, second))
}

/// Appends the places of the agents at spots that are found.
fn look(spots: &[Spot], eye: &Eye, cuts: &[Cut], near: &mut Vec<u32>) -> Result<(), Redo>
    ensures { OnOk result (near.new.items
        ≡ near.old.items ++ found_in eye.now cuts.now spots.now) }
{
    for spot in spots {
        if is_found(eye, cuts, spot) {
            near.push(spot.place)?;
        }
    }
    Ok(())
}

/// Appends the places of the agents of a run that are found.
fn look_along(
    cells: &Cells,
    run: &Run,
    eye: &Eye,
    cuts: &[Cut],
    near: &mut Vec<u32>,
) -> Result<(), Redo>
    ensures { OnOk result (near.new.items ≡ near.old.items
        ++ found_in eye.now cuts.now (spots_along run.now cells.now.spots.items)) }
{
    let spots = along(cells, run)?;
    look(spots, eye, cuts, near)?;
    Ok(())
}

/// Appends the places of the agents in runs that are found, run by run, behind so many rows, and
/// gives the count of rows with them.
pub fn look_around(
    cells: &Cells,
    runs: &Runs,
    eye: &Eye,
    cuts: &[Cut],
    near: &mut Vec<u32>,
    from: usize,
) -> Result<usize, Redo>
    requires { from ≤ length near.old.items }
    ensures { IfOk result (λ count. Appended from count near.old.items near.new.items
        (found_around eye.now cuts.now cells.now.spots.items runs.now)) }
{
    if cuts.is_empty() {
        return scan_around(cells, runs, eye, near, from);
    }
    near.truncate(from);
    look_along(cells, &runs.west, eye, cuts, near)?;
    look_along(cells, &runs.middle, eye, cuts, near)?;
    look_along(cells, &runs.east, eye, cuts, near)?;
    Ok(near.len())
}
