ghost use Rattle.std.specs.Prelude.{◌≡◌, ◌<◌, ◌≤◌, ◌+◌, ◌*◌, ◌++◌, ◌∷◌, not, ℕ, ℤ, pos, Bool, List, [], length, take, IfOk};
ghost use Rattle.std.specs.Int.{int_wrap, w32};
ghost use Rattle.std.specs.Simd.Lanes.{mask_l};
ghost use Rattle.brace_fold.specs.declared.cells.Spot.{Spot};
ghost use Rattle.brace_fold.specs.declared.seeing.Eye.{Eye};
ghost use Rattle.brace_fold.specs.inner.Sights.{Appended, found_around, found_in, spots_along};
ghost use Rattle.brace_fold.specs.inner.Glances.{AreClear, AreClearAround, HasRows, IsLooked, IsSquare, base, kept, sees_at};

use crate::cells::{Run, Runs};
use crate::columns::item_at;
use crate::seeing::{make_room, past_all};
use brace_code::Redo;
use std::simd::prelude::*;

/// The lower halves of where agents of one class stand, row by row, and how far each of them sees.
#[derive(Clone, Copy)]
pub struct Glance<'a> {
    pub xs: &'a [i32],
    pub ys: &'a [i32],
    pub range: i32,
}

/// How many fours of rows reach to the end of a run, of so many rows and four more.
fn fours(run: &Run, rows: usize) -> Result<usize, Redo>
    ensures rises { IfOk result (λ n. run.now.start ≤ run.now.end) }
    ensures reach { IfOk result (λ n. run.now.end ≤ run.now.start + 4 * n) }
    ensures within { IfOk result (λ n. run.now.start + 4 * n ≤ rows) }
{
    if run.start > run.end || rows < 4 || run.end > rows - 4 {
        return Err(Redo);
    }
    Ok((run.end - run.start + 3) / 4)
}

/// What an agent looks for: along each axis halves from a base on, which wrap, up to a reach, and
/// not those of its own row. Signed halves less the base, which lies half of all halves above the
/// least one seen, are in the order of their distance to that one.
#[derive(Clone, Copy, Drop)]
struct Square {
    across: i32,
    along: i32,
    reach: i32,
    place: u32,
}

/// Half of all halves above the least one within a range of one.
fn base_of(v: i32, range: i32) -> i32
    ensures { (p : ℤ) (r : ℕ) → v ≡ int_wrap w32 p → range ≡ pos r → result ≡ base p r }
{
    v.wrapping_sub(range).wrapping_add(i32::MIN)
}

/// A bit for each of four rows from one on: whether its agent is not looked for, or stands behind
/// the end of a run.
#[inline(always)]
fn far_of_four(square: &Square, xs: &[i32], ys: &[i32], row: usize, end: u32) -> u64
    requires across { row + 4 ≤ length xs.now }
    requires along { row + 4 ≤ length ys.now }
    requires few { row + 4 ≤ 4294967295 }
    ensures few { result < 16 }
    ensures bits { (spots : List Spot) (eye : Eye) (d : Spot) → IsSquare eye square.now
        → AreClear eye xs.now ys.now row end spots
        → result ≡ mask_l (
        not (sees_at eye end spots d (row + 0)) ∷ not (sees_at eye end spots d (row + 1))
        ∷ not (sees_at eye end spots d (row + 2)) ∷ not (sees_at eye end spots d (row + 3))
        ∷ []) }
{
    let x = i32x4::from_array([xs[row], xs[row + 1], xs[row + 2], xs[row + 3]]);
    let y = i32x4::from_array([ys[row], ys[row + 1], ys[row + 2], ys[row + 3]]);
    let far = (x - i32x4::splat(square.across)).simd_gt(i32x4::splat(square.reach))
        | (y - i32x4::splat(square.along)).simd_gt(i32x4::splat(square.reach));
    let rows = u32x4::splat(row as u32).strict_add(u32x4::from_array([0, 1, 2, 3]));
    let out = rows.simd_ge(u32x4::splat(end)) | rows.simd_eq(u32x4::splat(square.place));
    (far | out).to_bitmask()
}

/// Which of four rows are kept, first of all, by the bits of those that are not.
static KEPT: [[u32; 4]; 16] = [
    [0, 1, 2, 3],
    [1, 2, 3, 0],
    [0, 2, 3, 0],
    [2, 3, 0, 0],
    [0, 1, 3, 0],
    [1, 3, 0, 0],
    [0, 3, 0, 0],
    [3, 0, 0, 0],
    [0, 1, 2, 0],
    [1, 2, 0, 0],
    [0, 2, 0, 0],
    [2, 0, 0, 0],
    [0, 1, 0, 0],
    [1, 0, 0, 0],
    [0, 0, 0, 0],
    [0, 0, 0, 0],
];

/// Writes those of four rows from one on that have no bit at a place, and goes on behind them.
#[inline(always)]
fn put_four(out: &mut [u32], at: usize, row: u32, far: u64) -> usize
    requires room { at + 4 ≤ length out.old }
    requires few { row + 3 < 4294967296 }
    requires four { far < 16 }
    ensures next { result ≤ at + 4 }
    ensures front { (a b c d : Bool) → far ≡ mask_l (not a ∷ not b ∷ not c ∷ not d ∷ [])
        → take result out.new
        ≡ take at out.old
        ++ (kept a (row + 0) ++ (kept b (row + 1) ++ (kept c (row + 2) ++ kept d (row + 3)))) }
{
    let rows = u32x4::splat(row).strict_add(u32x4::from_array(KEPT[far as usize]));
    rows.copy_to_slice(&mut out[at..]);
    at + (4 - far.count_ones() as usize)
}

impl<'a> Glance<'a> {
    /// What the agent of a row looks for.
    fn square(&self, row: u32) -> Result<Square, Redo>
        ensures { IfOk result (λ square. (eye : Eye) → IsLooked self.now row eye
            → IsSquare eye square) }
    {
        let (Some(x), Some(y)) = (item_at(self.xs, row), item_at(self.ys, row)) else {
            return Err(Redo);
        };
        Ok(Square {
            across: base_of(x, self.range),
            along: base_of(y, self.range),
            reach: self.range.wrapping_add(self.range).wrapping_add(i32::MIN),
            place: row,
        })
    }

    /// Writes the rows of a run whose agents are looked for from a count of rows on, by so many
    /// fours that reach to its end, and gives the count of rows behind them.
    fn scan(&self, run: Run, fours: usize, square: &Square, out: &mut [u32], from: usize) -> usize
        requires rows { HasRows self.now }
        requires rises { run.start ≤ run.end }
        requires reach { run.end ≤ run.start + 4 * fours }
        requires within { run.start + 4 * fours ≤ length self.now.xs.now }
        requires room { from + 4 * fours ≤ length out.old }
        ensures within { result ≤ from + 4 * fours }
        ensures found { (spots : List Spot) (eye : Eye) → IsSquare eye square.now
            → AreClear eye self.now.xs.now self.now.ys.now run.start run.end spots
            → take result out.new
            ≡ take from out.old ++ found_in eye [] (spots_along run spots) }
    {
        let (xs, ys, square, end) = (self.xs, self.ys, *square, run.end as u32);
        let mut count = from;
        for four in 0..fours {
            let row = run.start + 4 * four;
            count = put_four(
                out,
                count,
                row as u32,
                far_of_four(&square, xs, ys, row, end),
            );
        }
        count
    }

    /// Appends the rows in runs of the agents that the agent of a row looks for, run by run, behind
    /// so many rows, and gives the count of rows with them.
    pub fn look_around(
        &self,
        runs: &Runs,
        row: u32,
        near: &mut Vec<u32>,
        from: usize,
    ) -> Result<usize, Redo>
        requires rows { HasRows self.now }
        requires from { from ≤ length near.old.items }
        ensures { IfOk result (λ count. (spots : List Spot) (eye : Eye)
            → IsLooked self.now row eye → AreClearAround eye self.now runs.now spots
            → Appended from count near.old.items near.new.items
            (found_around eye [] spots runs.now)) }
    {
        let square = self.square(row)?;
        let west = fours(&runs.west, self.xs.len())?;
        let middle = fours(&runs.middle, self.xs.len())?;
        let east = fours(&runs.east, self.xs.len())?;
        make_room(near, past_all(from, 4 * west, 4 * middle, 4 * east)?)?;
        let first = self.scan(runs.west, west, &square, near, from);
        let second = self.scan(runs.middle, middle, &square, near, first);
        Ok(self.scan(runs.east, east, &square, near, second))
    }
}
