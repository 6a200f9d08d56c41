ghost use Rattle.std.specs.Prelude.{◌≡◌, ◌<◌, ◌≤◌, ◌↔◌, ℕ, ℤ, nat_lt, pos, ◌-ℤ◌, ◌&&◌, IfOk, IsTrue, length};
ghost use Rattle.std.specs.Int.{int_max};
ghost use Rattle.std.specs.List.{list_all};
ghost use Rattle.brace_num.specs.Areas.{apart, gap, gap_to};
ghost use Rattle.brace_cuts.specs.Space.{LawfulCuts, rises, can_cut, strip, low_end, high_end, parts_of, area_of, owner_of, are_near, AreWithin};

use brace_num::{Area, List, NoMemory};
use std::alloc::Global;

const MOST_PARTS: u128 = 64;

/// Where the plane is cut: along x and along y, in millionths. A point on a cut is on its higher
/// side.
#[derive(Debug, Drop)]
pub struct Cuts {
    pub xs: List<i64>,
    pub ys: List<i64>,
}

impl Cuts {
    /// Whether the cuts rise along x and along y, are above the least number of 64 bits, and make
    /// at most 64 parts.
    pub fn are_lawful(&self) -> bool
        ensures { IsTrue result ↔ LawfulCuts self.now }
    {
        both_rise(self)
            && can_all_cut(self.xs.as_slice())
            && can_all_cut(self.ys.as_slice())
            && !are_too_many(self)
    }

    /// How many parts there are, at most 64.
    pub fn parts(&self) -> u32
        requires { LawfulCuts self.now }
        ensures { result ≡ parts_of self.now }
    {
        ((self.ys.as_slice().len() + 1) * (self.xs.as_slice().len() + 1)) as u32
    }

    /// The number of the part that owns a point, given in millionths. Each point has one owner.
    ///
    /// It takes a binary search along x and one along y.
    pub fn owner(&self, x: i64, y: i64) -> u32
        requires { LawfulCuts self.now }
        ensures owner { result ≡ owner_of self.now x y }
        ensures in_range { result < parts_of self.now }
        ensures only { (p : ℕ) → p < parts_of self.now
            → (gap_to (area_of self.now p) x y ≡ pos 0) ↔ (p ≡ result) }
    {
        let row = strip(self.ys.as_slice(), y);
        let column = strip(self.xs.as_slice(), x);
        (row * (self.xs.as_slice().len() + 1) + column) as u32
    }

    /// The area of a part, in millionths.
    pub fn area(&self, p: u32) -> Area
        requires lawful { LawfulCuts self.now }
        requires in_range { p < parts_of self.now }
        ensures { result ≡ area_of self.now p }
    {
        let width = self.xs.as_slice().len() + 1;
        let column = p as usize % width;
        let row = p as usize / width;
        Area {
            x0: low_end(self.xs.as_slice(), column),
            x1: high_end(self.xs.as_slice(), column),
            y0: low_end(self.ys.as_slice(), row),
            y1: high_end(self.ys.as_slice(), row),
        }
    }

    /// The gap of two parts in millionths: that of their nearest points, along the axis where they
    /// are farther apart. Parts that touch have a gap of 1.
    pub fn gap(&self, p: u32, q: u32) -> u64
        requires lawful { LawfulCuts self.now }
        requires p_in_range { p < parts_of self.now }
        requires q_in_range { q < parts_of self.now }
        ensures { pos result ≡ gap (area_of self.now p) (area_of self.now q) }
    {
        let a = self.area(p);
        let b = self.area(q);
        apart(a.x0, a.x1, b.x0, b.x1).max(apart(a.y0, a.y1, b.y0, b.y1))
    }

    /// Whether two parts have at most a gap of `d` millionths; so they do where some point of one
    /// and some point of the other are at most `d` apart along x and along y.
    pub fn near(&self, p: u32, q: u32, d: i64) -> bool
        requires lawful { LawfulCuts self.now }
        requires p_in_range { p < parts_of self.now }
        requires q_in_range { q < parts_of self.now }
        ensures near { result ≡ are_near self.now p q d }
        ensures points { (x y u v : ℤ) → gap_to (area_of self.now p) x y ≡ pos 0
            → gap_to (area_of self.now q) u v ≡ pos 0
            → AreWithin d x u → AreWithin d y v → IsTrue result }
    {
        i128::from(self.gap(p, q)) <= i128::from(d)
    }

    /// Cuts equal to these.
    pub fn copy(&self, alloc: Global) -> Result<Cuts, NoMemory>
        ensures { IfOk result (λ cuts. cuts ≡ self.now) }
    {
        Ok(Cuts {
            xs: copy_numbers(alloc, &self.xs)?,
            ys: copy_numbers(alloc, &self.ys)?,
        })
    }
}

// Whether the cuts along x rise, and those along y.
pub(crate) fn both_rise(cuts: &Cuts) -> bool
    ensures { result ≡ (rises cuts.now.xs && rises cuts.now.ys) }
{
    rises(cuts.xs.as_slice()) && rises(cuts.ys.as_slice())
}

/// Whether each number is below the next. It takes no memory.
pub fn rises(cuts: &[i64]) -> bool
    ensures { result ≡ rises cuts.now }
{
    for i in 1..cuts.len() {
        if cuts[i - 1] >= cuts[i] {
            return false;
        }
    }
    true
}

fn can_all_cut(cuts: &[i64]) -> bool
    ensures { result ≡ list_all can_cut cuts.now }
{
    cuts.iter().all(|cut| *cut > i64::MIN)
}

pub(crate) fn are_too_many(cuts: &Cuts) -> bool
    ensures { result ≡ nat_lt 64 (parts_of cuts.now) }
{
    let columns = cuts.xs.as_slice().len() as u128 + 1;
    let rows = cuts.ys.as_slice().len() as u128 + 1;
    rows * columns > MOST_PARTS
}

// The strip of a number: how many cuts it is not below.
fn strip(cuts: &[i64], v: i64) -> usize
    requires { IsTrue (rises cuts.now) }
    ensures { result ≡ strip cuts.now v }
{
    cuts.partition_point(|cut| *cut <= v)
}

// The least number of a strip.
fn low_end(cuts: &[i64], i: usize) -> i64
    requires { i ≤ length cuts.now }
    ensures { result ≡ low_end cuts.now i }
{
    if i == 0 { i64::MIN } else { cuts[i - 1] }
}

// The greatest number of a strip.
fn high_end(cuts: &[i64], i: usize) -> i64
    requires { IsTrue (list_all can_cut cuts.now) }
    ensures { result ≡ high_end cuts.now i }
{
    match cuts.get(i) {
        Some(cut) => *cut - 1,
        None => i64::MAX,
    }
}

// How far two spans stand apart, which is at most 2^64 - 1.
fn apart(low: i64, high: i64, other_low: i64, other_high: i64) -> u64
    ensures { pos result ≡ apart low high other_low other_high }
{
    above(low, other_high).max(above(other_low, high))
}

// How far `a` is above `b`; 0 where it is not.
fn above(a: i64, b: i64) -> u64
    ensures { pos result ≡ int_max (pos 0) (a -ℤ b) }
{
    if a > b { a.abs_diff(b) } else { 0 }
}

fn copy_numbers(alloc: Global, numbers: &List<i64>) -> Result<List<i64>, NoMemory>
    ensures { IfOk result (λ r. r ≡ numbers.now) }
{
    Ok(List::from_vec(Vec::from_slice(alloc, numbers.as_slice())?))
}
