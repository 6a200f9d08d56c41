ghost use Rattle.std.specs.Prelude.{◌≡◌, ◌<◌, ◌≤◌, ℕ, IfSome, false, length, map, pos, replicate, slice_index_or};
ghost use Rattle.brace_code.specs.Lanes.{words_of};
ghost use Rattle.brace_code.specs.declared.view.View.TheVariants as views;
ghost use Rattle.brace_model.specs.Value.{typed};
ghost use Rattle.brace_model.specs.declared.program.Comb.TheVariants as combs;
ghost use Rattle.brace_model.specs.declared.program.Ty.TheVariants as types;
ghost use Rattle.brace_model.specs.Typing.{same_type};
ghost use Rattle.brace_model.specs.Total.{total_of};
ghost use Rattle.brace_fold.specs.inner.Ears.{IsTotal};

use crate::saying::typed;
use crate::table::narrow;
use brace_code::View;
use brace_comb::{identity, joined};
use brace_model::{Comb, Ty};

/// The total of words of a type that lanes read; None where 128 bits do not hold it.
// Inlined where the combinator is known, so that its loop does not ask for it.
#[inline(always)]
fn total_of(comb: Comb, ty: Ty, words: View, count: usize) -> Option<i128>
    requires { length (words_of count words) ≡ count }
    ensures { IfSome result (λ n. n ≡ total_of comb (map (typed ty) (words_of count words.entry))) }
{
    let mut total = identity(comb);
    for k in 0..count {
        let word = words.word(k)?;
        total = joined(comb, total, typed(ty, word))?;
    }
    Some(total)
}

/// The total of words of a type that lanes read; None where 128 bits do not hold it.
fn total(comb: Comb, ty: Ty, words: View, count: usize) -> Option<i128>
    requires { length (words_of count words) ≡ count }
    ensures { IfSome result (λ n. n ≡ total_of comb (map (typed ty) (words_of count words.entry))) }
{
    match comb {
        Comb::Sum => total_of(Comb::Sum, ty, words, count),
        Comb::Min => total_of(Comb::Min, ty, words, count),
        Comb::Max => total_of(Comb::Max, ty, words, count),
        Comb::Count => total_of(Comb::Count, ty, words, count),
        Comb::Or => total_of(Comb::Or, ty, words, count),
    }
}

/// The sum of the same word so often, of a type that is no flag; None where 64 bits do not hold it.
fn sum_same(ty: Ty, word: i64, count: usize) -> Option<i64>
    requires { same_type ty types.Bool ≡ false }
    ensures { IfSome result (λ n.
        n ≡ total_of combs.Sum (map (typed ty) (replicate count word))) }
{
    let mut total = 0i128;
    for _ in 0..count {
        total += i128::from(word);
    }
    narrow(total).ok()
}

/// The sum of words of a type that is no flag; None where 64 bits do not hold it.
fn sum_of(ty: Ty, words: &[i64]) -> Option<i64>
    requires { same_type ty types.Bool ≡ false }
    ensures { IfSome result (λ n. n ≡ total_of combs.Sum (map (typed ty) words.now)) }
{
    let mut total = 0i128;
    for word in words {
        total += i128::from(*word);
    }
    narrow(total).ok()
}

/// The sum of the words of a column at some rows, of a type that is no flag; None where 64 bits do
/// not hold it.
fn sum_at(ty: Ty, column: &[i64], rows: &[u32]) -> Option<i64>
    requires plain { same_type ty types.Bool ≡ false }
    requires within { (k : ℕ) → k < length rows.now
        → slice_index_or rows.now k 0 < length column.now }
    ensures { IfSome result (λ n. n ≡ total_of combs.Sum (map (typed ty)
        (map (λ row. slice_index_or column.now row (pos 0)) rows.now))) }
{
    let mut total = 0i128;
    for row in rows {
        total += i128::from(column[*row as usize]);
    }
    narrow(total).ok()
}

/// What lanes say, and how it is joined. Code is compiled for each kind apart, so that no loop asks
/// for the combinator, or where the words stand.
pub trait Spoken {
    ghost use Rattle.brace_model.specs.declared.program.Comb.{Comb};
    ghost use Rattle.brace_model.specs.declared.program.Ty.{Ty};
    ghost use Rattle.brace_code.specs.declared.view.View.{View};

    /// The combinator.
    ghost joins: { Self → Comb };

    /// The type of the words.
    ghost type_of: { Self → Ty };

    /// The words.
    ghost reads: { Self → View };

    /// The combinator.
    fn comb(&self) -> Comb
        ensures { result ≡ joins self.now };

    /// The total of the words from a place up to another; None where it is not made, as where 64
    /// bits do not hold it.
    fn total(&self, from: usize, next: usize) -> Option<i64>
        requires { from ≤ next }
        ensures { IfSome result (IsTotal (joins self.now) (type_of self.now) (reads self.now)
            from next) };
}

/// Words that are counted.
#[derive(Drop)]
pub struct Counted<'a> {
    pub ty: Ty,
    pub words: View<'a>,
}

impl<'a> Spoken for Counted<'a> {
    ghost joins = { λ s. combs.Count };

    ghost type_of = { λ s. s.ty };

    ghost reads = { λ s. s.words };

    #[inline(always)]
    fn comb(&self) -> Comb {
        Comb::Count
    }

    #[inline(always)]
    fn total(&self, from: usize, next: usize) -> Option<i64> {
        let count = i64::try_from(next - from).ok()?;
        Some(count)
    }
}

/// The same word in turn that is summed, of a type that is no flag.
#[derive(Drop)]
pub struct SummedSame {
    pub ty: Ty,
    pub word: i64,
    ghost plain: { same_type ty types.Bool ≡ false },
}

impl Spoken for SummedSame {
    ghost joins = { λ s. combs.Sum };

    ghost type_of = { λ s. s.ty };

    ghost reads = { λ s. views.Same s.word };

    #[inline(always)]
    fn comb(&self) -> Comb {
        Comb::Sum
    }

    #[inline(always)]
    fn total(&self, from: usize, next: usize) -> Option<i64> {
        let total = sum_same(self.ty, self.word, next - from)?;
        Some(total)
    }
}

/// Words of a column that are summed, of a type that is no flag.
#[derive(Drop)]
pub struct Summed<'a> {
    pub ty: Ty,
    pub words: &'a [i64],
    ghost plain: { same_type ty types.Bool ≡ false },
}

impl<'a> Spoken for Summed<'a> {
    ghost joins = { λ s. combs.Sum };

    ghost type_of = { λ s. s.ty };

    ghost reads = { λ s. views.Each s.words };

    #[inline(always)]
    fn comb(&self) -> Comb {
        Comb::Sum
    }

    #[inline(always)]
    fn total(&self, from: usize, next: usize) -> Option<i64> {
        let words = self.words.get(from..next)?;
        sum_of(self.ty, words)
    }
}

/// Words of a column at some of its rows that are summed, of a type that is no flag.
#[derive(Drop)]
pub struct SummedAt<'a> {
    pub ty: Ty,
    pub column: &'a [i64],
    pub rows: &'a [u32],
    ghost plain: { same_type ty types.Bool ≡ false },
    ghost within: { (k : ℕ) → k < length rows.now
        → slice_index_or rows.now k 0 < length column.now },
}

impl<'a> Spoken for SummedAt<'a> {
    ghost joins = { λ s. combs.Sum };

    ghost type_of = { λ s. s.ty };

    ghost reads = { λ s. views.At s.column s.rows };

    #[inline(always)]
    fn comb(&self) -> Comb {
        Comb::Sum
    }

    #[inline(always)]
    fn total(&self, from: usize, next: usize) -> Option<i64> {
        let rows = self.rows.get(from..next)?;
        let total = sum_at(self.ty, self.column, rows)?;
        Some(total)
    }
}

/// Words that are joined in any way.
#[derive(Drop)]
pub struct Joined<'a> {
    pub comb: Comb,
    pub ty: Ty,
    pub words: View<'a>,
}

impl<'a> Spoken for Joined<'a> {
    ghost joins = { λ s. s.comb };

    ghost type_of = { λ s. s.ty };

    ghost reads = { λ s. s.words };

    fn comb(&self) -> Comb {
        self.comb
    }

    fn total(&self, from: usize, next: usize) -> Option<i64> {
        let words = self.words.part(from, next)?;
        let total = total(self.comb, self.ty, words, next - from)?;
        narrow(total).ok()
    }
}
