ghost use Rattle.std.specs.Prelude.{◌≡◌, ◌<◌, ℕ, Option, pos, Ok, length, map, replicate, IfOk, OnOk, IsFalse, slice_index_or, false, not, int_lt, int_le};
ghost use Rattle.std.specs.Ordering.{int_eq};
ghost use Rattle.std.specs.Int.{int_min, int_max};
ghost use Rattle.brace_num.specs.Exact.{exact_add, exact_sub, exact_neg, exact_abs, exact_sqrt, exact_to_fixed, exact_trunc, exact_int_mul, exact_int_div, exact_int_rem, exact_fixed_mul, exact_fixed_div};
ghost use Rattle.brace_model.specs.declared.program.Ty.{Ty};
ghost use Rattle.brace_model.specs.declared.program.Ty.TheVariants as ty;
ghost use Rattle.brace_model.specs.Typing.{same_type};
ghost use Rattle.brace_model.specs.Value.{total_read};
ghost use Rattle.brace_code.specs.inner.Words.{word_of, flag, unary_word, binary_word, product_word, quotient_word};
ghost use Rattle.brace_code.specs.Lanes.{words_of};
ghost use Rattle.brace_code.specs.Columns.{firsts, seen, HasFirst, Sees, Maps, Pairs};

use crate::lane::Redo;
use crate::operations::{fixed_product, fixed_quotient, flag, short_quotient};
use crate::view::{View, are_within};
use brace_model::{BinOp, Ty, UnOp};
use brace_num::{Kind, List, int_rem, sqrt, trunc};
use std::alloc::Global;

/// The words that an operation has in lanes before those that it reads: a column, which what it
/// gives replaces, or the words of another at some rows.
#[derive(Drop)]
pub enum First<'a> {
    Own(List<i64>),
    At(&'a [i64], &'a [u32]),
}

/// Replaces each word of a column by what an operation gives of it; `Redo` where one failed.
fn each<F: Fn(i64) -> (i64, bool)>(a: &mut [i64], op: F) -> Result<(), Redo>
    requires { F.IsAlwaysCallable op }
    ensures { OnOk result ((k : ℕ) → k < length a.old
        → F.post op (slice_index_or a.old k (pos 0)) (slice_index_or a.new k (pos 0), false)) }
{
    let mut failed = false;
    for (k, x) in a.iter_mut().enumerate() {
        let (word, fails) = op(*x);
        *x = word;
        failed |= fails;
    }
    if failed {
        return Err(Redo);
    }
    Ok(())
}

/// Replaces each word of a column by what an operation gives of it and of the other column's word;
/// `Redo` where one failed.
fn pairs<F: Fn(i64, i64) -> (i64, bool)>(a: &mut [i64], b: &[i64], op: F) -> Result<(), Redo>
    requires callable { F.IsAlwaysCallable op }
    requires long { length b.now ≡ length a.old }
    ensures { OnOk result ((k : ℕ) → k < length a.old
        → F.post op (slice_index_or a.old k (pos 0)) (slice_index_or b.now k (pos 0))
        (slice_index_or a.new k (pos 0), false)) }
{
    let mut failed = false;
    for (k, x) in a.iter_mut().enumerate() {
        let (word, fails) = op(*x, b[k]);
        *x = word;
        failed |= fails;
    }
    if failed {
        return Err(Redo);
    }
    Ok(())
}

/// Replaces each word of a column by what an operation gives of it and of a word; `Redo` where one
/// failed.
fn same_pairs<F: Fn(i64, i64) -> (i64, bool)>(a: &mut [i64], b: i64, op: F) -> Result<(), Redo>
    requires { F.IsAlwaysCallable op }
    ensures { OnOk result ((k : ℕ) → k < length a.old
        → F.post op (slice_index_or a.old k (pos 0)) b (slice_index_or a.new k (pos 0), false)) }
{
    let mut failed = false;
    for (k, x) in a.iter_mut().enumerate() {
        let (word, fails) = op(*x, b);
        *x = word;
        failed |= fails;
    }
    if failed {
        return Err(Redo);
    }
    Ok(())
}

/// A column of what an operation gives of each word of a column.
fn mapped<F: Fn(i64) -> (i64, bool)>(a: List<i64>, op: F) -> Result<List<i64>, Redo>
    requires { F.IsAlwaysCallable op }
    ensures long { IfOk result (λ c. length c ≡ length a) }
    ensures each { IfOk result (λ c. (k : ℕ) → k < length a
        → F.post op (slice_index_or a k (pos 0)) (slice_index_or c k (pos 0), false)) }
{
    let mut a = a.into_vec();
    each(&mut a, op)?;
    Ok(List::from_vec(a))
}

/// Replaces each word of a column by what an operation gives of it and of what lanes read; `Redo`
/// where one failed or has nothing to read.
fn view_pairs<F: Fn(i64, i64) -> (i64, bool)>(
    alloc: Global,
    a: &mut [i64],
    b: &View,
    op: F,
) -> Result<(), Redo>
    requires { F.IsAlwaysCallable op }
    ensures sees { OnOk result ((k : ℕ) → k < length a.old → Sees b.now k) }
    ensures each { OnOk result ((k : ℕ) → k < length a.old
        → F.post op (slice_index_or a.old k (pos 0)) (seen b.now k)
        (slice_index_or a.new k (pos 0), false)) }
{
    match *b {
        View::Same(word) => same_pairs(a, word, op),
        View::Each(words) => {
            if words.len() != a.len() {
                return Err(Redo);
            }
            pairs(a, words, op)
        }
        View::At(_, _) => {
            let words = column_of(alloc, *b, a.len())?;
            pairs(a, words.as_slice(), op)
        }
    }
}

/// A column of what an operation gives of the words of two columns at some rows; `Redo` where one
/// failed or there is no such row.
fn row_words<F: Fn(i64, i64) -> (i64, bool)>(
    alloc: Global,
    column: &[i64],
    rows: &[u32],
    other: &[i64],
    others: &[u32],
    op: F,
) -> Result<List<i64>, Redo>
    requires callable { F.IsAlwaysCallable op }
    requires long { length others.now ≡ length rows.now }
    ensures long { IfOk result (λ c. length c ≡ length rows.now) }
    ensures within { IfOk result (λ _. (k : ℕ) → k < length rows.now
        → slice_index_or rows.now k 0 < length column.now) }
    ensures sees { IfOk result (λ _. (k : ℕ) → k < length rows.now
        → slice_index_or others.now k 0 < length other.now) }
    ensures each { IfOk result (λ c. (k : ℕ) → k < length rows.now
        → F.post op (slice_index_or column.now (slice_index_or rows.now k 0) (pos 0))
        (slice_index_or other.now (slice_index_or others.now k 0) (pos 0))
        (slice_index_or c k (pos 0), false)) }
{
    if !are_within(rows, column.len()) || !are_within(others, other.len()) {
        return Err(Redo);
    }
    let mut words = Vec::with_capacity(alloc, rows.len())?;
    let mut failed = false;
    let fours = rows.len() / 4;
    for four in 0..fours {
        // Four in turn, since a row takes less time than the look at whether it is the last.
        for k in 4 * four..4 * four + 4 {
            let (word, fails) = op(column[rows[k] as usize], other[others[k] as usize]);
            words.push_reserved(word);
            failed |= fails;
        }
    }
    for k in 4 * fours..rows.len() {
        let (word, fails) = op(column[rows[k] as usize], other[others[k] as usize]);
        words.push_reserved(word);
        failed |= fails;
    }
    if failed {
        return Err(Redo);
    }
    Ok(List::from_vec(words))
}

/// A column of what an operation gives of the words of a column and of what lanes read.
fn own_joined<F: Fn(i64, i64) -> (i64, bool)>(
    alloc: Global,
    a: List<i64>,
    b: &View,
    op: F,
) -> Result<List<i64>, Redo>
    requires { F.IsAlwaysCallable op }
    ensures long { IfOk result (λ c. length c ≡ length a) }
    ensures sees { IfOk result (λ _. (k : ℕ) → k < length a → Sees b.now k) }
    ensures each { IfOk result (λ c. (k : ℕ) → k < length a
        → F.post op (slice_index_or a k (pos 0)) (seen b.now k)
        (slice_index_or c k (pos 0), false)) }
{
    let mut a = a.into_vec();
    view_pairs(alloc, &mut a, b, op)?;
    Ok(List::from_vec(a))
}

/// A column of what an operation gives of an operation's first words and of what lanes read.
fn joined<F: Fn(i64, i64) -> (i64, bool)>(
    alloc: Global,
    a: First,
    b: &View,
    op: F,
) -> Result<List<i64>, Redo>
    requires { F.IsAlwaysCallable op }
    ensures long { IfOk result (λ c. length c ≡ length (firsts a.entry)) }
    ensures firsts { IfOk result (λ _. (k : ℕ) → k < length (firsts a.entry)
        → HasFirst a.entry k) }
    ensures sees { IfOk result (λ _. (k : ℕ) → k < length (firsts a.entry) → Sees b.now k) }
    ensures each { IfOk result (λ c. (k : ℕ) → k < length (firsts a.entry)
        → F.post op (slice_index_or (firsts a.entry) k (pos 0)) (seen b.now k)
        (slice_index_or c k (pos 0), false)) }
{
    match (a, *b) {
        (First::Own(words), _) => own_joined(alloc, words, b, op),
        (First::At(column, rows), View::At(other, others)) => {
            if others.len() != rows.len() {
                return Err(Redo);
            }
            row_words(alloc, column, rows, other, others, op)
        }
        (First::At(column, rows), _) => {
            let words = gather(alloc, column, rows)?;
            own_joined(alloc, words, b, op)
        }
    }
}

/// A word, and whether there is none.
fn flagged(exact: Result<i64, Kind>) -> (i64, bool)
    ensures { IsFalse result.1 → exact ≡ Ok result.0 }
{
    match exact {
        Ok(word) => (word, false),
        Err(_) => (0, true),
    }
}

fn negated(a: i64) -> (i64, bool)
    ensures { IsFalse result.1 → exact_neg a ≡ Ok result.0 }
{
    a.overflowing_neg()
}

fn inverted(a: i64) -> (i64, bool)
    ensures { result.0 ≡ flag (int_eq a (pos 0)) }
{
    (flag(a == 0), false)
}

fn magnitude(a: i64) -> (i64, bool)
    ensures { IsFalse result.1 → exact_abs a ≡ Ok result.0 }
{
    a.overflowing_abs()
}

fn root(a: i64) -> (i64, bool)
    ensures { IsFalse result.1 → exact_sqrt a ≡ Ok result.0 }
{
    flagged(sqrt(a))
}

// In vectors a comparison is cheap, and a product that tells whether it fits is not.
#[tactic(auto, using(crate::proofs::WordLemmas::fits_so))]
fn scaled(a: i64) -> (i64, bool)
    ensures { IsFalse result.1 → exact_to_fixed a ≡ Ok result.0 }
{
    if -9_223_372_036_854 <= a && a <= 9_223_372_036_854 {
        (a * 1_000_000, false)
    } else {
        (0, true)
    }
}

fn whole(a: i64) -> (i64, bool)
    ensures { result.0 ≡ exact_trunc a }
{
    (trunc(a), false)
}

/// A column of what an operation gives of each word of a column.
pub fn unary_each(op: UnOp, a: List<i64>) -> Result<List<i64>, Redo>
    ensures { IfOk result (λ c. Maps (unary_word op) a c) }
{
    match op {
        UnOp::Neg => mapped(a, negated),
        UnOp::Not => mapped(a, inverted),
        UnOp::Abs => mapped(a, magnitude),
        UnOp::Sqrt => mapped(a, root),
        UnOp::ToFixed => mapped(a, scaled),
        UnOp::Trunc => mapped(a, whole),
    }
}

fn same(a: i64) -> (i64, bool)
    ensures { (type : Ty) (site : Option ℕ) → same_type type ty.Bool ≡ false
        → word_of (total_read type site a) ≡ Ok result.0 }
{
    (a, false)
}

fn set(a: i64) -> (i64, bool)
    ensures { (site : Option ℕ) → word_of (total_read ty.Bool site a) ≡ Ok result.0 }
{
    (flag(a != 0), false)
}

/// The words of totals of a type, each of which fits.
pub fn total_each(ty: Ty, a: List<i64>) -> Result<List<i64>, Redo>
    ensures long { IfOk result (λ c. length c ≡ length a) }
    ensures each { IfOk result (λ c. (site : Option ℕ) (k : ℕ) → k < length a
        → word_of (total_read ty site (slice_index_or a k (pos 0)))
        ≡ Ok (slice_index_or c k (pos 0))) }
{
    match ty {
        Ty::Bool => mapped(a, set),
        _ => mapped(a, same),
    }
}

fn sum(a: i64, b: i64) -> (i64, bool)
    ensures { IsFalse result.1 → exact_add a b ≡ Ok result.0 }
{
    a.overflowing_add(b)
}

// What is asked of the sum that gives the first word back, `a < b` and `rest < 0`, the subtraction
// itself answers.
#[tactic(auto, using(crate::proofs::WordLemmas::rest_fits))]
fn difference(a: i64, b: i64) -> (i64, bool)
    ensures { IsFalse result.1 → exact_sub a b ≡ Ok result.0 }
{
    let rest = a.wrapping_sub(b);
    let (_, fails) = b.overflowing_add(rest);
    (rest, fails)
}

fn int_product(a: i64, b: i64) -> (i64, bool)
    ensures { IsFalse result.1 → exact_int_mul a b ≡ Ok result.0 }
{
    a.overflowing_mul(b)
}

fn product(a: i64, b: i64) -> (i64, bool)
    ensures { IsFalse result.1 → exact_fixed_mul a b ≡ Ok result.0 }
{
    flagged(fixed_product(a, b))
}

fn int_quotient(a: i64, b: i64) -> (i64, bool)
    ensures { IsFalse result.1 → exact_int_div a b ≡ Ok result.0 }
{
    flagged(short_quotient(a, b))
}

fn quotient(a: i64, b: i64) -> (i64, bool)
    ensures { IsFalse result.1 → exact_fixed_div a b ≡ Ok result.0 }
{
    flagged(fixed_quotient(a, b))
}

fn remainder(a: i64, b: i64) -> (i64, bool)
    ensures { IsFalse result.1 → exact_int_rem a b ≡ Ok result.0 }
{
    flagged(int_rem(a, b))
}

fn less(a: i64, b: i64) -> (i64, bool)
    ensures { result.0 ≡ flag (int_lt a b) }
{
    (flag(a < b), false)
}

fn at_most(a: i64, b: i64) -> (i64, bool)
    ensures { result.0 ≡ flag (int_le a b) }
{
    (flag(a <= b), false)
}

fn greater(a: i64, b: i64) -> (i64, bool)
    ensures { result.0 ≡ flag (int_lt b a) }
{
    (flag(b < a), false)
}

fn at_least(a: i64, b: i64) -> (i64, bool)
    ensures { result.0 ≡ flag (int_le b a) }
{
    (flag(b <= a), false)
}

fn equal(a: i64, b: i64) -> (i64, bool)
    ensures { result.0 ≡ flag (int_eq a b) }
{
    (flag(a == b), false)
}

fn unequal(a: i64, b: i64) -> (i64, bool)
    ensures { result.0 ≡ flag (not (int_eq a b)) }
{
    (flag(a != b), false)
}

fn lesser(a: i64, b: i64) -> (i64, bool)
    ensures { result.0 ≡ int_min a b }
{
    (a.min(b), false)
}

fn greatest(a: i64, b: i64) -> (i64, bool)
    ensures { result.0 ≡ int_max a b }
{
    (a.max(b), false)
}

fn second(_a: i64, b: i64) -> (i64, bool)
    ensures { result.0 ≡ b }
{
    (b, false)
}

fn products(alloc: Global, ty: Ty, a: First, b: &View) -> Result<List<i64>, Redo>
    ensures firsts { IfOk result (λ _. (k : ℕ) → k < length (firsts a.entry)
        → HasFirst a.entry k) }
    ensures sees { IfOk result (λ _. (k : ℕ) → k < length (firsts a.entry) → Sees b.now k) }
    ensures each { IfOk result (λ c. Pairs (product_word ty) (firsts a.entry) (seen b.now) c) }
{
    match ty {
        Ty::Int => joined(alloc, a, b, int_product),
        _ => joined(alloc, a, b, product),
    }
}

fn quotients(alloc: Global, ty: Ty, a: First, b: &View) -> Result<List<i64>, Redo>
    ensures firsts { IfOk result (λ _. (k : ℕ) → k < length (firsts a.entry)
        → HasFirst a.entry k) }
    ensures sees { IfOk result (λ _. (k : ℕ) → k < length (firsts a.entry) → Sees b.now k) }
    ensures each { IfOk result (λ c. Pairs (quotient_word ty) (firsts a.entry) (seen b.now) c) }
{
    match ty {
        Ty::Int => joined(alloc, a, b, int_quotient),
        _ => joined(alloc, a, b, quotient),
    }
}

/// A column of what an operation gives of its first words and of what lanes read, all of a type.
pub fn binary_each(alloc: Global, op: BinOp, ty: Ty, a: First, b: &View) -> Result<List<i64>, Redo>
    ensures firsts { IfOk result (λ _. (k : ℕ) → k < length (firsts a.entry)
        → HasFirst a.entry k) }
    ensures sees { IfOk result (λ _. (k : ℕ) → k < length (firsts a.entry) → Sees b.now k) }
    ensures each { IfOk result (λ c. Pairs (binary_word op ty) (firsts a.entry) (seen b.now) c) }
{
    match op {
        BinOp::Add => joined(alloc, a, b, sum),
        BinOp::Sub => joined(alloc, a, b, difference),
        BinOp::Mul => products(alloc, ty, a, b),
        BinOp::Div => quotients(alloc, ty, a, b),
        BinOp::Rem => joined(alloc, a, b, remainder),
        BinOp::Lt => joined(alloc, a, b, less),
        BinOp::Le => joined(alloc, a, b, at_most),
        BinOp::Gt => joined(alloc, a, b, greater),
        BinOp::Ge => joined(alloc, a, b, at_least),
        BinOp::Eq => joined(alloc, a, b, equal),
        BinOp::Ne => joined(alloc, a, b, unequal),
        BinOp::Min => joined(alloc, a, b, lesser),
        BinOp::Max => joined(alloc, a, b, greatest),
        BinOp::And | BinOp::Or => joined(alloc, a, b, second),
    }
}

/// The same word, so often.
fn constant(alloc: Global, word: i64, count: usize) -> Result<List<i64>, Redo>
    ensures { IfOk result (λ c. c ≡ replicate count word) }
{
    let words = vec![in alloc; word; count]?;
    Ok(List::from_vec(words))
}

/// Words as a column of their own.
fn copied(alloc: Global, words: &[i64]) -> Result<List<i64>, Redo>
    ensures { IfOk result (λ c. c ≡ words.now) }
{
    let mut out = Vec::with_capacity(alloc, words.len())?;
    out.extend_from_slice(words)?;
    Ok(List::from_vec(out))
}

/// The words of a column at some rows.
fn gather(alloc: Global, column: &[i64], rows: &[u32]) -> Result<List<i64>, Redo>
    ensures words { IfOk result (λ c.
        c ≡ map (λ row. slice_index_or column.now row (pos 0)) rows.now) }
    ensures within { IfOk result (λ _. (k : ℕ) → k < length rows.now
        → slice_index_or rows.now k 0 < length column.now) }
{
    if !are_within(rows, column.len()) {
        return Err(Redo);
    }
    let mut words = Vec::with_capacity(alloc, rows.len())?;
    let fours = rows.len() / 4;
    for four in 0..fours {
        // Four in turn, as above.
        for k in 4 * four..4 * four + 4 {
            words.push_reserved(column[rows[k] as usize]);
        }
    }
    for k in 4 * fours..rows.len() {
        words.push_reserved(column[rows[k] as usize]);
    }
    Ok(List::from_vec(words))
}

/// A column of what so many lanes read.
#[tactic(auto, using(crate::proofs::ViewLemmas::part_rules))]
pub fn column_of(alloc: Global, view: View, count: usize) -> Result<List<i64>, Redo>
    ensures words { IfOk result (λ c. c ≡ words_of count view.entry) }
    ensures long { IfOk result (λ c. length c ≡ count) }
    ensures sees { IfOk result (λ _. (k : ℕ) → k < count → Sees view.entry k) }
{
    match view {
        View::Same(word) => constant(alloc, word, count),
        View::Each(words) => {
            if words.len() != count {
                return Err(Redo);
            }
            copied(alloc, words)
        }
        View::At(column, rows) => {
            if rows.len() != count {
                return Err(Redo);
            }
            gather(alloc, column, rows)
        }
    }
}
