ghost use Rattle.std.specs.Prelude.{◌≡◌, ◌*ℤ◌, IsTrue, Some, Ok, pos, int_div};
ghost use Rattle.brace_model.specs.declared.program.Ty.{Ty};
ghost use Rattle.brace_model.specs.Typing.{unary_type, operation_type};
ghost use Rattle.brace_num.specs.Exact.{fitting, exact_int_div, exact_fixed_mul, exact_fixed_div};
ghost use Rattle.brace_code.specs.inner.Words.{unary_word, binary_word, product_word, quotient_word, flag};

use brace_model::{BinOp, Ty, UnOp};
use brace_num::{
    Kind, abs, add, fixed_div, fixed_mul, int_div, int_mul, int_rem, neg, sqrt, sub, to_fixed,
    trunc,
};

/// A flag as a word.
pub fn flag(set: bool) -> i64
    ensures { result ≡ flag set }
{
    i64::from(set)
}

/// The type that an operation gives.
#[tactic(auto, using(brace_model::proofs::TypeLemmas::only_same))]
pub fn unary_type(op: UnOp, operand: Ty) -> Ty
    ensures { (t : Ty) → unary_type op operand ≡ Some t → result ≡ t }
{
    match op {
        UnOp::Neg | UnOp::Abs => operand,
        UnOp::Not => Ty::Bool,
        UnOp::Sqrt | UnOp::ToFixed => Ty::Fixed,
        UnOp::Trunc => Ty::Int,
    }
}

/// The type that an operation gives for two operands of a type.
#[tactic(auto, using(brace_model::proofs::TypeLemmas::only_same))]
pub fn operation_type(op: BinOp, operand: Ty) -> Ty
    ensures { (t : Ty) → operation_type op operand ≡ Some t → result ≡ t }
{
    match op {
        BinOp::Add | BinOp::Sub | BinOp::Mul | BinOp::Div | BinOp::Min | BinOp::Max => operand,
        BinOp::Rem => Ty::Int,
        _ => Ty::Bool,
    }
}

/// An operation on one word.
#[inline(always)]
pub fn unary(op: UnOp, a: i64) -> Result<i64, Kind>
    ensures { result ≡ unary_word op a }
{
    match op {
        UnOp::Neg => neg(a),
        UnOp::Not => Ok(flag(a == 0)),
        UnOp::Abs => abs(a),
        UnOp::Sqrt => sqrt(a),
        UnOp::ToFixed => to_fixed(a),
        UnOp::Trunc => Ok(trunc(a)),
    }
}

// A product of 64 bits, as most are, takes a sixth of the time of one of 128.
#[tactic(auto, using(crate::proofs::WordLemmas::fits_so))]
fn short_millionth(z: i64) -> i64
    ensures { fitting (int_div z (pos 1000000)) ≡ Ok result }
{
    z / 1_000_000
}

/// The product of two fixed numbers.
pub fn fixed_product(a: i64, b: i64) -> Result<i64, Kind>
    ensures { result ≡ exact_fixed_mul a b }
{
    match a.checked_mul(b) {
        Some(z) => Ok(short_millionth(z)),
        None => fixed_mul(a, b),
    }
}

/// The quotient of two ints, by a division of 32 bits where that is enough.
#[tactic(auto, using(crate::proofs::WordLemmas::short_fits))]
pub fn short_quotient(a: i64, b: i64) -> Result<i64, Kind>
    ensures { result ≡ exact_int_div a b }
{
    match (i32::try_from(a), i32::try_from(b)) {
        (Ok(a), Ok(b)) if b > 0 => Ok(i64::from(a / b)),
        _ => int_div(a, b),
    }
}

/// Whether a fixed number is that of a whole one.
fn is_whole(b: i64, whole: i64) -> bool
    ensures { IsTrue result → b ≡ whole *ℤ pos 1000000 }
{
    match whole.checked_mul(1_000_000) {
        Some(z) => z == b,
        None => false,
    }
}

/// The quotient of two fixed numbers: by a whole number that of ints, else by a division of 64 bits
/// where that is enough.
pub fn fixed_quotient(a: i64, b: i64) -> Result<i64, Kind>
    ensures { result ≡ exact_fixed_div a b }
{
    let whole = trunc(b);
    if is_whole(b, whole) {
        return short_quotient(a, whole);
    }
    match a.checked_mul(1_000_000) {
        Some(z) => int_div(z, b),
        None => fixed_div(a, b),
    }
}

fn product(ty: Ty, a: i64, b: i64) -> Result<i64, Kind>
    ensures { result ≡ product_word ty a b }
{
    match ty {
        Ty::Int => int_mul(a, b),
        _ => fixed_product(a, b),
    }
}

fn quotient(ty: Ty, a: i64, b: i64) -> Result<i64, Kind>
    ensures { result ≡ quotient_word ty a b }
{
    match ty {
        Ty::Int => short_quotient(a, b),
        _ => fixed_quotient(a, b),
    }
}

/// An operation on two words of a type.
#[inline(always)]
pub fn binary(op: BinOp, ty: Ty, a: i64, b: i64) -> Result<i64, Kind>
    ensures { result ≡ binary_word op ty a b }
{
    match op {
        BinOp::Add => add(a, b),
        BinOp::Sub => sub(a, b),
        BinOp::Mul => product(ty, a, b),
        BinOp::Div => quotient(ty, a, b),
        BinOp::Rem => int_rem(a, b),
        BinOp::Lt => Ok(flag(a < b)),
        BinOp::Le => Ok(flag(a <= b)),
        BinOp::Gt => Ok(flag(b < a)),
        BinOp::Ge => Ok(flag(b <= a)),
        BinOp::Eq => Ok(flag(a == b)),
        BinOp::Ne => Ok(flag(a != b)),
        BinOp::Min => Ok(a.min(b)),
        BinOp::Max => Ok(a.max(b)),
        BinOp::And | BinOp::Or => Ok(b),
    }
}
