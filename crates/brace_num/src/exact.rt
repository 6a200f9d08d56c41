ghost use Rattle.std.specs.Prelude.{◌≡◌, ◌*◌, ◌^◌, ◌<◌, ◌≤◌, ◌≤ℤ◌, ◌+ℤ◌, ◌-ℤ◌, ◌*ℤ◌, pos, unsigned_abs, int_div, IsFalse};
ghost use Rattle.std.specs.Int.{int_max, int_min};
ghost use Rattle.brace_num.specs.Exact.{clamped, exact_abs, exact_add, exact_fixed_div, exact_fixed_mul, exact_int_div, exact_int_mul, exact_int_rem, exact_neg, exact_sqrt, exact_sub, exact_to_fixed, exact_trunc, fitting, is_zero, root};

use crate::Kind;

/// `a + b`, of two ints or two fixed numbers; `Overflow` where the sum does not fit.
pub fn add(a: i64, b: i64) -> Result<i64, Kind>
    ensures { result ≡ exact_add a b }
{
    a.checked_add(b).ok_or(Kind::Overflow)
}

/// `a - b`, of two ints or two fixed numbers; `Overflow` where the difference does not fit.
pub fn sub(a: i64, b: i64) -> Result<i64, Kind>
    ensures { result ≡ exact_sub a b }
{
    a.checked_sub(b).ok_or(Kind::Overflow)
}

/// `-a`; `Overflow` for the least number.
pub fn neg(a: i64) -> Result<i64, Kind>
    ensures { result ≡ exact_neg a }
{
    a.checked_neg().ok_or(Kind::Overflow)
}

/// The magnitude of `a`; `Overflow` for the least number.
pub fn abs(a: i64) -> Result<i64, Kind>
    ensures { result ≡ exact_abs a }
{
    a.checked_abs().ok_or(Kind::Overflow)
}

/// `a * b`, of two ints; `Overflow` where the product does not fit.
pub fn int_mul(a: i64, b: i64) -> Result<i64, Kind>
    ensures { result ≡ exact_int_mul a b }
{
    a.checked_mul(b).ok_or(Kind::Overflow)
}

/// `a / b`, of two ints, cut toward zero; `DivZero` where `b` is 0, `Overflow` where the quotient
/// does not fit.
pub fn int_div(a: i64, b: i64) -> Result<i64, Kind>
    ensures { result ≡ exact_int_div a b }
{
    if b == 0 {
        return Err(Kind::DivZero);
    }
    a.checked_div(b).ok_or(Kind::Overflow)
}

/// What is left of `a` by `int_div`, with the sign of `a`; `DivZero` where `b` is 0.
pub fn int_rem(a: i64, b: i64) -> Result<i64, Kind>
    ensures { result ≡ exact_int_rem a b }
{
    if b == 0 {
        return Err(Kind::DivZero);
    }
    Ok(a.wrapping_rem(b))
}

/// `a * b`, of two fixed numbers in millionths, cut toward zero; `Overflow` where the product does
/// not fit.
pub fn fixed_mul(a: i64, b: i64) -> Result<i64, Kind>
    ensures { result ≡ exact_fixed_mul a b }
{
    narrow(millionth(wide_product(a, b)))
}

/// `a / b`, of two fixed numbers in millionths, cut toward zero; `DivZero` where `b` is 0,
/// `Overflow` where the quotient does not fit.
pub fn fixed_div(a: i64, b: i64) -> Result<i64, Kind>
    ensures { result ≡ exact_fixed_div a b }
{
    if b == 0 {
        return Err(Kind::DivZero);
    }
    fixed_quotient(a, b)
}

/// The square root of a fixed number in millionths, cut down; `NegRoot` where `a` is below 0.
///
/// It is the greatest `r` with `r * r <= a * 1000000`, found in at most 64 steps.
pub fn sqrt(a: i64) -> Result<i64, Kind>
    ensures { result ≡ exact_sqrt a }
{
    if a < 0 {
        return Err(Kind::NegRoot);
    }
    Ok(fixed_root(a.unsigned_abs()))
}

/// The int `a` as a fixed number in millionths; `Overflow` where that does not fit.
pub fn to_fixed(a: i64) -> Result<i64, Kind>
    ensures { result ≡ exact_to_fixed a }
{
    a.checked_mul(1_000_000).ok_or(Kind::Overflow)
}

/// The fixed number `a`, in millionths, as an int, cut toward zero.
pub fn trunc(a: i64) -> i64
    ensures { result ≡ exact_trunc a }
{
    a / 1_000_000
}

fn fixed_quotient(a: i64, b: i64) -> Result<i64, Kind>
    requires { IsFalse (is_zero b) }
    ensures { result ≡ fitting (int_div (a *ℤ pos 1000000) b) }
{
    narrow(wide_quotient(wide_product(a, 1_000_000), b))
}

// The root of that many millionths, in millionths.
fn fixed_root(a: u64) -> i64
    requires { a < 2 ^ 63 }
    ensures { result ≡ pos (root (a * 1000000)) }
{
    (u128::from(a) * 1_000_000).isqrt() as i64
}

fn wide_product(a: i64, b: i64) -> i128
    ensures product { result ≡ a *ℤ b }
    ensures bound { unsigned_abs result ≤ 2 ^ 126 }
{
    i128::from(a) * i128::from(b)
}

fn millionth(z: i128) -> i128
    ensures { result ≡ int_div z (pos 1000000) }
{
    z / 1_000_000
}

fn wide_quotient(z: i128, d: i64) -> i128
    requires small { unsigned_abs z ≤ 2 ^ 126 }
    requires divisor { IsFalse (is_zero d) }
    ensures { result ≡ int_div z d }
{
    z / i128::from(d)
}

// The number itself where it fits.
fn narrow(z: i128) -> Result<i64, Kind>
    ensures { result ≡ fitting z }
{
    match i64::try_from(z) {
        Ok(number) => Ok(number),
        Err(_) => Err(Kind::Overflow),
    }
}

fn wide_sum(a: i64, b: i64) -> i128
    ensures { result ≡ a +ℤ b }
{
    i128::from(a) + i128::from(b)
}

fn wide_difference(a: i64, b: i64) -> i128
    ensures { result ≡ a -ℤ b }
{
    i128::from(a) - i128::from(b)
}

fn wide_clamp(low: i128, new: i64, high: i128) -> i128
    requires { low ≤ℤ high }
    ensures { result ≡ int_max low (int_min new high) }
{
    i128::from(new).clamp(low, high)
}

/// The new coordinate, moved into `[old - reach, old + reach]`, all in millionths.
///
/// The bounds are exact: they may lie past 64 bits. The reach is not negative.
#[tactic(auto, using(crate::proofs::Exactness::clamped_fits))]
pub fn clamp(old: i64, new: i64, reach: i64) -> i64
    requires { pos 0 ≤ℤ reach }
    ensures { result ≡ clamped old new reach }
{
    wide_clamp(wide_difference(old, reach), new, wide_sum(old, reach)) as i64
}
