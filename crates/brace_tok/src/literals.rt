ghost use Rattle.std.specs.Prelude.{◌≡◌, ℕ, ◌≤◌, ◌^◌, ◌-◌, IsTrue, SomeIff};
ghost use Rattle.std.specs.Str.Parse.{digits_value};
ghost use Rattle.brace_tok.specs.Bytes.{are_digits};
ghost use Rattle.brace_tok.specs.Roles.{whole_kind, fixed_kind};
ghost use Rattle.brace_tok.specs.inner.Steps.{IsFraction};

use crate::TokKind;
use crate::runs::{Run, is_digit, run_length};

/// The greatest value of a literal, in whole units or in millionths.
const LITERAL_LIMIT: u128 = 9_223_372_036_854_775_807;

/// The kind of a whole literal, which is at most 2^63-1.
pub(crate) fn whole_kind(digits: &[u8]) -> Option<TokKind>
    requires { IsTrue (are_digits digits.now) }
    ensures { result ≡ whole_kind digits.now }
{
    let value = value_of(digits)?;
    Some(TokKind::Int(value as i64))
}

/// The kind of a literal with a point, which has at most six digits behind it and at most 2^63-1
/// millionths.
pub(crate) fn fixed_kind(digits: &[u8], decimals: &[u8]) -> Option<TokKind>
    requires digits { IsTrue (are_digits digits.now) }
    requires decimals { IsTrue (are_digits decimals.now) }
    ensures { result ≡ fixed_kind digits.now decimals.now }
{
    if decimals.len() > 6 {
        return None;
    }
    let units = value_of(digits)?;
    let Some(parts) = value_of(decimals) else {
        return None;
    };
    let millionths = units * 1_000_000 + parts * scale(decimals.len());
    if millionths > LITERAL_LIMIT {
        return None;
    }
    Some(TokKind::Fixed(millionths as i64))
}

/// How many millionths the last of so many decimals counts.
fn scale(decimals: usize) -> u128
    requires { decimals ≤ 6 }
    ensures { result ≡ 10 ^ (6 - decimals) }
{
    match decimals {
        0 => 1_000_000,
        1 => 100_000,
        2 => 10_000,
        3 => 1_000,
        4 => 100,
        5 => 10,
        _ => 1,
    }
}

/// The value of digits, where it is at most 2^63-1.
fn value_of(digits: &[u8]) -> Option<u128>
    requires { IsTrue (are_digits digits.now) }
    ensures { SomeIff result (digits_value 10 digits.now ≤ 9223372036854775807)
        (digits_value 10 digits.now) }
{
    let mut value = 0;
    for digit in digits {
        value = value * 10 + u128::from(*digit - b'0');
        if value > LITERAL_LIMIT {
            return None;
        }
    }
    Some(value)
}

/// How many digits stand behind the point that the text begins with; 0 where it begins with none.
pub(crate) fn decimals_length(text: &[u8]) -> usize
    ensures { IsFraction text.now result }
{
    if text.len() < 2 || text[0] != b'.' {
        return 0;
    }
    run_length(Run::Digits, text.split_at(1).1)
}
