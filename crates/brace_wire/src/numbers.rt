//! Numbers and what is as simple, read from the front of bytes.
ghost use Rattle.std.specs.Prelude.{◌≡◌, ◌*◌, ◌^◌, ◌+◌, IfErr};
ghost use Rattle.brace_wire.specs.declared.fault.Unread.TheVariants as unread;
ghost use Rattle.brace_wire.specs.inner.Reading.{Gives, four_at, eight_at, signed_at, sixteen_at, flag_at, optional_at, phase_at, kind_at};

use crate::fault::Unread;
use brace_model::Phase;
use brace_num::Kind;

/// A number of 4 bytes, and the bytes behind it.
#[tactic(auto, unfolding(crate::specs::inner::Reading::four_at))]
pub(crate) fn read_four(bytes: &[u8]) -> Result<(u32, &[u8]), Unread>
    ensures read { Gives (λ x. (x.0, x.1.now)) result (four_at bytes.now) }
    ensures bad { IfErr result (λ e. e ≡ unread.Bad) }
{
    if bytes.len() < 4 {
        return Err(Unread::Bad);
    }
    let (front, rest) = bytes.split_at(4);
    let n = u32::from_be_bytes([front[0], front[1], front[2], front[3]]);
    Ok((n, rest))
}

/// A number of 8 bytes, and the bytes behind it.
#[tactic(auto, unfolding(crate::specs::inner::Reading::eight_at))]
pub(crate) fn read_eight(bytes: &[u8]) -> Result<(u64, &[u8]), Unread>
    ensures { Gives (λ x. (x.0, x.1.now)) result (eight_at bytes.now) }
{
    if bytes.len() < 8 {
        return Err(Unread::Bad);
    }
    let (front, rest) = bytes.split_at(8);
    let n = u64::from_be_bytes([
        front[0], front[1], front[2], front[3], front[4], front[5], front[6], front[7],
    ]);
    Ok((n, rest))
}

/// A signed number of 8 bytes, and the bytes behind it.
#[tactic(auto, unfolding(crate::specs::inner::Reading::signed_at))]
pub(crate) fn read_signed(bytes: &[u8]) -> Result<(i64, &[u8]), Unread>
    ensures { Gives (λ x. (x.0, x.1.now)) result (signed_at bytes.now) }
{
    let (n, rest) = read_eight(bytes)?;
    Ok((n.cast_signed(), rest))
}

/// A signed number of 16 bytes, and the bytes behind it.
#[tactic(auto, unfolding(crate::specs::inner::Reading::sixteen_at))]
pub(crate) fn read_sixteen(bytes: &[u8]) -> Result<(i128, &[u8]), Unread>
    ensures { Gives (λ x. (x.0, x.1.now)) result (sixteen_at bytes.now) }
{
    let (high, rest) = read_eight(bytes)?;
    let (low, rest) = read_eight(rest)?;
    Ok((of_halves(high, low).cast_signed(), rest))
}

fn of_halves(high: u64, low: u64) -> u128
    ensures { result ≡ high * 2 ^ 64 + low }
{
    u128::from(high) * 18_446_744_073_709_551_616 + u128::from(low)
}

/// A flag, and the bytes behind it.
#[tactic(auto, unfolding(crate::specs::inner::Reading::flag_at))]
pub(crate) fn read_flag(bytes: &[u8]) -> Result<(bool, &[u8]), Unread>
    ensures { Gives (λ x. (x.0, x.1.now)) result (flag_at bytes.now) }
{
    match bytes {
        [0, rest @ ..] => Ok((false, rest)),
        [1, rest @ ..] => Ok((true, rest)),
        _ => Err(Unread::Bad),
    }
}

/// A number of 8 bytes or none, and the bytes behind it.
#[tactic(auto, unfolding(crate::specs::inner::Reading::optional_at))]
pub(crate) fn read_optional(bytes: &[u8]) -> Result<(Option<u64>, &[u8]), Unread>
    ensures { Gives (λ x. (x.0, x.1.now)) result (optional_at bytes.now) }
{
    match bytes {
        [0, rest @ ..] => Ok((None, rest)),
        [1, rest @ ..] => {
            let (n, rest) = read_eight(rest)?;
            Ok((Some(n), rest))
        }
        _ => Err(Unread::Bad),
    }
}

/// A part of a tick, and the bytes behind it.
#[tactic(auto, unfolding(crate::specs::inner::Reading::phase_at))]
pub(crate) fn read_phase(bytes: &[u8]) -> Result<(Phase, &[u8]), Unread>
    ensures { Gives (λ x. (x.0, x.1.now)) result (phase_at bytes.now) }
{
    match bytes {
        [0, rest @ ..] => Ok((Phase::Query, rest)),
        [1, rest @ ..] => Ok((Phase::Update, rest)),
        [2, rest @ ..] => Ok((Phase::Birth, rest)),
        _ => Err(Unread::Bad),
    }
}

/// A kind of fault, and the bytes behind it.
#[tactic(auto, unfolding(crate::specs::inner::Reading::kind_at))]
pub(crate) fn read_kind(bytes: &[u8]) -> Result<(Kind, &[u8]), Unread>
    ensures { Gives (λ x. (x.0, x.1.now)) result (kind_at bytes.now) }
{
    match bytes {
        [1, rest @ ..] => Ok((Kind::Overflow, rest)),
        [2, rest @ ..] => Ok((Kind::DivZero, rest)),
        [3, rest @ ..] => Ok((Kind::NegRoot, rest)),
        [4, rest @ ..] => Ok((Kind::TooMany, rest)),
        _ => Err(Unread::Bad),
    }
}
