ghost use Rattle.std.specs.Prelude.{◌≡◌, ◌++◌, ◌∷◌, OnOk, OnErr, ◌<◌, length, take};
ghost use Rattle.brace_num.specs.Spelling.{canonical_count, canonical_int, canonical_fixed, sign_of, six_digits};

use crate::NoMemory;
use itoa::Buffer;

/// Appends the canonical spelling of a count: its digits. A refused print leaves `out` as it was.
pub fn print_count(out: &mut Vec<u8>, v: u64) -> Result<(), NoMemory>
    ensures printed { OnOk result (out.new.items ≡ out.old.items ++ canonical_count v) }
    ensures kept { OnErr result (out.new.items ≡ out.old.items) }
{
    out.extend_from_slice(Buffer::new().format(v).as_bytes())?;
    Ok(())
}

/// Appends the canonical spelling of an int. A refused print leaves `out` as it was.
pub fn print_int(out: &mut Vec<u8>, v: i64) -> Result<(), NoMemory>
    ensures printed { OnOk result (out.new.items ≡ out.old.items ++ canonical_int v) }
    ensures kept { OnErr result (out.new.items ≡ out.old.items) }
{
    out.extend_from_slice(Buffer::new().format(v).as_bytes())?;
    Ok(())
}

/// Appends the canonical spelling of a fixed number of `v` millionths. A refused print leaves `out`
/// as it was.
pub fn print_fixed(out: &mut Vec<u8>, v: i64) -> Result<(), NoMemory>
    ensures printed { OnOk result (out.new.items ≡ out.old.items ++ canonical_fixed v) }
    ensures kept { OnErr result (out.new.items ≡ out.old.items) }
{
    let magnitude = v.unsigned_abs();
    let mut buffer = Buffer::new();
    let parts = Parts {
        sign: sign(i128::from(v)),
        whole: buffer.format(magnitude / 1_000_000).as_bytes(),
        millionths: magnitude % 1_000_000,
    };
    print_parts(out, &parts)
}

/// Appends the canonical spelling of a sum of fixed numbers, of `v` millionths. A refused print
/// leaves `out` as it was.
pub fn print_wide_fixed(out: &mut Vec<u8>, v: i128) -> Result<(), NoMemory>
    ensures printed { OnOk result (out.new.items ≡ out.old.items ++ canonical_fixed v) }
    ensures kept { OnErr result (out.new.items ≡ out.old.items) }
{
    let magnitude = v.unsigned_abs();
    let mut buffer = Buffer::new();
    let parts = Parts {
        sign: sign(v),
        whole: buffer.format(magnitude / 1_000_000).as_bytes(),
        millionths: (magnitude % 1_000_000) as u64,
    };
    print_parts(out, &parts)
}

// What stands before the point of a number, and behind it.
#[derive(Clone, Copy)]
struct Parts<'a> {
    sign: &'a [u8],
    whole: &'a [u8],
    millionths: u64,
}

// A sign, a whole part, a point and six digits. A refused print leaves `out` as it was.
fn print_parts(out: &mut Vec<u8>, parts: &Parts) -> Result<(), NoMemory>
    requires { parts.now.millionths < 1000000 }
    ensures printed { OnOk result (out.new.items ≡ out.old.items ++ parts.now.sign.now
        ++ parts.now.whole.now ++ 46 ∷ six_digits parts.now.millionths) }
    ensures kept { OnErr result (out.new.items ≡ out.old.items) }
{
    let before = out.len();
    let printed = append_parts(out, parts);
    if printed.is_err() {
        out.truncate(before);
    }
    printed
}

// A refused append may leave a part of the spelling behind `out`.
#[tactic(auto, using(crate::proofs::Printings::starts_more))]
fn append_parts(out: &mut Vec<u8>, parts: &Parts) -> Result<(), NoMemory>
    requires { parts.now.millionths < 1000000 }
    ensures printed { OnOk result (out.new.items ≡ out.old.items ++ parts.now.sign.now
        ++ parts.now.whole.now ++ 46 ∷ six_digits parts.now.millionths) }
    ensures only_appends { take (length out.old.items) out.new.items ≡ out.old.items }
{
    out.extend_from_slice(parts.sign)?;
    out.extend_from_slice(parts.whole)?;
    out.extend_from_slice(b".")?;
    append_six_digits(out, parts.millionths)
}

fn sign(v: i128) -> &'static [u8]
    ensures { result.now ≡ sign_of v }
{
    if v < 0 { b"-" } else { b"" }
}

#[tactic(auto, using(crate::proofs::Printings::starts_more))]
fn append_six_digits(out: &mut Vec<u8>, n: u64) -> Result<(), NoMemory>
    requires { n < 1000000 }
    ensures printed { OnOk result (out.new.items ≡ out.old.items ++ six_digits n) }
    ensures only_appends { take (length out.old.items) out.new.items ≡ out.old.items }
{
    let mut buffer = Buffer::new();
    let digits = buffer.format(n).as_bytes();
    let zeros = [b'0'; 6];
    out.extend_from_slice(&zeros[digits.len()..])?;
    out.extend_from_slice(digits)?;
    Ok(())
}
