ghost use Rattle.std.specs.Prelude.{◌≡◌, ◌+◌, ◌-◌, ◌≤◌, ◌++◌, length, take, drop, OnOk};
ghost use Rattle.brace_show.specs.Literals.{without_zeros, short_fixed, literal};

use brace_num::{NoMemory, print_fixed, print_int};
use brace_syntax::Digits;

// The digits without the zeros at their end.
fn without_zeros(mut digits: &[u8]) -> &[u8]
    ensures { result.now ≡ without_zeros digits.entry.now }
{
    while let [front @ .., b'0'] = digits {
        digits = front;
    }
    digits
}

// Takes the zeros from the end of the last five digits.
fn shorten(out: &mut Vec<u8>)
    requires { 5 ≤ length out.old.items }
    ensures { out.new.items ≡
        take (length out.old.items - 5 +
        length (without_zeros (drop (length out.old.items - 5) out.old.items))) out.old.items }
{
    let others = out.len() - 5;
    let kept = without_zeros(&out[others..]).len();
    out.truncate(others + kept);
}

/// Appends a fixed number of `v` millionths with as few digits after the point as say it, but one.
#[tactic(auto, using(crate::proofs::Zeros::fixed_shortened, crate::proofs::Zeros::long_enough))]
pub fn append_fixed(out: &mut Vec<u8>, v: i64) -> Result<(), NoMemory>
    ensures printed { OnOk result (out.new.items ≡ out.old.items ++ short_fixed v) }
{
    print_fixed(out, v)?;
    shorten(out);
    Ok(())
}

/// Appends a literal.
pub fn append_literal(out: &mut Vec<u8>, digits: Digits) -> Result<(), NoMemory>
    ensures printed { OnOk result (out.new.items ≡ out.old.items ++ literal digits) }
{
    match digits {
        Digits::Int(v) => print_int(out, v),
        Digits::Fixed(v) => append_fixed(out, v),
    }
}
