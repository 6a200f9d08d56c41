//! The texts that tell cuts, and why no load is lower.
ghost use Rattle.std.specs.Prelude.{◌≡◌, ◌++◌, OnOk, OnErr, length, take};
ghost use Rattle.brace_balance.specs.Texts.{spaced, plan_line, reason, certificate};

use crate::Proof;
use brace_num::{NoMemory, print_count, print_fixed};

/// Appends the line of a cut plan: `at 0 x C.. y`, with a line feed, where the cuts are in
/// millionths. A refused print leaves `out` as it was.
pub fn print_plan(cuts: &[i64], out: &mut Vec<u8>) -> Result<(), NoMemory>
    ensures printed { OnOk result (out.new.items ≡ out.old.items ++ plan_line cuts.now) }
    ensures kept { OnErr result (out.new.items ≡ out.old.items) }
{
    let before = out.len();
    let printed = append_plan(out, cuts);
    if printed.is_err() {
        out.truncate(before);
    }
    printed
}

/// Appends the certificate of a load: `load N empty`, `load N stack P` or `load N posts P..`, with
/// a line feed. A refused print leaves `out` as it was.
pub fn print_certificate(load: u32, proof: &Proof, out: &mut Vec<u8>) -> Result<(), NoMemory>
    ensures printed { OnOk result (out.new.items ≡ out.old.items ++ certificate load proof.now) }
    ensures kept { OnErr result (out.new.items ≡ out.old.items) }
{
    let before = out.len();
    let printed = append_certificate(out, load, proof);
    if printed.is_err() {
        out.truncate(before);
    }
    printed
}

/// A refused append may leave a part of the text behind `out`.
#[tactic(auto, using(brace_num::proofs::Printings::starts_more))]
fn append_plan(out: &mut Vec<u8>, cuts: &[i64]) -> Result<(), NoMemory>
    ensures printed { OnOk result (out.new.items ≡ out.old.items ++ plan_line cuts.now) }
    ensures only_appends { take (length out.old.items) out.new.items ≡ out.old.items }
{
    out.extend_from_slice(b"at 0 x")?;
    append_spaced(out, cuts)?;
    out.extend_from_slice(b" y\n")?;
    Ok(())
}

#[tactic(auto, using(brace_num::proofs::Printings::starts_more))]
fn append_certificate(out: &mut Vec<u8>, load: u32, proof: &Proof) -> Result<(), NoMemory>
    ensures printed { OnOk result (out.new.items ≡ out.old.items ++ certificate load proof.now) }
    ensures only_appends { take (length out.old.items) out.new.items ≡ out.old.items }
{
    out.extend_from_slice(b"load ")?;
    print_count(out, u64::from(load))?;
    append_reason(out, proof)?;
    out.extend_from_slice(b"\n")?;
    Ok(())
}

#[tactic(auto, using(brace_num::proofs::Printings::starts_more))]
fn append_reason(out: &mut Vec<u8>, proof: &Proof) -> Result<(), NoMemory>
    ensures printed { OnOk result (out.new.items ≡ out.old.items ++ reason proof.now) }
    ensures only_appends { take (length out.old.items) out.new.items ≡ out.old.items }
{
    match proof {
        Proof::Empty => {
            out.extend_from_slice(b" empty")?;
            Ok(())
        }
        Proof::Stack(p) => {
            out.extend_from_slice(b" stack")?;
            append_spaced(out, &[*p])
        }
        Proof::Posts(posts) => {
            out.extend_from_slice(b" posts")?;
            append_spaced(out, posts.as_slice())
        }
    }
}

#[tactic(auto, using(brace_num::proofs::Printings::starts_more))]
fn append_spaced(out: &mut Vec<u8>, numbers: &[i64]) -> Result<(), NoMemory>
    ensures printed { OnOk result (out.new.items ≡ out.old.items ++ spaced numbers.now) }
    ensures only_appends { take (length out.old.items) out.new.items ≡ out.old.items }
{
    for v in numbers {
        out.extend_from_slice(b" ")?;
        print_fixed(out, *v)?;
    }
    Ok(())
}
