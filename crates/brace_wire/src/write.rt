//! Numbers, agents, entries and faults as bytes.
ghost use Rattle.std.specs.Prelude.{◌≡◌, ◌<◌, ◌^◌, ◌++◌, [], ◌∷◌, flat_map, take, length, OnOk, FitsSigned, IfSome};
ghost use Rattle.std.specs.Int.{w64, w128};
ghost use Rattle.std.specs.List.{AllByRecursion};
ghost use Rattle.brace_wire.specs.Frames.{four, eight, signed, sixteen, flag, optional, listed, value, agent, total, entry, parent, census, shown, phase, kind, fault, cause_bytes};
ghost use Rattle.brace_wire.specs.Fitting.{ValueFits, AgentFits, TotalFits, EntryFits, ParentFits, CensusFits, ShownFits, FaultFits, CauseFits, ListFits};

use brace_comb::{Entry, Total};
use brace_model::{Agent, Census, Fault, Herd, Parent, Phase, Value};
use brace_num::{Kind, NoMemory};
use brace_pieces::{Cause, Shown};

/// Appends one byte.
#[tactic(auto, using(crate::proofs::Starts::starts))]
pub(crate) fn append_byte(out: &mut Vec<u8>, byte: u8) -> Result<(), NoMemory>
    ensures written { OnOk result (out.new.items ≡ out.old.items ++ byte ∷ []) }
    ensures only_appends { take (length out.old.items) out.new.items ≡ out.old.items }
{
    out.push(byte)?;
    Ok(())
}

/// Appends a number in 4 bytes.
#[tactic(auto, using(crate::proofs::Starts::starts), unfolding(crate::specs::Frames::four))]
pub(crate) fn append_four(out: &mut Vec<u8>, n: u32) -> Result<(), NoMemory>
    ensures written { OnOk result (out.new.items ≡ out.old.items ++ four n) }
    ensures only_appends { take (length out.old.items) out.new.items ≡ out.old.items }
{
    out.extend_from_slice(&n.to_be_bytes())?;
    Ok(())
}

/// Appends a number in 8 bytes.
#[tactic(auto, using(crate::proofs::Starts::starts), unfolding(crate::specs::Frames::eight))]
pub(crate) fn append_eight(out: &mut Vec<u8>, n: u64) -> Result<(), NoMemory>
    ensures written { OnOk result (out.new.items ≡ out.old.items ++ eight n) }
    ensures only_appends { take (length out.old.items) out.new.items ≡ out.old.items }
{
    out.extend_from_slice(&n.to_be_bytes())?;
    Ok(())
}

/// Appends a signed number in 8 bytes.
#[tactic(auto, unfolding(crate::specs::Frames::signed))]
fn append_signed(out: &mut Vec<u8>, n: i64) -> Result<(), NoMemory>
    ensures written { OnOk result (out.new.items ≡ out.old.items ++ signed n) }
    ensures fits { OnOk result (FitsSigned w64 n) }
    ensures only_appends { take (length out.old.items) out.new.items ≡ out.old.items }
{
    append_eight(out, n.cast_unsigned())
}

/// Appends a signed number in 16 bytes.
#[tactic(auto, using(crate::proofs::Starts::starts), unfolding(crate::specs::Frames::sixteen))]
fn append_sixteen(out: &mut Vec<u8>, n: i128) -> Result<(), NoMemory>
    ensures written { OnOk result (out.new.items ≡ out.old.items ++ sixteen n) }
    ensures fits { OnOk result (FitsSigned w128 n) }
    ensures only_appends { take (length out.old.items) out.new.items ≡ out.old.items }
{
    let bits = n.cast_unsigned();
    append_eight(out, (bits / 18_446_744_073_709_551_616) as u64)?;
    append_eight(out, (bits % 18_446_744_073_709_551_616) as u64)
}

#[tactic(auto, unfolding(crate::specs::Frames::flag))]
fn append_flag(out: &mut Vec<u8>, b: bool) -> Result<(), NoMemory>
    ensures written { OnOk result (out.new.items ≡ out.old.items ++ flag b) }
    ensures only_appends { take (length out.old.items) out.new.items ≡ out.old.items }
{
    append_byte(out, u8::from(b))
}

#[tactic(auto, using(crate::proofs::Starts::starts), unfolding(crate::specs::Frames::optional))]
fn append_optional(out: &mut Vec<u8>, n: Option<u64>) -> Result<(), NoMemory>
    ensures written { OnOk result (out.new.items ≡ out.old.items ++ optional n) }
    ensures fits { OnOk result (IfSome n (λ k. k < 2 ^ 64)) }
    ensures only_appends { take (length out.old.items) out.new.items ≡ out.old.items }
{
    match n {
        None => append_byte(out, 0),
        Some(n) => {
            append_byte(out, 1)?;
            append_eight(out, n)
        }
    }
}

/// Appends how many items a list has. No memory holds 2^32 of them.
fn append_count(out: &mut Vec<u8>, count: usize) -> Result<(), NoMemory>
    ensures written { OnOk result (out.new.items ≡ out.old.items ++ four count) }
    ensures fits { OnOk result (count < 2 ^ 32) }
    ensures only_appends { take (length out.old.items) out.new.items ≡ out.old.items }
{
    match u32::try_from(count) {
        Ok(count) => append_four(out, count),
        Err(_) => Err(NoMemory),
    }
}

#[tactic(auto, unfolding(crate::specs::Frames::value))]
fn append_value(out: &mut Vec<u8>, v: Value) -> Result<(), NoMemory>
    ensures written { OnOk result (out.new.items ≡ out.old.items ++ value v) }
    ensures fits { OnOk result (ValueFits v) }
    ensures only_appends { take (length out.old.items) out.new.items ≡ out.old.items }
{
    match v {
        Value::Int(n) => append_signed(out, n),
        Value::Fixed(n) => append_signed(out, n),
        Value::Flag(b) => append_flag(out, b),
    }
}

#[tactic(auto, using(crate::proofs::Starts::starts))]
fn append_values(out: &mut Vec<u8>, values: &[Value]) -> Result<(), NoMemory>
    ensures written { OnOk result (out.new.items ≡ out.old.items ++ flat_map value values.now) }
    ensures fits { OnOk result (AllByRecursion ValueFits values.now) }
    ensures only_appends { take (length out.old.items) out.new.items ≡ out.old.items }
{
    for v in values {
        append_value(out, *v)?;
    }
    Ok(())
}

#[tactic(auto, using(crate::proofs::Starts::starts), unfolding(crate::specs::Frames::agent))]
fn append_agent(out: &mut Vec<u8>, a: &Agent) -> Result<(), NoMemory>
    ensures written { OnOk result (out.new.items ≡ out.old.items ++ agent a.now) }
    ensures fits { OnOk result (AgentFits a.now) }
    ensures only_appends { take (length out.old.items) out.new.items ≡ out.old.items }
{
    append_four(out, a.class)?;
    append_eight(out, a.id)?;
    append_values(out, a.states.as_slice())
}

/// Appends the agents of a herd, which are unpacked one at a time.
#[tactic(auto, using(crate::proofs::Starts::starts))]
pub(crate) fn append_herd(out: &mut Vec<u8>, agents: &Herd) -> Result<(), NoMemory>
    ensures written { OnOk result (out.new.items ≡ out.old.items ++ listed agent agents.now) }
    ensures fits { OnOk result (ListFits AgentFits agents.now) }
    ensures only_appends { take (length out.old.items) out.new.items ≡ out.old.items }
{
    append_count(out, agents.len())?;
    let mut values = agents.no_values();
    for place in 0..agents.len() {
        let a = agents.agent(place, values)?;
        append_agent(out, &a)?;
        values = a.states.into_vec();
    }
    Ok(())
}

#[tactic(auto, using(crate::proofs::Starts::starts), unfolding(crate::specs::Frames::total))]
fn append_total(out: &mut Vec<u8>, t: Total) -> Result<(), NoMemory>
    ensures written { OnOk result (out.new.items ≡ out.old.items ++ total t) }
    ensures fits { OnOk result (TotalFits t) }
    ensures only_appends { take (length out.old.items) out.new.items ≡ out.old.items }
{
    match t {
        Total::Sum(n, k) => {
            append_byte(out, 0)?;
            append_sixteen(out, n)?;
            append_eight(out, k)
        }
        Total::Least(n, k) => append_extreme(out, 1, n, k),
        Total::Greatest(n, k) => append_extreme(out, 2, n, k),
        Total::Count(k) => {
            append_byte(out, 3)?;
            append_eight(out, k)
        }
        Total::Any(b, k) => {
            append_byte(out, 4)?;
            append_flag(out, b)?;
            append_eight(out, k)
        }
    }
}

#[tactic(auto, using(crate::proofs::Starts::starts))]
fn append_extreme(out: &mut Vec<u8>, form: u8, n: i64, k: u64) -> Result<(), NoMemory>
    ensures written { OnOk result (out.new.items ≡ out.old.items ++ form ∷ signed n ++ eight k) }
    ensures fits { OnOk result (FitsSigned w64 n) }
    ensures only_appends { take (length out.old.items) out.new.items ≡ out.old.items }
{
    append_byte(out, form)?;
    append_signed(out, n)?;
    append_eight(out, k)
}

#[tactic(auto, using(crate::proofs::Starts::starts), unfolding(crate::specs::Frames::entry))]
fn append_entry(out: &mut Vec<u8>, e: &Entry) -> Result<(), NoMemory>
    ensures written { OnOk result (out.new.items ≡ out.old.items ++ entry e.now) }
    ensures fits { OnOk result (EntryFits e.now) }
    ensures only_appends { take (length out.old.items) out.new.items ≡ out.old.items }
{
    append_eight(out, e.target)?;
    append_four(out, e.field)?;
    append_total(out, e.total)
}

#[tactic(auto, using(crate::proofs::Starts::starts))]
pub(crate) fn append_entries(out: &mut Vec<u8>, entries: &[Entry]) -> Result<(), NoMemory>
    ensures written { OnOk result (out.new.items ≡ out.old.items ++ listed entry entries.now) }
    ensures fits { OnOk result (ListFits EntryFits entries.now) }
    ensures only_appends { take (length out.old.items) out.new.items ≡ out.old.items }
{
    append_count(out, entries.len())?;
    for e in entries {
        append_entry(out, e)?;
    }
    Ok(())
}

#[tactic(auto, using(crate::proofs::Starts::starts), unfolding(crate::specs::Frames::parent))]
fn append_parent(out: &mut Vec<u8>, p: &Parent) -> Result<(), NoMemory>
    ensures written { OnOk result (out.new.items ≡ out.old.items ++ parent p.now) }
    ensures fits { OnOk result (ParentFits p.now) }
    ensures only_appends { take (length out.old.items) out.new.items ≡ out.old.items }
{
    append_eight(out, p.id)?;
    append_four(out, p.class)
}

#[tactic(auto, using(crate::proofs::Starts::starts))]
fn append_parents(out: &mut Vec<u8>, parents: &[Parent]) -> Result<(), NoMemory>
    ensures written { OnOk result (out.new.items ≡ out.old.items ++ listed parent parents.now) }
    ensures fits { OnOk result (ListFits ParentFits parents.now) }
    ensures only_appends { take (length out.old.items) out.new.items ≡ out.old.items }
{
    append_count(out, parents.len())?;
    for p in parents {
        append_parent(out, p)?;
    }
    Ok(())
}

#[tactic(auto, using(crate::proofs::Starts::starts), unfolding(crate::specs::Frames::census))]
pub(crate) fn append_census(out: &mut Vec<u8>, c: &Census) -> Result<(), NoMemory>
    ensures written { OnOk result (out.new.items ≡ out.old.items ++ census c.now) }
    ensures fits { OnOk result (CensusFits c.now) }
    ensures only_appends { take (length out.old.items) out.new.items ≡ out.old.items }
{
    append_eight(out, c.living)?;
    append_eight(out, c.values)?;
    append_parents(out, c.parents.as_slice())
}

#[tactic(auto, using(crate::proofs::Starts::starts), unfolding(crate::specs::Frames::shown))]
fn append_shown(out: &mut Vec<u8>, s: &Shown) -> Result<(), NoMemory>
    ensures written { OnOk result (out.new.items ≡ out.old.items ++ shown s.now) }
    ensures fits { OnOk result (ShownFits AgentFits s.now) }
    ensures only_appends { take (length out.old.items) out.new.items ≡ out.old.items }
{
    append_eight(out, s.tick)?;
    append_eight(out, s.next)?;
    append_herd(out, &s.agents)
}

#[tactic(auto, using(crate::proofs::Starts::starts))]
pub(crate) fn append_shows(out: &mut Vec<u8>, shows: &[Shown]) -> Result<(), NoMemory>
    ensures written { OnOk result (out.new.items ≡ out.old.items ++ listed shown shows.now) }
    ensures fits { OnOk result (ListFits (ShownFits AgentFits) shows.now) }
    ensures only_appends { take (length out.old.items) out.new.items ≡ out.old.items }
{
    append_count(out, shows.len())?;
    for s in shows {
        append_shown(out, s)?;
    }
    Ok(())
}

#[tactic(auto, unfolding(crate::specs::Frames::phase))]
fn append_phase(out: &mut Vec<u8>, p: Phase) -> Result<(), NoMemory>
    ensures written { OnOk result (out.new.items ≡ out.old.items ++ phase p) }
    ensures only_appends { take (length out.old.items) out.new.items ≡ out.old.items }
{
    match p {
        Phase::Query => append_byte(out, 0),
        Phase::Update => append_byte(out, 1),
        Phase::Birth => append_byte(out, 2),
    }
}

#[tactic(auto, unfolding(crate::specs::Frames::kind))]
fn append_kind(out: &mut Vec<u8>, k: Kind) -> Result<(), NoMemory>
    ensures written { OnOk result (out.new.items ≡ out.old.items ++ kind k) }
    ensures only_appends { take (length out.old.items) out.new.items ≡ out.old.items }
{
    match k {
        Kind::Overflow => append_byte(out, 1),
        Kind::DivZero => append_byte(out, 2),
        Kind::NegRoot => append_byte(out, 3),
        Kind::TooMany => append_byte(out, 4),
    }
}

#[tactic(auto, using(crate::proofs::Starts::starts), unfolding(crate::specs::Frames::fault))]
fn append_fault(out: &mut Vec<u8>, f: Fault) -> Result<(), NoMemory>
    ensures written { OnOk result (out.new.items ≡ out.old.items ++ fault f) }
    ensures fits { OnOk result (FaultFits f) }
    ensures only_appends { take (length out.old.items) out.new.items ≡ out.old.items }
{
    append_eight(out, f.tick)?;
    append_phase(out, f.phase)?;
    append_eight(out, f.agent)?;
    append_four(out, f.site)?;
    append_optional(out, f.outer)?;
    append_optional(out, f.inner)?;
    append_kind(out, f.kind)
}

#[tactic(auto, using(crate::proofs::Starts::starts), unfolding(crate::specs::Frames::cause_bytes))]
pub(crate) fn append_cause(out: &mut Vec<u8>, c: Cause) -> Result<(), NoMemory>
    ensures written { OnOk result (out.new.items ≡ out.old.items ++ cause_bytes c) }
    ensures fits { OnOk result (CauseFits c) }
    ensures only_appends { take (length out.old.items) out.new.items ≡ out.old.items }
{
    match c {
        Cause::Fault(f) => {
            append_byte(out, 0)?;
            append_fault(out, f)
        }
        Cause::NoMemory => append_byte(out, 1),
        Cause::Closed => append_byte(out, 2),
    }
}
