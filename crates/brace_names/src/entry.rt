ghost use Rattle.std.specs.Prelude.{◌≡◌, ℕ, List, [], ◌++◌, map, flat_map, slice_get, if◌then◌else◌, IfOk, IfErr, OnOk, IfNone, IfSome};
ghost use Rattle.brace_tok.specs.declared.kinds.Token.{Token};
ghost use Rattle.brace_tok.specs.Spells.{Spells};
ghost use Rattle.brace_syntax.specs.Reads.{Reads};
ghost use Rattle.brace_names.specs.Faults.{fault_of, binding_of, site_of, assignment_of, too_many, faults_among, faults, bindings, pass, place, is_before, earlier, first, Refuses, AreRising};
ghost use Rattle.brace_names.specs.declared.fault.NameFault.TheVariants as fault;

use crate::class::found;
use crate::fault::{NameFault, Which};
use crate::finding::Finding;
use crate::resolved::{Binding, Resolved};
use brace_num::NoMemory;
use brace_syntax::Tree;
use std::alloc::Global;

fn names(alloc: Global, all: &[Finding]) -> Result<Vec<Binding>, NoMemory>
    ensures { IfOk result (λ bindings. bindings.items ≡ flat_map binding_of all.now) }
{
    let mut bindings = Vec::new(alloc);
    for one in all {
        if let Finding::Names(binding) = one {
            bindings.push(*binding)?;
        }
    }
    Ok(bindings)
}

// The offset of the site of this number.
fn site(all: &[Finding], number: usize) -> Option<u32>
    ensures { result ≡ slice_get (flat_map site_of all.now) number }
{
    let mut left = number;
    for one in all {
        if let Finding::Site(at) = one {
            if left == 0 {
                return Some(*at);
            }
            left -= 1;
        }
    }
    None
}

// The offset of the assignment of this number.
fn assignment(all: &[Finding], number: usize) -> Option<u32>
    ensures { result ≡ slice_get (flat_map assignment_of all.now) number }
{
    let mut left = number;
    for one in all {
        if let Finding::Assignment(at) = one {
            if left == 0 {
                return Some(*at);
            }
            left -= 1;
        }
    }
    None
}

fn push_past(faults: &mut Vec<NameFault>, which: Which, at: Option<u32>) -> Result<(), NoMemory>
    ensures { OnOk result (faults.new.items ≡ faults.old.items ++ too_many which at) }
{
    if let Some(at) = at {
        faults.push(NameFault::TooMany(which, at))?;
    }
    Ok(())
}

fn faults(alloc: Global, all: &[Finding]) -> Result<Vec<NameFault>, NoMemory>
    ensures { IfOk result (λ faults. faults.items ≡ faults_among all.now) }
{
    let mut faults = Vec::new(alloc);
    for one in all {
        if let Finding::Fault(fault) = one {
            faults.push(*fault)?;
        }
    }
    push_past(&mut faults, Which::Sites, site(all, 4096))?;
    push_past(&mut faults, Which::Assignments, assignment(all, 4096))?;
    Ok(faults)
}

fn pass(fault: NameFault) -> u8
    ensures { result ≡ pass fault }
{
    match fault {
        NameFault::DuplicateClass(_) => 1,
        NameFault::DuplicateName(_) => 2,
        NameFault::UnknownClass(_) => 3,
        NameFault::UnknownName(_) => 4,
        NameFault::UnknownType(_) => 5,
        NameFault::NoPosition(_) => 6,
        NameFault::TooMany(_, _) => 7,
        NameFault::NoMemory => 8,
    }
}

fn place(fault: NameFault) -> u32
    ensures { result ≡ place fault }
{
    match fault {
        NameFault::DuplicateClass(at)
        | NameFault::DuplicateName(at)
        | NameFault::UnknownClass(at)
        | NameFault::UnknownName(at)
        | NameFault::UnknownType(at)
        | NameFault::NoPosition(at)
        | NameFault::TooMany(_, at) => at,
        NameFault::NoMemory => 0,
    }
}

// Whether the first fault is of an earlier pass, or of the same at a lesser offset.
fn is_before(f: NameFault, g: NameFault) -> bool
    ensures { result ≡ is_before f g }
{
    pass(f) < pass(g) || pass(f) == pass(g) && place(f) < place(g)
}

// The one of two faults that is answered, of which the first was found first.
fn earlier(f: NameFault, g: NameFault) -> NameFault
    ensures { result ≡ earlier f g }
{
    if is_before(g, f) { g } else { f }
}

// The fault that is answered.
fn first(faults: &[NameFault]) -> Option<NameFault>
    ensures { result ≡ first faults.now }
{
    let (start, later) = faults.split_first()?;
    let mut best = *start;
    for fault in later {
        best = earlier(best, *fault);
    }
    Some(best)
}

/// The script with what its names stand for, or the first fault of its names: that of the earliest
/// of the seven passes that has one, and the one at the least offset in it. `NoMemory` comes only
/// where the allocator refused, or where more than 4,294,967,295 things of one kind are numbered,
/// which no script of 1,048,576 bytes has.
pub fn resolve(alloc: Global, tree: Tree) -> Result<Resolved, NameFault>
    ensures tree { IfOk result (λ r. r.tree ≡ tree) }
    ensures bindings { IfOk result (λ r. r.bindings ≡ bindings tree) }
    ensures rising { (src : List ℕ) (toks : List Token) → Spells src toks
        → Reads src toks tree → IfOk result (λ r. AreRising 0 (map (λ b. b.at) r.bindings)) }
    ensures faultless { OnOk result (faults tree ≡ []) }
    ensures first { IfErr result (Refuses tree) }
    ensures accepted { faults tree ≡ [] → IfErr result (λ f. f ≡ fault.NoMemory) }
{
    let all = found(alloc, &tree)?;
    if let Some(fault) = first(faults(alloc, all.as_slice())?.as_slice()) {
        return Err(fault);
    }
    let bindings = brace_num::List::from_vec(names(alloc, all.as_slice())?);
    Ok(Resolved { tree, bindings })
}
