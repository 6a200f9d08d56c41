ghost use Rattle.std.specs.Prelude.{◌≡◌, ℕ, List, [], IfOk, OnOk, IfErr};
ghost use Rattle.brace_model.specs.Lawful.{LawfulProgram};
ghost use Rattle.brace_check.specs.Resolved.{IsResolved};
ghost use Rattle.brace_check.specs.Faults.{pass, rank, is_before, earlier, first, faults, Refuses};
ghost use Rattle.brace_check.specs.Programs.{program_of};

use crate::fault::CheckFault;
use crate::found::found;
use crate::program::program;
use brace_model::Program;
use brace_names::{Classes, Resolved};
use std::alloc::Global;

fn pass(fault: CheckFault) -> u8
    ensures { result ≡ pass fault }
{
    match fault {
        CheckFault::OtherAgentInUpdate(_) => 1,
        CheckFault::ReadsEffectInQuery(_) => 2,
        CheckFault::AssignsState(_) => 3,
        CheckFault::AssignsEffect(_) => 4,
        CheckFault::PrivateOfOtherClass(_) => 5,
        CheckFault::NestedTooDeep(_) => 6,
        CheckFault::BadRange(_) => 7,
        CheckFault::WrongCombinator(_) => 8,
        CheckFault::WrongType(_) => 9,
        CheckFault::NoMemory => 10,
    }
}

fn rank(fault: CheckFault) -> u32
    ensures { result ≡ rank fault }
{
    match fault {
        CheckFault::OtherAgentInUpdate(at)
        | CheckFault::ReadsEffectInQuery(at)
        | CheckFault::AssignsState(at)
        | CheckFault::AssignsEffect(at)
        | CheckFault::PrivateOfOtherClass(at)
        | CheckFault::NestedTooDeep(at)
        | CheckFault::BadRange(at)
        | CheckFault::WrongCombinator(at) => at,
        CheckFault::WrongType(_) | CheckFault::NoMemory => 0,
    }
}

// Whether the first fault is of an earlier pass, or of the same and before the other in it.
fn is_before(f: CheckFault, g: CheckFault) -> bool
    ensures { result ≡ is_before f g }
{
    pass(f) < pass(g) || pass(f) == pass(g) && rank(f) < rank(g)
}

// The one of two faults that is answered, of which the first was found first.
fn earlier(f: CheckFault, g: CheckFault) -> CheckFault
    ensures { result ≡ earlier f g }
{
    if is_before(g, f) { g } else { f }
}

// The fault that is answered.
fn first(faults: &[CheckFault]) -> Option<CheckFault>
    ensures { result ≡ first faults.now }
{
    let (head, rest) = faults.split_first()?;
    let mut best = *head;
    for fault in rest {
        best = earlier(best, *fault);
    }
    Some(best)
}

// The program that a script stands for, or the first fault of its checks.
fn checked(alloc: Global, r: &Resolved) -> Result<Program, CheckFault>
    ensures program { IfOk result (λ p. p ≡ program_of r.now) }
    ensures faultless { OnOk result (faults r.now ≡ []) }
    ensures first { IfErr result (Refuses r.now) }
{
    let classes = r.tree.classes.as_slice();
    let known = Classes::of(alloc, classes)?;
    let faults = found(alloc, &known, classes)?;
    if let Some(fault) = first(faults.as_slice()) {
        return Err(fault);
    }
    Ok(program(alloc, &known, classes)?)
}

/// The program that a script stands for, or the first fault of its checks: that of the earliest of
/// the nine passes that has one, and in it the one at the least offset; of wrong types the first in
/// finishing order. `NoMemory` comes only where the allocator refused, or where more than
/// 4,294,967,295 things of one kind are numbered, which no script of 1,048,576 bytes has. A refused
/// call gives nothing back. Of a script that is read from a source and resolved the program is
/// lawful.
pub fn check(alloc: Global, r: Resolved) -> Result<Program, CheckFault>
    ensures program { IfOk result (λ p. p ≡ program_of r) }
    ensures faultless { OnOk result (faults r ≡ []) }
    ensures first { IfErr result (Refuses r) }
    ensures lawful { (src : List ℕ) → IsResolved src r → IfOk result LawfulProgram }
{
    checked(alloc, &r)
}
