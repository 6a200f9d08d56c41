ghost use Rattle.std.specs.Prelude.{◌≡◌, ◌++◌, OnOk, IfOk};
ghost use Rattle.brace_model.specs.Lawful.{is_distance, combines};
ghost use Rattle.brace_check.specs.declared.fault.CheckFault.{CheckFault};
ghost use Rattle.brace_check.specs.Findings.{fault_if, reads, crosses, reads_of_loop, assigns, gives, nests, loops_over, said_type, wanted, given_type, misfits, millionths, ranges, joins};

use crate::fault::CheckFault;
use crate::types::{is_number, is_shared, same_type};
use brace_model::{Comb, Ty};
use brace_names::{Field, LoopField, Named, Scope};
use brace_num::NoMemory;
use brace_syntax::{Digits, Number};

// A fault, where a test holds.
fn fault_if(out: &mut Vec<CheckFault>, test: bool, fault: CheckFault) -> Result<(), NoMemory>
    ensures { OnOk result (out.new.items ≡ out.old.items ++ fault_if test fault) }
{
    if test {
        out.push(fault)?;
    }
    Ok(())
}

/// A name that stands for this is read at an offset.
pub fn read(
    out: &mut Vec<CheckFault>,
    scope: &Scope,
    at: u32,
    named: Option<Named>,
) -> Result<(), NoMemory>
    ensures { OnOk result (out.new.items ≡ out.old.items ++ reads scope.now at named) }
{
    match named {
        Some(Named::Field(Field::Effect(_, _, _, _))) => {
            fault_if(out, scope.in_query(), CheckFault::ReadsEffectInQuery(at))
        }
        _ => Ok(()),
    }
}

/// A field of the class of a loop variable is named at an offset.
pub fn cross(
    out: &mut Vec<CheckFault>,
    scope: &Scope,
    at: u32,
    found: Option<LoopField>,
) -> Result<(), NoMemory>
    ensures { OnOk result (out.new.items ≡ out.old.items ++ crosses scope.now at found) }
{
    match found {
        None => Ok(()),
        Some(found) => {
            let may = is_shared(found.field) || found.class == scope.own();
            fault_if(out, !may, CheckFault::PrivateOfOtherClass(at))
        }
    }
}

/// `q.n` in an expression.
pub fn read_of_loop(
    out: &mut Vec<CheckFault>,
    scope: &Scope,
    at: u32,
    found: Option<LoopField>,
) -> Result<(), NoMemory>
    ensures { OnOk result (out.new.items ≡ out.old.items ++ reads_of_loop scope.now at found) }
{
    if scope.in_query() {
        read(out, scope, at, found.map(|found| Named::Field(found.field)))?;
        cross(out, scope, at, found)
    } else {
        fault_if(out, true, CheckFault::OtherAgentInUpdate(at))
    }
}

/// A value is said to a field that stands at an offset.
pub fn assign(out: &mut Vec<CheckFault>, at: u32, target: Option<Field>) -> Result<(), NoMemory>
    ensures { OnOk result (out.new.items ≡ out.old.items ++ assigns at target) }
{
    match target {
        None => fault_if(out, true, CheckFault::WrongType(at)),
        Some(Field::State(_, _, _)) => fault_if(out, true, CheckFault::AssignsState(at)),
        Some(Field::Effect(_, _, _, _)) => Ok(()),
    }
}

/// A child gets a value for a field at an offset.
pub fn give(out: &mut Vec<CheckFault>, at: u32, target: Option<Field>) -> Result<(), NoMemory>
    ensures { OnOk result (out.new.items ≡ out.old.items ++ gives at target) }
{
    match target {
        None => fault_if(out, true, CheckFault::WrongType(at)),
        Some(Field::State(_, _, _)) => Ok(()),
        Some(Field::Effect(_, _, _, _)) => fault_if(out, true, CheckFault::AssignsEffect(at)),
    }
}

/// A loop begins at an offset.
pub fn nest(out: &mut Vec<CheckFault>, scope: &Scope, at: u32) -> Result<(), NoMemory>
    ensures { OnOk result (out.new.items ≡ out.old.items ++ nests scope.now at) }
{
    fault_if(out, 2 <= scope.loops(), CheckFault::NestedTooDeep(at))
}

/// A loop is over the class of a number, which stands at an offset.
pub fn loop_over(out: &mut Vec<CheckFault>, at: u32, class: Option<u32>) -> Result<(), NoMemory>
    ensures { OnOk result (out.new.items ≡ out.old.items ++ loops_over at class) }
{
    match class {
        None => fault_if(out, true, CheckFault::WrongType(at)),
        Some(_) => Ok(()),
    }
}

// The type that a value said to an effect is to have, where one is asked for.
fn said_type(comb: Comb, ty: Ty) -> Option<Ty>
    ensures { result ≡ said_type comb ty }
{
    match comb {
        Comb::Count => None,
        Comb::Sum | Comb::Min | Comb::Max | Comb::Or => Some(ty),
    }
}

/// The type that a value said to a field is to have, where one is asked for.
pub fn wanted(target: Option<Field>) -> Option<Ty>
    ensures { result ≡ wanted target }
{
    match target {
        Some(Field::Effect(_, ty, _, comb)) => said_type(comb, ty),
        _ => None,
    }
}

/// The type that a value given to a field is to have, where one is asked for.
pub fn given_type(target: Option<Field>) -> Option<Ty>
    ensures { result ≡ given_type target }
{
    match target {
        Some(Field::State(_, ty, _)) => Some(ty),
        _ => None,
    }
}

/// A value at an offset is of the type that is asked for, where one is.
pub fn fit(
    out: &mut Vec<CheckFault>,
    want: Option<Ty>,
    at: u32,
    found: Result<Ty, u32>,
) -> Result<(), NoMemory>
    ensures { OnOk result (out.new.items ≡ out.old.items ++ misfits want at found) }
{
    match (found, want) {
        (Err(place), _) => fault_if(out, true, CheckFault::WrongType(place)),
        (Ok(_), None) => Ok(()),
        (Ok(ty), Some(want)) => fault_if(out, !same_type(want, ty), CheckFault::WrongType(at)),
    }
}

/// The millionths of a number, where they fit 64 bits.
pub fn millionths(digits: Digits) -> Result<i64, NoMemory>
    ensures { IfOk result (λ n. n ≡ millionths digits) }
{
    match digits {
        Digits::Int(n) => n.checked_mul(1_000_000).ok_or(NoMemory),
        Digits::Fixed(n) => Ok(n),
    }
}

// Whether a number is from 0 to 1,000,000 units.
fn is_distance(digits: Digits) -> bool
    ensures { result ≡ is_distance (millionths digits) }
{
    match digits {
        Digits::Int(n) => 0 <= n && n <= 1_000_000,
        Digits::Fixed(n) => 0 <= n && n <= 1_000_000_000_000,
    }
}

/// A range of a class.
pub fn range(out: &mut Vec<CheckFault>, number: &Number) -> Result<(), NoMemory>
    ensures { OnOk result (out.new.items ≡ out.old.items ++ ranges number.now) }
{
    fault_if(
        out,
        !is_distance(number.digits),
        CheckFault::BadRange(number.at),
    )
}

fn combines(comb: Comb, ty: Ty) -> bool
    ensures { result ≡ combines comb ty }
{
    match comb {
        Comb::Count => same_type(ty, Ty::Int),
        Comb::Or => same_type(ty, Ty::Bool),
        Comb::Sum | Comb::Min | Comb::Max => is_number(ty),
    }
}

/// An effect of a type whose name stands at an offset.
pub fn join(out: &mut Vec<CheckFault>, comb: Comb, ty: Ty, at: u32) -> Result<(), NoMemory>
    ensures { OnOk result (out.new.items ≡ out.old.items ++ joins comb ty at) }
{
    fault_if(out, !combines(comb, ty), CheckFault::WrongCombinator(at))
}
