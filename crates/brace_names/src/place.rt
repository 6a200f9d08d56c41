ghost use Rattle.std.specs.Prelude.{◌≡◌, ◌∷◌, ◌++◌, [], Bool, OnOk, Option};
ghost use Rattle.brace_names.specs.Findings.{fault, names_as, site, assignment, target_of, is_summed, site_if, reads, names_of_loop, reads_of_loop, names_field, assigns, assigns_of_loop, declares, typed, names_class, names_again, loops_over};
ghost use Rattle.brace_names.specs.declared.finding.Finding.TheVariants as finding;
ghost use Rattle.brace_names.specs.Scopes.{of_loop};

use crate::declared::Field;
use crate::fault::NameFault;
use crate::finding::Finding;
use crate::kinds::is_sum;
use crate::resolved::{Binding, Target};
use crate::scope::{LoopField, Named, Scope};
use brace_num::NoMemory;
use brace_syntax::{Ident, TyName};

/// A fault.
pub fn fault(out: &mut Vec<Finding>, wrong: NameFault) -> Result<(), NoMemory>
    ensures { OnOk result (out.new.items ≡ out.old.items ++ fault wrong) }
{
    out.push(Finding::Fault(wrong))?;
    Ok(())
}

/// What the name at an offset stands for.
pub fn name(out: &mut Vec<Finding>, at: u32, target: Target) -> Result<(), NoMemory>
    ensures { OnOk result (out.new.items ≡ out.old.items ++ names_as at target) }
{
    out.push(Finding::Names(Binding { at, target }))?;
    Ok(())
}

/// A site.
pub fn site(out: &mut Vec<Finding>, at: u32) -> Result<(), NoMemory>
    ensures { OnOk result (out.new.items ≡ out.old.items ++ site at) }
{
    out.push(Finding::Site(at))?;
    Ok(())
}

/// A site, where an operation or a total is one.
pub fn site_if(out: &mut Vec<Finding>, is_site: bool, at: u32) -> Result<(), NoMemory>
    ensures { OnOk result (out.new.items ≡ out.old.items ++ site_if is_site at) }
{
    if is_site {
        site(out, at)?;
    }
    Ok(())
}

fn target_of(field: Field) -> Target
    ensures { result ≡ target_of field }
{
    match field {
        Field::State(number, _, _) => Target::State(number),
        Field::Effect(number, _, _, _) => Target::Effect(number),
    }
}

// Whether the total of an effect that is added up is read at a site.
fn is_summed(scope: &Scope, field: Field) -> bool
    ensures { result ≡ is_summed scope.now field }
{
    match field {
        Field::State(_, _, _) => false,
        Field::Effect(_, _, _, comb) => !scope.in_query() && is_sum(comb),
    }
}

/// A name in an expression stands for this; what is read stands at the offset.
pub fn read(
    out: &mut Vec<Finding>,
    scope: &Scope,
    at: u32,
    word: &Ident,
    named: Option<Named>,
) -> Result<(), NoMemory>
    ensures { OnOk result (out.new.items ≡ out.old.items ++ reads scope.now at word.now named) }
{
    match named {
        None => fault(out, NameFault::UnknownName(at)),
        Some(Named::Constant(number, _)) => name(out, word.at, Target::Local(number)),
        Some(Named::Field(field)) => {
            name(out, word.at, target_of(field))?;
            site_if(out, is_summed(scope, field), at)
        }
    }
}

// `q.n` stands for this.
fn of_loop(
    out: &mut Vec<Finding>,
    variable: &Ident,
    word: &Ident,
    found: Option<LoopField>,
) -> Result<(), NoMemory>
    ensures { OnOk result (out.new.items ≡ out.old.items
        ++ names_of_loop variable.now word.now found) }
{
    match found {
        None => fault(out, NameFault::UnknownName(variable.at)),
        Some(found) => {
            name(out, variable.at, Target::Loop(found.loops))?;
            name(out, word.at, target_of(found.field))
        }
    }
}

/// `q.n` in an expression; outside a query it is not looked up.
pub fn read_of_loop(
    out: &mut Vec<Finding>,
    scope: &Scope,
    variable: &Ident,
    word: &Ident,
) -> Result<(), NoMemory>
    ensures { OnOk result (out.new.items ≡ out.old.items
        ++ reads_of_loop scope.now variable.now word.now) }
{
    if !scope.in_query() {
        return Ok(());
    }
    let found = scope.of_loop(variable.text.as_bytes(), word.text.as_bytes());
    of_loop(out, variable, word, found)
}

// The target of an assignment at the offset is this field of the class.
fn field(
    out: &mut Vec<Finding>,
    at: u32,
    word: &Ident,
    field: Option<Field>,
) -> Result<(), NoMemory>
    ensures { OnOk result (out.new.items ≡ out.old.items ++ names_field at word.now field) }
{
    match field {
        Some(field) => name(out, word.at, target_of(field)),
        None => fault(out, NameFault::UnknownName(at)),
    }
}

fn assignment(out: &mut Vec<Finding>, at: u32) -> Result<(), NoMemory>
    ensures { OnOk result (out.new.items ≡ out.old.items ++ assignment at) }
{
    out.push(Finding::Assignment(at))?;
    Ok(())
}

/// `n` or `this.n` as the target of an assignment at the offset.
pub fn assign(out: &mut Vec<Finding>, scope: &Scope, at: u32, word: &Ident) -> Result<(), NoMemory>
    ensures { OnOk result (out.new.items ≡ out.old.items ++ assigns scope.now at word.now) }
{
    field(out, at, word, scope.field(word.text.as_bytes()))?;
    assignment(out, at)
}

/// `q.n` as the target of an assignment.
pub fn assign_of_loop(
    out: &mut Vec<Finding>,
    scope: &Scope,
    variable: &Ident,
    word: &Ident,
) -> Result<(), NoMemory>
    ensures { OnOk result (out.new.items ≡ out.old.items
        ++ assigns_of_loop scope.now variable.now word.now) }
{
    let found = scope.of_loop(variable.text.as_bytes(), word.text.as_bytes());
    of_loop(out, variable, word, found)?;
    assignment(out, variable.at)
}

/// A constant or loop variable is declared.
pub fn declare(out: &mut Vec<Finding>, scope: &Scope, word: &Ident) -> Result<(), NoMemory>
    ensures { OnOk result (out.new.items ≡ out.old.items ++ declares scope.now word.now) }
{
    if scope.is_taken(word.text.as_bytes()) {
        fault(out, NameFault::DuplicateName(word.at))?;
    }
    Ok(())
}

/// A type.
pub fn type_name(out: &mut Vec<Finding>, ty: &TyName) -> Result<(), NoMemory>
    ensures { OnOk result (out.new.items ≡ out.old.items ++ typed ty.now) }
{
    match ty {
        TyName::Other(word) => fault(out, NameFault::UnknownType(word.at)),
        TyName::Int | TyName::Fixed | TyName::Bool => Ok(()),
    }
}

fn class(out: &mut Vec<Finding>, at: u32, number: Option<u32>) -> Result<(), NoMemory>
    ensures { OnOk result (out.new.items ≡ out.old.items ++ names_class at number) }
{
    match number {
        Some(number) => name(out, at, Target::Class(number)),
        None => fault(out, NameFault::UnknownClass(at)),
    }
}

// The second class of a loop, of a number, is the first.
fn again(
    out: &mut Vec<Finding>,
    first: &Ident,
    second: &Ident,
    number: Option<u32>,
) -> Result<(), NoMemory>
    ensures { OnOk result (out.new.items ≡ out.old.items
        ++ names_again first.now second.now number) }
{
    if first.text.as_bytes() == second.text.as_bytes() {
        class(out, second.at, number)
    } else {
        fault(out, NameFault::UnknownClass(second.at))
    }
}

/// The two classes of a loop.
pub fn loop_over(
    out: &mut Vec<Finding>,
    scope: &Scope,
    first: &Ident,
    second: &Ident,
) -> Result<(), NoMemory>
    ensures { OnOk result (out.new.items ≡ out.old.items
        ++ loops_over scope.now first.now second.now) }
{
    class(out, first.at, scope.class_number(first.text.as_bytes()))?;
    again(
        out,
        first,
        second,
        scope.class_number(second.text.as_bytes()),
    )
}
