ghost use Rattle.std.specs.Prelude.{◌≡◌, ◌++◌, map, flat_map, length, Some, OnOk, IfOk};
ghost use Rattle.brace_model.specs.declared.program.Ty.TheVariants as ty;
ghost use Rattle.brace_names.specs.Tables.{look};
ghost use Rattle.brace_names.specs.Scopes.{Home, home_of, outermost, is_query, class_number, of_loop, inside, past, declaring};
ghost use Rattle.brace_names.specs.Walk.{behind, block, constants_in, in_classes};
ghost use Rattle.brace_check.specs.Findings.{nests, loops_over};
ghost use Rattle.brace_check.specs.Found.{expression, valued, says, says_to_loop, part, rule, gift, member};

use crate::fault::CheckFault;
use crate::finding::{
    assign, cross, fit, give, given_type, join, loop_over, nest, range, read, read_of_loop, wanted,
};
use crate::types::{place, type_of};
use brace_model::Ty;
use brace_names::{
    Classes, Field, Home, LoopField, Scope, comb_named, field_table, next, type_named,
};
use brace_num::{Boxed, List, NoMemory};
use brace_syntax::{ClassTree, ExprTree, GiftTree, Ident, MemberTree, StmtTree};
use std::alloc::Global;

// Notes what is found in an expression, but for types.
fn expression(out: &mut Vec<CheckFault>, scope: &Scope, x: &ExprTree) -> Result<(), NoMemory>
    ensures { OnOk result (out.new.items ≡ out.old.items ++ expression x.now scope.now) }
{
    match x {
        ExprTree::Lit(_) | ExprTree::True(_) | ExprTree::False(_) | ExprTree::Rand(_) => Ok(()),
        ExprTree::Name(name) => read(out, scope, name.at, scope.read(name.text.as_bytes())),
        ExprTree::OfThis(name, at) => read(out, scope, *at, scope.read_own(name.text.as_bytes())),
        ExprTree::OfLoop(variable, name) => {
            let found = scope.of_loop(variable.text.as_bytes(), name.text.as_bytes());
            read_of_loop(out, scope, variable.at, found)
        }
        ExprTree::Unary(_, x, _) => expression(out, scope, x.get()),
        ExprTree::Binary(_, x, y, _) => {
            expression(out, scope, x.get())?;
            expression(out, scope, y.get())
        }
        ExprTree::Choice(c, x, y, _) => {
            expression(out, scope, c.get())?;
            expression(out, scope, x.get())?;
            expression(out, scope, y.get())
        }
    }
}

// Notes what is found in a value of which a type may be asked.
fn value(
    out: &mut Vec<CheckFault>,
    scope: &Scope,
    want: Option<Ty>,
    x: &ExprTree,
) -> Result<(), NoMemory>
    ensures { OnOk result (out.new.items ≡ out.old.items ++ valued want x.now scope.now) }
{
    expression(out, scope, x)?;
    fit(out, want, place(x), type_of(scope, x))
}

// A constant.
fn constant<'a>(
    out: &mut Vec<CheckFault>,
    scope: &mut Scope<'_, '_, 'a>,
    ty: Ty,
    name: &'a Ident,
    x: &ExprTree,
) -> Result<(), NoMemory>
    ensures found { OnOk result (out.new.items ≡ out.old.items
        ++ valued (Some ty) x.now scope.old) }
    ensures behind { OnOk result (scope.new ≡ past 1 (declaring name.now ty scope.old)) }
{
    value(out, scope, Some(ty), x)?;
    scope.declare(name, ty)
}

// The head of a loop at an offset, behind which its block begins.
fn head<'a>(
    out: &mut Vec<CheckFault>,
    scope: &mut Scope<'_, '_, 'a>,
    class: &Ident,
    variable: &'a Ident,
    at: u32,
) -> Result<(), NoMemory>
    ensures found { OnOk result (out.new.items ≡ out.old.items
        ++ nests scope.old at ++ loops_over class.now.at (class_number scope.old class.now.text)) }
    ensures inside { OnOk result (scope.new ≡ inside class.now variable.now scope.old) }
{
    nest(out, scope, at)?;
    loop_over(out, class.at, scope.class_number(class.text.as_bytes()))?;
    scope.enter(class, variable)
}

// A value is said to a field, in an assignment at an offset.
fn said(
    out: &mut Vec<CheckFault>,
    scope: &Scope,
    at: u32,
    target: Option<Field>,
    x: &ExprTree,
) -> Result<(), NoMemory>
    ensures { OnOk result (out.new.items ≡ out.old.items ++ says at target x.now scope.now) }
{
    assign(out, at, target)?;
    value(out, scope, wanted(target), x)
}

// An assignment to a field of `this`, at an offset.
fn assigned(
    out: &mut Vec<CheckFault>,
    scope: &Scope,
    at: u32,
    name: &Ident,
    x: &ExprTree,
) -> Result<(), NoMemory>
    ensures { OnOk result (out.new.items ≡ out.old.items
        ++ says at (look scope.now.home.own name.now.text) x.now scope.now) }
{
    said(out, scope, at, scope.field(name.text.as_bytes()), x)
}

// A value is said to a field of the agent of a loop, in an assignment at an offset.
fn said_to_loop(
    out: &mut Vec<CheckFault>,
    scope: &Scope,
    at: u32,
    target: Option<LoopField>,
    x: &ExprTree,
) -> Result<(), NoMemory>
    ensures { OnOk result (out.new.items ≡ out.old.items
        ++ says_to_loop at target x.now scope.now) }
{
    cross(out, scope, at, target)?;
    said(out, scope, at, target.map(|found| found.field), x)
}

// An assignment to a field of the agent of a loop.
fn given_to_loop(
    out: &mut Vec<CheckFault>,
    scope: &Scope,
    variable: &Ident,
    name: &Ident,
    x: &ExprTree,
) -> Result<(), NoMemory>
    ensures { OnOk result (out.new.items ≡ out.old.items
        ++ says_to_loop variable.now.at
        (of_loop scope.now variable.now.text name.now.text) x.now scope.now) }
{
    let found = scope.of_loop(variable.text.as_bytes(), name.text.as_bytes());
    said_to_loop(out, scope, variable.at, found, x)
}

#[cycle(statements)]
fn statement<'a>(
    out: &mut Vec<CheckFault>,
    scope: &mut Scope<'_, '_, 'a>,
    s: &'a StmtTree,
) -> Result<(), NoMemory>
    ensures found { OnOk result (out.new.items ≡ out.old.items ++ (part s.now).here scope.old) }
    ensures behind { OnOk result (scope.new ≡ behind (part s.now) scope.old) }
{
    match s {
        StmtTree::Const(ty, name, x, _) => constant(out, scope, type_named(ty), name, x.get()),
        StmtTree::If(condition, statements, other, _) => {
            value(out, scope, Some(Ty::Bool), condition.get())?;
            block(out, scope, statements)?;
            match other {
                Some(statements) => block(out, scope, statements),
                None => Ok(()),
            }
        }
        StmtTree::Foreach(class, variable, _, statements, at) => {
            each(out, scope, class, variable, statements, *at)
        }
        StmtTree::Assign(name, x) => assigned(out, scope, name.at, name, x.get()),
        StmtTree::AssignThis(name, x, at) => assigned(out, scope, *at, name, x.get()),
        StmtTree::AssignLoop(variable, name, x) => {
            given_to_loop(out, scope, variable, name, x.get())
        }
    }
}

// A loop at an offset.
#[cycle(statements)]
fn each<'a>(
    out: &mut Vec<CheckFault>,
    scope: &mut Scope<'_, '_, 'a>,
    class: &Ident,
    variable: &'a Ident,
    statements: &'a List<StmtTree>,
    at: u32,
) -> Result<(), NoMemory>
    ensures found { OnOk result (out.new.items ≡ out.old.items
        ++ (nests scope.old at ++ loops_over class.now.at (class_number scope.old class.now.text))
        ++ block (map part statements.now) (inside class.now variable.now scope.old)) }
    ensures behind { OnOk result (scope.new
        ≡ past (constants_in (map part statements.now)) scope.old) }
{
    let loops = scope.loops();
    let names = scope.len();
    head(out, scope, class, variable, at)?;
    block(out, scope, statements)?;
    scope.leave(loops, names);
    Ok(())
}

// Notes what is found in a block, and leaves its scope.
#[cycle(statements)]
fn block<'a>(
    out: &mut Vec<CheckFault>,
    scope: &mut Scope<'_, '_, 'a>,
    statements: &'a List<StmtTree>,
) -> Result<(), NoMemory>
    ensures found { OnOk result (out.new.items ≡ out.old.items
        ++ block (map part statements.now) scope.old) }
    ensures behind { OnOk result (scope.new
        ≡ past (constants_in (map part statements.now)) scope.old) }
{
    let loops = scope.loops();
    let len = scope.len();
    for s in statements.as_slice() {
        statement(out, scope, s)?;
    }
    scope.leave(loops, len);
    Ok(())
}

fn rule(
    out: &mut Vec<CheckFault>,
    scope: &Scope,
    ty: Ty,
    x: &Option<Boxed<ExprTree>>,
) -> Result<(), NoMemory>
    ensures { OnOk result (out.new.items ≡ out.old.items ++ rule ty x.now scope.now) }
{
    match x {
        Some(x) => value(out, scope, Some(ty), x.get()),
        None => Ok(()),
    }
}

fn gift(out: &mut Vec<CheckFault>, scope: &Scope, one: &GiftTree) -> Result<(), NoMemory>
    ensures { OnOk result (out.new.items ≡ out.old.items ++ gift scope.now one.now) }
{
    let target = scope.field(one.state.text.as_bytes());
    give(out, one.state.at, target)?;
    value(out, scope, given_type(target), one.value.get())
}

// Notes what is found in gifts.
fn gifts(out: &mut Vec<CheckFault>, scope: &Scope, given: &List<GiftTree>) -> Result<(), NoMemory>
    ensures { OnOk result (out.new.items ≡ out.old.items ++ flat_map (gift scope.now) given.now) }
{
    for one in given.as_slice() {
        gift(out, scope, one)?;
    }
    Ok(())
}

// Notes what is found in a member, in the scope outside its blocks.
fn member_in<'a>(
    out: &mut Vec<CheckFault>,
    scope: &mut Scope<'_, '_, 'a>,
    one: &'a MemberTree,
) -> Result<(), NoMemory>
    ensures { OnOk result ((home : Home) → scope.old ≡ outermost home (is_query one.now)
        → out.new.items ≡ out.old.items ++ member home one.now) }
{
    match one {
        MemberTree::Visible(number, _) | MemberTree::Reach(number, _) => range(out, number),
        MemberTree::Effect(_, ty, name, comb, _) => {
            join(out, comb_named(*comb), type_named(ty), name.at)
        }
        MemberTree::Run(statements, _) => block(out, scope, statements),
        MemberTree::State(_, ty, _, x, _) => rule(out, scope, type_named(ty), x),
        MemberTree::Die(condition, _) => value(out, scope, Some(Ty::Bool), condition.get()),
        MemberTree::Spawn(condition, given, _) => {
            value(out, scope, Some(Ty::Bool), condition.get())?;
            gifts(out, scope, given)
        }
    }
}

fn member<'a>(
    alloc: Global,
    out: &mut Vec<CheckFault>,
    home: &Home<'_, 'a>,
    one: &'a MemberTree,
) -> Result<(), NoMemory>
    ensures { OnOk result (out.new.items ≡ out.old.items ++ member home.now one.now) }
{
    let mut scope = Scope::of(alloc, home, one);
    member_in(out, &mut scope, one)
}

// Notes what is found in members.
fn each_member<'a>(
    alloc: Global,
    out: &mut Vec<CheckFault>,
    home: &Home<'_, 'a>,
    members: &'a [MemberTree],
) -> Result<(), NoMemory>
    ensures { OnOk result (out.new.items ≡ out.old.items
        ++ flat_map (member home.now) members.now) }
{
    for one in members {
        member(alloc, out, home, one)?;
    }
    Ok(())
}

// Notes what is found in the class of a number.
fn class<'a>(
    alloc: Global,
    out: &mut Vec<CheckFault>,
    known: &Classes<'a>,
    number: u32,
    one: &'a ClassTree,
) -> Result<(), NoMemory>
    ensures { OnOk result (out.new.items ≡ out.old.items
        ++ flat_map (member (home_of known.now number one.now)) one.now.members) }
{
    let own = field_table(alloc, one)?;
    let home = Home {
        known,
        number,
        own: &own,
    };
    each_member(alloc, out, &home, one.members.as_slice())
}

// Notes what is found in classes.
fn in_classes<'a>(
    alloc: Global,
    out: &mut Vec<CheckFault>,
    known: &Classes<'a>,
    classes: &'a [ClassTree],
) -> Result<(), NoMemory>
    ensures { OnOk result (out.new.items ≡ out.old.items
        ++ in_classes member known.now 0 classes.now) }
{
    let mut number = 0;
    for one in classes {
        class(alloc, out, known, number, one)?;
        number = next(number)?;
    }
    Ok(())
}

/// The faults of the check passes in classes, in finishing order.
pub fn found<'a>(
    alloc: Global,
    known: &Classes<'a>,
    classes: &'a [ClassTree],
) -> Result<Vec<CheckFault>, NoMemory>
    ensures { IfOk result (λ all. all.items ≡ in_classes member known.now 0 classes.now) }
{
    let mut out = Vec::new(alloc);
    in_classes(alloc, &mut out, known, classes)?;
    Ok(out)
}
