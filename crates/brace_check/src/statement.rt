ghost use Rattle.std.specs.Prelude.{◌≡◌, map, unwrap_or, OnOk, IfOk};
ghost use Rattle.brace_model.specs.declared.program.Stmt.TheVariants as stmt;
ghost use Rattle.brace_names.specs.Tables.{look};
ghost use Rattle.brace_names.specs.Scopes.{of_loop, inside, past, declaring};
ghost use Rattle.brace_names.specs.Walk.{behind, constants_in};
ghost use Rattle.brace_check.specs.Meanings.{assigned, number_in, said, said_to_loop, expression, part, block};

use crate::meaning::{agent_of, expression, loop_number, number_of};
use brace_model::{Stmt, Ty, Who};
use brace_names::{Scope, type_named};
use brace_num::{List, NoMemory};
use brace_syntax::{ExprTree, Ident, StmtTree};
use std::alloc::Global;

// A value said to an effect of an agent, in a statement at an offset.
fn assigned(
    alloc: Global,
    sites: &mut Vec<u32>,
    scope: &Scope,
    who: Who,
    effect: u32,
    at: u32,
    x: &ExprTree,
) -> Result<Stmt, NoMemory>
    ensures noted { OnOk result (sites.new.items
        ≡ (expression x.now scope.now sites.old.items).1) }
    ensures meant { IfOk result (λ s. s
        ≡ (assigned who effect at (expression x.now scope.now) sites.old.items).0) }
{
    let x = expression(alloc, sites, scope, x)?;
    Ok(Stmt::Assign(who, effect, x.into_inner(), at))
}

// A value said to a field of `this`, in an assignment at an offset.
fn said(
    alloc: Global,
    sites: &mut Vec<u32>,
    scope: &Scope,
    at: u32,
    name: &Ident,
    x: &ExprTree,
) -> Result<Stmt, NoMemory>
    ensures noted { OnOk result (sites.new.items
        ≡ (said at name.now x.now scope.now sites.old.items).1) }
    ensures meant { IfOk result (λ s. s
        ≡ (said at name.now x.now scope.now sites.old.items).0) }
{
    let effect = number_of(scope.field(name.text.as_bytes()));
    assigned(alloc, sites, scope, Who::This, effect, at, x)
}

// A value said to a field of the agent of a loop.
fn said_to_loop(
    alloc: Global,
    sites: &mut Vec<u32>,
    scope: &Scope,
    variable: &Ident,
    name: &Ident,
    x: &ExprTree,
) -> Result<Stmt, NoMemory>
    ensures noted { OnOk result (sites.new.items ≡ (said_to_loop variable.now.at
        (of_loop scope.now variable.now.text name.now.text) x.now scope.now sites.old.items).1) }
    ensures meant { IfOk result (λ s. s ≡ (said_to_loop variable.now.at
        (of_loop scope.now variable.now.text name.now.text) x.now scope.now sites.old.items).0) }
{
    let found = scope.of_loop(variable.text.as_bytes(), name.text.as_bytes());
    let who = agent_of(found);
    let effect = loop_number(found);
    assigned(alloc, sites, scope, who, effect, variable.at, x)
}

// The number of the class of a name.
fn number_in(scope: &Scope, class: &Ident) -> u32
    ensures { result ≡ number_in scope.now class.now }
{
    scope.class_number(class.text.as_bytes()).unwrap_or(0)
}

// A constant.
fn constant<'a>(
    alloc: Global,
    sites: &mut Vec<u32>,
    scope: &mut Scope<'_, '_, 'a>,
    ty: Ty,
    name: &'a Ident,
    x: &ExprTree,
) -> Result<Stmt, NoMemory>
    ensures noted { OnOk result (sites.new.items
        ≡ (expression x.now scope.old sites.old.items).1) }
    ensures meant { IfOk result (λ s. s ≡ stmt.Const scope.old.constants
        (expression x.now scope.old sites.old.items).0) }
    ensures behind { OnOk result (scope.new ≡ past 1 (declaring name.now ty scope.old)) }
{
    let number = scope.constants();
    let x = expression(alloc, sites, scope, x)?;
    scope.declare(name, ty)?;
    Ok(Stmt::Const(number, x.into_inner()))
}

#[cycle(statements)]
fn statement<'a>(
    alloc: Global,
    sites: &mut Vec<u32>,
    scope: &mut Scope<'_, '_, 'a>,
    s: &'a StmtTree,
) -> Result<Stmt, NoMemory>
    ensures noted { OnOk result (sites.new.items
        ≡ ((part s.now).here scope.old sites.old.items).1) }
    ensures meant { IfOk result (λ stmt. stmt
        ≡ ((part s.now).here scope.old sites.old.items).0) }
    ensures behind { OnOk result (scope.new ≡ behind (part s.now) scope.old) }
{
    match s {
        StmtTree::Const(ty, name, x, _) => {
            constant(alloc, sites, scope, type_named(ty), name, x.get())
        }
        StmtTree::If(condition, statements, other, _) => {
            let condition = expression(alloc, sites, scope, condition.get())?;
            let statements = block(alloc, sites, scope, statements)?;
            let other = match other {
                Some(other) => block(alloc, sites, scope, other)?,
                None => List::new(alloc),
            };
            Ok(Stmt::If(condition.into_inner(), statements, other))
        }
        StmtTree::Foreach(class, variable, _, statements, at) => {
            each(alloc, sites, scope, class, variable, statements, *at)
        }
        StmtTree::Assign(name, x) => said(alloc, sites, scope, name.at, name, x.get()),
        StmtTree::AssignThis(name, x, at) => said(alloc, sites, scope, *at, name, x.get()),
        StmtTree::AssignLoop(variable, name, x) => {
            said_to_loop(alloc, sites, scope, variable, name, x.get())
        }
    }
}

// A loop at an offset.
#[cycle(statements)]
fn each<'a>(
    alloc: Global,
    sites: &mut Vec<u32>,
    scope: &mut Scope<'_, '_, 'a>,
    class: &Ident,
    variable: &'a Ident,
    statements: &'a List<StmtTree>,
    at: u32,
) -> Result<Stmt, NoMemory>
    ensures noted { OnOk result (sites.new.items
        ≡ (block (map part statements.now) (inside class.now variable.now scope.old)
        sites.old.items).1) }
    ensures meant { IfOk result (λ s. s ≡ stmt.Foreach (number_in scope.old class.now)
        (block (map part statements.now) (inside class.now variable.now scope.old)
        sites.old.items).0 at) }
    ensures behind { OnOk result (scope.new
        ≡ past (constants_in (map part statements.now)) scope.old) }
{
    let number = number_in(scope, class);
    let loops = scope.loops();
    let names = scope.len();
    scope.enter(class, variable)?;
    let statements = block(alloc, sites, scope, statements)?;
    scope.leave(loops, names);
    Ok(Stmt::Foreach(number, statements, at))
}

/// What a block means. Its sites are noted in finishing order, and its scope is left.
#[cycle(statements)]
pub fn block<'a>(
    alloc: Global,
    sites: &mut Vec<u32>,
    scope: &mut Scope<'_, '_, 'a>,
    statements: &'a List<StmtTree>,
) -> Result<List<Stmt>, NoMemory>
    ensures noted { OnOk result (sites.new.items
        ≡ (block (map part statements.now) scope.old sites.old.items).1) }
    ensures meant { IfOk result (λ b. b
        ≡ (block (map part statements.now) scope.old sites.old.items).0) }
    ensures behind { OnOk result (scope.new
        ≡ past (constants_in (map part statements.now)) scope.old) }
{
    let loops = scope.loops();
    let len = scope.len();
    let mut meant = List::new(alloc);
    for s in statements.as_slice() {
        meant.push(statement(alloc, sites, scope, s)?)?;
    }
    scope.leave(loops, len);
    Ok(meant)
}
