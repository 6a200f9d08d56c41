ghost use Rattle.std.specs.Prelude.{◌≡◌, ◌++◌, map, OnOk};
ghost use Rattle.brace_names.specs.Scopes.{past, declaring, inside};
ghost use Rattle.brace_names.specs.Walk.{behind, block, constants_in};
ghost use Rattle.brace_names.specs.Kinds.{type_named};
ghost use Rattle.brace_names.specs.Findings.{typed, declares, assigns, assigns_of_loop, loops_over};
ghost use Rattle.brace_names.specs.Found.{expression, part};

use crate::expr::expression;
use crate::finding::Finding;
use crate::kinds::type_named;
use crate::place::{assign, assign_of_loop, declare, loop_over, type_name};
use crate::scope::Scope;
use brace_num::{List, NoMemory};
use brace_syntax::{ExprTree, Ident, StmtTree, TyName};

// A constant.
fn constant<'a>(
    out: &mut Vec<Finding>,
    scope: &mut Scope<'_, '_, 'a>,
    ty: &TyName,
    name: &'a Ident,
    x: &ExprTree,
) -> Result<(), NoMemory>
    ensures found { OnOk result (out.new.items ≡ out.old.items
        ++ typed ty.now ++ declares scope.old name.now ++ expression x.now scope.old) }
    ensures behind { OnOk result (scope.new
        ≡ past 1 (declaring name.now (type_named ty.now) scope.old)) }
{
    type_name(out, ty)?;
    declare(out, scope, name)?;
    expression(out, scope, x)?;
    scope.declare(name, type_named(ty))
}

// An assignment to a field of `this`, which stands at an offset.
fn assigned(
    out: &mut Vec<Finding>,
    scope: &Scope,
    at: u32,
    name: &Ident,
    x: &ExprTree,
) -> Result<(), NoMemory>
    ensures { OnOk result (out.new.items ≡ out.old.items
        ++ assigns scope.now at name.now ++ expression x.now scope.now) }
{
    assign(out, scope, at, name)?;
    expression(out, scope, x)
}

// An assignment to a field of the agent of a loop.
fn assigned_of_loop(
    out: &mut Vec<Finding>,
    scope: &Scope,
    variable: &Ident,
    name: &Ident,
    x: &ExprTree,
) -> Result<(), NoMemory>
    ensures { OnOk result (out.new.items ≡ out.old.items
        ++ assigns_of_loop scope.now variable.now name.now ++ expression x.now scope.now) }
{
    assign_of_loop(out, scope, variable, name)?;
    expression(out, scope, x)
}

// The head of a loop, behind which its block begins.
fn head<'a>(
    out: &mut Vec<Finding>,
    scope: &mut Scope<'_, '_, 'a>,
    class: &Ident,
    variable: &'a Ident,
    other: &Ident,
) -> Result<(), NoMemory>
    ensures found { OnOk result (out.new.items ≡ out.old.items
        ++ loops_over scope.old class.now other.now ++ declares scope.old variable.now) }
    ensures inside { OnOk result (scope.new ≡ inside class.now variable.now scope.old) }
{
    loop_over(out, scope, class, other)?;
    declare(out, scope, variable)?;
    scope.enter(class, variable)
}

#[cycle(statements)]
fn statement<'a>(
    out: &mut Vec<Finding>,
    scope: &mut Scope<'_, '_, 'a>,
    s: &'a StmtTree,
) -> Result<(), NoMemory>
    ensures found { OnOk result (out.new.items ≡ out.old.items ++ (part s.now).here scope.old) }
    ensures behind { OnOk result (scope.new ≡ behind (part s.now) scope.old) }
{
    match s {
        StmtTree::Const(ty, name, x, _) => constant(out, scope, ty, name, x.get()),
        StmtTree::If(condition, statements, other, _) => {
            expression(out, scope, condition.get())?;
            block(out, scope, statements)?;
            match other {
                Some(statements) => block(out, scope, statements),
                None => Ok(()),
            }
        }
        StmtTree::Foreach(class, variable, other, statements, _) => {
            each(out, scope, class, variable, other, statements)
        }
        StmtTree::Assign(name, x) => assigned(out, scope, name.at, name, x.get()),
        StmtTree::AssignThis(name, x, at) => assigned(out, scope, *at, name, x.get()),
        StmtTree::AssignLoop(variable, name, x) => {
            assigned_of_loop(out, scope, variable, name, x.get())
        }
    }
}

// A loop.
#[cycle(statements)]
fn each<'a>(
    out: &mut Vec<Finding>,
    scope: &mut Scope<'_, '_, 'a>,
    class: &Ident,
    variable: &'a Ident,
    other: &Ident,
    statements: &'a List<StmtTree>,
) -> Result<(), NoMemory>
    ensures found { OnOk result (out.new.items ≡ out.old.items
        ++ (loops_over scope.old class.now other.now ++ declares scope.old variable.now)
        ++ block (map part statements.now) (inside class.now variable.now scope.old)) }
    ensures behind { OnOk result (scope.new
        ≡ past (constants_in (map part statements.now)) scope.old) }
{
    let loops = scope.loops();
    let names = scope.len();
    head(out, scope, class, variable, other)?;
    block(out, scope, statements)?;
    scope.leave(loops, names);
    Ok(())
}

/// Notes what is found in a block, and leaves its scope.
#[cycle(statements)]
pub fn block<'a>(
    out: &mut Vec<Finding>,
    scope: &mut Scope<'_, '_, 'a>,
    statements: &'a List<StmtTree>,
) -> Result<(), NoMemory>
    ensures found { OnOk result (out.new.items ≡ out.old.items
        ++ block (map part statements.now) scope.old) }
    ensures behind { OnOk result (scope.new
        ≡ past (constants_in (map part statements.now)) scope.old) }
{
    let loops = scope.loops();
    let len = scope.len();
    for s in statements.as_slice() {
        statement(out, scope, s)?;
    }
    scope.leave(loops, len);
    Ok(())
}
