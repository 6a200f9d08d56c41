ghost use Rattle.std.specs.Prelude.{◌≡◌, ◌++◌, [], ◌∷◌, IfOk, OnOk, Some, is_some, map, sum, List, ℕ, IsTrue};
ghost use Rattle.brace_model.specs.declared.program.Ty.{Ty};
ghost use Rattle.brace_model.specs.declared.program.Stmt.TheVariants as stmt;
ghost use Rattle.brace_model.specs.Typing.{Names, type_of, within_loop, in_turn, scope_after};
ghost use Rattle.brace_code.specs.Codes.{Computes, names_of};
ghost use Rattle.brace_plan.specs.Narrowing.{loops_of};
ghost use Rattle.brace_plan.specs.inner.Doing.{names_with, variable_in, DoesOne, DoesAll};
ghost use Rattle.brace_plan.specs.Planning.{told, told_by};

use crate::action::Action;
use crate::constants::Constants;
use crate::narrowing::bounds_over;
use brace_code::{Code, Known, compile};
use brace_model::{Expr, Stmt, Who};
use brace_num::{List, NoMemory};
use std::alloc::Global;

/// The code of an expression where these constants are in scope.
fn compile_with(
    alloc: Global,
    known: &Known,
    constants: &Constants,
    e: &Expr,
) -> Result<Code, NoMemory>
    ensures { IfOk result (λ code. (t : Ty)
        → type_of e.now (names_with known.now constants.now) ≡ Some t
        → Computes (names_with known.now constants.now) e.now t code) }
{
    let known = Known {
        classes: known.classes,
        own: known.own,
        outer: known.outer,
        inner: known.inner,
        in_rule: known.in_rule,
        constants: constants.as_slice(),
    };
    compile(alloc, &known, e)
}

/// The variable of a loop.
fn variable_in(known: &Known) -> Who
    ensures { result ≡ variable_in known.now }
{
    match known.outer {
        None => Who::Outer,
        Some(_) => Who::Inner,
    }
}

/// What is known in a loop over a class.
fn within<'a>(known: &Known<'a>, class: u32) -> Known<'a>
    ensures { (constants : List (ℕ × Ty)) (inside : Names)
        → within_loop (names_with known.now constants) class ≡ Some inside
        → inside ≡ names_with result constants }
{
    let mut inside = *known;
    match known.outer {
        None => inside.outer = Some(class),
        Some(_) => inside.inner = Some(class),
    }
    inside
}

/// The action of a loop.
#[cycle(planning)]
fn plan_loop(
    alloc: Global,
    known: &Known,
    class: u32,
    body: &List<Stmt>,
    at: u32,
    constants: &mut Constants,
) -> Result<Action, NoMemory>
    requires { IsTrue (is_some
        (scope_after (stmt.Foreach class body.now at) (names_with known.now constants.old))) }
    ensures scope { OnOk result (constants.new ≡ constants.old) }
    ensures action { IfOk result (λ action. DoesOne (names_with known.now constants.old)
        (names_with known.now constants.old) (stmt.Foreach class body.now at) action) }
    ensures told { IfOk result (λ action. told action ≡ loops_of known.now.classes.now
        (variable_in known.now) (stmt.Foreach class body.now at ∷ [])) }
{
    let bounds = bounds_over(alloc, variable_in(known), known.classes, class, body)?;
    let body = plan_block(alloc, &within(known, class), body, constants)?;
    Ok(Action::Foreach(class, bounds, body, at))
}

/// The action of a statement. Constants that it declares come into scope.
#[cycle(planning)]
fn plan_statement(
    alloc: Global,
    known: &Known,
    s: &Stmt,
    constants: &mut Constants,
) -> Result<Action, NoMemory>
    requires { IsTrue (is_some (scope_after s.now (names_with known.now constants.old))) }
    ensures scope { OnOk result (scope_after s.now (names_with known.now constants.old)
        ≡ Some (names_with known.now constants.new)) }
    ensures action { IfOk result (λ action. DoesOne (names_with known.now constants.old)
        (names_with known.now constants.new) s.now action) }
    ensures told { IfOk result (λ action. told action
        ≡ loops_of known.now.classes.now (variable_in known.now) (s.now ∷ [])) }
{
    match s {
        Stmt::Const(number, e) => {
            let code = compile_with(alloc, known, constants, e)?;
            constants.declare(*number, code.ty())?;
            Ok(Action::Const(*number, code))
        }
        Stmt::If(condition, a, b) => {
            let condition = compile_with(alloc, known, constants, condition)?;
            let a = plan_block(alloc, known, a, constants)?;
            let b = plan_block(alloc, known, b, constants)?;
            Ok(Action::If(condition, a, b))
        }
        Stmt::Foreach(class, body, at) => { plan_loop(alloc, known, *class, body, *at, constants) }
        Stmt::Assign(who, effect, e, _) => {
            let code = compile_with(alloc, known, constants, e)?;
            Ok(Action::Assign(*who, *effect, code))
        }
    }
}

/// The actions of a block, whose constants end with it.
#[cycle(planning)]
pub fn plan_block(
    alloc: Global,
    known: &Known,
    block: &List<Stmt>,
    constants: &mut Constants,
) -> Result<List<Action>, NoMemory>
    requires { IsTrue (is_some
        (in_turn (map scope_after block.now) (names_with known.now constants.old))) }
    ensures scope { OnOk result (constants.new ≡ constants.old) }
    ensures actions { IfOk result (λ actions.
        DoesAll (names_with known.now constants.old) block.now actions) }
    ensures told { IfOk result (λ actions. told_by actions
        ≡ loops_of known.now.classes.now (variable_in known.now) block.now) }
{
    let outside = constants.count();
    let mut actions = List::new(alloc);
    for s in block.as_slice() {
        let action = plan_statement(alloc, known, s, constants)?;
        actions.push(action)?;
    }
    constants.keep(outside);
    Ok(actions)
}
