ghost use Rattle.std.specs.Prelude.{◌≡◌, ◌++◌, ◌≤◌, ◌^◌, map, sum, replicate, false, ◌&&◌, ◌==◌, IfOk};
ghost use Rattle.std.specs.Result.{result_ok};
ghost use Rattle.brace_model.specs.World.{no_value, sees};
ghost use Rattle.brace_model.specs.Value.{value};
ghost use Rattle.brace_model.specs.Query.{constants};
ghost use Rattle.brace_eval.specs.declared.scene.Scene.{Scene};
ghost use Rattle.brace_eval.specs.inner.Tables.{IsScene};
ghost use Rattle.brace_eval.specs.inner.Walks.{scope_at, undone, deed_at, block_at, NotesWorth, NotesStatement, NotesBlock, NotesLoop, NotesQuery, NotesQueryIn, NotesQueries};

use crate::ledger::Ledger;
use crate::scene::Scene;
use crate::seat::{Bound, Seat, bind, is_true, unbind};
use brace_model::{Agent, Class, Expr, Program, Stmt, Value, class_of, sees};
use brace_num::{List, NoMemory};
use std::alloc::Global;

/// The value of an expression, or None where it stops; the fault is noted.
fn worth(seat: &Seat, e: &Expr, locals: &[Value], ledger: &mut Ledger) -> Option<Value>
    requires { seat.now.tick ≤ 2 ^ 32 }
    ensures value { result
        ≡ result_ok (value e.now (scope_at seat.now ledger.old.drawer.seed locals.now)) }
    ensures noted { (scene : Scene)
        → NotesWorth scene seat.now locals.now e.now ledger.old ledger.new }
    ensures seed { ledger.new.drawer.seed ≡ ledger.old.drawer.seed }
{
    match seat.value(e, locals, &mut ledger.drawer) {
        Ok(v) => Some(v),
        Err(stop) => {
            ledger.fault(seat.fault(stop));
            None
        }
    }
}

/// Whether a loop over a class takes an agent.
fn is_taken(program: &Program, class: u32, this: &Agent, other: &Agent) -> bool
    ensures { result ≡ (other.now.class == class) && sees program.now this.now other.now }
{
    other.class == class && sees(program, this, other)
}

/// Evaluates a statement, and answers whether it was cut short by a fault.
#[cycle(walk)]
fn statement<'a>(
    alloc: Global,
    scene: &Scene<'a>,
    seat: &Seat<'a>,
    s: &Stmt,
    locals: &mut [Value],
    trail: &mut Vec<Bound>,
    ledger: &mut Ledger,
) -> Result<bool, NoMemory>
    requires scene { IsScene scene.now }
    requires ticks { seat.now.tick ≤ 2 ^ 32 }
    ensures noted { IfOk result (λ _. NotesStatement scene.now seat.now locals.old s.now
        ledger.old ledger.new) }
    ensures stopped { IfOk result (λ stopped. stopped
        ≡ (deed_at scene.now seat.now ledger.old locals.old s.now).stopped) }
    ensures scope { IfOk result (λ stopped. stopped ≡ false
        → (deed_at scene.now seat.now ledger.old locals.old s.now).scope
        ≡ scope_at seat.now ledger.old.drawer.seed locals.new) }
    ensures undone { IfOk result (λ _.
        undone trail.new.items locals.new ≡ undone trail.old.items locals.old) }
    ensures seed { ledger.new.drawer.seed ≡ ledger.old.drawer.seed }
{
    match s {
        Stmt::Const(n, e) => match worth(seat, e, locals, ledger) {
            Some(v) => {
                bind(locals, trail, *n, v)?;
                Ok(false)
            }
            None => Ok(true),
        },
        Stmt::If(condition, a, b) => match worth(seat, condition, locals, ledger) {
            Some(v) => {
                if is_true(v) {
                    block(alloc, scene, seat, a, locals, ledger)
                } else {
                    block(alloc, scene, seat, b, locals, ledger)
                }
            }
            None => Ok(true),
        },
        Stmt::Foreach(class, body, _) => {
            iterations(alloc, scene, seat, *class, body, locals, ledger)?;
            Ok(false)
        }
        Stmt::Assign(who, effect, e, _) => match worth(seat, e, locals, ledger) {
            Some(v) => {
                ledger.say(scene, seat.id_of(*who), *effect, v)?;
                Ok(false)
            }
            None => Ok(true),
        },
    }
}

/// Evaluates statements in turn up to the first that is cut short, and answers whether one was.
#[cycle(walk)]
fn statements<'a>(
    alloc: Global,
    scene: &Scene<'a>,
    seat: &Seat<'a>,
    body: &List<Stmt>,
    locals: &mut [Value],
    trail: &mut Vec<Bound>,
    ledger: &mut Ledger,
) -> Result<bool, NoMemory>
    requires scene { IsScene scene.now }
    requires ticks { seat.now.tick ≤ 2 ^ 32 }
    ensures undone { IfOk result (λ _.
        undone trail.new.items locals.new ≡ undone trail.old.items locals.old) }
    ensures noted { IfOk result (λ _. NotesBlock scene.now seat.now locals.old body.now
        ledger.old ledger.new) }
    ensures stopped { IfOk result (λ stopped. stopped
        ≡ (block_at scene.now seat.now ledger.old locals.old body.now).stopped) }
    ensures seed { ledger.new.drawer.seed ≡ ledger.old.drawer.seed }
{
    for s in body.as_slice() {
        if statement(alloc, scene, seat, s, locals, trail, ledger)? {
            return Ok(true);
        }
    }
    Ok(false)
}

/// Evaluates a block, sets its constants back, and answers whether it was cut short.
#[cycle(walk)]
fn block<'a>(
    alloc: Global,
    scene: &Scene<'a>,
    seat: &Seat<'a>,
    body: &List<Stmt>,
    locals: &mut [Value],
    ledger: &mut Ledger,
) -> Result<bool, NoMemory>
    requires scene { IsScene scene.now }
    requires ticks { seat.now.tick ≤ 2 ^ 32 }
    ensures noted { IfOk result (λ _. NotesBlock scene.now seat.now locals.old body.now
        ledger.old ledger.new) }
    ensures stopped { IfOk result (λ stopped. stopped
        ≡ (block_at scene.now seat.now ledger.old locals.old body.now).stopped) }
    ensures locals { IfOk result (λ _. locals.new ≡ locals.old) }
    ensures seed { ledger.new.drawer.seed ≡ ledger.old.drawer.seed }
{
    let mut trail = Vec::new(alloc);
    let stopped = statements(alloc, scene, seat, body, locals, &mut trail, ledger)?;
    unbind(locals, trail);
    Ok(stopped)
}

/// Evaluates a loop's block at each agent of a class that `this` sees. A fault ends its iteration
/// alone.
#[cycle(walk)]
fn iterations<'a>(
    alloc: Global,
    scene: &Scene<'a>,
    seat: &Seat<'a>,
    class: u32,
    body: &List<Stmt>,
    locals: &mut [Value],
    ledger: &mut Ledger,
) -> Result<(), NoMemory>
    requires scene { IsScene scene.now }
    requires ticks { seat.now.tick ≤ 2 ^ 32 }
    ensures noted { IfOk result (λ _. NotesLoop scene.now seat.now locals.old class body.now
        ledger.old ledger.new) }
    ensures locals { IfOk result (λ _. locals.new ≡ locals.old) }
    ensures seed { ledger.new.drawer.seed ≡ ledger.old.drawer.seed }
{
    for other in scene.agents {
        if is_taken(scene.program, class, seat.this, other) {
            block(alloc, scene, &seat.inside(other), body, locals, ledger)?;
        }
    }
    Ok(())
}

/// A place for each constant of a statement.
#[cycle(places)]
fn open_statement(s: &Stmt, locals: &mut Vec<Value>) -> Result<(), NoMemory>
    ensures { IfOk result (λ _. locals.new.items
        ≡ locals.old.items ++ replicate (constants s.now) no_value) }
{
    match s {
        Stmt::Const(_, _) => Ok(locals.push(Value::Flag(false))?),
        Stmt::If(_, a, b) => {
            open_block(a, locals)?;
            open_block(b, locals)
        }
        Stmt::Foreach(_, body, _) => open_block(body, locals),
        Stmt::Assign(_, _, _, _) => Ok(()),
    }
}

/// A place for each constant of a block.
#[cycle(places)]
fn open_block(body: &List<Stmt>, locals: &mut Vec<Value>) -> Result<(), NoMemory>
    ensures { IfOk result (λ _. locals.new.items
        ≡ locals.old.items ++ replicate (sum (map constants body.now)) no_value) }
{
    for s in body.as_slice() {
        open_statement(s, locals)?;
    }
    Ok(())
}

/// Evaluates the query of an agent of a class.
fn query_of_class<'a>(
    alloc: Global,
    scene: &Scene<'a>,
    class: &Class,
    tick: u64,
    this: &'a Agent,
    ledger: &mut Ledger,
) -> Result<(), NoMemory>
    requires scene { IsScene scene.now }
    requires ticks { tick ≤ 2 ^ 32 }
    ensures noted { IfOk result (λ _. NotesQueryIn scene.now class.now tick this.now
        ledger.old ledger.new) }
    ensures seed { ledger.new.drawer.seed ≡ ledger.old.drawer.seed }
{
    let mut locals = Vec::new(alloc);
    open_block(&class.query, &mut locals)?;
    let seat = Seat {
        tick,
        this,
        outer: None,
        inner: None,
    };
    block(alloc, scene, &seat, &class.query, &mut locals, ledger)?;
    Ok(())
}

/// Evaluates the query of an agent; one without a class has none.
fn query<'a>(
    alloc: Global,
    scene: &Scene<'a>,
    tick: u64,
    this: &'a Agent,
    ledger: &mut Ledger,
) -> Result<(), NoMemory>
    requires scene { IsScene scene.now }
    requires ticks { tick ≤ 2 ^ 32 }
    ensures noted { IfOk result (λ _. NotesQuery scene.now tick this.now ledger.old ledger.new) }
    ensures seed { ledger.new.drawer.seed ≡ ledger.old.drawer.seed }
{
    match class_of(scene.program, this) {
        Some(class) => query_of_class(alloc, scene, class, tick, this, ledger),
        None => Ok(()),
    }
}

/// Evaluates the queries of some agents, one after another.
pub fn queries<'a>(
    alloc: Global,
    scene: &Scene<'a>,
    tick: u64,
    asking: &'a [Agent],
    ledger: &mut Ledger,
) -> Result<(), NoMemory>
    requires scene { IsScene scene.now }
    requires ticks { tick ≤ 2 ^ 32 }
    ensures noted { IfOk result (λ _. NotesQueries scene.now tick asking.now
        ledger.old ledger.new) }
    ensures seed { ledger.new.drawer.seed ≡ ledger.old.drawer.seed }
{
    for this in asking {
        query(alloc, scene, tick, this, ledger)?;
    }
    Ok(())
}
