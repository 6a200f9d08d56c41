ghost use Rattle.std.specs.Prelude.{◌≡◌, ◌≤◌, ◌^◌, ◌∷◌, [], pos, ◌≤ℤ◌, IfOk, IfErr, Ok, Err, Some};
ghost use Rattle.std.specs.Result.{result_ok};
ghost use Rattle.brace_model.specs.World.{class_of};
ghost use Rattle.brace_model.specs.Lawful.{LawfulProgram};
ghost use Rattle.brace_model.specs.Value.{value};
ghost use Rattle.brace_model.specs.Next.{ruled, condition_in, holds, spawns_in, gifts_in, child_in, values_of, next_in};
ghost use Rattle.brace_model.specs.Scopes.{scope_of};
ghost use Rattle.brace_eval.specs.inner.Updates.{with_one, worths, gift_worths, Meets};

use crate::expression::eval;
use crate::fault::StepFault;
use crate::seat::is_true;
use brace_draw::Drawer;
use brace_model::{
    Agent, Class, Env, Expr, Fault, Gift, Left, Program, State, Stop, Value, child_with, class_of,
    survivor, update_fault, with_stop,
};
use brace_num::NoMemory;
use std::alloc::Global;

/// The value of an outcome; a stop is kept where it has the least site.
fn kept(first: &mut Option<Stop>, outcome: Result<Value, Stop>) -> Option<Value>
    ensures value { result ≡ result_ok outcome }
    ensures met { Meets (outcome ∷ []) first.old first.new }
{
    match outcome {
        Ok(v) => Some(v),
        Err(stop) => {
            *first = Some(with_stop(*first, stop));
            None
        }
    }
}

/// The value of a rule; without one a state keeps its value.
fn ruled(rule: &Option<Expr>, old: Value, env: &Env, drawer: &mut Drawer) -> Result<Value, Stop>
    requires { env.now.tick ≤ 2 ^ 32 }
    ensures value { result ≡ ruled (scope_of env.now drawer.old) rule.now old }
    ensures seed { drawer.new.seed ≡ drawer.old.seed }
{
    match rule {
        None => Ok(old),
        Some(rule) => eval(rule, env, drawer),
    }
}

/// Adds a value, where there is one.
fn add(values: &mut Vec<Value>, v: Option<Value>) -> Result<(), NoMemory>
    ensures { IfOk result (λ _. values.new.items ≡ with_one values.old.items v) }
{
    if let Some(v) = v {
        values.push(v)?;
    }
    Ok(())
}

/// The values of the rules of states that do not stop.
fn ruled_states(
    alloc: Global,
    states: &[State],
    values: &[Value],
    env: &Env,
    drawer: &mut Drawer,
    first: &mut Option<Stop>,
) -> Result<Vec<Value>, NoMemory>
    requires { env.now.tick ≤ 2 ^ 32 }
    ensures ruled { IfOk result (λ new. values_of
        (worths (scope_of env.now drawer.old) states.now values.now) ≡ new.items) }
    ensures met { IfOk result (λ _. Meets
        (worths (scope_of env.now drawer.old) states.now values.now) first.old first.new) }
    ensures seed { drawer.new.seed ≡ drawer.old.seed }
{
    let mut new = Vec::new(alloc);
    for i in 0..states.len().min(values.len()) {
        let outcome = ruled(&states[i].rule, values[i], env, drawer);
        add(&mut new, kept(first, outcome))?;
    }
    Ok(new)
}

/// Whether a condition holds; one that is not written never does.
fn condition(e: &Option<Expr>, env: &Env, drawer: &mut Drawer, first: &mut Option<Stop>) -> bool
    requires { env.now.tick ≤ 2 ^ 32 }
    ensures holds { result ≡ holds (condition_in (scope_of env.now drawer.old) e.now) }
    ensures met { Meets (condition_in (scope_of env.now drawer.old) e.now ∷ [])
        first.old first.new }
    ensures seed { drawer.new.seed ≡ drawer.old.seed }
{
    match e {
        None => false,
        Some(e) => is_held(first, eval(e, env, drawer)),
    }
}

/// The values of gifts that do not stop.
fn gifts(
    alloc: Global,
    gifts: &[Gift],
    env: &Env,
    drawer: &mut Drawer,
    first: &mut Option<Stop>,
) -> Result<Vec<Value>, NoMemory>
    requires { env.now.tick ≤ 2 ^ 32 }
    ensures given { IfOk result (λ given. values_of
        (gift_worths (scope_of env.now drawer.old) gifts.now) ≡ given.items) }
    ensures met { IfOk result (λ _. Meets
        (gift_worths (scope_of env.now drawer.old) gifts.now) first.old first.new) }
    ensures seed { drawer.new.seed ≡ drawer.old.seed }
{
    let mut given = Vec::new(alloc);
    for gift in gifts {
        let outcome = eval(&gift.value, env, drawer);
        add(&mut given, kept(first, outcome))?;
    }
    Ok(given)
}

/// Whether the outcome of a condition is `true`; a stop is kept.
fn is_held(first: &mut Option<Stop>, outcome: Result<Value, Stop>) -> bool
    ensures held { result ≡ holds outcome }
    ensures met { Meets (outcome ∷ []) first.old first.new }
{
    match kept(first, outcome) {
        Some(v) => is_true(v),
        None => false,
    }
}

/// The child of an agent of a class, where it has one.
fn child(
    alloc: Global,
    class: &Class,
    a: &Agent,
    env: &Env,
    drawer: &mut Drawer,
    first: &mut Option<Stop>,
) -> Result<Option<Agent>, NoMemory>
    requires ticks { env.now.tick ≤ 2 ^ 32 }
    requires reach { pos 0 ≤ℤ class.now.reach }
    ensures child { IfOk result (λ child. child ≡
        child_in (scope_of env.now drawer.old) class.now a.now class.now.spawn) }
    ensures met { IfOk result (λ _. Meets
        (spawns_in (scope_of env.now drawer.old) class.now.spawn
        ∷ gifts_in (scope_of env.now drawer.old) class.now.spawn) first.old first.new) }
    ensures seed { drawer.new.seed ≡ drawer.old.seed }
{
    let Some(spawn) = &class.spawn else {
        return Ok(None);
    };
    if !is_held(first, eval(&spawn.when, env, drawer)) {
        return Ok(None);
    }
    let given = gifts(alloc, spawn.gifts.as_slice(), env, drawer, first)?;
    let child = child_with(alloc, class, a, spawn.gifts.as_slice(), &given)?;
    Ok(Some(child))
}

/// What an agent of a class leaves, with its own totals, or the fault of its update.
fn left_of_class<'a>(
    alloc: Global,
    class: &Class,
    tick: u64,
    a: &'a Agent,
    totals: &'a [i128],
    drawer: &mut Drawer,
) -> Result<Left, StepFault>
    requires ticks { tick ≤ 2 ^ 32 }
    requires reach { pos 0 ≤ℤ class.now.reach }
    ensures left { IfOk result (λ left.
        next_in drawer.old.seed tick (Some class.now) totals.now a.now
        ≡ Ok (record { agent = left.agent; child = left.child })) }
    ensures fault { IfErr result (λ e. (fault : Fault) → e ≡ StepFault.Fault fault
        → next_in drawer.old.seed tick (Some class.now) totals.now a.now ≡ Err fault) }
    ensures seed { drawer.new.seed ≡ drawer.old.seed }
{
    let env = Env {
        tick,
        this: a,
        outer: None,
        inner: None,
        locals: &[],
        totals,
    };
    let mut first = None;
    let states = class.states.as_slice();
    let new = ruled_states(alloc, states, a.states.as_slice(), &env, drawer, &mut first)?;
    let dies = condition(&class.die, &env, drawer, &mut first);
    let child = child(alloc, class, a, &env, drawer, &mut first)?;
    match first {
        Some(stop) => Err(StepFault::Fault(update_fault(tick, a, stop))),
        None => Ok(Left {
            agent: survivor(dies, a, class, new),
            child,
        }),
    }
}

/// What an agent leaves, with its own totals, or the fault of its update. One without a class stays
/// as it is.
pub fn left_by<'a>(
    alloc: Global,
    program: &Program,
    tick: u64,
    a: &'a Agent,
    totals: &'a [i128],
    drawer: &mut Drawer,
) -> Result<Left, StepFault>
    requires ticks { tick ≤ 2 ^ 32 }
    requires lawful { LawfulProgram program.now }
    ensures left { IfOk result (λ left.
        next_in drawer.old.seed tick (class_of program.now a.now) totals.now a.now
        ≡ Ok (record { agent = left.agent; child = left.child })) }
    ensures fault { IfErr result (λ e. (fault : Fault) → e ≡ StepFault.Fault fault
        → next_in drawer.old.seed tick (class_of program.now a.now) totals.now a.now ≡ Err fault) }
    ensures seed { drawer.new.seed ≡ drawer.old.seed }
{
    match class_of(program, a) {
        Some(class) => left_of_class(alloc, class, tick, a, totals, drawer),
        None => Ok(Left {
            agent: Some(a.copy(alloc)?),
            child: None,
        }),
    }
}
