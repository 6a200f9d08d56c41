ghost use Rattle.std.specs.Prelude.{◌≡◌, IfOk};

use crate::{Agent, Class, Effect, Expr, Gift, Program, Spawn, State, Stmt, Values};
use brace_num::{Boxed, List, NoMemory};
use std::alloc::Global;

/// Values equal to these.
fn copy_values(alloc: Global, values: &Values) -> Result<Values, NoMemory>
    ensures { IfOk result (λ copy. copy ≡ values.now) }
{
    let mut copy = List::new(alloc);
    for value in values.as_slice() {
        copy.push(*value)?;
    }
    Ok(copy)
}

/// An expression equal to this one, in a box.
#[cycle(copying_expressions)]
fn copy_boxed(alloc: Global, e: &Boxed<Expr>) -> Result<Boxed<Expr>, NoMemory>
    ensures { IfOk result (λ copy. copy ≡ e.now) }
{
    let copy = copy_expression(alloc, e.get())?;
    Boxed::new(alloc, copy)
}

/// An expression equal to this one.
#[cycle(copying_expressions)]
fn copy_expression(alloc: Global, e: &Expr) -> Result<Expr, NoMemory>
    ensures { IfOk result (λ copy. copy ≡ e.now) }
{
    Ok(match e {
        Expr::Lit(value) => Expr::Lit(*value),
        Expr::Field(who, state) => Expr::Field(*who, *state),
        Expr::Total(effect, ty, site) => Expr::Total(*effect, *ty, *site),
        Expr::Local(n) => Expr::Local(*n),
        Expr::Unary(op, site, a) => Expr::Unary(*op, *site, copy_boxed(alloc, a)?),
        Expr::Binary(op, site, a, b) => {
            let a = copy_boxed(alloc, a)?;
            Expr::Binary(*op, *site, a, copy_boxed(alloc, b)?)
        }
        Expr::Choice(condition, a, b) => {
            let condition = copy_boxed(alloc, condition)?;
            let a = copy_boxed(alloc, a)?;
            Expr::Choice(condition, a, copy_boxed(alloc, b)?)
        }
        Expr::Rand(site) => Expr::Rand(*site),
    })
}

/// A statement equal to this one.
#[cycle(copying_statements)]
fn copy_statement(alloc: Global, s: &Stmt) -> Result<Stmt, NoMemory>
    ensures { IfOk result (λ copy. copy ≡ s.now) }
{
    Ok(match s {
        Stmt::Const(n, e) => Stmt::Const(*n, copy_expression(alloc, e)?),
        Stmt::If(condition, a, b) => {
            let condition = copy_expression(alloc, condition)?;
            let a = copy_block(alloc, a)?;
            Stmt::If(condition, a, copy_block(alloc, b)?)
        }
        Stmt::Foreach(class, body, at) => Stmt::Foreach(*class, copy_block(alloc, body)?, *at),
        Stmt::Assign(who, effect, e, at) => {
            Stmt::Assign(*who, *effect, copy_expression(alloc, e)?, *at)
        }
    })
}

/// Statements equal to these.
#[cycle(copying_statements)]
fn copy_block(alloc: Global, block: &List<Stmt>) -> Result<List<Stmt>, NoMemory>
    ensures { IfOk result (λ copy. copy ≡ block.now) }
{
    let mut copy = List::new(alloc);
    for s in block.as_slice() {
        copy.push(copy_statement(alloc, s)?)?;
    }
    Ok(copy)
}

/// A rule or a condition equal to this one, where there is one.
fn copy_rule(alloc: Global, rule: &Option<Expr>) -> Result<Option<Expr>, NoMemory>
    ensures { IfOk result (λ copy. copy ≡ rule.now) }
{
    Ok(match rule {
        Some(e) => Some(copy_expression(alloc, e)?),
        None => None,
    })
}

/// A state equal to this one.
fn copy_state(alloc: Global, state: &State) -> Result<State, NoMemory>
    ensures { IfOk result (λ copy. copy ≡ state.now) }
{
    Ok(State {
        name: state.name.copy(alloc)?,
        ty: state.ty,
        shared: state.shared,
        rule: copy_rule(alloc, &state.rule)?,
    })
}

/// States equal to these.
fn copy_states(alloc: Global, states: &List<State>) -> Result<List<State>, NoMemory>
    ensures { IfOk result (λ copy. copy ≡ states.now) }
{
    let mut copy = List::new(alloc);
    for state in states.as_slice() {
        copy.push(copy_state(alloc, state)?)?;
    }
    Ok(copy)
}

/// An effect equal to this one.
fn copy_effect(alloc: Global, effect: &Effect) -> Result<Effect, NoMemory>
    ensures { IfOk result (λ copy. copy ≡ effect.now) }
{
    Ok(Effect {
        name: effect.name.copy(alloc)?,
        ty: effect.ty,
        shared: effect.shared,
        comb: effect.comb,
    })
}

/// Effects equal to these.
fn copy_effects(alloc: Global, effects: &List<Effect>) -> Result<List<Effect>, NoMemory>
    ensures { IfOk result (λ copy. copy ≡ effects.now) }
{
    let mut copy = List::new(alloc);
    for effect in effects.as_slice() {
        copy.push(copy_effect(alloc, effect)?)?;
    }
    Ok(copy)
}

/// Gifts equal to these.
fn copy_gifts(alloc: Global, gifts: &List<Gift>) -> Result<List<Gift>, NoMemory>
    ensures { IfOk result (λ copy. copy ≡ gifts.now) }
{
    let mut copy = List::new(alloc);
    for gift in gifts.as_slice() {
        copy.push(Gift {
            state: gift.state,
            value: copy_expression(alloc, &gift.value)?,
        })?;
    }
    Ok(copy)
}

/// A `spawn` equal to this one, where there is one.
fn copy_spawn(alloc: Global, spawn: &Option<Spawn>) -> Result<Option<Spawn>, NoMemory>
    ensures { IfOk result (λ copy. copy ≡ spawn.now) }
{
    Ok(match spawn {
        Some(spawn) => {
            let when = copy_expression(alloc, &spawn.when)?;
            Some(Spawn {
                when,
                gifts: copy_gifts(alloc, &spawn.gifts)?,
                site: spawn.site,
            })
        }
        None => None,
    })
}

/// A class equal to this one.
fn copy_class(alloc: Global, class: &Class) -> Result<Class, NoMemory>
    ensures { IfOk result (λ copy. copy ≡ class.now) }
{
    let name = class.name.copy(alloc)?;
    let states = copy_states(alloc, &class.states)?;
    let effects = copy_effects(alloc, &class.effects)?;
    let query = copy_block(alloc, &class.query)?;
    let die = copy_rule(alloc, &class.die)?;
    let spawn = copy_spawn(alloc, &class.spawn)?;
    Ok(Class {
        name,
        visible: class.visible,
        reach: class.reach,
        x: class.x,
        y: class.y,
        states,
        effects,
        query,
        die,
        spawn,
    })
}

/// Classes equal to these.
fn copy_classes(alloc: Global, classes: &List<Class>) -> Result<List<Class>, NoMemory>
    ensures { IfOk result (λ copy. copy ≡ classes.now) }
{
    let mut copy = List::new(alloc);
    for class in classes.as_slice() {
        copy.push(copy_class(alloc, class)?)?;
    }
    Ok(copy)
}

/// Numbers equal to these.
fn copy_numbers(alloc: Global, numbers: &List<u32>) -> Result<List<u32>, NoMemory>
    ensures { IfOk result (λ copy. copy ≡ numbers.now) }
{
    let mut copy = List::new(alloc);
    for number in numbers.as_slice() {
        copy.push(*number)?;
    }
    Ok(copy)
}

impl Program {
    /// A program equal to this one.
    pub fn copy(&self, alloc: Global) -> Result<Program, NoMemory>
        ensures { IfOk result (λ copy. copy ≡ self.now) }
    {
        let classes = copy_classes(alloc, &self.classes)?;
        let sites = copy_numbers(alloc, &self.sites)?;
        Ok(Program { classes, sites })
    }
}

impl Agent {
    /// An agent equal to this one.
    pub fn copy(&self, alloc: Global) -> Result<Agent, NoMemory>
        ensures { IfOk result (λ copy. copy ≡ self.now) }
    {
        Ok(Agent {
            class: self.class,
            id: self.id,
            states: copy_values(alloc, &self.states)?,
        })
    }
}
