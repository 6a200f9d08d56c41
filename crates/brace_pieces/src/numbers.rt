//! That all numbers of a setting have 64 bits. The functions walk over it and answer nothing: their
//! clauses are what they are for.
ghost use Rattle.std.specs.Prelude.{◌<◌, IsTrue, length, slice_index_or};
ghost use Rattle.std.specs.List.{list_all};
ghost use Rattle.brace_num.specs.Exact.{fits};
ghost use Rattle.brace_model.specs.declared.world.Agent.{Agent};
ghost use Rattle.brace_model.specs.World.{number};
ghost use Rattle.brace_pieces.specs.Numbers.{expression_fits, rule_fits, gifts_fit, class_fits, agent_fits, NumbersFit};

use crate::Setting;
use brace_model::{Class, Expr, Gift, Herd, Spawn, State, Value};

/// A number.
fn number_fits(n: i64)
    ensures { IsTrue (fits n) }
{
    let _n = n;
}

/// The number of a value.
fn value_fits(value: &Value)
    ensures { IsTrue (fits (number value.now)) }
{
    match value {
        Value::Int(n) | Value::Fixed(n) => number_fits(*n),
        Value::Flag(_) => {}
    }
}

/// The numbers that are written in an expression.
fn expression_fits(e: &Expr)
    ensures { IsTrue (expression_fits e.now) }
{
    match e {
        Expr::Lit(value) => value_fits(value),
        Expr::Unary(_, _, a) => expression_fits(a.get()),
        Expr::Binary(_, _, a, b) => {
            expression_fits(a.get());
            expression_fits(b.get());
        }
        Expr::Choice(c, a, b) => {
            expression_fits(c.get());
            expression_fits(a.get());
            expression_fits(b.get());
        }
        _ => {}
    }
}

/// Those that are written in a rule.
fn rule_fits(rule: &Option<Expr>)
    ensures { IsTrue (rule_fits rule.now) }
{
    match rule {
        Some(e) => expression_fits(e),
        None => {}
    }
}

/// Those of the rules of some states.
fn rules_fit(states: &[State])
    ensures { IsTrue (list_all (λ state. rule_fits state.rule) states.now) }
{
    for state in states {
        rule_fits(&state.rule);
    }
}

/// Those of some gifts.
fn all_given_fit(gifts: &[Gift])
    ensures { IsTrue (list_all (λ g. expression_fits g.value) gifts.now) }
{
    for gift in gifts {
        expression_fits(&gift.value);
    }
}

/// Those in the gifts of a `spawn`.
fn gifts_fit(spawn: &Option<Spawn>)
    ensures { IsTrue (gifts_fit spawn.now) }
{
    match spawn {
        Some(spawn) => all_given_fit(spawn.gifts.as_slice()),
        None => {}
    }
}

/// Those that a class gives to its states.
fn class_fits(class: &Class)
    ensures { IsTrue (class_fits class.now) }
{
    rules_fit(class.states.as_slice());
    gifts_fit(&class.spawn);
}

/// Those of some classes.
fn classes_fit(classes: &[Class])
    ensures { IsTrue (list_all class_fits classes.now) }
{
    for class in classes {
        class_fits(class);
    }
}

/// The values of the agent at a place.
fn agent_fits(agents: &Herd, place: usize)
    requires { place < length agents.now }
    ensures { (d : Agent) → IsTrue (agent_fits (slice_index_or agents.now place d)) }
{
    for state in 0..agents.states(place) {
        number_fits(agents.number_at(place, state));
    }
}

/// The values of some agents.
fn agents_fit(agents: &Herd)
    ensures { IsTrue (list_all agent_fits agents.now) }
{
    for place in 0..agents.len() {
        agent_fits(agents, place);
    }
}

impl Setting {
    /// All numbers of a setting have 64 bits: a walk over its program and its first world, which
    /// takes no memory and changes nothing.
    pub fn numbers_fit(&self)
        ensures { NumbersFit self.now }
    {
        classes_fit(self.job.program.classes.as_slice());
        agents_fit(self.job.start.agents());
    }
}
