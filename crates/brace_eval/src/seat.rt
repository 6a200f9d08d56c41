ghost use Rattle.std.specs.Prelude.{◌≡◌, ◌≤◌, ◌^◌, ℕ, List, IfOk, slice_set};
ghost use Rattle.brace_model.specs.declared.program.Value.{Value};
ghost use Rattle.brace_model.specs.Value.{agent_of, value};
ghost use Rattle.brace_model.specs.Query.{inside, query_fault};
ghost use Rattle.brace_eval.specs.inner.Walks.{is_true, scope_at, undone};

use crate::expression::eval;
use brace_draw::Drawer;
use brace_model::{Agent, Env, Expr, Fault, Phase, Stop, Value, Who};
use brace_num::NoMemory;

/// Where the walk over a query stands.
#[derive(Debug, Clone, Copy)]
pub struct Seat<'a> {
    pub tick: u64,
    pub this: &'a Agent,
    pub outer: Option<&'a Agent>,
    pub inner: Option<&'a Agent>,
}

/// A constant that was bound, and its value before.
#[derive(Debug, Clone, Copy, Drop)]
pub struct Bound {
    pub place: usize,
    pub before: Value,
}

/// Whether a value is the flag `true`.
pub fn is_true(v: Value) -> bool
    ensures { result ≡ is_true v }
{
    match v {
        Value::Flag(b) => b,
        _ => false,
    }
}

/// Binds a constant, and notes what it was.
pub fn bind(locals: &mut [Value], trail: &mut Vec<Bound>, n: u32, v: Value) -> Result<(), NoMemory>
    ensures bound { IfOk result (λ _. locals.new ≡ slice_set locals.old n v) }
    ensures undone { IfOk result (λ _. undone trail.new.items locals.new
        ≡ undone trail.old.items locals.old) }
{
    let place = n as usize;
    if place < locals.len() {
        trail.push(Bound {
            place,
            before: locals[place],
        })?;
        locals[place] = v;
    }
    Ok(())
}

/// Sets back all constants of a trail, the last one bound first.
pub fn unbind(locals: &mut [Value], mut trail: Vec<Bound>)
    ensures { locals.new ≡ undone trail.items locals.old }
{
    while let Some(bound) = trail.pop() {
        if bound.place < locals.len() {
            locals[bound.place] = bound.before;
        }
    }
}

impl<'a> Seat<'a> {
    /// The seat inside a loop, at one of its agents.
    pub fn inside(&self, other: &'a Agent) -> Seat<'a>
        ensures scope { (seed : ℕ) (locals : List Value)
            → scope_at result seed locals ≡ inside (scope_at self.now seed locals) other.now }
        ensures tick { result.tick ≡ self.now.tick }
    {
        match self.outer {
            None => Seat {
                outer: Some(other),
                ..*self
            },
            Some(_) => Seat {
                inner: Some(other),
                ..*self
            },
        }
    }

    /// The id of the agent that a name stands for.
    pub fn id_of(&self, who: Who) -> u64
        ensures { (seed : ℕ) (locals : List Value)
            → result ≡ (agent_of (scope_at self.now seed locals) who).id }
    {
        match who {
            Who::This => self.this.id,
            Who::Outer => self.outer.unwrap_or(self.this).id,
            Who::Inner => self.inner.unwrap_or(self.this).id,
        }
    }

    /// The fault of a query here.
    pub fn fault(&self, stop: Stop) -> Fault
        ensures { (seed : ℕ) (locals : List Value)
            → result ≡ query_fault (scope_at self.now seed locals) stop }
    {
        Fault {
            tick: self.tick,
            phase: Phase::Query,
            agent: self.this.id,
            site: stop.site,
            outer: self.outer.map(|a| a.id),
            inner: self.inner.map(|a| a.id),
            kind: stop.kind,
        }
    }

    /// The value of an expression here.
    pub fn value(&self, e: &Expr, locals: &[Value], drawer: &mut Drawer) -> Result<Value, Stop>
        requires { self.now.tick ≤ 2 ^ 32 }
        ensures value { result ≡ value e.now (scope_at self.now drawer.old.seed locals.now) }
        ensures seed { drawer.new.seed ≡ drawer.old.seed }
    {
        let env = Env {
            tick: self.tick,
            this: self.this,
            outer: self.outer,
            inner: self.inner,
            locals,
            totals: &[],
        };
        eval(e, &env, drawer)
    }
}
