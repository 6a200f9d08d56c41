ghost use Rattle.std.specs.Prelude.{◌≡◌, ℕ, List, Option, option_map, option_copied};
ghost use Rattle.brace_draw.specs.declared.Drawer.{Drawer};
ghost use Rattle.brace_model.specs.declared.program.Value.{Value};
ghost use Rattle.brace_model.specs.Scopes.{scope_of};
ghost use Rattle.brace_model.specs.Value.{agent_of};
ghost use Rattle.brace_model.specs.Query.{inside, query_fault};
ghost use Rattle.brace_plan.specs.inner.Walks.{IsPlaced, IsSeat, scope_at};

use brace_grid::Grid;
use brace_model::{Agent, Env, Fault, Phase, Program, Stop, Value, Who};

/// What a query is asked over.
#[derive(Clone, Copy)]
pub struct Scene<'a> {
    pub program: &'a Program,
    pub agents: &'a [Agent],
    pub grid: &'a Grid,
    pub tick: u64,
}

/// An agent, and its place in the list of agents.
#[derive(Clone, Copy)]
pub struct Placed<'a> {
    pub place: u32,
    pub agent: &'a Agent,
}

/// Where the walk over a query stands.
#[derive(Clone, Copy)]
pub struct Seat<'a> {
    pub this: Placed<'a>,
    pub outer: Option<Placed<'a>>,
    pub inner: Option<Placed<'a>>,
}

/// The agent without its place.
fn agent_of<'a>(placed: &Option<Placed<'a>>) -> Option<&'a Agent>
    ensures { option_copied result ≡ option_map (λ p. p.agent.now) placed.now }
{
    match placed {
        Some(placed) => Some(placed.agent),
        None => None,
    }
}

/// The id without the place.
fn id_of(placed: &Option<Placed>) -> Option<u64>
    ensures { result ≡ option_map (λ a. a.id) (option_map (λ p. p.agent.now) placed.now) }
{
    match placed {
        Some(placed) => Some(placed.agent.id),
        None => None,
    }
}

impl<'a> Seat<'a> {
    /// The seat inside a loop, at one of its agents.
    pub fn inside(&self, scene: &Scene<'a>, other: &Placed<'a>) -> Seat<'a>
        requires seat { IsSeat scene.now self.now }
        requires other { IsPlaced scene.now other.now }
        ensures seat { IsSeat scene.now result }
        ensures scope { (seed : ℕ) (locals : List Value)
            → scope_at scene.now result seed locals
            ≡ inside (scope_at scene.now self.now seed locals) other.now.agent.now }
    {
        match self.outer {
            None => Seat {
                outer: Some(*other),
                ..*self
            },
            Some(_) => Seat {
                inner: Some(*other),
                ..*self
            },
        }
    }

    /// The agent that a name stands for.
    pub fn named(&self, scene: &Scene<'a>, who: Who) -> Placed<'a>
        requires seat { IsSeat scene.now self.now }
        ensures placed { IsPlaced scene.now result }
        ensures agent { (seed : ℕ) (locals : List Value)
            → result.agent.now ≡ agent_of (scope_at scene.now self.now seed locals) who }
    {
        match who {
            Who::This => self.this,
            Who::Outer => self.outer.unwrap_or(self.this),
            Who::Inner => self.inner.unwrap_or(self.this),
        }
    }

    /// The fault of a query here.
    pub fn fault(&self, scene: &Scene<'a>, stop: Stop) -> Fault
        ensures { (seed : ℕ) (locals : List Value)
            → result ≡ query_fault (scope_at scene.now self.now seed locals) stop }
    {
        Fault {
            tick: scene.tick,
            phase: Phase::Query,
            agent: self.this.agent.id,
            site: stop.site,
            outer: id_of(&self.outer),
            inner: id_of(&self.inner),
            kind: stop.kind,
        }
    }
}

/// What an expression may name at a seat.
pub fn env_at<'b>(scene: &Scene<'b>, seat: &Seat<'b>, locals: &'b [Value]) -> Env<'b>
    ensures scope { (drawer : Drawer)
        → scope_of result drawer ≡ scope_at scene.now seat.now drawer.seed locals.now }
    ensures tick { result.tick ≡ scene.now.tick }
{
    Env {
        tick: scene.tick,
        this: seat.this.agent,
        outer: agent_of(&seat.outer),
        inner: agent_of(&seat.inner),
        locals,
        totals: &[],
    }
}
