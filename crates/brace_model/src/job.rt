ghost use Rattle.std.specs.Prelude.{◌≡◌};
ghost use Rattle.brace_model.specs.Scopes.{scope_of};
ghost use Rattle.brace_model.specs.Value.{agent_of};

use crate::{Agent, Program, Value, Who, World};
use brace_draw::Drawer;

/// A run to be done.
#[derive(Debug, Drop)]
pub struct Job {
    pub program: Program,
    /// The seed of all draws.
    pub seed: u64,
    /// The tick of the start world, at most 2^32.
    pub first: u64,
    /// The last tick, at most 2^32.
    pub last: u64,
    /// Ticks that this number divides are published, and the last one. At least 1.
    pub every: u64,
    pub start: World,
}

/// What an expression may name.
#[derive(Debug, Clone, Copy)]
pub struct Env<'a> {
    pub tick: u64,
    pub this: &'a Agent,
    pub outer: Option<&'a Agent>,
    pub inner: Option<&'a Agent>,
    /// A place for each constant of the class.
    pub locals: &'a [Value],
    /// The number of each effect's total; a total of `or` is 0 or 1.
    pub totals: &'a [i128],
}

/// The agent that a name stands for, whatever is drawn.
#[inline(always)]
pub fn agent_of<'a>(env: &Env<'a>, drawer: &Drawer, who: Who) -> &'a Agent
    ensures { result.now ≡ agent_of (scope_of env.now drawer.now) who }
{
    match who {
        Who::This => env.this,
        Who::Outer => env.outer.unwrap_or(env.this),
        Who::Inner => env.inner.unwrap_or(env.this),
    }
}
