ghost use Rattle.std.specs.Prelude.{◌≡◌, ◌+◌, ◌-◌, ◌^◌, ◌≤◌, length, min, [], nat_lt, ◌||◌, option_copied, IfNone, IfOk};
ghost use Rattle.brace_model.specs.World.{world_with};
ghost use Rattle.brace_model.specs.Step.{most_agents, most_values, greatest_id, count_values, first_too_far, spawn_site, birth_fault, grown};

use brace_model::{Agent, Fault, Parent, Phase, Program};
use brace_num::{Kind, NoMemory};

/// The most agents of a world, the most values of their states, and the greatest id.
const MOST_AGENTS: usize = 1_048_576;

const MOST_VALUES: usize = 4_194_304;

const GREATEST_ID: u64 = 9_223_372_036_854_775_807;

/// How many values the states of agents have; at most the greatest number.
fn count_values(agents: &[Agent]) -> usize
    ensures { result ≡ min (count_values agents.now) (2 ^ 64 - 1) }
{
    let mut count = 0usize;
    for a in agents {
        count = count.saturating_add(a.states.as_slice().len());
    }
    count
}

/// Whether these are too many agents, or values of their states, or an id is too great.
pub fn is_too_far(agents: usize, values: usize, id: u64) -> bool
    ensures { result ≡ (nat_lt most_agents agents
        || (nat_lt most_values values || nat_lt greatest_id id)) }
{
    agents > MOST_AGENTS || values > MOST_VALUES || id > GREATEST_ID
}

/// The child of the least rank with which a world has too many agents or values, or an id too
/// great.
pub fn first_too_far<'a>(living: &[Agent], next: u64, born: &'a [Agent]) -> Option<&'a Agent>
    requires { next ≤ 2 ^ 63 }
    ensures first { option_copied result ≡ first_too_far living.now next born.now }
    ensures fits { IfNone result (next + length born.now ≤ 2 ^ 63) }
{
    let mut agents = living.len();
    let mut values = count_values(living);
    let mut id = next;
    for child in born {
        agents = agents.saturating_add(1);
        values = values.saturating_add(child.states.as_slice().len());
        if is_too_far(agents, values, id) {
            return Some(child);
        }
        id = id.saturating_add(1);
    }
    None
}

/// The fault of the birth of a parent's child.
pub fn birth_fault(program: &Program, tick: u64, parent: Parent) -> Fault
    ensures { result ≡ birth_fault program.now tick
        (record { class = parent.class; id = parent.id; states = [] }) }
{
    Fault {
        tick,
        phase: Phase::Birth,
        agent: parent.id,
        site: spawn_site(program, parent.class),
        outer: None,
        inner: None,
        kind: Kind::TooMany,
    }
}

/// The site of the `spawn` of a class.
fn spawn_site(program: &Program, class: u32) -> u32
    ensures { result ≡ spawn_site program.now (record { class = class; id = 0; states = [] }) }
{
    match program.classes.as_slice().get(class as usize) {
        Some(class) => match &class.spawn {
            Some(spawn) => spawn.site,
            None => 0,
        },
        None => 0,
    }
}

/// The living and the children, each child with the next free id, and the next free id behind them.
pub fn grown(
    mut living: Vec<Agent>,
    next: u64,
    mut born: Vec<Agent>,
) -> Result<(Vec<Agent>, u64), NoMemory>
    requires { next + length born.items ≤ 2 ^ 63 }
    ensures { IfOk result (λ all. world_with all.0.items all.1
        ≡ grown next living.items born.items) }
{
    let mut id = next;
    born.reverse();
    while let Some(child) = born.pop() {
        living.push(Agent {
            class: child.class,
            id,
            states: child.states,
        })?;
        id += 1;
    }
    Ok((living, id))
}
