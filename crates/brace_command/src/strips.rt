//! Balanced strips over the agents of a world, and their texts.
ghost use Rattle.std.specs.Prelude.{◌≡◌, ◌<◌, ◌≤◌, ◌^◌, map, length, slice_index_or, IfOk};
ghost use Rattle.brace_desk.specs.Sums.{place_along};
ghost use Rattle.brace_model.specs.declared.world.Agent.{Agent};
ghost use Rattle.brace_model.specs.World.{x_of};
ghost use Rattle.brace_command.specs.Balances.{IsAlongX};
ghost use Rattle.brace_command.specs.Outcome.{told, IsBalanced};

use brace_balance::{balance, print_certificate, print_plan};
use brace_model::{Herd, Program, World};
use brace_num::NoMemory;
use brace_pieces::class_at;
use std::alloc::Global;

/// What is told of balanced strips.
#[derive(Drop)]
pub struct Strips {
    /// The line of the cut plan.
    pub plan: Vec<u8>,
    /// The certificate of the load.
    pub certificate: Vec<u8>,
}

/// Where the agent at a place of a herd stands along x, in millionths.
fn x_at(program: &Program, agents: &Herd, place: usize) -> i64
    requires { place < length agents.now }
    ensures { (d : Agent)
        → result ≡ place_along x_of program.now (slice_index_or agents.now place d) }
{
    match class_at(program, agents, place) {
        None => 0,
        Some(class) => agents.number(place, class.x),
    }
}

/// Where agents stand along x, in millionths, as the agents come.
fn places(alloc: Global, program: &Program, agents: &Herd) -> Result<Vec<i64>, NoMemory>
    ensures { IfOk result (λ xs. xs.items ≡ map (place_along x_of program.now) agents.now) }
{
    let mut xs = Vec::with_capacity(alloc, agents.len())?;
    for place in 0..agents.len() {
        xs.push(x_at(program, agents, place))?;
    }
    Ok(xs)
}

/// Where agents stand along x, in millionths, in rising order.
fn along_x(alloc: Global, program: &Program, agents: &Herd) -> Result<Vec<i64>, NoMemory>
    ensures { IfOk result (λ xs. IsAlongX program.now agents.now xs.items) }
{
    let mut xs = places(alloc, program, agents)?;
    xs.sort_unstable();
    Ok(xs)
}

/// Balanced strips over the agents of a world, at most `count`.
pub fn balanced_strips(
    alloc: Global,
    program: &Program,
    world: &World,
    count: u32,
) -> Result<Strips, NoMemory>
    requires few_agents { length world.now.agents ≤ 2 ^ 20 }
    requires some { 1 ≤ count }
    requires few { count ≤ 64 }
    ensures { IfOk result (λ strips. IsBalanced count program.now world.now
        (told strips.plan.items strips.certificate.items)) }
{
    let xs = along_x(alloc, program, world.agents())?;
    let found = balance(alloc, &xs, count)?;
    let mut plan = Vec::new(alloc);
    print_plan(found.cuts.as_slice(), &mut plan)?;
    let mut certificate = Vec::new(alloc);
    print_certificate(found.load, &found.proof, &mut certificate)?;
    Ok(Strips { plan, certificate })
}
