//! Agents at drawn places.
ghost use Rattle.std.specs.Prelude.{◌≡◌, ◌≤◌, ◌^◌, ◌++◌, ◌∷◌, [], true, IfOk, OnOk};
ghost use Rattle.brace_num.specs.Generator.{following};
ghost use Rattle.brace_model.specs.declared.program.Program.{Program};
ghost use Rattle.brace_model.specs.declared.program.Value.TheVariants.{Fixed};
ghost use Rattle.brace_model.specs.World.{IsNumbered, world_of};
ghost use Rattle.brace_model.specs.Lawful.{LawfulAgents};
ghost use Rattle.brace_rows.specs.MadeAgents.{coordinate, agent_at, has_four_fixed, made_agents};

use brace_model::{Herd, Ty, World};
use brace_num::{Generator, NoMemory};
use std::alloc::Global;

/// The world of `count` agents of class 0 with the ids from 0 on, at most 1,048,576. Each has four
/// fixed states: x and y from 0 to below 1000 units, which a generator draws in this order from the
/// low 32 bits of the seed, and two speeds of 0.
pub fn make_agents(alloc: Global, seed: u64, count: u32) -> Result<World, NoMemory>
    requires { count ≤ 2 ^ 20 }
    ensures world { IfOk result (λ world. world ≡ world_of (made_agents seed count)) }
    ensures numbered { IfOk result IsNumbered }
    ensures lawful { (program : Program) → has_four_fixed program ≡ true
        → IfOk result (λ world. LawfulAgents program world.agents) }
{
    let mut generator = Generator::new(seed);
    let mut agents = Herd::with_room(alloc, count as usize, 4 * count as usize)?;
    for id in 0..count {
        add_agent(&mut agents, &mut generator, id)?;
    }
    match World::from_rising(agents) {
        Some(world) => Ok(world),
        None => unreachable!(),
    }
}

/// The types of a made agent's states: two coordinates and two speeds.
const TYPES: [Ty; 4] = [Ty::Fixed, Ty::Fixed, Ty::Fixed, Ty::Fixed];

/// One more agent, at the place of the next two draws.
fn add_agent(agents: &mut Herd, generator: &mut Generator, id: u32) -> Result<(), NoMemory>
    ensures agent { OnOk result (agents.new ≡ agents.old
        ++ agent_at id (following generator.old) (following (following generator.old)) ∷ []) }
    ensures drawn { OnOk result (generator.new ≡ following (following generator.old)) }
{
    let x = coordinate(generator.draw());
    let y = coordinate(generator.draw());
    let states = [x, y, 0, 0];
    agents.push(0, u64::from(id), &TYPES, &states)
}

/// A 32-bit number as a part of a thousand units, in millionths.
fn coordinate(number: u32) -> i64
    ensures { Fixed result ≡ coordinate number }
{
    (u64::from(number) * 1_000_000_000 / 4_294_967_296) as i64
}
