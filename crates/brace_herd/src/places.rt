ghost use Rattle.std.specs.Prelude.{◌≤◌, ◌^◌, length, IfOk};
ghost use Rattle.brace_cuts.specs.Space.{LawfulCuts};
ghost use Rattle.brace_pieces.specs.Owned.{owned};
ghost use Rattle.brace_herd.specs.Placed.{ArePlaces};

use brace_cuts::Cuts;
use brace_model::{Agent, Program};
use brace_num::NoMemory;
use brace_pieces::owns;
use std::alloc::Global;

/// The place of each agent of a list that a part owns under some cuts, in turn.
pub fn own_places(
    alloc: Global,
    program: &Program,
    cuts: &Cuts,
    part: u32,
    held: &[Agent],
) -> Result<Vec<u32>, NoMemory>
    requires cuts { LawfulCuts cuts.now }
    requires few { length held.now ≤ 2 ^ 20 }
    ensures { IfOk result (λ places. ArePlaces held.now
        (owned program.now cuts.now part held.now) places.items) }
{
    let mut places = Vec::with_capacity(alloc, held.len())?;
    for place in 0..held.len() {
        if owns(program, cuts, part, &held[place]) {
            places.push(place as u32)?;
        }
    }
    Ok(places)
}

/// The place of each agent of a list, in turn.
pub fn all_places(alloc: Global, held: &[Agent]) -> Result<Vec<u32>, NoMemory>
    requires few { length held.now ≤ 2 ^ 20 }
    ensures { IfOk result (λ places. ArePlaces held.now held.now places.items) }
{
    let mut places = Vec::with_capacity(alloc, held.len())?;
    for place in 0..held.len() {
        places.push(place as u32)?;
    }
    Ok(places)
}
