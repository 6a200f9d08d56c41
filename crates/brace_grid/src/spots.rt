ghost use Rattle.std.specs.Prelude.{◌≡◌, ◌≤◌, ◌^◌, map, length, pos, ◌≤ℤ◌, IfOk};
ghost use Rattle.std.specs.List.Sorted.{IsPermutation};
ghost use Rattle.brace_grid.specs.Grids.{place_of};
ghost use Rattle.brace_grid.specs.inner.Layout.{spot, spots_of, SpotsRise};

use crate::cells::Spot;
use brace_model::{Agent, Program, class_of, x_of, y_of};
use brace_num::NoMemory;
use std::alloc::Global;

/// The spots of agents, by index.
pub fn spots_of(
    alloc: Global,
    program: &Program,
    agents: &[Agent],
    side: i64,
) -> Result<Vec<Spot>, NoMemory>
    requires few { length agents.now ≤ 2 ^ 20 }
    requires side { pos 1000000 ≤ℤ side }
    ensures { IfOk result (λ spots. spots.items
        ≡ spots_of side (map (place_of program.now) agents.now)) }
{
    let mut spots = Vec::with_capacity(alloc, agents.len())?;
    for i in 0..agents.len() {
        spots.push(spot_of(program, &agents[i], i as u32, side))?;
    }
    Ok(spots)
}

/// The spot of an agent of that index.
fn spot_of(program: &Program, a: &Agent, index: u32, side: i64) -> Spot
    requires { pos 1000000 ≤ℤ side }
    ensures { result ≡ spot (place_of program.now a.now) side index }
{
    let (x, y) = match class_of(program, a) {
        Some(class) => (x_of(class, a), y_of(class, a)),
        None => (0, 0),
    };
    Spot {
        column: x.div_euclid(side),
        row: y.div_euclid(side),
        x,
        y,
        index,
    }
}

/// Puts spots in the order of their cells.
pub fn sort_by_cell(spots: &mut Vec<Spot>)
    ensures moved { IsPermutation spots.old.items spots.new.items }
    ensures rise { SpotsRise spots.new.items }
{
    spots.sort_unstable_by_key(|spot: &Spot| (spot.column, spot.row));
}
