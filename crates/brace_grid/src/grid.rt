ghost use Rattle.std.specs.Prelude.{◌≡◌, ◌+◌, ◌≤◌, ◌^◌, length, pos, ◌≤ℤ◌, ◌-ℤ◌, ◌*ℤ◌, IfOk, OnOk};
ghost use Rattle.brace_grid.specs.Grids.{grid_of, inside, most_looks};

use crate::cells::{Layout, cells_of};
use crate::looks::Looks;
use crate::search::{block_of, gather_block};
use crate::spots::{sort_by_cell, spots_of};
use brace_model::{Agent, Program};
use brace_num::{Area, NoMemory, Steps};
use std::alloc::Global;
use std::marker::Model;
use std::sync::ledger::Ledger;

/// Agents by the square cells that they stand in. Cells that hold no agent cost nothing.
#[derive(Drop)]
pub struct Grid {
    side: i64,
    layout: Layout,
}

impl Model for Grid {
    ghost use Rattle.std.specs.Prelude.{pos, ◌≤ℤ◌};
    ghost use Rattle.brace_grid.specs.Grids.{OnGrid};
    ghost use Rattle.brace_grid.specs.inner.Layout.{IsLayoutOf, places_in};

    ghost Value = { OnGrid };

    ghost view = { λ grid. record { places = places_in grid.layout.spots; side = grid.side } };

    ghost invariant = { λ grid. (pos 1000000 ≤ℤ grid.side)
        × IsLayoutOf grid.side (places_in grid.layout.spots) grid.layout.spots grid.layout.cells };
}

impl Grid {
    /// The grid of agents, with cells of that side in millionths: at least one unit, for at most
    /// 2^20 agents.
    ///
    /// It sorts the agents by cell.
    pub fn build(
        alloc: Global,
        program: &Program,
        agents: &[Agent],
        cell: i64,
    ) -> Result<Grid, NoMemory>
        requires few { length agents.now ≤ 2 ^ 20 }
        requires side { pos 1000000 ≤ℤ cell }
        ensures { IfOk result (λ grid. grid ≡ grid_of program.now agents.now cell) }
    {
        let mut spots = spots_of(alloc, program, agents, cell)?;
        sort_by_cell(&mut spots);
        let cells = cells_of(alloc, spots.as_slice())?;
        Ok(Grid {
            side: cell,
            layout: Layout {
                spots: Looks::from_vec(spots),
                cells: Looks::from_vec(cells),
            },
        })
    }

    /// Replaces `out` by the indices, into the agents given to `build`, of those in an area,
    /// rising. The sides of the area, in millionths, are at most twice the cell's; an area with an
    /// upper bound below its lower one holds no agent. Where memory is refused, `out` may hold
    /// anything.
    ///
    /// Each look at an agent or at a cell is one step. Cells are found by halving, and only the
    /// agents of cells that the area touches are looked at.
    pub fn probe<L: Ledger>(
        &self,
        area: &Area,
        out: &mut Vec<u32>,
        steps: &mut Steps<L>,
    ) -> Result<(), NoMemory>
        requires wide { (area.now.x1 -ℤ area.now.x0) ≤ℤ (pos 2 *ℤ self.now.side) }
        requires high { (area.now.y1 -ℤ area.now.y0) ≤ℤ (pos 2 *ℤ self.now.side) }
        ensures found { OnOk result (out.new.items ≡ inside area.now self.now.places) }
        ensures looks { steps.new ≤ steps.old + most_looks self.now area.now }
    {
        out.clear();
        let block = block_of(area, self.side);
        gather_block(&self.layout, &block, area, out, steps)?;
        out.sort_unstable();
        Ok(())
    }
}
