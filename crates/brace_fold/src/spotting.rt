ghost use Rattle.std.specs.Prelude.{◌≡◌, List, Some, pos, ◌<ℤ◌, true, is_some, slice_get, IfOk};
ghost use Rattle.brace_model.specs.declared.world.Agent.{Agent};
ghost use Rattle.brace_model.specs.World.{class_of};
ghost use Rattle.brace_fold.specs.Rows.{AreColumns};
ghost use Rattle.brace_fold.specs.inner.Sights.{AreSpots, spot_of};

use crate::cells::{Spot, cell_number};
use crate::columns::{Columns, class_in, word_in};
use brace_code::Redo;
use brace_model::Program;
use std::alloc::Global;

/// Where the agent of a row stands, if it has a class of the program.
fn spot_in(program: &Program, columns: &Columns, row: u32, side: i64) -> Result<Spot, Redo>
    requires { pos 0 <ℤ side }
    ensures known { IfOk result (λ _. (agents : List Agent) (a : Agent)
        → AreColumns agents columns.now → slice_get agents row ≡ Some a
        → is_some (class_of program.now a) ≡ true) }
    ensures spot { IfOk result (λ spot. (agents : List Agent) (a : Agent)
        → AreColumns agents columns.now → slice_get agents row ≡ Some a
        → spot ≡ spot_of program.now side row a) }
{
    let Some(class) = class_in(columns, row) else {
        return Err(Redo);
    };
    let Some(own) = program.classes.as_slice().get(class as usize) else {
        return Err(Redo);
    };
    let x = word_in(columns, own.x, row)?;
    let y = word_in(columns, own.y, row)?;
    let Some(cell) = cell_number(x, y, side) else {
        return Err(Redo);
    };
    Ok(Spot {
        x,
        y,
        cell,
        class,
        place: row,
    })
}

/// Where agents stand, row by row.
pub fn spots_in(
    alloc: Global,
    program: &Program,
    columns: &Columns,
    side: i64,
) -> Result<Vec<Spot>, Redo>
    requires { pos 0 <ℤ side }
    ensures { IfOk result (λ spots. (agents : List Agent) → AreColumns agents columns.now
        → AreSpots program.now side agents spots.items) }
{
    let count = columns.ids.len();
    let mut spots = Vec::with_capacity(alloc, count)?;
    for i in 0..count {
        let Ok(row) = u32::try_from(i) else {
            return Err(Redo);
        };
        spots.push_reserved(spot_in(program, columns, row, side)?);
    }
    Ok(spots)
}
