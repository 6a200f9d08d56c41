ghost use Rattle.std.specs.Prelude.{◌≡◌, ◌++◌, Some, length, slice_get, IfOk};
ghost use Rattle.brace_fold.specs.Rows.{AreMoved, HasRoom, row_in, rows_in};

use crate::columns::{
    Columns, class_column, class_in, each, id_column, most_states, state_columns, states_of,
};
use crate::order::Moved;
use crate::surviving::agent_in;
use brace_code::Redo;
use brace_model::{Agent, Program};
use std::alloc::Global;

/// The agents of a list and then those of another in columns, as many as any class of a program has
/// states.
pub fn columns_of(
    alloc: Global,
    program: &Program,
    first: &[Agent],
    rest: &[Agent],
) -> Result<Moved, Redo>
    ensures rows { IfOk result (AreMoved (first.now ++ rest.now)) }
    ensures wide { IfOk result (λ moved. HasRoom program.now (length moved.states.items)) }
{
    let mut rows = each(alloc, first)?;
    let mut more = each(alloc, rest)?;
    rows.append(&mut more)?;
    let values = states_of(alloc, &rows)?;
    Ok(Moved {
        classes: class_column(alloc, &rows)?,
        ids: id_column(alloc, &rows)?,
        states: state_columns(alloc, &values, most_states(program)?)?,
    })
}

/// The agent of a row.
fn agent_at(alloc: Global, program: &Program, columns: &Columns, row: u32) -> Result<Agent, Redo>
    ensures is { IfOk result (λ a. a ≡ row_in program.now columns.now row) }
    ensures there { IfOk result (λ a. slice_get (rows_in program.now columns.now) row ≡ Some a) }
{
    let Some(number) = class_in(columns, row) else {
        return Err(Redo);
    };
    let Some(class) = program.classes.as_slice().get(number as usize) else {
        return Err(Redo);
    };
    let agent = agent_in(class, number, columns, row, Vec::new(alloc))?;
    Ok(agent)
}

/// The agents of columns, row by row.
pub fn agents_of(alloc: Global, program: &Program, columns: &Columns) -> Result<Vec<Agent>, Redo>
    ensures { IfOk result (λ agents. agents.items ≡ rows_in program.now columns.now) }
{
    let mut agents = Vec::with_capacity(alloc, columns.ids.len())?;
    for k in 0..columns.ids.len() {
        let Ok(row) = u32::try_from(k) else {
            return Err(Redo);
        };
        let agent = agent_at(alloc, program, columns, row)?;
        agents.push(agent)?;
    }
    Ok(agents)
}
