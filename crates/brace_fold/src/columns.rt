ghost use Rattle.std.specs.Prelude.{◌≡◌, ℕ, ℤ, List, Some, length, map, slice_get, IfOk, IfSome, OnOk};
ghost use Rattle.brace_model.specs.declared.world.Agent.{Agent};
ghost use Rattle.brace_model.specs.World.{number, value_at};
ghost use Rattle.brace_fold.specs.Rows.{AreColumns, HasRoom, IsWide};

use brace_code::Redo;
use brace_model::{Agent, Program, Value, number, value_at};
use brace_num::List;
use std::alloc::Global;

/// Agents in columns of words, one in each row.
#[derive(Clone, Copy)]
pub struct Columns<'a> {
    /// The number of the class of each.
    pub classes: &'a [u32],
    pub ids: &'a [u64],
    /// A column for each state, as many as any class has.
    pub states: &'a [&'a [i64]],
}

/// What a column has in a row.
pub fn item_at<T: Copy>(column: &[T], row: u32) -> Option<T>
    ensures { IfSome result (λ item. slice_get column.now row ≡ Some item) }
{
    column.get(row as usize).copied()
}

/// The word of a column in a row.
pub fn read(column: &[i64], row: u32) -> Result<i64, Redo>
    ensures { IfOk result (λ word. slice_get column.now row ≡ Some word) }
{
    match item_at(column, row) {
        Some(word) => Ok(word),
        None => Err(Redo),
    }
}

/// The class of a row, by number.
pub fn class_in(columns: &Columns, row: u32) -> Option<u32>
    ensures { IfSome result (λ number. slice_get columns.now.classes.now row ≡ Some number) }
{
    columns.classes.get(row as usize).copied()
}

/// The word of a state in a row.
pub fn word_in(columns: &Columns, state: u32, row: u32) -> Result<i64, Redo>
    ensures { IfOk result (λ word. (agents : List Agent) (a : Agent)
        → AreColumns agents columns.now → slice_get agents row ≡ Some a
        → word ≡ number (value_at a.states state)) }
{
    match columns.states.get(state as usize) {
        Some(column) => read(column, row),
        None => Err(Redo),
    }
}

/// Tells Redo where a class has more states than there are columns.
pub fn expect_wide(program: &Program, columns: &Columns) -> Result<(), Redo>
    ensures { OnOk result (IsWide program.now columns.now) }
{
    for class in program.classes.as_slice() {
        if class.states.as_slice().len() > columns.states.len() {
            return Err(Redo);
        }
    }
    Ok(())
}

/// How many states a class has at most; `Redo` where they are more than 32 bits number.
pub fn most_states(program: &Program) -> Result<u32, Redo>
    ensures { IfOk result (HasRoom program.now) }
{
    let mut most = 0;
    for class in program.classes.as_slice() {
        let Ok(states) = u32::try_from(class.states.as_slice().len()) else {
            return Err(Redo);
        };
        most = most.max(states);
    }
    Ok(most)
}

/// Each agent of a list.
pub fn each<'a>(alloc: Global, agents: &'a [Agent]) -> Result<Vec<&'a Agent>, Redo>
    ensures { IfOk result (λ rows. map (λ r. r.now) rows.items ≡ agents.now) }
{
    let mut rows = Vec::with_capacity(alloc, agents.len())?;
    for agent in agents {
        rows.push(agent)?;
    }
    Ok(rows)
}

/// The states of each agent.
pub fn states_of<'a>(alloc: Global, rows: &[&'a Agent]) -> Result<Vec<&'a [Value]>, Redo>
    ensures { IfOk result (λ states. map (λ s. s.now) states.items
        ≡ map (λ r. r.now.states) rows.now) }
{
    let mut states = Vec::with_capacity(alloc, rows.len())?;
    for agent in rows {
        states.push(agent.states.as_slice())?;
    }
    Ok(states)
}

/// A state of each agent.
fn state_column(alloc: Global, states: &[&[Value]], place: u32) -> Result<List<i64>, Redo>
    ensures { IfOk result (λ words.
        words ≡ map (λ s. number (value_at s.now place)) states.now) }
{
    let mut words = Vec::with_capacity(alloc, states.len())?;
    for values in states {
        words.push(number(value_at(values, place)))?;
    }
    Ok(List::from_vec(words))
}

/// The first states of each agent, so many.
pub fn state_columns(alloc: Global, states: &[&[Value]], count: u32) -> Result<Vec<List<i64>>, Redo>
    ensures many { IfOk result (λ columns. length columns.items ≡ count) }
    ensures each { IfOk result (λ columns. (i : ℕ) (column : List ℤ)
        → slice_get columns.items i ≡ Some column
        → column ≡ map (λ s. number (value_at s.now i)) states.now) }
{
    let mut columns = Vec::with_capacity(alloc, count as usize)?;
    for place in 0..count {
        let column = state_column(alloc, states, place)?;
        columns.push(column)?;
    }
    Ok(columns)
}

/// The id of each agent.
pub fn id_column(alloc: Global, rows: &[&Agent]) -> Result<Vec<u64>, Redo>
    ensures { IfOk result (λ ids. ids.items ≡ map (λ r. r.now.id) rows.now) }
{
    let mut ids = Vec::with_capacity(alloc, rows.len())?;
    for agent in rows {
        ids.push(agent.id)?;
    }
    Ok(ids)
}

/// The class of each agent, by number.
pub fn class_column(alloc: Global, rows: &[&Agent]) -> Result<Vec<u32>, Redo>
    ensures { IfOk result (λ classes. classes.items ≡ map (λ r. r.now.class) rows.now) }
{
    let mut classes = Vec::with_capacity(alloc, rows.len())?;
    for agent in rows {
        classes.push(agent.class)?;
    }
    Ok(classes)
}

/// Columns as slices.
pub fn views<'a>(alloc: Global, columns: &'a [List<i64>]) -> Result<Vec<&'a [i64]>, Redo>
    ensures { IfOk result (λ views. map (λ v. v.now) views.items ≡ columns.now) }
{
    let mut views = Vec::with_capacity(alloc, columns.len())?;
    for column in columns {
        views.push(column.as_slice())?;
    }
    Ok(views)
}
