ghost use Rattle.std.specs.Prelude.{◌≡◌, ◌≤◌, ℕ, ℤ, List, Some, pos, map, length, take, slice_get, slice_index_or, IfOk, IfSome};
ghost use Rattle.std.specs.List.{All};
ghost use Rattle.brace_fold.specs.inner.Rulings.{AreLanes};

use brace_code::{Lane, Lanes, Redo, Rows};
use brace_model::Agent;
use brace_num::List;
use std::alloc::Global;

/// How many agents are renewed at once.
const MANY: usize = 512;

/// How many of the first agents are of a class; no more than are renewed at once.
pub fn of_class(agents: &[Agent], class: u32) -> usize
    ensures within { result ≤ length agents.now }
    ensures alike { All (λ a. a.class ≡ class) (take result agents.now) }
{
    let many = agents.len().min(MANY);
    for k in 0..many {
        if agents[k].class != class {
            return k;
        }
    }
    many
}

/// A lane for each of so many agents, whose words stand in a row each.
pub fn lanes_of(count: usize) -> Lanes
    ensures { AreLanes count result }
{
    let (this, place) = (Rows::Number, Rows::Number);
    Lanes::of(count, this, Rows::Same(0), Rows::Same(0), place)
}

/// The lane of a number.
#[inline(always)]
pub fn lane_at(lanes: &Lanes, number: usize) -> Result<Lane, Redo>
    ensures { IfOk result (λ lane. slice_get lanes.now number ≡ Some lane) }
{
    let Ok(number) = u32::try_from(number) else {
        return Err(Redo);
    };
    match lanes.get(number) {
        Some(lane) => Ok(lane),
        None => Err(Redo),
    }
}

/// The total of an effect, where it fits a word.
fn total(row: &[i128], effect: u32) -> Option<i64>
    ensures { IfSome result (λ word. word ≡ slice_index_or row.now effect (pos 0)) }
{
    let total = row.get(effect as usize).copied().unwrap_or(0);
    i64::try_from(total).ok()
}

/// The total of an effect in each row.
fn total_column(alloc: Global, rows: &[&[i128]], effect: u32) -> Result<List<i64>, Redo>
    ensures { IfOk result (λ words.
        words ≡ map (λ r. slice_index_or r.now effect (pos 0)) rows.now) }
{
    let mut words = Vec::with_capacity(alloc, rows.len())?;
    for row in rows {
        let Some(word) = total(row, effect) else {
            return Err(Redo);
        };
        words.push(word)?;
    }
    Ok(List::from_vec(words))
}

/// The totals of the first effects in each row, so many.
pub fn total_columns(alloc: Global, rows: &[&[i128]], count: u32) -> Result<Vec<List<i64>>, Redo>
    ensures { IfOk result (λ columns. (i : ℕ) (column : List ℤ)
        → slice_get columns.items i ≡ Some column
        → column ≡ map (λ r. slice_index_or r.now i (pos 0)) rows.now) }
{
    let mut columns = Vec::with_capacity(alloc, count as usize)?;
    for effect in 0..count {
        let column = total_column(alloc, rows, effect)?;
        columns.push(column)?;
    }
    Ok(columns)
}
