//! Agents of columns, packed.
ghost use Rattle.std.specs.Prelude.{◌≡◌, ◌++◌, [], ◌∷◌, length, map, IfOk, OnOk};
ghost use Rattle.std.specs.List.{range_with_len};
ghost use Rattle.std.specs.List.Sorted.{IsPermutation};
ghost use Rattle.brace_model.specs.declared.program.Program.{Program};
ghost use Rattle.brace_fold.specs.Listed.{agents_in};
ghost use Rattle.brace_fold.specs.Rows.{by_id};
ghost use Rattle.brace_herd.specs.inner.Packing.{agent_at, types_in, words_at};

use crate::near::{item_or, rows_by_id};
use brace_fold::{Moved, Redo, rows_from};
use brace_model::{Class, Herd, Program, Ty};
use brace_num::{List, NoMemory};
use std::alloc::Global;

/// How many agents have their words in one block. Blocks of this length find room again where
/// columns and sums went.
const MANY: usize = 16_384;

/// The types of the states of a class.
fn types_of(alloc: Global, class: &Class) -> Result<List<Ty>, NoMemory>
    ensures { IfOk result (λ types. types ≡ map (λ s. s.ty) class.now.states) }
{
    let mut types = List::new(alloc);
    for state in class.states.as_slice() {
        types.push(state.ty)?;
    }
    Ok(types)
}

/// The types of the states of each class.
fn types_in(alloc: Global, program: &Program) -> Result<Vec<List<Ty>>, NoMemory>
    ensures { IfOk result (λ all. all.items ≡ types_in program.now) }
{
    let mut all = Vec::new(alloc);
    for class in program.classes.as_slice() {
        let types = types_of(alloc, class)?;
        all.push(types)?;
    }
    Ok(all)
}

/// The rows of columns of some ids, by rising id.
fn rows_of(alloc: Global, ids: &[u64]) -> Result<Vec<u32>, Redo>
    ensures { IfOk result (λ rows.
        IsPermutation (range_with_len 0 (length ids.now)) rows.items) }
{
    let rows = rows_from(alloc, 0, ids.len())?;
    let sorted = rows_by_id(ids, rows)?;
    Ok(sorted)
}

/// Replaces words by those that the first columns, so many, have in a row.
fn read_words(
    states: &[List<i64>],
    count: usize,
    row: u32,
    words: &mut Vec<i64>,
) -> Result<(), NoMemory>
    ensures { OnOk result (words.new.items ≡ words_at states.now row count) }
{
    words.clear();
    for i in 0..count {
        let Some(column) = states.get(i) else {
            return Err(NoMemory);
        };
        words.push(item_or(column.as_slice(), row, 0))?;
    }
    Ok(())
}

/// Adds the agent of a row, by way of words that are not needed any more.
fn push_row(
    herd: &mut Herd,
    types: &[List<Ty>],
    own: &Moved,
    row: u32,
    words: &mut Vec<i64>,
) -> Result<(), NoMemory>
    ensures { OnOk result ((program : Program) → types.now ≡ types_in program
        → herd.new ≡ herd.old ++ agent_at program own.now row ∷ []) }
{
    let class = item_or(own.classes.as_slice(), row, 0);
    let id = item_or(own.ids.as_slice(), row, 0);
    let Some(types) = types.get(class as usize) else {
        return Err(NoMemory);
    };
    let types = types.as_slice();
    read_words(own.states.as_slice(), types.len(), row, words)?;
    herd.push(class, id, types, words)
}

/// Adds the agents of some rows.
fn push_rows(
    herd: &mut Herd,
    types: &[List<Ty>],
    own: &Moved,
    rows: &[u32],
    words: &mut Vec<i64>,
) -> Result<(), NoMemory>
    ensures { OnOk result ((program : Program) → types.now ≡ types_in program
        → herd.new ≡ herd.old ++ map (agent_at program own.now) rows.now) }
{
    for row in rows {
        push_row(herd, types, own, *row, words)?;
    }
    Ok(())
}

/// The agents of some rows, packed, with the words of so many in one block for each class.
fn rows_packed(
    alloc: Global,
    types: &[List<Ty>],
    own: &Moved,
    rows: &[u32],
) -> Result<Herd, NoMemory>
    ensures { IfOk result (λ herd. (program : Program) → types.now ≡ types_in program
        → herd ≡ map (agent_at program own.now) rows.now) }
{
    let mut herd = Herd::with_room(alloc, rows.len(), 0)?;
    let mut words = Vec::new(alloc);
    let mut left = rows;
    while !left.is_empty() {
        let (some, rest) = left.split_at(left.len().min(MANY));
        let values = some.len().saturating_mul(own.states.len());
        let mut few = Herd::with_room(alloc, some.len(), values)?;
        push_rows(&mut few, types, own, some, &mut words)?;
        herd.append(few)?;
        left = rest;
    }
    Ok(herd)
}

/// The agents of some rows of columns, packed.
pub fn picked(alloc: Global, program: &Program, own: &Moved, rows: &[u32]) -> Result<Herd, NoMemory>
    ensures { IfOk result (λ herd. herd ≡ map (agent_at program.now own.now) rows.now) }
{
    let types = types_in(alloc, program)?;
    let herd = rows_packed(alloc, &types, own, rows)?;
    Ok(herd)
}

/// The agents of columns by rising id, packed; `NoMemory` where two have one id.
pub fn packed(alloc: Global, program: &Program, own: &Moved) -> Result<Herd, NoMemory>
    ensures { IfOk result (λ herd. herd ≡ by_id (agents_in program.now own.now)) }
{
    let types = types_in(alloc, program)?;
    let Ok(rows) = rows_of(alloc, own.ids.as_slice()) else {
        return Err(NoMemory);
    };
    let herd = rows_packed(alloc, &types, own, &rows)?;
    if herd.rises() {
        Ok(herd)
    } else {
        Err(NoMemory)
    }
}
