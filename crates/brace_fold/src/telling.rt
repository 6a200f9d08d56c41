ghost use Rattle.std.specs.Prelude.{◌≡◌, ◌<◌, ℕ, ℤ, List, Some, pos, length, map, slice_get, slice_index_or, IfOk, IfSome};
ghost use Rattle.std.specs.List.{All};
ghost use Rattle.brace_model.specs.declared.program.Program.{Program};
ghost use Rattle.brace_model.specs.declared.world.Agent.{Agent};
ghost use Rattle.brace_model.specs.Query.{Saying};
ghost use Rattle.brace_model.specs.Total.{identity};
ghost use Rattle.brace_model.specs.World.{class_of};
ghost use Rattle.brace_eval.specs.Heard.{row_of};
ghost use Rattle.brace_fold.specs.Asked.{by_row};
ghost use Rattle.brace_fold.specs.Sums.{AreSummed, no_sum, sum_at, total_in};

use crate::packed::Packed;
use crate::table::{Sum, Table, narrow};
use brace_code::{Redo, are_within};
use brace_comb::identity;
use brace_model::{Class, Comb};
use brace_num::List;
use std::alloc::Global;

/// The sums of an effect, row by row.
fn sums_of<'a>(said: &'a Table, effect: usize) -> Option<&'a [Packed]>
    ensures rows { IfSome result (λ sums. length sums.now ≡ said.now.rows) }
    ensures sums { IfSome result (λ sums. (row : ℕ) → row < said.now.rows
        → slice_index_or sums.now row no_sum ≡ sum_at said.now effect row) }
{
    let sums = said.sums.get(effect)?.as_slice();
    (sums.len() == said.rows).then_some(sums)
}

/// The total whose sum this is; of no value, the one that is given.
fn total_in(none: i64, sum: Sum) -> i64
    ensures { result ≡ total_in none sum }
{
    if sum.count == 0 { none } else { sum.number }
}

/// The totals of a combinator in some rows, by the sums of all.
fn total_column(alloc: Global, comb: Comb, sums: &[Packed], rows: &[u32]) -> Result<List<i64>, Redo>
    ensures words { IfOk result (λ words. words
        ≡ map (λ row. total_in (identity comb) (slice_index_or sums.now row no_sum)) rows.now) }
    ensures within { IfOk result (λ _. (k : ℕ) → k < length rows.now
        → slice_index_or rows.now k 0 < length sums.now) }
{
    let none = narrow(identity(comb))?;
    if !are_within(rows, sums.len()) {
        return Err(Redo);
    }
    let mut words = Vec::with_capacity(alloc, rows.len())?;
    for row in rows {
        let sum = sums[*row as usize].sum();
        words.push_reserved(total_in(none, sum));
    }
    Ok(List::from_vec(words))
}

/// The totals of the effects of a class in some rows.
pub fn told_columns(
    alloc: Global,
    own: &Class,
    said: &Table,
    rows: &[u32],
) -> Result<Vec<List<i64>>, Redo>
    ensures { IfOk result (λ columns. (program : Program) (agents : List Agent)
        (more : List Saying) → AreSummed program agents more said.now
        → All (λ a. class_of program a ≡ Some own.now) (by_row agents rows.now)
        → (i : ℕ) (column : List ℤ) → slice_get columns.items i ≡ Some column
        → column ≡ map (λ a. slice_index_or (row_of program more a) i (pos 0))
        (by_row agents rows.now)) }
{
    let effects = own.effects.as_slice();
    let mut columns = Vec::with_capacity(alloc, effects.len())?;
    for k in 0..effects.len() {
        let Some(effect) = effects.get(k) else {
            return Err(Redo);
        };
        let Some(sums) = sums_of(said, k) else {
            return Err(Redo);
        };
        let column = total_column(alloc, effect.comb, sums, rows)?;
        columns.push(column)?;
    }
    Ok(columns)
}
