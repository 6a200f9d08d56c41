ghost use Rattle.std.specs.Prelude.{◌≡◌, ◌<◌, [], length, replicate, slice_index_or, slice_set, IfOk, IfSome, OnOk, List};
ghost use Rattle.brace_model.specs.declared.program.Program.{Program};
ghost use Rattle.brace_model.specs.declared.world.Agent.{Agent};
ghost use Rattle.brace_comb.specs.Totals.{merged};
ghost use Rattle.brace_fold.specs.Sums.{AreSummed, IsJoined, no_sum, sum_at, summed};

use crate::packed::Packed;
use brace_code::Redo;
use brace_model::Comb;
use std::alloc::Global;
use std::marker::Model;

/// The number of a total of values, and how many they are; of none the number stands for nothing.
#[derive(Clone, Copy, Drop)]
pub struct Sum {
    pub number: i64,
    pub count: u32,
}

/// The sums of an effect, row by row. Contracts see the list.
#[derive(Drop)]
pub struct EffectSums {
    sums: Vec<Packed>,
}

impl Model for EffectSums {
    ghost use Rattle.std.specs.Prelude.{List};
    ghost use Rattle.brace_fold.specs.declared.table.Sum.{Sum};

    ghost Value = { List Sum };

    ghost view = { λ e. e.sums.items };
}

/// What was said to agents, row by row.
#[derive(Drop)]
pub struct Table {
    /// How many rows there are.
    pub rows: usize,
    /// The sums of each effect.
    pub sums: Vec<EffectSums>,
}

/// The number of a total, where 64 bits hold it.
pub fn narrow(number: i128) -> Result<i64, Redo>
    ensures { IfOk result (λ n. n ≡ number) }
{
    match i64::try_from(number) {
        Ok(n) => Ok(n),
        Err(_) => Err(Redo),
    }
}

/// The numbers of two totals of a combinator in one; None where 64 bits do not hold it.
// Inlined, as what calls it, where the combinator is known.
#[inline(always)]
fn merged(comb: Comb, number: i64, more: i64) -> Option<i64>
    ensures { IfSome result (λ n. n ≡ merged comb number more) }
{
    match comb {
        Comb::Sum | Comb::Count => number.checked_add(more),
        Comb::Min => Some(number.min(more)),
        Comb::Max | Comb::Or => Some(number.max(more)),
    }
}

/// A sum and the total of so many values more.
#[inline(always)]
fn summed(comb: Comb, sum: Sum, number: i64, count: u32) -> Result<Sum, Redo>
    ensures { IfOk result (λ s. s ≡ summed comb sum number count) }
{
    let Some(count) = sum.count.checked_add(count) else {
        return Err(Redo);
    };
    if sum.count == 0 {
        return Ok(Sum { number, count });
    }
    let Some(number) = merged(comb, sum.number, number) else {
        return Err(Redo);
    };
    Ok(Sum { number, count })
}

impl EffectSums {
    /// The sums of an effect of which nothing was said, in so many rows.
    fn nothing(alloc: Global, rows: usize) -> Result<EffectSums, Redo>
        ensures { IfOk result (λ sums. sums ≡ replicate rows no_sum) }
    {
        let none = Packed::of(Sum {
            number: 0,
            count: 0,
        });
        let sums = vec![in alloc; none; rows]?;
        Ok(EffectSums { sums })
    }

    /// The sums.
    pub fn as_slice(&self) -> &[Packed]
        ensures { result.now ≡ self.now }
    {
        self.sums.as_slice()
    }

    /// Joins the total of so many values to the sum of a row.
    #[inline(always)]
    fn join(&mut self, row: u32, comb: Comb, number: i64, count: u32) -> Result<(), Redo>
        ensures row { OnOk result (row < length self.old) }
        ensures sums { OnOk result (self.new ≡ slice_set self.old row
            (summed comb (slice_index_or self.old row no_sum) number count)) }
    {
        let row = row as usize;
        if row >= self.sums.len() {
            return Err(Redo);
        }
        let sum = summed(comb, self.sums[row].sum(), number, count)?;
        self.sums[row] = Packed::of(sum);
        Ok(())
    }
}

impl Table {
    /// The table of so many rows and effects to which nothing was said.
    pub fn nothing(alloc: Global, rows: usize, effects: usize) -> Result<Table, Redo>
        ensures { IfOk result (λ table. (program : Program) (agents : List Agent)
            → rows ≡ length agents → AreSummed program agents [] table) }
    {
        let mut sums = Vec::with_capacity(alloc, effects)?;
        for _ in 0..effects {
            sums.push(EffectSums::nothing(alloc, rows)?)?;
        }
        Ok(Table { rows, sums })
    }

    /// The sum of an effect of a row.
    pub fn sum(&self, effect: u32, row: u32) -> Option<Sum>
        ensures { IfSome result (λ sum. sum ≡ sum_at self.now effect row) }
    {
        let sums = self.sums.get(effect as usize)?;
        let sum = sums.as_slice().get(row as usize)?;
        Some(sum.sum())
    }

    /// Joins the total of so many values to an effect of a row.
    #[inline(always)]
    pub fn join(
        &mut self,
        effect: u32,
        row: u32,
        comb: Comb,
        number: i64,
        count: u32,
    ) -> Result<(), Redo>
        ensures { OnOk result (IsJoined comb effect row number count self.old self.new) }
    {
        let effect = effect as usize;
        if effect >= self.sums.len() {
            return Err(Redo);
        }
        self.sums[effect].join(row, comb, number, count)?;
        Ok(())
    }
}
