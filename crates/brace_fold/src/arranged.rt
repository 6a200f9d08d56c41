ghost use Rattle.std.specs.Prelude.{◌≤◌, ◌^◌, ◌≡◌, ◌++◌, [], List, filter, length, nat_lt, IfOk, OnOk};
ghost use Rattle.std.specs.List.{range_with_len};
ghost use Rattle.brace_model.specs.declared.world.Agent.{Agent};
ghost use Rattle.brace_model.specs.Query.{Saying};
ghost use Rattle.brace_eval.specs.Heard.{said_by, faults_by};
ghost use Rattle.brace_fold.specs.Arranged.{AreArranged, in_places};
ghost use Rattle.brace_fold.specs.Asked.{by_row};
ghost use Rattle.brace_fold.specs.Rows.{AreRows, IsPicked, by_id, rows_in};
ghost use Rattle.brace_fold.specs.Sums.{AreSummed};
ghost use Rattle.brace_fold.specs.inner.Asks.{AsksIn};

use crate::asking::ask_sorted;
use crate::cells::{Cells, Sorted};
use crate::columns::{Columns, expect_wide, views};
use crate::order::{Moved, places_at, places_before, places_from, rows_from};
use crate::table::Table;
use brace_code::Redo;
use brace_model::Program;
use brace_plan::{Plans, greatest_visible};
use std::alloc::Global;

/// The least side of cells: one unit, in millionths.
const UNIT: i64 = 1_000_000;

/// Agents in the order of square cells, in which queries are asked.
#[derive(Drop)]
pub struct Arranged {
    /// The row from which the agent at each place came.
    pub order: Vec<u32>,
    /// The agents, place by place.
    pub rows: Moved,
    pub cells: Cells,
}

impl Arranged {
    /// The agents of columns in the order of cells. It takes least time where they nearly stand so.
    pub fn of(alloc: Global, program: &Program, columns: &Columns) -> Result<Arranged, Redo>
        requires { AreRows program.now columns.now }
        ensures { IfOk result (AreArranged program.now (rows_in program.now columns.now)) }
    {
        let side = greatest_visible(program).max(UNIT);
        let sorted = Sorted::of(alloc, program, columns, side)?;
        let rows = Moved::of(alloc, columns, &sorted.order, 0)?;
        Ok(Arranged {
            order: sorted.order,
            rows,
            cells: sorted.cells,
        })
    }

    /// The places of the agents of the first rows, so many: they rise.
    pub fn first(&self, alloc: Global, count: usize) -> Result<Vec<u32>, Redo>
        ensures { IfOk result (λ places. IsPicked places.items self.now.order.items
            (filter (λ row. nat_lt row count) self.now.order.items)) }
    {
        let places = places_before(alloc, &self.order, count)?;
        Ok(places)
    }

    /// The places of the agents of rows from one on, so many, row by row.
    pub fn rest(&self, alloc: Global, from: usize, count: usize) -> Result<Vec<u32>, Redo>
        ensures { IfOk result (λ places.
            IsPicked places.items self.now.order.items (range_with_len from count)) }
    {
        let rows = rows_from(alloc, from, count)?;
        let known = places_from(alloc, &self.order, from)?;
        let places = places_at(alloc, &self.order, &known, from, &rows)?;
        Ok(places)
    }

    /// All places.
    pub fn all(&self, alloc: Global) -> Result<Vec<u32>, Redo>
        ensures { IfOk result (λ places.
            places.items ≡ range_with_len 0 (length self.now.order.items)) }
    {
        let places = rows_from(alloc, 0, self.order.len())?;
        Ok(places)
    }

    /// Asks the agents at some places.
    pub(crate) fn ask_in(
        &self,
        alloc: Global,
        plans: &Plans,
        program: &Program,
        seed: u64,
        tick: u64,
        asking: &[u32],
        said: &mut Table,
    ) -> Result<(), Redo>
        requires program { program.now ≡ plans.now }
        requires agents { (agents : List Agent) × AreArranged program.now agents self.now }
        requires ticks { tick ≤ 2 ^ 32 }
        ensures { OnOk result ((agents : List Agent) (d : Agent)
            → AreArranged program.now agents self.now → AsksIn program.now seed tick
            (in_places agents self.now) d asking.now said.old said.new) }
    {
        let states = views(alloc, &self.rows.states)?;
        let columns = self.rows.as_columns(&states);
        expect_wide(program, &columns)?;
        ask_sorted(
            alloc,
            plans,
            program,
            seed,
            tick,
            &columns,
            &self.cells,
            asking,
            said,
        )
    }

    /// Joins to what was said all that the queries of the agents at some places say, over all
    /// agents as if they were the world, with the draws of a seed. What was said is lost on `Redo`,
    /// which says nothing: a query may have faulted, or a total needs more than 64 bits, or memory
    /// was refused.
    ///
    /// The agents are lawful ones of the program, no two with one id, and the tick is at most 2^32.
    pub fn ask(
        &self,
        alloc: Global,
        plans: &Plans,
        seed: u64,
        tick: u64,
        asking: &[u32],
        said: &mut Table,
    ) -> Result<(), Redo>
        requires agents { (agents : List Agent) × AreArranged plans.now agents self.now }
        requires ticks { tick ≤ 2 ^ 32 }
        ensures said { OnOk result ((agents : List Agent) (before : List Saying)
            → AreArranged plans.now agents self.now
            → AreSummed plans.now (in_places agents self.now) before said.old
            → AreSummed plans.now (in_places agents self.now)
            (before ++ said_by plans.now seed tick (by_id agents)
            (by_row (in_places agents self.now) asking.now)) said.new) }
        ensures quiet { OnOk result ((agents : List Agent) → AreArranged plans.now agents self.now
            → faults_by plans.now seed tick (by_id agents)
            (by_row (in_places agents self.now) asking.now) ≡ []) }
    {
        let program = plans.program();
        self.ask_in(alloc, plans, program, seed, tick, asking, said)
    }
}
