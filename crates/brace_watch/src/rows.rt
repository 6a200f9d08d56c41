//! The agents of boxes, and their numbers, state by state.
ghost use Rattle.std.specs.Prelude.{◌≡◌, ◌<◌, ◌∷◌, [], ◌++◌, length, replicate, take, slice_index_or, IfOk, OnOk};
ghost use Rattle.std.specs.List.{All};
ghost use Rattle.brace_cuts.specs.Space.{LawfulCuts};
ghost use Rattle.brace_comb.specs.Totals.{tally};
ghost use Rattle.brace_watch.specs.declared.rows.Column.{Column};
ghost use Rattle.brace_watch.specs.Figures.{value_for, figure};
ghost use Rattle.brace_watch.specs.inner.Columns.{all_owned, number_for, numbers_of, IsColumn, tested};

use crate::Watch;
use crate::count::total_of;
use crate::member::Member;
use brace_comb::Total;
use brace_cuts::Cuts;
use brace_model::{Herd, Program};
use brace_num::NoMemory;
use std::alloc::Global;
use std::marker::Model;

/// The agents of a box, and the columns of theirs that were read. Contracts see the agents, in
/// their order.
#[derive(Drop)]
pub(crate) struct Rows<'a> {
    agents: Vec<Member<'a>>,
    columns: Vec<Column>,
}

/// The numbers that the agents of a class have in a state.
#[derive(Drop)]
struct Column {
    class: u32,
    field: Option<u32>,
    numbers: Vec<i64>,
}

impl<'a> Model for Rows<'a> {
    ghost use Rattle.std.specs.Prelude.{List};
    ghost use Rattle.std.specs.List.{All};
    ghost use Rattle.brace_model.specs.declared.world.Agent.{Agent};
    ghost use Rattle.brace_watch.specs.inner.Columns.{IsColumn};

    ghost Value = { List Agent };

    ghost view = { λ rows. rows.agents.items };

    ghost invariant = { λ rows. All (IsColumn rows.agents.items) rows.columns.items };
}

impl<'a> Rows<'a> {
    fn none(alloc: Global) -> Rows<'a>
        ensures { result ≡ [] }
    {
        Rows {
            agents: Vec::new(alloc),
            columns: Vec::new(alloc),
        }
    }

    /// One more agent, for whom all columns are read anew.
    fn add(&mut self, agent: Member<'a>) -> Result<(), NoMemory>
        ensures { OnOk result (self.new ≡ self.old ++ agent.entry ∷ []) }
    {
        self.columns.clear();
        self.agents.push(agent)?;
        Ok(())
    }

    /// The figure of a watch. A column that it needs is read once.
    pub(crate) fn figure(&mut self, alloc: Global, watch: &Watch) -> Result<Total, NoMemory>
        ensures figure { IfOk result (λ t. tally t ≡ figure watch.now self.old) }
        ensures kept { self.new ≡ self.old }
    {
        let agents = self.agents.as_slice();
        let tests = read_column(alloc, agents, &mut self.columns, watch.class, tested(watch))?;
        let values = read_column(alloc, agents, &mut self.columns, watch.class, watch.field)?;
        let tests = self.columns[tests].numbers.as_slice();
        let values = self.columns[values].numbers.as_slice();
        total_of(watch, tests, values).ok_or(NoMemory)
    }
}

/// The state that the condition of a watch is on.
fn tested(watch: &Watch) -> Option<u32>
    ensures { result ≡ tested watch.now.test }
{
    match watch.test {
        None => None,
        Some((place, _, _)) => Some(place),
    }
}

/// The place of the column of a class and a state, which is read where it is not there yet.
fn read_column(
    alloc: Global,
    agents: &[Member],
    columns: &mut Vec<Column>,
    class: u32,
    field: Option<u32>,
) -> Result<usize, NoMemory>
    requires { All (IsColumn agents.now) columns.old.items }
    ensures all { All (IsColumn agents.now) columns.new.items }
    ensures there { IfOk result (λ place. place < length columns.new.items) }
    ensures numbers { IfOk result (λ place. (d : Column)
        → (slice_index_or columns.new.items place d).numbers.items
        ≡ numbers_of class field agents.now) }
    ensures kept { take (length columns.old.items) columns.new.items ≡ columns.old.items }
{
    for (place, column) in columns.iter().enumerate() {
        if column.class == class && column.field == field {
            return Ok(place);
        }
    }
    let place = columns.len();
    columns.push(Column {
        class,
        field,
        numbers: numbers_of(alloc, agents, class, field)?,
    })?;
    Ok(place)
}

/// The numbers that the agents of a class have in a state, or any where none is asked for.
fn numbers_of(
    alloc: Global,
    agents: &[Member],
    class: u32,
    field: Option<u32>,
) -> Result<Vec<i64>, NoMemory>
    ensures { IfOk result (λ numbers. numbers.items
        ≡ numbers_of class field agents.now) }
{
    let mut numbers = Vec::with_capacity(alloc, agents.len())?;
    for agent in agents {
        if agent.class() == class {
            numbers.push(number_for(field, agent))?;
        }
    }
    Ok(numbers)
}

fn number_for(field: Option<u32>, agent: &Member) -> i64
    ensures { result ≡ number_for field agent.now }
{
    match field {
        None => 1,
        Some(state) => agent.number(state),
    }
}

/// The agents of each box that cuts make, by its number.
pub(crate) fn parted<'a>(
    alloc: Global,
    program: &Program,
    cuts: &Cuts,
    agents: &'a Herd,
) -> Result<Vec<Rows<'a>>, NoMemory>
    requires { LawfulCuts cuts.now }
    ensures { IfOk result (λ boxes. boxes.items ≡ all_owned program.now cuts.now agents.now) }
{
    let mut boxes = none_parted(alloc, cuts.parts())?;
    for place in 0..agents.len() {
        let agent = Member::of(agents, place);
        if let Some(class) = agent.class_in(program) {
            let owner = cuts.owner(agent.number(class.x), agent.number(class.y));
            let rows = &mut boxes[owner as usize];
            rows.add(agent)?;
        }
    }
    Ok(boxes)
}

fn none_parted<'a>(alloc: Global, boxes: u32) -> Result<Vec<Rows<'a>>, NoMemory>
    ensures { IfOk result (λ all. all.items ≡ replicate boxes []) }
{
    let mut all = Vec::with_capacity(alloc, boxes as usize)?;
    for _place in 0..boxes {
        all.push(Rows::none(alloc))?;
    }
    Ok(all)
}
