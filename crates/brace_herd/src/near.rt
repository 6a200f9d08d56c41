ghost use Rattle.std.specs.Prelude.{◌≡◌, ℕ, ℤ, ◌<◌, ◌≤◌, ◌+◌, ◌++◌, [], ◌∷◌, List, Some, Bool, pos, ◌≤ℤ◌, filter, if◌then◌else◌, length, slice_get, slice_index_or, IsTrue, IfOk, IfSome, IfNone};
ghost use Rattle.std.specs.Bool.{OnTrue};
ghost use Rattle.std.specs.List.{All, list_all};
ghost use Rattle.std.specs.List.Sorted.{IsNonDecreasingBy, IsPermutation};
ghost use Rattle.std.specs.Vec.{vec_len, vec_capacity};
ghost use Rattle.brace_num.specs.declared.kinds.Area.{Area};
ghost use Rattle.brace_model.specs.declared.program.Program.{Program};
ghost use Rattle.brace_model.specs.declared.world.Agent.{Agent};
ghost use Rattle.brace_model.specs.Lawful.{is_lawful_agent};
ghost use Rattle.brace_model.specs.World.{RisesById};
ghost use Rattle.brace_cuts.specs.declared.space.Cuts.{Cuts};
ghost use Rattle.brace_cuts.specs.Space.{LawfulCuts, area_of, parts_of};
ghost use Rattle.brace_fold.specs.declared.order.Moved.{Moved};
ghost use Rattle.brace_fold.specs.Listed.{AreListed, AreStored, agents_in};
ghost use Rattle.brace_fold.specs.Rows.{AreMoved};
ghost use Rattle.brace_invert.specs.Held.{is_near};
ghost use Rattle.brace_pieces.specs.Owned.{owned, owns};
ghost use Rattle.brace_herd.specs.Placed.{ArePlaces};
ghost use Rattle.brace_herd.specs.inner.Near.{AreAxes, AreNear, IsWidened, StandsFit, has_point};

use crate::packing::picked;
use brace_cuts::Cuts;
use brace_fold::{Moved, Redo, columns_of};
use brace_model::{Agent, Area, Herd, Program};
use brace_num::NoMemory;
use std::alloc::Global;

/// Where the agents of a class stand, in millionths: columns of x and of y.
#[derive(Clone, Copy)]
pub struct Axes<'a> {
    pub class: u32,
    pub xs: &'a [i64],
    pub ys: &'a [i64],
}

/// The number at a place of a column.
pub fn number_at(numbers: &[u32], place: usize) -> Option<u32>
    ensures some { IfSome result (λ number. slice_get numbers.now place ≡ Some number) }
    ensures none { IfNone result (length numbers.now ≤ place) }
{
    numbers.get(place).copied()
}

/// What a column has in a row.
pub fn item_at<T: Copy>(column: &[T], row: usize) -> Option<T>
    ensures { IfSome result (λ item. slice_get column.now row ≡ Some item) }
{
    column.get(row).copied()
}

/// A column of states of a number, of as many rows as there are.
fn column(rows: &Moved, state: usize) -> Result<&[i64], Redo>
    ensures is { IfOk result (λ column. slice_get rows.now.states.items state ≡ Some column.now) }
    ensures long { IfOk result (λ column. length column.now ≡ length rows.now.classes.items) }
{
    let Some(column) = rows.states.get(state) else {
        return Err(Redo);
    };
    let column = column.as_slice();
    if column.len() != rows.classes.len() {
        return Err(Redo);
    }
    Ok(column)
}

/// The columns of x and of y of a class of a number.
fn axes_of<'a>(program: &Program, rows: &'a Moved, number: u32) -> Result<Axes<'a>, Redo>
    ensures class { IfOk result (λ axes. axes.class ≡ number) }
    ensures axes { IfOk result (AreAxes program.now rows.now) }
{
    let Some(own) = program.classes.as_slice().get(number as usize) else {
        return Err(Redo);
    };
    let xs = column(rows, own.x as usize)?;
    let ys = column(rows, own.y as usize)?;
    Ok(Axes {
        class: number,
        xs,
        ys,
    })
}

/// The columns of a class, where those of another one may be known.
fn led<'a>(
    program: &Program,
    rows: &'a Moved,
    axes: Axes<'a>,
    number: u32,
) -> Result<Axes<'a>, Redo>
    requires { AreAxes program.now rows.now axes }
    ensures class { IfOk result (λ led. led.class ≡ number) }
    ensures axes { IfOk result (AreAxes program.now rows.now) }
{
    if axes.class == number {
        return Ok(axes);
    }
    let axes = axes_of(program, rows, number)?;
    Ok(axes)
}

/// The area of the points within a range of another one.
pub fn widened(area: &Area, range: i64) -> Area
    requires { pos 0 ≤ℤ range }
    ensures { IsWidened area.now range result }
{
    let (x0, x1) = (area.x0.saturating_sub(range), area.x1.saturating_add(range));
    let (y0, y1) = (area.y0.saturating_sub(range), area.y1.saturating_add(range));
    Area { x0, x1, y0, y1 }
}

/// Whether a point is in an area.
fn is_in(area: &Area, x: i64, y: i64) -> bool
    ensures { result ≡ has_point area.now x y }
{
    let along = (area.x0 <= x) & (x <= area.x1);
    let up = (area.y0 <= y) & (y <= area.y1);
    along & up
}

/// Whether the agent of a row stands in an area: within a range of the one that it widens.
fn is_near_at(axes: &Axes, wide: &Area, row: usize) -> bool
    requires xs { row < length axes.now.xs.now }
    requires ys { row < length axes.now.ys.now }
    ensures near { (program : Program) (rows : Moved) (agents : List Agent) (a : Agent)
        (area : Area) (range : ℤ) → AreAxes program rows axes.now → AreMoved agents rows
        → slice_get agents row ≡ Some a → a.class ≡ axes.now.class
        → IsWidened area range wide.now → result ≡ is_near program area range a }
    ensures fit { (program : Program) (rows : Moved) (agents : List Agent) (a : Agent)
        → AreAxes program rows axes.now → AreMoved agents rows → slice_get agents row ≡ Some a
        → a.class ≡ axes.now.class → StandsFit program a }
{
    is_in(wide, axes.xs[row], axes.ys[row])
}

/// Whether a part of an area owns the agent of a row, which is of a class of a number.
pub fn owns_at(
    program: &Program,
    rows: &Moved,
    area: &Area,
    number: u32,
    row: u32,
) -> Result<bool, Redo>
    ensures { IfOk result (λ theirs. (cuts : Cuts) (part : ℕ) (agents : List Agent) (a : Agent)
        → LawfulCuts cuts → part < parts_of cuts → IsWidened (area_of cuts part) (pos 0) area.now
        → AreMoved agents rows.now → slice_get agents row ≡ Some a → a.class ≡ number
        → theirs ≡ owns program.now cuts part a) }
{
    let axes = axes_of(program, rows, number)?;
    let row = row as usize;
    if row >= axes.xs.len() || row >= axes.ys.len() {
        return Err(Redo);
    }
    Ok(is_near_at(&axes, area, row))
}

/// Adds a row that is wanted, where there is room.
fn add_near(near: &mut Vec<u32>, row: u32, wanted: bool)
    requires { vec_len near.old < vec_capacity near.old }
    ensures items { near.new.items ≡ near.old.items ++ (if wanted then row ∷ [] else []) }
    ensures len { vec_len near.new ≤ vec_len near.old + 1 }
    ensures room { vec_capacity near.new ≡ vec_capacity near.old }
{
    if wanted {
        near.push_reserved(row);
    }
}

/// The rows of the agents that stand in a widened area: within the range of the area that it was.
fn rows_near(alloc: Global, program: &Program, rows: &Moved, wide: &Area) -> Result<Vec<u32>, Redo>
    ensures { IfOk result (λ near. (area : Area) (range : ℤ) (agents : List Agent)
        → IsWidened area range wide.now → AreMoved agents rows.now
        → AreNear program.now area range agents agents near.items) }
{
    let classes = rows.classes.as_slice();
    let mut near = Vec::with_capacity(alloc, classes.len())?;
    let Some(first) = number_at(classes, 0) else {
        return Ok(near);
    };
    let Ok(count) = u32::try_from(classes.len()) else {
        return Err(Redo);
    };
    let mut axes = axes_of(program, rows, first)?;
    for row in 0..count {
        let known = led(program, rows, axes, classes[row as usize])?;
        axes = known;
        let wanted = is_near_at(&axes, wide, row as usize);
        add_near(&mut near, row, wanted);
    }
    Ok(near)
}

/// What a column has in a row; another item where it has no such row.
pub fn item_or<T: Copy>(column: &[T], row: u32, other: T) -> T
    ensures { result ≡ slice_index_or column.now row other }
{
    column.get(row as usize).copied().unwrap_or(other)
}

/// Rows by rising id.
pub fn rows_by_id(ids: &[u64], mut rows: Vec<u32>) -> Result<Vec<u32>, Redo>
    ensures same { IfOk result (λ sorted. IsPermutation rows.items sorted.items) }
    ensures in_order { IfOk result (λ sorted.
        IsNonDecreasingBy (λ row. slice_index_or ids.now row 0) sorted.items) }
{
    rows.sort_by_key(|row| item_or(ids, *row, 0))?;
    Ok(rows)
}

/// Of agents in columns those that stand within a range of an area, by rising id.
pub fn agents_near(
    alloc: Global,
    program: &Program,
    rows: &Moved,
    area: &Area,
    range: i64,
) -> Result<Herd, NoMemory>
    requires { pos 0 ≤ℤ range }
    ensures near { IfOk result (λ near. (agents : List Agent)
        → AreStored program.now agents rows.now
        → near ≡ filter (is_near program.now area.now range) agents) }
    ensures fit { IfOk result (λ _. (agents : List Agent) → AreStored program.now agents rows.now
        → All (StandsFit program.now) agents) }
{
    let Ok(places) = rows_near(alloc, program, rows, &widened(area, range)) else {
        return Err(NoMemory);
    };
    let Ok(sorted) = rows_by_id(rows.ids.as_slice(), places) else {
        return Err(NoMemory);
    };
    let near = picked(alloc, program, rows, &sorted)?;
    Ok(near)
}

/// Of agents in columns those that a part owns under some cuts, by rising id.
pub fn agents_of(
    alloc: Global,
    program: &Program,
    cuts: &Cuts,
    part: u32,
    rows: &Moved,
) -> Result<Herd, NoMemory>
    requires cuts { LawfulCuts cuts.now }
    requires part { part < parts_of cuts.now }
    ensures { IfOk result (λ theirs. (agents : List Agent) → AreStored program.now agents rows.now
        → theirs ≡ owned program.now cuts.now part agents) }
{
    let theirs = agents_near(alloc, program, rows, &cuts.area(part), 0)?;
    Ok(theirs)
}

/// The agents of columns.
pub fn all_agents(alloc: Global, program: &Program, rows: &Moved) -> Result<Vec<Agent>, NoMemory>
    ensures { IfOk result (λ agents. agents.items ≡ agents_in program.now rows.now) }
{
    match rows.agents(alloc, program) {
        Ok(agents) => Ok(agents),
        Err(Redo) => Err(NoMemory),
    }
}

/// Agents in columns with those of a herd behind them.
pub fn with_more(
    alloc: Global,
    program: &Program,
    mut rows: Moved,
    more: &Herd,
) -> Result<Moved, Redo>
    ensures rows { IfOk result (λ all. (agents : List Agent) → AreMoved agents rows
        → AreMoved (agents ++ more.now) all) }
    ensures listed { IfOk result (λ all. (agents : List Agent) → AreMoved agents all
        → IsTrue (list_all (is_lawful_agent program.now) agents)
        → AreListed program.now agents all) }
{
    rows.add(more)?;
    rows.expect_listed(alloc, program)?;
    Ok(rows)
}

/// Lawful agents in columns, from which they can be read; `Redo` where there is no memory.
pub fn listed(alloc: Global, program: &Program, agents: &Herd) -> Result<Moved, Redo>
    requires { IsTrue (list_all (is_lawful_agent program.now) agents.now) }
    ensures { IfOk result (AreListed program.now agents.now) }
{
    let none = columns_of(alloc, program, &[], &[])?;
    let rows = with_more(alloc, program, none, agents)?;
    Ok(rows)
}

/// Whether so many rows are all.
fn is_all(rows: &[u32], count: usize) -> bool
    ensures { OnTrue result (length rows.now ≡ count) }
{
    rows.len() == count
}

/// The agents of some rows of columns: all of them, where the rows are as many.
fn staying(alloc: Global, rows: Moved, stay: &[u32]) -> Result<Moved, Redo>
    ensures { IfOk result (λ these. (agents : List Agent) (pass : Agent → Bool)
        → AreMoved agents rows → ArePlaces agents (filter pass agents) stay.now
        → AreMoved (filter pass agents) these) }
{
    if is_all(stay, rows.ids.len()) {
        return Ok(rows);
    }
    let these = rows.picked(alloc, stay)?;
    Ok(these)
}

/// Of agents in columns those that a part owns under some cuts, and then those of a herd.
pub fn settled(
    alloc: Global,
    program: &Program,
    cuts: &Cuts,
    part: u32,
    rows: Moved,
    more: &Herd,
) -> Result<Moved, Redo>
    requires cuts { LawfulCuts cuts.now }
    requires part { part < parts_of cuts.now }
    ensures { IfOk result (λ all. (agents these : List Agent)
        → AreStored program.now agents rows → RisesById these
        → IsPermutation these (owned program.now cuts.now part agents ++ more.now)
        → IsTrue (list_all (is_lawful_agent program.now) these)
        → AreStored program.now these all) }
{
    let stay = rows_near(alloc, program, &rows, &widened(&cuts.area(part), 0))?;
    let these = staying(alloc, rows, &stay)?;
    let all = with_more(alloc, program, these, more)?;
    Ok(all)
}
