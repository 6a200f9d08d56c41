ghost use Rattle.std.specs.Prelude.{◌≡◌, ◌<◌, pos, ◌-ℤ◌, length, map, filter, option_map, slice_index_or, IfOk};
ghost use Rattle.std.specs.Int.{int_max};
ghost use Rattle.brace_num.specs.Areas.{outside, gap_to};
ghost use Rattle.brace_cuts.specs.Space.{LawfulCuts};
ghost use Rattle.brace_invert.specs.Held.{is_near};
ghost use Rattle.brace_cuts.specs.CutPlans.{IsPlan};
ghost use Rattle.brace_model.specs.declared.world.Agent.{Agent};
ghost use Rattle.brace_model.specs.World.{class_of};
ghost use Rattle.brace_model.specs.Lawful.{LawfulProgram};
ghost use Rattle.brace_pieces.specs.Settings.{range, cuts_of, parts};
ghost use Rattle.brace_pieces.specs.Owned.{owns, owned, held};
ghost use Rattle.brace_pieces.specs.Together.{IsSorted};

use crate::Setting;
use brace_cuts::Cuts;
use brace_invert::range;
use brace_model::{Agent, Area, Class, Herd, Program, class_of, rises, x_of, y_of};
use brace_num::{List, NoMemory};
use std::alloc::Global;

/// Whether a part owns an agent under some cuts.
pub fn owns(program: &Program, cuts: &Cuts, p: u32, a: &Agent) -> bool
    requires { LawfulCuts cuts.now }
    ensures { result ≡ owns program.now cuts.now p a.now }
{
    match class_of(program, a) {
        None => false,
        Some(class) => cuts.owner(x_of(class, a), y_of(class, a)) == p,
    }
}

/// How far `a` is above `b`; 0 where it is not.
fn above(a: i64, b: i64) -> u64
    ensures { pos result ≡ int_max (pos 0) (a -ℤ b) }
{
    if a > b { a.abs_diff(b) } else { 0 }
}

/// How far a number stands outside of a span.
fn outside(low: i64, high: i64, p: i64) -> u64
    ensures { pos result ≡ outside low high p }
{
    above(low, p).max(above(p, high))
}

/// The gap of a point and an area.
fn gap_to(area: &Area, x: i64, y: i64) -> u64
    ensures { pos result ≡ gap_to area.now x y }
{
    outside(area.x0, area.x1, x).max(outside(area.y0, area.y1, y))
}

/// Whether an agent stands within a range of an area.
fn is_near(program: &Program, area: &Area, range: i64, a: &Agent) -> bool
    ensures { result ≡ is_near program.now area.now range a.now }
{
    match class_of(program, a) {
        None => false,
        Some(class) => {
            i128::from(gap_to(area, x_of(class, a), y_of(class, a))) <= i128::from(range)
        }
    }
}

/// Of some agents those that stand within a range of an area.
fn near_to(
    alloc: Global,
    program: &Program,
    area: &Area,
    range: i64,
    agents: &[Agent],
) -> Result<List<Agent>, NoMemory>
    ensures { IfOk result (λ found. found
        ≡ filter (is_near program.now area.now range) agents.now) }
{
    let mut found = List::new(alloc);
    for a in agents {
        if is_near(program, area, range, a) {
            found.push(a.copy(alloc)?)?;
        }
    }
    Ok(found)
}

/// What a part shows of its agents in a tick to another one: those within range of its area, by
/// rising id where theirs rise.
pub fn border_of(
    alloc: Global,
    setting: &Setting,
    tick: u64,
    agents: &[Agent],
    to: u32,
) -> Result<List<Agent>, NoMemory>
    requires lawful { LawfulProgram setting.now.job.program }
    requires plan { IsPlan setting.now.epoch setting.now.cuts }
    requires is_part { to < parts setting.now }
    ensures near { IfOk result (λ found. found
        ≡ held setting.now.job.program (cuts_of setting.now tick) (range setting.now) to
        agents.now) }
{
    let area = setting.cuts.cuts_at(tick).area(to);
    let range = range(&setting.job.program, setting.invert);
    near_to(alloc, &setting.job.program, &area, range, agents)
}

/// Of agents those that belong to a part under the cuts that hold from a tick on, by rising id
/// where theirs rise: of those that a part's agents became, or had as children, in a tick, and of
/// those that it owned under the cuts before.
pub fn moves_of(
    alloc: Global,
    setting: &Setting,
    tick: u64,
    agents: &[Agent],
    to: u32,
) -> Result<List<Agent>, NoMemory>
    requires { IsPlan setting.now.epoch setting.now.cuts }
    ensures theirs { IfOk result (λ found. found
        ≡ owned setting.now.job.program (cuts_of setting.now tick) to agents.now) }
{
    let cuts = setting.cuts.cuts_at(tick);
    let mut found = List::new(alloc);
    for a in agents {
        if owns(&setting.job.program, cuts, to, a) {
            found.push(a.copy(alloc)?)?;
        }
    }
    Ok(found)
}

/// The class of the agent at a place of a herd, or None where the program has no class of its
/// number. It takes no memory.
pub fn class_at<'a>(program: &'a Program, agents: &Herd, place: usize) -> Option<&'a Class>
    requires { place < length agents.now }
    ensures { (d : Agent) → option_map (λ c. c.now) result
        ≡ class_of program.now (slice_index_or agents.now place d) }
{
    program.classes.as_slice().get(agents.class(place) as usize)
}

/// Whether a part owns the agent at a place of a herd under some cuts.
fn owns_at(program: &Program, cuts: &Cuts, p: u32, agents: &Herd, place: usize) -> bool
    requires cuts { LawfulCuts cuts.now }
    requires place { place < length agents.now }
    ensures { (d : Agent) → result
        ≡ owns program.now cuts.now p (slice_index_or agents.now place d) }
{
    match class_at(program, agents, place) {
        None => false,
        Some(class) => {
            cuts.owner(agents.number(place, class.x), agents.number(place, class.y)) == p
        }
    }
}

/// The places of those agents of a herd that a part owns under some cuts.
fn owned_places(
    alloc: Global,
    program: &Program,
    cuts: &Cuts,
    p: u32,
    agents: &Herd,
) -> Result<Vec<u32>, NoMemory>
    requires { LawfulCuts cuts.now }
    ensures { IfOk result (λ places. (d : Agent)
        → map (λ place. slice_index_or agents.now place d) places.items
        ≡ owned program.now cuts.now p agents.now) }
{
    let Ok(count) = u32::try_from(agents.len()) else {
        return Err(NoMemory);
    };
    let mut places = Vec::new(alloc);
    for place in 0..count {
        if owns_at(program, cuts, p, agents, place as usize) {
            places.push(place)?;
        }
    }
    Ok(places)
}

/// Of the agents of a herd those that belong to a part under the cuts that hold from a tick on, by
/// rising id where theirs rise.
pub fn owned_of(
    alloc: Global,
    setting: &Setting,
    tick: u64,
    agents: &Herd,
    to: u32,
) -> Result<Herd, NoMemory>
    requires { IsPlan setting.now.epoch setting.now.cuts }
    ensures theirs { IfOk result (λ found. found
        ≡ owned setting.now.job.program (cuts_of setting.now tick) to agents.now) }
{
    let cuts = setting.cuts.cuts_at(tick);
    let places = owned_places(alloc, &setting.job.program, cuts, to, agents)?;
    let found = agents.picked(alloc, &places)?;
    Ok(found)
}

/// Agents by rising id; those that rise already stay as they are, and take no memory.
pub fn sorted(mut agents: Vec<Agent>) -> Result<Vec<Agent>, NoMemory>
    ensures { IfOk result (λ all. IsSorted agents.items all.items) }
{
    if rises(agents.as_slice()) {
        return Ok(agents);
    }
    agents.sort_by_key(|agent| agent.id)?;
    Ok(agents)
}
