ghost use Rattle.std.specs.Prelude.{◌≡◌, ◌<◌, ◌≤◌, ◌+◌, ◌^◌, [], ◌∷◌, ◌++◌, List, IsTrue, map, filter_map, flat_map, length, slice_get, Option, IfOk, IfSome, IfNone};
ghost use Rattle.std.specs.List.{list_all};
ghost use Rattle.std.specs.List.Sorted.{IsStrictlyIncreasing};
ghost use Rattle.std.specs.Option.{option_and_then};
ghost use Rattle.std.specs.Vec.{vec_capacity};
ghost use Rattle.brace_model.specs.declared.world.Agent.{Agent};
ghost use Rattle.brace_model.specs.Lawful.{is_lawful_agent};
ghost use Rattle.brace_cuts.specs.CutPlans.{IsPlan};
ghost use Rattle.brace_fold.specs.Listed.{AreStored};
ghost use Rattle.brace_pieces.specs.Settings.{cuts_of, parts};
ghost use Rattle.brace_pieces.specs.Owned.{owned};
ghost use Rattle.brace_pieces.specs.Together.{with_number};
ghost use Rattle.brace_pieces.specs.Right.{census_of};
ghost use Rattle.brace_pieces.specs.Censuses.{IsSumOf, values_in, rank_too_far};
ghost use Rattle.brace_pieces.specs.Exchanged.{counts_brought};

use crate::near::agents_of;
use brace_eval::is_too_far;
use brace_fold::Moved;
use brace_model::{Agent, Census, Herd, Parent, Program};
use brace_num::{List, NoMemory};
use brace_pieces::{Piece, Setting, moves_of};
use std::alloc::Global;

/// How many agents live on, which stand in columns, how many values they have, and the parents of
/// these children.
pub fn census_of(
    alloc: Global,
    program: &Program,
    left: &Moved,
    born: &[Agent],
) -> Result<Census, NoMemory>
    ensures { IfOk result (λ c. (agents : List Agent) → AreStored program.now agents left.now
        → IsTrue (list_all (is_lawful_agent program.now) agents)
        → c ≡ census_of agents born.now) }
{
    let mut parents = Vec::with_capacity(alloc, born.len())?;
    for child in born {
        parents.push(Parent {
            id: child.id,
            class: child.class,
        })?;
    }
    let mut values = 0u64;
    for class in left.classes.as_slice() {
        values = more(values, values_in(program, *class) as u64)?;
    }
    Ok(Census {
        living: left.classes.len() as u64,
        values,
        parents: List::from_vec(parents),
    })
}

/// The sum of two counts; `NoMemory` where 64 bits do not hold it.
fn more(count: u64, by: u64) -> Result<u64, NoMemory>
    ensures { IfOk result (λ sum. sum ≡ count + by) }
{
    count.checked_add(by).ok_or(NoMemory)
}

/// The census that a piece brings, if it brings one.
fn census_in(piece: Piece) -> Option<Census>
    ensures some { IfSome result (λ c. counts_brought piece ≡ c ∷ []) }
    ensures none { IfNone result (counts_brought piece ≡ []) }
{
    match piece {
        Piece::Census(census) => Some(census),
        Piece::Border(_agents) => None,
        Piece::Effects(_entries) => None,
        Piece::Move(_agents) => None,
        Piece::Hand(_agents) => None,
        Piece::Show(_worlds) => None,
        Piece::Ack => None,
        Piece::Halt(_cause) => None,
    }
}

/// A part's own census and all that pieces bring in one. The pieces go, and their places stay.
pub fn joined(own: Census, taken: &mut Vec<Piece>) -> Result<Census, NoMemory>
    ensures sum { IfOk result (IsSumOf (own ∷ flat_map counts_brought taken.old.items)) }
    ensures places { vec_capacity taken.new ≡ vec_capacity taken.old }
{
    let (mut living, mut values) = (own.living, own.values);
    let mut parents = own.parents.into_vec();
    while let Some(piece) = taken.pop() {
        if let Some(census) = census_in(piece) {
            living = more(living, census.living)?;
            values = more(values, census.values)?;
            parents.append(&mut census.parents.into_vec())?;
        }
    }
    parents.sort_by_key(|p| p.id)?;
    Ok(Census {
        living,
        values,
        parents: List::from_vec(parents),
    })
}

/// How many values an agent of a class has, by number.
fn values_in(program: &Program, class: u32) -> usize
    ensures { result ≡ values_in (slice_get program.now.classes class) }
{
    match program.classes.as_slice().get(class as usize) {
        Some(class) => class.states.as_slice().len(),
        None => 0,
    }
}

/// The first parent that goes too far, if one does.
pub fn first_too_far(program: &Program, next: u64, all: &Census) -> Option<Parent>
    requires { next ≤ 2 ^ 63 }
    ensures first { result ≡ option_and_then (slice_get all.now.parents)
        (rank_too_far program.now next all.now) }
    ensures fits { IfNone result (next + length all.now.parents ≤ 2 ^ 63) }
{
    let mut agents = all.living as usize;
    let mut values = all.values as usize;
    let mut id = next;
    for parent in all.parents.as_slice() {
        agents = agents.saturating_add(1);
        values = values.saturating_add(values_in(program, parent.class));
        if is_too_far(agents, values, id) {
            return Some(*parent);
        }
        id = id.saturating_add(1);
    }
    None
}

/// Those children whose parents are among these, with ids by rank.
pub fn numbered(
    alloc: Global,
    next: u64,
    parents: &[Parent],
    mut born: Vec<Agent>,
) -> Result<Vec<Agent>, NoMemory>
    requires rises { IsStrictlyIncreasing (map (λ p. p.id) parents.now) }
    requires fits { next + length parents.now ≤ 2 ^ 63 }
    ensures { IfOk result (λ all. all.items
        ≡ filter_map (with_number next (map (λ p. p.id) parents.now)) born.items) }
{
    let mut all = Vec::with_capacity(alloc, born.len())?;
    born.reverse();
    while let Some(child) = born.pop() {
        if let Ok(rank) = parents.binary_search_by_key(&child.id, |p| p.id) {
            all.push(Agent {
                class: child.class,
                id: next + rank as u64,
                states: child.states,
            })?;
        }
    }
    Ok(all)
}

/// Of what a part's agents leave those that belong to a part: of those that live on, which stand in
/// columns, by rising id, and then of the children.
pub fn moves_to(
    alloc: Global,
    setting: &Setting,
    tick: u64,
    left: &Moved,
    born: &[Agent],
    to: u32,
) -> Result<Herd, NoMemory>
    requires plan { IsPlan setting.now.epoch setting.now.cuts }
    requires is_part { to < parts setting.now }
    ensures theirs { IfOk result (λ found. (agents : List Agent)
        → AreStored setting.now.job.program agents left.now → found
        ≡ owned setting.now.job.program (cuts_of setting.now tick) to (agents ++ born.now)) }
{
    let cuts = setting.cuts.cuts_at(tick);
    let mut found = agents_of(alloc, &setting.job.program, cuts, to, left)?;
    let more = moves_of(alloc, setting, tick, born, to)?;
    found.append(Herd::of(alloc, more.as_slice())?)?;
    Ok(found)
}
