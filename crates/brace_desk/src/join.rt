ghost use Rattle.std.specs.Prelude.{◌≡◌, ℕ, List, map, IfOk};
ghost use Rattle.std.specs.List.{AllZip, range_with_len};
ghost use Rattle.std.specs.Vec.{vec_capacity};
ghost use Rattle.brace_pieces.specs.declared.setting.Setting.{Setting};
ghost use Rattle.brace_pieces.specs.Settings.{LawfulSetting, parts};
ghost use Rattle.brace_pieces.specs.Numbers.{NumbersFit};
ghost use Rattle.brace_desk.specs.Desks.{whole_at};
ghost use Rattle.brace_desk.specs.Lots.{brought};
ghost use Rattle.brace_desk.specs.inner.Joins.{added_to, IsSortedWorld};

use crate::desk::Lot;
use brace_model::Herd;
use brace_num::NoMemory;
use brace_pieces::Shown;
use std::alloc::Global;

/// How many agents lots bring in the world that has a place among theirs.
fn count_in(lots: &[Lot], place: usize) -> usize {
    let mut count: usize = 0;
    for lot in lots {
        if let Some(world) = lot.worlds.as_slice().get(place) {
            count = count.saturating_add(world.agents.len());
        }
    }
    count
}

/// The same agents, with room for so many more.
fn with_more_room(alloc: Global, agents: Herd, more: usize) -> Result<Herd, NoMemory>
    ensures { IfOk result (λ all. all ≡ agents) }
{
    if more == 0 {
        return Ok(agents);
    }
    let mut all = Herd::with_room(alloc, agents.len().saturating_add(more), 0)?;
    all.append(agents)?;
    Ok(all)
}

/// The same worlds, each with room for the agents that lots bring in the world of its place: room
/// that grows with each lot takes twice as much.
fn all_with_more_room(
    alloc: Global,
    worlds: Vec<Shown>,
    lots: &[Lot],
) -> Result<Vec<Shown>, NoMemory>
    ensures { IfOk result (λ all. all.items ≡ worlds.items) }
{
    let mut all = Vec::new(alloc);
    for world in worlds {
        let more = count_in(lots, all.len());
        let agents = with_more_room(alloc, world.agents, more)?;
        all.push(Shown {
            tick: world.tick,
            agents,
            next: world.next,
        })?;
    }
    Ok(all)
}

/// Worlds of some ticks, each with the agents of others of the same ticks behind its own.
fn added(alloc: Global, worlds: Vec<Shown>, more: Vec<Shown>) -> Result<Vec<Shown>, NoMemory>
    ensures { IfOk result (λ all. all.items ≡ added_to worlds.items more.items) }
{
    let mut all = Vec::new(alloc);
    for (world, other) in worlds.into_iter().zip(more) {
        let mut agents = world.agents;
        agents.append(other.agents)?;
        all.push(Shown {
            tick: world.tick,
            agents,
            next: world.next,
        })?;
    }
    Ok(all)
}

/// Worlds with their agents by rising id.
fn all_sorted(alloc: Global, worlds: Vec<Shown>) -> Result<Vec<Shown>, NoMemory>
    ensures { IfOk result (λ all. AllZip IsSortedWorld worlds.items all.items) }
{
    let mut all = Vec::new(alloc);
    for world in worlds {
        let mut agents = world.agents;
        agents.sort();
        all.push(Shown {
            tick: world.tick,
            agents,
            next: world.next,
        })?;
    }
    Ok(all)
}

/// The whole worlds of the ticks of which each part brought its agents. The lots go, and their
/// places stay.
pub fn joined(alloc: Global, lots: &mut Vec<Lot>) -> Result<Vec<Shown>, NoMemory>
    ensures whole { (s : Setting) (held : ℕ) (ticks : List ℕ) → LawfulSetting s → NumbersFit s
        → lots.old.items ≡ map (brought s held ticks) (range_with_len 0 (parts s))
        → IfOk result (λ worlds. worlds.items ≡ map (whole_at s) ticks) }
    ensures places { vec_capacity lots.new ≡ vec_capacity lots.old }
{
    let Some(last) = lots.pop() else {
        return Ok(Vec::new(alloc));
    };
    let mut worlds = all_with_more_room(alloc, last.worlds.into_vec(), lots)?;
    while let Some(lot) = lots.pop() {
        worlds = added(alloc, worlds, lot.worlds.into_vec())?;
    }
    all_sorted(alloc, worlds)
}
