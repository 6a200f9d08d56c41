ghost use Rattle.std.specs.Prelude.{◌≡◌, ◌<◌, ◌≤◌, ◌^◌, ◌++◌, [], List, map, slice_get, Some, IfOk, OnOk};
ghost use Rattle.std.specs.List.Sorted.{IsPermutation};
ghost use Rattle.brace_model.specs.declared.program.Program.{Program};
ghost use Rattle.brace_model.specs.declared.world.Agent.{Agent};
ghost use Rattle.brace_model.specs.Query.{Saying};
ghost use Rattle.brace_model.specs.World.{class_of};
ghost use Rattle.brace_cuts.specs.Space.{LawfulCuts, parts_of};
ghost use Rattle.brace_eval.specs.Heard.{effects_in};
ghost use Rattle.brace_fold.specs.Arranged.{in_places};
ghost use Rattle.brace_fold.specs.Asked.{by_row};
ghost use Rattle.brace_fold.specs.Rows.{AreMoved, by_id};
ghost use Rattle.brace_fold.specs.Sums.{AreSummed};
ghost use Rattle.brace_pieces.specs.Right.{share_of, shares_from};
ghost use Rattle.brace_herd.specs.Placed.{ArePlaces};
ghost use Rattle.brace_herd.specs.inner.Hearing.{CanSay, CanSum};
ghost use Rattle.brace_herd.specs.Holding.{IsSummed};
ghost use Rattle.brace_herd.specs.Said.{said_over, faults_over};
ghost use Rattle.brace_herd.specs.inner.Tables.{shares_in};

use crate::near::{item_at, number_at, owns_at, rows_by_id, widened};
use crate::query::Queries;
use crate::tell::entry_of;
use brace_comb::Entry;
use brace_cuts::Cuts;
use brace_fold::{Arranged, Moved, Redo, Table, expect_wide, most_effects, views};
use brace_model::{Effect, Program};
use brace_num::{List, NoMemory};
use brace_pieces::Setting;
use std::alloc::Global;

/// The agents that a part holds in a tick, its own ones and its guests, which are those of others,
/// in columns in the order of cells; and what was said to them.
#[derive(Drop)]
pub struct Held {
    /// The places of its own agents.
    pub own: Vec<u32>,
    /// The places of its guests, by rising id.
    pub places: Vec<u32>,
    /// The columns, a row for each agent.
    pub rows: Moved,
    /// What was said to them, place by place.
    pub said: Table,
}

impl Queries {
    /// What the queries of a part say over all that it holds: those of its own agents, at some
    /// places; with inversion those of the forward program of its own agents, and of the inverse
    /// program of all.
    fn said_to(
        &self,
        alloc: Global,
        setting: &Setting,
        tick: u64,
        arranged: &Arranged,
        own: &[u32],
    ) -> Result<Table, Redo>
        requires can { (agents : List Agent) × CanSay setting.now self.now agents arranged.now }
        requires ticks { tick ≤ 2 ^ 32 }
        ensures said { IfOk result (λ said. (agents mine : List Agent)
            → CanSay setting.now self.now agents arranged.now
            → IsPermutation mine (by_row (in_places agents arranged.now) own.now)
            → AreSummed setting.now.job.program (in_places agents arranged.now)
            (said_over setting.now tick mine (by_id agents)) said) }
        ensures quiet { IfOk result (λ _. (agents mine : List Agent)
            → CanSay setting.now self.now agents arranged.now
            → IsPermutation mine (by_row (in_places agents arranged.now) own.now)
            → faults_over setting.now tick mine (by_id agents) ≡ []) }
    {
        let (count, seed) = (arranged.order.len(), setting.job.seed);
        let mut said = Table::nothing(alloc, count, most_effects(&setting.job.program))?;
        match self {
            Queries::Script(plans) => {
                arranged.ask(alloc, plans, seed, tick, own, &mut said)?;
            }
            Queries::Inverted(forward, inverse) => {
                let all = arranged.all(alloc)?;
                arranged.ask(alloc, forward, seed, tick, own, &mut said)?;
                arranged.ask(alloc, inverse, seed, tick, &all, &mut said)?;
            }
        }
        Ok(said)
    }

    /// What a part holds behind its queries, where it holds agents in columns, first its own, so
    /// many, and then its guests. `Redo` where they are to be asked as a list.
    pub(crate) fn summed(
        &self,
        alloc: Global,
        setting: &Setting,
        tick: u64,
        count: usize,
        rows: &Moved,
    ) -> Result<Held, Redo>
        requires { (guests : List Agent) × CanSum setting.now self.now tick count guests rows.now }
        ensures { IfOk result (λ held. (guests : List Agent)
            (can : CanSum setting.now self.now tick count guests rows.now)
            → IsSummed setting.now tick can.own guests held) }
    {
        let program = &setting.job.program;
        let states = views(alloc, &rows.states)?;
        let columns = rows.as_columns(&states);
        expect_wide(program, &columns)?;
        let arranged = Arranged::of(alloc, program, &columns)?;
        arranged.rows.expect_listed(alloc, program)?;
        let own = arranged.first(alloc, count)?;
        let rest = arranged.rest(alloc, count, rows.ids.len().saturating_sub(count))?;
        let places = rows_by_id(arranged.rows.ids.as_slice(), rest)?;
        let said = self.said_to(alloc, setting, tick, &arranged, &own)?;
        Ok(Held {
            own,
            places,
            rows: arranged.rows,
            said,
        })
    }
}

/// The effects of a class of a number; none where there is no such class.
fn effects_at(program: &Program, number: u32) -> &[Effect]
    ensures { result.now ≡ effects_in (slice_get program.now.classes number) }
{
    match program.classes.as_slice().get(number as usize) {
        Some(class) => class.effects.as_slice(),
        None => &[],
    }
}

/// Adds an entry for each effect of the agent of a row to which something was said.
fn add_sums(
    entries: &mut List<Entry>,
    target: u64,
    effects: &[Effect],
    said: &Table,
    row: u32,
) -> Result<(), NoMemory>
    ensures { OnOk result ((program : Program) (rows : List Agent) (a : Agent) (more : List Saying)
        → AreSummed program rows more said.now → slice_get rows row ≡ Some a → a.id ≡ target
        → effects_in (class_of program a) ≡ effects.now
        → map share_of entries.new
        ≡ map share_of entries.old ++ shares_from 0 target effects.now more) }
{
    for k in 0..effects.len() {
        let Ok(effect) = u32::try_from(k) else {
            return Err(NoMemory);
        };
        let Some(sum) = said.sum(effect, row) else {
            return Err(NoMemory);
        };
        if sum.count > 0 {
            let (number, count) = (i128::from(sum.number), i128::from(sum.count));
            let told = entry_of(target, k, effects[k].comb, number, count).ok_or(NoMemory)?;
            entries.push(told)?;
        }
    }
    Ok(())
}

impl Held {
    /// What was said to the agents of another part, by rising id, then effect.
    pub(crate) fn told_sums(
        &self,
        alloc: Global,
        program: &Program,
        cuts: &Cuts,
        to: u32,
    ) -> Result<List<Entry>, NoMemory>
        requires cuts { LawfulCuts cuts.now }
        requires part { to < parts_of cuts.now }
        ensures told { IfOk result (λ entries. (all guests : List Agent) (said : List Saying)
            → AreMoved all self.now.rows → ArePlaces all (by_id guests) self.now.places.items
            → AreSummed program.now all said self.now.said → map share_of entries
            ≡ shares_in program.now cuts.now to (by_id guests) said) }
    {
        let area = widened(&cuts.area(to), 0);
        let mut entries = List::new(alloc);
        for k in 0..self.places.len() {
            let Some(place) = number_at(&self.places, k) else {
                return Err(NoMemory);
            };
            let Some(id) = item_at(&self.rows.ids, place as usize) else {
                return Err(NoMemory);
            };
            let Some(number) = number_at(&self.rows.classes, place as usize) else {
                return Err(NoMemory);
            };
            let Ok(theirs) = owns_at(program, &self.rows, &area, number, place) else {
                return Err(NoMemory);
            };
            if theirs {
                add_sums(
                    &mut entries,
                    id,
                    effects_at(program, number),
                    &self.said,
                    place,
                )?;
            }
        }
        Ok(entries)
    }
}
