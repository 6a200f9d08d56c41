ghost use Rattle.std.specs.Prelude.{◌≡◌, ◌+◌, ◌-◌, ◌^◌, List, [], ◌∷◌, ◌++◌, min, slice_get, slice_set, slice_index_or, pos, ◌+ℤ◌, IfOk, OnOk, Some, map, take, drop};
ghost use Rattle.brace_model.specs.declared.fault.Fault.{Fault};
ghost use Rattle.brace_model.specs.declared.program.Program.{Program};
ghost use Rattle.brace_model.specs.declared.world.Agent.{Agent};
ghost use Rattle.brace_model.specs.FaultOrder.{least};
ghost use Rattle.brace_model.specs.World.{RisesById, class_of};
ghost use Rattle.brace_model.specs.Query.{Saying};
ghost use Rattle.brace_model.specs.Total.{identity, joined};
ghost use Rattle.brace_comb.specs.Totals.{merged};
ghost use Rattle.brace_eval.specs.Heard.{IsHeard, AreTold, counting, effects_in, row_of};

use brace_comb::{identity, joined, merged};
use brace_model::{Agent, Comb, Effect, Fault, Program, Value, class_of, with_earlier};
use brace_num::NoMemory;
use std::alloc::Global;

/// What was said so far to the agents of a list, and the least fault that was met.
#[derive(Debug, Drop)]
pub struct Heard {
    /// The totals, agent after agent, effect after effect.
    pub totals: Vec<i128>,
    /// How many values each total joins, in the same places.
    pub counts: Vec<i128>,
    /// The place of each agent's first total.
    pub starts: Vec<usize>,
    /// The least fault.
    pub least: Option<Fault>,
}

/// The effects of an agent's class.
pub fn effects_of<'a>(program: &'a Program, a: &Agent) -> &'a [Effect]
    ensures { result.now ≡ effects_in (class_of program.now a.now) }
{
    match class_of(program, a) {
        Some(class) => class.effects.as_slice(),
        None => &[],
    }
}

/// Adds the totals of no value of some effects to a table.
fn open_totals(effects: &[Effect], totals: &mut Vec<i128>) -> Result<(), NoMemory>
    ensures { IfOk result (λ _. totals.new.items ≡
        totals.old.items ++ map (λ e. identity e.comb) effects.now) }
{
    for effect in effects {
        totals.push(identity(effect.comb))?;
    }
    Ok(())
}

/// Adds the counts of no value of some effects to a table.
fn open_counts(effects: &[Effect], counts: &mut Vec<i128>) -> Result<(), NoMemory>
    ensures { IfOk result (λ _. counts.new.items ≡
        counts.old.items ++ map (λ _. pos 0) effects.now) }
{
    for _effect in effects {
        counts.push(0)?;
    }
    Ok(())
}

/// What stands at a place of a table; 0 past its end.
fn read(table: &[i128], at: usize) -> i128
    ensures { result ≡ slice_index_or table.now at (pos 0) }
{
    table.get(at).copied().unwrap_or(0)
}

/// Puts a number in a place of a table, where there is such a place.
fn put(table: &mut Vec<i128>, at: usize, n: i128)
    ensures { table.new.items ≡ slice_set table.old.items at n }
{
    if at < table.len() {
        table[at] = n;
    }
}

/// A part of a table: from a place on, as many as `width`, or as many as there are.
fn cut(table: &[i128], at: usize, width: usize) -> &[i128]
    ensures { result.now ≡ take width (drop at table.now) }
{
    let (_, behind) = table.split_at(at.min(table.len()));
    let (row, _) = behind.split_at(width.min(behind.len()));
    row
}

impl Heard {
    /// No list of agents, and no fault.
    pub(crate) fn empty(alloc: Global) -> Heard {
        Heard {
            totals: Vec::new(alloc),
            counts: Vec::new(alloc),
            starts: Vec::new(alloc),
            least: None,
        }
    }

    /// Nothing was said yet to the agents of a list.
    pub fn nothing(alloc: Global, program: &Program, agents: &[Agent]) -> Result<Heard, NoMemory>
        ensures nothing { IfOk result (IsHeard program.now agents.now [] []) }
    {
        let mut totals = Vec::new(alloc);
        let mut counts = Vec::new(alloc);
        let mut starts = Vec::new(alloc);
        for agent in agents {
            let effects = effects_of(program, agent);
            starts.push(totals.len())?;
            open_totals(effects, &mut totals)?;
            open_counts(effects, &mut counts)?;
        }
        Ok(Heard {
            totals,
            counts,
            starts,
            least: None,
        })
    }

    /// Where the total and the count of an effect of the agent at a place stand.
    pub fn place_of(&self, place: usize, effect: u32) -> usize
        ensures { result
            ≡ min (slice_index_or self.now.starts.items place 0 + effect) (2 ^ 64 - 1) }
    {
        let start = self.starts.get(place).copied().unwrap_or(0);
        start.saturating_add(effect as usize)
    }

    /// Joins one more value to the total at a place, and counts it.
    pub fn add(&mut self, at: usize, comb: Comb, v: Value) -> Result<(), NoMemory>
        ensures totals { IfOk result (λ _. self.new.totals.items ≡ slice_set self.old.totals.items
            at (joined comb (slice_index_or self.old.totals.items at (pos 0)) v)) }
        ensures counts { IfOk result (λ _. self.new.counts.items ≡ slice_set self.old.counts.items
            at (slice_index_or self.old.counts.items at (pos 0) +ℤ pos 1)) }
        ensures starts { self.new.starts ≡ self.old.starts }
        ensures least { self.new.least ≡ self.old.least }
    {
        let total = joined(comb, read(&self.totals, at), v);
        let count = read(&self.counts, at).checked_add(1);
        let (Some(total), Some(count)) = (total, count) else {
            return Err(NoMemory);
        };
        put(&mut self.totals, at, total);
        put(&mut self.counts, at, count);
        Ok(())
    }

    /// Joins a total of some values, as many as `more`, to the total at a place.
    fn merge(&mut self, at: usize, comb: Comb, number: i128, more: u64) -> Result<(), NoMemory>
        ensures totals { IfOk result (λ _. self.new.totals.items ≡ slice_set self.old.totals.items
            at (merged comb (slice_index_or self.old.totals.items at (pos 0)) number)) }
        ensures counts { IfOk result (λ _. self.new.counts.items ≡ slice_set self.old.counts.items
            at (slice_index_or self.old.counts.items at (pos 0) +ℤ pos more)) }
        ensures starts { self.new.starts ≡ self.old.starts }
        ensures least { self.new.least ≡ self.old.least }
    {
        let total = merged(comb, read(&self.totals, at), number);
        let count = read(&self.counts, at).checked_add(i128::from(more));
        let (Some(total), Some(count)) = (total, count) else {
            return Err(NoMemory);
        };
        put(&mut self.totals, at, total);
        put(&mut self.counts, at, count);
        Ok(())
    }

    /// Joins a value to an effect of the agent at a place of the list. Ids rise. `NoMemory` where
    /// 128 bits do not hold the total, with nothing joined.
    pub fn say(
        &mut self,
        program: &Program,
        agents: &[Agent],
        place: usize,
        effect: u32,
        v: Value,
    ) -> Result<(), NoMemory>
        requires rises { RisesById agents.now }
        ensures said { OnOk result ((a : Agent) (said : List Saying) (faults : List Fault)
            → slice_get agents.now place ≡ Some a
            → IsHeard program.now agents.now said faults self.old
            → IsHeard program.now agents.now
            (said ++ record { target = a.id; field = effect; value = v } ∷ []) faults self.new) }
    {
        let Some(a) = agents.get(place) else {
            return Ok(());
        };
        let Some(target) = effects_of(program, a).get(effect as usize) else {
            return Ok(());
        };
        let at = self.place_of(place, effect);
        self.add(at, target.comb, v)?;
        Ok(())
    }

    /// Notes the least of some faults, if there are any.
    pub fn found(&mut self, fault: Option<Fault>)
        ensures { (program : Program) (agents : List Agent) (said : List Saying)
            (faults met : List Fault) → fault ≡ least met
            → IsHeard program agents said faults self.old
            → IsHeard program agents said (faults ++ met) self.new }
    {
        if let Some(fault) = fault {
            self.least = Some(with_earlier(self.least, fault));
        }
    }

    /// Joins what is told of values said to an effect of the agent at a place of the list: the
    /// number of their total, and their count. Ids rise. `NoMemory` where 128 bits do not hold the
    /// whole, with nothing joined.
    pub fn join(
        &mut self,
        program: &Program,
        agents: &[Agent],
        place: usize,
        effect: u32,
        number: i128,
        count: u64,
    ) -> Result<(), NoMemory>
        requires rises { RisesById agents.now }
        ensures told { OnOk result ((a : Agent) (said told : List Saying) (faults : List Fault)
            → slice_get agents.now place ≡ Some a
            → IsHeard program.now agents.now said faults self.old
            → AreTold program.now a effect number count told
            → IsHeard program.now agents.now (said ++ told) faults self.new) }
    {
        let Some(a) = agents.get(place) else {
            return Ok(());
        };
        let Some(target) = effects_of(program, a).get(effect as usize) else {
            return Ok(());
        };
        let at = self.place_of(place, effect);
        self.merge(at, target.comb, number, count)?;
        Ok(())
    }

    /// The totals and the counts of the agent at a place of the list.
    pub fn row(&self, program: &Program, agents: &[Agent], place: usize) -> (&[i128], &[i128])
        ensures totals { (a : Agent) (said : List Saying) (faults : List Fault)
            → slice_get agents.now place ≡ Some a
            → IsHeard program.now agents.now said faults self.now
            → result.0.now ≡ row_of program.now said a }
        ensures counts { (a : Agent) (said : List Saying) (faults : List Fault)
            → slice_get agents.now place ≡ Some a
            → IsHeard program.now agents.now said faults self.now
            → result.1.now ≡ row_of (counting program.now) said a }
    {
        let Some(a) = agents.get(place) else {
            return (&[], &[]);
        };
        let width = effects_of(program, a).len();
        let at = self.place_of(place, 0);
        (cut(&self.totals, at, width), cut(&self.counts, at, width))
    }
}
