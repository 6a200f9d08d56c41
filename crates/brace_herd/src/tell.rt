ghost use Rattle.std.specs.Prelude.{◌≡◌, ◌<◌, ◌^◌, ◌++◌, ℕ, List, map, pos, IfOk, IfSome, IfNone, OnOk};
ghost use Rattle.brace_model.specs.declared.fault.Fault.{Fault};
ghost use Rattle.brace_model.specs.World.{RisesById};
ghost use Rattle.brace_model.specs.Query.{Saying};
ghost use Rattle.brace_model.specs.Total.{totals_from};
ghost use Rattle.brace_comb.specs.Totals.{IsNumberOf};
ghost use Rattle.brace_cuts.specs.Space.{LawfulCuts};
ghost use Rattle.brace_eval.specs.Heard.{IsHeard, counted};
ghost use Rattle.brace_pieces.specs.Right.{share_of, shares_from};
ghost use Rattle.brace_herd.specs.inner.Tables.{TellsOf, TellsBy, TellBy, share_with, shares_in};

use brace_comb::{Combine, Entry, Total};
use brace_cuts::Cuts;
use brace_eval::{Heard, effects_of};
use brace_model::{Agent, Comb, Effect, Program};
use brace_num::{List, NoMemory};
use brace_pieces::{Piece, owns};
use std::alloc::Global;

/// The entry of an effect, by its place, with the number and the count of its total; None exactly
/// where there is no such entry.
pub fn entry_of(target: u64, effect: usize, comb: Comb, number: i128, count: i128) -> Option<Entry>
    ensures share { IfSome result (λ e. share_of e ≡ share_with target effect comb number count) }
    ensures none { IfNone result (effect < 2 ^ 32 → (n : ℕ) → n < 2 ^ 64 → count ≡ pos n
        → ¬ (IsNumberOf comb number n)) }
{
    let field = u32::try_from(effect).ok()?;
    let total = Total::make(comb, number, u64::try_from(count).ok()?)?;
    Some(Entry {
        target,
        field,
        total,
    })
}

/// Adds an entry for each effect of an agent to which something was said.
fn add_entries(
    entries: &mut List<Entry>,
    target: u64,
    effects: &[Effect],
    totals: &[i128],
    counts: &[i128],
) -> Result<(), NoMemory>
    ensures told { OnOk result ((said : List Saying)
        → totals.now ≡ totals_from 0 target effects.now said
        → counts.now ≡ totals_from 0 target (map counted effects.now) said
        → map share_of entries.new
        ≡ map share_of entries.old ++ shares_from 0 target effects.now said) }
{
    for i in 0..effects.len().min(totals.len()).min(counts.len()) {
        if counts[i] > 0 {
            let comb = effects[i].comb;
            let told = entry_of(target, i, comb, totals[i], counts[i]).ok_or(NoMemory)?;
            entries.push(told)?;
        }
    }
    Ok(())
}

/// What was said to the agents of another part, by rising id, then effect.
pub fn told_to(
    alloc: Global,
    program: &Program,
    cuts: &Cuts,
    to: u32,
    held: &[Agent],
    heard: &Heard,
) -> Result<List<Entry>, NoMemory>
    requires cuts { LawfulCuts cuts.now }
    ensures told { IfOk result (λ entries. (said : List Saying) (faults : List Fault)
        → IsHeard program.now held.now said faults heard.now
        → map share_of entries ≡ shares_in program.now cuts.now to held.now said) }
{
    let mut entries = List::new(alloc);
    for i in 0..held.len() {
        let b = &held[i];
        if owns(program, cuts, to, b) {
            let (totals, counts) = heard.row(program, held, i);
            add_entries(&mut entries, b.id, effects_of(program, b), totals, counts)?;
        }
    }
    Ok(entries)
}

/// Joins what an entry tells of an agent that is held.
fn join_entry(
    program: &Program,
    held: &[Agent],
    heard: &mut Heard,
    entry: &Entry,
) -> Result<(), NoMemory>
    requires rises { RisesById held.now }
    ensures told { OnOk result ((said told : List Saying) (faults : List Fault)
        → IsHeard program.now held.now said faults heard.old
        → TellsOf program.now held.now entry.now told
        → IsHeard program.now held.now (said ++ told) faults heard.new) }
{
    let number = entry.total.number();
    let count = entry.total.count();
    match held.binary_search_by_key(&entry.target, |a| a.id) {
        Ok(place) => heard.join(program, held, place, entry.field, number, count),
        Err(_) => Ok(()),
    }
}

/// Joins what entries tell of agents that are held.
fn join_entries(
    program: &Program,
    held: &[Agent],
    heard: &mut Heard,
    entries: &[Entry],
) -> Result<(), NoMemory>
    requires rises { RisesById held.now }
    ensures told { OnOk result ((said told : List Saying) (faults : List Fault)
        → IsHeard program.now held.now said faults heard.old
        → TellsBy program.now held.now entries.now told
        → IsHeard program.now held.now (said ++ told) faults heard.new) }
{
    for entry in entries {
        join_entry(program, held, heard, entry)?;
    }
    Ok(())
}

/// Joins what other parts tell of values said to agents that a part holds.
pub fn join_told(
    program: &Program,
    held: &[Agent],
    heard: &mut Heard,
    pieces: &[Piece],
) -> Result<(), NoMemory>
    requires rises { RisesById held.now }
    ensures told { OnOk result ((said told : List Saying) (faults : List Fault)
        → IsHeard program.now held.now said faults heard.old
        → TellBy program.now held.now pieces.now told
        → IsHeard program.now held.now (said ++ told) faults heard.new) }
{
    for piece in pieces {
        if let Piece::Effects(entries) = piece {
            join_entries(program, held, heard, entries.as_slice())?;
        }
    }
    Ok(())
}
