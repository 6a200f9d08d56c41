ghost use Rattle.std.specs.Prelude.{◌≡◌, ℕ, List, [], ◌++◌, OnOk, OnErr};
ghost use Rattle.brace_model.specs.declared.program.Comb.{Comb};
ghost use Rattle.brace_model.specs.Query.{Saying};
ghost use Rattle.brace_comb.specs.declared.entry.Entry.{Entry};
ghost use Rattle.brace_comb.specs.Entries.{IsRising, both, total_at, CanMerge, single};
ghost use Rattle.brace_comb.specs.Partials.{IsPartialOf, AreTotalsOf};

use crate::merge::{give, merged};
use crate::{Entry, Total};
use brace_num::NoMemory;
use std::alloc::Global;
use std::marker::Model;

/// What was given to the effects of agents: one entry for each, by target and field. Contracts see
/// the entries.
#[derive(Debug, Drop)]
pub struct Partial {
    alloc: Global,
    entries: Vec<Entry>,
}

impl Model for Partial {
    ghost use Rattle.std.specs.Prelude.{List};
    ghost use Rattle.brace_comb.specs.declared.entry.Entry.{Entry};
    ghost use Rattle.brace_comb.specs.Entries.{IsRising};

    ghost Value = { List Entry };

    ghost view = { λ it. it.entries.items };

    ghost invariant = { λ it. IsRising it.entries.items };
}

impl Partial {
    /// Nothing is given yet. It takes no memory.
    pub fn make(alloc: Global) -> Partial
        ensures empty { result ≡ [] }
        ensures given { IsPartialOf [] result }
        ensures said { (combs : ℕ → ℕ → Comb) → AreTotalsOf combs [] result }
    {
        Partial {
            alloc,
            entries: Vec::new(alloc),
        }
    }

    /// Gives a total to an effect of an agent: the agent by its id, the effect by its place in the
    /// class's effects. Where memory is refused nothing changes.
    pub fn add(&mut self, target: u64, field: u32, total: &Total) -> Result<(), NoMemory>
        requires { CanMerge self.old (single target field total.now) }
        ensures given { OnOk result ((given : List Entry) → IsPartialOf given self.old
            → IsPartialOf (given ++ single target field total.now) self.new) }
        ensures joined { OnOk result ((t f : ℕ) → total_at t f self.new
            ≡ both (total_at t f self.old) (total_at t f (single target field total.now))) }
        ensures said { OnOk result ((combs : ℕ → ℕ → Comb) (xs ys : List Saying)
            → AreTotalsOf combs xs self.old → AreTotalsOf combs ys (single target field total.now)
            → AreTotalsOf combs (xs ++ ys) self.new) }
        ensures kept { OnErr result (self.new ≡ self.old) }
    {
        let entry = Entry {
            target,
            field,
            total: *total,
        };
        give(&mut self.entries, entry)
    }

    /// Gives all of some rising entries, in one walk along both lists. Where memory is refused
    /// nothing changes.
    pub fn merge(&mut self, entries: &[Entry]) -> Result<(), NoMemory>
        requires rising { IsRising entries.now }
        requires joins { CanMerge self.old entries.now }
        ensures given { OnOk result ((given : List Entry) → IsPartialOf given self.old
            → IsPartialOf (given ++ entries.now) self.new) }
        ensures joined { OnOk result ((t f : ℕ) → total_at t f self.new
            ≡ both (total_at t f self.old) (total_at t f entries.now)) }
        ensures said { OnOk result ((combs : ℕ → ℕ → Comb) (xs ys : List Saying)
            → AreTotalsOf combs xs self.old → AreTotalsOf combs ys entries.now
            → AreTotalsOf combs (xs ++ ys) self.new) }
        ensures kept { OnErr result (self.new ≡ self.old) }
    {
        if entries.is_empty() {
            return Ok(());
        }
        self.entries = merged(self.alloc, self.entries.as_slice(), entries)?;
        Ok(())
    }

    /// The entries, by target and field: one for each effect of an agent that was given to.
    pub fn entries(&self) -> &[Entry]
        ensures same { result.now ≡ self.now }
        ensures rising { IsRising self.now }
        ensures given { IsPartialOf self.now self.now }
    {
        self.entries.as_slice()
    }
}
