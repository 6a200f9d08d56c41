ghost use Rattle.std.specs.Prelude.{◌≡◌, ◌+◌, [], length, take, not, IfOk, OnOk, OnErr};
ghost use Rattle.brace_names.specs.Tables.{look, has, with_name};

use brace_num::NoMemory;
use indexmap::IndexMap;
use std::alloc::Global;
use std::marker::Model;

/// What names stand for, in the order of their first sight. Contracts see it as the list of its
/// names with what each stands for.
#[derive(Drop)]
pub struct Names<'a, V> {
    index: IndexMap<&'a [u8], V>,
}

impl<'a, V> Model for Names<'a, V> {
    ghost use Rattle.std.specs.Prelude.{ℕ, List, map};
    ghost use Rattle.std.specs.Coded.{coded_list, coded×, coded_ℕ};

    ghost Value = { List (List ℕ × V) };

    ghost coded = { coded_list (coded× (coded_list coded_ℕ) V.code) };

    ghost view = { λ names. map (λ entry. (entry.0.now, entry.1)) names.index.entries };
}

impl<'a, V: Copy + Drop> Names<'a, V> {
    /// No names.
    pub fn new(alloc: Global) -> Names<'a, V>
        ensures { result ≡ [] }
    {
        Names {
            index: IndexMap::new(alloc),
        }
    }

    /// How many names there are.
    pub fn len(&self) -> usize
        ensures { result ≡ length self.now }
    {
        self.index.len()
    }

    /// What the name stands for.
    pub fn look(&self, name: &[u8]) -> Option<V>
        ensures { result ≡ look self.now name.now }
    {
        self.index.get(&name).copied()
    }

    /// Lets the name stand for this, unless it stands for something already. Says whether it does
    /// so now.
    pub fn add(&mut self, name: &'a [u8], value: V) -> Result<bool, NoMemory>
        ensures added { OnOk result (self.new ≡ with_name self.old name.now value) }
        ensures fresh { IfOk result (λ fresh. fresh ≡ not (has self.old name.now)) }
    {
        if self.index.contains_key(&name) {
            return Ok(false);
        }
        self.index.insert(name, value)?;
        Ok(true)
    }

    /// Keeps the first names alone, up to this many.
    pub fn keep(&mut self, len: usize)
        ensures { self.new ≡ take len self.old }
    {
        self.index.truncate(len);
    }
}
