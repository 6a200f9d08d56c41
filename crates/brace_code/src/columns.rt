ghost use Rattle.std.specs.Prelude.{◌≡◌, [], ◌∷◌, length, OnOk, MatchOption};

use crate::lane::Redo;
use brace_num::List;
use std::alloc::Global;
use std::marker::Model;

/// A stack of columns, which contracts see as a list with its top first.
#[derive(Drop)]
pub struct Columns {
    items: Vec<List<i64>>,
}

impl Model for Columns {
    ghost use Rattle.std.specs.Prelude.{List, ℤ, reverse};

    ghost Value = { List (List ℤ) };

    ghost view = { λ s. reverse s.items.items };
}

impl Columns {
    pub fn new(alloc: Global) -> Columns
        ensures { result ≡ [] }
    {
        Columns {
            items: Vec::new(alloc),
        }
    }

    pub fn height(&self) -> usize
        ensures { result ≡ length self.now }
    {
        self.items.len()
    }

    pub fn pop(&mut self) -> Option<List<i64>>
        ensures { MatchOption result (self.old ≡ []) (λ top. self.old ≡ top ∷ self.new) }
    {
        self.items.pop()
    }

    pub fn push(&mut self, item: List<i64>) -> Result<(), Redo>
        ensures { OnOk result (self.new ≡ item ∷ self.old) }
    {
        self.items.push(item)?;
        Ok(())
    }
}
