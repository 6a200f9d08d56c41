ghost use Rattle.std.specs.Prelude.{◌≡◌, ◌+◌, ◌<◌, length, slice_index_or};

use brace_num::Steps;
use std::marker::Model;
use std::sync::ledger::Ledger;

/// A list that is read one element at a time, each for one step.
#[derive(Drop)]
pub struct Looks<T> {
    items: Vec<T>,
}

impl<T> Model for Looks<T> {
    ghost use Rattle.std.specs.Prelude.{List};
    ghost use Rattle.std.specs.Coded.{coded_list};

    ghost Value = { List T };

    ghost coded = { coded_list T.code };

    ghost view = { λ it. it.items.items };
}

impl<T> Looks<T> {
    /// The list of a vector.
    pub fn from_vec(items: Vec<T>) -> Looks<T>
        ensures { result ≡ items.items }
    {
        Looks { items }
    }

    /// How many elements there are, for no step.
    pub fn len(&self) -> usize
        ensures { result ≡ length self.now }
    {
        self.items.len()
    }
}

impl<T: Copy> Looks<T> {
    /// The element at a place: the one way to read it.
    pub fn look<L: Ledger>(&self, i: usize, steps: &mut Steps<L>) -> T
        requires { i < length self.now }
        ensures value { (d : T) → result ≡ slice_index_or self.now i d }
        ensures step { steps.new ≡ steps.old + 1 }
    {
        steps.tick();
        self.items[i]
    }
}
