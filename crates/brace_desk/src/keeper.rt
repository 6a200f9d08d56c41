ghost use Rattle.std.specs.Prelude.{◌≡◌, ◌≤◌, Some, false, OnOk, OnErr};
ghost use Rattle.brace_io.specs.Counts.{Rose};
ghost use Rattle.brace_io.specs.Shelves.{Idle, writes};
ghost use Rattle.brace_desk.specs.Filed.{held_after, StopsAt};

use crate::files::{File, save_file};
use brace_io::{Failed, Shelf};

/// One that keeps whole files on a shelf, and leaves it writing never.
pub trait Keeper: Drop {
    ghost use Rattle.std.specs.Prelude.{ℕ, List, Option};
    ghost use Rattle.brace_io.specs.Shelves.{Files, Stage};

    /// What its shelf holds, where that tells it.
    ghost held: { Self → Option Files };

    /// Where its shelf stands.
    ghost stage: { Self → Stage };

    /// How many calls of its shelf failed; a count of 64 bits that never falls.
    ghost faults: { Self → ℕ };

    /// The names of the references that it holds. No call changes them.
    ghost loans: { Self → List ℕ };

    /// Saves a file, given by its name and its bytes.
    fn save(&mut self, file: &File) -> Result<(), Failed>
        ensures held { OnOk result (held self.new ≡ held_after (Some file.now) (held self.old)) }
        ensures idle { OnOk result (stage self.new ≡ Idle) }
        ensures stopped { OnErr result
            (StopsAt (held self.old) (held self.new) (stage self.new) file.now) }
        ensures never_falls { faults self.old ≤ faults self.new }
        ensures rose { OnErr result (Rose (faults self.old) (faults self.new)) }
        ensures same_loans { loans self.new ≡ loans self.old };
}

/// A keeper over a shelf that is lent, which does not write.
#[derive(Drop)]
pub struct ShelfKeeper<'a, S: Shelf> {
    pub shelf: &'a mut S,
    ghost not_writing: { writes (S.stage shelf.now) ≡ false },
}

impl<'a, S: Shelf> Keeper for ShelfKeeper<'a, S> {
    ghost use Rattle.std.specs.Prelude.{[], ◌∷◌};

    ghost held = { λ k. S.held k.shelf.now };

    ghost stage = { λ k. S.stage k.shelf.now };

    ghost faults = { λ k. S.faults k.shelf.now };

    ghost loans = { λ k. k.shelf.ghost_name ∷ [] };

    fn save(&mut self, file: &File) -> Result<(), Failed> {
        save_file(self.shelf, file)
    }
}
