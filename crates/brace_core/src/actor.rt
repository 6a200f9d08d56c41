ghost use Rattle.std.specs.Prelude.{◌≡◌, ◌+◌};
ghost use Rattle.brace_core.specs.declared.name.Name.{Name};
ghost use Rattle.brace_core.specs.declared.name.Turn.TheVariants.{Put, Take, Work};
ghost use Rattle.brace_core.specs.Exchanges.{IsPut, IsTake, due, due_to};

use crate::{Freight, Turn};

/// One of those that follow a schedule. It makes its turns one by one.
pub trait Actor<F: Freight> {
    ghost use Rattle.std.specs.Prelude.{ℕ};

    /// What it was given when it was made; plain data.
    type Opening;

    /// The setting that it was made for. No call changes it.
    ghost setting: { Self → F.Setting };

    /// Its number in the schedule. No call changes it.
    ghost number: { Self → ℕ };

    /// What it was given. No call changes it.
    ghost opening: { Self → Self.Opening };

    /// How many of its turns it has made.
    ghost past: { Self → ℕ };

    /// Its first turn that is left in the first steps of its schedule, so many, or Done.
    fn next(&self, end: u64) -> Turn
        ensures { result
            ≡ due_to F.schedule (setting self.now) end (number self.now) (past self.now) };

    /// The piece of the name that it puts next. It is asked after `next` gave Put.
    fn piece(&mut self) -> F
        requires { IsPut (due F.schedule (setting self.old) (number self.old) (past self.old)) }
        ensures right { (name : Name) →
            due F.schedule (setting self.old) (number self.old) (past self.old) ≡ Put name →
            F.right (setting self.old) name result }
        ensures goes_on { past self.new ≡ past self.old + 1 }
        ensures same_setting { setting self.new ≡ setting self.old }
        ensures same_number { number self.new ≡ number self.old }
        ensures same_opening { opening self.new ≡ opening self.old };

    /// Hands it the piece of the name that it takes next, after `next` gave Take.
    fn give(&mut self, piece: F)
        requires turn { IsTake
            (due F.schedule (setting self.old) (number self.old) (past self.old)) }
        requires right { (name : Name) →
            due F.schedule (setting self.old) (number self.old) (past self.old) ≡ Take name →
            F.right (setting self.old) name piece }
        ensures goes_on { past self.new ≡ past self.old + 1 }
        ensures same_setting { setting self.new ≡ setting self.old }
        ensures same_number { number self.new ≡ number self.old }
        ensures same_opening { opening self.new ≡ opening self.old };

    /// Lets it work, after `next` gave Work.
    fn work(&mut self)
        requires { due F.schedule (setting self.old) (number self.old) (past self.old) ≡ Work }
        ensures goes_on { past self.new ≡ past self.old + 1 }
        ensures same_setting { setting self.new ≡ setting self.old }
        ensures same_number { number self.new ≡ number self.old }
        ensures same_opening { opening self.new ≡ opening self.old };
}
