ghost use Rattle.std.specs.Prelude.{◌≡◌, ◌≤◌, ℕ};
ghost use Rattle.brace_io.specs.Counts.{next_count};

use std::marker::Model;

/// A count of calls or of failures; at the end of its 64 bits it stands still.
#[derive(Drop)]
pub(crate) struct Count {
    number: u64,
}

impl Model for Count {
    ghost Value = { ℕ };

    ghost view = { λ count. count.number };
}

impl Count {
    pub(crate) fn zero() -> Count
        ensures { result ≡ 0 }
    {
        Count { number: 0 }
    }

    pub(crate) fn raise(&mut self)
        ensures next { self.new ≡ next_count self.old }
        ensures never_falls { self.old ≤ self.new }
    {
        self.number = self.number.saturating_add(1);
    }

    pub(crate) fn number(&self) -> u64
        ensures { result ≡ self.now }
    {
        self.number
    }
}
