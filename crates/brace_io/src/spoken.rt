ghost use Rattle.std.specs.Prelude.{◌≡◌};

use boxcar::tag::{Names, Tag};

struct Spelling;

impl<'a> Names<&'a str> for Spelling {
    ghost numbers = { λ name. name.now };
}

/// A name that only clauses read: it takes no memory.
pub(crate) fn spoken(name: &str) -> Tag
    ensures { result.numbers ≡ name.now }
{
    Tag::of::<&str, Spelling>(&name)
}
