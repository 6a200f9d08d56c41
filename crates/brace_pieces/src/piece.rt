ghost use Rattle.std.specs.Prelude.{◌≡◌};

use crate::Setting;
use brace_comb::Entry;
use brace_core::Freight;
use brace_model::{Census, Fault, Herd};
use brace_num::{List, NoMemory};

/// The agents of a part in the world of a tick.
#[derive(Debug, Drop)]
pub struct Shown {
    pub tick: u64,
    /// By rising id.
    pub agents: Herd,
    /// The next free id of that world.
    pub next: u64,
}

/// Why a part does not go on.
#[derive(Debug, Clone, Copy, PartialEq, Eq, Drop)]
pub enum Cause {
    /// A fault of the run.
    Fault(Fault),
    /// Memory was refused.
    NoMemory,
    /// The publisher takes nothing any more.
    Closed,
}

impl From<NoMemory> for Cause {
    ghost use Rattle.brace_pieces.specs.declared.piece.Cause.TheVariants as cause;

    ghost from_gives = { λ _ c. c ≡ cause.NoMemory };

    fn from(_: NoMemory) -> Cause {
        Cause::NoMemory
    }
}

/// What one part, or the publisher, hands to another in a step. Agents stand by rising id.
#[derive(Debug, Drop)]
pub enum Piece {
    Border(Herd),
    /// By rising target, then field.
    Effects(List<Entry>),
    Census(Census),
    Move(Herd),
    Hand(Herd),
    /// By rising tick.
    Show(List<Shown>),
    /// The publisher took what was shown.
    Ack,
    /// In place of any other piece: the sender goes no further.
    Halt(Cause),
}

impl Freight for Piece {
    ghost use Rattle.brace_pieces.specs.Steps.{schedule};
    ghost use Rattle.brace_pieces.specs.Right.{IsRight};

    type Setting = Setting;

    ghost schedule = { schedule };

    ghost right = { IsRight };
}
