ghost use Rattle.std.specs.Prelude.{◌≡◌, ◌+◌, length, IfOk};
ghost use Rattle.brace_pieces.specs.Given.{lived, together};
ghost use Rattle.brace_pieces.specs.Exchanged.{counted};

use crate::Piece;
use brace_model::Herd;
use brace_num::NoMemory;

/// How much a part gave to others so far.
#[derive(Clone, Copy, PartialEq, Eq, Drop)]
pub struct Counts {
    /// Agents shown to parts that do not own them, once for each part and tick.
    pub border: u128,
    /// Totals told to the owners of agents.
    pub effects: u128,
    /// Agents that went to another part by moving.
    pub moved: u128,
    /// Agents that went to another part where other cuts began to hold.
    pub handed: u128,
}

/// Raises a count; `NoMemory` where 128 bits do not hold it.
fn raise(count: &mut u128, by: u128) -> Result<(), NoMemory>
    ensures { IfOk result (λ _. count.new ≡ count.old + by) }
{
    match count.checked_add(by) {
        Some(sum) => {
            *count = sum;
            Ok(())
        }
        None => Err(NoMemory),
    }
}

/// How many agents have ids below a next free id.
fn count_lived(next: u64, agents: &Herd) -> usize
    ensures { result ≡ length (lived next agents.now) }
{
    let mut count = 0;
    for place in 0..agents.len() {
        if agents.id(place) < next {
            count += 1;
        }
    }
    count
}

impl Counts {
    /// Nothing was given yet.
    pub fn none() -> Counts
        ensures { result ≡ record { border = 0; effects = 0; moved = 0; handed = 0 } }
    {
        Counts {
            border: 0,
            effects: 0,
            moved: 0,
            handed: 0,
        }
    }

    /// Counts a piece, where this is the next free id: of those that move, children do not count.
    /// `NoMemory` where 128 bits do not hold a count.
    pub fn add(&mut self, next: u64, piece: &Piece) -> Result<(), NoMemory>
        ensures { IfOk result (λ _. self.new ≡ counted next self.old piece.now) }
    {
        match piece {
            Piece::Border(agents) => raise(&mut self.border, agents.len() as u128),
            Piece::Effects(entries) => raise(&mut self.effects, entries.as_slice().len() as u128),
            Piece::Move(agents) => raise(&mut self.moved, count_lived(next, agents) as u128),
            Piece::Hand(agents) => raise(&mut self.handed, agents.len() as u128),
            Piece::Census(_) | Piece::Show(_) | Piece::Ack | Piece::Halt(_) => Ok(()),
        }
    }

    /// Adds what another part gave; `NoMemory` where 128 bits do not hold a count.
    pub fn join(&mut self, given: Counts) -> Result<(), NoMemory>
        ensures { IfOk result (λ _. self.new ≡ together self.old given) }
    {
        raise(&mut self.border, given.border)?;
        raise(&mut self.effects, given.effects)?;
        raise(&mut self.moved, given.moved)?;
        raise(&mut self.handed, given.handed)
    }
}
