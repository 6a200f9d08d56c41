ghost use Rattle.std.specs.Prelude.{◌≡◌, ◌++◌, flat_map, IfOk};
ghost use Rattle.std.specs.List.Sorted.{IsPermutation};
ghost use Rattle.std.specs.Vec.{vec_capacity};
ghost use Rattle.brace_cuts.specs.Space.{LawfulCuts};
ghost use Rattle.brace_pieces.specs.Owned.{owned};
ghost use Rattle.brace_pieces.specs.Exchanged.{brought};

use brace_cuts::Cuts;
use brace_model::{Agent, Herd, Program};
use brace_num::NoMemory;
use brace_pieces::{Piece, owns};
use std::alloc::Global;

/// The agents that a piece brings. It takes no memory.
fn herd_in(alloc: Global, piece: Piece) -> Herd
    ensures { result ≡ brought piece }
{
    match piece {
        Piece::Border(agents) => agents,
        Piece::Move(agents) => agents,
        Piece::Hand(agents) => agents,
        Piece::Effects(_entries) => Herd::new(alloc),
        Piece::Census(_census) => Herd::new(alloc),
        Piece::Show(_worlds) => Herd::new(alloc),
        Piece::Ack => Herd::new(alloc),
        Piece::Halt(_cause) => Herd::new(alloc),
    }
}

/// Some agents and all that pieces bring, in some order. The pieces go, and their places stay.
pub fn gathered(alloc: Global, mut agents: Herd, pieces: &mut Vec<Piece>) -> Result<Herd, NoMemory>
    ensures same { IfOk result (λ all.
        IsPermutation (agents ++ flat_map brought pieces.old.items) all) }
    ensures places { vec_capacity pieces.new ≡ vec_capacity pieces.old }
{
    while let Some(piece) = pieces.pop() {
        agents.append(herd_in(alloc, piece))?;
    }
    Ok(agents)
}

/// Those of some agents that a part owns under some cuts.
pub fn kept(program: &Program, cuts: &Cuts, part: u32, mut agents: Vec<Agent>) -> Vec<Agent>
    requires { LawfulCuts cuts.now }
    ensures { result.items ≡ owned program.now cuts.now part agents.items }
{
    agents.retain(|a| owns(program, cuts, part, a));
    agents
}
