ghost use Rattle.std.specs.Prelude.{◌≡◌, IfOk};

use crate::desk::Desk;
use brace_code::Stack;
use brace_draw::Drawer;
use brace_model::Value;
use brace_num::NoMemory;
use std::alloc::Global;
use std::marker::Model;

/// What queries need while they are asked: their draws, and room that they use again. Contracts see
/// the seed of the draws.
#[derive(Drop)]
pub struct Room {
    pub(crate) desk: Desk,
    pub(crate) locals: Vec<Value>,
}

impl Model for Room {
    ghost use Rattle.std.specs.Prelude.{ℕ};

    ghost Value = { ℕ };

    ghost view = { λ room. room.desk.drawer.seed };
}

impl Room {
    /// Room for the queries of a run with that seed.
    pub fn make(alloc: Global, seed: u64) -> Result<Room, NoMemory>
        ensures { IfOk result (λ room. room ≡ seed) }
    {
        let desk = Desk {
            drawer: Drawer::make(seed),
            stack: Stack::make(alloc, 0)?,
            trail: Vec::new(alloc),
            spare: Vec::new(alloc),
        };
        Ok(Room {
            desk,
            locals: Vec::new(alloc),
        })
    }
}
