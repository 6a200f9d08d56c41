ghost use Rattle.std.specs.Prelude.{◌≡◌, ◌<◌, length, pos, slice_index_or};
ghost use Rattle.brace_model.specs.declared.world.Agent.{Agent};
ghost use Rattle.brace_model.specs.World.{x_of, y_of};
ghost use Rattle.brace_desk.specs.Sums.{place_along, sums_of};

use crate::{PubFault, Publisher};
use brace_model::{Herd, Program};
use brace_pieces::{Setting, Shown, class_at};
use std::alloc::Global;
use std::marker::Model;

/// Sums up where the agents of the world stand that it was shown last.
#[derive(Drop)]
pub struct SumPublisher {
    sums: (i128, i128),
}

impl Model for SumPublisher {
    ghost use Rattle.std.specs.Prelude.{ℤ};

    ghost Value = { ℤ × ℤ };

    ghost view = { λ p. p.sums };
}

impl SumPublisher {
    /// One that was shown nothing yet. It takes no memory.
    pub fn make() -> SumPublisher
        ensures { result ≡ (pos 0, pos 0) }
    {
        SumPublisher { sums: (0, 0) }
    }

    /// The sums of x and of y over the agents of the world that it was shown last, in millionths; 0
    /// and 0 before. It takes no memory.
    pub fn sums(&self) -> (i128, i128)
        ensures { result ≡ self.now }
    {
        self.sums
    }
}

impl Publisher for SumPublisher {
    ghost use Rattle.std.specs.Prelude.{ℤ, [], ◌≡◌, Ok, ⊤};
    ghost use Rattle.brace_desk.specs.Sums.{sums_after};

    ghost State = { ℤ × ℤ };

    ghost state = { λ p. p };

    ghost after = { sums_after };

    ghost cut = { λ _ _ _ _ _ _. ⊥ };

    ghost writes = { λ _. 0 };

    ghost saves = { λ _. 0 };

    ghost loans = { λ _. [] };

    ghost fits = { λ _ _. ⊤ };

    fn epoch(
        &mut self,
        _alloc: Global,
        setting: &Setting,
        _tick: u64,
        shown: &[Shown],
    ) -> Result<(), PubFault> {
        if let Some(world) = shown.last() {
            self.sums = sums(&setting.job.program, &world.agents);
        }
        Ok(())
    }
}

/// Where the agent at a place stands, in millionths, along x and along y.
fn place(program: &Program, agents: &Herd, at: usize) -> (i64, i64)
    requires { at < length agents.now }
    ensures x { (d : Agent)
        → result.0 ≡ place_along x_of program.now (slice_index_or agents.now at d) }
    ensures y { (d : Agent)
        → result.1 ≡ place_along y_of program.now (slice_index_or agents.now at d) }
{
    match class_at(program, agents, at) {
        None => (0, 0),
        Some(class) => (agents.number(at, class.x), agents.number(at, class.y)),
    }
}

/// The sums of where agents stand, in millionths, along x and along y.
fn sums(program: &Program, agents: &Herd) -> (i128, i128)
    ensures { result ≡ sums_of program.now agents.now }
{
    let (mut along_x, mut along_y) = (0, 0);
    for at in 0..agents.len() {
        let (x, y) = place(program, agents, at);
        along_x += i128::from(x);
        along_y += i128::from(y);
    }
    (along_x, along_y)
}
