ghost use Rattle.std.specs.Prelude.{◌≡◌, ◌∷◌, [], IfOk};
ghost use Rattle.brace_eval.specs.declared.scene.Scene.{Scene};
ghost use Rattle.brace_eval.specs.inner.Tables.{IsScene, Notes};

use crate::heard::Heard;
use crate::scene::Scene;
use brace_draw::Drawer;
use brace_model::{Fault, Value, with_earlier};
use brace_num::NoMemory;

/// What was said and what faulted so far in a tick, and the draws of the tick.
#[derive(Debug, Drop)]
pub struct Ledger {
    pub heard: Heard,
    pub drawer: Drawer,
}

impl Ledger {
    /// Notes a fault.
    pub fn fault(&mut self, fault: Fault)
        ensures noted { (scene : Scene) → Notes scene [] (fault ∷ []) self.old self.new }
        ensures seed { self.new.drawer.seed ≡ self.old.drawer.seed }
    {
        self.heard.least = Some(with_earlier(self.heard.least, fault));
    }

    /// Joins a value to an effect of the agent of an id; there may be none.
    pub fn say(&mut self, scene: &Scene, id: u64, effect: u32, v: Value) -> Result<(), NoMemory>
        requires { IsScene scene.now }
        ensures noted { IfOk result (λ _. Notes scene.now
            (record { target = id; field = effect; value = v } ∷ []) [] self.old self.new) }
        ensures seed { self.new.drawer.seed ≡ self.old.drawer.seed }
    {
        scene.say(&mut self.heard, id, effect, v)
    }
}
