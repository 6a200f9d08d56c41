ghost use Rattle.std.specs.Prelude.{◌≡◌, List, [], ◌∷◌, ◌++◌, IfOk};
ghost use Rattle.brace_model.specs.declared.fault.Fault.{Fault};
ghost use Rattle.brace_model.specs.World.{RisesById};
ghost use Rattle.brace_model.specs.Query.{Saying};
ghost use Rattle.brace_eval.specs.Heard.{IsHeard};
ghost use Rattle.brace_eval.specs.inner.Tables.{IsScene};

use crate::heard::Heard;
use brace_model::{Agent, Program, Value};
use brace_num::NoMemory;
use std::alloc::Global;

/// The agents of a tick, and the id of each.
#[derive(Debug, Drop)]
pub struct Scene<'a> {
    pub program: &'a Program,
    /// By rising id.
    pub agents: &'a [Agent],
    /// The id of each agent.
    pub ids: Vec<u64>,
}

impl<'a> Scene<'a> {
    /// The scene of a program's agents, whose ids rise.
    pub fn open(
        alloc: Global,
        program: &'a Program,
        agents: &'a [Agent],
    ) -> Result<Scene<'a>, NoMemory>
        requires { RisesById agents.now }
        ensures scene { IfOk result IsScene }
        ensures program { IfOk result (λ scene. scene.program.now ≡ program.now) }
        ensures agents { IfOk result (λ scene. scene.agents.now ≡ agents.now) }
    {
        let mut ids = Vec::new(alloc);
        for agent in agents {
            ids.push(agent.id)?;
        }
        Ok(Scene {
            program,
            agents,
            ids,
        })
    }

    /// Joins a value to an effect of the agent of an id; there may be none.
    pub fn say(&self, heard: &mut Heard, id: u64, effect: u32, v: Value) -> Result<(), NoMemory>
        requires { IsScene self.now }
        ensures { IfOk result (λ _. (said : List Saying) (faults : List Fault)
            → IsHeard self.now.program.now self.now.agents.now said faults heard.old
            → IsHeard self.now.program.now self.now.agents.now
            (said ++ record { target = id; field = effect; value = v } ∷ []) faults heard.new) }
    {
        let Ok(i) = self.ids.binary_search(&id) else {
            return Ok(());
        };
        heard.say(self.program, self.agents, i, effect, v)?;
        Ok(())
    }
}
