ghost use Rattle.std.specs.Prelude.{◌≤◌, ◌^◌, ◌++◌, List, OnOk};
ghost use Rattle.brace_model.specs.declared.fault.Fault.{Fault};
ghost use Rattle.brace_model.specs.World.{RisesById};
ghost use Rattle.brace_model.specs.Query.{Saying};
ghost use Rattle.brace_eval.specs.Heard.{IsHeard, said_by, faults_by};

use crate::heard::Heard;
use crate::ledger::Ledger;
use crate::query::queries;
use crate::scene::Scene;
use brace_draw::Drawer;
use brace_model::{Agent, Program};
use brace_num::NoMemory;
use std::alloc::Global;

impl Heard {
    /// Evaluates the queries of some agents over a list whose ids rise, and joins what they say to
    /// the agents of the list. The tick is at most 2^32. `NoMemory` where memory is refused, or
    /// where a total is beyond 128 bits; what was heard before is lost then.
    pub fn hear<'a>(
        &mut self,
        alloc: Global,
        program: &'a Program,
        seed: u64,
        tick: u64,
        agents: &'a [Agent],
        asking: &'a [Agent],
    ) -> Result<(), NoMemory>
        requires rises { RisesById agents.now }
        requires ticks { tick ≤ 2 ^ 32 }
        ensures heard { OnOk result ((said : List Saying) (faults : List Fault)
            → IsHeard program.now agents.now said faults self.old
            → IsHeard program.now agents.now
            (said ++ said_by program.now seed tick agents.now asking.now)
            (faults ++ faults_by program.now seed tick agents.now asking.now) self.new) }
    {
        let scene = Scene::open(alloc, program, agents)?;
        let mut ledger = Ledger {
            heard: std::mem::replace(self, Heard::empty(alloc)),
            drawer: Drawer::make(seed),
        };
        queries(alloc, &scene, tick, asking, &mut ledger)?;
        *self = ledger.heard;
        Ok(())
    }
}
