ghost use Rattle.std.specs.Prelude.{IfOk};
ghost use Rattle.brace_model.specs.Lawful.{LawfulProgram};
ghost use Rattle.brace_pieces.specs.declared.setting.Setting.{Setting};
ghost use Rattle.brace_herd.specs.inner.Asked.{HasRulesOf};
ghost use Rattle.brace_herd.specs.inner.Hearing.{CanHear, HearsOver};
ghost use Rattle.brace_herd.specs.Workers.{AreQueriesOf};

use crate::asking::{Hearing, Scene};
use crate::places::all_places;
use brace_eval::Heard;
use brace_fold::{Redo, fold};
use brace_invert::split;
use brace_model::Agent;
use brace_num::NoMemory;
use brace_pieces::Setting;
use brace_plan::{Answer, Plans, Room, plan};
use std::alloc::Global;

/// The queries that a part asks: those of the script, or those of the forward and of the inverse
/// program of its inversion.
#[derive(Drop)]
pub enum Queries {
    Script(Plans),
    Inverted(Plans, Plans),
}

impl Queries {
    /// The queries that a part asks in a run of a lawful program.
    pub fn of(alloc: Global, setting: &Setting) -> Result<Queries, NoMemory>
        requires { LawfulProgram setting.now.job.program }
        ensures { IfOk result (AreQueriesOf setting.now) }
    {
        let program = &setting.job.program;
        if !setting.invert {
            return Ok(Queries::Script(plan(alloc, program)?));
        }
        let (forward, inverse) = split(alloc, program)?;
        let forward = plan(alloc, &forward.program)?;
        let inverse = plan(alloc, &inverse.program)?;
        Ok(Queries::Inverted(forward, inverse))
    }

    /// Plans that have the rules of the script: with inversion those of the forward program.
    pub(crate) fn rules(&self) -> &Plans
        ensures { (setting : Setting) → AreQueriesOf setting self.now
            → HasRulesOf setting.job.program result.now }
    {
        match self {
            Queries::Script(plans) => plans,
            Queries::Inverted(forward, _) => forward,
        }
    }

    /// What the queries of a part say to the agents that it holds, and their least fault: those of
    /// its own agents, which stand at some places; with inversion those of the forward program of
    /// its own agents, and of the inverse program of all that it holds. They are asked in lanes,
    /// and where that can't be, agent by agent.
    pub(crate) fn heard(
        &self,
        alloc: Global,
        setting: &Setting,
        tick: u64,
        places: &[u32],
        held: &[Agent],
    ) -> Result<Heard, NoMemory>
        requires { CanHear setting.now self.now tick places.now held.now }
        ensures { IfOk result (HearsOver setting.now tick places.now held.now) }
    {
        if let Ok(heard) = heard_in_lanes(alloc, self, setting, tick, places, held) {
            return Ok(heard);
        }
        let job = &setting.job;
        let scene = Scene::open(alloc, &job.program, tick, held)?;
        let mut hearing = Hearing {
            heard: Heard::nothing(alloc, &job.program, held)?,
            room: Room::make(alloc, job.seed)?,
            answer: Answer::none(alloc),
        };
        match self {
            Queries::Script(plans) => scene.ask_some(plans, places, &mut hearing)?,
            Queries::Inverted(forward, inverse) => {
                let all = all_places(alloc, held)?;
                scene.ask_some(forward, places, &mut hearing)?;
                scene.ask_some(inverse, &all, &mut hearing)?;
            }
        }
        Ok(hearing.heard)
    }
}

/// What the queries of a part say, asked in lanes; `Redo` where they are to be asked in turn.
fn heard_in_lanes(
    alloc: Global,
    queries: &Queries,
    setting: &Setting,
    tick: u64,
    places: &[u32],
    held: &[Agent],
) -> Result<Heard, Redo>
    requires { CanHear setting.now queries.now tick places.now held.now }
    ensures { IfOk result (HearsOver setting.now tick places.now held.now) }
{
    let program = &setting.job.program;
    let seed = setting.job.seed;
    let mut heard = Heard::nothing(alloc, program, held)?;
    match queries {
        Queries::Script(plans) => fold(alloc, plans, seed, tick, held, places, &mut heard)?,
        Queries::Inverted(forward, inverse) => {
            let all = all_places(alloc, held)?;
            fold(alloc, forward, seed, tick, held, places, &mut heard)?;
            fold(alloc, inverse, seed, tick, held, &all, &mut heard)?;
        }
    }
    Ok(heard)
}
