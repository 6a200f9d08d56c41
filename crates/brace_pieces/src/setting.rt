ghost use Rattle.std.specs.Prelude.{◌≡◌};
ghost use Rattle.brace_cuts.specs.CutPlans.{IsPlan};
ghost use Rattle.brace_pieces.specs.Settings.{parts};

use brace_cuts::CutPlan;
use brace_model::Job;

/// A run over a cut plane.
#[derive(Debug, Drop)]
pub struct Setting {
    /// The run.
    pub job: Job,
    /// How the plane is cut, from tick 0 and from later ticks on.
    pub cuts: CutPlan,
    /// How many ticks an epoch has, 1 to 16.
    pub epoch: u64,
    /// Whether values are said by the owners of those to whom they are said.
    pub invert: bool,
}

impl Setting {
    /// How many parts the plane has, in every tick.
    pub fn parts(&self) -> u32
        requires { IsPlan self.now.epoch self.now.cuts }
        ensures { result ≡ parts self.now }
    {
        self.cuts.cuts_at(self.job.first).parts()
    }
}

/// What is done in a step, in the order of a tick.
#[derive(Debug, Clone, Copy, PartialEq, Eq, Drop)]
pub enum Stage {
    /// New cuts hold: agents go to their new owners.
    Hand,
    /// Agents are shown to the parts that they are near; then queries are evaluated.
    Border,
    /// What was said to agents of other parts goes to their owners.
    Effects,
    /// All parts tell each other how many agents live on and which have children.
    Census,
    /// Agents that moved to another part go there.
    Move,
    /// All agents of an epoch are shown to the publisher.
    Show,
}

/// A step of a run.
#[derive(Debug, Clone, Copy, PartialEq, Eq, Drop)]
pub struct Step {
    pub stage: Stage,
    /// The tick of the world that the step is about.
    pub tick: u64,
}
