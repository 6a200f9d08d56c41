ghost use Rattle.std.specs.Prelude.{◌≡◌, ◌+◌, ℕ, Some, slice_get};
ghost use Rattle.brace_cuts.specs.CutPlans.{IsPlan};
ghost use Rattle.brace_pieces.specs.Settings.{is_end};
ghost use Rattle.brace_pieces.specs.Steps.{steps, is_recut};
ghost use Rattle.brace_pieces.specs.inner.Walks.{steps_from, ticks_from, behind_effects, behind_move};

use crate::{Setting, Stage, Step};
use brace_model::has_births;

impl Setting {
    /// The first step of the run. It takes no memory.
    pub fn first_step(&self) -> Option<Step>
        requires { IsPlan self.now.epoch self.now.cuts }
        ensures { result ≡ slice_get (steps self.now) 0 }
    {
        self.first_from(self.job.first)
    }

    /// The step behind a step of the run; None behind the last one. It takes no memory.
    pub fn step_after(&self, at: Step) -> Option<Step>
        requires { IsPlan self.now.epoch self.now.cuts }
        ensures next { (k : ℕ) → slice_get (steps self.now) k ≡ Some at
            → result ≡ slice_get (steps self.now) (k + 1) }
    {
        let tick = at.tick;
        let stage = match at.stage {
            Stage::Show => return self.first_of_ticks(tick),
            Stage::Move => return self.behind_move(tick),
            Stage::Hand => Stage::Border,
            Stage::Border if !self.invert => Stage::Effects,
            Stage::Border => self.behind_effects(),
            Stage::Effects => self.behind_effects(),
            Stage::Census => Stage::Move,
        };
        Some(Step { stage, tick })
    }

    /// The stage behind that in which all is said.
    fn behind_effects(&self) -> Stage
        ensures { result ≡ behind_effects self.now }
    {
        if has_births(&self.job.program) {
            Stage::Census
        } else {
            Stage::Move
        }
    }

    /// The step behind the last one that each tick has, for a tick of the run.
    fn behind_move(&self, tick: u64) -> Option<Step>
        requires { IsPlan self.now.epoch self.now.cuts }
        ensures { result ≡ behind_move self.now tick }
    {
        if tick < self.job.last {
            self.first_from(tick + 1)
        } else {
            None
        }
    }

    /// The first step behind those that lead to the world of a tick.
    fn first_from(&self, tick: u64) -> Option<Step>
        requires { IsPlan self.now.epoch self.now.cuts }
        ensures { result ≡ slice_get (steps_from self.now tick) 0 }
    {
        if self.is_end(tick) {
            return Some(Step {
                stage: Stage::Show,
                tick,
            });
        }
        self.first_of_ticks(tick)
    }

    /// The first step of the ticks from one on.
    fn first_of_ticks(&self, tick: u64) -> Option<Step>
        requires { IsPlan self.now.epoch self.now.cuts }
        ensures { result ≡ slice_get (ticks_from self.now tick) 0 }
    {
        if tick >= self.job.last {
            return None;
        }
        let stage = if self.is_recut(tick) {
            Stage::Hand
        } else {
            Stage::Border
        };
        Some(Step { stage, tick })
    }

    /// Whether an epoch ends at a tick.
    pub fn is_end(&self, tick: u64) -> bool
        ensures { result ≡ is_end self.now tick }
    {
        tick == self.job.last || (tick > self.job.first && tick.is_multiple_of(self.epoch))
    }

    /// Whether other cuts hold from a tick on that is not the run's first.
    fn is_recut(&self, tick: u64) -> bool
        requires { IsPlan self.now.epoch self.now.cuts }
        ensures { result ≡ is_recut self.now tick }
    {
        let lines = self.cuts.lines.as_slice();
        let behind = lines.partition_point(|line| line.tick <= tick);
        tick > self.job.first && lines[behind - 1].tick == tick
    }
}
