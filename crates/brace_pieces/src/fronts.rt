ghost use Rattle.std.specs.Prelude.{◌≡◌, ◌+◌, ◌<◌, ◌≤◌, drop, length, slice_get, IfNone, IfSome};
ghost use Rattle.brace_pieces.specs.Settings.{LawfulSetting};
ghost use Rattle.brace_pieces.specs.Steps.{steps};
ghost use Rattle.brace_pieces.specs.Fronts.{to_show};

use crate::{Setting, Stage, Step};
use std::marker::Model;

/// The steps of a run, from each in which all is shown to the next. Contracts see the run's
/// setting, and behind how many steps this stands.
#[derive(Debug, Drop)]
pub struct Fronts<'a> {
    setting: &'a Setting,
    step: Option<Step>,
    number: u64,
}

impl<'a> Model for Fronts<'a> {
    ghost use Rattle.brace_pieces.specs.Fronts.{OnFronts};
    ghost use Rattle.brace_pieces.specs.inner.Held.{IsAtFront};

    ghost Value = { OnFronts };

    ghost use Rattle.std.specs.Coded.{codes};
    ghost use Rattle.brace_model.specs.contracts.program.Expr as expr;
    ghost use Rattle.brace_model.specs.contracts.program.Stmt as stmt;

    ghost coded = { Prim.hlevel (codes, expr.the_row.coded, stmt.the_row.coded) };

    ghost view = { λ f. record { setting = f.setting.now; number = f.number } };

    ghost invariant = { λ f. IsAtFront
        (record { setting = f.setting.now; number = f.number }) f.step };
}

impl<'a> Fronts<'a> {
    /// Before the first step of a run. Neither this call nor another takes memory.
    pub fn of(setting: &'a Setting) -> Fronts<'a>
        requires lawful { LawfulSetting setting.now }
        ensures { result ≡ record { setting = setting.now; number = 0 } }
    {
        Fronts {
            setting,
            step: setting.first_step(),
            number: 0,
        }
    }

    /// Goes on behind the next step in which all is shown, or behind the last one where all is
    /// shown in none, and tells behind how many steps that is; None where no step is left.
    pub fn next(&mut self) -> Option<u64>
        ensures place { self.new.number ≡ self.old.number
            + to_show (drop self.old.number (steps self.old.setting)) }
        ensures same { self.new.setting ≡ self.old.setting }
        ensures within { self.new.number ≤ length (steps self.old.setting) }
        ensures on { IfSome result (λ number.
            (number ≡ self.new.number) × (self.old.number < number)) }
        ensures over { IfNone result
            ((self.new ≡ self.old) × (self.old.number ≡ length (steps self.old.setting))) }
    {
        let before = self.number;
        let (step, number) = behind_show(self.setting, self.step, before);
        self.step = step;
        self.number = number;
        if before < number {
            return Some(number);
        }
        None
    }
}

/// The step behind the next one in which all is shown, or behind the last, and how many are before
/// it, from a step of the run with so many before it.
fn behind_show(setting: &Setting, step: Option<Step>, number: u64) -> (Option<Step>, u64)
    requires lawful { LawfulSetting setting.now }
    requires within { number ≤ length (steps setting.now) }
    requires stands { step ≡ slice_get (steps setting.now) number }
    ensures place { result.1 ≡ number + to_show (drop number (steps setting.now)) }
    ensures within { result.1 ≤ length (steps setting.now) }
    ensures stands { result.0 ≡ slice_get (steps setting.now) result.1 }
{
    let mut next = step;
    let mut count = number;
    while let Some(at) = next {
        next = setting.step_after(at);
        count += 1;
        if at.stage == Stage::Show {
            return (next, count);
        }
    }
    (next, count)
}
