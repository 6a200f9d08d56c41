ghost use Rattle.std.specs.Prelude.{◌≡◌, ◌+◌, ◌<◌, ◌≤◌, IfOk};
ghost use Rattle.std.specs.Int.{int_max};
ghost use Rattle.std.specs.Vec.{vec_capacity};
ghost use Rattle.brace_core.specs.declared.name.Turn.TheVariants.{Done};
ghost use Rattle.brace_core.specs.Exchanges.{due, due_to};
ghost use Rattle.brace_cuts.specs.CutPlans.{IsPlan};
ghost use Rattle.brace_pieces.specs.Settings.{LawfulSetting, greatest_reach, range, parts};
ghost use Rattle.brace_pieces.specs.Steps.{schedule};
ghost use Rattle.brace_pieces.specs.Courses.{IsCourse, at_start, met_in, step_of, others_of, turn_of, past_of, gone_on};

use crate::{Setting, Step};
use brace_core::{Name, Turn};
use brace_num::NoMemory;
use std::alloc::Global;
use std::marker::Model;

/// Where an actor of a run stands among its turns. Contracts see the run's setting, the actor, the
/// number of the step, and how many turns it made in that step.
#[derive(Debug, Drop)]
pub struct Course<'a> {
    setting: &'a Setting,
    actor: u32,
    /// How far apart parts may stand that meet, in millionths.
    far: i64,
    step: Option<Step>,
    number: u64,
    /// Whom the actor meets in the step.
    others: Vec<u32>,
    made: usize,
}

impl<'a> Model for Course<'a> {
    ghost use Rattle.std.specs.Vec.{vec_capacity};
    ghost use Rattle.brace_pieces.specs.Courses.{OnCourse};
    ghost use Rattle.brace_pieces.specs.inner.Held.{IsHeld};

    ghost Value = { OnCourse };

    ghost use Rattle.std.specs.Coded.{codes};
    ghost use Rattle.brace_model.specs.contracts.program.Expr as expr;
    ghost use Rattle.brace_model.specs.contracts.program.Stmt as stmt;

    ghost coded = { Prim.hlevel (codes, expr.the_row.coded, stmt.the_row.coded) };

    ghost view = { λ c. record {
      setting = c.setting.now;
      actor = c.actor;
      number = c.number;
      made = c.made;
    } };

    ghost invariant = { λ c. IsHeld (record {
      setting = c.setting.now;
      actor = c.actor;
      number = c.number;
      made = c.made;
    }) c.far c.step c.others.items (vec_capacity c.others) };
}

impl<'a> Course<'a> {
    /// The course of an actor before its first turn: a part by its number, or the publisher by the
    /// number of parts. Nothing behind this call takes memory.
    pub fn make(alloc: Global, setting: &'a Setting, actor: u32) -> Result<Course<'a>, NoMemory>
        requires lawful { LawfulSetting setting.now }
        requires is_actor { actor < parts setting.now + 1 }
        ensures start { IfOk result (λ course. course ≡ at_start setting.now actor) }
    {
        let far = setting.farthest();
        let step = setting.first_step();
        let mut others = Vec::with_capacity(alloc, setting.parts() as usize + 1)?;
        gather(setting, far, step, actor, &mut others);
        Ok(Course {
            setting,
            actor,
            far,
            step,
            number: 0,
            others,
            made: 0,
        })
    }

    /// The setting of the run.
    pub fn setting(&self) -> &'a Setting
        ensures setting { result.now ≡ self.now.setting }
        ensures lawful { LawfulSetting self.now.setting }
    {
        self.setting
    }

    /// The actor's number.
    pub fn actor(&self) -> u32
        ensures actor { result ≡ self.now.actor }
        ensures course { IsCourse self.now }
    {
        self.actor
    }

    /// The number of the step that it stands in, counted from 0.
    pub fn number(&self) -> u64
        ensures { result ≡ self.now.number }
    {
        self.number
    }

    /// How many turns it made in that step.
    pub fn made(&self) -> usize
        ensures { result ≡ self.now.made }
    {
        self.made
    }

    /// The step that it stands in; None behind the last one.
    pub fn step(&self) -> Option<Step>
        ensures { result ≡ step_of self.now }
    {
        self.step
    }

    /// Whom it meets in that step, by rising number.
    pub fn others(&self) -> &[u32]
        ensures { result.now ≡ others_of self.now }
    {
        self.others.as_slice()
    }

    /// Its next turn: in each step it puts to each whom it meets, then takes from each, then works.
    pub fn turn(&self) -> Turn
        ensures turn { result ≡ turn_of self.now }
        ensures due { result ≡ due schedule self.now.setting self.now.actor (past_of self.now) }
    {
        if self.step.is_none() {
            return Turn::Done;
        }
        let step = self.number;
        let count = self.others.len();
        if self.made < count {
            return Turn::Put(Name {
                step,
                from: self.actor,
                to: self.others[self.made],
            });
        }
        if self.made - count < count {
            return Turn::Take(Name {
                step,
                from: self.others[self.made - count],
                to: self.actor,
            });
        }
        Turn::Work
    }

    /// Its next turn in the first steps of the run, so many; Done behind them.
    pub fn turn_to(&self, end: u64) -> Turn
        ensures { result ≡ due_to schedule self.now.setting end self.now.actor (past_of self.now) }
    {
        if end <= self.number {
            return Turn::Done;
        }
        self.turn()
    }

    /// Goes on behind its next turn. It takes no memory.
    pub fn go_on(&mut self)
        requires is_left { turn_of self.old ≡ Done → ⊥ }
        ensures place { self.new ≡ gone_on self.old }
        ensures past { past_of self.new ≡ past_of self.old + 1 }
        ensures same_setting { self.new.setting ≡ self.old.setting }
        ensures same_actor { self.new.actor ≡ self.old.actor }
    {
        if self.made / 2 < self.others.len() {
            self.made += 1;
            return;
        }
        if let Some(at) = self.step {
            self.step = self.setting.step_after(at);
            self.number += 1;
            self.made = 0;
            gather(
                self.setting,
                self.far,
                self.step,
                self.actor,
                &mut self.others,
            );
        }
    }
}

/// Writes down whom an actor meets in a step, where there is room for all others.
fn gather(setting: &Setting, far: i64, step: Option<Step>, actor: u32, others: &mut Vec<u32>)
    requires far { far ≡ int_max (range setting.now) (greatest_reach setting.now.job.program) }
    requires plan { IsPlan setting.now.epoch setting.now.cuts }
    requires room { parts setting.now + 1 ≤ vec_capacity others.old }
    ensures met { others.new.items ≡ met_in setting.now step actor }
    ensures room { vec_capacity others.new ≡ vec_capacity others.old }
{
    others.clear();
    let Some(at) = step else {
        return;
    };
    for q in 0..setting.parts() + 1 {
        if setting.meet_within(far, at, actor, q) {
            others.push_reserved(q);
        }
    }
}
