ghost use Rattle.std.specs.Prelude.{◌≡◌, List, [], if◌then◌else◌, slice_get, Some, IfOk, IfSome, OnOk};
ghost use Rattle.brace_model.specs.Value.{Scope};
ghost use Rattle.brace_fold.specs.inner.Crowds.{IsScene, IsOfClass, Stands, has_outer, has_inner, rows};
ghost use Rattle.brace_fold.specs.inner.Deeds.{Worths};

use crate::cells::Cells;
use crate::columns::views;
use crate::crowd::{Crowd, Depth, has_inner, has_outer};
use brace_code::{Code, Draws, Frame, Redo};
use brace_model::Program;
use brace_num::List;
use std::alloc::Global;

/// What queries are asked over, in columns by the rows of the agents.
#[derive(Clone, Copy)]
pub struct Scene<'a> {
    pub alloc: Global,
    pub program: &'a Program,
    pub seed: u64,
    pub tick: u64,
    /// A column for each state.
    pub states: &'a [&'a [i64]],
    pub classes: &'a [u32],
    pub ids: &'a [u64],
    pub draws: &'a [Draws<'a>],
    pub cells: &'a Cells,
}

impl<'a> Scene<'a> {
    /// The columns of the states, or none.
    fn states_if(&self, there: bool) -> &[&'a [i64]]
        ensures { result.now ≡ (if there then self.now.states.now else []) }
    {
        match there {
            true => self.states,
            false => &[],
        }
    }

    /// The number of the class of the agent of a row.
    pub fn class_at(&self, row: u32) -> Option<u32>
        ensures { IfSome result (λ number. slice_get self.now.classes.now row ≡ Some number) }
    {
        self.classes.get(row as usize).copied()
    }

    /// Tells Redo where the agent of a row is not one of a class.
    pub fn expect_class(&self, row: u32, class: u32) -> Result<(), Redo>
        requires { IsScene self.now }
        ensures { OnOk result (IsOfClass (rows self.now) class row) }
    {
        let Some(number) = self.class_at(row) else {
            return Err(Redo);
        };
        if number != class {
            return Err(Redo);
        }
        Ok(())
    }

    /// What lanes of a depth read.
    pub fn frame<'b>(&'b self, depth: Depth, locals: &'b [&'b [i64]]) -> Frame<'b>
        ensures this { result.this.now ≡ self.now.states.now }
        ensures outer { result.outer.now ≡ (if has_outer depth then self.now.states.now else []) }
        ensures inner { result.inner.now ≡ (if has_inner depth then self.now.states.now else []) }
        ensures locals { result.locals.now ≡ locals.now }
        ensures totals { result.totals.now ≡ [] }
        ensures draws { result.draws.now ≡ self.now.draws.now }
    {
        Frame {
            this: self.states,
            outer: self.states_if(has_outer(depth)),
            inner: self.states_if(has_inner(depth)),
            locals,
            totals: &[],
            draws: self.draws,
        }
    }

    /// The word of code in each lane of a crowd.
    pub fn eval(&self, code: &Code, crowd: &Crowd) -> Result<List<i64>, Redo>
        requires { IsScene self.now }
        ensures { IfOk result (λ words. (scopes : List Scope)
            → Stands self.now crowd.now scopes → Worths code.now scopes words) }
    {
        let locals = views(self.alloc, &crowd.locals)?;
        let frame = self.frame(crowd.depth, &locals);
        code.eval_lanes(self.alloc, &frame, &crowd.lanes)
    }
}
