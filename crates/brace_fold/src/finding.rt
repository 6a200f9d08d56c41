ghost use Rattle.std.specs.Prelude.{◌≡◌, ◌≤◌, pos, length, map, slice_get, Some, IfOk, IfSome, OnOk};
ghost use Rattle.brace_model.specs.declared.world.Agent.{Agent};
ghost use Rattle.brace_model.specs.World.{number, value_at};
ghost use Rattle.brace_model.specs.Value.{Scope};
ghost use Rattle.brace_plan.specs.Acts.{limit_in};
ghost use Rattle.brace_fold.specs.declared.cells.Cells.{Cells};
ghost use Rattle.brace_fold.specs.inner.Crowds.{IsScene, IsIn, rows};
ghost use Rattle.brace_fold.specs.inner.Glances.{Finds, IsGlance, IsSought};
ghost use Rattle.brace_fold.specs.inner.Sights.{AreLed, IsEye, cut_in};

use crate::cells::Runs;
use crate::columns::read;
use crate::crowd::Crowd;
use crate::glancing::Glance;
use crate::scene::Scene;
use crate::seeing::{Cut, Eye, look_around};
use brace_code::{Lane, Redo};
use brace_model::Class;
use brace_num::List;
use brace_plan::{Bound, Limit};
use std::alloc::Global;

/// What is used again from agent to agent of a loop.
#[derive(Drop)]
pub struct Room {
    pub runs: Runs,
    pub cuts: Vec<Cut>,
}

impl Room {
    /// Room that was not used yet.
    pub fn new(alloc: Global) -> Room
        ensures { (cells : Cells) → AreLed cells result.runs }
    {
        Room {
            runs: Runs::none(),
            cuts: Vec::new(alloc),
        }
    }
}

/// What a loop looks for: agents of a class within bounds. A glance shows all there are.
#[derive(Clone, Copy)]
pub struct Sought<'a> {
    pub class: u32,
    pub bounds: &'a List<Bound>,
    pub glance: Option<Glance<'a>>,
}

/// How far agents of a class see.
fn range_of(class: &Class) -> Result<u64, Redo>
    ensures { IfOk result (λ range. pos range ≡ class.now.visible) }
{
    match u64::try_from(class.visible) {
        Ok(range) => Ok(range),
        Err(_) => Err(Redo),
    }
}

impl<'a> Scene<'a> {
    /// The word of a state of the agent of a row.
    fn state(&self, state: u32, row: u32) -> Result<i64, Redo>
        requires { IsScene self.now }
        ensures { IfOk result (λ word. (a : Agent)
            → slice_get (rows self.now) row ≡ Some a
            → word ≡ number (value_at a.states state)) }
    {
        match self.states.get(state as usize) {
            Some(column) => read(column, row),
            None => Err(Redo),
        }
    }

    /// A limit in a lane.
    fn limit(&self, crowd: &Crowd, lane: &Lane, limit: Limit) -> Result<i64, Redo>
        requires { IsScene self.now }
        ensures { IfOk result (λ n. (scope : Scope)
            → IsIn self.now crowd.now lane.now scope → n ≡ limit_in scope limit) }
    {
        match limit {
            Limit::Number(n) => Ok(n),
            Limit::State(place) => self.state(place, lane.this),
            Limit::Constant(n) => match crowd.locals.get(n as usize) {
                Some(column) => read(column.as_slice(), lane.place),
                None => Err(Redo),
            },
        }
    }

    /// Replaces cuts by bounds in a lane.
    fn cut(
        &self,
        crowd: &Crowd,
        lane: &Lane,
        bounds: &List<Bound>,
        cuts: &mut Vec<Cut>,
    ) -> Result<(), Redo>
        requires { IsScene self.now }
        ensures { OnOk result ((scope : Scope) → IsIn self.now crowd.now lane.now scope
            → cuts.new.items ≡ map (cut_in scope) bounds.now) }
    {
        cuts.clear();
        for bound in bounds.as_slice() {
            cuts.push(Cut {
                axis: bound.axis,
                side: bound.side,
                limit: self.limit(crowd, lane, bound.limit)?,
            })?;
        }
        Ok(())
    }

    /// What an agent looks for.
    fn eye(&self, row: u32, class: u32) -> Result<Eye, Redo>
        requires { IsScene self.now }
        ensures { IfOk result (λ eye. (a : Agent)
            → slice_get (rows self.now) row ≡ Some a
            → IsEye self.now.program.now row a class eye) }
    {
        let Some(number) = self.classes.get(row as usize) else {
            return Err(Redo);
        };
        let Some(own) = self.program.classes.as_slice().get(*number as usize) else {
            return Err(Redo);
        };
        Ok(Eye {
            x: self.state(own.x, row)?,
            y: self.state(own.y, row)?,
            range: range_of(own)?,
            class,
            place: row,
        })
    }

    /// Where all agents stand, if all are of a class and their lower halves tell it.
    fn glance(&self, class: u32) -> Option<Glance<'a>>
        requires { IsScene self.now }
        ensures { IfSome result (IsGlance self.now class) }
    {
        let classes = self.program.classes.as_slice();
        if class != 0 || classes.len() != 1 {
            return None;
        }
        let (Ok(visible), Some(halves)) = (range_of(&classes[0]), self.cells.halves.as_ref()) else {
            return None;
        };
        let Ok(range) = i32::try_from(visible) else {
            return None;
        };
        Some(Glance {
            xs: halves.xs.as_slice(),
            ys: halves.ys.as_slice(),
            range,
        })
    }

    /// What a loop looks for.
    pub fn sought<'b>(&'b self, class: u32, bounds: &'b List<Bound>) -> Sought<'b>
        requires { IsScene self.now }
        ensures class { result.class ≡ class }
        ensures bounds { result.bounds.now ≡ bounds.now }
        ensures is { IsSought self.now result }
    {
        let glance = if bounds.as_slice().is_empty() {
            self.glance(class)
        } else {
            None
        };
        Sought {
            class,
            bounds,
            glance,
        }
    }

    /// Appends the rows, rising, of the agents that a loop takes in a lane behind so many rows, and
    /// gives the count of rows with them.
    pub fn find(
        &self,
        crowd: &Crowd,
        lane: &Lane,
        sought: &Sought,
        room: &mut Room,
        near: &mut Vec<u32>,
        from: usize,
    ) -> Result<usize, Redo>
        requires scene { IsScene self.now }
        requires led { AreLed self.now.cells.now room.old.runs }
        requires sought { IsSought self.now sought.now }
        requires from { from ≤ length near.old.items }
        ensures led { IfOk result (λ _. AreLed self.now.cells.now room.new.runs) }
        ensures finds { IfOk result (λ count. Finds self.now crowd.now lane.now sought.now from
            count near.old.items near.new.items) }
    {
        self.cells.lead(&mut room.runs, lane.this)?;
        if let Some(glance) = &sought.glance {
            return glance.look_around(&room.runs, lane.this, near, from);
        }
        let eye = self.eye(lane.this, sought.class)?;
        self.cut(crowd, lane, sought.bounds, &mut room.cuts)?;
        look_around(self.cells, &room.runs, &eye, &room.cuts, near, from)
    }
}
