ghost use Rattle.std.specs.Prelude.{◌≡◌, ◌<◌, ◌≤◌, ◌+◌, ◌-◌, ◌++◌, [], List, true, length, map, flat_map, replicate, take, IfOk, OnOk};
ghost use Rattle.std.specs.Vec.{vec_capacity, vec_len};
ghost use Rattle.brace_model.specs.Value.{Scope};
ghost use Rattle.brace_fold.specs.declared.crowd.Depth.{Depth};
ghost use Rattle.brace_fold.specs.inner.Crowds.{IsFull, IsScene, Stands, deeper, entered, has_outer, lanes_inside, spread};
ghost use Rattle.brace_fold.specs.inner.Deeds.{into, between};
ghost use Rattle.brace_fold.specs.inner.Sights.{AreLed};

use crate::crowd::{Crowd, Depth, Stretch, has_outer};
use crate::finding::Room;
use crate::rows::lane_at;
use crate::scene::Scene;
use brace_code::{Lane, Lanes, Redo, Rows};
use brace_num::List;
use brace_plan::Bound;
use std::alloc::Global;

/// A crowd takes no more agents once it has so many lanes.
const MANY: usize = 4096;

/// Rows have room for so many lanes before they grow.
const ROOM: usize = MANY + 512;

/// A part of a loop's lanes, and the place of the first lane whose agents are not yet in it.
#[derive(Drop)]
pub struct Part {
    pub inside: Crowd,
    pub next: usize,
}

/// The depth inside a loop.
fn deeper(depth: Depth) -> Depth
    ensures { result ≡ deeper depth }
{
    match depth {
        Depth::Outside => Depth::Once,
        Depth::Once | Depth::Twice => Depth::Twice,
    }
}

/// Rows of lanes inside a loop: those of its agents, of the agents that ask and of constants, and
/// inside two loops those of the agents of the outer one. There are so many; the list of those of
/// the agents may be longer.
#[derive(Drop)]
struct Entered {
    count: usize,
    near: Vec<u32>,
    this: Vec<u32>,
    place: Vec<u32>,
    outer: Vec<u32>,
}

/// No lanes, with room for so many.
fn none_entered(alloc: Global, room: usize) -> Result<Entered, Redo>
    ensures full { IfOk result (λ lanes. (depth : Depth) → IsFull depth lanes) }
    ensures none { IfOk result (λ lanes. (depth : Depth) → lanes_inside depth lanes ≡ []) }
{
    Ok(Entered {
        count: 0,
        near: vec![in alloc; 0u32; room]?,
        this: Vec::with_capacity(alloc, room)?,
        place: Vec::with_capacity(alloc, room)?,
        outer: Vec::with_capacity(alloc, room)?,
    })
}

/// Appends a row four times, where there is room.
#[inline(always)]
fn push_four(rows: &mut Vec<u32>, row: u32)
    requires { vec_len rows.old + 4 ≤ vec_capacity rows.old }
    ensures items { rows.new.items ≡ rows.old.items ++ replicate 4 row }
    ensures len { vec_len rows.new ≡ vec_len rows.old + 4 }
    ensures capacity { vec_capacity rows.new ≡ vec_capacity rows.old }
{
    rows.push_reserved(row);
    rows.push_reserved(row);
    rows.push_reserved(row);
    rows.push_reserved(row);
}

/// Appends the row of the agent that asks in a lane, and the lane's place, so often, by fours, of
/// which the last is cut.
#[inline(always)]
fn repeat(lane: Lane, more: u32, this: &mut Vec<u32>, place: &mut Vec<u32>) -> Result<(), Redo>
    ensures this { OnOk result (this.new.items ≡ this.old.items ++ replicate more lane.this) }
    ensures place { OnOk result (place.new.items ≡ place.old.items ++ replicate more lane.place) }
{
    let fours = more as usize / 4 + 1;
    this.reserve(4 * fours)?;
    place.reserve(4 * fours)?;
    let (count, places) = (this.len() + more as usize, place.len() + more as usize);
    for four in 0..fours {
        push_four(this, lane.this);
        push_four(place, lane.place);
    }
    this.truncate(count);
    place.truncate(places);
    Ok(())
}

/// Fills rows up to so many with one, where lanes of a depth have an agent of the outer loop.
fn fill_outer(depth: Depth, row: u32, count: usize, rows: &mut Vec<u32>) -> Result<(), Redo>
    ensures items { OnOk result (has_outer depth ≡ true → rows.new.items
        ≡ take count rows.old.items ++ replicate (count - vec_len rows.old) row) }
    ensures len { OnOk result (has_outer depth ≡ true → length rows.new.items ≡ count) }
{
    if !has_outer(depth) {
        return Ok(());
    }
    rows.resize(count, row)?;
    Ok(())
}

/// Appends the lanes of a loop at agents of the rows that stand up to a count.
#[inline(always)]
fn enter(depth: Depth, lane: Lane, count: usize, lanes: &mut Entered) -> Result<(), Redo>
    requires full { IsFull depth lanes.old }
    requires rises { lanes.old.count ≤ count }
    requires within { count ≤ length lanes.old.near.items }
    ensures full { OnOk result (IsFull depth lanes.new) }
    ensures lanes { OnOk result (lanes_inside depth lanes.new ≡ lanes_inside depth lanes.old
        ++ map (entered depth lane) (between lanes.old.count count lanes.old.near.items)) }
{
    let Ok(more) = u32::try_from(count - lanes.count) else {
        return Err(Redo);
    };
    repeat(lane, more, &mut lanes.this, &mut lanes.place)?;
    fill_outer(depth, lane.outer, count, &mut lanes.outer)?;
    lanes.count = count;
    Ok(())
}

/// Appends the stretch of the lanes from a place up to another; none where there is no lane.
fn stretch(row: u32, from: usize, next: usize, stretches: &mut Vec<Stretch>) -> Result<(), Redo>
    ensures { OnOk result (spread stretches.new.items
        ≡ spread stretches.old.items ++ replicate (next - from) row) }
{
    let Ok(count) = u32::try_from(next.saturating_sub(from)) else {
        return Err(Redo);
    };
    if count > 0 {
        stretches.push(Stretch { row, count })?;
    }
    Ok(())
}

/// The lanes of a loop.
fn lanes_inside(depth: Depth, mut lanes: Entered) -> Lanes
    ensures { result ≡ lanes_inside depth lanes }
{
    let count = lanes.count;
    lanes.near.truncate(count);
    let (this, place) = (Rows::Each(lanes.this), Rows::Each(lanes.place));
    let near = Rows::Each(lanes.near);
    match depth {
        Depth::Outside => Lanes::of(count, this, near, Rows::Same(0), place),
        Depth::Once | Depth::Twice => {
            Lanes::of(count, this, Rows::Each(lanes.outer), near, place)
        }
    }
}

impl<'a> Scene<'a> {
    /// The lanes of a loop at the agents that it takes, for lanes from a place on.
    pub fn gather(
        &self,
        crowd: &Crowd,
        from: usize,
        class: u32,
        bounds: &List<Bound>,
        room: &mut Room,
    ) -> Result<Part, Redo>
        requires scene { IsScene self.now }
        requires led { AreLed self.now.cells.now room.old.runs }
        requires from { from < length crowd.now.lanes }
        ensures led { OnOk result (AreLed self.now.cells.now room.new.runs) }
        ensures next { IfOk result (λ part. (from < part.next)
            × (part.next ≤ length crowd.now.lanes)) }
        ensures inside { IfOk result (λ part. (scopes : List Scope)
            → Stands self.now crowd.now scopes → Stands self.now part.inside
            (flat_map (into self.now class bounds.now) (between from part.next scopes))) }
    {
        let sought = self.sought(class, bounds);
        let mut lanes = none_entered(self.alloc, ROOM)?;
        let mut stretches = Vec::with_capacity(self.alloc, MANY)?;
        let mut next = from;
        while next < crowd.lanes.len() && lanes.count < MANY {
            let lane = lane_at(&crowd.lanes, next)?;
            let count = self.find(crowd, &lane, &sought, room, &mut lanes.near, lanes.count)?;
            stretch(lane.this, lanes.count, count, &mut stretches)?;
            enter(crowd.depth, lane, count, &mut lanes)?;
            next += 1;
        }
        if next == from {
            return Err(Redo);
        }
        let lanes = lanes_inside(crowd.depth, lanes);
        let inside = crowd.part(
            self.alloc,
            deeper(crowd.depth),
            lanes,
            Some(List::from_vec(stretches)),
        )?;
        Ok(Part { inside, next })
    }
}
