ghost use Rattle.std.specs.Prelude.{◌≡◌, ◌+◌, ◌*◌, ◌<◌, IfOk, ℕ, ℤ, pos, [], ◌∷◌, ◌≤ℤ◌, ◌-ℤ◌, ◌+ℤ◌, ◌*ℤ◌, true, int_le, ◌==◌, ◌&&◌, IfSome, OnOk, length};
ghost use Rattle.std.specs.List.{list_all, range_with_len};
ghost use Rattle.brace_model.specs.declared.world.Agent.{Agent};
ghost use Rattle.brace_model.specs.World.{sees, is_within};
ghost use Rattle.brace_grid.specs.Grids.{place_of, inside, is_between, is_inside};
ghost use Rattle.brace_plan.specs.Acts.{limit_in, stands, coordinate, meets};
ghost use Rattle.brace_plan.specs.inner.Walks.{IsScene, IsPartOf, Narrows, scope_at, is_taken, HoldsTaken, AreWithin, HaveTaken, IsInSight, AreInSight};

use crate::action::{Axis, Bound, Limit, Side};
use crate::seat::{Scene, Seat};
use brace_grid::Grid;
use brace_model::{Agent, Program, Value, class_of, number, sees, value_at, x_of, y_of};
use brace_num::{Area, List, NoMemory, Steps};
use std::marker::Brand;
use std::sync::ledger::{Blank, Ledger};

/// A limit at a seat, in millionths.
fn limit_at(scene: &Scene, seat: &Seat, locals: &[Value], limit: Limit) -> i64
    ensures { (seed : ℕ)
        → result ≡ limit_in (scope_at scene.now seat.now seed locals.now) limit }
{
    match limit {
        Limit::Number(n) => n,
        Limit::State(place) => number(value_at(seat.this.agent.states.as_slice(), place)),
        Limit::Constant(n) => number(value_at(locals, n)),
    }
}

/// Whether a coordinate stands so to a limit.
#[inline(always)]
pub fn stands(side: Side, limit: i64, v: i64) -> bool
    ensures { result ≡ stands side limit v }
{
    match side {
        Side::Below => v < limit,
        Side::AtMost => v <= limit,
        Side::Above => limit < v,
        Side::AtLeast => limit <= v,
        Side::At => v == limit,
    }
}

/// Where an agent stands along an axis.
fn coordinate(program: &Program, axis: Axis, a: &Agent) -> i64
    ensures { result ≡ coordinate axis (place_of program.now a.now) }
{
    match (class_of(program, a), axis) {
        (Some(class), Axis::X) => x_of(class, a),
        (Some(class), Axis::Y) => y_of(class, a),
        (None, _) => 0,
    }
}

/// Whether an agent meets a bound.
fn meets(scene: &Scene, seat: &Seat, locals: &[Value], bound: Bound, b: &Agent) -> bool
    ensures { (seed : ℕ) → result ≡ meets (scope_at scene.now seat.now seed locals.now)
        (place_of scene.now.program.now b.now) bound }
{
    let limit = limit_at(scene, seat, locals, bound.limit);
    stands(bound.side, limit, coordinate(scene.program, bound.axis, b))
}

/// Whether an agent meets all bounds.
fn meets_all(scene: &Scene, seat: &Seat, locals: &[Value], bounds: &List<Bound>, b: &Agent) -> bool
    ensures { (seed : ℕ) → result
        ≡ list_all (meets (scope_at scene.now seat.now seed locals.now)
        (place_of scene.now.program.now b.now)) bounds.now }
{
    for bound in bounds.as_slice() {
        if !meets(scene, seat, locals, *bound, b) {
            return false;
        }
    }
    true
}

/// Whether `this` sees an agent, of which may be known that it is in sight along both axes.
fn this_sees(scene: &Scene, seat: &Seat, b: &Agent, in_sight: bool) -> bool
    requires { in_sight ≡ true → IsInSight scene.now seat.now.this.agent.now b.now }
    ensures { result ≡ sees scene.now.program.now seat.now.this.agent.now b.now }
{
    let this = seat.this.agent;
    if in_sight {
        this.id != b.id && class_of(scene.program, b).is_some()
    } else {
        sees(scene.program, this, b)
    }
}

/// Whether an agent, of which may be known that it is in sight, is one of a class that `this` sees.
fn is_seen(scene: &Scene, seat: &Seat, class: u32, b: &Agent, in_sight: bool) -> bool
    requires { in_sight ≡ true → IsInSight scene.now seat.now.this.agent.now b.now }
    ensures { result ≡ (b.now.class == class)
        && sees scene.now.program.now seat.now.this.agent.now b.now }
{
    b.class == class && this_sees(scene, seat, b, in_sight)
}

/// Whether a loop over a class takes an agent, of which may be known that it is in sight along both
/// axes.
pub fn is_taken(
    scene: &Scene,
    seat: &Seat,
    locals: &[Value],
    class: u32,
    bounds: &List<Bound>,
    b: &Agent,
    in_sight: bool,
) -> bool
    requires { in_sight ≡ true → IsInSight scene.now seat.now.this.agent.now b.now }
    ensures { (seed : ℕ) → result
        ≡ is_taken scene.now (scope_at scene.now seat.now seed locals.now) class bounds.now b.now }
{
    is_seen(scene, seat, class, b, in_sight) && meets_all(scene, seat, locals, bounds, b)
}

/// A part of an axis, with both ends.
#[derive(Clone, Copy, Drop)]
pub struct Span {
    low: i64,
    high: i64,
}

/// A lower end where a limit cuts it; a strict limit at the end of i64 cuts nothing.
fn cut_low(low: i64, side: Side, limit: i64) -> i64
    ensures holds { (v : ℤ) → stands side limit v ≡ true → int_le low v ≡ true
        → int_le result v ≡ true }
    ensures part { low ≤ℤ result }
{
    match side {
        Side::Above => match limit.checked_add(1) {
            Some(least) => low.max(least),
            None => low,
        },
        Side::AtLeast | Side::At => low.max(limit),
        Side::Below | Side::AtMost => low,
    }
}

/// An upper end where a limit cuts it; a strict limit at the end of i64 cuts nothing.
fn cut_high(high: i64, side: Side, limit: i64) -> i64
    ensures holds { (v : ℤ) → stands side limit v ≡ true → int_le v high ≡ true
        → int_le v result ≡ true }
    ensures part { result ≤ℤ high }
{
    match side {
        Side::Below => match limit.checked_sub(1) {
            Some(most) => high.min(most),
            None => high,
        },
        Side::AtMost | Side::At => high.min(limit),
        Side::Above | Side::AtLeast => high,
    }
}

/// The part of an axis within a range of a place, or None where it goes past an end of i64.
fn around(place: i64, range: i64) -> Option<Span>
    ensures within { IfSome result (λ span. (v : ℤ)
        → is_between span.low span.high v ≡ true → is_within range place v ≡ true) }
    ensures holds { IfSome result (λ span. (v : ℤ)
        → is_within range place v ≡ true → is_between span.low span.high v ≡ true) }
    ensures low { IfSome result (λ span. span.low ≡ place -ℤ range) }
    ensures high { IfSome result (λ span. span.high ≡ place +ℤ range) }
{
    match (place.checked_sub(range), place.checked_add(range)) {
        (Some(low), Some(high)) => Some(Span { low, high }),
        _ => None,
    }
}

/// What is left of an area where a bound cuts it.
fn cut_area(scene: &Scene, seat: &Seat, locals: &[Value], bound: Bound, area: Area) -> Area
    ensures holds { (seed : ℕ) → Narrows (scope_at scene.now seat.now seed locals.now)
        (bound ∷ []) area result }
    ensures part { IsPartOf result area }
{
    let limit = limit_at(scene, seat, locals, bound.limit);
    match bound.axis {
        Axis::X => Area {
            x0: cut_low(area.x0, bound.side, limit),
            x1: cut_high(area.x1, bound.side, limit),
            ..area
        },
        Axis::Y => Area {
            y0: cut_low(area.y0, bound.side, limit),
            y1: cut_high(area.y1, bound.side, limit),
            ..area
        },
    }
}

/// What is left of an area where all bounds cut it.
fn narrowed(scene: &Scene, seat: &Seat, locals: &[Value], bounds: &List<Bound>, area: Area) -> Area
    ensures holds { (seed : ℕ) → Narrows (scope_at scene.now seat.now seed locals.now)
        bounds.now area result }
    ensures part { IsPartOf result area }
{
    let mut left = area;
    for bound in bounds.as_slice() {
        left = cut_area(scene, seat, locals, *bound, left);
    }
    left
}

/// An area that holds all agents that a loop takes, and none that is not in sight, or None where it
/// goes past an end of i64.
fn area_of(scene: &Scene, seat: &Seat, locals: &[Value], bounds: &List<Bound>) -> Option<Area>
    requires { IsScene scene.now }
    ensures holds { IfSome result (λ area. (seed : ℕ) → HoldsTaken scene.now
        (scope_at scene.now seat.now seed locals.now) bounds.now area) }
    ensures sight { IfSome result (λ area. (b : Agent)
        → is_inside area (place_of scene.now.program.now b) ≡ true
        → IsInSight scene.now seat.now.this.agent.now b) }
    ensures wide { IfSome result (λ area.
        (area.x1 -ℤ area.x0) ≤ℤ (pos 2 *ℤ scene.now.grid.now.side)) }
    ensures high { IfSome result (λ area.
        (area.y1 -ℤ area.y0) ≤ℤ (pos 2 *ℤ scene.now.grid.now.side)) }
{
    let this = seat.this.agent;
    let class = class_of(scene.program, this)?;
    let x = around(x_of(class, this), class.visible)?;
    let y = around(y_of(class, this), class.visible)?;
    let area = Area {
        x0: x.low,
        x1: x.high,
        y0: y.low,
        y1: y.high,
    };
    Some(narrowed(scene, seat, locals, bounds, area))
}

/// Replaces `near` by the places in an area, by a counter of looks that is dropped.
fn counted<L: Ledger>(
    grid: &Grid,
    area: &Area,
    near: &mut Vec<u32>,
    blank: Blank,
) -> Result<(), NoMemory>
    requires blank { (blank.name ≡ L.name) × (blank.parts ≡ L.parts) × (0 < L.parts) }
    requires wide { (area.now.x1 -ℤ area.now.x0) ≤ℤ (pos 2 *ℤ grid.now.side) }
    requires high { (area.now.y1 -ℤ area.now.y0) ≤ℤ (pos 2 *ℤ grid.now.side) }
    ensures { OnOk result (near.new.items ≡ inside area.now grid.now.places) }
{
    let mut steps: Steps<L> = Steps::make(blank);
    grid.probe(area, near, &mut steps)
}

/// Replaces `near` by the places in an area.
fn probed(grid: &Grid, area: &Area, near: &mut Vec<u32>) -> Result<(), NoMemory>
    requires wide { (area.now.x1 -ℤ area.now.x0) ≤ℤ (pos 2 *ℤ grid.now.side) }
    requires high { (area.now.y1 -ℤ area.now.y0) ≤ℤ (pos 2 *ℤ grid.now.side) }
    ensures { OnOk result (near.new.items ≡ inside area.now grid.now.places) }
{
    counted::<Brand>(grid, area, near, Blank::new(1))
}

/// Replaces `near` by all places. `NoMemory` also where there are more than 2^32 - 1.
fn every(agents: &[Agent], near: &mut Vec<u32>) -> Result<(), NoMemory>
    ensures { OnOk result (near.new.items ≡ range_with_len 0 (length agents.now)) }
{
    let Ok(count) = u32::try_from(agents.len()) else {
        return Err(NoMemory);
    };
    near.clear();
    for place in 0..count {
        near.push(place)?;
    }
    Ok(())
}

/// Replaces `near` by places, rising, among which are those of all agents that a loop takes, and
/// answers whether all are known to be in sight.
pub fn find(
    scene: &Scene,
    seat: &Seat,
    locals: &[Value],
    bounds: &List<Bound>,
    near: &mut Vec<u32>,
) -> Result<bool, NoMemory>
    requires { IsScene scene.now }
    ensures within { IfOk result (λ _. AreWithin scene.now near.new.items) }
    ensures taken { IfOk result (λ _. (seed class : ℕ) → HaveTaken scene.now
        (scope_at scene.now seat.now seed locals.now) class bounds.now near.new.items) }
    ensures sight { IfOk result (λ in_sight. AreInSight scene.now seat.now.this.agent.now
        in_sight near.new.items) }
{
    match area_of(scene, seat, locals, bounds) {
        Some(area) => {
            probed(scene.grid, &area, near)?;
            Ok(true)
        }
        None => {
            every(scene.agents, near)?;
            Ok(false)
        }
    }
}
