ghost use Rattle.std.specs.Prelude.{◌≡◌, ◌≤◌, ◌^◌, ◌∷◌, [], true, false, IfOk, OnOk};
ghost use Rattle.std.specs.Result.{result_ok};
ghost use Rattle.brace_code.specs.Codes.{gives};
ghost use Rattle.brace_model.specs.declared.world.Agent.{Agent};
ghost use Rattle.brace_plan.specs.inner.Walks.{IsAsked, IsPlaced, scope_at, Sets, Adds, worth_in, act_in, block_in, loop_in, agents_at, AreWithin, IsInSight, AreInSight};

use crate::action::{Action, Bound};
use crate::answer::{Answer, Said};
use crate::desk::{Desk, is_true, set, set_back};
use crate::near::{find, is_taken};
use crate::seat::{Placed, Scene, Seat, env_at};
use brace_code::Code;
use brace_model::{Agent, Value, with_earlier};
use brace_num::{List, NoMemory};
use std::alloc::Global;

/// Which agents a loop takes: those of a class that `this` sees and that meet all bounds.
#[derive(Clone, Copy)]
struct Taken<'a> {
    class: u32,
    bounds: &'a List<Bound>,
}

/// The value of code, or None where it stops; the fault is noted.
// A result that is handed on through memory is read late: so what makes one stands in the code of
// who reads it.
#[inline(always)]
fn worth(
    alloc: Global,
    scene: &Scene,
    seat: &Seat,
    code: &Code,
    locals: &[Value],
    desk: &mut Desk,
    answer: &mut Answer,
) -> Result<Option<Value>, NoMemory>
    requires { scene.now.tick ≤ 2 ^ 32 }
    ensures value { IfOk result (λ worth. worth ≡ result_ok (gives code.now
        (scope_at scene.now seat.now desk.old.drawer.seed locals.now))) }
    ensures added { IfOk result (λ _. Adds scene.now (worth_in
        (scope_at scene.now seat.now desk.old.drawer.seed locals.now) code.now)
        answer.old answer.new) }
    ensures trail { desk.new.trail ≡ desk.old.trail }
    ensures seed { desk.new.drawer.seed ≡ desk.old.drawer.seed }
{
    match desk.eval(alloc, code, &env_at(scene, seat, locals))? {
        Ok(v) => Ok(Some(v)),
        Err(stop) => {
            let fault = seat.fault(scene, stop);
            answer.fault = Some(with_earlier(answer.fault, fault));
            Ok(None)
        }
    }
}

/// Does an action, and answers whether it was cut short by a fault.
#[cycle(walk)]
fn action<'a>(
    alloc: Global,
    scene: &Scene<'a>,
    seat: &Seat<'a>,
    action: &Action,
    locals: &mut [Value],
    desk: &mut Desk,
    answer: &mut Answer,
) -> Result<bool, NoMemory>
    requires asked { IsAsked scene.now seat.now }
    ensures added { IfOk result (λ _. Adds scene.now (act_in scene.now action.now
        (scope_at scene.now seat.now desk.old.drawer.seed locals.old)) answer.old answer.new) }
    ensures stopped { IfOk result (λ stopped. stopped ≡ (act_in scene.now action.now
        (scope_at scene.now seat.now desk.old.drawer.seed locals.old)).stopped) }
    ensures scope { IfOk result (λ stopped. stopped ≡ false → (act_in scene.now action.now
        (scope_at scene.now seat.now desk.old.drawer.seed locals.old)).scope
        ≡ scope_at scene.now seat.now desk.old.drawer.seed locals.new) }
    ensures set { IfOk result (λ _.
        Sets desk.old.trail.items desk.new.trail.items locals.old locals.new) }
    ensures seed { desk.new.drawer.seed ≡ desk.old.drawer.seed }
{
    match action {
        Action::Const(n, code) => match worth(alloc, scene, seat, code, locals, desk, answer)? {
            Some(v) => {
                set(locals, &mut desk.trail, *n, v)?;
                Ok(false)
            }
            None => Ok(true),
        },
        Action::If(code, a, b) => match worth(alloc, scene, seat, code, locals, desk, answer)? {
            Some(v) => {
                if is_true(v) {
                    block(alloc, scene, seat, a, locals, desk, answer)
                } else {
                    block(alloc, scene, seat, b, locals, desk, answer)
                }
            }
            None => Ok(true),
        },
        Action::Foreach(class, bounds, body, _) => {
            let taken = Taken {
                class: *class,
                bounds,
            };
            iterations(alloc, scene, seat, taken, body, locals, desk, answer)?;
            Ok(false)
        }
        Action::Assign(who, effect, code) => {
            match worth(alloc, scene, seat, code, locals, desk, answer)? {
                Some(value) => {
                    answer.said.push(Said {
                        place: seat.named(scene, *who).place,
                        field: *effect,
                        value,
                    })?;
                    Ok(false)
                }
                None => Ok(true),
            }
        }
    }
}

/// Does the actions of a block in turn, up to the first that is cut short, sets its constants back,
/// and answers whether one was.
#[cycle(walk)]
pub fn block<'a>(
    alloc: Global,
    scene: &Scene<'a>,
    seat: &Seat<'a>,
    body: &List<Action>,
    locals: &mut [Value],
    desk: &mut Desk,
    answer: &mut Answer,
) -> Result<bool, NoMemory>
    requires asked { IsAsked scene.now seat.now }
    ensures added { IfOk result (λ _. Adds scene.now (block_in scene.now body.now
        (scope_at scene.now seat.now desk.old.drawer.seed locals.old)) answer.old answer.new) }
    ensures stopped { IfOk result (λ stopped. stopped ≡ (block_in scene.now body.now
        (scope_at scene.now seat.now desk.old.drawer.seed locals.old)).stopped) }
    ensures locals { IfOk result (λ _. locals.new ≡ locals.old) }
    ensures trail { IfOk result (λ _. desk.new.trail.items ≡ desk.old.trail.items) }
    ensures seed { desk.new.drawer.seed ≡ desk.old.drawer.seed }
{
    let mark = desk.trail.len();
    for item in body.as_slice() {
        if action(alloc, scene, seat, item, locals, desk, answer)? {
            set_back(locals, &mut desk.trail, mark);
            return Ok(true);
        }
    }
    set_back(locals, &mut desk.trail, mark);
    Ok(false)
}

/// Does a loop's block at the agent of a place, of which may be known that it is in sight, if the
/// loop takes it.
#[cycle(walk)]
fn iteration<'a>(
    alloc: Global,
    scene: &Scene<'a>,
    seat: &Seat<'a>,
    taken: Taken,
    body: &List<Action>,
    other: &Placed<'a>,
    in_sight: bool,
    locals: &mut [Value],
    desk: &mut Desk,
    answer: &mut Answer,
) -> Result<(), NoMemory>
    requires asked { IsAsked scene.now seat.now }
    requires other { IsPlaced scene.now other.now }
    requires sight { in_sight ≡ true
        → IsInSight scene.now seat.now.this.agent.now other.now.agent.now }
    ensures added { OnOk result (Adds scene.now (loop_in scene.now
        (scope_at scene.now seat.now desk.old.drawer.seed locals.old)
        taken.entry.class taken.entry.bounds.now body.now (other.now.agent.now ∷ []))
        answer.old answer.new) }
    ensures locals { OnOk result (locals.new ≡ locals.old) }
    ensures trail { OnOk result (desk.new.trail.items ≡ desk.old.trail.items) }
    ensures seed { desk.new.drawer.seed ≡ desk.old.drawer.seed }
{
    if is_taken(
        scene,
        seat,
        locals,
        taken.class,
        taken.bounds,
        other.agent,
        in_sight,
    ) {
        let inside = seat.inside(scene, other);
        block(alloc, scene, &inside, body, locals, desk, answer)?;
    }
    Ok(())
}

/// Does a loop's block at each agent that the loop takes among those of some places, which may be
/// known to be in sight. A fault ends its iteration alone.
#[cycle(walk)]
fn visits<'a>(
    alloc: Global,
    scene: &Scene<'a>,
    seat: &Seat<'a>,
    taken: Taken,
    body: &List<Action>,
    near: &[u32],
    in_sight: bool,
    locals: &mut [Value],
    desk: &mut Desk,
    answer: &mut Answer,
) -> Result<(), NoMemory>
    requires asked { IsAsked scene.now seat.now }
    requires near { AreWithin scene.now near.now }
    requires sight { AreInSight scene.now seat.now.this.agent.now in_sight near.now }
    ensures added { OnOk result ((d : Agent) → Adds scene.now (loop_in scene.now
        (scope_at scene.now seat.now desk.old.drawer.seed locals.old)
        taken.entry.class taken.entry.bounds.now body.now (agents_at scene.now d near.now))
        answer.old answer.new) }
    ensures locals { OnOk result (locals.new ≡ locals.old) }
    ensures trail { OnOk result (desk.new.trail.items ≡ desk.old.trail.items) }
    ensures seed { desk.new.drawer.seed ≡ desk.old.drawer.seed }
{
    for place in near {
        let other = Placed {
            place: *place,
            agent: &scene.agents[*place as usize],
        };
        iteration(
            alloc, scene, seat, taken, body, &other, in_sight, locals, desk, answer,
        )?;
    }
    Ok(())
}

/// Does a loop's block at each agent that the loop takes.
#[cycle(walk)]
fn iterations<'a>(
    alloc: Global,
    scene: &Scene<'a>,
    seat: &Seat<'a>,
    taken: Taken,
    body: &List<Action>,
    locals: &mut [Value],
    desk: &mut Desk,
    answer: &mut Answer,
) -> Result<(), NoMemory>
    requires asked { IsAsked scene.now seat.now }
    ensures added { OnOk result (Adds scene.now (loop_in scene.now
        (scope_at scene.now seat.now desk.old.drawer.seed locals.old)
        taken.entry.class taken.entry.bounds.now body.now scene.now.agents.now)
        answer.old answer.new) }
    ensures locals { OnOk result (locals.new ≡ locals.old) }
    ensures trail { OnOk result (desk.new.trail.items ≡ desk.old.trail.items) }
    ensures seed { desk.new.drawer.seed ≡ desk.old.drawer.seed }
{
    let mut near = match desk.spare.pop() {
        Some(near) => near,
        None => Vec::new(alloc),
    };
    let in_sight = find(scene, seat, locals, taken.bounds, &mut near)?;
    visits(
        alloc,
        scene,
        seat,
        taken,
        body,
        near.as_slice(),
        in_sight,
        locals,
        desk,
        answer,
    )?;
    desk.spare.push(near)?;
    Ok(())
}
