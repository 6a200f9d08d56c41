ghost use Rattle.std.specs.Prelude.{◌≡◌, pos, ◌≤ℤ◌, IfOk, Some, None, slice_set, if◌then◌else◌};
ghost use Rattle.brace_model.specs.Next.{with_stop, moved, changed, with_gifts, update_fault};

use crate::{Agent, Class, Fault, Gift, Phase, Stop, Value, number, value_at};
use brace_num::{List, NoMemory, clamp};
use std::alloc::Global;

/// What an agent leaves to the next world: itself, unless it dies, and its child, where it has one.
/// A child bears its parent's id until it gets an id of its own.
#[derive(Debug, Drop)]
pub struct Left {
    pub agent: Option<Agent>,
    pub child: Option<Agent>,
}

/// The stop of the lesser site: of one, and of one that was met before it, if any was.
pub fn with_stop(met: Option<Stop>, stop: Stop) -> Stop
    ensures { result ≡ with_stop met stop }
{
    match met {
        None => stop,
        Some(met) => { if stop.site < met.site { stop } else { met } }
    }
}

/// The fault of an agent's update.
pub fn update_fault(tick: u64, a: &Agent, stop: Stop) -> Fault
    ensures { result ≡ update_fault tick a.now stop }
{
    Fault {
        tick,
        phase: Phase::Update,
        agent: a.id,
        site: stop.site,
        outer: None,
        inner: None,
        kind: stop.kind,
    }
}

/// A coordinate's new value, moved into reach of its old one.
fn move_within(new: &mut [Value], old: &[Value], place: u32, reach: i64)
    requires { pos 0 ≤ℤ reach }
    ensures { new.new ≡ moved reach old.now place new.old }
{
    let at = place as usize;
    if at < new.len() {
        new[at] = Value::Fixed(clamp(
            number(value_at(old, place)),
            number(value_at(new, place)),
            reach,
        ));
    }
}

/// An agent of a class with other states, both coordinates moved into reach.
fn changed(a: &Agent, class: &Class, mut new: Vec<Value>) -> Agent
    requires { pos 0 ≤ℤ class.now.reach }
    ensures { result ≡ changed class.now a.now new.items }
{
    let old = a.states.as_slice();
    move_within(&mut new, old, class.x, class.reach);
    move_within(&mut new, old, class.y, class.reach);
    Agent {
        class: a.class,
        id: a.id,
        states: List::from_vec(new),
    }
}

/// An agent of a class with its new states, unless it dies. The reach is not below 0.
pub fn survivor(dies: bool, a: &Agent, class: &Class, new: Vec<Value>) -> Option<Agent>
    requires { pos 0 ≤ℤ class.now.reach }
    ensures { result ≡ (if dies then None else Some (changed class.now a.now new.items)) }
{
    if dies {
        return None;
    }
    Some(changed(a, class, new))
}

/// Puts a value in the place of a state, where there is one.
fn put(states: &mut [Value], place: u32, v: Value)
    ensures { states.new ≡ slice_set states.old place v }
{
    let at = place as usize;
    if at < states.len() {
        states[at] = v;
    }
}

/// Puts gifts in the places of some states.
fn give(states: &mut [Value], gifts: &[Gift], given: &[Value])
    ensures { states.new ≡ with_gifts states.old gifts.now given.now }
{
    for (gift, v) in gifts.iter().zip(given) {
        put(states, gift.state, *v);
    }
}

/// Values equal to these.
fn copied(alloc: Global, values: &[Value]) -> Result<Vec<Value>, NoMemory>
    ensures { IfOk result (λ copy. copy.items ≡ values.now) }
{
    let mut copy = Vec::with_capacity(alloc, values.len())?;
    copy.extend_from_slice(values)?;
    Ok(copy)
}

/// The child of an agent of a class: with the values of gifts in the places of their states, and
/// the other states of its parent. The reach is not below 0.
pub fn child_with(
    alloc: Global,
    class: &Class,
    a: &Agent,
    gifts: &[Gift],
    given: &[Value],
) -> Result<Agent, NoMemory>
    requires { pos 0 ≤ℤ class.now.reach }
    ensures { IfOk result (λ child. child
        ≡ changed class.now a.now (with_gifts a.now.states gifts.now given.now)) }
{
    let mut states = copied(alloc, a.states.as_slice())?;
    give(&mut states, gifts, given);
    Ok(changed(a, class, states))
}
