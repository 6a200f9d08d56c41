ghost use Rattle.std.specs.Prelude.{◌≡◌, ◌<◌, ◌≤◌, ◌+◌, ◌++◌, pos, ◌≤ℤ◌, filter, length, take, drop, reverse, option_to_list, IfOk};
ghost use Rattle.std.specs.Vec.{vec_len, vec_capacity};
ghost use Rattle.brace_model.specs.Next.{changed};
ghost use Rattle.brace_fold.specs.inner.Rulings.{AreBorn, child_of, given_at, is_set, lives_in, living_from, moved_from, new_states};

use crate::outcome::{Column, Outcome, is_set, value_in, word_value};
use crate::rows::lane_at;
use brace_code::{Lanes, Redo};
use brace_model::{Agent, Class, Value, child_with, number, value_at};
use brace_num::{List, clamp};
use brace_plan::gifts_of;
use std::alloc::Global;

/// The states of an agent take the values of a row.
fn set_states(states: &mut [Value], columns: &[Option<Column>], row: usize)
    requires { length states.old ≤ length columns.now }
    ensures { states.new ≡ new_states columns.now row states.old }
{
    for (i, v) in states.iter_mut().enumerate() {
        *v = value_in(&columns[i], row, *v);
    }
}

/// A coordinate's new value is moved into reach of its old one.
fn move_within(states: &mut [Value], place: u32, old: Value, reach: i64)
    requires { pos 0 ≤ℤ reach }
    ensures { states.new ≡ moved_from reach place old states.old }
{
    let at = place as usize;
    if at < states.len() {
        let new = number(value_at(states, place));
        states[at] = Value::Fixed(clamp(number(old), new, reach));
    }
}

/// The states of an agent of a class take the values of a row, both coordinates moved into reach.
fn set_row(
    states: &mut [Value],
    class: &Class,
    columns: &[Option<Column>],
    row: usize,
    x: Value,
    y: Value,
)
    requires reach { pos 0 ≤ℤ class.now.reach }
    requires columns { length states.old ≤ length columns.now }
    ensures { states.new ≡ moved_from class.now.reach class.now.y y
        (moved_from class.now.reach class.now.x x (new_states columns.now row states.old)) }
{
    set_states(states, columns, row);
    move_within(states, class.x, x, class.reach);
    move_within(states, class.y, y, class.reach);
}

/// An agent of a class with the values of a row.
pub fn renewed(a: Agent, class: &Class, columns: &[Option<Column>], row: usize) -> Agent
    requires { pos 0 ≤ℤ class.now.reach }
    ensures { result ≡ changed class.now a (new_states columns.now row a.states) }
{
    let mut states = a.states.into_vec();
    let x = value_at(&states, class.x);
    let y = value_at(&states, class.y);
    states.truncate(columns.len());
    set_row(&mut states, class, columns, row, x, y);
    Agent {
        class: a.class,
        id: a.id,
        states: List::from_vec(states),
    }
}

/// Adds an agent of a class with the values of a row, unless it dies.
fn keep(a: Agent, class: &Class, out: &Outcome, row: usize, left: &mut Vec<Agent>)
    requires reach { pos 0 ≤ℤ class.now.reach }
    requires room { vec_len left.old < vec_capacity left.old }
    ensures left { left.new.items
        ≡ left.old.items ++ option_to_list (lives_in class.now out.now row a) }
    ensures len { vec_len left.new ≤ vec_len left.old + 1 }
    ensures room { vec_capacity left.new ≡ vec_capacity left.old }
{
    if !is_set(&out.die, row) {
        left.push_reserved(renewed(a, class, &out.states, row));
    }
}

/// Takes so many agents of a class, the last first, and keeps those that live on, renewed.
pub fn keep_living(
    class: &Class,
    out: &Outcome,
    count: usize,
    agents: &mut Vec<Agent>,
    left: &mut Vec<Agent>,
)
    requires reach { pos 0 ≤ℤ class.now.reach }
    requires room { vec_len left.old + vec_len agents.old ≤ vec_capacity left.old }
    ensures left { left.new.items ≡ left.old.items
        ++ living_from class.now out.now 0 (take count (reverse agents.old.items)) }
    ensures rest { reverse agents.new.items ≡ drop count (reverse agents.old.items) }
    ensures room { vec_len left.new + vec_len agents.new ≤ vec_capacity left.new }
{
    for row in 0..count {
        let Some(a) = agents.pop() else {
            return;
        };
        keep(a, class, out, row, left);
    }
}

/// The lanes in which a condition holds.
pub fn lanes_set(alloc: Global, condition: &Option<Column>, lanes: &Lanes) -> Result<Lanes, Redo>
    ensures { IfOk result (λ set. set ≡ filter (λ l. is_set condition.now l.this) lanes.now) }
{
    let Ok(count) = u32::try_from(lanes.len()) else {
        return Err(Redo);
    };
    let mut numbers = Vec::new(alloc);
    for number in 0..count {
        let Some(lane) = lanes.get(number) else {
            return Err(Redo);
        };
        if is_set(condition, lane.this as usize) {
            numbers.push(number)?;
        }
    }
    lanes.picked(alloc, &numbers)
}

/// The values of gifts in a row.
fn given_at(alloc: Global, gifts: &[Column], row: usize) -> Result<Vec<Value>, Redo>
    ensures { IfOk result (λ given. given.items ≡ given_at gifts.now row) }
{
    let mut given = Vec::with_capacity(alloc, gifts.len())?;
    for gift in gifts {
        given.push(word_value(gift, row))?;
    }
    Ok(given)
}

/// The child of an agent of a class, with the gifts of a row.
pub fn child(
    alloc: Global,
    class: &Class,
    gifts: &[Column],
    row: usize,
    a: &Agent,
) -> Result<Agent, Redo>
    requires { pos 0 ≤ℤ class.now.reach }
    ensures { IfOk result (λ child. child ≡ child_of class.now gifts.now row a.now) }
{
    let given = given_at(alloc, gifts, row)?;
    Ok(child_with(alloc, class, a, gifts_of(&class.spawn), &given)?)
}

/// The children of the agents of lanes.
pub fn children(
    alloc: Global,
    class: &Class,
    gifts: &[Column],
    agents: &[Agent],
    lanes: &Lanes,
) -> Result<Vec<Agent>, Redo>
    requires { pos 0 ≤ℤ class.now.reach }
    ensures { IfOk result (λ born. AreBorn class.now gifts.now agents.now lanes.now born.items) }
{
    let mut born = Vec::with_capacity(alloc, lanes.len())?;
    for k in 0..lanes.len() {
        let lane = lane_at(lanes, k)?;
        let Some(a) = agents.get(lane.place as usize) else {
            return Err(Redo);
        };
        let child = child(alloc, class, gifts, k, a)?;
        born.push(child)?;
    }
    Ok(born)
}
