//! Agents, entries and faults, read from the front of bytes.
ghost use Rattle.std.specs.Prelude.{◌≡◌, slice_get};
ghost use Rattle.brace_wire.specs.inner.Reading.{Gives, many_at, list_at, value_at, values_at, states_at, agent_at, total_at, entry_at, parent_at, census_at, shown_at, fault_at, cause_at};

use crate::fault::Unread;
use crate::numbers::{
    read_eight, read_flag, read_four, read_kind, read_optional, read_phase, read_signed,
    read_sixteen,
};
use brace_comb::{Entry, Total};
use brace_model::{Agent, Census, Fault, Herd, Parent, Ty, Value};
use brace_num::List;
use brace_pieces::{Cause, Shown};
use std::alloc::Global;

#[tactic(auto, unfolding(crate::specs::inner::Reading::value_at))]
fn read_value(ty: Ty, bytes: &[u8]) -> Result<(Value, &[u8]), Unread>
    ensures { Gives (λ x. (x.0, x.1.now)) result (value_at ty bytes.now) }
{
    match ty {
        Ty::Int => {
            let (n, rest) = read_signed(bytes)?;
            Ok((Value::Int(n), rest))
        }
        Ty::Fixed => {
            let (n, rest) = read_signed(bytes)?;
            Ok((Value::Fixed(n), rest))
        }
        Ty::Bool => {
            let (b, rest) = read_flag(bytes)?;
            Ok((Value::Flag(b), rest))
        }
    }
}

fn read_values<'a>(
    alloc: Global,
    types: &[Ty],
    bytes: &'a [u8],
) -> Result<(List<Value>, &'a [u8]), Unread>
    ensures { Gives (λ x. (x.0, x.1.now)) result (values_at types.now bytes.now) }
{
    let mut values = Vec::with_capacity(alloc, types.len())?;
    let mut rest = bytes;
    for ty in types {
        let (v, after) = read_value(*ty, rest)?;
        values.push(v)?;
        rest = after;
    }
    Ok((List::from_vec(values), rest))
}

#[tactic(auto, unfolding(crate::specs::inner::Reading::states_at))]
fn read_states<'a>(
    alloc: Global,
    types: &[List<Ty>],
    class: u32,
    bytes: &'a [u8],
) -> Result<(List<Value>, &'a [u8]), Unread>
    ensures { Gives (λ x. (x.0, x.1.now)) result
        (states_at (slice_get types.now class) bytes.now) }
{
    match types.get(class as usize) {
        Some(types) => read_values(alloc, types.as_slice(), bytes),
        None => Err(Unread::Bad),
    }
}

#[tactic(auto, unfolding(crate::specs::inner::Reading::agent_at))]
fn read_agent<'a>(
    alloc: Global,
    types: &[List<Ty>],
    bytes: &'a [u8],
) -> Result<(Agent, &'a [u8]), Unread>
    ensures { Gives (λ x. (x.0, x.1.now)) result (agent_at types.now bytes.now) }
{
    let (class, rest) = read_four(bytes)?;
    let (id, rest) = read_eight(rest)?;
    let (states, rest) = read_states(alloc, types, class, rest)?;
    Ok((Agent { class, id, states }, rest))
}

fn read_many_agents<'a>(
    alloc: Global,
    types: &[List<Ty>],
    count: u32,
    bytes: &'a [u8],
) -> Result<(List<Agent>, &'a [u8]), Unread>
    ensures { Gives (λ x. (x.0, x.1.now)) result (many_at (agent_at types.now) count bytes.now) }
{
    let mut agents = Vec::new(alloc);
    let mut rest = bytes;
    for _ in 0..count {
        let (a, after) = read_agent(alloc, types, rest)?;
        agents.push(a)?;
        rest = after;
    }
    Ok((List::from_vec(agents), rest))
}

/// Agents of these classes, and the bytes behind them.
#[tactic(auto, unfolding(crate::specs::inner::Reading::list_at))]
pub(crate) fn read_agents<'a>(
    alloc: Global,
    types: &[List<Ty>],
    bytes: &'a [u8],
) -> Result<(Herd, &'a [u8]), Unread>
    ensures { Gives (λ x. (x.0, x.1.now)) result (list_at (agent_at types.now) bytes.now) }
{
    let (count, rest) = read_four(bytes)?;
    let (agents, rest) = read_many_agents(alloc, types, count, rest)?;
    let herd = Herd::of(alloc, agents.as_slice())?;
    Ok((herd, rest))
}

#[tactic(auto, unfolding(crate::specs::inner::Reading::total_at))]
fn read_total(bytes: &[u8]) -> Result<(Total, &[u8]), Unread>
    ensures { Gives (λ x. (x.0, x.1.now)) result (total_at bytes.now) }
{
    match bytes {
        [0, rest @ ..] => {
            let (n, rest) = read_sixteen(rest)?;
            let (count, rest) = read_eight(rest)?;
            Ok((Total::Sum(n, count), rest))
        }
        [1, rest @ ..] => {
            let (n, rest) = read_signed(rest)?;
            let (count, rest) = read_eight(rest)?;
            Ok((Total::Least(n, count), rest))
        }
        [2, rest @ ..] => {
            let (n, rest) = read_signed(rest)?;
            let (count, rest) = read_eight(rest)?;
            Ok((Total::Greatest(n, count), rest))
        }
        [3, rest @ ..] => {
            let (count, rest) = read_eight(rest)?;
            Ok((Total::Count(count), rest))
        }
        [4, rest @ ..] => {
            let (b, rest) = read_flag(rest)?;
            let (count, rest) = read_eight(rest)?;
            Ok((Total::Any(b, count), rest))
        }
        _ => Err(Unread::Bad),
    }
}

#[tactic(auto, unfolding(crate::specs::inner::Reading::entry_at))]
fn read_entry(bytes: &[u8]) -> Result<(Entry, &[u8]), Unread>
    ensures { Gives (λ x. (x.0, x.1.now)) result (entry_at bytes.now) }
{
    let (target, rest) = read_eight(bytes)?;
    let (field, rest) = read_four(rest)?;
    let (total, rest) = read_total(rest)?;
    Ok((
        Entry {
            target,
            field,
            total,
        },
        rest,
    ))
}

fn read_many_entries(
    alloc: Global,
    count: u32,
    bytes: &[u8],
) -> Result<(List<Entry>, &[u8]), Unread>
    ensures { Gives (λ x. (x.0, x.1.now)) result (many_at entry_at count bytes.now) }
{
    let mut entries = Vec::new(alloc);
    let mut rest = bytes;
    for _ in 0..count {
        let (e, after) = read_entry(rest)?;
        entries.push(e)?;
        rest = after;
    }
    Ok((List::from_vec(entries), rest))
}

/// Entries, and the bytes behind them.
#[tactic(auto, unfolding(crate::specs::inner::Reading::list_at))]
pub(crate) fn read_entries(alloc: Global, bytes: &[u8]) -> Result<(List<Entry>, &[u8]), Unread>
    ensures { Gives (λ x. (x.0, x.1.now)) result (list_at entry_at bytes.now) }
{
    let (count, rest) = read_four(bytes)?;
    read_many_entries(alloc, count, rest)
}

#[tactic(auto, unfolding(crate::specs::inner::Reading::parent_at))]
fn read_parent(bytes: &[u8]) -> Result<(Parent, &[u8]), Unread>
    ensures { Gives (λ x. (x.0, x.1.now)) result (parent_at bytes.now) }
{
    let (id, rest) = read_eight(bytes)?;
    let (class, rest) = read_four(rest)?;
    Ok((Parent { id, class }, rest))
}

fn read_many_parents(
    alloc: Global,
    count: u32,
    bytes: &[u8],
) -> Result<(List<Parent>, &[u8]), Unread>
    ensures { Gives (λ x. (x.0, x.1.now)) result (many_at parent_at count bytes.now) }
{
    let mut parents = Vec::new(alloc);
    let mut rest = bytes;
    for _ in 0..count {
        let (p, after) = read_parent(rest)?;
        parents.push(p)?;
        rest = after;
    }
    Ok((List::from_vec(parents), rest))
}

#[tactic(auto, unfolding(crate::specs::inner::Reading::list_at))]
fn read_parents(alloc: Global, bytes: &[u8]) -> Result<(List<Parent>, &[u8]), Unread>
    ensures { Gives (λ x. (x.0, x.1.now)) result (list_at parent_at bytes.now) }
{
    let (count, rest) = read_four(bytes)?;
    read_many_parents(alloc, count, rest)
}

/// A census, and the bytes behind it.
#[tactic(auto, unfolding(crate::specs::inner::Reading::census_at))]
pub(crate) fn read_census(alloc: Global, bytes: &[u8]) -> Result<(Census, &[u8]), Unread>
    ensures { Gives (λ x. (x.0, x.1.now)) result (census_at bytes.now) }
{
    let (living, rest) = read_eight(bytes)?;
    let (values, rest) = read_eight(rest)?;
    let (parents, rest) = read_parents(alloc, rest)?;
    Ok((
        Census {
            living,
            values,
            parents,
        },
        rest,
    ))
}

#[tactic(auto, unfolding(crate::specs::inner::Reading::shown_at))]
fn read_shown<'a>(
    alloc: Global,
    types: &[List<Ty>],
    bytes: &'a [u8],
) -> Result<(Shown, &'a [u8]), Unread>
    ensures { Gives (λ x. (x.0, x.1.now)) result (shown_at types.now bytes.now) }
{
    let (tick, rest) = read_eight(bytes)?;
    let (next, rest) = read_eight(rest)?;
    let (agents, rest) = read_agents(alloc, types, rest)?;
    Ok((Shown { tick, agents, next }, rest))
}

fn read_many_shows<'a>(
    alloc: Global,
    types: &[List<Ty>],
    count: u32,
    bytes: &'a [u8],
) -> Result<(List<Shown>, &'a [u8]), Unread>
    ensures { Gives (λ x. (x.0, x.1.now)) result (many_at (shown_at types.now) count bytes.now) }
{
    let mut shows = Vec::new(alloc);
    let mut rest = bytes;
    for _ in 0..count {
        let (s, after) = read_shown(alloc, types, rest)?;
        shows.push(s)?;
        rest = after;
    }
    Ok((List::from_vec(shows), rest))
}

/// Agents of some ticks, and the bytes behind them.
#[tactic(auto, unfolding(crate::specs::inner::Reading::list_at))]
pub(crate) fn read_shows<'a>(
    alloc: Global,
    types: &[List<Ty>],
    bytes: &'a [u8],
) -> Result<(List<Shown>, &'a [u8]), Unread>
    ensures { Gives (λ x. (x.0, x.1.now)) result (list_at (shown_at types.now) bytes.now) }
{
    let (count, rest) = read_four(bytes)?;
    read_many_shows(alloc, types, count, rest)
}

#[tactic(auto, unfolding(crate::specs::inner::Reading::fault_at))]
fn read_fault(bytes: &[u8]) -> Result<(Fault, &[u8]), Unread>
    ensures { Gives (λ x. (x.0, x.1.now)) result (fault_at bytes.now) }
{
    let (tick, rest) = read_eight(bytes)?;
    let (phase, rest) = read_phase(rest)?;
    let (agent, rest) = read_eight(rest)?;
    let (site, rest) = read_four(rest)?;
    let (outer, rest) = read_optional(rest)?;
    let (inner, rest) = read_optional(rest)?;
    let (kind, rest) = read_kind(rest)?;
    Ok((
        Fault {
            tick,
            phase,
            agent,
            site,
            outer,
            inner,
            kind,
        },
        rest,
    ))
}

/// Why a part does not go on, and the bytes behind it.
#[tactic(auto, unfolding(crate::specs::inner::Reading::cause_at))]
pub(crate) fn read_cause(bytes: &[u8]) -> Result<(Cause, &[u8]), Unread>
    ensures { Gives (λ x. (x.0, x.1.now)) result (cause_at bytes.now) }
{
    match bytes {
        [0, rest @ ..] => {
            let (f, rest) = read_fault(rest)?;
            Ok((Cause::Fault(f), rest))
        }
        [1, rest @ ..] => Ok((Cause::NoMemory, rest)),
        [2, rest @ ..] => Ok((Cause::Closed, rest)),
        _ => Err(Unread::Bad),
    }
}
