// Agents packed: given back as they were, joined and sorted.
use crate::tests::programs::agent_of;
use brace_model::{Agent, Herd, Ty, Value};
use std::alloc::Global;
use std::test::Fail;

const HERE: &[Value] = &[Value::Fixed(1_000_000), Value::Fixed(-1), Value::Flag(true)];

const THERE: &[Value] = &[Value::Int(i64::MIN), Value::Int(i64::MAX)];

// The agents of a class with these ids.
fn agents(alloc: Global, class: u32, ids: &[u64], values: &[Value]) -> Result<Vec<Agent>, Fail> {
    let mut all = Vec::new(alloc);
    for id in ids {
        all.push(agent_of(alloc, class, *id, values)?)?;
    }
    Ok(all)
}

// Those with the ids 3 and 9, and then those of another class with 5, 1 and 7.
fn herd(alloc: Global) -> Result<Herd, Fail> {
    let mut herd = Herd::of(alloc, &agents(alloc, 0, &[3, 9], HERE)?)?;
    herd.append(Herd::of(alloc, &agents(alloc, 1, &[5, 1, 7], THERE)?)?)?;
    Ok(herd)
}

// The ids of some agents.
fn ids(alloc: Global, agents: &[Agent]) -> Result<Vec<u64>, Fail> {
    let mut all = Vec::new(alloc);
    for agent in agents {
        all.push(agent.id)?;
    }
    Ok(all)
}

#[test]
fn a_herd_gives_its_agents_back(rt: HostRuntime) -> Result<(), Fail> {
    let agents = herd(rt.alloc())?.agents()?;
    assert_eq!(rt;
        ids(rt.alloc(), &agents)?.as_slice(),
        [3, 9, 5, 1, 7].as_slice()
    );
    for agent in &agents {
        let values = if agent.class == 0 { HERE } else { THERE };
        assert_eq!(rt; agent.states.as_slice(), values);
    }
    Ok(())
}

#[test]
fn a_herd_is_sorted_by_id(rt: HostRuntime) -> Result<(), Fail> {
    let mut herd = herd(rt.alloc())?;
    herd.sort();
    let copy = herd.copy(rt.alloc())?;
    assert_eq!(rt;
        ids(rt.alloc(), &copy.agents()?)?.as_slice(),
        [1, 3, 5, 7, 9].as_slice()
    );
    Ok(())
}

#[test]
fn herds_with_words_in_common_do_not_change_each_other(rt: HostRuntime) -> Result<(), Fail> {
    let alloc = rt.alloc();
    let mut herd = herd(alloc)?;
    let mut some = herd.picked(alloc, &[4, 0])?;
    some.append(herd.picked(alloc, &[2])?)?;
    herd.push(1, 8, &[Ty::Int, Ty::Int], &[i64::MIN, i64::MAX])?;
    some.push(1, 6, &[Ty::Int, Ty::Int], &[i64::MIN, i64::MAX])?;
    some.append(herd.picked(alloc, &[1])?)?;
    assert_eq!(rt;
        ids(alloc, &some.agents()?)?.as_slice(),
        [7, 3, 5, 6, 9].as_slice()
    );
    assert_eq!(rt;
        ids(alloc, &herd.agents()?)?.as_slice(),
        [3, 9, 5, 1, 7, 8].as_slice()
    );
    for agent in &some.agents()? {
        let values = if agent.class == 0 { HERE } else { THERE };
        assert_eq!(rt; agent.states.as_slice(), values);
    }
    Ok(())
}
