ghost use Rattle.std.specs.Prelude.{◌≡◌, ◌++◌, [], ◌∷◌, codes, flat_map, take, length, OnOk, OnErr};
ghost use Rattle.brace_model.specs.World.{world_with};
ghost use Rattle.brace_model.specs.Published.{agent_text};
ghost use Rattle.brace_save.specs.Texts.{type_name, state_text, class_line, count_line, heading, text, checkpoint};

use brace_model::{Agent, Class, Herd, Program, State, Ty, World, has_births};
use brace_num::{NoMemory, print_count};
use brace_rows::print_agent;

/// Appends the checkpoint of a tick's world. It tells the next free id exactly where a class of the
/// program bears children. A refused write leaves `out` as it was.
pub fn write_checkpoint(
    out: &mut Vec<u8>,
    program: &Program,
    tick: u64,
    seed: u64,
    world: &World,
) -> Result<(), NoMemory>
    ensures written { OnOk result (out.new.items ≡ out.old.items
        ++ checkpoint program.now (record { tick = tick; seed = seed; world = world.now })) }
    ensures kept { OnErr result (out.new.items ≡ out.old.items) }
{
    write_moment(out, program, tick, seed, world.agents(), world.next())
}

/// Appends the checkpoint of a tick's agents and next free id, which it tells exactly where a class
/// of the program bears children. A refused write leaves `out` as it was.
pub fn write_moment(
    out: &mut Vec<u8>,
    program: &Program,
    tick: u64,
    seed: u64,
    agents: &Herd,
    next: u64,
) -> Result<(), NoMemory>
    ensures written { OnOk result (out.new.items ≡ out.old.items ++ checkpoint program.now
        (record { tick = tick; seed = seed; world = world_with agents.now next })) }
    ensures kept { OnErr result (out.new.items ≡ out.old.items) }
{
    let before = out.len();
    let written = append_checkpoint(program, tick, seed, agents, next, out);
    if written.is_err() {
        out.truncate(before);
    }
    written
}

// A refused append may leave a part of the checkpoint behind `out`.
#[tactic(auto, using(crate::proofs::Starts::text_starts))]
fn append_checkpoint(
    program: &Program,
    tick: u64,
    seed: u64,
    agents: &Herd,
    next: u64,
    out: &mut Vec<u8>,
) -> Result<(), NoMemory>
    ensures printed { OnOk result (out.new.items ≡ out.old.items ++ checkpoint program.now
        (record { tick = tick; seed = seed; world = world_with agents.now next })) }
    ensures only_appends { take (length out.old.items) out.new.items ≡ out.old.items }
{
    append_heading(out, has_births(program), tick, seed, next)?;
    append_classes(out, program.classes.as_slice())?;
    append_agents(out, program, agents)?;
    append_count(out, b"end ", agents.len() as u64)
}

#[tactic(auto, using(crate::proofs::Starts::text_starts))]
fn append_heading(
    out: &mut Vec<u8>,
    tells_next: bool,
    tick: u64,
    seed: u64,
    next: u64,
) -> Result<(), NoMemory>
    ensures printed { OnOk result (out.new.items ≡ out.old.items ++ text
        (heading tells_next (record { tick = tick; seed = seed; world = world_with [] next }))) }
    ensures only_appends { take (length out.old.items) out.new.items ≡ out.old.items }
{
    if tells_next {
        append_start(out, b"brace checkpoint 2", tick, seed)?;
        append_count(out, b"next ", next)
    } else {
        append_start(out, b"brace checkpoint 1", tick, seed)
    }
}

#[tactic(auto, using(crate::proofs::Starts::text_starts))]
fn append_start(out: &mut Vec<u8>, version: &[u8], tick: u64, seed: u64) -> Result<(), NoMemory>
    ensures printed { OnOk result (out.new.items ≡ out.old.items ++ text (version.now
        ∷ count_line (codes "tick ") tick ∷ count_line (codes "seed ") seed ∷ [])) }
    ensures only_appends { take (length out.old.items) out.new.items ≡ out.old.items }
{
    append_line(out, version)?;
    append_count(out, b"tick ", tick)?;
    append_count(out, b"seed ", seed)
}

#[tactic(auto, using(crate::proofs::Starts::text_starts))]
fn append_line(out: &mut Vec<u8>, line: &[u8]) -> Result<(), NoMemory>
    ensures printed { OnOk result (out.new.items ≡ out.old.items ++ line.now ++ 10 ∷ []) }
    ensures only_appends { take (length out.old.items) out.new.items ≡ out.old.items }
{
    out.extend_from_slice(line)?;
    out.extend_from_slice(b"\n")?;
    Ok(())
}

#[tactic(auto, using(crate::proofs::Starts::text_starts))]
fn append_classes(out: &mut Vec<u8>, classes: &[Class]) -> Result<(), NoMemory>
    ensures printed { OnOk result (out.new.items
        ≡ out.old.items ++ flat_map (λ c. class_line c ++ 10 ∷ []) classes.now) }
    ensures only_appends { take (length out.old.items) out.new.items ≡ out.old.items }
{
    for class in classes {
        append_class_line(out, class)?;
    }
    Ok(())
}

#[tactic(auto, using(crate::proofs::Starts::text_starts))]
fn append_agents(out: &mut Vec<u8>, program: &Program, agents: &Herd) -> Result<(), NoMemory>
    ensures printed { OnOk result (out.new.items
        ≡ out.old.items ++ flat_map (λ a. agent_text program.now a ++ 10 ∷ []) agents.now) }
    ensures only_appends { take (length out.old.items) out.new.items ≡ out.old.items }
{
    let mut values = agents.no_values();
    for place in 0..agents.len() {
        let agent = agents.agent(place, values)?;
        append_agent(out, program, &agent)?;
        values = agent.states.into_vec();
    }
    Ok(())
}

#[tactic(auto, using(crate::proofs::Starts::text_starts))]
fn append_agent(out: &mut Vec<u8>, program: &Program, agent: &Agent) -> Result<(), NoMemory>
    ensures printed { OnOk result (out.new.items
        ≡ out.old.items ++ agent_text program.now agent.now ++ 10 ∷ []) }
    ensures only_appends { take (length out.old.items) out.new.items ≡ out.old.items }
{
    print_agent(out, program, agent)?;
    out.extend_from_slice(b"\n")?;
    Ok(())
}

#[tactic(auto, using(crate::proofs::Starts::text_starts))]
fn append_count(out: &mut Vec<u8>, word: &[u8], n: u64) -> Result<(), NoMemory>
    ensures printed { OnOk result (out.new.items
        ≡ out.old.items ++ count_line word.now n ++ 10 ∷ []) }
    ensures only_appends { take (length out.old.items) out.new.items ≡ out.old.items }
{
    out.extend_from_slice(word)?;
    print_count(out, n)?;
    out.extend_from_slice(b"\n")?;
    Ok(())
}

#[tactic(auto, using(crate::proofs::Starts::text_starts))]
fn append_class_line(out: &mut Vec<u8>, class: &Class) -> Result<(), NoMemory>
    ensures printed { OnOk result (out.new.items
        ≡ out.old.items ++ class_line class.now ++ 10 ∷ []) }
    ensures only_appends { take (length out.old.items) out.new.items ≡ out.old.items }
{
    append_class(out, class)?;
    out.extend_from_slice(b"\n")?;
    Ok(())
}

/// Appends the line of a class, but for its end.
#[tactic(auto, using(crate::proofs::Starts::text_starts))]
pub(crate) fn append_class(out: &mut Vec<u8>, class: &Class) -> Result<(), NoMemory>
    ensures printed { OnOk result (out.new.items ≡ out.old.items ++ class_line class.now) }
    ensures only_appends { take (length out.old.items) out.new.items ≡ out.old.items }
{
    out.extend_from_slice(b"class ")?;
    out.extend_from_slice(class.name.as_bytes())?;
    append_states(out, class.states.as_slice())
}

#[tactic(auto, using(crate::proofs::Starts::text_starts))]
fn append_states(out: &mut Vec<u8>, states: &[State]) -> Result<(), NoMemory>
    ensures printed { OnOk result (out.new.items
        ≡ out.old.items ++ flat_map state_text states.now) }
    ensures only_appends { take (length out.old.items) out.new.items ≡ out.old.items }
{
    for state in states {
        append_state(out, state)?;
    }
    Ok(())
}

#[tactic(auto, using(crate::proofs::Starts::text_starts))]
fn append_state(out: &mut Vec<u8>, state: &State) -> Result<(), NoMemory>
    ensures printed { OnOk result (out.new.items ≡ out.old.items ++ state_text state.now) }
    ensures only_appends { take (length out.old.items) out.new.items ≡ out.old.items }
{
    out.extend_from_slice(b" ")?;
    out.extend_from_slice(state.name.as_bytes())?;
    out.extend_from_slice(b":")?;
    out.extend_from_slice(name_of_type(state.ty))?;
    Ok(())
}

fn name_of_type<'a>(ty: Ty) -> &'a [u8]
    ensures { result.now ≡ type_name ty }
{
    match ty {
        Ty::Int => b"int",
        Ty::Fixed => b"fixed",
        Ty::Bool => b"bool",
    }
}
