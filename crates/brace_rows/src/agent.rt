ghost use Rattle.std.specs.Prelude.{◌≡◌, ◌++◌, List, [], ◌∷◌, map, flat_map, take, length, OnOk, OnErr};
ghost use Rattle.brace_model.specs.Published.{spelled, class_name, agent_text};

use brace_model::{Agent, Program, Value};
use brace_num::{NoMemory, print_count, print_fixed, print_int};

/// Appends `class,id,values` in canonical spelling, without a line feed. A refused print leaves
/// `out` as it was.
///
/// A class number that the program lacks prints an empty name.
pub fn print_agent(out: &mut Vec<u8>, program: &Program, agent: &Agent) -> Result<(), NoMemory>
    ensures printed { OnOk result (out.new.items
        ≡ out.old.items ++ agent_text program.now agent.now) }
    ensures kept { OnErr result (out.new.items ≡ out.old.items) }
{
    let before = out.len();
    let printed = append_agent(out, program, agent);
    if printed.is_err() {
        out.truncate(before);
    }
    printed
}

// A refused append may leave a part of the text behind `out`.
#[tactic(auto, using(brace_num::proofs::Printings::starts_more, crate::proofs::Texts::starts_here))]
fn append_agent(out: &mut Vec<u8>, program: &Program, agent: &Agent) -> Result<(), NoMemory>
    ensures printed { OnOk result (out.new.items
        ≡ out.old.items ++ agent_text program.now agent.now) }
    ensures only_appends { take (length out.old.items) out.new.items ≡ out.old.items }
{
    out.extend_from_slice(name_of_class(program, agent))?;
    out.extend_from_slice(b",")?;
    print_count(out, agent.id)?;
    append_values(out, agent.states.as_slice())
}

fn name_of_class<'a>(program: &'a Program, agent: &Agent) -> &'a [u8]
    ensures { result.now ≡ class_name program.now agent.now }
{
    match program.classes.as_slice().get(agent.class as usize) {
        Some(class) => class.name.as_bytes(),
        None => b"",
    }
}

#[tactic(auto, using(brace_num::proofs::Printings::starts_more, crate::proofs::Texts::starts_here))]
fn append_values(out: &mut Vec<u8>, values: &[Value]) -> Result<(), NoMemory>
    ensures printed { OnOk result (out.new.items
        ≡ out.old.items ++ flat_map (λ v. 44 ∷ spelled v) values.now) }
    ensures only_appends { take (length out.old.items) out.new.items ≡ out.old.items }
{
    for value in values {
        out.extend_from_slice(b",")?;
        print_value(out, *value)?;
    }
    Ok(())
}

fn print_value(out: &mut Vec<u8>, value: Value) -> Result<(), NoMemory>
    ensures printed { OnOk result (out.new.items
        ≡ out.old.items ++ spelled value) }
    ensures kept { OnErr result (out.new.items ≡ out.old.items) }
{
    match value {
        Value::Int(number) => print_int(out, number),
        Value::Fixed(millionths) => print_fixed(out, millionths),
        Value::Flag(true) => Ok(out.extend_from_slice(b"true")?),
        Value::Flag(false) => Ok(out.extend_from_slice(b"false")?),
    }
}
