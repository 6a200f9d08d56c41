// Programs whose classes have states alone, and their agents.
use brace_model::{Agent, Class, Program, State, Ty, Value};
use brace_num::{List, NoMemory, Text};
use std::alloc::Global;

fn text_of(alloc: Global, name: &str) -> Result<Text, NoMemory> {
    let mut string = String::new(alloc);
    string.push_str(name)?;
    Ok(Text::from_string(string))
}

fn class_of(alloc: Global, name: &str, shape: &[(&str, Ty)]) -> Result<Class, NoMemory> {
    let mut states = List::new(alloc);
    for (name, ty) in shape {
        states.push(State {
            name: text_of(alloc, name)?,
            ty: *ty,
            shared: true,
            rule: None,
        })?;
    }
    Ok(Class {
        name: text_of(alloc, name)?,
        visible: 0,
        reach: 0,
        x: 0,
        y: 1,
        states,
        effects: List::new(alloc),
        query: List::new(alloc),
        die: None,
        spawn: None,
    })
}

/// The program of classes with such names and states, whose first two states are the position.
pub fn program_of(alloc: Global, shapes: &[(&str, &[(&str, Ty)])]) -> Result<Program, NoMemory> {
    let mut classes = List::new(alloc);
    for (name, shape) in shapes {
        classes.push(class_of(alloc, name, shape)?)?;
    }
    Ok(Program {
        classes,
        sites: List::new(alloc),
    })
}

/// An agent of a class.
pub fn agent_of(alloc: Global, class: u32, id: u64, values: &[Value]) -> Result<Agent, NoMemory> {
    Ok(Agent {
        class,
        id,
        states: List::from_vec(Vec::from_slice(alloc, values)?),
    })
}
