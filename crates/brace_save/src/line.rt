//! The lines of a checkpoint, read one by one.
ghost use Rattle.std.specs.Prelude.{◌≡◌, ◌≤◌, ◌+◌, ◌==◌, ℕ, [], map, length, codes, IfOk, IfSome, Ok, Some, None, IsTrue};
ghost use Rattle.std.specs.List.{slice_split, list_all};
ghost use Rattle.std.specs.Result.{result_ok};
ghost use Rattle.std.specs.Str.{bytes_eq};
ghost use Rattle.brace_model.specs.declared.world.Agent.{Agent};
ghost use Rattle.brace_model.specs.Lawful.{LawfulProgram, is_lawful_agent};
ghost use Rattle.brace_model.specs.Published.{agent_text};
ghost use Rattle.brace_rows.specs.AgentFile.{field, value_of, values_in, complete, agent_of_class, agent_of};
ghost use Rattle.brace_save.specs.Texts.{class_line, count_line, value_fits};
ghost use Rattle.brace_save.specs.inner.Spelled.{IsAgentLine};

use crate::write::append_class;
use brace_model::{Agent, Class, Program, State, Ty, Value};
use brace_num::{List, NoMemory, print_count, read_count};
use brace_rows::{class_named, print_agent, read_id, read_value};
use std::alloc::{AllocError, Global};

/// What stands between the commas of a line.
fn fields_of<'a>(alloc: Global, line: &'a [u8]) -> Result<Vec<&'a [u8]>, AllocError>
    ensures { IfOk result (λ fields. map (λ f. f.now) fields.items ≡
        slice_split (λ b. b == 44) line.now) }
{
    line.split(|byte| *byte == b',').collect(alloc)
}

/// The count of a line of a word and a count, at most so great; None where the line is none.
pub(crate) fn count_in(
    alloc: Global,
    line: &[u8],
    word: &[u8],
    most: u64,
) -> Result<Option<u64>, NoMemory>
    ensures some { (n : ℕ) → result ≡ Ok (Some n)
        → (n ≤ most) × (line.now ≡ count_line word.now n) }
    ensures none { result ≡ Ok None → (n : ℕ) → n ≤ most
        → line.now ≡ count_line word.now n → ⊥ }
{
    let Some(digits) = line.strip_prefix(word) else {
        return Ok(None);
    };
    let Some(n) = read_count(digits) else {
        return Ok(None);
    };
    if n <= most && is_canonical(alloc, digits, n)? {
        Ok(Some(n))
    } else {
        Ok(None)
    }
}

fn is_canonical(alloc: Global, digits: &[u8], n: u64) -> Result<bool, NoMemory>
    ensures { IfOk result (λ is. is ≡ bytes_eq (count_line [] n) digits.now) }
{
    let mut spelled = Vec::new(alloc);
    print_count(&mut spelled, n)?;
    Ok(spelled.as_slice() == digits)
}

/// Whether a line is that of a class.
pub(crate) fn is_class_line(alloc: Global, line: &[u8], class: &Class) -> Result<bool, NoMemory>
    ensures { IfOk result (λ is. is ≡ bytes_eq (class_line class.now) line.now) }
{
    let mut spelled = Vec::new(alloc);
    append_class(&mut spelled, class)?;
    Ok(spelled.as_slice() == line)
}

/// Whether a line is the end line behind so many agents.
pub(crate) fn is_end_line(alloc: Global, line: &[u8], agents: usize) -> Result<bool, NoMemory>
    ensures { IfOk result (λ is. is ≡ bytes_eq (count_line (codes "end ") agents) line.now) }
{
    let mut spelled = Vec::new(alloc);
    spelled.extend_from_slice(b"end ")?;
    print_count(&mut spelled, agents as u64)?;
    Ok(spelled.as_slice() == line)
}

/// The agent of a line, or None where the line is that of no agent.
pub(crate) fn agent_in(
    alloc: Global,
    program: &Program,
    line: &[u8],
) -> Result<Option<Agent>, NoMemory>
    ensures some { (a : Agent) → result ≡ Ok (Some a) → IsAgentLine program.now a line.now }
    ensures none { LawfulProgram program.now → result ≡ Ok None
        → (a : Agent) → IsAgentLine program.now a line.now → ⊥ }
{
    let Some(agent) = read_agent(alloc, program, line)? else {
        return Ok(None);
    };
    if is_agent_line(alloc, program, &agent, line)? {
        Ok(Some(agent))
    } else {
        Ok(None)
    }
}

fn is_agent_line(
    alloc: Global,
    program: &Program,
    agent: &Agent,
    line: &[u8],
) -> Result<bool, NoMemory>
    ensures { IfOk result (λ is. is ≡ bytes_eq (agent_text program.now agent.now) line.now) }
{
    let mut spelled = Vec::new(alloc);
    print_agent(&mut spelled, program, agent)?;
    Ok(spelled.as_slice() == line)
}

// The agent that a line spells, in whatever spelling.
fn read_agent(alloc: Global, program: &Program, line: &[u8]) -> Result<Option<Agent>, NoMemory>
    ensures agent { IfOk result (λ agent. agent ≡
        result_ok (agent_of program.now (slice_split (λ b. b == 44) line.now))) }
    ensures fit { IfOk result (λ agent. IfSome agent
        (λ a. IsTrue (list_all value_fits a.states))) }
{
    let fields = fields_of(alloc, line)?;
    read_fields(alloc, program, fields.as_slice())
}

fn read_fields(
    alloc: Global,
    program: &Program,
    fields: &[&[u8]],
) -> Result<Option<Agent>, NoMemory>
    ensures agent { IfOk result (λ agent. agent ≡
        result_ok (agent_of program.now (map (λ f. f.now) fields.now))) }
    ensures fit { IfOk result (λ agent. IfSome agent
        (λ a. IsTrue (list_all value_fits a.states))) }
{
    let Some(place) = class_named(program, field_at(fields, 0)) else {
        return Ok(None);
    };
    let class = number_of(place)?;
    let states = program.classes.as_slice()[place].states.as_slice();
    read_of_class(alloc, class, states, fields)
}

fn read_of_class(
    alloc: Global,
    class: u32,
    states: &[State],
    fields: &[&[u8]],
) -> Result<Option<Agent>, NoMemory>
    ensures agent { IfOk result (λ agent. agent ≡
        result_ok (agent_of_class class states.now (map (λ f. f.now) fields.now))) }
    ensures fit { IfOk result (λ agent. IfSome agent
        (λ a. IsTrue (list_all value_fits a.states))) }
{
    if fields.len() != states.len() + 2 {
        return Ok(None);
    }
    let Some(id) = read_id(field_at(fields, 1)) else {
        return Ok(None);
    };
    match read_values(alloc, states, fields)? {
        Some(states) => Ok(Some(Agent { class, id, states })),
        None => Ok(None),
    }
}

/// The text at a place, or no bytes behind the last one.
pub(crate) fn field_at<'a>(fields: &[&'a [u8]], i: usize) -> &'a [u8]
    ensures { result.now ≡ field i (map (λ f. f.now) fields.now) }
{
    match fields.get(i) {
        Some(text) => text,
        None => &[],
    }
}

// No memory holds 2^32 classes.
fn number_of(place: usize) -> Result<u32, NoMemory>
    ensures { IfOk result (λ number. number ≡ place) }
{
    match u32::try_from(place) {
        Ok(number) => Ok(number),
        Err(_) => Err(NoMemory),
    }
}

// A value for each state, or None where a field spells none.
fn read_values(
    alloc: Global,
    states: &[State],
    fields: &[&[u8]],
) -> Result<Option<List<Value>>, NoMemory>
    requires { length fields.now ≡ length states.now + 2 }
    ensures values { IfOk result (λ values. values ≡
        result_ok (complete (values_in states.now (map (λ f. f.now) fields.now)))) }
    ensures fit { IfOk result (λ values. IfSome values (λ v. IsTrue (list_all value_fits v))) }
{
    let mut values = Vec::with_capacity(alloc, states.len())?;
    for i in 0..states.len() {
        let Some(value) = fitting_value(states[i].ty, field_at(fields, i + 2)) else {
            return Ok(None);
        };
        values.push(value)?;
    }
    Ok(Some(List::from_vec(values)))
}

fn fitting_value(ty: Ty, text: &[u8]) -> Option<Value>
    ensures reading { result ≡ value_of ty text.now }
    ensures fits { IfSome result (λ v. IsTrue (value_fits v)) }
{
    read_value(ty, text)
}
