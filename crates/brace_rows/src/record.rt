//! The agent of one record.
ghost use Rattle.std.specs.Prelude.{◌≡◌, ◌+◌, length, IfOk};
ghost use Rattle.csv.specs.Records.{fields_of};
ghost use Rattle.brace_rows.specs.AgentFile.{field, values_in, complete, agent_of_class, agent_of};

use crate::RowKind;
use crate::spell::{class_named, read_id, read_value};
use brace_model::{Agent, Program, State, Values};
use brace_num::{List, NoMemory};
use csv::ByteRecord;
use std::alloc::Global;

/// The agent of a record by itself, or the first fault that no other record has part in.
pub(crate) fn read_agent(
    alloc: Global,
    program: &Program,
    row: &ByteRecord,
) -> Result<Result<Agent, RowKind>, NoMemory>
    ensures { IfOk result (λ agent. agent ≡ agent_of program.now (fields_of row.now)) }
{
    let Some(place) = class_named(program, field_at(row, 0)) else {
        return Ok(Err(RowKind::UnknownClass));
    };
    let class = number_of(place)?;
    let states = program.classes.as_slice()[place].states.as_slice();
    read_of_class(alloc, class, states, row)
}

// No memory holds 2^32 classes, or the fields of a record of as many.
fn number_of(place: usize) -> Result<u32, NoMemory>
    ensures { IfOk result (λ number. number ≡ place) }
{
    match u32::try_from(place) {
        Ok(number) => Ok(number),
        Err(_) => Err(NoMemory),
    }
}

// The field at a place, or no bytes behind the last one.
fn field_at<'a>(row: &'a ByteRecord, i: usize) -> &'a [u8]
    ensures { result.now ≡ field i (fields_of row.now) }
{
    match row.get(i) {
        Some(text) => text,
        None => &[],
    }
}

fn read_of_class(
    alloc: Global,
    class: u32,
    states: &[State],
    row: &ByteRecord,
) -> Result<Result<Agent, RowKind>, NoMemory>
    ensures { IfOk result (λ agent. agent ≡ agent_of_class class states.now (fields_of row.now)) }
{
    if row.len() != states.len() + 2 {
        return Ok(Err(RowKind::WrongLength));
    }
    let Some(id) = read_id(field_at(row, 1)) else {
        return Ok(Err(RowKind::BadValue(1)));
    };
    match read_values(alloc, states, row)? {
        Ok(states) => Ok(Ok(Agent { class, id, states })),
        Err(column) => Ok(Err(RowKind::BadValue(number_of(column)?))),
    }
}

// A value for each state, or the first field that spells none.
fn read_values(
    alloc: Global,
    states: &[State],
    row: &ByteRecord,
) -> Result<Result<Values, usize>, NoMemory>
    requires { length (fields_of row.now) ≡ length states.now + 2 }
    ensures { IfOk result (λ values. values ≡ complete (values_in states.now (fields_of row.now))) }
{
    let mut values = Vec::with_capacity(alloc, states.len())?;
    for state in states {
        let column = values.len() + 2;
        let Some(value) = read_value(state.ty, field_at(row, column)) else {
            return Ok(Err(column));
        };
        values.push(value)?;
    }
    Ok(Ok(List::from_vec(values)))
}
