//! What one field of a record spells.
ghost use Rattle.std.specs.Prelude.{◌≡◌};
ghost use Rattle.brace_rows.specs.AgentFile.{flag_of, value_of, id_in_range, id_of, class_named};

use brace_model::{Program, Ty, Value};
use brace_num::{read_count, read_fixed, read_int};

const GREATEST_ID: u64 = 9_223_372_036_854_775_807;

/// The number of the class of a name, or None where no class has it.
pub fn class_named(program: &Program, name: &[u8]) -> Option<usize>
    ensures { result ≡ class_named program.now name.now }
{
    program
        .classes
        .as_slice()
        .iter()
        .position(|class| class.name.as_bytes() == name)
}

/// The id that a text spells, in any spelling, or None where it spells none.
pub fn read_id(text: &[u8]) -> Option<u64>
    ensures { result ≡ id_of text.now }
{
    id_in_range(read_count(text))
}

fn id_in_range(count: Option<u64>) -> Option<u64>
    ensures { result ≡ id_in_range count }
{
    match count {
        Some(id) if id <= GREATEST_ID => Some(id),
        _ => None,
    }
}

/// The value of a type that a text spells, in any spelling, or None where it spells none.
pub fn read_value(ty: Ty, text: &[u8]) -> Option<Value>
    ensures { result ≡ value_of ty text.now }
{
    match ty {
        Ty::Int => Some(Value::Int(read_int(text)?)),
        Ty::Fixed => Some(Value::Fixed(read_fixed(text)?)),
        Ty::Bool => Some(Value::Flag(read_flag(text)?)),
    }
}

fn read_flag(text: &[u8]) -> Option<bool>
    ensures { result ≡ flag_of text.now }
{
    if text == b"true".as_slice() {
        Some(true)
    } else if text == b"false".as_slice() {
        Some(false)
    } else {
        None
    }
}
