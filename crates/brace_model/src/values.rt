//! Values as words and types.
ghost use Rattle.std.specs.Prelude.{◌≡◌, ◌≤◌, length, map, OnOk};
ghost use Rattle.brace_model.specs.Typing.{type_of_value};
ghost use Rattle.brace_model.specs.Value.{typed};
ghost use Rattle.brace_model.specs.World.{number};
ghost use Rattle.brace_model.specs.Words.{values_of};

use crate::{Ty, Value, number};
use brace_num::NoMemory;

/// A word as a value of a type; a flag is set where the word is not 0.
pub(crate) fn typed(ty: Ty, word: i64) -> Value
    ensures { result ≡ typed ty word }
{
    match ty {
        Ty::Int => Value::Int(word),
        Ty::Fixed => Value::Fixed(word),
        Ty::Bool => Value::Flag(word != 0),
    }
}

/// The type of a value.
fn type_of(value: Value) -> Ty
    ensures { result ≡ type_of_value value }
{
    match value {
        Value::Int(_) => Ty::Int,
        Value::Fixed(_) => Ty::Fixed,
        Value::Flag(_) => Ty::Bool,
    }
}

/// Replaces values by words as values of some types, of which there are not more than words.
pub(crate) fn read(types: &[Ty], words: &[i64], values: &mut Vec<Value>) -> Result<(), NoMemory>
    requires { length types.now ≤ length words.now }
    ensures { OnOk result (values.new.items ≡ values_of types.now words.now) }
{
    values.clear();
    values.reserve(types.len())?;
    for k in 0..types.len() {
        values.push(typed(types[k], words[k]))?;
    }
    Ok(())
}

/// Replaces types by those of values.
pub(crate) fn types_into(values: &[Value], types: &mut Vec<Ty>) -> Result<(), NoMemory>
    ensures { OnOk result (types.new.items ≡ map type_of_value values.now) }
{
    types.clear();
    for value in values {
        types.push(type_of(*value))?;
    }
    Ok(())
}

/// Replaces words by those of values.
pub(crate) fn words_into(values: &[Value], words: &mut Vec<i64>) -> Result<(), NoMemory>
    ensures { OnOk result (words.new.items ≡ map number values.now) }
{
    words.clear();
    for value in values {
        words.push(number(*value))?;
    }
    Ok(())
}
