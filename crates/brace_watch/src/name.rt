//! What a line of a watch file asks for in the runs of a program.
ghost use Rattle.std.specs.Prelude.{◌≡◌, ◌&&◌, option_map, is_some, is_none, position, IfOk};
ghost use Rattle.std.specs.Str.{bytes_eq};
ghost use Rattle.brace_model.specs.Typing.{is_number};
ghost use Rattle.brace_rows.specs.AgentFile.{states_in};
ghost use Rattle.brace_watch.specs.Watches.{place_of, tested, type_at, joins_flags, is_ordered, condition_at, condition_of, watch_of_class, watch_with};
ghost use Rattle.brace_watch.specs.inner.Seen.{seen_test, seen};

use crate::line::{Line, Test};
use crate::{Watch, WatchKind};
use brace_model::{BinOp, Program, State, Ty, Value};
use brace_num::NoMemory;
use brace_rows::{class_named, read_value};

/// The watch of what may have the form of a line, or the first of the faults that no other line has
/// part in.
pub fn watch_of(program: &Program, line: Option<Line>) -> Result<Result<Watch, WatchKind>, NoMemory>
    ensures { IfOk result (λ watch. watch ≡ watch_with program.now (option_map seen line.entry)) }
{
    let Some(line) = line else {
        return Ok(Err(WatchKind::BadLine));
    };
    let Some(place) = class_named(program, line.class) else {
        return Ok(Err(WatchKind::UnknownClass));
    };
    let class = number_of(place)?;
    watch_of_class(class, states_in(program, class), &line)
}

/// The states of the class of a number.
pub fn states_in<'a>(program: &'a Program, class: u32) -> &'a [State]
    ensures { result.now ≡ states_in program.now class }
{
    match program.classes.as_slice().get(class as usize) {
        Some(class) => class.states.as_slice(),
        None => &[],
    }
}

/// The type of the state at a place; that of flags where there is none.
pub fn type_at(states: &[State], place: u32) -> Ty
    ensures { result ≡ type_at states.now place }
{
    match states.get(place as usize) {
        Some(state) => state.ty,
        None => Ty::Bool,
    }
}

// No memory holds 2^32 classes or states.
fn number_of(place: usize) -> Result<u32, NoMemory>
    ensures { IfOk result (λ number. number ≡ place) }
{
    match u32::try_from(place) {
        Ok(number) => Ok(number),
        Err(_) => Err(NoMemory),
    }
}

fn watch_of_class(
    class: u32,
    states: &[State],
    line: &Line,
) -> Result<Result<Watch, WatchKind>, NoMemory>
    ensures { IfOk result (λ watch. watch ≡ watch_of_class class states.now (seen line.now)) }
{
    let tested = tested(line.test);
    let field = place_of(states, line.field)?;
    let place = place_of(states, tested)?;
    if is_unknown(line.field, field) || is_unknown(tested, place) {
        return Ok(Err(WatchKind::UnknownField));
    }
    let test = condition_of(states, line.test, place);
    if joins_flags(states, field) || (line.test.is_some() && test.is_none()) {
        return Ok(Err(WatchKind::WrongType));
    }
    Ok(Ok(Watch {
        kind: line.kind,
        class,
        field,
        test,
    }))
}

fn tested<'a>(test: Option<Test<'a>>) -> Option<&'a [u8]>
    ensures { option_map (λ name. name.now) result ≡ tested (option_map seen_test test.entry) }
{
    Some(test?.field)
}

// The place of the state of a name, where a name is given and a state has it.
fn place_of(states: &[State], name: Option<&[u8]>) -> Result<Option<u32>, NoMemory>
    ensures { IfOk result (λ place. place
        ≡ place_of states.now (option_map (λ n. n.now) name.entry)) }
{
    let Some(name) = name else {
        return Ok(None);
    };
    let Some(place) = position(states, name) else {
        return Ok(None);
    };
    Ok(Some(number_of(place)?))
}

fn position(states: &[State], name: &[u8]) -> Option<usize>
    ensures { result ≡ position (λ s. bytes_eq s.name name.now) states.now }
{
    states
        .iter()
        .position(|state| state.name.as_bytes() == name)
}

// Whether a name is given that no state has, by the place of the state that has it.
fn is_unknown(name: Option<&[u8]>, place: Option<u32>) -> bool
    ensures { result ≡ (is_some name.entry && is_none place) }
{
    name.is_some() && place.is_none()
}

fn joins_flags(states: &[State], field: Option<u32>) -> bool
    ensures { result ≡ joins_flags states.now field }
{
    match field {
        None => false,
        Some(place) => !is_number(type_at(states, place)),
    }
}

fn is_number(ty: Ty) -> bool
    ensures { result ≡ is_number ty }
{
    match ty {
        Ty::Int | Ty::Fixed => true,
        Ty::Bool => false,
    }
}

// Whether values of a type may be compared so.
fn is_ordered(op: BinOp, ty: Ty) -> bool
    ensures { result ≡ is_ordered op ty }
{
    match op {
        BinOp::Eq => true,
        _ => is_number(ty),
    }
}

fn condition_of(
    states: &[State],
    test: Option<Test>,
    place: Option<u32>,
) -> Option<(u32, BinOp, Value)>
    ensures { result ≡ condition_of states.now (option_map seen_test test.entry) place }
{
    condition_at(states, &test?, place?)
}

fn condition_at(states: &[State], test: &Test, place: u32) -> Option<(u32, BinOp, Value)>
    ensures { result ≡ condition_at states.now (seen_test test.now) place }
{
    let ty = type_at(states, place);
    if !is_ordered(test.op, ty) {
        return None;
    }
    Some((place, test.op, read_value(ty, test.value)?))
}
