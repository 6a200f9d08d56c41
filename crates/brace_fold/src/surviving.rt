ghost use Rattle.std.specs.Prelude.{◌≡◌, ◌<◌, ◌++◌, ◌∷◌, [], ℕ, ℤ, List, Some, pos, ◌≤ℤ◌, length, map, slice_get, slice_index_or, IfOk, OnOk};
ghost use Rattle.std.specs.Bool.{OnTrue};
ghost use Rattle.std.specs.List.{All, range_with_len};
ghost use Rattle.brace_model.specs.declared.program.Program.{Program};
ghost use Rattle.brace_model.specs.declared.world.Agent.{Agent};
ghost use Rattle.brace_model.specs.World.{class_of, number, value_at};
ghost use Rattle.brace_model.specs.Value.{typed};
ghost use Rattle.brace_fold.specs.Rows.{AreMoved, row_in, rows_in, values_in, words_of};
ghost use Rattle.brace_fold.specs.inner.Rulings.{AreBorn, living_from, moved_at, moved_in, new_number, number_in, rows_left, rows_of, value_in};

use crate::columns::{Columns, class_in, item_at, read};
use crate::leaving::child;
use crate::order::Moved;
use crate::outcome::{Column, Outcome, is_set};
use crate::rows::lane_at;
use crate::saying::typed;
use brace_code::{Lanes, Redo};
use brace_model::{Agent, Class, Ty, Value, number, value_at};
use brace_num::{List, clamp};
use std::alloc::Global;
use std::mem;

/// Replaces values by the states of a class in a row.
fn read_states(
    own: &Class,
    columns: &Columns,
    row: u32,
    values: &mut Vec<Value>,
) -> Result<(), Redo>
    ensures { OnOk result (values.new.items
        ≡ values_in (map (λ s. s.ty) own.now.states) (words_of columns.now) row) }
{
    values.clear();
    let states = own.states.as_slice();
    values.reserve(states.len())?;
    for i in 0..states.len() {
        let Some(state) = states.get(i) else {
            return Err(Redo);
        };
        let Some(column) = columns.states.get(i) else {
            return Err(Redo);
        };
        let word = read(column, row)?;
        values.push(typed(state.ty, word))?;
    }
    Ok(())
}

/// The agent of a row that is of a class of a number, with its states in a vector that was used.
pub fn agent_in(
    own: &Class,
    number: u32,
    columns: &Columns,
    row: u32,
    values: Vec<Value>,
) -> Result<Agent, Redo>
    ensures within { IfOk result (λ _. row < length columns.now.ids.now) }
    ensures agent { IfOk result (λ a. (program : Program)
        → slice_get program.classes number ≡ Some own.now → a ≡ row_in program columns.now row) }
{
    let Some(class) = class_in(columns, row) else {
        return Err(Redo);
    };
    if class != number {
        return Err(Redo);
    }
    let Some(id) = item_at(columns.ids, row) else {
        return Err(Redo);
    };
    let mut values = values;
    read_states(own, columns, row, &mut values)?;
    Ok(Agent {
        class,
        id,
        states: List::from_vec(values),
    })
}

/// The children of the agents of lanes, which are of a class of a number.
pub fn children_in(
    alloc: Global,
    own: &Class,
    number: u32,
    class: &Class,
    gifts: &[Column],
    columns: &Columns,
    lanes: &Lanes,
) -> Result<Vec<Agent>, Redo>
    requires { pos 0 ≤ℤ class.now.reach }
    ensures { IfOk result (λ born. (program : Program)
        → slice_get program.classes number ≡ Some own.now
        → AreBorn class.now gifts.now (rows_in program columns.now) lanes.now born.items) }
{
    let mut born = Vec::with_capacity(alloc, lanes.len())?;
    for k in 0..lanes.len() {
        let lane = lane_at(lanes, k)?;
        let parent = agent_in(own, number, columns, lane.place, Vec::new(alloc))?;
        let child = child(alloc, class, gifts, k, &parent)?;
        born.push(child)?;
    }
    Ok(born)
}

/// Adds the words of values to columns of states; 0 where there is no such value.
fn push_words(columns: &mut [List<i64>], values: &[Value]) -> Result<(), Redo>
    ensures long { length columns.new ≡ length columns.old }
    ensures each { OnOk result ((k : ℕ) (c : List ℤ) → k < length columns.old
        → slice_index_or columns.new k c
        ≡ slice_index_or columns.old k c ++ number (value_at values.now k) ∷ []) }
{
    for (k, column) in columns.iter_mut().enumerate() {
        let Ok(place) = u32::try_from(k) else {
            return Err(Redo);
        };
        column.push(number(value_at(values, place)))?;
    }
    Ok(())
}

/// Adds an agent to columns.
pub fn push_agent(left: &mut Moved, a: &Agent) -> Result<(), Redo>
    ensures rows { OnOk result ((agents : List Agent)
        → AreMoved agents left.old → AreMoved (agents ++ a.now ∷ []) left.new) }
    ensures wide { OnOk result (length left.new.states.items ≡ length left.old.states.items) }
{
    push_words(&mut left.states, a.states.as_slice())?;
    left.classes.push(a.class)?;
    left.ids.push(a.id)?;
    Ok(())
}

/// The rows whose agents live on: the first, so many, or some.
#[derive(Drop)]
enum Living {
    First(usize),
    These(Vec<usize>),
}

/// Whether the agents of so many rows all live on.
fn all_live(die: &Option<Column>, count: usize) -> bool
    ensures { OnTrue result (range_with_len 0 count ≡ rows_left die.now count) }
{
    for row in 0..count {
        if is_set(die, row) {
            return false;
        }
    }
    true
}

/// Those of so many rows whose agents live on, one by one.
fn some_living(alloc: Global, die: &Option<Column>, count: usize) -> Result<Vec<usize>, Redo>
    ensures { IfOk result (λ rows. rows.items ≡ rows_left die.now count) }
{
    let mut rows = Vec::with_capacity(alloc, count)?;
    for row in 0..count {
        if !is_set(die, row) {
            rows.push(row)?;
        }
    }
    Ok(rows)
}

/// Those of so many rows whose agents live on.
fn living_rows(alloc: Global, die: &Option<Column>, count: usize) -> Result<Living, Redo>
    ensures { IfOk result (λ living. rows_of living ≡ rows_left die.now count) }
{
    if all_live(die, count) {
        return Ok(Living::First(count));
    }
    let rows = some_living(alloc, die, count)?;
    Ok(Living::These(rows))
}

/// What a column has in a row; a default where it has nothing.
fn item_or<T: Copy>(column: &[T], row: usize, default: T) -> T
    ensures { result ≡ slice_index_or column.now row default }
{
    column.get(row).copied().unwrap_or(default)
}

/// Adds what a column has in rows; a default where it has nothing.
fn push_some<T: Copy>(
    column: &[T],
    default: T,
    rows: &[usize],
    left: &mut Vec<T>,
) -> Result<(), Redo>
    ensures { OnOk result (left.new.items
        ≡ left.old.items ++ map (λ row. slice_index_or column.now row default) rows.now) }
{
    left.reserve(rows.len())?;
    for row in rows {
        left.push_reserved(item_or(column, *row, default));
    }
    Ok(())
}

/// Adds what a column has in the first rows, so many; a default where it has nothing.
fn push_first<T: Copy>(
    column: &[T],
    default: T,
    count: usize,
    left: &mut Vec<T>,
) -> Result<(), Redo>
    ensures { OnOk result (left.new.items ≡ left.old.items
        ++ map (λ row. slice_index_or column.now row default) (range_with_len 0 count)) }
{
    if column.len() == count {
        left.extend_from_slice(column)?;
        return Ok(());
    }
    left.reserve(count)?;
    for row in 0..count {
        left.push_reserved(item_or(column, row, default));
    }
    Ok(())
}

/// Adds what a column has in the rows of those that live on; a default where it has nothing.
fn push_rows<T: Copy>(
    column: &[T],
    default: T,
    living: &Living,
    left: &mut Vec<T>,
) -> Result<(), Redo>
    ensures { OnOk result (left.new.items ≡ left.old.items
        ++ map (λ row. slice_index_or column.now row default) (rows_of living.now)) }
{
    match living {
        Living::First(count) => push_first(column, default, *count, left),
        Living::These(rows) => push_some(column, default, rows, left),
    }
}

/// Words of a type, one in each row.
#[derive(Clone, Copy)]
struct Words<'a> {
    ty: Ty,
    words: &'a [i64],
}

/// The number of the value in a row.
fn number_in(words: &Words, row: usize) -> i64
    ensures { result ≡ number_in words.now row }
{
    let word = words.words.get(row).copied().unwrap_or(0);
    match words.ty {
        Ty::Bool => i64::from(word != 0),
        Ty::Int | Ty::Fixed => word,
    }
}

/// Words that are numbers; `Redo` where they are flags.
fn plain<'a>(words: &Words<'a>) -> Result<&'a [i64], Redo>
    ensures { IfOk result (λ column. (row : ℕ)
        → slice_index_or column.now row (pos 0) ≡ number_in words.now row) }
{
    match words.ty {
        Ty::Bool => Err(Redo),
        Ty::Int | Ty::Fixed => Ok(words.words),
    }
}

/// Adds the numbers of the values in rows.
fn push_some_numbers(words: &Words, rows: &[usize], left: &mut Vec<i64>) -> Result<(), Redo>
    ensures { OnOk result
        (left.new.items ≡ left.old.items ++ map (number_in words.now) rows.now) }
{
    left.reserve(rows.len())?;
    for row in rows {
        left.push_reserved(number_in(words, *row));
    }
    Ok(())
}

/// Adds the numbers of the values in the first rows, so many.
fn push_first_numbers(words: &Words, count: usize, left: &mut Vec<i64>) -> Result<(), Redo>
    ensures { OnOk result (left.new.items
        ≡ left.old.items ++ map (number_in words.now) (range_with_len 0 count)) }
{
    if let Ok(column) = plain(words) {
        return push_first(column, 0, count, left);
    }
    left.reserve(count)?;
    for row in 0..count {
        left.push_reserved(number_in(words, row));
    }
    Ok(())
}

/// Adds the numbers of the values in the rows of those that live on.
fn push_numbers(
    alloc: Global,
    words: &Words,
    living: &Living,
    left: &mut List<i64>,
) -> Result<(), Redo>
    ensures { OnOk result
        (left.new ≡ left.old ++ map (number_in words.now) (rows_of living.now)) }
{
    let mut all = mem::replace(left, List::new(alloc)).into_vec();
    match living {
        Living::First(count) => push_first_numbers(words, *count, &mut all)?,
        Living::These(rows) => push_some_numbers(words, rows, &mut all)?,
    }
    *left = List::from_vec(all);
    Ok(())
}

/// The new number of a coordinate in a row, moved into reach of the old one.
fn moved_at(class: &Class, old: &[i64], new: &[i64], row: usize) -> i64
    requires { pos 0 ≤ℤ class.now.reach }
    ensures { result ≡ moved_at class.now old.now new.now row }
{
    let (old, new) = (item_or(old, row, 0), item_or(new, row, 0));
    if new.abs_diff(old) <= class.reach.unsigned_abs() {
        return new;
    }
    clamp(old, new, class.reach)
}

/// Adds the new numbers of a coordinate in rows.
fn push_some_moved(
    class: &Class,
    old: &[i64],
    new: &[i64],
    rows: &[usize],
    left: &mut Vec<i64>,
) -> Result<(), Redo>
    requires { pos 0 ≤ℤ class.now.reach }
    ensures { OnOk result (left.new.items
        ≡ left.old.items ++ map (moved_at class.now old.now new.now) rows.now) }
{
    left.reserve(rows.len())?;
    for row in rows {
        left.push_reserved(moved_at(class, old, new, *row));
    }
    Ok(())
}

/// Adds the new numbers of a coordinate in so many rows.
fn push_first_moved(
    class: &Class,
    old: &[i64],
    new: &[i64],
    count: usize,
    left: &mut Vec<i64>,
) -> Result<(), Redo>
    requires { pos 0 ≤ℤ class.now.reach }
    ensures { OnOk result (left.new.items ≡ left.old.items
        ++ map (moved_at class.now old.now new.now) (range_with_len 0 count)) }
{
    if old.len() != count || new.len() != count {
        return Err(Redo);
    }
    left.reserve(count)?;
    for row in 0..count {
        left.push_reserved(moved_at(class, old, new, row));
    }
    Ok(())
}

/// Adds the new numbers of a coordinate in the rows of those that live on.
fn push_moved(
    alloc: Global,
    class: &Class,
    old: &Words,
    new: &Words,
    living: &Living,
    left: &mut List<i64>,
) -> Result<(), Redo>
    requires { pos 0 ≤ℤ class.now.reach }
    ensures { OnOk result (left.new ≡ left.old
        ++ map (moved_in class.now old.now new.now) (rows_of living.now)) }
{
    let (old, new) = (plain(old)?, plain(new)?);
    let mut all = mem::replace(left, List::new(alloc)).into_vec();
    match living {
        Living::First(count) => push_first_moved(class, old, new, *count, &mut all)?,
        Living::These(rows) => push_some_moved(class, old, new, rows, &mut all)?,
    }
    *left = List::from_vec(all);
    Ok(())
}

/// The new words of a state: what its rule came to, where there is one, else the old ones.
fn ruled<'a>(rule: &'a Option<Column>, old: &Words<'a>) -> Words<'a>
    ensures { (row : ℕ) → number_in result row ≡ number (value_in rule.now row
        (typed old.now.ty (slice_index_or old.now.words.now row (pos 0)))) }
{
    match rule {
        Some(column) => Words {
            ty: column.ty,
            words: column.words.as_slice(),
        },
        None => *old,
    }
}

/// Adds a state of those agents that live on, which are of a class, by what its rules came to; 0
/// where it has no such state.
fn push_state(
    alloc: Global,
    own: &Class,
    class: &Class,
    out: &Outcome,
    columns: &Columns,
    state: usize,
    living: &Living,
    left: &mut List<i64>,
) -> Result<(), Redo>
    requires { pos 0 ≤ℤ class.now.reach }
    ensures { OnOk result (left.new ≡ left.old
        ++ map (new_number own.now class.now out.now columns.now state)
        (rows_of living.now)) }
{
    let none = Words {
        ty: Ty::Int,
        words: &[],
    };
    let Some(of) = own.states.as_slice().get(state) else {
        return push_numbers(alloc, &none, living, left);
    };
    let Some(rule) = out.states.get(state) else {
        return push_numbers(alloc, &none, living, left);
    };
    let Some(column) = columns.states.get(state) else {
        return Err(Redo);
    };
    let old = Words {
        ty: of.ty,
        words: column,
    };
    let new = ruled(rule, &old);
    if state == class.x as usize || state == class.y as usize {
        push_moved(alloc, class, &old, &new, living, left)
    } else {
        push_numbers(alloc, &new, living, left)
    }
}

/// Adds the states of those agents that live on, which are of a class, by what its rules came to.
fn push_states(
    alloc: Global,
    own: &Class,
    class: &Class,
    out: &Outcome,
    columns: &Columns,
    living: &Living,
    left: &mut [List<i64>],
) -> Result<(), Redo>
    requires { pos 0 ≤ℤ class.now.reach }
    ensures long { length left.new ≡ length left.old }
    ensures each { OnOk result ((k : ℕ) (c : List ℤ) → k < length left.old
        → slice_index_or left.new k c ≡ slice_index_or left.old k c
        ++ map (new_number own.now class.now out.now columns.now k)
        (rows_of living.now)) }
{
    for (state, column) in left.iter_mut().enumerate() {
        push_state(alloc, own, class, out, columns, state, living, column)?;
    }
    Ok(())
}

/// Adds those agents of a class that live on to columns, by what its rules came to.
pub fn keep_rows(
    alloc: Global,
    own: &Class,
    class: &Class,
    out: &Outcome,
    columns: &Columns,
    left: &mut Moved,
) -> Result<(), Redo>
    requires { pos 0 ≤ℤ class.now.reach }
    ensures kept { OnOk result ((program : Program) (agents : List Agent)
        → All (λ a. class_of program a ≡ Some own.now) (rows_in program columns.now)
        → AreMoved agents left.old
        → AreMoved (agents ++ living_from class.now out.now 0 (rows_in program columns.now))
        left.new) }
    ensures wide { OnOk result
        (length left.new.states.items ≡ length left.old.states.items) }
{
    let living = living_rows(alloc, &out.die, columns.ids.len())?;
    push_rows(columns.classes, 0, &living, &mut left.classes)?;
    push_rows(columns.ids, 0, &living, &mut left.ids)?;
    push_states(alloc, own, class, out, columns, &living, &mut left.states)
}
