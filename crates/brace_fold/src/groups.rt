ghost use Rattle.std.specs.Prelude.{◌≡◌, ◌<◌, ◌≤◌, ◌++◌, length, take, IfOk, IsTrue};
ghost use Rattle.std.specs.List.Sorted.{IsPermutation};
ghost use Rattle.brace_fold.specs.inner.Crowds.{AreOfClass};

use crate::columns::item_at;
use brace_code::{Redo, are_within};
use std::alloc::Global;

/// How many agents are asked, or renewed, at once.
const MANY: usize = 2048;

/// The first of some rows, whose agents are of one class, and the rest.
#[derive(Clone, Copy)]
pub struct Group<'a> {
    /// The number of the class.
    pub class: u32,
    pub rows: &'a [u32],
    pub rest: &'a [u32],
}

/// The number of the class of a row; 0 where there is none.
fn class_or(classes: &[u32], row: u32) -> u32 {
    classes.get(row as usize).copied().unwrap_or(0)
}

/// Whether rows rise.
fn rise(rows: &[u32]) -> bool {
    let mut falls = false;
    let mut last = 0;
    for row in rows {
        falls |= *row < last;
        last = *row;
    }
    !falls
}

/// Whether the agents of some rows are all of a class.
fn are_of_class(classes: &[u32], rows: &[u32], class: u32) -> bool
    ensures { IsTrue result → AreOfClass classes.now class rows.now }
{
    if !are_within(rows, classes.len()) {
        return false;
    }
    let mut others = false;
    for row in rows {
        others |= classes[*row as usize] != class;
    }
    !others
}

/// Whether rows rise, and are all of one class.
fn are_alike(classes: &[u32], rows: &[u32]) -> bool {
    let Some(first) = rows.first() else {
        return true;
    };
    rise(rows) && are_of_class(classes, rows, class_or(classes, *first))
}

/// Rows in the order of their classes, and of each other.
pub fn by_class(alloc: Global, classes: &[u32], rows: &[u32]) -> Result<Vec<u32>, Redo>
    ensures { IfOk result (λ sorted. IsPermutation rows.now sorted.items) }
{
    let mut sorted = Vec::with_capacity(alloc, rows.len())?;
    sorted.extend_from_slice(rows)?;
    if !are_alike(classes, rows) {
        sorted.sort_unstable_by_key(|row: &u32| (class_or(classes, *row), *row));
    }
    Ok(sorted)
}

/// How many of the first of some rows are of a class.
fn class_end(classes: &[u32], rows: &[u32], class: u32) -> usize
    ensures within { result ≤ length rows.now }
    ensures of_class { AreOfClass classes.now class (take result rows.now) }
{
    if are_of_class(classes, rows, class) {
        return rows.len();
    }
    let mut count = 0;
    while count < rows.len() && item_at(classes, rows[count]) == Some(class) {
        count += 1;
    }
    count
}

/// The first rows that are of one class, no more of them than are asked at once; Redo where there
/// is no row.
pub fn first_group<'a>(classes: &[u32], rows: &'a [u32]) -> Result<Group<'a>, Redo>
    ensures rows { IfOk result (λ group. group.rows.now ++ group.rest.now ≡ rows.now) }
    ensures fewer { IfOk result (λ group. length group.rest.now < length rows.now) }
    ensures of_class { IfOk result (λ group.
        AreOfClass classes.now group.class group.rows.now) }
{
    let Some(first) = rows.first() else {
        return Err(Redo);
    };
    let Some(class) = item_at(classes, *first) else {
        return Err(Redo);
    };
    let (most, _) = rows.split_at(rows.len().min(MANY));
    let count = class_end(classes, most, class);
    if count == 0 {
        return Err(Redo);
    }
    let (rows, rest) = rows.split_at(count);
    Ok(Group { class, rows, rest })
}
