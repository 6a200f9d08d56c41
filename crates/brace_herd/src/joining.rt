ghost use Rattle.std.specs.Prelude.{◌≡◌, ◌<◌, [], List, Some, nat_eq, slice_get, IfOk, OnOk};
ghost use Rattle.std.specs.Bool.{OnTrue};
ghost use Rattle.std.specs.List.{All, IsDistinct};
ghost use Rattle.std.specs.List.Sorted.{IsPermutation};
ghost use Rattle.brace_model.specs.declared.world.Agent.{Agent};
ghost use Rattle.brace_model.specs.World.{RisesById, ids};
ghost use Rattle.brace_model.specs.Query.{Saying};
ghost use Rattle.brace_comb.specs.Totals.{tally};
ghost use Rattle.brace_eval.specs.Heard.{AreTold};
ghost use Rattle.brace_fold.specs.Hears.{Hears};
ghost use Rattle.brace_fold.specs.Rows.{AreMoved};
ghost use Rattle.brace_herd.specs.Placed.{ArePlaces};
ghost use Rattle.brace_herd.specs.inner.Tables.{IsSilent, TellsOf, TellsBy, TellBy};

use crate::near::{item_at, number_at};
use brace_comb::{Combine, Entry};
use brace_fold::{Moved, Redo, Table};
use brace_model::Program;
use brace_pieces::Piece;
use std::alloc::Global;

/// The id of an agent, and the row where it stands.
#[derive(Clone, Copy, Drop)]
pub struct Named {
    pub id: u64,
    pub row: u32,
}

/// Where the mark of an id stands: ids of one remainder share it.
fn mark_of(id: u64) -> usize
    ensures { result < 4096 }
{
    (id % 4096) as usize
}

/// Marks the ids that entries tell of.
fn mark(marks: &mut [bool; 4096], entries: &[Entry]) {
    for entry in entries {
        marks[mark_of(entry.target)] = true;
    }
}

/// Marks the ids that pieces tell of.
fn mark_all(marks: &mut [bool; 4096], pieces: &[Piece]) {
    for piece in pieces {
        if let Piece::Effects(entries) = piece {
            mark(marks, entries.as_slice());
        }
    }
}

/// Of some rows those of ids that are marked, by rising id.
fn named_rows(
    alloc: Global,
    marks: &[bool; 4096],
    ids: &[u64],
    rows: &[u32],
) -> Result<Vec<Named>, Redo> {
    let mut named = Vec::new(alloc);
    for row in rows {
        let Some(id) = item_at(ids, *row as usize) else {
            return Err(Redo);
        };
        if marks[mark_of(id)] {
            named.push(Named { id, row: *row })?;
        }
    }
    named.sort_by_key(|n| n.id)?;
    Ok(named)
}

/// The row of an id among rows by rising id, where it stands there.
fn row_of(ids: &[u64], named: &[Named], id: u64) -> Result<u32, Redo>
    ensures { IfOk result (λ row. slice_get ids.now row ≡ Some id) }
{
    let Ok(place) = named.binary_search_by_key(&id, |n| n.id) else {
        return Err(Redo);
    };
    let row = named[place].row;
    let Some(there) = item_at(ids, row as usize) else {
        return Err(Redo);
    };
    if there != id {
        return Err(Redo);
    }
    Ok(row)
}

/// Joins what an entry tells to the sum of the agent of a row.
fn join_at(
    program: &Program,
    rows: &Moved,
    row: u32,
    said: &mut Table,
    entry: &Entry,
) -> Result<(), Redo>
    ensures { OnOk result ((all : List Agent) (a : Agent) (told : List Saying)
        → AreMoved all rows.now → IsDistinct nat_eq (ids all) → slice_get all row ≡ Some a
        → AreTold program.now a entry.now.field (tally entry.now.total).number
        (tally entry.now.total).count told
        → Hears program.now all told said.old said.new) }
{
    let Some(number) = number_at(&rows.classes, row as usize) else {
        return Err(Redo);
    };
    let Some(class) = program.classes.as_slice().get(number as usize) else {
        return Err(Redo);
    };
    let Some(effect) = class.effects.as_slice().get(entry.field as usize) else {
        return Err(Redo);
    };
    let Ok(number) = i64::try_from(entry.total.number()) else {
        return Err(Redo);
    };
    let Ok(count) = u32::try_from(entry.total.count()) else {
        return Err(Redo);
    };
    said.join(entry.field, row, effect.comb, number, count)?;
    Ok(())
}

/// Joins what an entry tells of an agent in rows.
fn join_entry(
    program: &Program,
    rows: &Moved,
    named: &[Named],
    said: &mut Table,
    entry: &Entry,
) -> Result<(), Redo>
    ensures { OnOk result ((all : List Agent) (told : List Saying)
        → AreMoved all rows.now → IsDistinct nat_eq (ids all)
        → TellsOf program.now all entry.now told
        → Hears program.now all told said.old said.new) }
{
    let row = row_of(&rows.ids, named, entry.target)?;
    join_at(program, rows, row, said, entry)
}

/// Joins what entries tell of agents in rows.
fn join_entries(
    program: &Program,
    rows: &Moved,
    named: &[Named],
    said: &mut Table,
    entries: &[Entry],
) -> Result<(), Redo>
    ensures { OnOk result ((all : List Agent) (told : List Saying)
        → AreMoved all rows.now → IsDistinct nat_eq (ids all)
        → TellsBy program.now all entries.now told
        → Hears program.now all told said.old said.new) }
{
    for entry in entries {
        join_entry(program, rows, named, said, entry)?;
    }
    Ok(())
}

/// Joins what pieces tell of values said to agents in rows.
fn join_pieces(
    program: &Program,
    rows: &Moved,
    named: &[Named],
    said: &mut Table,
    pieces: &[Piece],
) -> Result<(), Redo>
    ensures { OnOk result ((all : List Agent) (told : List Saying)
        → AreMoved all rows.now → IsDistinct nat_eq (ids all)
        → TellBy program.now all pieces.now told
        → Hears program.now all told said.old said.new) }
{
    for piece in pieces {
        if let Piece::Effects(entries) = piece {
            join_entries(program, rows, named, said, entries.as_slice())?;
        }
    }
    Ok(())
}

/// Whether there are no entries.
fn is_nothing(entries: &[Entry]) -> bool
    ensures { OnTrue result (entries.now ≡ []) }
{
    entries.is_empty()
}

/// Whether a piece tells of no values.
fn is_silent(piece: &Piece) -> bool
    ensures { OnTrue result (IsSilent piece.now) }
{
    match piece {
        Piece::Effects(entries) => is_nothing(entries.as_slice()),
        _ => true,
    }
}

/// Whether pieces tell of no values.
fn are_silent(pieces: &[Piece]) -> bool
    ensures { OnTrue result (All IsSilent pieces.now) }
{
    for piece in pieces {
        if !is_silent(piece) {
            return false;
        }
    }
    true
}

/// Joins what other parts tell of values said to agents of a part, which stand in some rows.
pub fn join_sums(
    alloc: Global,
    program: &Program,
    rows: &Moved,
    own: &[u32],
    said: &mut Table,
    pieces: &[Piece],
) -> Result<(), Redo>
    ensures { OnOk result ((all theirs mine : List Agent) (told : List Saying)
        → AreMoved all rows.now → IsDistinct nat_eq (ids all) → ArePlaces all theirs own.now
        → IsPermutation mine theirs → RisesById mine → TellBy program.now mine pieces.now told
        → Hears program.now all told said.old said.new) }
{
    if are_silent(pieces) {
        return Ok(());
    }
    let mut marks = [false; 4096];
    mark_all(&mut marks, pieces);
    let named = named_rows(alloc, &marks, &rows.ids, own)?;
    join_pieces(program, rows, &named, said, pieces)
}
