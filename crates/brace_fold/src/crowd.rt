ghost use Rattle.std.specs.Prelude.{◌≡◌, ◌≤◌, List, [], length, map, replicate, slice_index_or, IfOk, IsFalse, OnOk};
ghost use Rattle.brace_model.specs.declared.program.Ty.TheVariants as ty;
ghost use Rattle.brace_model.specs.declared.world.Agent.{Agent};
ghost use Rattle.brace_model.specs.World.{number};
ghost use Rattle.brace_model.specs.Value.{Scope, typed};
ghost use Rattle.brace_code.specs.declared.lane.Lane.{Lane};
ghost use Rattle.brace_code.specs.Columns.{taking, side};
ghost use Rattle.brace_fold.specs.declared.scene.Scene.{Scene};
ghost use Rattle.brace_fold.specs.inner.Asks.{openings};
ghost use Rattle.brace_fold.specs.inner.Crowds.{Stands, AreOf, AreGathered, AreNumbered, AreOfClass, AreStretches, AreTaken, IsGathered, IsNoneOnSide, asking_at, bound_to, chosen, has_outer, has_inner, IsScene};

use crate::scene::Scene;
use brace_code::{Lanes, Redo, Row, Rows, column_of};
use brace_model::Ty;
use brace_num::List;
use std::alloc::Global;

/// In how many loops lanes stand.
#[derive(Clone, Copy, PartialEq, Eq, Drop)]
pub enum Depth {
    Outside,
    Once,
    Twice,
}

/// Whether lanes of a depth have an agent of the outer loop.
pub fn has_outer(depth: Depth) -> bool
    ensures { result ≡ has_outer depth }
{
    match depth {
        Depth::Outside => false,
        Depth::Once | Depth::Twice => true,
    }
}

/// Whether lanes of a depth have an agent of the inner loop.
pub fn has_inner(depth: Depth) -> bool
    ensures { result ≡ has_inner depth }
{
    match depth {
        Depth::Outside | Depth::Once => false,
        Depth::Twice => true,
    }
}

/// Lanes in turn that have the agent of one row as This.
#[derive(Clone, Copy, Drop)]
pub struct Stretch {
    pub row: u32,
    pub count: u32,
}

/// Lanes that do a block together. They are numbered: the place of each is its own in the list.
#[derive(Drop)]
pub struct Crowd {
    pub depth: Depth,
    pub lanes: Lanes,
    /// A column for each constant of the class, by place; empty where it is not set.
    pub locals: Vec<List<i64>>,
    /// The stretches of all lanes, where they are known.
    pub stretches: Option<List<Stretch>>,
}

/// Words that are 0 or 1.
fn flags(alloc: Global, words: &[i64]) -> Result<List<i64>, Redo>
    ensures { IfOk result (λ column. column ≡ map (λ w. number (typed ty.Bool w)) words.now) }
{
    let mut column = Vec::with_capacity(alloc, words.len())?;
    for word in words {
        column.push(i64::from(*word != 0))?;
    }
    Ok(List::from_vec(column))
}

/// The column of a constant of a type that has the words as its values.
pub fn constant(alloc: Global, ty: Ty, words: List<i64>) -> Result<List<i64>, Redo>
    ensures { IfOk result (λ column. column ≡ map (λ w. number (typed ty w)) words) }
{
    match ty {
        Ty::Bool => flags(alloc, words.as_slice()),
        _ => Ok(words),
    }
}

/// The words of a column at the places of lanes; none of a column that is empty.
fn gather(alloc: Global, column: &[i64], lanes: &Lanes) -> Result<List<i64>, Redo>
    ensures { IfOk result (λ out. IsGathered lanes.now column.now out) }
{
    if column.is_empty() {
        return Ok(List::new(alloc));
    }
    let Some(view) = lanes.view(column, Row::Place) else {
        return Err(Redo);
    };
    let words = column_of(alloc, view, lanes.len())?;
    Ok(words)
}

/// The words of each column at the places of lanes.
fn gather_all(alloc: Global, columns: &[List<i64>], lanes: &Lanes) -> Result<Vec<List<i64>>, Redo>
    ensures { IfOk result (λ outs. AreGathered lanes.now columns.now outs.items) }
{
    let mut outs = Vec::with_capacity(alloc, columns.len())?;
    for column in columns {
        let out = gather(alloc, column.as_slice(), lanes)?;
        outs.push(out)?;
    }
    Ok(outs)
}

/// No column for each of some constants.
pub fn unset(alloc: Global, constants: usize) -> Result<Vec<List<i64>>, Redo>
    ensures { IfOk result (λ locals. locals.items ≡ replicate constants []) }
{
    let mut locals = Vec::with_capacity(alloc, constants)?;
    for _ in 0..constants {
        locals.push(List::new(alloc))?;
    }
    Ok(locals)
}

/// Whether a word is set, or whether it is 0.
fn is_on_side(set: bool, word: i64) -> bool
    ensures { result ≡ side set word }
{
    (word != 0) == set
}

/// Whether a word from a place up to another is on a side.
#[inline(always)]
fn any_on_side(set: bool, words: &[i64], from: u32, next: u32) -> bool
    requires { next ≤ length words.now }
    ensures { IsFalse result → IsNoneOnSide set words.now from next }
{
    let mut found = false;
    for k in from..next {
        found |= is_on_side(set, words[k as usize]);
    }
    found
}

/// Adds the numbers of the lanes from a place up to another whose words are on a side.
#[inline(always)]
fn take_between(
    set: bool,
    words: &[i64],
    from: u32,
    next: u32,
    numbers: &mut Vec<u32>,
) -> Result<(), Redo>
    requires rises { from ≤ next }
    requires within { next ≤ length words.now }
    ensures { OnOk result (AreTaken set words.now from numbers.old.items
        → AreTaken set words.now next numbers.new.items) }
{
    for k in from..next {
        if is_on_side(set, words[k as usize]) {
            numbers.push(k)?;
        }
    }
    Ok(())
}

/// The numbers of so many lanes whose words are on a side.
// Inlined where the side is known. Eight lanes in turn, which are looked at one by one only where
// there is such a word, since few are set where a query looks at agents more closely.
#[inline(always)]
fn taken_on(alloc: Global, set: bool, words: &[i64], count: u32) -> Result<Vec<u32>, Redo>
    requires { count ≡ length words.now }
    ensures { IfOk result (λ numbers. (lanes : List Lane) (d : Lane)
        → length words.now ≡ length lanes
        → map (λ n. slice_index_or lanes n d) numbers.items ≡ taking set lanes words.now) }
{
    let mut numbers = Vec::with_capacity(alloc, words.len())?;
    let eights = count / 8;
    for eight in 0..eights {
        if any_on_side(set, words, 8 * eight, 8 * eight + 8) {
            take_between(set, words, 8 * eight, 8 * eight + 8, &mut numbers)?;
        }
    }
    take_between(set, words, 8 * eights, count, &mut numbers)?;
    Ok(numbers)
}

/// The numbers of the lanes whose word is set, or of those whose word is 0.
fn taken(alloc: Global, set: bool, words: &[i64]) -> Result<Vec<u32>, Redo>
    ensures { IfOk result (λ numbers. (lanes : List Lane) (d : Lane)
        → length words.now ≡ length lanes
        → map (λ n. slice_index_or lanes n d) numbers.items ≡ taking set lanes words.now) }
{
    let Ok(count) = u32::try_from(words.len()) else {
        return Err(Redo);
    };
    if set {
        taken_on(alloc, true, words, count)
    } else {
        taken_on(alloc, false, words, count)
    }
}

impl Crowd {
    /// Lanes whose places are those of lanes of this crowd, with the constants of these.
    pub fn part(
        &self,
        alloc: Global,
        depth: Depth,
        lanes: Lanes,
        stretches: Option<List<Stretch>>,
    ) -> Result<Crowd, Redo>
        ensures { IfOk result (λ part. (scene : Scene) (scopes kids : List Scope)
            → Stands scene self.now scopes → AreOf scene depth scopes lanes kids
            → AreStretches lanes stretches → Stands scene part kids) }
    {
        let locals = gather_all(alloc, &self.locals, &lanes)?;
        Ok(Crowd {
            depth,
            lanes: lanes.numbered(),
            locals,
            stretches,
        })
    }

    /// The lanes whose word is set, or those whose word is 0.
    pub fn side(&self, alloc: Global, set: bool, words: &[i64]) -> Result<Crowd, Redo>
        ensures { IfOk result (λ part. (scene : Scene) (scopes : List Scope)
            → Stands scene self.now scopes → Stands scene part (chosen set scopes words.now)) }
    {
        if words.len() != self.lanes.len() {
            return Err(Redo);
        }
        let numbers = taken(alloc, set, words)?;
        let lanes = self.lanes.picked(alloc, &numbers)?;
        self.part(alloc, self.depth, lanes, None)
    }

    /// Sets a constant to words.
    pub fn bind(&mut self, alloc: Global, n: u32, ty: Ty, words: List<i64>) -> Result<(), Redo>
        ensures { OnOk result ((scene : Scene) (scopes : List Scope)
            → length words ≡ length scopes → Stands scene self.old scopes
            → Stands scene self.new (bound_to n ty scopes words)) }
    {
        let place = n as usize;
        if place >= self.locals.len() {
            return Err(Redo);
        }
        let column = constant(alloc, ty, words)?;
        self.locals[place] = column;
        Ok(())
    }
}

/// A lane for each agent that asks.
fn asking_lanes(alloc: Global, asking: &[u32]) -> Result<Lanes, Redo>
    ensures { IfOk result (AreNumbered (map asking_at asking.now)) }
{
    let mut rows = Vec::with_capacity(alloc, asking.len())?;
    rows.extend_from_slice(asking)?;
    let (this, place) = (Rows::Each(rows), Rows::Number);
    Ok(Lanes::of(asking.len(), this, Rows::Same(0), Rows::Same(0), place))
}

/// The crowd of agents of a class that ask, none of whose constants is set.
pub fn opening(scene: &Scene, class: u32, asking: &[u32], constants: usize) -> Result<Crowd, Redo>
    requires scene { IsScene scene.now }
    requires of_class { AreOfClass scene.now.classes.now class asking.now }
    ensures { IfOk result (λ crowd. (d : Agent) → Stands scene.now crowd
        (openings scene.now constants d asking.now)) }
{
    let lanes = asking_lanes(scene.alloc, asking)?;
    let locals = unset(scene.alloc, constants)?;
    Ok(Crowd {
        depth: Depth::Outside,
        lanes,
        locals,
        stretches: None,
    })
}
