ghost use Rattle.std.specs.Prelude.{◌≡◌, ◌<◌, ◌≤◌, ◌+◌, ℕ, ℤ, List, IfOk, IfSome, OnOk, length, map, slice_get, slice_index_or, Some, true};
ghost use Rattle.brace_code.specs.Lanes.{words_of};
ghost use Rattle.brace_model.specs.declared.program.Ty.{Ty};
ghost use Rattle.brace_model.specs.declared.world.Agent.{Agent};
ghost use Rattle.brace_model.specs.Value.{Scope, typed};
ghost use Rattle.brace_fold.specs.inner.Crowds.{IsScene, Stands, rows, spread};
ghost use Rattle.brace_fold.specs.declared.scene.Scene.{Scene};
ghost use Rattle.brace_model.specs.Total.{total_of};
ghost use Rattle.brace_fold.specs.inner.Ears.{AreHeard, IsEar, Listens, hearing, row_of, is_there, told_at, told_by};
ghost use Rattle.brace_fold.specs.Hears.{Hears};

use crate::crowd::{Crowd, Depth, Stretch, has_inner, has_outer};
use crate::scene::Scene;
use crate::spoken::{Counted, Joined, Spoken, Summed, SummedAt, SummedSame};
use crate::table::Table;
use brace_code::{Lanes, Redo, Row, View, are_within};
use brace_model::{Comb, Ty, Value, Who};

/// A word as a value of a type.
pub fn typed(ty: Ty, word: i64) -> Value
    ensures { result ≡ typed ty word }
{
    match ty {
        Ty::Int => Value::Int(word),
        Ty::Fixed => Value::Fixed(word),
        Ty::Bool => Value::Flag(word != 0),
    }
}

/// The rows of the agents that a name stands for in lanes.
fn rows_of<'a>(who: Who, lanes: &'a Lanes) -> Option<&'a [u32]>
    ensures { IfSome result (λ rows. rows.now ≡ map (row_of who) lanes.now) }
{
    match who {
        Who::This => lanes.rows(Row::This),
        Who::Outer => lanes.rows(Row::Outer),
        Who::Inner => lanes.rows(Row::Inner),
    }
}

/// Those who hear what lanes say: an agent for each lane, or for each stretch of lanes.
#[derive(Clone, Copy)]
pub enum Hearers<'a> {
    Each(&'a [u32]),
    Stretches(&'a [Stretch]),
}

impl<'a> Hearers<'a> {
    /// The row of the first agent.
    fn first(self) -> Option<u32> {
        match self {
            Hearers::Each(rows) => rows.first().copied(),
            Hearers::Stretches(stretches) => Some(stretches.first()?.row),
        }
    }
}

/// The agents that a name stands for in lanes.
fn those_of<'a>(who: Who, crowd: &'a Crowd) -> Option<Hearers<'a>>
    ensures { IfSome result (λ hearers. (scene : Scene) (scopes : List Scope)
        → Stands scene crowd.now scopes → hearing hearers ≡ map (row_of who) crowd.now.lanes) }
{
    match (who, &crowd.stretches) {
        (Who::This, Some(stretches)) => Some(Hearers::Stretches(stretches.as_slice())),
        _ => {
            let rows = rows_of(who, &crowd.lanes)?;
            Some(Hearers::Each(rows))
        }
    }
}

/// Whether there is an agent of a name in the lanes of a depth.
fn is_there(depth: Depth, who: Who) -> bool
    ensures { result ≡ is_there depth who }
{
    match who {
        Who::This => true,
        Who::Outer => has_outer(depth),
        Who::Inner => has_inner(depth),
    }
}

/// Tells Redo where there is no agent of a name in the lanes of a depth.
fn expect_there(depth: Depth, who: Who) -> Result<(), Redo>
    ensures { OnOk result (is_there depth who ≡ true) }
{
    match is_there(depth, who) {
        true => Ok(()),
        false => Err(Redo),
    }
}

/// Behind the places from one on at which a row stands.
fn run_end(row: u32, rows: &[u32], from: usize) -> usize
    requires { from ≤ length rows.now }
    ensures within { (from ≤ result) × (result ≤ length rows.now) }
    ensures same { (k : ℕ) → from ≤ k → k < result → slice_index_or rows.now k 0 ≡ row }
{
    let mut next = from;
    while next < rows.len() && rows[next] == row {
        next += 1;
    }
    next
}

/// Behind so many places from one on; None where there are none.
#[inline(always)]
fn behind(from: usize, count: u32) -> Option<usize>
    ensures some { IfSome result (λ next. from < next) }
    ensures next { IfSome result (λ next. next ≡ from + count) }
{
    if count == 0 {
        return None;
    }
    let next = from.checked_add(count as usize)?;
    Some(next)
}

/// How many words there are, in 32 bits.
fn narrow_count(count: usize) -> Result<u32, Redo>
    ensures { IfOk result (λ n. n ≡ count) }
{
    match u32::try_from(count) {
        Ok(n) => Ok(n),
        Err(_) => Err(Redo),
    }
}

/// An effect of a class.
#[derive(Clone, Copy)]
pub struct Ear {
    pub class: u32,
    pub effect: u32,
    pub comb: Comb,
}

impl<'a> Scene<'a> {
    /// The ear of the agent of a row.
    fn ear(&self, row: u32, effect: u32) -> Result<Ear, Redo>
        ensures ear { IfOk result (λ ear. IsEar self.now ear) }
        ensures effect { IfOk result (λ ear. ear.effect ≡ effect) }
    {
        let Some(number) = self.class_at(row) else {
            return Err(Redo);
        };
        let Some(class) = self.program.classes.as_slice().get(number as usize) else {
            return Err(Redo);
        };
        let Some(target) = class.effects.as_slice().get(effect as usize) else {
            return Err(Redo);
        };
        Ok(Ear {
            class: number,
            effect,
            comb: target.comb,
        })
    }

    /// Joins the total of so many words said to the agent of a row.
    // Inlined where the combinator is known, so that no run asks for it.
    #[inline(always)]
    fn say_to(
        &self,
        ear: &Ear,
        comb: Comb,
        row: u32,
        number: i64,
        count: u32,
        heard: &mut Table,
    ) -> Result<(), Redo>
        requires listens { Listens self.now ear.now }
        requires comb { comb ≡ ear.now.comb }
        ensures { OnOk result ((a : Agent) (type : Ty) (words : List ℤ)
            → slice_get (rows self.now) row ≡ Some a → count ≡ length words
            → number ≡ total_of comb (map (typed type) words)
            → Hears self.now.program.now (rows self.now)
            (told_at a ear.now.effect type words) heard.old heard.new) }
    {
        self.expect_class(row, ear.class)?;
        heard.join(ear.effect, row, comb, number, count)?;
        Ok(())
    }

    /// Joins what lanes say to the agents of rows, run by run of one row.
    fn say_runs<S: Spoken>(
        &self,
        ear: &Ear,
        hearers: &[u32],
        spoken: &S,
        heard: &mut Table,
    ) -> Result<(), Redo>
        requires listens { Listens self.now ear.now }
        requires comb { S.joins spoken.now ≡ ear.now.comb }
        ensures { OnOk result (AreHeard self.now ear.now.effect (S.type_of spoken.now) hearers.now
            (S.reads spoken.now) heard.old heard.new) }
    {
        let mut at = 0;
        while at < hearers.len() {
            let row = hearers[at];
            let next = run_end(row, hearers, at + 1);
            let Some(number) = spoken.total(at, next) else {
                return Err(Redo);
            };
            let count = narrow_count(next - at)?;
            self.say_to(ear, spoken.comb(), row, number, count, heard)?;
            at = next;
        }
        Ok(())
    }

    /// Joins what lanes say to the agents of stretches.
    fn say_stretches<S: Spoken>(
        &self,
        ear: &Ear,
        stretches: &[Stretch],
        spoken: &S,
        heard: &mut Table,
    ) -> Result<(), Redo>
        requires listens { Listens self.now ear.now }
        requires comb { S.joins spoken.now ≡ ear.now.comb }
        ensures { OnOk result (AreHeard self.now ear.now.effect (S.type_of spoken.now)
            (spread stretches.now) (S.reads spoken.now) heard.old heard.new) }
    {
        let mut at = 0usize;
        for stretch in stretches {
            let Some(next) = behind(at, stretch.count) else {
                return Err(Redo);
            };
            let Some(number) = spoken.total(at, next) else {
                return Err(Redo);
            };
            self.say_to(
                ear,
                spoken.comb(),
                stretch.row,
                number,
                stretch.count,
                heard,
            )?;
            at = next;
        }
        Ok(())
    }

    /// Joins what lanes say to those who hear them.
    fn say_all<S: Spoken>(
        &self,
        ear: &Ear,
        hearers: Hearers,
        spoken: &S,
        heard: &mut Table,
    ) -> Result<(), Redo>
        requires listens { Listens self.now ear.now }
        requires comb { S.joins spoken.now ≡ ear.now.comb }
        ensures { OnOk result (AreHeard self.now ear.now.effect (S.type_of spoken.now)
            (hearing hearers.entry) (S.reads spoken.now) heard.old heard.new) }
    {
        match hearers {
            Hearers::Each(rows) => self.say_runs(ear, rows, spoken, heard),
            Hearers::Stretches(stretches) => self.say_stretches(ear, stretches, spoken, heard),
        }
    }

    /// Joins the words that lanes say to those who hear them.
    fn say_hearers(
        &self,
        ear: &Ear,
        hearers: Hearers,
        ty: Ty,
        words: View,
        heard: &mut Table,
    ) -> Result<(), Redo>
        requires listens { Listens self.now ear.now }
        ensures { OnOk result (AreHeard self.now ear.now.effect ty (hearing hearers.entry)
            words.entry heard.old heard.new) }
    {
        match (ear.comb, ty, words) {
            (Comb::Count, _, _) => {
                let spoken = Counted { ty, words };
                self.say_all(ear, hearers, &spoken, heard)
            }
            (Comb::Sum, Ty::Int | Ty::Fixed, View::Same(word)) => {
                let spoken = SummedSame { ty, word };
                self.say_all(ear, hearers, &spoken, heard)
            }
            (Comb::Sum, Ty::Int | Ty::Fixed, View::Each(words)) => {
                let spoken = Summed { ty, words };
                self.say_all(ear, hearers, &spoken, heard)
            }
            (Comb::Sum, Ty::Int | Ty::Fixed, View::At(column, rows))
                if are_within(rows, column.len()) => {
                let spoken = SummedAt { ty, column, rows };
                self.say_all(ear, hearers, &spoken, heard)
            }
            (comb, _, _) => {
                let spoken = Joined { comb, ty, words };
                self.say_all(ear, hearers, &spoken, heard)
            }
        }
    }

    /// Joins the words that lanes say to an effect.
    pub fn say(
        &self,
        crowd: &Crowd,
        who: Who,
        effect: u32,
        ty: Ty,
        words: View,
        heard: &mut Table,
    ) -> Result<(), Redo>
        requires scene { IsScene self.now }
        ensures { OnOk result ((scopes : List Scope) → Stands self.now crowd.now scopes
            → length (words_of (length scopes) words.entry) ≡ length scopes
            → Hears self.now.program.now (rows self.now)
            (told_by who effect ty scopes (words_of (length scopes) words.entry))
            heard.old heard.new) }
    {
        expect_there(crowd.depth, who)?;
        let Some(hearers) = those_of(who, crowd) else {
            return Err(Redo);
        };
        let Some(first) = hearers.first() else {
            return Err(Redo);
        };
        let ear = self.ear(first, effect)?;
        self.say_hearers(&ear, hearers, ty, words, heard)?;
        Ok(())
    }
}
