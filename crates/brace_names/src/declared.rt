ghost use Rattle.std.specs.Prelude.{◌≡◌, ◌+◌, [], ◌∷◌, ◌++◌, IfOk, OnOk, map, fold, slice_get, option_and_then};
ghost use Rattle.std.specs.List.{list_any};
ghost use Rattle.brace_names.specs.Tables.{look, table, with_name};
ghost use Rattle.brace_names.specs.Classes.{title, fields_behind, fields, numbered_from, known, is_coordinate, has_position, Known};

use crate::kinds::{comb_named, type_named};
use crate::names::Names;
use crate::word::Word;
use brace_model::{Comb, Ty};
use brace_num::NoMemory;
use brace_syntax::{ClassTree, Ident, MemberTree, TyName};
use std::alloc::Global;
use std::marker::Model;

/// A state or an effect, by its number among the states or the effects of its class, with its type,
/// whether it is public, and how what is said to an effect is joined.
#[derive(Clone, Copy, Drop)]
pub enum Field {
    State(u32, Ty, bool),
    Effect(u32, Ty, bool, Comb),
}

/// A field as it is declared.
#[derive(Drop)]
pub struct Declared<'a> {
    pub name: Word<'a>,
    pub field: Field,
}

impl<'a> Model for Declared<'a> {
    ghost use Rattle.brace_syntax.specs.declared.tree.Ident.{Ident};
    ghost use Rattle.brace_names.specs.declared.declared.Field.{Field};

    ghost Value = { Ident × Field };

    ghost view = { λ one. (one.name, one.field) };
}

/// What the classes of a script declare.
#[derive(Drop)]
pub struct Classes<'a> {
    numbers: Names<'a, u32>,
    fields: Vec<Names<'a, Field>>,
}

impl<'a> Model for Classes<'a> {
    ghost use Rattle.brace_names.specs.Classes.{Known};

    ghost Value = { Known };

    ghost view = { λ all. record { classes = all.numbers; fields = all.fields.items } };
}

/// What a class can have once: a field of the name, or the member that begins with the word.
pub fn title<'a>(member: &'a MemberTree) -> Word<'a>
    ensures { result ≡ title member.now }
{
    match member {
        MemberTree::Visible(_, at) => Word::new(b"#visible", *at),
        MemberTree::Reach(_, at) => Word::new(b"#reach", *at),
        MemberTree::State(_, _, name, _, _) | MemberTree::Effect(_, _, name, _, _) => {
            Word::of(name)
        }
        MemberTree::Run(_, at) => Word::new(b"run", *at),
        MemberTree::Die(_, at) => Word::new(b"die", *at),
        MemberTree::Spawn(_, _, at) => Word::new(b"spawn", *at),
    }
}

/// The number behind this one.
pub fn next(number: u32) -> Result<u32, NoMemory>
    ensures { IfOk result (λ n. n ≡ number + 1) }
{
    number.checked_add(1).ok_or(NoMemory)
}

// Adds a field of this name.
fn add_field<'a>(all: &mut Vec<Declared<'a>>, name: &'a Ident, field: Field) -> Result<(), NoMemory>
    ensures { OnOk result (all.new.items ≡ all.old.items ++ (name.now, field) ∷ []) }
{
    let name = Word::of(name);
    all.push(Declared { name, field })?;
    Ok(())
}

// Adds the fields among the members of a class.
fn add_fields<'a>(all: &mut Vec<Declared<'a>>, members: &'a [MemberTree]) -> Result<(), NoMemory>
    ensures { OnOk result (all.new.items ≡ all.old.items ++ fields_behind 0 0 members.now) }
{
    let mut states = 0;
    let mut effects = 0;
    for member in members {
        match member {
            MemberTree::State(shared, ty, name, _, _) => {
                add_field(all, name, Field::State(states, type_named(ty), *shared))?;
                states = next(states)?;
            }
            MemberTree::Effect(shared, ty, name, comb, _) => {
                let field = Field::Effect(effects, type_named(ty), *shared, comb_named(*comb));
                add_field(all, name, field)?;
                effects = next(effects)?;
            }
            _ => {}
        }
    }
    Ok(())
}

/// The fields of a class.
pub fn fields<'a>(alloc: Global, class: &'a ClassTree) -> Result<Vec<Declared<'a>>, NoMemory>
    ensures { IfOk result (λ all. all.items ≡ fields class.now) }
{
    let mut all = Vec::new(alloc);
    add_fields(&mut all, class.members.as_slice())?;
    Ok(all)
}

// Lets the names of fields stand for them, too.
fn add_all<'a>(names: &mut Names<'a, Field>, fields: &[Declared<'a>]) -> Result<(), NoMemory>
    ensures { OnOk result (names.new
        ≡ fold (λ names one. with_name names one.0.text one.1) names.old fields.now) }
{
    for one in fields {
        names.add(one.name.text(), one.field)?;
    }
    Ok(())
}

/// What the names of fields stand for.
pub fn field_table<'a>(alloc: Global, class: &'a ClassTree) -> Result<Names<'a, Field>, NoMemory>
    ensures { IfOk result (λ names. names ≡ table (fields class.now)) }
{
    let fields = fields(alloc, class)?;
    let mut names = Names::new(alloc);
    add_all(&mut names, fields.as_slice())?;
    Ok(names)
}

fn field_tables<'a>(
    alloc: Global,
    classes: &'a [ClassTree],
) -> Result<Vec<Names<'a, Field>>, NoMemory>
    ensures { IfOk result (λ all. all.items ≡ map (λ class. table (fields class)) classes.now) }
{
    let mut all = Vec::new(alloc);
    for class in classes {
        all.push(field_table(alloc, class)?)?;
    }
    Ok(all)
}

fn class_table<'a>(alloc: Global, classes: &'a [ClassTree]) -> Result<Names<'a, u32>, NoMemory>
    ensures { IfOk result (λ names. names ≡ table (numbered_from 0 classes.now)) }
{
    let mut names = Names::new(alloc);
    let mut number = 0;
    for class in classes {
        names.add(class.name.text.as_bytes(), number)?;
        number = next(number)?;
    }
    Ok(names)
}

impl<'a> Classes<'a> {
    /// What these classes declare.
    pub fn of(alloc: Global, classes: &'a [ClassTree]) -> Result<Classes<'a>, NoMemory>
        ensures { IfOk result (λ all. all ≡ known classes.now) }
    {
        let numbers = class_table(alloc, classes)?;
        let fields = field_tables(alloc, classes)?;
        Ok(Classes { numbers, fields })
    }

    /// The number of the class of a name.
    pub fn number(&self, name: &[u8]) -> Option<u32>
        ensures { result ≡ look self.now.classes name.now }
    {
        self.numbers.look(name)
    }

    /// What a name stands for in the class of a number.
    pub fn field(&self, class: u32, name: &[u8]) -> Option<Field>
        ensures { result ≡ option_and_then (λ own. look own name.now)
            (slice_get self.now.fields class) }
    {
        self.fields.get(class as usize)?.look(name)
    }
}

fn is_coordinate(axis: &[u8], member: &MemberTree) -> bool
    ensures { result ≡ is_coordinate axis.now member.now }
{
    match member {
        MemberTree::State(true, TyName::Fixed, name, _, _) => name.text.as_bytes() == axis,
        _ => false,
    }
}

fn has_coordinate(axis: &[u8], members: &[MemberTree]) -> bool
    ensures { result ≡ list_any (is_coordinate axis.now) members.now }
{
    members.iter().any(|member| is_coordinate(axis, member))
}

/// Whether the class has `public state fixed x` and `public state fixed y`.
pub fn has_position(class: &ClassTree) -> bool
    ensures { result ≡ has_position class.now }
{
    let members = class.members.as_slice();
    has_coordinate(b"x", members) && has_coordinate(b"y", members)
}
