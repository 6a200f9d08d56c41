ghost use Rattle.std.specs.Prelude.{◌≡◌, ◌++◌, map, flat_map, slice_get, OnOk, IfOk};
ghost use Rattle.brace_names.specs.Tables.{repeated};
ghost use Rattle.brace_names.specs.Findings.{faults_at};
ghost use Rattle.brace_names.specs.Found.{rule, gift, states_given, gifts_found, member, too_many, position, declarations, class_names, found};
ghost use Rattle.brace_names.specs.Walk.{in_classes};
ghost use Rattle.brace_names.specs.Scopes.{Home, home_of, outermost, is_query};
ghost use Rattle.brace_names.specs.Classes.{title, fields, known};
ghost use Rattle.brace_names.specs.declared.fault.Which.TheVariants as which;
ghost use Rattle.std.specs.Option.{option_map};
ghost use Rattle.brace_names.specs.declared.fault.NameFault.TheVariants as fault;

use crate::declared::{Classes, Declared, Field, field_table, fields, has_position, next, title};
use crate::expr::expression;
use crate::fault::{NameFault, Which};
use crate::finding::Finding;
use crate::place::{assign, fault, site, type_name};
use crate::scope::{Home, Scope};
use crate::stmt::block;
use crate::word::{Word, repeats};
use brace_num::{Boxed, List, NoMemory};
use brace_syntax::{ClassTree, ExprTree, GiftTree, MemberTree, Tree};
use std::alloc::Global;

// A name that stands again at each of these offsets is a fault.
fn again(out: &mut Vec<Finding>, places: &[u32]) -> Result<(), NoMemory>
    ensures { OnOk result (out.new.items ≡ out.old.items
        ++ faults_at fault.DuplicateName places.now) }
{
    for at in places {
        fault(out, NameFault::DuplicateName(*at))?;
    }
    Ok(())
}

// Each word that an earlier one equals is a fault.
fn duplicates(alloc: Global, out: &mut Vec<Finding>, words: &[Word]) -> Result<(), NoMemory>
    ensures { OnOk result (out.new.items ≡ out.old.items
        ++ faults_at fault.DuplicateName (repeated words.now)) }
{
    let places = repeats(alloc, words)?;
    again(out, places.as_slice())
}

fn rule(out: &mut Vec<Finding>, scope: &Scope, x: &Option<Boxed<ExprTree>>) -> Result<(), NoMemory>
    ensures { OnOk result (out.new.items ≡ out.old.items ++ rule x.now scope.now) }
{
    match x {
        Some(x) => expression(out, scope, x.get()),
        None => Ok(()),
    }
}

// The states that are given, as they are written.
fn states_given<'a>(
    alloc: Global,
    scope: &Scope,
    gifts: &'a [GiftTree],
) -> Result<Vec<Word<'a>>, NoMemory>
    ensures { IfOk result (λ names. names.items ≡ states_given scope.now gifts.now) }
{
    let mut names = Vec::new(alloc);
    for gift in gifts {
        if let Some(Field::State(_, _, _)) = scope.field(gift.state.text.as_bytes()) {
            names.push(Word::of(&gift.state))?;
        }
    }
    Ok(names)
}

// Each state that is given twice is a fault.
fn given_twice(
    alloc: Global,
    out: &mut Vec<Finding>,
    scope: &Scope,
    gifts: &[GiftTree],
) -> Result<(), NoMemory>
    ensures { OnOk result (out.new.items ≡ out.old.items
        ++ faults_at fault.DuplicateName (repeated (states_given scope.now gifts.now))) }
{
    let given = states_given(alloc, scope, gifts)?;
    duplicates(alloc, out, given.as_slice())
}

fn gift(out: &mut Vec<Finding>, scope: &Scope, one: &GiftTree) -> Result<(), NoMemory>
    ensures { OnOk result (out.new.items ≡ out.old.items ++ gift scope.now one.now) }
{
    assign(out, scope, one.state.at, &one.state)?;
    expression(out, scope, one.value.get())
}

// The gifts of a `spawn` at an offset, and the site that it is.
fn gifts(
    alloc: Global,
    out: &mut Vec<Finding>,
    scope: &Scope,
    gifts: &List<GiftTree>,
    at: u32,
) -> Result<(), NoMemory>
    ensures { OnOk result (out.new.items ≡ out.old.items ++ gifts_found scope.now gifts.now at) }
{
    for one in gifts.as_slice() {
        gift(out, scope, one)?;
    }
    given_twice(alloc, out, scope, gifts.as_slice())?;
    site(out, at)
}

// A member in the scope outside its blocks.
fn member_in<'a>(
    alloc: Global,
    out: &mut Vec<Finding>,
    scope: &mut Scope<'_, '_, 'a>,
    one: &'a MemberTree,
) -> Result<(), NoMemory>
    ensures { OnOk result ((home : Home) → scope.old ≡ outermost home (is_query one.now)
        → out.new.items ≡ out.old.items ++ member home one.now) }
{
    match one {
        MemberTree::Visible(_, _) | MemberTree::Reach(_, _) => Ok(()),
        MemberTree::State(_, ty, _, x, _) => {
            type_name(out, ty)?;
            rule(out, scope, x)
        }
        MemberTree::Effect(_, ty, _, _, _) => type_name(out, ty),
        MemberTree::Run(statements, _) => block(out, scope, statements),
        MemberTree::Die(condition, _) => expression(out, scope, condition.get()),
        MemberTree::Spawn(condition, given, at) => {
            expression(out, scope, condition.get())?;
            gifts(alloc, out, scope, given, *at)
        }
    }
}

fn member<'a>(
    alloc: Global,
    out: &mut Vec<Finding>,
    home: &Home<'_, 'a>,
    one: &'a MemberTree,
) -> Result<(), NoMemory>
    ensures { OnOk result (out.new.items ≡ out.old.items ++ member home.now one.now) }
{
    let mut scope = Scope::of(alloc, home, one);
    member_in(alloc, out, &mut scope, one)
}

fn each_member<'a>(
    alloc: Global,
    out: &mut Vec<Finding>,
    home: &Home<'_, 'a>,
    members: &'a [MemberTree],
) -> Result<(), NoMemory>
    ensures { OnOk result (out.new.items ≡ out.old.items
        ++ flat_map (member home.now) members.now) }
{
    for one in members {
        member(alloc, out, home, one)?;
    }
    Ok(())
}

// The members of the class of a number.
fn members<'a>(
    alloc: Global,
    out: &mut Vec<Finding>,
    known: &Classes<'a>,
    number: u32,
    class: &'a ClassTree,
) -> Result<(), NoMemory>
    ensures { OnOk result (out.new.items ≡ out.old.items
        ++ flat_map (member (home_of known.now number class.now)) class.now.members) }
{
    let own = field_table(alloc, class)?;
    let home = Home {
        known,
        number,
        own: &own,
    };
    each_member(alloc, out, &home, class.members.as_slice())
}

// The first class past the limit.
fn past_classes(out: &mut Vec<Finding>, names: &[Word]) -> Result<(), NoMemory>
    ensures { OnOk result (out.new.items ≡ out.old.items
        ++ too_many which.Classes (slice_get names.now 16)) }
{
    match names.get(16) {
        Some(name) => fault(out, NameFault::TooMany(Which::Classes, name.at())),
        None => Ok(()),
    }
}

// The first of these fields past the limit.
fn past_limit(out: &mut Vec<Finding>, fields: &[Declared]) -> Result<(), NoMemory>
    ensures { OnOk result (out.new.items ≡ out.old.items
        ++ too_many which.Fields (option_map (λ one. one.0) (slice_get fields.now 64))) }
{
    match fields.get(64) {
        Some(field) => fault(out, NameFault::TooMany(Which::Fields, field.name.at())),
        None => Ok(()),
    }
}

// The first field of a class past the limit.
fn past_fields(alloc: Global, out: &mut Vec<Finding>, class: &ClassTree) -> Result<(), NoMemory>
    ensures { OnOk result (out.new.items ≡ out.old.items
        ++ too_many which.Fields (option_map (λ one. one.0) (slice_get (fields class.now) 64))) }
{
    let fields = fields(alloc, class)?;
    past_limit(out, fields.as_slice())
}

// Whether the class has a position.
fn position(out: &mut Vec<Finding>, class: &ClassTree) -> Result<(), NoMemory>
    ensures { OnOk result (out.new.items ≡ out.old.items ++ position class.now) }
{
    if has_position(class) {
        return Ok(());
    }
    fault(out, NameFault::NoPosition(class.name.at))
}

fn titles<'a>(alloc: Global, members: &'a [MemberTree]) -> Result<Vec<Word<'a>>, NoMemory>
    ensures { IfOk result (λ titles. titles.items ≡ map title members.now) }
{
    let mut titles = Vec::new(alloc);
    for member in members {
        titles.push(title(member))?;
    }
    Ok(titles)
}

// Each member that stands in its class already is a fault.
fn members_again(alloc: Global, out: &mut Vec<Finding>, class: &ClassTree) -> Result<(), NoMemory>
    ensures { OnOk result (out.new.items ≡ out.old.items
        ++ faults_at fault.DuplicateName (repeated (map title class.now.members))) }
{
    let titles = titles(alloc, class.members.as_slice())?;
    duplicates(alloc, out, titles.as_slice())
}

// What a class declares.
fn declarations(alloc: Global, out: &mut Vec<Finding>, class: &ClassTree) -> Result<(), NoMemory>
    ensures { OnOk result (out.new.items ≡ out.old.items ++ declarations class.now) }
{
    members_again(alloc, out, class)?;
    past_fields(alloc, out, class)?;
    position(out, class)
}

// Each class whose name an earlier one has is a fault.
fn classes_again(out: &mut Vec<Finding>, places: &[u32]) -> Result<(), NoMemory>
    ensures { OnOk result (out.new.items ≡ out.old.items
        ++ faults_at fault.DuplicateClass places.now) }
{
    for at in places {
        fault(out, NameFault::DuplicateClass(*at))?;
    }
    Ok(())
}

fn names_of<'a>(alloc: Global, classes: &'a [ClassTree]) -> Result<Vec<Word<'a>>, NoMemory>
    ensures { IfOk result (λ names. names.items ≡ map (λ class. class.name) classes.now) }
{
    let mut names = Vec::new(alloc);
    for class in classes {
        names.push(Word::of(&class.name))?;
    }
    Ok(names)
}

// The names of the classes.
fn class_names(alloc: Global, out: &mut Vec<Finding>, classes: &[ClassTree]) -> Result<(), NoMemory>
    ensures { OnOk result (out.new.items ≡ out.old.items
        ++ class_names (map (λ class. class.name) classes.now)) }
{
    let names = names_of(alloc, classes)?;
    let places = repeats(alloc, names.as_slice())?;
    classes_again(out, places.as_slice())?;
    past_classes(out, names.as_slice())
}

// What all classes declare.
fn all_declarations(
    alloc: Global,
    out: &mut Vec<Finding>,
    classes: &[ClassTree],
) -> Result<(), NoMemory>
    ensures { OnOk result (out.new.items ≡ out.old.items ++ flat_map declarations classes.now) }
{
    for class in classes {
        declarations(alloc, out, class)?;
    }
    Ok(())
}

// The members of all classes.
fn all_members<'a>(
    alloc: Global,
    out: &mut Vec<Finding>,
    known: &Classes<'a>,
    classes: &'a [ClassTree],
) -> Result<(), NoMemory>
    ensures { OnOk result (out.new.items ≡ out.old.items
        ++ in_classes member known.now 0 classes.now) }
{
    let mut number = 0;
    for class in classes {
        members(alloc, out, known, number, class)?;
        number = next(number)?;
    }
    Ok(())
}

// The members of all classes, by what these declare.
fn known_members(
    alloc: Global,
    out: &mut Vec<Finding>,
    classes: &[ClassTree],
) -> Result<(), NoMemory>
    ensures { OnOk result (out.new.items ≡ out.old.items
        ++ in_classes member (known classes.now) 0 classes.now) }
{
    let known = Classes::of(alloc, classes)?;
    all_members(alloc, out, &known, classes)
}

// Notes what is found in a script.
fn note(alloc: Global, out: &mut Vec<Finding>, tree: &Tree) -> Result<(), NoMemory>
    ensures { OnOk result (out.new.items ≡ out.old.items ++ found tree.now) }
{
    let classes = tree.classes.as_slice();
    class_names(alloc, out, classes)?;
    all_declarations(alloc, out, classes)?;
    known_members(alloc, out, classes)
}

/// What is found in a script.
pub fn found(alloc: Global, tree: &Tree) -> Result<Vec<Finding>, NoMemory>
    ensures { IfOk result (λ all. all.items ≡ found tree.now) }
{
    let mut out = Vec::new(alloc);
    note(alloc, &mut out, tree)?;
    Ok(out)
}
