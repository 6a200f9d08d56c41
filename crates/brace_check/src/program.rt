ghost use Rattle.std.specs.Prelude.{◌≡◌, ◌++◌, flat_map, slice_get, OnOk, IfOk};
ghost use Rattle.brace_names.specs.Scopes.{home_of};
ghost use Rattle.brace_check.specs.Programs.{effect_of, visible_of, reach_of, first_or_0, place_of, outline_of, filled, class_of, classes_from, program_with};

use crate::finding::millionths;
use crate::share::{Share, shares};
use brace_model::{Class, Effect, Program, State};
use brace_names::{Classes, Home, comb_named, field_table, next, type_named};
use brace_num::{List, NoMemory, Text};
use brace_syntax::{ClassTree, MemberTree};
use std::alloc::Global;

// Adds the effect that a member declares, if it does.
fn add_effect(alloc: Global, all: &mut List<Effect>, member: &MemberTree) -> Result<(), NoMemory>
    ensures { OnOk result (all.new ≡ all.old ++ effect_of member.now) }
{
    if let MemberTree::Effect(shared, ty, name, comb, _) = member {
        all.push(Effect {
            name: name.text.copy(alloc)?,
            ty: type_named(ty),
            shared: *shared,
            comb: comb_named(*comb),
        })?;
    }
    Ok(())
}

// Adds the effects that members declare.
fn add_effects(
    alloc: Global,
    all: &mut List<Effect>,
    members: &[MemberTree],
) -> Result<(), NoMemory>
    ensures { OnOk result (all.new ≡ all.old ++ flat_map effect_of members.now) }
{
    for member in members {
        add_effect(alloc, all, member)?;
    }
    Ok(())
}

// The effects that members declare.
fn effects(alloc: Global, members: &[MemberTree]) -> Result<List<Effect>, NoMemory>
    ensures { IfOk result (λ all. all ≡ flat_map effect_of members.now) }
{
    let mut all = List::new(alloc);
    add_effects(alloc, &mut all, members)?;
    Ok(all)
}

// The visible range that members give, in millionths.
fn visible(members: &[MemberTree]) -> Result<i64, NoMemory>
    ensures { IfOk result (λ n. n ≡ first_or_0 (flat_map visible_of members.now)) }
{
    for member in members {
        if let MemberTree::Visible(number, _) = member {
            return millionths(number.digits);
        }
    }
    Ok(0)
}

// The reach that members give, in millionths.
fn reach(members: &[MemberTree]) -> Result<i64, NoMemory>
    ensures { IfOk result (λ n. n ≡ first_or_0 (flat_map reach_of members.now)) }
{
    for member in members {
        if let MemberTree::Reach(number, _) = member {
            return millionths(number.digits);
        }
    }
    Ok(0)
}

// The place of the state of a name.
fn place_of(name: &[u8], states: &[State]) -> Result<u32, NoMemory>
    ensures { IfOk result (λ place. place ≡ place_of name.now states.now) }
{
    let mut place = 0;
    for state in states {
        if state.name.as_bytes() == name {
            return Ok(place);
        }
        place = place.checked_add(1).ok_or(NoMemory)?;
    }
    Ok(place)
}

// The first of a list.
fn first<T: Drop>(items: List<T>) -> Option<T>
    ensures { result ≡ slice_get items 0 }
{
    items.into_vec().into_iter().next()
}

/// What a class has that is not numbered over the whole script.
#[derive(Drop)]
pub struct Outline {
    pub name: Text,
    pub visible: i64,
    pub reach: i64,
    pub effects: List<Effect>,
}

fn outline_of(alloc: Global, class: &ClassTree) -> Result<Outline, NoMemory>
    ensures { IfOk result (λ o. o ≡ outline_of class.now) }
{
    let members = class.members.as_slice();
    let visible = visible(members)?;
    let reach = reach(members)?;
    let effects = effects(alloc, members)?;
    let name = class.name.text.copy(alloc)?;
    Ok(Outline {
        name,
        visible,
        reach,
        effects,
    })
}

// A class of this outline, whose members have this together.
fn filled(alloc: Global, outline: Outline, all: Share) -> Result<Class, NoMemory>
    ensures { IfOk result (λ c. c ≡ filled outline all) }
{
    let x = place_of(b"x", all.states.as_slice())?;
    let y = place_of(b"y", all.states.as_slice())?;
    Ok(Class {
        name: outline.name,
        visible: outline.visible,
        reach: outline.reach,
        x,
        y,
        states: all.states,
        effects: outline.effects,
        query: first(all.queries).unwrap_or(List::new(alloc)),
        die: first(all.die),
        spawn: first(all.spawn),
    })
}

// A class in its home. Its sites are noted in finishing order.
fn class_in<'a>(
    alloc: Global,
    sites: &mut Vec<u32>,
    home: &Home<'_, 'a>,
    class: &'a ClassTree,
) -> Result<Class, NoMemory>
    ensures noted { OnOk result (sites.new.items
        ≡ (class_of home.now class.now sites.old.items).1) }
    ensures meant { IfOk result (λ c. c ≡ (class_of home.now class.now sites.old.items).0) }
{
    let outline = outline_of(alloc, class)?;
    let all = shares(alloc, sites, home, class)?;
    filled(alloc, outline, all)
}

// The class of a number. Its sites are noted in finishing order.
fn class_of<'a>(
    alloc: Global,
    sites: &mut Vec<u32>,
    known: &Classes<'a>,
    number: u32,
    class: &'a ClassTree,
) -> Result<Class, NoMemory>
    ensures noted { OnOk result (sites.new.items
        ≡ (class_of (home_of known.now number class.now) class.now sites.old.items).1) }
    ensures meant { IfOk result (λ c. c
        ≡ (class_of (home_of known.now number class.now) class.now sites.old.items).0) }
{
    let own = field_table(alloc, class)?;
    let home = Home {
        known,
        number,
        own: &own,
    };
    class_in(alloc, sites, &home, class)
}

// Adds the classes of a script. Their sites are noted in finishing order.
fn add_classes<'a>(
    alloc: Global,
    sites: &mut Vec<u32>,
    all: &mut List<Class>,
    known: &Classes<'a>,
    trees: &'a [ClassTree],
) -> Result<(), NoMemory>
    ensures noted { OnOk result (sites.new.items
        ≡ (classes_from known.now 0 trees.now sites.old.items).1) }
    ensures meant { OnOk result (all.new
        ≡ all.old ++ (classes_from known.now 0 trees.now sites.old.items).0) }
{
    let mut number = 0;
    for class in trees {
        all.push(class_of(alloc, sites, known, number, class)?)?;
        number = next(number)?;
    }
    Ok(())
}

/// The program of the classes of a script, which declares what is known.
pub fn program<'a>(
    alloc: Global,
    known: &Classes<'a>,
    trees: &'a [ClassTree],
) -> Result<Program, NoMemory>
    ensures { IfOk result (λ p. p ≡ program_with (classes_from known.now 0 trees.now)) }
{
    let mut sites = Vec::new(alloc);
    let mut classes = List::new(alloc);
    add_classes(alloc, &mut sites, &mut classes, known, trees)?;
    Ok(Program {
        classes,
        sites: List::from_vec(sites),
    })
}
