ghost use Rattle.std.specs.Prelude.{◌≡◌, ◌++◌, map, OnOk, IfOk};
ghost use Rattle.brace_names.specs.Kinds.{type_named};
ghost use Rattle.brace_names.specs.Tables.{look};
ghost use Rattle.brace_names.specs.Scopes.{Home, outermost, is_query};
ghost use Rattle.brace_check.specs.Meanings.{number_of, expression};
ghost use Rattle.brace_check.specs.Programs.{rule, gifts_in, spawn_of, no_share, share, shared_by, shares};

use crate::meaning::{expression, number_of, site};
use crate::statement::block;
use brace_model::{Expr, Gift, Spawn, State, Stmt};
use brace_names::{Home, Scope, type_named};
use brace_num::{Boxed, List, NoMemory};
use brace_syntax::{ClassTree, ExprTree, GiftTree, Ident, MemberTree, TyName};
use std::alloc::Global;

/// What the members of a class have of what is numbered over the whole script.
#[derive(Drop)]
pub struct Share {
    pub states: List<State>,
    pub queries: List<List<Stmt>>,
    pub die: List<Expr>,
    pub spawn: List<Spawn>,
}

fn rule(
    alloc: Global,
    sites: &mut Vec<u32>,
    scope: &Scope,
    x: &Option<Boxed<ExprTree>>,
) -> Result<Option<Expr>, NoMemory>
    ensures noted { OnOk result (sites.new.items
        ≡ (rule x.now scope.now sites.old.items).1) }
    ensures meant { IfOk result (λ r. r ≡ (rule x.now scope.now sites.old.items).0) }
{
    match x {
        Some(x) => Ok(Some(expression(alloc, sites, scope, x.get())?.into_inner())),
        None => Ok(None),
    }
}

// A state.
fn state(
    alloc: Global,
    sites: &mut Vec<u32>,
    scope: &Scope,
    shared: bool,
    ty: &TyName,
    name: &Ident,
    x: &Option<Boxed<ExprTree>>,
) -> Result<State, NoMemory>
    ensures noted { OnOk result (sites.new.items
        ≡ (rule x.now scope.now sites.old.items).1) }
    ensures meant { IfOk result (λ s. s ≡ record {
      name = name.now.text;
      ty = type_named ty.now;
      shared = shared;
      rule = (rule x.now scope.now sites.old.items).0;
    }) }
{
    let name = name.text.copy(alloc)?;
    let rule = rule(alloc, sites, scope, x)?;
    Ok(State {
        name,
        ty: type_named(ty),
        shared,
        rule,
    })
}

// What a gift means.
fn gift(
    alloc: Global,
    sites: &mut Vec<u32>,
    scope: &Scope,
    one: &GiftTree,
) -> Result<Gift, NoMemory>
    ensures noted { OnOk result (sites.new.items
        ≡ (expression one.now.value scope.now sites.old.items).1) }
    ensures meant { IfOk result (λ gift. gift ≡ record {
      state = number_of (look scope.now.home.own one.now.state.text);
      value = (expression one.now.value scope.now sites.old.items).0;
    }) }
{
    let state = number_of(scope.field(one.state.text.as_bytes()));
    let value = expression(alloc, sites, scope, one.value.get())?.into_inner();
    Ok(Gift { state, value })
}

// Adds what gifts mean.
fn add_gifts(
    alloc: Global,
    sites: &mut Vec<u32>,
    all: &mut List<Gift>,
    scope: &Scope,
    given: &[GiftTree],
) -> Result<(), NoMemory>
    ensures noted { OnOk result (sites.new.items
        ≡ (gifts_in given.now scope.now sites.old.items).1) }
    ensures meant { OnOk result (all.new
        ≡ all.old ++ (gifts_in given.now scope.now sites.old.items).0) }
{
    for one in given {
        all.push(gift(alloc, sites, scope, one)?)?;
    }
    Ok(())
}

// What the gifts of a `spawn` mean.
fn gifts(
    alloc: Global,
    sites: &mut Vec<u32>,
    scope: &Scope,
    given: &List<GiftTree>,
) -> Result<List<Gift>, NoMemory>
    ensures noted { OnOk result (sites.new.items
        ≡ (gifts_in given.now scope.now sites.old.items).1) }
    ensures meant { IfOk result (λ gifts. gifts
        ≡ (gifts_in given.now scope.now sites.old.items).0) }
{
    let mut gifts = List::new(alloc);
    add_gifts(alloc, sites, &mut gifts, scope, given.as_slice())?;
    Ok(gifts)
}

// What a `spawn` at an offset means.
fn spawn(
    alloc: Global,
    sites: &mut Vec<u32>,
    scope: &Scope,
    condition: &ExprTree,
    given: &List<GiftTree>,
    at: u32,
) -> Result<Spawn, NoMemory>
    ensures noted { OnOk result (sites.new.items
        ≡ (spawn_of condition.now given.now at scope.now sites.old.items).1) }
    ensures meant { IfOk result (λ s. s
        ≡ (spawn_of condition.now given.now at scope.now sites.old.items).0) }
{
    let when = expression(alloc, sites, scope, condition)?;
    let gifts = gifts(alloc, sites, scope, given)?;
    let site = site(sites, at)?;
    let when = when.into_inner();
    Ok(Spawn { when, gifts, site })
}

// Adds what a member of a class has, in the scope outside its blocks.
fn add_in<'a>(
    alloc: Global,
    sites: &mut Vec<u32>,
    all: &mut Share,
    scope: &mut Scope<'_, '_, 'a>,
    one: &'a MemberTree,
) -> Result<(), NoMemory>
    ensures noted { OnOk result ((home : Home) → scope.old ≡ outermost home (is_query one.now)
        → sites.new.items ≡ (share home one.now sites.old.items).1) }
    ensures meant { OnOk result ((home : Home) → scope.old ≡ outermost home (is_query one.now)
        → all.new ≡ shared_by all.old ((share home one.now sites.old.items).0)) }
{
    match one {
        MemberTree::State(shared, ty, name, x, _) => {
            let state = state(alloc, sites, scope, *shared, ty, name, x)?;
            all.states.push(state)
        }
        MemberTree::Run(statements, _) => {
            let query = block(alloc, sites, scope, statements)?;
            all.queries.push(query)
        }
        MemberTree::Die(condition, _) => {
            let condition = expression(alloc, sites, scope, condition.get())?;
            all.die.push(condition.into_inner())
        }
        MemberTree::Spawn(condition, given, at) => {
            let spawn = spawn(alloc, sites, scope, condition.get(), given, *at)?;
            all.spawn.push(spawn)
        }
        MemberTree::Visible(_, _) | MemberTree::Reach(_, _) => Ok(()),
        MemberTree::Effect(_, _, _, _, _) => Ok(()),
    }
}

// Adds what a member of a class has.
fn add<'a>(
    alloc: Global,
    sites: &mut Vec<u32>,
    all: &mut Share,
    home: &Home<'_, 'a>,
    one: &'a MemberTree,
) -> Result<(), NoMemory>
    ensures noted { OnOk result (sites.new.items
        ≡ (share home.now one.now sites.old.items).1) }
    ensures meant { OnOk result (all.new
        ≡ shared_by all.old
        ((share home.now one.now sites.old.items).0)) }
{
    let mut scope = Scope::of(alloc, home, one);
    add_in(alloc, sites, all, &mut scope, one)
}

// Adds what members of a class have.
fn add_all<'a>(
    alloc: Global,
    sites: &mut Vec<u32>,
    all: &mut Share,
    home: &Home<'_, 'a>,
    members: &'a [MemberTree],
) -> Result<(), NoMemory>
    ensures noted { OnOk result (sites.new.items
        ≡ (shares home.now members.now sites.old.items).1) }
    ensures meant { OnOk result (all.new
        ≡ shared_by all.old ((shares home.now members.now sites.old.items).0)) }
{
    for one in members {
        add(alloc, sites, all, home, one)?;
    }
    Ok(())
}

/// What the members of a class have together. Their sites are noted in finishing order.
pub fn shares<'a>(
    alloc: Global,
    sites: &mut Vec<u32>,
    home: &Home<'_, 'a>,
    class: &'a ClassTree,
) -> Result<Share, NoMemory>
    ensures noted { OnOk result (sites.new.items
        ≡ (shares home.now class.now.members sites.old.items).1) }
    ensures meant { IfOk result (λ s. s
        ≡ (shares home.now class.now.members sites.old.items).0) }
{
    let mut all = Share {
        states: List::new(alloc),
        queries: List::new(alloc),
        die: List::new(alloc),
        spawn: List::new(alloc),
    };
    add_all(alloc, sites, &mut all, home, class.members.as_slice())?;
    Ok(all)
}
