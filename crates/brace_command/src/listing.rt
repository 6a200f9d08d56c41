//! What the agents of a program say to other agents.
ghost use Rattle.std.specs.Prelude.{◌≡◌, ◌++◌, IfOk, OnOk};
ghost use Rattle.brace_command.specs.PlanText.{class_of, remote_to, remotes, remotes_in, remotes_of, within};

use brace_model::{Program, Stmt, Who};
use brace_num::{List, NoMemory};
use std::alloc::Global;

/// The loops that stand around a statement: the class of the outer one, and of the inner one.
#[derive(Clone, Copy)]
pub struct Around {
    pub outer: Option<u32>,
    pub inner: Option<u32>,
}

/// An assignment to a loop's agent.
#[derive(Clone, Copy, Drop)]
pub struct Remote {
    /// The byte offset of the statement.
    pub at: u32,
    /// The number of the class of the loop's agent.
    pub class: u32,
    /// The effect, by its place in that class.
    pub effect: u32,
}

/// What stands around a block of a loop over a class.
fn within(around: Around, class: u32) -> Around
    ensures { result ≡ within around class }
{
    if around.outer.is_none() {
        Around {
            outer: Some(class),
            ..around
        }
    } else {
        Around {
            inner: Some(class),
            ..around
        }
    }
}

fn class_of(around: Around, who: Who) -> Option<u32>
    ensures { result ≡ class_of around who }
{
    match who {
        Who::This => None,
        Who::Outer => around.outer,
        Who::Inner => around.inner,
    }
}

/// Adds the assignments to loops' agents of a block.
#[cycle(remotes)]
fn add_remotes(block: &List<Stmt>, around: Around, found: &mut List<Remote>) -> Result<(), NoMemory>
    ensures { OnOk result (found.new ≡ found.old ++ remotes_of around block.now) }
{
    for s in block.as_slice() {
        add_remotes_in(s, around, found)?;
    }
    Ok(())
}

/// Adds the assignments to loops' agents of a statement.
#[cycle(remotes)]
#[tactic(auto, using(crate::proofs::ListingLemmas::remotes_rules))]
fn add_remotes_in(s: &Stmt, around: Around, found: &mut List<Remote>) -> Result<(), NoMemory>
    ensures { OnOk result (found.new ≡ found.old ++ remotes_in s.now around) }
{
    match s {
        Stmt::Const(..) => Ok(()),
        Stmt::If(_, a, b) => {
            add_remotes(a, around, found)?;
            add_remotes(b, around, found)
        }
        Stmt::Foreach(class, body, _) => add_remotes(body, within(around, *class), found),
        Stmt::Assign(who, effect, _, at) => add_remote(class_of(around, *who), *effect, *at, found),
    }
}

/// Adds an assignment to an agent of a class, where there is one.
fn add_remote(
    class: Option<u32>,
    effect: u32,
    at: u32,
    found: &mut List<Remote>,
) -> Result<(), NoMemory>
    ensures { OnOk result (found.new ≡ found.old ++ remote_to class effect at) }
{
    match class {
        Some(class) => found.push(Remote { at, class, effect }),
        None => Ok(()),
    }
}

/// The assignments to loops' agents of a program, in text order.
pub fn remotes(alloc: Global, program: &Program) -> Result<List<Remote>, NoMemory>
    ensures { IfOk result (λ found. found ≡ remotes program.now) }
{
    let mut found = List::new(alloc);
    let around = Around {
        outer: None,
        inner: None,
    };
    for class in program.classes.as_slice() {
        add_remotes(&class.query, around, &mut found)?;
    }
    Ok(found)
}
