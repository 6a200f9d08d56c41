ghost use Rattle.std.specs.Prelude.{◌≡◌, ◌++◌, flat_map, map, sum, not, ◌==◌, true, IfOk, OnOk};
ghost use Rattle.brace_model.specs.declared.program.Stmt.TheVariants as stmt;
ghost use Rattle.brace_model.specs.Lawful.{LawfulProgram};
ghost use Rattle.brace_model.specs.Sites.{constant_numbers, assignments};
ghost use Rattle.brace_invert.specs.Split.{unread, places, inner_loop, inverse_block, forward_of, inverse_of, forward_query, inverse_query, with_query, with_queries, forward_program, inverse_program};

use brace_model::{Class, Expr, Program, Stmt, Value, Who};
use brace_num::{List, NoMemory};
use std::alloc::Global;

/// A program whose agents say values to themselves alone.
#[derive(Drop)]
pub struct Forward {
    pub program: Program,
}

/// A program whose agents say values to the agents of their loops alone.
#[derive(Drop)]
pub struct Inverse {
    pub program: Program,
}

/// Adds the forward part of a statement to a block.
#[cycle(forward)]
#[tactic(auto, using(crate::proofs::PartEquations::part_rules))]
fn add_forward(alloc: Global, s: Stmt, part: &mut List<Stmt>) -> Result<(), NoMemory>
    ensures { OnOk result (part.new ≡ part.old ++ forward_of s) }
{
    match s {
        Stmt::If(condition, a, b) => {
            let a = forward_block(alloc, a)?;
            let b = forward_block(alloc, b)?;
            part.push(Stmt::If(condition, a, b))
        }
        Stmt::Foreach(class, body, at) => {
            let body = forward_block(alloc, body)?;
            part.push(Stmt::Foreach(class, body, at))
        }
        Stmt::Assign(Who::Outer | Who::Inner, ..) => Ok(()),
        s => part.push(s),
    }
}

/// The forward part of a block.
#[cycle(forward)]
fn forward_block(alloc: Global, block: List<Stmt>) -> Result<List<Stmt>, NoMemory>
    ensures { IfOk result (λ part. part ≡ forward_query block) }
{
    let mut part = List::new(alloc);
    for s in block.into_vec() {
        add_forward(alloc, s, &mut part)?;
    }
    Ok(part)
}

/// The forward part of a class.
fn forward_class(alloc: Global, class: Class) -> Result<Class, NoMemory>
    ensures { IfOk result (λ part. part ≡ with_query forward_query class) }
{
    let mut part = class;
    let query = std::mem::replace(&mut part.query, List::new(alloc));
    part.query = forward_block(alloc, query)?;
    Ok(part)
}

/// The forward program of a script.
fn forward_program(alloc: Global, program: &Program) -> Result<Program, NoMemory>
    ensures { IfOk result (λ part. part ≡ forward_program program.now) }
{
    let Program { classes, sites } = program.copy(alloc)?;
    let mut parts = List::new(alloc);
    for class in classes.into_vec() {
        parts.push(forward_class(alloc, class)?)?;
    }
    Ok(Program {
        classes: parts,
        sites,
    })
}

/// Whether a value is said in a block, in its conditions' blocks or in its loops.
#[cycle(saying)]
#[tactic(auto, using(crate::proofs::PartEquations::saying_rules))]
fn says(block: &List<Stmt>) -> bool
    ensures { result ≡ not (sum (map assignments block.now) == 0) }
{
    for s in block.as_slice() {
        if statement_says(s) {
            return true;
        }
    }
    false
}

/// Whether a statement says a value, or one of its blocks does.
#[cycle(saying)]
#[tactic(auto, using(crate::proofs::PartEquations::saying_rules))]
fn statement_says(s: &Stmt) -> bool
    ensures { result ≡ not (assignments s.now == 0) }
{
    match s {
        Stmt::Const(..) => false,
        Stmt::If(_, a, b) => says(a) || says(b),
        Stmt::Foreach(_, body, _) => says(body),
        Stmt::Assign(..) => true,
    }
}

/// Adds declarations of the constants that a block declares, whose values nothing reads.
#[cycle(declaring)]
#[tactic(auto, using(crate::proofs::Numbers::unread_rules))]
fn add_unread(alloc: Global, block: &List<Stmt>, declared: &mut List<Stmt>) -> Result<(), NoMemory>
    ensures { OnOk result (declared.new ≡
        declared.old ++ map unread (flat_map constant_numbers block.now)) }
{
    for s in block.as_slice() {
        add_unread_of(alloc, s, declared)?;
    }
    Ok(())
}

/// The same of a statement.
#[cycle(declaring)]
#[tactic(auto, using(crate::proofs::Numbers::unread_rules))]
fn add_unread_of(alloc: Global, s: &Stmt, declared: &mut List<Stmt>) -> Result<(), NoMemory>
    ensures { OnOk result (declared.new ≡ declared.old ++ map unread (constant_numbers s.now)) }
{
    match s {
        Stmt::Const(n, _) => declared.push(Stmt::Const(*n, Expr::Lit(Value::Flag(false)))),
        Stmt::If(_, a, b) => {
            add_unread(alloc, a, declared)?;
            add_unread(alloc, b, declared)
        }
        Stmt::Foreach(_, body, _) => add_unread(alloc, body, declared),
        Stmt::Assign(..) => Ok(()),
    }
}

/// Adds an inner loop of which a block is left. Where nothing is said in it the loop goes away, and
/// its constants are declared where nothing is evaluated.
fn add_inner(
    alloc: Global,
    class: u32,
    body: List<Stmt>,
    at: u32,
    part: &mut List<Stmt>,
) -> Result<(), NoMemory>
    ensures { OnOk result (part.new ≡ part.old ++ inner_loop class body at) }
{
    if says(&body) {
        return part.push(Stmt::Foreach(class, body, at));
    }
    let mut declared = List::new(alloc);
    add_unread(alloc, &body, &mut declared)?;
    if declared.as_slice().is_empty() {
        return Ok(());
    }
    let never = Expr::Lit(Value::Flag(false));
    part.push(Stmt::If(never, declared, List::new(alloc)))
}

/// Adds the inverse part of a loop, inside or outside of another, to a block.
#[cycle(inverse)]
fn add_inverse_loop(
    alloc: Global,
    class: u32,
    body: List<Stmt>,
    at: u32,
    in_loop: bool,
    part: &mut List<Stmt>,
) -> Result<(), NoMemory>
    ensures { OnOk result (part.new ≡ part.old ++ inverse_of (stmt.Foreach class body at) in_loop) }
{
    let body = inverse_block(alloc, body, true)?;
    if in_loop {
        add_inner(alloc, class, body, at, part)
    } else {
        part.push(Stmt::Foreach(class, body, at))
    }
}

/// Adds the inverse part of a statement, inside or outside of a loop, to a block.
#[cycle(inverse)]
#[tactic(auto, using(crate::proofs::PartEquations::part_rules))]
fn add_inverse(alloc: Global, s: Stmt, in_loop: bool, part: &mut List<Stmt>) -> Result<(), NoMemory>
    ensures { OnOk result (part.new ≡ part.old ++ inverse_of s in_loop) }
{
    match s {
        Stmt::If(condition, a, b) => {
            let a = inverse_block(alloc, a, in_loop)?;
            let b = inverse_block(alloc, b, in_loop)?;
            part.push(Stmt::If(condition, a, b))
        }
        Stmt::Foreach(class, body, at) => add_inverse_loop(alloc, class, body, at, in_loop, part),
        Stmt::Assign(Who::This, ..) => Ok(()),
        s => part.push(s),
    }
}

/// The inverse part of a block, inside or outside of a loop.
#[cycle(inverse)]
fn inverse_block(alloc: Global, block: List<Stmt>, in_loop: bool) -> Result<List<Stmt>, NoMemory>
    ensures { IfOk result (λ part. part ≡ inverse_block in_loop block) }
{
    let mut part = List::new(alloc);
    for s in block.into_vec() {
        add_inverse(alloc, s, in_loop, &mut part)?;
    }
    Ok(part)
}

/// The inverse part of a class.
fn inverse_class(alloc: Global, class: Class) -> Result<Class, NoMemory>
    ensures { IfOk result (λ part. part ≡ with_query inverse_query class) }
{
    let mut part = class;
    let query = std::mem::replace(&mut part.query, List::new(alloc));
    part.query = inverse_block(alloc, query, false)?;
    Ok(part)
}

/// The inverse program of a script.
fn inverse_program(alloc: Global, program: &Program) -> Result<Program, NoMemory>
    ensures { IfOk result (λ part. part ≡ inverse_program program.now) }
{
    let Program { classes, sites } = program.copy(alloc)?;
    let mut parts = List::new(alloc);
    for class in classes.into_vec() {
        parts.push(inverse_class(alloc, class)?)?;
    }
    Ok(Program {
        classes: parts,
        sites,
    })
}

/// Splits a lawful script into its forward program, in which agents say values to themselves alone,
/// and its inverse program, in which they say values to the agents of their loops alone. Both are
/// lawful, and sites and constants have the script's numbers.
pub fn split(alloc: Global, program: &Program) -> Result<(Forward, Inverse), NoMemory>
    requires lawful { LawfulProgram program.now }
    ensures forward { IfOk result (λ r. r.0.program ≡ forward_program program.now) }
    ensures inverse { IfOk result (λ r. r.1.program ≡ inverse_program program.now) }
    ensures forward_is_lawful { IfOk result (λ r. LawfulProgram r.0.program) }
    ensures inverse_is_lawful { IfOk result (λ r. LawfulProgram r.1.program) }
{
    let forward = forward_program(alloc, program)?;
    let inverse = inverse_program(alloc, program)?;
    Ok((Forward { program: forward }, Inverse { program: inverse }))
}
