ghost use Rattle.std.specs.Prelude.{◌≡◌, ◌++◌, IfOk, OnOk, Some, true, map, slice_get};
ghost use Rattle.brace_model.specs.declared.program.BinOp.TheVariants as bin;
ghost use Rattle.brace_plan.specs.Narrowing.{plain, axis_at, field_sense, side_left, side_right, bound_of, compared, binary_sense, sense, nested, bounds_of, bounds_over};

use crate::action::{Axis, Bound, Limit, Side};
use brace_model::{BinOp, Class, Expr, Stmt, Value, Who};
use brace_num::{List, NoMemory};
use std::alloc::Global;

/// What an expression in a loop's condition is to that loop.
#[derive(Drop)]
pub struct Sense {
    /// It has no site, so that it can't fault.
    pub clear: bool,
    /// The coordinate of the loop's agent that it is.
    pub place: Option<Axis>,
    /// The number that it is, known when the loop begins.
    pub limit: Option<Limit>,
    /// The bounds that it sets.
    pub bounds: List<Bound>,
}

fn plain(alloc: Global, clear: bool) -> Sense
    ensures { result ≡ plain clear }
{
    Sense {
        clear,
        place: None,
        limit: None,
        bounds: List::new(alloc),
    }
}

fn axis_at(class: &Class, state: u32) -> Option<Axis>
    ensures { result ≡ axis_at class.now state }
{
    if state == class.x {
        Some(Axis::X)
    } else if state == class.y {
        Some(Axis::Y)
    } else {
        None
    }
}

fn placed(alloc: Global, class: &Class, state: u32) -> Sense
    ensures { result ≡ record (plain true) { place = axis_at class.now state } }
{
    let mut sense = plain(alloc, true);
    sense.place = axis_at(class, state);
    sense
}

fn limited(alloc: Global, limit: Limit) -> Sense
    ensures { result ≡ record (plain true) { limit = Some limit } }
{
    let mut sense = plain(alloc, true);
    sense.limit = Some(limit);
    sense
}

fn field_sense(alloc: Global, variable: Who, class: &Class, who: Who, state: u32) -> Sense
    ensures { result ≡ field_sense variable class.now who state }
{
    match (variable, who) {
        (Who::Outer, Who::Outer) => placed(alloc, class, state),
        (Who::Inner, Who::Inner) => placed(alloc, class, state),
        (_, Who::This) => limited(alloc, Limit::State(state)),
        _ => plain(alloc, true),
    }
}

fn side_left(op: BinOp) -> Option<Side>
    ensures { result ≡ side_left op }
{
    match op {
        BinOp::Lt => Some(Side::Below),
        BinOp::Le => Some(Side::AtMost),
        BinOp::Gt => Some(Side::Above),
        BinOp::Ge => Some(Side::AtLeast),
        BinOp::Eq => Some(Side::At),
        _ => None,
    }
}

fn side_right(op: BinOp) -> Option<Side>
    ensures { result ≡ side_right op }
{
    match op {
        BinOp::Lt => Some(Side::Above),
        BinOp::Le => Some(Side::AtLeast),
        BinOp::Gt => Some(Side::Below),
        BinOp::Ge => Some(Side::AtMost),
        BinOp::Eq => Some(Side::At),
        _ => None,
    }
}

/// Adds the bound of a coordinate, a side and a limit, where there are all three.
fn add_bound(
    axis: Option<Axis>,
    side: Option<Side>,
    limit: Option<Limit>,
    bounds: &mut List<Bound>,
) -> Result<(), NoMemory>
    ensures { OnOk result (bounds.new ≡ bounds.old ++ bound_of axis side limit) }
{
    match (axis, side, limit) {
        (Some(axis), Some(side), Some(limit)) => bounds.push(Bound { axis, side, limit }),
        _ => Ok(()),
    }
}

/// The bounds of a comparison.
fn compared(alloc: Global, op: BinOp, a: &Sense, b: &Sense) -> Result<List<Bound>, NoMemory>
    ensures { IfOk result (λ bounds. bounds ≡ compared op a.now b.now) }
{
    let mut bounds = List::new(alloc);
    add_bound(a.place, side_left(op), b.limit, &mut bounds)?;
    add_bound(b.place, side_right(op), a.limit, &mut bounds)?;
    Ok(bounds)
}

/// Adds bounds behind others.
fn join(bounds: &mut List<Bound>, more: &List<Bound>) -> Result<(), NoMemory>
    ensures { OnOk result (bounds.new ≡ bounds.old ++ more.now) }
{
    for bound in more.as_slice() {
        bounds.push(*bound)?;
    }
    Ok(())
}

/// The bounds of two conditions that must both hold, where both are evaluated as far as the second
/// one is clear of faults before it.
fn both(a: Sense, b: &Sense, clear: bool) -> Result<Sense, NoMemory>
    ensures { IfOk result (λ sense. sense ≡ binary_sense bin.And clear a b.now) }
{
    let mut bounds = a.bounds;
    if a.clear {
        join(&mut bounds, &b.bounds)?;
    }
    Ok(Sense {
        clear,
        place: None,
        limit: None,
        bounds,
    })
}

fn binary_sense(
    alloc: Global,
    op: BinOp,
    clear: bool,
    a: Sense,
    b: &Sense,
) -> Result<Sense, NoMemory>
    ensures { IfOk result (λ sense. sense ≡ binary_sense op clear a b.now) }
{
    match op {
        BinOp::And => both(a, b, clear),
        _ => {
            let mut sense = plain(alloc, clear);
            if clear {
                sense.bounds = compared(alloc, op, &a, b)?;
            }
            Ok(sense)
        }
    }
}

/// What an expression is to a loop of a variable over a class.
fn sense_of(alloc: Global, variable: Who, class: &Class, e: &Expr) -> Result<Sense, NoMemory>
    ensures { IfOk result (λ found. found ≡ sense variable class.now e.now) }
{
    match e {
        Expr::Lit(Value::Fixed(n)) => Ok(limited(alloc, Limit::Number(*n))),
        Expr::Lit(_) => Ok(plain(alloc, true)),
        Expr::Field(who, state) => Ok(field_sense(alloc, variable, class, *who, *state)),
        Expr::Total(_, _, site) => Ok(plain(alloc, site.is_none())),
        Expr::Local(n) => Ok(limited(alloc, Limit::Constant(*n))),
        Expr::Unary(_, site, a) => {
            let a = sense_of(alloc, variable, class, a.get())?;
            Ok(plain(alloc, a.clear && site.is_none()))
        }
        Expr::Binary(op, site, a, b) => {
            let a = sense_of(alloc, variable, class, a.get())?;
            let b = sense_of(alloc, variable, class, b.get())?;
            let clear = a.clear && b.clear && site.is_none();
            binary_sense(alloc, *op, clear, a, &b)
        }
        Expr::Choice(c, a, b) => {
            let c = sense_of(alloc, variable, class, c.get())?;
            let a = sense_of(alloc, variable, class, a.get())?;
            let b = sense_of(alloc, variable, class, b.get())?;
            Ok(plain(alloc, c.clear && a.clear && b.clear))
        }
        Expr::Rand(_) => Ok(plain(alloc, false)),
    }
}

/// The bounds of a loop of a variable over a class, by its block.
fn bounds_of(
    alloc: Global,
    variable: Who,
    class: &Class,
    body: &List<Stmt>,
) -> Result<List<Bound>, NoMemory>
    ensures { IfOk result (λ bounds. bounds ≡ bounds_of variable class.now body.now) }
{
    match body.as_slice() {
        [Stmt::If(condition, _, otherwise)] if otherwise.as_slice().is_empty() => {
            Ok(sense_of(alloc, variable, class, condition)?.bounds)
        }
        _ => Ok(List::new(alloc)),
    }
}

/// The bounds of a loop over the class of that number, by its block; none where there is no such
/// class.
pub fn bounds_over(
    alloc: Global,
    variable: Who,
    classes: &[Class],
    class: u32,
    body: &List<Stmt>,
) -> Result<List<Bound>, NoMemory>
    ensures { IfOk result (λ bounds. bounds ≡
        bounds_over (map nested body.now) variable (slice_get classes.now class)) }
{
    match classes.get(class as usize) {
        Some(class) => bounds_of(alloc, variable, class, body),
        None => Ok(List::new(alloc)),
    }
}
