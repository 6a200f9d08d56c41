ghost use Rattle.std.specs.Prelude.{◌≡◌, not, ◌&&◌, OnOk, IfOk};
ghost use Rattle.brace_model.specs.Typing.{is_sum, unary_faults, binary_faults};
ghost use Rattle.brace_model.specs.declared.program.Expr.TheVariants as expr;
ghost use Rattle.brace_names.specs.Findings.{is_summed};
ghost use Rattle.brace_check.specs.Meanings.{site, site_if, literal, number_of, named_as, loop_agent, agent_of, loop_number, expression};

use brace_model::{BinOp, Comb, Expr, UnOp, Value, Who};
use brace_names::{
    Field, LoopField, Named, Scope, binary_faults, binary_named, is_sum, unary_faults, unary_named,
};
use brace_num::{Boxed, NoMemory};
use brace_syntax::{Digits, ExprTree};
use std::alloc::Global;

/// Notes a site at an offset, and gives its number.
pub fn site(sites: &mut Vec<u32>, at: u32) -> Result<u32, NoMemory>
    ensures noted { OnOk result (sites.new.items ≡ (site at sites.old.items).1) }
    ensures number { IfOk result (λ n. n ≡ (site at sites.old.items).0) }
{
    let number = u32::try_from(sites.len()).ok().ok_or(NoMemory)?;
    sites.push(at)?;
    Ok(number)
}

// The same, where an operation is a site.
fn site_if(sites: &mut Vec<u32>, test: bool, at: u32) -> Result<Option<u32>, NoMemory>
    ensures noted { OnOk result (sites.new.items ≡ (site_if test at sites.old.items).1) }
    ensures number { IfOk result (λ n. n ≡ (site_if test at sites.old.items).0) }
{
    if test {
        Ok(Some(site(sites, at)?))
    } else {
        Ok(None)
    }
}

fn literal(digits: Digits) -> Value
    ensures { result ≡ literal digits }
{
    match digits {
        Digits::Int(n) => Value::Int(n),
        Digits::Fixed(n) => Value::Fixed(n),
    }
}

/// The number of a field among the states or the effects of its class; of nothing 0, which no
/// resolved script has.
pub fn number_of(field: Option<Field>) -> u32
    ensures { result ≡ number_of field }
{
    match field {
        Some(Field::State(number, _, _) | Field::Effect(number, _, _, _)) => number,
        None => 0,
    }
}

// The total of an effect is read at a site, where it is added up.
fn is_total_site(scope: &Scope, comb: Comb) -> bool
    ensures { result ≡ (not scope.now.in_query && is_sum comb) }
{
    !scope.in_query() && is_sum(comb)
}

// What a name at an offset stands for.
fn named_as(
    sites: &mut Vec<u32>,
    scope: &Scope,
    at: u32,
    named: Option<Named>,
) -> Result<Expr, NoMemory>
    ensures noted { OnOk result (sites.new.items
        ≡ (named_as scope.now at named sites.old.items).1) }
    ensures meant { IfOk result (λ e. e
        ≡ (named_as scope.now at named sites.old.items).0) }
{
    match named {
        Some(Named::Constant(number, _)) => Ok(Expr::Local(number)),
        Some(Named::Field(Field::State(number, _, _))) => Ok(Expr::Field(Who::This, number)),
        Some(Named::Field(Field::Effect(number, ty, _, comb))) => {
            let site = site_if(sites, is_total_site(scope, comb), at)?;
            Ok(Expr::Total(number, ty, site))
        }
        None => Ok(Expr::Field(Who::This, 0)),
    }
}

/// The agent of the loop of a field.
pub fn agent_of(found: Option<LoopField>) -> Who
    ensures { result ≡ agent_of found }
{
    match found {
        None => Who::Outer,
        Some(found) => {
            if found.loops == 0 {
                Who::Outer
            } else {
                Who::Inner
            }
        }
    }
}

/// The number of a field of the agent of a loop.
pub fn loop_number(found: Option<LoopField>) -> u32
    ensures { result ≡ loop_number found }
{
    number_of(found.map(|found| found.field))
}

// An operation at an offset on one operand.
fn unary(sites: &mut Vec<u32>, op: UnOp, x: Boxed<Expr>, at: u32) -> Result<Expr, NoMemory>
    ensures noted { OnOk result (sites.new.items
        ≡ (site_if (unary_faults op) at sites.old.items).1) }
    ensures meant { IfOk result (λ e. e
        ≡ expr.Unary op (site_if (unary_faults op) at sites.old.items).0 x) }
{
    let site = site_if(sites, unary_faults(op), at)?;
    Ok(Expr::Unary(op, site, x))
}

// An operation at an offset on two operands.
fn binary(
    sites: &mut Vec<u32>,
    op: BinOp,
    x: Boxed<Expr>,
    y: Boxed<Expr>,
    at: u32,
) -> Result<Expr, NoMemory>
    ensures noted { OnOk result (sites.new.items
        ≡ (site_if (binary_faults op) at sites.old.items).1) }
    ensures meant { IfOk result (λ e. e
        ≡ expr.Binary op (site_if (binary_faults op) at sites.old.items).0 x y) }
{
    let site = site_if(sites, binary_faults(op), at)?;
    Ok(Expr::Binary(op, site, x, y))
}

/// What an expression means. Its sites are noted in finishing order.
#[cycle(expressions)]
pub fn expression(
    alloc: Global,
    sites: &mut Vec<u32>,
    scope: &Scope,
    x: &ExprTree,
) -> Result<Boxed<Expr>, NoMemory>
    ensures noted { OnOk result (sites.new.items
        ≡ (expression x.now scope.now sites.old.items).1) }
    ensures meant { IfOk result (λ e. e
        ≡ (expression x.now scope.now sites.old.items).0) }
{
    match x {
        ExprTree::Lit(number) => Boxed::new(alloc, Expr::Lit(literal(number.digits))),
        ExprTree::True(_) => Boxed::new(alloc, Expr::Lit(Value::Flag(true))),
        ExprTree::False(_) => Boxed::new(alloc, Expr::Lit(Value::Flag(false))),
        ExprTree::Name(name) => {
            let named = scope.read(name.text.as_bytes());
            Boxed::new(alloc, named_as(sites, scope, name.at, named)?)
        }
        ExprTree::OfThis(name, at) => {
            let named = scope.read_own(name.text.as_bytes());
            Boxed::new(alloc, named_as(sites, scope, *at, named)?)
        }
        ExprTree::OfLoop(variable, name) => {
            let found = scope.of_loop(variable.text.as_bytes(), name.text.as_bytes());
            Boxed::new(alloc, Expr::Field(agent_of(found), loop_number(found)))
        }
        ExprTree::Unary(op, x, at) => {
            let x = expression(alloc, sites, scope, x.get())?;
            Boxed::new(alloc, unary(sites, unary_named(*op), x, *at)?)
        }
        ExprTree::Binary(op, x, y, at) => {
            let x = expression(alloc, sites, scope, x.get())?;
            let y = expression(alloc, sites, scope, y.get())?;
            Boxed::new(alloc, binary(sites, binary_named(*op), x, y, *at)?)
        }
        ExprTree::Choice(c, x, y, _) => {
            let c = expression(alloc, sites, scope, c.get())?;
            let x = expression(alloc, sites, scope, x.get())?;
            let y = expression(alloc, sites, scope, y.get())?;
            Boxed::new(alloc, Expr::Choice(c, x, y))
        }
        ExprTree::Rand(at) => Boxed::new(alloc, Expr::Rand(site(sites, *at)?)),
    }
}
