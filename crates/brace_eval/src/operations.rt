ghost use Rattle.std.specs.Prelude.{◌≡◌, unwrap_or};
ghost use Rattle.brace_model.specs.declared.program.Value.{Value};
ghost use Rattle.brace_model.specs.World.{number};
ghost use Rattle.brace_model.specs.Value.{made, typed, like, product, quotient, unary, strict, total_read};

use brace_model::{BinOp, Stop, Ty, UnOp, Value, number};
use brace_num::{
    Kind, abs, add, fixed_div, fixed_mul, int_div, int_mul, int_rem, neg, sqrt, sub, to_fixed,
    trunc,
};

/// A number as a value of a type.
fn typed(ty: Ty, n: i64) -> Value
    ensures { result ≡ typed ty n }
{
    match ty {
        Ty::Int => Value::Int(n),
        Ty::Fixed => Value::Fixed(n),
        Ty::Bool => Value::Flag(n != 0),
    }
}

/// A number as a value of the type that another value has.
fn like(a: Value, n: i64) -> Value
    ensures { result ≡ like a n }
{
    match a {
        Value::Int(_) => Value::Int(n),
        Value::Fixed(_) => Value::Fixed(n),
        Value::Flag(_) => Value::Flag(false),
    }
}

/// A fault at a site.
fn stop(site: Option<u32>, kind: Kind) -> Stop
    ensures { result ≡ record { site = unwrap_or site 0; kind = kind } }
{
    Stop {
        site: site.unwrap_or(0),
        kind,
    }
}

/// An exact result as a value of the type that another value has, or its fault at the site.
fn made_like(a: Value, site: Option<u32>, exact: Result<i64, Kind>) -> Result<Value, Stop>
    ensures { result ≡ made (like a) site exact }
{
    match exact {
        Ok(n) => Ok(like(a, n)),
        Err(kind) => Err(stop(site, kind)),
    }
}

/// An exact result as a value of a type, or its fault at the site.
fn made_typed(ty: Ty, site: Option<u32>, exact: Result<i64, Kind>) -> Result<Value, Stop>
    ensures { result ≡ made (typed ty) site exact }
{
    match exact {
        Ok(n) => Ok(typed(ty, n)),
        Err(kind) => Err(stop(site, kind)),
    }
}

fn product(a: Value, b: i64) -> Result<i64, Kind>
    ensures { (v : Value) → number v ≡ b → result ≡ product a v }
{
    match a {
        Value::Int(n) => int_mul(n, b),
        _ => fixed_mul(number(a), b),
    }
}

fn quotient(a: Value, b: i64) -> Result<i64, Kind>
    ensures { (v : Value) → number v ≡ b → result ≡ quotient a v }
{
    match a {
        Value::Int(n) => int_div(n, b),
        _ => fixed_div(number(a), b),
    }
}

/// An operation on one operand.
pub fn unary(op: UnOp, site: Option<u32>, a: Value) -> Result<Value, Stop>
    ensures { result ≡ unary op site a }
{
    match op {
        UnOp::Neg => made_like(a, site, neg(number(a))),
        UnOp::Not => Ok(Value::Flag(number(a) == 0)),
        UnOp::Abs => made_like(a, site, abs(number(a))),
        UnOp::Sqrt => made_typed(Ty::Fixed, site, sqrt(number(a))),
        UnOp::ToFixed => made_typed(Ty::Fixed, site, to_fixed(number(a))),
        UnOp::Trunc => Ok(Value::Int(trunc(number(a)))),
    }
}

/// An operation on two operands that were both evaluated.
pub fn strict(op: BinOp, site: Option<u32>, a: Value, b: Value) -> Result<Value, Stop>
    ensures { result ≡ strict op site a b }
{
    let (x, y) = (number(a), number(b));
    match op {
        BinOp::Add => made_like(a, site, add(x, y)),
        BinOp::Sub => made_like(a, site, sub(x, y)),
        BinOp::Mul => made_like(a, site, product(a, y)),
        BinOp::Div => made_like(a, site, quotient(a, y)),
        BinOp::Rem => made_like(a, site, int_rem(x, y)),
        BinOp::Lt => Ok(Value::Flag(x < y)),
        BinOp::Le => Ok(Value::Flag(x <= y)),
        BinOp::Gt => Ok(Value::Flag(y < x)),
        BinOp::Ge => Ok(Value::Flag(y <= x)),
        BinOp::Eq => Ok(Value::Flag(x == y)),
        BinOp::Ne => Ok(Value::Flag(x != y)),
        BinOp::Min => Ok(like(a, x.min(y))),
        BinOp::Max => Ok(like(a, x.max(y))),
        BinOp::And | BinOp::Or => Ok(b),
    }
}

/// A total, read as a value of its effect's type; with a site it faults where it does not fit.
pub fn total_read(ty: Ty, site: Option<u32>, total: i128) -> Result<Value, Stop>
    ensures { result ≡ total_read ty site total }
{
    match (site, i64::try_from(total)) {
        (_, Ok(n)) => Ok(typed(ty, n)),
        (Some(_), Err(_)) => Err(stop(site, Kind::Overflow)),
        (None, Err(_)) => Ok(typed(ty, 0)),
    }
}
