// Expressions of one operation. Its faults stand at site 3.
use brace_model::{BinOp, Expr, UnOp, Value};
use brace_num::{Boxed, NoMemory};
use std::alloc::Global;

/// An operation on one value.
pub fn unary(alloc: Global, op: UnOp, a: Expr) -> Result<Expr, NoMemory> {
    Ok(Expr::Unary(op, Some(3), Boxed::new(alloc, a)?))
}

/// An operation on two values.
pub fn binary(alloc: Global, op: BinOp, a: Expr, b: Expr) -> Result<Expr, NoMemory> {
    let a = Boxed::new(alloc, a)?;
    Ok(Expr::Binary(op, Some(3), a, Boxed::new(alloc, b)?))
}

/// One of two values, by a flag.
pub fn choice(alloc: Global, c: Expr, a: Expr, b: Expr) -> Result<Expr, NoMemory> {
    let c = Boxed::new(alloc, c)?;
    let a = Boxed::new(alloc, a)?;
    Ok(Expr::Choice(c, a, Boxed::new(alloc, b)?))
}

/// A number.
pub fn int(n: i64) -> Expr {
    Expr::Lit(Value::Int(n))
}

/// A flag.
pub fn flag(set: bool) -> Expr {
    Expr::Lit(Value::Flag(set))
}
