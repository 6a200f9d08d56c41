// What no clause says: that the calls answer where memory is ample, at values worked by hand.
use super::exprs::{binary, choice, flag, int, unary};
use brace_code::{Known, Stack, compile};
use brace_draw::Drawer;
use brace_model::BinOp::{
    self, Add, And, Div, Eq, Ge, Gt, Le, Lt, Max, Min, Mul, Ne, Or, Rem, Sub,
};
use brace_model::UnOp::{self, Abs, Neg, Not, Sqrt, ToFixed, Trunc};
use brace_model::Value::{self, Fixed, Flag, Int};
use brace_model::{Env, Expr, Stop, Ty};
use brace_num::{Kind, NoMemory};
use brace_test_runs::agent;
use std::alloc::Global;
use std::test::Fail;

/// What an expression comes to.
type Answer = Result<Value, Stop>;

const LOCALS: [Value; 2] = [Int(11), Fixed(250_000)];

const TOTALS: [i128; 3] = [5, 9_223_372_036_854_775_808, 1];

const STATES: [Value; 3] = [Int(-2), Fixed(1_500_000), Flag(true)];

/// The value of an expression by its code, at tick 3 in a run of seed 5.
fn value(alloc: Global, e: &Expr) -> Result<Answer, NoMemory> {
    let known = Known {
        classes: &[],
        own: 0,
        outer: None,
        inner: None,
        in_rule: false,
        constants: &[(1, Ty::Fixed), (0, Ty::Int)],
    };
    let code = compile(alloc, &known, e)?;
    let mut stack = Stack::make(alloc, code.depth())?;
    let env = Env {
        tick: 3,
        this: &agent(alloc, 7, &STATES)?,
        outer: None,
        inner: None,
        locals: &LOCALS,
        totals: &TOTALS,
    };
    Ok(code.eval(&env, &mut Drawer::make(5), &mut stack))
}

const OVERFLOW: Answer = Err(Stop {
    site: 3,
    kind: Kind::Overflow,
});

const DIV_ZERO: Answer = Err(Stop {
    site: 3,
    kind: Kind::DivZero,
});

const NEG_ROOT: Answer = Err(Stop {
    site: 3,
    kind: Kind::NegRoot,
});

/// An operation, two values, and what it comes to.
const ON_TWO: [(BinOp, Value, Value, Answer); 29] = [
    (Add, Int(i64::MAX), Int(0), Ok(Int(i64::MAX))),
    (Add, Fixed(i64::MAX), Fixed(1), OVERFLOW),
    (Sub, Int(i64::MIN), Int(1), OVERFLOW),
    (Sub, Fixed(3), Fixed(5), Ok(Fixed(-2))),
    (Mul, Int(4294967296), Int(2147483648), OVERFLOW),
    (Mul, Int(-4294967296), Int(2147483648), Ok(Int(i64::MIN))),
    (Mul, Fixed(-1), Fixed(500000), Ok(Fixed(0))),
    (Mul, Fixed(i64::MAX), Fixed(1000000), Ok(Fixed(i64::MAX))),
    (Mul, Fixed(i64::MIN), Fixed(-1000000), OVERFLOW),
    (Div, Int(-7), Int(2), Ok(Int(-3))),
    (Div, Int(i64::MIN), Int(-1), OVERFLOW),
    (Div, Int(1), Int(0), DIV_ZERO),
    (Div, Fixed(1000000), Fixed(3000000), Ok(Fixed(333333))),
    (Div, Fixed(i64::MAX), Fixed(1), OVERFLOW),
    (Div, Fixed(0), Fixed(0), DIV_ZERO),
    (Rem, Int(-7), Int(2), Ok(Int(-1))),
    (Rem, Int(i64::MIN), Int(-1), Ok(Int(0))),
    (Rem, Int(7), Int(0), DIV_ZERO),
    (Lt, Int(i64::MIN), Int(i64::MAX), Ok(Flag(true))),
    (Lt, Fixed(2), Fixed(2), Ok(Flag(false))),
    (Le, Fixed(2), Fixed(2), Ok(Flag(true))),
    (Gt, Int(i64::MIN), Int(i64::MAX), Ok(Flag(false))),
    (Ge, Int(2), Int(2), Ok(Flag(true))),
    (Eq, Flag(true), Flag(true), Ok(Flag(true))),
    (Eq, Int(i64::MIN), Int(i64::MAX), Ok(Flag(false))),
    (Ne, Flag(true), Flag(false), Ok(Flag(true))),
    (Ne, Fixed(4), Fixed(4), Ok(Flag(false))),
    (Min, Int(i64::MIN), Int(i64::MAX), Ok(Int(i64::MIN))),
    (Max, Fixed(i64::MIN), Fixed(i64::MAX), Ok(Fixed(i64::MAX))),
];

#[test]
fn operations_on_two_at_their_ends(rt: HostRuntime) -> Result<(), Fail> {
    let alloc = rt.alloc();
    for &(op, a, b, want) in &ON_TWO {
        let e = binary(alloc, op, Expr::Lit(a), Expr::Lit(b))?;
        assert!(rt; value(alloc, &e)? == want);
    }
    Ok(())
}

/// An operation, a value, and what it comes to.
const ON_ONE: [(UnOp, Value, Answer); 10] = [
    (Neg, Int(i64::MAX), Ok(Int(-i64::MAX))),
    (Neg, Fixed(i64::MIN), OVERFLOW),
    (Abs, Int(-5), Ok(Int(5))),
    (Abs, Int(i64::MIN), OVERFLOW),
    (Not, Flag(false), Ok(Flag(true))),
    (Sqrt, Fixed(2_000_000), Ok(Fixed(1_414_213))),
    (Sqrt, Fixed(-1), NEG_ROOT),
    (ToFixed, Int(-3), Ok(Fixed(-3_000_000))),
    (ToFixed, Int(9_223_372_036_855), OVERFLOW),
    (Trunc, Fixed(-1_500_000), Ok(Int(-1))),
];

#[test]
fn operations_on_one_at_their_ends(rt: HostRuntime) -> Result<(), Fail> {
    let alloc = rt.alloc();
    for &(op, a, want) in &ON_ONE {
        let e = unary(alloc, op, Expr::Lit(a))?;
        assert!(rt; value(alloc, &e)? == want);
    }
    Ok(())
}

/// An operation on a flag and on 1 / 0 == 0, which faults.
fn before_a_fault(alloc: Global, op: BinOp, first: bool) -> Result<Expr, NoMemory> {
    let quotient = binary(alloc, Div, int(1), int(0))?;
    let fault = binary(alloc, Eq, quotient, int(0))?;
    binary(alloc, op, flag(first), fault)
}

/// An operation, the flag that stands first, and what it comes to.
const BEFORE_A_FAULT: [(BinOp, bool, Answer); 4] = [
    (And, false, Ok(Flag(false))),
    (And, true, DIV_ZERO),
    (Or, true, Ok(Flag(true))),
    (Or, false, DIV_ZERO),
];

#[test]
fn what_is_not_evaluated_does_not_fault(rt: HostRuntime) -> Result<(), Fail> {
    let alloc = rt.alloc();
    for &(op, first, want) in &BEFORE_A_FAULT {
        let e = before_a_fault(alloc, op, first)?;
        assert!(rt; value(alloc, &e)? == want);
    }
    Ok(())
}

/// a ? (b ? (c ? 1 : 2) : fault) : 4
fn nested(alloc: Global, a: bool, b: bool, c: bool) -> Result<Expr, NoMemory> {
    let inner = choice(alloc, flag(c), int(1), int(2))?;
    let fault = binary(alloc, Rem, int(1), int(0))?;
    let middle = choice(alloc, flag(b), inner, fault)?;
    choice(alloc, flag(a), middle, int(4))
}

/// Three flags, and what choices by them come to.
const CHOICES: [(bool, bool, bool, Answer); 4] = [
    (true, true, true, Ok(Int(1))),
    (true, true, false, Ok(Int(2))),
    (true, false, true, DIV_ZERO),
    (false, false, true, Ok(Int(4))),
];

#[test]
fn choices_three_deep(rt: HostRuntime) -> Result<(), Fail> {
    let alloc = rt.alloc();
    for &(a, b, c, want) in &CHOICES {
        let e = nested(alloc, a, b, c)?;
        assert!(rt; value(alloc, &e)? == want);
    }
    Ok(())
}

/// A name, and what it comes to.
const NAMES: [(Expr, Answer); 5] = [
    (Expr::Local(0), Ok(Int(11))),
    (Expr::Local(1), Ok(Fixed(250_000))),
    (Expr::Total(0, Ty::Int, Some(4)), Ok(Int(5))),
    (
        Expr::Total(1, Ty::Fixed, Some(4)),
        Err(Stop {
            site: 4,
            kind: Kind::Overflow,
        }),
    ),
    (Expr::Total(2, Ty::Bool, None), Ok(Flag(true))),
];

#[test]
fn names_are_read(rt: HostRuntime) -> Result<(), Fail> {
    for (e, want) in NAMES {
        assert!(rt; value(rt.alloc(), &e)? == want);
    }
    Ok(())
}

#[test]
fn draws_at_two_sites(rt: HostRuntime) -> Result<(), Fail> {
    let e = binary(rt.alloc(), Sub, Expr::Rand(1), Expr::Rand(2))?;
    let mut drawer = Drawer::make(5);
    let first = drawer.draw(3, 7, 1);
    let second = drawer.draw(3, 7, 2);
    let found = value(rt.alloc(), &e)?;
    assert!(rt; first != second && found == Ok(Fixed(first - second)));
    Ok(())
}
