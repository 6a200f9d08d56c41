// Code in lanes, at values worked by hand: that lanes answer where no lane faults, and that each
// kind of fault is told.
use super::exprs::{binary, choice, int, unary};
use brace_code::{Draws, Frame, Known, Lanes, Rows, compile};
use brace_model::BinOp::{
    self, Add, And, Div, Eq, Ge, Gt, Le, Lt, Max, Min, Mul, Ne, Or, Rem, Sub,
};
use brace_model::UnOp::{self, Abs, Neg, Not, Sqrt, ToFixed, Trunc};
use brace_model::{Expr, Ty, Value, Who};
use brace_num::{List, NoMemory};
use std::alloc::Global;
use std::test::Fail;

/// Lanes whose constants stand at rows 0 and up, and their agents at rows `count - 1` and down.
fn lanes(alloc: Global, count: u32) -> Result<Lanes, NoMemory> {
    let mut this = Vec::new(alloc);
    for k in 0..count {
        this.push(count - 1 - k)?;
    }
    Ok(Lanes::of(
        count as usize,
        Rows::Each(this),
        Rows::Same(0),
        Rows::Same(1),
        Rows::Number,
    ))
}

/// The words of lanes, where the constants 0 and 1 are of a type; None where a lane faults.
fn words(
    alloc: Global,
    ty: Ty,
    e: &Expr,
    frame: &Frame,
    count: u32,
) -> Result<Option<List<i64>>, NoMemory> {
    let known = Known {
        classes: &[],
        own: 0,
        outer: None,
        inner: None,
        in_rule: true,
        constants: &[(0, ty), (1, ty)],
    };
    let code = compile(alloc, &known, e)?;
    let lanes = lanes(alloc, count)?;
    Ok(code.eval_lanes(alloc, frame, &lanes).ok())
}

/// The word of the middle one of three lanes of two constants, whose other lanes have 1 and 1.
fn middle(alloc: Global, ty: Ty, e: &Expr, a: i64, b: i64) -> Result<Option<i64>, NoMemory> {
    let (first, second) = ([1, a, 1], [1, b, 1]);
    let frame = Frame {
        this: &[],
        outer: &[],
        inner: &[],
        locals: &[&first, &second],
        totals: &[],
        draws: &[],
    };
    match words(alloc, ty, e, &frame, 3)? {
        Some(words) => Ok(words.as_slice().get(1).copied()),
        None => Ok(None),
    }
}

/// Whether so many lanes give these words; None where one of them is to fault.
fn gives(
    alloc: Global,
    e: &Expr,
    frame: &Frame,
    count: u32,
    want: Option<&[i64]>,
) -> Result<bool, NoMemory> {
    match words(alloc, Ty::Int, e, frame, count)? {
        Some(words) => Ok(want == Some(words.as_slice())),
        None => Ok(want.is_none()),
    }
}

/// An operation, the type of its constants, these, and its word.
const ON_TWO: [(BinOp, Ty, i64, i64, Option<i64>); 33] = [
    (Add, Ty::Int, i64::MAX, 0, Some(i64::MAX)),
    (Add, Ty::Fixed, i64::MAX, 1, None),
    (Sub, Ty::Int, i64::MIN, 1, None),
    (Sub, Ty::Fixed, 3, 5, Some(-2)),
    (Mul, Ty::Int, 4294967296, 2147483648, None),
    (Mul, Ty::Int, -4294967296, 2147483648, Some(i64::MIN)),
    (Mul, Ty::Fixed, -1, 500000, Some(0)),
    (Mul, Ty::Fixed, i64::MAX, 1000000, Some(i64::MAX)),
    (Mul, Ty::Fixed, i64::MIN, -1000000, None),
    (Div, Ty::Int, -7, 2, Some(-3)),
    (Div, Ty::Int, i64::MIN, -1, None),
    (Div, Ty::Int, 1, 0, None),
    (Div, Ty::Fixed, 1000000, 3000000, Some(333333)),
    (Div, Ty::Fixed, i64::MAX, 1, None),
    (Div, Ty::Fixed, 0, 0, None),
    (Rem, Ty::Int, -7, 2, Some(-1)),
    (Rem, Ty::Int, i64::MIN, -1, Some(0)),
    (Rem, Ty::Int, 7, 0, None),
    (Lt, Ty::Int, i64::MIN, i64::MAX, Some(1)),
    (Lt, Ty::Fixed, 2, 2, Some(0)),
    (Le, Ty::Fixed, 2, 2, Some(1)),
    (Gt, Ty::Int, i64::MIN, i64::MAX, Some(0)),
    (Ge, Ty::Int, 2, 2, Some(1)),
    (Eq, Ty::Bool, 1, 1, Some(1)),
    (Eq, Ty::Int, i64::MIN, i64::MAX, Some(0)),
    (Ne, Ty::Bool, 1, 0, Some(1)),
    (Ne, Ty::Fixed, 4, 4, Some(0)),
    (Min, Ty::Int, i64::MIN, i64::MAX, Some(i64::MIN)),
    (Max, Ty::Fixed, i64::MIN, i64::MAX, Some(i64::MAX)),
    (And, Ty::Bool, 1, 0, Some(0)),
    (And, Ty::Bool, 0, 1, Some(0)),
    (Or, Ty::Bool, 0, 1, Some(1)),
    (Or, Ty::Bool, 0, 0, Some(0)),
];

#[test]
fn operations_on_two_at_their_ends(rt: HostRuntime) -> Result<(), Fail> {
    let alloc = rt.alloc();
    for &(op, ty, a, b, want) in &ON_TWO {
        let e = binary(alloc, op, Expr::Local(0), Expr::Local(1))?;
        assert_eq!(rt; middle(alloc, ty, &e, a, b)?, want);
    }
    Ok(())
}

/// An operation, the type of its constant, this, and its word.
const ON_ONE: [(UnOp, Ty, i64, Option<i64>); 10] = [
    (Neg, Ty::Int, i64::MAX, Some(-i64::MAX)),
    (Neg, Ty::Fixed, i64::MIN, None),
    (Abs, Ty::Int, -5, Some(5)),
    (Abs, Ty::Int, i64::MIN, None),
    (Not, Ty::Bool, 0, Some(1)),
    (Sqrt, Ty::Fixed, 2000000, Some(1414213)),
    (Sqrt, Ty::Fixed, -1, None),
    (ToFixed, Ty::Int, -3, Some(-3000000)),
    (ToFixed, Ty::Int, 9223372036855, None),
    (Trunc, Ty::Fixed, -1500000, Some(-1)),
];

#[test]
fn operations_on_one_at_their_ends(rt: HostRuntime) -> Result<(), Fail> {
    let alloc = rt.alloc();
    for &(op, ty, a, want) in &ON_ONE {
        let e = unary(alloc, op, Expr::Local(0))?;
        assert_eq!(rt; middle(alloc, ty, &e, a, 0)?, want);
    }
    Ok(())
}

/// An operation on a test of x and 0, and on 10 / x > 2.
fn guarded(alloc: Global, op: BinOp, test: BinOp) -> Result<Expr, NoMemory> {
    let first = binary(alloc, test, Expr::Local(0), int(0))?;
    let quotient = binary(alloc, Div, int(10), Expr::Local(0))?;
    let second = binary(alloc, Gt, quotient, int(2))?;
    binary(alloc, op, first, second)
}

/// An operation, the test that stands first, x, and its word.
const GUARDED: [(BinOp, BinOp, i64, Option<i64>); 8] = [
    (And, Ne, 0, Some(0)),
    (And, Ne, 3, Some(1)),
    (And, Ne, 9, Some(0)),
    (And, Eq, 0, None),
    (Or, Eq, 0, Some(1)),
    (Or, Eq, 3, Some(1)),
    (Or, Eq, 9, Some(0)),
    (Or, Ne, 0, None),
];

#[test]
fn what_a_lane_does_not_evaluate_does_not_fault(rt: HostRuntime) -> Result<(), Fail> {
    let alloc = rt.alloc();
    for &(op, test, a, want) in &GUARDED {
        let e = guarded(alloc, op, test)?;
        assert_eq!(rt; middle(alloc, Ty::Int, &e, a, 0)?, want);
    }
    Ok(())
}

/// n > 0 ? 10 / n : -n, of a state of the agent that asks.
fn by_sign(alloc: Global) -> Result<Expr, NoMemory> {
    let n = || Expr::Field(Who::This, 0);
    let test = binary(alloc, Gt, n(), int(0))?;
    let quotient = binary(alloc, Div, int(10), n())?;
    choice(alloc, test, quotient, unary(alloc, Neg, n())?)
}

/// Columns of no agents.
const NONE: Frame = Frame {
    this: &[],
    outer: &[],
    inner: &[],
    locals: &[],
    totals: &[],
    draws: &[],
};

/// The state of 64 agents. Lanes read the rows from the last to the first.
const SIGNS: Frame = Frame {
    this: &[&[
        -32, -31, -30, -29, -28, -27, -26, -25, -24, -23, -22, -21, -20, -19, -18, -17, -16, -15,
        -14, -13, -12, -11, -10, -9, -8, -7, -6, -5, -4, -3, -2, -1, 0, 1, 2, 3, 4, 5, 6, 7, 8, 9,
        10, 11, 12, 13, 14, 15, 16, 17, 18, 19, 20, 21, 22, 23, 24, 25, 26, 27, 28, 29, 30, 31,
    ]],
    ..NONE
};

const BY_SIGN: [i64; 64] = [
    0, 0, 0, 0, 0, 0, 0, 0, 0, 0, 0, 0, 0, 0, 0, 0, 0, 0, 0, 0, 0, 1, 1, 1, 1, 1, 2, 2, 3, 5, 10,
    0, 1, 2, 3, 4, 5, 6, 7, 8, 9, 10, 11, 12, 13, 14, 15, 16, 17, 18, 19, 20, 21, 22, 23, 24, 25,
    26, 27, 28, 29, 30, 31, 32,
];

#[test]
fn branches_run_on_the_lanes_that_take_them(rt: HostRuntime) -> Result<(), Fail> {
    let e = by_sign(rt.alloc())?;
    assert!(rt; gives(rt.alloc(), &e, &SIGNS, 64, Some(&BY_SIGN))?);
    Ok(())
}

/// a ? (b ? (c ? 1 : 2) : 3 / c) : 4, of three totals.
fn nested(alloc: Global) -> Result<Expr, NoMemory> {
    let test = |place| Expr::Total(place, Ty::Bool, None);
    let inner = choice(alloc, test(2), int(1), int(2))?;
    let quotient = binary(alloc, Div, int(3), Expr::Total(2, Ty::Int, None))?;
    let middle = choice(alloc, test(1), inner, quotient)?;
    choice(alloc, test(0), middle, int(4))
}

/// Three totals of six agents, and the words of the choices by them. Lanes read the rows from the
/// last to the first.
const CHOICES: [(Frame, Option<&[i64]>); 3] = [
    (
        Frame {
            totals: &[
                &[1, 1, 1, 0, 0, 0],
                &[1, 1, 0, 0, 1, 1],
                &[1, 0, 3, 0, 1, 0],
            ],
            ..NONE
        },
        Some(&[4, 4, 4, 1, 2, 1]),
    ),
    (
        Frame {
            totals: &[
                &[1, 1, 0, 0, 1, 1],
                &[1, 1, 0, 0, 1, 1],
                &[1, 0, 3, 0, 1, 0],
            ],
            ..NONE
        },
        Some(&[2, 1, 4, 4, 2, 1]),
    ),
    (
        Frame {
            totals: &[
                &[1, 1, 1, 1, 0, 0],
                &[1, 1, 0, 0, 1, 1],
                &[1, 0, 3, 0, 1, 0],
            ],
            ..NONE
        },
        None,
    ),
];

#[test]
fn choices_three_deep(rt: HostRuntime) -> Result<(), Fail> {
    let e = nested(rt.alloc())?;
    for (frame, want) in &CHOICES {
        assert!(rt; gives(rt.alloc(), &e, frame, 6, *want)?);
    }
    Ok(())
}

/// Columns of each kind.
const EACH: Frame = Frame {
    this: &[&[10, 11, 12]],
    outer: &[&[20, 21]],
    inner: &[&[20, 21]],
    locals: &[&[40, 41, 42]],
    totals: &[&[0, 7, 0]],
    draws: &[
        Draws {
            site: 5,
            words: &[0, 0, 0],
        },
        Draws {
            site: 2,
            words: &[30, 31, 32],
        },
    ],
};

/// A column without a row for the third lane.
const SHORT: Frame = Frame {
    this: &[&[10, 11]],
    ..NONE
};

/// A name, and its words in three lanes.
const NAMES: [(Expr, Option<&[i64]>); 10] = [
    (Expr::Field(Who::This, 0), Some(&[12, 11, 10])),
    (Expr::Field(Who::Outer, 0), Some(&[20, 20, 20])),
    (Expr::Field(Who::Inner, 0), Some(&[21, 21, 21])),
    (Expr::Local(0), Some(&[40, 41, 42])),
    (Expr::Total(0, Ty::Int, None), Some(&[0, 7, 0])),
    (Expr::Total(0, Ty::Bool, None), Some(&[0, 1, 0])),
    (Expr::Rand(2), Some(&[32, 31, 30])),
    (Expr::Lit(Value::Int(6)), Some(&[6, 6, 6])),
    (Expr::Field(Who::This, 1), None),
    (Expr::Rand(3), None),
];

#[test]
fn operands_stand_at_rows_of_their_own(rt: HostRuntime) -> Result<(), Fail> {
    for (e, want) in NAMES {
        assert!(rt; gives(rt.alloc(), &e, &EACH, 3, want)?);
    }
    Ok(())
}

#[test]
fn a_row_that_no_column_has_is_told(rt: HostRuntime) -> Result<(), Fail> {
    let e = Expr::Field(Who::This, 0);
    assert!(rt; gives(rt.alloc(), &e, &SHORT, 3, None)?);
    Ok(())
}

/// Draws of two sites.
const DRAWN: Frame = Frame {
    draws: &[
        Draws {
            site: 2,
            words: &[1, 2, 3],
        },
        Draws {
            site: 1,
            words: &[40, 50, 60],
        },
    ],
    ..NONE
};

#[test]
fn draws_at_two_sites(rt: HostRuntime) -> Result<(), Fail> {
    let e = binary(rt.alloc(), Sub, Expr::Rand(1), Expr::Rand(2))?;
    assert!(rt; gives(rt.alloc(), &e, &DRAWN, 3, Some(&[57, 48, 39]))?);
    Ok(())
}
