// Files of watched figures and their texts, worked by hand.
use crate::tests::plans::cuts_of;
use crate::tests::programs::{agent_of, program_of};
use brace_model::{Herd, Ty, Value};
use brace_watch::{WatchFault, WatchKind, print_watched, read_watch};
use std::alloc::Global;
use std::test::Fail;

// The one class, and its states.
const CLASSES: &[(&str, &[(&str, Ty)])] = &[(
    "F",
    &[
        ("x", Ty::Fixed),
        ("y", Ty::Fixed),
        ("n", Ty::Int),
        ("b", Ty::Bool),
    ],
)];

// The id, x, n and b of an agent on the line y = 0.
type Row = (u64, i64, i64, bool);

fn agents(alloc: Global, rows: &[Row]) -> Result<Herd, Fail> {
    let mut agents = Vec::new(alloc);
    for (id, x, n, b) in rows {
        let values = [
            Value::Fixed(*x),
            Value::Fixed(0),
            Value::Int(*n),
            Value::Flag(*b),
        ];
        agents.push(agent_of(alloc, 0, *id, &values)?)?;
    }
    Ok(Herd::of(alloc, agents.as_slice())?)
}

// The text of what a file watches, at a tick, over some agents, with the plane cut at x = 2.
fn told(alloc: Global, file: &[u8], tick: u64, rows: &[Row]) -> Result<Vec<u8>, Fail> {
    let agents = agents(alloc, rows)?;
    let program = program_of(alloc, CLASSES)?;
    let Ok(watches) = read_watch(alloc, &program, file) else {
        return Err("a watch file is refused".into());
    };
    let cuts = cuts_of(alloc, &[2_000_000], &[])?;
    let mut out = Vec::new(alloc);
    print_watched(
        alloc,
        &mut out,
        &program,
        watches.as_slice(),
        &cuts,
        tick,
        &agents,
    )?;
    Ok(out)
}

const NEAR: &[Row] = &[
    (1, 0, 1, true),
    (2, 2_000_000, 2, false),
    (3, 2_000_001, 1, true),
];

const FAR: &[Row] = &[(1, i64::MAX, i64::MIN, true), (2, i64::MAX, i64::MIN, true)];

// Files, ticks and agents, and the texts that they ask for.
const TOLD: [(&[u8], u64, &[Row], &[u8]); 9] = [
    (
        b"count F\nsum F x\nmax F n where n < 2\n",
        1,
        NEAR,
        b"1,1,3,1,2\n1,2,4.000001,0.000000,4.000001\n1,3,1,1,1\n",
    ),
    (b"", 1, NEAR, b""),
    (b"min F x where n >= 3", 1, NEAR, b"1,1,none,none,none\n"),
    (b"count F where b == true", 1, NEAR, b"1,1,2,1,1\n"),
    (b"count F where x == 2", 1, NEAR, b"1,1,1,0,1\n"),
    (
        b"min F x where x > 2\nmax F x where x <= 2.0",
        1,
        NEAR,
        b"1,1,2.000001,none,2.000001\n1,2,2.000000,0.000000,2.000000\n",
    ),
    (b"sum F n where n > 5\n", 1, NEAR, b"1,1,0,0,0\n"),
    (b"sum F n\n", 1, NEAR, b"1,1,4,1,3\n"),
    // Sums go past 64 bits.
    (
        b"sum F x\nsum F n\nmin F n\n",
        0,
        FAR,
        b"0,1,18446744073709.551614,0.000000,18446744073709.551614
0,2,-18446744073709551616,0,-18446744073709551616
0,3,-9223372036854775808,none,-9223372036854775808
",
    ),
];

#[test]
fn figures_are_told_by_box(rt: HostRuntime) -> Result<(), Fail> {
    for &(file, tick, rows, text) in &TOLD {
        let out = told(rt.alloc(), file, tick, rows)?;
        assert_eq!(rt; out.as_slice(), text);
    }
    Ok(())
}

// Files and their first faults.
const REFUSED: [(&[u8], u64, WatchKind); 28] = [
    (b"\n", 1, WatchKind::BadLine),
    (b"count F\n\ncount F", 2, WatchKind::BadLine),
    (b"count", 1, WatchKind::BadLine),
    (b"count  F", 1, WatchKind::BadLine),
    (b"count F ", 1, WatchKind::BadLine),
    (b" count F", 1, WatchKind::BadLine),
    (b"count F n", 1, WatchKind::BadLine),
    (b"sum F", 1, WatchKind::BadLine),
    (b"or F b", 1, WatchKind::BadLine),
    (b"Sum F x", 1, WatchKind::BadLine),
    (b"sum G x y", 1, WatchKind::BadLine),
    (b"count F where n != 3", 1, WatchKind::BadLine),
    (b"count F where n < 3 ", 1, WatchKind::BadLine),
    (b"count F where n <", 1, WatchKind::BadLine),
    (b"count F if n < 3", 1, WatchKind::BadLine),
    (b"sum F where n < 3", 1, WatchKind::BadLine),
    (b"count G where q < z", 1, WatchKind::UnknownClass),
    (b"count F\r\n", 1, WatchKind::UnknownClass),
    (b"count F\nsum F q", 2, WatchKind::UnknownField),
    (b"sum F b where q < 3", 1, WatchKind::UnknownField),
    (b"sum F q where b < 3", 1, WatchKind::UnknownField),
    (b"sum F b", 1, WatchKind::WrongType),
    (b"min F b where b == true", 1, WatchKind::WrongType),
    (b"count F where b < true", 1, WatchKind::WrongType),
    (b"count F where b == 1", 1, WatchKind::WrongType),
    (b"count F where n < 3.0", 1, WatchKind::WrongType),
    (b"count F where x == 1.0000000", 1, WatchKind::WrongType),
    (b"sum F x where where < 3", 1, WatchKind::UnknownField),
];

// How many figures a file asks for, or its fault.
fn count(alloc: Global, file: &[u8]) -> Result<usize, WatchFault> {
    let program = program_of(alloc, CLASSES)?;
    let watches = read_watch(alloc, &program, file)?;
    Ok(watches.len())
}

#[test]
fn files_are_refused_at_their_first_fault(rt: HostRuntime) {
    for &(file, line, kind) in &REFUSED {
        let found = count(rt.alloc(), file);
        assert_eq!(rt; found, Err(WatchFault::Bad(line, kind)));
    }
}

// A file of so many good lines, and another one behind them.
fn lines(alloc: Global, many: u32, last: &[u8]) -> Result<Vec<u8>, Fail> {
    let mut file = Vec::new(alloc);
    for _line in 0..many {
        file.extend_from_slice(b"count F\n")?;
    }
    file.extend_from_slice(last)?;
    Ok(file)
}

// What stands behind 64 lines, and what the file asks for, or its fault.
const LAST: [(&[u8], Result<usize, WatchFault>); 3] = [
    (b"", Ok(64)),
    (b"count F", Err(WatchFault::Bad(65, WatchKind::TooMany))),
    (
        b"count G",
        Err(WatchFault::Bad(65, WatchKind::UnknownClass)),
    ),
];

#[test]
fn a_file_has_at_most_64_lines(rt: HostRuntime) -> Result<(), Fail> {
    for &(last, wanted) in &LAST {
        let file = lines(rt.alloc(), 64, last)?;
        assert_eq!(rt; count(rt.alloc(), file.as_slice()), wanted);
    }
    Ok(())
}
