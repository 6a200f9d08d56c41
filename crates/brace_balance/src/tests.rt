// What no clause says: texts and answers worked by hand, and that calls answer where memory is
// ample.
ghost use Rattle.std.specs.Prelude.{◌≡◌, IfOk};
ghost use Rattle.brace_balance.specs.Loads.{never_falls};

use crate::{Balance, balance, confirms, print_certificate, print_plan};
use std::alloc::Global;
use std::test::Fail;

// Whether no number is above the next.
fn never_falls(xs: &[i64]) -> bool
    ensures { result ≡ never_falls xs.now }
{
    for i in 1..xs.len() {
        if xs[i - 1] > xs[i] {
            return false;
        }
    }
    true
}

fn balance_of(alloc: Global, xs: &[i64], strips: u32) -> Result<Balance, Fail> {
    if !never_falls(xs) || xs.len() > 1_048_576 || strips == 0 || strips > 64 {
        return Err("no numbers to balance".into());
    }
    let found = balance(alloc, xs, strips)?;
    if !confirms(xs, strips, found.load, &found.proof) {
        return Err("not confirmed".into());
    }
    if found.load < u32::MAX && confirms(xs, strips, found.load + 1, &found.proof) {
        return Err("a greater load is confirmed".into());
    }
    Ok(found)
}

// Numbers, how many strips, and the texts of their cuts and of their certificate.
const BALANCES: [(&[i64], u32, &[u8], &[u8]); 7] = [
    (
        &[
            0, 1_000_000, 2_000_000, 3_000_000, 4_000_000, 5_000_000, 6_000_000,
        ],
        3,
        b"at 0 x 3.000000 6.000000 y\n",
        b"load 3 posts 0.000000 2.000000 4.000000 6.000000\n",
    ),
    (
        &[1_000_000, 1_000_000, 1_000_000, 1_000_000, 2_000_000],
        2,
        b"at 0 x 2.000000 y\n",
        b"load 4 stack 1.000000\n",
    ),
    (&[], 5, b"at 0 x y\n", b"load 0 empty\n"),
    (&[-5], 1, b"at 0 x y\n", b"load 1 stack -0.000005\n"),
    (&[7, 7, 7], 2, b"at 0 x y\n", b"load 3 stack 0.000007\n"),
    (
        &[1, 2, 3],
        8,
        b"at 0 x 0.000002 0.000003 y\n",
        b"load 1 stack 0.000001\n",
    ),
    // The stack stands behind the strips that posts would need.
    (
        &[0, 1, 2, 3, 4, 5, 6, 6],
        4,
        b"at 0 x 0.000002 0.000004 0.000006 y\n",
        b"load 2 stack 0.000006\n",
    ),
];

#[test]
fn balances_worked_by_hand(rt: HostRuntime) -> Result<(), Fail> {
    let alloc = rt.alloc();
    for (xs, strips, plan, certificate) in BALANCES {
        let found = balance_of(alloc, xs, strips)?;
        let mut text = Vec::new(alloc);
        print_plan(found.cuts.as_slice(), &mut text)?;
        assert_eq!(rt; text.as_slice(), plan);
        let mut text = Vec::new(alloc);
        print_certificate(found.load, &found.proof, &mut text)?;
        assert_eq!(rt; text.as_slice(), certificate);
    }
    Ok(())
}

#[test]
fn many_numbers_are_divided_evenly(rt: HostRuntime) -> Result<(), Fail> {
    let alloc = rt.alloc();
    let mut xs = Vec::new(alloc);
    for i in 0..1024 {
        xs.push(i)?;
    }
    let found = balance_of(alloc, xs.as_slice(), 64)?;
    assert_eq!(rt; found.load, 16);
    assert_eq!(rt; found.cuts.as_slice().len(), 63);
    Ok(())
}
