// What no clause says: totals and entries of values worked by hand, among them sums that no 64 bits
// hold. Callers show what `join`, `add` and `merge` ask from their clauses and the laws.
ghost use Rattle.std.specs.Prelude.{◌≡◌, ◌≤◌, ◌^◌, IsTrue, IfOk, length, map};
ghost use Rattle.std.specs.Int.{w64};
ghost use Rattle.std.specs.Int.RustNames.{FitsSigned};
ghost use Rattle.std.specs.List.{All};
ghost use Rattle.brace_model.specs.World.{number};
ghost use Rattle.brace_model.specs.declared.program.Value.TheVariants.{Int, Flag};
ghost use Rattle.brace_comb.specs.Totals.{tally, tally_of, accepts};
ghost use Rattle.brace_comb.specs.Partials.{AreTotalsOf};

use brace_comb::{Combine, Entry, Partial, Total};
use brace_model::{Comb, Value};
use brace_num::NoMemory;
use std::alloc::Global;
use std::test::Fail;

fn folded(comb: Comb, values: &[Value]) -> Total
    requires takes { All (λ v. IsTrue (accepts comb v)) values.now }
    requires few { length values.now ≤ 2 ^ 52 }
    ensures { tally result ≡ tally_of comb values.now }
{
    let mut total = Total::identity(comb);
    for v in values {
        total.join(&Total::of(comb, *v));
    }
    total
}

/// A value said to an effect of an agent.
#[derive(Clone, Copy, Drop)]
struct Said {
    target: u64,
    field: u32,
    value: Value,
}

/// What some values come to, where all effects have one combinator.
fn partial_of(alloc: Global, comb: Comb, said: &[Said]) -> Result<Partial, NoMemory>
    requires takes { All (λ s. IsTrue (accepts comb s.value)) said.now }
    requires fit { All (λ s. FitsSigned w64 (number s.value)) said.now }
    requires few { length said.now ≤ 2 ^ 51 }
    ensures { IfOk result (λ partial. AreTotalsOf (λ t f. comb)
        (map (λ s. record { target = s.target; field = s.field; value = s.value }) said.now)
        partial) }
{
    let mut partial = Partial::make(alloc);
    for s in said {
        partial.add(s.target, s.field, &Total::of(comb, s.value))?;
    }
    Ok(partial)
}

/// Whether two parts of the values come to these entries, the second merged to the first and the
/// first to the second.
fn come_to(
    alloc: Global,
    comb: Comb,
    a: &[Said],
    b: &[Said],
    wanted: &[Entry],
) -> Result<bool, NoMemory>
    requires first_takes { All (λ s. IsTrue (accepts comb s.value)) a.now }
    requires first_fit { All (λ s. FitsSigned w64 (number s.value)) a.now }
    requires first_few { length a.now ≤ 2 ^ 51 }
    requires second_takes { All (λ s. IsTrue (accepts comb s.value)) b.now }
    requires second_fit { All (λ s. FitsSigned w64 (number s.value)) b.now }
    requires second_few { length b.now ≤ 2 ^ 51 }
{
    let mut ab = partial_of(alloc, comb, a)?;
    let mut ba = partial_of(alloc, comb, b)?;
    let first = partial_of(alloc, comb, a)?;
    let second = partial_of(alloc, comb, b)?;
    ab.merge(second.entries())?;
    ba.merge(first.entries())?;
    Ok(ab.entries() == wanted && ba.entries() == wanted)
}

fn int(target: u64, field: u32, n: i64) -> Said
    ensures target { result.target ≡ target }
    ensures field { result.field ≡ field }
    ensures value { result.value ≡ Int n }
{
    Said {
        target,
        field,
        value: Value::Int(n),
    }
}

fn flag(target: u64, field: u32, b: bool) -> Said
    ensures target { result.target ≡ target }
    ensures field { result.field ≡ field }
    ensures value { result.value ≡ Flag b }
{
    Said {
        target,
        field,
        value: Value::Flag(b),
    }
}

#[test]
fn totals_of_numbers(rt: HostRuntime) {
    let most = Value::Int(i64::MAX);
    let least = Value::Int(i64::MIN);
    let three = Value::Fixed(3_000_000);
    for (values, sum, min, max) in [
        (&[] as &[Value], 0, i64::MAX, i64::MIN),
        (&[three], 3_000_000, 3_000_000, 3_000_000),
        (&[three, Value::Fixed(-1)], 2_999_999, -1, 3_000_000),
        // A part of the sum does not fit 64 bits, and the sum does.
        (&[most, most, least, least], -2, i64::MIN, i64::MAX),
        // Neither fits.
        (
            &[most, most, most],
            27_670_116_110_564_327_421,
            i64::MAX,
            i64::MAX,
        ),
        (
            &[least, least],
            -18_446_744_073_709_551_616,
            i64::MIN,
            i64::MIN,
        ),
    ] {
        let count = values.len() as u64;
        let found = [
            folded(Comb::Sum, values),
            folded(Comb::Min, values),
            folded(Comb::Max, values),
            folded(Comb::Count, values),
        ];
        let wanted = [
            Total::Sum(sum, count),
            Total::Least(min, count),
            Total::Greatest(max, count),
            Total::Count(count),
        ];
        assert_eq!(rt; found, wanted);
    }
}

#[test]
fn totals_of_flags(rt: HostRuntime) {
    let no = Value::Flag(false);
    let yes = Value::Flag(true);
    for (values, any) in [
        (&[] as &[Value], false),
        (&[no], false),
        (&[yes, no], true),
        (&[no, yes], true),
    ] {
        let count = values.len() as u64;
        let total = folded(Comb::Or, values);
        let found = (total, total.number(), folded(Comb::Count, values).number());
        let wanted = (Total::Any(any, count), i128::from(any), i128::from(count));
        assert_eq!(rt; found, wanted);
    }
}

/// The entries of the effects that the test says values to.
fn entries_of([a, b, c]: [Total; 3]) -> [Entry; 3] {
    let entry = |target, field, total| Entry {
        target,
        field,
        total,
    };
    [entry(2, 0, a), entry(7, 0, b), entry(7, 1, c)]
}

#[test]
fn values_come_to_one_entry_for_each_effect(rt: HostRuntime) -> Result<(), Fail> {
    let alloc = rt.alloc();
    let most = i64::MAX;
    let a = [int(7, 1, most), int(2, 0, 3), int(7, 0, -1)];
    let b = [int(7, 1, most), int(2, 0, 4), int(7, 1, 1)];
    let sums = [
        Total::Sum(7, 2),
        Total::Sum(-1, 1),
        Total::Sum(18_446_744_073_709_551_615, 3),
    ];
    let least = [Total::Least(3, 2), Total::Least(-1, 1), Total::Least(1, 3)];
    for (comb, totals) in [(Comb::Sum, sums), (Comb::Min, least)] {
        let wanted = entries_of(totals);
        assert!(rt; come_to(alloc, comb, &a, &b, &wanted)?);
    }
    let c = [flag(7, 1, false), flag(2, 0, false), flag(7, 0, true)];
    let d = [flag(7, 1, true), flag(2, 0, false), flag(7, 1, false)];
    let any = [
        Total::Any(false, 2),
        Total::Any(true, 1),
        Total::Any(true, 3),
    ];
    let counts = [Total::Count(2), Total::Count(1), Total::Count(3)];
    for (comb, totals) in [(Comb::Or, any), (Comb::Count, counts)] {
        let wanted = entries_of(totals);
        assert!(rt; come_to(alloc, comb, &c, &d, &wanted)?);
    }
    let one = [Entry {
        target: 7,
        field: 1,
        total: Total::Greatest(most, 1),
    }];
    assert!(rt; come_to(alloc, Comb::Max, &b[..1], &[], &one)?);
    Ok(())
}
