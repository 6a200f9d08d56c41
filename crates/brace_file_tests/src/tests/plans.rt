ghost use Rattle.std.specs.Prelude.{IfOk};
ghost use Rattle.brace_cuts.specs.Space.{LawfulCuts};

use brace_cuts::{CutPlan, Cuts, PlanFault, PlanKind, read_plan};
use brace_num::List;
use std::alloc::Global;
use std::test::Fail;

/// Lawful cuts.
pub fn cuts_of(alloc: Global, xs: &[i64], ys: &[i64]) -> Result<Cuts, Fail>
    ensures { IfOk result LawfulCuts }
{
    let cuts = Cuts {
        xs: List::from_vec(Vec::from_slice(alloc, xs)?),
        ys: List::from_vec(Vec::from_slice(alloc, ys)?),
    };
    if !cuts.are_lawful() {
        return Err("no cuts".into());
    }
    Ok(cuts)
}

fn plan_of(alloc: Global, text: &[u8], epoch: u64) -> Result<Result<CutPlan, PlanFault>, Fail> {
    if epoch == 0 {
        return Err("no epoch".into());
    }
    Ok(read_plan(alloc, text, epoch))
}

// A plan's lines: tick, cuts along x, cuts along y.
type Lines<'a> = &'a [(u64, &'a [i64], &'a [i64])];

fn is_plan(plan: &CutPlan, wanted: Lines) -> bool {
    let lines = plan.lines.as_slice();
    if lines.len() != wanted.len() {
        return false;
    }
    for (line, (tick, xs, ys)) in lines.iter().zip(wanted) {
        if line.tick != *tick || line.cuts.xs.as_slice() != *xs || line.cuts.ys.as_slice() != *ys {
            return false;
        }
    }
    true
}

// Texts with the length of an epoch, and their plans.
const PLANS: [(&[u8], u64, Lines); 7] = [
    (b"at 0 x y", 1, &[(0, &[], &[])]),
    (b"at 0 x 2.0 y\n", 16, &[(0, &[2_000_000], &[])]),
    (
        b"at 0 x y -0.000001 0 3",
        16,
        &[(0, &[], &[-1, 0, 3_000_000])],
    ),
    (b"at 00 x -0 y 01.5", 3, &[(0, &[0], &[1_500_000])]),
    (
        b"at 0 x 1 y\nat 16 x -1 y",
        16,
        &[(0, &[1_000_000], &[]), (16, &[-1_000_000], &[])],
    ),
    (
        b"at 0 x 1 y 2\nat 3 x 1 y 2\nat 4294967295 x 5 y 6\n",
        3,
        &[
            (0, &[1_000_000], &[2_000_000]),
            (3, &[1_000_000], &[2_000_000]),
            (4_294_967_295, &[5_000_000], &[6_000_000]),
        ],
    ),
    (
        b"at 0 x -9223372036854.775807 9223372036854.775807 y\nat 4294967296 x 1 2 y\n",
        16,
        &[
            (0, &[-i64::MAX, i64::MAX], &[]),
            (4_294_967_296, &[1_000_000, 2_000_000], &[]),
        ],
    ),
];

// Texts with the length of an epoch, and the first faulty line with its first fault.
const REFUSALS: [(&[u8], u64, u64, PlanKind); 44] = [
    (b"", 1, 1, PlanKind::BadLine),
    (b"\n", 1, 1, PlanKind::BadLine),
    (b"\nat 0 x y", 1, 1, PlanKind::BadLine),
    (b"at 0 x y\n\n", 1, 2, PlanKind::BadLine),
    (b"at 0 x y\n\nat 1 x y", 1, 2, PlanKind::BadLine),
    (b"at 0 x y\r\n", 1, 1, PlanKind::BadLine),
    (b"at 0 x y ", 1, 1, PlanKind::BadLine),
    (b" at 0 x y", 1, 1, PlanKind::BadLine),
    (b"at  0 x y", 1, 1, PlanKind::BadLine),
    (b"at\t0 x y", 1, 1, PlanKind::BadLine),
    (b"At 0 x y", 1, 1, PlanKind::BadLine),
    (b"at", 1, 1, PlanKind::BadLine),
    (b"at 0", 1, 1, PlanKind::BadLine),
    (b"at 0 x", 1, 1, PlanKind::BadLine),
    (b"at 0 x 1", 1, 1, PlanKind::BadLine),
    (b"at 0 y x", 1, 1, PlanKind::BadLine),
    (b"at 0 y 1 x 1", 1, 1, PlanKind::BadLine),
    (b"at 0 x y y", 1, 1, PlanKind::BadLine),
    (b"at 0 x 1 y 2 y 3", 1, 1, PlanKind::BadLine),
    (b"at -0 x y", 1, 1, PlanKind::BadLine),
    (b"at 0.0 x y", 1, 1, PlanKind::BadLine),
    (b"at x y", 1, 1, PlanKind::BadLine),
    (b"at 0 x 1 y\nat 4294967297 x 1 y", 1, 2, PlanKind::BadLine),
    (b"at 0 x 1.0000001 y", 1, 1, PlanKind::BadLine),
    (b"at 0 x 1 y 1.", 1, 1, PlanKind::BadLine),
    (b"at 0 x +1 y", 1, 1, PlanKind::BadLine),
    (b"at 0 x y 9223372036854.775808", 1, 1, PlanKind::BadLine),
    // The least number of 64 bits is no cut.
    (b"at 0 x -9223372036854.775808 y", 1, 1, PlanKind::BadLine),
    (b"at 0 x 2 1 y", 16, 1, PlanKind::NotRising),
    (b"at 0 x 2 2 y", 16, 1, PlanKind::NotRising),
    (b"at 0 x y 1 2 2.000000", 1, 1, PlanKind::NotRising),
    (b"at 0 x 3 y 1 0 2", 1, 1, PlanKind::NotRising),
    (b"at 1 x y", 1, 1, PlanKind::NotRising),
    (b"at 0 x y\nat 0 x y", 1, 2, PlanKind::NotRising),
    (b"at 0 x y\nat 5 x y\nat 4 x y\n", 1, 3, PlanKind::NotRising),
    (
        b"at 0 x y\nat 5 x y\nat 10 x y\n",
        10,
        2,
        PlanKind::OffEpoch,
    ),
    (b"at 0 x 1 y\nat 2 x 1 2 y", 2, 2, PlanKind::OtherCount),
    (b"at 0 x 1 y\nat 2 x y 1", 2, 2, PlanKind::OtherCount),
    (
        b"at 0 x 1 y\nat 2 x 1 y\nat 4 x 1 y 1",
        2,
        3,
        PlanKind::OtherCount,
    ),
    // Of two faults of a line the first kind counts, and of two lines the first line.
    (b"at 1 x 2 z y", 16, 1, PlanKind::BadLine),
    (b"at 0 x 1 y\nat 3 x 2 1 y", 2, 2, PlanKind::NotRising),
    (b"at 0 x 1 y\nat 3 x 1 2 y", 2, 2, PlanKind::OffEpoch),
    (
        b"at 0 x y\nat 2 x 1 y\nat 2 x y\nz",
        2,
        2,
        PlanKind::OtherCount,
    ),
    (b"at 0 x 2 1 y\n\n", 2, 1, PlanKind::NotRising),
];

#[test]
fn reads_plans(rt: HostRuntime) -> Result<(), Fail> {
    let alloc = rt.alloc();
    for &(text, epoch, wanted) in &PLANS {
        let plan = plan_of(alloc, text, epoch)?.ok().ok_or("a plan")?;
        let copy = plan.copy(alloc)?;
        assert!(rt; is_plan(&plan, wanted) && is_plan(&copy, wanted));
    }
    Ok(())
}

#[test]
fn answers_the_first_fault_of_the_first_faulty_line(rt: HostRuntime) -> Result<(), Fail> {
    let alloc = rt.alloc();
    for &(text, epoch, line, kind) in &REFUSALS {
        let fault = plan_of(alloc, text, epoch)?.err();
        assert_eq!(rt;
            fault,
            Some(PlanFault::Bad(line, kind)),
            "epoch {epoch}, line {line}"
        );
    }
    Ok(())
}

fn push_numbers(alloc: Global, text: &mut String, count: usize) -> Result<(), Fail> {
    for i in 0..count {
        text.push_str(format!(in alloc; " {i}")?.as_str())?;
    }
    Ok(())
}

// A line from tick 0 on, with so many cuts along x and along y.
fn line_with(alloc: Global, xs: usize, ys: usize) -> Result<String, Fail> {
    let mut text = String::new(alloc);
    text.push_str("at 0 x")?;
    push_numbers(alloc, &mut text, xs)?;
    text.push_str(" y")?;
    push_numbers(alloc, &mut text, ys)?;
    Ok(text)
}

// How many cuts along x and along y, and the fault of the line that has them.
const SIZES: [(usize, usize, Option<PlanFault>); 7] = [
    (63, 0, None),
    (0, 63, None),
    (7, 7, None),
    (2, 20, None),
    (64, 0, Some(PlanFault::Bad(1, PlanKind::TooMany))),
    (0, 64, Some(PlanFault::Bad(1, PlanKind::TooMany))),
    (4, 12, Some(PlanFault::Bad(1, PlanKind::TooMany))),
];

#[test]
fn makes_at_most_64_parts(rt: HostRuntime) -> Result<(), Fail> {
    let alloc = rt.alloc();
    for &(xs, ys, wanted) in &SIZES {
        let text = line_with(alloc, xs, ys)?;
        let fault = read_plan(alloc, text.as_bytes(), 1).err();
        assert_eq!(rt; fault, wanted, "{xs} by {ys}");
    }
    Ok(())
}

// Cuts along x and along y, a point, and the part that owns it.
const OWNERS: [(&[i64], &[i64], i64, i64, u32); 24] = [
    (&[], &[], i64::MIN, i64::MAX, 0),
    (&[2_000_000], &[], 0, 0, 0),
    (&[2_000_000], &[], 1_999_999, 0, 0),
    (&[2_000_000], &[], 2_000_000, 0, 1),
    (&[2_000_000], &[], 2_000_001, 0, 1),
    (&[0], &[], -1, 0, 0),
    (&[0], &[], 0, 0, 1),
    (&[1_000_000], &[], 0, 0, 0),
    (&[-1_000_000], &[], 0, 0, 1),
    (&[-2_000_000, 2_000_000], &[], -5_000_000, 0, 0),
    (&[-2_000_000, 2_000_000], &[], 0, 0, 1),
    (&[-2_000_000, 2_000_000], &[], 5_000_000, 0, 2),
    (&[1, 4_000_000], &[], 0, 0, 0),
    (&[1, 4_000_000], &[], 3_000_000, 0, 1),
    (&[1, 4_000_000], &[], 6_000_000, 0, 2),
    (&[10, 20], &[5], 10, 4, 1),
    (&[10, 20], &[5], 9, 5, 3),
    (&[10, 20], &[5], 20, 5, 5),
    (&[], &[5, 6], 0, 5, 1),
    (&[-i64::MAX], &[i64::MAX], i64::MIN, i64::MIN, 0),
    (&[-i64::MAX], &[i64::MAX], -i64::MAX, i64::MAX - 1, 1),
    (&[-i64::MAX], &[i64::MAX], i64::MIN, i64::MAX, 2),
    (&[-i64::MAX], &[i64::MAX], i64::MAX, i64::MAX, 3),
    (&[1, 2, 3, 4, 5, 6, 7], &[], 5, 0, 5),
];

#[test]
fn a_point_on_a_cut_is_on_its_higher_side(rt: HostRuntime) -> Result<(), Fail> {
    let alloc = rt.alloc();
    for &(xs, ys, x, y, wanted) in &OWNERS {
        let cuts = cuts_of(alloc, xs, ys)?;
        assert_eq!(rt; cuts.owner(x, y), wanted, "{x}, {y}");
    }
    Ok(())
}

// The bounds of a part, as they are told: the least x, the greatest, the least y and the greatest.
fn bounds_of(cuts: &Cuts, p: u32) -> Option<[i64; 4]> {
    if cuts.are_lawful() && p < cuts.parts() {
        let area = cuts.area(p);
        Some([area.x0, area.x1, area.y0, area.y1])
    } else {
        None
    }
}

const LOW: i64 = i64::MIN;

const HIGH: i64 = i64::MAX;

// Cuts along x and along y, a part, and its bounds.
const BOUNDS: [(&[i64], &[i64], u32, [i64; 4]); 10] = [
    (&[-5, 7], &[10], 0, [LOW, -6, LOW, 9]),
    (&[-5, 7], &[10], 1, [-5, 6, LOW, 9]),
    (&[-5, 7], &[10], 2, [7, HIGH, LOW, 9]),
    (&[-5, 7], &[10], 3, [LOW, -6, 10, HIGH]),
    (&[-5, 7], &[10], 4, [-5, 6, 10, HIGH]),
    (&[-5, 7], &[10], 5, [7, HIGH, 10, HIGH]),
    (&[-HIGH, HIGH], &[], 0, [LOW, LOW, LOW, HIGH]),
    (&[-HIGH, HIGH], &[], 1, [-HIGH, HIGH - 1, LOW, HIGH]),
    (&[-HIGH, HIGH], &[], 2, [HIGH, HIGH, LOW, HIGH]),
    (&[], &[], 0, [LOW, HIGH, LOW, HIGH]),
];

#[test]
fn areas_include_their_ends(rt: HostRuntime) -> Result<(), Fail> {
    let alloc = rt.alloc();
    for &(xs, ys, p, wanted) in &BOUNDS {
        let cuts = cuts_of(alloc, xs, ys)?;
        assert_eq!(rt; bounds_of(&cuts, p), Some(wanted), "part {p}");
    }
    Ok(())
}

// The gap of two parts, and whether they are near at a distance.
fn gap_of(cuts: &Cuts, p: u32, q: u32, d: i64) -> Option<(u64, bool)> {
    if cuts.are_lawful() && p < cuts.parts() && q < cuts.parts() {
        Some((cuts.gap(p, q), cuts.near(p, q, d)))
    } else {
        None
    }
}

const XS: &[i64] = &[-5, 7, 20];

const YS: &[i64] = &[10, 100];

// Cuts along x and along y, two parts, their gap, a distance, and whether they are near at it.
const GAPS: [(&[i64], &[i64], u32, u32, u64, i64, bool); 14] = [
    (XS, YS, 5, 5, 0, 0, true),
    (XS, YS, 5, 5, 0, -1, false),
    (XS, YS, 0, 1, 1, 0, false),
    (XS, YS, 0, 1, 1, 1, true),
    (XS, YS, 1, 0, 1, HIGH, true),
    (XS, YS, 0, 5, 1, 1, true),
    (XS, YS, 1, 3, 14, 13, false),
    (XS, YS, 1, 3, 14, 14, true),
    (XS, YS, 0, 3, 26, 26, true),
    (XS, YS, 3, 0, 26, 25, false),
    (XS, YS, 1, 9, 91, 90, false),
    (XS, YS, 0, 11, 91, 91, true),
    (XS, YS, 3, 4, 26, 26, true),
    (&[-HIGH, HIGH], &[], 2, 0, u64::MAX, HIGH, false),
];

#[test]
fn gaps_are_those_of_the_nearest_points(rt: HostRuntime) -> Result<(), Fail> {
    let alloc = rt.alloc();
    for &(xs, ys, p, q, gap, d, near) in &GAPS {
        let cuts = cuts_of(alloc, xs, ys)?;
        assert_eq!(rt;
            gap_of(&cuts, p, q, d),
            Some((gap, near)),
            "{p}, {q} at {d}"
        );
    }
    Ok(())
}

// Ticks, and the cuts that hold then.
const HELD: [(u64, &[i64]); 8] = [
    (0, &[1_000_000]),
    (1, &[1_000_000]),
    (2, &[-1_000_000]),
    (3, &[-1_000_000]),
    (7, &[-1_000_000]),
    (8, &[3_000_000]),
    (4_294_967_296, &[3_000_000]),
    (u64::MAX, &[3_000_000]),
];

#[test]
fn cuts_hold_from_the_tick_of_their_line_on(rt: HostRuntime) -> Result<(), Fail> {
    let alloc = rt.alloc();
    let Ok(plan) = read_plan(alloc, b"at 0 x 1 y\nat 2 x -1 y\nat 8 x 3 y", 2) else {
        return Err("no plan".into());
    };
    for &(tick, wanted) in &HELD {
        assert_eq!(rt; plan.cuts_at(tick).xs.as_slice(), wanted, "tick {tick}");
    }
    Ok(())
}
