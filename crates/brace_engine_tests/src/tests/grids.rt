// The agents of areas, on bounds and borders of cells.
ghost use Rattle.std.specs.Prelude.{◌≡◌, ◌<◌, pos, IfOk};

use brace_grid::Grid;
use brace_model::Value;
use brace_num::{Area, NoMemory, Steps};
use brace_test_runs::{agent, program};
use std::alloc::Global;
use std::marker::Brand;
use std::sync::ledger::{Blank, Ledger};
use std::test::Fail;

const UNIT: i64 = 1_000_000;

/// Agents have a place alone.
const PLACED: &str = "class A{public state fixed x;public state fixed y;}";

/// The grid of agents at some places, with cells of one unit.
fn grid_at(alloc: Global, places: &[(i64, i64)]) -> Result<Grid, Fail>
    ensures { IfOk result (λ grid. grid.side ≡ pos 1000000) }
{
    let mut agents = Vec::new(alloc);
    for (id, (x, y)) in places.iter().enumerate() {
        let place = [Value::Fixed(*x), Value::Fixed(*y)];
        agents.push(agent(alloc, id as u64, &place)?)?;
    }
    if agents.len() > 1_048_576 {
        return Err("too many agents".into());
    }
    let program = program(alloc, PLACED)?;
    Ok(Grid::build(alloc, &program, agents.as_slice(), UNIT)?)
}

/// What `probe` puts in place of an index that is there before it.
fn found<L: Ledger>(alloc: Global, grid: &Grid, area: &Area, blank: Blank) -> Result<Vec<u32>, Fail>
    requires blank { (blank.name ≡ L.name) × (blank.parts ≡ L.parts) × (0 < L.parts) }
    requires side { grid.now.side ≡ pos 1000000 }
{
    let width = i128::from(area.x1) - i128::from(area.x0);
    let height = i128::from(area.y1) - i128::from(area.y0);
    if width > 2_000_000 || height > 2_000_000 {
        return Err("a wide area".into());
    }
    let mut out = Vec::new(alloc);
    out.push(77)?;
    let mut steps: Steps<L> = Steps::make(blank);
    grid.probe(area, &mut out, &mut steps)?;
    Ok(out)
}

fn probed(alloc: Global, grid: &Grid, area: &Area) -> Result<Vec<u32>, Fail>
    requires { grid.now.side ≡ pos 1000000 }
{
    found::<Brand>(alloc, grid, area, Blank::new(1))
}

/// The bounds of areas along x and y, and the indices of the agents in them.
type Probes<'a> = &'a [(i64, i64, i64, i64, &'a [u32])];

const PLACES: [(i64, i64); 9] = [
    (0, 0),
    (2_000_000, 0),
    (-1, -1),
    (1_000_000, 1_000_000),
    (0, 0),
    (999_999, 2_000_000),
    (-1_000_000, 0),
    (i64::MAX, i64::MIN),
    (i64::MIN, i64::MAX),
];

const PROBES: Probes = &[
    (0, 2_000_000, 0, 2_000_000, &[0, 1, 3, 4, 5]),
    (0, 1_999_999, 0, 1_999_999, &[0, 3, 4]),
    (1, 2_000_001, 0, 0, &[1]),
    (
        -1_000_000,
        1_000_000,
        -1_000_000,
        1_000_000,
        &[0, 2, 3, 4, 6],
    ),
    (-999_999, 0, -1, -1, &[2]),
    (-1, -1, -1, -1, &[2]),
    (0, 0, 0, 0, &[0, 4]),
    (0, -1, 0, 0, &[]),
    (2_000_000, 0, 2_000_000, 0, &[]),
    (-2_000_000, -1_000_001, 0, 0, &[]),
    (
        i64::MAX - 2_000_000,
        i64::MAX,
        i64::MIN,
        i64::MIN + 2_000_000,
        &[7],
    ),
    (i64::MIN, i64::MIN, i64::MAX, i64::MAX, &[8]),
    (i64::MAX, i64::MIN, i64::MAX, i64::MIN, &[]),
];

/// Places, and probes of their grid. An empty grid holds nothing.
const GRIDS: [(&[(i64, i64)], Probes); 2] = [
    (&PLACES, PROBES),
    (&[], &[(-UNIT, UNIT, -UNIT, UNIT, &[])]),
];

#[test]
fn agents_on_bounds_and_borders_are_found(rt: HostRuntime) -> Result<(), Fail> {
    let alloc = rt.alloc();
    for &(places, probes) in &GRIDS {
        let grid = grid_at(alloc, places)?;
        for (x0, x1, y0, y1, wanted) in probes {
            let area = Area {
                x0: *x0,
                x1: *x1,
                y0: *y0,
                y1: *y1,
            };
            let out = probed(alloc, &grid, &area)?;
            assert_eq!(rt; out.as_slice(), *wanted, "{x0} {x1} {y0} {y1}");
        }
    }
    Ok(())
}

/// 10,000 places along x, 10 units from each to the next.
fn far_apart(alloc: Global) -> Result<Vec<(i64, i64)>, NoMemory> {
    let mut places = Vec::new(alloc);
    for i in 0..10_000u32 {
        places.push((i64::from(i) * 10_000_000, 0))?;
    }
    Ok(places)
}

#[test]
fn one_of_many_in_cells_of_their_own_is_found(rt: HostRuntime) -> Result<(), Fail> {
    let alloc = rt.alloc();
    let places = far_apart(alloc)?;
    let grid = grid_at(alloc, places.as_slice())?;
    let area = Area {
        x0: -UNIT / 2,
        x1: UNIT / 2,
        y0: -UNIT / 2,
        y1: UNIT / 2,
    };
    let out = probed(alloc, &grid, &area)?;
    assert_eq!(rt; out.as_slice(), [0].as_slice());
    Ok(())
}
