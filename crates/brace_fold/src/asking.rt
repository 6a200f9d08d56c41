ghost use Rattle.std.specs.Prelude.{◌≡◌, ◌≤◌, ◌^◌, IsTrue, OnOk};
ghost use Rattle.std.specs.List.{list_all};
ghost use Rattle.brace_model.specs.declared.world.Agent.{Agent};
ghost use Rattle.brace_model.specs.Lawful.{is_lawful_agent};
ghost use Rattle.brace_fold.specs.Rows.{AreRows, rows_in};
ghost use Rattle.brace_fold.specs.inner.Asks.{Asks, AsksIn};
ghost use Rattle.brace_fold.specs.inner.Crowds.{AreOfClass, IsScene, world};
ghost use Rattle.brace_fold.specs.inner.Sights.{AreCells};

use crate::cells::Cells;
use crate::columns::Columns;
use crate::crowd::opening;
use crate::drawn::{all_drawn, lent};
use crate::groups::{by_class, first_group};
use crate::scene::Scene;
use crate::table::Table;
use crate::walk::block;
use brace_code::Redo;
use brace_model::Program;
use brace_plan::Plans;
use std::alloc::Global;

/// Asks agents that are of a class, all at once.
fn ask(
    scene: &Scene,
    plans: &Plans,
    class: u32,
    asking: &[u32],
    heard: &mut Table,
) -> Result<(), Redo>
    requires scene { IsScene scene.now }
    requires program { scene.now.program.now ≡ plans.now }
    requires lawful { IsTrue (list_all (is_lawful_agent plans.now) (world scene.now)) }
    requires of_class { AreOfClass scene.now.classes.now class asking.now }
    ensures { OnOk result ((d : Agent) → Asks scene.now d asking.now heard.old heard.new) }
{
    let Some(told) = plans.told(class) else {
        return Err(Redo);
    };
    let crowd = opening(scene, class, asking, told.constants)?;
    block(scene, told.actions, crowd, heard)?;
    Ok(())
}

/// Asks the agents of rows, those that stand together and are of one class at once.
fn ask_all(scene: &Scene, plans: &Plans, asking: &[u32], heard: &mut Table) -> Result<(), Redo>
    requires scene { IsScene scene.now }
    requires program { scene.now.program.now ≡ plans.now }
    requires lawful { IsTrue (list_all (is_lawful_agent plans.now) (world scene.now)) }
    ensures { OnOk result ((d : Agent) → Asks scene.now d asking.now heard.old heard.new) }
{
    let mut left = asking;
    while !left.is_empty() {
        let group = first_group(scene.classes, left)?;
        ask(scene, plans, group.class, group.rows, heard)?;
        left = group.rest;
    }
    Ok(())
}

/// Asks the agents at some places of columns in the order of cells.
pub fn ask_sorted(
    alloc: Global,
    plans: &Plans,
    program: &Program,
    seed: u64,
    tick: u64,
    columns: &Columns,
    cells: &Cells,
    asking: &[u32],
    said: &mut Table,
) -> Result<(), Redo>
    requires program { program.now ≡ plans.now }
    requires rows { AreRows program.now columns.now }
    requires cells { AreCells program.now (rows_in program.now columns.now) cells.now }
    requires ticks { tick ≤ 2 ^ 32 }
    ensures { OnOk result ((d : Agent) → AsksIn program.now seed tick
        (rows_in program.now columns.now) d asking.now said.old said.new) }
{
    let drawn = all_drawn(alloc, program, seed, tick, columns.ids)?;
    let draws = lent(alloc, &drawn)?;
    let scene = Scene {
        alloc,
        program,
        seed,
        tick,
        states: columns.states,
        classes: columns.classes,
        ids: columns.ids,
        draws: &draws,
        cells,
    };
    let asking = by_class(alloc, columns.classes, asking)?;
    ask_all(&scene, plans, &asking, said)
}
