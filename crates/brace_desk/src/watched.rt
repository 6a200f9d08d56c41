//! The file in which the figures of an end of a run are saved.
ghost use Rattle.std.specs.Prelude.{◌≡◌, ◌++◌, option_map, IfOk, OnOk};
ghost use Rattle.std.specs.List.{All};
ghost use Rattle.brace_pieces.specs.Settings.{LawfulSetting};
ghost use Rattle.brace_watch.specs.Watches.{IsWatch};
ghost use Rattle.brace_desk.specs.Watched.{figures_at, figures_text, watched_file};

use crate::File;
use crate::files::{file_name, saved_world};
use crate::rows::is_published;
use brace_num::{List, NoMemory};
use brace_pieces::{Setting, Shown};
use brace_watch::{Watch, print_watched};
use std::alloc::Global;

/// Appends the figures of a world, where its tick is published.
fn append_figures(
    alloc: Global,
    text: &mut Vec<u8>,
    setting: &Setting,
    fresh: bool,
    watches: &[Watch],
    world: &Shown,
) -> Result<(), NoMemory>
    requires lawful { LawfulSetting setting.now }
    requires watches { All (IsWatch setting.now.job.program) watches.now }
    ensures { OnOk result (text.new.items
        ≡ text.old.items ++ figures_at setting.now fresh watches.now world.now) }
{
    let job = &setting.job;
    if !is_published(job, fresh, world.tick) {
        return Ok(());
    }
    let cuts = setting.cuts.cuts_at(world.tick);
    print_watched(
        alloc,
        text,
        &job.program,
        watches,
        cuts,
        world.tick,
        &world.agents,
    )
}

/// The figures of those worlds whose ticks are published.
fn figures_text(
    alloc: Global,
    setting: &Setting,
    fresh: bool,
    watches: &[Watch],
    shown: &[Shown],
) -> Result<Vec<u8>, NoMemory>
    requires lawful { LawfulSetting setting.now }
    requires watches { All (IsWatch setting.now.job.program) watches.now }
    ensures { IfOk result (λ text. text.items
        ≡ figures_text setting.now fresh watches.now shown.now) }
{
    let mut text = Vec::new(alloc);
    for world in shown {
        append_figures(alloc, &mut text, setting, fresh, watches, world)?;
    }
    Ok(text)
}

/// The file of figures of an end, where a name is given and there is a world to be saved.
pub(crate) fn watched_file(
    alloc: Global,
    name: Option<&str>,
    watches: &[Watch],
    fresh: bool,
    setting: &Setting,
    tick: u64,
    shown: &[Shown],
) -> Result<Option<File>, NoMemory>
    requires lawful { LawfulSetting setting.now }
    requires watches { All (IsWatch setting.now.job.program) watches.now }
    ensures { IfOk result (λ file. file ≡ watched_file (option_map (λ name. name.now) name.entry)
        watches.now fresh setting.now tick shown.now) }
{
    let Some(name) = name else {
        return Ok(None);
    };
    if saved_world(setting, tick, shown).is_none() {
        return Ok(None);
    }
    let text = figures_text(alloc, setting, fresh, watches, shown)?;
    Ok(Some((file_name(alloc, name, tick)?, List::from_vec(text))))
}
