//! The file in which an end of a run is saved.
ghost use Rattle.std.specs.Prelude.{◌≡◌, ◌≤◌, Some, None, option_map, false, IfOk, OnOk, OnErr, MatchOption};
ghost use Rattle.brace_io.specs.Counts.{Rose};
ghost use Rattle.brace_io.specs.Shelves.{Idle, writes};
ghost use Rattle.brace_desk.specs.Shows.{as_world, saved_world, file_name, saved_file};
ghost use Rattle.brace_desk.specs.Filed.{held_after, stage_after, StopsAt, StopsAtAny};

use crate::Keeper;
use brace_io::{Failed, Shelf, save_whole};
use brace_num::{List, NoMemory, Text};
use brace_pieces::{Setting, Shown};
use brace_save::write_moment;
use itoa::Buffer;
use std::alloc::Global;

/// The name of a file, and its bytes.
pub type File = (Text, List<u8>);

/// The world that is shown last, where it is that of a tick at which an epoch ends.
pub(crate) fn saved_world<'a>(setting: &Setting, tick: u64, shown: &'a [Shown]) -> Option<&'a Shown>
    ensures { MatchOption result (saved_world setting.now tick shown.now ≡ None)
        (λ world. saved_world setting.now tick shown.now ≡ Some (as_world world.now)) }
{
    if !setting.is_end(tick) {
        return None;
    }
    match shown.last() {
        Some(world) if world.tick == tick => Some(world),
        _ => None,
    }
}

/// `NAME.k` for the tick k.
pub(crate) fn file_name(alloc: Global, name: &str, tick: u64) -> Result<Text, NoMemory>
    ensures { IfOk result (λ text. text ≡ file_name name.now tick) }
{
    let mut text = String::new(alloc);
    text.push_str(name)?;
    text.push_str(".")?;
    text.push_str(Buffer::new().format(tick))?;
    Ok(Text::from_string(text))
}

/// The file in which an end is saved, where a name is given and there is a world to be saved.
pub(crate) fn saved_file(
    alloc: Global,
    save: Option<&str>,
    setting: &Setting,
    tick: u64,
    shown: &[Shown],
) -> Result<Option<File>, NoMemory>
    ensures { IfOk result (λ file. file
        ≡ saved_file (option_map (λ name. name.now) save.entry) setting.now tick shown.now) }
{
    let Some(name) = save else {
        return Ok(None);
    };
    let Some(world) = saved_world(setting, tick, shown) else {
        return Ok(None);
    };
    let mut bytes = Vec::new(alloc);
    let job = &setting.job;
    write_moment(
        &mut bytes,
        &job.program,
        tick,
        job.seed,
        &world.agents,
        world.next,
    )?;
    Ok(Some((file_name(alloc, name, tick)?, List::from_vec(bytes))))
}

/// Saves a file.
pub(crate) fn save_file<S: Shelf>(shelf: &mut S, file: &File) -> Result<(), Failed>
    requires { writes (S.stage shelf.old) ≡ false }
    ensures held { OnOk result (S.held shelf.new ≡ held_after (Some file.now) (S.held shelf.old)) }
    ensures idle { OnOk result (S.stage shelf.new ≡ Idle) }
    ensures not_writing { writes (S.stage shelf.new) ≡ false }
    ensures stopped { OnErr result
        (StopsAt (S.held shelf.old) (S.held shelf.new) (S.stage shelf.new) file.now) }
    ensures never_falls { S.faults shelf.old ≤ S.faults shelf.new }
    ensures rose { OnErr result (Rose (S.faults shelf.old) (S.faults shelf.new)) }
{
    save_whole(shelf, file.0.as_str(), file.1.as_slice())
}

/// Saves a file, if there is one.
pub(crate) fn save<K: Keeper>(keeper: &mut K, file: &Option<File>) -> Result<(), Failed>
    ensures held { OnOk result (K.held keeper.new ≡ held_after file.now (K.held keeper.old)) }
    ensures stage { OnOk result (K.stage keeper.new ≡ stage_after file.now (K.stage keeper.old)) }
    ensures stopped { OnErr result
        (StopsAtAny (K.held keeper.old) (K.held keeper.new) (K.stage keeper.new) file.now) }
    ensures never_falls { K.faults keeper.old ≤ K.faults keeper.new }
    ensures rose { OnErr result (Rose (K.faults keeper.old) (K.faults keeper.new)) }
    ensures same_loans { K.loans keeper.new ≡ K.loans keeper.old }
{
    match file {
        Some(file) => keeper.save(file),
        None => Ok(()),
    }
}
