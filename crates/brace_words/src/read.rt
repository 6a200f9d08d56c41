ghost use Rattle.std.specs.Prelude.{◌≡◌, IfErr, IfOk, None, Some, map, string_bytes, true};
ghost use Rattle.brace_words.specs.Lines.{IsInRange, line_found, line_of};
ghost use Rattle.brace_words.specs.Options.{takes};
ghost use Rattle.brace_words.specs.inner.Getters.{found_in};

use crate::command::command;
use crate::mode::mode_named;
use crate::options::takes;
use crate::values::{is_set, link_of, name_of, number_of, small};
use crate::{Line, LineFault};
use clap::ArgMatches;
use clap::error::ErrorKind;
use std::alloc::Global;

/// The greatest last tick.
const TICKS_LIMIT: u64 = 4_294_967_296;

/// The most agents that are made.
const COUNT_LIMIT: u64 = 1_048_576;

/// The most ticks of an epoch.
const EPOCH_LIMIT: u64 = 16;

/// The most workers.
const WORKERS_LIMIT: u64 = 16;

/// The most strips.
const STRIPS_LIMIT: u64 = 64;

/// The line that the words after the program's name are.
///
/// `Usage` exactly where they are none: clap refuses them, they name no mode, lack an option that
/// the mode needs, have one that it does not take, give an option what is no value of it, ask for
/// links with more than one worker, or name the same for `--save` and for `--watch`.
pub fn read_line(alloc: Global, words: &[String]) -> Result<Line, LineFault>
    ensures line { IfOk result (λ line. line_of (map string_bytes words.now) ≡ Some line) }
    ensures usage { IfErr result (λ fault. fault ≡ LineFault.Usage
        → line_of (map string_bytes words.now) ≡ None) }
    ensures taken { IfOk result (λ line. takes line ≡ true) }
    ensures bounds { IfOk result IsInRange }
{
    let Ok(command) = command(alloc) else {
        return Err(LineFault::NoMemory);
    };
    let matches = match command.try_get_matches_from(words) {
        Ok(matches) => matches,
        Err(error) => match error.kind() {
            ErrorKind::OutOfMemory => return Err(LineFault::NoMemory),
            _ => return Err(LineFault::Usage),
        },
    };
    let line = line_found(alloc, &matches)?;
    if takes(&line) {
        Ok(line)
    } else {
        Err(LineFault::Usage)
    }
}

// The line that clap found, whatever its mode takes.
fn line_found(alloc: Global, matches: &ArgMatches<'_>) -> Result<Line, LineFault>
    ensures line { IfOk result (λ line. line_found (found_in matches.now) ≡ Some line) }
    ensures usage { IfErr result (λ fault. fault ≡ LineFault.Usage
        → line_found (found_in matches.now) ≡ None) }
    ensures bounds { IfOk result IsInRange }
{
    let Some(name) = matches.get_str("MODE") else {
        return Err(LineFault::Usage);
    };
    let Some(mode) = mode_named(name) else {
        return Err(LineFault::Usage);
    };
    Ok(Line {
        mode,
        script: name_of(alloc, matches, "script")?,
        agents: name_of(alloc, matches, "agents")?,
        from: name_of(alloc, matches, "from")?,
        ticks: number_of(matches, "ticks", 0, TICKS_LIMIT)?,
        count: small(number_of(matches, "count", 0, COUNT_LIMIT)?),
        seed: number_of(matches, "seed", 0, u64::MAX)?,
        every: number_of(matches, "every", 1, TICKS_LIMIT)?,
        epoch: number_of(matches, "epoch", 1, EPOCH_LIMIT)?,
        cuts: name_of(alloc, matches, "cuts")?,
        workers: small(number_of(matches, "workers", 1, WORKERS_LIMIT)?),
        order: number_of(matches, "order", 0, u64::MAX)?,
        invert: is_set(matches, "invert"),
        save: name_of(alloc, matches, "save")?,
        stats: is_set(matches, "stats"),
        link: link_of(alloc, matches, "link")?,
        published: name_of(alloc, matches, "published")?,
        watch: name_of(alloc, matches, "watch")?,
        strips: small(number_of(matches, "strips", 1, STRIPS_LIMIT)?),
    })
}
