//! Commands worked by hand, and what comes of each: read from a file, given to the top call over
//! files in memory with 1, 2, 3 and 16 workers, and compared.
#![tactic(auto)]

ghost use Rattle.std.specs.Prelude.{◌≡◌};
ghost use Rattle.brace_io.specs.Shelves.{Idle};

mod answer;
mod calls;
mod case;
mod gates;
mod sheet;
mod texts;
mod unfit;

use crate::gates::is_passed;
use crate::sheet::Sheet;
use crate::unfit::Unfit;
use brace_io::{DirShelf, OutSink, Shelf, read_whole, write_whole};
use std::alloc::Global;
use std::process::ExitCode;
use std::str;
use std::sync::Wait;
use std::thread::Threads;

/// The file of the commands, and the most bytes that it may have.
const NAME: &str = "cases";

const MOST_BYTES: u64 = 1_048_576;

/// Gives all commands of the file, and reports how many came to what was worked, group by group.
fn check<R: Threads + Wait + Sync, S: Shelf>(
    rt: &R,
    alloc: Global,
    shelf: &mut S,
) -> Result<String, Unfit>
    requires { S.stage shelf.old ≡ Idle }
{
    let bytes = read_whole(alloc, shelf, NAME, MOST_BYTES)?;
    let text = str::from_utf8(bytes.as_slice())?;
    let mut sheet = Sheet::new(alloc);
    for line in text.lines() {
        sheet.read(rt, alloc, line)?;
    }
    sheet.end_group(rt, alloc)?;
    Ok(sheet.into_report())
}

/// Reports whether benches work side by side, and whether one waits for another between ticks.
fn hold<R: Threads + Wait + Sync>(rt: &R, alloc: Global, report: &mut String) -> Result<(), Unfit> {
    for (holds, text) in [
        ([(0, 0, 1), (1, 1, 2)], "workers work side by side: "),
        (
            [(0, 0, 4), (1, 0, 0)],
            "no worker waits at the end of a tick: ",
        ),
    ] {
        report.push_str(text)?;
        report.push_str(if is_passed(rt, alloc, holds)? {
            "true\n"
        } else {
            "false\n"
        })?;
    }
    Ok(())
}

fn main(rt: HostRuntime) -> ExitCode {
    let alloc = rt.alloc();
    let mut shelf = DirShelf::make(alloc, &rt);
    let mut report = match check(&rt, alloc, &mut shelf) {
        Ok(report) => report,
        Err(Unfit::Unread) => return ExitCode::from(3),
        Err(Unfit::NoMemory) => return ExitCode::from(4),
    };
    if hold(&rt, alloc, &mut report).is_err() {
        return ExitCode::FAILURE;
    }
    let mut out = OutSink::make(rt.stdout());
    match write_whole(&mut out, report.as_bytes()) {
        Ok(()) => ExitCode::SUCCESS,
        Err(_) => ExitCode::FAILURE,
    }
}
