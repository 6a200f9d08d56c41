//! The rows of the worlds that are shown.
ghost use Rattle.std.specs.Prelude.{◌≡◌, ◌≤◌, ◌++◌, true, Ok, IfOk, OnOk, OnErr};
ghost use Rattle.brace_io.specs.Counts.{Rose};
ghost use Rattle.brace_io.specs.Sinks.{Gains, GainsFront};
ghost use Rattle.brace_model.specs.Published.{is_published, tick_text};
ghost use Rattle.brace_desk.specs.Shows.{as_world, shown_text};

use brace_io::{Failed, Sink, write_whole};
use brace_model::Job;
use brace_num::NoMemory;
use brace_pieces::Shown;
use brace_rows::print_rows;
use std::alloc::Global;

/// Whether a tick is published.
pub(crate) fn is_published(job: &Job, fresh: bool, tick: u64) -> bool
    ensures { result ≡ is_published job.now fresh tick }
{
    (tick.is_multiple_of(job.every) || tick == job.last) && (fresh || job.first < tick)
}

/// Appends the rows of a world, where its tick is published.
fn append_world(text: &mut Vec<u8>, job: &Job, fresh: bool, world: &Shown) -> Result<(), NoMemory>
    ensures { OnOk result (text.new.items ≡ text.old.items
        ++ tick_text job.now fresh world.now.tick (Ok (as_world world.now))) }
{
    if !is_published(job, fresh, world.tick) {
        return Ok(());
    }
    print_rows(text, &job.program, world.tick, &world.agents)
}

/// The rows of those worlds whose ticks are published.
pub(crate) fn text_of(
    alloc: Global,
    job: &Job,
    fresh: bool,
    shown: &[Shown],
) -> Result<Vec<u8>, NoMemory>
    ensures { IfOk result (λ text. text.items ≡ shown_text job.now fresh shown.now) }
{
    let mut text = Vec::new(alloc);
    for world in shown {
        append_world(&mut text, job, fresh, world)?;
    }
    Ok(text)
}

/// Writes a text whole and flushes it.
pub(crate) fn write_out<O: Sink>(out: &mut O, text: &[u8]) -> Result<(), Failed>
    ensures all { OnOk result (Gains (O.written out.old) (O.written out.new) text.now) }
    ensures cleaned { OnOk result (O.clean out.new ≡ true) }
    ensures front { OnErr result (GainsFront (O.written out.old) (O.written out.new) text.now) }
    ensures never_falls { O.faults out.old ≤ O.faults out.new }
    ensures rose { OnErr result (Rose (O.faults out.old) (O.faults out.new)) }
{
    write_whole(out, text)?;
    out.flush()
}
