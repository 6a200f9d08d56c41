//! A run by one worker, over a link where letters of one are given.
ghost use Rattle.std.specs.Prelude.{◌≡◌, IfOk, IfSome, map, true};
ghost use Rattle.brace_words.specs.Values.{is_link};
ghost use Rattle.brace_pieces.specs.Settings.{LawfulSetting};
ghost use Rattle.brace_crew.specs.Came.{CameTo};
ghost use Rattle.brace_top.specs.inner.Fates.{fate_of};

use brace_crew::{CrewFault, crew_run_on_links, crew_run_on_one};
use brace_desk::Publisher;
use brace_num::NoMemory;
use brace_pieces::{Counts, Setting};
use brace_wire::Fate;
use std::alloc::Global;

/// What becomes of a sending, by its letter.
fn fate_of(letter: u8) -> Fate
    ensures { result ≡ fate_of letter }
{
    match letter {
        b'l' => Fate::Lose,
        b'd' => Fate::Deliver,
        b't' => Fate::Twice,
        _ => Fate::After,
    }
}

/// What becomes of sendings in turn, by the letters of a link.
fn fates_of(alloc: Global, letters: &[u8]) -> Result<Vec<Fate>, NoMemory>
    ensures { IfOk result (λ fates. fates.items ≡ map fate_of letters.now) }
{
    let mut fates = Vec::with_capacity(alloc, letters.len())?;
    for letter in letters {
        fates.push(fate_of(*letter))?;
    }
    Ok(fates)
}

/// Runs the parts of a setting and its publisher on one worker, over a link where letters of one
/// are given.
pub fn crew_run_linked_by<P: Publisher>(
    alloc: Global,
    setting: &Setting,
    order: u64,
    link: Option<&str>,
    publisher: P,
) -> (P, Result<Counts, CrewFault>)
    requires lawful { LawfulSetting setting.now }
    requires fits { P.fits publisher setting.now.job.program }
    requires link { IfSome link (λ letters. is_link letters.now ≡ true) }
    ensures came { CameTo P.Publisher setting.now publisher result.0 result.1 }
{
    let Some(letters) = link else {
        return crew_run_on_one(alloc, setting, order, publisher);
    };
    match fates_of(alloc, letters.as_bytes()) {
        Ok(fates) => crew_run_on_links(alloc, setting, order, fates, publisher),
        Err(NoMemory) => (publisher, Err(CrewFault::NoMemory)),
    }
}
