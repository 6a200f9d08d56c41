ghost use Rattle.std.specs.Prelude.{◌≡◌, ◌≤◌, IfSome, true};
ghost use Rattle.brace_words.specs.Values.{is_link};
ghost use Rattle.brace_pieces.specs.Settings.{LawfulSetting};
ghost use Rattle.brace_crew.specs.Came.{CameTo};

use crate::links::crew_run_linked_by;
use brace_crew::{CrewFault, crew_run};
use brace_desk::Publisher;
use brace_io::Gate;
use brace_pieces::{Counts, Setting};
use std::alloc::Global;
use std::sync::Wait;
use std::thread::Threads;

/// The workers of a run: what starts and joins their threads, what a test holds them by, and how
/// many they are, 1 to 16.
#[derive(Clone, Copy)]
pub struct Team<'a, R: Threads + Wait + Sync, G: Gate + Sync> {
    pub rt: &'a R,
    pub gate: &'a G,
    pub workers: u32,
}

/// Runs the parts of a setting and its publisher on a team, in whatever order its threads take, or
/// without a thread, over a link where letters of one are given. What the lanes between them have
/// counted is dropped.
pub fn crew_run_on<R: Threads + Wait + Sync, G: Gate + Sync, P: Publisher + Send>(
    team: &Team<R, G>,
    alloc: Global,
    setting: &Setting,
    order: u64,
    link: Option<&str>,
    publisher: P,
) -> (P, Result<Counts, CrewFault>)
    requires some { 1 ≤ team.now.workers }
    requires few { team.now.workers ≤ 16 }
    requires lawful { LawfulSetting setting.now }
    requires fits { P.fits publisher setting.now.job.program }
    requires link { IfSome link (λ letters. is_link letters.now ≡ true) }
    ensures came { CameTo P.Publisher setting.now publisher result.0 result.1 }
{
    if link.is_some() {
        return crew_run_linked_by(alloc, setting, order, link, publisher);
    }
    let Team { rt, gate, workers } = *team;
    let (publisher, _, came) = crew_run(rt, alloc, setting, workers, order, publisher, gate);
    (publisher, came)
}
