ghost use Rattle.std.specs.Prelude.{◌≡◌};
ghost use Rattle.brace_words.specs.Options.{are_apart, has_its_options, links_one_worker, takes};
ghost use Rattle.brace_words.specs.inner.Bare.{is_bare, is_runless, is_unworked};

use crate::{Line, Mode};
use brace_num::Text;

/// Whether the line has what its mode needs and nothing that its mode does not take, links one
/// worker at most, and does not save worlds and figures under one name.
pub(crate) fn takes(line: &Line) -> bool
    ensures { result ≡ takes line.now }
{
    has_its_options(line) && links_one_worker(line) && are_apart(&line.save, &line.watch)
}

// Whether the line has what its mode needs, and nothing that its mode does not take.
fn has_its_options(line: &Line) -> bool
    ensures { result ≡ has_its_options line.now }
{
    match line.mode {
        Mode::Run => {
            line.script.is_some()
                && line.agents.is_some()
                && line.from.is_none()
                && line.ticks.is_some()
                && line.count.is_none()
                && line.published.is_none()
                && line.strips.is_none()
        }
        Mode::Resume => {
            line.script.is_some()
                && line.agents.is_none()
                && line.from.is_some()
                && line.ticks.is_some()
                && line.count.is_none()
                && line.seed.is_none()
                && line.published.is_none()
                && line.strips.is_none()
        }
        Mode::Check | Mode::Fmt => line.script.is_some() && is_bare(line) && !line.invert,
        Mode::Plan => line.script.is_some() && is_bare(line),
        Mode::Trial => {
            line.script.is_none()
                && line.agents.is_none()
                && line.from.is_none()
                && line.ticks.is_some()
                && line.count.is_some()
                && line.every.is_none()
                && line.cuts.is_none()
                && line.save.is_none()
                && line.link.is_none()
                && line.published.is_none()
                && line.watch.is_none()
                && line.strips.is_none()
        }
        Mode::Audit => {
            line.script.is_some()
                && line.agents.is_some()
                && line.from.is_none()
                && line.ticks.is_some()
                && line.count.is_none()
                && line.published.is_some()
                && line.strips.is_none()
                && !line.invert
                && is_unworked(line)
        }
        Mode::Balance => {
            line.script.is_some()
                && line.agents.is_some()
                && is_runless(line)
                && line.strips.is_some()
                && !line.invert
                && is_unworked(line)
        }
    }
}

// Whether links, if there are any, are for one worker.
fn links_one_worker(line: &Line) -> bool
    ensures { result ≡ links_one_worker line.now }
{
    line.link.is_none() || line.workers.unwrap_or(1) == 1
}

// Whether two names, where both are given, are not the same.
fn are_apart(a: &Option<Text>, b: &Option<Text>) -> bool
    ensures { result ≡ are_apart a.now b.now }
{
    match (a, b) {
        (Some(a), Some(b)) => a.as_bytes() != b.as_bytes(),
        _ => true,
    }
}

// Whether nothing is said but the script and inversion.
fn is_bare(line: &Line) -> bool
    ensures { result ≡ is_bare line.now }
{
    line.agents.is_none() && is_runless(line) && line.strips.is_none() && is_unworked(line)
}

// Whether nothing is said of a run: where it begins, how far it goes, what is published of it.
fn is_runless(line: &Line) -> bool
    ensures { result ≡ is_runless line.now }
{
    line.from.is_none()
        && line.ticks.is_none()
        && line.count.is_none()
        && line.seed.is_none()
        && line.every.is_none()
        && line.published.is_none()
}

// Whether nothing is said of how a run is worked.
fn is_unworked(line: &Line) -> bool
    ensures { result ≡ is_unworked line.now }
{
    line.epoch.is_none()
        && line.cuts.is_none()
        && line.workers.is_none()
        && line.order.is_none()
        && line.save.is_none()
        && !line.stats
        && line.link.is_none()
        && line.watch.is_none()
}
