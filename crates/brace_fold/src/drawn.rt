ghost use Rattle.std.specs.Prelude.{◌≡◌, ◌≤◌, ◌^◌, List, pos, map, IfOk};
ghost use Rattle.std.specs.List.{All};
ghost use Rattle.brace_draw.specs.Draw.{draw_value};
ghost use Rattle.brace_model.specs.declared.world.Agent.{Agent};
ghost use Rattle.brace_fold.specs.inner.Asks.{AreDrawn, lent, made};

use crate::columns::id_column;
use crate::sites::query_sites;
use brace_code::{Draws, Redo};
use brace_draw::Drawer;
use brace_model::{Agent, Program};
use brace_num::List;
use std::alloc::Global;

/// The draws of a site.
#[derive(Drop)]
pub struct Drawn {
    pub site: u32,
    pub words: List<i64>,
}

/// The draws of agents at a site.
fn drawn_at(
    alloc: Global,
    drawer: &Drawer,
    tick: u64,
    site: u32,
    ids: &[u64],
) -> Result<Drawn, Redo>
    requires { tick ≤ 2 ^ 32 }
    ensures site { IfOk result (λ drawn. drawn.site ≡ site) }
    ensures words { IfOk result (λ drawn. drawn.words
        ≡ map (λ id. pos (draw_value drawer.now.seed tick id site)) ids.now) }
{
    let mut words = vec![in alloc; 0i64; ids.len()]?;
    drawer.column(tick, site, ids, &mut words);
    Ok(Drawn {
        site,
        words: List::from_vec(words),
    })
}

/// The draws of agents at two sites.
fn drawn_at_two(
    alloc: Global,
    drawer: &Drawer,
    tick: u64,
    sites: (u32, u32),
    ids: &[u64],
) -> Result<(Drawn, Drawn), Redo>
    requires { tick ≤ 2 ^ 32 }
    ensures sites { IfOk result (λ two. (two.0.site ≡ sites.0) × (two.1.site ≡ sites.1)) }
    ensures first { IfOk result (λ two. two.0.words
        ≡ map (λ id. pos (draw_value drawer.now.seed tick id sites.0)) ids.now) }
    ensures second { IfOk result (λ two. two.1.words
        ≡ map (λ id. pos (draw_value drawer.now.seed tick id sites.1)) ids.now) }
{
    let mut first = vec![in alloc; 0i64; ids.len()]?;
    let mut second = vec![in alloc; 0i64; ids.len()]?;
    drawer.columns(tick, sites, ids, &mut first, &mut second);
    let first = Drawn {
        site: sites.0,
        words: List::from_vec(first),
    };
    let second = Drawn {
        site: sites.1,
        words: List::from_vec(second),
    };
    Ok((first, second))
}

/// The draws of the agents of ids at some sites, made two by two.
pub fn drawn_of(
    alloc: Global,
    seed: u64,
    tick: u64,
    sites: &[u32],
    ids: &[u64],
) -> Result<Vec<Drawn>, Redo>
    requires { tick ≤ 2 ^ 32 }
    ensures { IfOk result (λ all. (agents : List Agent) → ids.now ≡ map (λ a. a.id) agents
        → All (AreDrawn seed tick agents) all.items) }
{
    let drawer = Drawer::make(seed);
    let mut all = Vec::with_capacity(alloc, sites.len())?;
    let mut rest = sites;
    while let [one, other, more @ ..] = rest {
        let (first, second) = drawn_at_two(alloc, &drawer, tick, (*one, *other), ids)?;
        all.push(first)?;
        all.push(second)?;
        rest = more;
    }
    for last in rest {
        all.push(drawn_at(alloc, &drawer, tick, *last, ids)?)?;
    }
    Ok(all)
}

/// The draws of agents at some sites.
pub fn drawn_for(
    alloc: Global,
    seed: u64,
    tick: u64,
    sites: &[u32],
    rows: &[&Agent],
) -> Result<Vec<Drawn>, Redo>
    requires { tick ≤ 2 ^ 32 }
    ensures { IfOk result (λ all.
        All (AreDrawn seed tick (map (λ r. r.now) rows.now)) all.items) }
{
    let ids = id_column(alloc, rows)?;
    drawn_of(alloc, seed, tick, sites, &ids)
}

/// The draws of the agents of ids at the sites of the queries of a program.
pub fn all_drawn(
    alloc: Global,
    program: &Program,
    seed: u64,
    tick: u64,
    ids: &[u64],
) -> Result<Vec<Drawn>, Redo>
    requires { tick ≤ 2 ^ 32 }
    ensures { IfOk result (λ all. (agents : List Agent) → ids.now ≡ map (λ a. a.id) agents
        → All (AreDrawn seed tick agents) all.items) }
{
    let mut sites = Vec::new(alloc);
    query_sites(program, &mut sites)?;
    drawn_of(alloc, seed, tick, &sites, ids)
}

/// Draws as columns that lanes read.
pub fn lent<'a>(alloc: Global, all: &'a [Drawn]) -> Result<Vec<Draws<'a>>, Redo>
    ensures { IfOk result (λ draws. map lent draws.items ≡ map made all.now) }
{
    let mut draws = Vec::with_capacity(alloc, all.len())?;
    for one in all {
        draws.push(Draws {
            site: one.site,
            words: one.words.as_slice(),
        })?;
    }
    Ok(draws)
}
