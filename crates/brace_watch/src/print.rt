//! The lines that tell figures.
ghost use Rattle.std.specs.Prelude.{◌≡◌, ◌++◌, ◌∷◌, ◌&&◌, ◌==◌, map, flat_map, OnOk, OnErr};
ghost use Rattle.std.specs.List.{All};
ghost use Rattle.brace_num.specs.Spelling.{canonical_int};
ghost use Rattle.brace_cuts.specs.Space.{LawfulCuts};
ghost use Rattle.brace_comb.specs.Totals.{tally};
ghost use Rattle.brace_watch.specs.Watches.{IsWatch};
ghost use Rattle.brace_watch.specs.Texts.{type_of, is_extreme, number_text, figure_text, line_text, watched_text};

use crate::count::figures_of;
use crate::name::{states_in, type_at};
use crate::rows::parted;
use crate::{Figures, Watch};
use brace_comb::{Combine, Total};
use brace_cuts::Cuts;
use brace_model::{Herd, Program, Ty};
use brace_num::{NoMemory, print_count, print_wide_fixed};
use itoa::Buffer;
use std::alloc::Global;

/// Appends the lines of a tick: for each watch `tick,n,V,V0,..` with its number from 1, the figure
/// of all agents, and those of the boxes that cuts make. The least and the greatest value of no
/// agent are `none`. A refused print leaves `out` as it was.
///
/// It finds the box of each agent once, and reads each state that watches name once.
pub fn print_watched(
    alloc: Global,
    out: &mut Vec<u8>,
    program: &Program,
    watches: &[Watch],
    cuts: &Cuts,
    tick: u64,
    agents: &Herd,
) -> Result<(), NoMemory>
    requires watches { All (IsWatch program.now) watches.now }
    requires cuts { LawfulCuts cuts.now }
    ensures printed { OnOk result (out.new.items ≡ out.old.items
        ++ watched_text program.now watches.now cuts.now tick agents.now) }
    ensures kept { OnErr result (out.new.items ≡ out.old.items) }
{
    let mut boxes = parted(alloc, program, cuts, agents)?;
    let mut lines = Vec::new(alloc);
    for (place, watch) in watches.iter().enumerate() {
        let found = figures_of(alloc, watch, &mut boxes)?;
        append_line(
            &mut lines,
            type_of(program, watch),
            tick,
            place as u64 + 1,
            &found,
        )?;
    }
    out.extend_from_slice(&lines)?;
    Ok(())
}

/// The type of what is watched: that of the state, and int where agents are counted.
fn type_of(program: &Program, watch: &Watch) -> Ty
    ensures { result ≡ type_of program.now watch.now }
{
    match watch.field {
        None => Ty::Int,
        Some(place) => type_at(states_in(program, watch.class), place),
    }
}

fn append_line(
    out: &mut Vec<u8>,
    ty: Ty,
    tick: u64,
    number: u64,
    found: &Figures,
) -> Result<(), NoMemory>
    ensures printed { OnOk result (out.new.items ≡ out.old.items
        ++ line_text ty tick number (tally found.now.whole) (map tally found.now.boxes.items)) }
{
    print_count(out, tick)?;
    out.extend_from_slice(b",")?;
    print_count(out, number)?;
    append_figure(out, ty, &found.whole)?;
    append_figures(out, ty, found.boxes.as_slice())?;
    out.extend_from_slice(b"\n")?;
    Ok(())
}

fn append_figures(out: &mut Vec<u8>, ty: Ty, totals: &[Total]) -> Result<(), NoMemory>
    ensures printed { OnOk result (out.new.items
        ≡ out.old.items ++ flat_map (λ f. 44 ∷ figure_text ty f) (map tally totals.now)) }
{
    for total in totals {
        append_figure(out, ty, total)?;
    }
    Ok(())
}

// A comma and a figure.
fn append_figure(out: &mut Vec<u8>, ty: Ty, total: &Total) -> Result<(), NoMemory>
    ensures printed { OnOk result (out.new.items
        ≡ out.old.items ++ 44 ∷ figure_text ty (tally total.now)) }
{
    out.extend_from_slice(b",")?;
    if is_of_none(total) {
        out.extend_from_slice(b"none")?;
        Ok(())
    } else {
        append_number(out, ty, total.number())
    }
}

// Whether it is the least or the greatest value of no agent.
fn is_of_none(total: &Total) -> bool
    ensures { result ≡ (is_extreme (tally total.now).comb && (tally total.now).count == 0) }
{
    match total {
        Total::Least(_, count) | Total::Greatest(_, count) => *count == 0,
        _ => false,
    }
}

fn append_number(out: &mut Vec<u8>, ty: Ty, n: i128) -> Result<(), NoMemory>
    ensures printed { OnOk result (out.new.items ≡ out.old.items ++ number_text ty n) }
{
    match ty {
        Ty::Fixed => print_wide_fixed(out, n),
        Ty::Int | Ty::Bool => append_int(out, n),
    }
}

fn append_int(out: &mut Vec<u8>, n: i128) -> Result<(), NoMemory>
    ensures printed { OnOk result (out.new.items ≡ out.old.items ++ canonical_int n) }
{
    out.extend_from_slice(Buffer::new().format(n).as_bytes())?;
    Ok(())
}
