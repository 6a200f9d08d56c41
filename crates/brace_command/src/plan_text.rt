//! The text that tells how a script is run.
ghost use Rattle.std.specs.Prelude.{◌≡◌, ◌++◌, ◌<◌, flat_map, length, slice_get, IfOk, OnOk};
ghost use Rattle.brace_model.specs.Lawful.{LawfulProgram};
ghost use Rattle.brace_command.specs.PlanText.{class_line, loop_line, name_of_class, name_of_effect, place_text, plan_text, range_line, remote_line, remote_word, site_line, site_lines, target_text};

use crate::listing::{Remote, remotes};
use crate::places::{column_number, line_number};
use brace_invert::range;
use brace_model::{Class, Effect, Program};
use brace_num::{NoMemory, print_count, print_fixed};
use brace_plan::{Loop, plan};
use std::alloc::Global;

/// A place of a script behind a text.
fn add_place(out: &mut Vec<u8>, src: &[u8], at: u32) -> Result<(), NoMemory>
    ensures { OnOk result (out.new.items ≡ out.old.items ++ place_text src.now at) }
{
    print_count(out, line_number(src, at as usize))?;
    out.push(b':')?;
    print_count(out, column_number(src, at as usize))
}

/// The name of a class of a number behind a text.
fn add_class_name(out: &mut Vec<u8>, classes: &[Class], class: u32) -> Result<(), NoMemory>
    ensures { OnOk result (out.new.items
        ≡ out.old.items ++ name_of_class (slice_get classes.now class)) }
{
    match classes.get(class as usize) {
        Some(class) => out.extend_from_slice(class.name.as_bytes())?,
        None => {}
    }
    Ok(())
}

/// The name of an effect by its place behind a text.
fn add_effect_name(out: &mut Vec<u8>, effects: &[Effect], effect: u32) -> Result<(), NoMemory>
    ensures { OnOk result (out.new.items
        ≡ out.old.items ++ name_of_effect (slice_get effects.now effect)) }
{
    match effects.get(effect as usize) {
        Some(effect) => out.extend_from_slice(effect.name.as_bytes())?,
        None => {}
    }
    Ok(())
}

/// A class and an effect of it behind a text.
fn add_target(out: &mut Vec<u8>, classes: &[Class], class: u32, effect: u32) -> Result<(), NoMemory>
    ensures { OnOk result (out.new.items
        ≡ out.old.items ++ target_text (slice_get classes.now class) effect) }
{
    match classes.get(class as usize) {
        Some(class) => {
            out.extend_from_slice(class.name.as_bytes())?;
            out.push(b'.')?;
            add_effect_name(out, class.effects.as_slice(), effect)
        }
        None => Ok(()),
    }
}

fn add_range(out: &mut Vec<u8>, program: &Program, invert: bool) -> Result<(), NoMemory>
    requires { LawfulProgram program.now }
    ensures { OnOk result (out.new.items ≡ out.old.items ++ range_line program.now invert) }
{
    out.extend_from_slice(b"range ")?;
    print_fixed(out, range(program, invert))?;
    out.push(b'\n')?;
    Ok(())
}

fn add_class(out: &mut Vec<u8>, class: &Class) -> Result<(), NoMemory>
    ensures { OnOk result (out.new.items ≡ out.old.items ++ class_line class.now) }
{
    out.extend_from_slice(b"class ")?;
    out.extend_from_slice(class.name.as_bytes())?;
    out.extend_from_slice(b" visible ")?;
    print_fixed(out, class.visible)?;
    out.extend_from_slice(b" reach ")?;
    print_fixed(out, class.reach)?;
    out.push(b'\n')?;
    Ok(())
}

fn add_classes(out: &mut Vec<u8>, classes: &[Class]) -> Result<(), NoMemory>
    ensures { OnOk result (out.new.items ≡ out.old.items ++ flat_map class_line classes.now) }
{
    for class in classes {
        add_class(out, class)?;
    }
    Ok(())
}

fn add_loop(out: &mut Vec<u8>, src: &[u8], program: &Program, l: &Loop) -> Result<(), NoMemory>
    ensures { OnOk result (out.new.items
        ≡ out.old.items ++ loop_line src.now program.now l.now) }
{
    out.extend_from_slice(b"loop ")?;
    add_place(out, src, l.at)?;
    out.push(b' ')?;
    add_class_name(out, program.classes.as_slice(), l.class)?;
    out.extend_from_slice(b" bounds ")?;
    print_count(out, u64::from(l.bounds))?;
    out.push(b'\n')?;
    Ok(())
}

fn add_loops(
    out: &mut Vec<u8>,
    src: &[u8],
    program: &Program,
    loops: &[Loop],
) -> Result<(), NoMemory>
    ensures { OnOk result (out.new.items
        ≡ out.old.items ++ flat_map (loop_line src.now program.now) loops.now) }
{
    for l in loops {
        add_loop(out, src, program, l)?;
    }
    Ok(())
}

fn remote_word(invert: bool) -> &'static [u8]
    ensures { result.now ≡ remote_word invert }
{
    if invert { b"inverted " } else { b"remote " }
}

fn add_remote(
    out: &mut Vec<u8>,
    src: &[u8],
    program: &Program,
    invert: bool,
    remote: &Remote,
) -> Result<(), NoMemory>
    ensures { OnOk result (out.new.items
        ≡ out.old.items ++ remote_line src.now program.now invert remote.now) }
{
    out.extend_from_slice(remote_word(invert))?;
    add_place(out, src, remote.at)?;
    out.push(b' ')?;
    add_target(out, program.classes.as_slice(), remote.class, remote.effect)?;
    out.push(b'\n')?;
    Ok(())
}

fn add_remotes(
    out: &mut Vec<u8>,
    src: &[u8],
    program: &Program,
    invert: bool,
    remotes: &[Remote],
) -> Result<(), NoMemory>
    ensures { OnOk result (out.new.items
        ≡ out.old.items ++ flat_map (remote_line src.now program.now invert) remotes.now) }
{
    for remote in remotes {
        add_remote(out, src, program, invert, remote)?;
    }
    Ok(())
}

fn add_site(out: &mut Vec<u8>, src: &[u8], sites: &[u32], number: usize) -> Result<(), NoMemory>
    requires { number < length sites.now }
    ensures { OnOk result (out.new.items
        ≡ out.old.items ++ site_line src.now sites.now number) }
{
    out.extend_from_slice(b"site ")?;
    print_count(out, number as u64)?;
    out.push(b' ')?;
    add_place(out, src, sites[number])?;
    out.push(b'\n')?;
    Ok(())
}

#[tactic(auto, using(crate::proofs::ListingLemmas::numbered_next))]
fn add_sites(out: &mut Vec<u8>, src: &[u8], sites: &[u32]) -> Result<(), NoMemory>
    ensures { OnOk result (out.new.items ≡ out.old.items ++ site_lines src.now sites.now) }
{
    for number in 0..sites.len() {
        add_site(out, src, sites, number)?;
    }
    Ok(())
}

/// How a lawful program of a script is run, with inversion or without.
pub fn plan_text(
    alloc: Global,
    src: &[u8],
    program: &Program,
    invert: bool,
) -> Result<Vec<u8>, NoMemory>
    requires { LawfulProgram program.now }
    ensures { IfOk result (λ text. text.items ≡ plan_text src.now program.now invert) }
{
    let loops = plan(alloc, program)?.loops(alloc)?;
    let remotes = remotes(alloc, program)?;
    let mut out = Vec::new(alloc);
    add_range(&mut out, program, invert)?;
    add_classes(&mut out, program.classes.as_slice())?;
    add_loops(&mut out, src, program, loops.as_slice())?;
    add_remotes(&mut out, src, program, invert, remotes.as_slice())?;
    add_sites(&mut out, src, program.sites.as_slice())?;
    Ok(out)
}
