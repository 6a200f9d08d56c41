//! What a checkpoint tells.
ghost use Rattle.std.specs.Prelude.{◌≡◌, ◌≤◌, ◌<◌, ◌+◌, ◌++◌, ◌∷◌, ℕ, [], List, length, take, map, codes, IfOk, OnOk, Ok, Err, MatchBool};
ghost use Rattle.std.specs.Str.{bytes_eq};
ghost use Rattle.brace_model.specs.declared.program.Program.{Program};
ghost use Rattle.brace_model.specs.declared.world.Agent.{Agent};
ghost use Rattle.brace_model.specs.Lawful.{LawfulProgram};
ghost use Rattle.brace_model.specs.Step.{count_values};
ghost use Rattle.brace_model.specs.World.{IsNumbered};
ghost use Rattle.brace_save.specs.declared.kinds.Point.{Point};
ghost use Rattle.brace_save.specs.declared.kinds.PointFault.{PointFault};
ghost use Rattle.brace_save.specs.declared.kinds.PointFault.TheVariants as fault;
ghost use Rattle.brace_save.specs.Lines.{AreOf, IsRead, IsText, moment_of, moment_told, parts, whole_lines, unfinished};
ghost use Rattle.brace_save.specs.Texts.{Moment, count_line};
ghost use Rattle.brace_save.specs.inner.Spelled.{IsAgentLine};
ghost use Rattle.brace_save.specs.inner.Steps.{IsCountAt, IsHeading, IsFront, MayFollow, line, told, place, version, front_length};

use crate::line::{agent_in, count_in, field_at, is_class_line, is_end_line};
use crate::{Point, PointFault};
use brace_model::{Agent, Herd, Program, World};
use brace_num::NoMemory;
use std::alloc::Global;

const LAST_TICK: u64 = 4_294_967_296;

const MOST_AGENTS: usize = 1_048_576;

const MOST_VALUES: usize = 4_194_304;
/// One more than the greatest id.
const LAST_NEXT: u64 = 9_223_372_036_854_775_808;

/// What the lines before those of classes tell.
#[derive(Clone, Copy, Drop)]
struct Heading {
    tells_next: bool,
    tick: u64,
    seed: u64,
    next: u64,
}

/// What a checkpoint of the program's classes tells, or its first bad line: the first line, ended
/// by its byte 10, with which no checkpoint begins. Where none is bad and the end line is missing
/// the file is Incomplete. It takes time in proportion to the bytes.
pub fn read_checkpoint(alloc: Global, program: &Program, bytes: &[u8]) -> Result<Point, PointFault>
    ensures judged { LawfulProgram program.now → (result ≡ Err fault.NoMemory → ⊥)
        → IsRead program.now (whole_lines bytes.now) (unfinished bytes.now) (moment_told result) }
    ensures text { LawfulProgram program.now → (point : Point) → result ≡ Ok point
        → IsText program.now (moment_of point) bytes.now }
    ensures read_back { LawfulProgram program.now → (moment : Moment)
        → IsText program.now moment bytes.now → (result ≡ Err fault.NoMemory → ⊥)
        → moment_told result ≡ Ok moment }
    ensures cut { LawfulProgram program.now → (moment : Moment) (whole : List ℕ) (n : ℕ)
        → IsText program.now moment whole → n < length whole → bytes.now ≡ take n whole
        → (result ≡ Err fault.NoMemory → ⊥) → result ≡ Err fault.Incomplete }
{
    read_parts(alloc, program, bytes)
}

fn read_parts(alloc: Global, program: &Program, bytes: &[u8]) -> Result<Point, PointFault>
    ensures point { LawfulProgram program.now → (point : Point) → result ≡ Ok point
        → IsRead program.now (whole_lines bytes.now) (unfinished bytes.now)
        (Ok (record { tick = point.tick; seed = point.seed; world = point.world })) }
    ensures refused { LawfulProgram program.now → (cause : PointFault) → result ≡ Err cause
        → (cause ≡ fault.NoMemory → ⊥)
        → IsRead program.now (whole_lines bytes.now) (unfinished bytes.now) (Err cause) }
{
    let parts = split_lines(alloc, bytes)?;
    match parts.as_slice() {
        [lines @ .., rest] => read_lines(alloc, program, lines, rest),
        [] => Err(PointFault::Incomplete),
    }
}

impl From<NoMemory> for PointFault {
    ghost use Rattle.brace_save.specs.declared.kinds.PointFault.TheVariants as fault;

    ghost from_gives = { λ _ given. given ≡ fault.NoMemory };

    fn from(_: NoMemory) -> PointFault {
        PointFault::NoMemory
    }
}

fn split_lines<'a>(alloc: Global, bytes: &'a [u8]) -> Result<Vec<&'a [u8]>, NoMemory>
    ensures { IfOk result (λ split. map (λ p. p.now) split.items ≡ parts bytes.now) }
{
    Ok(bytes.split(|byte| *byte == b'\n').collect(alloc)?)
}

fn read_lines(
    alloc: Global,
    program: &Program,
    lines: &[&[u8]],
    rest: &[u8],
) -> Result<Point, PointFault>
    ensures point { LawfulProgram program.now → (point : Point) → result ≡ Ok point
        → IsRead program.now (map (λ l. l.now) lines.now) rest.now
        (Ok (record { tick = point.tick; seed = point.seed; world = point.world })) }
    ensures refused { LawfulProgram program.now → (cause : PointFault) → result ≡ Err cause
        → (cause ≡ fault.NoMemory → ⊥)
        → IsRead program.now (map (λ l. l.now) lines.now) rest.now (Err cause) }
{
    let heading = read_heading(alloc, lines)?;
    read_classes(alloc, program, heading, lines)?;
    let agents = read_agents(alloc, program, heading, lines)?;
    read_end(alloc, program, heading, lines, rest, agents.as_slice())?;
    let herd = Herd::of(alloc, agents.as_slice())?;
    Ok(Point {
        tick: heading.tick,
        seed: heading.seed,
        world: world_of(heading, herd),
    })
}

fn read_heading(alloc: Global, lines: &[&[u8]]) -> Result<Heading, PointFault>
    ensures heading { IfOk result (IsHeading (map (λ l. l.now) lines.now)) }
    ensures refused { (program : Program) (rest : List ℕ) (cause : PointFault)
        → result ≡ Err cause → (cause ≡ fault.NoMemory → ⊥)
        → IsRead program (map (λ l. l.now) lines.now) rest (Err cause) }
{
    let tells_next = read_version(lines)?;
    let tick = count_at(alloc, lines, 1, b"tick ", LAST_TICK)?;
    let seed = count_at(alloc, lines, 2, b"seed ", u64::MAX)?;
    let next = if tells_next {
        count_at(alloc, lines, 3, b"next ", LAST_NEXT)?
    } else {
        LAST_NEXT
    };
    Ok(Heading {
        tells_next,
        tick,
        seed,
        next,
    })
}

// Whether the first line is that of version 2, which tells the next free id.
fn read_version(lines: &[&[u8]]) -> Result<bool, PointFault>
    ensures first { IfOk result (λ tells_next. (1 ≤ length lines.now)
        × (line (map (λ l. l.now) lines.now) 0 ≡ version tells_next)) }
    ensures refused { (program : Program) (rest : List ℕ) (cause : PointFault)
        → result ≡ Err cause → IsRead program (map (λ l. l.now) lines.now) rest (Err cause) }
{
    if lines.is_empty() {
        return Err(PointFault::Incomplete);
    }
    let first = field_at(lines, 0);
    if first == b"brace checkpoint 1".as_slice() {
        Ok(false)
    } else if first == b"brace checkpoint 2".as_slice() {
        Ok(true)
    } else {
        Err(PointFault::BadVersion)
    }
}

// The count of the line at a place, behind its word and at most so great.
fn count_at(
    alloc: Global,
    lines: &[&[u8]],
    i: usize,
    word: &[u8],
    most: u64,
) -> Result<u64, PointFault>
    ensures { IsCountAt (map (λ l. l.now) lines.now) i word.now most result }
{
    if i >= lines.len() {
        return Err(PointFault::Incomplete);
    }
    match count_in(alloc, field_at(lines, i), word, most) {
        Ok(Some(n)) => Ok(n),
        Ok(None) => Err(PointFault::BadLine(i as u64 + 1)),
        Err(_) => Err(PointFault::NoMemory),
    }
}

// How many lines stand before those of classes.
fn place_of(heading: Heading) -> usize
    ensures { result ≡ place heading.tells_next }
{
    if heading.tells_next { 4 } else { 3 }
}

// How many lines stand before the end line.
fn end_of(program: &Program, heading: Heading, agents: &[Agent]) -> usize
    ensures { result ≡ front_length program.now heading.tells_next agents.now }
{
    place_of(heading) + program.classes.as_slice().len() + agents.len()
}

// The lines of classes, behind those of a heading.
fn read_classes(
    alloc: Global,
    program: &Program,
    heading: Heading,
    lines: &[&[u8]],
) -> Result<(), PointFault>
    requires { IsHeading (map (λ l. l.now) lines.now) heading }
    ensures stand { OnOk result (IsFront program.now heading [] (map (λ l. l.now) lines.now)) }
    ensures refused { (rest : List ℕ) (cause : PointFault)
        → result ≡ Err cause → (cause ≡ fault.NoMemory → ⊥)
        → IsRead program.now (map (λ l. l.now) lines.now) rest (Err cause) }
{
    let mut i = place_of(heading);
    for class in program.classes.as_slice() {
        if i >= lines.len() {
            return Err(PointFault::Incomplete);
        }
        if !is_class_line(alloc, field_at(lines, i), class)? {
            return Err(PointFault::OtherClasses);
        }
        i += 1;
    }
    Ok(())
}

// The agents behind the lines of classes, up to the first line that is no agent's.
fn read_agents(
    alloc: Global,
    program: &Program,
    heading: Heading,
    lines: &[&[u8]],
) -> Result<Vec<Agent>, PointFault>
    requires { IsFront program.now heading [] (map (λ l. l.now) lines.now) }
    ensures stand { IfOk result (λ agents.
        IsFront program.now heading agents.items (map (λ l. l.now) lines.now)) }
    ensures ended { LawfulProgram program.now → IfOk result (λ agents.
        let n = front_length program.now heading.tells_next agents.items in
        n < length lines.now → (a : Agent)
        → IsAgentLine program.now a (line (map (λ l. l.now) lines.now) n) → ⊥) }
    ensures refused { LawfulProgram program.now → (rest : List ℕ) (cause : PointFault)
        → result ≡ Err cause → (cause ≡ fault.NoMemory → ⊥)
        → IsRead program.now (map (λ l. l.now) lines.now) rest (Err cause) }
{
    let mut agents: Vec<Agent> = Vec::new(alloc);
    let mut values: usize = 0;
    let first = place_of(heading) + program.classes.as_slice().len();
    for i in first..lines.len() {
        let Some(agent) = agent_in(alloc, program, field_at(lines, i))? else {
            return Ok(agents);
        };
        if !may_follow(agents.as_slice(), values, &agent, heading.next) {
            return Err(PointFault::BadLine(i as u64 + 1));
        }
        values += agent.states.as_slice().len();
        push_agent(&mut agents, agent)?;
    }
    Ok(agents)
}

fn push_agent(agents: &mut Vec<Agent>, agent: Agent) -> Result<(), NoMemory>
    ensures { OnOk result (agents.new.items ≡ agents.old.items ++ agent ∷ []) }
{
    agents.push(agent)?;
    Ok(())
}

// Whether an agent may stand behind others, which have so many values.
fn may_follow(agents: &[Agent], values: usize, agent: &Agent, next: u64) -> bool
    requires { values ≡ count_values agents.now }
    ensures { MatchBool result
        (MayFollow agents.now next agent.now) (MayFollow agents.now next agent.now → ⊥) }
{
    let rises = match agents.last() {
        Some(last) => last.id < agent.id,
        None => true,
    };
    rises
        && agent.id < next
        && agents.len() < MOST_AGENTS
        && values.saturating_add(agent.states.as_slice().len()) <= MOST_VALUES
}

// The end line behind the lines of agents, with nothing behind it.
fn read_end(
    alloc: Global,
    program: &Program,
    heading: Heading,
    lines: &[&[u8]],
    rest: &[u8],
    agents: &[Agent],
) -> Result<(), PointFault>
    requires { IsFront program.now heading agents.now (map (λ l. l.now) lines.now) }
    ensures whole { OnOk result (AreOf program.now (told heading agents.now)
        (map (λ l. l.now) lines.now) × (rest.now ≡ [])) }
    ensures refused { LawfulProgram program.now → (let n =
        front_length program.now heading.tells_next agents.now in n < length lines.now
        → (a : Agent) → IsAgentLine program.now a (line (map (λ l. l.now) lines.now) n) → ⊥)
        → (cause : PointFault) → result ≡ Err cause → (cause ≡ fault.NoMemory → ⊥)
        → IsRead program.now (map (λ l. l.now) lines.now) rest.now (Err cause) }
{
    let end = end_of(program, heading, agents);
    if end >= lines.len() {
        return Err(PointFault::Incomplete);
    }
    if !is_end_line(alloc, field_at(lines, end), agents.len())? {
        return Err(PointFault::BadLine(end as u64 + 1));
    }
    if end + 1 < lines.len() || !rest.is_empty() {
        return Err(PointFault::BadLine(end as u64 + 2));
    }
    Ok(())
}

// The world of a moment that may be told.
fn world_of(heading: Heading, agents: Herd) -> World
    requires { IsNumbered (told heading agents).world }
    ensures { result ≡ (told heading agents).world }
{
    let world = if heading.tells_next {
        World::with_next(agents, heading.next)
    } else {
        World::from_rising(agents)
    };
    match world {
        Some(world) => world,
        None => unreachable!(),
    }
}
