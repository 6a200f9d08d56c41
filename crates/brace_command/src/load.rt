//! What the named files of a command come to.
ghost use Rattle.std.specs.Prelude.{◌≡◌, ◌≤◌, ◌<◌, ◌^◌, ℕ, [], codes, length, option_map, unwrap_or, Some, None, IfOk, IfErr, MatchResult, true, false};
ghost use Rattle.brace_io.specs.Shelves.{writes};
ghost use Rattle.brace_cuts.specs.CutPlans.{IsPlan};
ghost use Rattle.brace_model.specs.Lawful.{LawfulProgram, LawfulAgents};
ghost use Rattle.brace_model.specs.World.{IsNumbered};
ghost use Rattle.brace_save.specs.Lines.{moment_of};
ghost use Rattle.brace_command.specs.Answer.{ShelfCall, shelf_call};
ghost use Rattle.brace_command.specs.Commands.{is_anew, start_file};
ghost use Rattle.brace_command.specs.Outcome.{loaded, source_of, agents_of, plan_of, whole_plane, TreeOf, JudgedOf, ProgramOf, TrialProgram, PointOf, BeginsAt, begun_anew};
ghost use Rattle.brace_command.specs.Limits.{script_limit};
ghost use Rattle.brace_command.specs.Settled.{IsLoaded, IsUnloaded, IsScriptRefused, IsRecordRefused, IsPlanRefused, IsPointRefused, refuses_file, stopped_status};
ghost use Rattle.brace_command.specs.Prepared.{judged};
ghost use Rattle.brace_command.specs.Words.{said_start};

use crate::answer::{Stopped, refuse, refuse_file};
use crate::command::Start;
use crate::limits::{AGENTS_LIMIT, CHECKPOINT_LIMIT, PLAN_LIMIT, SCRIPT_LIMIT};
use crate::messages::{line_message, placed_message, plan_word, point_message, record_message};
use crate::places::{column_number, line_number};
use crate::script::{read_program, read_tree};
use crate::script_fault::ScriptFault;
use crate::status::Status;
use crate::trial::TRIAL_SCRIPT;
use brace_cuts::{CutLine, CutPlan, Cuts, PlanFault, read_plan};
use brace_io::{Shelf, WholeFault, read_whole};
use brace_model::{Program, World};
use brace_num::{List, NoMemory};
use brace_rows::{RowFault, read_agents};
use brace_save::{Point, PointFault, read_checkpoint};
use brace_syntax::Tree;
use std::alloc::Global;

/// The bytes of the file of a name, at most `limit`; `status` is that of a longer file.
pub fn load_file<S: Shelf>(
    alloc: Global,
    shelf: &mut S,
    name: &str,
    limit: u64,
    status: Status,
) -> Result<Vec<u8>, Stopped>
    requires stage { writes (S.stage shelf.old) ≡ false }
    requires refusal { refuses_file status ≡ true }
    ensures loads { MatchResult result
        (λ bytes. IsLoaded (λ files found. loaded status limit name.now (files name.now) ≡ found)
        (shelf_call S.Shelf shelf.old shelf.new) bytes.items)
        (IsUnloaded (λ files found. loaded status limit name.now (files name.now) ≡ found) name.now
        (shelf_call S.Shelf shelf.old shelf.new)) }
    ensures within { IfOk result (λ bytes. length bytes.items ≤ limit) }
    ensures held { S.held shelf.new ≡ S.held shelf.old }
    ensures not_writing { writes (S.stage shelf.new) ≡ false }
{
    match read_whole(alloc, shelf, name, limit) {
        Ok(bytes) => Ok(bytes),
        Err(WholeFault::Absent) => Err(refuse_file(alloc, name, Status::Absent, b": absent")),
        Err(WholeFault::TooLong) => Err(refuse_file(alloc, name, status, b": TooLong")),
        Err(WholeFault::Failed) => Err(refuse_file(
            alloc,
            name,
            Status::ReadFault,
            b": read fault",
        )),
        Err(WholeFault::NoMemory) => Err(Stopped::NoMemory),
    }
}

/// The refusal of a script at the place where its fault is found.
fn refuse_script(alloc: Global, name: &str, src: &[u8], fault: ScriptFault) -> Stopped
    ensures { IsScriptRefused name.now src.now fault result }
{
    match fault {
        ScriptFault::Refused(kind, at) => {
            let line = line_number(src, at as usize);
            let column = column_number(src, at as usize);
            let message = placed_message(alloc, name, line, column, kind.word());
            refuse(Status::Script, message)
        }
        ScriptFault::NoMemory => Stopped::NoMemory,
    }
}

/// The refusal of an agent file for the fault of a record.
fn refuse_record(alloc: Global, name: &str, fault: RowFault) -> Stopped
    ensures { IsRecordRefused name.now fault result }
{
    match fault {
        RowFault::Bad(number, kind) => {
            refuse(Status::Agents, record_message(alloc, name, number, kind))
        }
        RowFault::NoMemory => Stopped::NoMemory,
    }
}

/// The refusal of a cut plan for the fault of a line.
fn refuse_line(alloc: Global, name: &str, fault: PlanFault) -> Stopped
    ensures { IsPlanRefused name.now fault result }
{
    match fault {
        PlanFault::Bad(number, kind) => {
            let message = line_message(alloc, name, number, plan_word(kind));
            refuse(Status::Plan, message)
        }
        PlanFault::NoMemory => Stopped::NoMemory,
    }
}

/// The refusal of a file that is no checkpoint.
fn refuse_point(alloc: Global, name: &str, fault: PointFault) -> Stopped
    ensures { IsPointRefused name.now fault result }
{
    match fault {
        PointFault::NoMemory => Stopped::NoMemory,
        fault => refuse(Status::Checkpoint, point_message(alloc, name, fault)),
    }
}

/// The tree of the script of a name.
pub fn load_tree<S: Shelf>(alloc: Global, shelf: &mut S, name: &str) -> Result<Tree, Stopped>
    requires { writes (S.stage shelf.old) ≡ false }
    ensures loads { MatchResult result
        (IsLoaded (λ files. TreeOf files name.now) (shelf_call S.Shelf shelf.old shelf.new))
        (IsUnloaded (λ files. TreeOf files name.now) name.now
        (shelf_call S.Shelf shelf.old shelf.new)) }
    ensures held { S.held shelf.new ≡ S.held shelf.old }
    ensures not_writing { writes (S.stage shelf.new) ≡ false }
{
    let src = load_file(alloc, shelf, name, SCRIPT_LIMIT, Status::Script)?;
    match read_tree(alloc, src.as_slice()) {
        Ok(tree) => Ok(tree),
        Err(fault) => Err(refuse_script(alloc, name, src.as_slice(), fault)),
    }
}

/// A script that is accepted: its text, and the program that it means.
#[derive(Drop)]
pub struct Script {
    pub source: Vec<u8>,
    pub program: Program,
}

/// The script of a name, with its program.
pub fn load_script<S: Shelf>(alloc: Global, shelf: &mut S, name: &str) -> Result<Script, Stopped>
    requires { writes (S.stage shelf.old) ≡ false }
    ensures loads { MatchResult result
        (λ script. IsLoaded (λ files. JudgedOf files name.now)
        (shelf_call S.Shelf shelf.old shelf.new) (judged script))
        (IsUnloaded (λ files. JudgedOf files name.now) name.now
        (shelf_call S.Shelf shelf.old shelf.new)) }
    ensures lawful { IfOk result (λ script. LawfulProgram script.program) }
    ensures held { S.held shelf.new ≡ S.held shelf.old }
    ensures not_writing { writes (S.stage shelf.new) ≡ false }
{
    let source = load_file(alloc, shelf, name, SCRIPT_LIMIT, Status::Script)?;
    match read_program(alloc, source.as_slice()) {
        Ok(program) => Ok(Script { source, program }),
        Err(fault) => Err(refuse_script(alloc, name, source.as_slice(), fault)),
    }
}

/// The program of the script of a name.
pub fn load_program<S: Shelf>(alloc: Global, shelf: &mut S, name: &str) -> Result<Program, Stopped>
    requires { writes (S.stage shelf.old) ≡ false }
    ensures loads { MatchResult result
        (IsLoaded (λ files. ProgramOf files name.now) (shelf_call S.Shelf shelf.old shelf.new))
        (IsUnloaded (λ files. ProgramOf files name.now) name.now
        (shelf_call S.Shelf shelf.old shelf.new)) }
    ensures lawful { IfOk result LawfulProgram }
    ensures held { S.held shelf.new ≡ S.held shelf.old }
    ensures not_writing { writes (S.stage shelf.new) ≡ false }
{
    let script = load_script(alloc, shelf, name)?;
    Ok(script.program)
}

/// The program of the script of a trial.
pub fn load_trial(alloc: Global) -> Result<Program, Stopped>
    ensures loads { (shelf : ShelfCall) → shelf.faults_after ≡ shelf.faults_before
        → MatchResult result (IsLoaded (λ files. TrialProgram) shelf)
        (IsUnloaded (λ files. TrialProgram) (codes "trial") shelf) }
    ensures unread { IfErr result (λ stopped. stopped_status stopped ≡ Status.ReadFault → ⊥) }
    ensures lawful { IfOk result LawfulProgram }
{
    match read_program(alloc, TRIAL_SCRIPT) {
        Ok(program) => Ok(program),
        Err(fault) => Err(refuse_script(alloc, "trial", TRIAL_SCRIPT, fault)),
    }
}

/// The world of the agent file of a name.
pub fn load_world<S: Shelf>(
    alloc: Global,
    shelf: &mut S,
    program: &Program,
    name: &str,
) -> Result<World, Stopped>
    requires { writes (S.stage shelf.old) ≡ false }
    ensures loads { MatchResult result
        (IsLoaded (λ files found. agents_of files program.now name.now ≡ found)
        (shelf_call S.Shelf shelf.old shelf.new))
        (IsUnloaded (λ files found. agents_of files program.now name.now ≡ found) name.now
        (shelf_call S.Shelf shelf.old shelf.new)) }
    ensures lawful { IfOk result (λ world. LawfulAgents program.now world.agents) }
    ensures numbered { IfOk result IsNumbered }
    ensures held { S.held shelf.new ≡ S.held shelf.old }
    ensures not_writing { writes (S.stage shelf.new) ≡ false }
{
    let bytes = load_file(alloc, shelf, name, AGENTS_LIMIT, Status::Agents)?;
    match read_agents(alloc, program, bytes.as_slice()) {
        Ok(world) => Ok(world),
        Err(fault) => Err(refuse_record(alloc, name, fault)),
    }
}

/// What the checkpoint of a name tells.
fn load_point<S: Shelf>(
    alloc: Global,
    shelf: &mut S,
    program: &Program,
    name: &str,
) -> Result<Point, Stopped>
    requires stage { writes (S.stage shelf.old) ≡ false }
    requires lawful { LawfulProgram program.now }
    ensures loads { MatchResult result
        (λ point. IsLoaded (λ files. PointOf files program.now name.now)
        (shelf_call S.Shelf shelf.old shelf.new) (moment_of point))
        (IsUnloaded (λ files. PointOf files program.now name.now) name.now
        (shelf_call S.Shelf shelf.old shelf.new)) }
    ensures lawful { IfOk result (λ point. LawfulAgents program.now point.world.agents) }
    ensures numbered { IfOk result (λ point. IsNumbered point.world) }
    ensures range { IfOk result (λ point. point.tick ≤ 2 ^ 32) }
    ensures held { S.held shelf.new ≡ S.held shelf.old }
    ensures not_writing { writes (S.stage shelf.new) ≡ false }
{
    let bytes = load_file(alloc, shelf, name, CHECKPOINT_LIMIT, Status::Checkpoint)?;
    match read_checkpoint(alloc, program, bytes.as_slice()) {
        Ok(point) => Ok(point),
        Err(fault) => Err(refuse_point(alloc, name, fault)),
    }
}

/// The moment at which a run begins anew.
fn load_anew<S: Shelf>(
    alloc: Global,
    shelf: &mut S,
    program: &Program,
    name: &str,
    seed: u64,
) -> Result<Point, Stopped>
    requires { writes (S.stage shelf.old) ≡ false }
    ensures loads { MatchResult result
        (λ point. IsLoaded (λ files found. begun_anew seed (agents_of files program.now name.now)
        ≡ found) (shelf_call S.Shelf shelf.old shelf.new) (moment_of point))
        (IsUnloaded (λ files found. begun_anew seed (agents_of files program.now name.now) ≡ found)
        name.now (shelf_call S.Shelf shelf.old shelf.new)) }
    ensures lawful { IfOk result (λ point. LawfulAgents program.now point.world.agents) }
    ensures numbered { IfOk result (λ point. IsNumbered point.world) }
    ensures first { IfOk result (λ point. point.tick ≡ 0) }
    ensures held { S.held shelf.new ≡ S.held shelf.old }
    ensures not_writing { writes (S.stage shelf.new) ≡ false }
{
    let world = load_world(alloc, shelf, program, name)?;
    Ok(Point {
        tick: 0,
        seed,
        world,
    })
}

/// The moment at which a run begins.
pub fn load_start<S: Shelf>(
    alloc: Global,
    shelf: &mut S,
    program: &Program,
    start: &Start,
) -> Result<Point, Stopped>
    requires stage { writes (S.stage shelf.old) ≡ false }
    requires lawful { LawfulProgram program.now }
    ensures loads { MatchResult result
        (λ point. IsLoaded (λ files. BeginsAt files program.now (said_start start.now))
        (shelf_call S.Shelf shelf.old shelf.new) (moment_of point))
        (IsUnloaded (λ files. BeginsAt files program.now (said_start start.now))
        (start_file (said_start start.now)) (shelf_call S.Shelf shelf.old shelf.new)) }
    ensures lawful { IfOk result (λ point. LawfulAgents program.now point.world.agents) }
    ensures numbered { IfOk result (λ point. IsNumbered point.world) }
    ensures range { IfOk result (λ point. point.tick ≤ 2 ^ 32) }
    ensures first { is_anew (said_start start.now) ≡ true
        → IfOk result (λ point. point.tick ≡ 0) }
    ensures held { S.held shelf.new ≡ S.held shelf.old }
    ensures not_writing { writes (S.stage shelf.new) ≡ false }
{
    match start {
        Start::Anew(name, seed) => load_anew(alloc, shelf, program, name, *seed),
        Start::Resumed(name) => load_point(alloc, shelf, program, name),
    }
}

/// The plan of the cut plan of a name, for epochs of so many ticks (at least 1).
fn load_plan<S: Shelf>(
    alloc: Global,
    shelf: &mut S,
    name: &str,
    epoch: u64,
) -> Result<CutPlan, Stopped>
    requires stage { writes (S.stage shelf.old) ≡ false }
    requires epoch { 0 < epoch }
    ensures loads { MatchResult result
        (IsLoaded (λ files found. plan_of files epoch (Some name.now) ≡ found)
        (shelf_call S.Shelf shelf.old shelf.new))
        (IsUnloaded (λ files found. plan_of files epoch (Some name.now) ≡ found) name.now
        (shelf_call S.Shelf shelf.old shelf.new)) }
    ensures lawful { IfOk result (IsPlan epoch) }
    ensures held { S.held shelf.new ≡ S.held shelf.old }
    ensures not_writing { writes (S.stage shelf.new) ≡ false }
{
    let bytes = load_file(alloc, shelf, name, PLAN_LIMIT, Status::Plan)?;
    match read_plan(alloc, bytes.as_slice(), epoch) {
        Ok(plan) => Ok(plan),
        Err(fault) => Err(refuse_line(alloc, name, fault)),
    }
}

/// The plan of the whole plane in one part.
fn whole_plane(alloc: Global) -> Result<CutPlan, NoMemory>
    ensures plan { IfOk result (λ plan. plan ≡ whole_plane) }
    ensures lawful { (epoch : ℕ) → 0 < epoch → IfOk result (IsPlan epoch) }
{
    let mut lines = List::new(alloc);
    lines.push(CutLine {
        tick: 0,
        cuts: Cuts {
            xs: List::new(alloc),
            ys: List::new(alloc),
        },
    })?;
    Ok(CutPlan { lines })
}

/// The plan of a cut plan, if one is named, for epochs of so many ticks (at least 1).
pub fn load_cuts<S: Shelf>(
    alloc: Global,
    shelf: &mut S,
    name: Option<&str>,
    epoch: u64,
) -> Result<CutPlan, Stopped>
    requires stage { writes (S.stage shelf.old) ≡ false }
    requires epoch { 0 < epoch }
    ensures loads { MatchResult result
        (IsLoaded (λ files found. plan_of files epoch (option_map (λ n. n.now) name.entry) ≡ found)
        (shelf_call S.Shelf shelf.old shelf.new))
        (IsUnloaded (λ files found. plan_of files epoch (option_map (λ n. n.now) name.entry)
        ≡ found) (unwrap_or (option_map (λ n. n.now) name.entry) [])
        (shelf_call S.Shelf shelf.old shelf.new)) }
    ensures unread { name.entry ≡ None
        → IfErr result (λ stopped. stopped_status stopped ≡ Status.ReadFault → ⊥) }
    ensures lawful { IfOk result (IsPlan epoch) }
    ensures held { S.held shelf.new ≡ S.held shelf.old }
    ensures not_writing { writes (S.stage shelf.new) ≡ false }
{
    match name {
        Some(name) => load_plan(alloc, shelf, name, epoch),
        None => Ok(whole_plane(alloc)?),
    }
}
