//! A trial: the program's own script, and the line that tells its last world.
ghost use Rattle.std.specs.Prelude.{◌≡◌, ◌≤◌, map, pos, ◌+ℤ◌, IfOk, true};
ghost use Rattle.brace_cuts.specs.CutPlans.{IsPlan};
ghost use Rattle.brace_model.specs.Lawful.{LawfulProgram};
ghost use Rattle.brace_pieces.specs.Settings.{LawfulSetting};
ghost use Rattle.brace_rows.specs.MadeAgents.{has_four_fixed};
ghost use Rattle.brace_command.specs.Outcome.{trial_setting};
ghost use Rattle.brace_command.specs.Trials.{strips, along_x, trial_plan, trial_line};
ghost use Rattle.brace_command.specs.Words.{said_trial, IsTrialInRange};

use crate::command::TrialCommand;
use brace_cuts::{CutLine, CutPlan, Cuts};
use brace_model::{Job, Program, Ty};
use brace_num::{List, NoMemory, print_count};
use brace_pieces::Setting;
use brace_rows::make_agents;
use itoa::Buffer;
use std::alloc::Global;

/// The script: fish that turn with those around them, and keep apart.
pub const TRIAL_SCRIPT: &[u8] = b"class Fish {
  #visible[10.0];
  #reach[2.0];
  public state fixed x : x + vx + px;
  public state fixed y : y + vy + py;
  public state fixed vx : max(-1.0, min(1.0, (n > 0 ? sx / fixed(n) : vx) + rand() - 0.5));
  public state fixed vy : max(-1.0, min(1.0, (n > 0 ? sy / fixed(n) : vy) + rand() - 0.5));
  public effect fixed sx : sum;
  public effect fixed sy : sum;
  public effect fixed px : sum;
  public effect fixed py : sum;
  public effect int n : count;
  public void run() {
    foreach (Fish p : Extent<Fish>) {
      sx <- p.vx;
      sy <- p.vy;
      n <- true;
      const fixed dx = p.x - x;
      const fixed dy = p.y - y;
      if (abs(dx) < 1.0 && abs(dy) < 1.0) {
        p.px <- dx / 4.0;
        p.py <- dy / 4.0;
      }
    }
  }
}
";

/// Whether class number 0 of a program is one of four fixed states.
pub fn has_four_fixed(program: &Program) -> bool
    ensures { result ≡ has_four_fixed program.now }
{
    match program.classes.as_slice() {
        [class, ..] => {
            let states = class.states.as_slice();
            states.len() == 4 && states.iter().all(|state| state.ty == Ty::Fixed)
        }
        [] => false,
    }
}

/// The line of a tick that cuts the plane into eight strips, with each cut that much further along
/// x, in millionths, at most 5 units.
fn strips_at(alloc: Global, tick: u64, further: u32) -> Result<CutLine, NoMemory>
    requires { further ≤ 5_000_000 }
    ensures { IfOk result (λ line. line ≡ along_x tick (map (λ x. x +ℤ pos further) strips)) }
{
    let mut xs = List::new(alloc);
    for strip in 1..8u32 {
        xs.push(i64::from(strip * 125_000_000 + further))?;
    }
    Ok(CutLine {
        tick,
        cuts: Cuts {
            xs,
            ys: List::new(alloc),
        },
    })
}

/// The cut plan of a trial with epochs of so many ticks, 1 to 16: eight strips, whose cuts lie 5
/// units further in the second epoch.
fn trial_plan(alloc: Global, epoch: u64) -> Result<CutPlan, NoMemory>
    requires some { 1 ≤ epoch }
    requires few { epoch ≤ 16 }
    ensures plan { IfOk result (λ plan. plan ≡ trial_plan epoch) }
    ensures lawful { IfOk result (IsPlan epoch) }
{
    let mut lines = List::new(alloc);
    lines.push(strips_at(alloc, 0, 0)?)?;
    lines.push(strips_at(alloc, epoch, 5_000_000)?)?;
    lines.push(strips_at(alloc, 2 * epoch, 0)?)?;
    Ok(CutPlan { lines })
}

/// The setting of a trial of a program, over agents that are made.
pub fn trial_setting(
    alloc: Global,
    trial: &TrialCommand,
    program: Program,
) -> Result<Setting, NoMemory>
    requires range { IsTrialInRange trial.now }
    requires lawful { LawfulProgram program }
    requires four_fixed { has_four_fixed program ≡ true }
    ensures setting { IfOk result (λ s. s ≡ trial_setting (said_trial trial.now) program) }
    ensures lawful { IfOk result LawfulSetting }
{
    let epoch = trial.manner.epoch;
    let job = Job {
        program,
        seed: trial.seed,
        first: 0,
        last: trial.ticks,
        every: 4_294_967_296,
        start: make_agents(alloc, trial.seed, trial.count)?,
    };
    Ok(Setting {
        job,
        cuts: trial_plan(alloc, epoch)?,
        epoch,
        invert: trial.manner.invert,
    })
}

/// The line of a trial, with the sums of x and of y over the agents of its last world.
pub fn trial_line(
    alloc: Global,
    trial: &TrialCommand,
    sums: (i128, i128),
) -> Result<Vec<u8>, NoMemory>
    ensures { IfOk result (λ line. line.items
        ≡ trial_line trial.now.count trial.now.ticks sums) }
{
    let mut line = Vec::new(alloc);
    line.extend_from_slice(b"trial agents ")?;
    print_count(&mut line, u64::from(trial.count))?;
    line.extend_from_slice(b" ticks ")?;
    print_count(&mut line, trial.ticks)?;
    line.extend_from_slice(b" x ")?;
    line.extend_from_slice(Buffer::new().format(sums.0).as_bytes())?;
    line.extend_from_slice(b" y ")?;
    line.extend_from_slice(Buffer::new().format(sums.1).as_bytes())?;
    line.push(b'\n')?;
    Ok(line)
}
