ghost use Rattle.std.specs.Prelude.{◌≡◌, ◌≤◌, option_map, MatchOption, IfErr, IfOk, IfSome, None, Some, true};
ghost use Rattle.brace_words.specs.Lines as lines;
ghost use Rattle.brace_words.specs.Values.{is_link};
ghost use Rattle.brace_command.specs.Commands.{anew_of, audit_of, balance_of, command_in, manner_of, resumed_of, run_of, trial_of, workers_of};
ghost use Rattle.brace_command.specs.Words.{said, said_manner, said_start, IsInRange, IsMannerInRange};

use brace_num::Text;
use brace_words::{Line, LineFault, Mode};

/// How a run is worked. Only the counts depend on it: no row and no checkpoint does.
#[derive(Clone, Copy)]
pub struct Manner {
    /// How many ticks an epoch has, 1 to 16.
    pub epoch: u64,
    /// The number that draws the order of the parts' work.
    pub order: u64,
    /// Whether values are said by the owners of those to whom they are said.
    pub invert: bool,
    /// Whether counts are told at the end.
    pub stats: bool,
}

/// Where a run begins.
#[derive(Clone, Copy)]
pub enum Start<'a> {
    /// At tick 0, with the agents of the file of this name and this seed of all draws.
    Anew(&'a str, u64),
    /// At the tick, with the world and with the seed that the checkpoint of this name tells.
    Resumed(&'a str),
}

/// A run up to a last tick, at most 2^32.
#[derive(Clone, Copy)]
pub struct RunCommand<'a> {
    pub script: &'a str,
    pub start: Start<'a>,
    /// The cut plan; without one the plane is one part.
    pub cuts: Option<&'a str>,
    /// The world of the end k of an epoch is saved as `NAME.k`, where this is NAME.
    pub save: Option<&'a str>,
    /// The figures that this watch file asks for are saved as `NAME.k`, where this is NAME.
    pub watch: Option<&'a str>,
    /// The letters of a link, over which one worker runs the parts; without them these exchange
    /// pieces in memory.
    pub link: Option<&'a str>,
    pub ticks: u64,
    /// Ticks that this number divides are published, and the last one. At least 1.
    pub every: u64,
    pub manner: Manner,
}

/// A run of the program's own script up to a last tick, at most 2^32.
#[derive(Clone, Copy)]
pub struct TrialCommand {
    /// How many agents are made, at most 2^20.
    pub count: u32,
    pub ticks: u64,
    /// The seed of the agents and of all draws.
    pub seed: u64,
    pub manner: Manner,
}

/// Cuts of the plane into strips over the agents of a file.
#[derive(Clone, Copy)]
pub struct BalanceCommand<'a> {
    pub script: &'a str,
    pub agents: &'a str,
    /// The most strips, 1 to 64.
    pub strips: u32,
}

/// The question whether a file is what a run publishes that begins anew.
#[derive(Clone, Copy)]
pub struct AuditCommand<'a> {
    pub script: &'a str,
    pub agents: &'a str,
    /// The file that is compared.
    pub published: &'a str,
    /// The last tick, at most 2^32.
    pub ticks: u64,
    /// Ticks that this number divides are published, and the last one. At least 1.
    pub every: u64,
    /// The seed of all draws.
    pub seed: u64,
}

/// What the words of a command ask for.
#[derive(Clone, Copy)]
pub enum Command<'a> {
    /// A run.
    Run(RunCommand<'a>),
    /// The canonical text of the script of this name.
    Format(&'a str),
    /// Whether the script of this name is accepted.
    Check(&'a str),
    /// How the script of this name is run, with inversion where that is said.
    Plan(&'a str, bool),
    /// A trial.
    Trial(TrialCommand),
    /// Balanced strips.
    Balance(BalanceCommand<'a>),
    /// An audit.
    Audit(AuditCommand<'a>),
}

/// How many workers words ask for, as they were read: 1 to 16, and 1 where they are no line.
pub fn workers_of(line: &Result<Line, LineFault>) -> u32
    requires range { IfOk line.now lines.IsInRange }
    ensures some { 1 ≤ result }
    ensures few { result ≤ 16 }
    ensures asked { IfOk line.now (λ l. result ≡ workers_of (Some l)) }
    ensures none { IfErr line.now (λ fault. result ≡ 1) }
{
    match line {
        Ok(line) => line.workers.unwrap_or(1),
        Err(_) => 1,
    }
}

/// How a line's run is worked.
fn manner_of(line: &Line) -> Manner
    requires { lines.IsInRange line.now }
    ensures manner { said_manner result ≡ manner_of line.now }
    ensures range { IsMannerInRange result }
{
    Manner {
        epoch: line.epoch.unwrap_or(16),
        order: line.order.unwrap_or(0),
        invert: line.invert,
        stats: line.stats,
    }
}

/// A name that may be given.
fn name_of(name: &Option<Text>) -> Option<&str>
    ensures { option_map (λ n. n.now) result ≡ name.now }
{
    name.as_ref().map(|name| name.as_str())
}

/// The letters of a line's link, if it has one.
fn link_of(line: &Line) -> Option<&str>
    requires { lines.IsInRange line.now }
    ensures { IfSome result (λ letters. is_link letters.now ≡ true) }
{
    Some(line.link.as_ref()?.as_str())
}

/// A run that begins anew, where the line names the agent file.
fn anew_of(line: &Line) -> Option<Start<'_>>
    ensures { option_map said_start result ≡ anew_of line.now }
{
    Some(Start::Anew(line.agents.as_ref()?.as_str(), line.seed.unwrap_or(0)))
}

/// A run that is resumed, where the line names the checkpoint.
fn resumed_of(line: &Line) -> Option<Start<'_>>
    ensures { option_map said_start result ≡ resumed_of line.now }
{
    Some(Start::Resumed(line.from.as_ref()?.as_str()))
}

/// The run that a line asks for, where it names the script and the last tick and says where the run
/// begins.
fn run_of<'a>(line: &'a Line, start: Option<Start<'a>>) -> Option<Command<'a>>
    requires { lines.IsInRange line.now }
    ensures command { MatchOption result
        (run_of line.now line.now.script (option_map said_start start.entry) line.now.ticks ≡ None)
        (λ command. run_of line.now line.now.script (option_map said_start start.entry)
        line.now.ticks ≡ Some (said command)) }
    ensures range { IfSome result IsInRange }
{
    Some(Command::Run(RunCommand {
        script: line.script.as_ref()?.as_str(),
        start: start?,
        cuts: name_of(&line.cuts),
        save: name_of(&line.save),
        watch: name_of(&line.watch),
        link: link_of(line),
        ticks: line.ticks?,
        every: line.every.unwrap_or(1),
        manner: manner_of(line),
    }))
}

/// The trial that a line asks for, where it says how many agents are made, and the last tick.
fn trial_of(line: &Line) -> Option<Command<'_>>
    requires { lines.IsInRange line.now }
    ensures command { MatchOption result (trial_of line.now line.now.count line.now.ticks ≡ None)
        (λ command. trial_of line.now line.now.count line.now.ticks ≡ Some (said command)) }
    ensures range { IfSome result IsInRange }
{
    Some(Command::Trial(TrialCommand {
        count: line.count?,
        ticks: line.ticks?,
        seed: line.seed.unwrap_or(0),
        manner: manner_of(line),
    }))
}

/// The balanced strips that a line asks for, where it names the script and the agent file and says
/// how many strips there may be.
fn balance_of(line: &Line) -> Option<Command<'_>>
    requires { lines.IsInRange line.now }
    ensures command { MatchOption result
        (balance_of line.now.script line.now.agents line.now.strips ≡ None)
        (λ command. balance_of line.now.script line.now.agents line.now.strips
        ≡ Some (said command)) }
    ensures range { IfSome result IsInRange }
{
    Some(Command::Balance(BalanceCommand {
        script: line.script.as_ref()?.as_str(),
        agents: line.agents.as_ref()?.as_str(),
        strips: line.strips?,
    }))
}

/// The audit that a line asks for, where it names the script, the agent file and the published one
/// and says the last tick.
fn audit_of(line: &Line) -> Option<Command<'_>>
    requires { lines.IsInRange line.now }
    ensures command { MatchOption result
        (audit_of line.now line.now.script line.now.agents line.now.published line.now.ticks ≡ None)
        (λ command. audit_of line.now line.now.script line.now.agents line.now.published
        line.now.ticks ≡ Some (said command)) }
    ensures range { IfSome result IsInRange }
{
    Some(Command::Audit(AuditCommand {
        script: line.script.as_ref()?.as_str(),
        agents: line.agents.as_ref()?.as_str(),
        published: line.published.as_ref()?.as_str(),
        ticks: line.ticks?,
        every: line.every.unwrap_or(1),
        seed: line.seed.unwrap_or(0),
    }))
}

/// The command that a line asks for, or None where it lacks what its mode needs.
pub fn command_in(line: &Line) -> Option<Command<'_>>
    requires { lines.IsInRange line.now }
    ensures command { MatchOption result (command_in line.now ≡ None)
        (λ command. command_in line.now ≡ Some (said command)) }
    ensures range { IfSome result IsInRange }
{
    match line.mode {
        Mode::Run => run_of(line, anew_of(line)),
        Mode::Resume => run_of(line, resumed_of(line)),
        Mode::Fmt => Some(Command::Format(line.script.as_ref()?.as_str())),
        Mode::Check => Some(Command::Check(line.script.as_ref()?.as_str())),
        Mode::Plan => Some(Command::Plan(line.script.as_ref()?.as_str(), line.invert)),
        Mode::Trial => trial_of(line),
        Mode::Balance => balance_of(line),
        Mode::Audit => audit_of(line),
    }
}
