ghost use Rattle.std.specs.Prelude.{◌≡◌};
ghost use Rattle.brace_words.specs.Modes.{mode_named};

/// What a command does.
#[derive(Debug, Clone, Copy, PartialEq, Eq, Drop)]
pub enum Mode {
    /// Runs a script from an agent file.
    Run,
    /// Goes on with a run from a checkpoint.
    Resume,
    /// Judges a script.
    Check,
    /// Writes a script's canonical text.
    Fmt,
    /// Tells how a script is run.
    Plan,
    /// Runs the program's own script over agents that it makes.
    Trial,
    /// Tells whether a file is what a run publishes.
    Audit,
    /// Cuts the plane into strips with agents alike in number.
    Balance,
}

/// The mode of this name, or None where it names none.
pub(crate) fn mode_named(name: &str) -> Option<Mode>
    ensures { result ≡ mode_named name.now }
{
    match name {
        "run" => Some(Mode::Run),
        "resume" => Some(Mode::Resume),
        "check" => Some(Mode::Check),
        "fmt" => Some(Mode::Fmt),
        "plan" => Some(Mode::Plan),
        "trial" => Some(Mode::Trial),
        "audit" => Some(Mode::Audit),
        "balance" => Some(Mode::Balance),
        _ => None,
    }
}
