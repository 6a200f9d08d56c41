/// What actors exchange, under a setting.
pub trait Freight: Send + Drop {
    ghost use Rattle.brace_core.specs.Schedule.{Schedule};
    ghost use Rattle.brace_core.specs.declared.name.Name.{Name};

    /// What a run is made for. No exchange reads it.
    type Setting;

    /// Who meets whom in which step.
    ghost schedule: { Self.Setting → Schedule };

    /// Whether a piece is right for a name.
    ghost right: { Self.Setting → Name → Self → Type 0 };
}
