use brace_core::Freight;

/// What lanes need to know of what they carry. Every `Freight` is such; lanes don't need to know
/// that it may cross threads, since no step of theirs sends anything.
pub trait Cargo: Drop {
    ghost use Rattle.brace_core.specs.Schedule.{Schedule};
    ghost use Rattle.brace_core.specs.declared.name.Name.{Name};

    /// What a run is made for.
    type Setting;

    /// Who meets whom in which step.
    ghost schedule: { Self.Setting → Schedule };

    /// Whether a piece is right for a name.
    ghost right: { Self.Setting → Name → Self → Type 0 };
}

impl<F: Freight> Cargo for F {
    type Setting = F::Setting;

    ghost schedule = { F.schedule };

    ghost right = { F.right };
}
