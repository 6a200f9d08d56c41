//! Facts on what the publisher of a run is shown that hold always. The functions do nothing; their
//! clauses are the laws.
ghost use Rattle.std.specs.Prelude.{◌≡◌, ℕ, ◌-◌, ◌≤◌, flat_map, Bool, Some, Ok};
ghost use Rattle.std.specs.List.{Contains};
ghost use Rattle.brace_model.specs.World.{World};
ghost use Rattle.brace_model.specs.Run.{world_after};
ghost use Rattle.brace_model.specs.Published.{published};
ghost use Rattle.brace_pieces.specs.declared.setting.Setting.{Setting};
ghost use Rattle.brace_pieces.specs.Settings.{LawfulSetting, ends};
ghost use Rattle.brace_desk.specs.Calls.{calls, call_at};
ghost use Rattle.brace_desk.specs.Shows.{shown_text, saved_world};

/// The rows of the worlds that the publisher of a run is shown, call by call, are the run's
/// published text. At each end of an epoch at which the run has a world, that world is saved.
pub fn calls_tell_the_published_text()
    ensures text { (s : Setting) (fresh : Bool) → LawfulSetting s → s.job.first ≤ s.job.last
        → flat_map (λ c. shown_text s.job fresh c.worlds) (calls s) ≡ published s.job fresh }
    ensures saved { (s : Setting) (end : ℕ) (w : World) → Contains (ends s) end
        → world_after s.job (end - s.job.first) ≡ Ok w
        → saved_world s end (call_at s end).worlds ≡ Some w }
{}
