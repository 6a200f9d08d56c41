//! Facts on code that hold always. The functions do nothing; their clauses are the laws.
ghost use Rattle.std.specs.Prelude.{◌≡◌, ◌<◌, ℕ, ℤ, List, pos, length, slice_index_or, Ok};
ghost use Rattle.brace_draw.specs.declared.Drawer.{Drawer};
ghost use Rattle.brace_model.specs.declared.job.Env.{Env};
ghost use Rattle.brace_model.specs.declared.program.Expr.{Expr};
ghost use Rattle.brace_model.specs.declared.program.Ty.{Ty};
ghost use Rattle.brace_model.specs.Scopes.{scope_of};
ghost use Rattle.brace_model.specs.Typed.{Fits};
ghost use Rattle.brace_model.specs.Typing.{Names};
ghost use Rattle.brace_model.specs.Value.{Scope, Worth, typed, value};
ghost use Rattle.brace_code.specs.declared.code.Code.{Code};
ghost use Rattle.brace_code.specs.declared.lane.Frame.{Frame};
ghost use Rattle.brace_code.specs.declared.lane.Lane.{Lane};
ghost use Rattle.brace_code.specs.Codes.{Computes, gives, type_given};
ghost use Rattle.brace_code.specs.Lanes.{Gives, Shows};

/// Where lanes have words, a single run in the environment of a lane gives the value of the lane's
/// word: what `eval_lanes` says of words and what `eval` says of its result, together.
pub fn lanes_and_single_runs_agree()
    ensures agree { (code : Code) (frame : Frame) (lanes : List Lane) (words : List ℤ)
        (scope : Lane → Scope) (k : ℕ) (d : Lane) (env : Env) (drawer : Drawer) (single : Worth)
        → Gives code frame lanes words → Shows frame scope → k < length lanes
        → scope (slice_index_or lanes k d) ≡ scope_of env drawer
        → single ≡ gives code (scope_of env drawer)
        → single ≡ Ok (typed (type_given code) (slice_index_or words k (pos 0))) }
{}

/// Where lanes have words, the expression that was compiled has a value in each lane's scope, and
/// the lane's word is that value's.
pub fn lanes_have_the_values_of_expressions()
    ensures values { (names : Names) (e : Expr) (t : Ty) (code : Code) (frame : Frame)
        (lanes : List Lane) (words : List ℤ) (scope : Lane → Scope) (k : ℕ) (d : Lane)
        → Computes names e t code → Gives code frame lanes words → Shows frame scope
        → k < length lanes → Fits names (scope (slice_index_or lanes k d))
        → value e (scope (slice_index_or lanes k d))
        ≡ Ok (typed t (slice_index_or words k (pos 0))) }
{}
