//! Facts on outcomes that hold always. The functions do nothing; their clauses are the laws.
ghost use Rattle.std.specs.Prelude.{◌≡◌, ◌≤◌, ◌<◌, ℕ, ◌+◌, ◌-◌, ◌^◌, List, ◌++◌, length, Some, Ok, true, false};
ghost use Rattle.brace_io.specs.Shelves.{Files};
ghost use Rattle.brace_model.specs.declared.job.Job.{Job};
ghost use Rattle.brace_model.specs.World.{World};
ghost use Rattle.brace_model.specs.Run.{world_after, first_fault};
ghost use Rattle.brace_model.specs.Published.{text_of_ticks, published};
ghost use Rattle.brace_model.specs.declared.fault.Fault.{Fault};
ghost use Rattle.brace_pieces.specs.declared.setting.Setting.{Setting};
ghost use Rattle.brace_pieces.specs.Numbers.{NumbersFit};
ghost use Rattle.brace_pieces.specs.Settings.{LawfulSetting};
ghost use Rattle.brace_save.specs.Lines.{IsText};
ghost use Rattle.brace_desk.specs.Shows.{checkpoint_file};
ghost use Rattle.brace_command.specs.Commands.{Format, Run, RunCommand};
ghost use Rattle.brace_command.specs.Messages.{fault_message};
ghost use Rattle.brace_command.specs.Outcome.{Outcome, CommandOutcome, HasOutcome, end_status};
ghost use Rattle.brace_command.specs.Restarts.{from_tick, told_world, GoesOn};
ghost use Rattle.brace_command.specs.Limits.{script_limit, checkpoint_limit};
ghost use Rattle.brace_command.specs.declared.status.Status.TheVariants.{Done};

/// A command over files has at most one outcome: one status, one text, one message and one list of
/// saved files.
pub fn outcomes_agree()
    ensures status { (words : List (List ℕ)) (files : Files) (o p : Outcome)
        → HasOutcome words files o → HasOutcome words files p → o.status ≡ p.status }
    ensures out { (words : List (List ℕ)) (files : Files) (o p : Outcome)
        → HasOutcome words files o → HasOutcome words files p → o.out ≡ p.out }
    ensures saved { (words : List (List ℕ)) (files : Files) (o p : Outcome)
        → HasOutcome words files o → HasOutcome words files p → o.saved ≡ p.saved }
    ensures err { (words : List (List ℕ)) (files : Files) (o p : Outcome)
        → HasOutcome words files o → HasOutcome words files p → o.err ≡ p.err }
{}

/// `fmt` of what `fmt` wrote, within the limit of scripts, writes the same: the first outcome is an
/// outcome of that text, and its only one.
pub fn formatted_scripts_stay()
    ensures again { (files others : Files) (name other : List ℕ) (o : Outcome)
        → CommandOutcome files (Some (Format name)) o → o.status ≡ Done
        → others other ≡ Some o.out → length o.out ≤ script_limit
        → CommandOutcome others (Some (Format other)) o }
    ensures only { (files others : Files) (name other : List ℕ) (o : Outcome)
        → CommandOutcome files (Some (Format name)) o → o.status ≡ Done
        → others other ≡ Some o.out → length o.out ≤ script_limit
        → (p : Outcome) → CommandOutcome others (Some (Format other)) p → p ≡ o }
{}

/// A run may be begun anew from the world of any tick that it reaches: the rows up to that tick and
/// those of the run from there, whose first tick is not published again, are all its rows, and both
/// end in the same fault or in none. How either run is cut, and its epochs and inversion, play no
/// part in it.
pub fn runs_may_be_begun_anew()
    ensures rows { (job : Job) (tick : ℕ) (world : World) → job.first ≤ tick → tick ≤ job.last
        → world_after job (tick - job.first) ≡ Ok world
        → published job true ≡ text_of_ticks job true (1 + (tick - job.first))
        ++ published (from_tick job tick world) false }
    ensures fault { (job : Job) (tick : ℕ) (world : World) → job.first ≤ tick → tick ≤ job.last
        → world_after job (tick - job.first) ≡ Ok world
        → first_fault (from_tick job tick world) ≡ first_fault job }
{}

/// The file that a run saves at a tick is a checkpoint: it tells the tick, the seed and the tick's
/// world; where no class bears children, the agents of that world alone. It is not too long to be
/// read.
pub fn saved_files_tell_their_worlds()
    ensures tells { (s : Setting) (name : List ℕ) (tick : ℕ) (world : World) → LawfulSetting s
        → NumbersFit s → s.job.seed < 2 ^ 64 → s.job.first ≤ tick → tick ≤ s.job.last
        → world_after s.job (tick - s.job.first) ≡ Ok world
        → IsText s.job.program (record {
          tick = tick;
          seed = s.job.seed;
          world = told_world s.job.program world;
        }) (checkpoint_file name s tick world).1 }
    ensures within { (s : Setting) (name : List ℕ) (tick : ℕ) (world : World) → LawfulSetting s
        → NumbersFit s → s.job.seed < 2 ^ 64 → s.job.first ≤ tick → tick ≤ s.job.last
        → world_after s.job (tick - s.job.first) ≡ Ok world
        → length (checkpoint_file name s tick world).1 ≤ checkpoint_limit }
{}

/// A run that is resumed from a checkpoint goes on as the first one does, from the tick that the
/// checkpoint tells: the rows up to that tick and its own are all rows of the first run, it ends in
/// the same status, and it names the same fault. The two may be cut, and worked, each in its way. A
/// checkpoint tells a world with its next free id; where no class bears children that plays no
/// part, and is not told.
pub fn resumed_runs_go_on()
    ensures rows { (files : Files) (job : Job) (tick : ℕ) (world : World) (run : RunCommand)
        (o : Outcome) → job.first ≤ tick → tick ≤ job.last
        → world_after job (tick - job.first) ≡ Ok world
        → GoesOn files job tick world run
        → CommandOutcome files (Some (Run run)) o
        → published job true ≡ text_of_ticks job true (1 + (tick - job.first)) ++ o.out }
    ensures status { (files : Files) (job : Job) (tick : ℕ) (world : World) (run : RunCommand)
        (o : Outcome) → job.first ≤ tick → tick ≤ job.last
        → world_after job (tick - job.first) ≡ Ok world
        → GoesOn files job tick world run
        → CommandOutcome files (Some (Run run)) o → o.status ≡ end_status (first_fault job) }
    ensures fault { (files : Files) (job : Job) (tick : ℕ) (world : World) (run : RunCommand)
        (o : Outcome) → job.first ≤ tick → tick ≤ job.last
        → world_after job (tick - job.first) ≡ Ok world
        → GoesOn files job tick world run
        → CommandOutcome files (Some (Run run)) o → (f : Fault) → first_fault job ≡ Some f
        → o.err ≡ fault_message f }
{}
