//! A fact on checkpoints that holds always. The function does nothing; its clause is the law.
ghost use Rattle.std.specs.Prelude.{◌≤◌, ◌^◌, ℕ, List, length};
ghost use Rattle.brace_model.specs.declared.program.Program.{Program};
ghost use Rattle.brace_model.specs.Lawful.{LawfulProgram};
ghost use Rattle.brace_save.specs.Lines.{IsText};
ghost use Rattle.brace_save.specs.Texts.{Moment};

/// A text of a checkpoint has at most 2^28 bytes, whatever moment of a lawful program it tells.
pub fn checkpoints_are_short()
    ensures { (program : Program) (moment : Moment) (bytes : List ℕ) → LawfulProgram program
        → IsText program moment bytes → length bytes ≤ 2 ^ 28 }
{}
