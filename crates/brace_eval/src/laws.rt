//! Facts on values, steps and what was heard that hold always. The functions do nothing; their
//! clauses are the laws.
ghost use Rattle.std.specs.Prelude.{◌≡◌, ℕ, List, Ok, Some};
ghost use Rattle.brace_model.specs.declared.program.Expr.{Expr};
ghost use Rattle.brace_model.specs.declared.program.Program.{Program};
ghost use Rattle.brace_model.specs.declared.program.Ty.{Ty};
ghost use Rattle.brace_model.specs.declared.program.Value.{Value};
ghost use Rattle.brace_model.specs.declared.fault.Fault.{Fault};
ghost use Rattle.brace_model.specs.declared.world.Agent.{Agent};
ghost use Rattle.brace_model.specs.World.{World, IsNumbered, class_of};
ghost use Rattle.brace_model.specs.Query.{Saying};
ghost use Rattle.brace_model.specs.Value.{Scope, value};
ghost use Rattle.brace_model.specs.Typing.{Names, type_of, type_of_value};
ghost use Rattle.brace_model.specs.Lawful.{LawfulProgram, LawfulAgents};
ghost use Rattle.brace_model.specs.Step.{step};
ghost use Rattle.brace_eval.specs.declared.heard.Heard.{Heard};
ghost use Rattle.brace_model.specs.Typed.{Fits};
ghost use Rattle.brace_eval.specs.Heard.{IsHeard, effects_in};

/// The value of a well-typed expression is of its type, where each name has a value of its type.
pub fn values_are_of_their_types()
    ensures typed { (names : Names) (scope : Scope) (e : Expr) (t : Ty) (v : Value)
        → Fits names scope → type_of e names ≡ Some t → value e scope ≡ Ok v
        → type_of_value v ≡ t }
{}

/// A step from a world with rising ids below its next free id, which is at most 2^63, leads to such
/// a world.
pub fn steps_keep_worlds_numbered()
    ensures numbered { (program : Program) (seed tick : ℕ) (world next : World)
        → IsNumbered world → step program seed tick world ≡ Ok next → IsNumbered next }
{}

/// A step of a lawful program from lawful agents leads to lawful agents: they are of the program's
/// classes, with values of their states' types, and keep to the limits of ids, agents and values.
pub fn steps_keep_worlds_lawful()
    ensures lawful { (program : Program) (seed tick : ℕ) (world next : World)
        → LawfulProgram program → LawfulAgents program world.agents
        → step program seed tick world ≡ Ok next → LawfulAgents program next.agents }
{}

/// What was heard is the same to two programs whose classes have the same effects.
pub fn programs_of_the_same_effects_hear_alike()
    ensures alike { (p q : Program) (agents : List Agent) (said : List Saying)
        (faults : List Fault) (heard : Heard)
        → ((a : Agent) → effects_in (class_of p a) ≡ effects_in (class_of q a))
        → IsHeard p agents said faults heard → IsHeard q agents said faults heard }
{}
