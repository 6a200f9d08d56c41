//! What inversion keeps, over whole worlds. The functions do nothing; their clauses are the laws.
ghost use Rattle.std.specs.Prelude.{◌≡◌, ◌↔◌, ℕ, Bool, true, List, [], filter};
ghost use Rattle.std.specs.List.{Contains};
ghost use Rattle.std.specs.List.Sorted.{IsPermutation};
ghost use Rattle.brace_model.specs.declared.program.Program.{Program};
ghost use Rattle.brace_model.specs.declared.fault.Fault.{Fault};
ghost use Rattle.brace_model.specs.declared.world.Agent.{Agent};
ghost use Rattle.brace_model.specs.World.{RisesById};
ghost use Rattle.brace_model.specs.Query.{query_of, said_in, query_faults};
ghost use Rattle.brace_model.specs.Total.{said_to};
ghost use Rattle.brace_model.specs.FaultOrder.{least};
ghost use Rattle.brace_model.specs.Lawful.{LawfulProgram};
ghost use Rattle.brace_invert.specs.Split.{forward_program, inverse_program};
ghost use Rattle.brace_num.specs.declared.kinds.Area.{Area};
ghost use Rattle.brace_invert.specs.Range.{range_of};
ghost use Rattle.brace_invert.specs.Held.{is_in, HoldsNear};
ghost use Rattle.brace_invert.specs.Assigned.{IsAtAssignmentTo};
ghost use Rattle.brace_invert.specs.Inversion.{said_by_both, found_by_both, IsForeseen};

/// Where no query faults the forward and the inverse program together say what the script says,
/// each saying as often; so to each effect of each agent they say the same values, each as often.
pub fn both_say_the_same()
    ensures said { (program : Program) (seed tick : ℕ) (world : List Agent)
        → query_faults program seed tick world ≡ []
        → IsPermutation
        (said_in program seed tick world)
        (said_by_both program seed tick world) }
    ensures to_each { (program : Program) (seed tick : ℕ) (world : List Agent) (id effect : ℕ)
        → query_faults program seed tick world ≡ []
        → IsPermutation
        (said_to id effect (said_in program seed tick world))
        (said_to id effect (said_by_both program seed tick world)) }
{}

/// Of a lawful script: each fault of both programs is one of the script's, or stands at a greater
/// site than one of the script's of the same agent; each fault of the script is one of theirs. So
/// there is a fault with both exactly where there is one without, and the least is the same.
pub fn least_fault_kept()
    ensures forward { (program : Program) (seed tick : ℕ) (world : List Agent)
        → LawfulProgram program
        → (g : Fault) → Contains (query_faults (forward_program program) seed tick world) g
        → IsForeseen (query_faults program seed tick world) g }
    ensures inverse { (program : Program) (seed tick : ℕ) (world : List Agent)
        → LawfulProgram program
        → (g : Fault) → Contains (query_faults (inverse_program program) seed tick world) g
        → IsForeseen (query_faults program seed tick world) g }
    ensures found { (program : Program) (seed tick : ℕ) (world : List Agent)
        → (f : Fault) → Contains (query_faults program seed tick world) f
        → Contains (found_by_both program seed tick world) f }
    ensures none { (program : Program) (seed tick : ℕ) (world : List Agent)
        → LawfulProgram program
        → found_by_both program seed tick world ≡ [] ↔ query_faults program seed tick world ≡ [] }
    ensures least { (program : Program) (seed tick : ℕ) (world : List Agent)
        → LawfulProgram program
        → least (found_by_both program seed tick world)
        ≡ least (query_faults program seed tick world) }
{}

/// The owner of an area holds of a world whose ids rise all agents within the range of the area,
/// the range with inversion, and besides only agents of the world. Over these the forward program
/// does for each agent of the area what it does over the world, and the inverse program says the
/// same values to each effect of each agent of the area, in the same order. A program over some
/// agents of a world faults only as it does over the world, and the inverse program meets over the
/// owner's all its faults at assignments to agents of the area.
pub fn owners_list_suffices()
    ensures forward { (program : Program) (seed tick : ℕ) (world : List Agent)
        (area : Area) (held : Agent → Bool)
        → LawfulProgram program → HoldsNear program area (range_of program true) world held
        → (a : Agent) → is_in program area a ≡ true
        → query_of (forward_program program) seed tick (filter held world) a
        ≡ query_of (forward_program program) seed tick world a }
    ensures inverse { (program : Program) (seed tick : ℕ) (world : List Agent)
        (area : Area) (held : Agent → Bool)
        → LawfulProgram program → RisesById world
        → HoldsNear program area (range_of program true) world held
        → (b : Agent) → Contains world b → is_in program area b ≡ true → (effect : ℕ)
        → said_to b.id effect (said_in (inverse_program program) seed tick (filter held world))
        ≡ said_to b.id effect (said_in (inverse_program program) seed tick world) }
    ensures faults { (program : Program) (seed tick : ℕ) (world : List Agent) (held : Agent → Bool)
        → (g : Fault) → Contains (query_faults program seed tick (filter held world)) g
        → Contains (query_faults program seed tick world) g }
    ensures assigned { (program : Program) (seed tick : ℕ) (world : List Agent)
        (area : Area) (held : Agent → Bool)
        → LawfulProgram program → RisesById world
        → HoldsNear program area (range_of program true) world held
        → (b : Agent) → Contains world b → is_in program area b ≡ true
        → (g : Fault) → Contains (query_faults (inverse_program program) seed tick world) g
        → IsAtAssignmentTo (inverse_program program) world g b.id
        → Contains (query_faults (inverse_program program) seed tick (filter held world)) g }
{}
