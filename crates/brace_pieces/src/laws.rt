//! Facts on runs over cut planes that hold always. The functions do nothing; their clauses are the
//! laws.
ghost use Rattle.std.specs.Prelude.{◌≡◌, ℕ, ◌+◌, ◌-◌, ◌<◌, ◌≤◌, nat_lt, ◌++◌, List, [], map, filter, filter_map, flat_map, length, false, Some, None, Ok, slice_get, IsTrue};
ghost use Rattle.std.specs.List.{Contains, range_with_len};
ghost use Rattle.std.specs.List.Sorted.{IsPermutation};
ghost use Rattle.brace_core.specs.Schedule.{IsLawful, turn_at};
ghost use Rattle.brace_core.specs.declared.name.Name.{Name};
ghost use Rattle.brace_core.specs.declared.name.Turn.TheVariants.{Done};
ghost use Rattle.brace_model.specs.declared.fault.Fault.{Fault};
ghost use Rattle.brace_model.specs.declared.fault.Phase.{Phase};
ghost use Rattle.brace_model.specs.declared.fault.Phase.TheVariants.{Query, Update, Birth};
ghost use Rattle.brace_model.specs.declared.world.Agent.{Agent};
ghost use Rattle.brace_model.specs.declared.world.Census.{Census};
ghost use Rattle.brace_model.specs.World.{World, RisesById, IsNumbered, class_of};
ghost use Rattle.brace_model.specs.Query.{query_of};
ghost use Rattle.brace_model.specs.Total.{said_to};
ghost use Rattle.brace_model.specs.Next.{has_births};
ghost use Rattle.brace_model.specs.Step.{living, children};
ghost use Rattle.brace_model.specs.Run.{world_after, first_fault};
ghost use Rattle.brace_pieces.specs.declared.setting.Setting.{Setting};
ghost use Rattle.brace_pieces.specs.declared.piece.Cause.{Cause};
ghost use Rattle.brace_pieces.specs.declared.piece.Cause.TheVariants as cause;
ghost use Rattle.brace_pieces.specs.declared.piece.Piece.TheVariants as piece;
ghost use Rattle.brace_pieces.specs.declared.setting.Stage.TheVariants.{Hand, Border, Move, Show};
ghost use Rattle.brace_pieces.specs.declared.setting.Step.{Step};
ghost use Rattle.brace_pieces.specs.Settings.{LawfulSetting, range, cuts_of, cuts_shown, parts, is_end, ends, shown_ticks};
ghost use Rattle.brace_pieces.specs.Steps.{schedule, step, steps, is_show, meet, met};
ghost use Rattle.brace_pieces.specs.Owned.{owned, held};
ghost use Rattle.brace_pieces.specs.Numbers.{NumbersFit};
ghost use Rattle.brace_pieces.specs.Together.{AreWhole, IsSorted, left_of, children_of, born_of, with_number, HaveClasses};
ghost use Rattle.brace_pieces.specs.Continued.{continued, continued_after, said, becomes, all_left, on, listed, birth_faults};
ghost use Rattle.brace_pieces.specs.Finds.{queries_found, updates_found, found_in, stage_of, IsFoundBy};
ghost use Rattle.brace_pieces.specs.Right.{IsRight, IsRightCause, IsTold, StandsBefore, IsFaultless, Share, said_by, shares, shares_to, border, handed, moved, census_of};
ghost use Rattle.brace_pieces.specs.Censuses.{IsCounted, fault_told, bearing};
ghost use Rattle.brace_pieces.specs.Heard.{own, near, said_here, heard, joined, found_here, IsShareOf, IsPartOver};
ghost use Rattle.brace_pieces.specs.Halts.{FollowsFirst};
ghost use Rattle.brace_pieces.specs.Counts.{count_border, count_effects, count_moved, count_handed};
ghost use Rattle.brace_pieces.specs.Given.{all_given};
ghost use Rattle.brace_pieces.specs.Courses.{OnCourse, IsCourse, at_start, turn_of, past_of, gone_on};

/// In the schedule of a run each pair that meets is of two different actors, meets both ways, and
/// is there once.
pub fn schedules_are_lawful()
    ensures { (s : Setting) → IsLawful (schedule s) }
{}

/// Where a run has a world of a tick, the continued world of that tick is that world.
pub fn continued_worlds_are_the_runs()
    ensures { (s : Setting) (n : ℕ) (world : World) → world_after s.job n ≡ Ok world
        → continued_after s n ≡ world }
{}

/// Where a right piece of a lawful run tells of a fault, the run ends in a first fault, which that
/// fault is not less than, and which is found in no later step: with inversion and without.
pub fn halt_law()
    ensures { (s : Setting) (name : Name) (f : Fault) → LawfulSetting s
        → IsRight s name (piece.Halt (cause.Fault f)) → FollowsFirst s f }
{}

/// The parts make each world together. What a part holds, and what it owns where other cuts hold
/// and in the next world, is what comes from its own agents and from those of the parts that it
/// meets, put in order by id; so `held`, `recut` and `moved` say. What a part gives then is what
/// its agents are in the next world and the children that they have (`given`), and without births
/// the living alone. All parts together have each agent of a class once (`all`). In each continued
/// world ids rise, below its next free id; each agent is of a class, and where the numbers of a
/// setting fit 64 bits so do those of its agents (`rises`, `numbered`, `classed`, `whole`); the
/// world behind one is the next tick's (`next`).
pub fn parts_make_the_world()
    ensures held { (s : Setting) (t p : ℕ) (world agents : List Agent) → LawfulSetting s
        → p < parts s → RisesById world → AreWhole s.job.program world
        → IsSorted (owned s.job.program (cuts_of s t) p world
        ++ flat_map (λ q. border s t q p world) (met s (step Border t) p)) agents
        → agents ≡ held s.job.program (cuts_of s t) (range s) p world }
    ensures recut { (s : Setting) (t p : ℕ) (world agents : List Agent) → LawfulSetting s
        → p < parts s → RisesById world → AreWhole s.job.program world
        → IsSorted (owned s.job.program (cuts_of s t) p
        (owned s.job.program (cuts_of s (t - 1)) p world)
        ++ flat_map (λ q. handed s t q p world) (met s (step Hand t) p)) agents
        → agents ≡ owned s.job.program (cuts_of s t) p world }
    ensures moved { (s : Setting) (t p : ℕ) (world : World) (agents : List Agent)
        → LawfulSetting s → p < parts s
        → RisesById world.agents → RisesById (continued s t world).agents
        → AreWhole s.job.program world.agents
        → AreWhole s.job.program (continued s t world).agents
        → IsSorted (moved s t p p world
        ++ flat_map (λ q. moved s t q p world) (met s (step Move t) p)) agents
        → agents ≡ owned s.job.program (cuts_of s t) p (continued s t world).agents }
    ensures given { (s : Setting) (t p q : ℕ) (world : World) → LawfulSetting s
        → RisesById world.agents → AreWhole s.job.program world.agents
        → let own = owned s.job.program (cuts_of s t) p world.agents in
        moved s t p q world ≡ owned s.job.program (cuts_of s t) q
        (left_of s t world.agents own ++ born_of s t world own) }
    ensures given_by_the_living { (s : Setting) (t p q : ℕ) (world : World) → LawfulSetting s
        → has_births s.job.program ≡ false
        → RisesById world.agents → AreWhole s.job.program world.agents
        → let own = owned s.job.program (cuts_of s t) p world.agents in
        moved s t p q world
        ≡ owned s.job.program (cuts_of s t) q (left_of s t world.agents own) }
    ensures all { (s : Setting) (t : ℕ) (world agents : List Agent) → LawfulSetting s
        → RisesById world → HaveClasses s.job.program world
        → IsSorted (flat_map (λ p. owned s.job.program (cuts_of s t) p world)
        (range_with_len 0 (parts s))) agents
        → agents ≡ world }
    ensures rises { (s : Setting) (t : ℕ) → LawfulSetting s → RisesById (on s t).agents }
    ensures numbered { (s : Setting) (t : ℕ) → LawfulSetting s → IsNumbered (on s t) }
    ensures whole { (s : Setting) (t : ℕ) → LawfulSetting s → NumbersFit s
        → AreWhole s.job.program (on s t).agents }
    ensures classed { (s : Setting) (t : ℕ) → LawfulSetting s → NumbersFit s
        → HaveClasses s.job.program (on s t).agents }
    ensures next { (s : Setting) (t : ℕ) → s.job.first ≤ t
        → on s (t + 1) ≡ continued s t (on s t) }
{}

/// What no part knows of births by itself its own census and those of all whom it meets tell it: in
/// one they are the census of the world (`all`). They tell the fault of the first parent that goes
/// too far, if one does (`faults`), and else all bear (`none`). The children of any of its agents
/// get ids by rank (`born`), and the next free id is larger by as many as bear (`next`).
pub fn censuses_decide()
    ensures all { (s : Setting) (t p : ℕ) (world : World) (all : Census)
        → IsCounted s t p world all
        → let left = all_left s t world.agents in all ≡ census_of (living left) (children left) }
    ensures faults { (s : Setting) (t p : ℕ) (world : World) (all : Census)
        → IsCounted s t p world all
        → birth_faults s t world ≡ listed (fault_told s.job.program world.next t all) }
    ensures none { (s : Setting) (t : ℕ) (world : World) (all : Census)
        → fault_told s.job.program world.next t all ≡ None
        → bearing s.job.program world.next all ≡ all.parents }
    ensures born { (s : Setting) (t p : ℕ) (world : World) (all : Census) (own : List Agent)
        → IsCounted s t p world all
        → let bear = bearing s.job.program world.next all in
        born_of s t world own ≡ filter_map (with_number world.next (map (λ p. p.id) bear))
        (children_of s t world.agents own) }
    ensures next { (s : Setting) (t p : ℕ) (world : World) (all : Census)
        → IsCounted s t p world all
        → (continued s t world).next
        ≡ world.next + length (bearing s.job.program world.next all) }
{}

/// What goes from part to part in a move. A part gives nothing to one that it does not meet
/// (`apart`). Of what it gives to another, those that lived before are its own agents that live on
/// there (`lived`): a child is not moved.
pub fn moves_are_of_the_living()
    ensures apart { (s : Setting) (t p q : ℕ) (world : World) → LawfulSetting s → p < parts s
        → RisesById world.agents → AreWhole s.job.program world.agents
        → AreWhole s.job.program (continued s t world).agents
        → (q ≡ p → ⊥) → meet s (step Move t) p q ≡ false → moved s t q p world ≡ [] }
    ensures lived { (s : Setting) (t p q : ℕ) (world : World) → LawfulSetting s
        → IsNumbered world → AreWhole s.job.program world.agents
        → let own = owned s.job.program (cuts_of s t) p world.agents in
        filter (λ a. nat_lt a.id world.next) (moved s t p q world)
        ≡ owned s.job.program (cuts_of s t) q (left_of s t world.agents own) }
{}

/// What a part does over the agents that it holds, and what it is told, is what is done over all.
///
/// Without inversion the query of each agent of a part does over the agents that the part holds
/// what it does over all; and what the part tells another, it makes of the agents that it holds:
/// to each that the other owns, and to each of its effects, what the part's agents say to it, in
/// the order of the agents. To each effect of each agent of the part all say the values that the
/// part hears, each as often; so each agent of the part becomes what it becomes by what the part
/// hears. A share that it is told is of an effect of one of its agents, and the values that its
/// shares stand for are enough. The faults that it meets are those that it finds.
pub fn parts_hear_all()
    ensures query { (s : Setting) (tick p : ℕ) (world : List Agent) → IsPartOver s tick p world
        → s.invert ≡ false → (a : Agent) → Contains (own s tick p world) a
        → query_of s.job.program s.job.seed tick (near s tick p world) a
        ≡ query_of s.job.program s.job.seed tick world a }
    ensures told { (s : Setting) (tick p : ℕ) (world : List Agent) → IsPartOver s tick p world
        → s.invert ≡ false → (q : ℕ)
        → shares s tick p q world
        ≡ flat_map (λ b. shares_to (said_here s.job.program s tick p world) b
        (class_of s.job.program b)) (own s tick q (near s tick p world)) }
    ensures heard { (s : Setting) (tick p : ℕ) (world : List Agent) → IsPartOver s tick p world
        → (b : Agent) → Contains (own s tick p world) b → (effect : ℕ)
        → IsPermutation
        (said_to b.id effect (said s tick world))
        (said_to b.id effect (heard s tick p world)) }
    ensures becomes { (s : Setting) (tick p : ℕ) (world : List Agent) → IsPartOver s tick p world
        → (b : Agent) → Contains (own s tick p world) b
        → becomes s tick (said s tick world) b ≡ becomes s tick (heard s tick p world) b }
    ensures share { (s : Setting) (tick p : ℕ) (world : List Agent) → IsPartOver s tick p world
        → (q : ℕ) (share : Share) → Contains (shares s tick q p world) share
        → IsShareOf s.job.program (own s tick p world) (said_by s tick q world) share }
    ensures joined { (s : Setting) (tick p : ℕ) (world : List Agent) → IsPartOver s tick p world
        → s.invert ≡ false → (b : Agent) → Contains (own s tick p world) b
        → becomes s tick (said s tick world) b ≡ becomes s tick (joined s tick p world) b }
    ensures found { (s : Setting) (tick p : ℕ) (world : List Agent) → IsPartOver s tick p world
        → found_here s tick p world ≡ queries_found s tick p world }
{}

/// Of a lawful run the faults that a part finds in its queries and updates, and those of births,
/// may be told in each step behind the one in whose work they are found; and what may be told in a
/// step may be told in each later one.
pub fn found_faults_may_be_told()
    ensures queries { (s : Setting) (tick p number : ℕ) (f : Fault) → LawfulSetting s
        → Contains (queries_found s tick p (on s tick).agents) f
        → StandsBefore s (step (stage_of s Query) tick) number → IsTold s number f }
    ensures updates { (s : Setting) (tick p number : ℕ) (f : Fault) → LawfulSetting s
        → Contains (updates_found s tick p (on s tick).agents) f
        → StandsBefore s (step (stage_of s Update) tick) number → IsTold s number f }
    ensures births { (s : Setting) (tick number : ℕ) (f : Fault)
        → Contains (birth_faults s tick (on s tick)) f
        → StandsBefore s (step (stage_of s Birth) tick) number → IsTold s number f }
    ensures later { (s : Setting) (number other : ℕ) (c : Cause) → number ≤ other
        → IsRightCause s number c → IsRightCause s other c }
{}

/// Each fault of a continued world is found by a part. So where no part finds one before a tick,
/// the run has a world there: the continued one. A run that ends in a first fault has a world in
/// each tick up to that fault's, and finds it there.
pub fn parts_find_all()
    ensures found { (s : Setting) (t : ℕ) (phase : Phase) (f : Fault) → LawfulSetting s
        → NumbersFit s → Contains (found_in s t phase) f → IsFoundBy s t phase f }
    ensures reached { (s : Setting) (k : ℕ) → LawfulSetting s → NumbersFit s
        → s.job.first ≤ k → k ≤ s.job.last → ((p : ℕ) → p < parts s → IsFaultless s k p)
        → world_after s.job (k - s.job.first) ≡ Ok (on s k) }
    ensures first { (s : Setting) (g : Fault) → LawfulSetting s → first_fault s.job ≡ Some g
        → (s.job.first ≤ g.tick) × (g.tick < s.job.last) × Contains (found_in s g.tick g.phase) g }
    ensures before { (s : Setting) (g : Fault) (t : ℕ) → LawfulSetting s
        → first_fault s.job ≡ Some g → s.job.first ≤ t → t ≤ g.tick
        → world_after s.job (t - s.job.first) ≡ Ok (on s t) }
{}

/// Each end of an epoch has one step, which shows it; these stand in the order of the ends. No
/// step stands twice. Behind a step of a tick only later ends are shown, and before it only those
/// up to its tick. The run's last tick is an end. In an epoch all is shown under the same cuts.
pub fn ends_are_shown()
    ensures shows { (s : Setting) → filter (λ at. is_show at.stage) (steps s)
        ≡ map (step Show) (ends s) }
    ensures once { (s : Setting) (i j : ℕ) (at : Step) → slice_get (steps s) i ≡ Some at
        → slice_get (steps s) j ≡ Some at → i ≡ j }
    ensures behind { (s : Setting) (i j : ℕ) (at : Step) (end : ℕ)
        → slice_get (steps s) i ≡ Some at → is_show at.stage ≡ false
        → slice_get (steps s) j ≡ Some (step Show end) → i < j → at.tick < end }
    ensures before { (s : Setting) (i j : ℕ) (at : Step) (end : ℕ)
        → slice_get (steps s) i ≡ Some at → is_show at.stage ≡ false
        → slice_get (steps s) j ≡ Some (step Show end) → j < i → end ≤ at.tick }
    ensures last { (s : Setting) → s.job.first ≤ s.job.last → Contains (ends s) s.job.last }
    ensures cuts { (s : Setting) (end t : ℕ) → LawfulSetting s → IsTrue (is_end s end)
        → Contains (shown_ticks s end) t → cuts_shown s t ≡ cuts_shown s end }
{}

/// An actor's course makes the turns of the run's schedule, one by one. Its next turn is that of
/// the schedule behind as many as it made; it made none at its start, and one more behind each.
pub fn courses_are_the_turns()
    ensures turn { (c : OnCourse) → IsCourse c
        → turn_of c ≡ turn_at (schedule c.setting) c.actor (past_of c) }
    ensures start { (s : Setting) (p : ℕ) → past_of (at_start s p) ≡ 0 }
    ensures past { (c : OnCourse) → IsCourse c → (turn_of c ≡ Done → ⊥)
        → past_of (gone_on c) ≡ past_of c + 1 }
    ensures course { (c : OnCourse) → IsCourse c → (turn_of c ≡ Done → ⊥)
        → IsCourse (gone_on c) }
{}

/// Where a run has a world in each tick, all that its parts give in all steps is
/// what the whole worlds say: parts that do not meet would give each other nothing.
pub fn counts_are_the_runs()
    ensures { (s : Setting) → LawfulSetting s → NumbersFit s
        → ((t : ℕ) → s.job.first ≤ t → t ≤ s.job.last
        → world_after s.job (t - s.job.first) ≡ Ok (on s t))
        → all_given s ≡ record {
          border = count_border s;
          effects = count_effects s;
          moved = count_moved s;
          handed = count_handed s;
        } }
{}
