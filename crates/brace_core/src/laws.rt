//! What holds of every run of events. The function does nothing; its clauses are the law.
ghost use Rattle.std.specs.Prelude.{◌≡◌, ◌≤◌, ◌+◌, ◌⊎◌, ℕ, IsTrue, length, drop};
ghost use Rattle.brace_core.specs.Schedule.{Schedule, IsLawful, front, lane};
ghost use Rattle.brace_core.specs.Events.{OnRuns, AllDone, AreFirst, IsRun, IsWithin, RiseByStep, end_of, is_enabled, put_on, taken_from, in_flight, events_of};

/// For every lawful schedule and every list of events that are enabled one after the other,
/// whatever their order:
///
/// - the names put on a lane, and those taken from it, are the lane's first names in order; a lane
///   has no name twice; where all actors are Done they are all its names;
/// - the names in flight on a lane are the next behind those taken, and at most two;
/// - an actor has put to another at most one name more than it has taken from it;
/// - all actors are Done, or some event is enabled;
/// - all actors are Done after two events for each pair that meets in a step and one for each actor
///   of each step, whatever the events.
pub fn core_law()
    ensures put_in_order { OnRuns (λ s events. (p q : ℕ) →
        AreFirst (put_on s events p q) (lane s p q)) }
    ensures taken_in_order { OnRuns (λ s events. (p q : ℕ) →
        AreFirst (taken_from s events p q) (lane s p q)) }
    ensures no_name_twice { (s : Schedule) (p q : ℕ) → RiseByStep (lane s p q) }
    ensures all_put { OnRuns (λ s events. AllDone s (end_of s events) → (p q : ℕ) →
        put_on s events p q ≡ lane s p q) }
    ensures all_taken { OnRuns (λ s events. AllDone s (end_of s events) → (p q : ℕ) →
        taken_from s events p q ≡ lane s p q) }
    ensures consecutive { OnRuns (λ s events. (p q : ℕ) →
        AreFirst (in_flight s events p q) (drop (length (taken_from s events p q)) (lane s p q))) }
    ensures two_in_flight { OnRuns (λ s events. (p q : ℕ) →
        length (in_flight s events p q) ≤ 2) }
    ensures answered { OnRuns (λ s events. (p q : ℕ) →
        length (put_on s events p q) ≤ length (taken_from s events q p) + 1) }
    ensures progress { OnRuns (λ s events.
        AllDone s (end_of s events) ⊎ ((p : ℕ) × IsTrue (is_enabled s (end_of s events) p))) }
    ensures counted { OnRuns (λ s events. AllDone s (end_of s events) →
        length events ≡ events_of s) }
{}

/// A run may end before its schedule does. The front of a lawful schedule is lawful, and its lanes'
/// names are the first of the whole's. A run in which no actor went behind a front is a run of that
/// front, to the same end. There all actors have no turn of the front left, or one of them can make
/// one; where none has one left, all names of the front were put and taken, and no others.
pub fn front_law()
    ensures lawful { (s : Schedule) (n : ℕ) → IsLawful s → IsLawful (front s n) }
    ensures names { (s : Schedule) (n p q : ℕ) → AreFirst (lane (front s n) p q) (lane s p q) }
    ensures run { OnRuns (λ s events. (n : ℕ) → IsWithin s n (end_of s events) →
        IsRun (front s n) events) }
    ensures end { OnRuns (λ s events. (n : ℕ) → IsWithin s n (end_of s events) →
        end_of (front s n) events ≡ end_of s events) }
    ensures progress { OnRuns (λ s events. (n : ℕ) → IsWithin s n (end_of s events) →
        AllDone (front s n) (end_of s events)
        ⊎ ((p : ℕ) × IsTrue (is_enabled (front s n) (end_of s events) p))) }
    ensures all_put { OnRuns (λ s events. (n : ℕ) → IsWithin s n (end_of s events) →
        AllDone (front s n) (end_of s events) → (p q : ℕ) →
        put_on s events p q ≡ lane (front s n) p q) }
    ensures all_taken { OnRuns (λ s events. (n : ℕ) → IsWithin s n (end_of s events) →
        AllDone (front s n) (end_of s events) → (p q : ℕ) →
        taken_from s events p q ≡ lane (front s n) p q) }
{}
