//! What holds of every lane at every moment. The function does nothing; its clauses are the law.
ghost use Rattle.std.specs.Prelude.{◌≡◌, ◌≤◌, ◌<◌, ◌+◌, ℕ, List, Option, filter, length};
ghost use Rattle.brace_core.specs.Events.{is_on};
ghost use Rattle.brace_core.specs.Exchanges.{IsNext};
ghost use Rattle.brace_core.specs.Schedule.{Schedule};
ghost use Rattle.brace_core.specs.declared.name.Name.{Name};
ghost use Rattle.brace_core.specs.declared.name.Turn.TheVariants.{Put, Take};
ghost use Rattle.brace_lanes.specs.Places.{put_of, taken_of};
ghost use Rattle.brace_lanes.specs.Rule.{OnLanes};
ghost use Rattle.brace_lanes.specs.States.{Fly, MakesTurn, OnSeats, put_stored, taken_stored};
ghost use Rattle.brace_lanes.specs.Views.{Serves};

use crate::cargo::Cargo;

/// In any schedule of threads, by the words of the lanes, and by the names in flight that these
/// show of the exchange core:
///
/// - no more names of a lane were taken than were put;
/// - an actor has put to another at most one name more than it has taken from it;
/// - at most two names of a lane are in flight;
/// - fewer than two are, where as many were put as were taken from the opposite lane;
/// - a store of a put word is the event that the name is put which is the next of its lane, and a
///   store of a taken word that the oldest in flight is taken, which can be made. No other step
///   stores a word.
pub fn lanes_law<F: Cargo>()
    ensures in_order { OnLanes (Option F) F.Setting (λ n words p q.
        taken_of n words p q ≤ put_of n words p q) }
    ensures answered { OnLanes (Option F) F.Setting (λ n words p q.
        put_of n words p q ≤ taken_of n words q p + 1) }
    ensures two_in_flight { OnLanes (Option F) F.Setting (λ n words p q.
        put_of n words p q ≤ taken_of n words p q + 2) }
    ensures fewer_where_answered { OnLanes (Option F) F.Setting (λ n words p q.
        put_of n words p q ≡ taken_of n words q p →
        put_of n words p q < taken_of n words p q + 2) }
    ensures two_fly { OnLanes (Option F) F.Setting (λ n words p q.
        (s : Schedule) (flight : List Name) → Fly s n words flight →
        length (filter (is_on p q) flight) ≤ 2) }
    ensures puts { OnSeats (Option F) F.Setting (λ n words v name. (s : Schedule) →
        Serves v name.from → IsNext s name (put_of n words name.from name.to) →
        MakesTurn s n words (put_stored n v words name.from name.to) (Put name)) }
    ensures takes { OnSeats (Option F) F.Setting (λ n words v name. (s : Schedule) →
        Serves v name.to → IsNext s name (taken_of n words name.from name.to) →
        taken_of n words name.from name.to < put_of n words name.from name.to →
        MakesTurn s n words (taken_stored n v words name.to name.from) (Take name)) }
{}
