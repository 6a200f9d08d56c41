ghost use Rattle.std.specs.Prelude.{◌≡◌, ◌+◌, ◌<◌, ◌≤◌, ℕ, All, map, length, IfSome, IfNone};
ghost use Rattle.std.specs.List.{range_with_len};
ghost use Rattle.brace_core.specs.Schedule.{IsLawful, front};
ghost use Rattle.brace_core.specs.Exchanges.{AreAllOf, due_to};
ghost use Rattle.brace_core.specs.Lanes.{puts_of, takes_of};
ghost use Rattle.brace_core.specs.Order.{HasRun, StandsAt};
ghost use Rattle.brace_core.specs.inner.Turns.{can_make, can_go_on, IsFirst, NoneFrom};

use crate::{Actor, Freight, PlainLanes, Turn, make_turn};
use brace_num::Generator;

/// Whether an actor's next turn in the first steps, so many, can be made.
fn is_free<F: Freight, A: Actor<F>>(actor: &A, lanes: &PlainLanes<F>, end: u64) -> bool
    ensures { result ≡ can_make lanes.now
        (due_to F.schedule (A.setting actor.now) end (A.number actor.now) (A.past actor.now)) }
{
    match actor.next(end) {
        Turn::Put(_) | Turn::Work => true,
        Turn::Take(name) => lanes.holds(name),
        Turn::Done => false,
    }
}

/// The first of the actors whose next turn in the first steps, so many, can be made, from a drawn
/// number onward, cyclically.
fn first_that_can<F: Freight, A: Actor<F>>(
    actors: &[A],
    lanes: &PlainLanes<F>,
    drawn: u32,
    end: u64,
) -> Option<usize>
    requires settings { All (λ a. A.setting a ≡ lanes.now.setting) actors.now }
    requires numbers { map A.number actors.now ≡ range_with_len 0 lanes.now.actors }
    ensures below { IfSome result (λ p. p < length actors.now) }
    ensures first { IfSome result (IsFirst
        (can_go_on (front (F.schedule lanes.now.setting) end) lanes.now (map A.past actors.now))
        lanes.now.actors drawn) }
    ensures none { IfNone result (NoneFrom
        (can_go_on (front (F.schedule lanes.now.setting) end) lanes.now (map A.past actors.now))
        lanes.now.actors drawn) }
{
    let count = lanes.actors();
    for i in 0..count {
        let number = (drawn as usize + i) % count;
        if is_free(&actors[number], lanes, end) {
            return Some(number);
        }
    }
    None
}

/// Runs actors over plain lanes until they have made all turns of their schedule's first steps, so
/// many. For each event a number is drawn from `order`, and the first actor from there onward,
/// cyclically, whose next turn in these steps can be made makes it.
///
/// The actors are all those of the schedule by rising number, and of one setting with the lanes,
/// which were made for as many actors. They stand at the end of as many of the first steps or of
/// fewer: before their first turns, with lanes on which nothing was put, or where such a call left
/// them.
pub fn run_in_order<F: Freight, A: Actor<F>>(
    actors: &mut [A],
    lanes: &mut PlainLanes<F>,
    order: u64,
    end: u64,
)
    requires lawful { IsLawful (F.schedule lanes.old.setting) }
    requires settings { All (λ a. A.setting a ≡ lanes.old.setting) actors.old }
    requires numbers { AreAllOf (F.schedule lanes.old.setting) (map A.number actors.old) }
    requires lanes_for { lanes.old.actors ≡ (F.schedule lanes.old.setting).actors }
    requires start { (m : ℕ) × (m ≤ end) × StandsAt (F.schedule lanes.old.setting) m
        (map A.past actors.old) (puts_of lanes.old) (takes_of lanes.old) }
    ensures stands { StandsAt (F.schedule lanes.old.setting) end
        (map A.past actors.new) (puts_of lanes.new) (takes_of lanes.new) }
    ensures events { HasRun (front (F.schedule lanes.old.setting) end) order
        (map A.past actors.old) (puts_of lanes.old) (takes_of lanes.old)
        (map A.past actors.new) (puts_of lanes.new) (takes_of lanes.new) }
    ensures same_settings { map A.setting actors.new ≡ map A.setting actors.old }
    ensures same_numbers { map A.number actors.new ≡ map A.number actors.old }
    ensures same_openings { map A.opening actors.new ≡ map A.opening actors.old }
    ensures lanes_setting { lanes.new.setting ≡ lanes.old.setting }
    ensures lanes_actors { lanes.new.actors ≡ lanes.old.actors }
{
    let mut generator = Generator::new(order);
    while let Some(number) = first_that_can(actors, lanes, generator.draw(), end) {
        make_turn(&mut actors[number], lanes, end);
    }
}
