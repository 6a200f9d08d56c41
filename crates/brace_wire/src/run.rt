ghost use Rattle.std.specs.Prelude.{◌≡◌, ◌<◌, ◌≤◌, ℕ, All, map, length, IfSome, IfNone, OnOk};
ghost use Rattle.std.specs.List.{range_with_len};
ghost use Rattle.brace_core.specs.Exchanges.{AreAllOf};
ghost use Rattle.brace_core.specs.Schedule.{front};
ghost use Rattle.brace_core.specs.inner.Turns.{IsFirst, NoneFrom};
ghost use Rattle.brace_pieces.specs.Steps.{schedule};
ghost use Rattle.brace_wire.specs.Links.{puts_on, received_on};
ghost use Rattle.brace_wire.specs.Stands.{StandsOn};
ghost use Rattle.brace_wire.specs.inner.Going.{can_make, can_go_on};

use crate::WireLanes;
use brace_core::{Actor, Turn, make_turn};
use brace_num::{Generator, NoMemory};
use brace_pieces::Piece;

/// Whether a turn can be made: a take where its piece was received.
fn is_free(turn: Turn, lanes: &WireLanes) -> bool
    ensures { result ≡ can_make lanes.now turn }
{
    match turn {
        Turn::Put(_) | Turn::Work => true,
        Turn::Take(name) => lanes.holds(name),
        Turn::Done => false,
    }
}

/// The first of the actors whose next turn in the first steps, so many, can be made, from a drawn
/// number onward, cyclically.
fn first_that_can<A: Actor<Piece>>(
    actors: &[A],
    lanes: &WireLanes,
    drawn: u32,
    end: u64,
) -> Option<usize>
    requires settings { All (λ a. A.setting a ≡ lanes.now.setting) actors.now }
    requires numbers { map A.number actors.now ≡ range_with_len 0 lanes.now.actors }
    ensures received { (p q : ℕ) → received_on lanes.now p q ≤ puts_on lanes.now p q }
    ensures below { IfSome result (λ p. p < length actors.now) }
    ensures first { IfSome result (IsFirst
        (can_go_on (front (schedule lanes.now.setting) end) lanes.now (map A.past actors.now))
        lanes.now.actors drawn) }
    ensures none { IfNone result (NoneFrom
        (can_go_on (front (schedule lanes.now.setting) end) lanes.now (map A.past actors.now))
        lanes.now.actors drawn) }
{
    let count = lanes.actors();
    for i in 0..count {
        let number = (drawn as usize + i) % count;
        if is_free(actors[number].next(end), lanes) {
            return Some(number);
        }
    }
    None
}

/// Runs actors over links until they have made all turns of their run's first steps, so many. For
/// each event a number is drawn from `order`, and the first actor from there onward, cyclically,
/// whose next turn in these steps can be made makes it; where none can, a round is made. A call
/// that finds no memory is given up.
///
/// The actors are all those of the schedule by rising number, and of one setting with the lanes,
/// which were made for as many actors. They stand at the end of as many of the first steps or of
/// fewer: before their first turns, with lanes on which nothing was put and no round was made, or
/// where such a call left them.
pub fn run_over_links<A: Actor<Piece>>(
    actors: &mut [A],
    lanes: &mut WireLanes,
    order: u64,
    end: u64,
) -> Result<(), NoMemory>
    requires settings { All (λ a. A.setting a ≡ lanes.old.setting) actors.old }
    requires numbers { AreAllOf (schedule lanes.old.setting) (map A.number actors.old) }
    requires lanes_for { lanes.old.actors ≡ (schedule lanes.old.setting).actors }
    requires start { (m : ℕ) × (m ≤ end)
        × StandsOn lanes.old.setting m (map A.past actors.old) lanes.old }
    ensures stands { OnOk result
        (StandsOn lanes.old.setting end (map A.past actors.new) lanes.new) }
    ensures same_settings { map A.setting actors.new ≡ map A.setting actors.old }
    ensures same_numbers { map A.number actors.new ≡ map A.number actors.old }
    ensures same_openings { map A.opening actors.new ≡ map A.opening actors.old }
    ensures lanes_setting { lanes.new.setting ≡ lanes.old.setting }
    ensures lanes_actors { lanes.new.actors ≡ lanes.old.actors }
    ensures lanes_fates { lanes.new.fates ≡ lanes.old.fates }
{
    let mut generator = Generator::new(order);
    loop {
        match first_that_can(actors, lanes, generator.draw(), end) {
            Some(number) => {
                make_turn(&mut actors[number], lanes, end);
            }
            None if lanes.is_quiet() => return Ok(()),
            None => lanes.round()?,
        }
    }
}
