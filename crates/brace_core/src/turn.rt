ghost use Rattle.std.specs.Prelude.{◌≡◌, ◌+◌, ℕ};
ghost use Rattle.brace_core.specs.Schedule.{IsLawful};
ghost use Rattle.brace_core.specs.Exchanges.{IsCounted, WentBy, due_to, made_by, put_by, taken_by};

use crate::{Actor, Exchange, Freight, Turn};

/// How an actor went on.
#[derive(Debug, Clone, Copy, PartialEq, Eq, Drop)]
pub enum Went {
    /// By a turn.
    On,
    /// Not at all, since what it takes next is not there.
    Nowhere,
    /// Not at all, since no turn is left.
    Over,
}

/// Makes an actor's next turn in the first steps of its schedule, so many, at an exchange, if it
/// can: puts the piece, takes one and hands it over, or lets it work.
///
/// The exchange is of the actor's setting and serves it, and has put and taken for it what its
/// turns so far did. So it has behind the call.
pub fn make_turn<F: Freight, A: Actor<F>, X: Exchange<F>>(
    actor: &mut A,
    exchange: &mut X,
    end: u64,
) -> Went
    requires lawful { IsLawful (F.schedule (X.setting exchange.old)) }
    requires setting { A.setting actor.old ≡ X.setting exchange.old }
    requires counted { IsCounted (F.schedule (X.setting exchange.old)) (A.number actor.old)
        (A.past actor.old) (X.serves exchange.old) (X.puts exchange.old) (X.takes exchange.old) }
    ensures went { WentBy A.past (X.misses exchange.old exchange.new)
        (due_to F.schedule (A.setting actor.old) end (A.number actor.old) (A.past actor.old))
        actor.old actor.new result }
    ensures same_setting { A.setting actor.new ≡ A.setting actor.old }
    ensures same_number { A.number actor.new ≡ A.number actor.old }
    ensures same_opening { A.opening actor.new ≡ A.opening actor.old }
    ensures same { X.setting exchange.new ≡ X.setting exchange.old }
    ensures serving { (a : ℕ) → X.serves exchange.old a → X.serves exchange.new a }
    ensures put { (p q : ℕ) → X.puts exchange.new p q ≡ X.puts exchange.old p q + put_by (made_by
        (due_to F.schedule (A.setting actor.old) end (A.number actor.old) (A.past actor.old))
        result) p q }
    ensures taken { (p q : ℕ) → X.takes exchange.new p q ≡ X.takes exchange.old p q
        + taken_by (made_by
        (due_to F.schedule (A.setting actor.old) end (A.number actor.old) (A.past actor.old))
        result) p q }
    ensures kept { X.keeps exchange.old exchange.new }
    ensures counted { IsCounted (F.schedule (X.setting exchange.new)) (A.number actor.new)
        (A.past actor.new) (X.serves exchange.new) (X.puts exchange.new) (X.takes exchange.new) }
{
    match actor.next(end) {
        Turn::Put(name) => {
            let piece = actor.piece();
            exchange.put(name, piece);
        }
        Turn::Take(name) => match exchange.take(name) {
            Some(piece) => actor.give(piece),
            None => return Went::Nowhere,
        },
        Turn::Work => actor.work(),
        Turn::Done => return Went::Over,
    }
    Went::On
}
