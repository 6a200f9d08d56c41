ghost use Rattle.std.specs.Prelude.{◌≡◌, ◌+◌, ◌^◌, ◌<◌, [], ◌∷◌, ◌++◌, cond, is_some, length, nat_eq, nat_lt, option_to_list};
ghost use Rattle.brace_core.specs.Lanes.{fresh};

use std::marker::Model;
use std::mem;

/// The two places of a lane.
#[derive(Drop)]
enum Flight<F> {
    Empty,
    One(F),
    Two(F, F),
}

/// One lane: how many names were taken from it, and what is in flight on it.
#[derive(Drop)]
pub(crate) struct Lane<F> {
    taken: u64,
    flight: Flight<F>,
}

impl<F> Model for Lane<F> {
    ghost use Rattle.brace_core.specs.Lanes.{OnLane};
    ghost use Rattle.brace_core.specs.inner.Sound.{pieces_of};

    ghost Value = { OnLane F };

    ghost view = { λ lane. record { taken = lane.taken; pieces = pieces_of lane.flight } };
}

impl<F> Lane<F> {
    /// A lane on which nothing was put.
    pub(crate) fn new() -> Lane<F>
        ensures { result ≡ fresh }
    {
        Lane {
            taken: 0,
            flight: Flight::Empty,
        }
    }

    /// Whether nothing is in flight.
    pub(crate) fn is_empty(&self) -> bool
        ensures { result ≡ nat_eq (length self.now.pieces) 0 }
    {
        matches!(self.flight, Flight::Empty)
    }
}

impl<F: Drop> Lane<F> {
    /// One more piece behind those in flight, of which there is at most one.
    pub(crate) fn put(&mut self, piece: F)
        requires { length self.old.pieces < 2 }
        ensures { self.new ≡ record self.old { pieces = self.old.pieces ++ piece ∷ [] } }
    {
        self.flight = match mem::replace(&mut self.flight, Flight::Empty) {
            Flight::Empty => Flight::One(piece),
            Flight::One(first) => Flight::Two(first, piece),
            Flight::Two(_, _) => unreachable!(),
        };
    }

    /// The oldest piece in flight.
    pub(crate) fn take(&mut self) -> Option<F>
        requires { self.old.taken + 1 < 2 ^ 64 }
        ensures taken { self.new.taken ≡ cond (is_some result) (self.old.taken + 1) self.old.taken }
        ensures pieces { self.old.pieces ≡ option_to_list result ++ self.new.pieces }
        ensures found { is_some result ≡ nat_lt 0 (length self.old.pieces) }
    {
        let (piece, rest) = match mem::replace(&mut self.flight, Flight::Empty) {
            Flight::Empty => return None,
            Flight::One(first) => (first, Flight::Empty),
            Flight::Two(first, second) => (first, Flight::One(second)),
        };
        self.flight = rest;
        self.taken += 1;
        Some(piece)
    }
}
