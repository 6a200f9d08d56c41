ghost use Rattle.std.specs.Prelude.{◌≡◌, ◌+◌, ◌^◌, ◌<◌, [], ◌∷◌, ◌++◌, length, fold, nat_lt, slice_get};
ghost use Rattle.brace_wire.specs.Links.{accepted, received, taken_at};
ghost use Rattle.brace_wire.specs.inner.Standing.{HasPlace};

use crate::Frame;
use brace_pieces::Piece;
use std::marker::Model;
use std::mem;

/// The two places of a receiver.
#[derive(Drop)]
enum Waiting {
    Empty,
    One(Piece),
    Two(Piece, Piece),
}

/// The receiver of a lane: how many pieces were taken, and what was received and not taken.
#[derive(Drop)]
pub(crate) struct Receiver {
    taken: u64,
    waiting: Waiting,
}

impl Model for Receiver {
    ghost use Rattle.brace_wire.specs.Links.{OnReceiver};
    ghost use Rattle.brace_wire.specs.inner.Standing.{pieces_of};

    ghost Value = { OnReceiver };

    ghost view = { λ r. record { taken = r.taken; waiting = pieces_of r.waiting } };
}

impl Receiver {
    /// One that has received nothing.
    pub(crate) fn new() -> Receiver
        ensures { result ≡ record { taken = 0; waiting = [] } }
    {
        Receiver {
            taken: 0,
            waiting: Waiting::Empty,
        }
    }

    /// How many pieces it has received.
    pub(crate) fn received(&self) -> u64
        requires { self.now.taken + 2 < 2 ^ 64 }
        ensures { result ≡ received self.now }
    {
        self.taken
            + match self.waiting {
                Waiting::Empty => 0,
                Waiting::One(_) => 1,
                Waiting::Two(_, _) => 2,
            }
    }

    /// Whether a piece was received that was not taken.
    pub(crate) fn holds(&self) -> bool
        ensures { result ≡ nat_lt self.now.taken (received self.now) }
    {
        !matches!(self.waiting, Waiting::Empty)
    }

    /// Takes the oldest piece that was received and not taken.
    pub(crate) fn take(&mut self) -> Option<Piece>
        requires { self.old.taken + 1 < 2 ^ 64 }
        ensures oldest { result ≡ slice_get self.old.waiting 0 }
        ensures taken { self.new ≡ taken_at self.old.taken self.old.waiting }
    {
        let (piece, rest) = match mem::replace(&mut self.waiting, Waiting::Empty) {
            Waiting::Empty => return None,
            Waiting::One(first) => (first, Waiting::Empty),
            Waiting::Two(first, second) => (first, Waiting::One(second)),
        };
        self.waiting = rest;
        self.taken += 1;
        Some(piece)
    }

    /// One more piece behind those that wait, of which there is at most one.
    fn receive(&mut self, piece: Piece)
        requires { length self.old.waiting < 2 }
        ensures { self.new ≡ record self.old { waiting = self.old.waiting ++ piece ∷ [] } }
    {
        self.waiting = match mem::replace(&mut self.waiting, Waiting::Empty) {
            Waiting::Empty => Waiting::One(piece),
            Waiting::One(first) => Waiting::Two(first, piece),
            Waiting::Two(_, _) => unreachable!(),
        };
    }

    /// Receives the piece of a frame where its ordinal is the next one, and else nothing.
    pub(crate) fn accept(&mut self, f: Frame)
        requires short { self.old.taken + 2 < 2 ^ 64 }
        requires place { f.ordinal < self.old.taken + 2 }
        ensures { self.new ≡ accepted self.old f }
    {
        if f.ordinal == self.received() {
            self.receive(f.piece);
        }
    }

    /// Has frames handed over one after another.
    pub(crate) fn accept_all(&mut self, frames: Vec<Frame>)
        requires short { self.old.taken + 2 < 2 ^ 64 }
        requires place { HasPlace self.old.taken frames.items }
        ensures { self.new ≡ fold accepted self.old frames.items }
    {
        for f in frames {
            self.accept(f);
        }
    }
}
