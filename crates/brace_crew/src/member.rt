ghost use Rattle.std.specs.Prelude.{◌≡◌, ◌≤◌, ℕ, length, true, false};
ghost use Rattle.brace_pieces.specs.Steps.{steps};
ghost use Rattle.brace_crew.specs.Members.{asked_of, course_of, opening_of, HasTold, IsAt, WasUntold};

use brace_core::{Actor, Turn};
use brace_desk::{Desk, Publisher};
use brace_part::Part;
use brace_pieces::Piece;

/// One of a crew: a part of the plane, or the desk.
#[derive(Drop)]
pub enum Member<'a, P: Publisher> {
    Part(Part<'a>),
    Desk(Desk<'a, P>),
}

impl<'a, P: Publisher> Member<'a, P> {
    /// The tick whose query it evaluates in its next turn, if it does. No memory is taken.
    pub fn query_tick(&self) -> Option<u64>
        ensures { result ≡ asked_of self.now }
    {
        match self {
            Member::Part(part) => part.query_tick(),
            Member::Desk(_) => None,
        }
    }

    /// Whether its run may end here: it is a part, or the desk and put its Halt to all.
    pub(crate) fn ends_here(&mut self) -> bool
        ensures told { result ≡ true → HasTold self.new }
        ensures untold { result ≡ false → (n : ℕ) → n ≤ length (steps (course_of self.old).setting)
            → IsAt n self.old → WasUntold (course_of self.old).setting n self.new }
        ensures same { result ≡ true → self.new ≡ self.old }
        ensures course { course_of self.new ≡ course_of self.old }
        ensures opening { opening_of self.new ≡ opening_of self.old }
    {
        match self {
            Member::Part(_) => true,
            Member::Desk(desk) => desk.ends_here(),
        }
    }
}

impl<'a, P: Publisher> Actor<Piece> for Member<'a, P> {
    ghost use Rattle.brace_pieces.specs.Courses.{past_of};
    ghost use Rattle.brace_crew.specs.Members.{course_of, kept_of};

    type Opening = Option<(P, u64)>;

    ghost setting = { λ m. (course_of m).setting };

    ghost number = { λ m. (course_of m).actor };

    ghost opening = { kept_of };

    ghost past = { λ m. past_of (course_of m) };

    fn next(&self, end: u64) -> Turn {
        match self {
            Member::Part(part) => part.next(end),
            Member::Desk(desk) => desk.next(end),
        }
    }

    fn piece(&mut self) -> Piece {
        match self {
            Member::Part(part) => part.piece(),
            Member::Desk(desk) => desk.piece(),
        }
    }

    fn give(&mut self, piece: Piece) {
        match self {
            Member::Part(part) => part.give(piece),
            Member::Desk(desk) => desk.give(piece),
        }
    }

    fn work(&mut self) {
        match self {
            Member::Part(part) => part.work(),
            Member::Desk(desk) => desk.work(),
        }
    }
}
