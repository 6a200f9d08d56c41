ghost use Rattle.std.specs.Prelude.{◌≡◌, ◌+◌, Some};
ghost use Rattle.brace_core.specs.declared.name.Name.{Name};
ghost use Rattle.brace_core.specs.declared.name.Turn.TheVariants as turn;
ghost use Rattle.brace_core.specs.Exchanges.{IsPut, IsTake};
ghost use Rattle.brace_pieces.specs.Right.{IsRight};
ghost use Rattle.brace_pieces.specs.Courses.{due_on, gone_on, past_of};
ghost use Rattle.brace_pieces.specs.Turns.{IsTurns, PutsNext, TakesNext, WorksNext, cause_behind};

use crate::{Cause, Course, Piece, Step};

/// An actor of a run among its turns: where it stands, and why it goes no further. What it puts
/// and what it keeps of what it takes is its role's: a part's, or the desk's.
#[derive(Debug, Drop)]
pub struct Turns<'a> {
    pub course: Course<'a>,
    pub cause: Option<Cause>,
}

/// Why an actor goes no further behind a piece that it took: for the first cause.
fn cause_behind(cause: Option<Cause>, piece: &Piece) -> Option<Cause>
    ensures { result ≡ cause_behind cause piece.now }
{
    match (cause, piece) {
        (None, Piece::Halt(cause)) => Some(*cause),
        (cause, _) => cause,
    }
}

impl<'a> Turns<'a> {
    /// Goes on behind a put.
    pub fn put(&mut self)
        requires turns { IsTurns self.old }
        requires turn { IsPut (due_on self.old.course) }
        ensures turns { IsTurns self.new }
        ensures place { self.new.course ≡ gone_on self.old.course }
        ensures past { past_of self.new.course ≡ past_of self.old.course + 1 }
        ensures same_setting { self.new.course.setting ≡ self.old.course.setting }
        ensures same_actor { self.new.course.actor ≡ self.old.course.actor }
        ensures cause { self.new.cause ≡ self.old.cause }
        ensures some { (n : Name) × PutsNext self.old.course n }
        ensures next { (n : Name) → due_on self.old.course ≡ turn.Put n
            → PutsNext self.old.course n }
    {
        self.course.go_on();
    }

    /// Goes on behind a take.
    pub fn take(&mut self, piece: &Piece)
        requires turns { IsTurns self.old }
        requires turn { IsTake (due_on self.old.course) }
        requires right { (n : Name) → due_on self.old.course ≡ turn.Take n
            → IsRight self.old.course.setting n piece.now }
        ensures turns { IsTurns self.new }
        ensures place { self.new.course ≡ gone_on self.old.course }
        ensures past { past_of self.new.course ≡ past_of self.old.course + 1 }
        ensures same_setting { self.new.course.setting ≡ self.old.course.setting }
        ensures same_actor { self.new.course.actor ≡ self.old.course.actor }
        ensures cause { self.new.cause ≡ cause_behind self.old.cause piece.now }
        ensures next { (n : Name) × ((due_on self.old.course ≡ turn.Take n)
            × (TakesNext self.old.course n × IsRight self.old.course.setting n piece.now)) }
    {
        self.cause = cause_behind(self.cause, piece);
        self.course.go_on();
    }

    /// Goes on behind its work, and tells the step of that.
    pub fn work(&mut self) -> Step
        requires turns { IsTurns self.old }
        requires turn { due_on self.old.course ≡ turn.Work }
        ensures turns { IsTurns self.new }
        ensures place { self.new.course ≡ gone_on self.old.course }
        ensures past { past_of self.new.course ≡ past_of self.old.course + 1 }
        ensures same_setting { self.new.course.setting ≡ self.old.course.setting }
        ensures same_actor { self.new.course.actor ≡ self.old.course.actor }
        ensures cause { self.new.cause ≡ self.old.cause }
        ensures next { WorksNext self.old.course result }
    {
        let Some(at) = self.course.step() else {
            unreachable!()
        };
        self.course.go_on();
        at
    }
}
