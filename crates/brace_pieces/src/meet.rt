ghost use Rattle.std.specs.Prelude.{◌≡◌, ◌<◌, pos, int_le};
ghost use Rattle.std.specs.Int.{int_max};
ghost use Rattle.brace_num.specs.Areas.{apart};
ghost use Rattle.brace_cuts.specs.Space.{LawfulCuts, parts_of};
ghost use Rattle.brace_cuts.specs.CutPlans.{IsPlan};
ghost use Rattle.brace_model.specs.Lawful.{LawfulProgram};
ghost use Rattle.brace_pieces.specs.Settings.{greatest_reach, range, parts};
ghost use Rattle.brace_pieces.specs.Steps.{meet, parts_meet, are_recut, share};

use crate::{Setting, Stage, Step};
use brace_cuts::Cuts;
use brace_invert::range;
use brace_model::Program;

impl Setting {
    /// Whether two actors meet in a step: parts by their numbers, and the publisher by the number
    /// of parts. It takes no memory.
    pub fn meet(&self, at: Step, p: u32, q: u32) -> bool
        requires lawful { LawfulProgram self.now.job.program }
        requires plan { IsPlan self.now.epoch self.now.cuts }
        ensures { result ≡ meet self.now at p q }
    {
        self.meet_within(self.farthest(), at, p, q)
    }

    /// How far from an agent stand those that it may see or that decide what becomes of it, and
    /// where it may go in a tick, in millionths.
    pub(crate) fn farthest(&self) -> i64
        requires { LawfulProgram self.now.job.program }
        ensures { result ≡ int_max (range self.now) (greatest_reach self.now.job.program) }
    {
        range(&self.job.program, self.invert).max(greatest_reach(&self.job.program))
    }

    /// Whether two actors meet in a step, where that distance is known.
    pub(crate) fn meet_within(&self, far: i64, at: Step, p: u32, q: u32) -> bool
        requires far { far ≡ int_max (range self.now) (greatest_reach self.now.job.program) }
        requires plan { IsPlan self.now.epoch self.now.cuts }
        ensures { result ≡ meet self.now at p q }
    {
        let parts = self.parts();
        if p == q {
            false
        } else if p < parts && q < parts {
            self.parts_meet(far, at, p, q)
        } else {
            at.stage == Stage::Show
        }
    }

    /// Whether two different parts meet in a step.
    fn parts_meet(&self, far: i64, at: Step, p: u32, q: u32) -> bool
        requires far { far ≡ int_max (range self.now) (greatest_reach self.now.job.program) }
        requires plan { IsPlan self.now.epoch self.now.cuts }
        requires p_in_range { p < parts self.now }
        requires q_in_range { q < parts self.now }
        ensures { result ≡ parts_meet self.now at p q }
    {
        match at.stage {
            Stage::Hand => self.are_recut(at.tick, p, q),
            Stage::Census => true,
            Stage::Show => false,
            Stage::Border | Stage::Effects | Stage::Move => {
                self.cuts.cuts_at(at.tick).near(p, q, far)
            }
        }
    }

    /// Whether agents of one of two parts may be handed to the other where other cuts hold from a
    /// tick on.
    fn are_recut(&self, tick: u64, p: u32, q: u32) -> bool
        requires plan { IsPlan self.now.epoch self.now.cuts }
        requires p_in_range { p < parts self.now }
        requires q_in_range { q < parts self.now }
        ensures { result ≡ are_recut self.now tick p q }
    {
        let before = self.cuts.cuts_at(tick.saturating_sub(1));
        let after = self.cuts.cuts_at(tick);
        share(before, p, after, q) || share(before, q, after, p)
    }
}

/// How far an agent may move in a tick at most, in millionths.
fn greatest_reach(program: &Program) -> i64
    ensures { result ≡ greatest_reach program.now }
{
    let mut greatest = 0;
    for class in program.classes.as_slice() {
        greatest = class.reach.max(greatest);
    }
    greatest
}

/// Whether the area of a part under some cuts and that of a part under others have a point in
/// common.
fn share(before: &Cuts, p: u32, after: &Cuts, q: u32) -> bool
    requires before { LawfulCuts before.now }
    requires after { LawfulCuts after.now }
    requires p_in_range { p < parts_of before.now }
    requires q_in_range { q < parts_of after.now }
    ensures { result ≡ share before.now p after.now q }
{
    let a = before.area(p);
    let b = after.area(q);
    have_common(a.x0, a.x1, b.x0, b.x1) && have_common(a.y0, a.y1, b.y0, b.y1)
}

/// Whether two spans have a number in common, where each span has one.
fn have_common(low: i64, high: i64, other_low: i64, other_high: i64) -> bool
    ensures { result ≡ int_le (apart low high other_low other_high) (pos 0) }
{
    low <= other_high && other_low <= high
}
