ghost use Rattle.std.specs.Prelude.{◌≡◌, IfOk};
ghost use Rattle.brace_cuts.specs.Space.{cuts_at};
ghost use Rattle.brace_cuts.specs.CutPlans.{IsInOrder};

use crate::Cuts;
use brace_num::{List, NoMemory};
use std::alloc::Global;

/// A line of a cut plan: the cuts that hold from a tick on.
#[derive(Debug, Drop)]
pub struct CutLine {
    pub tick: u64,
    pub cuts: Cuts,
}

/// Which cuts hold at which tick: lines by rising tick, the first from tick 0 on.
#[derive(Debug, Drop)]
pub struct CutPlan {
    pub lines: List<CutLine>,
}

impl CutPlan {
    /// The cuts in force at a tick.
    ///
    /// It takes a binary search.
    pub fn cuts_at(&self, tick: u64) -> &Cuts
        requires { IsInOrder self.now.lines }
        ensures { result.now ≡ cuts_at self.now tick }
    {
        let lines = self.lines.as_slice();
        let behind = lines.partition_point(|line| line.tick <= tick);
        &lines[behind - 1].cuts
    }

    /// A plan equal to this one.
    pub fn copy(&self, alloc: Global) -> Result<CutPlan, NoMemory>
        ensures { IfOk result (λ copy. copy ≡ self.now) }
    {
        Ok(CutPlan {
            lines: copy_lines(alloc, &self.lines)?,
        })
    }
}

fn copy_lines(alloc: Global, lines: &List<CutLine>) -> Result<List<CutLine>, NoMemory>
    ensures { IfOk result (λ copy. copy ≡ lines.now) }
{
    let mut copy = List::new(alloc);
    for line in lines.as_slice() {
        copy.push(CutLine {
            tick: line.tick,
            cuts: line.cuts.copy(alloc)?,
        })?;
    }
    Ok(copy)
}
