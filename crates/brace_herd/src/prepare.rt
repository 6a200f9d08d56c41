ghost use Rattle.std.specs.Prelude.{◌≡◌, [], ◌∷◌, fold, IfOk, IfErr};
ghost use Rattle.brace_core.specs.Schedule.{name};
ghost use Rattle.brace_pieces.specs.declared.piece.Piece.TheVariants as piece;
ghost use Rattle.brace_pieces.specs.Right.{IsRight};
ghost use Rattle.brace_pieces.specs.Exchanged.{counted, AreOut, GoesOn};
ghost use Rattle.brace_herd.specs.Ready.{IsReadyFor};
ghost use Rattle.brace_herd.specs.Workers.{IsWorker, IsNext, AreMet};

use crate::census::{census_of, moves_to};
use crate::near::{agents_near, agents_of};
use crate::stance::Stance;
use crate::tell::told_to;
use crate::work::Worker;
use brace_invert::range;
use brace_num::{List, NoMemory};
use brace_pieces::{Counts, Piece, Shown, Stage, Step};
use std::alloc::Global;

/// What a part puts to another in a step that shows nothing to the publisher.
fn piece_for(worker: &Worker, at: Step, stance: &Stance, to: u32) -> Result<Piece, NoMemory>
    requires worker { IsWorker worker.now }
    requires next { IsNext worker.now at }
    requires ready { IsReadyFor worker.now.setting.now worker.now.part at.stage at.tick stance.now }
    requires to { AreMet worker.now at (to ∷ []) }
    ensures right { IfOk result
        (IsRight worker.now.setting.now (name worker.now.number worker.now.part to)) }
    ensures goes_on { IfOk result GoesOn }
{
    let (alloc, setting, tick) = (worker.alloc, worker.setting, at.tick);
    let (program, cuts) = (&setting.job.program, setting.cuts.cuts_at(tick));
    match (at.stage, stance) {
        (Stage::Hand, Stance::Owns(own)) => {
            Ok(Piece::Hand(agents_of(alloc, program, cuts, to, own)?))
        }
        (Stage::Border, Stance::Owns(own)) => {
            let (area, range) = (cuts.area(to), range(program, setting.invert));
            Ok(Piece::Border(agents_near(alloc, program, own, &area, range)?))
        }
        (Stage::Effects, Stance::Hears(held, heard)) => {
            let entries = told_to(alloc, program, cuts, to, held, heard)?;
            Ok(Piece::Effects(entries))
        }
        (Stage::Effects, Stance::Holds(held)) => {
            let entries = held.told_sums(alloc, program, cuts, to)?;
            Ok(Piece::Effects(entries))
        }
        (Stage::Census, Stance::Leaves(left, born, _)) => {
            Ok(Piece::Census(census_of(alloc, program, left, born)?))
        }
        (Stage::Move, Stance::Leaves(left, born, _)) => {
            Ok(Piece::Move(moves_to(alloc, setting, tick, left, born, to)?))
        }
        _ => unreachable!(),
    }
}

/// What a part puts in a step to each whom it meets, the last one first, and counts it. The step
/// shows nothing to the publisher, and the part has what it needs.
pub fn prepared(
    worker: &Worker,
    at: Step,
    stance: &Stance,
    others: &[u32],
    counts: &mut Counts,
) -> Result<Vec<Piece>, NoMemory>
    requires worker { IsWorker worker.now }
    requires next { IsNext worker.now at }
    requires ready { IsReadyFor worker.now.setting.now worker.now.part at.stage at.tick stance.now }
    requires others { AreMet worker.now at others.now }
    ensures out { IfOk result (λ pieces. AreOut worker.now.setting.now worker.now.number
        worker.now.part others.now pieces.items) }
    ensures counts { IfOk result (λ pieces. counts.new
        ≡ fold (counted worker.now.next) counts.old pieces.items) }
{
    let mut pieces = Vec::with_capacity(worker.alloc, others.len())?;
    for i in 0..others.len() {
        let piece = piece_for(worker, at, stance, others[others.len() - 1 - i])?;
        counts.add(worker.next, &piece)?;
        pieces.push(piece)?;
    }
    Ok(pieces)
}

/// What a part puts where all is shown: all that it keeps.
pub fn prepared_show(alloc: Global, shown: &mut List<Shown>) -> Result<Vec<Piece>, NoMemory>
    ensures out { IfOk result (λ pieces. pieces.items ≡ piece.Show shown.old ∷ []) }
    ensures shown { IfOk result (λ _. shown.new ≡ []) }
    ensures kept { IfErr result (λ _. shown.new ≡ shown.old) }
{
    let mut pieces = Vec::with_capacity(alloc, 1)?;
    pieces.push_reserved(Piece::Show(std::mem::replace(shown, List::new(alloc))));
    Ok(pieces)
}
