ghost use Rattle.std.specs.Prelude.{◌≡◌, ◌≤◌, ◌+◌, ◌^◌, ◌++◌, [], List, IsTrue, false, None, IfOk, IfErr};
ghost use Rattle.std.specs.List.{list_all};
ghost use Rattle.std.specs.List.Sorted.{IsPermutation};
ghost use Rattle.std.specs.Vec.{vec_capacity};
ghost use Rattle.brace_fold.specs.Listed.{AreListed, AreStored};
ghost use Rattle.brace_fold.specs.Rows.{AreMoved};
ghost use Rattle.brace_model.specs.declared.world.Agent.{Agent};
ghost use Rattle.brace_model.specs.FaultOrder.{least};
ghost use Rattle.brace_model.specs.Lawful.{is_lawful_agent};
ghost use Rattle.brace_model.specs.World.{RisesById};
ghost use Rattle.brace_pieces.specs.declared.setting.Stage.TheVariants as stage;
ghost use Rattle.brace_pieces.specs.Settings.{cuts_of};
ghost use Rattle.brace_pieces.specs.Owned.{owned};
ghost use Rattle.brace_pieces.specs.Continued.{on};
ghost use Rattle.brace_pieces.specs.Finds.{queries_found};
ghost use Rattle.brace_pieces.specs.declared.piece.Cause.TheVariants as cause;
ghost use Rattle.brace_herd.specs.Works.{own_under, own_before, found_in_work, IsCauseOf};
ghost use Rattle.brace_herd.specs.Holding.{AreHeld, HoldsAll, HoldsAsked, LeavesRows};
ghost use Rattle.brace_herd.specs.Ready.{HearsAll, HearsAsked, IsReadyFor, IsReadyBehind, HasLeft, left_in, born_in, updates_in};
ghost use Rattle.brace_herd.specs.Workers.{IsWorker, IsWork, IsReadyTo, IsBehind, finds};

use crate::census::{census_of, first_too_far, joined, numbered};
use crate::gather::{gathered, kept};
use crate::holding::Held;
use crate::joining::join_sums;
use crate::near::{all_agents, settled, with_more};
use crate::places::own_places;
use crate::query::Queries;
use crate::stance::Stance;
use crate::tell::join_told;
use crate::update::updated;
use brace_eval::{Heard, birth_fault};
use brace_fold::{Moved, Redo, Renewed, columns_of, expect_wide, renew_rows, views};
use brace_model::{Agent, Herd};
use brace_num::NoMemory;
use brace_pieces::{Cause, Piece, Setting, Stage, Step, sorted};
use std::alloc::Global;

/// A part at its work in the step of a number.
#[derive(Drop)]
pub struct Worker<'a> {
    pub alloc: Global,
    /// The run, which is lawful.
    pub setting: &'a Setting,
    /// The number of the part.
    pub part: u32,
    /// The queries that a part asks in that run.
    pub queries: &'a Queries,
    /// The place of the step among those of the run.
    pub number: u64,
    /// The next free id of the world of its tick.
    pub next: u64,
}

impl<'a> Worker<'a> {
    /// Those of some agents that it owns under the cuts of a tick.
    fn kept(&self, tick: u64, agents: Vec<Agent>) -> Vec<Agent>
        requires { IsWorker self.now }
        ensures { result.items ≡ owned self.now.setting.now.job.program
            (cuts_of self.now.setting.now tick) self.now.part agents.items }
    {
        let cuts = self.setting.cuts.cuts_at(tick);
        kept(&self.setting.job.program, cuts, self.part, agents)
    }

    /// Of agents in columns those that it owns under the cuts of a tick, and then those of a herd.
    fn settled(&self, tick: u64, rows: Moved, more: &Herd) -> Result<Moved, NoMemory>
        requires { IsWorker self.now }
        ensures { IfOk result (λ all. (agents these : List Agent)
            → AreStored self.now.setting.now.job.program agents rows → RisesById these
            → IsPermutation these (owned self.now.setting.now.job.program
            (cuts_of self.now.setting.now tick) self.now.part agents ++ more.now)
            → IsTrue (list_all (is_lawful_agent self.now.setting.now.job.program) these)
            → AreStored self.now.setting.now.job.program these all) }
    {
        let program = &self.setting.job.program;
        let cuts = self.setting.cuts.cuts_at(tick);
        match settled(self.alloc, program, cuts, self.part, rows, more) {
            Ok(all) => Ok(all),
            Err(Redo) => Err(NoMemory),
        }
    }

    /// The agents that it owns under the cuts that hold from a tick on.
    fn recut(&self, tick: u64, own: Moved, taken: &mut Vec<Piece>) -> Result<Moved, NoMemory>
        requires worker { IsWorker self.now }
        requires work { IsWork self.now stage.Hand tick taken.old.items }
        requires own { AreStored self.now.setting.now.job.program
            (own_before self.now.setting.now self.now.part stage.Hand tick) own }
        ensures owns { IfOk result (AreStored self.now.setting.now.job.program
            (own_before self.now.setting.now self.now.part stage.Border tick)) }
        ensures places { vec_capacity taken.new ≡ vec_capacity taken.old }
    {
        let more = gathered(self.alloc, Herd::new(self.alloc), taken)?;
        let all = self.settled(tick, own, &more)?;
        Ok(all)
    }

    /// All that it holds as one list, what its agents and those that it holds say, and the least
    /// fault of their queries.
    fn query(&self, tick: u64, rows: &Moved) -> Result<(Vec<Agent>, Heard), NoMemory>
        requires worker { IsWorker self.now }
        requires held { AreHeld self.now.setting.now self.now.part tick rows.now }
        requires ticks { tick ≤ 2 ^ 32 }
        ensures heard { IfOk result (λ r.
            HearsAsked self.now.setting.now self.now.part tick r.0.items r.1) }
    {
        let (alloc, setting) = (self.alloc, self.setting);
        let agents = all_agents(alloc, &setting.job.program, rows)?;
        let held = sorted(agents)?;
        let cuts = setting.cuts.cuts_at(tick);
        let places = own_places(alloc, &setting.job.program, cuts, self.part, &held)?;
        let heard = self.queries.heard(alloc, setting, tick, &places, &held)?;
        Ok((held, heard))
    }

    /// What it has behind the queries, which are asked over one list: with inversion all is said
    /// then.
    fn behind_lists(&self, tick: u64, rows: &Moved) -> Result<Stance, Cause>
        requires worker { IsWorker self.now }
        requires held { AreHeld self.now.setting.now self.now.part tick rows.now }
        requires ticks { tick ≤ 2 ^ 32 }
        requires next { self.now.next ≡ (on self.now.setting.now tick).next }
        ensures ready { IfOk result (IsBehind self.now stage.Border tick) }
        ensures passes { IfOk result (λ _. least (finds self.now stage.Border tick) ≡ None) }
        ensures faulted { IfErr result (IsCauseOf (finds self.now stage.Border tick)) }
    {
        let (held, heard) = self.query(tick, rows)?;
        if let Some(fault) = heard.least {
            return Err(Cause::Fault(fault));
        }
        if self.setting.invert {
            return self.update(tick, held, &heard);
        }
        Ok(Stance::Hears(held, heard))
    }

    /// What it has behind the queries: with inversion all is said then.
    fn behind_queries(&self, tick: u64, own: Moved, taken: &mut Vec<Piece>) -> Result<Stance, Cause>
        requires worker { IsWorker self.now }
        requires work { IsWork self.now stage.Border tick taken.old.items }
        requires own { AreStored self.now.setting.now.job.program
            (own_before self.now.setting.now self.now.part stage.Border tick) own }
        ensures ready { IfOk result (IsBehind self.now stage.Border tick) }
        ensures passes { IfOk result (λ _. least (finds self.now stage.Border tick) ≡ None) }
        ensures faulted { IfErr result (IsCauseOf (finds self.now stage.Border tick)) }
        ensures places { vec_capacity taken.new ≡ vec_capacity taken.old }
    {
        let guests = gathered(self.alloc, Herd::new(self.alloc), taken)?;
        let count = own.ids.len();
        let rows = self.beside(own, &guests)?;
        match self
            .queries
            .summed(self.alloc, self.setting, tick, count, &rows)
        {
            Err(Redo) => self.behind_lists(tick, &rows),
            Ok(held) => self.behind_sums(tick, held),
        }
    }

    /// Its own agents in columns with others behind them.
    fn beside(&self, own: Moved, guests: &Herd) -> Result<Moved, NoMemory>
        ensures rows { IfOk result (λ rows. (agents : List Agent) → AreMoved agents own
            → AreMoved (agents ++ guests.now) rows) }
        ensures listed { IfOk result (λ rows. (agents : List Agent) → AreMoved agents rows
            → IsTrue (list_all (is_lawful_agent self.now.setting.now.job.program) agents)
            → AreListed self.now.setting.now.job.program agents rows) }
    {
        match with_more(self.alloc, &self.setting.job.program, own, guests) {
            Ok(rows) => Ok(rows),
            Err(Redo) => Err(NoMemory),
        }
    }

    /// What it has behind queries that fault nowhere: with inversion all is said then.
    fn behind_sums(&self, tick: u64, held: Held) -> Result<Stance, Cause>
        requires worker { IsWorker self.now }
        requires held { HoldsAsked self.now.setting.now self.now.part tick held }
        requires quiet { queries_found self.now.setting.now tick self.now.part
            (on self.now.setting.now tick).agents ≡ [] }
        requires ticks { tick ≤ 2 ^ 32 }
        requires next { self.now.next ≡ (on self.now.setting.now tick).next }
        ensures ready { IfOk result (IsBehind self.now stage.Border tick) }
        ensures passes { IfOk result (λ _. least (finds self.now stage.Border tick) ≡ None) }
        ensures faulted { IfErr result (IsCauseOf (finds self.now stage.Border tick)) }
    {
        if !self.setting.invert {
            return Ok(Stance::Holds(held));
        }
        match self.renewed(tick, &held) {
            Ok(renewed) => self.leaves(tick, renewed),
            Err(Redo) => self.behind_lists(tick, &held.rows),
        }
    }

    /// What is left of its agents in columns, and the children, where all is summed that is said to
    /// them. `Redo` where they are to be updated as a list.
    fn renewed(&self, tick: u64, held: &Held) -> Result<Renewed, Redo>
        requires worker { IsWorker self.now }
        requires held { HoldsAll self.now.setting.now self.now.part tick held.now }
        requires ticks { tick ≤ 2 ^ 32 }
        ensures leaves { IfOk result
            (LeavesRows self.now.setting.now self.now.part tick) }
    {
        let plans = self.queries.rules();
        let states = views(self.alloc, &held.rows.states)?;
        let columns = held.rows.as_columns(&states);
        expect_wide(plans.program(), &columns)?;
        let (seed, own, said) = (self.setting.job.seed, &held.own, &held.said);
        let renewed = renew_rows(self.alloc, plans, seed, tick, &columns, own, said)?;
        Ok(renewed)
    }

    /// What its agents leave.
    fn leaves(&self, tick: u64, renewed: Renewed) -> Result<Stance, Cause>
        requires worker { IsWorker self.now }
        requires leaves { LeavesRows self.now.setting.now self.now.part tick renewed }
        requires next { self.now.next ≡ (on self.now.setting.now tick).next }
        ensures ready { IfOk result (IsReadyTo self.now stage.Census tick) }
        ensures faulted { IfErr result (λ c. c ≡ cause.NoMemory) }
    {
        let Renewed { left, born } = renewed;
        let born = sorted(born)?;
        match left.expect_listed(self.alloc, &self.setting.job.program) {
            Ok(()) => Ok(Stance::Leaves(left, born, self.next)),
            Err(Redo) => Err(Cause::NoMemory),
        }
    }

    /// What its agents leave, where all is heard that is said to them.
    fn update(&self, tick: u64, held: Vec<Agent>, heard: &Heard) -> Result<Stance, Cause>
        requires worker { IsWorker self.now }
        requires heard { HearsAll self.now.setting.now self.now.part tick held.items heard.now }
        requires ticks { tick ≤ 2 ^ 32 }
        requires next { self.now.next ≡ (on self.now.setting.now tick).next }
        ensures ready { IfOk result (IsReadyTo self.now stage.Census tick) }
        ensures passes { IfOk result (λ _. least
            (updates_in self.now.setting.now self.now.part tick) ≡ None) }
        ensures faulted { IfErr result (IsCauseOf
            (updates_in self.now.setting.now self.now.part tick)) }
    {
        let plans = self.queries.rules();
        let (left, born) = updated(
            self.alloc,
            self.setting,
            tick,
            self.part,
            plans,
            held,
            heard,
        )?;
        match columns_of(self.alloc, &self.setting.job.program, &left, &[]) {
            Ok(left) => self.leaves(tick, Renewed { left, born }),
            Err(Redo) => Err(Cause::NoMemory),
        }
    }

    /// What its agents leave behind all that is told of what is said to them.
    fn behind_told(
        &self,
        tick: u64,
        held: Vec<Agent>,
        mut heard: Heard,
        taken: &[Piece],
    ) -> Result<Stance, Cause>
        requires worker { IsWorker self.now }
        requires work { IsWork self.now stage.Effects tick taken.now }
        requires plain { self.now.setting.now.invert ≡ false }
        requires heard { HearsAsked self.now.setting.now self.now.part tick held.items heard }
        ensures ready { IfOk result (IsReadyTo self.now stage.Census tick) }
        ensures passes { IfOk result (λ _. least (finds self.now stage.Effects tick) ≡ None) }
        ensures faulted { IfErr result (IsCauseOf (finds self.now stage.Effects tick)) }
    {
        join_told(&self.setting.job.program, &held, &mut heard, taken)?;
        self.update(tick, held, &heard)
    }

    /// What is left of its agents in columns behind all that is told of what is said to them.
    fn renewed_told(&self, tick: u64, held: &mut Held, taken: &[Piece]) -> Result<Renewed, Redo>
        requires worker { IsWorker self.now }
        requires work { IsWork self.now stage.Effects tick taken.now }
        requires plain { self.now.setting.now.invert ≡ false }
        requires held { HoldsAsked self.now.setting.now self.now.part tick held.old }
        ensures leaves { IfOk result
            (LeavesRows self.now.setting.now self.now.part tick) }
        ensures rows { held.new.rows ≡ held.old.rows }
    {
        let program = &self.setting.job.program;
        let (rows, own, said) = (&held.rows, &held.own, &mut held.said);
        join_sums(self.alloc, program, rows, own, said, taken)?;
        self.renewed(tick, held)
    }

    /// What its agents leave behind all that is told of what is said to them, in columns where that
    /// can be.
    fn behind_told_sums(&self, tick: u64, mut held: Held, taken: &[Piece]) -> Result<Stance, Cause>
        requires worker { IsWorker self.now }
        requires work { IsWork self.now stage.Effects tick taken.now }
        requires plain { self.now.setting.now.invert ≡ false }
        requires held { HoldsAsked self.now.setting.now self.now.part tick held }
        ensures ready { IfOk result (IsReadyTo self.now stage.Census tick) }
        ensures passes { IfOk result (λ _. least (finds self.now stage.Effects tick) ≡ None) }
        ensures faulted { IfErr result (IsCauseOf (finds self.now stage.Effects tick)) }
    {
        match self.renewed_told(tick, &mut held, taken) {
            Ok(renewed) => self.leaves(tick, renewed),
            Err(Redo) => {
                let (held, heard) = self.query(tick, &held.rows)?;
                self.behind_told(tick, held, heard, taken)
            }
        }
    }

    /// What its agents leave behind the censuses of all: each child gets the id of its rank, unless
    /// a parent goes too far.
    fn behind_censuses(
        &self,
        tick: u64,
        left: Moved,
        born: Vec<Agent>,
        taken: &mut Vec<Piece>,
    ) -> Result<Stance, Cause>
        requires worker { IsWorker self.now }
        requires work { IsWork self.now stage.Census tick taken.old.items }
        requires left { HasLeft self.now.setting.now self.now.part tick left born.items
            self.now.next }
        ensures ready { IfOk result (IsReadyTo self.now stage.Move tick) }
        ensures passes { IfOk result (λ _. least (finds self.now stage.Census tick) ≡ None) }
        ensures faulted { IfErr result (IsCauseOf (finds self.now stage.Census tick)) }
        ensures places { vec_capacity taken.new ≡ vec_capacity taken.old }
    {
        let program = &self.setting.job.program;
        let all = joined(census_of(self.alloc, program, &left, &born)?, taken)?;
        if let Some(parent) = first_too_far(program, self.next, &all) {
            return Err(Cause::Fault(birth_fault(program, tick, parent)));
        }
        let parents = all.parents.as_slice();
        let born = numbered(self.alloc, self.next, parents, born)?;
        Ok(Stance::Leaves(left, born, self.next + parents.len() as u64))
    }

    /// The agents that it owns in the next world.
    fn arrived(
        &self,
        tick: u64,
        born: Vec<Agent>,
        taken: &mut Vec<Piece>,
        left: Moved,
    ) -> Result<Moved, NoMemory>
        requires worker { IsWorker self.now }
        requires work { IsWork self.now stage.Move tick taken.old.items }
        requires left { AreStored self.now.setting.now.job.program
            (left_in self.now.setting.now self.now.part tick) left }
        requires born { born.items ≡ born_in self.now.setting.now self.now.part tick }
        ensures owns { IfOk result (AreStored self.now.setting.now.job.program
            (own_under self.now.setting.now self.now.part
            (cuts_of self.now.setting.now tick) (tick + 1))) }
        ensures places { vec_capacity taken.new ≡ vec_capacity taken.old }
    {
        let born = Herd::of(self.alloc, &self.kept(tick, born))?;
        let more = gathered(self.alloc, born, taken)?;
        let all = self.settled(tick, left, &more)?;
        Ok(all)
    }

    /// What it has behind its work in a step, by what it had and what it took; or the least fault
    /// that it finds.
    pub fn worked(&self, at: Step, stance: Stance, taken: &mut Vec<Piece>) -> Result<Stance, Cause>
        requires worker { IsWorker self.now }
        requires work { IsWork self.now at.stage at.tick taken.old.items }
        requires ready { IsReadyFor self.now.setting.now self.now.part at.stage at.tick stance }
        ensures ready { IfOk result
            (IsReadyBehind self.now.setting.now self.now.part at.stage at.tick) }
        ensures passes { IfOk result (λ _. least
            (found_in_work self.now.setting.now self.now.part at.stage at.tick) ≡ None) }
        ensures faulted { IfErr result (IsCauseOf
            (found_in_work self.now.setting.now self.now.part at.stage at.tick)) }
        ensures places { vec_capacity taken.new ≡ vec_capacity taken.old }
    {
        let tick = at.tick;
        match (at.stage, stance) {
            (Stage::Hand, Stance::Owns(own)) => Ok(Stance::Owns(self.recut(tick, own, taken)?)),
            (Stage::Border, Stance::Owns(own)) => self.behind_queries(tick, own, taken),
            (Stage::Effects, Stance::Hears(held, heard)) => {
                self.behind_told(tick, held, heard, taken)
            }
            (Stage::Effects, Stance::Holds(held)) => self.behind_told_sums(tick, held, taken),
            (Stage::Census, Stance::Leaves(left, born, _)) => {
                self.behind_censuses(tick, left, born, taken)
            }
            (Stage::Move, Stance::Leaves(left, born, _)) => {
                Ok(Stance::Owns(self.arrived(tick, born, taken, left)?))
            }
            (_, stance) => Ok(stance),
        }
    }
}
