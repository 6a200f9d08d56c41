ghost use Rattle.std.specs.Prelude.{◌≡◌, ◌^◌, ◌<◌, ◌≤◌, length, IfOk};
ghost use Rattle.brace_core.specs.Lanes.{AreBelow};
ghost use Rattle.brace_lanes.specs.Places.{word_count as words_among};
ghost use Rattle.brace_lanes.specs.Seats.{new_seats};

use crate::cargo::Cargo;
use crate::seat::LaneSeat;
use crate::table::{LaneTable, Plan};
use atomic_table::Table;
use brace_num::NoMemory;
use std::alloc::Global;
use std::cmp::max;
use std::marker::Model;
use std::snapshot::Snapshot;

/// The lanes between all actors, for seats on several threads.
#[derive(Drop)]
pub struct Lanes<F: Cargo> {
    pub(crate) table: LaneTable<F>,
}

impl<F: Cargo> Model for Lanes<F> {
    ghost use Rattle.atomic_table.specs.Seated.{TableId};

    ghost Value = { TableId };

    ghost view = { λ it. it.table.shared.table_id };
}

/// How many words there are: two a lane, and one where there is no lane.
fn word_count(actors: usize) -> usize
    requires { actors ≤ 65 }
    ensures { result ≡ words_among actors }
{
    max(1, actors * actors + actors * actors)
}

impl<F: Cargo> Lanes<F> {
    /// Lanes for a setting, on which nothing was put, and their seats by rising number. The seat of
    /// number s serves the actors whose numbers leave s by the number of seats. There are at most
    /// 65 actors, and more than every number in the names of the setting's schedule, which has at
    /// most 2^40 steps.
    pub fn make(
        alloc: Global,
        setting: &F::Setting,
        actors: u32,
        seats: u32,
    ) -> Result<(Lanes<F>, Vec<LaneSeat<F>>), NoMemory>
        requires few { actors ≤ 65 }
        requires some_seat { 0 < seats }
        requires below { AreBelow (F.schedule setting.now) actors }
        requires short { length (F.schedule setting.now).steps ≤ 2 ^ 40 }
        ensures seats { IfOk result (λ made.
            made.1.items ≡ new_seats made.0 setting.now actors seats seats) }
    {
        let actors = actors as usize;
        let square = actors * actors;
        let words = vec![in alloc; 0; word_count(actors)]?;
        let plan = Plan {
            setting: Snapshot::of(setting),
            actors: actors as u64,
            seats: u64::from(seats),
        };
        let (table, place) = Table::vacant(alloc, words.as_slice(), square + square, &plan)?;
        let lanes = Lanes { table };
        let mut all = Vec::with_capacity(alloc, seats as usize)?;
        all.push(LaneSeat {
            place,
            actors,
            put: vec![in alloc; 0; square]?,
            taken: vec![in alloc; 0; square]?,
        })?;
        for _ in 1..seats {
            let next = all[0].split(alloc, &lanes)?;
            all.push(next)?;
        }
        Ok((lanes, all))
    }
}
