//! The table of words and slots that all seats share.
use crate::cargo::Cargo;
use atomic_table::{Seat, Table, TableRule};
use std::alloc::Global;
use std::collections::LinkedList;
use std::marker::PhantomData;
use std::snapshot::Snapshot;

/// What a seat holds a slot for. No value of it is made.
pub enum Hand {
    Empty,
    ToPut(u64),
    ToTake(u64),
}

/// What a seat knows. No value of it is made. Each list has a number for each place: at that of one
/// actor and another, of the lane from the one to the other what was put, and of the lane from the
/// other to the one what was taken, what was seen to be put, and how often a look found nothing.
pub struct View<S> {
    pub setting: S,
    pub actors: u64,
    pub seats: u64,
    pub number: u64,
    /// Of the first seat: how many seats were made.
    pub made: u64,
    pub put: LinkedList<u64>,
    pub taken: LinkedList<u64>,
    pub seen: LinkedList<u64>,
    pub misses: LinkedList<u64>,
    pub hand: Hand,
}

/// What the first seat is made for.
#[derive(Drop)]
pub struct Plan<S> {
    pub setting: Snapshot<S>,
    pub actors: u64,
    pub seats: u64,
}

/// From an actor that a seat serves to another, among so many.
#[derive(Clone, Copy)]
pub(crate) struct Way {
    pub(crate) actors: usize,
    pub(crate) own: usize,
    pub(crate) other: usize,
}

/// The rule of the words, slots and views.
pub struct LaneRule<F: Cargo> {
    freight: PhantomData<F>,
}

impl<F: Cargo> TableRule<Option<F>, View<F::Setting>, Plan<F::Setting>> for LaneRule<F> {
    ghost use Rattle.brace_lanes.specs.Rule.{IsKept};
    ghost use Rattle.brace_lanes.specs.Views.{opening};

    ghost holds = { λ plan. IsKept F.schedule F.right };

    ghost first = { λ plan. opening plan.setting.value plan.actors plan.seats 0 1 };
}

pub type LaneTable<F> = Table<
    Option<F>,
    View<<F as Cargo>::Setting>,
    Plan<<F as Cargo>::Setting>,
    LaneRule<F>,
    Global,
>;

pub type Place<F> = Seat<Option<F>, View<<F as Cargo>::Setting>>;
