//! Programs, agents, worlds, jobs and faults, and the meaning of scripts.
#![tactic(auto)]

mod copy;
mod fault;
mod heads;
mod herd;
mod job;
pub mod laws;
mod next;
mod program;
mod shared;
mod sight;
mod stored;
mod values;
mod world;

pub use brace_num::Area;
pub use fault::{Fault, Phase, Stop, earlier, fault_less, with_earlier};
pub use herd::Herd;
pub use job::{Env, Job, agent_of};
pub use next::{Left, child_with, survivor, update_fault, with_stop};
pub use program::{
    BinOp, Class, Comb, Effect, Expr, Gift, Program, Spawn, State, Stmt, Ty, UnOp, Value, Who,
};
pub use sight::{class_of, has_births, number, sees, value_at, x_of, y_of};
pub use world::{Agent, Census, Parent, Values, World, rises};
