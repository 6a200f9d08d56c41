//! The world of an agent file.
ghost use Rattle.std.specs.Prelude.{◌≡◌, ◌++◌, ◌∷◌, [], ℕ, nat_le, IsTrue, IfOk, OnOk, Ok, Err, Some, None, false, nat_eq};
ghost use Rattle.std.specs.List.{IsDistinct, list_all};
ghost use Rattle.std.specs.List.Sorted.{IsPermutation};
ghost use Rattle.csv.specs.Records.{fields_of};
ghost use Rattle.brace_model.specs.World.{IsNumbered, ids, world_of};
ghost use Rattle.brace_model.specs.Lawful.{LawfulAgents, is_lawful_agent};
ghost use Rattle.brace_model.specs.Step.{greatest_id};
ghost use Rattle.brace_rows.specs.AgentFile.{records_of, agents_in, agent_of, fault_behind, first_fault, are_too_many, by_id};
ghost use Rattle.brace_rows.specs.declared.kinds.RowKind.{RowKind};
ghost use Rattle.brace_rows.specs.declared.kinds.RowFault.TheVariants.{Bad};
ghost use Rattle.brace_rows.specs.inner.Registers.{IsRegister};

use crate::record::read_agent;
use crate::register::Register;
use crate::{RowFault, RowKind};
use brace_model::{Agent, Herd, Program, World};
use brace_num::NoMemory;
use csv::{ByteRecord, ReaderBuilder};
use std::alloc::Global;

/// The world of an agent file, whose records may stand in any order of ids, with the least next
/// free id; or the first faulty record with its first fault.
///
/// Records are csv's, with no header line. A record is the name of a class, an id, and a value for
/// each state of the class. It takes time in proportion to the bytes, and a sort by id.
pub fn read_agents(alloc: Global, program: &Program, bytes: &[u8]) -> Result<World, RowFault>
    ensures world { IfOk result (λ world. world ≡
        world_of (by_id (agents_in program.now (records_of bytes.now)))) }
    ensures faultless { OnOk result (first_fault program.now (records_of bytes.now) ≡ None) }
    ensures first { (number : ℕ) (kind : RowKind) → result ≡ Err (Bad number kind)
        → first_fault program.now (records_of bytes.now) ≡ Some (number, kind) }
    ensures agents { IfOk result (λ world. IsPermutation
        (agents_in program.now (records_of bytes.now)) world.agents) }
    ensures numbered { IfOk result IsNumbered }
    ensures lawful { IfOk result (λ world. LawfulAgents program.now world.agents) }
{
    let register = read_records(alloc, program, bytes)?;
    Ok(in_order(alloc, register.agents)?)
}

impl From<NoMemory> for RowFault {
    ghost use Rattle.brace_rows.specs.declared.kinds.RowFault.TheVariants as fault;

    ghost from_gives = { λ _ given. given ≡ fault.NoMemory };

    fn from(_: NoMemory) -> RowFault {
        RowFault::NoMemory
    }
}

fn read_records(alloc: Global, program: &Program, bytes: &[u8]) -> Result<Register, RowFault>
    ensures agents { IfOk result (λ register. register.agents.items ≡
        agents_in program.now (records_of bytes.now)) }
    ensures register { IfOk result IsRegister }
    ensures faultless { OnOk result (first_fault program.now (records_of bytes.now) ≡ None) }
    ensures first { (number : ℕ) (kind : RowKind) → result ≡ Err (Bad number kind)
        → first_fault program.now (records_of bytes.now) ≡ Some (number, kind) }
{
    let mut reader = ReaderBuilder::new()
        .has_headers(false)
        .flexible(true)
        .from_reader(alloc, bytes);
    let mut row = ByteRecord::new(alloc);
    let mut register = Register::new(alloc);
    for number in 1..u64::MAX {
        match reader.read_byte_record(&mut row) {
            Ok(true) => {
                if let Some(kind) = enter_record(alloc, program, &row, &mut register)? {
                    return Err(RowFault::Bad(number, kind));
                }
            }
            Ok(false) => return Ok(register),
            // A slice has no faults of its own.
            Err(_) => return Err(RowFault::NoMemory),
        }
    }
    Err(RowFault::NoMemory)
}

// The agent of one record more, or the record's first fault.
fn enter_record(
    alloc: Global,
    program: &Program,
    row: &ByteRecord,
    register: &mut Register,
) -> Result<Option<RowKind>, NoMemory>
    requires { IsRegister register.old }
    ensures judged { IfOk result (λ fault. fault ≡
        fault_behind register.old.agents.items (agent_of program.now (fields_of row.now))) }
    ensures entered { result ≡ Ok None → register.new.agents.items ≡
        register.old.agents.items ++ agents_in program.now (fields_of row.now ∷ []) }
    ensures register { result ≡ Ok None → IsRegister register.new }
{
    match read_agent(alloc, program, row)? {
        Ok(agent) => register.enter(agent),
        Err(kind) => Ok(Some(kind)),
    }
}

// The world of agents of different ids.
fn in_order(alloc: Global, agents: Vec<Agent>) -> Result<World, NoMemory>
    requires differ { IsDistinct nat_eq (ids agents.items) }
    requires in_range { IsTrue (list_all (λ a. nat_le a.id greatest_id) agents.items) }
    ensures world { IfOk result (λ world. world ≡ world_of (by_id agents.items)) }
    ensures numbered { IfOk result IsNumbered }
{
    let mut agents = agents;
    agents.sort_by_key(|agent| agent.id)?;
    let herd = Herd::of(alloc, agents.as_slice())?;
    match World::from_rising(herd) {
        Some(world) => Ok(world),
        None => unreachable!(),
    }
}
