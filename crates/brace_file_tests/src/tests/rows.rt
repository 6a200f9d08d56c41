use crate::tests::programs::{agent_of, program_of};
use brace_model::{Herd, Ty, Value, World};
use brace_num::NoMemory;
use brace_rows::{RowFault, RowKind, make_agents, print_agent, print_tick, read_agents};
use std::alloc::Global;
use std::test::Fail;

// The names of classes, and their states.
const CLASSES: &[(&str, &[(&str, Ty)])] = &[
    ("P", &[("s", Ty::Fixed), ("s", Ty::Fixed)]),
    (
        "Quail",
        &[("s", Ty::Fixed), ("s", Ty::Int), ("s", Ty::Bool)],
    ),
];

// Classes, ids and values of agents.
const AGENTS: [(u32, u64, &[Value]); 3] = [
    (0, 0, &[Value::Fixed(3_000_000), Value::Fixed(-1)]),
    (
        1,
        7,
        &[
            Value::Fixed(1_000_000),
            Value::Fixed(i64::MAX),
            Value::Int(8),
            Value::Int(-3),
        ],
    ),
    (
        0,
        9_223_372_036_854_775_807,
        &[Value::Flag(true), Value::Flag(false), Value::Int(i64::MIN)],
    ),
];

const ROWS: &[u8] = b"3,P,0,3.000000,-0.000001\n3,Quail,7,1.000000,9223372036854.775807,8,-3\n3,P,\
 9223372036854775807,true,false,-9223372036854775808\n";

fn agents(alloc: Global) -> Result<Herd, NoMemory> {
    let mut agents = Vec::new(alloc);
    for &(class, id, values) in &AGENTS {
        agents.push(agent_of(alloc, class, id, values)?)?;
    }
    Herd::of(alloc, &agents)
}

fn rows_of(alloc: Global, tick: u64, world: &World) -> Result<Vec<u8>, NoMemory> {
    let program = program_of(alloc, CLASSES)?;
    let mut out = Vec::new(alloc);
    print_tick(&mut out, &program, tick, world)?;
    Ok(out)
}

#[test]
fn prints_rows_of_ints_fixed_numbers_and_flags(rt: HostRuntime) -> Result<(), Fail> {
    let world = World::from_rising(agents(rt.alloc())?).ok_or("the ids rise")?;
    let out = rows_of(rt.alloc(), 3, &world)?;
    assert_eq!(rt; out.as_slice(), ROWS);
    Ok(())
}

const VALUES: &[Value] = &[Value::Int(-3), Value::Fixed(500_000), Value::Flag(true)];

// Classes, and what is printed of an agent of each behind a mark.
const FIELDS: [(u32, &[u8]); 2] = [
    (1, b"> Quail,7,-3,0.500000,true"),
    (2, b"> ,7,-3,0.500000,true"),
];

// The fields of an agent, behind a mark.
fn fields_of(alloc: Global, class: u32) -> Result<Vec<u8>, NoMemory> {
    let program = program_of(alloc, CLASSES)?;
    let agent = agent_of(alloc, class, 7, VALUES)?;
    let mut out = Vec::from_slice(alloc, b"> ")?;
    print_agent(&mut out, &program, &agent)?;
    Ok(out)
}

#[test]
fn prints_the_fields_of_an_agent(rt: HostRuntime) -> Result<(), Fail> {
    for &(class, wanted) in &FIELDS {
        let out = fields_of(rt.alloc(), class)?;
        assert_eq!(rt; out.as_slice(), wanted, "class {class}");
    }
    Ok(())
}

// What csv makes of odd bytes, and each kind of fault at its bounds: files, their agents' rows and
// their faults.
const FILES: [(&[u8], &[u8], Option<RowFault>); 52] = [
    (b"", b"", None),
    (b"P,7,0,0", b"0,P,7,0.000000,0.000000\n", None),
    (b"\"P\",7,\"0\",0\r\n", b"0,P,7,0.000000,0.000000\n", None),
    (
        b"P,7,0,0\rP,8,0,0\r",
        b"0,P,7,0.000000,0.000000\n0,P,8,0.000000,0.000000\n",
        None,
    ),
    (b"\xEF\xBB\xBFP,7,0,0\n", b"0,P,7,0.000000,0.000000\n", None),
    (
        b"P,7,0,0\n\xEF\xBB\xBFP,8,0,0\n",
        b"",
        Some(RowFault::Bad(2, RowKind::UnknownClass)),
    ),
    (b"\n\r\nP,7,0,0\n\n\n", b"0,P,7,0.000000,0.000000\n", None),
    (
        b"\n\nP,7,0,0\n\nR,8,0,0\n",
        b"",
        Some(RowFault::Bad(2, RowKind::UnknownClass)),
    ),
    (b"  \n", b"", Some(RowFault::Bad(1, RowKind::UnknownClass))),
    (
        b"\"\"\nP,7,0,0\n",
        b"",
        Some(RowFault::Bad(1, RowKind::UnknownClass)),
    ),
    (
        b"class,id,x,y\nP,7,0,0\n",
        b"",
        Some(RowFault::Bad(1, RowKind::UnknownClass)),
    ),
    (
        b"\"P,7,0,0\n",
        b"",
        Some(RowFault::Bad(1, RowKind::UnknownClass)),
    ),
    (
        b"P,7,0,\"0\nP,8,0,0\n",
        b"",
        Some(RowFault::Bad(1, RowKind::BadValue(3))),
    ),
    (
        b"P\"x,7,0,0\n",
        b"",
        Some(RowFault::Bad(1, RowKind::UnknownClass)),
    ),
    (
        b"\"P\"x,7,0,0\n",
        b"",
        Some(RowFault::Bad(1, RowKind::UnknownClass)),
    ),
    (b"\0", b"", Some(RowFault::Bad(1, RowKind::UnknownClass))),
    (
        b"P,7,0,0\0\n",
        b"",
        Some(RowFault::Bad(1, RowKind::BadValue(3))),
    ),
    (
        b"\xFF,7,0,0\n",
        b"",
        Some(RowFault::Bad(1, RowKind::UnknownClass)),
    ),
    (
        b"P,\xC3,0,0\n",
        b"",
        Some(RowFault::Bad(1, RowKind::BadValue(1))),
    ),
    (
        b"P,7,\xFF,0\n",
        b"",
        Some(RowFault::Bad(1, RowKind::BadValue(2))),
    ),
    (
        b"P,9223372036854775807,0,0\n",
        b"0,P,9223372036854775807,0.000000,0.000000\n",
        None,
    ),
    (
        b"P,9223372036854775808,0,0\n",
        b"",
        Some(RowFault::Bad(1, RowKind::BadValue(1))),
    ),
    (
        b"P,18446744073709551616,0,0\n",
        b"",
        Some(RowFault::Bad(1, RowKind::BadValue(1))),
    ),
    (
        b"P,-1,0,0\n",
        b"",
        Some(RowFault::Bad(1, RowKind::BadValue(1))),
    ),
    (
        b"P,,0,0\n",
        b"",
        Some(RowFault::Bad(1, RowKind::BadValue(1))),
    ),
    (
        b"P, 7,0,0\n",
        b"",
        Some(RowFault::Bad(1, RowKind::BadValue(1))),
    ),
    (
        b"Quail,1,9223372036854.775807,9223372036854775807,true\n",
        b"0,Quail,1,9223372036854.775807,9223372036854775807,true\n",
        None,
    ),
    (
        b"Quail,1,-9223372036854.775808,-9223372036854775808,false\n",
        b"0,Quail,1,-9223372036854.775808,-9223372036854775808,false\n",
        None,
    ),
    (
        b"Quail,1,9223372036854.775808,0,true\n",
        b"",
        Some(RowFault::Bad(1, RowKind::BadValue(2))),
    ),
    (
        b"Quail,1,-9223372036854.775809,0,true\n",
        b"",
        Some(RowFault::Bad(1, RowKind::BadValue(2))),
    ),
    (
        b"Quail,1,0,9223372036854775808,true\n",
        b"",
        Some(RowFault::Bad(1, RowKind::BadValue(3))),
    ),
    (
        b"Quail,1,0,-9223372036854775809,true\n",
        b"",
        Some(RowFault::Bad(1, RowKind::BadValue(3))),
    ),
    (
        b"Quail,1,0,18446744073709551616,true\n",
        b"",
        Some(RowFault::Bad(1, RowKind::BadValue(3))),
    ),
    (
        b"Quail,1,0,1.0,true\n",
        b"",
        Some(RowFault::Bad(1, RowKind::BadValue(3))),
    ),
    (
        b"Quail,1,0,0,True\n",
        b"",
        Some(RowFault::Bad(1, RowKind::BadValue(4))),
    ),
    (
        b"P,7,0.0000000,0\n",
        b"",
        Some(RowFault::Bad(1, RowKind::BadValue(2))),
    ),
    (
        b"P,7,0,0\t\n",
        b"",
        Some(RowFault::Bad(1, RowKind::BadValue(3))),
    ),
    (b"R\n", b"", Some(RowFault::Bad(1, RowKind::UnknownClass))),
    (b"P\n", b"", Some(RowFault::Bad(1, RowKind::WrongLength))),
    (
        b"P,7,0\n",
        b"",
        Some(RowFault::Bad(1, RowKind::WrongLength)),
    ),
    (
        b"P,x,y,z,\n",
        b"",
        Some(RowFault::Bad(1, RowKind::WrongLength)),
    ),
    (
        b"P,x,y,z\n",
        b"",
        Some(RowFault::Bad(1, RowKind::BadValue(1))),
    ),
    (
        b"P,7,y,z\n",
        b"",
        Some(RowFault::Bad(1, RowKind::BadValue(2))),
    ),
    (
        b"P,7,0,0\nP,7,0,0\n",
        b"",
        Some(RowFault::Bad(2, RowKind::DuplicateId)),
    ),
    (
        b"P,8,0,0\nP,7,0,0\nQuail,008,0,0,true\n",
        b"",
        Some(RowFault::Bad(3, RowKind::DuplicateId)),
    ),
    (
        b"P,7,0,0\nP,7,y,0\n",
        b"",
        Some(RowFault::Bad(2, RowKind::BadValue(2))),
    ),
    (
        b"P,7,0,0\nR\nP,7,0,0\n",
        b"",
        Some(RowFault::Bad(2, RowKind::UnknownClass)),
    ),
    (
        b"P,7,0\nR\n",
        b"",
        Some(RowFault::Bad(1, RowKind::WrongLength)),
    ),
    (
        b"P,7,0,0\nP,9,x,0\nP,7,0,0\nR",
        b"",
        Some(RowFault::Bad(2, RowKind::BadValue(2))),
    ),
    (b"P,007,-0,00.50\n", b"0,P,7,0.000000,0.500000\n", None),
    (
        b"P,7,0,0\nQuail,2,2.5,-3,true\nP,0,1,-2\n",
        b"0,P,0,1.000000,-2.000000\n0,Quail,2,2.500000,-3,true\n0,P,7,0.000000,0.000000\n",
        None,
    ),
    (
        b"P,2,0,0\nP,1,0,0\n",
        b"0,P,1,0.000000,0.000000\n0,P,2,0.000000,0.000000\n",
        None,
    ),
];

// The rows of the agents that a file holds, or its fault.
fn told(alloc: Global, file: &[u8]) -> Result<(Vec<u8>, Option<RowFault>), NoMemory> {
    let program = program_of(alloc, CLASSES)?;
    match read_agents(alloc, &program, file) {
        Ok(world) => Ok((rows_of(alloc, 0, &world)?, None)),
        Err(fault) => Ok((Vec::new(alloc), Some(fault))),
    }
}

// A file whose second record has 10000 fields.
fn wide_file(alloc: Global) -> Result<Vec<u8>, NoMemory> {
    let mut wide = Vec::from_slice(alloc, b"P,7,0,0\nP")?;
    for _ in 1..10_000 {
        wide.extend_from_slice(b",0")?;
    }
    Ok(wide)
}

#[test]
fn reads_hostile_files_as_csv_defines_them(rt: HostRuntime) -> Result<(), Fail> {
    for &(file, rows, fault) in &FILES {
        let (out, found) = told(rt.alloc(), file)?;
        assert_eq!(rt; (out.as_slice(), found), (rows, fault), "{file:?}");
    }
    Ok(())
}

#[test]
fn refuses_a_wide_record(rt: HostRuntime) -> Result<(), Fail> {
    let file = wide_file(rt.alloc())?;
    let (_, fault) = told(rt.alloc(), file.as_slice())?;
    assert_eq!(rt; fault, Some(RowFault::Bad(2, RowKind::WrongLength)));
    Ok(())
}

const MADE: &[u8] = b"0,P,0,236.067972,278.566908,0.000000,0.000000\n0,P,1,819.533759,667.866897,\
 0.000000,0.000000\n";

// The first two numbers from the seed 0 are 1013904223 and 1196435762, the next two 3519870697 and
// 2868466484; of a seed the low 32 bits count.
#[test]
fn makes_agents_at_drawn_places(rt: HostRuntime) -> Result<(), Fail> {
    for seed in [0, 4_294_967_296] {
        let world = make_agents(rt.alloc(), seed, 2)?;
        let out = rows_of(rt.alloc(), 0, &world)?;
        assert_eq!(rt; (out.as_slice(), world.next()), (MADE, 2));
    }
    Ok(())
}
