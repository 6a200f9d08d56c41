use crate::tests::programs::{agent_of, program_of};
use brace_model::{Herd, Ty, Value, World};
use brace_save::{PointFault, read_checkpoint, write_checkpoint};
use std::alloc::Global;
use std::test::Fail;

// The one class, and its states.
const CLASSES: &[(&str, &[(&str, Ty)])] = &[(
    "P",
    &[("x", Ty::Fixed), ("y", Ty::Fixed), ("n", Ty::Int)],
)];

const TEXT: &[u8] = b"brace checkpoint 1\ntick 2\nseed 0\nclass P x:fixed y:fixed n:int\nP,7,\
 3.000000,-0.000001,5\nend 1\n";

const VALUES: &[Value] = &[Value::Fixed(3_000_000), Value::Fixed(-1), Value::Int(5)];

// The text of a checkpoint at tick 2 of one agent.
fn written(alloc: Global) -> Result<Vec<u8>, Fail> {
    let program = program_of(alloc, CLASSES)?;
    let mut agents = Vec::new(alloc);
    agents.push(agent_of(alloc, 0, 7, VALUES)?)?;
    let world = World::from_rising(Herd::of(alloc, &agents)?).ok_or("the ids rise")?;
    let mut out = Vec::new(alloc);
    write_checkpoint(&mut out, &program, 2, 0, &world)?;
    Ok(out)
}

// The tick, the seed and the next free id of a checkpoint, and how many agents it has.
fn told(alloc: Global, text: &[u8]) -> Result<(u64, u64, u64, usize), PointFault> {
    let program = program_of(alloc, CLASSES)?;
    let point = read_checkpoint(alloc, &program, text)?;
    Ok((
        point.tick,
        point.seed,
        point.world.next(),
        point.world.agents().len(),
    ))
}

#[test]
fn writes_a_checkpoint(rt: HostRuntime) -> Result<(), Fail> {
    let out = written(rt.alloc())?;
    assert_eq!(rt; out.as_slice(), TEXT);
    Ok(())
}

#[test]
fn a_front_of_a_checkpoint_is_incomplete(rt: HostRuntime) {
    for n in 0..TEXT.len() {
        let found = told(rt.alloc(), &TEXT[..n]);
        assert_eq!(rt; found, Err(PointFault::Incomplete));
    }
}

// Texts, and what they tell or why they are no checkpoints.
const READ: [(&[u8], Result<(u64, u64, u64, usize), PointFault>); 11] = [
    (TEXT, Ok((2, 0, 8, 1))),
    (
        b"brace checkpoint 2\ntick 4294967296\nseed 18446744073709551615\nnext 12\nclass P x:fixed \
          y:fixed n:int\nend 0\n",
        Ok((4_294_967_296, u64::MAX, 12, 0)),
    ),
    (b"brace checkpoint 9\n", Err(PointFault::BadVersion)),
    (
        b"brace checkpoint 1\ntick 02\n",
        Err(PointFault::BadLine(2)),
    ),
    (
        b"brace checkpoint 1\ntick 4294967297\n",
        Err(PointFault::BadLine(2)),
    ),
    (
        b"brace checkpoint 1\ntick 2\nseed 0\nclass P x:fixed y:fixed\n",
        Err(PointFault::OtherClasses),
    ),
    (
        b"brace checkpoint 2\ntick 2\nseed 0\nnext 07\n",
        Err(PointFault::BadLine(4)),
    ),
    (
        b"brace checkpoint 2\ntick 2\nseed 0\nnext 7\nclass P x:fixed y:fixed n:int\nP,7,0.000000,\
          0.000000,5\n",
        Err(PointFault::BadLine(6)),
    ),
    (
        b"brace checkpoint 1\ntick 2\nseed 0\nclass P x:fixed y:fixed n:int\nP,7,3.0,0.000000,5\n",
        Err(PointFault::BadLine(5)),
    ),
    (
        b"brace checkpoint 1\ntick 2\nseed 0\nclass P x:fixed y:fixed n:int\nend 2\n",
        Err(PointFault::BadLine(5)),
    ),
    (
        b"brace checkpoint 1\ntick 2\nseed 0\nclass P x:fixed y:fixed n:int\nend 0\nx",
        Err(PointFault::BadLine(6)),
    ),
];

#[test]
fn reads_checkpoints_or_names_the_first_bad_line(rt: HostRuntime) {
    for &(text, wanted) in &READ {
        assert_eq!(rt; told(rt.alloc(), text), wanted);
    }
}
