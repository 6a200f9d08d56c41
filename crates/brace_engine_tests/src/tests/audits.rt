// Files beside the published text of a run.
ghost use Rattle.brace_model.specs.Lawful.{LawfulJob};

use brace_audit::{AuditFault, audit};
use brace_io::MemShelf;
use brace_model::{Fault, Job, Phase};
use brace_num::{Kind, NoMemory};
use brace_test_runs::{Run, setting};
use std::alloc::Global;
use std::test::Fail;

/// What an audit of a name answers where `p` is a file, and where the call of the shelf with this
/// number fails.
fn audited(
    alloc: Global,
    job: &Job,
    name: &str,
    file: &[u8],
    call: u64,
) -> Result<Result<(), AuditFault>, Fail>
    requires { LawfulJob job.now }
{
    let mut shelf = MemShelf::make(alloc, vec![in alloc; call]?);
    shelf.hold("p", file)?;
    Ok(audit(alloc, job, &mut shelf, name))
}

/// The same of `p`, where its file is the lines of a front and those behind it.
fn audited_behind(
    alloc: Global,
    job: &Job,
    front: &str,
    rest: &str,
    call: u64,
) -> Result<Result<(), AuditFault>, Fail>
    requires { LawfulJob job.now }
{
    let file = format!(in alloc; "{front}{rest}")?;
    audited(alloc, job, "p", file.as_bytes(), call)
}

/// The lines of a file behind the front that all have, the number of the call that fails, and what
/// an audit answers.
type Case<'a> = (&'a str, u64, Result<(), AuditFault>);

/// An agent goes half a unit to the right in each tick.
const GOING: Run = Run {
    script: "class A{#reach[1];public state fixed x:x+0.5;public state fixed y;}",
    agents: "A,7,0,0\n",
    plan: "at 0 x y\n",
    ticks: (0, 2),
    epoch: 1,
    every: 1,
    invert: false,
};

const GOING_FRONT: &str = "0,A,7,0.000000,0.000000\n1,A,7,0.500000,0.000000\n";

const GOING_CASES: [Case; 10] = [
    ("2,A,7,1.000000,0.000000\n", 0, Ok(())),
    ("2,A,7,1.000001,0.000000\n", 0, Err(AuditFault::Differs(3))),
    ("2,A,7,1.000000,0.000000", 0, Err(AuditFault::Differs(3))),
    ("", 0, Err(AuditFault::Differs(3))),
    (
        "2,A,7,1.000000,0.000000\n3,A,7,1.500000,0.000000\n",
        0,
        Err(AuditFault::Differs(4)),
    ),
    (
        "2,A,7,1.000000,0.000000\n\n",
        0,
        Err(AuditFault::Differs(4)),
    ),
    ("2,A,7,1.000000,0.000000\n", 1, Err(AuditFault::Failed)),
    ("2,A,7,1.000000,0.000000\n", 2, Err(AuditFault::Failed)),
    ("2,A,7,1.000000,0.000000\n", 3, Err(AuditFault::Failed)),
    ("2,A,7,1.000000,0.000000\n", 4, Ok(())),
];

/// An agent divides 6 by a number that falls to 0.
const FALLING: Run = Run {
    script: "class A{#reach[1];public state fixed x;public state fixed y;public state int n:n-1;\
             public state int q:6/n;}",
    agents: "A,7,0,0,2,0\n",
    plan: "at 0 x y\n",
    ticks: (0, 9),
    epoch: 1,
    every: 1,
    invert: false,
};

const FALLING_FRONT: &str = "0,A,7,0.000000,0.000000,2,0\n1,A,7,0.000000,0.000000,1,3\n";

const FALLING_CASES: [Case; 4] = [
    (
        "2,A,7,0.000000,0.000000,0,6\n",
        0,
        Err(AuditFault::Fault(Fault {
            tick: 2,
            phase: Phase::Update,
            agent: 7,
            site: 1,
            outer: None,
            inner: None,
            kind: Kind::DivZero,
        })),
    ),
    (
        "2,A,7,0.000000,0.000000,0,6",
        0,
        Err(AuditFault::Differs(3)),
    ),
    (
        "2,A,7,0.000000,0.000000,0,6\n3",
        0,
        Err(AuditFault::Differs(4)),
    ),
    ("", 0, Err(AuditFault::Differs(3))),
];

/// Runs, the front of their files, and their cases.
const RUNS: [(Run, &str, &[Case]); 2] = [
    (GOING, GOING_FRONT, &GOING_CASES),
    (FALLING, FALLING_FRONT, &FALLING_CASES),
];

#[test]
fn audits_name_the_first_other_line(rt: HostRuntime) -> Result<(), Fail> {
    let alloc = rt.alloc();
    for &(run, front, cases) in &RUNS {
        let setting = setting(alloc, &run)?;
        for &(rest, call, want) in cases {
            let answer = audited_behind(alloc, &setting.job, front, rest, call)?;
            assert!(rt; answer == want, "{rest} and call {call}: {answer:?}");
        }
    }
    Ok(())
}

#[test]
fn audits_miss_a_name_that_is_not_held(rt: HostRuntime) -> Result<(), Fail> {
    let alloc = rt.alloc();
    let setting = setting(alloc, &GOING)?;
    let answer = audited(alloc, &setting.job, "q", GOING_FRONT.as_bytes(), 0)?;
    assert!(rt; answer == Err(AuditFault::Absent));
    Ok(())
}

/// An agent rests. Every second tick and the last one are published.
const RESTING: Run = Run {
    script: "class A{public state fixed x;public state fixed y;}",
    ticks: (0, 6001),
    every: 2,
    ..GOING
};

/// The text of that run.
fn long_text(alloc: Global) -> Result<String, NoMemory> {
    let mut text = String::new(alloc);
    for tick in 0..6002u64 {
        if tick % 2 == 0 || tick == 6001 {
            text.push_str(format!(in alloc; "{tick},A,7,0.000000,0.000000\n")?.as_str())?;
        }
    }
    Ok(text)
}

/// What is behind a text of more than 65,536 bytes, and what an audit answers.
const BEHIND: [(&str, Result<(), AuditFault>); 2] = [
    ("", Ok(())),
    ("6002", Err(AuditFault::Differs(3003))),
];

#[test]
fn audits_read_on_where_a_file_is_long(rt: HostRuntime) -> Result<(), Fail> {
    let alloc = rt.alloc();
    let setting = setting(alloc, &RESTING)?;
    let text = long_text(alloc)?;
    for &(rest, want) in &BEHIND {
        let answer = audited_behind(alloc, &setting.job, text.as_str(), rest, 0)?;
        assert!(rt; text.len() > 65_536 && answer == want, "{rest}: {answer:?}");
    }
    Ok(())
}
