ghost use Rattle.std.specs.Prelude.{◌≡◌, ◌+◌, map, sum, IfOk};
ghost use Rattle.brace_model.specs.Query.{constants};

use brace_model::Stmt;
use brace_num::{List, NoMemory};

/// A sum. No query has so many constants that there is none.
fn together(a: usize, b: usize) -> Result<usize, NoMemory>
    ensures { IfOk result (λ both. both ≡ a + b) }
{
    match a.checked_add(b) {
        Some(both) => Ok(both),
        None => Err(NoMemory),
    }
}

/// How many constants a statement declares.
#[cycle(counting)]
#[tactic(auto, using(crate::proofs::Steps::count_rules))]
fn constants_of(s: &Stmt) -> Result<usize, NoMemory>
    ensures { IfOk result (λ count. count ≡ constants s.now) }
{
    match s {
        Stmt::Const(..) => Ok(1),
        Stmt::If(_, a, b) => together(constants_in(a)?, constants_in(b)?),
        Stmt::Foreach(_, body, _) => constants_in(body),
        Stmt::Assign(..) => Ok(0),
    }
}

/// How many constants a block declares.
#[cycle(counting)]
pub fn constants_in(block: &List<Stmt>) -> Result<usize, NoMemory>
    ensures { IfOk result (λ count. count ≡ sum (map constants block.now)) }
{
    let mut count = 0;
    for s in block.as_slice() {
        count = together(count, constants_of(s)?)?;
    }
    Ok(count)
}
