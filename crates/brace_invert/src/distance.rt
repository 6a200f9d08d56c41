ghost use Rattle.std.specs.Prelude.{◌≡◌};
ghost use Rattle.std.specs.List.{list_any};
ghost use Rattle.brace_model.specs.Lawful.{LawfulProgram};
ghost use Rattle.brace_invert.specs.Range.{greatest_visible, is_other, says_within, says_in_inner_loops, range_of};

use brace_model::{Program, Stmt, Who};
use brace_num::List;

/// The greatest visible range of a script, in millionths; 0 where it has no class.
fn greatest_visible(program: &Program) -> i64
    ensures { result ≡ greatest_visible program.now }
{
    let mut greatest = 0;
    for class in program.classes.as_slice() {
        greatest = class.visible.max(greatest);
    }
    greatest
}

/// Whether in a block, inside or outside of a loop and of an inner loop, a value is said to a
/// loop's agent in an inner loop.
#[cycle(saying_within)]
fn block_says_within(block: &List<Stmt>, in_loop: bool, in_inner: bool) -> bool
    ensures { result ≡ list_any (λ s. says_within s in_loop in_inner) block.now }
{
    for s in block.as_slice() {
        if says_within(s, in_loop, in_inner) {
            return true;
        }
    }
    false
}

/// The same of a statement.
#[cycle(saying_within)]
#[tactic(auto, using(crate::proofs::RangeLemmas::says_within_rules))]
fn says_within(s: &Stmt, in_loop: bool, in_inner: bool) -> bool
    ensures { result ≡ says_within s.now in_loop in_inner }
{
    match s {
        Stmt::Const(..) => false,
        Stmt::If(_, a, b) => {
            block_says_within(a, in_loop, in_inner) || block_says_within(b, in_loop, in_inner)
        }
        Stmt::Foreach(_, body, _) => block_says_within(body, true, in_loop),
        Stmt::Assign(who, ..) => in_inner && *who != Who::This,
    }
}

/// Whether somewhere in a script a value is said to a loop's agent in an inner loop.
fn says_in_inner_loops(program: &Program) -> bool
    ensures { result ≡ says_in_inner_loops program.now }
{
    for class in program.classes.as_slice() {
        if block_says_within(&class.query, false, false) {
            return true;
        }
    }
    false
}

/// How far from an agent, along each axis and in millionths, those stand that decide what is said
/// to it, for a lawful script: the greatest visible range, and with inversion twice that where a
/// value is said to a loop's agent in an inner loop. It takes no memory.
pub fn range(program: &Program, invert: bool) -> i64
    requires lawful { LawfulProgram program.now }
    ensures { result ≡ range_of program.now invert }
{
    let visible = greatest_visible(program);
    if invert && says_in_inner_loops(program) {
        2 * visible
    } else {
        visible
    }
}
