ghost use Rattle.std.specs.Prelude.{◌≡◌, ◌<◌, ◌≤◌, ◌-◌, ◌^◌, ℕ, Option, [], ◌∷◌, length, Ok, Err, OnOk};
ghost use Rattle.brace_model.specs.Scopes.{scope_of};
ghost use Rattle.brace_model.specs.Value.{total_read, typed};
ghost use Rattle.brace_code.specs.Codes.{depth_of, gives};
ghost use Rattle.brace_code.specs.inner.Words.{word_of, made_word, with_word, binary_word, choose_word, operand_word, source_word};
ghost use Rattle.brace_code.specs.inner.Runs.{deed, outcome, ended, pushed, stack_of};

use crate::code::{Code, Instr, Operand, Source};
use crate::operations::{binary, flag, unary};
use crate::stack::Stack;
use brace_draw::Drawer;
use brace_model::{BinOp, Env, Stop, Ty, Value, agent_of, number, value_at};
use brace_num::{Kind, List};

/// The word of a total of a type.
fn total_word(ty: Ty, n: i64) -> i64
    ensures { (site : Option ℕ) → word_of (total_read ty site n) ≡ Ok result }
{
    match ty {
        Ty::Int | Ty::Fixed => n,
        Ty::Bool => flag(n != 0),
    }
}

/// A total as a word; with a site it faults where it does not fit.
#[inline(always)]
fn read_total(ty: Ty, site: Option<u32>, total: i128) -> Result<i64, Stop>
    ensures { result ≡ word_of (total_read ty site total) }
{
    match (site, i64::try_from(total)) {
        (_, Ok(n)) => Ok(total_word(ty, n)),
        (Some(site), Err(_)) => Err(Stop {
            site,
            kind: Kind::Overflow,
        }),
        (None, Err(_)) => Ok(0),
    }
}

/// The word of an operand.
// A result that is handed from function to function goes through memory, in pieces that the reader
// waits for: so what makes one stands in the code of who reads it.
#[inline(always)]
fn read(operand: Operand, env: &Env, drawer: &mut Drawer) -> Result<i64, Stop>
    requires { env.now.tick ≤ 2 ^ 32 }
    ensures word { result ≡ operand_word (scope_of env.now drawer.old) operand }
    ensures seed { drawer.new.seed ≡ drawer.old.seed }
{
    match operand {
        Operand::Word(word) => Ok(word),
        Operand::Field(who, place) => Ok(number(value_at(
            agent_of(env, drawer, who).states.as_slice(),
            place,
        ))),
        Operand::Total(effect, ty, site) => {
            let total = env.totals.get(effect as usize).copied().unwrap_or(0);
            read_total(ty, site, total)
        }
        Operand::Local(n) => Ok(number(value_at(env.locals, n))),
        Operand::Rand(site) => Ok(drawer.draw(env.tick, env.this.id, site)),
    }
}

/// The fault of code that finds no operand or no room, which no expression's code meets.
const STUCK: Stop = Stop {
    site: 0,
    kind: Kind::Overflow,
};

/// An exact result, or its fault at a site.
#[inline(always)]
fn made(site: u32, exact: Result<i64, Kind>) -> Result<i64, Stop>
    ensures { result ≡ made_word site exact }
{
    match exact {
        Ok(word) => Ok(word),
        Err(kind) => Err(Stop { site, kind }),
    }
}

/// An operation on a word and one that was read.
#[inline(always)]
fn with(site: u32, op: BinOp, ty: Ty, a: i64, read: Result<i64, Stop>) -> Result<i64, Stop>
    ensures { result ≡ with_word read (λ b. made_word site (binary_word op ty a b)) }
{
    match read {
        Ok(b) => made(site, binary(op, ty, a, b)),
        Err(stop) => Err(stop),
    }
}

/// The word of a source.
#[tactic(auto, using(crate::proofs::SingleLemmas::read_rules))]
#[inline(always)]
fn read_source(source: &Source, env: &Env, drawer: &mut Drawer) -> Result<i64, Stop>
    requires { env.now.tick ≤ 2 ^ 32 }
    ensures word { result ≡ source_word (scope_of env.now drawer.old) source.now }
    ensures seed { drawer.new.seed ≡ drawer.old.seed }
{
    match source {
        Source::One(operand) => read(*operand, env, drawer),
        Source::Two(op, ty, site, first, second) => match read(*first, env, drawer) {
            Ok(a) => {
                let b = read(*second, env, drawer);
                with(*site, *op, *ty, a, b)
            }
            Err(stop) => Err(stop),
        },
    }
}

/// The code that a word chooses.
fn chosen<'a>(word: i64, set: &'a List<Instr>, unset: &'a List<Instr>) -> &'a [Instr]
    ensures { result.now ≡ choose_word word set.now unset.now }
{
    if word == 0 {
        unset.as_slice()
    } else {
        set.as_slice()
    }
}

/// The word that the first instruction puts on an empty stack with room for so many words.
#[tactic(auto, using(crate::proofs::SingleLemmas::start_rules))]
#[inline(always)]
fn start(instr: &Instr, env: &Env, drawer: &mut Drawer, room: usize) -> Result<i64, Stop>
    requires { env.now.tick ≤ 2 ^ 32 }
    ensures did { deed instr.now room (scope_of env.now drawer.old) [] ≡ pushed [] result }
    ensures room { OnOk result (0 < room) }
    ensures seed { drawer.new.seed ≡ drawer.old.seed }
{
    match instr {
        Instr::Push(source) => {
            if room == 0 {
                return Err(STUCK);
            }
            match read_source(source, env, drawer) {
                Ok(word) => Ok(word),
                Err(stop) => Err(stop),
            }
        }
        Instr::Unary(_, _) => Err(STUCK),
        Instr::Binary(_, _, _) => Err(STUCK),
        Instr::With(_, _, _, _) => Err(STUCK),
        Instr::Choice(_, _) => Err(STUCK),
    }
}

/// The uppermost of the first words.
#[tactic(auto, using(crate::proofs::SingleLemmas::popped))]
#[inline(always)]
fn under(words: &[i64], below: usize) -> i64
    requires some { 0 < below }
    requires long { below ≤ length words.now }
    ensures { stack_of words.now below ≡ result ∷ stack_of words.now (below - 1) }
{
    words[below - 1]
}

/// One instruction on a stack of `top` above the first `below` words. Answers the new top.
// The top is no word in memory, since most instructions read and write nothing else.
#[tactic(auto, using(crate::proofs::SingleLemmas::step_rules))]
#[cycle(running)]
#[inline(always)]
fn step(
    instr: &Instr,
    env: &Env,
    drawer: &mut Drawer,
    words: &mut [i64],
    top: i64,
    below: &mut usize,
) -> Result<i64, Stop>
    requires tick { env.now.tick ≤ 2 ^ 32 }
    requires below { below.old < length words.old }
    ensures did { deed instr.now (length words.old) (scope_of env.now drawer.old)
        (top ∷ stack_of words.old below.old) ≡ pushed (stack_of words.new below.new) result }
    ensures below { below.new < length words.new }
    ensures seed { drawer.new.seed ≡ drawer.old.seed }
{
    match instr {
        Instr::Push(source) => {
            if words.len() - *below < 2 {
                return Err(STUCK);
            }
            words[*below] = top;
            *below += 1;
            read_source(source, env, drawer)
        }
        Instr::Unary(op, site) => made(*site, unary(*op, top)),
        Instr::Binary(op, ty, site) => {
            if *below == 0 {
                return Err(STUCK);
            }
            let a = under(words, *below);
            *below -= 1;
            made(*site, binary(*op, *ty, a, top))
        }
        Instr::With(op, ty, site, operand) => {
            let b = read(*operand, env, drawer);
            with(*site, *op, *ty, top, b)
        }
        Instr::Choice(set, unset) => {
            let branch = chosen(top, set, unset);
            outcome_of(run_above(branch, env, drawer, words, *below))
        }
    }
}

/// What code ends with: the word on top, unless it stopped. A `Result` would put both in one place,
/// from which the word is read late.
#[derive(Clone, Copy, Drop)]
pub struct Ended {
    word: i64,
    stop: Option<Stop>,
}

fn stopped(stop: Stop) -> Ended
    ensures { ended result ≡ Err stop }
{
    Ended {
        word: 0,
        stop: Some(stop),
    }
}

#[inline(always)]
fn outcome_of(end: Ended) -> Result<i64, Stop>
    ensures { result ≡ ended end }
{
    match end.stop {
        None => Ok(end.word),
        Some(stop) => Err(stop),
    }
}

/// What code leaves on top of an empty stack above the first `base` words.
#[tactic(auto, using(crate::proofs::SingleLemmas::above_rules))]
#[cycle(running)]
fn run_above(
    code: &[Instr],
    env: &Env,
    drawer: &mut Drawer,
    words: &mut [i64],
    base: usize,
) -> Ended
    requires tick { env.now.tick ≤ 2 ^ 32 }
    requires base { base ≤ length words.old }
    ensures word { ended result ≡ outcome code.now (length words.old - base)
        (scope_of env.now drawer.old) }
    ensures kept { stack_of words.new base ≡ stack_of words.old base }
    ensures seed { drawer.new.seed ≡ drawer.old.seed }
{
    run(code, env, drawer, &mut words[base..])
}

/// What code leaves on top of an empty stack with room for these words.
#[tactic(auto, using(crate::proofs::SingleLemmas::run_rules))]
#[cycle(running)]
fn run(code: &[Instr], env: &Env, drawer: &mut Drawer, words: &mut [i64]) -> Ended
    requires { env.now.tick ≤ 2 ^ 32 }
    ensures word { ended result
        ≡ outcome code.now (length words.old) (scope_of env.now drawer.old) }
    ensures seed { drawer.new.seed ≡ drawer.old.seed }
{
    let Some((first, rest)) = code.split_first() else {
        return stopped(STUCK);
    };
    let mut top = match start(first, env, drawer, words.len()) {
        Ok(word) => word,
        Err(stop) => return stopped(stop),
    };
    let mut below = 0;
    for instr in rest {
        top = match step(instr, env, drawer, words, top, &mut below) {
            Ok(word) => word,
            Err(stop) => return stopped(stop),
        };
    }
    Ended {
        word: top,
        stop: None,
    }
}

fn typed(ty: Ty, word: i64) -> Value
    ensures { result ≡ typed ty word }
{
    match ty {
        Ty::Int => Value::Int(word),
        Ty::Fixed => Value::Fixed(word),
        Ty::Bool => Value::Flag(word != 0),
    }
}

impl Code {
    /// What the code gives in an environment: its expression's value, or the site and kind of the
    /// first fault met from left to right. It takes no memory.
    ///
    /// The tick is at most 2^32, and the stack has room for the code's depth.
    pub fn eval(&self, env: &Env, drawer: &mut Drawer, stack: &mut Stack) -> Result<Value, Stop>
        requires tick { env.now.tick ≤ 2 ^ 32 }
        requires room { depth_of self.now ≤ stack.old }
        ensures value { result ≡ gives self.now (scope_of env.now drawer.old) }
        ensures seed { drawer.new.seed ≡ drawer.old.seed }
        ensures room { stack.new ≡ stack.old }
    {
        let words = &mut stack.words[..self.depth];
        match outcome_of(run(self.instrs.as_slice(), env, drawer, words)) {
            Ok(word) => Ok(typed(self.ty, word)),
            Err(stop) => Err(stop),
        }
    }
}
