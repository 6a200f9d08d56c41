//! Expressions, a function for each row.

ghost use Rattle.std.specs.Prelude.{◌≡◌, IfOk};
ghost use Rattle.brace_syntax.specs.inner.Cursor.{Follows};
ghost use Rattle.brace_syntax.specs.inner.Descent as spec;
ghost use Rattle.brace_syntax.specs.inner.Nests.{Nests};
ghost use Rattle.brace_syntax.specs.declared.tree.ExprTree.TheVariants as e;

use crate::fault::Stop;
use crate::mark::Mark;
use crate::operators::{Level, joins, prefixes};
use crate::tokens::Tokens;
use crate::tree::{BinName, ExprTree, UnName};
use brace_num::{Boxed, NoMemory};
use brace_tok::TokKind;
use std::alloc::Global;

/// Where an expression is begun: at its first row, or at that of prefixes.
#[derive(Debug, Clone, Copy, PartialEq, Eq, Drop)]
pub enum Start {
    Whole,
    Operand,
}

// How often a level joins at most, where so many tokens are left: a comparison stands alone.
fn turns(level: Level, left: usize) -> usize
    ensures { result ≡ spec.most level left }
{
    match level {
        Level::Comparison => 1,
        _ => left,
    }
}

fn unary(
    alloc: Global,
    name: UnName,
    x: Boxed<ExprTree>,
    at: u32,
) -> Result<Boxed<ExprTree>, NoMemory>
    ensures { IfOk result (λ tree. tree ≡ e.Unary name x at) }
{
    Boxed::new(alloc, ExprTree::Unary(name, x, at))
}

fn binary(
    alloc: Global,
    name: BinName,
    x: Boxed<ExprTree>,
    y: Boxed<ExprTree>,
    at: u32,
) -> Result<Boxed<ExprTree>, NoMemory>
    ensures { IfOk result (λ tree. tree ≡ e.Binary name x y at) }
{
    Boxed::new(alloc, ExprTree::Binary(name, x, y, at))
}

#[tactic(auto, unfolding(crate::specs::inner::Descent::of_this))]
fn of_this(alloc: Global, tokens: &mut Tokens<'_>) -> Result<Boxed<ExprTree>, Stop>
    ensures { Follows (spec.of_this tokens.old) result tokens.new }
{
    let at = tokens.pass();
    tokens.expect(Mark::Dot)?;
    let name = tokens.name(alloc)?;
    Ok(Boxed::new(alloc, ExprTree::OfThis(name, at))?)
}

#[tactic(auto, unfolding(crate::specs::inner::Descent::named))]
fn named(alloc: Global, tokens: &mut Tokens<'_>) -> Result<Boxed<ExprTree>, Stop>
    ensures { Follows (spec.named tokens.old) result tokens.new }
{
    let first = tokens.name(alloc)?;
    if tokens.eat(Mark::Dot) {
        let second = tokens.name(alloc)?;
        Ok(Boxed::new(alloc, ExprTree::OfLoop(first, second))?)
    } else {
        Ok(Boxed::new(alloc, ExprTree::Name(first))?)
    }
}

#[tactic(auto, unfolding(crate::specs::inner::Descent::literal))]
fn literal(alloc: Global, tokens: &mut Tokens<'_>) -> Result<Boxed<ExprTree>, Stop>
    ensures { Follows (spec.literal tokens.old) result tokens.new }
{
    let number = tokens.number()?;
    Ok(Boxed::new(alloc, ExprTree::Lit(number))?)
}

#[tactic(auto, unfolding(crate::specs::inner::Descent::random))]
fn random(alloc: Global, tokens: &mut Tokens<'_>) -> Result<Boxed<ExprTree>, Stop>
    ensures { Follows (spec.random tokens.old) result tokens.new }
{
    let at = tokens.pass();
    tokens.expect(Mark::OpenParen)?;
    tokens.expect(Mark::CloseParen)?;
    Ok(Boxed::new(alloc, ExprTree::Rand(at))?)
}

/// The rows of expressions. The rows that lead back to the first are given a function for that, so
/// that each is proved by itself.
#[derive(Clone, Copy)]
pub struct Exprs<F> {
    pub alloc: Global,
    /// How deep expressions may still nest.
    pub depth: usize,
    pub expr: F,
}

impl<F: Fn(Global, &mut Tokens<'_>, usize, Start) -> Result<Boxed<ExprTree>, Stop>> Exprs<F> {
    fn nested(&self, tokens: &mut Tokens<'_>, start: Start) -> Result<Boxed<ExprTree>, Stop>
        requires { Nests self.now.depth (F.pre self.now.expr) (F.post self.now.expr) }
        ensures { Follows (spec.expr self.now.depth start tokens.old) result tokens.new }
    {
        (self.expr)(self.alloc, tokens, self.depth, start)
    }

    #[tactic(auto, unfolding(crate::specs::inner::Descent::one_argument))]
    fn one_argument(&self, tokens: &mut Tokens<'_>, name: UnName) -> Result<Boxed<ExprTree>, Stop>
        requires { Nests self.now.depth (F.pre self.now.expr) (F.post self.now.expr) }
        ensures { Follows (spec.one_argument (spec.expr self.now.depth) name tokens.old)
            result tokens.new }
    {
        let at = tokens.pass();
        tokens.expect(Mark::OpenParen)?;
        let x = self.nested(tokens, Start::Whole)?;
        tokens.expect(Mark::CloseParen)?;
        Ok(unary(self.alloc, name, x, at)?)
    }

    #[tactic(auto, unfolding(crate::specs::inner::Descent::two_arguments))]
    fn two_arguments(&self, tokens: &mut Tokens<'_>, name: BinName) -> Result<Boxed<ExprTree>, Stop>
        requires { Nests self.now.depth (F.pre self.now.expr) (F.post self.now.expr) }
        ensures { Follows (spec.two_arguments (spec.expr self.now.depth) name tokens.old)
            result tokens.new }
    {
        let at = tokens.pass();
        tokens.expect(Mark::OpenParen)?;
        let x = self.nested(tokens, Start::Whole)?;
        tokens.expect(Mark::Comma)?;
        let y = self.nested(tokens, Start::Whole)?;
        tokens.expect(Mark::CloseParen)?;
        Ok(binary(self.alloc, name, x, y, at)?)
    }

    #[tactic(auto, unfolding(crate::specs::inner::Descent::enclosed))]
    fn enclosed(&self, tokens: &mut Tokens<'_>) -> Result<Boxed<ExprTree>, Stop>
        requires { Nests self.now.depth (F.pre self.now.expr) (F.post self.now.expr) }
        ensures { Follows (spec.enclosed (spec.expr self.now.depth) tokens.old) result tokens.new }
    {
        tokens.pass();
        let x = self.nested(tokens, Start::Whole)?;
        tokens.expect(Mark::CloseParen)?;
        Ok(x)
    }

    #[tactic(auto, unfolding(crate::specs::inner::Descent::primary))]
    fn primary(&self, tokens: &mut Tokens<'_>) -> Result<Boxed<ExprTree>, Stop>
        requires { Nests self.now.depth (F.pre self.now.expr) (F.post self.now.expr) }
        ensures { Follows (spec.primary (spec.expr self.now.depth) tokens.old) result tokens.new }
    {
        match tokens.peek() {
            Some(TokKind::KwTrue) => Ok(Boxed::new(self.alloc, ExprTree::True(tokens.pass()))?),
            Some(TokKind::KwFalse) => Ok(Boxed::new(self.alloc, ExprTree::False(tokens.pass()))?),
            Some(TokKind::OpenParen) => self.enclosed(tokens),
            Some(TokKind::KwThis) => of_this(self.alloc, tokens),
            Some(TokKind::Word) => named(self.alloc, tokens),
            Some(TokKind::KwAbs) => self.one_argument(tokens, UnName::Abs),
            Some(TokKind::KwSqrt) => self.one_argument(tokens, UnName::Sqrt),
            Some(TokKind::KwFixed) => self.one_argument(tokens, UnName::ToFixed),
            Some(TokKind::KwTrunc) => self.one_argument(tokens, UnName::Trunc),
            Some(TokKind::KwMin) => self.two_arguments(tokens, BinName::Min),
            Some(TokKind::KwMax) => self.two_arguments(tokens, BinName::Max),
            Some(TokKind::KwRand) => random(self.alloc, tokens),
            _ => literal(self.alloc, tokens),
        }
    }

    #[tactic(auto, unfolding(crate::specs::inner::Descent::prefixed))]
    fn prefixed(&self, tokens: &mut Tokens<'_>) -> Result<Boxed<ExprTree>, Stop>
        requires { Nests self.now.depth (F.pre self.now.expr) (F.post self.now.expr) }
        ensures { Follows (spec.prefixed (spec.expr self.now.depth) tokens.old) result tokens.new }
    {
        let Some(name) = prefixes(tokens.peek()) else {
            return self.primary(tokens);
        };
        let at = tokens.pass();
        let x = self.nested(tokens, Start::Operand)?;
        Ok(unary(self.alloc, name, x, at)?)
    }

    /// What a level joins: the rows of the next tighter one.
    #[cycle(levels)]
    #[inline(always)]
    fn operand(&self, tokens: &mut Tokens<'_>, level: Level) -> Result<Boxed<ExprTree>, Stop>
        requires { Nests self.now.depth (F.pre self.now.expr) (F.post self.now.expr) }
        ensures { Follows (spec.operand (spec.expr self.now.depth) level tokens.old)
            result tokens.new }
    {
        match level {
            Level::Product => self.prefixed(tokens),
            Level::Total => self.joined(tokens, Level::Product),
            Level::Comparison => self.joined(tokens, Level::Total),
            Level::Conjunction => self.joined(tokens, Level::Comparison),
            Level::Disjunction => self.joined(tokens, Level::Conjunction),
        }
    }

    /// Operands of a level and what stands between them, grouped to the left.
    #[cycle(levels)]
    #[tactic(auto, unfolding(crate::specs::inner::Descent::climb))]
    fn joined(&self, tokens: &mut Tokens<'_>, level: Level) -> Result<Boxed<ExprTree>, Stop>
        requires { Nests self.now.depth (F.pre self.now.expr) (F.post self.now.expr) }
        ensures { Follows (spec.joined (spec.expr self.now.depth) level tokens.old)
            result tokens.new }
    {
        let mut left = self.operand(tokens, level)?;
        for _turn in 0..turns(level, tokens.left()) {
            let Some(name) = joins(level, tokens.peek()) else {
                return Ok(left);
            };
            let at = tokens.pass();
            let right = self.operand(tokens, level)?;
            left = binary(self.alloc, name, left, right, at)?;
        }
        Ok(left)
    }

    #[tactic(auto, unfolding(crate::specs::inner::Descent::choice))]
    fn choice(&self, tokens: &mut Tokens<'_>) -> Result<Boxed<ExprTree>, Stop>
        requires { Nests self.now.depth (F.pre self.now.expr) (F.post self.now.expr) }
        ensures { Follows (spec.choice (spec.expr self.now.depth) tokens.old) result tokens.new }
    {
        let w = self.joined(tokens, Level::Disjunction)?;
        if !tokens.sees(Mark::Question) {
            return Ok(w);
        }
        let at = tokens.pass();
        let x = self.nested(tokens, Start::Whole)?;
        tokens.expect(Mark::Colon)?;
        let y = self.nested(tokens, Start::Whole)?;
        Ok(Boxed::new(self.alloc, ExprTree::Choice(w, x, y, at))?)
    }

    fn begun(&self, tokens: &mut Tokens<'_>, start: Start) -> Result<Boxed<ExprTree>, Stop>
        requires { Nests self.now.depth (F.pre self.now.expr) (F.post self.now.expr) }
        ensures { Follows (spec.begun (spec.expr self.now.depth) start tokens.old)
            result tokens.new }
    {
        match start {
            Start::Whole => self.choice(tokens),
            Start::Operand => self.prefixed(tokens),
        }
    }
}

/// An expression from its start, with expressions nested no deeper than `depth`.
pub fn expr(
    alloc: Global,
    tokens: &mut Tokens<'_>,
    depth: usize,
    start: Start,
) -> Result<Boxed<ExprTree>, Stop>
    ensures { Follows (spec.expr depth start tokens.old) result tokens.new }
{
    if depth == 0 {
        return Err(tokens.refuse());
    }
    Exprs {
        alloc,
        depth: depth - 1,
        expr,
    }
    .begun(tokens, start)
}

/// An expression. Each nested expression has fewer tokens, so their count is deep enough.
#[tactic(auto, unfolding(crate::specs::inner::Descent::expression))]
pub fn expression(alloc: Global, tokens: &mut Tokens<'_>) -> Result<Boxed<ExprTree>, Stop>
    ensures { Follows (spec.expression tokens.old) result tokens.new }
{
    let depth = tokens.left();
    expr(alloc, tokens, depth, Start::Whole)
}
