//! Statements and blocks.

ghost use Rattle.std.specs.Prelude.{◌≡◌};
ghost use Rattle.brace_syntax.specs.inner.Cursor.{Follows};
ghost use Rattle.brace_syntax.specs.inner.Descent as spec;
ghost use Rattle.brace_syntax.specs.inner.Nests.{NestsBlocks};

use crate::expr::expression;
use crate::fault::Stop;
use crate::mark::Mark;
use crate::tokens::Tokens;
use crate::tree::{ExprTree, Ident, StmtTree};
use brace_num::{Boxed, List};
use brace_tok::TokKind;
use std::alloc::Global;

/// What stands before the block of `foreach`.
#[derive(Debug, Drop)]
pub struct Heading {
    pub class: Ident,
    pub variable: Ident,
    pub other: Ident,
    pub at: u32,
}

/// A value behind an arrow, up to the semicolon.
#[tactic(auto, unfolding(crate::specs::inner::Descent::assigned))]
pub fn assigned(alloc: Global, tokens: &mut Tokens<'_>) -> Result<Boxed<ExprTree>, Stop>
    ensures { Follows (spec.assigned tokens.old) result tokens.new }
{
    tokens.expect(Mark::Arrow)?;
    let x = expression(alloc, tokens)?;
    tokens.expect(Mark::Semicolon)?;
    Ok(x)
}

#[tactic(auto, unfolding(crate::specs::inner::Descent::constant))]
fn constant(alloc: Global, tokens: &mut Tokens<'_>) -> Result<StmtTree, Stop>
    ensures { Follows (spec.constant tokens.old) result tokens.new }
{
    let at = tokens.pass();
    let t = tokens.type_name(alloc)?;
    let name = tokens.name(alloc)?;
    tokens.expect(Mark::Assign)?;
    let x = expression(alloc, tokens)?;
    tokens.expect(Mark::Semicolon)?;
    Ok(StmtTree::Const(t, name, x, at))
}

#[tactic(auto, unfolding(crate::specs::inner::Descent::assign_this))]
fn assign_this(alloc: Global, tokens: &mut Tokens<'_>) -> Result<StmtTree, Stop>
    ensures { Follows (spec.assign_this tokens.old) result tokens.new }
{
    let at = tokens.pass();
    tokens.expect(Mark::Dot)?;
    let name = tokens.name(alloc)?;
    let x = assigned(alloc, tokens)?;
    Ok(StmtTree::AssignThis(name, x, at))
}

#[tactic(auto, unfolding(crate::specs::inner::Descent::assign))]
fn assign(alloc: Global, tokens: &mut Tokens<'_>) -> Result<StmtTree, Stop>
    ensures { Follows (spec.assign tokens.old) result tokens.new }
{
    let first = tokens.name(alloc)?;
    if tokens.eat(Mark::Dot) {
        let second = tokens.name(alloc)?;
        let x = assigned(alloc, tokens)?;
        Ok(StmtTree::AssignLoop(first, second, x))
    } else {
        let x = assigned(alloc, tokens)?;
        Ok(StmtTree::Assign(first, x))
    }
}

#[tactic(auto, unfolding(crate::specs::inner::Descent::condition))]
fn condition(alloc: Global, tokens: &mut Tokens<'_>) -> Result<Boxed<ExprTree>, Stop>
    ensures { Follows (spec.condition tokens.old) result tokens.new }
{
    tokens.expect(Mark::OpenParen)?;
    let x = expression(alloc, tokens)?;
    tokens.expect(Mark::CloseParen)?;
    Ok(x)
}

#[tactic(auto, unfolding(crate::specs::inner::Descent::ranging))]
fn ranging(alloc: Global, tokens: &mut Tokens<'_>) -> Result<Heading, Stop>
    ensures { Follows (spec.ranging tokens.old) result tokens.new }
{
    let at = tokens.pass();
    tokens.expect(Mark::OpenParen)?;
    let class = tokens.name(alloc)?;
    let variable = tokens.name(alloc)?;
    tokens.expect(Mark::Colon)?;
    tokens.expect(Mark::Extent)?;
    tokens.expect(Mark::Less)?;
    let other = tokens.name(alloc)?;
    tokens.expect(Mark::Greater)?;
    tokens.expect(Mark::CloseParen)?;
    Ok(Heading {
        class,
        variable,
        other,
        at,
    })
}

/// The rows of statements. Those that have a block are given a function for it, so that each is
/// proved by itself.
#[derive(Clone, Copy)]
pub struct Stmts<F> {
    pub alloc: Global,
    /// How deep blocks may still nest.
    pub depth: usize,
    pub block: F,
}

impl<F: Fn(Global, &mut Tokens<'_>, usize) -> Result<List<StmtTree>, Stop>> Stmts<F> {
    fn nested(&self, tokens: &mut Tokens<'_>) -> Result<List<StmtTree>, Stop>
        requires { NestsBlocks self.now.depth (F.pre self.now.block) (F.post self.now.block) }
        ensures { Follows (spec.block_to self.now.depth tokens.old) result tokens.new }
    {
        (self.block)(self.alloc, tokens, self.depth)
    }

    #[tactic(auto, unfolding(crate::specs::inner::Descent::when))]
    fn when(&self, tokens: &mut Tokens<'_>) -> Result<StmtTree, Stop>
        requires { NestsBlocks self.now.depth (F.pre self.now.block) (F.post self.now.block) }
        ensures { Follows (spec.when (spec.block_to self.now.depth) tokens.old) result tokens.new }
    {
        let at = tokens.pass();
        let x = condition(self.alloc, tokens)?;
        let block = self.nested(tokens)?;
        if tokens.eat(Mark::Else) {
            let other = self.nested(tokens)?;
            Ok(StmtTree::If(x, block, Some(other), at))
        } else {
            Ok(StmtTree::If(x, block, None, at))
        }
    }

    #[tactic(auto, unfolding(crate::specs::inner::Descent::foreach))]
    fn foreach(&self, tokens: &mut Tokens<'_>) -> Result<StmtTree, Stop>
        requires { NestsBlocks self.now.depth (F.pre self.now.block) (F.post self.now.block) }
        ensures { Follows (spec.foreach (spec.block_to self.now.depth) tokens.old)
            result tokens.new }
    {
        let heading = ranging(self.alloc, tokens)?;
        let block = self.nested(tokens)?;
        let Heading {
            class,
            variable,
            other,
            at,
        } = heading;
        Ok(StmtTree::Foreach(class, variable, other, block, at))
    }

    #[tactic(auto, unfolding(crate::specs::inner::Descent::statement))]
    fn statement(&self, tokens: &mut Tokens<'_>) -> Result<StmtTree, Stop>
        requires { NestsBlocks self.now.depth (F.pre self.now.block) (F.post self.now.block) }
        ensures { Follows (spec.statement (spec.block_to self.now.depth) tokens.old)
            result tokens.new }
    {
        match tokens.peek() {
            Some(TokKind::KwConst) => constant(self.alloc, tokens),
            Some(TokKind::KwIf) => self.when(tokens),
            Some(TokKind::KwForeach) => self.foreach(tokens),
            Some(TokKind::KwThis) => assign_this(self.alloc, tokens),
            _ => assign(self.alloc, tokens),
        }
    }

    #[tactic(auto, unfolding(crate::specs::inner::Descent::braced, crate::specs::inner::Descent::statements))]
    fn braced(&self, tokens: &mut Tokens<'_>) -> Result<List<StmtTree>, Stop>
        requires { NestsBlocks self.now.depth (F.pre self.now.block) (F.post self.now.block) }
        ensures { Follows (spec.braced (spec.block_to self.now.depth) tokens.old)
            result tokens.new }
    {
        tokens.expect(Mark::OpenBrace)?;
        let mut found = List::new(self.alloc);
        for _turn in 0..tokens.left() {
            if tokens.eat(Mark::CloseBrace) {
                return Ok(found);
            }
            found.push(self.statement(tokens)?)?;
        }
        Err(tokens.refuse())
    }
}

/// Statements in braces, with blocks nested no deeper than `depth`.
pub fn block_to(
    alloc: Global,
    tokens: &mut Tokens<'_>,
    depth: usize,
) -> Result<List<StmtTree>, Stop>
    ensures { Follows (spec.block_to depth tokens.old) result tokens.new }
{
    if depth == 0 {
        return Err(tokens.refuse());
    }
    Stmts {
        alloc,
        depth: depth - 1,
        block: block_to,
    }
    .braced(tokens)
}

/// Statements in braces. Each nested block has fewer tokens, so their count is deep enough.
#[tactic(auto, unfolding(crate::specs::inner::Descent::block))]
pub fn block(alloc: Global, tokens: &mut Tokens<'_>) -> Result<List<StmtTree>, Stop>
    ensures { Follows (spec.block tokens.old) result tokens.new }
{
    let depth = tokens.left();
    block_to(alloc, tokens, depth)
}
