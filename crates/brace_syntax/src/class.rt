//! Members, classes and scripts.

ghost use Rattle.std.specs.Prelude.{◌≡◌};
ghost use Rattle.brace_syntax.specs.inner.Cursor.{Follows};
ghost use Rattle.brace_syntax.specs.inner.Descent as spec;

use crate::expr::expression;
use crate::fault::Stop;
use crate::mark::Mark;
use crate::stmt::{assigned, block};
use crate::tokens::Tokens;
use crate::tree::{ClassTree, ExprTree, GiftTree, MemberTree, Number, Tree};
use brace_num::{Boxed, List};
use brace_tok::TokKind;
use std::alloc::Global;

#[tactic(auto, unfolding(crate::specs::inner::Descent::range))]
fn range(tokens: &mut Tokens<'_>) -> Result<Number, Stop>
    ensures { Follows (spec.range tokens.old) result tokens.new }
{
    tokens.expect(Mark::OpenBracket)?;
    let n = tokens.number()?;
    tokens.expect(Mark::CloseBracket)?;
    tokens.expect(Mark::Semicolon)?;
    Ok(n)
}

#[tactic(auto, unfolding(crate::specs::inner::Descent::visible))]
fn visible(tokens: &mut Tokens<'_>) -> Result<MemberTree, Stop>
    ensures { Follows (spec.visible tokens.old) result tokens.new }
{
    let at = tokens.pass();
    let n = range(tokens)?;
    Ok(MemberTree::Visible(n, at))
}

#[tactic(auto, unfolding(crate::specs::inner::Descent::reach))]
fn reach(tokens: &mut Tokens<'_>) -> Result<MemberTree, Stop>
    ensures { Follows (spec.reach tokens.old) result tokens.new }
{
    let at = tokens.pass();
    let n = range(tokens)?;
    Ok(MemberTree::Reach(n, at))
}

#[tactic(auto, unfolding(crate::specs::inner::Descent::ruled))]
fn ruled(alloc: Global, tokens: &mut Tokens<'_>) -> Result<Option<Boxed<ExprTree>>, Stop>
    ensures { Follows (spec.ruled tokens.old) result tokens.new }
{
    if tokens.eat(Mark::Colon) {
        let x = expression(alloc, tokens)?;
        tokens.expect(Mark::Semicolon)?;
        Ok(Some(x))
    } else {
        tokens.expect(Mark::Semicolon)?;
        Ok(None)
    }
}

#[tactic(auto, unfolding(crate::specs::inner::Descent::state))]
fn state(
    alloc: Global,
    tokens: &mut Tokens<'_>,
    is_public: bool,
    at: u32,
) -> Result<MemberTree, Stop>
    ensures { Follows (spec.state is_public at tokens.old) result tokens.new }
{
    tokens.pass();
    let t = tokens.type_name(alloc)?;
    let name = tokens.name(alloc)?;
    let x = ruled(alloc, tokens)?;
    Ok(MemberTree::State(is_public, t, name, x, at))
}

#[tactic(auto, unfolding(crate::specs::inner::Descent::effect))]
fn effect(
    alloc: Global,
    tokens: &mut Tokens<'_>,
    is_public: bool,
    at: u32,
) -> Result<MemberTree, Stop>
    ensures { Follows (spec.effect is_public at tokens.old) result tokens.new }
{
    tokens.pass();
    let t = tokens.type_name(alloc)?;
    let name = tokens.name(alloc)?;
    tokens.expect(Mark::Colon)?;
    let c = tokens.combinator()?;
    tokens.expect(Mark::Semicolon)?;
    Ok(MemberTree::Effect(is_public, t, name, c, at))
}

#[tactic(auto, unfolding(crate::specs::inner::Descent::field))]
fn field(
    alloc: Global,
    tokens: &mut Tokens<'_>,
    is_public: bool,
    at: u32,
) -> Result<MemberTree, Stop>
    ensures { Follows (spec.field is_public at tokens.old) result tokens.new }
{
    match tokens.peek() {
        Some(TokKind::KwState) => state(alloc, tokens, is_public, at),
        Some(TokKind::KwEffect) => effect(alloc, tokens, is_public, at),
        _ => Err(tokens.refuse()),
    }
}

#[tactic(auto, unfolding(crate::specs::inner::Descent::run))]
fn run(alloc: Global, tokens: &mut Tokens<'_>, at: u32) -> Result<MemberTree, Stop>
    ensures { Follows (spec.run at tokens.old) result tokens.new }
{
    tokens.pass();
    tokens.expect(Mark::Run)?;
    tokens.expect(Mark::OpenParen)?;
    tokens.expect(Mark::CloseParen)?;
    let body = block(alloc, tokens)?;
    Ok(MemberTree::Run(body, at))
}

#[tactic(auto, unfolding(crate::specs::inner::Descent::public))]
fn public(alloc: Global, tokens: &mut Tokens<'_>) -> Result<MemberTree, Stop>
    ensures { Follows (spec.public tokens.old) result tokens.new }
{
    let at = tokens.pass();
    match tokens.peek() {
        Some(TokKind::KwVoid) => run(alloc, tokens, at),
        _ => field(alloc, tokens, true, at),
    }
}

#[tactic(auto, unfolding(crate::specs::inner::Descent::private))]
fn private(alloc: Global, tokens: &mut Tokens<'_>) -> Result<MemberTree, Stop>
    ensures { Follows (spec.private tokens.old) result tokens.new }
{
    let at = tokens.pass();
    field(alloc, tokens, false, at)
}

#[tactic(auto, unfolding(crate::specs::inner::Descent::die))]
fn die(alloc: Global, tokens: &mut Tokens<'_>) -> Result<MemberTree, Stop>
    ensures { Follows (spec.die tokens.old) result tokens.new }
{
    let at = tokens.pass();
    tokens.expect(Mark::When)?;
    let x = expression(alloc, tokens)?;
    tokens.expect(Mark::Semicolon)?;
    Ok(MemberTree::Die(x, at))
}

#[tactic(auto, unfolding(crate::specs::inner::Descent::gift))]
fn gift(alloc: Global, tokens: &mut Tokens<'_>) -> Result<GiftTree, Stop>
    ensures { Follows (spec.gift tokens.old) result tokens.new }
{
    let state = tokens.name(alloc)?;
    let value = assigned(alloc, tokens)?;
    Ok(GiftTree { state, value })
}

#[tactic(auto, unfolding(crate::specs::inner::Descent::gifts, crate::specs::inner::Descent::gifts_from))]
fn gifts(alloc: Global, tokens: &mut Tokens<'_>) -> Result<List<GiftTree>, Stop>
    ensures { Follows (spec.gifts tokens.old) result tokens.new }
{
    let mut found = List::new(alloc);
    for _turn in 0..tokens.left() {
        if tokens.eat(Mark::CloseBrace) {
            return Ok(found);
        }
        found.push(gift(alloc, tokens)?)?;
    }
    Err(tokens.refuse())
}

#[tactic(auto, unfolding(crate::specs::inner::Descent::spawn))]
fn spawn(alloc: Global, tokens: &mut Tokens<'_>) -> Result<MemberTree, Stop>
    ensures { Follows (spec.spawn tokens.old) result tokens.new }
{
    let at = tokens.pass();
    tokens.expect(Mark::When)?;
    let x = expression(alloc, tokens)?;
    tokens.expect(Mark::OpenBrace)?;
    let given = gifts(alloc, tokens)?;
    Ok(MemberTree::Spawn(x, given, at))
}

#[tactic(auto, unfolding(crate::specs::inner::Descent::member))]
fn member(alloc: Global, tokens: &mut Tokens<'_>) -> Result<MemberTree, Stop>
    ensures { Follows (spec.member tokens.old) result tokens.new }
{
    match tokens.peek() {
        Some(TokKind::Visible) => visible(tokens),
        Some(TokKind::Reach) => reach(tokens),
        Some(TokKind::KwPublic) => public(alloc, tokens),
        Some(TokKind::KwPrivate) => private(alloc, tokens),
        Some(TokKind::KwDie) => die(alloc, tokens),
        Some(TokKind::KwSpawn) => spawn(alloc, tokens),
        _ => Err(tokens.refuse()),
    }
}

#[tactic(auto, unfolding(crate::specs::inner::Descent::members, crate::specs::inner::Descent::members_from))]
fn members(alloc: Global, tokens: &mut Tokens<'_>) -> Result<List<MemberTree>, Stop>
    ensures { Follows (spec.members tokens.old) result tokens.new }
{
    let mut found = List::new(alloc);
    for _turn in 0..tokens.left() {
        if tokens.eat(Mark::CloseBrace) {
            return Ok(found);
        }
        found.push(member(alloc, tokens)?)?;
    }
    Err(tokens.refuse())
}

#[tactic(auto, unfolding(crate::specs::inner::Descent::class))]
fn class(alloc: Global, tokens: &mut Tokens<'_>) -> Result<ClassTree, Stop>
    ensures { Follows (spec.class tokens.old) result tokens.new }
{
    let at = tokens.expect(Mark::Class)?;
    let name = tokens.name(alloc)?;
    tokens.expect(Mark::OpenBrace)?;
    let members = members(alloc, tokens)?;
    Ok(ClassTree { name, members, at })
}

#[tactic(auto, unfolding(crate::specs::inner::Descent::script, crate::specs::inner::Descent::classes_from))]
pub fn script(alloc: Global, tokens: &mut Tokens<'_>) -> Result<Tree, Stop>
    ensures { Follows (spec.script tokens.old) result tokens.new }
{
    let mut classes = List::new(alloc);
    for _turn in 0..tokens.left() {
        classes.push(class(alloc, tokens)?)?;
        if tokens.left() == 0 {
            return Ok(Tree { classes });
        }
    }
    Err(tokens.refuse())
}
