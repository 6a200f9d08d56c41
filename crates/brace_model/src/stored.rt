//! The words of the agents of a herd.
ghost use Rattle.std.specs.Prelude.{◌≡◌, ◌≤◌, drop, length, IfOk, IfSome};
ghost use Rattle.std.specs.Bool.{OnTrue};
ghost use Rattle.brace_model.specs.inner.Packed.{AreGrown, HasBlock, IsBlock, IsGrown, IsStored};

use crate::Ty;
use crate::shared::Shared;
use brace_num::{List, NoMemory};
use std::alloc::Global;

/// The words of agents of a class that have states of some types, one agent behind the other.
#[derive(Debug, Drop)]
pub struct Block {
    pub class: u32,
    pub types: List<Ty>,
    pub words: List<i64>,
}

/// Where the words of an agent begin: in which block, and at which place of it.
#[derive(Debug, Clone, Copy, Drop)]
pub struct Spot {
    pub block: u32,
    pub start: u32,
}

/// Whether two types are one.
fn is_same(a: Ty, b: Ty) -> bool
    ensures { OnTrue result (a ≡ b) }
{
    match (a, b) {
        (Ty::Int, Ty::Int) | (Ty::Fixed, Ty::Fixed) | (Ty::Bool, Ty::Bool) => true,
        _ => false,
    }
}

/// Whether two lists of types are one.
fn are_same(a: &[Ty], b: &[Ty]) -> bool
    ensures { OnTrue result (a.now ≡ b.now) }
{
    if a.len() != b.len() {
        return false;
    }
    for k in 0..a.len() {
        if !is_same(a[k], b[k]) {
            return false;
        }
    }
    true
}

/// Whether a block is one of a class and of types.
fn is_of(block: &Block, class: u32, types: &[Ty]) -> bool
    ensures { OnTrue result (IsBlock class types.now block.now) }
{
    block.class == class && are_same(block.types.as_slice(), types)
}

/// The number of a block of a class and of types that one herd alone has, if there is one.
fn found(blocks: &[Shared], class: u32, types: &[Ty]) -> Option<usize>
    ensures { IfSome result (HasBlock blocks.now class types.now) }
{
    for k in 0..blocks.len() {
        let shared = &blocks[k];
        if is_of(shared.block(), class, types) && shared.is_alone() {
            return Some(k);
        }
    }
    None
}

/// A copy of types.
fn copied(alloc: Global, types: &[Ty]) -> Result<Vec<Ty>, NoMemory>
    ensures { IfOk result (λ copy. copy.items ≡ types.now) }
{
    let mut copy = Vec::with_capacity(alloc, types.len())?;
    copy.extend_from_slice(types)?;
    Ok(copy)
}

/// A block without words, with room for so many.
fn empty(alloc: Global, class: u32, types: &[Ty], room: usize) -> Result<Block, NoMemory>
    ensures { IfOk result (IsBlock class types.now) }
{
    Ok(Block {
        class,
        types: List::from_vec(copied(alloc, types)?),
        words: List::from_vec(Vec::with_capacity(alloc, room)?),
    })
}

/// The number of a block of a class and of types that one herd alone has, which is put behind the
/// others where there is none.
fn numbered(
    alloc: Global,
    blocks: &mut Vec<Shared>,
    class: u32,
    types: &[Ty],
    room: usize,
) -> Result<usize, NoMemory>
    ensures there { IfOk result (HasBlock blocks.new.items class types.now) }
    ensures grown { AreGrown blocks.old.items blocks.new.items }
{
    if let Some(number) = found(blocks, class, types) {
        return Ok(number);
    }
    let number = blocks.len();
    let block = Shared::of(alloc, empty(alloc, class, types, room)?)?;
    blocks.push(block)?;
    Ok(number)
}

/// Puts words behind those of a block, and tells the place at which they begin.
pub fn extended(block: &mut Block, words: &[i64]) -> Result<u32, NoMemory>
    ensures there { IfOk result (λ start. drop start block.new.words ≡ words.now) }
    ensures within { IfOk result (λ start. start ≤ length block.new.words) }
    ensures grown { IsGrown block.old block.new }
{
    let Ok(start) = u32::try_from(block.words.as_slice().len()) else {
        return Err(NoMemory);
    };
    for word in words {
        block.words.push(*word)?;
    }
    Ok(start)
}

/// Puts an agent's words into a block of its class and of the types of its states. A new block has
/// room for so many words.
pub(crate) fn stored(
    alloc: Global,
    blocks: &mut Vec<Shared>,
    class: u32,
    types: &[Ty],
    words: &[i64],
    room: usize,
) -> Result<Spot, NoMemory>
    ensures there { IfOk result (IsStored blocks.new.items class types.now words.now) }
    ensures grown { AreGrown blocks.old.items blocks.new.items }
{
    let number = numbered(alloc, blocks, class, types, room)?;
    let Ok(block) = u32::try_from(number) else {
        return Err(NoMemory);
    };
    let start = blocks[number].extended(words)?;
    Ok(Spot { block, start })
}
