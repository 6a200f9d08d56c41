//! Blocks that several herds may have.
ghost use Rattle.std.specs.Prelude.{◌≡◌, ◌≤◌, drop, length, IfOk};
ghost use Rattle.brace_model.specs.inner.Packed.{IsGrown};

use crate::stored::{Block, extended};
use brace_num::NoMemory;
use std::alloc::Global;
use std::marker::Model;
use std::sync::Arc;

/// A block that several herds may have. Contracts see the block.
#[derive(Debug, Drop)]
pub struct Shared {
    block: Arc<Block>,
}

impl Model for Shared {
    ghost use Rattle.std.specs.Arc.{arc_value};
    ghost use Rattle.brace_model.specs.declared.stored.Block.{Block};

    ghost Value = { Block };

    ghost view = { λ shared. arc_value shared.block };
}

impl Shared {
    /// A block that one herd has.
    pub fn of(alloc: Global, block: Block) -> Result<Shared, NoMemory>
        ensures { IfOk result (λ shared. shared ≡ block) }
    {
        let block = Arc::new(alloc, block)?;
        Ok(Shared { block })
    }

    /// The block.
    pub fn block(&self) -> &Block
        ensures { result.now ≡ self.now }
    {
        &self.block
    }

    /// Whether one herd alone has it.
    pub fn is_alone(&self) -> bool {
        Arc::strong_count(&self.block) == 1
    }

    /// The same block for one herd more.
    pub fn again(&self) -> Result<Shared, NoMemory>
        ensures { IfOk result (λ shared. shared ≡ self.now) }
    {
        let block = Arc::try_clone(&self.block)?;
        Ok(Shared { block })
    }

    /// Puts words behind those of a block that one herd alone has, and tells the place at which
    /// they begin.
    pub fn extended(&mut self, words: &[i64]) -> Result<u32, NoMemory>
        ensures there { IfOk result (λ start. drop start self.new.words ≡ words.now) }
        ensures within { IfOk result (λ start. start ≤ length self.new.words) }
        ensures grown { IsGrown self.old self.new }
    {
        match Arc::get_mut(&mut self.block) {
            Some(block) => extended(block, words),
            None => Err(NoMemory),
        }
    }
}

/// The same blocks for one herd more.
pub fn all_again(alloc: Global, blocks: &[Shared]) -> Result<Vec<Shared>, NoMemory>
    ensures { IfOk result (λ all. all.items ≡ blocks.now) }
{
    let mut all = Vec::with_capacity(alloc, blocks.len())?;
    for shared in blocks {
        let again = shared.again()?;
        all.push(again)?;
    }
    Ok(all)
}
