//! Where the words of the agents of a herd lie.
ghost use Rattle.std.specs.Prelude.{◌≡◌, ◌<◌, ℕ, length, map, slice_index_or, IfOk};
ghost use Rattle.std.specs.List.{All};
ghost use Rattle.brace_model.specs.declared.heads.Head.{Head};
ghost use Rattle.brace_model.specs.inner.Packed.{shifted};

use brace_num::NoMemory;
use std::alloc::Global;

/// An agent's id, and where its words begin: in which block, and at which place of it.
#[derive(Debug, Clone, Copy, Drop)]
pub struct Head {
    pub id: u64,
    pub block: u32,
    pub start: u32,
}

/// Heads whose blocks stand behind so many others.
pub(crate) fn shifted(alloc: Global, heads: &[Head], by: u32) -> Result<Vec<Head>, NoMemory>
    ensures { IfOk result (λ all. all.items ≡ map (shifted by) heads.now) }
{
    let mut all = Vec::with_capacity(alloc, heads.len())?;
    for head in heads {
        let Some(block) = by.checked_add(head.block) else {
            return Err(NoMemory);
        };
        all.push(Head {
            id: head.id,
            block,
            start: head.start,
        })?;
    }
    Ok(all)
}

/// The heads at some places; `NoMemory` where there is no such place.
pub(crate) fn picked(alloc: Global, heads: &[Head], places: &[u32]) -> Result<Vec<Head>, NoMemory>
    ensures are { IfOk result (λ all. (h : Head)
        → all.items ≡ map (λ place. slice_index_or heads.now place h) places.now) }
    ensures within { IfOk result (λ _. All (λ (place : ℕ). place < length heads.now) places.now) }
{
    let mut all = Vec::with_capacity(alloc, places.len())?;
    for place in places {
        let Some(head) = heads.get(*place as usize) else {
            return Err(NoMemory);
        };
        all.push(*head)?;
    }
    Ok(all)
}
