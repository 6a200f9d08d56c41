ghost use Rattle.std.specs.Prelude.{◌≡◌, ◌-◌, ◌<◌, ◌≤◌, ◌^◌, IfOk, IfSome, IsTrue, length, slice_get, int_le};
ghost use Rattle.std.specs.List.{list_all};
ghost use Rattle.brace_cuts.specs.Space.{rises, can_cut, least as least_number};
ghost use Rattle.brace_balance.specs.Loads.{never_falls, load, accepts, IsLeast};
ghost use Rattle.brace_balance.specs.Fillings.{filled, IsProof};

use crate::fill::{fill, posts};
use crate::search::least_load;
use crate::stack::least_stack;
use crate::{Balance, Proof};
use brace_num::{List, NoMemory};
use std::alloc::Global;

/// Cuts of numbers, in millionths, into at most `strips` strips whose greatest load is the least
/// possible, and a proof of that. Strips are filled from the left as far as the load allows, and a
/// cut stands at the first number of the next strip.
///
/// It takes one pass over the numbers, and for each digit of the load a halving for each strip.
pub fn balance(alloc: Global, xs: &[i64], strips: u32) -> Result<Balance, NoMemory>
    requires sorted { IsTrue (never_falls xs.now) }
    requires size { length xs.now ≤ 2 ^ 20 }
    requires some { 1 ≤ strips }
    requires most { strips ≤ 64 }
    ensures cuts { IfOk result (λ b. b.cuts ≡ filled b.load strips xs.now) }
    ensures rising { IfOk result (λ b. IsTrue (rises b.cuts)) }
    ensures cutting { IfOk result (λ b. IsTrue (list_all can_cut b.cuts)) }
    ensures few { IfOk result (λ b. length b.cuts < strips) }
    ensures load { IfOk result (λ b. load b.cuts xs.now ≡ b.load) }
    ensures accepted { IfOk result (λ b. IsTrue (accepts xs.now strips b.load b.proof)) }
    ensures least { IfOk result (λ b. IsLeast xs.now strips b.load) }
    ensures proof { IfOk result (λ b. IsProof xs.now strips b.load b.proof) }
{
    if first_of(xs).is_none() {
        return Ok(Balance {
            cuts: List::new(alloc),
            load: 0,
            proof: Proof::Empty,
        });
    }
    let load = least_load(xs, strips);
    let mut cuts = List::new(alloc);
    fill(&mut cuts, xs, load, strips)?;
    Ok(Balance {
        cuts,
        load: load as u32,
        proof: proof_of(alloc, xs, strips, load)?,
    })
}

/// The first number, if there is one. It has 64 bits.
fn first_of(xs: &[i64]) -> Option<i64>
    ensures first { result ≡ slice_get xs.now 0 }
    ensures low { IfSome result (λ v. IsTrue (int_le least_number v)) }
{
    if xs.is_empty() {
        return None;
    }
    Some(xs[0])
}

/// The proof of a load: equal numbers where there are so many of them, else posts.
fn proof_of(alloc: Global, xs: &[i64], strips: u32, load: usize) -> Result<Proof, NoMemory>
    requires not_empty { 0 < length xs.now }
    requires sorted { IsTrue (never_falls xs.now) }
    requires positive { 1 ≤ load }
    requires within { load ≤ length xs.now }
    ensures { IfOk result (IsProof xs.now strips load) }
{
    match least_stack(xs, load) {
        Some(p) => Ok(Proof::Stack(p)),
        None => Ok(Proof::Posts(posts(alloc, xs, load - 1, strips)?)),
    }
}
