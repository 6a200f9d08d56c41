ghost use Rattle.std.specs.Prelude.{◌≡◌, [], ◌∷◌, ◌++◌, IfOk, OnOk, OnErr};
ghost use Rattle.brace_comb.specs.Totals.{tally, join, CanJoin};
ghost use Rattle.brace_comb.specs.Entries.{by_place, IsRising, CanMerge};
ghost use Rattle.brace_comb.specs.Partials.{IsPartialOf};
ghost use Rattle.brace_comb.specs.inner.Ranks.{IsRank};

use crate::{Combine, Entry};
use brace_num::NoMemory;
use std::alloc::Global;
use std::cmp::Ordering;

/// How two entries stand to each other: by target, then by field.
pub fn order(a: &Entry, b: &Entry) -> Ordering
    ensures { result ≡ by_place a.now b.now }
{
    a.target.cmp(&b.target).then(a.field.cmp(&b.field))
}

/// The first entry, joined with what the second gives to the same effect.
pub fn joined(a: &Entry, b: &Entry) -> Entry
    requires { CanJoin (tally a.now.total) (tally b.now.total) }
    ensures target { result.target ≡ a.now.target }
    ensures field { result.field ≡ a.now.field }
    ensures total { tally result.total ≡ join (tally a.now.total) (tally b.now.total) }
{
    let mut entry = *a;
    entry.total.join(&b.total);
    entry
}

/// How many of some rising entries stand before an entry, by its place.
fn rank(entries: &[Entry], entry: &Entry) -> usize
    requires { IsRising entries.now }
    ensures { IsRank entries.now entry.now result }
{
    entries.partition_point(|e| order(e, entry).is_lt())
}

/// Gives one entry to rising ones, or leaves them as they were.
pub fn give(entries: &mut Vec<Entry>, entry: Entry) -> Result<(), NoMemory>
    requires rising { IsRising entries.old.items }
    requires joins { CanMerge entries.old.items (entry ∷ []) }
    ensures ok { OnOk result (IsPartialOf (entries.old.items ++ entry ∷ []) entries.new.items) }
    ensures err { OnErr result (entries.new.items ≡ entries.old.items) }
{
    let at = rank(entries.as_slice(), &entry);
    if at < entries.len() && order(&entries[at], &entry).is_eq() {
        entries[at] = joined(&entries[at], &entry);
    } else {
        entries.insert(at, entry)?;
    }
    Ok(())
}

/// The entries that two rising lists of entries come to, in a walk along both.
pub fn merged(alloc: Global, a: &[Entry], b: &[Entry]) -> Result<Vec<Entry>, NoMemory>
    requires first { IsRising a.now }
    requires second { IsRising b.now }
    requires joins { CanMerge a.now b.now }
    ensures { IfOk result (λ merged. IsPartialOf (a.now ++ b.now) merged.items) }
{
    let mut merged = Vec::with_capacity(alloc, a.len() + b.len())?;
    let mut left = a;
    let mut right = b;
    while let (Some((x, after_x)), Some((y, after_y))) = (left.split_first(), right.split_first()) {
        match order(x, y) {
            Ordering::Less => {
                merged.push(*x)?;
                left = after_x;
            }
            Ordering::Greater => {
                merged.push(*y)?;
                right = after_y;
            }
            Ordering::Equal => {
                merged.push(joined(x, y))?;
                left = after_x;
                right = after_y;
            }
        }
    }
    merged.extend_from_slice(left)?;
    merged.extend_from_slice(right)?;
    Ok(merged)
}
