ghost use Rattle.std.specs.Prelude.{◌≡◌, ◌<◌, ◌≤◌, ◌+◌, ◌∷◌, ◌++◌, ℕ, [], pos, length, take, true, false, if◌then◌else◌, IfOk, OnOk, slice_index_or};
ghost use Rattle.brace_code.specs.Columns.{AreMerged, AreNumbers, ArePut, IsSame, IsSide, Puts, side};

use crate::lane::Redo;
use crate::view::are_within;
use brace_num::List;
use std::alloc::Global;

/// The words of the lanes on one side of a test: one that all of them have, or the numbers of those
/// lanes and a word for each.
#[derive(Drop)]
pub enum SideWords {
    Same(i64),
    Each(List<u32>, List<i64>),
}

// Writes a number at a place, and goes on from the next place if it is kept: no branch depends on
// it.
#[tactic(auto, using(crate::proofs::LaneLemmas::put_kept))]
fn put_kept(out: &mut [u32], place: usize, number: u32, keeps: bool) -> usize
    requires { place < length out.old }
    ensures front { take result out.new
        ≡ take place out.old ++ (if keeps then number ∷ [] else []) }
    ensures next { result ≤ place + 1 }
{
    out[place] = number;
    place + usize::from(keeps)
}

fn on_side(set: bool, word: i64) -> bool
    ensures { result ≡ side set word }
{
    (word != 0) == set
}

/// Puts the numbers of the lanes on a side in front, and tells how many they are.
// Inlined where the side is known, so that the loop does not ask for it.
#[inline(always)]
#[tactic(auto, using(crate::proofs::LaneLemmas::number_rules))]
fn put_numbers(out: &mut [u32], set: bool, test: &[i64], count: u32) -> usize
    requires count { count ≡ length test.now }
    requires long { length out.old ≡ length test.now }
    ensures { AreNumbers set test.now (length test.now) (take result out.new) }
{
    let mut place = 0;
    for k in 0..count {
        place = put_kept(out, place, k, on_side(set, test[k as usize]));
    }
    place
}

/// The numbers of the lanes whose word is set, or of those whose word is 0.
pub fn numbers(alloc: Global, set: bool, test: &List<i64>) -> Result<List<u32>, Redo>
    ensures { IfOk result (AreNumbers set test.now (length test.now)) }
{
    let test = test.as_slice();
    let Ok(count) = u32::try_from(test.len()) else {
        return Err(Redo);
    };
    let mut out = vec![in alloc; 0u32; test.len()]?;
    let place = if set {
        put_numbers(&mut out, true, test, count)
    } else {
        put_numbers(&mut out, false, test, count)
    };
    out.truncate(place);
    Ok(List::from_vec(out))
}

/// Puts words in the places of some numbers, one behind the other.
#[tactic(auto, using(crate::proofs::LaneLemmas::none_put))]
fn put_each(out: &mut [i64], numbers: &[u32], words: &[i64]) -> Result<(), Redo>
    ensures { OnOk result (ArePut numbers.now words.now (length numbers.now)
        out.old out.new) }
{
    if words.len() != numbers.len() {
        return Err(Redo);
    }
    if !are_within(numbers, out.len()) {
        return Err(Redo);
    }
    for (k, number) in numbers.iter().enumerate() {
        out[*number as usize] = words[k];
    }
    Ok(())
}

/// Puts the words of a side in the places of its lanes; one that all have stands there already.
fn put(out: &mut [i64], side: &SideWords) -> Result<(), Redo>
    ensures { OnOk result (Puts side.now out.old out.new) }
{
    match side {
        SideWords::Same(_) => Ok(()),
        SideWords::Each(numbers, words) => put_each(out, numbers.as_slice(), words.as_slice()),
    }
}

/// One of two words.
fn chosen(first: bool, a: i64, b: i64) -> i64
    ensures { result ≡ (if first then a else b) }
{
    if first { a } else { b }
}

/// Replaces each word by one of two: by the first where it is set.
fn choose(words: &mut [i64], set: i64, unset: i64)
    ensures long { length words.new ≡ length words.old }
    ensures each { (k : ℕ) → k < length words.old → slice_index_or words.new k (pos 0)
        ≡ (if side true (slice_index_or words.old k (pos 0)) then set else unset) }
{
    for (k, word) in words.iter_mut().enumerate() {
        *word = chosen(on_side(true, *word), set, unset);
    }
}

/// Puts a word that all lanes of a side have in their places; what is put in the places of others
/// is left open.
fn begin(words: &mut [i64], ys: &SideWords, ns: &SideWords)
    ensures long { length words.new ≡ length words.old }
    ensures set { (k : ℕ) → k < length words.old
        → side true (slice_index_or words.old k (pos 0)) ≡ true
        → IsSame ys.now (slice_index_or words.new k (pos 0)) }
    ensures unset { (k : ℕ) → k < length words.old
        → side false (slice_index_or words.old k (pos 0)) ≡ true
        → IsSame ns.now (slice_index_or words.new k (pos 0)) }
{
    match (ys, ns) {
        (SideWords::Same(set), SideWords::Same(unset)) => choose(words, *set, *unset),
        (SideWords::Same(word), SideWords::Each(_, _)) => words.fill(*word),
        // Stands there already.
        (SideWords::Each(_, _), SideWords::Same(0)) => (),
        (SideWords::Each(_, _), SideWords::Same(word)) => words.fill(*word),
        (SideWords::Each(_, _), SideWords::Each(_, _)) => (),
    }
}

/// Puts the words of both sides in the place of the words of their test.
fn merge(words: &mut [i64], ys: &SideWords, ns: &SideWords) -> Result<(), Redo>
    requires set { IsSide true words.old ys.now }
    requires unset { IsSide false words.old ns.now }
    ensures { OnOk result (AreMerged words.old ys.now ns.now words.new) }
{
    begin(words, ys, ns);
    put(words, ys)?;
    put(words, ns)?;
    Ok(())
}

/// The words of both sides of a test, each in the place of its lane.
pub fn merged(test: List<i64>, ys: &SideWords, ns: &SideWords) -> Result<List<i64>, Redo>
    requires set { IsSide true test ys.now }
    requires unset { IsSide false test ns.now }
    ensures { IfOk result (AreMerged test ys.now ns.now) }
{
    let mut words = test.into_vec();
    merge(&mut words, ys, ns)?;
    Ok(List::from_vec(words))
}
