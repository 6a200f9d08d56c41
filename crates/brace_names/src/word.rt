ghost use Rattle.std.specs.Prelude.{◌≡◌, [], ◌∷◌, ◌++◌, if◌then◌else◌, OnOk, IfOk};
ghost use Rattle.brace_names.specs.Tables.{has, with_name, repeated};

use crate::names::Names;
use brace_num::NoMemory;
use brace_syntax::Ident;
use std::alloc::Global;
use std::marker::Model;

/// A name, and the offset of its first byte, borrowed from a tree.
#[derive(Drop)]
pub struct Word<'a> {
    text: &'a [u8],
    at: u32,
}

impl<'a> Model for Word<'a> {
    ghost use Rattle.brace_syntax.specs.declared.tree.Ident.{Ident};

    ghost Value = { Ident };

    ghost view = { λ word. record { text = word.text.now; at = word.at } };
}

impl<'a> Word<'a> {
    /// The word of a text at an offset.
    pub fn new(text: &'a [u8], at: u32) -> Word<'a>
        ensures text { result.text ≡ text.now }
        ensures at { result.at ≡ at }
    {
        Word { text, at }
    }

    /// The name.
    pub fn of(name: &'a Ident) -> Word<'a>
        ensures { result ≡ name.now }
    {
        Word {
            text: name.text.as_bytes(),
            at: name.at,
        }
    }

    /// The bytes.
    pub fn text(&self) -> &'a [u8]
        ensures { result.now ≡ self.now.text }
    {
        self.text
    }

    /// The offset of the first byte.
    pub fn at(&self) -> u32
        ensures { result ≡ self.now.at }
    {
        self.at
    }
}

// A word more is seen; its offset is noted where it is seen again.
fn see<'a>(seen: &mut Names<'a, ()>, again: &mut Vec<u32>, word: &Word<'a>) -> Result<(), NoMemory>
    ensures seen { OnOk result (seen.new ≡ with_name seen.old word.now.text tt) }
    ensures again { OnOk result (again.new.items ≡ again.old.items
        ++ (if has seen.old word.now.text then word.now.at ∷ [] else [])) }
{
    if !seen.add(word.text(), ())? {
        again.push(word.at())?;
    }
    Ok(())
}

// Notes the offsets of the words that an earlier one of the list equals.
fn note<'a>(alloc: Global, again: &mut Vec<u32>, words: &[Word<'a>]) -> Result<(), NoMemory>
    ensures { OnOk result (again.new.items ≡ again.old.items ++ repeated words.now) }
{
    let mut seen = Names::new(alloc);
    for word in words {
        see(&mut seen, again, word)?;
    }
    Ok(())
}

/// The offsets of the words that an earlier one of the list equals.
pub fn repeats(alloc: Global, words: &[Word]) -> Result<Vec<u32>, NoMemory>
    ensures { IfOk result (λ again. again.items ≡ repeated words.now) }
{
    let mut again = Vec::new(alloc);
    note(alloc, &mut again, words)?;
    Ok(again)
}
