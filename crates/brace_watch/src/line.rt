//! A line of a watch file as it is written.
ghost use Rattle.std.specs.Prelude.{◌≡◌, ◌==◌, length, map, option_map, IfOk};
ghost use Rattle.std.specs.List.{list_any};
ghost use Rattle.brace_watch.specs.Lines.{kind_of, op_of, test_in, line_with, line_of_kind, line_of_parts, line_in, line_of};
ghost use Rattle.brace_watch.specs.inner.Seen.{seen_test, seen};

use brace_cuts::pieces;
use brace_model::{BinOp, Comb};
use brace_num::NoMemory;
use std::alloc::Global;

/// A condition: a state, how it stands to a value, and the value.
#[derive(Debug, Clone, Copy)]
pub struct Test<'a> {
    pub field: &'a [u8],
    pub op: BinOp,
    pub value: &'a [u8],
}

/// The kind of figure, a class, a state where agents are not counted, and a condition, if there is
/// one. The names stand for nothing yet.
#[derive(Debug, Clone, Copy)]
pub struct Line<'a> {
    pub kind: Comb,
    pub class: &'a [u8],
    pub field: Option<&'a [u8]>,
    pub test: Option<Test<'a>>,
}

/// The line that a text is, if it has the form of one.
pub fn read_line<'a>(alloc: Global, text: &'a [u8]) -> Result<Option<Line<'a>>, NoMemory>
    ensures { IfOk result (λ line. option_map seen line ≡ line_of text.now) }
{
    let parts = pieces(alloc, text, b' ')?;
    Ok(line_in(parts.as_slice()))
}

fn line_in<'a>(parts: &[&'a [u8]]) -> Option<Line<'a>>
    ensures { option_map seen result ≡ line_in (map (λ p. p.now) parts.now) }
{
    if has_empty(parts) {
        return None;
    }
    line_of_parts(parts)
}

fn has_empty(parts: &[&[u8]]) -> bool
    ensures { result ≡ list_any (λ part. length part.now == 0) parts.now }
{
    parts.iter().any(|part| part.is_empty())
}

fn line_of_parts<'a>(parts: &[&'a [u8]]) -> Option<Line<'a>>
    ensures { option_map seen result ≡ line_of_parts (map (λ p. p.now) parts.now) }
{
    match parts {
        [word, class, rest @ ..] => line_of_kind(kind_of(word), class, rest),
        _ => None,
    }
}

// Only agents are counted without a state.
fn line_of_kind<'a>(kind: Option<Comb>, class: &'a [u8], rest: &[&'a [u8]]) -> Option<Line<'a>>
    ensures { option_map seen result
        ≡ line_of_kind kind class.now (map (λ p. p.now) rest.now) }
{
    match kind? {
        Comb::Count => line_with(Comb::Count, class, None, rest),
        kind => match rest {
            [field, rest @ ..] => line_with(kind, class, Some(*field), rest),
            [] => None,
        },
    }
}

// The line of a kind, a class and a state, with nothing or with a condition behind them.
fn line_with<'a>(
    kind: Comb,
    class: &'a [u8],
    field: Option<&'a [u8]>,
    rest: &[&'a [u8]],
) -> Option<Line<'a>>
    ensures { option_map seen result ≡ line_with kind class.now
        (option_map (λ name. name.now) field.entry) (map (λ p. p.now) rest.now) }
{
    let test = match rest {
        [] => None,
        _ => Some(test_in(rest)?),
    };
    Some(Line {
        kind,
        class,
        field,
        test,
    })
}

fn test_in<'a>(parts: &[&'a [u8]]) -> Option<Test<'a>>
    ensures { option_map seen_test result ≡ test_in (map (λ p. p.now) parts.now) }
{
    match parts {
        [word, field, op, value] if *word == b"where".as_slice() => Some(Test {
            field,
            op: op_of(op)?,
            value,
        }),
        _ => None,
    }
}

fn kind_of(word: &[u8]) -> Option<Comb>
    ensures { result ≡ kind_of word.now }
{
    if word == b"count".as_slice() {
        Some(Comb::Count)
    } else if word == b"sum".as_slice() {
        Some(Comb::Sum)
    } else if word == b"min".as_slice() {
        Some(Comb::Min)
    } else if word == b"max".as_slice() {
        Some(Comb::Max)
    } else {
        None
    }
}

fn op_of(sign: &[u8]) -> Option<BinOp>
    ensures { result ≡ op_of sign.now }
{
    if sign == b"<".as_slice() {
        Some(BinOp::Lt)
    } else if sign == b"<=".as_slice() {
        Some(BinOp::Le)
    } else if sign == b">".as_slice() {
        Some(BinOp::Gt)
    } else if sign == b">=".as_slice() {
        Some(BinOp::Ge)
    } else if sign == b"==".as_slice() {
        Some(BinOp::Eq)
    } else {
        None
    }
}
