ghost use Rattle.std.specs.Prelude.{◌≡◌, ◌<◌, ◌≤◌, ◌==◌, length, drop, IsTrue, IsFalse};
ghost use Rattle.brace_num.specs.Names.{is_digit, is_letter, is_word_byte, begins};
ghost use Rattle.brace_tok.specs.Bytes.{is_blank, begins_comment};
ghost use Rattle.brace_tok.specs.inner.Steps.{StepIs, pair_of};

use crate::literals::{decimals_length, fixed_kind, whole_kind};
use crate::runs::{Run, close_at, is_blank, is_digit, is_letter, run_length};
use crate::symbols::{double, single};
use crate::words::{directive, word_kind};
use crate::{TokFault, TokKind};

/// What stands at the head of a text, and how many bytes it has.
#[derive(Debug, Clone, Copy, PartialEq, Eq, Drop)]
pub(crate) enum Step {
    /// A blank or a comment.
    Gap(usize),
    /// A token.
    Token(TokKind, usize),
    /// A fault.
    Fault(TokFault),
}

/// What stands at the head of the text, which begins at the offset `at` of the source.
pub(crate) fn step_at(text: &[u8], at: u32) -> Step
    requires { 0 < length text.now }
    ensures { StepIs at text.now result }
{
    let first = text[0];
    if is_blank(first) {
        Step::Gap(1)
    } else if is_letter(first) {
        word_step(text, at)
    } else if is_digit(first) {
        literal_step(text, at)
    } else if first == b'#' {
        hash_step(text, at)
    } else if text.len() > 1 && first == b'/' && text[1] == b'/' {
        line_step(text, at)
    } else if text.len() > 1 && first == b'/' && text[1] == b'*' {
        block_step(text, at)
    } else {
        symbol_step(text, at)
    }
}

fn word_step(text: &[u8], at: u32) -> Step
    requires { IsTrue (begins is_letter text.now) }
    ensures { StepIs at text.now result }
{
    let length = run_length(Run::Letters, text);
    let (letters, _) = text.split_at(length);
    match word_kind(letters) {
        Some(kind) => Step::Token(kind, length),
        None => Step::Fault(TokFault::LongWord(at)),
    }
}

fn literal_step(text: &[u8], at: u32) -> Step
    requires { IsTrue (begins is_digit text.now) }
    ensures { StepIs at text.now result }
{
    let length = run_length(Run::Digits, text);
    let (digits, behind) = text.split_at(length);
    let decimals = decimals_length(behind);
    if decimals == 0 {
        match whole_kind(digits) {
            Some(kind) => Step::Token(kind, length),
            None => Step::Fault(TokFault::WideLiteral(at)),
        }
    } else {
        let (fraction, _) = behind.split_at(1).1.split_at(decimals);
        match fixed_kind(digits, fraction) {
            Some(kind) => Step::Token(kind, length + 1 + decimals),
            None => Step::Fault(TokFault::WideLiteral(at)),
        }
    }
}

fn hash_step(text: &[u8], at: u32) -> Step
    requires { IsTrue (begins (λ b. b == 35) text.now) }
    ensures { StepIs at text.now result }
{
    let behind = text.split_at(1).1;
    let length = run_length(Run::Letters, behind);
    match directive(behind.split_at(length).0) {
        Some(kind) => Step::Token(kind, 1 + length),
        None => Step::Fault(TokFault::BadByte(at)),
    }
}

fn line_step(text: &[u8], at: u32) -> Step
    requires length { 2 ≤ length text.now }
    requires first { IsTrue (begins (λ b. b == 47) text.now) }
    requires second { IsTrue (begins (λ b. b == 47) (drop 1 text.now)) }
    ensures { StepIs at text.now result }
{
    Step::Gap(2 + run_length(Run::Line, text.split_at(2).1))
}

fn block_step(text: &[u8], at: u32) -> Step
    requires length { 2 ≤ length text.now }
    requires first { IsTrue (begins (λ b. b == 47) text.now) }
    requires second { IsTrue (begins (λ b. b == 42) (drop 1 text.now)) }
    ensures { StepIs at text.now result }
{
    match close_at(text.split_at(2).1) {
        Some(length) => Step::Gap(2 + length + 2),
        None => Step::Fault(TokFault::OpenComment(at)),
    }
}

fn symbol_step(text: &[u8], at: u32) -> Step
    requires length { 0 < length text.now }
    requires blank { IsFalse (begins is_blank text.now) }
    requires word { IsFalse (begins is_word_byte text.now) }
    requires hash { IsFalse (begins (λ b. b == 35) text.now) }
    requires comment { IsFalse (begins_comment text.now) }
    ensures { StepIs at text.now result }
{
    if let Some(kind) = pair(text) {
        return Step::Token(kind, 2);
    }
    match single(text[0]) {
        Some(kind) => Step::Token(kind, 1),
        None => Step::Fault(TokFault::BadByte(at)),
    }
}

/// The symbol of two bytes that the text begins with.
fn pair(text: &[u8]) -> Option<TokKind>
    ensures { result ≡ pair_of text.now }
{
    if text.len() > 1 {
        double(text[0], text[1])
    } else {
        None
    }
}
