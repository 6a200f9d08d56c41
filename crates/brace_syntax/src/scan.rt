//! The scan for depth, before the grammar is tried.

ghost use Rattle.std.specs.Prelude.{◌≡◌, ◌≤◌, ◌||◌, nat_lt, MatchOption};
ghost use Rattle.brace_syntax.specs.Depth as spec;

use brace_tok::{TokKind, Token};

const MAX_OPEN: u32 = 64;

const MAX_OPERATORS: u32 = 256;

fn opened_by(n: u32, kind: TokKind) -> u32
    requires { n ≤ 64 }
    ensures { result ≡ spec.opened_by n kind }
{
    match kind {
        TokKind::OpenParen | TokKind::OpenBrace => n + 1,
        TokKind::CloseParen | TokKind::CloseBrace => n.saturating_sub(1),
        _ => n,
    }
}

fn counted_by(n: u32, kind: TokKind) -> u32
    requires { n ≤ 256 }
    ensures { result ≡ spec.counted_by n kind }
{
    match kind {
        TokKind::Question
        | TokKind::OrOr
        | TokKind::AndAnd
        | TokKind::EqEq
        | TokKind::NotEq
        | TokKind::Less
        | TokKind::LessEq
        | TokKind::Greater
        | TokKind::GreaterEq
        | TokKind::Plus
        | TokKind::Minus
        | TokKind::Star
        | TokKind::Slash
        | TokKind::Percent
        | TokKind::Not => n + 1,
        TokKind::Semicolon | TokKind::OpenBrace | TokKind::CloseBrace => 0,
        _ => n,
    }
}

fn too_deep(opened: u32, operators: u32) -> bool
    ensures { result ≡ (nat_lt 64 opened || nat_lt 256 operators) }
{
    opened > MAX_OPEN || operators > MAX_OPERATORS
}

/// The place of the first token up to and including which too many brackets are open, or too many
/// operators stand in one statement.
pub fn first_deep(toks: &[Token]) -> Option<u32>
    ensures { MatchOption result (spec.NowhereDeep toks.now) (λ at. spec.FirstDeepAt toks.now at) }
{
    let mut opened = 0;
    let mut operators = 0;
    for tok in toks {
        opened = opened_by(opened, tok.kind);
        operators = counted_by(operators, tok.kind);
        if too_deep(opened, operators) {
            return Some(tok.from);
        }
    }
    None
}
