//! Which tokens stand between and before operands.

ghost use Rattle.std.specs.Prelude.{◌≡◌, option_and_then};
ghost use Rattle.brace_syntax.specs.Tables as spec;
ghost use Rattle.brace_syntax.specs.inner.Descent.{joins};

use crate::tree::{BinName, UnName};
use brace_tok::TokKind;

/// The rows of operations between two operands, from the tightest.
#[derive(Debug, Clone, Copy, PartialEq, Eq, Drop)]
pub enum Level {
    Product,
    Total,
    Comparison,
    Conjunction,
    Disjunction,
}

/// The operation of this level that a token stands for.
#[inline(always)]
pub fn joins(level: Level, kind: Option<TokKind>) -> Option<BinName>
    ensures { result ≡ option_and_then (joins level) kind }
{
    match level {
        Level::Product => multiplies(kind),
        Level::Total => adds(kind),
        Level::Comparison => compares(kind),
        Level::Conjunction => both(kind),
        Level::Disjunction => either(kind),
    }
}

fn either(kind: Option<TokKind>) -> Option<BinName>
    ensures { result ≡ option_and_then spec.either kind }
{
    match kind {
        Some(TokKind::OrOr) => Some(BinName::Or),
        _ => None,
    }
}

fn both(kind: Option<TokKind>) -> Option<BinName>
    ensures { result ≡ option_and_then spec.both kind }
{
    match kind {
        Some(TokKind::AndAnd) => Some(BinName::And),
        _ => None,
    }
}

fn compares(kind: Option<TokKind>) -> Option<BinName>
    ensures { result ≡ option_and_then spec.compares kind }
{
    match kind {
        Some(TokKind::Less) => Some(BinName::Lt),
        Some(TokKind::LessEq) => Some(BinName::Le),
        Some(TokKind::Greater) => Some(BinName::Gt),
        Some(TokKind::GreaterEq) => Some(BinName::Ge),
        Some(TokKind::EqEq) => Some(BinName::Eq),
        Some(TokKind::NotEq) => Some(BinName::Ne),
        _ => None,
    }
}

fn adds(kind: Option<TokKind>) -> Option<BinName>
    ensures { result ≡ option_and_then spec.adds kind }
{
    match kind {
        Some(TokKind::Plus) => Some(BinName::Add),
        Some(TokKind::Minus) => Some(BinName::Sub),
        _ => None,
    }
}

fn multiplies(kind: Option<TokKind>) -> Option<BinName>
    ensures { result ≡ option_and_then spec.multiplies kind }
{
    match kind {
        Some(TokKind::Star) => Some(BinName::Mul),
        Some(TokKind::Slash) => Some(BinName::Div),
        Some(TokKind::Percent) => Some(BinName::Rem),
        _ => None,
    }
}

pub fn prefixes(kind: Option<TokKind>) -> Option<UnName>
    ensures { result ≡ option_and_then spec.prefixes kind }
{
    match kind {
        Some(TokKind::Minus) => Some(UnName::Neg),
        Some(TokKind::Not) => Some(UnName::Not),
        _ => None,
    }
}
