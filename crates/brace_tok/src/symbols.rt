ghost use Rattle.std.specs.Prelude.{◌≡◌, [], ◌∷◌};
ghost use Rattle.brace_tok.specs.Tables.{symbol};

use crate::TokKind;

/// The symbol of one byte.
#[tactic(auto, unfolding(crate::specs::Tables::symbol))]
pub(crate) fn single(byte: u8) -> Option<TokKind>
    ensures { result ≡ symbol (byte ∷ []) }
{
    let kind = match byte {
        b'{' => TokKind::OpenBrace,
        b'}' => TokKind::CloseBrace,
        b'(' => TokKind::OpenParen,
        b')' => TokKind::CloseParen,
        b'[' => TokKind::OpenBracket,
        b']' => TokKind::CloseBracket,
        b';' => TokKind::Semicolon,
        b':' => TokKind::Colon,
        b',' => TokKind::Comma,
        b'.' => TokKind::Dot,
        b'?' => TokKind::Question,
        b'=' => TokKind::Assign,
        b'<' => TokKind::Less,
        b'>' => TokKind::Greater,
        b'!' => TokKind::Not,
        b'+' => TokKind::Plus,
        b'-' => TokKind::Minus,
        b'*' => TokKind::Star,
        b'/' => TokKind::Slash,
        b'%' => TokKind::Percent,
        _ => return None,
    };
    Some(kind)
}

/// The symbol of two bytes.
#[tactic(auto, unfolding(crate::specs::Tables::symbol))]
pub(crate) fn double(first: u8, second: u8) -> Option<TokKind>
    ensures { result ≡ symbol (first ∷ second ∷ []) }
{
    match (first, second) {
        (b'<', b'-') => Some(TokKind::Arrow),
        (b'<', b'=') => Some(TokKind::LessEq),
        (b'>', b'=') => Some(TokKind::GreaterEq),
        (b'=', b'=') => Some(TokKind::EqEq),
        (b'!', b'=') => Some(TokKind::NotEq),
        (b'&', b'&') => Some(TokKind::AndAnd),
        (b'|', b'|') => Some(TokKind::OrOr),
        _ => None,
    }
}
