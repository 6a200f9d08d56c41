ghost use Rattle.std.specs.Prelude.{◌≡◌};
ghost use Rattle.brace_tok.specs.Tables.{directive, reserved};
ghost use Rattle.brace_tok.specs.inner.Lengths.{reserved_of};
ghost use Rattle.brace_tok.specs.Roles.{word_kind};

use crate::TokKind;

/// The most bytes of a word.
const WORD_LIMIT: usize = 64;

/// The kind of a word, which has at most 64 bytes.
pub(crate) fn word_kind(letters: &[u8]) -> Option<TokKind>
    ensures { result ≡ word_kind letters.now }
{
    if letters.len() > WORD_LIMIT {
        return None;
    }
    match reserved(letters) {
        Some(kind) => Some(kind),
        None => Some(TokKind::Word),
    }
}

/// The kind of the word behind a `#`.
#[tactic(auto, unfolding(crate::specs::Tables::directive))]
pub(crate) fn directive(letters: &[u8]) -> Option<TokKind>
    ensures { result ≡ directive letters.now }
{
    match letters {
        b"visible" => Some(TokKind::Visible),
        b"reach" => Some(TokKind::Reach),
        _ => None,
    }
}

/// The kind of a reserved word.
fn reserved(letters: &[u8]) -> Option<TokKind>
    ensures { result ≡ reserved letters.now }
{
    match letters.len() {
        2 => two_letters(letters),
        3 => three_letters(letters),
        4 => four_letters(letters),
        5 => five_letters(letters),
        6 => six_letters(letters),
        7 => seven_letters(letters),
        _ => None,
    }
}

#[tactic(auto, unfolding(crate::specs::inner::Lengths::reserved_of))]
fn two_letters(letters: &[u8]) -> Option<TokKind>
    ensures { result ≡ reserved_of 2 letters.now }
{
    match letters {
        b"if" => Some(TokKind::KwIf),
        b"or" => Some(TokKind::KwOr),
        _ => None,
    }
}

#[tactic(auto, unfolding(crate::specs::inner::Lengths::reserved_of))]
fn three_letters(letters: &[u8]) -> Option<TokKind>
    ensures { result ≡ reserved_of 3 letters.now }
{
    match letters {
        b"run" => Some(TokKind::KwRun),
        b"int" => Some(TokKind::KwInt),
        b"abs" => Some(TokKind::KwAbs),
        b"min" => Some(TokKind::KwMin),
        b"max" => Some(TokKind::KwMax),
        b"sum" => Some(TokKind::KwSum),
        b"die" => Some(TokKind::KwDie),
        _ => None,
    }
}

#[tactic(auto, unfolding(crate::specs::inner::Lengths::reserved_of))]
fn four_letters(letters: &[u8]) -> Option<TokKind>
    ensures { result ≡ reserved_of 4 letters.now }
{
    match letters {
        b"void" => Some(TokKind::KwVoid),
        b"else" => Some(TokKind::KwElse),
        b"this" => Some(TokKind::KwThis),
        b"true" => Some(TokKind::KwTrue),
        b"bool" => Some(TokKind::KwBool),
        b"sqrt" => Some(TokKind::KwSqrt),
        b"rand" => Some(TokKind::KwRand),
        b"when" => Some(TokKind::KwWhen),
        _ => None,
    }
}

#[tactic(auto, unfolding(crate::specs::inner::Lengths::reserved_of))]
fn five_letters(letters: &[u8]) -> Option<TokKind>
    ensures { result ≡ reserved_of 5 letters.now }
{
    match letters {
        b"class" => Some(TokKind::KwClass),
        b"state" => Some(TokKind::KwState),
        b"const" => Some(TokKind::KwConst),
        b"false" => Some(TokKind::KwFalse),
        b"fixed" => Some(TokKind::KwFixed),
        b"trunc" => Some(TokKind::KwTrunc),
        b"count" => Some(TokKind::KwCount),
        b"spawn" => Some(TokKind::KwSpawn),
        _ => None,
    }
}

#[tactic(auto, unfolding(crate::specs::inner::Lengths::reserved_of))]
fn six_letters(letters: &[u8]) -> Option<TokKind>
    ensures { result ≡ reserved_of 6 letters.now }
{
    match letters {
        b"public" => Some(TokKind::KwPublic),
        b"effect" => Some(TokKind::KwEffect),
        b"Extent" => Some(TokKind::KwExtent),
        _ => None,
    }
}

#[tactic(auto, unfolding(crate::specs::inner::Lengths::reserved_of))]
fn seven_letters(letters: &[u8]) -> Option<TokKind>
    ensures { result ≡ reserved_of 7 letters.now }
{
    match letters {
        b"private" => Some(TokKind::KwPrivate),
        b"foreach" => Some(TokKind::KwForeach),
        _ => None,
    }
}
