use brace_tok::TokKind::{
    AndAnd, Arrow, Assign, CloseBrace, CloseBracket, CloseParen, Colon, Comma, Dot, Fixed,
    GreaterEq, Int, KwClass, KwExtent, Less, LessEq, Minus, Not, NotEq, OpenBrace, OpenBracket,
    OpenParen, OrOr, Percent, Plus, Question, Reach, Semicolon, Slash, Star, Visible, Word,
};
use brace_tok::{TokFault, TokKind, tokens};
use std::alloc::Global;
use std::test::Fail;

// What a token is, where it begins and where it ends.
type Row = (TokKind, u32, u32);

// Texts and their tokens.
const READ: [(&[u8], &[Row]); 11] = [
    (b" \t\r\n", &[]),
    (b"a<-1", &[(Word, 0, 1), (Arrow, 1, 3), (Int(1), 3, 4)]),
    (b"1.", &[(Int(1), 0, 1), (Dot, 1, 2)]),
    (
        b"1.5.2",
        &[(Fixed(1_500_000), 0, 3), (Dot, 3, 4), (Int(2), 4, 5)],
    ),
    (
        b"/* a /* */ < -1 // x",
        &[(Less, 11, 12), (Minus, 13, 14), (Int(1), 14, 15)],
    ),
    (
        b"aaaaaaaaaaaaaaaaaaaaaaaaaaaaaaaaaaaaaaaaaaaaaaaaaaaaaaaaaaaaaaaa",
        &[(Word, 0, 64)],
    ),
    (
        b"9223372036854775807 9223372036854.775807",
        &[
            (Int(9_223_372_036_854_775_807), 0, 19),
            (Fixed(9_223_372_036_854_775_807), 20, 40),
        ],
    ),
    (b"#visible#reach", &[(Visible, 0, 8), (Reach, 8, 14)]),
    (
        b"class Extent classy",
        &[(KwClass, 0, 5), (KwExtent, 6, 12), (Word, 13, 19)],
    ),
    (
        b"<=<>=>==!=!&&||",
        &[
            (LessEq, 0, 2),
            (Less, 2, 3),
            (GreaterEq, 3, 5),
            (GreaterEq, 5, 7),
            (Assign, 7, 8),
            (NotEq, 8, 10),
            (Not, 10, 11),
            (AndAnd, 11, 13),
            (OrOr, 13, 15),
        ],
    ),
    (
        b"{}()[];:,.?+-*/%",
        &[
            (OpenBrace, 0, 1),
            (CloseBrace, 1, 2),
            (OpenParen, 2, 3),
            (CloseParen, 3, 4),
            (OpenBracket, 4, 5),
            (CloseBracket, 5, 6),
            (Semicolon, 6, 7),
            (Colon, 7, 8),
            (Comma, 8, 9),
            (Dot, 9, 10),
            (Question, 10, 11),
            (Plus, 11, 12),
            (Minus, 12, 13),
            (Star, 13, 14),
            (Slash, 14, 15),
            (Percent, 15, 16),
        ],
    ),
];

// Texts and their first faults.
const REFUSED: [(&[u8], TokFault); 13] = [
    (b"/*/", TokFault::OpenComment(0)),
    (b"a /* b * /", TokFault::OpenComment(2)),
    (b"a & b", TokFault::BadByte(2)),
    (b"|", TokFault::BadByte(0)),
    (b"#foo", TokFault::BadByte(0)),
    (b"#visible2", TokFault::BadByte(0)),
    (b"x # visible", TokFault::BadByte(2)),
    (b"9223372036854775808", TokFault::WideLiteral(0)),
    (b"9223372036854.775808", TokFault::WideLiteral(0)),
    (b" 0.1234567", TokFault::WideLiteral(1)),
    (
        b"aaaaaaaaaaaaaaaaaaaaaaaaaaaaaaaaaaaaaaaaaaaaaaaaaaaaaaaaaaaaaaaaa",
        TokFault::LongWord(0),
    ),
    (b"1 @ 99999999999999999999", TokFault::BadByte(2)),
    (b"x\xE4", TokFault::BadByte(1)),
];

fn rows_of(alloc: Global, text: &[u8]) -> Result<Vec<Row>, Fail> {
    if text.len() > 1_048_576 {
        return Err("too long".into());
    }
    let Ok(toks) = tokens(alloc, text) else {
        return Err("no tokens".into());
    };
    let mut rows = Vec::new(alloc);
    for tok in toks.iter() {
        rows.push((tok.kind, tok.from, tok.to))?;
    }
    Ok(rows)
}

fn fault_of(alloc: Global, text: &[u8]) -> Option<TokFault> {
    if text.len() > 1_048_576 {
        return None;
    }
    tokens(alloc, text).err()
}

#[test]
fn reads_tokens_with_their_places(rt: HostRuntime) -> Result<(), Fail> {
    for &(text, wanted) in &READ {
        let rows = rows_of(rt.alloc(), text)?;
        assert_eq!(rt; rows.as_slice(), wanted);
    }
    Ok(())
}

#[test]
fn answers_the_first_fault(rt: HostRuntime) {
    for &(text, wanted) in &REFUSED {
        assert_eq!(rt; fault_of(rt.alloc(), text), Some(wanted));
    }
}
