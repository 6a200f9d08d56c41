ghost use Rattle.std.specs.Prelude.{◌≡◌, ◌++◌, OnOk};
ghost use Rattle.brace_show.specs.Expressions.{phrase_of, operand};

use crate::frame::{frame_of_binary, frame_of_unary, level_of_binary, level_of_unary};
use crate::literal::append_literal;
use brace_num::NoMemory;
use brace_syntax::ExprTree;

// How tightly an expression binds.
fn level(x: &ExprTree) -> u8
    ensures { result ≡ (phrase_of x.now).level }
{
    match x {
        ExprTree::Choice(_, _, _, _) => 1,
        ExprTree::Binary(op, _, _, _) => level_of_binary(*op),
        ExprTree::Unary(op, _, _) => level_of_unary(*op),
        _ => 8,
    }
}

/// Appends an expression where a level is needed, in parentheses where its own is below.
#[cycle(expressions)]
pub fn append_operand(out: &mut Vec<u8>, needed: u8, x: &ExprTree) -> Result<(), NoMemory>
    ensures printed { OnOk result (out.new.items ≡ out.old.items ++ operand needed x.now) }
{
    if level(x) >= needed {
        return append_phrase(out, x);
    }
    out.extend_from_slice(b"(")?;
    append_phrase(out, x)?;
    out.extend_from_slice(b")")?;
    Ok(())
}

#[cycle(expressions)]
fn append_phrase(out: &mut Vec<u8>, x: &ExprTree) -> Result<(), NoMemory>
    ensures printed { OnOk result (out.new.items ≡ out.old.items ++ (phrase_of x.now).text) }
{
    match x {
        ExprTree::Lit(number) => append_literal(out, number.digits)?,
        ExprTree::True(_) => out.extend_from_slice(b"true")?,
        ExprTree::False(_) => out.extend_from_slice(b"false")?,
        ExprTree::Name(name) => out.extend_from_slice(name.text.as_bytes())?,
        ExprTree::OfThis(name, _) => {
            out.extend_from_slice(b"this.")?;
            out.extend_from_slice(name.text.as_bytes())?;
        }
        ExprTree::OfLoop(variable, name) => {
            out.extend_from_slice(variable.text.as_bytes())?;
            out.extend_from_slice(b".")?;
            out.extend_from_slice(name.text.as_bytes())?;
        }
        ExprTree::Unary(op, x, _) => {
            let frame = frame_of_unary(*op);
            out.extend_from_slice(frame.before)?;
            append_operand(out, frame.needed, x.get())?;
            out.extend_from_slice(frame.after)?;
        }
        ExprTree::Binary(op, x, y, _) => {
            let frame = frame_of_binary(*op);
            out.extend_from_slice(frame.before)?;
            append_operand(out, frame.left, x.get())?;
            out.extend_from_slice(frame.between)?;
            append_operand(out, frame.right, y.get())?;
            out.extend_from_slice(frame.after)?;
        }
        ExprTree::Choice(c, x, y, _) => {
            append_operand(out, 2, c.get())?;
            out.extend_from_slice(b" ? ")?;
            append_operand(out, 1, x.get())?;
            out.extend_from_slice(b" : ")?;
            append_operand(out, 1, y.get())?;
        }
        ExprTree::Rand(_) => out.extend_from_slice(b"rand()")?,
    }
    Ok(())
}
