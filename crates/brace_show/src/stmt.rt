ghost use Rattle.std.specs.Prelude.{◌≡◌, ◌++◌, map, flat_map, option_map, codes, OnOk};
ghost use Rattle.brace_show.specs.Expressions.{expression};
ghost use Rattle.brace_show.specs.Canonical.{line, deeper, type_text, block, otherwise, statement};

use crate::expr::append_operand;
use brace_num::{List, NoMemory};
use brace_syntax::{ExprTree, Ident, StmtTree, TyName};

/// Appends an expression that stands alone.
pub fn append_expression(out: &mut Vec<u8>, x: &ExprTree) -> Result<(), NoMemory>
    ensures printed { OnOk result (out.new.items ≡ out.old.items ++ expression x.now) }
{
    append_operand(out, 1, x)
}

/// Appends a type as it is written.
pub fn append_type(out: &mut Vec<u8>, ty: &TyName) -> Result<(), NoMemory>
    ensures printed { OnOk result (out.new.items ≡ out.old.items ++ type_text ty.now) }
{
    out.extend_from_slice(match ty {
        TyName::Int => b"int",
        TyName::Fixed => b"fixed",
        TyName::Bool => b"bool",
        TyName::Other(name) => name.text.as_bytes(),
    })?;
    Ok(())
}

/// Appends a type and the name that has it.
pub fn append_declared(out: &mut Vec<u8>, ty: &TyName, name: &Ident) -> Result<(), NoMemory>
    ensures printed { OnOk result (out.new.items ≡
        out.old.items ++ (type_text ty.now ++ codes " " ++ name.now.text)) }
{
    append_type(out, ty)?;
    out.extend_from_slice(b" ")?;
    out.extend_from_slice(name.text.as_bytes())?;
    Ok(())
}

/// Appends a value behind what stands before it, and the end of its line.
pub fn append_value(out: &mut Vec<u8>, mark: &[u8], x: &ExprTree) -> Result<(), NoMemory>
    ensures printed { OnOk result (out.new.items ≡
        out.old.items ++ (mark.now ++ expression x.now ++ codes ";\n")) }
{
    out.extend_from_slice(mark)?;
    append_expression(out, x)?;
    out.extend_from_slice(b";\n")?;
    Ok(())
}

fn append_constant(
    out: &mut Vec<u8>,
    margin: &[u8],
    ty: &TyName,
    name: &Ident,
    x: &ExprTree,
) -> Result<(), NoMemory>
    ensures printed { OnOk result (out.new.items ≡ out.old.items ++
        line margin.now (codes "const " ++ type_text ty.now ++ codes " " ++ name.now.text ++
        codes " = " ++ expression x.now ++ codes ";")) }
{
    out.extend_from_slice(margin)?;
    out.extend_from_slice(b"const ")?;
    append_declared(out, ty, name)?;
    append_value(out, b" = ", x)
}

fn append_condition(out: &mut Vec<u8>, margin: &[u8], x: &ExprTree) -> Result<(), NoMemory>
    ensures printed { OnOk result (out.new.items ≡
        out.old.items ++ line margin.now (codes "if (" ++ expression x.now ++ codes ") {")) }
{
    out.extend_from_slice(margin)?;
    out.extend_from_slice(b"if (")?;
    append_expression(out, x)?;
    out.extend_from_slice(b") {\n")?;
    Ok(())
}

// Appends the class and the variable of a loop.
fn append_variable(out: &mut Vec<u8>, class: &Ident, variable: &Ident) -> Result<(), NoMemory>
    ensures printed { OnOk result (out.new.items ≡
        out.old.items ++ (class.now.text ++ codes " " ++ variable.now.text)) }
{
    out.extend_from_slice(class.text.as_bytes())?;
    out.extend_from_slice(b" ")?;
    out.extend_from_slice(variable.text.as_bytes())?;
    Ok(())
}

// Appends the class whose agents a loop is over, and the end of its line.
fn append_extent(out: &mut Vec<u8>, class: &Ident) -> Result<(), NoMemory>
    ensures printed { OnOk result (out.new.items ≡
        out.old.items ++ (codes " : Extent<" ++ class.now.text ++ codes ">) {\n")) }
{
    out.extend_from_slice(b" : Extent<")?;
    out.extend_from_slice(class.text.as_bytes())?;
    out.extend_from_slice(b">) {\n")?;
    Ok(())
}

fn append_loop(
    out: &mut Vec<u8>,
    margin: &[u8],
    class: &Ident,
    variable: &Ident,
    other: &Ident,
) -> Result<(), NoMemory>
    ensures printed { OnOk result (out.new.items ≡ out.old.items ++
        line margin.now (codes "foreach (" ++ class.now.text ++ codes " " ++ variable.now.text ++
        codes " : Extent<" ++ other.now.text ++ codes ">) {")) }
{
    out.extend_from_slice(margin)?;
    out.extend_from_slice(b"foreach (")?;
    append_variable(out, class, variable)?;
    append_extent(out, other)
}

/// Appends a line of fixed text.
pub fn append_line(out: &mut Vec<u8>, margin: &[u8], text: &[u8]) -> Result<(), NoMemory>
    ensures printed { OnOk result (out.new.items ≡ out.old.items ++ line margin.now text.now) }
{
    out.extend_from_slice(margin)?;
    out.extend_from_slice(text)?;
    out.extend_from_slice(b"\n")?;
    Ok(())
}

/// Appends the line that gives a value to a name.
pub fn append_assignment(
    out: &mut Vec<u8>,
    margin: &[u8],
    name: &Ident,
    x: &ExprTree,
) -> Result<(), NoMemory>
    ensures printed { OnOk result (out.new.items ≡ out.old.items ++
        line margin.now (name.now.text ++ codes " <- " ++ expression x.now ++ codes ";")) }
{
    out.extend_from_slice(margin)?;
    out.extend_from_slice(name.text.as_bytes())?;
    append_value(out, b" <- ", x)
}

fn append_assignment_of(
    out: &mut Vec<u8>,
    margin: &[u8],
    owner: &[u8],
    name: &Ident,
    x: &ExprTree,
) -> Result<(), NoMemory>
    ensures printed { OnOk result (out.new.items ≡ out.old.items ++
        line margin.now (owner.now ++ codes "." ++ name.now.text ++ codes " <- " ++
        expression x.now ++ codes ";")) }
{
    out.extend_from_slice(margin)?;
    out.extend_from_slice(owner)?;
    out.extend_from_slice(b".")?;
    out.extend_from_slice(name.text.as_bytes())?;
    append_value(out, b" <- ", x)
}

#[cycle(statements)]
fn append_statement(out: &mut Vec<u8>, margin: &mut Vec<u8>, s: &StmtTree) -> Result<(), NoMemory>
    ensures printed { OnOk result (out.new.items ≡
        out.old.items ++ statement s.now margin.old.items) }
    ensures margin { OnOk result (margin.new.items ≡ margin.old.items) }
{
    match s {
        StmtTree::Const(ty, name, x, _) => append_constant(
            out,
            margin.as_slice(),
            ty,
            name,
            x.get(),
        ),
        StmtTree::If(x, statements, other, _) => {
            append_condition(out, margin.as_slice(), x.get())?;
            append_block(out, margin, statements)?;
            if let Some(statements) = other {
                append_line(out, margin.as_slice(), b"} else {")?;
                append_block(out, margin, statements)?;
            }
            append_line(out, margin.as_slice(), b"}")
        }
        StmtTree::Foreach(class, variable, other, statements, _) => {
            append_loop(out, margin.as_slice(), class, variable, other)?;
            append_block(out, margin, statements)?;
            append_line(out, margin.as_slice(), b"}")
        }
        StmtTree::Assign(name, x) => append_assignment(out, margin.as_slice(), name, x.get()),
        StmtTree::AssignThis(name, x, _) => {
            append_assignment_of(out, margin.as_slice(), b"this", name, x.get())
        }
        StmtTree::AssignLoop(variable, name, x) => {
            append_assignment_of(
                out,
                margin.as_slice(),
                variable.text.as_bytes(),
                name,
                x.get(),
            )
        }
    }
}

/// Appends the statements of a block, two spaces behind the margin.
#[cycle(statements)]
pub fn append_block(
    out: &mut Vec<u8>,
    margin: &mut Vec<u8>,
    statements: &List<StmtTree>,
) -> Result<(), NoMemory>
    ensures printed { OnOk result (out.new.items ≡
        out.old.items ++ block (map statement statements.now) margin.old.items) }
    ensures margin { OnOk result (margin.new.items ≡ margin.old.items) }
{
    margin.extend_from_slice(b"  ")?;
    for s in statements.as_slice() {
        append_statement(out, margin, s)?;
    }
    margin.truncate(margin.len() - 2);
    Ok(())
}
