ghost use Rattle.std.specs.Prelude.{◌≡◌, [], ◌++◌, map, flat_map, codes, OnOk};
ghost use Rattle.brace_show.specs.Literals.{literal};
ghost use Rattle.brace_show.specs.Canonical.{line, deeper, type_text, combinator, sharing, rule, block, statement, gift_text, member_text, class_text};
ghost use Rattle.brace_show.specs.Expressions.{expression};

use crate::literal::append_literal;
use crate::stmt::{
    append_assignment, append_block, append_declared, append_expression, append_line, append_value,
};
use brace_num::{Boxed, List, NoMemory};
use brace_syntax::{
    ClassTree, CombName, Digits, ExprTree, GiftTree, Ident, MemberTree, StmtTree, TyName,
};
use std::alloc::Global;

fn combinator(comb: CombName) -> &'static [u8]
    ensures { result.now ≡ combinator comb }
{
    match comb {
        CombName::Sum => b"sum",
        CombName::Min => b"min",
        CombName::Max => b"max",
        CombName::Count => b"count",
        CombName::Or => b"or",
    }
}

fn sharing(shared: bool) -> &'static [u8]
    ensures { result.now ≡ sharing shared }
{
    if shared { b"public" } else { b"private" }
}

// Appends a directive, from its name to the bracket.
fn append_directive(out: &mut Vec<u8>, name: &[u8], digits: Digits) -> Result<(), NoMemory>
    ensures printed { OnOk result (out.new.items ≡
        out.old.items ++ line (deeper []) (name.now ++ literal digits ++ codes "];")) }
{
    out.extend_from_slice(b"  ")?;
    out.extend_from_slice(name)?;
    append_literal(out, digits)?;
    out.extend_from_slice(b"];\n")?;
    Ok(())
}

// Appends the rule of a state, where it has one.
fn append_rule(out: &mut Vec<u8>, x: &Option<Boxed<ExprTree>>) -> Result<(), NoMemory>
    ensures printed { OnOk result (out.new.items ≡ out.old.items ++ rule x.now) }
{
    match x {
        None => Ok(()),
        Some(x) => {
            out.extend_from_slice(b" : ")?;
            append_expression(out, x.get())
        }
    }
}

// Appends the words that a field begins with.
fn append_sharing(out: &mut Vec<u8>, shared: bool, word: &[u8]) -> Result<(), NoMemory>
    ensures printed { OnOk result (out.new.items ≡
        out.old.items ++ ((deeper []) ++ sharing shared ++ word.now)) }
{
    out.extend_from_slice(b"  ")?;
    out.extend_from_slice(sharing(shared))?;
    out.extend_from_slice(word)?;
    Ok(())
}

fn append_state(
    out: &mut Vec<u8>,
    shared: bool,
    ty: &TyName,
    name: &Ident,
    x: &Option<Boxed<ExprTree>>,
) -> Result<(), NoMemory>
    ensures printed { OnOk result (out.new.items ≡ out.old.items ++
        line (deeper []) (sharing shared ++ codes " state " ++ type_text ty.now ++ codes " " ++
        name.now.text ++ rule x.now ++ codes ";")) }
{
    append_sharing(out, shared, b" state ")?;
    append_declared(out, ty, name)?;
    append_rule(out, x)?;
    out.extend_from_slice(b";\n")?;
    Ok(())
}

// Appends how an effect is joined, and the end of its line.
fn append_combinator(out: &mut Vec<u8>, comb: CombName) -> Result<(), NoMemory>
    ensures printed { OnOk result (out.new.items ≡
        out.old.items ++ (codes " : " ++ combinator comb ++ codes ";\n")) }
{
    out.extend_from_slice(b" : ")?;
    out.extend_from_slice(combinator(comb))?;
    out.extend_from_slice(b";\n")?;
    Ok(())
}

fn append_effect(
    out: &mut Vec<u8>,
    shared: bool,
    ty: &TyName,
    name: &Ident,
    comb: CombName,
) -> Result<(), NoMemory>
    ensures printed { OnOk result (out.new.items ≡ out.old.items ++
        line (deeper []) (sharing shared ++ codes " effect " ++ type_text ty.now ++ codes " " ++
        name.now.text ++ codes " : " ++ combinator comb ++ codes ";")) }
{
    append_sharing(out, shared, b" effect ")?;
    append_declared(out, ty, name)?;
    append_combinator(out, comb)
}

// Appends a block behind the line that opens it.
fn append_braced(
    out: &mut Vec<u8>,
    margin: &mut Vec<u8>,
    head: &[u8],
    statements: &List<StmtTree>,
) -> Result<(), NoMemory>
    ensures printed { OnOk result (out.new.items ≡ out.old.items
        ++ (line margin.old.items head.now ++ block (map statement statements.now) margin.old.items
        ++ line margin.old.items (codes "}"))) }
{
    append_line(out, margin.as_slice(), head)?;
    append_block(out, margin, statements)?;
    append_line(out, margin.as_slice(), b"}")
}

fn append_run(alloc: Global, out: &mut Vec<u8>, statements: &List<StmtTree>) -> Result<(), NoMemory>
    ensures printed { OnOk result (out.new.items ≡ out.old.items
        ++ (line (deeper []) (codes "public void run() {")
        ++ block (map statement statements.now) (deeper []) ++ line (deeper []) (codes "}"))) }
{
    let mut margin = Vec::from_slice(alloc, b"  ")?;
    append_braced(out, &mut margin, b"public void run() {", statements)?;
    Ok(())
}

fn append_die(out: &mut Vec<u8>, x: &ExprTree) -> Result<(), NoMemory>
    ensures printed { OnOk result (out.new.items ≡ out.old.items
        ++ line (deeper []) (codes "die when " ++ expression x.now ++ codes ";")) }
{
    out.extend_from_slice(b"  ")?;
    append_value(out, b"die when ", x)
}

// Appends the line that opens the gifts.
fn append_birth(out: &mut Vec<u8>, margin: &[u8], x: &ExprTree) -> Result<(), NoMemory>
    ensures printed { OnOk result (out.new.items ≡ out.old.items
        ++ line margin.now (codes "spawn when " ++ expression x.now ++ codes " {")) }
{
    out.extend_from_slice(margin)?;
    out.extend_from_slice(b"spawn when ")?;
    append_expression(out, x)?;
    out.extend_from_slice(b" {\n")?;
    Ok(())
}

fn append_gifts(out: &mut Vec<u8>, gifts: &List<GiftTree>) -> Result<(), NoMemory>
    ensures printed { OnOk result (out.new.items ≡ out.old.items
        ++ flat_map (gift_text (deeper (deeper []))) gifts.now) }
{
    for gift in gifts.as_slice() {
        append_assignment(out, b"    ", &gift.state, gift.value.get())?;
    }
    Ok(())
}

fn append_spawn(out: &mut Vec<u8>, x: &ExprTree, gifts: &List<GiftTree>) -> Result<(), NoMemory>
    ensures printed { OnOk result (out.new.items ≡ out.old.items
        ++ (line (deeper []) (codes "spawn when " ++ expression x.now ++ codes " {")
        ++ flat_map (gift_text (deeper (deeper []))) gifts.now ++ line (deeper []) (codes "}"))) }
{
    append_birth(out, b"  ", x)?;
    append_gifts(out, gifts)?;
    append_line(out, b"  ", b"}")
}

fn append_member(alloc: Global, out: &mut Vec<u8>, member: &MemberTree) -> Result<(), NoMemory>
    ensures printed { OnOk result (out.new.items ≡
        out.old.items ++ member_text (deeper []) member.now) }
{
    match member {
        MemberTree::Visible(range, _) => append_directive(out, b"#visible[", range.digits),
        MemberTree::Reach(range, _) => append_directive(out, b"#reach[", range.digits),
        MemberTree::State(shared, ty, name, x, _) => append_state(out, *shared, ty, name, x),
        MemberTree::Effect(shared, ty, name, comb, _) => {
            append_effect(out, *shared, ty, name, *comb)
        }
        MemberTree::Run(statements, _) => append_run(alloc, out, statements),
        MemberTree::Die(x, _) => append_die(out, x.get()),
        MemberTree::Spawn(x, gifts, _) => append_spawn(out, x.get(), gifts),
    }
}

fn append_members(
    alloc: Global,
    out: &mut Vec<u8>,
    members: &List<MemberTree>,
) -> Result<(), NoMemory>
    ensures printed { OnOk result (out.new.items ≡
        out.old.items ++ flat_map (member_text (deeper [])) members.now) }
{
    for member in members.as_slice() {
        append_member(alloc, out, member)?;
    }
    Ok(())
}

/// Appends the lines of a class.
pub fn append_class(alloc: Global, out: &mut Vec<u8>, class: &ClassTree) -> Result<(), NoMemory>
    ensures printed { OnOk result (out.new.items ≡ out.old.items ++ class_text class.now) }
{
    out.extend_from_slice(b"class ")?;
    out.extend_from_slice(class.name.text.as_bytes())?;
    out.extend_from_slice(b" {\n")?;
    append_members(alloc, out, &class.members)?;
    out.extend_from_slice(b"}\n")?;
    Ok(())
}
