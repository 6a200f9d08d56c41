use brace_code::Redo;
use brace_model::{Class, Expr, Program, Stmt};
use brace_num::List;

/// Notes the sites of draws in an expression.
fn sites_of(e: &Expr, sites: &mut Vec<u32>) -> Result<(), Redo> {
    match e {
        Expr::Rand(site) => sites.push(*site)?,
        Expr::Unary(_, _, a) => sites_of(a.get(), sites)?,
        Expr::Binary(_, _, a, b) => {
            sites_of(a.get(), sites)?;
            sites_of(b.get(), sites)?;
        }
        Expr::Choice(c, a, b) => {
            sites_of(c.get(), sites)?;
            sites_of(a.get(), sites)?;
            sites_of(b.get(), sites)?;
        }
        Expr::Lit(_) | Expr::Field(_, _) | Expr::Total(_, _, _) | Expr::Local(_) => (),
    }
    Ok(())
}

/// Notes the sites of draws in statements.
#[cycle(sites)]
fn sites_in(block: &List<Stmt>, sites: &mut Vec<u32>) -> Result<(), Redo> {
    for s in block.as_slice() {
        sites_at(s, sites)?;
    }
    Ok(())
}

#[cycle(sites)]
fn sites_at(s: &Stmt, sites: &mut Vec<u32>) -> Result<(), Redo> {
    match s {
        Stmt::Const(_, e) | Stmt::Assign(_, _, e, _) => sites_of(e, sites),
        Stmt::If(c, a, b) => {
            sites_of(c, sites)?;
            sites_in(a, sites)?;
            sites_in(b, sites)
        }
        Stmt::Foreach(_, body, _) => sites_in(body, sites),
    }
}

/// Notes the sites of draws in the queries of a program.
pub fn query_sites(program: &Program, sites: &mut Vec<u32>) -> Result<(), Redo> {
    for class in program.classes.as_slice() {
        sites_in(&class.query, sites)?;
    }
    Ok(())
}

/// Notes the sites of draws in a rule or a condition, where there is one.
fn sites_if(rule: &Option<Expr>, sites: &mut Vec<u32>) -> Result<(), Redo> {
    match rule {
        None => Ok(()),
        Some(e) => sites_of(e, sites),
    }
}

/// Notes the sites of draws in the rules of a class, in its `die` and in its `spawn`.
pub fn rule_sites(class: &Class, sites: &mut Vec<u32>) -> Result<(), Redo> {
    for state in class.states.as_slice() {
        sites_if(&state.rule, sites)?;
    }
    sites_if(&class.die, sites)?;
    if let Some(spawn) = &class.spawn {
        sites_of(&spawn.when, sites)?;
        for gift in spawn.gifts.as_slice() {
            sites_of(&gift.value, sites)?;
        }
    }
    Ok(())
}
