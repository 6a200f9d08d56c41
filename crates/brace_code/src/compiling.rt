ghost use Rattle.std.specs.Prelude.{◌≡◌, ◌+◌, [], ◌∷◌, ◌++◌, unwrap_or, IfOk, IfSome, Some};
ghost use Rattle.brace_model.specs.declared.program.Ty.{Ty};
ghost use Rattle.brace_model.specs.declared.program.Expr.TheVariants as expr;
ghost use Rattle.brace_model.specs.Typing.{type_of, type_of_value};
ghost use Rattle.brace_code.specs.declared.code.Instr.TheVariants as instr;
ghost use Rattle.brace_code.specs.declared.code.Operand.TheVariants as operand;
ghost use Rattle.brace_code.specs.declared.code.Source.TheVariants as source;
ghost use Rattle.brace_code.specs.Codes.{Computes, names_of};
ghost use Rattle.brace_code.specs.inner.Appended.{Appends, IsLeaf, IsTwo};

use crate::code::{Code, Instr, Operand, Source};
use crate::names::Known;
use crate::operations::{operation_type, unary_type};
use brace_model::{BinOp, Expr, Ty, Value, number};
use brace_num::{List, NoMemory};
use std::alloc::Global;

/// Of an expression's code: the type of its value, and how many words it puts on a stack at most.
#[derive(Clone, Copy, Drop)]
pub struct Part {
    pub ty: Ty,
    pub depth: usize,
}

/// An expression's code alone.
#[derive(Drop)]
pub struct Branch {
    pub part: Part,
    pub code: List<Instr>,
}

/// An expression that is an operand.
#[derive(Clone, Copy, Drop)]
pub struct Leaf {
    pub ty: Ty,
    pub operand: Operand,
}

/// An expression that is an operation on two operands.
#[derive(Clone, Copy, Drop)]
pub struct Two {
    pub ty: Ty,
    pub source: Source,
}

fn type_of_value(value: Value) -> Ty
    ensures { result ≡ type_of_value value }
{
    match value {
        Value::Int(_) => Ty::Int,
        Value::Fixed(_) => Ty::Fixed,
        Value::Flag(_) => Ty::Bool,
    }
}

fn site_number(site: Option<u32>) -> u32
    ensures { result ≡ unwrap_or site 0 }
{
    site.unwrap_or(0)
}

/// A place more. No stack has so many places that there is none.
fn one_more(depth: usize) -> Result<usize, NoMemory>
    ensures { IfOk result (λ more. more ≡ depth + 1) }
{
    match depth.checked_add(1) {
        Some(more) => Ok(more),
        None => Err(NoMemory),
    }
}

/// Appends an instruction that reads an operand.
fn push(code: &mut List<Instr>, ty: Ty, operand: Operand) -> Result<Part, NoMemory>
    ensures part { IfOk result (λ part. part ≡ record { ty = ty; depth = 1 }) }
    ensures code { IfOk result (λ _. code.new
        ≡ code.old ++ instr.Push (source.One operand) ∷ []) }
{
    code.push(Instr::Push(Source::One(operand)))?;
    Ok(Part { ty, depth: 1 })
}

/// The code of a word.
fn word(alloc: Global, word: i64) -> Result<List<Instr>, NoMemory>
    ensures { IfOk result (λ code. code ≡ instr.Push (source.One (operand.Word word)) ∷ []) }
{
    let mut code = List::new(alloc);
    code.push(Instr::Push(Source::One(Operand::Word(word))))?;
    Ok(code)
}

/// The operand that an expression is, if it is one.
#[tactic(auto, using(crate::proofs::CompileLemmas::leaf_rules))]
fn leaf_of(known: &Known, e: &Expr) -> Option<Leaf>
    ensures { IfSome result (λ leaf. IsLeaf (names_of known.now) e.now leaf) }
{
    match e {
        Expr::Lit(value) => Some(Leaf {
            ty: type_of_value(*value),
            operand: Operand::Word(number(*value)),
        }),
        Expr::Field(who, place) => Some(Leaf {
            ty: known.state_type(*who, *place),
            operand: Operand::Field(*who, *place),
        }),
        Expr::Total(effect, ty, site) => Some(Leaf {
            ty: *ty,
            operand: Operand::Total(*effect, *ty, *site),
        }),
        Expr::Local(n) => Some(Leaf {
            ty: known.constant_type(*n),
            operand: Operand::Local(*n),
        }),
        Expr::Rand(site) => Some(Leaf {
            ty: Ty::Fixed,
            operand: Operand::Rand(*site),
        }),
        _ => None,
    }
}

/// An operation on two operands, if it is one that looks at both.
#[tactic(auto, using(crate::proofs::CompileLemmas::two_rules))]
fn two_of(known: &Known, op: BinOp, site: Option<u32>, a: &Expr, b: &Expr) -> Option<Two>
    ensures { IfSome result
        (IsTwo (names_of known.now) (expr.Binary op site a.now b.now)) }
{
    match op {
        BinOp::And | BinOp::Or => None,
        _ => {
            let a = leaf_of(known, a)?;
            let b = leaf_of(known, b)?;
            Some(Two {
                ty: operation_type(op, a.ty),
                source: Source::Two(op, a.ty, site_number(site), a.operand, b.operand),
            })
        }
    }
}

/// Appends an expression's code.
#[tactic(auto, using(crate::proofs::CompileLemmas::compile_rules))]
#[cycle(compiling)]
fn append(alloc: Global, known: &Known, e: &Expr, code: &mut List<Instr>) -> Result<Part, NoMemory>
    ensures { IfOk result (λ part.
        Appends (names_of known.now) e.now part code.old code.new) }
{
    match e {
        Expr::Lit(value) => push(code, type_of_value(*value), Operand::Word(number(*value))),
        Expr::Field(who, place) => {
            let ty = known.state_type(*who, *place);
            push(code, ty, Operand::Field(*who, *place))
        }
        Expr::Total(effect, ty, site) => push(code, *ty, Operand::Total(*effect, *ty, *site)),
        Expr::Local(n) => {
            let ty = known.constant_type(*n);
            push(code, ty, Operand::Local(*n))
        }
        Expr::Rand(site) => push(code, Ty::Fixed, Operand::Rand(*site)),
        Expr::Unary(op, site, a) => {
            let a = append(alloc, known, a.get(), code)?;
            code.push(Instr::Unary(*op, site_number(*site)))?;
            Ok(Part {
                ty: unary_type(*op, a.ty),
                depth: a.depth,
            })
        }
        Expr::Binary(op, site, a, b) => {
            if let Some(two) = two_of(known, *op, *site, a.get(), b.get()) {
                code.push(Instr::Push(two.source))?;
                return Ok(Part {
                    ty: two.ty,
                    depth: 1,
                });
            }
            let a = append(alloc, known, a.get(), code)?;
            match op {
                BinOp::And => {
                    let b = alone(alloc, known, b.get())?;
                    code.push(Instr::Choice(b.code, word(alloc, 0)?))?;
                    Ok(Part {
                        ty: Ty::Bool,
                        depth: a.depth.max(b.part.depth).max(1),
                    })
                }
                BinOp::Or => {
                    let b = alone(alloc, known, b.get())?;
                    code.push(Instr::Choice(word(alloc, 1)?, b.code))?;
                    Ok(Part {
                        ty: Ty::Bool,
                        depth: a.depth.max(b.part.depth).max(1),
                    })
                }
                _ => {
                    if let Some(b) = leaf_of(known, b.get()) {
                        code.push(Instr::With(*op, a.ty, site_number(*site), b.operand))?;
                        return Ok(Part {
                            ty: operation_type(*op, a.ty),
                            depth: a.depth,
                        });
                    }
                    let b = append(alloc, known, b.get(), code)?;
                    let above = one_more(b.depth)?;
                    code.push(Instr::Binary(*op, a.ty, site_number(*site)))?;
                    Ok(Part {
                        ty: operation_type(*op, a.ty),
                        depth: a.depth.max(above),
                    })
                }
            }
        }
        Expr::Choice(c, a, b) => {
            let c = append(alloc, known, c.get(), code)?;
            let a = alone(alloc, known, a.get())?;
            let b = alone(alloc, known, b.get())?;
            code.push(Instr::Choice(a.code, b.code))?;
            Ok(Part {
                ty: a.part.ty,
                depth: c.depth.max(a.part.depth.max(b.part.depth)),
            })
        }
    }
}

/// The code of an expression alone.
#[cycle(compiling)]
fn alone(alloc: Global, known: &Known, e: &Expr) -> Result<Branch, NoMemory>
    ensures { IfOk result (λ branch.
        Appends (names_of known.now) e.now branch.part [] branch.code) }
{
    let mut code = List::new(alloc);
    let part = append(alloc, known, e, &mut code)?;
    Ok(Branch { part, code })
}

/// The code of an expression. Where the expression is of a type in this scope, the code computes
/// it.
#[tactic(auto, using(crate::proofs::CompileLemmas::whole_computes))]
pub fn compile(alloc: Global, known: &Known, e: &Expr) -> Result<Code, NoMemory>
    ensures { IfOk result (λ code. (t : Ty) → type_of e.now (names_of known.now) ≡ Some t
        → Computes (names_of known.now) e.now t code) }
{
    let Branch { part, code } = alone(alloc, known, e)?;
    Ok(Code {
        instrs: code,
        ty: part.ty,
        depth: part.depth,
    })
}
