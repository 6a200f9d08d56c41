ghost use Rattle.std.specs.Prelude.{◌≡◌};
ghost use Rattle.brace_model.specs.Typing.{is_sum, unary_faults, binary_faults};
ghost use Rattle.brace_names.specs.Kinds.{type_named, comb_named, unary_named, binary_named};

use brace_model::{BinOp, Comb, Ty, UnOp};
use brace_syntax::{BinName, CombName, TyName, UnName};

/// The type of a name. A name that is no type does not pass the checks of names.
pub fn type_named(name: &TyName) -> Ty
    ensures { result ≡ type_named name.now }
{
    match name {
        TyName::Int | TyName::Other(_) => Ty::Int,
        TyName::Fixed => Ty::Fixed,
        TyName::Bool => Ty::Bool,
    }
}

/// The combinator of a name.
pub fn comb_named(name: CombName) -> Comb
    ensures { result ≡ comb_named name }
{
    match name {
        CombName::Sum => Comb::Sum,
        CombName::Min => Comb::Min,
        CombName::Max => Comb::Max,
        CombName::Count => Comb::Count,
        CombName::Or => Comb::Or,
    }
}

/// The operation of a name with one operand.
pub fn unary_named(name: UnName) -> UnOp
    ensures { result ≡ unary_named name }
{
    match name {
        UnName::Neg => UnOp::Neg,
        UnName::Not => UnOp::Not,
        UnName::Abs => UnOp::Abs,
        UnName::Sqrt => UnOp::Sqrt,
        UnName::ToFixed => UnOp::ToFixed,
        UnName::Trunc => UnOp::Trunc,
    }
}

/// The operation of a name with two operands.
pub fn binary_named(name: BinName) -> BinOp
    ensures { result ≡ binary_named name }
{
    match name {
        BinName::Add => BinOp::Add,
        BinName::Sub => BinOp::Sub,
        BinName::Mul => BinOp::Mul,
        BinName::Div => BinOp::Div,
        BinName::Rem => BinOp::Rem,
        BinName::Lt => BinOp::Lt,
        BinName::Le => BinOp::Le,
        BinName::Gt => BinOp::Gt,
        BinName::Ge => BinOp::Ge,
        BinName::Eq => BinOp::Eq,
        BinName::Ne => BinOp::Ne,
        BinName::And => BinOp::And,
        BinName::Or => BinOp::Or,
        BinName::Min => BinOp::Min,
        BinName::Max => BinOp::Max,
    }
}

/// Whether the total may not fit 64 bits.
pub fn is_sum(comb: Comb) -> bool
    ensures { result ≡ is_sum comb }
{
    match comb {
        Comb::Sum => true,
        Comb::Min | Comb::Max | Comb::Count | Comb::Or => false,
    }
}

/// Whether the operation can fault.
pub fn unary_faults(op: UnOp) -> bool
    ensures { result ≡ unary_faults op }
{
    match op {
        UnOp::Neg | UnOp::Abs | UnOp::Sqrt | UnOp::ToFixed => true,
        UnOp::Not | UnOp::Trunc => false,
    }
}

/// Whether the operation can fault.
pub fn binary_faults(op: BinOp) -> bool
    ensures { result ≡ binary_faults op }
{
    match op {
        BinOp::Add | BinOp::Sub | BinOp::Mul | BinOp::Div | BinOp::Rem => true,
        BinOp::Lt | BinOp::Le | BinOp::Gt | BinOp::Ge => false,
        BinOp::Eq | BinOp::Ne | BinOp::And | BinOp::Or => false,
        BinOp::Min | BinOp::Max => false,
    }
}
