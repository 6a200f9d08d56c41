ghost use Rattle.std.specs.Prelude.{◌≡◌, option_map};
ghost use Rattle.brace_model.specs.Typing.{same_type, is_number, unary_type, operation_type, binary_type, choice_type};
ghost use Rattle.brace_names.specs.Scopes.{read, read_own, of_loop};
ghost use Rattle.brace_check.specs.Types.{place, digits_type, field_type, is_shared, named_type, typed_at, type_of};

use brace_model::{BinOp, Ty, UnOp};
use brace_names::{Field, Named, Scope, binary_named, unary_named};
use brace_syntax::{Digits, ExprTree};

/// Whether two types are one.
pub fn same_type(a: Ty, b: Ty) -> bool
    ensures { result ≡ same_type a b }
{
    match (a, b) {
        (Ty::Int, Ty::Int) | (Ty::Fixed, Ty::Fixed) | (Ty::Bool, Ty::Bool) => true,
        _ => false,
    }
}

/// Whether a type counts.
pub fn is_number(ty: Ty) -> bool
    ensures { result ≡ is_number ty }
{
    match ty {
        Ty::Bool => false,
        Ty::Int | Ty::Fixed => true,
    }
}

// The type that an operation gives for the type of its operand.
fn unary_type(op: UnOp, ty: Ty) -> Option<Ty>
    ensures { result ≡ unary_type op ty }
{
    match (op, ty) {
        (UnOp::Neg | UnOp::Abs, Ty::Int | Ty::Fixed) => Some(ty),
        (UnOp::Not, Ty::Bool) => Some(Ty::Bool),
        (UnOp::Sqrt, Ty::Fixed) => Some(Ty::Fixed),
        (UnOp::ToFixed, Ty::Int) => Some(Ty::Fixed),
        (UnOp::Trunc, Ty::Fixed) => Some(Ty::Int),
        _ => None,
    }
}

// The type that an operation gives for two operands of one type.
fn operation_type(op: BinOp, ty: Ty) -> Option<Ty>
    ensures { result ≡ operation_type op ty }
{
    match op {
        BinOp::Add | BinOp::Sub | BinOp::Mul | BinOp::Div | BinOp::Min | BinOp::Max => {
            if is_number(ty) { Some(ty) } else { None }
        }
        BinOp::Rem => if same_type(ty, Ty::Int) {
            Some(Ty::Int)
        } else {
            None
        },
        BinOp::Lt | BinOp::Le | BinOp::Gt | BinOp::Ge => {
            if is_number(ty) { Some(Ty::Bool) } else { None }
        }
        BinOp::Eq | BinOp::Ne => Some(Ty::Bool),
        BinOp::And | BinOp::Or => {
            if same_type(ty, Ty::Bool) {
                Some(Ty::Bool)
            } else {
                None
            }
        }
    }
}

// The type that an operation gives for two operands.
fn binary_type(op: BinOp, a: Ty, b: Ty) -> Option<Ty>
    ensures { result ≡ binary_type op a b }
{
    if same_type(a, b) {
        operation_type(op, a)
    } else {
        None
    }
}

// The type of a choice between two values.
fn choice_type(condition: Ty, a: Ty, b: Ty) -> Option<Ty>
    ensures { result ≡ choice_type condition a b }
{
    if same_type(condition, Ty::Bool) && same_type(a, b) {
        Some(a)
    } else {
        None
    }
}

/// The offset of an expression: of its operator, of its word, or of its first token.
pub fn place(x: &ExprTree) -> u32
    ensures { result ≡ place x.now }
{
    match x {
        ExprTree::Lit(number) => number.at,
        ExprTree::Name(name) | ExprTree::OfLoop(name, _) => name.at,
        ExprTree::True(at) | ExprTree::False(at) | ExprTree::Rand(at) => *at,
        ExprTree::OfThis(_, at) | ExprTree::Unary(_, _, at) => *at,
        ExprTree::Binary(_, _, _, at) | ExprTree::Choice(_, _, _, at) => *at,
    }
}

fn digits_type(digits: Digits) -> Ty
    ensures { result ≡ digits_type digits }
{
    match digits {
        Digits::Int(_) => Ty::Int,
        Digits::Fixed(_) => Ty::Fixed,
    }
}

// The type of a field.
fn field_type(field: Field) -> Ty
    ensures { result ≡ field_type field }
{
    match field {
        Field::State(_, ty, _) | Field::Effect(_, ty, _, _) => ty,
    }
}

/// Whether a field is public.
pub fn is_shared(field: Field) -> bool
    ensures { result ≡ is_shared field }
{
    match field {
        Field::State(_, _, shared) | Field::Effect(_, _, shared, _) => shared,
    }
}

// The type of what `n` or `this.n` stands for.
fn named_type(named: Named) -> Ty
    ensures { result ≡ named_type named }
{
    match named {
        Named::Constant(_, ty) => ty,
        Named::Field(field) => field_type(field),
    }
}

// The type of what `n` or `this.n` stands for; of nothing its offset.
fn typed_as(named: Option<Named>, at: u32) -> Result<Ty, u32>
    ensures { result ≡ typed_at at (option_map named_type named) }
{
    match named {
        Some(named) => Ok(named_type(named)),
        None => Err(at),
    }
}

/// The type of an expression, or the offset of the first operation, in finishing order, that does
/// not fit its operands.
pub fn type_of(scope: &Scope, x: &ExprTree) -> Result<Ty, u32>
    ensures { result ≡ type_of x.now scope.now }
{
    match x {
        ExprTree::Lit(number) => Ok(digits_type(number.digits)),
        ExprTree::True(_) | ExprTree::False(_) => Ok(Ty::Bool),
        ExprTree::Name(name) => typed_as(scope.read(name.text.as_bytes()), name.at),
        ExprTree::OfThis(name, at) => typed_as(scope.read_own(name.text.as_bytes()), *at),
        ExprTree::OfLoop(variable, name) => {
            match scope.of_loop(variable.text.as_bytes(), name.text.as_bytes()) {
                Some(found) => Ok(field_type(found.field)),
                None => Err(variable.at),
            }
        }
        ExprTree::Unary(op, x, at) => {
            let operand = type_of(scope, x.get())?;
            unary_type(unary_named(*op), operand).ok_or(*at)
        }
        ExprTree::Binary(op, x, y, at) => {
            let left = type_of(scope, x.get())?;
            let right = type_of(scope, y.get())?;
            binary_type(binary_named(*op), left, right).ok_or(*at)
        }
        ExprTree::Choice(c, x, y, at) => {
            let condition = type_of(scope, c.get())?;
            let left = type_of(scope, x.get())?;
            let right = type_of(scope, y.get())?;
            choice_type(condition, left, right).ok_or(*at)
        }
        ExprTree::Rand(_) => Ok(Ty::Fixed),
    }
}
