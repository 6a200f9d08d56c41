ghost use Rattle.std.specs.Prelude.{◌≡◌, ◌∷◌, [], IfSome};
ghost use Rattle.brace_code.specs.declared.code.Instr.TheVariants as instr;
ghost use Rattle.brace_code.specs.declared.code.Source.TheVariants as source;
ghost use Rattle.brace_code.specs.Codes.{depth_of, type_given};

use brace_model::{BinOp, Ty, UnOp, Who};
use brace_num::List;

/// A word that an instruction reads.
#[derive(Clone, Copy, Drop)]
pub enum Operand {
    Word(i64),
    /// The state of an agent, by its place in the class's states.
    Field(Who, u32),
    /// The total of an effect, by its place in the class's effects, with its type and its site.
    Total(u32, Ty, Option<u32>),
    /// A constant of the class.
    Local(u32),
    /// A draw at a site.
    Rand(u32),
}

/// What a word that is put on a stack is read of.
#[derive(Clone, Copy, Drop)]
pub enum Source {
    One(Operand),
    /// What an operation gives of two operands of a type, whose faults stand at a site.
    Two(BinOp, Ty, u32, Operand, Operand),
}

/// An instruction over a stack of words, each a value whose type is known: a fixed number counts
/// millionths, and a flag is 0 or 1.
#[derive(Drop)]
pub enum Instr {
    /// Puts a word on the stack.
    Push(Source),
    /// Replaces the top by what an operation gives, whose faults stand at a site.
    Unary(UnOp, u32),
    /// Replaces the two words on top, of one type, by what an operation gives.
    Binary(BinOp, Ty, u32),
    /// Replaces the top by what an operation gives of it and of an operand of its type.
    With(BinOp, Ty, u32, Operand),
    /// Takes the top, and puts on the stack what the first code leaves where it is set, and what
    /// the second leaves where it is 0.
    Choice(List<Instr>, List<Instr>),
}

/// The postfix code of an expression.
#[derive(Drop)]
pub struct Code {
    pub(crate) instrs: List<Instr>,
    pub(crate) ty: Ty,
    pub(crate) depth: usize,
}

impl Code {
    /// How many words its stack needs at most.
    pub fn depth(&self) -> usize
        ensures { result ≡ depth_of self.now }
    {
        self.depth
    }

    /// The type of its values.
    pub fn ty(&self) -> Ty
        ensures { result ≡ type_given self.now }
    {
        self.ty
    }
}

/// The operand that code is, if it is nothing else.
#[tactic(auto, using(crate::proofs::CodeLemmas::operand_alone))]
pub fn operand_in(code: &List<Instr>) -> Option<Operand>
    ensures { IfSome result (λ operand. code.now ≡ instr.Push (source.One operand) ∷ []) }
{
    let (first, rest) = code.as_slice().split_first()?;
    match first {
        Instr::Push(Source::One(operand)) if rest.is_empty() => Some(*operand),
        _ => None,
    }
}
