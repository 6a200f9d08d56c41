ghost use Rattle.std.specs.Prelude.{◌≡◌, Some};
ghost use Rattle.brace_model.specs.declared.program.Ty.{Ty};
ghost use Rattle.brace_model.specs.Typing.{class_named, state_type, constant_type};
ghost use Rattle.brace_code.specs.Codes.{names_of};

use brace_model::{Class, Ty, Who};

/// What an expression may name, with types.
#[derive(Clone, Copy)]
pub struct Known<'a> {
    pub classes: &'a [Class],
    /// The class of `this`, by number.
    pub own: u32,
    /// The class of the outer loop's agent.
    pub outer: Option<u32>,
    /// The class of the inner loop's agent.
    pub inner: Option<u32>,
    /// Whether totals may be read: in rules, and in the conditions and gifts of `die` and `spawn`.
    pub in_rule: bool,
    /// The constants in scope, the latest first.
    pub constants: &'a [(u32, Ty)],
}

impl Known<'_> {
    fn class_named(&self, who: Who) -> Option<u32>
        ensures { result ≡ class_named (names_of self.now) who }
    {
        match who {
            Who::This => Some(self.own),
            Who::Outer => self.outer,
            Who::Inner => self.inner,
        }
    }

    /// The type of a state that may be named.
    pub fn state_type(&self, who: Who, place: u32) -> Ty
        ensures { (t : Ty) → state_type (names_of self.now) who place ≡ Some t → result ≡ t }
    {
        let Some(class) = self.class_named(who) else {
            return Ty::Bool;
        };
        let Some(class) = self.classes.get(class as usize) else {
            return Ty::Bool;
        };
        match class.states.as_slice().get(place as usize) {
            Some(state) => state.ty,
            None => Ty::Bool,
        }
    }

    /// The type of a constant in scope.
    #[tactic(auto, using(crate::proofs::NameLemmas::constant_more))]
    pub fn constant_type(&self, number: u32) -> Ty
        ensures { (t : Ty) → constant_type self.now.constants.now number ≡ Some t → result ≡ t }
    {
        for constant in self.constants {
            if constant.0 == number {
                return constant.1;
            }
        }
        Ty::Bool
    }
}
