ghost use Rattle.std.specs.Prelude.{◌≡◌, IfSome};
ghost use Rattle.brace_plan.specs.Leaving.{IsRuled};
ghost use Rattle.brace_plan.specs.Planning.{IsPlanned};

use crate::action::Action;
use crate::plans::Plans;
use crate::rules::Rules;
use brace_model::{Class, Program};
use brace_num::List;

/// The query of a class as actions, and how many constants they set.
#[derive(Clone, Copy)]
pub struct Told<'a> {
    pub actions: &'a List<Action>,
    pub constants: usize,
}

/// A class and its compiled rules.
#[derive(Clone, Copy)]
pub struct Ruled<'a> {
    pub class: &'a Class,
    pub rules: &'a Rules,
}

impl Plans {
    /// The program whose queries are planned.
    pub fn program(&self) -> &Program
        ensures { result.now ≡ self.now }
    {
        &self.program
    }

    /// The plan of the query of a class, by number.
    pub fn told(&self, class: u32) -> Option<Told<'_>>
        ensures { IfSome result (λ told.
            IsPlanned self.now class told.actions.now told.constants) }
    {
        let planned = self.queries.as_slice().get(class as usize)?;
        Some(Told {
            actions: &planned.actions,
            constants: planned.constants,
        })
    }

    /// A class, by number, and its rules.
    pub fn ruled(&self, class: u32) -> Option<Ruled<'_>>
        ensures { IfSome result (λ ruled.
            IsRuled self.now class ruled.class.now ruled.rules.now) }
    {
        let place = class as usize;
        let class = self.program.classes.as_slice().get(place)?;
        let rules = self.rules.as_slice().get(place)?;
        Some(Ruled { class, rules })
    }
}
