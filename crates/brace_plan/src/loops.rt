ghost use Rattle.std.specs.Prelude.{◌≡◌, ◌++◌, length, IfOk, OnOk};
ghost use Rattle.brace_plan.specs.Planning.{told, told_by};

use crate::action::Action;
use brace_num::{List, NoMemory};

/// A loop of a program.
#[derive(Clone, Copy, PartialEq, Eq, Drop)]
pub struct Loop {
    /// The byte offset of the statement.
    pub at: u32,
    /// The number of the class looped over.
    pub class: u32,
    /// How many conditions narrow it.
    pub bounds: u32,
}

/// How many items there are. No script is so long that the number has no room.
fn count<T>(items: &List<T>) -> Result<u32, NoMemory>
    ensures { IfOk result (λ count. count ≡ length items.now) }
{
    match u32::try_from(items.as_slice().len()) {
        Ok(count) => Ok(count),
        Err(_) => Err(NoMemory),
    }
}

/// Tells the loops of an action.
#[cycle(telling)]
#[tactic(auto, using(crate::proofs::Steps::told_rules))]
fn tell(action: &Action, loops: &mut List<Loop>) -> Result<(), NoMemory>
    ensures { OnOk result (loops.new ≡ loops.old ++ told action.now) }
{
    match action {
        Action::If(_, a, b) => {
            tell_all(a, loops)?;
            tell_all(b, loops)
        }
        Action::Foreach(class, bounds, body, at) => {
            loops.push(Loop {
                at: *at,
                class: *class,
                bounds: count(bounds)?,
            })?;
            tell_all(body, loops)
        }
        Action::Const(..) | Action::Assign(..) => Ok(()),
    }
}

/// Tells the loops of actions, in order.
#[cycle(telling)]
pub fn tell_all(actions: &List<Action>, loops: &mut List<Loop>) -> Result<(), NoMemory>
    ensures { OnOk result (loops.new ≡ loops.old ++ told_by actions.now) }
{
    for action in actions.as_slice() {
        tell(action, loops)?;
    }
    Ok(())
}
