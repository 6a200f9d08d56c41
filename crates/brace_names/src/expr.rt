ghost use Rattle.std.specs.Prelude.{◌≡◌, ◌++◌, OnOk};
ghost use Rattle.brace_names.specs.Found.{expression};

use crate::finding::Finding;
use crate::kinds::{binary_faults, binary_named, unary_faults, unary_named};
use crate::place::{read, read_of_loop, site, site_if};
use crate::scope::Scope;
use brace_num::NoMemory;
use brace_syntax::ExprTree;

/// Notes what is found in an expression.
pub fn expression(out: &mut Vec<Finding>, scope: &Scope, x: &ExprTree) -> Result<(), NoMemory>
    ensures { OnOk result (out.new.items ≡ out.old.items ++ expression x.now scope.now) }
{
    match x {
        ExprTree::Lit(_) | ExprTree::True(_) | ExprTree::False(_) => Ok(()),
        ExprTree::Name(name) => {
            read(out, scope, name.at, name, scope.read(name.text.as_bytes()))
        }
        ExprTree::OfThis(name, at) => {
            read(out, scope, *at, name, scope.read_own(name.text.as_bytes()))
        }
        ExprTree::OfLoop(variable, name) => read_of_loop(out, scope, variable, name),
        ExprTree::Unary(op, x, at) => {
            expression(out, scope, x.get())?;
            site_if(out, unary_faults(unary_named(*op)), *at)
        }
        ExprTree::Binary(op, x, y, at) => {
            expression(out, scope, x.get())?;
            expression(out, scope, y.get())?;
            site_if(out, binary_faults(binary_named(*op)), *at)
        }
        ExprTree::Choice(c, x, y, _) => {
            expression(out, scope, c.get())?;
            expression(out, scope, x.get())?;
            expression(out, scope, y.get())
        }
        ExprTree::Rand(at) => site(out, *at),
    }
}
