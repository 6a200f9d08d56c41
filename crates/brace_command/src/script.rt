//! What a script stands for.
ghost use Rattle.std.specs.Prelude.{◌≤◌, length, IfOk, IfErr};
ghost use Rattle.brace_model.specs.Lawful.{LawfulProgram};
ghost use Rattle.brace_command.specs.Scripts.{IsTree, Means, NoTree, Refuses};
ghost use Rattle.brace_command.specs.Limits.{script_limit};

use crate::script_fault::ScriptFault;
use brace_check::check;
use brace_model::Program;
use brace_names::resolve;
use brace_syntax::{Tree, parse};
use brace_tok::tokens;
use std::alloc::Global;

/// The tree of a script.
pub fn read_tree(alloc: Global, src: &[u8]) -> Result<Tree, ScriptFault>
    requires { length src.now ≤ script_limit }
    ensures read { IfOk result (IsTree src.now) }
    ensures refused { IfErr result (NoTree src.now) }
{
    let toks = tokens(alloc, src)?;
    let tree = parse(alloc, src, toks.as_slice())?;
    Ok(tree)
}

/// The program of a script.
pub fn read_program(alloc: Global, src: &[u8]) -> Result<Program, ScriptFault>
    requires { length src.now ≤ script_limit }
    ensures read { IfOk result (Means src.now) }
    ensures lawful { IfOk result LawfulProgram }
    ensures refused { IfErr result (Refuses src.now) }
{
    let tree = read_tree(alloc, src)?;
    let resolved = resolve(alloc, tree)?;
    let program = check(alloc, resolved)?;
    Ok(program)
}
