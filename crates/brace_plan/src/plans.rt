ghost use Rattle.std.specs.Prelude.{◌≡◌, ◌++◌, IfOk, OnOk};
ghost use Rattle.brace_model.specs.Lawful.{LawfulProgram};
ghost use Rattle.brace_plan.specs.Narrowing.{loops_in, bounds_at};
ghost use Rattle.brace_plan.specs.Planning.{IsClassOf, IsPlanOf, ArePlansOf};

use crate::action::Action;
use crate::constants::Constants;
use crate::counting::constants_in;
use crate::loops::{Loop, tell_all};
use crate::planning::plan_block;
use crate::rules::{Rules, compile_rules};
use brace_code::Known;
use brace_model::{Class, Program};
use brace_num::{List, NoMemory};
use std::alloc::Global;
use std::marker::Model;

/// The query of a class, compiled, and how many constants it has.
#[derive(Drop)]
pub struct Planned {
    pub actions: List<Action>,
    pub constants: usize,
}

/// The queries and the rules of a program, compiled, class by class. Contracts see the program.
#[derive(Drop)]
pub struct Plans {
    pub(crate) program: Program,
    pub(crate) queries: List<Planned>,
    loops: List<Loop>,
    pub(crate) rules: List<Rules>,
}

impl Model for Plans {
    ghost use Rattle.std.specs.Prelude.{◌≡◌};
    ghost use Rattle.std.specs.Coded.{codes};
    ghost use Rattle.brace_model.specs.declared.program.Program.{Program};
    ghost use Rattle.brace_model.specs.contracts.program.Expr as expr;
    ghost use Rattle.brace_model.specs.contracts.program.Stmt as stmt;
    ghost use Rattle.brace_model.specs.Lawful.{LawfulProgram};
    ghost use Rattle.brace_plan.specs.Narrowing.{loops_in};
    ghost use Rattle.brace_plan.specs.Planning.{ArePlansOf};
    ghost use Rattle.brace_plan.specs.Ruling.{AreAllRulesOf};

    ghost Value = { Program };

    ghost coded = { Prim.hlevel (codes, expr.the_row.coded, stmt.the_row.coded) };

    ghost view = { λ plans. plans.program };

    ghost invariant = { λ plans. LawfulProgram plans.program
        × ArePlansOf plans.program plans.queries × (plans.loops ≡ loops_in plans.program)
        × AreAllRulesOf plans.program plans.rules };
}

/// The plan of the query of a class.
fn plan_query(
    alloc: Global,
    program: &Program,
    number: u32,
    class: &Class,
) -> Result<Planned, NoMemory>
    requires { IsClassOf program.now number class.now }
    ensures { IfOk result (λ planned. IsPlanOf program.now number class.now.query planned) }
{
    let known = Known {
        classes: program.classes.as_slice(),
        own: number,
        outer: None,
        inner: None,
        in_rule: false,
        constants: &[],
    };
    let count = constants_in(&class.query)?;
    let mut constants = Constants::make(alloc, count)?;
    let actions = plan_block(alloc, &known, &class.query, &mut constants)?;
    Ok(Planned {
        actions,
        constants: count,
    })
}

/// The plans of the queries of all classes. The loops of the program are told.
fn plan_queries(
    alloc: Global,
    program: &Program,
    loops: &mut List<Loop>,
) -> Result<List<Planned>, NoMemory>
    requires { LawfulProgram program.now }
    ensures plans { IfOk result (λ queries. ArePlansOf program.now queries) }
    ensures loops { OnOk result (loops.new ≡ loops.old ++ loops_in program.now) }
{
    let mut queries = List::new(alloc);
    let mut number = 0;
    for class in program.classes.as_slice() {
        let planned = plan_query(alloc, program, number, class)?;
        tell_all(&planned.actions, loops)?;
        queries.push(planned)?;
        number += 1;
    }
    Ok(queries)
}

/// The plans of a lawful program.
pub fn plan(alloc: Global, program: &Program) -> Result<Plans, NoMemory>
    requires { LawfulProgram program.now }
    ensures { IfOk result (λ plans. plans ≡ program.now) }
{
    let program = program.copy(alloc)?;
    let mut loops = List::new(alloc);
    let queries = plan_queries(alloc, &program, &mut loops)?;
    let rules = compile_rules(alloc, &program)?;
    Ok(Plans {
        program,
        queries,
        loops,
        rules,
    })
}

impl Plans {
    /// The loops, class by class and in text order.
    pub fn loops(&self, alloc: Global) -> Result<List<Loop>, NoMemory>
        ensures { IfOk result (λ found. found ≡ loops_in self.now) }
    {
        let mut copy = List::new(alloc);
        for l in self.loops.as_slice() {
            copy.push(*l)?;
        }
        Ok(copy)
    }

    /// How many conditions narrow the loop at a byte offset; 0 where no loop stands there.
    pub fn bounds(&self, offset: u32) -> u32
        ensures { result ≡ bounds_at (loops_in self.now) offset }
    {
        for l in self.loops.as_slice() {
            if l.at == offset {
                return l.bounds;
            }
        }
        0
    }
}
