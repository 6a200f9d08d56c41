ghost use Rattle.std.specs.Prelude.{◌≡◌, List, IsTrue, IfOk};
ghost use Rattle.std.specs.List.{AllZip, list_all};
ghost use Rattle.brace_model.specs.declared.program.Ty.{Ty};
ghost use Rattle.brace_model.specs.declared.program.State.{State};
ghost use Rattle.brace_model.specs.Lawful.{LawfulProgram, is_given, is_ruled, is_spawn, rule_scope};
ghost use Rattle.brace_code.specs.Codes.{names_of};
ghost use Rattle.brace_plan.specs.Planning.{IsClassOf};
ghost use Rattle.brace_plan.specs.Ruling.{AreRulesOf, AreAllRulesOf, IsCodeOf, IsRuleOf, condition_of, gifts_of};

use brace_code::{Code, Known, compile};
use brace_model::{Class, Expr, Gift, Program, Spawn, State};
use brace_num::{List, NoMemory};
use std::alloc::Global;

/// The rules of a class, compiled, with the conditions of its `die` and its `spawn`.
#[derive(Drop)]
pub struct Rules {
    /// A place for each state, whether it has a rule or not.
    pub states: List<Option<Code>>,
    pub die: Option<Code>,
    pub spawn: Option<Code>,
    /// The values that a child begins with.
    pub gifts: List<Code>,
}

/// The code of a rule or a condition, where there is one.
fn compile_rule(alloc: Global, known: &Known, rule: &Option<Expr>) -> Result<Option<Code>, NoMemory>
    ensures { IfOk result (λ code. (t : Ty) → IsTrue (is_ruled (names_of known.now) t rule.now)
        → IsRuleOf (names_of known.now) rule.now code) }
{
    match rule {
        None => Ok(None),
        Some(rule) => Ok(Some(compile(alloc, known, rule)?)),
    }
}

/// The codes of the rules of states.
fn compile_states(
    alloc: Global,
    known: &Known,
    states: &[State],
) -> Result<List<Option<Code>>, NoMemory>
    requires { IsTrue (list_all (λ s. is_ruled (names_of known.now) s.ty s.rule) states.now) }
    ensures { IfOk result (AllZip (λ s code. IsRuleOf (names_of known.now) s.rule code)
        states.now) }
{
    let mut codes = List::new(alloc);
    for state in states {
        let code = compile_rule(alloc, known, &state.rule)?;
        codes.push(code)?;
    }
    Ok(codes)
}

/// The code of the condition of a `spawn`, where there is one.
fn compile_condition(
    alloc: Global,
    known: &Known,
    spawn: &Option<Spawn>,
) -> Result<Option<Code>, NoMemory>
    ensures { IfOk result (λ code. (states : List State)
        → IsTrue (is_spawn (names_of known.now) states spawn.now)
        → IsRuleOf (names_of known.now) (condition_of spawn.now) code) }
{
    match spawn {
        None => Ok(None),
        Some(spawn) => Ok(Some(compile(alloc, known, &spawn.when)?)),
    }
}

/// The gifts of a `spawn`, where there is one.
pub fn gifts_of(spawn: &Option<Spawn>) -> &[Gift]
    ensures { result.now ≡ gifts_of spawn.now }
{
    match spawn {
        None => &[],
        Some(spawn) => spawn.gifts.as_slice(),
    }
}

/// The codes of gifts.
fn compile_gifts(alloc: Global, known: &Known, gifts: &[Gift]) -> Result<List<Code>, NoMemory>
    requires { (states : List State)
        × IsTrue (list_all (is_given (names_of known.now) states) gifts.now) }
    ensures { IfOk result (AllZip (λ g code. IsCodeOf (names_of known.now) g.value code)
        gifts.now) }
{
    let mut codes = List::new(alloc);
    for gift in gifts {
        let code = compile(alloc, known, &gift.value)?;
        codes.push(code)?;
    }
    Ok(codes)
}

/// The compiled rules of the class of a number.
fn compile_class(
    alloc: Global,
    program: &Program,
    number: u32,
    class: &Class,
) -> Result<Rules, NoMemory>
    requires { IsClassOf program.now number class.now }
    ensures { IfOk result (AreRulesOf (rule_scope program.now number) class.now) }
{
    let classes = program.classes.as_slice();
    let known = Known {
        classes,
        own: number,
        outer: None,
        inner: None,
        in_rule: true,
        constants: &[],
    };
    let states = compile_states(alloc, &known, class.states.as_slice())?;
    let die = compile_rule(alloc, &known, &class.die)?;
    let spawn = compile_condition(alloc, &known, &class.spawn)?;
    let gifts = compile_gifts(alloc, &known, gifts_of(&class.spawn))?;
    Ok(Rules {
        states,
        die,
        spawn,
        gifts,
    })
}

/// The compiled rules of all classes.
pub fn compile_rules(alloc: Global, program: &Program) -> Result<List<Rules>, NoMemory>
    requires { LawfulProgram program.now }
    ensures { IfOk result (AreAllRulesOf program.now) }
{
    let mut all = List::new(alloc);
    let mut number = 0;
    for class in program.classes.as_slice() {
        let rules = compile_class(alloc, program, number, class)?;
        all.push(rules)?;
        number += 1;
    }
    Ok(all)
}
