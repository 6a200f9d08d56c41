ghost use Rattle.std.specs.Prelude.{◌≡◌, ◌≤◌, ◌^◌, [], ◌∷◌, pos, ◌≤ℤ◌, IsTrue, IfOk, IfErr, OnOk, Ok, Err, Some};
ghost use Rattle.std.specs.Result.{result_ok};
ghost use Rattle.brace_model.specs.World.{class_of, no_value};
ghost use Rattle.brace_model.specs.Lawful.{is_lawful_agent};
ghost use Rattle.brace_model.specs.Query.{opening_scope};
ghost use Rattle.brace_model.specs.Typing.{Names};
ghost use Rattle.brace_model.specs.Typed.{Fits};
ghost use Rattle.brace_model.specs.Next.{holds, values_of, next_in};
ghost use Rattle.brace_model.specs.Scopes.{scope_of};
ghost use Rattle.brace_code.specs.Codes.{gives};
ghost use Rattle.brace_plan.specs.Ruling.{AreRulesOf, ruled_by, rules_by, gifts_by, stop_after, stops_after};
ghost use Rattle.brace_plan.specs.Leaving.{with_one, spawns_by, given_by, child_by};

use crate::desk::{Desk, is_true};
use crate::plans::Plans;
use crate::room::Room;
use crate::rules::{Rules, gifts_of};
use brace_code::Code;
use brace_model::{
    Agent, Class, Env, Fault, Left, Stop, Value, child_with, survivor, update_fault, with_stop,
};
use brace_num::NoMemory;
use std::alloc::Global;

/// Why an agent leaves nothing.
#[derive(Debug, Drop)]
pub enum LeaveFault {
    /// The fault of its update.
    Fault(Fault),
    NoMemory,
}

impl From<NoMemory> for LeaveFault {
    ghost use Rattle.brace_plan.specs.declared.leaving.LeaveFault.TheVariants as leave_fault;

    ghost from_gives = { λ _ fault. fault ≡ leave_fault.NoMemory };

    fn from(_: NoMemory) -> LeaveFault {
        LeaveFault::NoMemory
    }
}

/// The value of code, or None where it stops; the stop of the least site is kept.
fn worth(
    alloc: Global,
    code: &Code,
    env: &Env,
    desk: &mut Desk,
    met: &mut Option<Stop>,
) -> Result<Option<Value>, NoMemory>
    requires { env.now.tick ≤ 2 ^ 32 }
    ensures value { IfOk result (λ v. v
        ≡ result_ok (gives code.now (scope_of env.now desk.old.drawer))) }
    ensures met { OnOk result (met.new
        ≡ stop_after met.old (gives code.now (scope_of env.now desk.old.drawer))) }
    ensures seed { desk.new.drawer.seed ≡ desk.old.drawer.seed }
{
    match desk.eval(alloc, code, env)? {
        Ok(v) => Ok(Some(v)),
        Err(stop) => {
            *met = Some(with_stop(*met, stop));
            Ok(None)
        }
    }
}

/// The value of a rule, or None where it stops; without a rule a state keeps its value.
fn ruled(
    alloc: Global,
    rule: &Option<Code>,
    old: Value,
    env: &Env,
    desk: &mut Desk,
    met: &mut Option<Stop>,
) -> Result<Option<Value>, NoMemory>
    requires { env.now.tick ≤ 2 ^ 32 }
    ensures value { IfOk result (λ v. v
        ≡ result_ok (ruled_by (scope_of env.now desk.old.drawer) rule.now old)) }
    ensures met { OnOk result (met.new
        ≡ stop_after met.old (ruled_by (scope_of env.now desk.old.drawer) rule.now old)) }
    ensures seed { desk.new.drawer.seed ≡ desk.old.drawer.seed }
{
    match rule {
        None => Ok(Some(old)),
        Some(code) => worth(alloc, code, env, desk, met),
    }
}

/// Whether a condition holds; one that is not written never does.
fn is_held(
    alloc: Global,
    condition: &Option<Code>,
    env: &Env,
    desk: &mut Desk,
    met: &mut Option<Stop>,
) -> Result<bool, NoMemory>
    requires { env.now.tick ≤ 2 ^ 32 }
    ensures held { IfOk result (λ held. held
        ≡ holds (ruled_by (scope_of env.now desk.old.drawer) condition.now no_value)) }
    ensures met { OnOk result (met.new ≡ stop_after met.old
        (ruled_by (scope_of env.now desk.old.drawer) condition.now no_value)) }
    ensures seed { desk.new.drawer.seed ≡ desk.old.drawer.seed }
{
    match ruled(alloc, condition, Value::Flag(false), env, desk, met)? {
        Some(v) => Ok(is_true(v)),
        None => Ok(false),
    }
}

/// Adds a value, where there is one.
fn add(values: &mut Vec<Value>, v: Option<Value>) -> Result<(), NoMemory>
    ensures { OnOk result (values.new.items ≡ with_one values.old.items v) }
{
    if let Some(v) = v {
        values.push(v)?;
    }
    Ok(())
}

/// The values of the rules of states that do not stop.
fn ruled_states(
    alloc: Global,
    rules: &[Option<Code>],
    values: &[Value],
    env: &Env,
    desk: &mut Desk,
    met: &mut Option<Stop>,
) -> Result<Vec<Value>, NoMemory>
    requires { env.now.tick ≤ 2 ^ 32 }
    ensures ruled { IfOk result (λ new. new.items
        ≡ values_of (rules_by (scope_of env.now desk.old.drawer) rules.now values.now)) }
    ensures met { OnOk result (met.new ≡ stops_after met.old
        (rules_by (scope_of env.now desk.old.drawer) rules.now values.now)) }
    ensures seed { desk.new.drawer.seed ≡ desk.old.drawer.seed }
{
    let mut new = Vec::with_capacity(alloc, values.len())?;
    for (rule, old) in rules.iter().zip(values) {
        let v = ruled(alloc, rule, *old, env, desk, met)?;
        add(&mut new, v)?;
    }
    Ok(new)
}

/// The values of gifts that do not stop.
fn gifts(
    alloc: Global,
    gifts: &[Code],
    env: &Env,
    desk: &mut Desk,
    met: &mut Option<Stop>,
) -> Result<Vec<Value>, NoMemory>
    requires { env.now.tick ≤ 2 ^ 32 }
    ensures given { IfOk result (λ given. given.items
        ≡ values_of (gifts_by (scope_of env.now desk.old.drawer) gifts.now)) }
    ensures met { OnOk result (met.new
        ≡ stops_after met.old (gifts_by (scope_of env.now desk.old.drawer) gifts.now)) }
    ensures seed { desk.new.drawer.seed ≡ desk.old.drawer.seed }
{
    let mut given = Vec::with_capacity(alloc, gifts.len())?;
    for gift in gifts {
        let v = worth(alloc, gift, env, desk, met)?;
        add(&mut given, v)?;
    }
    Ok(given)
}

/// The child of an agent of a class, where it has one.
fn child(
    alloc: Global,
    class: &Class,
    rules: &Rules,
    a: &Agent,
    env: &Env,
    desk: &mut Desk,
    met: &mut Option<Stop>,
) -> Result<Option<Agent>, NoMemory>
    requires ticks { env.now.tick ≤ 2 ^ 32 }
    requires reach { pos 0 ≤ℤ class.now.reach }
    ensures child { IfOk result (λ child. child
        ≡ child_by (scope_of env.now desk.old.drawer) rules.now class.now a.now) }
    ensures met { OnOk result (met.new ≡ stops_after met.old
        (spawns_by (scope_of env.now desk.old.drawer) rules.now
        ∷ given_by (scope_of env.now desk.old.drawer) rules.now)) }
    ensures seed { desk.new.drawer.seed ≡ desk.old.drawer.seed }
{
    if !is_held(alloc, &rules.spawn, env, desk, met)? {
        return Ok(None);
    }
    let given = gifts(alloc, rules.gifts.as_slice(), env, desk, met)?;
    let child = child_with(alloc, class, a, gifts_of(&class.spawn), &given)?;
    Ok(Some(child))
}

/// What an agent of a class leaves by the class's rules, with its own totals, or the fault of its
/// update.
fn left_of_class<'a>(
    alloc: Global,
    class: &Class,
    rules: &Rules,
    tick: u64,
    a: &'a Agent,
    totals: &'a [i128],
    desk: &mut Desk,
) -> Result<Left, LeaveFault>
    requires ticks { tick ≤ 2 ^ 32 }
    requires reach { pos 0 ≤ℤ class.now.reach }
    requires rules { (names : Names)
        × Fits names (opening_scope desk.old.drawer.seed tick [] totals.now a.now)
        × AreRulesOf names class.now rules.now }
    ensures left { IfOk result (λ left.
        next_in desk.old.drawer.seed tick (Some class.now) totals.now a.now
        ≡ Ok (record { agent = left.agent; child = left.child })) }
    ensures fault { IfErr result (λ e. (fault : Fault) → e ≡ LeaveFault.Fault fault
        → next_in desk.old.drawer.seed tick (Some class.now) totals.now a.now ≡ Err fault) }
    ensures seed { desk.new.drawer.seed ≡ desk.old.drawer.seed }
{
    let env = Env {
        tick,
        this: a,
        outer: None,
        inner: None,
        locals: &[],
        totals,
    };
    let mut met = None;
    let states = a.states.as_slice();
    let new = ruled_states(alloc, rules.states.as_slice(), states, &env, desk, &mut met)?;
    let dies = is_held(alloc, &rules.die, &env, desk, &mut met)?;
    let child = child(alloc, class, rules, a, &env, desk, &mut met)?;
    match met {
        Some(stop) => Err(LeaveFault::Fault(update_fault(tick, a, stop))),
        None => Ok(Left {
            agent: survivor(dies, a, class, new),
            child,
        }),
    }
}

impl Plans {
    /// What an agent leaves in a tick, with its own totals, or the fault of its update.
    ///
    /// The agent is a lawful one of the program, and the tick is at most 2^32. `NoMemory` where
    /// memory is refused.
    pub fn left_by<'a>(
        &self,
        alloc: Global,
        tick: u64,
        a: &'a Agent,
        totals: &'a [i128],
        room: &mut Room,
    ) -> Result<Left, LeaveFault>
        requires ticks { tick ≤ 2 ^ 32 }
        requires lawful { IsTrue (is_lawful_agent self.now a.now) }
        ensures left { IfOk result (λ left.
            next_in room.old tick (class_of self.now a.now) totals.now a.now
            ≡ Ok (record { agent = left.agent; child = left.child })) }
        ensures fault { IfErr result (λ e. (fault : Fault) → e ≡ LeaveFault.Fault fault
            → next_in room.old tick (class_of self.now a.now) totals.now a.now ≡ Err fault) }
        ensures seed { room.new ≡ room.old }
    {
        let place = a.class as usize;
        let classes = self.program.classes.as_slice();
        let class = &classes[place];
        let all = self.rules.as_slice();
        let rules = &all[place];
        left_of_class(alloc, class, rules, tick, a, totals, &mut room.desk)
    }
}
