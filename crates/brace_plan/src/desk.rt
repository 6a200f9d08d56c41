ghost use Rattle.std.specs.Prelude.{◌≡◌, ◌≤◌, ◌^◌, ◌++◌, ℕ, List, IfOk, OnOk, slice_set, length};
ghost use Rattle.brace_model.specs.declared.program.Value.{Value};
ghost use Rattle.brace_model.specs.Scopes.{scope_of};
ghost use Rattle.brace_code.specs.Codes.{gives};
ghost use Rattle.brace_plan.specs.declared.desk.Former.{Former};
ghost use Rattle.brace_plan.specs.inner.Walks.{Sets, is_true};

use brace_code::{Code, Stack};
use brace_draw::Drawer;
use brace_model::{Env, Stop, Value};
use brace_num::NoMemory;
use std::alloc::Global;

/// A constant that was set, and its value before.
#[derive(Clone, Copy, Drop)]
pub struct Former {
    pub place: usize,
    pub before: Value,
}

/// What a walk over a query needs beside the constants' values.
#[derive(Drop)]
pub struct Desk {
    pub drawer: Drawer,
    pub stack: Stack,
    /// The constants that were set, by block.
    pub trail: Vec<Former>,
    /// Lists of places that no loop uses now.
    pub spare: Vec<Vec<u32>>,
}

/// Whether a value is the flag `true`.
pub fn is_true(v: Value) -> bool
    ensures { result ≡ is_true v }
{
    match v {
        Value::Flag(b) => b,
        _ => false,
    }
}

/// Sets a constant, and notes what it was.
pub fn set(locals: &mut [Value], trail: &mut Vec<Former>, n: u32, v: Value) -> Result<(), NoMemory>
    ensures set { IfOk result (λ _. locals.new ≡ slice_set locals.old n v) }
    ensures noted { IfOk result (λ _. Sets trail.old.items trail.new.items locals.old locals.new) }
{
    let place = n as usize;
    if place < locals.len() {
        trail.push(Former {
            place,
            before: locals[place],
        })?;
        locals[place] = v;
    }
    Ok(())
}

/// Sets back the constants that were set since a trail was so long.
pub fn set_back(locals: &mut [Value], trail: &mut Vec<Former>, mark: usize)
    ensures { (before : List Former) (old : List Value)
        → length before ≡ mark → Sets before trail.old.items old locals.old
        → (trail.new.items ≡ before) × (locals.new ≡ old) }
{
    while trail.len() > mark {
        let Some(former) = trail.pop() else {
            return;
        };
        if former.place < locals.len() {
            locals[former.place] = former.before;
        }
    }
}

impl Desk {
    /// What code gives.
    #[inline(always)]
    pub fn eval(
        &mut self,
        alloc: Global,
        code: &Code,
        env: &Env,
    ) -> Result<Result<Value, Stop>, NoMemory>
        requires { env.now.tick ≤ 2 ^ 32 }
        ensures value { IfOk result (λ worth. worth
            ≡ gives code.now (scope_of env.now self.old.drawer)) }
        ensures trail { self.new.trail ≡ self.old.trail }
        ensures seed { self.new.drawer.seed ≡ self.old.drawer.seed }
    {
        if self.stack.room() < code.depth() {
            self.stack = Stack::make(alloc, code.depth())?;
        }
        Ok(code.eval(env, &mut self.drawer, &mut self.stack))
    }
}
