ghost use Rattle.std.specs.Prelude.{◌≡◌, ◌≤◌, ◌^◌};
ghost use Rattle.brace_model.specs.World.{value_at};
ghost use Rattle.brace_model.specs.Value.{value};
ghost use Rattle.brace_model.specs.Scopes.{scope_of};

use crate::operations::{strict, total_read, unary};
use brace_draw::Drawer;
use brace_model::{BinOp, Env, Expr, Stop, Value, agent_of, value_at};

/// The value of an expression, or the first fault met from left to right: its site and its kind. It
/// takes no memory.
///
/// The tick is at most 2^32.
pub fn eval(e: &Expr, env: &Env, drawer: &mut Drawer) -> Result<Value, Stop>
    requires { env.now.tick ≤ 2 ^ 32 }
    ensures value { result ≡ value e.now (scope_of env.now drawer.old) }
    ensures seed { drawer.new.seed ≡ drawer.old.seed }
{
    match e {
        Expr::Lit(v) => Ok(*v),
        Expr::Field(who, place) => Ok(value_at(
            agent_of(env, drawer, *who).states.as_slice(),
            *place,
        )),
        Expr::Total(effect, ty, site) => {
            let total = env.totals.get(*effect as usize).copied().unwrap_or(0);
            total_read(*ty, *site, total)
        }
        Expr::Local(n) => Ok(value_at(env.locals, *n)),
        Expr::Unary(op, site, a) => {
            let a = eval(a.get(), env, drawer)?;
            unary(*op, *site, a)
        }
        Expr::Binary(op, site, a, b) => {
            let a = eval(a.get(), env, drawer)?;
            match (op, a) {
                (BinOp::And, Value::Flag(true)) => eval(b.get(), env, drawer),
                (BinOp::And, _) => Ok(Value::Flag(false)),
                (BinOp::Or, Value::Flag(true)) => Ok(Value::Flag(true)),
                (BinOp::Or, _) => eval(b.get(), env, drawer),
                _ => {
                    let b = eval(b.get(), env, drawer)?;
                    strict(*op, *site, a, b)
                }
            }
        }
        Expr::Choice(c, a, b) => match eval(c.get(), env, drawer)? {
            Value::Flag(true) => eval(a.get(), env, drawer),
            _ => eval(b.get(), env, drawer),
        },
        Expr::Rand(site) => Ok(Value::Fixed(drawer.draw(env.tick, env.this.id, *site))),
    }
}
