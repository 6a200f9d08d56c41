ghost use Rattle.std.specs.Prelude.{◌≡◌, option_map};
ghost use Rattle.brace_model.specs.Next.{has_births};
ghost use Rattle.brace_model.specs.World.{number, value_at, class_of, x_of, y_of, is_within, sees};

use crate::{Agent, Class, Program, Value};

/// The whole number of a value: millionths of a fixed one, 0 or 1 of a flag. It takes no memory.
pub fn number(value: Value) -> i64
    ensures { result ≡ number value }
{
    match value {
        Value::Int(n) | Value::Fixed(n) => n,
        Value::Flag(true) => 1,
        Value::Flag(false) => 0,
    }
}

/// The value at a place of an agent's states or of constants; `false` where there is none. It takes
/// no memory.
pub fn value_at(values: &[Value], place: u32) -> Value
    ensures { result ≡ value_at values.now place }
{
    values
        .get(place as usize)
        .copied()
        .unwrap_or(Value::Flag(false))
}

/// The class of an agent, or None where the program has no class of its number. It takes no memory.
pub fn class_of<'a>(program: &'a Program, a: &Agent) -> Option<&'a Class>
    ensures { option_map (λ c. c.now) result ≡ class_of program.now a.now }
{
    program.classes.as_slice().get(a.class as usize)
}

/// Whether a class of a program has a `spawn`. It takes no memory.
pub fn has_births(program: &Program) -> bool
    ensures { result ≡ has_births program.now }
{
    program
        .classes
        .as_slice()
        .iter()
        .any(|class| class.spawn.is_some())
}

/// Where an agent of a class stands along x, in millionths. It takes no memory.
pub fn x_of(class: &Class, a: &Agent) -> i64
    ensures { result ≡ x_of class.now a.now }
{
    number(value_at(a.states.as_slice(), class.x))
}

/// Where an agent of a class stands along y, in millionths. It takes no memory.
pub fn y_of(class: &Class, a: &Agent) -> i64
    ensures { result ≡ y_of class.now a.now }
{
    number(value_at(a.states.as_slice(), class.y))
}

/// Whether two numbers are at most so far apart. The difference is exact.
fn is_within(range: i64, p: i64, q: i64) -> bool
    ensures { result ≡ is_within range p q }
{
    i128::from(p.abs_diff(q)) <= i128::from(range)
}

/// Whether agent a sees agent b: they are two, and b is within the visible range of a's class along
/// both axes. An agent without a class of the program sees none and is seen by none. It takes no
/// memory.
pub fn sees(program: &Program, a: &Agent, b: &Agent) -> bool
    ensures { result ≡ sees program.now a.now b.now }
{
    let (Some(class), Some(other)) = (class_of(program, a), class_of(program, b)) else {
        return false;
    };
    a.id != b.id
        && is_within(class.visible, x_of(class, a), x_of(other, b))
        && is_within(class.visible, y_of(class, a), y_of(other, b))
}
