// What is left of queries in the forward and in the inverse program, and how far agents look.
ghost use Rattle.brace_model.specs.Lawful.{LawfulProgram};

use brace_invert::{range, split};
use brace_model::Program;
use brace_num::NoMemory;
use brace_test_runs::program;
use std::alloc::Global;
use std::test::Fail;

/// A script, the queries of its forward and inverse program, and its range without inversion and
/// with it.
type Case<'a> = (&'a str, &'a str, &'a str, (i64, i64));

const CASES: [Case; 3] = [
    // Says 1 to each agent in sight.
    (
        "class A{#visible[2];public state fixed x;public state fixed y;public state int a;public \
         effect int e:count;public void run(){foreach(A p:Extent<A>){p.e<-true;}}}",
        "List { items: [Foreach(0, List { items: [] }, 125)] }",
        "List { items: [Foreach(0, List { items: [Assign(Outer, 0, Lit(Flag(true)), 148)] }, 125)] \
         }",
        (2_000_000, 2_000_000),
    ),
    // Says 1 to each agent in sight, once for each agent in sight.
    (
        "class A{#visible[3];public state fixed x;public state fixed y;public state int a;public \
         effect int e:count;public void run(){foreach(A p:Extent<A>){foreach(A q:Extent<A>){\
         p.e<-true;}}}}",
        "List { items: [Foreach(0, List { items: [Foreach(0, List { items: [] }, 148)] }, 125)] }",
        "List { items: [Foreach(0, List { items: [Foreach(0, List { items: [Assign(Outer, 0, \
         Lit(Flag(true)), 171)] }, 148)] }, 125)] }",
        (3_000_000, 6_000_000),
    ),
    // The constant of an inner loop is said to `this`; behind that loop one of the outer loop is
    // said to its agent where it is less than 8, else to `this`.
    (
        "class A{#visible[3];public state fixed x;public state fixed y;public state int a;public \
         effect int e:sum;public void run(){foreach(A p:Extent<A>){foreach(A q:Extent<A>){const \
         int k=q.a;e<-k;}const int m=p.a;if(m<8){p.e<-m;}else{e<-m;}}}}",
        "List { items: [Foreach(0, List { items: [Foreach(0, List { items: [Const(0, Field(Inner, \
         2)), Assign(This, 0, Local(0), 185)] }, 146), Const(1, Field(Outer, 2)), If(Binary(Lt, \
         None, Boxed { inner: Local(1) }, Boxed { inner: Lit(Int(8)) }), List { items: [] }, List \
         { items: [Assign(This, 0, Local(1), 228)] })] }, 123)] }",
        "List { items: [Foreach(0, List { items: [If(Lit(Flag(false)), List { items: [Const(0, \
         Lit(Flag(false)))] }, List { items: [] }), Const(1, Field(Outer, 2)), If(Binary(Lt, None, \
         Boxed { inner: Local(1) }, Boxed { inner: Lit(Int(8)) }), List { items: [Assign(Outer, 0, \
         Local(1), 215)] }, List { items: [] })] }, 123)] }",
        (3_000_000, 3_000_000),
    ),
];

fn query_of(alloc: Global, program: &Program) -> Result<String, NoMemory> {
    let mut text = String::new(alloc);
    for class in program.classes.as_slice() {
        text.push_str(format!(in alloc; "{:?}", class.query)?.as_str())?;
    }
    Ok(text)
}

fn queries(alloc: Global, program: &Program) -> Result<(String, String), NoMemory>
    requires { LawfulProgram program.now }
{
    let (forward, inverse) = split(alloc, program)?;
    Ok((
        query_of(alloc, &forward.program)?,
        query_of(alloc, &inverse.program)?,
    ))
}

#[test]
fn splits_loops_constants_and_conditions(rt: HostRuntime) -> Result<(), Fail> {
    for &(script, forward, inverse, ranges) in &CASES {
        let program = program(rt.alloc(), script)?;
        let (one, other) = queries(rt.alloc(), &program)?;
        let queries_are = one.as_str() == forward && other.as_str() == inverse;
        let found = (range(&program, false), range(&program, true));
        assert!(rt; queries_are && found == ranges, "{one}\n{other}\n{found:?}");
    }
    Ok(())
}
