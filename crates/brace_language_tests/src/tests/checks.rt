// What no clause says: the answers of scripts worked by hand.
use crate::tests::scripts::{marked, tree};
use brace_check::check;
use brace_names::{Resolved, resolve};
use std::alloc::{AllocError, Global};

// The texts of a fault's kind, and marked scripts that have it at the mark.
const REFUSED: [(&str, &str); 79] = [
    ("OtherAgentInUpdate", "class A{$public state int n:@q.n;}"),
    (
        "OtherAgentInUpdate",
        "class A{$public state int m:@q.b;public state int n:q.a;}",
    ),
    (
        "OtherAgentInUpdate",
        "class A{$public state int n:1+@q.a+q.b;}",
    ),
    ("OtherAgentInUpdate", "class A{$die when 0<1?@q.b:true;}"),
    ("OtherAgentInUpdate", "class A{$spawn when @q.b{}}"),
    ("OtherAgentInUpdate", "class A{$spawn when true{x<-@q.b;}}"),
    (
        "OtherAgentInUpdate",
        "class A{$public effect int e:sum;public void run(){e<-e;}public state int n:@q.n;}",
    ),
    (
        "ReadsEffectInQuery",
        "class A{$public effect int e:sum;public void run(){e<-@e;}}",
    ),
    (
        "ReadsEffectInQuery",
        "class A{$public effect int e:sum;public void run(){if(0<@this.e){}}}",
    ),
    (
        "ReadsEffectInQuery",
        "class A{$public effect int e:sum;public void run(){foreach(A q:Extent<A>){e<-1+@q.e;}}}",
    ),
    (
        "ReadsEffectInQuery",
        "class A{$public effect int e:sum;public void run(){const int k=0<1?@e:this.e;}}",
    ),
    (
        "ReadsEffectInQuery",
        "class A{$public effect int e:sum;public void run(){x<-@e;}}",
    ),
    ("AssignsState", "class A{$public void run(){@x<-1.0;}}"),
    ("AssignsState", "class A{$public void run(){@this.x<-1.0;}}"),
    (
        "AssignsState",
        "class A{$public void run(){foreach(A q:Extent<A>){@q.x<-1.0;}}}",
    ),
    (
        "AssignsState",
        "class A{$public void run(){if(true){@x<-1.0;}else{y<-1.0;}}}",
    ),
    (
        "AssignsState",
        "class A{$public effect int e:sum;spawn when true{e<-1;}public void run(){@x<-1.0;}}",
    ),
    (
        "AssignsEffect",
        "class A{$public effect int e:sum;spawn when true{x<-1.0;@e<-1;}}",
    ),
    (
        "AssignsEffect",
        "class A{$public effect int e:sum;public effect int f:sum;spawn when true{@f<-1;e<-1;}}",
    ),
    (
        "AssignsEffect",
        "class A{$public void run(){foreach(B q:Extent<B>){q.e<-1;}}}class B{$private effect int \
         e:sum;spawn when true{@e<-1;}}",
    ),
    (
        "PrivateOfOtherClass",
        "class A{$public void run(){foreach(B q:Extent<B>){const int k=@q.n;}}}class B{$private \
         state int n;}",
    ),
    (
        "PrivateOfOtherClass",
        "class A{$public void run(){foreach(B q:Extent<B>){@q.e<-1;}}}class B{$private effect int \
         e:sum;}",
    ),
    (
        "PrivateOfOtherClass",
        "class A{$public void run(){foreach(A p:Extent<A>){foreach(B q:Extent<B>){if(p.n<@q.n){}}}}\
         private state int n;}class B{$private state int n;}",
    ),
    (
        "PrivateOfOtherClass",
        "class A{$public void run(){foreach(A p:Extent<A>){foreach(A q:Extent<A>){foreach(B \
         r:Extent<B>){const int k=@r.n;}}}}}class B{$private state int n;}",
    ),
    (
        "PrivateOfOtherClass",
        "class A{$public void run(){foreach(B q:Extent<B>){const int k=@q.n+q.n;}}}class B{\
         $private state int n;}",
    ),
    (
        "NestedTooDeep",
        "class A{$public void run(){foreach(A p:Extent<A>){foreach(A q:Extent<A>){@foreach(A \
         r:Extent<A>){foreach(A s:Extent<A>){}}}}}}",
    ),
    (
        "NestedTooDeep",
        "class A{$public void run(){foreach(A p:Extent<A>){if(true){foreach(A q:Extent<A>){\
         if(true){}else{@foreach(A r:Extent<A>){}}}}}}}",
    ),
    (
        "NestedTooDeep",
        "class A{#visible[1000001];$public void run(){foreach(A p:Extent<A>){foreach(A \
         q:Extent<A>){@foreach(A r:Extent<A>){}}}}}",
    ),
    ("BadRange", "class A{$#visible[@1000001];}"),
    ("BadRange", "class A{$#reach[@1000000.000001];}"),
    ("BadRange", "class A{$#visible[@9223372036854775807];}"),
    (
        "BadRange",
        "class A{#visible[1000000];#reach[@1000001];$}class B{$#reach[1000001];}",
    ),
    (
        "BadRange",
        "class A{public effect bool e:sum;$#visible[@1000001];}",
    ),
    ("WrongCombinator", "class A{$public effect bool @e:sum;}"),
    ("WrongCombinator", "class A{$public effect bool @e:min;}"),
    ("WrongCombinator", "class A{$public effect bool @e:max;}"),
    ("WrongCombinator", "class A{$public effect fixed @e:count;}"),
    ("WrongCombinator", "class A{$public effect bool @e:count;}"),
    ("WrongCombinator", "class A{$public effect int @e:or;}"),
    (
        "WrongCombinator",
        "class A{$private effect fixed @e:or;public effect int f:or;}",
    ),
    (
        "WrongCombinator",
        "class A{$public state int n:true;public effect bool @e:sum;}",
    ),
    ("WrongType", "class A{$public state int n:1@+1.0;}"),
    ("WrongType", "class A{$public state bool n:true@+true;}"),
    ("WrongType", "class A{$public state fixed n:1.0@%1.0;}"),
    ("WrongType", "class A{$public state bool n:@-true;}"),
    ("WrongType", "class A{$public state bool n:@!1;}"),
    ("WrongType", "class A{$public state bool n:@abs(true);}"),
    ("WrongType", "class A{$public state fixed n:@sqrt(1);}"),
    ("WrongType", "class A{$public state fixed n:@fixed(1.0);}"),
    ("WrongType", "class A{$public state int n:@trunc(1);}"),
    ("WrongType", "class A{$public state int n:@min(1,1.0);}"),
    (
        "WrongType",
        "class A{$public state bool n:@max(true,true);}",
    ),
    ("WrongType", "class A{$public state bool n:1@<1.0;}"),
    ("WrongType", "class A{$public state bool n:true@<=true;}"),
    ("WrongType", "class A{$public state bool n:1@==1.0;}"),
    ("WrongType", "class A{$public state bool n:1@&&true;}"),
    ("WrongType", "class A{$public state bool n:true@||1;}"),
    ("WrongType", "class A{$public state int n:1@?2:3;}"),
    ("WrongType", "class A{$public state int n:true@?1:1.0;}"),
    ("WrongType", "class A{$public state int n:@true;}"),
    (
        "WrongType",
        "class A{public state fixed x:@1;public state fixed y;}",
    ),
    (
        "WrongType",
        "class A{$public void run(){const int k=@1.0;}}",
    ),
    ("WrongType", "class A{$public void run(){if(@1){}}}"),
    ("WrongType", "class A{$public void run(){if(1@+1){}}}"),
    (
        "WrongType",
        "class A{$public effect int e:sum;public void run(){e<-@1.0;}}",
    ),
    (
        "WrongType",
        "class A{$public effect int e:max;public void run(){this.e<-0.5@+1.0;}}",
    ),
    (
        "WrongType",
        "class A{$public void run(){foreach(B q:Extent<B>){q.e<-@q.x;}}}class B{$public effect int \
         e:min;}",
    ),
    (
        "WrongType",
        "class A{$public effect int e:count;public void run(){e<-true@+true;}}",
    ),
    ("WrongType", "class A{$die when @1;}"),
    ("WrongType", "class A{$spawn when @x{}}"),
    ("WrongType", "class A{$spawn when true{x<-1.0;y<-@1;}}"),
    (
        "WrongType",
        "class A{$public void run(){const int a=1;const bool b=true;const int c=@b;}}",
    ),
    (
        "WrongType",
        "class A{$public void run(){if(true){const int a=1;}const bool b=true;const int c=@b;}}",
    ),
    ("WrongType", "class A{$public state fixed n:1.0+(1@+true);}"),
    ("WrongType", "class A{$public state int n:1?2:(1@+true);}"),
    ("WrongType", "class A{$public state bool n:-(1@+true);}"),
    (
        "WrongType",
        "class A{$public state int n:(1@+true)+(1+true);}",
    ),
    (
        "WrongType",
        "class A{$public state int n:@true;public state int m:true;}",
    ),
    (
        "WrongType",
        "class A{$public effect int e:sum;public void run(){foreach(A q:Extent<A>){e<-@true;}\
         e<-true;}}",
    ),
];

fn resolved(alloc: Global, text: &str) -> Option<Resolved> {
    resolve(alloc, tree(alloc, text.as_bytes()).ok()?).ok()
}

// The answer as text: the program or the fault.
fn answer(alloc: Global, text: &str) -> Result<String, AllocError> {
    match resolved(alloc, text) {
        None => format!(in alloc; "unresolved"),
        Some(r) => match check(alloc, r) {
            Ok(program) => format!(in alloc; "{program:?}"),
            Err(fault) => format!(in alloc; "{fault:?}"),
        },
    }
}

#[test]
fn refuses_at_the_mark(rt: HostRuntime) -> Result<(), AllocError> {
    for &(kind, script) in &REFUSED {
        let marked = marked(rt.alloc(), script)?;
        let want = format!(in rt.alloc(); "{kind}({})", marked.at)?;
        let got = answer(rt.alloc(), marked.text.as_str())?;
        assert_eq!(rt; got.as_str(), want.as_str(), "{script}");
    }
    Ok(())
}

// Scripts whose every site is marked by `@`, and the programs that they stand for.
const GIVEN: [(&str, &str); 4] = [
    (
        "class P{#reach[2.0];public state fixed x:x@+1.5;public state fixed y;}",
        "Program { classes: List { items: [Class { name: Text { string: \"P\" }, visible: 0, \
         reach: 2000000, x: 0, y: 1, states: List { items: [State { name: Text { string: \"x\" }, \
         ty: Fixed, shared: true, rule: Some(Binary(Add, Some(0), Boxed { inner: Field(This, 0) }, \
         Boxed { inner: Lit(Fixed(1500000)) })) }, State { name: Text { string: \"y\" }, ty: \
         Fixed, shared: true, rule: None }] }, effects: List { items: [] }, query: List { items: \
         [] }, die: None, spawn: None }] }, sites: List { items: [42] } }",
    ),
    (
        "class A{$public state int n:@-(n@+1)@*2;public state int m:0<1?@abs(n):n@%2;public effect \
         int e:sum;public effect int f:max;public state int k:@e@-f;die when 1@/n>0;@spawn when \
         n==0{x<-x@+5.0;n<-7;}}",
        "Program { classes: List { items: [Class { name: Text { string: \"A\" }, visible: 0, \
         reach: 0, x: 0, y: 1, states: List { items: [State { name: Text { string: \"x\" }, ty: \
         Fixed, shared: true, rule: None }, State { name: Text { string: \"y\" }, ty: Fixed, \
         shared: true, rule: None }, State { name: Text { string: \"n\" }, ty: Int, shared: true, \
         rule: Some(Binary(Mul, Some(2), Boxed { inner: Unary(Neg, Some(1), Boxed { inner: \
         Binary(Add, Some(0), Boxed { inner: Field(This, 2) }, Boxed { inner: Lit(Int(1)) }) }) }, \
         Boxed { inner: Lit(Int(2)) })) }, State { name: Text { string: \"m\" }, ty: Int, shared: \
         true, rule: Some(Choice(Boxed { inner: Binary(Lt, None, Boxed { inner: Lit(Int(0)) }, \
         Boxed { inner: Lit(Int(1)) }) }, Boxed { inner: Unary(Abs, Some(3), Boxed { inner: \
         Field(This, 2) }) }, Boxed { inner: Binary(Rem, Some(4), Boxed { inner: Field(This, 2) }, \
         Boxed { inner: Lit(Int(2)) }) })) }, State { name: Text { string: \"k\" }, ty: Int, \
         shared: true, rule: Some(Binary(Sub, Some(6), Boxed { inner: Total(0, Int, Some(5)) }, \
         Boxed { inner: Total(1, Int, None) })) }] }, effects: List { items: [Effect { name: Text \
         { string: \"e\" }, ty: Int, shared: true, comb: Sum }, Effect { name: Text { \
         string: \"f\" }, ty: Int, shared: true, comb: Max }] }, query: List { items: [] }, die: \
         Some(Binary(Gt, None, Boxed { inner: Binary(Div, Some(7), Boxed { inner: Lit(Int(1)) }, \
         Boxed { inner: Field(This, 2) }) }, Boxed { inner: Lit(Int(0)) })), spawn: Some(Spawn { \
         when: Binary(Eq, None, Boxed { inner: Field(This, 2) }, Boxed { inner: Lit(Int(0)) }), \
         gifts: List { items: [Gift { state: 0, value: Binary(Add, Some(8), Boxed { inner: \
         Field(This, 0) }, Boxed { inner: Lit(Fixed(5000000)) }) }, Gift { state: 2, value: \
         Lit(Int(7)) }] }, site: 9 }) }] }, sites: List { items: [72, 69, 75, 101, 109, 179, 180, \
         193, 218, 198] } }",
    ),
    (
        "class A{#visible[3];private state int n:n@+1;public void run(){const int a=n;if(true){\
         const fixed b=@rand();}else{this.c<-a;}foreach(B p:Extent<B>){const bool d=p.w<0.5;\
         foreach(A q:Extent<A>){q.c<-q.n@-this.n;p.s<-d;}c<-trunc(p.x);}}$private effect int \
         c:count;}class B{public effect bool s:or;$#reach[0.25];public state fixed \
         w:@sqrt(w)@*min(w,2.0);}",
        "Program { classes: List { items: [Class { name: Text { string: \"A\" }, visible: 3000000, \
         reach: 0, x: 1, y: 2, states: List { items: [State { name: Text { string: \"n\" }, ty: \
         Int, shared: false, rule: Some(Binary(Add, Some(0), Boxed { inner: Field(This, 0) }, \
         Boxed { inner: Lit(Int(1)) })) }, State { name: Text { string: \"x\" }, ty: Fixed, \
         shared: true, rule: None }, State { name: Text { string: \"y\" }, ty: Fixed, shared: \
         true, rule: None }] }, effects: List { items: [Effect { name: Text { string: \"c\" }, ty: \
         Int, shared: false, comb: Count }] }, query: List { items: [Const(0, Field(This, 0)), \
         If(Lit(Flag(true)), List { items: [Const(1, Rand(1))] }, List { items: [Assign(This, 0, \
         Local(0), 112)] }), Foreach(1, List { items: [Const(2, Binary(Lt, None, Boxed { inner: \
         Field(Outer, 2) }, Boxed { inner: Lit(Fixed(500000)) })), Foreach(0, List { items: \
         [Assign(Inner, 0, Binary(Sub, Some(2), Boxed { inner: Field(Inner, 0) }, Boxed { inner: \
         Field(This, 0) }), 190), Assign(Outer, 0, Local(2), 206)] }, 167), Assign(This, 0, \
         Unary(Trunc, None, Boxed { inner: Field(Outer, 0) }), 214)] }, 123)] }, die: None, spawn: \
         None }, Class { name: Text { string: \"B\" }, visible: 0, reach: 250000, x: 0, y: 1, \
         states: List { items: [State { name: Text { string: \"x\" }, ty: Fixed, shared: true, \
         rule: None }, State { name: Text { string: \"y\" }, ty: Fixed, shared: true, rule: None \
         }, State { name: Text { string: \"w\" }, ty: Fixed, shared: true, rule: Some(Binary(Mul, \
         Some(4), Boxed { inner: Unary(Sqrt, Some(3), Boxed { inner: Field(This, 2) }) }, Boxed { \
         inner: Binary(Min, None, Boxed { inner: Field(This, 2) }, Boxed { inner: \
         Lit(Fixed(2000000)) }) })) }] }, effects: List { items: [Effect { name: Text { \
         string: \"s\" }, ty: Bool, shared: true, comb: Or }] }, query: List { items: [] }, die: \
         None, spawn: None }] }, sites: List { items: [41, 99, 198, 408, 415] } }",
    ),
    (
        "class A{$#visible[1000000];#reach[1000000.0];die when false;}",
        "Program { classes: List { items: [Class { name: Text { string: \"A\" }, visible: \
         1000000000000, reach: 1000000000000, x: 0, y: 1, states: List { items: [State { name: \
         Text { string: \"x\" }, ty: Fixed, shared: true, rule: None }, State { name: Text { \
         string: \"y\" }, ty: Fixed, shared: true, rule: None }] }, effects: List { items: [] }, \
         query: List { items: [] }, die: Some(Lit(Flag(false))), spawn: None }] }, sites: List { \
         items: [] } }",
    ),
];

#[test]
fn gives_programs(rt: HostRuntime) -> Result<(), AllocError> {
    for &(script, want) in &GIVEN {
        let marked = marked(rt.alloc(), script)?;
        let got = answer(rt.alloc(), marked.text.as_str())?;
        assert_eq!(rt; got.as_str(), want, "{script}");
    }
    Ok(())
}
