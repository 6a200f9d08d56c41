// What no clause says: the trees of scripts worked by hand, the places of faults, and how deep a
// script may nest.
use crate::tests::scripts::tree;
use brace_syntax::{MemberTree, SynFault};
use std::alloc::{AllocError, Global};

const SENDS: &str =
    "class P{#reach[2.0];public state fixed x:x+1.5;private effect int e:sum;public void run(){\
     foreach(P q:Extent<P>){q.e<-1;}}}";

const SENDS_TREE: &str =
    "Tree { classes: List { items: [ClassTree { name: Ident { text: Text { string: \"P\" }, at: 6 \
     }, members: List { items: [Reach(Number { digits: Fixed(2000000), at: 15 }, 8), State(true, \
     Fixed, Ident { text: Text { string: \"x\" }, at: 39 }, Some(Boxed { inner: Binary(Add, Boxed \
     { inner: Name(Ident { text: Text { string: \"x\" }, at: 41 }) }, Boxed { inner: Lit(Number { \
     digits: Fixed(1500000), at: 43 }) }, 42) }), 20), Effect(false, Int, Ident { text: Text { \
     string: \"e\" }, at: 66 }, Sum, 47), Run(List { items: [Foreach(Ident { text: Text { string: \
     \"P\" }, at: 98 }, Ident { text: Text { string: \"q\" }, at: 100 }, Ident { text: Text { \
     string: \"P\" }, at: 109 }, List { items: [AssignLoop(Ident { text: Text { string: \"q\" }, \
     at: 113 }, Ident { text: Text { string: \"e\" }, at: 115 }, Boxed { inner: Lit(Number { \
     digits: Int(1), at: 118 }) })] }, 90)] }, 72)] }, at: 0 }] } }";

const CHOOSES: &str =
    "class P{#visible[3];public state bool b;public void run(){const Q k=this.b;if(k){b<-abs(1);}\
     else{}if(q.b){this.b<-2;}}}class Q{}";

const CHOOSES_TREE: &str =
    "Tree { classes: List { items: [ClassTree { name: Ident { text: Text { string: \"P\" }, at: 6 \
     }, members: List { items: [Visible(Number { digits: Int(3), at: 17 }, 8), State(true, Bool, \
     Ident { text: Text { string: \"b\" }, at: 38 }, None, 20), Run(List { items: \
     [Const(Other(Ident { text: Text { string: \"Q\" }, at: 64 }), Ident { text: Text { string: \
     \"k\" }, at: 66 }, Boxed { inner: OfThis(Ident { text: Text { string: \"b\" }, at: 73 }, 68) \
     }, 58), If(Boxed { inner: Name(Ident { text: Text { string: \"k\" }, at: 78 }) }, List { \
     items: [Assign(Ident { text: Text { string: \"b\" }, at: 81 }, Boxed { inner: Unary(Abs, \
     Boxed { inner: Lit(Number { digits: Int(1), at: 88 }) }, 84) })] }, Some(List { items: [] \
     }), 75), If(Boxed { inner: OfLoop(Ident { text: Text { string: \"q\" }, at: 101 }, Ident { \
     text: Text { string: \"b\" }, at: 103 }) }, List { items: [AssignThis(Ident { text: Text { \
     string: \"b\" }, at: 111 }, Boxed { inner: Lit(Number { digits: Int(2), at: 114 }) }, 106)] \
     }, None, 98)] }, 40)] }, at: 0 }, ClassTree { name: Ident { text: Text { string: \"Q\" }, \
     at: 125 }, members: List { items: [] }, at: 119 }] } }";

const ENDS: &str =
    "class C{die when n>=2;public state int n;spawn when n==0{}}class D{spawn when true{x<-x+5.0;\
     b<-n>1?true:false;}}";

const ENDS_TREE: &str =
    "Tree { classes: List { items: [ClassTree { name: Ident { text: Text { string: \"C\" }, at: 6 \
     }, members: List { items: [Die(Boxed { inner: Binary(Ge, Boxed { inner: Name(Ident { text: \
     Text { string: \"n\" }, at: 17 }) }, Boxed { inner: Lit(Number { digits: Int(2), at: 20 }) \
     }, 18) }, 8), State(true, Int, Ident { text: Text { string: \"n\" }, at: 39 }, None, 22), \
     Spawn(Boxed { inner: Binary(Eq, Boxed { inner: Name(Ident { text: Text { string: \"n\" }, \
     at: 52 }) }, Boxed { inner: Lit(Number { digits: Int(0), at: 55 }) }, 53) }, List { items: \
     [] }, 41)] }, at: 0 }, ClassTree { name: Ident { text: Text { string: \"D\" }, at: 65 }, \
     members: List { items: [Spawn(Boxed { inner: True(78) }, List { items: [GiftTree { state: \
     Ident { text: Text { string: \"x\" }, at: 83 }, value: Boxed { inner: Binary(Add, Boxed { \
     inner: Name(Ident { text: Text { string: \"x\" }, at: 86 }) }, Boxed { inner: Lit(Number { \
     digits: Fixed(5000000), at: 88 }) }, 87) } }, GiftTree { state: Ident { text: Text { string: \
     \"b\" }, at: 92 }, value: Boxed { inner: Choice(Boxed { inner: Binary(Gt, Boxed { inner: \
     Name(Ident { text: Text { string: \"n\" }, at: 95 }) }, Boxed { inner: Lit(Number { digits: \
     Int(1), at: 97 }) }, 96) }, Boxed { inner: True(99) }, Boxed { inner: False(104) }, 98) } }] \
     }, 67)] }, at: 59 }] } }";

// The answer as text: the tree or the fault.
fn answer(alloc: Global, text: &str) -> Result<String, AllocError> {
    match tree(alloc, text.as_bytes()) {
        Ok(tree) => format!(in alloc; "{tree:?}"),
        Err(fault) => format!(in alloc; "{fault:?}"),
    }
}

// The text of the rule of the one member of a class.
fn rule_of(alloc: Global, text: &str) -> Result<String, AllocError> {
    if let Ok(tree) = tree(alloc, text.as_bytes())
        && let [class] = tree.classes.as_slice()
        && let [MemberTree::State(_, _, _, Some(rule), _)] = class.members.as_slice()
    {
        format!(in alloc; "{:?}", rule.get())
    } else {
        Ok(String::new(alloc))
    }
}

// A class whose one rule is the expression, which begins at offset 28.
fn ruled(alloc: Global, expression: &str) -> Result<String, AllocError> {
    let mut text = String::new(alloc);
    text.push_str("class C{private state int n:")?;
    text.push_str(expression)?;
    text.push_str(";}")?;
    Ok(text)
}

const SCRIPTS: [(&str, &str); 3] = [
    (SENDS, SENDS_TREE),
    (CHOOSES, CHOOSES_TREE),
    (ENDS, ENDS_TREE),
];

#[test]
fn reads_scripts(rt: HostRuntime) -> Result<(), AllocError> {
    for &(text, want) in &SCRIPTS {
        assert_eq!(rt; answer(rt.alloc(), text)?.as_str(), want);
    }
    Ok(())
}

// Expressions and their trees.
const GROUPED: [(&str, &str); 5] = [
    (
        "1-2-3",
        "Binary(Sub, Boxed { inner: Binary(Sub, Boxed { inner: Lit(Number { digits: Int(1), \
         at: 28 }) }, Boxed { inner: Lit(Number { digits: Int(2), at: 30 }) }, 29) }, Boxed { \
         inner: Lit(Number { digits: Int(3), at: 32 }) }, 31)",
    ),
    (
        "rand()?true:false?true:false",
        "Choice(Boxed { inner: Rand(28) }, Boxed { inner: True(35) }, Boxed { inner: \
         Choice(Boxed { inner: False(40) }, Boxed { inner: True(46) }, Boxed { inner: \
         False(51) }, 45) }, 34)",
    ),
    (
        "--!true",
        "Unary(Neg, Boxed { inner: Unary(Neg, Boxed { inner: Unary(Not, Boxed { inner: \
         True(31) }, 30) }, 29) }, 28)",
    ),
    (
        "true||false&&(true)*-false",
        "Binary(Or, Boxed { inner: True(28) }, Boxed { inner: Binary(And, Boxed { inner: \
         False(34) }, Boxed { inner: Binary(Mul, Boxed { inner: True(42) }, Boxed { inner: \
         Unary(Neg, Boxed { inner: False(49) }, 48) }, 47) }, 39) }, 32)",
    ),
    (
        "true<max(true,false)+sqrt(false)",
        "Binary(Lt, Boxed { inner: True(28) }, Boxed { inner: Binary(Add, Boxed { inner: \
         Binary(Max, Boxed { inner: True(37) }, Boxed { inner: False(42) }, 33) }, Boxed { \
         inner: Unary(Sqrt, Boxed { inner: False(54) }, 49) }, 48) }, 32)",
    ),
];

#[test]
fn groups_operations(rt: HostRuntime) -> Result<(), AllocError> {
    for &(expression, want) in &GROUPED {
        let text = ruled(rt.alloc(), expression)?;
        assert_eq!(rt; rule_of(rt.alloc(), text.as_str())?.as_str(), want);
    }
    Ok(())
}

// Texts that are no script, and the places where none goes on.
const REFUSED: [(&str, u32); 26] = [
    ("", 0),
    (" // no class\n", 13),
    ("class C{}}", 9),
    ("class C{}class D{", 17),
    ("class C{} 1", 10),
    ("class C{private state int n:1<2<3;}", 31),
    ("class C{private state int n:1<2==3;}", 31),
    ("class C{private void run(){}}", 16),
    ("class C{public void run(){x<-1}}", 30),
    ("class C{public void run(){else{}}}", 26),
    ("class count{}", 6),
    ("class C{public state int n:-;}", 28),
    ("class C{public void run(){if(x<2)this.x<-1;}}", 33),
    ("class C{die when true}", 21),
    ("class C{die when true", 21),
    ("class C{die n>1;}", 12),
    ("class C{public die when true;}", 15),
    ("class C{spawn n==0{}}", 14),
    ("class C{spawn when true;}", 23),
    ("class C{spawn when true{q.n<-1;}}", 25),
    ("class C{spawn when true{n<-1}}", 28),
    ("class C{spawn when true{n<-1;}", 30),
    ("class spawn{}", 6),
    ("class P { public state }", 23),
    ("class P {", 9),
    ("class P { public void run() { if (1 < 2 < 3) { } } }", 40),
];

#[test]
fn refuses_what_is_no_script(rt: HostRuntime) {
    for &(text, place) in &REFUSED {
        assert_eq!(rt;
            tree(rt.alloc(), text.as_bytes()).err(),
            Some(SynFault::NoReading(place)),
            "{text}"
        );
    }
}

fn push_times(text: &mut String, piece: &str, times: u32) -> Result<(), AllocError> {
    for _ in 0..times {
        text.push_str(piece)?;
    }
    Ok(())
}

// A number between such fronts and backs.
fn nested(alloc: Global, front: &str, times: u32, back: &str) -> Result<String, AllocError> {
    let mut text = String::new(alloc);
    push_times(&mut text, front, times)?;
    text.push_str("1")?;
    push_times(&mut text, back, times)?;
    Ok(text)
}

// A class whose children get the number. A full count of operators stands on both sides of the
// gift.
fn given(alloc: Global, number: &str) -> Result<String, AllocError> {
    let mut text = String::new(alloc);
    text.push_str("class C{spawn when ")?;
    push_times(&mut text, "!", 256)?;
    text.push_str("true{n<-")?;
    text.push_str(number)?;
    text.push_str(";m<-")?;
    push_times(&mut text, "-", 256)?;
    text.push_str("1;}die when true;}")?;
    Ok(text)
}

// The fault of a rule or a gift that nests so often.
fn fault_of(
    alloc: Global,
    is_gift: bool,
    front: &str,
    times: u32,
    back: &str,
) -> Result<Option<SynFault>, AllocError> {
    let number = nested(alloc, front, times, back)?;
    let text = if is_gift {
        given(alloc, number.as_str())?
    } else {
        ruled(alloc, number.as_str())?
    };
    Ok(tree(alloc, text.as_str().as_bytes()).err())
}

// Whether a gift nests or a rule, by which fronts and backs, how often at most, one more, and where
// that is too deep.
const NESTS: [(bool, &str, &str, u32, u32, u32); 6] = [
    (false, "(", ")", 63, 64, 91),
    (false, "-", "", 256, 257, 284),
    (false, "", "-1", 256, 257, 541),
    (false, "1?1:", "", 256, 257, 1053),
    (true, "(", ")", 62, 63, 345),
    (true, "-", "", 256, 257, 539),
];

#[test]
fn nests_to_its_limits(rt: HostRuntime) -> Result<(), AllocError> {
    for &(is_gift, front, back, most, more, deep) in &NESTS {
        let within = fault_of(rt.alloc(), is_gift, front, most, back)?;
        let beyond = fault_of(rt.alloc(), is_gift, front, more, back)?;
        assert_eq!(rt;
            [within, beyond],
            [None, Some(SynFault::TooDeep(deep))],
            "{front}{back}"
        );
    }
    Ok(())
}
