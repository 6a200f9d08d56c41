// What no clause says: the answers of scripts worked by hand, and of scripts at the limits and one
// past them.
use crate::tests::scripts::{marked, tree};
use brace_names::resolve;
use std::alloc::{AllocError, Global};

// The texts of a fault's kind, and marked scripts that have it at the mark.
const REFUSED: [(&str, &str); 52] = [
    (
        "DuplicateClass(",
        "class A{$}class B{$}class @A{$}class A{$}",
    ),
    (
        "DuplicateClass(",
        "class A{public state int n:m;public state int n;}class @A{$}",
    ),
    ("DuplicateName(", "class A{$private state int @x;}"),
    ("DuplicateName(", "class A{$public effect int @y:sum;}"),
    ("DuplicateName(", "class A{#visible[1];$@#visible[2];}"),
    (
        "DuplicateName(",
        "class A{#reach[1];#visible[1];$@#reach[2];#reach[1];}",
    ),
    (
        "DuplicateName(",
        "class A{$public void run(){}@public void run(){}}",
    ),
    ("DuplicateName(", "class A{$die when true;@die when true;}"),
    (
        "DuplicateName(",
        "class A{$spawn when true{}@spawn when false{}}",
    ),
    (
        "DuplicateName(",
        "class A{$public void run(){const int @x=1;}}",
    ),
    (
        "DuplicateName(",
        "class A{$public void run(){const int @n=1;}private state int n;}",
    ),
    (
        "DuplicateName(",
        "class A{$public void run(){const int n=1;if(true){const int @n=2;}}}",
    ),
    (
        "DuplicateName(",
        "class A{$public void run(){const int n=1;foreach(A @n:Extent<A>){}}}",
    ),
    (
        "DuplicateName(",
        "class A{$public void run(){foreach(A q:Extent<A>){foreach(A @q:Extent<A>){}}}}",
    ),
    (
        "DuplicateName(",
        "class A{$public void run(){foreach(A @y:Extent<A>){}}}",
    ),
    (
        "DuplicateName(",
        "class A{$public void run(){if(true){const int n=1;const int @n=1;}}}",
    ),
    (
        "DuplicateName(",
        "class A{$spawn when true{x<-1.0;y<-1.0;@x<-2.0;}}",
    ),
    (
        "DuplicateName(",
        "class A{$public void run(){foreach(B q:Extent<B>){}}public state int @x;}",
    ),
    (
        "UnknownClass(",
        "class A{$public void run(){foreach(@B q:Extent<B>){}}}",
    ),
    (
        "UnknownClass(",
        "class A{$public void run(){foreach(A q:Extent<@B>){}}}class B{$}",
    ),
    (
        "UnknownClass(",
        "class A{$public void run(){foreach(@C q:Extent<B>){}}}class B{$}",
    ),
    (
        "UnknownClass(",
        "class A{$public void run(){z<-1;foreach(@B q:Extent<B>){}}}",
    ),
    ("UnknownName(", "class A{$public state int n:@m;}"),
    ("UnknownName(", "class A{$public state int n:1+@this.m;}"),
    (
        "UnknownName(",
        "class A{$public void run(){const int n=@n;}}",
    ),
    (
        "UnknownName(",
        "class A{$public void run(){if(true){const int n=1;}const int m=@n;}}",
    ),
    (
        "UnknownName(",
        "class A{$public void run(){if(true){const int n=1;}else{const int m=@n;}}}",
    ),
    (
        "UnknownName(",
        "class A{$public void run(){foreach(A q:Extent<A>){}const fixed m=@q.x;}}",
    ),
    (
        "UnknownName(",
        "class A{$public void run(){foreach(A q:Extent<A>){const fixed m=@q.z;}}}",
    ),
    (
        "UnknownName(",
        "class A{$public void run(){foreach(B q:Extent<B>){const int m=@q.n;}}public state int n;}\
         class B{$}",
    ),
    (
        "UnknownName(",
        "class A{$public void run(){foreach(A q:Extent<A>){const fixed m=@q;}}}",
    ),
    (
        "UnknownName(",
        "class A{$public void run(){const int q=1;const fixed m=@q.x;}}",
    ),
    (
        "UnknownName(",
        "class A{$public void run(){@n<-1;const int n=1;}}",
    ),
    (
        "UnknownName(",
        "class A{$public void run(){const int n=1;@n<-1;}}",
    ),
    ("UnknownName(", "class A{$public void run(){@this.n<-1;}}"),
    ("UnknownName(", "class A{$public void run(){@q.x<-1;}}"),
    (
        "UnknownName(",
        "class A{$public void run(){foreach(A q:Extent<A>){@q.n<-1;}}}",
    ),
    ("UnknownName(", "class A{$die when @n;}"),
    ("UnknownName(", "class A{$spawn when @n{}}"),
    ("UnknownName(", "class A{$spawn when true{@n<-1;n<-2;}}"),
    ("UnknownName(", "class A{$public state int n:0<1?@a:b;}"),
    (
        "UnknownName(",
        "class A{public state int n:@m;public state float k;}",
    ),
    (
        "UnknownName(",
        "class A{$public state float k;public state int n:@m;}",
    ),
    ("UnknownType(", "class A{$public state @A n;}"),
    ("UnknownType(", "class A{$public effect @float n:sum;}"),
    ("UnknownType(", "class A{$public void run(){const @B n=1;}}"),
    (
        "UnknownType(",
        "class A{public state @float x;public state fixed y;}",
    ),
    ("NoPosition(", "class @A{}"),
    (
        "NoPosition(",
        "class A{$}class @B{public state fixed x;}class C{}",
    ),
    (
        "NoPosition(",
        "class @A{public state fixed x;private state fixed y;}",
    ),
    (
        "NoPosition(",
        "class @A{public state fixed x;public state int y;}",
    ),
    (
        "NoPosition(",
        "class @A{public state fixed x;public effect fixed y:sum;}",
    ),
];

// The fault as text, which is empty where there is none.
fn fault_of(alloc: Global, text: &str) -> Result<String, AllocError> {
    match tree(alloc, text.as_bytes()) {
        Err(_) => format!(in alloc; "no tree"),
        Ok(tree) => match resolve(alloc, tree) {
            Ok(_) => Ok(String::new(alloc)),
            Err(fault) => format!(in alloc; "{fault:?}"),
        },
    }
}

// The fault of a kind at a mark, as text; of no kind there is none.
fn fault_at(alloc: Global, kind: &str, at: usize) -> Result<String, AllocError> {
    if kind.is_empty() {
        Ok(String::new(alloc))
    } else {
        format!(in alloc; "{kind}{at})")
    }
}

// The fault that a marked script has, and the one of the kind at its mark.
fn faults(alloc: Global, kind: &str, script: &str) -> Result<(String, String), AllocError> {
    let marked = marked(alloc, script)?;
    let got = fault_of(alloc, marked.text.as_str())?;
    Ok((got, fault_at(alloc, kind, marked.at)?))
}

#[test]
fn refuses_at_the_mark(rt: HostRuntime) -> Result<(), AllocError> {
    for &(kind, script) in &REFUSED {
        let (got, want) = faults(rt.alloc(), kind, script)?;
        assert_eq!(rt; got.as_str(), want.as_str(), "{script}");
    }
    Ok(())
}

// The piece with a number for `#`.
fn push_numbered(
    alloc: Global,
    text: &mut String,
    piece: &str,
    number: u32,
) -> Result<(), AllocError> {
    for c in piece.chars() {
        match c {
            '#' => text.push_str(format!(in alloc; "{number}")?.as_str())?,
            c => text.push(c)?,
        }
    }
    Ok(())
}

// The piece so many times, each with its number, between a front and a back.
fn repeated(
    alloc: Global,
    front: &str,
    piece: &str,
    times: u32,
    back: &str,
) -> Result<String, AllocError> {
    let mut text = String::new(alloc);
    text.push_str(front)?;
    for number in 0..times {
        push_numbered(alloc, &mut text, piece, number)?;
    }
    text.push_str(back)?;
    Ok(text)
}

// Fronts, pieces, numbers and backs of scripts; the kind of the fault at the mark, or nothing where
// there is none.
const LIMITS: [(&str, &str, u32, &str, &str); 19] = [
    ("", "class C#{$}", 16, "", ""),
    ("", "class C#{$}", 16, "class @D{$}", "TooMany(Classes, "),
    ("class C{$", "public state int n#;", 62, "}", ""),
    (
        "class C{$",
        "public state int n#;",
        62,
        "public effect int @m:sum;}",
        "TooMany(Fields, ",
    ),
    ("class C{$public void run(){", "if(0< -1){}", 4096, "}}", ""),
    (
        "class C{$public void run(){",
        "if(0< -1){}",
        4096,
        "if(0< @-1){}}}",
        "TooMany(Sites, ",
    ),
    (
        "class C{$public void run(){",
        "if(0< -1){}",
        4095,
        "}spawn when true{}}",
        "",
    ),
    (
        "class C{$public void run(){",
        "if(0< -1){}",
        4096,
        "}@spawn when true{}}",
        "TooMany(Sites, ",
    ),
    (
        "class C{$public void run(){",
        "if(0< -1){}",
        4095,
        "}@spawn when 0< -1{}}",
        "TooMany(Sites, ",
    ),
    (
        "class C{$public void run(){",
        "if(0< -1){}",
        4096,
        "}public state int n:@e;public effect int e:sum;}",
        "TooMany(Sites, ",
    ),
    (
        "class C{$public void run(){",
        "if(0< -1){}",
        4096,
        "}public state int n:e;public effect int e:max;}",
        "",
    ),
    (
        "class C{$public effect int e:sum;public void run(){",
        "e<-1;",
        4096,
        "}}",
        "",
    ),
    (
        "class C{$public effect int e:sum;public void run(){",
        "e<-1;",
        4096,
        "@e<-1;}}",
        "TooMany(Assignments, ",
    ),
    (
        "class C{$public effect int e:sum;public void run(){",
        "e<-1;",
        4096,
        "@this.e<-1;}}",
        "TooMany(Assignments, ",
    ),
    (
        "class C{$public effect int e:sum;public void run(){",
        "e<- -1;",
        4096,
        "@e<- -1;}}",
        "TooMany(Assignments, ",
    ),
    (
        "class C{$",
        "public state int n#;",
        63,
        "}class @D{}",
        "NoPosition(",
    ),
    (
        "class C{$public effect int e:sum;public void run(){",
        "e<-1;",
        4096,
        "foreach(C q:Extent<C>){@q.e<-1;}}}",
        "TooMany(Assignments, ",
    ),
    (
        "class C{$public effect int e:sum;public void run(){",
        "e<-1;",
        4095,
        "}spawn when true{x<-x;}}",
        "",
    ),
    (
        "class C{$public effect int e:sum;public void run(){",
        "e<-1;",
        4096,
        "}spawn when true{@x<-x;}}",
        "TooMany(Assignments, ",
    ),
];

#[test]
fn counts_to_its_limits(rt: HostRuntime) -> Result<(), AllocError> {
    for &(front, piece, times, back, kind) in &LIMITS {
        let script = repeated(rt.alloc(), front, piece, times, back)?;
        let (got, want) = faults(rt.alloc(), kind, script.as_str())?;
        assert_eq!(rt; got.as_str(), want.as_str(), "{back}");
    }
    Ok(())
}

// A script whose names have one letter, and what they stand for.
const NAMED: &str = "class A{$public state int n:m+this.n;public effect int m:max;die when n<m;\
 spawn when n<0{n<-n;x<-x;}public void run(){const int k=n;if(k<1){const int l=k;m<-l;}else{const \
 int j=k;this.m<-j;}foreach(B q:Extent<B>){foreach(A p:Extent<A>){q.e<-p.n;}}const int i=k;}}class \
 B{$public effect int f:sum;public effect int e:sum;}";

const BOUND: &str =
    "m Effect(0) n State(2) n State(2) m Effect(0) n State(2) n State(2) n State(2) x State(0) x \
     State(0) n State(2) k Local(0) k Local(0) m Effect(0) l Local(1) k Local(0) m Effect(0) j \
     Local(2) B Class(1) B Class(1) A Class(0) A Class(0) q Loop(0) e Effect(1) p Loop(1) n \
     State(2) k Local(0) ";

// Each bound name of a script in turn with what it stands for.
fn bound(alloc: Global, text: &str) -> Result<String, AllocError> {
    let mut bound = String::new(alloc);
    if let Ok(tree) = tree(alloc, text.as_bytes())
        && let Ok(resolved) = resolve(alloc, tree)
    {
        for binding in resolved.bindings.as_slice() {
            if let Some(byte) = text.as_bytes().get(binding.at as usize) {
                bound.push(*byte as char)?;
                bound.push_str(format!(in alloc; " {:?} ", binding.target)?.as_str())?;
            }
        }
    }
    Ok(bound)
}

#[test]
fn tells_what_names_stand_for(rt: HostRuntime) -> Result<(), AllocError> {
    let marked = marked(rt.alloc(), NAMED)?;
    let got = bound(rt.alloc(), marked.text.as_str())?;
    assert_eq!(rt; got.as_str(), BOUND);
    Ok(())
}
