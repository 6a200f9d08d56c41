// What no clause says: that the definition of the canonical text is the text that is meant, at
// scripts laid out by hand.
use crate::tests::scripts::tree;
use brace_show::show;
use std::alloc::Global;
use std::test::Fail;

fn shown(alloc: Global, source: &[u8]) -> Result<Vec<u8>, Fail> {
    let Ok(tree) = tree(alloc, source) else {
        return Err("no script".into());
    };
    Ok(show(alloc, &tree)?)
}

const SCRIPT: &[u8] =
    b"// every form\nclass Fish{#visible[0010];#reach[2.500000];private state bool b;
public state fixed x:x+vx;private state Shoal s : (c?a:b)?d:(e?f:g);public effect int n:count;
private effect fixed p:sum; public effect bool o:or;private effect int l:min;public effect int m:max;
public void run(){const int c=(-007);const fixed d = fixed(c)*(0.0);const bool t=!(true&&b)||false;
if(((a-b)-c)<(a-(b-c))){n<-1;}if(b){}else{}
if (a==b) { if (c) { this.m <- --1; } } else { p.m <- max(1,min(2,3)); } /* last */
foreach(Fish p:Extent<Fish>){foreach(Shoal q:Extent<Shoal>){p.n<-abs(q.x)+sqrt(this.y)-trunc(rand());}}}
spawn  when(n>=2){x<-(x+5.00);s<-b?(p):q;}}
class Shoal{die when((m))>1||b ;public state int m;spawn when true{}}";

const CANONICAL: &[u8] = b"class Fish {
  #visible[10];
  #reach[2.5];
  private state bool b;
  public state fixed x : x + vx;
  private state Shoal s : (c ? a : b) ? d : e ? f : g;
  public effect int n : count;
  private effect fixed p : sum;
  public effect bool o : or;
  private effect int l : min;
  public effect int m : max;
  public void run() {
    const int c = -7;
    const fixed d = fixed(c) * 0.0;
    const bool t = !(true && b) || false;
    if (a - b - c < a - (b - c)) {
      n <- 1;
    }
    if (b) {
    } else {
    }
    if (a == b) {
      if (c) {
        this.m <- --1;
      }
    } else {
      p.m <- max(1, min(2, 3));
    }
    foreach (Fish p : Extent<Fish>) {
      foreach (Shoal q : Extent<Shoal>) {
        p.n <- abs(q.x) + sqrt(this.y) - trunc(rand());
      }
    }
  }
  spawn when n >= 2 {
    x <- x + 5.0;
    s <- b ? p : q;
  }
}
class Shoal {
  die when m > 1 || b;
  public state int m;
  spawn when true {
  }
}
";

// The canonical text is its own.
#[test]
fn lays_out_every_form(rt: HostRuntime) -> Result<(), Fail> {
    for source in [SCRIPT, CANONICAL] {
        let text = shown(rt.alloc(), source)?;
        assert_eq!(rt; text.as_slice(), CANONICAL);
    }
    Ok(())
}

// A class with one state, whose rule is the expression.
fn ruled(alloc: Global, rule: &[u8]) -> Result<Vec<u8>, Fail> {
    let mut source = Vec::from_slice(alloc, b"class C {\n  public state int n : ")?;
    source.extend_from_slice(rule)?;
    source.extend_from_slice(b";\n}\n")?;
    Ok(source)
}

// Rules and their canonical texts: operands are parted by level alone, and literals are short.
const RULES: [(&[u8], &[u8]); 25] = [
    (b"a-(b-c)", b"a - (b - c)"),
    (b"((a-b)-c)", b"a - b - c"),
    (b"a*(b*c)/(d%e)", b"a * (b * c) / (d % e)"),
    (b"(a+b)*c+(d*e)", b"(a + b) * c + d * e"),
    (b"(a<b)==(c!=d)", b"(a < b) == (c != d)"),
    (b"(a||b)&&(c||d&&e)", b"(a || b) && (c || d && e)"),
    (b"a||(b||c)||(d&&(e&&f))", b"a || (b || c) || d && (e && f)"),
    (b"(a<=b)&&(c>=d)||(e>f)", b"a <= b && c >= d || e > f"),
    (b"-(-x)", b"--x"),
    (b"!(!(a&&b))", b"!!(a && b)"),
    (b"-(a+b)*-(c)", b"-(a + b) * -c"),
    (b"(c?a:b)?d:e", b"(c ? a : b) ? d : e"),
    (b"c?(a?b:d):(e?f:g)", b"c ? a ? b : d : e ? f : g"),
    (b"(a||b)?(c+d):(-e)", b"a || b ? c + d : -e"),
    (b"max((a?b:c),(d||e))", b"max(a ? b : c, d || e)"),
    (b"abs((a?b:c))+(min(a,b))", b"abs(a ? b : c) + min(a, b)"),
    (b"0", b"0"),
    (b"000", b"0"),
    (b"9223372036854775807", b"9223372036854775807"),
    (b"0.0", b"0.0"),
    (b"00.000000", b"0.0"),
    (b"2.25", b"2.25"),
    (b"010.500000", b"10.5"),
    (b"0.000001", b"0.000001"),
    (b"9223372036854.775807", b"9223372036854.775807"),
];

#[test]
fn parts_operands_by_level_and_shortens_literals(rt: HostRuntime) -> Result<(), Fail> {
    for &(rule, canonical) in &RULES {
        let text = shown(rt.alloc(), ruled(rt.alloc(), rule)?.as_slice())?;
        assert_eq!(rt; text.as_slice(), ruled(rt.alloc(), canonical)?.as_slice());
    }
    Ok(())
}
