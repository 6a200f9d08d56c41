// Command lines worked by hand: what they say, and which are none.
use brace_num::Text;
use brace_words::{Line, read_line};
use std::alloc::{AllocError, Global};

// A line, and what it says: its mode, its names, its numbers and its flags.
const LINES: [(&str, &str); 20] = [
    (
        "run --script s --agents a --ticks 2",
        "Run script s agents a ticks 2",
    ),
    (
        "--save=c --stats --order 7 --workers 16 --cuts k --epoch=1 --every 4294967296 \
         --seed=18446744073709551615 --invert --ticks=4294967296 --agents=a --script=s run",
        "Run script s agents a cuts k save c ticks 4294967296 seed 18446744073709551615 every \
         4294967296 epoch 1 workers 16 order 7 invert stats",
    ),
    (
        "resume --script s --from c.2 --ticks 0003",
        "Resume script s from c.2 ticks 3",
    ),
    (
        "--from - resume --stats --invert --save - --script - --ticks 0 --order \
         18446744073709551615 --workers 1 --epoch 16 --every 1 --cuts -",
        "Resume script - from - cuts - save - ticks 0 every 1 epoch 16 workers 1 order \
         18446744073709551615 invert stats",
    ),
    ("check --script s", "Check script s"),
    ("--script=s.brasil fmt", "Fmt script s.brasil"),
    ("plan --script s", "Plan script s"),
    ("--invert plan --script s", "Plan script s invert"),
    ("trial --count 0 --ticks 0", "Trial ticks 0 count 0"),
    (
        "trial --stats --invert --order 1 --workers 2 --epoch 5 --seed 0 --count 1048576 --ticks \
         20",
        "Trial ticks 20 count 1048576 seed 0 epoch 5 workers 2 order 1 invert stats",
    ),
    (
        "run --script s --agents a --ticks 1 --link llld",
        "Run script s agents a link llld ticks 1",
    ),
    (
        "resume --link=ldtaldtaldtaldta --workers 1 --script s --from c --ticks 1 --watch w --save v",
        "Resume script s from c save v link ldtaldtaldtaldta watch w ticks 1 workers 1",
    ),
    (
        "audit --script s --agents a --ticks 3 --published p",
        "Audit script s agents a published p ticks 3",
    ),
    (
        "--every 2 --seed 7 audit --published - --ticks 3 --agents a --script s",
        "Audit script s agents a published - ticks 3 seed 7 every 2",
    ),
    (
        "balance --script s --agents a --strips 64",
        "Balance script s agents a strips 64",
    ),
    (
        "balance --strips=1 --agents=a --script=s",
        "Balance script s agents a strips 1",
    ),
    ("check --script=-x", "Check script -x"),
    ("check --script=a=b", "Check script a=b"),
    ("check --script check", "Check script check"),
    ("--script s -- check", "Check script s"),
];

// Words that are no line, each for one reason.
const REFUSED: [&str; 77] = [
    "",
    "run",
    "walk --script s",
    "Run --script s --agents a --ticks 2",
    "--script s --agents a --ticks 2",
    "check fmt --script s",
    "check --script s --help",
    "--version",
    "check -s s",
    "check --scrip s",
    "check --script",
    "check --script=",
    "check --script ",
    "check --script -x",
    "check --script s --script s",
    "check --script s extra",
    "check --script s -- --invert",
    "run --agents a --ticks 2",
    "run --script s --ticks 2",
    "run --script s --agents a",
    "run --script s --agents a --ticks 2 --ticks=2",
    "run --script s --agents a --ticks 2 --invert --invert",
    "run --script s --agents a --ticks 2 --invert=true",
    "run --script s --agents a --ticks 4294967297",
    "run --script s --agents a --ticks 18446744073709551616",
    "run --script s --agents a --ticks +2",
    "run --script s --agents a --ticks=-2",
    "run --script s --agents a --ticks=",
    "run --script s --agents a --ticks 0x2",
    "run --script s --agents a --ticks 2 --from c",
    "run --script s --agents a --ticks 2 --count 1",
    "run --script s --agents a --ticks 2 --every 0",
    "run --script s --agents a --ticks 2 --every 4294967297",
    "run --script s --agents a --ticks 2 --epoch 0",
    "run --script s --agents a --ticks 2 --epoch 17",
    "run --script s --agents a --ticks 2 --workers 0",
    "run --script s --agents a --ticks 2 --workers 17",
    "run --script s --agents a --ticks 2 --workers 4294967297",
    "run --script s --agents a --ticks 2 --seed 18446744073709551616",
    "run --script s --agents a --ticks 2 --cuts=",
    "run --script s --agents a --ticks 2 --watch w --save w",
    "run --script s --agents a --ticks 2 --watch=",
    "run --script s --agents a --ticks 2 --link=",
    "run --script s --agents a --ticks 2 --link l",
    "run --script s --agents a --ticks 2 --link llllllll",
    "run --script s --agents a --ticks 2 --link dx",
    "run --script s --agents a --ticks 2 --link ldtaldtaldtaldtal",
    "run --script s --agents a --ticks 2 --link d --workers 2",
    "run --script s --agents a --ticks 2 --published p",
    "run --script s --agents a --ticks 2 --strips 1",
    "resume --script s --from c --ticks 2 --link d --workers 16",
    "resume --script s --from c --ticks 2 --save w --watch w",
    "audit --script s --agents a --ticks 2",
    "audit --script s --agents a --published p",
    "audit --script s --ticks 2 --published p",
    "audit --script s --agents a --ticks 2 --published p --workers 1",
    "audit --script s --agents a --ticks 2 --published p --link d",
    "audit --script s --agents a --ticks 2 --published p --watch w",
    "audit --script s --agents a --ticks 2 --published p --stats",
    "balance --script s --agents a",
    "balance --script s --strips 2",
    "balance --script s --agents a --strips 0",
    "balance --script s --agents a --strips 65",
    "balance --script s --agents a --strips 2 --ticks 1",
    "plan --script s --watch w",
    "trial --ticks 2 --count 1 --link d",
    "resume --script s --from c --ticks 2 --agents a",
    "resume --script s --from c --ticks 2 --seed 0",
    "resume --script s --ticks 2",
    "check --script s --invert",
    "fmt --script s --ticks 2",
    "plan --script s --stats",
    "plan",
    "trial --ticks 2",
    "trial --count 1048577 --ticks 2",
    "trial --count 1 --ticks 2 --script s",
    "trial --count 1 --ticks 2 --every 1",
];

/// The words of a text, parted by single spaces.
fn words_of(alloc: Global, text: &str) -> Result<Vec<String>, AllocError> {
    let mut words = Vec::new(alloc);
    for word in text.split(' ') {
        words.push(String::from_str(alloc, word)?)?;
    }
    Ok(words)
}

fn push_names(text: &mut String, line: &Line) -> Result<(), AllocError> {
    push_name(text, " script ", &line.script)?;
    push_name(text, " agents ", &line.agents)?;
    push_name(text, " from ", &line.from)?;
    push_name(text, " cuts ", &line.cuts)?;
    push_name(text, " save ", &line.save)?;
    push_name(text, " link ", &line.link)?;
    push_name(text, " published ", &line.published)?;
    push_name(text, " watch ", &line.watch)
}

fn push_numbers(alloc: Global, text: &mut String, line: &Line) -> Result<(), AllocError> {
    for (name, number) in [
        ("ticks", line.ticks),
        ("count", line.count.map(u64::from)),
        ("seed", line.seed),
        ("every", line.every),
        ("epoch", line.epoch),
        ("workers", line.workers.map(u64::from)),
        ("order", line.order),
        ("strips", line.strips.map(u64::from)),
    ] {
        if let Some(number) = number {
            text.push_str(format!(in alloc; " {name} {number}")?.as_str())?;
        }
    }
    Ok(())
}

fn push_flag(text: &mut String, label: &str, is_set: bool) -> Result<(), AllocError> {
    if is_set { text.push_str(label) } else { Ok(()) }
}

/// What a line says: its mode, its names, its numbers and its flags.
fn said(alloc: Global, line: &Line) -> Result<String, AllocError> {
    let mut text = format!(in alloc; "{:?}", line.mode)?;
    push_names(&mut text, line)?;
    push_numbers(alloc, &mut text, line)?;
    push_flag(&mut text, " invert", line.invert)?;
    push_flag(&mut text, " stats", line.stats)?;
    Ok(text)
}

fn push_name(text: &mut String, label: &str, name: &Option<Text>) -> Result<(), AllocError> {
    if let Some(name) = name {
        text.push_str(label)?;
        text.push_str(name.as_str())?;
    }
    Ok(())
}

/// What words say, or their fault, as text.
fn told(alloc: Global, words: &[String]) -> Result<String, AllocError> {
    match read_line(alloc, words) {
        Ok(line) => said(alloc, &line),
        Err(fault) => format!(in alloc; "{fault:?}"),
    }
}

/// What the words of a text say, or their fault.
fn answer(alloc: Global, text: &str) -> Result<String, AllocError> {
    let words = words_of(alloc, text)?;
    told(alloc, words.as_slice())
}

#[test]
fn reads_lines(rt: HostRuntime) -> Result<(), AllocError> {
    for &(text, want) in &LINES {
        assert_eq!(rt; answer(rt.alloc(), text)?.as_str(), want);
    }
    Ok(())
}

#[test]
fn refuses_all_else(rt: HostRuntime) -> Result<(), AllocError> {
    for &text in &REFUSED {
        assert_eq!(rt; answer(rt.alloc(), text)?.as_str(), "Usage", "{text}");
    }
    assert_eq!(rt; told(rt.alloc(), &[])?.as_str(), "Usage");
    Ok(())
}
