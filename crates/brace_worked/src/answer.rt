ghost use Rattle.std.specs.Prelude.{◌≡◌, IfOk};
ghost use Rattle.brace_io.specs.Shelves.{Idle};

use crate::calls::times_until_worked;
use crate::case::{Case, Held, Variation};
use crate::unfit::Unfit;
use brace_io::{Gate, MemShelf, MemSink, OpenGate};
use brace_portions::Portioned;
use brace_top::{run, run_alone};
use std::alloc::Global;
use std::sync::Wait;
use std::thread::Threads;

/// The most bytes that a command may write, and that its message may have.
const ROOM: u64 = 4000;

/// What a command finds that its lines do not say.
#[derive(Clone, Copy, Drop)]
pub enum Found<'a> {
    Nothing,
    /// Other bytes in file a.
    Agents(&'a [u8]),
    /// The call of the shelf with this number fails.
    ShelfFails(u64),
    /// The call of the sink of rows with this number fails.
    SinkFails(u64),
}

/// What stands behind a command: its files, its text and its messages.
#[derive(Drop)]
pub struct Desk {
    pub shelf: Portioned<MemShelf>,
    pub out: Portioned<MemSink>,
    pub err: Portioned<MemSink>,
}

impl<'a> Found<'a> {
    /// The bytes of file a, which a command has too.
    fn agents(self, of_case: &'a [u8]) -> &'a [u8] {
        match self {
            Found::Agents(bytes) => bytes,
            _ => of_case,
        }
    }

    fn call_of_shelf(self) -> Option<u64> {
        match self {
            Found::ShelfFails(number) => Some(number),
            _ => None,
        }
    }

    fn call_of_sink(self) -> Option<u64> {
        match self {
            Found::SinkFails(number) => Some(number),
            _ => None,
        }
    }
}

/// The numbers of calls that fail, and of one more, if there is one.
fn numbers(alloc: Global, from: &[u64], more: Option<u64>) -> Result<Vec<u64>, Unfit> {
    let mut numbers = Vec::from_slice(alloc, from)?;
    if let Some(number) = more {
        numbers.push(number)?;
    }
    Ok(numbers)
}

fn words_of(alloc: Global, text: &str) -> Result<Vec<String>, Unfit> {
    let mut words = Vec::new(alloc);
    for word in text.split(' ') {
        words.push(String::from_str(alloc, word)?)?;
    }
    Ok(words)
}

/// The files that a command finds, and places for those that it saves.
fn files_of(alloc: Global, case: &Case, agents: &[u8], fails: Vec<u64>) -> Result<MemShelf, Unfit>
    ensures { IfOk result (λ shelf. shelf.stage ≡ Idle) }
{
    let mut shelf = MemShelf::make(alloc, fails);
    if !case.is_bare {
        shelf.hold("s", case.script.as_slice())?;
        shelf.hold("a", agents)?;
    }
    if !case.cuts.is_empty() {
        shelf.hold("k", case.cuts.as_slice())?;
    }
    if case.is_published {
        shelf.hold("p", case.published.as_slice())?;
    }
    if case.is_watched {
        shelf.hold("w", case.watch.as_slice())?;
    }
    shelf.prepare("c.1", 1000)?;
    shelf.prepare("c.2", 1000)?;
    shelf.prepare("c.3", 200)?;
    shelf.prepare("c.4", 200)?;
    shelf.prepare("c.5", 200)?;
    shelf.prepare("c.16", 200)?;
    shelf.prepare("w.1", 1000)?;
    shelf.prepare("w.2", 1000)?;
    shelf.prepare("w.3", 1000)?;
    shelf.prepare("w.4", 1000)?;
    shelf.prepare("w.5", 1000)?;
    Ok(shelf)
}

impl Desk {
    /// What a command finds.
    pub fn of(alloc: Global, case: &Case, found: Found) -> Result<Desk, Unfit>
        ensures { IfOk result (λ desk. desk.shelf.inner.stage ≡ Idle) }
    {
        let agents = found.agents(case.agents.as_slice());
        let fails = numbers(alloc, case.shelf_fails.as_slice(), found.call_of_shelf())?;
        let shelf = files_of(alloc, case, agents, fails)?;
        let fails = numbers(alloc, case.sink_fails.as_slice(), found.call_of_sink())?;
        let out = MemSink::make(alloc, ROOM, fails)?;
        let err = MemSink::make(alloc, ROOM, Vec::new(alloc))?;
        let most = case.most.max(1);
        Ok(Desk {
            shelf: Portioned::make(shelf, most),
            out: Portioned::make(out, most),
            err: Portioned::make(err, most),
        })
    }

    /// Whether a file is as it has to be.
    fn is_held(&self, held: &Held) -> bool {
        match (self.shelf.inner.file(held.name), &held.bytes) {
            (Some(file), Some(bytes)) => file == bytes.as_slice(),
            (None, None) => true,
            _ => false,
        }
    }

    /// Whether a file is not there, or holds a front of what it has to hold.
    fn is_front(&self, held: &Held) -> bool {
        match (self.shelf.inner.file(held.name), &held.bytes) {
            (Some(file), Some(bytes)) => bytes.as_slice().starts_with(file),
            (Some(_), None) => false,
            (None, _) => true,
        }
    }

    /// Whether the text and the files are fronts of those that the command says.
    pub fn holds_fronts(&self, case: &Case) -> bool {
        for held in &case.files {
            if !self.is_front(held) {
                return false;
            }
        }
        case.out.as_slice().starts_with(self.out.inner.bytes())
    }

    /// Whether all is as the command says.
    pub fn is_as(&self, case: &Case) -> bool {
        for held in &case.files {
            if !self.is_held(held) {
                return false;
            }
        }
        let (out, err) = (self.out.inner.bytes(), self.err.inner.bytes());
        out == case.out.as_slice() && err == case.err.as_slice()
    }

    /// Gives a command that passes a gate; its status.
    pub fn give<R: Threads + Wait + Sync, G: Gate + Sync>(
        &mut self,
        rt: &R,
        alloc: Global,
        text: &str,
        gate: &G,
    ) -> Result<u8, Unfit>
        requires { self.old.shelf.inner.stage ≡ Idle }
    {
        let words = words_of(alloc, text)?;
        let words = words.as_slice();
        Ok(run(
            rt,
            alloc,
            words,
            &mut self.shelf,
            &mut self.out,
            &mut self.err,
            gate,
        ))
    }

    /// Gives a command without a runtime; its status, where that needs none.
    pub fn give_alone(&mut self, alloc: Global, text: &str) -> Result<Option<u8>, Unfit>
        requires { self.old.shelf.inner.stage ≡ Idle }
    {
        let words = words_of(alloc, text)?;
        let words = words.as_slice();
        Ok(run_alone(alloc, words, &mut self.shelf, &mut self.out, &mut self.err))
    }
}

/// Whether a command, with these words, comes to what was worked, in a run and in one without a
/// runtime.
fn is_as_worked<R: Threads + Wait + Sync>(
    rt: &R,
    alloc: Global,
    case: &Case,
    found: Found,
    words: &str,
) -> Result<bool, Unfit> {
    let mut desk = Desk::of(alloc, case, found)?;
    if desk.give(rt, alloc, words, &OpenGate)? != case.status || !desk.is_as(case) {
        return Ok(false);
    }
    let mut desk = Desk::of(alloc, case, found)?;
    match desk.give_alone(alloc, words)? {
        Some(status) => Ok(status == case.status && desk.is_as(case)),
        None => Ok(true),
    }
}

/// How often a command is given, with these words, of which each comes to what was worked; none
/// where one comes to something else.
pub fn times_as_worked<R: Threads + Wait + Sync>(
    rt: &R,
    alloc: Global,
    case: &Case,
    words: &str,
) -> Result<Option<u64>, Unfit> {
    match case.variation {
        Variation::None => {
            let is_worked = is_as_worked(rt, alloc, case, Found::Nothing, words)?;
            Ok(if is_worked { Some(1) } else { None })
        }
        Variation::Fronts => times_of_fronts(rt, alloc, case, words),
        Variation::Calls(failing) => times_until_worked(rt, alloc, case, words, failing),
    }
}

/// The same, with each front of file a in its place but the whole.
fn times_of_fronts<R: Threads + Wait + Sync>(
    rt: &R,
    alloc: Global,
    case: &Case,
    words: &str,
) -> Result<Option<u64>, Unfit> {
    let whole = case.agents.as_slice();
    for n in 0..whole.len() {
        if !is_as_worked(rt, alloc, case, Found::Agents(&whole[..n]), words)? {
            return Ok(None);
        }
    }
    Ok(Some(whole.len() as u64))
}
