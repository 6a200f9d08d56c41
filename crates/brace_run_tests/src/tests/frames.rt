// Bytes of frames worked by hand.
use brace_comb::{Entry, Total};
use brace_model::{Census, Class, Fault, Herd, Parent, Phase, Program, State, Ty};
use brace_num::{Kind, List, NoMemory, Text};
use brace_pieces::{Cause, Piece, Shown};
use brace_wire::{Decoder, Frame, encode};
use std::alloc::Global;
use std::test::Fail;

/// A class with one state of each type.
fn program(alloc: Global) -> Result<Program, NoMemory> {
    let mut states = List::new(alloc);
    for ty in TYPES {
        states.push(State {
            name: Text::from_string(String::new(alloc)),
            ty,
            shared: true,
            rule: None,
        })?;
    }
    let mut classes = List::new(alloc);
    classes.push(Class {
        name: Text::from_string(String::new(alloc)),
        visible: 0,
        reach: 0,
        x: 0,
        y: 0,
        states,
        effects: List::new(alloc),
        query: List::new(alloc),
        die: None,
        spawn: None,
    })?;
    Ok(Program {
        classes,
        sites: List::new(alloc),
    })
}

const TYPES: [Ty; 3] = [Ty::Fixed, Ty::Int, Ty::Bool];

const WORDS: [i64; 3] = [-1, 258, 1];

/// So many agents.
fn agents(alloc: Global, count: u64) -> Result<Herd, NoMemory> {
    let mut agents = Herd::new(alloc);
    for id in 0..count {
        agents.push(0, id, &TYPES, &WORDS)?;
    }
    Ok(agents)
}

fn between(from: u32, to: u32, ordinal: u64, piece: Piece) -> Frame {
    Frame {
        from,
        to,
        ordinal,
        piece,
    }
}

/// The bytes of frames.
fn bytes_of(alloc: Global, program: &Program, frames: &[Frame]) -> Result<Vec<u8>, NoMemory> {
    let mut out = Vec::new(alloc);
    for f in frames {
        encode(&mut out, program, f)?;
    }
    Ok(out)
}

/// What a decoder answers to chunks of bytes, one after another, and the frames that it reads.
fn fed(alloc: Global, program: &Program, chunks: &[&[u8]]) -> Result<String, NoMemory> {
    let mut decoder = Decoder::make(alloc, program)?;
    let mut frames = Vec::new(alloc);
    let mut text = String::new(alloc);
    for chunk in chunks {
        let answer = decoder.feed(chunk, &mut frames);
        text.push_str(format!(in alloc; "{answer:?} ")?.as_str())?;
    }
    text.push_str(format!(in alloc; "{frames:?}")?.as_str())?;
    Ok(text)
}

const ACK: [u8; 21] = [
    0, 0, 0, 0x11, 0, 0, 0, 2, 0, 0, 0, 0, 0, 0, 0, 0, 0, 0, 0, 0, 5,
];

/// An ack whose kind is 8.
const UNKNOWN: [u8; 21] = [
    0, 0, 0, 0x11, 0, 0, 0, 2, 0, 0, 0, 0, 0, 0, 0, 0, 0, 0, 0, 0, 8,
];

const EMPTY_MOVE: [u8; 25] = [
    0, 0, 0, 0x15, 0, 0, 0, 0, 0, 0, 0, 1, 0, 0, 0, 0, 0, 0, 0, 2, 2, 0, 0, 0, 0,
];

#[test]
fn spells_an_ack_and_an_empty_move(rt: HostRuntime) -> Result<(), Fail> {
    let alloc = rt.alloc();
    let program = program(alloc)?;
    let ack = bytes_of(alloc, &program, &[between(2, 0, 0, Piece::Ack)])?;
    let empty = Piece::Move(Herd::new(alloc));
    let moved = bytes_of(alloc, &program, &[between(0, 1, 2, empty)])?;
    assert!(rt; ack.as_slice() == ACK.as_slice() && moved.as_slice() == EMPTY_MOVE.as_slice());
    Ok(())
}

#[test]
fn stops_at_a_frame_of_an_unknown_form(rt: HostRuntime) -> Result<(), Fail> {
    let program = program(rt.alloc())?;
    let found = fed(rt.alloc(), &program, &[&UNKNOWN, &ACK])?;
    assert_eq!(rt; found.as_str(), "Err(BadFrame(0)) Err(BadFrame(0)) []");
    Ok(())
}

const TOTALS: [Total; 5] = [
    Total::Sum(-3, 2),
    Total::Least(-1, 1),
    Total::Greatest(7, 1),
    Total::Count(9),
    Total::Any(true, 4),
];

/// A total of each kind.
fn entries(alloc: Global) -> Result<List<Entry>, NoMemory> {
    let mut entries = List::new(alloc);
    for &total in &TOTALS {
        entries.push(Entry {
            target: 5,
            field: 1,
            total,
        })?;
    }
    Ok(entries)
}

/// A census of one agent, which has a child.
fn census(alloc: Global) -> Result<Census, NoMemory> {
    let mut parents = List::new(alloc);
    parents.push(Parent { id: 11, class: 0 })?;
    Ok(Census {
        living: 1,
        values: 3,
        parents,
    })
}

/// A world of two agents.
fn shows(alloc: Global) -> Result<List<Shown>, NoMemory> {
    let mut shows = List::new(alloc);
    shows.push(Shown {
        tick: 8,
        agents: agents(alloc, 2)?,
        next: 9,
    })?;
    Ok(shows)
}

const CAUSES: [Cause; 3] = [
    Cause::Fault(Fault {
        tick: 3,
        phase: Phase::Birth,
        agent: 4,
        site: 5,
        outer: Some(6),
        inner: None,
        kind: Kind::TooMany,
    }),
    Cause::NoMemory,
    Cause::Closed,
];

/// Pieces of every kind.
fn pieces(alloc: Global) -> Result<Vec<Piece>, NoMemory> {
    let mut pieces = Vec::new(alloc);
    pieces.push(Piece::Border(agents(alloc, 3)?))?;
    pieces.push(Piece::Effects(entries(alloc)?))?;
    pieces.push(Piece::Census(census(alloc)?))?;
    pieces.push(Piece::Hand(agents(alloc, 1)?))?;
    pieces.push(Piece::Show(shows(alloc)?))?;
    for &cause in &CAUSES {
        pieces.push(Piece::Halt(cause))?;
    }
    Ok(pieces)
}

/// Frames of pieces of every kind.
fn frames(alloc: Global) -> Result<Vec<Frame>, NoMemory> {
    let mut frames = Vec::new(alloc);
    for piece in pieces(alloc)? {
        let f = between(1, 2, frames.len() as u64, piece);
        frames.push(f)?;
    }
    Ok(frames)
}

#[test]
fn reads_what_it_wrote(rt: HostRuntime) -> Result<(), Fail> {
    let program = program(rt.alloc())?;
    let written = frames(rt.alloc())?;
    let stream = bytes_of(rt.alloc(), &program, written.as_slice())?;
    let found = fed(rt.alloc(), &program, &[stream.as_slice()])?;
    let wanted = format!(in rt.alloc(); "Ok(()) {written:?}")?;
    assert_eq!(rt; found, wanted);
    Ok(())
}

/// The bytes of three frames, and what a decoder is to tell of them, fed in three chunks.
fn three(alloc: Global, program: &Program) -> Result<(Vec<u8>, String), NoMemory> {
    let mut written = Vec::new(alloc);
    written.push(between(0, 1, 0, Piece::Move(agents(alloc, 1)?)))?;
    written.push(between(2, 0, 0, Piece::Ack))?;
    written.push(between(0, 1, 1, Piece::Halt(Cause::Closed)))?;
    let wanted = format!(in alloc; "Ok(()) Ok(()) Ok(()) {written:?}")?;
    Ok((bytes_of(alloc, program, written.as_slice())?, wanted))
}

#[test]
fn cuts_do_not_matter(rt: HostRuntime) -> Result<(), Fail> {
    let alloc = rt.alloc();
    let program = program(alloc)?;
    let (stream, wanted) = three(alloc, &program)?;
    for first in 0..stream.len() + 1 {
        for second in first..stream.len() + 1 {
            let cut = [&stream[..first], &stream[first..second], &stream[second..]];
            let found = fed(alloc, &program, &cut)?;
            assert_eq!(rt; found, wanted);
        }
    }
    Ok(())
}

#[test]
fn takes_single_bytes(rt: HostRuntime) -> Result<(), Fail> {
    let alloc = rt.alloc();
    let program = program(alloc)?;
    let mut decoder = Decoder::make(alloc, &program)?;
    let mut frames = Vec::new(alloc);
    for byte in &ACK {
        let before = frames.len();
        let answer = decoder.feed(&[*byte], &mut frames);
        assert_eq!(rt; (before, answer), (0, Ok(())));
    }
    assert_eq!(rt; frames.len(), 1);
    Ok(())
}
