//! The program: the host's files, standard output and standard error, and the words of the command
//! line.
#![tactic(auto)]

use brace_io::{DirShelf, ErrSink, OpenGate, OutSink, Sink, write_whole};
use brace_top::run;
use std::alloc::Global;
use std::process::ExitCode;
use std::{env, io};

/// The bytes of a large block: as many as glibc goes along with, 32 MiB, less its own share.
const LARGE_BLOCK: usize = 33_488_896;

/// The words after the program's name.
fn words(rt: &HostRuntime, alloc: Global) -> io::Result<Vec<String>> {
    let mut words = Vec::new(alloc);
    for word in env::args(rt)?.skip(1) {
        words.push(word)?;
    }
    Ok(words)
}

/// The status where the words could not be read: memory was refused, or one of them is no text. Its
/// message is written.
fn unread<E: Sink>(err: &mut E, error: &io::Error) -> u8 {
    let (status, message): (u8, &[u8]) = match error.kind() {
        io::ErrorKind::OutOfMemory => (11, b"brace: no memory\n"),
        _ => (2, b"brace: usage\n"),
    };
    match write_whole(err, message) {
        Ok(()) => status,
        Err(_) => status,
    }
}

/// Whether the words ask for ticks to be worked.
fn works_ticks(words: &[String]) -> bool {
    words.iter().any(|word| matches!(word.as_str(), "run" | "resume" | "trial" | "audit"))
}

/// Takes a large block of memory and gives it back, if there is one. glibc then keeps up to twice
/// as much that is free, which it would else give back to the host tick by tick, and take anew. No
/// page of the block is touched.
fn widen_heap(alloc: Global) {
    if let Ok(block) = Vec::<u8>::with_capacity(alloc, LARGE_BLOCK) {
        drop(block);
    }
}

fn main(rt: HostRuntime) -> ExitCode {
    let mut err = ErrSink::make(rt.stderr());
    let words = match words(&rt, rt.alloc()) {
        Ok(words) => words,
        Err(error) => return ExitCode::from(unread(&mut err, &error)),
    };
    if works_ticks(words.as_slice()) {
        widen_heap(rt.alloc());
    }
    let mut shelf = DirShelf::make(rt.alloc(), &rt);
    let mut out = OutSink::make(rt.stdout());
    ExitCode::from(run(
        &rt,
        rt.alloc(),
        words.as_slice(),
        &mut shelf,
        &mut out,
        &mut err,
        &OpenGate,
    ))
}

#[cfg(test)]
mod tests {
    use super::*;
    use brace_io::MemSink;
    use std::test::Fail;

    #[test]
    fn names_why_the_words_could_not_be_read(rt: HostRuntime) -> Result<(), Fail> {
        for (kind, status, message) in [
            (io::ErrorKind::OutOfMemory, 11, "brace: no memory\n"),
            (io::ErrorKind::InvalidData, 2, "brace: usage\n"),
        ] {
            let mut err = MemSink::make(rt.alloc(), 100, Vec::new(rt.alloc()))?;
            let found = unread(&mut err, &io::Error::from(kind));
            assert_eq!(rt; found, status, "{message}");
            assert_eq!(rt; err.bytes(), message.as_bytes());
        }
        Ok(())
    }
}
