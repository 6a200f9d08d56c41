//! Texts as lines tell them.
use crate::unfit::Unfit;
use std::alloc::Global;

/// A text with a name.
#[derive(Drop)]
pub struct Text<'a> {
    pub name: &'a str,
    pub bytes: Vec<u8>,
}

/// The byte that a letter stands for behind a backslash.
fn escaped(letter: u8) -> u8 {
    match letter {
        b'n' => b'\n',
        b'r' => b'\r',
        b's' => b' ',
        other => other,
    }
}

/// Appends a text in which `\n`, `\r`, `\s` and `\\` stand for other bytes.
pub fn append(bytes: &mut Vec<u8>, text: &str) -> Result<(), Unfit> {
    let mut is_behind = false;
    for byte in text.as_bytes() {
        if is_behind {
            bytes.push(escaped(*byte))?;
            is_behind = false;
        } else if *byte == b'\\' {
            is_behind = true;
        } else {
            bytes.push(*byte)?;
        }
    }
    Ok(())
}

/// Appends a line.
pub fn append_line(bytes: &mut Vec<u8>, text: &str) -> Result<(), Unfit> {
    append(bytes, text)?;
    bytes.push(b'\n')?;
    Ok(())
}

/// Appends a text as often as the number before it says.
pub fn append_repeated(bytes: &mut Vec<u8>, text: &str) -> Result<(), Unfit> {
    let (count, piece) = text.split_once(' ').unwrap_or(("0", ""));
    for _ in 0..count.parse::<u32>().unwrap_or(0) {
        append(bytes, piece)?;
    }
    Ok(())
}

/// The text of a name, if there is one.
pub fn named<'a>(texts: &'a [Text<'a>], name: &str) -> Option<&'a [u8]> {
    for text in texts {
        if text.name == name {
            return Some(text.bytes.as_slice());
        }
    }
    None
}

/// Bytes equal to these.
pub fn copied(alloc: Global, bytes: &[u8]) -> Result<Vec<u8>, Unfit> {
    Ok(Vec::from_slice(alloc, bytes)?)
}
