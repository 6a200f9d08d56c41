// Scripts that are marked by hand, and the trees of texts.
use brace_syntax::{SynFault, Tree, parse};
use brace_tok::tokens;
use std::alloc::{AllocError, Global};

const POSITION: &str = "public state fixed x;public state fixed y;";

/// A script without its marks, and the offset of the last one.
#[derive(Drop)]
pub struct Script {
    pub text: String,
    pub at: usize,
}

/// The script of a text in which places are marked by `@`, and `$` stands for the position of a
/// class.
pub fn marked(alloc: Global, script: &str) -> Result<Script, AllocError> {
    let mut text = String::new(alloc);
    let mut at = 0;
    for c in script.chars() {
        match c {
            '@' => at = text.len(),
            '$' => text.push_str(POSITION)?,
            c => text.push(c)?,
        }
    }
    Ok(Script { text, at })
}

/// The tree of a text, or its fault; where it has no tokens, the fault is that memory is refused.
pub fn tree(alloc: Global, text: &[u8]) -> Result<Tree, SynFault> {
    if text.len() > 1_048_576 {
        return Err(SynFault::NoMemory);
    }
    match tokens(alloc, text) {
        Ok(toks) => parse(alloc, text, toks.as_slice()),
        Err(_) => Err(SynFault::NoMemory),
    }
}
