ghost use Rattle.std.specs.Prelude.{◌≡◌, IfOk};

use brace_num::NoMemory;
use std::alloc::Global;
use std::marker::Model;

/// A stack for the words of code, made once for many runs. Contracts see how many words it has room
/// for.
#[derive(Drop)]
pub struct Stack {
    pub(crate) words: Vec<i64>,
}

impl Model for Stack {
    ghost use Rattle.std.specs.Prelude.{ℕ, length};

    ghost Value = { ℕ };

    ghost view = { λ stack. length stack.words.items };
}

impl Stack {
    /// A stack with room for so many words.
    pub fn make(alloc: Global, depth: usize) -> Result<Stack, NoMemory>
        ensures { IfOk result (λ stack. stack ≡ depth) }
    {
        let words = vec![in alloc; 0i64; depth]?;
        Ok(Stack { words })
    }

    /// How many words it has room for. It takes no memory.
    pub fn room(&self) -> usize
        ensures { result ≡ self.now }
    {
        self.words.len()
    }
}
