ghost use Rattle.std.specs.Prelude.{◌≡◌, ◌≤◌, ℕ, length, IfOk, IfErr, MatchResult};
ghost use Rattle.brace_tok.specs.Spells.{Spells};
ghost use Rattle.brace_syntax.specs.Depth.{NowhereDeep, FirstDeepAt};
ghost use Rattle.brace_syntax.specs.Reads.{Reads};
ghost use Rattle.brace_syntax.specs.Refusals.{NoScript, Refuses, IsUnread, StandsIn};
ghost use Rattle.brace_syntax.specs.declared.tree.Tree.{Tree};
ghost use Rattle.brace_syntax.specs.declared.fault.SynFault.{SynFault};

use crate::class::script;
use crate::fault::{Stop, SynFault};
use crate::scan::first_deep;
use crate::tokens::Tokens;
use crate::tree::Tree;
use brace_tok::Token;
use std::alloc::Global;

/// The script that the tokens of a source of at most 1,048,576 bytes are. Gives `TooDeep` exactly
/// where the tokens are too deep somewhere, at the first token up to which they are. Where they are
/// nowhere too deep, it gives the script where they are one, `NoReading` where they are none, or in
/// place of either `NoMemory`. `NoReading` stands at the first token up to and including which no
/// script begins with the tokens, or at the end of the source where some script begins with all.
pub fn parse(alloc: Global, src: &[u8], toks: &[Token]) -> Result<Tree, SynFault>
    requires sized { length src.now ≤ 1048576 }
    requires spelled { Spells src.now toks.now }
    ensures reads { IfOk result (λ tree. Reads src.now toks.now tree) }
    ensures shallow { IfOk result (λ _. NowhereDeep toks.now) }
    ensures refused { IfErr result (Refuses src.now toks.now) }
    ensures read { (tree : Tree) → Reads src.now toks.now tree → NowhereDeep toks.now
        → MatchResult result (λ found. found ≡ tree) (λ fault. fault ≡ SynFault.NoMemory) }
    ensures deep { (at : ℕ) → FirstDeepAt toks.now at
        → MatchResult result (λ _. ⊥) (λ fault. fault ≡ SynFault.TooDeep at) }
    ensures unread { NowhereDeep toks.now → NoScript src.now toks.now
        → MatchResult result (λ _. ⊥) IsUnread }
    ensures place { IfErr result (StandsIn src.now toks.now) }
{
    if let Some(at) = first_deep(toks) {
        return Err(SynFault::TooDeep(at));
    }
    let mut tokens = Tokens::new(src, toks);
    match script(alloc, &mut tokens) {
        Ok(tree) => Ok(tree),
        Err(Stop::NoReading(at)) => Err(SynFault::NoReading(at)),
        Err(Stop::NoMemory) => Err(SynFault::NoMemory),
    }
}
