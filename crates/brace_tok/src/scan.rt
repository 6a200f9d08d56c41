ghost use Rattle.std.specs.Prelude.{◌≡◌, ◌⊎◌, ◌≤◌, All, List, length, IfOk, IfErr, MatchResult};
ghost use Rattle.brace_tok.specs.Answers.{IsFault};
ghost use Rattle.brace_tok.specs.Names.{IsNamed};
ghost use Rattle.brace_tok.specs.Spells.{FirstFault, Rises, Spells};
ghost use Rattle.brace_tok.specs.declared.fault.TokFault.{TokFault};
ghost use Rattle.brace_tok.specs.declared.kinds.Token.{Token};
ghost use Rattle.brace_tok.specs.inner.Steps.{HasEnd, Passes};

use crate::step::{Step, step_at};
use crate::{TokFault, Token};
use std::alloc::Global;

/// The tokens of a text of at most 1,048,576 bytes, or its first fault.
pub fn tokens(alloc: Global, src: &[u8]) -> Result<Vec<Token>, TokFault>
    requires { length src.now ≤ 1048576 }
    ensures spelled { IfOk result (λ toks. Spells src.now toks.items) }
    ensures refused { IfErr result (IsFault src.now) }
    ensures listed { (toks : List Token) → Spells src.now toks
        → MatchResult result (λ list. list.items ≡ toks) (λ fault. fault ≡ TokFault.NoMemory) }
    ensures faulted { (first : TokFault) → FirstFault src.now first
        → MatchResult result (λ _. ⊥) (λ fault. (fault ≡ first) ⊎ (fault ≡ TokFault.NoMemory)) }
    ensures names { IfOk result (λ toks. All (IsNamed src.now) toks.items) }
    ensures rising { IfOk result (λ toks. Rises 0 (length src.now) toks.items) }
{
    let mut toks = Vec::new(alloc);
    let mut rest = src;
    while !rest.is_empty() {
        let at = (src.len() - rest.len()) as u32;
        let length = match pass(step_at(rest, at), at, &mut toks) {
            Ok(length) => length,
            Err(fault) => return Err(fault),
        };
        rest = rest.split_at(length).1;
    }
    Ok(toks)
}

/// Puts the token of a step behind the others, and gives the length of the step.
fn pass(step: Step, at: u32, toks: &mut Vec<Token>) -> Result<usize, TokFault>
    requires { HasEnd at step }
    ensures ok { IfOk result (Passes at step toks.old.items toks.new.items) }
    ensures err { IfErr result (λ fault. (fault ≡ TokFault.NoMemory) ⊎ (step ≡ Step.Fault fault)) }
{
    match step {
        Step::Gap(length) => Ok(length),
        Step::Token(kind, length) => {
            let token = Token {
                kind,
                from: at,
                to: at + length as u32,
            };
            match toks.push(token) {
                Ok(()) => Ok(length),
                Err(_) => Err(TokFault::NoMemory),
            }
        }
        Step::Fault(fault) => Err(fault),
    }
}
