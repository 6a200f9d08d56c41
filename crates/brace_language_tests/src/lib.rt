//! Scripts and command lines worked by hand: what tokens, trees, canonical texts, names, checks and
//! words come to.
#![tactic(auto)]

#[cfg(test)]
mod tests;
