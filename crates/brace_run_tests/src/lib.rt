//! Runs worked by hand: frames, parts that exchange pieces, publishers, and crews of several
//! workers.
#![tactic(auto)]

#[cfg(test)]
mod tests;
