//! Numbers and files worked by hand: spellings, shelves and sinks, cut plans, agent files, rows,
//! checkpoints and watched figures.
#![tactic(auto)]

#[cfg(test)]
mod tests;
