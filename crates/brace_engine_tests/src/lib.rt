//! The engine below parts worked by hand, layer by layer: worlds, totals, expressions and ticks,
//! inversion, grids, queries in lanes, pieces and audits.
#![tactic(auto)]

#[cfg(test)]
mod tests;
