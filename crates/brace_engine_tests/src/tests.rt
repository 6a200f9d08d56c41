//! What no clause says: answers worked by hand, and that calls answer where memory is ample.
mod audits;
mod codes;
mod draws;
mod exprs;
mod folds;
mod grids;
mod inversion;
mod lanes;
mod models;
mod owned;
mod pieces;
mod renewals;
mod rules;
mod steps;
mod totals;
