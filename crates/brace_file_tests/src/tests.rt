//! What no clause says: answers worked by hand, and that calls answer where memory is ample.
mod checkpoints;
mod herds;
mod numbers;
mod plans;
mod programs;
mod rows;
mod shelves;
mod sinks;
mod watches;
