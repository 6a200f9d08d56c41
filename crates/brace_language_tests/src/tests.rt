//! What no clause says: answers worked by hand, at limits and one past them.
mod canonical;
mod checks;
mod lines;
mod names;
mod scripts;
mod tokens;
mod trees;
