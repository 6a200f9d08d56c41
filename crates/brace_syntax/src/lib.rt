//! The grammar of scripts: trees, and the parser that reads them from tokens.
#![tactic(auto)]

mod class;
mod entry;
mod expr;
mod fault;
pub mod laws;
mod mark;
mod operators;
mod scan;
mod stmt;
mod tokens;
mod tree;

pub use entry::parse;
pub use fault::SynFault;
pub use tree::{
    BinName, ClassTree, CombName, Digits, ExprTree, GiftTree, Ident, MemberTree, Number, StmtTree,
    Tree, TyName, UnName,
};
