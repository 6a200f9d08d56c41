//! Pieces as bytes: frames, a decoder that takes a stream of them in pieces, and lanes over links
//! that lose, repeat and reorder what they carry.
#![tactic(auto)]

mod carrier;
mod decoder;
mod encoding;
mod fate;
mod fault;
mod frame;
mod kept;
pub mod laws;
mod link;
mod numbers;
mod parts;
mod pieces;
mod receiver;
mod run;
mod wire_lanes;
mod write;

pub use decoder::Decoder;
pub use encoding::encode;
pub use fate::Fate;
pub use fault::WireFault;
pub use frame::Frame;
pub use kept::Kept;
pub use run::run_over_links;
pub use wire_lanes::WireLanes;
