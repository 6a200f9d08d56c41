//! One part of the plane as an actor: it exchanges pieces with the parts that it is near, and with
//! all a census of those that live on and that bear; it evaluates the queries and the updates of
//! the agents that it owns, and shows these to the publisher.
#![tactic(auto)]

mod part;
mod standing;

pub use part::Part;
