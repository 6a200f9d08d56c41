ghost use Rattle.std.specs.Prelude.{◌≡◌};
ghost use Rattle.brace_model.specs.FaultOrder.{compared, comes_before, earlier, with_earlier, phase_rank, kind_rank};

use brace_num::Kind;
use std::cmp::Ordering;

/// The parts of a tick, in their order.
#[derive(Debug, Clone, Copy, PartialEq, Eq, PartialOrd, Ord, Drop)]
pub enum Phase {
    /// Agents evaluate their queries.
    Query,
    /// Agents evaluate their rules and the conditions and gifts of `die` and `spawn`.
    Update,
    /// Children come into the world.
    Birth,
}

/// A fault of a run: where it stands, and why.
#[derive(Debug, Clone, Copy, PartialEq, Eq, Drop)]
pub struct Fault {
    pub tick: u64,
    pub phase: Phase,
    /// The id of the agent whose query or update faults, or whose child goes too far.
    pub agent: u64,
    /// The number of the site.
    pub site: u32,
    /// The id of the outer loop's agent, where there is one.
    pub outer: Option<u64>,
    /// The id of the inner loop's agent, where there is one.
    pub inner: Option<u64>,
    pub kind: Kind,
}

/// Where an expression stopped, and why.
#[derive(Debug, Clone, Copy, PartialEq, Eq, Drop)]
pub struct Stop {
    /// The number of the site.
    pub site: u32,
    pub kind: Kind,
}

/// The place of a phase in the order of phases.
fn phase_number(phase: Phase) -> u8
    ensures { result ≡ phase_rank phase }
{
    match phase {
        Phase::Query => 0,
        Phase::Update => 1,
        Phase::Birth => 2,
    }
}

/// The place of a kind in the order of kinds.
fn kind_number(kind: Kind) -> u8
    ensures { result ≡ kind_rank kind }
{
    match kind {
        Kind::Overflow => 0,
        Kind::DivZero => 1,
        Kind::NegRoot => 2,
        Kind::TooMany => 3,
    }
}

/// How two faults compare: by tick, phase, agent, site, outer agent, inner agent (none first) and
/// kind.
fn compare(a: &Fault, b: &Fault) -> Ordering
    ensures { result ≡ compared a.now b.now }
{
    a.tick
        .cmp(&b.tick)
        .then(phase_number(a.phase).cmp(&phase_number(b.phase)))
        .then(a.agent.cmp(&b.agent))
        .then(a.site.cmp(&b.site))
        .then(a.outer.cmp(&b.outer))
        .then(a.inner.cmp(&b.inner))
        .then(kind_number(a.kind).cmp(&kind_number(b.kind)))
}

/// Whether one fault comes before another: by tick, phase (query, update, birth), agent, site,
/// outer agent and inner agent, where no loop agent comes before every agent; faults that agree in
/// all of these are ordered by their kinds. It takes no memory.
pub fn fault_less(a: &Fault, b: &Fault) -> bool
    ensures { result ≡ comes_before a.now b.now }
{
    compare(a, b).is_lt()
}

/// The earlier of two faults.
pub fn earlier(a: Fault, b: Fault) -> Fault
    ensures { result ≡ earlier a b }
{
    if fault_less(&b, &a) { b } else { a }
}

/// The earlier of a fault and one that was found before it, if any was.
pub fn with_earlier(found: Option<Fault>, fault: Fault) -> Fault
    ensures { result ≡ with_earlier found fault }
{
    match found {
        None => fault,
        Some(found) => earlier(found, fault),
    }
}
