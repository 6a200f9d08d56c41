use crate::Mode;
use brace_num::Text;

/// What a command line says. An option that does not stand in the words is None.
#[derive(Debug, Drop)]
pub struct Line {
    /// What the command does.
    pub mode: Mode,
    /// The name of the script.
    pub script: Option<Text>,
    /// The name of the agent file.
    pub agents: Option<Text>,
    /// The name of the checkpoint.
    pub from: Option<Text>,
    /// The last tick, at most 2^32.
    pub ticks: Option<u64>,
    /// How many agents are made, at most 2^20.
    pub count: Option<u32>,
    /// The seed of the draws.
    pub seed: Option<u64>,
    /// Ticks that it divides are published: 1 to 2^32.
    pub every: Option<u64>,
    /// The ticks of an epoch: 1 to 16.
    pub epoch: Option<u64>,
    /// The name of the cut plan.
    pub cuts: Option<Text>,
    /// How many workers run the partitions: 1 to 16.
    pub workers: Option<u32>,
    /// The seed of the order in which one worker takes turns.
    pub order: Option<u64>,
    /// Whether assignments to other agents are inverted.
    pub invert: bool,
    /// The name under which checkpoints are saved.
    pub save: Option<Text>,
    /// Whether the counts of a run are told.
    pub stats: bool,
    /// What becomes of each piece on a link, in turn: 1 to 16 of the letters `l` (lost), `d`
    /// (delivered), `t` (twice) and `a` (after the others), not all `l`.
    pub link: Option<Text>,
    /// The name of the file that is compared.
    pub published: Option<Text>,
    /// The name of the file of figures that are watched.
    pub watch: Option<Text>,
    /// The most strips into which the plane is cut: 1 to 64.
    pub strips: Option<u32>,
}
