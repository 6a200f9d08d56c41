/// The most bytes of a script.
pub const SCRIPT_LIMIT: u64 = 1_048_576;

/// The most bytes of an agent file.
pub const AGENTS_LIMIT: u64 = 268_435_456;

/// The most bytes of a checkpoint.
pub const CHECKPOINT_LIMIT: u64 = 268_435_456;

/// The most bytes of a cut plan.
pub const PLAN_LIMIT: u64 = 1_048_576;

/// The most bytes of a watch file.
pub const WATCH_LIMIT: u64 = 1_048_576;
