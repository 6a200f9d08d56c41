ghost use Rattle.std.specs.Prelude.{◌≡◌, ◌≤◌, ℕ, Err, Some, IfOk, IfErr};
ghost use Rattle.brace_io.specs.Counts.{Rose};
ghost use Rattle.brace_model.specs.declared.program.Program.{Program};
ghost use Rattle.brace_pieces.specs.Settings.{LawfulSetting};
ghost use Rattle.brace_desk.specs.Refusals.{tick_of};

use brace_io::Failed;
use brace_num::NoMemory;
use brace_pieces::{Setting, Shown};
use std::alloc::Global;

/// Why a publisher did not take what it was shown.
#[derive(Clone, Copy, PartialEq, Eq, Drop)]
pub enum PubFault {
    /// The output failed.
    Write,
    /// The checkpoint of this tick was not saved.
    Save(u64),
    /// The figures of this tick were not saved.
    Watch(u64),
    /// The allocator refused memory.
    NoMemory,
}

impl From<Failed> for PubFault {
    ghost use Rattle.brace_desk.specs.declared.publisher.PubFault.TheVariants as kind;

    ghost from_gives = { λ _ fault. fault ≡ kind.Write };

    fn from(_: Failed) -> PubFault {
        PubFault::Write
    }
}

impl From<NoMemory> for PubFault {
    ghost use Rattle.brace_desk.specs.declared.publisher.PubFault.TheVariants as kind;

    ghost from_gives = { λ _ fault. fault ≡ kind.NoMemory };

    fn from(_: NoMemory) -> PubFault {
        PubFault::NoMemory
    }
}

/// One to whom the whole worlds of a run are shown, end by end.
pub trait Publisher: Drop {
    ghost use Rattle.std.specs.Prelude.{ℕ, List};
    ghost use Rattle.brace_model.specs.declared.program.Program.{Program};
    ghost use Rattle.brace_pieces.specs.declared.setting.Setting.{Setting};
    ghost use Rattle.brace_pieces.specs.declared.piece.Shown.{Shown};
    ghost use Rattle.brace_desk.specs.declared.publisher.PubFault.{PubFault};

    /// What a state is made of.
    ghost State: { Type 0 };

    /// What it has made of all that it was shown.
    ghost state: { Self → State };

    /// What a call that answers Ok leaves, for the setting, the tick and the worlds shown.
    ghost after: { State → Setting → ℕ → List Shown → State };

    /// Whether a call that refuses for this fault may leave the second state.
    ghost cut: { State → Setting → ℕ → List Shown → PubFault → State → Type 0 };

    /// How many writes of its output failed; a count of 64 bits that never falls.
    ghost writes: { Self → ℕ };

    /// How many calls of its shelf failed; a count of 64 bits that never falls.
    ghost saves: { Self → ℕ };

    /// The names of the references that it holds. No call changes them.
    ghost loans: { Self → List ℕ };

    /// Whether it may be shown the worlds of a program's runs.
    ghost fits: { Self → Program → Type 0 };

    /// Takes the whole worlds of the ticks that are shown at an end of a run, or behind its fault;
    /// `tick` is that end, or the fault's. The run is lawful. Where memory is refused its state is
    /// what it was.
    fn epoch(
        &mut self,
        alloc: Global,
        setting: &Setting,
        tick: u64,
        shown: &[Shown],
    ) -> Result<(), PubFault>
        requires lawful { LawfulSetting setting.now }
        requires fits { fits self.old setting.now.job.program }
        ensures done { IfOk result
            (λ _. state self.new ≡ after (state self.old) setting.now tick shown.now) }
        ensures cut { IfErr result
            (λ fault. cut (state self.old) setting.now tick shown.now fault (state self.new)) }
        ensures unmoved { result ≡ Err PubFault.NoMemory → state self.new ≡ state self.old }
        ensures written { result ≡ Err PubFault.Write → Rose (writes self.old) (writes self.new) }
        ensures saved { IfErr result (λ fault. (k : ℕ) → tick_of fault ≡ Some k
            → (k ≡ tick) × Rose (saves self.old) (saves self.new)) }
        ensures writes_rise { writes self.old ≤ writes self.new }
        ensures saves_rise { saves self.old ≤ saves self.new }
        ensures same_loans { loans self.new ≡ loans self.old }
        ensures still_fits { (program : Program) → fits self.old program
            → fits self.new program };
}
