use crate::files::{save, saved_file};
use crate::rows::{text_of, write_out};
use crate::{Keeper, PubFault, Publisher};
use brace_io::Sink;
use brace_pieces::{Setting, Shown};
use std::alloc::Global;

/// Writes the rows of published ticks to a sink, and has a keeper save checkpoints of the ends.
///
/// It is made by its fields, as a caller learns what becomes of `out` and `keeper` behind a run
/// only so, and where no enum in it holds a reference.
#[derive(Drop)]
pub struct FilePublisher<'a, K: Keeper, O: Sink> {
    /// Where rows go.
    pub out: &'a mut O,
    /// Where checkpoints go.
    pub keeper: &'a mut K,
    /// The checkpoint of the tick k is saved as `NAME.k`, where this is NAME.
    pub save: &'a Option<&'a str>,
    /// The run's first tick is published as any other.
    pub fresh: bool,
}

impl<'a, K: Keeper, O: Sink> Publisher for FilePublisher<'a, K, O> {
    ghost use Rattle.std.specs.Prelude.{◌∷◌, option_map, ⊤};
    ghost use Rattle.brace_desk.specs.Filed.{Filed, after_epoch, IsCut};

    ghost State = { Filed };

    ghost state = { λ p. record {
      written = O.written p.out.now;
      clean = O.clean p.out.now;
      held = K.held p.keeper.now;
      stage = K.stage p.keeper.now;
      save = option_map (λ name. name.now) p.save.now;
      fresh = p.fresh;
    } };

    ghost after = { after_epoch };

    ghost cut = { IsCut };

    ghost writes = { λ p. O.faults p.out.now };

    ghost saves = { λ p. K.faults p.keeper.now };

    ghost loans = { λ p. p.out.ghost_name ∷ p.keeper.ghost_name ∷ K.loans p.keeper.now };

    ghost fits = { λ _ _. ⊤ };

    fn epoch(
        &mut self,
        alloc: Global,
        setting: &Setting,
        end: u64,
        shown: &[Shown],
    ) -> Result<(), PubFault> {
        let text = text_of(alloc, &setting.job, self.fresh, shown)?;
        let file = saved_file(alloc, *self.save, setting, end, shown)?;
        write_out(self.out, text.as_slice())?;
        if save(self.keeper, &file).is_err() {
            return Err(PubFault::Save(end));
        }
        Ok(())
    }
}
