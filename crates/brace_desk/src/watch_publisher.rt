use crate::files::save;
use crate::watched::watched_file;
use crate::{FilePublisher, Keeper, PubFault, Publisher};
use brace_io::Sink;
use brace_pieces::{Setting, Shown};
use brace_watch::Watch;
use std::alloc::Global;

/// Does what a publisher of rows and checkpoints does, and then has its keeper save the figures of
/// the end. It takes runs of the programs for which these are watched.
///
/// It is made by its fields, as [`FilePublisher`] is.
#[derive(Drop)]
pub struct WatchPublisher<'a, K: Keeper, O: Sink> {
    /// The publisher of rows and checkpoints.
    pub files: FilePublisher<'a, K, O>,
    /// The figures that are watched, as a watch file asks for them.
    pub watches: &'a [Watch],
    /// The figures up to the tick k are saved as `NAME.k`, where this is NAME.
    pub name: &'a Option<&'a str>,
}

impl<'a, K: Keeper, O: Sink> Publisher for WatchPublisher<'a, K, O> {
    ghost use Rattle.std.specs.Prelude.{◌∷◌, option_map};
    ghost use Rattle.brace_watch.specs.Watches.{AreWatches};
    ghost use Rattle.brace_desk.specs.Watched.{Watching, after_watched, IsCut};

    ghost State = { Watching };

    ghost state = { λ p. record {
      filed = record {
        written = O.written p.files.out.now;
        clean = O.clean p.files.out.now;
        held = K.held p.files.keeper.now;
        stage = K.stage p.files.keeper.now;
        save = option_map (λ name. name.now) p.files.save.now;
        fresh = p.files.fresh;
      };
      watches = p.watches.now;
      name = option_map (λ name. name.now) p.name.now;
    } };

    ghost after = { after_watched };

    ghost cut = { IsCut };

    ghost writes = { λ p. O.faults p.files.out.now };

    ghost saves = { λ p. K.faults p.files.keeper.now };

    ghost loans = { λ p.
        p.files.out.ghost_name ∷ p.files.keeper.ghost_name ∷ K.loans p.files.keeper.now };

    ghost fits = { λ p program. AreWatches program p.watches.now };

    fn epoch(
        &mut self,
        alloc: Global,
        setting: &Setting,
        end: u64,
        shown: &[Shown],
    ) -> Result<(), PubFault> {
        let fresh = self.files.fresh;
        let file = watched_file(alloc, *self.name, self.watches, fresh, setting, end, shown)?;
        self.files.epoch(alloc, setting, end, shown)?;
        if save(self.files.keeper, &file).is_err() {
            return Err(PubFault::Watch(end));
        }
        Ok(())
    }
}
