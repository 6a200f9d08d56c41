//! What each kind of step tells its seat.
ghost use Rattle.brace_lanes.specs.Views.{splitting, newcomer};
ghost use Rattle.brace_lanes.specs.inner.Steps.{Looks, Claims, StoresPut, StoresTaken};

use crate::cargo::Cargo;
use crate::table::View;
use atomic_table::{Play, Split};

/// A load of the put word of a lane, by the seat that takes from it.
pub(crate) struct Look;

impl<F: Cargo> Play<Option<F>, View<F::Setting>> for Look {
    ghost then = { Looks F.schedule F.right };
}

/// A load of the taken word of a lane, by the seat that puts to it.
pub(crate) struct Claim;

impl<F, S> Play<Option<F>, View<S>> for Claim {
    ghost then = { Claims };
}

/// A store of the put word, one higher.
pub(crate) struct StorePut;

impl<F, S> Play<Option<F>, View<S>> for StorePut {
    ghost then = { StoresPut };
}

/// A store of the taken word, one higher.
pub(crate) struct StoreTaken;

impl<F, S> Play<Option<F>, View<S>> for StoreTaken {
    ghost then = { StoresTaken };
}

/// One more seat.
pub(crate) struct Cut;

impl<S> Split<View<S>> for Cut {
    ghost left = { splitting };

    ghost right = { newcomer };
}
