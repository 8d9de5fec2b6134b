ghost use Rattle.vmv_keeper.specs.Tables.{Tables};
ghost use Rattle.vmv_keeper.specs.Formed.{AreFormed};
ghost use Rattle.vmv_keeper.specs.Changes.{Fits, after};

use crate::change::Change;

/// A law, with nothing to do: well formed rows stay so under a change that fits them.
pub fn changes_keep_rows_formed()
    ensures { (tables : Tables) (change : Change) → AreFormed tables → Fits tables change → AreFormed (after change tables) }
{}
