//! Whether a builder has room for lookups.
ghost use Rattle.std.specs.Prelude.{◌↔◌, ◌+◌, ◌<◌, All, IsTrue, length};
ghost use Rattle.lookup.specs.Rooms.{HasRoomForLookups};
ghost use Rattle.lookup_model.specs.Records.{LookupsFit};
ghost use Rattle.gate_memory_builders.specs.Layout.{swept_layout};

use crate::inputs::layout;
use lookup::{Lookup, fits};

/// Whether a row of this many cells has one for each lookup besides the accumulator's.
fn have_cells<F>(lookups: &[Lookup<F>], width: usize) -> bool
    ensures { IsTrue result ↔ All (λ lookup. lookup.column + 1 < width) lookups.now }
{
    lookups
        .iter()
        .all(|lookup| lookup.column < width.saturating_sub(1))
}

/// Whether a builder that is made for [`layout`] has room for lookups.
pub fn has_room<F>(lookups: &[Lookup<F>]) -> bool
    ensures fit { IsTrue result → LookupsFit swept_layout lookups.now }
    ensures room { IsTrue result → HasRoomForLookups swept_layout (length lookups.now) }
    ensures cells { IsTrue result → length lookups.now < swept_layout.permutation_width }
    ensures terminal { IsTrue result → 0 < swept_layout.num_permutation_values }
    ensures columns { IsTrue result
        → All (λ lookup. lookup.column + 1 < swept_layout.permutation_width) lookups.now }
{
    let layout = layout();
    fits(lookups, &layout)
        && lookups.len() <= layout.num_permutation_challenges / 2
        && lookups.len() < layout.permutation_width
        && 0 < layout.num_permutation_values
        && have_cells(lookups, layout.permutation_width)
}
