//! Tuples that do not balance, as data.
ghost use Rattle.std.specs.Prelude.{◌≡◌, ◌++◌, ◌∷◌, [], IfOk, List, OnOk};
ghost use Rattle.lookup_debug.specs.BusTable.{location_and_count_of};
ghost use Rattle.lookup_debug.specs.Contributions.{SentLocation};
ghost use Rattle.lookup_debug.specs.internal.Kept.{IsKept};

use crate::fault::Location;
use std::alloc::{AllocError, Global};

/// One contribution of a tuple.
#[derive(Clone, Copy, Debug, Drop)]
pub struct Place<F> {
    /// Where the tuple is sent.
    pub location: Location,
    /// How much of it is sent there: flag times count, which is not zero.
    pub count: F,
}

/// A tuple whose net is not zero.
#[derive(Debug, Drop)]
pub struct UnbalancedTuple<F> {
    /// Its elements.
    pub tuple: Vec<F>,
    /// How much of it is sent in total.
    pub net: F,
    /// How many contributions it has, those of zero left out. `usize::MAX` stands for all greater numbers.
    pub place_count: usize,
    /// The first of them, in the order instance, lookup, row, tuple.
    pub places: Vec<Place<F>>,
}

impl<F: Copy> UnbalancedTuple<F> {
    /// A tuple without places.
    pub(crate) fn new(alloc: Global, tuple: &[F], net: F) -> Result<UnbalancedTuple<F>, AllocError>
        ensures { IfOk result (λ u. (u.tuple.items ≡ tuple.now) × (u.net ≡ net)
            × (u.place_count ≡ 0) × (u.places.items ≡ [])) }
    {
        Ok(UnbalancedTuple {
            tuple: Vec::from_slice(alloc, tuple)?,
            net,
            place_count: 0,
            places: Vec::new(alloc),
        })
    }

    /// Adds a place. It is kept if fewer than `limit` are.
    pub(crate) fn push(&mut self, place: Place<F>, limit: usize) -> Result<(), AllocError>
        ensures tuple { self.new.tuple ≡ self.old.tuple }
        ensures net { self.new.net ≡ self.old.net }
        ensures place { (places : List (SentLocation × F)) → IsKept limit places self.old
            → OnOk result (IsKept limit (places ++ location_and_count_of place ∷ []) self.new) }
    {
        self.place_count = self.place_count.saturating_add(1);
        if self.places.len() < limit {
            self.places.push(place)?;
        }
        Ok(())
    }
}
