//! Lists that divisions use again.
ghost use Rattle.std.specs.Prelude.{◌≡◌, OnOk, replicate};
ghost use Rattle.field.specs.Division.{AreEmptyLists};

use std::alloc::{AllocError, Global};

/// The lists that a division of a list works in. They grow only where a longer list than before is
/// divided, and what they hold between two divisions has no meaning.
#[derive(Drop)]
pub struct DivisionLists<K> {
    /// Inverses, or the products on the way to them.
    pub inverses: Vec<K>,
    /// One part of each norm, where a division goes by norms.
    pub low: Vec<K>,
    /// The other part of each norm.
    pub high: Vec<K>,
    /// The norms.
    pub norms: Vec<K>,
}

impl<K> DivisionLists<K> {
    /// Empty lists, which have no memory yet.
    pub fn new(alloc: Global) -> Self
        ensures { AreEmptyLists result }
    {
        DivisionLists {
            inverses: Vec::new(alloc),
            low: Vec::new(alloc),
            high: Vec::new(alloc),
            norms: Vec::new(alloc),
        }
    }
}

/// Makes a list hold `value` at `n` places, and nothing else.
pub fn refill<T: Copy>(list: &mut Vec<T>, value: T, n: usize) -> Result<(), AllocError>
    ensures { OnOk result (list.new.items ≡ replicate n value) }
{
    list.clear();
    list.resize(n, value)
}
