//! Lists whose memory is used again.
ghost use Rattle.std.specs.Prelude.{◌≡◌, ◌<◌, ◌∷◌, [], IfErr, IfOk, OnOk, drop, max, slice_index_or, vec_capacity};
ghost use Rattle.lookup_columns.specs.SpareLists.{rooms};

use std::alloc::{AllocError, Global};

/// Lists that are not in use. Their memory is kept for the next ones.
#[derive(Drop)]
pub struct SpareLists<T> {
    lists: Vec<Vec<T>>,
}

impl<T: Drop> SpareLists<T> {
    /// No lists.
    pub fn new(alloc: Global) -> SpareLists<T>
        ensures { rooms result ≡ [] }
    {
        SpareLists {
            lists: Vec::new(alloc),
        }
    }

    /// An empty list with room for this many items: the one that was put away last, if there is one,
    /// with more room only where it has too little. Fails only when out of memory; the list is then
    /// freed.
    pub fn take(&mut self, alloc: Global, room: usize) -> Result<Vec<T>, AllocError>
        ensures empty { IfOk result (λ list. list.items ≡ []) }
        ensures used_again { IfOk result (λ list. vec_capacity list
            ≡ max (slice_index_or (rooms self.old) 0 0) room) }
        ensures left { rooms self.new ≡ drop 1 (rooms self.old) }
    {
        let mut list = match self.lists.pop() {
            Some(list) => list,
            None => Vec::new(alloc),
        };
        list.clear();
        list.reserve_exact(room)?;
        Ok(list)
    }

    /// Puts a list away, unless it has no memory to use again. Fails only when out of memory; the list
    /// is then freed.
    pub fn put(&mut self, list: Vec<T>) -> Result<(), AllocError>
        ensures none { vec_capacity list ≡ 0 → OnOk result (rooms self.new ≡ rooms self.old) }
        ensures one { 0 < vec_capacity list
            → OnOk result (rooms self.new ≡ vec_capacity list ∷ rooms self.old) }
        ensures refused { IfErr result (λ _. rooms self.new ≡ rooms self.old) }
    {
        if list.capacity() > 0 {
            self.lists.push(list)?;
        }
        Ok(())
    }
}
