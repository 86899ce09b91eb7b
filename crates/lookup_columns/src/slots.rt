//! The slots that steps fill and empty.
ghost use Rattle.std.specs.Prelude.{◌≡◌, ◌<◌, ◌∷◌, [], IfErr, IfOk, OnOk, drop, max, slice_index_or, vec_capacity};
ghost use Rattle.lookup_columns.specs.Slots.{filled_slots, spare_rooms};
ghost use Rattle.lookup_columns.specs.internal.Slots.{last_of, slots_before_last};

use crate::spare::SpareLists;
use std::alloc::{AllocError, Global};

/// Slots for lists, and lists that are put away, whose memory is used again.
#[derive(Drop)]
pub struct Slots<F> {
    lists: Vec<Vec<F>>,
    spare: SpareLists<F>,
}

impl<F: Drop> Slots<F> {
    /// No slot is filled, and no list is put away.
    pub fn new(alloc: Global) -> Slots<F>
        ensures slots { filled_slots result ≡ [] }
        ensures spare { spare_rooms result ≡ [] }
    {
        Slots {
            lists: Vec::new(alloc),
            spare: SpareLists::new(alloc),
        }
    }

    /// Empties all slots.
    pub(crate) fn clear(&mut self) -> Result<(), AllocError>
        ensures { OnOk result (filled_slots self.new ≡ []) }
    {
        while let Some(list) = self.lists.pop() {
            self.spare.put(list)?;
        }
        Ok(())
    }

    /// Fills one more slot.
    pub(crate) fn push(&mut self, list: Vec<F>) -> Result<(), AllocError>
        ensures slots { OnOk result (filled_slots self.new ≡ list.items ∷ filled_slots self.old) }
        ensures spare { spare_rooms self.new ≡ spare_rooms self.old }
    {
        self.lists.push(list)?;
        Ok(())
    }

    /// Empties the slot that was filled last, and returns its list. It is empty if no slot is filled.
    pub(crate) fn pop(&mut self, alloc: Global) -> Vec<F>
        ensures last { result.items ≡ last_of (filled_slots self.old) }
        ensures others { filled_slots self.new ≡ slots_before_last (filled_slots self.old) }
        ensures spare { spare_rooms self.new ≡ spare_rooms self.old }
    {
        match self.lists.pop() {
            Some(list) => list,
            None => Vec::new(alloc),
        }
    }

    /// Empties the last two slots, and returns their lists in the order in which they were filled.
    pub(crate) fn pop_two(&mut self, alloc: Global) -> (Vec<F>, Vec<F>)
        ensures first { result.0.items ≡ last_of (slots_before_last (filled_slots self.old)) }
        ensures last { result.1.items ≡ last_of (filled_slots self.old) }
        ensures others { filled_slots self.new ≡ slots_before_last (slots_before_last (filled_slots self.old)) }
        ensures spare { spare_rooms self.new ≡ spare_rooms self.old }
    {
        let last = self.pop(alloc);
        let first = self.pop(alloc);
        (first, last)
    }

    /// An empty list with room for this many items, as `SpareLists::take` finds one. Fails only when
    /// out of memory.
    pub(crate) fn take(&mut self, alloc: Global, room: usize) -> Result<Vec<F>, AllocError>
        ensures empty { IfOk result (λ list. list.items ≡ []) }
        ensures used_again { IfOk result (λ list. vec_capacity list
            ≡ max (slice_index_or (spare_rooms self.old) 0 0) room) }
        ensures left { spare_rooms self.new ≡ drop 1 (spare_rooms self.old) }
        ensures others { filled_slots self.new ≡ filled_slots self.old }
    {
        self.spare.take(alloc, room)
    }

    /// Puts a list away that is no longer used, unless it has no memory. Fails only when out of memory;
    /// the list is then freed.
    pub fn put(&mut self, used: Vec<F>) -> Result<(), AllocError>
        ensures none { vec_capacity used ≡ 0
            → OnOk result (spare_rooms self.new ≡ spare_rooms self.old) }
        ensures one { 0 < vec_capacity used
            → OnOk result (spare_rooms self.new ≡ vec_capacity used ∷ spare_rooms self.old) }
        ensures refused { IfErr result (λ _. spare_rooms self.new ≡ spare_rooms self.old) }
        ensures others { filled_slots self.new ≡ filled_slots self.old }
    {
        self.spare.put(used)
    }
}
