//! The lists of columns, whose memory is used again for the next ones.
ghost use Rattle.std.specs.Prelude.{◌≡◌, [], IfOk};

use crate::columns::BranchColumns;
use crate::slots::Slots;
use crate::spare::SpareLists;
use std::alloc::{AllocError, Global};

/// Lists that columns have filled, put away for the next ones.
#[derive(Drop)]
pub struct ColumnMemory<F, EF> {
    /// For the values of expressions.
    pub(crate) slots: Slots<F>,
    /// For rows, and for indices of rows.
    pub indices: SpareLists<usize>,
    /// For the denominators of a tuple.
    pub(crate) denominators: SpareLists<EF>,
    /// For the columns of each tuple of a lookup.
    pub(crate) branches: SpareLists<BranchColumns<F, EF>>,
}

impl<F: Drop, EF: Drop> ColumnMemory<F, EF> {
    /// No lists.
    pub fn new(alloc: Global) -> ColumnMemory<F, EF> {
        ColumnMemory {
            slots: Slots::new(alloc),
            indices: SpareLists::new(alloc),
            denominators: SpareLists::new(alloc),
            branches: SpareLists::new(alloc),
        }
    }

    /// An empty list for the columns of so many tuples. For none it takes no list, so that each lookup
    /// finds the one that it had before.
    pub(crate) fn take_branches(
        &mut self,
        alloc: Global,
        many: usize,
    ) -> Result<Vec<BranchColumns<F, EF>>, AllocError>
        ensures { IfOk result (λ branches. branches.items ≡ []) }
    {
        if many == 0 {
            Ok(Vec::new(alloc))
        } else {
            self.branches.take(alloc, many)
        }
    }

    /// Puts away the columns of a lookup. Fails only when out of memory.
    pub fn put_branches(
        &mut self,
        mut branches: Vec<BranchColumns<F, EF>>,
    ) -> Result<(), AllocError> {
        while let Some(branch) = branches.pop() {
            self.put_branch(branch)?;
        }
        self.branches.put(branches)
    }

    /// Puts away the columns of one tuple.
    fn put_branch(&mut self, branch: BranchColumns<F, EF>) -> Result<(), AllocError> {
        let BranchColumns {
            flags,
            indices,
            multiplicities,
            denominators,
        } = branch;
        self.slots.put(flags)?;
        self.indices.put(indices)?;
        self.slots.put(multiplicities)?;
        self.denominators.put(denominators)
    }
}
