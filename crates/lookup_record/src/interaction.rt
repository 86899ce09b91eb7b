//! The records of a symbolic evaluation.
ghost use Rattle.std.specs.Prelude.{◌≡◌, IfOk, map};
ghost use Rattle.air_expressions.specs.Tree.{tree_of};
ghost use Rattle.lookup_record.specs.Interaction.{map_branch, map_exclusive, map_global, map_tuple};
ghost use Rattle.lookup_record.specs.Pushed.{tuple_of};
ghost use Rattle.lookup_record.specs.Records.{branch_of, exclusive_of, global_of, local_of};

use crate::count::Count;
use air::{Expression, SymbolicExpression, copy_expressions};
use field::Field;
use std::alloc::{AllocError, Global};

/// One message on a bus: on each row the values of `fields`, sent `count` times.
#[derive(Debug, Drop)]
pub struct SymbolicInteraction<F> {
    /// The name of the bus, which all AIRs of one batch share.
    pub bus_name: String,
    /// The message, first element first.
    pub fields: Vec<SymbolicExpression<F>>,
    /// How often it is sent: positive for a send or a query, negative for a receive or an entry.
    pub count: SymbolicExpression<F>,
    /// The most that one row adds to the count in absolute value, 0 for a provided entry.
    pub count_weight: u64,
}

/// One tuple of a local lookup with its count.
pub type LocalTuple<F> = (Vec<SymbolicExpression<F>>, Count<SymbolicExpression<F>>);

/// One lookup inside an AIR, whose tuples have to cancel over the rows of the AIR's own trace.
#[derive(Debug, Drop)]
pub struct SymbolicLocalInteraction<F> {
    /// The tuples, each with its count.
    pub tuples: Vec<LocalTuple<F>>,
}

/// A group of messages on one bus. A row sends at most one of them: the one whose flag is set.
///
/// The AIR must enforce that each flag is 0 or 1 and that at most one is set on each row.
#[derive(Debug, Drop)]
pub struct SymbolicExclusiveInteraction<F> {
    /// The name of the bus.
    pub bus_name: String,
    /// The branches in order.
    pub branches: Vec<SymbolicExclusiveBranch<F>>,
}

/// One branch of a group.
#[derive(Debug, Drop)]
pub struct SymbolicExclusiveBranch<F> {
    /// 1 on a row that sends this branch, else 0.
    pub flag: SymbolicExpression<F>,
    /// How often the message is sent if the flag is set.
    pub count: SymbolicExpression<F>,
    /// The message, first element first.
    pub fields: Vec<SymbolicExpression<F>>,
    /// The most that one row adds to the count in absolute value.
    pub count_weight: u64,
}

impl<F: Field> SymbolicInteraction<F> {
    /// A deep copy.
    ///
    /// Fails only when out of memory.
    pub fn copy(&self, alloc: Global) -> Result<Self, AllocError>
        ensures { IfOk result (λ r. map_global tree_of (global_of r)
            ≡ map_global tree_of (global_of self.now)) }
    {
        Ok(SymbolicInteraction {
            bus_name: String::from_str(alloc, self.bus_name.as_str())?,
            fields: copy_expressions(alloc, self.fields.as_slice())?,
            count: self.count.copy(alloc)?,
            count_weight: self.count_weight,
        })
    }
}

impl<F: Field> SymbolicLocalInteraction<F> {
    /// A deep copy.
    ///
    /// Fails only when out of memory.
    pub fn copy(&self, alloc: Global) -> Result<Self, AllocError>
        ensures { IfOk result (λ r. map (map_tuple tree_of) (local_of r)
            ≡ map (map_tuple tree_of) (local_of self.now)) }
    {
        let mut tuples = Vec::new(alloc);
        for tuple in self.tuples.as_slice() {
            tuples.push(copy_local_tuple(alloc, tuple)?)?;
        }
        Ok(SymbolicLocalInteraction { tuples })
    }
}

impl<F: Field> SymbolicExclusiveInteraction<F> {
    /// A deep copy.
    ///
    /// Fails only when out of memory.
    pub fn copy(&self, alloc: Global) -> Result<Self, AllocError>
        ensures { IfOk result (λ r. map_exclusive tree_of (exclusive_of r)
            ≡ map_exclusive tree_of (exclusive_of self.now)) }
    {
        let bus_name = String::from_str(alloc, self.bus_name.as_str())?;
        let mut branches = Vec::new(alloc);
        for branch in self.branches.as_slice() {
            branches.push(branch.copy(alloc)?)?;
        }
        Ok(SymbolicExclusiveInteraction { bus_name, branches })
    }
}

impl<F: Field> SymbolicExclusiveBranch<F> {
    /// A deep copy.
    ///
    /// Fails only when out of memory.
    pub fn copy(&self, alloc: Global) -> Result<Self, AllocError>
        ensures { IfOk result (λ r. map_branch tree_of (branch_of r)
            ≡ map_branch tree_of (branch_of self.now)) }
    {
        Ok(SymbolicExclusiveBranch {
            flag: self.flag.copy(alloc)?,
            count: self.count.copy(alloc)?,
            fields: copy_expressions(alloc, self.fields.as_slice())?,
            count_weight: self.count_weight,
        })
    }
}

/// A copy of the tuple.
fn copy_local_tuple<F: Field>(
    alloc: Global,
    tuple: &LocalTuple<F>,
) -> Result<LocalTuple<F>, AllocError>
    ensures { IfOk result (λ t. map_tuple tree_of (tuple_of t)
        ≡ map_tuple tree_of (tuple_of tuple.now)) }
{
    let fields = copy_expressions(alloc, tuple.0.as_slice())?;
    let count = tuple.1.copy_tree(alloc)?;
    Ok((fields, count))
}
