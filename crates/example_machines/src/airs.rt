//! The AIRs of the machines, which say what each row looks up.
ghost use Rattle.std.specs.Prelude.{◌≡◌, ◌<◌, All, IfErr, IfOk, OnOk};
ghost use Rattle.air.specs.Cell.{IsCellsRefusal};
ghost use Rattle.lookup_record.specs.Pushed.{pushed_local};
ghost use Rattle.lookup_record.specs.Within.{IsInteractionWithin, KeyWithin};
ghost use Rattle.example_machines.specs.Machines.{SendsLike, first_column_of, width_of};
ghost use Rattle.example_machines.specs.Pushes.{EvaluatesOnePush, pushed_if_accepted};
ghost use Rattle.example_machines.specs.declared.airs.MachineAir.TheVariants.{RangeCheck};
ghost use Rattle.example_machines.specs.internal.Pushes.{AreTwoKeys, IsCellTuple};

use air::{Air, AirBuilder, AirError, BaseAir, Expression, current_cell};
use lookup::{Count, InteractionBuilder, LookupBus};
use std::alloc::Global;

/// An AIR of a machine. It holds some neighboring columns of the input, and records one lookup.
#[derive(Clone, Copy, Debug, PartialEq, Eq)]
pub enum MachineAir {
    /// Columns `read provide mult`. One local lookup: `[read]` with count 1, and the provided
    /// `[provide]` with count `-mult`.
    RangeCheck,
    /// Column `key`. It queries `[key]` once on the bus `b`.
    Keys,
    /// Columns `entry mult`. It provides `[entry]` on the bus `b`, used `mult` times.
    Entries,
    /// Columns `flag0 key0 flag1 key1`. One group on the bus `rc`: a row queries the one of the two
    /// keys whose flag is set, or none.
    Group,
}

impl MachineAir {
    /// How many columns it holds.
    pub fn columns(self) -> usize
        ensures { result ≡ width_of self }
    {
        match self {
            MachineAir::RangeCheck => 3,
            MachineAir::Keys => 1,
            MachineAir::Entries => 2,
            MachineAir::Group => 4,
        }
    }

    /// The first column of the input that it holds.
    pub fn first_column(self) -> usize
        ensures { result ≡ first_column_of self }
    {
        match self {
            MachineAir::RangeCheck | MachineAir::Keys | MachineAir::Group => 0,
            MachineAir::Entries => 1,
        }
    }
}

impl<F> BaseAir<F> for MachineAir {
    ghost width = { λ air. width_of air };

    ghost preprocessed_width = { λ _. 0 };

    ghost num_public_values = { λ _. 0 };

    fn width(&self) -> usize {
        self.columns()
    }

    fn preprocessed_width(&self) -> usize {
        0
    }

    fn num_public_values(&self) -> usize {
        0
    }
}

/// Pushes the one lookup. Fails with `LayoutMismatch` on a row that lacks the columns.
impl<AB: InteractionBuilder> Air<AB> for MachineAir {
    ghost evaluates = { λ air before answer after.
        EvaluatesOnePush AB.pushes AB.refuses_push AB.window_refuses AB.layout
        (SendsLike AB.F.ring AB.F.eq (λ x w. AB.Expr.value x (AB.seen w)) (AB.stands_for before)
        (λ w. w.main) air) (width_of air) before answer after
        × OnOk answer (AB.pushed_within before → AB.pushed_within after) };

    fn eval(&self, alloc: Global, builder: &mut AB) -> Result<(), AirError> {
        match self {
            MachineAir::RangeCheck => {
                let tuples = range_tuples(alloc, builder)?;
                builder.push_local_interaction(alloc, tuples)
            }
            MachineAir::Keys => {
                let key = tuple(alloc, builder, 1, 0)?;
                LookupBus::new("b").lookup_key(alloc, builder, key, Count::from(1))
            }
            MachineAir::Entries => {
                let entry = tuple(alloc, builder, 2, 0)?;
                let uses = current_cell(alloc, builder, 2, 1)?;
                LookupBus::new("b").table_entry(alloc, builder, entry, uses)
            }
            MachineAir::Group => {
                let branches = two_keys(alloc, builder)?;
                LookupBus::new("rc").lookup_key_exclusive(alloc, builder, branches)
            }
        }
    }

    ghost keeps_layout = { λ air before after h.
        let pushed = pushed_if_accepted AB.pushes AB.refuses_push AB.window_refuses AB.layout _
        (width_of air) before after h.0 in
        AB.push_keeps_layout before pushed.0 after pushed.2 };
}

/// The tuples of a range check, each with its count.
fn range_tuples<AB: InteractionBuilder>(
    alloc: Global,
    builder: &AB,
) -> Result<Vec<(Vec<AB::Expr>, Count<AB::Expr>)>, AirError>
    ensures refused { IfErr result (IsCellsRefusal AB.window_refuses AB.layout 3 builder.now) }
    ensures sends { IfOk result (λ tuples. SendsLike AB.F.ring AB.F.eq
        (λ x w. AB.Expr.value x (AB.seen w)) (AB.stands_for builder.now) (λ w. w.main) RangeCheck
        (pushed_local tuples.items)) }
    ensures within { IfOk result (λ tuples. IsInteractionWithin AB.Expr.within
        (AB.layout builder.now) (pushed_local tuples.items)) }
{
    let mut tuples = Vec::new(alloc);
    tuples.push((tuple(alloc, builder, 3, 0)?, Count::from(1)))?;
    let provided = Count::provided(current_cell(alloc, builder, 3, 2)?.neg(alloc)?);
    tuples.push((tuple(alloc, builder, 3, 1)?, provided))?;
    Ok(tuples)
}

/// The branches of a group, each a flag with its key.
fn two_keys<AB: InteractionBuilder>(
    alloc: Global,
    builder: &AB,
) -> Result<Vec<(AB::Expr, Vec<AB::Expr>)>, AirError>
    ensures refused { IfErr result (IsCellsRefusal AB.window_refuses AB.layout 4 builder.now) }
    ensures keys { IfOk result (λ branches. AreTwoKeys (λ x w. AB.Expr.value x (AB.seen w))
        (AB.stands_for builder.now) (λ w. w.main) branches.items) }
    ensures within { IfOk result (λ branches. All
        (KeyWithin AB.Expr.within (AB.layout builder.now)) branches.items) }
{
    let mut branches = Vec::new(alloc);
    branches.push((
        current_cell(alloc, builder, 4, 0)?,
        tuple(alloc, builder, 4, 1)?,
    ))?;
    branches.push((
        current_cell(alloc, builder, 4, 2)?,
        tuple(alloc, builder, 4, 3)?,
    ))?;
    Ok(branches)
}

/// The tuple of one cell of the current row, for an AIR of so many columns.
fn tuple<AB: AirBuilder>(
    alloc: Global,
    builder: &AB,
    columns: usize,
    column: usize,
) -> Result<Vec<AB::Expr>, AirError>
    requires { column < columns }
    ensures refused { IfErr result
        (IsCellsRefusal AB.window_refuses AB.layout columns builder.now) }
    ensures tuple { IfOk result (λ tuple. IsCellTuple (λ x w. AB.Expr.value x (AB.seen w))
        (AB.stands_for builder.now) (λ w. w.main) column tuple.items) }
    ensures within { IfOk result (λ tuple. All
        (AB.Expr.within (AB.layout builder.now)) tuple.items) }
{
    let mut tuple = Vec::new(alloc);
    tuple.push(current_cell(alloc, builder, columns, column)?)?;
    Ok(tuple)
}
