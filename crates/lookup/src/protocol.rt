//! The calls of a lookup argument.
ghost use Rattle.std.specs.Prelude.{◌≡◌, ◌≢◌, ◌+◌, ◌*◌, ◌≤◌, ◌<◌, [], ◌∷◌, All, MatchResult, length, map};
ghost use Rattle.std.specs.Option.{ForSome, option_copied};
ghost use Rattle.air.specs.Traces.{air_traces};
ghost use Rattle.air_expressions.specs.Layout.{layout_of_traces};
ghost use Rattle.lookup_constraints.specs.Asserted.{EvaluatesOn};
ghost use Rattle.lookup_model.specs.Constraints.{accumulator_constraints, fraction_constraint, lookup_constraints, terminal_at};
ghost use Rattle.lookup_model.specs.LookupDegree.{IsDegree, lookup_degree};
ghost use Rattle.lookup_model.specs.Records.{HasEqualLengths, IsWithin, LookupsFit};
ghost use Rattle.lookup.specs.Rooms.{HasRoomForLookups};
ghost use Rattle.lookup.specs.WholeAir.{EvaluatesBoth};
ghost use Rattle.lookup_model.specs.Terminals.{terminal_sum};
ghost use Rattle.lookup_model.specs.Generation.{AnswersGeneration};
ghost use Rattle.matrix.specs.Matrix.{height};

use air::{Air, AirBuilder, AirError, BuilderView, ExtensionBuilder, PermutationAirBuilder};
use field::{ExtensionField, Field, Over};
use lookup_constraints::terminal;
use lookup_model::{Lookup, LookupError, LookupTerminal};
use matrix::RowMajorMatrix;
use std::alloc::Global;

/// The LogUp lookup argument, with one accumulator and one terminal for each AIR.
///
/// Column 0 of the auxiliary trace is the accumulator, and column `c + 1` has the fractions of
/// lookup `c`. The lookup in column `c` takes challenge `2c` as its alpha, from which its combined
/// tuples are subtracted, and challenge `2c + 1` as its beta, which combines them.
pub trait LookupProtocol: Sized {
    /// The number of challenges per lookup: its alpha and its beta.
    fn num_challenges(&self) -> usize
        ensures { result ≡ 2 };

    /// Asserts the equation of a lookup's fraction `f` on every row:
    ///
    /// - without flags `U * f - V = 0`, where `U` is the product of the denominators of all tuples,
    ///   and `V` the sum of each multiplicity times the other denominators;
    /// - with flags `D * f - N = 0`, where `D = sum(flag * denominator) + (1 - sum(flag))` and
    ///   `N = sum(flag * multiplicity)`.
    ///
    /// The fraction is cell `column + 1` of the auxiliary row. The challenges `2 * column` and
    /// `2 * column + 1` are the alpha and the beta. Fails when out of memory, or with the builder's
    /// own refusal for its window or for this assertion.
    fn eval_fraction<AB: PermutationAirBuilder>(
        &self,
        alloc: Global,
        builder: &mut AB,
        lookup: &Lookup<AB::F>,
    ) -> Result<(), AirError>
        requires lengths { HasEqualLengths lookup.now }
        requires fits { IsWithin (AB.layout builder.old) lookup.now }
        requires challenges { 2 * lookup.now.column + 1
            < (AB.layout builder.old).num_permutation_challenges }
        requires cell { lookup.now.column + 1 < (AB.layout builder.old).permutation_width }
        ensures { let E = ⟦<AB::EF as Over<AB::F>>⟧.fields in
            EvaluatesOn ⟦<AB as BuilderView>⟧ builder.old (fraction_constraint E lookup.now ∷ [])
            result builder.new };

    /// Asserts the accumulator's equations, where the accumulator is cell 0 of the auxiliary row.
    /// Nothing is asserted without lookups.
    ///
    /// - On the first row it is zero.
    /// - On every row but the last, the next accumulator is this one plus the fractions of the row.
    /// - On the last row, `terminal` is that sum.
    ///
    /// Fails when out of memory, or with the builder's own refusal for its window or for the
    /// assertion at which it stopped. What was asserted before stays.
    fn eval_accumulator<AB: PermutationAirBuilder>(
        &self,
        alloc: Global,
        builder: &mut AB,
        lookups: &[Lookup<AB::F>],
        terminal: AB::ExprEF,
    ) -> Result<(), AirError>
        requires cells { All (λ lookup. lookup.column + 1
            < (AB.layout builder.old).permutation_width) lookups.now }
        ensures { let E = ⟦<AB::EF as Over<AB::F>>⟧.fields in
            EvaluatesOn ⟦<AB as BuilderView>⟧ builder.old (accumulator_constraints E lookups.now
            (λ w. AB.ExprEF.value terminal (AB.seen_ext w)) (AB.ExprEF.degree terminal))
            result builder.new };

    /// Asserts the equation of each lookup in order, and then the accumulator's three. The terminal
    /// is the first permutation value. Nothing is asserted without lookups.
    ///
    /// Fails when out of memory, or with the builder's own refusal for its window or for the
    /// assertion at which it stopped. What was asserted before stays.
    final fn eval_all<AB: PermutationAirBuilder>(
        &self,
        alloc: Global,
        builder: &mut AB,
        lookups: &[Lookup<AB::F>],
    ) -> Result<(), AirError>
        requires fit { LookupsFit (AB.layout builder.old) lookups.now }
        requires room { HasRoomForLookups (AB.layout builder.old) (length lookups.now) }
        ensures { let E = ⟦<AB::EF as Over<AB::F>>⟧.fields in
            EvaluatesOn ⟦<AB as BuilderView>⟧ builder.old (lookup_constraints E lookups.now)
            result builder.new }
    {
        if lookups.is_empty() {
            return Ok(());
        }
        eval_fractions(self, alloc, builder, lookups)?;
        eval_terminal(self, alloc, builder, lookups)
    }

    /// Evaluates an AIR, and then asserts the constraints of its lookups as
    /// [`eval_all`](LookupProtocol::eval_all) does, from the state that the AIR left.
    ///
    /// Fails with what the AIR refuses, and then asserts nothing of the lookups; or as `eval_all`
    /// does. What was asserted before stays.
    final fn eval_air_and_lookups<AB: PermutationAirBuilder, A: Air<AB>>(
        &self,
        alloc: Global,
        air: &A,
        builder: &mut AB,
        lookups: &[Lookup<AB::F>],
    ) -> Result<(), AirError>
        requires fit { LookupsFit (AB.layout builder.old) lookups.now }
        requires room { HasRoomForLookups (AB.layout builder.old) (length lookups.now) }
        ensures { let E = ⟦<AB::EF as Over<AB::F>>⟧.fields in
            EvaluatesBoth A.evaluates
            (λ between answer after. EvaluatesOn ⟦<AB as BuilderView>⟧ between
            (lookup_constraints E lookups.now) answer after)
            air.now builder.old result builder.new }
    {
        air.eval(alloc, builder)?;
        self.eval_all(alloc, builder, lookups)
    }

    /// The degree of the equation of a lookup's fraction, if the transition selector has degree 0.
    /// It is the degree of the fraction times its denominator, or of its numerator, whichever is
    /// greater.
    ///
    /// Variables of a trace and the selectors of the first and the last row have degree 1. Public
    /// values, constants, challenges and terminals have degree 0. A sum has the greater degree of
    /// its two sides, a product the sum of both.
    ///
    /// Refuses `DegreeOverflow` if a sum of degrees does not fit `usize`. Allocates nothing.
    fn constraint_degree<F>(&self, lookup: &Lookup<F>) -> Result<usize, LookupError>
        requires { HasEqualLengths lookup.now }
        ensures { IsDegree result (lookup_degree 0 lookup.now) };

    /// The auxiliary trace of one AIR and its terminal.
    ///
    /// The trace has the height of `main` and one column more than there are lookups. Without
    /// lookups it has width 0, and there is no terminal. The preprocessed trace, if there is one,
    /// is as high as `main`. `challenges` are an alpha and a beta for each lookup, in the order of
    /// their columns.
    ///
    /// Refuses the first fault in the order row, lookup, and returns nothing of the trace:
    ///
    /// - Without flags, a denominator that vanishes with a nonzero multiplicity.
    /// - With flags, a flag that is neither zero nor one; then more than one set flag, counted in
    ///   whole numbers; then a vanishing denominator of the set flag's tuple, whatever its
    ///   multiplicity.
    ///
    /// Also fails when out of memory, with `Memory`, and then too returns nothing of the trace.
    fn generate_permutation<'a, F: Field, EF: ExtensionField<F>>(
        &self,
        alloc: Global,
        main: &'a RowMajorMatrix<F>,
        preprocessed: Option<&'a RowMajorMatrix<F>>,
        public_values: &[F],
        lookups: &[Lookup<F>],
        challenges: &[EF],
    ) -> Result<(RowMajorMatrix<EF>, Option<LookupTerminal<EF>>), LookupError>
        requires heights { ForSome (option_copied preprocessed) (λ m. height m ≡ height main.now) }
        requires fit { LookupsFit (layout_of_traces main.now
            (option_copied preprocessed) public_values.now) lookups.now }
        requires challenges { 2 * length lookups.now ≤ length challenges.now }
        ensures { AnswersGeneration ⟦<EF as Over<F>>⟧.fields
            (air_traces main.now (option_copied preprocessed.entry) public_values.now)
            lookups.now challenges.now result };

    /// Whether the terminals of all AIRs cancel.
    ///
    /// Refuses `TerminalSumNonZero` if those that are present do not sum to zero; none sum to zero. Says nothing of
    /// where a terminal comes from: an AIR with lookups needs a row, since over none any terminal satisfies its
    /// equations.
    fn verify_terminal_sum<EF: Field>(
        &self,
        terminals: &[Option<LookupTerminal<EF>>],
    ) -> Result<(), LookupError>
        ensures { MatchResult result
            (λ _. terminal_sum EF.ring terminals.now ≡ EF.ring.zero)
            (λ e. (e ≡ LookupError.TerminalSumNonZero)
            × (terminal_sum EF.ring terminals.now ≢ EF.ring.zero)) };
}

/// Asserts the equation of each lookup, in order.
fn eval_fractions<P: LookupProtocol, AB: PermutationAirBuilder>(
    protocol: &P,
    alloc: Global,
    builder: &mut AB,
    lookups: &[Lookup<AB::F>],
) -> Result<(), AirError>
    requires fit { LookupsFit (AB.layout builder.old) lookups.now }
    requires challenges { 2 * length lookups.now
        ≤ (AB.layout builder.old).num_permutation_challenges }
    requires cells { length lookups.now < (AB.layout builder.old).permutation_width }
    ensures { let E = ⟦<AB::EF as Over<AB::F>>⟧.fields in
        EvaluatesOn ⟦<AB as BuilderView>⟧ builder.old (map (fraction_constraint E) lookups.now)
        result builder.new }
{
    for lookup in lookups {
        protocol.eval_fraction(alloc, builder, lookup)?;
    }
    Ok(())
}

/// Asserts the accumulator's equations. The terminal is the first permutation value.
fn eval_terminal<P: LookupProtocol, AB: PermutationAirBuilder>(
    protocol: &P,
    alloc: Global,
    builder: &mut AB,
    lookups: &[Lookup<AB::F>],
) -> Result<(), AirError>
    requires cells { All (λ lookup. lookup.column + 1
        < (AB.layout builder.old).permutation_width) lookups.now }
    requires terminal { 0 < (AB.layout builder.old).num_permutation_values }
    ensures { let E = ⟦<AB::EF as Over<AB::F>>⟧.fields in
        EvaluatesOn ⟦<AB as BuilderView>⟧ builder.old
        (accumulator_constraints E lookups.now (terminal_at E) (λ t. 0)) result builder.new }
{
    let terminal = terminal(&*builder);
    protocol.eval_accumulator(alloc, builder, lookups, terminal)
}
