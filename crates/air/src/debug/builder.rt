//! A builder that checks assertions on one row.
ghost use Rattle.std.specs.Prelude.{◌≡◌, ◌≢◌, ◌+◌, ◌<◌, ◌⊎◌, IfSome, MatchResult, length, ⊤};
ghost use Rattle.std.proofs.Common.{ap, rules};
ghost use Rattle.std.specs.Option.{option_copied};
ghost use Rattle.matrix.specs.Matrix.{height, row};
ghost use Rattle.air_expressions.specs.Layout.{width_of_option};
ghost use Rattle.air_expressions.specs.Window.{row_of_option};
ghost use Rattle.air_expressions.specs.declared.error.AirError.TheVariants.{Assertion};

use crate::debug::inputs::RowInputs;
use air_expressions::{AirBuilder, AirError, ExtensionBuilder, PermutationAirBuilder};
use field::{Domain, ExtensionField, Field};
use matrix::{RowMajorMatrix, RowWindow};
use std::alloc::{AllocError, Global};

/// A builder that checks assertions on one row. Its variables are the values at the row's cyclic
/// window. Asserting anything but zero is refused with `AirError::Assertion` at the row.
#[derive(Copy)]
pub struct DebugConstraintBuilder<'a, F, EF> {
    /// The current row and the next one of the main trace.
    pub main: RowWindow<'a, F>,
    /// The current row and the next one of the preprocessed trace.
    pub preprocessed: RowWindow<'a, F>,
    /// The public values.
    pub public_values: &'a [F],
    /// The current row and the next one of the permutation trace.
    pub permutation: RowWindow<'a, EF>,
    /// The challenges.
    pub challenges: &'a [EF],
    /// The values of the permutation argument.
    pub permutation_values: &'a [EF],
    /// The row to check.
    pub row: usize,
    /// The height of the main trace.
    pub height: usize,
    pub ghost within: { row < height },
}

impl<F: Copy, EF: Copy> Clone for DebugConstraintBuilder<'_, F, EF> {
    ghost is_clone = { λ x y. y ≡ x };

    ghost is_infallible = { λ _. ⊤ };

    fn clone(&self) -> Result<Self, AllocError> {
        Ok(*self)
    }
}

impl<'a, F: Field, EF: ExtensionField<F>> DebugConstraintBuilder<'a, F, EF> {
    ghost use Rattle.air.specs.Row.{HeightFits, OptionHeightFits, IsRow};

    /// The builder for one row of the inputs.
    pub fn new(inputs: &'a RowInputs<'a, F, EF>, row: usize) -> Self
        requires row { row < height inputs.now.main.now }
        requires preprocessed { OptionHeightFits (height inputs.now.main.now)
            (option_copied inputs.now.preprocessed) }
        requires permutation { HeightFits (height inputs.now.main.now) inputs.now.permutation.now }
        ensures { IsRow inputs.now row result }
    {
        let height = inputs.main.height();
        let next = (row + 1) % height;
        DebugConstraintBuilder {
            main: window_of_rows(inputs.main, row, next),
            preprocessed: window_of_option(inputs.preprocessed, row, next),
            public_values: inputs.public_values,
            permutation: window_of_rows(inputs.permutation, row, next),
            challenges: inputs.challenges,
            permutation_values: inputs.permutation_values,
            row,
            height,
        }
    }
}

/// Rows `current` and `next` of a matrix; both are empty if its width is 0.
fn window_of_rows<T>(trace: &RowMajorMatrix<T>, current: usize, next: usize) -> RowWindow<'_, T>
    requires { (trace.now.width ≡ 0) ⊎ ((current < height trace.now) × (next < height trace.now)) }
    ensures current { result.current.now ≡ row trace.now current }
    ensures next { result.next.now ≡ row trace.now next }
    ensures len { length result.current.now ≡ trace.now.width }
{
    if trace.width() == 0 {
        RowWindow::from_two_rows(&[], &[])
    } else {
        RowWindow::from_two_rows(trace.row_slice(current), trace.row_slice(next))
    }
}

/// As `window_of_rows`, for a matrix that may be absent; both rows are then empty.
fn window_of_option<T>(
    trace: Option<&RowMajorMatrix<T>>,
    current: usize,
    next: usize,
) -> RowWindow<'_, T>
    requires { IfSome (option_copied trace) (λ m. (m.width ≡ 0)
        ⊎ ((current < height m) × (next < height m))) }
    ensures current { result.current.now ≡ row_of_option (option_copied trace.entry) current }
    ensures next { result.next.now ≡ row_of_option (option_copied trace.entry) next }
    ensures len { length result.current.now ≡ width_of_option (option_copied trace.entry) }
{
    match trace {
        None => RowWindow::from_two_rows(&[], &[]),
        Some(matrix) => window_of_rows(matrix, current, next),
    }
}

/// Checks that `x` is zero. Fails with `AirError::Assertion` at `row` exactly if it is not.
pub fn judge<K: Domain>(x: K, row: usize) -> Result<(), AirError>
    ensures { MatchResult result (λ _. x ≡ K.ring.zero)
        (λ e. (x ≢ K.ring.zero) × (e ≡ AirError.Assertion row)) }
{
    if x.is_zero() {
        Ok(())
    } else {
        Err(AirError::Assertion { row })
    }
}

impl<'a, F: Field, EF: ExtensionField<F>> AirBuilder for DebugConstraintBuilder<'a, F, EF> {
    ghost use Rattle.air.specs.Row.{row_layout, row_window};

    type F = F;

    type Expr = F;

    type Var = F;

    type PublicVar = F;

    type MainWindow = RowWindow<'a, F>;

    type PreprocessedWindow = RowWindow<'a, F>;

    ghost layout = { row_layout };

    ghost stands_for = { λ b w. w ≡ row_window b };

    ghost seen = { λ _. tt };

    ghost variable = { λ v _. v };

    ghost public_value = { λ v _. v };

    ghost accepts = { λ b x c. (c ≡ b) × (x ≡ F.ring.zero) };

    ghost refuses = { λ b x e c. (c ≡ b) × (x ≢ F.ring.zero) × (e ≡ Assertion b.row) };

    ghost window_refuses = { λ _ _. ⊥ };

    ghost pushed_within = { λ _. Unit {0} };

    ghost variable_converts = { λ v x w h. h };

    ghost variable_degree = { Prim.search rules };

    ghost public_converts = { λ v x w h. h };

    ghost keeps = { Prim.search rules };

    ghost keeps_layout = { Prim.search rules };

    ghost keeps_pushed = { λ b x c h s. s };

    fn main(&self, _alloc: Global) -> Result<RowWindow<'a, F>, AirError> {
        Ok(self.main)
    }

    fn preprocessed(&self) -> &RowWindow<'a, F> {
        &self.preprocessed
    }

    fn public_values(&self) -> &[F] {
        self.public_values
    }

    fn is_first_row(&self) -> F {
        F::from_bool(self.row == 0)
    }

    fn is_last_row(&self) -> F {
        F::from_bool(self.row + 1 == self.height)
    }

    fn is_transition(&self) -> F {
        F::from_bool(self.row + 1 != self.height)
    }

    fn assert_zero(&mut self, _alloc: Global, x: F) -> Result<(), AirError> {
        judge(x, self.row)
    }
}

impl<'a, F: Field, EF: ExtensionField<F>> ExtensionBuilder for DebugConstraintBuilder<'a, F, EF> {
    ghost use Rattle.air.specs.Row.{ext_row_window};

    type EF = EF;

    type ExprEF = EF;

    type VarEF = EF;

    ghost stands_for_ext = { λ b w. w ≡ ext_row_window b };

    ghost seen_ext = { λ _. tt };

    ghost variable_ext = { λ v _. v };

    ghost accepts_ext = { λ b x c. (c ≡ b) × (x ≡ EF.ring.zero) };

    ghost refuses_ext = { λ b x e c. (c ≡ b) × (x ≢ EF.ring.zero) × (e ≡ Assertion b.row) };

    ghost base_window = { λ b w h. ap (λ v. v.base) h };

    ghost variable_ext_converts = { λ v x w h. h };

    ghost variable_ext_degree = { Prim.search rules };

    ghost keeps_ext = { Prim.search rules };

    ghost keeps_ext_layout = { Prim.search rules };

    ghost keeps_ext_pushed = { λ b x c h s. s };

    ghost base_keeps_ext = { Prim.search rules };

    ghost ext_keeps_base = { Prim.search rules };

    fn lift(x: F) -> EF {
        EF::embed(x)
    }

    fn assert_zero_ext(&mut self, _alloc: Global, x: EF) -> Result<(), AirError> {
        judge(x, self.row)
    }
}

impl<'a, F: Field, EF: ExtensionField<F>> PermutationAirBuilder
    for DebugConstraintBuilder<'a, F, EF> {
    type MP = RowWindow<'a, EF>;

    type RandomVar = EF;

    type PermutationVar = EF;

    ghost challenge = { λ v _. v };

    ghost permutation_value = { λ v _. v };

    ghost challenge_converts = { λ v x w h. h };

    ghost permutation_value_converts = { λ v x w h. h };

    fn permutation(&self, _alloc: Global) -> Result<RowWindow<'a, EF>, AirError> {
        Ok(self.permutation)
    }

    fn permutation_randomness(&self) -> &[EF] {
        self.challenges
    }

    fn permutation_values(&self) -> &[EF] {
        self.permutation_values
    }
}
