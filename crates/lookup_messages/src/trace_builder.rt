//! The builder that evaluates lookups on one row of a trace.
ghost use Rattle.std.specs.Prelude.{◌≡◌, ◌+◌, ◌<◌, ◌≤◌, length, slice_index_or};
ghost use Rattle.air_expressions.specs.Meaning.{row_at};

use air::{
    AirBuilder, AirError, BaseEntry, BaseLeaf, ExtensionBuilder, PermutationAirBuilder,
    SymbolicExpression, SymbolicVariable, judge,
};
use field::{Domain, ExtensionDomain, ExtensionField, Field};
use matrix::{RowWindow, ViewPair, WindowAccess};
use std::alloc::Global;

/// One row of the traces of an AIR, as the evaluation of its lookups sees it: this row and the next
/// one of the main and the preprocessed trace, the public values and the challenges.
///
/// It resolves expressions to elements. Its permutation window is empty, since the auxiliary trace
/// is what is being made. Asserting anything but zero is refused with the row.
#[derive(Drop)]
pub struct LookupTraceBuilder<'a, F, EF> {
    main: RowWindow<'a, F>,
    preprocessed: RowWindow<'a, F>,
    public_values: &'a [F],
    permutation_challenges: &'a [EF],
    height: usize,
    row: usize,
    pub ghost row_exists: { row < height },
}

impl<'a, F, EF> LookupTraceBuilder<'a, F, EF> {
    ghost use Rattle.std.specs.Prelude.{◌==◌, not};
    ghost use Rattle.lookup_messages.specs.TraceBuilder.{builder_challenges, builder_layout, builder_row, builder_window};

    /// The builder of `row`, in traces of `height` rows. `main` and `preprocessed` hold that row at
    /// the top and the next one at the bottom.
    pub fn new(
        main: ViewPair<'a, F>,
        preprocessed: ViewPair<'a, F>,
        public_values: &'a [F],
        permutation_challenges: &'a [EF],
        height: usize,
        row: usize,
    ) -> Self
        requires row_exists { row < height }
        requires main_pair { length main.bottom.now ≡ length main.top.now }
        requires preprocessed_pair { length preprocessed.bottom.now ≡ length preprocessed.top.now }
        ensures window { builder_window result ≡ record {
          main = main.entry.top.now;
          main_next = main.entry.bottom.now;
          preprocessed = preprocessed.entry.top.now;
          preprocessed_next = preprocessed.entry.bottom.now;
          public_values = public_values.now;
          is_first = row == 0;
          is_last = row + 1 == height;
          is_transition = not (row + 1 == height);
        } }
        ensures layout { builder_layout result ≡ record {
          preprocessed_width = length preprocessed.entry.top.now;
          main_width = length main.entry.top.now;
          num_public_values = length public_values.now;
          permutation_width = 0;
          num_permutation_challenges = length permutation_challenges.now;
          num_permutation_values = 0;
        } }
        ensures challenges { builder_challenges result ≡ permutation_challenges.now }
        ensures row { builder_row result ≡ row }
    {
        LookupTraceBuilder {
            main: RowWindow::from_two_rows(main.top, main.bottom),
            preprocessed: RowWindow::from_two_rows(preprocessed.top, preprocessed.bottom),
            public_values,
            permutation_challenges,
            height,
            row,
        }
    }

    /// The row that the builder stands for.
    pub fn row(&self) -> usize
        ensures { result ≡ builder_row self.now }
    {
        let LookupTraceBuilder { row, .. } = self;
        *row
    }

    /// Whether `row` is the first one.
    pub(crate) fn is_first(&self) -> bool
        ensures { result ≡ (builder_window self.now).is_first }
    {
        self.row == 0
    }

    /// Whether `row` is the last one.
    pub(crate) fn is_last(&self) -> bool
        ensures { result ≡ (builder_window self.now).is_last }
    {
        self.row + 1 == self.height
    }
}

/// A cell of a window: of its current row at offset 0, of the next one at offset 1.
fn cell_of<F: Field>(window: &RowWindow<'_, F>, offset: usize, index: usize) -> F
    requires offset { offset ≤ 1 }
    requires current { index < length window.now.current.now }
    requires next { index < length window.now.next.now }
    ensures { result ≡ slice_index_or
        (row_at offset window.now.current.now window.now.next.now) index F.ring.zero }
{
    if offset == 0 {
        window.current_slice()[index]
    } else {
        window.next_slice()[index]
    }
}

impl<'a, F: Field, EF> LookupTraceBuilder<'a, F, EF> {
    ghost use Rattle.air_expressions.specs.Layout.{EntryFits, Fits, LeafFits};
    ghost use Rattle.air_expressions.specs.Meaning.{leaf_value, variable_value};
    ghost use Rattle.air_expressions.specs.Tree.{tree_of};
    ghost use Rattle.lookup_messages.specs.TraceBuilder.{builder_window, builder_layout};
    ghost use Rattle.lookup_model.specs.Sent.{value};

    /// The value of a variable on the builder's row.
    fn variable(&self, variable: SymbolicVariable<F>) -> F
        requires { EntryFits (builder_layout self.now) variable.entry variable.index }
        ensures { result ≡ variable_value F.ring (builder_window self.now) variable }
    {
        match variable.entry {
            BaseEntry::Main { offset } => cell_of(&self.main, offset, variable.index),
            BaseEntry::Preprocessed { offset } => {
                cell_of(&self.preprocessed, offset, variable.index)
            }
            BaseEntry::Public => self.public_values[variable.index],
        }
    }

    /// The value of a leaf on the builder's row.
    fn leaf(&self, leaf: BaseLeaf<F>) -> F
        requires { LeafFits (builder_layout self.now) leaf }
        ensures { result ≡ leaf_value F.ring (builder_window self.now) leaf }
    {
        match leaf {
            BaseLeaf::Variable(variable) => self.variable(variable),
            BaseLeaf::IsFirstRow => F::from_bool(self.is_first()),
            BaseLeaf::IsLastRow => F::from_bool(self.is_last()),
            BaseLeaf::IsTransition => F::from_bool(!self.is_last()),
            BaseLeaf::Constant(x) => x,
        }
    }

    /// The value of an expression on the builder's row. Its variables are within the builder's layout.
    ///
    /// The value is that of `resolve` on this builder, but this call can't fail.
    pub fn value_of(&self, expression: &SymbolicExpression<F>) -> F
        requires { Fits (builder_layout self.now) (tree_of expression.now) }
        ensures { result ≡ value F.ring (builder_window self.now) expression.now }
    {
        match expression {
            SymbolicExpression::Leaf(leaf) => self.leaf(*leaf),
            SymbolicExpression::Add(a, b) => self.value_of(a) + self.value_of(b),
            SymbolicExpression::Sub(a, b) => self.value_of(a) - self.value_of(b),
            SymbolicExpression::Mul(a, b) => self.value_of(a) * self.value_of(b),
            SymbolicExpression::Neg(a) => -self.value_of(a),
        }
    }
}

impl<'a, F: Field, EF: Domain> AirBuilder for LookupTraceBuilder<'a, F, EF> {
    ghost use Rattle.std.specs.Prelude.{◌≢◌, ◌≡◌};
    ghost use Rattle.std.proofs.Common.{rules, ap, sym, ◌∙◌};
    ghost use Rattle.air_expressions.specs.declared.error.AirError.TheVariants.{Assertion};
    ghost use Rattle.lookup_messages.specs.TraceBuilder.{builder_window, builder_layout};

    type F = F;

    type Expr = F;

    type Var = F;

    type PublicVar = F;

    type MainWindow = RowWindow<'a, F>;

    type PreprocessedWindow = RowWindow<'a, F>;

    ghost layout = { builder_layout };

    ghost stands_for = { λ b w. w ≡ builder_window b };

    ghost seen = { λ _. tt };

    ghost variable = { λ v _. v };

    ghost public_value = { λ v _. v };

    ghost accepts = { λ b x c. (c ≡ b) × (x ≡ F.ring.zero) };

    ghost refuses = { λ b x e c. (c ≡ b) × (x ≢ F.ring.zero) × (e ≡ Assertion b.row) };

    ghost window_refuses = { λ _ _. ⊥ };

    ghost pushed_within = { λ _. Unit {0} };

    ghost variable_converts = { λ v e w h. h };

    ghost variable_degree = { λ v e t h. Prim.search rules };

    ghost public_converts = { λ v e w h. h };

    ghost keeps = { λ b x c w h. (
      λ e. e ∙ ap builder_window
          (sym h.0),
      λ e. e ∙ ap builder_window h.0,
    ) };

    ghost keeps_layout = { λ b x c h. ap builder_layout h.0 };

    ghost keeps_pushed = { λ b x c h s. s };

    fn main(&self, _alloc: Global) -> Result<RowWindow<'a, F>, AirError> {
        Ok(self.main)
    }

    fn preprocessed(&self) -> &RowWindow<'a, F> {
        &self.preprocessed
    }

    fn public_values(&self) -> &[F] {
        self.public_values
    }

    fn is_first_row(&self) -> F {
        F::from_bool(self.is_first())
    }

    fn is_last_row(&self) -> F {
        F::from_bool(self.is_last())
    }

    fn is_transition(&self) -> F {
        F::from_bool(!self.is_last())
    }

    fn assert_zero(&mut self, _alloc: Global, x: F) -> Result<(), AirError> {
        judge(x, self.row)
    }
}

impl<'a, F: Field, EF: ExtensionField<F>> ExtensionBuilder for LookupTraceBuilder<'a, F, EF> {
    ghost use Rattle.std.specs.Prelude.{◌≢◌, ◌≡◌};
    ghost use Rattle.std.proofs.Common.{rules, ap};
    ghost use Rattle.air_expressions.specs.declared.error.AirError.TheVariants.{Assertion};
    ghost use Rattle.lookup_messages.specs.TraceBuilder.{ext_builder_window};

    type EF = EF;

    type ExprEF = EF;

    type VarEF = EF;

    ghost stands_for_ext = { λ b w. w ≡ ext_builder_window b };

    ghost seen_ext = { λ _. tt };

    ghost variable_ext = { λ v _. v };

    ghost accepts_ext = { λ b x c. (c ≡ b) × (x ≡ EF.ring.zero) };

    ghost refuses_ext = { λ b x e c. (c ≡ b) × (x ≢ EF.ring.zero) × (e ≡ Assertion b.row) };

    ghost base_window = { λ b w h. ap (λ v. v.base) h };

    ghost variable_ext_converts = { λ v x w h. h };

    ghost variable_ext_degree = { Prim.search rules };

    ghost keeps_ext = { Prim.search rules };

    ghost keeps_ext_layout = { Prim.search rules };

    ghost keeps_ext_pushed = { λ b x c h s. s };

    ghost base_keeps_ext = { Prim.search rules };

    ghost ext_keeps_base = { Prim.search rules };

    fn lift(x: F) -> EF {
        EF::embed(x)
    }

    fn assert_zero_ext(&mut self, _alloc: Global, x: EF) -> Result<(), AirError> {
        judge(x, self.row)
    }
}

impl<'a, F: Field, EF: ExtensionField<F>> PermutationAirBuilder for LookupTraceBuilder<'a, F, EF> {
    type MP = RowWindow<'a, EF>;

    type RandomVar = EF;

    type PermutationVar = EF;

    ghost challenge = { λ v _. v };

    ghost permutation_value = { λ v _. v };

    ghost challenge_converts = { λ v x w h. h };

    ghost permutation_value_converts = { λ v x w h. h };

    fn permutation(&self, _alloc: Global) -> Result<RowWindow<'a, EF>, AirError> {
        Ok(RowWindow::from_two_rows(&[], &[]))
    }

    fn permutation_randomness(&self) -> &[EF] {
        self.permutation_challenges
    }

    fn permutation_values(&self) -> &[EF] {
        &[]
    }
}
