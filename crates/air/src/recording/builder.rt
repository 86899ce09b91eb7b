//! A builder that records constraints.
ghost use Rattle.air_expressions.specs.declared.error.AirError.TheVariants.{Memory};
ghost use Rattle.std.proofs.Common.{ap};
ghost use Rattle.std.specs.Prelude.{◌≡◌, ◌+◌, length, [], ◌∷◌, ◌++◌, IfOk, IfErr, OnOk, OnErr};

use crate::recording::variables::LayoutVariables;
use air_expressions::{
    AirBuilder, AirError, AirLayout, BaseLeaf, ExtLeaf, ExtensionBuilder, PermutationAirBuilder,
    SymbolicExpression, SymbolicExpressionExt, SymbolicVariable, SymbolicVariableExt,
};
use field::{ExtensionField, Field};
use matrix::RowMajorMatrix;
use std::alloc::{AllocError, Global};

/// The positions of the recorded constraints among all assertions.
#[derive(Debug, Drop)]
pub struct ConstraintLayout {
    /// The positions of the constraints over the field.
    pub base_indices: Vec<usize>,
    /// The positions of the constraints over the extension.
    pub ext_indices: Vec<usize>,
}

/// A builder that records constraints in the order in which they are asserted. It stands for every
/// window with the widths of its layout.
#[derive(Debug, Drop)]
pub struct SymbolicAirBuilder<F, EF> {
    variables: LayoutVariables<F, EF>,
    base_constraints: Vec<SymbolicExpression<F>>,
    extension_constraints: Vec<SymbolicExpressionExt<F, EF>>,
    constraint_layout: ConstraintLayout,
    count: usize,
    ghost counted: { count ≡ length base_constraints.items + length extension_constraints.items },
}

impl<F: Field, EF: ExtensionField<F>> SymbolicAirBuilder<F, EF> {
    ghost use Rattle.air.specs.Recorded.{recorded, nothing_recorded};

    /// The builder for a layout, with nothing recorded.
    ///
    /// Fails only when out of memory.
    pub fn new(alloc: Global, layout: AirLayout) -> Result<Self, AirError>
        ensures new { IfOk result (λ b. recorded b ≡ nothing_recorded layout) }
        ensures refused { IfErr result (λ e. e ≡ AirError.Memory) }
    {
        Ok(SymbolicAirBuilder {
            variables: LayoutVariables::new(alloc, layout)?,
            base_constraints: Vec::new(alloc),
            extension_constraints: Vec::new(alloc),
            constraint_layout: ConstraintLayout {
                base_indices: Vec::new(alloc),
                ext_indices: Vec::new(alloc),
            },
            count: 0,
        })
    }

    /// The constraints over the field, in order.
    pub fn base_constraints(&self) -> &[SymbolicExpression<F>]
        ensures { result.now ≡ (recorded self.now).base }
    {
        self.base_constraints.as_slice()
    }

    /// The constraints over the extension, in order.
    pub fn extension_constraints(&self) -> &[SymbolicExpressionExt<F, EF>]
        ensures { result.now ≡ (recorded self.now).extension }
    {
        self.extension_constraints.as_slice()
    }

    /// The positions of the constraints among all assertions.
    pub fn constraint_layout(&self) -> &ConstraintLayout
        ensures base { result.now.base_indices.items ≡ (recorded self.now).base_indices }
        ensures extension { result.now.ext_indices.items ≡ (recorded self.now).ext_indices }
    {
        &self.constraint_layout
    }
}

/// Appends both a constraint and its position, or neither.
fn append<X: Drop>(
    constraints: &mut Vec<X>,
    indices: &mut Vec<usize>,
    constraint: X,
    index: usize,
) -> Result<(), AllocError>
    ensures appended { OnOk result ((constraints.new.items ≡ constraints.old.items
        ++ constraint ∷ [])
        × (indices.new.items ≡ indices.old.items ++ index ∷ [])) }
    ensures refused { OnErr result ((constraints.new.items ≡ constraints.old.items)
        × (indices.new.items ≡ indices.old.items)) }
{
    indices.push(index)?;
    if let Err(refused) = constraints.push(constraint) {
        let _ = indices.pop();
        return Err(AllocError::from(refused));
    }
    Ok(())
}

/// A copy of the rows.
fn copy_rows<V: Copy>(
    alloc: Global,
    rows: &RowMajorMatrix<V>,
) -> Result<RowMajorMatrix<V>, AllocError>
    ensures { IfOk result (λ r. r ≡ rows.now) }
{
    let width = rows.width();
    let values = Vec::from_slice(alloc, rows.values())?;
    Ok(RowMajorMatrix::new(values, width))
}

impl<F: Field, EF: ExtensionField<F>> AirBuilder for SymbolicAirBuilder<F, EF> {
    ghost use Rattle.air.specs.Leaves.{iff_along, variable_degree-le};
    ghost use Rattle.air_expressions.specs.Meaning.{value_of, variable_value};
    ghost use Rattle.air.specs.Recorded.{HasWidths, recorded, with_base};

    type F = F;

    type Expr = SymbolicExpression<F>;

    type Var = SymbolicVariable<F>;

    type PublicVar = SymbolicVariable<F>;

    type MainWindow = RowMajorMatrix<SymbolicVariable<F>>;

    type PreprocessedWindow = RowMajorMatrix<SymbolicVariable<F>>;

    ghost layout = { λ b. b.variables };

    ghost stands_for = { λ b w. HasWidths b.variables w };

    ghost seen = { λ w. w };

    ghost variable = { λ v w. variable_value F.ring w v };

    ghost public_value = { λ v w. variable_value F.ring w v };

    ghost accepts = { λ b x c. recorded c ≡ with_base (recorded b) x };

    ghost refuses = { λ b x e c. (recorded c ≡ recorded b) × (e ≡ Memory) };

    ghost window_refuses = { λ b e. e ≡ Memory };

    ghost pushed_within = { λ _. Unit {0} };

    ghost variable_converts = { λ v x w h. ap (value_of F.ring w) h };

    ghost variable_degree = { λ v x t h. variable_degree-le v _ t h };

    ghost public_converts = { λ v x w h. ap (value_of F.ring w) h };

    ghost keeps = { λ b x c w h. iff_along (λ l. HasWidths l w) b.variables c.variables
        (ap (λ r. r.layout) h) };

    ghost keeps_layout = { λ b x c h. ap (λ r. r.layout) h };

    ghost keeps_pushed = { λ b x c h s. s };

    fn main(&self, alloc: Global) -> Result<RowMajorMatrix<SymbolicVariable<F>>, AirError> {
        Ok(copy_rows(alloc, self.variables.main())?)
    }

    fn preprocessed(&self) -> &RowMajorMatrix<SymbolicVariable<F>> {
        self.variables.preprocessed()
    }

    fn public_values(&self) -> &[SymbolicVariable<F>] {
        self.variables.public_values()
    }

    fn is_first_row(&self) -> SymbolicExpression<F> {
        SymbolicExpression::Leaf(BaseLeaf::IsFirstRow)
    }

    fn is_last_row(&self) -> SymbolicExpression<F> {
        SymbolicExpression::Leaf(BaseLeaf::IsLastRow)
    }

    fn is_transition(&self) -> SymbolicExpression<F> {
        SymbolicExpression::Leaf(BaseLeaf::IsTransition)
    }

    fn assert_zero(&mut self, _alloc: Global, x: SymbolicExpression<F>) -> Result<(), AirError> {
        let Some(count) = self.count.checked_add(1) else {
            return Err(AirError::Memory);
        };
        append(
            &mut self.base_constraints,
            &mut self.constraint_layout.base_indices,
            x,
            self.count,
        )?;
        self.count = count;
        Ok(())
    }
}

impl<F: Field, EF: ExtensionField<F>> ExtensionBuilder for SymbolicAirBuilder<F, EF> {
    ghost use Rattle.air_expressions.specs.ExtMeaning.{ext_value_of, ext_variable_value};
    ghost use Rattle.air.specs.Leaves.{iff_along, ext_variable_degree-le};
    ghost use Rattle.air.specs.Recorded.{HasExtWidths, HasWidths, recorded, with_extension};

    type EF = EF;

    type ExprEF = SymbolicExpressionExt<F, EF>;

    type VarEF = SymbolicVariableExt<F, EF>;

    ghost stands_for_ext = { λ b w. HasExtWidths b.variables w };

    ghost seen_ext = { λ w. w };

    ghost variable_ext = { λ v w. ext_variable_value EF.ring w v };

    ghost accepts_ext = { λ b x c. recorded c ≡ with_extension (recorded b) x };

    ghost refuses_ext = { λ b x e c. (recorded c ≡ recorded b) × (e ≡ Memory) };

    ghost base_window = { λ b w h. h.base };

    ghost variable_ext_converts = { λ v x w h. ap (ext_value_of F.ring EF.ring EF.embed w) h };

    ghost variable_ext_degree = { λ v x t h. ext_variable_degree-le v _ t h };

    ghost keeps_ext = { λ b x c w h. iff_along (λ l. HasExtWidths l w) b.variables c.variables
        (ap (λ r. r.layout) h) };

    ghost keeps_ext_layout = { λ b x c h. ap (λ r. r.layout) h };

    ghost keeps_ext_pushed = { λ b x c h s. s };

    ghost base_keeps_ext = { λ b x c w h. iff_along (λ l. HasExtWidths l w) b.variables c.variables
        (ap (λ r. r.layout) h) };

    ghost ext_keeps_base = { λ b x c w h. iff_along (λ l. HasWidths l w) b.variables c.variables
        (ap (λ r. r.layout) h) };

    fn lift(x: SymbolicExpression<F>) -> SymbolicExpressionExt<F, EF> {
        SymbolicExpressionExt::Leaf(ExtLeaf::Base(x))
    }

    fn assert_zero_ext(
        &mut self,
        _alloc: Global,
        x: SymbolicExpressionExt<F, EF>,
    ) -> Result<(), AirError> {
        let Some(count) = self.count.checked_add(1) else {
            return Err(AirError::Memory);
        };
        append(
            &mut self.extension_constraints,
            &mut self.constraint_layout.ext_indices,
            x,
            self.count,
        )?;
        self.count = count;
        Ok(())
    }
}

impl<F: Field, EF: ExtensionField<F>> PermutationAirBuilder for SymbolicAirBuilder<F, EF> {
    ghost use Rattle.air_expressions.specs.ExtMeaning.{ext_value_of, ext_variable_value};

    type MP = RowMajorMatrix<SymbolicVariableExt<F, EF>>;

    type RandomVar = SymbolicVariableExt<F, EF>;

    type PermutationVar = SymbolicVariableExt<F, EF>;

    ghost challenge = { λ v w. ext_variable_value EF.ring w v };

    ghost permutation_value = { λ v w. ext_variable_value EF.ring w v };

    ghost challenge_converts = { λ v x w h. ap (ext_value_of F.ring EF.ring EF.embed w) h };

    ghost permutation_value_converts = { λ v x w h. ap (ext_value_of F.ring EF.ring EF.embed w) h };

    fn permutation(
        &self,
        alloc: Global,
    ) -> Result<RowMajorMatrix<SymbolicVariableExt<F, EF>>, AirError> {
        Ok(copy_rows(alloc, self.variables.permutation())?)
    }

    fn permutation_randomness(&self) -> &[SymbolicVariableExt<F, EF>] {
        self.variables.challenges()
    }

    fn permutation_values(&self) -> &[SymbolicVariableExt<F, EF>] {
        self.variables.permutation_values()
    }
}
