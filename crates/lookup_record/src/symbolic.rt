//! A builder that records a whole AIR.
ghost use Rattle.std.proofs.Common.{◌∙◌, ap, subst, sym};
ghost use Rattle.std.specs.Prelude.{◌≡◌, IfErr, IfOk, MatchResult, None, Some, Ok, Err, length, map};
ghost use Rattle.air_expressions.specs.ExtTree.{ext_tree_of};
ghost use Rattle.air_expressions.specs.Layout.{first_mismatch};
ghost use Rattle.air_expressions.specs.Tree.{tree_of};
ghost use Rattle.air_expressions.specs.declared.error.AirError.TheVariants.{Memory};
ghost use Rattle.lookup_record.specs.Pushed.{pushed_branch, pushed_exclusive, pushed_global, pushed_local};
ghost use Rattle.lookup_record.specs.Records.{branch_of};

use crate::builder::{IndexedLookupBuilder, InteractionBuilder};
use crate::count::Count;
use crate::interaction::{
    LocalTuple, SymbolicExclusiveBranch, SymbolicExclusiveInteraction, SymbolicInteraction,
    SymbolicLocalInteraction,
};
use air::{
    Air, AirBuilder, AirError, AirLayout, ConstraintLayout, Expression, ExtensionBuilder,
    PermutationAirBuilder, SymbolicAirBuilder, SymbolicExpression, SymbolicExpressionExt,
    SymbolicVariable, SymbolicVariableExt, copy_expressions,
};
use field::{ExtensionField, Field};
use lookup_indexed::{IndexedRead, IndexedTable, TraceWindow};
use matrix::RowMajorMatrix;
use std::alloc::{AllocError, Global};

/// A builder that records constraints, interactions and indexed declarations, each kind in the
/// order in which it was pushed. It stands for every window with the widths of its layout.
///
/// A push appends one record. A refusal leaves the builder as it was.
#[derive(Debug, Drop)]
pub struct InteractionSymbolicBuilder<F, EF> {
    inner: SymbolicAirBuilder<F, EF>,
    global_interactions: Vec<SymbolicInteraction<F>>,
    local_interactions: Vec<SymbolicLocalInteraction<F>>,
    exclusive_interactions: Vec<SymbolicExclusiveInteraction<F>>,
    indexed_reads: Vec<IndexedRead>,
    indexed_tables: Vec<IndexedTable>,
}

impl<F: Field, EF: ExtensionField<F>> InteractionSymbolicBuilder<F, EF> {
    ghost use Rattle.lookup_indexed.specs.Declaration.{read_of, declared_table};
    ghost use Rattle.lookup_record.specs.RecordedAir.{EvaluatesNew, no_air_recorded, recorded_air};
    ghost use Rattle.lookup_record.specs.Records.{exclusive_of, global_of, local_of};
    ghost use Rattle.lookup_record.specs.RecordedWithin.{EvaluatesWithin, PushedWithin};

    /// The builder for a layout, with nothing recorded.
    ///
    /// Fails only when out of memory.
    pub fn new(alloc: Global, layout: AirLayout) -> Result<Self, AirError>
        ensures new { IfOk result (λ b. recorded_air b ≡ no_air_recorded layout) }
        ensures refused { IfErr result (λ e. e ≡ Memory) }
    {
        Ok(InteractionSymbolicBuilder {
            inner: SymbolicAirBuilder::new(alloc, layout)?,
            global_interactions: Vec::new(alloc),
            local_interactions: Vec::new(alloc),
            exclusive_interactions: Vec::new(alloc),
            indexed_reads: Vec::new(alloc),
            indexed_tables: Vec::new(alloc),
        })
    }

    /// A new builder for this layout, after evaluating the AIR on it.
    ///
    /// Refused, in this order:
    ///
    /// - `LayoutMismatch` if the layout does not have the AIR's main width, preprocessed width and
    ///   number of public values; it names the first that differs;
    /// - out of memory, for the new builder;
    /// - the AIR's own refusal.
    pub fn from_air<A: Air<Self>>(
        alloc: Global,
        air: &A,
        layout: AirLayout,
    ) -> Result<Self, AirError>
        ensures mismatch { (e : AirError)
            → first_mismatch (A.width air.now) (A.preprocessed_width air.now)
            (A.num_public_values air.now) layout ≡ Some e → result ≡ Err e }
        ensures evaluates { first_mismatch (A.width air.now) (A.preprocessed_width air.now)
            (A.num_public_values air.now) layout ≡ None
            → EvaluatesNew A.evaluates air.now layout result }
        ensures layout { IfOk result (λ b. (recorded_air b).constraints.layout ≡ layout) }
        ensures within { IfOk result (λ b. EvaluatesWithin A.evaluates air.now
            → PushedWithin (recorded_air b)) }
    {
        layout.validate_against_air(air)?;
        let mut builder = InteractionSymbolicBuilder::new(alloc, layout)?;
        air.eval(alloc, &mut builder)?;
        Ok(builder)
    }

    /// The messages on buses, in the order in which they were pushed.
    pub fn global_interactions(&self) -> &[SymbolicInteraction<F>]
        ensures { map global_of result.now ≡ (recorded_air self.now).globals }
    {
        self.global_interactions.as_slice()
    }

    /// The local lookups, in the order in which they were pushed.
    pub fn local_interactions(&self) -> &[SymbolicLocalInteraction<F>]
        ensures { map local_of result.now ≡ (recorded_air self.now).locals }
    {
        self.local_interactions.as_slice()
    }

    /// The groups, in the order in which they were pushed.
    pub fn exclusive_interactions(&self) -> &[SymbolicExclusiveInteraction<F>]
        ensures { map exclusive_of result.now ≡ (recorded_air self.now).exclusives }
    {
        self.exclusive_interactions.as_slice()
    }

    /// The local lookups, the messages on buses and the groups, each in the order in which they
    /// were pushed. Drops the constraints and the indexed declarations.
    pub fn into_interactions(
        self,
    ) -> (
        Vec<SymbolicLocalInteraction<F>>,
        Vec<SymbolicInteraction<F>>,
        Vec<SymbolicExclusiveInteraction<F>>,
    )
        ensures locals { map local_of result.0.items ≡ (recorded_air self).locals }
        ensures globals { map global_of result.1.items ≡ (recorded_air self).globals }
        ensures exclusives { map exclusive_of result.2.items ≡ (recorded_air self).exclusives }
    {
        (
            self.local_interactions,
            self.global_interactions,
            self.exclusive_interactions,
        )
    }

    /// The readers and the tables, each in the order in which they were declared. Drops all else.
    pub fn into_declarations(self) -> (Vec<IndexedRead>, Vec<IndexedTable>)
        ensures reads { map read_of result.0.items ≡ (recorded_air self).reads }
        ensures tables { map declared_table result.1.items ≡ (recorded_air self).tables }
    {
        (self.indexed_reads, self.indexed_tables)
    }

    /// The readers, in the order in which they were declared.
    pub fn indexed_reads(&self) -> &[IndexedRead]
        ensures { map read_of result.now ≡ (recorded_air self.now).reads }
    {
        self.indexed_reads.as_slice()
    }

    /// The tables, in the order in which they were declared.
    pub fn indexed_tables(&self) -> &[IndexedTable]
        ensures { map declared_table result.now ≡ (recorded_air self.now).tables }
    {
        self.indexed_tables.as_slice()
    }

    /// A copy of the constraints over the field, in order.
    ///
    /// Fails only when out of memory.
    pub fn base_constraints(&self, alloc: Global) -> Result<Vec<SymbolicExpression<F>>, AllocError>
        ensures { IfOk result (λ v. map tree_of v.items
            ≡ map tree_of (recorded_air self.now).constraints.base) }
    {
        copy_expressions(alloc, self.inner.base_constraints())
    }

    /// A copy of the constraints over the extension, in order.
    ///
    /// Fails only when out of memory.
    pub fn extension_constraints(
        &self,
        alloc: Global,
    ) -> Result<Vec<SymbolicExpressionExt<F, EF>>, AllocError>
        ensures { IfOk result (λ v. map ext_tree_of v.items
            ≡ map ext_tree_of (recorded_air self.now).constraints.extension) }
    {
        let mut copies = Vec::new(alloc);
        for constraint in self.inner.extension_constraints() {
            copies.push(constraint.copy(alloc)?)?;
        }
        Ok(copies)
    }

    /// A copy of the constraints' positions among all assertions.
    ///
    /// Fails only when out of memory.
    pub fn constraint_layout(&self, alloc: Global) -> Result<ConstraintLayout, AllocError>
        ensures base { IfOk result (λ l. l.base_indices.items
            ≡ (recorded_air self.now).constraints.base_indices) }
        ensures extension { IfOk result (λ l. l.ext_indices.items
            ≡ (recorded_air self.now).constraints.ext_indices) }
    {
        let indices = self.inner.constraint_layout();
        Ok(ConstraintLayout {
            base_indices: Vec::from_slice(alloc, indices.base_indices.as_slice())?,
            ext_indices: Vec::from_slice(alloc, indices.ext_indices.as_slice())?,
        })
    }
}

impl<F: Field, EF: ExtensionField<F>> AirBuilder for InteractionSymbolicBuilder<F, EF> {
    ghost use Rattle.air.specs.Leaves.{iff_along, variable_degree-le};
    ghost use Rattle.air_expressions.specs.Meaning.{value_of, variable_value};
    ghost use Rattle.air.specs.Recorded.{HasWidths, recorded, with_base};
    ghost use Rattle.lookup_record.specs.RecordedAir.{recorded_air, with_constraints};
    ghost use Rattle.lookup_record.specs.RecordedWithin.{PushedWithin};

    type F = F;

    type Expr = SymbolicExpression<F>;

    type Var = SymbolicVariable<F>;

    type PublicVar = SymbolicVariable<F>;

    type MainWindow = RowMajorMatrix<SymbolicVariable<F>>;

    type PreprocessedWindow = RowMajorMatrix<SymbolicVariable<F>>;

    ghost layout = { λ b. (recorded b.inner).layout };

    ghost stands_for = { λ b w. HasWidths (recorded b.inner).layout w };

    ghost seen = { λ w. w };

    ghost variable = { λ v w. variable_value F.ring w v };

    ghost public_value = { λ v w. variable_value F.ring w v };

    ghost accepts = { λ b x c. recorded_air c
        ≡ with_constraints (recorded_air b) (with_base (recorded b.inner) x) };

    ghost refuses = { λ b x e c. (recorded_air c ≡ recorded_air b) × (e ≡ Memory) };

    ghost window_refuses = { λ b e. e ≡ Memory };

    ghost pushed_within = { λ b. PushedWithin (recorded_air b) };

    ghost variable_converts = { λ v x w h. ap (value_of F.ring w) h };

    ghost variable_degree = { λ v x t h. variable_degree-le v _ t h };

    ghost public_converts = { λ v x w h. ap (value_of F.ring w) h };

    ghost keeps = { λ b x c w h. iff_along (λ l. HasWidths l w) (recorded b.inner).layout
        (recorded c.inner).layout (ap (λ r. r.constraints.layout) h) };

    ghost keeps_layout = { λ b x c h. ap (λ r. r.constraints.layout) h };

    ghost keeps_pushed = { λ b x c h s. subst (λ r. PushedWithin r) (sym h)
        (record { globals = s.globals; locals = s.locals; exclusives = s.exclusives }) };

    fn main(&self, alloc: Global) -> Result<RowMajorMatrix<SymbolicVariable<F>>, AirError> {
        self.inner.main(alloc)
    }

    fn preprocessed(&self) -> &RowMajorMatrix<SymbolicVariable<F>> {
        self.inner.preprocessed()
    }

    fn public_values(&self) -> &[SymbolicVariable<F>] {
        self.inner.public_values()
    }

    fn is_first_row(&self) -> SymbolicExpression<F> {
        self.inner.is_first_row()
    }

    fn is_last_row(&self) -> SymbolicExpression<F> {
        self.inner.is_last_row()
    }

    fn is_transition(&self) -> SymbolicExpression<F> {
        self.inner.is_transition()
    }

    fn assert_zero(&mut self, alloc: Global, x: SymbolicExpression<F>) -> Result<(), AirError> {
        self.inner.assert_zero(alloc, x)
    }
}

impl<F: Field, EF: ExtensionField<F>> ExtensionBuilder for InteractionSymbolicBuilder<F, EF> {
    ghost use Rattle.air_expressions.specs.ExtMeaning.{ext_value_of, ext_variable_value};
    ghost use Rattle.air.specs.Leaves.{iff_along, ext_variable_degree-le};
    ghost use Rattle.air.specs.Recorded.{HasExtWidths, HasWidths, recorded, with_extension};
    ghost use Rattle.lookup_record.specs.RecordedAir.{recorded_air, with_constraints};
    ghost use Rattle.lookup_record.specs.RecordedWithin.{PushedWithin};

    type EF = EF;

    type ExprEF = SymbolicExpressionExt<F, EF>;

    type VarEF = SymbolicVariableExt<F, EF>;

    ghost stands_for_ext = { λ b w. HasExtWidths (recorded b.inner).layout w };

    ghost seen_ext = { λ w. w };

    ghost variable_ext = { λ v w. ext_variable_value EF.ring w v };

    ghost accepts_ext = { λ b x c. recorded_air c
        ≡ with_constraints (recorded_air b) (with_extension (recorded b.inner) x) };

    ghost refuses_ext = { λ b x e c. (recorded_air c ≡ recorded_air b) × (e ≡ Memory) };

    ghost base_window = { λ b w h. h.base };

    ghost variable_ext_converts = { λ v x w h. ap (ext_value_of F.ring EF.ring EF.embed w) h };

    ghost variable_ext_degree = { λ v x t h. ext_variable_degree-le v _ t h };

    ghost keeps_ext = { λ b x c w h. iff_along (λ l. HasExtWidths l w) (recorded b.inner).layout
        (recorded c.inner).layout (ap (λ r. r.constraints.layout) h) };

    ghost keeps_ext_layout = { λ b x c h. ap (λ r. r.constraints.layout) h };

    ghost keeps_ext_pushed = { λ b x c h s. subst (λ r. PushedWithin r) (sym h)
        (record { globals = s.globals; locals = s.locals; exclusives = s.exclusives }) };

    ghost base_keeps_ext = { λ b x c w h. iff_along (λ l. HasExtWidths l w)
        (recorded b.inner).layout (recorded c.inner).layout (ap (λ r. r.constraints.layout) h) };

    ghost ext_keeps_base = { λ b x c w h. iff_along (λ l. HasWidths l w) (recorded b.inner).layout
        (recorded c.inner).layout (ap (λ r. r.constraints.layout) h) };

    fn lift(x: SymbolicExpression<F>) -> SymbolicExpressionExt<F, EF> {
        SymbolicAirBuilder::<F, EF>::lift(x)
    }

    fn assert_zero_ext(
        &mut self,
        alloc: Global,
        x: SymbolicExpressionExt<F, EF>,
    ) -> Result<(), AirError> {
        self.inner.assert_zero_ext(alloc, x)
    }
}

impl<F: Field, EF: ExtensionField<F>> PermutationAirBuilder for InteractionSymbolicBuilder<F, EF> {
    ghost use Rattle.air_expressions.specs.ExtMeaning.{ext_value_of, ext_variable_value};

    type MP = RowMajorMatrix<SymbolicVariableExt<F, EF>>;

    type RandomVar = SymbolicVariableExt<F, EF>;

    type PermutationVar = SymbolicVariableExt<F, EF>;

    ghost challenge = { λ v w. ext_variable_value EF.ring w v };

    ghost permutation_value = { λ v w. ext_variable_value EF.ring w v };

    ghost challenge_converts = { λ v x w h. ap (ext_value_of F.ring EF.ring EF.embed w) h };

    ghost permutation_value_converts = { λ v x w h. ap (ext_value_of F.ring EF.ring EF.embed w) h };

    fn permutation(
        &self,
        alloc: Global,
    ) -> Result<RowMajorMatrix<SymbolicVariableExt<F, EF>>, AirError> {
        self.inner.permutation(alloc)
    }

    fn permutation_randomness(&self) -> &[SymbolicVariableExt<F, EF>] {
        self.inner.permutation_randomness()
    }

    fn permutation_values(&self) -> &[SymbolicVariableExt<F, EF>] {
        self.inner.permutation_values()
    }
}

/// The branches of a group as records.
fn branch_records<F: Field>(
    alloc: Global,
    branches: Vec<
        (
            SymbolicExpression<F>,
            Count<SymbolicExpression<F>>,
            Vec<SymbolicExpression<F>>,
        ),
    >,
) -> Result<Vec<SymbolicExclusiveBranch<F>>, AllocError>
    ensures { IfOk result (λ v. map branch_of v.items ≡ map pushed_branch branches.items) }
{
    let mut records = Vec::new(alloc);
    for (flag, count, fields) in branches {
        let (count, count_weight) = count.into_parts();
        records.push(SymbolicExclusiveBranch {
            flag,
            count,
            fields,
            count_weight,
        })?;
    }
    Ok(records)
}

impl<F: Field, EF: ExtensionField<F>> InteractionBuilder for InteractionSymbolicBuilder<F, EF> {
    ghost use Rattle.air.specs.Leaves.{iff_along};
    ghost use Rattle.air.specs.Recorded.{HasWidths, recorded};
    ghost use Rattle.lookup_record.specs.RecordedAir.{recorded_air, with_interaction, with_interaction-layout};
    ghost use Rattle.lookup_record.specs.RecordedWithin.{PushedWithin, with_interaction-within};

    ghost pushes = { λ b m c. recorded_air c ≡ with_interaction (recorded_air b) m };

    ghost refuses_push = { λ b m e c. (recorded_air c ≡ recorded_air b) × (e ≡ Memory) };

    ghost global_count = { λ b. length (recorded_air b).globals };

    ghost local_count = { λ b. length (recorded_air b).locals };

    ghost exclusive_count = { λ b. length (recorded_air b).exclusives };

    ghost push_keeps = { λ b m c w h. iff_along (λ l. HasWidths l w) (recorded b.inner).layout
        (recorded c.inner).layout
        (ap (λ r. r.constraints.layout) h ∙ with_interaction-layout (recorded_air b) m) };

    ghost push_keeps_layout = { λ b m c h. ap
        (λ r. r.constraints.layout) h ∙ with_interaction-layout (recorded_air b) m };

    ghost push_within = { λ b m c h i s. subst (λ r. PushedWithin r) (sym h)
        (with_interaction-within (recorded_air b) m i s) };

    fn push_interaction(
        &mut self,
        alloc: Global,
        bus_name: &str,
        fields: Vec<SymbolicExpression<F>>,
        count: Count<SymbolicExpression<F>>,
    ) -> Result<(), AirError>
        ensures { MatchResult result
            (λ _. recorded_air self.new ≡ with_interaction (recorded_air self.old)
            (pushed_global bus_name.now fields.items count))
            (λ e. (recorded_air self.new ≡ recorded_air self.old) × (e ≡ Memory)) }
    {
        let bus_name = String::from_str(alloc, bus_name)?;
        let (expression, weight) = count.into_parts();
        self.global_interactions.push(SymbolicInteraction {
            bus_name,
            fields,
            count: expression,
            count_weight: weight,
        })?;
        Ok(())
    }

    fn push_local_interaction(
        &mut self,
        _alloc: Global,
        tuples: Vec<LocalTuple<F>>,
    ) -> Result<(), AirError>
        ensures { MatchResult result
            (λ _. recorded_air self.new ≡ with_interaction (recorded_air self.old)
            (pushed_local tuples.items))
            (λ e. (recorded_air self.new ≡ recorded_air self.old) × (e ≡ Memory)) }
    {
        self.local_interactions
            .push(SymbolicLocalInteraction { tuples })?;
        Ok(())
    }

    fn push_exclusive_interaction(
        &mut self,
        alloc: Global,
        bus_name: &str,
        branches: Vec<
            (
                SymbolicExpression<F>,
                Count<SymbolicExpression<F>>,
                Vec<SymbolicExpression<F>>,
            ),
        >,
    ) -> Result<(), AirError>
        ensures { MatchResult result
            (λ _. recorded_air self.new ≡ with_interaction (recorded_air self.old)
            (pushed_exclusive bus_name.now branches.items))
            (λ e. (recorded_air self.new ≡ recorded_air self.old) × (e ≡ Memory)) }
    {
        let bus_name = String::from_str(alloc, bus_name)?;
        let branches = branch_records(alloc, branches)?;
        self.exclusive_interactions
            .push(SymbolicExclusiveInteraction { bus_name, branches })?;
        Ok(())
    }

    fn num_global_interactions(&self) -> usize {
        self.global_interactions.len()
    }

    fn num_local_interactions(&self) -> usize {
        self.local_interactions.len()
    }

    fn num_exclusive_interactions(&self) -> usize {
        self.exclusive_interactions.len()
    }
}

impl<F: Field, EF: ExtensionField<F>> IndexedLookupBuilder for InteractionSymbolicBuilder<F, EF> {
    ghost use Rattle.air.specs.Leaves.{iff_along};
    ghost use Rattle.air.specs.Recorded.{HasWidths, recorded};
    ghost use Rattle.lookup_record.specs.RecordedAir.{recorded_air, with_declaration, with_declaration-layout};
    ghost use Rattle.lookup_record.specs.RecordedWithin.{PushedWithin, with_declaration-within};

    ghost declares = { λ b d c. recorded_air c ≡ with_declaration (recorded_air b) d };

    ghost refuses_declaration = { λ b d e c. (recorded_air c ≡ recorded_air b) × (e ≡ Memory) };

    ghost read_count = { λ b. length (recorded_air b).reads };

    ghost table_count = { λ b. length (recorded_air b).tables };

    ghost declaration_keeps = { λ b d c w h. iff_along (λ l. HasWidths l w)
        (recorded b.inner).layout (recorded c.inner).layout
        (ap (λ r. r.constraints.layout) h ∙ with_declaration-layout (recorded_air b) d) };

    ghost declaration_keeps_layout = { λ b d c h. ap
        (λ r. r.constraints.layout) h ∙ with_declaration-layout (recorded_air b) d };

    ghost declaration_keeps_pushed = { λ b d c h s. subst (λ r. PushedWithin r) (sym h)
        (with_declaration-within (recorded_air b) d s) };

    fn push_indexed_read(
        &mut self,
        alloc: Global,
        table: &str,
        position: usize,
        payload: Vec<usize>,
    ) -> Result<(), AirError> {
        let table = String::from_str(alloc, table)?;
        self.indexed_reads.push(IndexedRead {
            table,
            position,
            payload,
        })?;
        Ok(())
    }

    fn push_indexed_table(
        &mut self,
        alloc: Global,
        name: &str,
        window: TraceWindow,
        columns: Vec<usize>,
    ) -> Result<(), AirError> {
        let name = String::from_str(alloc, name)?;
        self.indexed_tables.push(IndexedTable {
            name,
            window,
            columns,
        })?;
        Ok(())
    }

    fn num_indexed_reads(&self) -> usize {
        self.indexed_reads.len()
    }

    fn num_indexed_tables(&self) -> usize {
        self.indexed_tables.len()
    }
}
