//! Builders: what AIRs assert their constraints on, and builders under a condition.
ghost use Rattle.std.specs.Prelude.{◌≡◌, ◌⊎◌, ℕ, ◌≤◌, ◌↔◌, IfOk, IfErr, MatchResult, Some, slice_get};
ghost use Rattle.field.specs.Ring.{of_bool};
ghost use Rattle.air_expressions.specs.Builder.{MeansRow, AcceptsAll, RefusesOne, RowWithin};
ghost use Rattle.air_expressions.specs.Filter.{IsProduct};
ghost use Rattle.air_expressions.specs.Window.{Window};
ghost use Rattle.air_expressions.specs.declared.error.AirError.{AirError};
ghost use Rattle.air_expressions.specs.declared.error.AirError.TheVariants.{Memory};
ghost use Rattle.air_expressions.specs.declared.layout.AirLayout.{AirLayout};

use crate::error::AirError;
use crate::expression::Expression;
use field::Field;
use matrix::WindowAccess;
use std::alloc::Global;

/// A builder provides the variables of a window and takes assertions over them.
///
/// It stands for one window if it checks a row, or for all windows of its layout if it records
/// constraints. Its variables, selectors and public values mean the cells of each window that it
/// stands for, and are within its layout. An assertion is accepted or refused; after an accepted one
/// the builder stands for the same windows and has the same layout.
///
/// `pushed_within` says that all expressions that were pushed as lookups are within the layout. It
/// holds of every builder that keeps none of them, and assertions don't change it.
pub trait AirBuilder: Sized {
    /// The field of the traces.
    type F: Field;

    /// What assertions are made of.
    type Expr: Expression<Self::F>;

    /// A cell of the main or the preprocessed trace.
    type Var: Copy + Into<Self::Expr>;

    /// A public value.
    type PublicVar: Copy + Into<Self::Expr>;

    /// The rows of the main trace.
    type MainWindow: WindowAccess<Self::Var> + Drop;

    /// The rows of the preprocessed trace.
    type PreprocessedWindow: WindowAccess<Self::Var>;

    ghost layout: { Self → AirLayout };

    ghost stands_for: { Self → Window Self.F → Type 0 };

    ghost seen: { Window Self.F → Self.Expr.Seen };

    ghost variable: { Self.Var → Window Self.F → Self.F };

    ghost public_value: { Self.PublicVar → Window Self.F → Self.F };

    ghost accepts: { Self → Self.Expr → Self → Type 0 };

    ghost refuses: { Self → Self.Expr → AirError → Self → Type 0 };

    ghost window_refuses: { Self → AirError → Type 0 };

    ghost pushed_within: { Self → Type 0 };

    /// The current row and the next one of the main trace. Fails as `window_refuses` says.
    fn main(&self, alloc: Global) -> Result<Self::MainWindow, AirError>
        ensures readable { IfOk result (λ m. Self.MainWindow.readable m) }
        ensures current { IfOk result (λ m. MeansRow (stands_for self.now) variable
            (layout self.now).main_width (λ w. w.main) (Self.MainWindow.current m)) }
        ensures next { IfOk result (λ m. MeansRow (stands_for self.now) variable
            (layout self.now).main_width (λ w. w.main_next) (Self.MainWindow.next m)) }
        ensures current_within { IfOk result (λ m. RowWithin Self.Var.converts Self.Expr.within
            (layout self.now) (Self.MainWindow.current m)) }
        ensures next_within { IfOk result (λ m. RowWithin Self.Var.converts Self.Expr.within
            (layout self.now) (Self.MainWindow.next m)) }
        ensures refused { IfErr result (window_refuses self.now) };

    /// The current row and the next one of the preprocessed trace, of width 0 if there is none.
    fn preprocessed(&self) -> &Self::PreprocessedWindow
        ensures readable { Self.PreprocessedWindow.readable result.now }
        ensures current { MeansRow (stands_for self.now) variable
            (layout self.now).preprocessed_width (λ w. w.preprocessed)
            (Self.PreprocessedWindow.current result.now) }
        ensures next { MeansRow (stands_for self.now) variable
            (layout self.now).preprocessed_width (λ w. w.preprocessed_next)
            (Self.PreprocessedWindow.next result.now) }
        ensures current_within { RowWithin Self.Var.converts Self.Expr.within (layout self.now)
            (Self.PreprocessedWindow.current result.now) }
        ensures next_within { RowWithin Self.Var.converts Self.Expr.within (layout self.now)
            (Self.PreprocessedWindow.next result.now) };

    /// The public values.
    fn public_values(&self) -> &[Self::PublicVar]
        ensures means { MeansRow (stands_for self.now) public_value
            (layout self.now).num_public_values (λ w. w.public_values) result.now }
        ensures degree { (i t : ℕ) (v : Self.PublicVar) (e : Self.Expr)
            → slice_get result.now i ≡ Some v
            → Self.PublicVar.converts v e → Self.Expr.degree e t ≡ 0 }
        ensures within { RowWithin Self.PublicVar.converts Self.Expr.within
            (layout self.now) result.now };

    /// The selector of the first row.
    fn is_first_row(&self) -> Self::Expr
        ensures means { (w : Window Self.F) → stands_for self.now w
            → Self.Expr.value result (seen w) ≡ of_bool Self.F.ring w.is_first }
        ensures degree { (t : ℕ) → Self.Expr.degree result t ≤ 1 }
        ensures within { Self.Expr.within (layout self.now) result };

    /// The selector of the last row.
    fn is_last_row(&self) -> Self::Expr
        ensures means { (w : Window Self.F) → stands_for self.now w
            → Self.Expr.value result (seen w) ≡ of_bool Self.F.ring w.is_last }
        ensures degree { (t : ℕ) → Self.Expr.degree result t ≤ 1 }
        ensures within { Self.Expr.within (layout self.now) result };

    /// The selector of all rows but the last.
    fn is_transition(&self) -> Self::Expr
        ensures means { (w : Window Self.F) → stands_for self.now w
            → Self.Expr.value result (seen w) ≡ of_bool Self.F.ring w.is_transition }
        ensures degree { (t : ℕ) → Self.Expr.degree result t ≤ t }
        ensures within { Self.Expr.within (layout self.now) result };

    /// Asserts that `x` is zero. Fails as `refuses` says, which also says what the builder is then.
    fn assert_zero(&mut self, alloc: Global, x: Self::Expr) -> Result<(), AirError>
        ensures { MatchResult result (λ _. accepts self.old x self.new)
            (λ e. refuses self.old x e self.new) };

    /// Asserts that each of `xs` is zero, in order. Fails with the first refusal; the assertions
    /// before it stay.
    final fn assert_zeros(&mut self, alloc: Global, xs: Vec<Self::Expr>) -> Result<(), AirError>
        ensures { MatchResult result (λ _. AcceptsAll accepts self.old xs.items self.new)
            (λ e. RefusesOne accepts refuses self.old xs.items e self.new) }
    {
        for x in xs {
            self.assert_zero(alloc, x)?;
        }
        Ok(())
    }

    /// A builder that asserts on the first row only.
    fn when_first_row(&mut self) -> FilteredAirBuilder<'_, Self>
        ensures same_reference { result.inner.ghost_name ≡ self.entry.ghost_name }
        ensures unchanged { result.inner.now ≡ self.old }
        ensures condition { (w : Window Self.F) → stands_for self.old w
            → Self.Expr.value result.condition (seen w) ≡ of_bool Self.F.ring w.is_first }
        ensures degree { (t : ℕ) → Self.Expr.degree result.condition t ≤ 1 }
    {
        let condition = self.is_first_row();
        FilteredAirBuilder {
            inner: self,
            condition,
        }
    }

    /// A builder that asserts on the last row only.
    fn when_last_row(&mut self) -> FilteredAirBuilder<'_, Self>
        ensures same_reference { result.inner.ghost_name ≡ self.entry.ghost_name }
        ensures unchanged { result.inner.now ≡ self.old }
        ensures condition { (w : Window Self.F) → stands_for self.old w
            → Self.Expr.value result.condition (seen w) ≡ of_bool Self.F.ring w.is_last }
        ensures degree { (t : ℕ) → Self.Expr.degree result.condition t ≤ 1 }
    {
        let condition = self.is_last_row();
        FilteredAirBuilder {
            inner: self,
            condition,
        }
    }

    /// A builder that asserts on every row but the last.
    fn when_transition(&mut self) -> FilteredAirBuilder<'_, Self>
        ensures same_reference { result.inner.ghost_name ≡ self.entry.ghost_name }
        ensures unchanged { result.inner.now ≡ self.old }
        ensures condition { (w : Window Self.F) → stands_for self.old w
            → Self.Expr.value result.condition (seen w) ≡ of_bool Self.F.ring w.is_transition }
        ensures degree { (t : ℕ) → Self.Expr.degree result.condition t ≤ t }
    {
        let condition = self.is_transition();
        FilteredAirBuilder {
            inner: self,
            condition,
        }
    }

    ghost variable_converts: { (v : Self.Var) (e : Self.Expr) (w : Window Self.F)
        → Self.Var.converts v e
        → Self.Expr.value e (seen w) ≡ variable v w };

    ghost variable_degree: { (v : Self.Var) (e : Self.Expr) (t : ℕ) → Self.Var.converts v e
        → Self.Expr.degree e t ≤ 1 };

    ghost public_converts: { (v : Self.PublicVar) (e : Self.Expr) (w : Window Self.F)
        → Self.PublicVar.converts v e
        → Self.Expr.value e (seen w) ≡ public_value v w };

    ghost keeps: { (b : Self) (x : Self.Expr) (c : Self) (w : Window Self.F) → accepts b x c
        → stands_for b w ↔ stands_for c w };

    ghost keeps_layout: { (b : Self) (x : Self.Expr) (c : Self) → accepts b x c
        → layout c ≡ layout b };

    ghost keeps_pushed: { (b : Self) (x : Self.Expr) (c : Self) → accepts b x c → pushed_within b
        → pushed_within c };
}

/// A builder that asserts, on the builder that it borrows, its condition times each expression.
pub struct FilteredAirBuilder<'a, AB: AirBuilder> {
    /// The builder that the assertions are made on.
    pub inner: &'a mut AB,
    /// The factor of each assertion.
    pub condition: AB::Expr,
}

impl<AB: AirBuilder> Drop for FilteredAirBuilder<'_, AB> {
    fn drop(self)
        ensures { self.exit.0.now ≡ self.entry.inner.now }
    {
        let Self {
            inner: _,
            condition: _,
        } = self;
    }
}

impl<'a, AB: AirBuilder> AirBuilder for FilteredAirBuilder<'a, AB> {
    type F = AB::F;

    type Expr = AB::Expr;

    type Var = AB::Var;

    type PublicVar = AB::PublicVar;

    type MainWindow = AB::MainWindow;

    type PreprocessedWindow = AB::PreprocessedWindow;

    ghost layout = { λ b. AB.layout b.inner.now };

    ghost stands_for = { λ b. AB.stands_for b.inner.now };

    ghost seen = { AB.seen };

    ghost variable = { AB.variable };

    ghost public_value = { AB.public_value };

    ghost accepts = { λ b x c. (c.inner.ghost_name ≡ b.inner.ghost_name)
        × (c.condition ≡ b.condition)
        × ((product : AB.Expr)
        × IsProduct AB.F.ring.mul (AB.Expr.value product) (AB.Expr.value b.condition)
        (AB.Expr.value x)
        (AB.Expr.degree product) (AB.Expr.degree b.condition) (AB.Expr.degree x)
        ((factor : AB.Expr) × AB.Expr.same b.condition factor × AB.Expr.is_product factor x product)
        × AB.accepts b.inner.now product c.inner.now) };

    ghost refuses = { λ b x e c. (c.inner.ghost_name ≡ b.inner.ghost_name)
        × (c.condition ≡ b.condition)
        × (((e ≡ Memory) × (c.inner.now ≡ b.inner.now))
        ⊎ ((product : AB.Expr)
        × IsProduct AB.F.ring.mul (AB.Expr.value product) (AB.Expr.value b.condition)
        (AB.Expr.value x)
        (AB.Expr.degree product) (AB.Expr.degree b.condition) (AB.Expr.degree x)
        ((factor : AB.Expr) × AB.Expr.same b.condition factor × AB.Expr.is_product factor x product)
        × AB.refuses b.inner.now product e c.inner.now)) };

    ghost window_refuses = { λ b. AB.window_refuses b.inner.now };

    ghost pushed_within = { λ b. AB.pushed_within b.inner.now };

    ghost variable_converts = { AB.variable_converts };

    ghost variable_degree = { AB.variable_degree };

    ghost public_converts = { AB.public_converts };

    ghost keeps = { λ b x c w h. AB.keeps b.inner.now h.2.0 c.inner.now w h.2.2 };

    ghost keeps_layout = { λ b x c h. AB.keeps_layout b.inner.now h.2.0 c.inner.now h.2.2 };

    ghost keeps_pushed = { λ b x c h. AB.keeps_pushed b.inner.now h.2.0 c.inner.now h.2.2 };

    fn main(&self, alloc: Global) -> Result<AB::MainWindow, AirError> {
        self.inner.main(alloc)
    }

    fn preprocessed(&self) -> &AB::PreprocessedWindow {
        self.inner.preprocessed()
    }

    fn public_values(&self) -> &[AB::PublicVar] {
        self.inner.public_values()
    }

    fn is_first_row(&self) -> AB::Expr {
        self.inner.is_first_row()
    }

    fn is_last_row(&self) -> AB::Expr {
        self.inner.is_last_row()
    }

    fn is_transition(&self) -> AB::Expr {
        self.inner.is_transition()
    }

    fn assert_zero(&mut self, alloc: Global, x: AB::Expr) -> Result<(), AirError> {
        let condition = self.condition.copy(alloc)?;
        let product = condition.mul(alloc, x)?;
        self.inner.assert_zero(alloc, product)
    }
}
