//! Builders over an extension of their field, and over the permutation trace of an argument.
ghost use Rattle.std.specs.Prelude.{◌≡◌, ◌⊎◌, ℕ, ◌≤◌, ◌↔◌, IfOk, IfErr, MatchResult, Some, slice_get};
ghost use Rattle.air_expressions.specs.Builder.{MeansRow};
ghost use Rattle.air_expressions.specs.Filter.{IsProduct};
ghost use Rattle.air_expressions.specs.Window.{ExtWindow, Window};
ghost use Rattle.air_expressions.specs.declared.error.AirError.{AirError};
ghost use Rattle.air_expressions.specs.declared.error.AirError.TheVariants.{Memory};

use crate::builder::{AirBuilder, FilteredAirBuilder};
use crate::error::AirError;
use crate::expression::Expression;
use field::ExtensionField;
use matrix::WindowAccess;
use std::alloc::Global;

/// A builder that also takes assertions over an extension of its field.
///
/// The windows that it stands for are its base windows, extended with the rows of a permutation
/// trace, challenges and permutation values.
pub trait ExtensionBuilder: AirBuilder {
    /// The extension.
    type EF: ExtensionField<Self::F>;

    /// What assertions over the extension are made of.
    type ExprEF: Expression<Self::EF>;

    /// A cell of the permutation trace.
    type VarEF: Copy + Into<Self::ExprEF>;

    ghost stands_for_ext: { Self → ExtWindow Self.F Self.EF → Type 0 };

    ghost seen_ext: { ExtWindow Self.F Self.EF → Self.ExprEF.Seen };

    ghost variable_ext: { Self.VarEF → ExtWindow Self.F Self.EF → Self.EF };

    ghost accepts_ext: { Self → Self.ExprEF → Self → Type 0 };

    ghost refuses_ext: { Self → Self.ExprEF → AirError → Self → Type 0 };

    /// The base expression `x`, embedded.
    fn lift(x: Self::Expr) -> Self::ExprEF
        ensures means { (w : ExtWindow Self.F Self.EF)
            → Self.ExprEF.value result (seen_ext w)
            ≡ Self.EF.embed (Self.Expr.value x (Self.seen w.base)) }
        ensures degree { (t : ℕ) → Self.ExprEF.degree result t ≡ Self.Expr.degree x t };

    /// Asserts that `x` is zero. Fails as `refuses_ext` says, which also says what the builder is
    /// then.
    fn assert_zero_ext(&mut self, alloc: Global, x: Self::ExprEF) -> Result<(), AirError>
        ensures { MatchResult result (λ _. accepts_ext self.old x self.new)
            (λ e. refuses_ext self.old x e self.new) };

    ghost base_window: { (b : Self) (w : ExtWindow Self.F Self.EF) → stands_for_ext b w
        → Self.stands_for b w.base };

    ghost variable_ext_converts: { (v : Self.VarEF) (e : Self.ExprEF) (w : ExtWindow Self.F Self.EF)
        → Self.VarEF.converts v e → Self.ExprEF.value e (seen_ext w) ≡ variable_ext v w };

    ghost variable_ext_degree: { (v : Self.VarEF) (e : Self.ExprEF) (t : ℕ)
        → Self.VarEF.converts v e
        → Self.ExprEF.degree e t ≤ 1 };

    ghost keeps_ext: { (b : Self) (x : Self.ExprEF) (c : Self) (w : ExtWindow Self.F Self.EF)
        → accepts_ext b x c → stands_for_ext b w ↔ stands_for_ext c w };

    ghost keeps_ext_layout: { (b : Self) (x : Self.ExprEF) (c : Self) → accepts_ext b x c
        → Self.layout c ≡ Self.layout b };

    ghost keeps_ext_pushed: { (b : Self) (x : Self.ExprEF) (c : Self) → accepts_ext b x c
        → Self.pushed_within b → Self.pushed_within c };

    ghost base_keeps_ext: { (b : Self) (x : Self.Expr) (c : Self) (w : ExtWindow Self.F Self.EF)
        → Self.accepts b x c → stands_for_ext b w ↔ stands_for_ext c w };

    ghost ext_keeps_base: { (b : Self) (x : Self.ExprEF) (c : Self) (w : Window Self.F)
        → accepts_ext b x c → Self.stands_for b w ↔ Self.stands_for c w };
}

impl<'a, AB: ExtensionBuilder> ExtensionBuilder for FilteredAirBuilder<'a, AB> {
    type EF = AB::EF;

    type ExprEF = AB::ExprEF;

    type VarEF = AB::VarEF;

    ghost stands_for_ext = { λ b. AB.stands_for_ext b.inner.now };

    ghost seen_ext = { AB.seen_ext };

    ghost variable_ext = { AB.variable_ext };

    ghost accepts_ext = { λ b x c. (c.inner.ghost_name ≡ b.inner.ghost_name)
        × (c.condition ≡ b.condition)
        × ((product : AB.ExprEF)
        × IsProduct AB.EF.ring.mul (λ w. AB.ExprEF.value product (AB.seen_ext w))
        (λ w. AB.EF.embed (AB.Expr.value b.condition (AB.seen w.base)))
        (λ w. AB.ExprEF.value x (AB.seen_ext w))
        (AB.ExprEF.degree product) (AB.Expr.degree b.condition) (AB.ExprEF.degree x)
        ((factor : AB.ExprEF) × AB.ExprEF.is_product factor x product)
        × AB.accepts_ext b.inner.now product c.inner.now) };

    ghost refuses_ext = { λ b x e c. (c.inner.ghost_name ≡ b.inner.ghost_name)
        × (c.condition ≡ b.condition)
        × (((e ≡ Memory) × (c.inner.now ≡ b.inner.now))
        ⊎ ((product : AB.ExprEF)
        × IsProduct AB.EF.ring.mul (λ w. AB.ExprEF.value product (AB.seen_ext w))
        (λ w. AB.EF.embed (AB.Expr.value b.condition (AB.seen w.base)))
        (λ w. AB.ExprEF.value x (AB.seen_ext w))
        (AB.ExprEF.degree product) (AB.Expr.degree b.condition) (AB.ExprEF.degree x)
        ((factor : AB.ExprEF) × AB.ExprEF.is_product factor x product)
        × AB.refuses_ext b.inner.now product e c.inner.now)) };

    ghost base_window = { λ b. AB.base_window b.inner.now };

    ghost variable_ext_converts = { AB.variable_ext_converts };

    ghost variable_ext_degree = { AB.variable_ext_degree };

    ghost keeps_ext = { λ b x c w h. AB.keeps_ext b.inner.now h.2.0 c.inner.now w h.2.2 };

    ghost keeps_ext_layout = { λ b x c h. AB.keeps_ext_layout b.inner.now h.2.0 c.inner.now h.2.2 };

    ghost keeps_ext_pushed = { λ b x c h. AB.keeps_ext_pushed b.inner.now h.2.0 c.inner.now h.2.2 };

    ghost base_keeps_ext = { λ b x c w h. AB.base_keeps_ext b.inner.now h.2.0 c.inner.now w h.2.2 };

    ghost ext_keeps_base = { λ b x c w h. AB.ext_keeps_base b.inner.now h.2.0 c.inner.now w h.2.2 };

    fn lift(x: AB::Expr) -> AB::ExprEF {
        AB::lift(x)
    }

    fn assert_zero_ext(&mut self, alloc: Global, x: AB::ExprEF) -> Result<(), AirError> {
        let condition = self.condition.copy(alloc)?;
        let product = AB::lift(condition).mul(alloc, x)?;
        self.inner.assert_zero_ext(alloc, product)
    }
}

/// A builder that also provides the permutation trace of an argument, its challenges and its
/// values.
pub trait PermutationAirBuilder: ExtensionBuilder {
    /// The rows of the permutation trace.
    type MP: WindowAccess<Self::VarEF> + Drop;

    /// A challenge.
    type RandomVar: Copy + Into<Self::ExprEF>;

    /// A value of the permutation argument.
    type PermutationVar: Copy + Into<Self::ExprEF>;

    ghost challenge: { Self.RandomVar → ExtWindow Self.F Self.EF → Self.EF };

    ghost permutation_value: { Self.PermutationVar → ExtWindow Self.F Self.EF → Self.EF };

    /// The current row and the next one of the permutation trace. Fails as `window_refuses` says.
    fn permutation(&self, alloc: Global) -> Result<Self::MP, AirError>
        ensures readable { IfOk result (λ m. Self.MP.readable m) }
        ensures current { IfOk result (λ m. MeansRow
            (Self.stands_for_ext self.now) Self.variable_ext
            (Self.layout self.now).permutation_width (λ w. w.permutation) (Self.MP.current m)) }
        ensures next { IfOk result (λ m. MeansRow (Self.stands_for_ext self.now) Self.variable_ext
            (Self.layout self.now).permutation_width (λ w. w.permutation_next) (Self.MP.next m)) }
        ensures refused { IfErr result (Self.window_refuses self.now) };

    /// The challenges.
    fn permutation_randomness(&self) -> &[Self::RandomVar]
        ensures means { MeansRow (Self.stands_for_ext self.now) challenge
            (Self.layout self.now).num_permutation_challenges (λ w. w.challenges) result.now }
        ensures degree { (i t : ℕ) (v : Self.RandomVar) (e : Self.ExprEF)
            → slice_get result.now i ≡ Some v
            → Self.RandomVar.converts v e → Self.ExprEF.degree e t ≡ 0 };

    /// The values of the permutation argument.
    fn permutation_values(&self) -> &[Self::PermutationVar]
        ensures means { MeansRow (Self.stands_for_ext self.now) permutation_value
            (Self.layout self.now).num_permutation_values (λ w. w.permutation_values) result.now }
        ensures degree { (i t : ℕ) (v : Self.PermutationVar) (e : Self.ExprEF)
            → slice_get result.now i ≡ Some v
            → Self.PermutationVar.converts v e → Self.ExprEF.degree e t ≡ 0 };

    ghost challenge_converts: { (v : Self.RandomVar) (e : Self.ExprEF)
        (w : ExtWindow Self.F Self.EF)
        → Self.RandomVar.converts v e → Self.ExprEF.value e (Self.seen_ext w) ≡ challenge v w };

    ghost permutation_value_converts: { (v : Self.PermutationVar) (e : Self.ExprEF)
        (w : ExtWindow Self.F Self.EF)
        → Self.PermutationVar.converts v e
        → Self.ExprEF.value e (Self.seen_ext w) ≡ permutation_value v w };
}
