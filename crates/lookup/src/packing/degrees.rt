//! What tells the degree of a trial: a closure that is asked, or degrees that are kept.
ghost use Rattle.std.specs.Prelude.{◌≡◌, ◌<◌, ℕ, ⊤, Result, Ok, true};
ghost use Rattle.std.specs.Borrow.{Bor};
ghost use Rattle.std.specs.Fn.{FnReturnsAt};
ghost use Rattle.air_expressions.specs.declared.base_expression.SymbolicExpression.{SymbolicExpression};
ghost use Rattle.lookup_model.specs.Outline.{Outline, fields_of};
ghost use Rattle.lookup_model.specs.declared.error.LookupError.{LookupError};
ghost use Rattle.lookup_model.specs.declared.types.Lookup.{Lookup};
ghost use Rattle.lookup.specs.Fewest.{AnswersDegree};
ghost use Rattle.lookup.specs.Packing.{trial};
ghost use Rattle.lookup.specs.Trials.{AnswersTrial, IsMember};
ghost use Rattle.lookup.specs.internal.TrialDegrees.{KeepsDegrees, kept_at_any_weight};

use field::Field;
use lookup_model::{Lookup, LookupError, SumDegrees};

/// What tells the degree of a trial. It may keep something of a lookup, and so of the trial of two,
/// that spares it a walk over their tuples.
pub(crate) trait TrialDegrees<F: Field> {
    /// What it keeps of a lookup.
    type Kept: Copy;

    ghost answers: { Self → Outline (SymbolicExpression F) → Result ℕ LookupError → Type 0 };

    ghost may_ask: { Self → Lookup F → Type 0 };

    ghost keeps: { Self → Self.Kept → Outline (SymbolicExpression F) → Type 0 };

    ghost keeps_weight: { (degrees : Self) (kept : Self.Kept)
        (o : Outline (SymbolicExpression F)) (n : ℕ)
        → keeps degrees kept o → keeps degrees kept (record o { count_weight = n }) };

    /// What it keeps of a lookup.
    fn keep(&self, lookup: &Lookup<F>) -> Self::Kept
        requires { IsMember lookup.now }
        ensures { keeps self.now result (fields_of lookup.now) };

    /// What it keeps of the trial of a column with a lookup, by what it keeps of each.
    fn keep_trial(&self, column: Self::Kept, next: Self::Kept) -> Self::Kept
        ensures { (a b : Outline (SymbolicExpression F)) → keeps self.now column a
            → keeps self.now next b → keeps self.now result (trial a b) };

    /// Whether a trial is above the greatest degree, as far as what it keeps of the trial tells. Then
    /// the trial need not be made.
    fn is_above(&self, kept: Self::Kept, max_degree: usize) -> bool
        ensures { result ≡ true → (o : Outline (SymbolicExpression F)) → keeps self.now kept o
            → (n : ℕ) × answers self.now o (Ok n) × (max_degree < n) };

    /// The degree of a trial, or what it is refused for.
    fn degree(&self, lookup: &Lookup<F>, kept: Self::Kept) -> Result<usize, LookupError>
        requires asked { may_ask self.now lookup.now }
        requires member { IsMember lookup.now }
        requires kept { keeps self.now kept (fields_of lookup.now) }
        ensures { answers self.now (fields_of lookup.now) result };
}

/// A closure that is asked about each trial. Nothing is kept.
#[derive(Clone, Copy)]
pub(crate) struct Asked<'a, D> {
    /// The closure.
    pub degree: &'a D,
}

impl<F: Field, D: Fn(&Lookup<F>) -> Result<usize, LookupError>> TrialDegrees<F> for Asked<'_, D> {
    type Kept = ();

    ghost answers = { λ s. AnswersTrial (FnReturnsAt D.Fn s.degree.now) };

    ghost may_ask = { λ s lookup. (r : Bor (Lookup F)) → r.now ≡ lookup → D.pre s.degree.now r };

    ghost keeps = { λ s kept o. ⊤ };

    ghost keeps_weight = { λ s kept o n h. h };

    fn keep(&self, _lookup: &Lookup<F>) {}

    fn keep_trial(&self, _column: (), _next: ()) {}

    fn is_above(&self, _kept: (), _max_degree: usize) -> bool {
        false
    }

    fn degree(&self, lookup: &Lookup<F>, _kept: ()) -> Result<usize, LookupError> {
        (self.degree)(lookup)
    }
}

/// The degree of the constraint that the gadget asserts for a lookup, where the transition selector
/// has degree 0. Of a column the degrees of its sum of fractions are kept, if they fit `usize`, so
/// each expression is walked once.
#[derive(Clone, Copy)]
pub(crate) struct GadgetDegrees;

impl<F: Field> TrialDegrees<F> for GadgetDegrees {
    type Kept = Option<SumDegrees>;

    ghost answers = { λ s. AnswersDegree };

    ghost may_ask = { λ s lookup. ⊤ };

    ghost keeps = { λ s. KeepsDegrees };

    ghost keeps_weight = { λ s. kept_at_any_weight };

    fn keep(&self, lookup: &Lookup<F>) -> Option<SumDegrees> {
        SumDegrees::of_lookup(lookup, 0).ok()
    }

    fn keep_trial(
        &self,
        column: Option<SumDegrees>,
        next: Option<SumDegrees>,
    ) -> Option<SumDegrees> {
        column?.plus(next?).ok()
    }

    fn is_above(&self, kept: Option<SumDegrees>, max_degree: usize) -> bool {
        let Some(sum) = kept else {
            return false;
        };
        let Ok(degree) = sum.degree() else {
            return false;
        };
        max_degree < degree
    }

    fn degree(&self, lookup: &Lookup<F>, kept: Option<SumDegrees>) -> Result<usize, LookupError> {
        match kept {
            Some(sum) => sum.degree(),
            None => Err(LookupError::DegreeOverflow),
        }
    }
}
