//! Filling the columns of one bus.
ghost use Rattle.std.specs.Prelude.{◌≡◌, ◌⊎◌, ◌∷◌, ◌++◌, [], List, MatchResult, None, Some, ℕ, map};
ghost use Rattle.air_expressions.specs.declared.base_expression.SymbolicExpression.{SymbolicExpression};
ghost use Rattle.lookup_model.specs.Outline.{Outline, fields_of};
ghost use Rattle.lookup.specs.Trials.{IsMember, IsTrial, IsTrialAmong};
ghost use Rattle.lookup.specs.internal.Fillings.{IsFilled, IsOpen, columns_of};
ghost use Rattle.lookup.specs.internal.Trials.{IsStep, IsTrialRefusal};

use crate::packing::degrees::TrialDegrees;
use crate::packing::trials::try_together;
use field::Field;
use lookup_model::{Lookup, LookupError};
use std::alloc::Global;
use std::mem::replace;

/// A bus while it is filled: its closed columns, and the last one, which is open, with what is kept of
/// it. Once a lookup is refused, only the refusal counts, and the columns mean nothing.
#[derive(Drop)]
pub(crate) struct Bus<F, K> {
    closed: Vec<Lookup<F>>,
    last: Lookup<F>,
    kept: K,
    refusal: Option<LookupError>,
}

/// A bus with its first lookup, which opens a column.
pub(crate) fn open_bus<F: Field, T: TrialDegrees<F>>(
    alloc: Global,
    first: Lookup<F>,
    degrees: &T,
) -> Bus<F, T::Kept>
    requires { IsMember first }
    ensures filled { (max_degree : ℕ) → IsFilled (T.keeps degrees.now) (T.answers degrees.now)
        max_degree (fields_of first ∷ []) result }
    ensures free { result.refusal ≡ None }
{
    let kept = degrees.keep(&first);
    Bus {
        closed: Vec::new(alloc),
        last: first,
        kept,
        refusal: None,
    }
}

/// Takes the next lookup of a bus: it joins the open column if the trial allows it, and opens a new one
/// otherwise. If that is refused, the bus keeps the refusal, and later lookups are dropped.
pub(crate) fn push_on<F: Field, T: TrialDegrees<F>>(
    bus: &mut Bus<F, T::Kept>,
    next: Lookup<F>,
    max_degree: usize,
    degrees: &T,
)
    requires members { (members : List (Outline (SymbolicExpression F)))
        × IsFilled (T.keeps degrees.now) (T.answers degrees.now) max_degree members bus.old
        × ((lookup : _) → IsTrialAmong (members ++ fields_of next ∷ []) lookup
        → T.may_ask degrees.now lookup) }
    requires next { IsMember next }
    ensures filled { (members : List (Outline (SymbolicExpression F)))
        → IsFilled (T.keeps degrees.now) (T.answers degrees.now) max_degree members bus.old
        → IsFilled (T.keeps degrees.now) (T.answers degrees.now) max_degree
        (members ++ fields_of next ∷ []) bus.new }
    ensures stays { (e : LookupError) → bus.old.refusal ≡ Some e → bus.new.refusal ≡ Some e }
{
    if bus.refusal.is_some() {
        return;
    }
    match push_next(bus, next, max_degree, degrees) {
        Ok(()) => {}
        Err(refusal) => bus.refusal = Some(refusal),
    }
}

/// As `push_on`, for a bus that is not refused so far.
///
/// Refuses what the trial is refused for.
fn push_next<F: Field, T: TrialDegrees<F>>(
    bus: &mut Bus<F, T::Kept>,
    next: Lookup<F>,
    max_degree: usize,
    degrees: &T,
) -> Result<(), LookupError>
    requires callable { (lookup : _) → IsTrial (fields_of bus.old.last) (fields_of next) lookup
        → T.may_ask degrees.now lookup }
    requires open { IsOpen (T.keeps degrees.now) bus.old }
    requires next { IsMember next }
    ensures { MatchResult result
        (λ _. IsOpen (T.keeps degrees.now) bus.new × (bus.new.refusal ≡ bus.old.refusal)
        × IsStep (T.answers degrees.now) max_degree (map fields_of bus.old.closed.items)
        (fields_of bus.old.last) (fields_of next) (columns_of bus.new))
        (λ e. (e ≡ LookupError.Memory)
        ⊎ IsTrialRefusal (T.answers degrees.now) max_degree (fields_of bus.old.last)
        (fields_of next) e) }
{
    let kept = degrees.keep(&next);
    let kept_both = degrees.keep_trial(bus.kept, kept);
    match try_together(&mut bus.last, next, kept_both, max_degree, degrees)? {
        None => bus.kept = kept_both,
        Some(next) => {
            let full = replace(&mut bus.last, next);
            bus.closed.push(full)?;
            bus.kept = kept;
        }
    }
    Ok(())
}

/// Puts the columns of a bus behind these.
///
/// Refuses what the bus is refused for.
pub(crate) fn append_columns<F: Field, K: Copy>(
    columns: &mut Vec<Lookup<F>>,
    bus: Bus<F, K>,
) -> Result<(), LookupError>
    ensures { MatchResult result
        (λ _. (bus.refusal ≡ None)
        × (columns.new.items ≡ columns.old.items ++ bus.closed.items ++ bus.last ∷ []))
        (λ e. (e ≡ LookupError.Memory) ⊎ (bus.refusal ≡ Some e)) }
{
    let Bus {
        closed,
        last,
        refusal,
        ..
    } = bus;
    match refusal {
        Some(refusal) => return Err(refusal),
        None => {}
    }
    let mut closed = closed;
    columns.append(&mut closed)?;
    columns.push(last)?;
    Ok(())
}
