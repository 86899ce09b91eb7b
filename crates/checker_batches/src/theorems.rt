//! Theorems on batches, each as the contract of a function that does nothing: at how few challenges a batch
//! that does not balance can be accepted, and what packing keeps.
ghost use Rattle.std.specs.Prelude.{◌<◌, ℕ, List, All, map};
ghost use Rattle.lookup_model.specs.Batches.Alphas.{FewBadAlphas};
ghost use Rattle.lookup_model.specs.Batches.Counts.{IsCountedSound};
ghost use Rattle.lookup_model.specs.Batches.Grid.{FewAcceptedPairs, IsJointlySound};
ghost use Rattle.lookup_model.specs.Batches.Linear.{IsLinearlyJointlySound, IsLinearlySound, LinearlyFewAcceptedPairs};
ghost use Rattle.lookup_model.specs.Batches.Instances.{Instance, IsFitting};
ghost use Rattle.checker_batches.specs.Packed.{ArePacked, KeepsCounts, KeepsTerminals};
ghost use Rattle.checker_batches.specs.Renamed.{IsInjective, renamed_instance};
ghost use Rattle.checker_batches.specs.Soundness.{AcceptedIsAccepting, AcceptedIsAcceptingBelow, HoldsOfLawful};

use field::{ExtensionField, Field, Over};

/// Counted soundness of every batch that fits, with lawful ids and flags.
///
/// Let `n` be the number of distinct messages, and `k` the number of those that do not balance, above
/// zero. For all but at most `W * k * (k - 1) / 2` values of beta, fewer than `n + k` values of alpha admit
/// an accepted witness.
pub fn counted_soundness<F: Field, EF: ExtensionField<F>>()
    ensures { HoldsOfLawful F.CHARACTERISTIC F.ring F.eq
        (λ W m instances. IsCountedSound ⟦<EF as Over<F>>⟧.fields instances W) }
{}

/// Joint soundness of every batch that fits, with lawful ids and flags. It follows from the last part of
/// `counted_soundness`.
///
/// Let `n` be the number of distinct messages, `k` the number of those that do not balance, above zero,
/// and `W` the width that the challenges are made for. A beta is bad if `n + k` distinct alphas are
/// accepting at it; at most `W * k * (k - 1) / 2` betas are. At a bad beta all alphas may be accepting,
/// and at every other one fewer than `n + k` are. So of the pairs of `a` distinct alphas with `b`
/// distinct betas, at most `W * k * (k - 1) / 2 * a + (n + k - 1) * b` admit an accepted witness.
///
/// `pairs` says so of every distinct list of accepted pairs, and `counts` of their number.
pub fn joint_soundness<F: Field, EF: ExtensionField<F>>()
    ensures pairs { HoldsOfLawful F.CHARACTERISTIC F.ring F.eq
        (λ W m instances. IsJointlySound ⟦<EF as Over<F>>⟧.fields instances W) }
    ensures counts { HoldsOfLawful F.CHARACTERISTIC F.ring F.eq
        (λ W m instances. FewAcceptedPairs ⟦<EF as Over<F>>⟧.fields instances W) }
{
    counted_soundness::<F, EF>();
}

/// Linear soundness of every batch that fits, with lawful ids and flags. Its bound of bad betas is no
/// greater than that of `counted_soundness`, and linear in `k`.
///
/// Let `n` be the number of distinct messages, `k` the number of those that do not balance, above zero,
/// and `W` the width that the challenges are made for. A beta touches one of these `k` if another one has
/// the same point there; at most `W * (k - 1)` betas touch it. At every other beta fewer than `n + k`
/// alphas are accepting. So for all but at most `W * (k - 1)` values of beta, fewer than `n + k` values of
/// alpha admit an accepted witness.
///
/// `betas` says so, and the same by heights: let `M` be the most messages of the batch, on each row of
/// each AIR one for each lookup with flags and each tuple of every other one. If some message does not
/// balance, then for all but at most `W * (M - 1)` values of beta, fewer than `2 * M` values of alpha are
/// accepting, whatever the traces hold.
///
/// Of the pairs of `a` distinct alphas with `b` distinct betas, at most
/// `W * (k - 1) * a + (n + k - 1) * b` admit an accepted witness: `pairs` says so of every distinct list of
/// accepted pairs, and `counts` of their number.
///
/// `alphas` is the twin for a fixed alpha. It asks that ids are below the characteristic minus one, so
/// that no point is the same at all betas. For all but at most `k - 1` values of alpha, no more than
/// `W * (n + k - 1)` values of beta admit an accepted witness.
pub fn linear_soundness<F: Field, EF: ExtensionField<F>>()
    ensures betas { HoldsOfLawful F.CHARACTERISTIC F.ring F.eq
        (λ W m instances. IsLinearlySound ⟦<EF as Over<F>>⟧.fields instances W) }
    ensures pairs { HoldsOfLawful F.CHARACTERISTIC F.ring F.eq
        (λ W m instances. IsLinearlyJointlySound ⟦<EF as Over<F>>⟧.fields instances W) }
    ensures counts { HoldsOfLawful F.CHARACTERISTIC F.ring F.eq
        (λ W m instances. LinearlyFewAcceptedPairs ⟦<EF as Over<F>>⟧.fields instances W) }
    ensures alphas { HoldsOfLawful F.CHARACTERISTIC F.ring F.eq (λ W m instances.
        m < F.CHARACTERISTIC → FewBadAlphas ⟦<EF as Over<F>>⟧.fields instances W) }
{}

/// What joins `check_witness` and `some_witness` to `counted_soundness`.
///
/// Let challenges have the beta and the prefixes that `Challenges::new` makes of an alpha and a beta.
/// Some witness is accepted over them exactly if alpha is accepting at beta. `below` says the same of
/// instances of the specification, such as a plan's.
pub fn accepted_is_accepting<F: Field, EF: ExtensionField<F>>()
    ensures values { AcceptedIsAccepting ⟦<EF as Over<F>>⟧.fields }
    ensures below { AcceptedIsAcceptingBelow ⟦<EF as Over<F>>⟧.fields }
{}

/// Packing AIRs of a batch keeps its counts and its terminals.
///
/// Let lookups of each AIR be packed, or be as they were. Let each joined lookup have the id of its bus,
/// and each other one the id that it had. Then the batch has as many distinct messages as before, and as
/// many of them do not balance. If the AIRs fit and, before packing, flags are lawful and no denominator
/// vanishes, satisfied witnesses of both batches have the same terminals, AIR by AIR.
///
/// A plan gives ids in the order of lookups, so a plan of packed AIRs has other ids than one of the AIRs
/// before. `renumbered` says that this does not matter to the counts: let the packed AIRs have the ids of
/// before under a renaming that keeps different ids apart. Then both counts stay as well.
pub fn packing_keeps_batch<F: Field, EF: ExtensionField<F>>()
    ensures counts { (before after : List (Instance F)) → ArePacked F.ring F.eq before after
        → KeepsCounts ⟦<EF as Over<F>>⟧.fields before after }
    ensures renumbered { (rename : ℕ → ℕ) → IsInjective rename → (before after : List (Instance F))
        → All IsFitting before → ArePacked F.ring F.eq (map (renamed_instance rename) before) after
        → KeepsCounts ⟦<EF as Over<F>>⟧.fields before after }
    ensures terminals { (before after : List (Instance F)) → All IsFitting before
        → All IsFitting after → ArePacked F.ring F.eq before after
        → KeepsTerminals ⟦<EF as Over<F>>⟧.fields before after }
{}
