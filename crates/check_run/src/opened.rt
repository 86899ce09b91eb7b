//! A batch over its tables, with its plan and a pair of challenges.
ghost use Rattle.std.specs.Prelude.{◌≡◌, ◌⊎◌, MatchOption, MatchResult, Ok, map};
ghost use Rattle.batch.specs.Runs.{plan_of};
ghost use Rattle.language_meaning.specs.Files.{named_of};
ghost use Rattle.check_run.specs.RunRefusals.{IsOpeningRefused};
ghost use Rattle.check_run.specs.internal.Opened.{IsOpened};

use crate::reading::{batch_of, tables_in};
use batch::BatchPlan;
use check_judge::{AirOver, PlannedAirs, planned_airs};
use check_report::{Given, RunRefusal};
use check_words::ChallengeWords;
use field::Field;
use field_list::{FieldEntry, TableField};
use field_words::{Challenge, Written};
use language::BatchText;
use std::alloc::Global;

/// A batch over its tables, with its plan and a pair of challenges.
#[derive(Drop)]
pub(crate) struct OpenedBatch<F: Field, EF> {
    pub(crate) batch: BatchText,
    pub(crate) airs: Vec<AirOver<F>>,
    pub(crate) plan: BatchPlan<F>,
    pub(crate) alpha: EF,
    pub(crate) beta: EF,
}

/// The batch of these files over its tables, with its plan, and the challenges that two words write.
pub(crate) fn opened<F: TableField, EF: Challenge<F>>(
    alloc: Global,
    given: Given<'_>,
    field: FieldEntry,
    words: ChallengeWords<'_>,
) -> Result<OpenedBatch<F, EF>, RunRefusal>
    ensures { let E = ⟦<EF as Written<F>>⟧.fields in
        let text = given.entry.text.now in
        let files = map named_of given.entry.files.now in
        MatchResult result (λ o. IsOpened E text files words.entry o.airs.items (plan_of o.plan)
        o.alpha o.beta)
        (λ e. (e ≡ RunRefusal.Memory) ⊎ IsOpeningRefused E text files words.entry) }
{
    let alpha = challenge_of::<F, EF>(alloc, field, "alpha", words.alpha)?;
    let beta = challenge_of::<F, EF>(alloc, field, "beta", words.beta)?;
    let batch = batch_of(alloc, given)?;
    let tables = tables_in(alloc, given, &batch, F::modulus())?;
    match planned_airs::<F>(alloc, given.text, &batch, &tables) {
        Ok(PlannedAirs { airs, plan }) => Ok(OpenedBatch {
            batch,
            airs,
            plan,
            alpha,
            beta,
        }),
        Err(fault) => Err(RunRefusal::of_judge(alloc, given, &batch, fault)?),
    }
}

/// The challenge that a word writes, which is the value of this option.
fn challenge_of<F: Field, EF: Challenge<F>>(
    alloc: Global,
    field: FieldEntry,
    option: &str,
    word: &str,
) -> Result<EF, RunRefusal>
    ensures { MatchResult result (EF.written word.now)
        (λ e. (e ≡ RunRefusal.Memory) ⊎ ((x : EF) → ¬ EF.written word.now x)) }
{
    match EF::from_word(word.as_bytes()) {
        Some(challenge) => Ok(challenge),
        None => Err(RunRefusal::of_challenge(alloc, field, option, word)?),
    }
}
