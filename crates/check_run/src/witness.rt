//! The commands about witnesses.
ghost use Rattle.std.specs.Prelude.{◌≡◌, ◌⊎◌, ◌↔◌, ◌∷◌, [], IfOk, IsTrue, MatchResult, false, map, true};
ghost use Rattle.language_meaning.specs.Files.{named_of};
ghost use Rattle.check_run.specs.RunRefusals.{IsAnyRefused, IsWitnessRefused};
ghost use Rattle.check_run.specs.Runs.{IsAcceptance, IsAcceptanceTold, IsDecision, IsWitnessed, decision_line};
ghost use Rattle.language_witness.specs.Lines.{IsTextOf};

use crate::answer::Answer;
use crate::opened::opened;
use batch::{BatchError, GridCount, Witness};
use check_judge::{JudgeFault, traces_of};
use check_page::Page;
use check_report::{Given, RunRefusal};
use check_words::ChallengeWords;
use field::Field;
use field_list::{FieldEntry, TableField};
use field_words::{Challenge, Written};
use language_witness::{WitnessFault, push_witness, read_witness};
use std::alloc::{AllocError, Global};

/// `witness`: the text of the witness at a pair of challenges.
pub(crate) fn witness<F: TableField, EF: Challenge<F>>(
    alloc: Global,
    given: Given<'_>,
    field: FieldEntry,
    words: ChallengeWords<'_>,
) -> Result<Answer, RunRefusal>
    ensures { let E = ⟦<EF as Written<F>>⟧.fields in
        let text = given.entry.text.now in
        let files = map named_of given.entry.files.now in
        MatchResult result (IsWitnessed E text files words.entry)
        (λ e. (e ≡ RunRefusal.Memory) ⊎ IsWitnessRefused E text files words.entry) }
{
    let opened = opened::<F, EF>(alloc, given, field, words)?;
    let traces = traces_of(alloc, &opened.airs)?;
    match opened.plan.prove(alloc, &traces, opened.alpha, opened.beta) {
        Ok(witness) => {
            let mut text = String::new(alloc);
            push_witness(alloc, &mut text, &witness)?;
            Ok(Answer {
                text: text.into_bytes(),
                yes: true,
            })
        }
        Err(error) => {
            let fault = JudgeFault::from(error);
            Err(RunRefusal::of_judge(alloc, given, &opened.batch, fault)?)
        }
    }
}

/// `accept`: whether the witness in a file is accepted at a pair of challenges.
pub(crate) fn accept<F: TableField, EF: Challenge<F>>(
    alloc: Global,
    given: Given<'_>,
    field: FieldEntry,
    words: ChallengeWords<'_>,
    file: &str,
) -> Result<Answer, RunRefusal>
    ensures { IfOk result (IsAcceptance ⟦<EF as Written<F>>⟧.fields given.entry.text.now
        (map named_of given.entry.files.now) words.entry given.entry.witness.now) }
{
    let opened = opened::<F, EF>(alloc, given, field, words)?;
    let witness = witness_in::<F, EF>(alloc, file, given.witness)?;
    let traces = traces_of(alloc, &opened.airs)?;
    let (alpha, beta) = (opened.alpha, opened.beta);
    match opened.plan.verify(alloc, &traces, alpha, beta, &witness) {
        Ok(()) => accepted(alloc),
        Err(error) => {
            if is_memory(&error) {
                return Err(RunRefusal::Memory);
            }
            not_accepted(alloc, &error)
        }
    }
}

/// Whether a call was refused memory.
fn is_memory(error: &BatchError) -> bool
    ensures { IsTrue result ↔ (error.now ≡ BatchError.Memory) }
{
    match error {
        BatchError::Memory => true,
        _ => false,
    }
}

/// The witness in a file.
fn witness_in<F: Field, EF: Challenge<F>>(
    alloc: Global,
    file: &str,
    text: &[u8],
) -> Result<Witness<EF>, RunRefusal>
    ensures { IfOk result (IsTextOf EF.text text.now) }
{
    match read_witness::<F, EF>(alloc, text) {
        Ok(witness) => Ok(witness),
        Err(WitnessFault::Memory) => Err(RunRefusal::Memory),
        Err(WitnessFault::Line(line)) => Err(RunRefusal::of_witness(alloc, file, line)?),
    }
}

/// The answer where a witness is accepted.
fn accepted(alloc: Global) -> Result<Answer, RunRefusal>
    ensures { IfOk result (λ answer. (answer.yes ≡ true)
        × IsAcceptanceTold true answer.text.items) }
{
    let mut page = Page::new(alloc);
    page.word(
        "ACCEPTED: the witness satisfies the constraints of all lookups, and its terminals sum to zero\n",
    )?;
    Ok(Answer {
        text: page.bytes,
        yes: true,
    })
}

/// The answer where it is not.
fn not_accepted(alloc: Global, error: &BatchError) -> Result<Answer, RunRefusal>
    ensures { IfOk result (λ answer. (answer.yes ≡ false)
        × IsAcceptanceTold false answer.text.items) }
{
    let mut page = Page::new(alloc);
    let why = format!(in alloc; "{error}\n")?;
    page.word("NOT ACCEPTED: ")?;
    page.word(why.as_str())?;
    Ok(Answer {
        text: page.bytes,
        yes: false,
    })
}

/// `any`: whether any witness is accepted at a pair of challenges.
pub(crate) fn any<F: TableField, EF: Challenge<F>>(
    alloc: Global,
    given: Given<'_>,
    field: FieldEntry,
    words: ChallengeWords<'_>,
) -> Result<Answer, RunRefusal>
    ensures { let E = ⟦<EF as Written<F>>⟧.fields in
        let text = given.entry.text.now in
        let files = map named_of given.entry.files.now in
        MatchResult result (IsDecision E text files words.entry)
        (λ e. (e ≡ RunRefusal.Memory) ⊎ IsAnyRefused E text files words.entry) }
{
    let opened = opened::<F, EF>(alloc, given, field, words)?;
    let traces = traces_of(alloc, &opened.airs)?;
    let (alphas, betas) = (only(alloc, opened.alpha)?, only(alloc, opened.beta)?);
    match opened.plan.grid_count(alloc, &traces, &alphas, &betas) {
        Ok(GridCount { accepted, .. }) => decided(alloc, accepted > 0),
        Err(error) => {
            let fault = JudgeFault::from(error);
            Err(RunRefusal::of_judge(alloc, given, &opened.batch, fault)?)
        }
    }
}

/// The list of one challenge.
fn only<EF: Drop>(alloc: Global, challenge: EF) -> Result<Vec<EF>, AllocError>
    ensures { IfOk result (λ v. v.items ≡ challenge ∷ []) }
{
    let mut list = Vec::new(alloc);
    list.push(challenge)?;
    Ok(list)
}

/// The answer where some witness is accepted, or none.
fn decided(alloc: Global, yes: bool) -> Result<Answer, RunRefusal>
    ensures { MatchResult result (λ answer. (answer.yes ≡ yes)
        × (answer.text.items ≡ decision_line yes)) (λ e. e ≡ RunRefusal.Memory) }
{
    let mut page = Page::new(alloc);
    page.word(if yes {
        "SOME WITNESS: at these challenges a witness is accepted\n"
    } else {
        "NO WITNESS: at these challenges none is accepted\n"
    })?;
    Ok(Answer {
        text: page.bytes,
        yes,
    })
}
