//! The commands about a batch, each from the bytes of its files to its answer.
ghost use Rattle.std.specs.Prelude.{◌≡◌, ◌⊎◌, ◌&&◌, ◌||◌, ◌++◌, Err, MatchResult, Ok, OnOk, map, not, true};
ghost use Rattle.language_meaning.specs.Files.{named_of};
ghost use Rattle.language_meaning.specs.Shapes.{shape_of};
ghost use Rattle.check_judge.specs.Causes.{IsBusRefusalOr, IsSayingRefusal};
ghost use Rattle.check_run.specs.RunRefusals.{IsCheckRefused, IsPlanRefused, IsShowRefused, IsTaskRefused};
ghost use Rattle.check_report.specs.Told.{enforced_line, target_line};
ghost use Rattle.check_run.specs.Runs.{AnswersOver, EndsWith, IsPlanned, IsShown, IsVerdict};
ghost use Rattle.check_judge.specs.Said.{SayOver, airs_of};
ghost use Rattle.language_meaning.specs.Buses.{distinct_buses};
ghost use Rattle.language_meaning.specs.Lookups.{said_of};
ghost use Rattle.language.specs.Batches.{section_of};

use crate::answer::Answer;
use crate::reading::{batch_of, shapes_in, tables_in};
use crate::witness::{accept, any, witness};
use check_json::{push_airs_json, push_lookups_json, push_plan_json, push_report_json};
use check_judge::{JudgeFault, PlanJudgement, airs_named, airs_of, judge, judge_plan, sets_over};
use check_page::{Page, Told};
use check_report::{
    Given, RunRefusal, push_airs, push_enforced_line, push_lookups, push_plan, push_report,
    push_target,
};
use check_words::Task;
use field_list::{FieldEntry, TableField};
use field_words::{Challenge, Written};
use language::BatchText;
use language_meaning::{AirShape, NamedAir, check_buses};
use std::alloc::{AllocError, Global};

/// How many unbalanced tuples of a bus are looked at for those that differ in one value.
const MOST_COMPARED: usize = 64;

/// The answer to a task over a field.
pub(crate) fn answer_over<F: TableField, EF: Challenge<F>>(
    alloc: Global,
    given: Given<'_>,
    field: FieldEntry,
    task: Task<'_>,
) -> Result<Answer, RunRefusal>
    ensures { let E = ⟦<EF as Written<F>>⟧.fields in
        let text = given.entry.text.now in
        let files = map named_of given.entry.files.now in
        MatchResult result (AnswersOver E text files F.number field.challenges task.entry
        given.entry.witness.now)
        (λ e. (e ≡ RunRefusal.Memory) ⊎ IsTaskRefused E text files task.entry) }
{
    match task {
        Task::Check {
            limit,
            degree,
            json,
            enforced,
        } => check::<F, EF>(alloc, given, field, limit, degree, json, enforced),
        Task::Plan {
            degree,
            json,
            target,
            enforced,
        } => plan::<F, EF>(
            alloc,
            given,
            field,
            PlanTask {
                degree,
                json,
                target,
                enforced,
                airs_alone: false,
            },
        ),
        Task::Pack { degree, json } => plan::<F, EF>(
            alloc,
            given,
            field,
            PlanTask {
                json,
                target: None,
                enforced: false,
                degree,
                airs_alone: true,
            },
        ),
        Task::Show { json } => show::<F, EF>(alloc, given, json),
        Task::Witness { challenges, .. } => witness::<F, EF>(alloc, given, field, challenges),
        Task::Accept {
            challenges,
            witness,
        } => accept::<F, EF>(alloc, given, field, challenges, witness),
        Task::Any { challenges } => any::<F, EF>(alloc, given, field, challenges),
    }
}

/// What `plan` or `pack` is asked.
#[derive(Clone, Copy)]
struct PlanTask {
    degree: usize,
    json: bool,
    target: Option<u64>,
    enforced: bool,
    /// Whether the AIRs alone are told, as by `pack`.
    airs_alone: bool,
}

/// Whether the answer is yes, where the rest is good: unless it is asked whether all is enforced, and it is not.
fn is_yes(good: bool, asked: bool, all: bool) -> bool
    ensures { result ≡ (good && (not asked || all)) }
{
    good && (!asked || all)
}

/// `check`: whether all balances, all constraints hold and no count is above what the text says, over a field; and
/// whether all is enforced, if that is asked.
fn check<F: TableField, EF: Challenge<F>>(
    alloc: Global,
    given: Given<'_>,
    field: FieldEntry,
    limit: usize,
    max_degree: usize,
    json: bool,
    enforced: bool,
) -> Result<Answer, RunRefusal>
    ensures { let E = ⟦<EF as Written<F>>⟧.fields in
        let text = given.entry.text.now in
        let files = map named_of given.entry.files.now in
        MatchResult result (IsVerdict E text files F.number limit max_degree json enforced)
        (λ e. (e ≡ RunRefusal.Memory) ⊎ IsCheckRefused E text files max_degree) }
{
    let batch = batch_of(alloc, given)?;
    let tables = tables_in(alloc, given, &batch, F::modulus())?;
    let (text, most) = (given.text, limit.max(MOST_COMPARED));
    match judge::<F, EF>(alloc, text, &batch, &tables, most, max_degree) {
        Ok(report) => {
            let mut page = Page::new(alloc);
            let airs = airs_of(alloc, &batch)?;
            let told = Told {
                text,
                batch: &batch,
                airs: airs.as_slice(),
                field,
                limit,
                max_degree,
                enforced,
                over_traces: true,
            };
            if json {
                push_report_json(&mut page, told, &report)?;
            } else {
                push_report(&mut page, told, &report)?;
            }
            Ok(Answer {
                text: page.bytes,
                yes: is_yes(report.is_good(), enforced, report.enforced.all),
            })
        }
        Err(fault) => Err(RunRefusal::of_judge(alloc, given, &batch, fault)?),
    }
}

/// `plan`: what holds before any trace is seen; and `pack`, which tells the AIRs alone.
fn plan<F: TableField, EF: Challenge<F>>(
    alloc: Global,
    given: Given<'_>,
    field: FieldEntry,
    task: PlanTask,
) -> Result<Answer, RunRefusal>
    ensures { let E = ⟦<EF as Written<F>>⟧.fields in
        let text = given.entry.text.now in
        let files = map named_of given.entry.files.now in
        MatchResult result (IsPlanned E text files task.degree field.challenges task.target task.json
        task.enforced task.airs_alone)
        (λ e. (e ≡ RunRefusal.Memory) ⊎ IsPlanRefused E text files task.degree) }
{
    let batch = batch_of(alloc, given)?;
    let shapes = shapes_in(alloc, given, &batch, F::modulus())?;
    match judge_plan::<F, EF>(alloc, given.text, &batch, &shapes, task.degree) {
        Ok(judged) => {
            let mut page = Page::new(alloc);
            let airs = airs_of(alloc, &batch)?;
            let told = Told {
                text: given.text,
                batch: &batch,
                airs: airs.as_slice(),
                field,
                limit: 0,
                max_degree: task.degree,
                enforced: task.enforced,
                over_traces: false,
            };
            let bits_left = judged.report.for_all_traces();
            let meets = bits_left.meets(field.challenges, task.target);
            push_planned(&mut page, told, task, &judged, meets)?;
            Ok(Answer {
                text: page.bytes,
                yes: is_yes(meets, task.enforced, judged.enforced.all),
            })
        }
        Err(fault) => Err(RunRefusal::of_judge(alloc, given, &batch, fault)?),
    }
}

/// Appends what is found of a batch before any trace is seen, as a task tells it. `meets` is whether as many bits are
/// left as it wants.
fn push_planned(
    page: &mut Page,
    told: Told<'_>,
    task: PlanTask,
    judged: &PlanJudgement,
    meets: bool,
) -> Result<(), AllocError>
    ensures { OnOk result (EndsWith (task.airs_alone || task.json)
        (target_line task.target meets ++ enforced_line task.enforced judged.now.enforced.all)
        page.new.bytes.items) }
{
    let airs = judged.report.airs.as_slice();
    match (task.airs_alone, task.json) {
        (true, true) => push_airs_json(page, told, airs),
        (true, false) => push_airs(page, told, airs),
        (false, true) => push_plan_json(page, told, judged, task.target, meets),
        (false, false) => {
            push_plan(page, told, judged)?;
            push_target(page, task.target, meets)?;
            push_enforced_line(page, task.enforced, judged.enforced.all)
        }
    }
}

/// `show`: each lookup as it was understood, in words or in JSON.
fn show<F: TableField, EF: Challenge<F>>(
    alloc: Global,
    given: Given<'_>,
    json: bool,
) -> Result<Answer, RunRefusal>
    ensures { let E = ⟦<EF as Written<F>>⟧.fields in
        let text = given.entry.text.now in
        let files = map named_of given.entry.files.now in
        MatchResult result (IsShown E text files)
        (λ e. (e ≡ RunRefusal.Memory) ⊎ IsShowRefused E text files json) }
{
    let batch = batch_of(alloc, given)?;
    let shapes = shapes_in(alloc, given, &batch, F::modulus())?;
    let named = match named_in(alloc, given.text, &batch, &shapes) {
        Ok(named) => named,
        Err(fault) => return Err(RunRefusal::of_judge(alloc, given, &batch, fault)?),
    };
    let mut page = Page::new(alloc);
    if !json {
        push_lookups(&mut page, given.text, &batch, &shapes, &named)?;
        return Ok(Answer::of_page(page));
    }
    match sets_over::<F>(alloc, given.text, &named) {
        Ok(sets) => {
            push_lookups_json(&mut page, given.text, &batch, &named, &sets)?;
            Ok(Answer::of_page(page))
        }
        Err(fault) => Err(RunRefusal::of_judge(alloc, given, &batch, fault)?),
    }
}

/// What the items of each AIR say, once no bus is declared twice.
fn named_in(
    alloc: Global,
    text: &[u8],
    batch: &BatchText,
    shapes: &[AirShape],
) -> Result<Vec<NamedAir>, JudgeFault>
    ensures { let sections = map section_of batch.now.sections.items in
        let sizes = map shape_of shapes.now in
        MatchResult result (λ v. (distinct_buses text.now sections ≡ Ok tt)
        × SayOver text.now sections 1048576 (airs_of sections) sizes (map said_of v.items))
        (λ e. (e ≡ JudgeFault.Memory)
        ⊎ IsBusRefusalOr text.now sections (IsSayingRefusal text.now sections sizes) e) }
{
    check_buses(text, batch)?;
    airs_named(alloc, text, batch, shapes)
}
