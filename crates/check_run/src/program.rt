//! A run of the program, from what its words ask for to its status.
ghost use Rattle.std.specs.Prelude.{◌≡◌, ◌≢◌, ◌⊎◌, ◌↔◌, ◌-◌, ◌*◌, ℕ, All, IsTrue, List, MatchResult, Result, map};
ghost use Rattle.std.specs.Process.{exit_status};
ghost use Rattle.language_meaning.specs.Files.{named_of};
ghost use Rattle.check_judge.specs.Bits.{MeetsTarget, alphas_of};
ghost use Rattle.check_report.specs.Told.{refusal_text, target_line};
ghost use Rattle.check_report.specs.declared.refusal.RunRefusal.TheVariants.{Memory};
ghost use Rattle.check_run.specs.RunRefusals.{IsAskedRefusal, IsRefusalIn, IsRunRefusal, IsTaskRefused};
ghost use Rattle.check_run.specs.Runs.{AnswersIn, AnswersOver, AnswersTo, EndsWith, EndsWithAnswer, IsAnswer};
ghost use Rattle.check_run.specs.Told.{AnswersSaid, TellsWords};
ghost use Rattle.check_words.specs.Line.{NameList, line_app};
ghost use Rattle.check_words.specs.Words.{IsAsked, IsRefused};
ghost use Rattle.field_list.specs.Offers.{HoldsOf, challenges_in, names_of};
ghost use Rattle.program_ending.specs.Written.{AppendsFront};

use crate::answer::Answer;
use crate::commands::answer_over;
use check_json::push_bits_json;
use check_judge::Deceiving;
use check_page::Page;
use check_report::{Given, RunRefusal, push_bits_table, push_target};
use check_words::{Asked, BatchRequest, BitsRequest, Task, WordsRefusal};
use field_list::{FieldList, FieldTask, OfferedField};
use field_words::Written;
use language_meaning::NamedFile;
use program_ending::{write_answer, write_refusal};
use std::alloc::Global;
use std::io::Write;
use std::process::ExitCode;

/// The bytes of the files that a run reads.
#[derive(Clone, Copy)]
pub struct Inputs<'a> {
    /// The file with the text of the batch.
    pub text: &'a [u8],
    /// The files that it names in turn; see `language_meaning::files_of`.
    pub files: &'a [NamedFile],
    /// The file with the witness, for `accept`.
    pub witness: &'a [u8],
}

/// Runs what the words of a command line ask for over the bytes of the files that they name. `said` is
/// what `check_words::asked` gives for the words and the names of the fields in the list `L`.
///
/// Writes the answer to `output`. If the run is refused, writes why to `errors`, and nothing to
/// `output`. If the answer cannot be written, a part of it may be in `output`, and `errors` gets a line
/// that says so. The status is 0 if the answer is yes, 1 if it is no, and 2 if the run is refused or a
/// write fails. Tested, and not proved: what is printed of an answer but for the last lines of `check`, `plan`
/// and `bits` and the texts of `witness`, `accept` and `any`; the words of a refusal; that what goes to `errors` is
/// whole unless a write fails; that an answer ends with status 2 only where a write fails; and that
/// `accept` refuses no text of a witness.
///
/// The answer to `check` is whether all messages balance, all constraints hold and no count is above what the text
/// says, to `plan` and `bits` whether as many bits are left as are wanted, to `accept` whether the witness is accepted,
/// and to `any` whether any is; to the other commands it is yes. With `--enforced` the answer to `check` and `plan` is
/// no as well if not all flags and weights are shown to be enforced.
pub fn run<L: FieldList, W: Write, E: Write>(
    alloc: Global,
    said: Result<Asked<'_>, WordsRefusal>,
    inputs: Inputs<'_>,
    output: &mut W,
    errors: &mut E,
) -> ExitCode
    ensures { let text = inputs.entry.text.now in
        let files = map named_of inputs.entry.files.now in
        (answer : Result Answer RunRefusal)
        × AnswersSaid L.offers said.entry text files inputs.entry.witness.now answer
        × ((names : NameList) (words : List (List ℕ))
        → MatchResult said.entry (IsAsked (line_app names) words) (IsRefused (line_app names) words)
        → MatchResult answer (IsAnswer L.offers names words text files inputs.entry.witness.now)
        (IsRunRefusal L.offers names words text files))
        × EndsWithAnswer W.contents E.contents answer (exit_status result) output.old output.new errors.old
        errors.new }
{
    match answer_of::<L>(alloc, said, inputs) {
        Ok(answer) => {
            let unwritten = "error: the answer cannot be written\n".as_bytes();
            write_answer(
                &answer.text,
                None,
                answer.yes,
                Some(unwritten),
                output,
                errors,
            )
        }
        Err(refusal) => refuse(refusal, errors),
    }
}

/// Writes to `errors` a front of what tells a refusal: all of it unless a write fails, which is tested.
/// The status is 2.
pub fn refuse<E: Write>(refusal: RunRefusal, errors: &mut E) -> ExitCode
    ensures { (exit_status result ≡ 2)
        × AppendsFront (E.contents errors.old) (E.contents errors.new) (refusal_text refusal) }
{
    match refusal {
        RunRefusal::Memory => write_refusal("error: out of memory\n".as_bytes(), errors),
        RunRefusal::Told(lines) => write_refusal(lines.as_slice(), errors),
    }
}

/// What a run answers to what its words ask for.
fn answer_of<L: FieldList>(
    alloc: Global,
    said: Result<Asked<'_>, WordsRefusal>,
    inputs: Inputs<'_>,
) -> Result<Answer, RunRefusal>
    ensures { AnswersSaid L.offers said.entry inputs.entry.text.now
        (map named_of inputs.entry.files.now) inputs.entry.witness.now result }
{
    match said {
        Ok(Asked::Batch(request)) => answer_in::<L>(alloc, request, inputs),
        Ok(Asked::Bits(request)) => bits::<L>(alloc, request),
        Err(refusal) => answer_without_request(refusal),
    }
}

/// The answer to words that ask for nothing: the help or the refusal that is told of them.
fn answer_without_request(refusal: WordsRefusal) -> Result<Answer, RunRefusal>
    ensures { TellsWords refusal result }
{
    match refusal {
        WordsRefusal::Memory => Err(RunRefusal::Memory),
        WordsRefusal::Told(text) => Err(RunRefusal::Told(text.into_bytes())),
        WordsRefusal::Help(text) => Ok(Answer {
            text: text.into_bytes(),
            yes: true,
        }),
    }
}

/// The refusal of a name that no field of the list has.
fn no_field(alloc: Global, name: &str) -> Result<Answer, RunRefusal>
    ensures { MatchResult result (λ _. ⊥) (λ _. Unit {0}) }
{
    Err(RunRefusal::of_file(alloc, name.as_bytes(), "no field has this name")?)
}

/// A task about the batch of a file, over a field.
#[derive(Clone, Copy)]
struct BatchTask<'a> {
    alloc: Global,
    given: Given<'a>,
    task: Task<'a>,
}

impl<'a> FieldTask for BatchTask<'a> {
    type Answer = Result<Answer, RunRefusal>;

    ghost answers = { λ this answer F K o. let text = this.given.text.now in
        let files = map named_of this.given.files.now in MatchResult answer
        (AnswersOver o.fields text files o.number (challenges_in o) this.task this.given.witness.now)
        (λ e. (e ≡ Memory) ⊎ IsTaskRefused o.fields text files this.task) };

    fn over<O: OfferedField>(self) -> Result<Answer, RunRefusal> {
        answer_over::<O::Base, O::Challenges>(self.alloc, self.given, O::entry(), self.task)
    }
}

/// The answer to a request about a batch, over its field.
fn answer_in<L: FieldList>(
    alloc: Global,
    request: BatchRequest<'_>,
    inputs: Inputs<'_>,
) -> Result<Answer, RunRefusal>
    ensures { let field = request.entry.field.now in
        let task = request.entry.task in
        let text = inputs.entry.text.now in
        let files = map named_of inputs.entry.files.now in
        MatchResult result (AnswersIn L.offers field task text files inputs.entry.witness.now)
        (IsRefusalIn L.offers field task text files) }
{
    let BatchRequest {
        file,
        field,
        task,
        ..
    } = request;
    let Inputs {
        text,
        files,
        witness,
    } = inputs;
    let given = Given {
        file: file.as_bytes(),
        text,
        files,
        witness,
    };
    match L::over(field, BatchTask { alloc, given, task }) {
        Some(answer) => answer,
        None => no_field(alloc, field),
    }
}

/// Whether as many bits are left as a request wants, over a field.
#[derive(Clone, Copy)]
struct BitsTask<'a> {
    request: BitsRequest<'a>,
}

impl<'a> FieldTask for BitsTask<'a> {
    type Answer = bool;

    ghost answers = { λ this answer F K o. let request = this.request in
        IsTrue answer ↔ MeetsTarget (challenges_in o) request.target
        (request.width * (request.unbalanced - 1)) (alphas_of request.messages request.unbalanced) };

    fn over<O: OfferedField>(self) -> bool {
        let BitsTask { request } = self;
        Deceiving::of_request(request).meets(O::entry().challenges, request.target)
    }
}

/// `bits`, by these counts alone.
fn bits<L: FieldList>(alloc: Global, request: BitsRequest<'_>) -> Result<Answer, RunRefusal>
    ensures { let field = request.entry.field.now in MatchResult result
        (λ answer. HoldsOf field (λ F K o. IsTrue answer.yes
        ↔ MeetsTarget (challenges_in o) request.entry.target
        (request.entry.width * (request.entry.unbalanced - 1))
        (alphas_of request.entry.messages request.entry.unbalanced)) L.offers
        × EndsWith request.entry.json (target_line request.entry.target answer.yes) answer.text.items)
        (λ e. (e ≡ RunRefusal.Memory) ⊎ All (λ other. other ≢ field) (names_of L.offers)) }
{
    let Some(yes) = L::over(request.field, BitsTask { request }) else {
        return no_field(alloc, request.field);
    };
    let mut fields = Vec::new(alloc);
    L::push_entries(&mut fields)?;
    let mut page = Page::new(alloc);
    if request.json {
        push_bits_json(&mut page, &fields, request, yes)?;
    } else {
        push_bits_table(&mut page, &fields, request)?;
        push_target(&mut page, request.target, yes)?;
    }
    Ok(Answer {
        text: page.bytes,
        yes,
    })
}
