//! A run of the program, from its words to its status.
ghost use Rattle.std.specs.Prelude.{◌≡◌, ◌⊎◌, ℕ, List, IfSome, MatchResult, Result, map, string_bytes};
ghost use Rattle.std.specs.Process.{exit_status};
ghost use Rattle.example_machines.specs.Program.{Answers, AnswersKnown, AnswersOver, EndsWithReport, IsBadChallenge, parts_of};
ghost use Rattle.field_words.specs.Fields.{run_fields};
ghost use Rattle.program_ending.specs.Endings.{EndsAnswered};

use crate::error::RunError;
use crate::machine::Machine;
use crate::report::{Report, report_of};
use field::Field;
use field_list::{FieldList, FieldTask, OfferedField};
use field_words::{Challenge, Written};
use program_ending::{write_answer, write_refusal};
use std::alloc::Global;
use std::io;
use std::io::{Read, Write};
use std::process::ExitCode;

/// Runs `words`, which are `MACHINE FIELD ALPHA BETA`, over the rows of `input`; FIELD is the name of one
/// of the fields in the list `L`.
///
/// Writes the report to `output`, and then the line of the first tuple that does not balance to
/// `errors`, if there is one. If the run is refused, it writes `error: TEXT` and a line end to `errors`,
/// and nothing to `output`; TEXT has a line end of its own where a refused word has one. All text is
/// made before anything is written. The status is 0 if the terminals cancel, 1 if they do not, and 2 if
/// the run is refused or a write fails.
pub fn run<L: FieldList, R: Read, W: Write, E: Write>(
    alloc: Global,
    words: &[String],
    input: &mut R,
    output: &mut W,
    errors: &mut E,
) -> ExitCode
    ensures { (answer : Result Report RunError)
        × Answers L.offers (map string_bytes words.now) (R.remaining input.old) answer
        × EndsWithReport W.contents E.contents answer (exit_status result) output.old output.new errors.old
        errors.new }
{
    match answer::<L, R>(alloc, words, input) {
        Ok(report) => write_report(&report, output, errors),
        Err(error) => refuse(alloc, error, errors),
    }
}

/// Writes `error: TEXT` and a line end to `errors`, or `error: out of memory` if memory runs out on
/// the way. The status is 2, whether or not this could be written.
pub fn refuse<E: Write>(alloc: Global, error: RunError, errors: &mut E) -> ExitCode
    ensures { exit_status result ≡ 2 }
{
    match format!(in alloc; "error: {error}\n") {
        Ok(line) => write_refusal(line.as_bytes(), errors),
        Err(_) => write_refusal(b"error: out of memory\n", errors),
    }
}

/// Writes a report to `output`, and then the line of its mismatch to `errors`, if there is one.
fn write_report<W: Write, E: Write>(report: &Report, output: &mut W, errors: &mut E) -> ExitCode
    ensures { EndsAnswered W.contents E.contents (parts_of report.now) output.old output.new errors.old
        errors.new (exit_status result) }
{
    let mismatch = report.mismatch.as_ref().map(|line| line.as_bytes());
    write_answer(
        report.text.as_bytes(),
        mismatch,
        report.balanced,
        None,
        output,
        errors,
    )
}

/// A report of a machine at two challenges over the rows of an input.
#[derive(Drop)]
struct ReportTask<'a, R> {
    alloc: Global,
    machine: Machine,
    alpha: &'a String,
    beta: &'a String,
    input: &'a mut R,
}

impl<'a, R: Read> FieldTask for ReportTask<'a, R> {
    type Answer = Result<Report, RunError>;

    ghost answers = { λ this answer F K o. AnswersKnown o.fields this.machine
        (string_bytes this.alpha.now) (string_bytes this.beta.now) (R.remaining this.input.now)
        answer };

    fn over<O: OfferedField>(self) -> Result<Report, RunError> {
        let ReportTask {
            alloc,
            machine,
            alpha,
            beta,
            input,
        } = self;
        answer_over::<O::Base, O::Challenges, R>(alloc, machine, alpha, beta, input)
    }
}

/// The report for the words, or the first refusal in the order of the checks.
fn answer<L: FieldList, R: Read>(
    alloc: Global,
    words: &[String],
    input: &mut R,
) -> Result<Report, RunError>
    ensures { Answers L.offers (map string_bytes words.now) (R.remaining input.old) result }
{
    let [machine, field, alpha, beta] = words else {
        return Err(RunError::Usage);
    };
    let Some(machine) = Machine::from_name(machine.as_str()) else {
        return Err(RunError::UnknownMachine(String::from_str(alloc, machine.as_str())?));
    };
    let task = ReportTask {
        alloc,
        machine,
        alpha,
        beta,
        input,
    };
    match L::over(field.as_str(), task) {
        Some(answer) => answer,
        None => Err(RunError::UnknownField(String::from_str(alloc, field.as_str())?)),
    }
}

/// The report over one pair of fields.
fn answer_over<F: Field, EF: Challenge<F>, R: Read>(
    alloc: Global,
    machine: Machine,
    alpha: &String,
    beta: &String,
    input: &mut R,
) -> Result<Report, RunError>
    ensures { AnswersKnown (run_fields F.ring F.eq F.CHARACTERISTIC EF.ring EF.eq EF.embed EF.inverse
        EF.written EF.text F.text) machine (string_bytes alpha.now) (string_bytes beta.now)
        (R.remaining input.old) result }
{
    let challenges = (
        challenge::<F, EF>(alloc, alpha.as_str())?,
        challenge::<F, EF>(alloc, beta.as_str())?,
    );
    let mut text = Vec::new(alloc);
    if let Err(error) = input.read_to_end(&mut text) {
        return Err(match error.kind() {
            io::ErrorKind::OutOfMemory => RunError::Memory,
            _ => RunError::CannotReadInput,
        });
    }
    report_of::<F, EF>(alloc, machine, challenges, text.as_slice())
}

/// The challenge that a word gives.
fn challenge<F: Field, EF: Challenge<F>>(alloc: Global, word: &str) -> Result<EF, RunError>
    ensures { MatchResult result
        (λ x. EF.written word.now x)
        (λ e. (e ≡ RunError.Memory) ⊎ IsBadChallenge EF.written word.now e) }
{
    match EF::from_word(word.as_bytes()) {
        Some(challenge) => Ok(challenge),
        None => Err(RunError::BadChallenge(String::from_str(alloc, word)?)),
    }
}
