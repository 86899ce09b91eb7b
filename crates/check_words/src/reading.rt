//! From what `clap` found to a request.
ghost use Rattle.std.specs.Prelude.{ℕ, Option, MatchOption, codes};
ghost use Rattle.clap.specs.Words.{found_of, rows_of, subcommand_rows_of};
ghost use Rattle.check_words.specs.Words.{HasChallenges, HasFlagArgument, HasNumber};
ghost use Rattle.check_words.specs.Words.{HasNumberOr, HasOptionalNumber, HasOptionalText};
ghost use Rattle.check_words.specs.Words.{IsBatch, IsBits};
ghost use Rattle.check_words.specs.internal.Readings.{ReadsMet, ReadsTask};
ghost use Rattle.check_words.specs.declared.request.BatchRequest.{BatchRequest};
ghost use Rattle.check_words.specs.declared.request.BitsRequest.{BitsRequest};
ghost use Rattle.check_words.specs.declared.request.ChallengeWords.{ChallengeWords};

use crate::request::{Asked, BatchRequest, BitsRequest, ChallengeWords, Task};
use clap::ArgMatches;

/// What the matches ask for. `None` if they ask for nothing.
pub fn asked_of<'a>(matches: &ArgMatches<'a>) -> Option<Asked<'a>>
    ensures { ReadsMet (subcommand_rows_of matches.now) result }
{
    let (name, found) = matches.subcommand()?;
    if name == "bits" {
        Some(Asked::Bits(bits_of(found)?))
    } else {
        Some(Asked::Batch(batch_of(name, found)?))
    }
}

fn bits_of<'a>(found: &ArgMatches<'a>) -> Option<BitsRequest<'a>>
    ensures { MatchOption result
        ((x : BitsRequest) → IsBits (rows_of (found_of found.now)) x → ⊥)
        (IsBits (rows_of (found_of found.now))) }
{
    let field = text_of(found, "field")?;
    let messages = number_of(found, "messages")?;
    let unbalanced = number_or(found, "unbalanced", messages)?;
    let width = number_of(found, "width")?;
    let target = optional_number_of(found, "target")?;
    let json = is_set(found, "json");
    if messages < unbalanced {
        return None;
    }
    Some(BitsRequest {
        field,
        messages,
        unbalanced,
        width,
        target,
        json,
    })
}

/// What a command of this name asks for of the batch of a file.
fn batch_of<'a>(name: &str, found: &ArgMatches<'a>) -> Option<BatchRequest<'a>>
    ensures { MatchOption result
        ((x : BatchRequest) → IsBatch name.now (rows_of (found_of found.now)) x → ⊥)
        (IsBatch name.now (rows_of (found_of found.now))) }
{
    Some(BatchRequest {
        file: text_of(found, "file")?,
        field: text_of(found, "field")?,
        progress: is_set(found, "progress"),
        task: task_of(name, found)?,
    })
}

fn task_of<'a>(name: &str, found: &ArgMatches<'a>) -> Option<Task<'a>>
    ensures { ReadsTask name.now (rows_of (found_of found.now)) result }
{
    match name {
        "check" => check_of(found),
        "plan" => plan_of(found),
        "pack" => pack_of(found),
        "show" => Some(Task::Show {
            json: is_set(found, "json"),
        }),
        "witness" => witness_of(found),
        "accept" => accept_of(found),
        "any" => Some(Task::Any {
            challenges: challenges_of(found)?,
        }),
        _ => None,
    }
}

fn check_of<'a>(found: &ArgMatches<'a>) -> Option<Task<'a>>
    ensures { ReadsTask (codes "check") (rows_of (found_of found.now)) result }
{
    Some(Task::Check {
        limit: number_of(found, "limit")? as usize,
        degree: number_of(found, "degree")? as usize,
        json: is_set(found, "json"),
        enforced: is_set(found, "enforced"),
    })
}

fn plan_of<'a>(found: &ArgMatches<'a>) -> Option<Task<'a>>
    ensures { ReadsTask (codes "plan") (rows_of (found_of found.now)) result }
{
    Some(Task::Plan {
        degree: number_of(found, "degree")? as usize,
        json: is_set(found, "json"),
        target: optional_number_of(found, "target")?,
        enforced: is_set(found, "enforced"),
    })
}

fn pack_of<'a>(found: &ArgMatches<'a>) -> Option<Task<'a>>
    ensures { ReadsTask (codes "pack") (rows_of (found_of found.now)) result }
{
    Some(Task::Pack {
        degree: number_of(found, "degree")? as usize,
        json: is_set(found, "json"),
    })
}

fn witness_of<'a>(found: &ArgMatches<'a>) -> Option<Task<'a>>
    ensures { ReadsTask (codes "witness") (rows_of (found_of found.now)) result }
{
    Some(Task::Witness {
        challenges: challenges_of(found)?,
        out: text_of(found, "out"),
    })
}

fn accept_of<'a>(found: &ArgMatches<'a>) -> Option<Task<'a>>
    ensures { ReadsTask (codes "accept") (rows_of (found_of found.now)) result }
{
    Some(Task::Accept {
        challenges: challenges_of(found)?,
        witness: text_of(found, "witness")?,
    })
}

fn challenges_of<'a>(found: &ArgMatches<'a>) -> Option<ChallengeWords<'a>>
    ensures { MatchOption result
        ((c : ChallengeWords) → HasChallenges (rows_of (found_of found.now)) c → ⊥)
        (HasChallenges (rows_of (found_of found.now))) }
{
    Some(ChallengeWords {
        alpha: text_of(found, "alpha")?,
        beta: text_of(found, "beta")?,
    })
}

fn number_of(found: &ArgMatches<'_>, id: &str) -> Option<u64>
    ensures { MatchOption result
        ((n : ℕ) → HasNumber (rows_of (found_of found.now)) id.now n → ⊥)
        (HasNumber (rows_of (found_of found.now)) id.now) }
{
    text_of(found, id)?.parse().ok()
}

/// The number that an option has, or `other` where it is not there.
fn number_or(found: &ArgMatches<'_>, id: &str, other: u64) -> Option<u64>
    ensures { MatchOption result
        ((n : ℕ) → HasNumberOr (rows_of (found_of found.now)) id.now other n → ⊥)
        (HasNumberOr (rows_of (found_of found.now)) id.now other) }
{
    match text_of(found, id) {
        Some(text) => text.parse().ok(),
        None => Some(other),
    }
}

/// The number that an option has, or none where it is not there. `None` if its value is no number.
fn optional_number_of(found: &ArgMatches<'_>, id: &str) -> Option<Option<u64>>
    ensures { MatchOption result
        ((n : Option ℕ) → HasOptionalNumber (rows_of (found_of found.now)) id.now n → ⊥)
        (HasOptionalNumber (rows_of (found_of found.now)) id.now) }
{
    match text_of(found, id) {
        Some(text) => Some(Some(text.parse().ok()?)),
        None => Some(None),
    }
}

fn is_set(found: &ArgMatches<'_>, id: &str) -> bool
    ensures { HasFlagArgument (rows_of (found_of found.now)) id.now result }
{
    match text_of(found, id) {
        Some(text) => text == "true",
        None => false,
    }
}

fn text_of<'a>(found: &ArgMatches<'a>, id: &str) -> Option<&'a str>
    ensures { HasOptionalText (rows_of (found_of found.now)) id.now result }
{
    found.get_str(id)
}
