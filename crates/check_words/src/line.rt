//! A command line, from its words to its request.
ghost use Rattle.std.specs.Prelude.{MatchResult, map};
ghost use Rattle.std.specs.String.{string_bytes};
ghost use Rattle.check_words.specs.Line.{line_app};
ghost use Rattle.check_words.specs.Words.{IsAsked, IsRefused};

use crate::commands::command_line;
use crate::reading::asked_of;
use crate::refusal::{WordsRefusal, refusal_of, too_many_unbalanced};
use crate::request::Asked;
use std::alloc::Global;

/// What `words` ask for; the program's own name is none of them. `fields` are the names that `--field`
/// takes.
///
/// The request is the command that `clap` meets, with the values that it finds or the defaults. It
/// is answered exactly if `clap` finds no fault and the values are those of a request, of which one
/// is that `--unbalanced` is at most `--messages`; else help, if the words ask for it, or what is
/// wrong. Any call may run out of memory instead. Left to tests are the texts, and that a value
/// which `clap` asks for is there where it finds no fault.
pub fn asked<'a>(
    alloc: Global,
    fields: &'a [&'a str],
    words: &'a [String],
) -> Result<Asked<'a>, WordsRefusal>
    ensures { MatchResult result
        (IsAsked (line_app fields.entry) (map string_bytes words.now))
        (IsRefused (line_app fields.entry) (map string_bytes words.now)) }
{
    let command = command_line(alloc, fields)?;
    let matches = match command.try_get_matches_from(words) {
        Ok(matches) => matches,
        Err(error) => return Err(refusal_of(alloc, &error)),
    };
    match asked_of(&matches) {
        Some(asked) => Ok(asked),
        None => Err(too_many_unbalanced(alloc)),
    }
}
