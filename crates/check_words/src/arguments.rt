//! The arguments and options of the program's commands, for `clap`.
ghost use Rattle.check_words.specs.Line.{alpha_rule, beta_rule, degree_rule, enforced_rule, field_rule};
ghost use Rattle.check_words.specs.Line.{file_rule, flag_rule, json_rule, limit_rule};
ghost use Rattle.check_words.specs.Line.{messages_rule, number_rule, out_rule, progress_rule};
ghost use Rattle.check_words.specs.Line.{target_rule, text_rule, unbalanced_rule};
ghost use Rattle.check_words.specs.Line.{wanted_degree_rule, width_rule, witness_rule};
ghost use Rattle.check_words.specs.internal.Commands.{IsArg};

use clap::builder::ValueParser;
use clap::{Arg, ArgAction};
use std::alloc::Global;

/// The file with the text of the batch.
pub fn file_arg<'a>(alloc: Global) -> Arg<'a>
    ensures { IsArg file_rule result }
{
    Arg::new(alloc, "file")
        .value_name("FILE")
        .required(true)
        .help("Text of the batch")
}

/// The field, by one of these names.
pub fn field_arg<'a>(alloc: Global, fields: &'a [&'a str]) -> Arg<'a>
    ensures { IsArg (field_rule fields.entry) result }
{
    Arg::new(alloc, "field")
        .long("field")
        .value_name("NAME")
        .value_parser(fields)
        .default_value("babybear4")
        .help("Field of the batch")
}

/// An option with no value.
fn flag_arg<'a>(alloc: Global, name: &'a str) -> Arg<'a>
    ensures { IsArg (flag_rule name.now) result }
{
    Arg::new(alloc, name).long(name).action(ArgAction::SetTrue)
}

/// Whether steps are told.
pub fn progress_arg<'a>(alloc: Global) -> Arg<'a>
    ensures { IsArg progress_rule result }
{
    flag_arg(alloc, "progress").help("Tells each step on the standard error")
}

/// Whether the answer is JSON.
pub fn json_arg<'a>(alloc: Global) -> Arg<'a>
    ensures { IsArg json_rule result }
{
    flag_arg(alloc, "json").help("Writes JSON")
}

/// Whether all has to be enforced.
pub fn enforced_arg<'a>(alloc: Global) -> Arg<'a>
    ensures { IsArg enforced_rule result }
{
    flag_arg(alloc, "enforced").help(
        "Answers no unless the constraints enforce all flags and weights",
    )
}

/// An option whose value is a number, from `least` on.
fn number_arg<'a>(alloc: Global, name: &'a str, least: u64) -> Arg<'a>
    ensures { IsArg (number_rule name.now least) result }
{
    Arg::new(alloc, name)
        .long(name)
        .value_name("N")
        .value_parser(ValueParser::unsigned(least, u64::MAX))
}

/// How many faults of a bus are told.
pub fn limit_arg<'a>(alloc: Global) -> Arg<'a>
    ensures { IsArg limit_rule result }
{
    number_arg(alloc, "limit", 0)
        .default_value("4")
        .help("How many faults of a bus are told")
}

/// The degree that packed columns may have.
pub fn degree_arg<'a>(alloc: Global) -> Arg<'a>
    ensures { IsArg degree_rule result }
{
    number_arg(alloc, "degree", 0)
        .value_name("D")
        .default_value("3")
        .help("Degree that packed columns may have")
}

/// The same, with no default.
pub fn wanted_degree_arg<'a>(alloc: Global) -> Arg<'a>
    ensures { IsArg wanted_degree_rule result }
{
    number_arg(alloc, "degree", 0)
        .value_name("D")
        .required(true)
        .help("Degree that packed columns may have")
}

/// How many bits are wanted.
pub fn target_arg<'a>(alloc: Global) -> Arg<'a>
    ensures { IsArg target_rule result }
{
    number_arg(alloc, "target", 0)
        .value_name("B")
        .help("Bits that are wanted")
}

/// How many messages there are.
pub fn messages_arg<'a>(alloc: Global) -> Arg<'a>
    ensures { IsArg messages_rule result }
{
    number_arg(alloc, "messages", 0)
        .required(true)
        .help("How many distinct messages there are at most")
}

/// How many of them do not balance.
pub fn unbalanced_arg<'a>(alloc: Global) -> Arg<'a>
    ensures { IsArg unbalanced_rule result }
{
    number_arg(alloc, "unbalanced", 0)
        .value_name("K")
        .help("How many of them do not balance [default: all]")
}

/// The most values of a message.
pub fn width_arg<'a>(alloc: Global) -> Arg<'a>
    ensures { IsArg width_rule result }
{
    number_arg(alloc, "width", 1)
        .value_name("W")
        .default_value("1")
        .help("Most values of a message")
}

/// An option whose value is any text.
fn text_arg<'a>(alloc: Global, name: &'a str) -> Arg<'a>
    ensures { IsArg (text_rule name.now) result }
{
    Arg::new(alloc, name).long(name).value_name("FILE")
}

/// The first challenge.
pub fn alpha_arg<'a>(alloc: Global) -> Arg<'a>
    ensures { IsArg alpha_rule result }
{
    text_arg(alloc, "alpha")
        .value_name("A")
        .required(true)
        .help("First challenge")
}

/// The second challenge.
pub fn beta_arg<'a>(alloc: Global) -> Arg<'a>
    ensures { IsArg beta_rule result }
{
    text_arg(alloc, "beta")
        .value_name("B")
        .required(true)
        .help("Second challenge")
}

/// The file that a witness is written to.
pub fn out_arg<'a>(alloc: Global) -> Arg<'a>
    ensures { IsArg out_rule result }
{
    text_arg(alloc, "out").help("File that the witness is written to")
}

/// The file with a witness.
pub fn witness_arg<'a>(alloc: Global) -> Arg<'a>
    ensures { IsArg witness_rule result }
{
    text_arg(alloc, "witness")
        .required(true)
        .help("File with the witness")
}
