//! The commands of the program, for `clap`.
ghost use Rattle.std.specs.Prelude.{IfOk};
ghost use Rattle.clap.specs.Words.{new_app};
ghost use Rattle.check_words.specs.Line.{accept_app, any_app, app_to_show, bare_app, bits_app};
ghost use Rattle.check_words.specs.Line.{challenge_app, check_app, file_app, line_app};
ghost use Rattle.check_words.specs.Line.{message_bits_app, pack_app, plan_app, show_app};
ghost use Rattle.check_words.specs.Line.{witness_app};
ghost use Rattle.check_words.specs.internal.Commands.{IsCommand};

use crate::arguments::{
    alpha_arg, beta_arg, degree_arg, enforced_arg, field_arg, file_arg, json_arg, limit_arg,
    messages_arg, out_arg, progress_arg, target_arg, unbalanced_arg, wanted_degree_arg, width_arg,
    witness_arg,
};
use clap::Command;
use std::alloc::{AllocError, Global};

/// The program, with its commands. `fields` are the names of the fields.
pub fn command_line<'a>(alloc: Global, fields: &'a [&'a str]) -> Result<Command<'a>, AllocError>
    ensures { IfOk result (IsCommand (line_app fields.entry)) }
{
    up_to_show(alloc, fields)?
        .subcommand(witness_command(alloc, fields)?)?
        .subcommand(accept_command(alloc, fields)?)?
        .subcommand(any_command(alloc, fields)?)?
        .subcommand(bits_command(alloc, fields)?)
}

/// The program, with its commands up to `show`.
fn up_to_show<'a>(alloc: Global, fields: &'a [&'a str]) -> Result<Command<'a>, AllocError>
    ensures { IfOk result (IsCommand (app_to_show fields.entry)) }
{
    bare_command(alloc)?
        .subcommand(check_command(alloc, fields)?)?
        .subcommand(plan_command(alloc, fields)?)?
        .subcommand(pack_command(alloc, fields)?)?
        .subcommand(show_command(alloc, fields)?)
}

/// The program, with no command yet.
fn bare_command<'a>(alloc: Global) -> Result<Command<'a>, AllocError>
    ensures { IfOk result (IsCommand bare_app) }
{
    Command::new(alloc, "lookup-check")
        .about("Says whether the lookups of a batch balance over given traces")
        .no_binary_name(true)
        .arg_required_else_help(true)
        .subcommand_required(true)
        .bin_name("lookup-check")
}

fn check_command<'a>(alloc: Global, fields: &'a [&'a str]) -> Result<Command<'a>, AllocError>
    ensures { IfOk result (IsCommand (check_app fields.entry)) }
{
    let about = "Says whether all messages of the batch balance";
    file_command(alloc, "check", about, fields)?
        .arg(limit_arg(alloc))?
        .arg(degree_arg(alloc))?
        .arg(json_arg(alloc))?
        .arg(enforced_arg(alloc))
}

fn plan_command<'a>(alloc: Global, fields: &'a [&'a str]) -> Result<Command<'a>, AllocError>
    ensures { IfOk result (IsCommand (plan_app fields.entry)) }
{
    let about = "Says what holds of the batch before any trace is seen";
    file_command(alloc, "plan", about, fields)?
        .arg(degree_arg(alloc))?
        .arg(json_arg(alloc))?
        .arg(enforced_arg(alloc))?
        .arg(target_arg(alloc))
}

fn pack_command<'a>(alloc: Global, fields: &'a [&'a str]) -> Result<Command<'a>, AllocError>
    ensures { IfOk result (IsCommand (pack_app fields.entry)) }
{
    let about = "Says which lookups share a column";
    file_command(alloc, "pack", about, fields)?
        .arg(wanted_degree_arg(alloc))?
        .arg(json_arg(alloc))
}

fn show_command<'a>(alloc: Global, fields: &'a [&'a str]) -> Result<Command<'a>, AllocError>
    ensures { IfOk result (IsCommand (show_app fields.entry)) }
{
    let about = "Writes each lookup as it was understood";
    file_command(alloc, "show", about, fields)?.arg(json_arg(alloc))
}

fn witness_command<'a>(alloc: Global, fields: &'a [&'a str]) -> Result<Command<'a>, AllocError>
    ensures { IfOk result (IsCommand (witness_app fields.entry)) }
{
    let about = "Writes the auxiliary traces and terminals at a pair of challenges";
    challenge_command(alloc, "witness", about, fields)?.arg(out_arg(alloc))
}

fn accept_command<'a>(alloc: Global, fields: &'a [&'a str]) -> Result<Command<'a>, AllocError>
    ensures { IfOk result (IsCommand (accept_app fields.entry)) }
{
    let about = "Says whether a witness is accepted";
    challenge_command(alloc, "accept", about, fields)?.arg(witness_arg(alloc))
}

fn any_command<'a>(alloc: Global, fields: &'a [&'a str]) -> Result<Command<'a>, AllocError>
    ensures { IfOk result (IsCommand (any_app fields.entry)) }
{
    challenge_command(alloc, "any", "Says whether any witness is accepted", fields)
}

fn bits_command<'a>(alloc: Global, fields: &'a [&'a str]) -> Result<Command<'a>, AllocError>
    ensures { IfOk result (IsCommand (bits_app fields.entry)) }
{
    message_bits(alloc)?
        .arg(field_arg(alloc, fields))?
        .arg(target_arg(alloc))?
        .arg(json_arg(alloc))
}

/// The command `bits`, with what it asks of the messages alone.
fn message_bits<'a>(alloc: Global) -> Result<Command<'a>, AllocError>
    ensures { IfOk result (IsCommand message_bits_app) }
{
    named_command(alloc, "bits", "Says how many bits of security are left")
        .arg(messages_arg(alloc))?
        .arg(unbalanced_arg(alloc))?
        .arg(width_arg(alloc))
}

/// A command about a file, at two challenges.
fn challenge_command<'a>(
    alloc: Global,
    name: &'a str,
    about: &'a str,
    fields: &'a [&'a str],
) -> Result<Command<'a>, AllocError>
    ensures { IfOk result (IsCommand (challenge_app name.now fields.entry)) }
{
    file_command(alloc, name, about, fields)?
        .arg(alpha_arg(alloc))?
        .arg(beta_arg(alloc))
}

/// A command about a file, over one of the fields.
fn file_command<'a>(
    alloc: Global,
    name: &'a str,
    about: &'a str,
    fields: &'a [&'a str],
) -> Result<Command<'a>, AllocError>
    ensures { IfOk result (IsCommand (file_app name.now fields.entry)) }
{
    named_command(alloc, name, about)
        .arg(file_arg(alloc))?
        .arg(field_arg(alloc, fields))?
        .arg(progress_arg(alloc))
}

/// A command with no argument yet.
fn named_command<'a>(alloc: Global, name: &'a str, about: &'a str) -> Command<'a>
    ensures { IsCommand (new_app name.now) result }
{
    Command::new(alloc, name).about(about)
}
