//! Hostile use, for `.ci/checks/refused-memory`:
//!
//! - `gate_memory GROUP` makes the calls of a group twice over the same inputs, and writes a line for
//!   each answer and each input. The tool refuses it one request for memory after another.
//! - `gate_memory lines lookups` reads each line of its input as lookups, and writes them again, or why
//!   they are refused; `lines declarations` does so with indexed declarations.
//! - `gate_memory KIND FORM DEPTH` makes the calls on an expression of this form and depth, or on a
//!   lookup of it.
#![tactic(auto)]

mod batches;
mod builders;
mod constraints;
mod depths;
mod evaluations;
mod fields;
mod generations;
mod plans;
mod sets;
mod texts;
mod trees;

use field::F7;
use field_monty::{BabyBear, BabyBear4};
use gate_memory_builders::records;
use gate_memory_builders::show::Out;
use std::alloc::Global;
use std::env;
use std::io::BufWriter;
use std::process::ExitCode;

/// Makes the calls of a group.
fn group(alloc: Global, name: &str, out: &mut Out) {
    match name {
        "builders" => builders::builders(alloc, out),
        "pushes" => builders::pushes::<F7>(alloc, out),
        "records" => records::records::<F7>(alloc, out),
        "declarations" => records::declarations::<F7>(alloc, out),
        "sets" => sets::sets(alloc, out),
        "expressions" => trees::expressions(alloc, out),
        "evaluations" => evaluations::evaluations(alloc, out),
        "fields" => fields::fields(alloc, out),
        _ => group_of_rest(alloc, name, out),
    }
}

/// The calls of the groups that are left. A function of its own, since each further arm of a `match` costs
/// more to prove.
fn group_of_rest(alloc: Global, name: &str, out: &mut Out) {
    match name {
        "json" => texts::json(alloc, out),
        "challenges" => generations::challenges(alloc, out),
        "generation" => generations::generation::<F7, F7>(alloc, out),
        "extension" => generations::generation::<BabyBear, BabyBear4>(alloc, out),
        "chunks" => generations::chunks(alloc, out),
        "batch" => batches::batch(alloc, out),
        "plans" => plans::batch_plans(alloc, out),
        "memory" => plans::memory(alloc, out),
        "constraints" => constraints::constraints(alloc, out),
        _ => out.close(),
    }
}

/// What the words ask for.
fn answer(alloc: Global, words: &[String], rt: &HostRuntime, out: &mut Out) {
    match words {
        [name] => group(alloc, name.as_str(), out),
        [word, kind] if word.as_str() == "lines" => texts::lines(alloc, rt, out, kind.as_str()),
        [kind, form, depth] => {
            depths::deep(alloc, out, kind.as_str(), form.as_str(), depth.as_str());
        }
        _ => out.close(),
    }
}

/// The words after the name of the program. None where memory runs out.
fn words(alloc: Global, rt: &HostRuntime) -> Option<Vec<String>> {
    let words = env::args(rt).ok()?;
    words.skip(1).collect::<Vec<String>>(alloc).ok()
}

/// The status is 3 where an input of the calls can't be made.
fn main(rt: HostRuntime) -> ExitCode {
    let alloc = rt.alloc();
    let Ok(lines) = BufWriter::new(alloc, rt.stdout()) else {
        return ExitCode::from(3);
    };
    let mut out = Out::new(lines);
    match words(alloc, &rt) {
        Some(words) => answer(alloc, words.as_slice(), &rt, &mut out),
        None => out.close(),
    }
    if out.has_all() {
        ExitCode::SUCCESS
    } else {
        ExitCode::from(3)
    }
}
