//! The command line, fields by their names, texts over fields, and whole runs.
mod elements;
mod fields;
mod judgements;
mod runs;
mod witnesses;
mod words;

use check_run::{Inputs, run};
use check_words::asked;
use field_list::{FieldList, Offered};
use std::alloc::{AllocError, Global};
use std::io::Write;
use std::process::{Abort, ExitCode};

fn holds(rt: &impl Abort, what: &str, fact: bool) {
    assert!(rt; fact, "{what}");
}

/// The status of a run of these words over these files, with what it writes.
fn status_of<W: Write, E: Write>(
    alloc: Global,
    words: &[String],
    inputs: Inputs<'_>,
    output: &mut W,
    errors: &mut E,
) -> Result<ExitCode, AllocError> {
    let mut names = Vec::new(alloc);
    Offered::push_names(&mut names)?;
    let said = asked(alloc, names.as_slice(), words);
    Ok(run::<Offered, W, E>(alloc, said, inputs, output, errors))
}
