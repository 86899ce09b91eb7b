//! The program `lookup-check`: `run` of `check_run` over the words of the command line, the files
//! that they name and the standard streams.
#![tactic(auto)]

mod files;
mod steps;

use check_report::RunRefusal;
use check_run::{Inputs, refuse, run};
use check_words::{Asked, BatchRequest, Task, asked};
use field_list::{FieldList, Offered};
use files::{ReadFiles, read_files};
use std::process::ExitCode;
use std::{env, fs, io};
use steps::Steps;

fn main(rt: HostRuntime) -> ExitCode {
    let alloc = rt.alloc();
    let words = match env::args(&rt) {
        Ok(words) => words.skip(1).collect(alloc),
        Err(error) if error.kind() == io::ErrorKind::InvalidData => Ok(Vec::new(alloc)),
        Err(_) => return refuse(RunRefusal::Memory, &mut rt.stderr()),
    };
    match words {
        Ok(words) => over_words(&rt, words.as_slice()),
        Err(_) => refuse(RunRefusal::Memory, &mut rt.stderr()),
    }
}

/// Runs what the words ask for. What is told of words that ask for nothing needs no file.
fn over_words(rt: &HostRuntime, words: &[String]) -> ExitCode {
    let mut names = Vec::new(rt.alloc());
    if Offered::push_names(&mut names).is_err() {
        return refuse(RunRefusal::Memory, &mut rt.stderr());
    }
    match asked(rt.alloc(), names.as_slice(), words) {
        Ok(asked) => over_files(rt, asked),
        Err(refusal) => {
            let inputs = Inputs {
                text: b"",
                files: &[],
                witness: b"",
            };
            run::<Offered, _, _>(
                rt.alloc(),
                Err(refusal),
                inputs,
                &mut rt.stdout(),
                &mut rt.stderr(),
            )
        }
    }
}

/// Runs what is asked over the files that it names.
fn over_files(rt: &HostRuntime, asked: Asked<'_>) -> ExitCode {
    let request = match asked {
        Asked::Batch(request) => Some(request),
        Asked::Bits(_) => None,
    };
    let steps = Steps::of(rt, request);
    let files = match read_files(rt, steps, request) {
        Ok(files) => files,
        Err(refusal) => return refuse(refusal, &mut rt.stderr()),
    };
    let ReadFiles {
        text,
        named,
        witness,
    } = &files;
    let inputs = Inputs {
        text: text.as_slice(),
        files: named.as_slice(),
        witness: witness.as_slice(),
    };
    steps.tell(rt, "answering");
    let status = match file_out(request) {
        Some(file) => run_to_file(rt, asked, inputs, file),
        None => run::<Offered, _, _>(
            rt.alloc(),
            Ok(asked),
            inputs,
            &mut rt.stdout(),
            &mut rt.stderr(),
        ),
    };
    steps.tell(rt, "done");
    status
}

/// The file that the answer is written to, if one is named.
fn file_out<'a>(request: Option<BatchRequest<'a>>) -> Option<&'a str> {
    match request?.task {
        Task::Witness { out, .. } => out,
        _ => None,
    }
}

/// Runs, and writes the answer to a file. A run that is refused leaves the file as it is.
fn run_to_file(rt: &HostRuntime, asked: Asked<'_>, inputs: Inputs<'_>, file: &str) -> ExitCode {
    let alloc = rt.alloc();
    let mut answer = Vec::new(alloc);
    let status = run::<Offered, _, _>(alloc, Ok(asked), inputs, &mut answer, &mut rt.stderr());
    if status == ExitCode::from(2) || fs::write(rt, file, answer.as_slice()).is_ok() {
        return status;
    }
    match RunRefusal::of_file(alloc, file.as_bytes(), "cannot be written") {
        Ok(refusal) => refuse(refusal, &mut rt.stderr()),
        Err(_) => refuse(RunRefusal::Memory, &mut rt.stderr()),
    }
}
