//! `lookup-run MACHINE FIELD ALPHA BETA`: `run` of `example_machines` over the words of the command line
//! and the standard streams.
#![tactic(auto)]

use example_machines::{RunError, refuse, run};
use field_list::Offered;
use std::process::ExitCode;
use std::{env, io};

fn main(rt: HostRuntime) -> ExitCode {
    let alloc = rt.alloc();
    let (mut input, mut output, mut errors) = (rt.stdin(), rt.stdout(), rt.stderr());
    let words = match env::args(&rt) {
        Ok(words) => words.skip(1).collect(alloc),
        Err(error) if error.kind() == io::ErrorKind::InvalidData => Ok(Vec::new(alloc)),
        Err(_) => return refuse(alloc, RunError::Memory, &mut errors),
    };
    match words {
        Ok(words) => run::<Offered, _, _, _>(
            alloc,
            words.as_slice(),
            &mut input,
            &mut output,
            &mut errors,
        ),
        Err(_) => refuse(alloc, RunError::Memory, &mut errors),
    }
}
