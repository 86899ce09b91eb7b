//! The files that a command line and the text of a batch name.
use crate::steps::Steps;
use check_report::RunRefusal;
use check_words::{BatchRequest, Task};
use language::{TextFault, read_batch};
use language_meaning::{NamedFile, files_of, path_beside};
use std::{fs, io};

/// What the files hold that a run reads.
#[derive(Drop)]
pub(crate) struct ReadFiles {
    pub(crate) text: Vec<u8>,
    pub(crate) named: Vec<NamedFile>,
    pub(crate) witness: Vec<u8>,
}

/// Reads the files of a request, and none where there is no request.
pub(crate) fn read_files(
    rt: &HostRuntime,
    steps: Steps,
    request: Option<BatchRequest<'_>>,
) -> Result<ReadFiles, RunRefusal> {
    let alloc = rt.alloc();
    let Some(request) = request else {
        return Ok(ReadFiles {
            text: Vec::new(alloc),
            named: Vec::new(alloc),
            witness: Vec::new(alloc),
        });
    };
    steps.tell(rt, "reading the text");
    let text = bytes_in(rt, request.file)?;
    let witness = match request.task {
        Task::Accept { witness, .. } => bytes_in(rt, witness)?,
        _ => Vec::new(alloc),
    };
    steps.tell(rt, "reading its files");
    let named = contents(rt, request.file, text.as_slice())?;
    Ok(ReadFiles {
        text,
        named,
        witness,
    })
}

/// The bytes of a file that has to be there.
fn bytes_in(rt: &HostRuntime, file: &str) -> Result<Vec<u8>, RunRefusal> {
    match read_file(rt, file)? {
        Some(bytes) => Ok(bytes),
        None => Err(RunRefusal::of_file(rt.alloc(), file.as_bytes(), "cannot be read")?),
    }
}

/// The bytes of a file, or `None` where it cannot be read.
fn read_file(rt: &HostRuntime, file: &str) -> Result<Option<Vec<u8>>, RunRefusal> {
    match fs::read(rt, file) {
        Ok(bytes) => Ok(Some(bytes)),
        Err(error) if error.kind() == io::ErrorKind::OutOfMemory => Err(RunRefusal::Memory),
        Err(_) => Ok(None),
    }
}

/// The files that a text names, beside its own file, none where the text has a fault.
fn contents(rt: &HostRuntime, file: &str, text: &[u8]) -> Result<Vec<NamedFile>, RunRefusal> {
    let alloc = rt.alloc();
    let mut files = Vec::new(alloc);
    let batch = match read_batch(alloc, text) {
        Ok(batch) => batch,
        Err(TextFault::Memory) => return Err(RunRefusal::Memory),
        Err(TextFault::Fault(_)) => return Ok(files),
    };
    for name in files_of(alloc, text, &batch)? {
        // the first file of a name is the one that counts
        if files.iter().any(|file: &NamedFile| file.name == name) {
            continue;
        }
        let path = path_beside(alloc, file.as_bytes(), name.as_slice())?;
        let content = match str::from_utf8(path.as_slice()) {
            Ok(path) => read_file(rt, path)?,
            Err(_) => None,
        };
        files.push(NamedFile { name, content })?;
    }
    Ok(files)
}
