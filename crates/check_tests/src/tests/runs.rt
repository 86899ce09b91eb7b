//! Whole runs, over streams in memory.
use super::judgements::{TEXT, files};
use super::{holds, status_of};
use check_judge::bits_of;
use check_report::RunRefusal;
use check_run::{Inputs, refuse};
use std::alloc::{AllocError, Global};
use std::io;
use std::io::{ErrorKind, Write};
use std::process::ExitCode;

/// What a run ends with: its status, and all that it wrote.
#[derive(Drop)]
struct End {
    status: ExitCode,
    output: Vec<u8>,
    errors: Vec<u8>,
}

/// The end of a run of these words.
fn end_of(alloc: Global, words: &[&str], received: &[u8]) -> Result<End, AllocError> {
    let mut given = Vec::new(alloc);
    for word in words {
        given.push(String::from_str(alloc, word)?)?;
    }
    let files = files(alloc, received)?;
    let (mut output, mut errors) = (Vec::new(alloc), Vec::new(alloc));
    let inputs = Inputs {
        text: TEXT,
        files: files.as_slice(),
        witness: b"",
    };
    let status = status_of(alloc, &given, inputs, &mut output, &mut errors)?;
    Ok(End {
        status,
        output,
        errors,
    })
}

/// Whether a run ends with this status, with an output or else with an error.
fn ends(alloc: Global, words: &[&str], received: &[u8], status: u8) -> bool {
    match end_of(alloc, words, received) {
        Ok(end) => {
            end.status == ExitCode::from(status)
                && end.output.is_empty() == (status == 2)
                && end.errors.is_empty() == (status != 2)
        }
        Err(_) => false,
    }
}

#[test]
fn verdicts(rt: HostRuntime) {
    let alloc = rt.alloc();
    let check = ["check", "batch.lookups"];
    holds(&rt, "balanced", ends(alloc, &check, b"x\n3\n1\n2\n", 0));
    holds(&rt, "unbalanced", ends(alloc, &check, b"x\n4\n1\n2\n", 1));
    holds(&rt, "fewer rows", ends(alloc, &check, b"x\n4\n1\n", 1));
    holds(&rt, "no number", ends(alloc, &check, b"x\n4\n1\ny\n", 2));
    // All messages count once, and there are no flags.
    let asked = ["check", "batch.lookups", "--enforced"];
    holds(&rt, "all enforced", ends(alloc, &asked, b"x\n3\n1\n2\n", 0));
    let over = ["check", "batch.lookups", "--field", "koalabear4"];
    holds(
        &rt,
        "over KoalaBear",
        ends(alloc, &over, b"x\n3\n1\n2\n", 0),
    );
}

#[test]
fn commands(rt: HostRuntime) {
    let alloc = rt.alloc();
    let received = b"x\n3\n1\n2\n";
    holds(&rt, "plan", ends(alloc, &["plan", "f"], received, 0));
    holds(
        &rt,
        "pack",
        ends(alloc, &["pack", "f", "--degree", "2"], received, 0),
    );
    holds(&rt, "show", ends(alloc, &["show", "f"], received, 0));
    holds(
        &rt,
        "show as JSON",
        ends(alloc, &["show", "f", "--json"], received, 0),
    );
    let bits = ["bits", "--messages", "8", "--target", "119"];
    holds(
        &rt,
        "119 bits of 123 less 4",
        ends(alloc, &bits, received, 0),
    );
    let bits = ["bits", "--messages", "8", "--target", "120"];
    holds(&rt, "and not 120", ends(alloc, &bits, received, 1));
    holds(&rt, "help", ends(alloc, &["--help"], received, 0));
    holds(&rt, "no words", ends(alloc, &[], received, 2));
}

#[test]
fn bits_left(rt: HostRuntime) {
    let size = 16_428_751_811_598_850_197_311_699_254_593_454_081;
    holds(&rt, "96 of them", bits_of(size, 96) == Some(117));
    holds(&rt, "one of them", bits_of(size, 1) == Some(123));
    holds(&rt, "all of them", bits_of(size, size) == Some(0));
    holds(&rt, "too many", bits_of(size, size + 1).is_none());
    holds(&rt, "none", bits_of(size, 0).is_none());
    holds(&rt, "a power of two", bits_of(64, 2) == Some(5));
    holds(&rt, "just below one", bits_of(63, 2) == Some(4));
    holds(&rt, "the greatest", bits_of(u128::MAX, 1) == Some(127));
}

#[test]
fn refusals(rt: HostRuntime) {
    let mut errors = Vec::new(rt.alloc());
    let status = refuse(RunRefusal::Memory, &mut errors);
    holds(&rt, "the status", status == ExitCode::from(2));
    holds(
        &rt,
        "the line",
        errors.as_slice() == b"error: out of memory\n".as_slice(),
    );
    let Ok(refusal) = RunRefusal::of_file(rt.alloc(), b"a\tb.csv", "cannot be read") else {
        return holds(&rt, "memory", false);
    };
    let mut slow = Slow {
        bytes: Vec::new(rt.alloc()),
        is_ready: true,
    };
    let status = refuse(refusal, &mut slow);
    holds(&rt, "the same status", status == ExitCode::from(2));
    holds(
        &rt,
        "a file",
        slow.bytes.as_slice() == b"a?b.csv: error: cannot be read\n".as_slice(),
    );
}

/// Takes one byte at a time, and is interrupted before each.
#[derive(Drop)]
struct Slow {
    bytes: Vec<u8>,
    is_ready: bool,
}

impl Write for Slow {
    fn write(&mut self, bytes: &[u8]) -> io::Result<usize> {
        self.is_ready = !self.is_ready;
        if !self.is_ready {
            return Err(io::Error::from(ErrorKind::Interrupted));
        }
        match bytes.first() {
            Some(byte) => {
                self.bytes.push(*byte)?;
                Ok(1)
            }
            None => Ok(0),
        }
    }

    fn flush(&mut self) -> io::Result<()> {
        Ok(())
    }
}

/// Has room for some bytes and takes no more, and may fail at a flush.
#[derive(Drop)]
struct Full {
    bytes: Vec<u8>,
    room: usize,
    can_flush: bool,
}

impl Write for Full {
    fn write(&mut self, bytes: &[u8]) -> io::Result<usize> {
        let taken = self.room.min(bytes.len());
        self.bytes.extend_from_slice(&bytes[..taken])?;
        self.room -= taken;
        Ok(taken)
    }

    fn flush(&mut self) -> io::Result<()> {
        if self.can_flush {
            Ok(())
        } else {
            Err(io::Error::from(ErrorKind::BrokenPipe))
        }
    }
}

/// What is written of a call for help, if that ends with this status and this line to the errors.
fn written(
    alloc: Global,
    mut output: Full,
    status: u8,
    line: &[u8],
) -> Result<Option<Vec<u8>>, AllocError> {
    let inputs = Inputs {
        text: b"",
        files: &[],
        witness: b"",
    };
    let words = [String::from_str(alloc, "--help")?];
    let mut errors = Vec::new(alloc);
    let ended = status_of(alloc, &words, inputs, &mut output, &mut errors)?;
    if ended == ExitCode::from(status) && errors.as_slice() == line {
        Ok(Some(output.bytes))
    } else {
        Ok(None)
    }
}

/// A writer with room for so many bytes.
fn with_room(alloc: Global, room: usize, can_flush: bool) -> Full {
    Full {
        bytes: Vec::new(alloc),
        room,
        can_flush,
    }
}

const UNWRITTEN: &[u8] = b"error: the answer cannot be written\n";

#[test]
fn help_is_written(rt: HostRuntime) {
    let alloc = rt.alloc();
    let Ok(Some(help)) = written(alloc, with_room(alloc, 10_000, true), 0, b"") else {
        return holds(&rt, "status 0", false);
    };
    let usage = match str::from_utf8(help.as_slice()) {
        Ok(text) => text.contains("Usage: lookup-check <COMMAND>"),
        Err(_) => false,
    };
    holds(&rt, "its usage", usage);
}

#[test]
fn an_answer_that_cannot_be_written(rt: HostRuntime) {
    let alloc = rt.alloc();
    for (room, can_flush) in [(0, true), (4, true), (10_000, false)] {
        let Ok(Some(bytes)) = written(alloc, with_room(alloc, room, can_flush), 2, UNWRITTEN) else {
            return holds(&rt, "status 2 and the line", false);
        };
        let is_full = bytes.len() == room;
        holds(&rt, "as much as there is room for", is_full == can_flush);
    }
}
