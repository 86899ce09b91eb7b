//! Runs of the program over streams in memory: what it writes, and what comes of streams that fail. The
//! cases at the top of the repository are further runs, of the built program.
use example_machines::run;
use field_list::Offered;
use std::alloc::Global;
use std::io;
use std::io::{Read, Write};
use std::process::{Abort, ExitCode};
use std::test::Fail;

/// A reader that fails from one of its calls on, and counts them.
#[derive(Drop)]
struct FailingReader<'a> {
    calls: u32,
    fails_at: u32,
    /// Whether it then says that memory ran out.
    lacks_memory: bool,
    inner: &'a [u8],
}

impl Read for FailingReader<'_> {
    fn read(&mut self, buf: &mut [u8]) -> io::Result<usize> {
        self.calls = self.calls.saturating_add(1);
        if self.calls >= self.fails_at {
            return Err(io::Error::from(if self.lacks_memory {
                io::ErrorKind::OutOfMemory
            } else {
                io::ErrorKind::Other
            }));
        }
        self.inner.read(buf)
    }
}

/// A writer that takes one byte a call, and fails where it has no room left or is flushed.
#[derive(Drop)]
struct FullWriter {
    room: usize,
}

impl Write for FullWriter {
    fn write(&mut self, bytes: &[u8]) -> io::Result<usize> {
        if self.room == 0 || bytes.is_empty() {
            return Err(io::Error::from(io::ErrorKind::BrokenPipe));
        }
        self.room -= 1;
        Ok(1)
    }

    fn flush(&mut self) -> io::Result<()> {
        Err(io::Error::from(io::ErrorKind::BrokenPipe))
    }
}

/// The words of a line, which single spaces part.
fn words_of(alloc: Global, line: &str) -> Result<Vec<String>, Fail> {
    let mut words = Vec::new(alloc);
    for word in line.split(' ') {
        words.push(String::from_str(alloc, word)?)?;
    }
    Ok(words)
}

/// Runs the words of a line over a reader of `3 4 1` that fails: nothing is written to the output, the
/// status is 2, and so many calls were made of the reader.
fn expect_refusal(
    rt: &impl Abort,
    alloc: Global,
    line: &str,
    fails_at: u32,
    lacks_memory: bool,
    text: &[u8],
    calls: u32,
) -> Result<(), Fail> {
    let words = words_of(alloc, line)?;
    let mut input = FailingReader {
        calls: 0,
        fails_at,
        lacks_memory,
        inner: b"3 4 1\n",
    };
    let (mut written, mut refused) = (Vec::new(alloc), Vec::new(alloc));
    let code = run::<Offered, _, _, _>(
        alloc,
        words.as_slice(),
        &mut input,
        &mut written,
        &mut refused,
    );
    let answers = code == ExitCode::from(2) && written.is_empty() && refused.as_slice() == text;
    assert!(rt;
        answers && input.calls == calls,
        "{line}, failing at call {fails_at}"
    );
    Ok(())
}

/// Runs `range f7 5 2` over an input, and an output and errors that have so much room,
/// where one of the two writers fails: the status is 2, and so much room is left in each.
fn expect_failing_write(
    rt: &impl Abort,
    alloc: Global,
    input: &[u8],
    room: (usize, usize),
    left: (usize, usize),
) -> Result<(), Fail> {
    let words = words_of(alloc, "range f7 5 2")?;
    let mut input = input;
    let mut output = FullWriter { room: room.0 };
    let mut errors = FullWriter { room: room.1 };
    let code = run::<Offered, _, _, _>(
        alloc,
        words.as_slice(),
        &mut input,
        &mut output,
        &mut errors,
    );
    let answers = code == ExitCode::from(2) && output.room == left.0 && errors.room == left.1;
    assert!(rt; answers, "room for {} and {} bytes", room.0, room.1);
    Ok(())
}

#[test]
fn a_failing_read_is_refused(rt: HostRuntime) -> Result<(), Fail> {
    let alloc = rt.alloc();
    for (lacks_memory, text) in [
        (false, b"error: cannot read input\n".as_slice()),
        (true, b"error: out of memory\n".as_slice()),
    ] {
        for at in [1, 2] {
            expect_refusal(&rt, alloc, "range f7 5 2", at, lacks_memory, text, at)?;
        }
    }
    Ok(())
}

/// A run of the program: its words, its input, what it writes to the output and to the errors, and its
/// status.
type Run = (
    &'static str,
    &'static [u8],
    &'static [u8],
    &'static [u8],
    u8,
);

const RUNS: [Run; 38] = [
    (
        "range f7 5 2",
        b"3 4 1\n4 3 1\n",
        b"air 0\n0 4\n4 3\nterminal 0\nbalanced\n",
        b"",
        0,
    ),
    (
        "range f7 5 2",
        b"3 4 1\n",
        b"air 0\n0 4\nterminal 4\nunbalanced\n",
        b"Lookup mismatch (instance 0 local lookup 0): tuple [3] has net multiplicity 1 at instance 0 lookup 0 row 0\n",
        1,
    ),
    (
        "range f7 1 2",
        b"3 4 1\n",
        b"",
        b"error: air 0: row 0, lookup 0: vanishing denominator\n",
        2,
    ),
    (
        "range f7 1 2",
        b"4 3 0\n",
        b"air 0\n0 6\nterminal 6\nunbalanced\n",
        b"Lookup mismatch (instance 0 local lookup 0): tuple [4] has net multiplicity 1 at instance 0 lookup 0 row 0\n",
        1,
    ),
    (
        "range f7 5 2",
        b"3 1 0\n4 1 0\n",
        b"air 0\n0 2\n2 5\nterminal 0\nbalanced\n",
        b"Lookup mismatch (instance 0 local lookup 0): tuple [3] has net multiplicity 1 at instance 0 lookup 0 row 0\n",
        0,
    ),
    (
        "range f7 5 2",
        b"3 1 0\n3 1 0\n",
        b"air 0\n0 2\n2 2\nterminal 4\nunbalanced\n",
        b"Lookup mismatch (instance 0 local lookup 0): tuple [3] has net multiplicity 2 at instance 0 lookup 0 row 0; instance 0 lookup 0 row 1\n",
        1,
    ),
    ("range f7 5 2", b"", b"", b"error: no rows\n", 2),
    (
        "range f7 5 2",
        b"3 4",
        b"",
        b"error: line 1: expected 3 numbers\n",
        2,
    ),
    (
        "range f7 5 2",
        b"3 4 7",
        b"",
        b"error: line 1: bad number\n",
        2,
    ),
    (
        "range f7 5 2",
        b"3 4 0\n3 4 0\n3 4 0\n3 4 0\n3 4 0\n3 4 0\n3 4 0\n",
        b"",
        b"error: LogUp multiplicity height-bound exceeded: weighted height sum 7 reaches the ~2^3 field characteristic\n",
        2,
    ),
    (
        "range f7 1 2",
        b"3 4 1\n3 4 1\n3 4 1\n3 4 1\n3 4 1\n3 4 1\n3 4 1\n",
        b"",
        b"error: LogUp multiplicity height-bound exceeded: weighted height sum 7 reaches the ~2^3 field characteristic\n",
        2,
    ),
    (
        "range f7 5 2",
        b"3 4 0\n3 4 0\n3 4 0\n3 4 0\n3 4 0\n3 4 0\n",
        b"air 0\n0 2\n2 2\n4 2\n6 2\n1 2\n3 2\nterminal 5\nunbalanced\n",
        b"Lookup mismatch (instance 0 local lookup 0): tuple [3] has net multiplicity 6 at instance 0 lookup 0 row 0; instance 0 lookup 0 row 1; instance 0 lookup 0 row 2; instance 0 lookup 0 row 3; instance 0 lookup 0 row 4; instance 0 lookup 0 row 5\n",
        1,
    ),
    (
        "bus f7 5 2",
        b"3 3 2\n3 4 0\n",
        b"air 0\n0 2\n2 2\nterminal 4\nair 1\n0 3\n3 0\nterminal 3\nbalanced\n",
        b"",
        0,
    ),
    (
        "bus f7 1 2",
        b"4 3 1\n",
        b"",
        b"error: air 1: row 0, lookup 0: vanishing denominator\n",
        2,
    ),
    (
        "bus f7 5 2",
        b"3 4 1\n",
        b"air 0\n0 2\nterminal 2\nair 1\n0 2\nterminal 2\nunbalanced\n",
        b"Lookup mismatch (global lookup 'b'): tuple [3] has net multiplicity 1 at instance 0 lookup 0 row 0\n",
        1,
    ),
    (
        "exclusive f7 5 2",
        b"1 3 0 5\n",
        b"air 0\n0 2\nterminal 2\nunbalanced\n",
        b"Lookup mismatch (global lookup 'rc'): tuple [3] has net multiplicity 1 at instance 0 lookup 0 row 0\n",
        1,
    ),
    (
        "exclusive f7 5 2",
        b"0 3 1 5\n",
        b"air 0\n0 4\nterminal 4\nunbalanced\n",
        b"Lookup mismatch (global lookup 'rc'): tuple [5] has net multiplicity 1 at instance 0 lookup 0 row 0\n",
        1,
    ),
    (
        "exclusive f7 5 2",
        b"0 3 0 5\n",
        b"air 0\n0 0\nterminal 0\nbalanced\n",
        b"",
        0,
    ),
    (
        "exclusive f7 1 2",
        b"0 3 0 5\n",
        b"air 0\n0 0\nterminal 0\nbalanced\n",
        b"",
        0,
    ),
    (
        "exclusive f7 5 2",
        b"1 3 1 5\n",
        b"",
        b"error: air 0: row 0, lookup 0: exclusive flags must sum to at most one per row\n",
        2,
    ),
    (
        "exclusive f7 5 2",
        b"2 3 0 5\n",
        b"",
        b"error: air 0: row 0, lookup 0: exclusive flag must be boolean\n",
        2,
    ),
    (
        "exclusive f7 5 2",
        b"1 3 2 5\n",
        b"",
        b"error: air 0: row 0, lookup 0: exclusive flag must be boolean\n",
        2,
    ),
    (
        "exclusive f7 1 2",
        b"1 3 0 5\n",
        b"",
        b"error: air 0: row 0, lookup 0: vanishing denominator\n",
        2,
    ),
    (
        "exclusive f7 1 2",
        b"1 3 1 5\n",
        b"",
        b"error: air 0: row 0, lookup 0: exclusive flags must sum to at most one per row\n",
        2,
    ),
    (
        "exclusive babybear4 0,1,0,0 0,0,0,0",
        b"1 0 0 5\n",
        b"air 0\n0,0,0,0 0,0,0,549072524\nterminal 0,0,0,549072524\nunbalanced\n",
        b"Lookup mismatch (global lookup 'rc'): tuple [0] has net multiplicity 1 at instance 0 lookup 0 row 0\n",
        1,
    ),
    (
        "exclusive babybear4 0,1,0,0 0,0,0,0",
        b"0 0 0 5\n",
        b"air 0\n0,0,0,0 0,0,0,0\nterminal 0,0,0,0\nbalanced\n",
        b"",
        0,
    ),
    (
        "range babybear4 0,1,0,0 0,0,0,0",
        b"0 1 0\n",
        b"air 0\n0,0,0,0 0,0,0,549072524\nterminal 0,0,0,549072524\nunbalanced\n",
        b"Lookup mismatch (instance 0 local lookup 0): tuple [0] has net multiplicity 1 at instance 0 lookup 0 row 0\n",
        1,
    ),
    (
        "range babybear4 0,1,0,0 1,0,0,0",
        b"0 1 0\n",
        b"air 0\n0,0,0,0 201326592,1811939329,201326592,1811939329\nterminal 201326592,1811939329,201326592,1811939329\nunbalanced\n",
        b"Lookup mismatch (instance 0 local lookup 0): tuple [0] has net multiplicity 1 at instance 0 lookup 0 row 0\n",
        1,
    ),
    (
        "range babybear4 0,1,0,0 0,0,0,0",
        b"0 0 1\n",
        b"air 0\n0,0,0,0 0,0,0,0\nterminal 0,0,0,0\nbalanced\n",
        b"",
        0,
    ),
    (
        "range f7 5 2",
        b"\n \t\r\n3 4 1\r\n\n",
        b"air 0\n0 4\nterminal 4\nunbalanced\n",
        b"Lookup mismatch (instance 0 local lookup 0): tuple [3] has net multiplicity 1 at instance 0 lookup 0 row 0\n",
        1,
    ),
    (
        "range f7 005 2",
        b"3 4 1",
        b"air 0\n0 4\nterminal 4\nunbalanced\n",
        b"Lookup mismatch (instance 0 local lookup 0): tuple [3] has net multiplicity 1 at instance 0 lookup 0 row 0\n",
        1,
    ),
    (
        "range f7 5 2",
        b"+3 4 1",
        b"",
        b"error: line 1: bad number\n",
        2,
    ),
    (
        "range f7 5 2",
        b"-1 3 1",
        b"",
        b"error: line 1: bad number\n",
        2,
    ),
    (
        "range f7 5 2",
        b"99999999999999999999 4 1",
        b"",
        b"error: line 1: bad number\n",
        2,
    ),
    (
        "range f7 5 2",
        b"3 \xff 1",
        b"",
        b"error: line 1: bad number\n",
        2,
    ),
    (
        "range f7 5 2",
        b"3 x",
        b"",
        b"error: line 1: expected 3 numbers\n",
        2,
    ),
    (
        "range f7 5 2",
        b"3 4 1\n\n3 4 1 5",
        b"",
        b"error: line 3: expected 3 numbers\n",
        2,
    ),
    (
        "range f7 5 2",
        b"3 4 1\n3 9 1\n3",
        b"",
        b"error: line 2: bad number\n",
        2,
    ),
];

/// Fails unless each of these runs writes what it has to.
fn expect_runs(rt: &impl Abort, alloc: Global, runs: &[Run]) -> Result<(), Fail> {
    for (line, input, output, errors, status) in runs {
        let words = words_of(alloc, line)?;
        let mut input = *input;
        let (mut written, mut refused) = (Vec::new(alloc), Vec::new(alloc));
        let code = run::<Offered, _, _, _>(
            alloc,
            words.as_slice(),
            &mut input,
            &mut written,
            &mut refused,
        );
        let is_written = written.as_slice() == *output && refused.as_slice() == *errors;
        assert!(rt; is_written && code == ExitCode::from(*status), "{line}");
    }
    Ok(())
}

#[test]
fn runs_of_the_program(rt: HostRuntime) -> Result<(), Fail> {
    expect_runs(&rt, rt.alloc(), RUNS.as_slice())
}

#[test]
fn words_are_refused_before_the_input_is_read(rt: HostRuntime) -> Result<(), Fail> {
    let alloc = rt.alloc();
    let cases: [(&str, &[u8]); 7] = [
        (
            "range f7 5",
            b"error: usage: lookup-run MACHINE FIELD ALPHA BETA\n",
        ),
        (
            "range f7 5 2 1",
            b"error: usage: lookup-run MACHINE FIELD ALPHA BETA\n",
        ),
        ("wide f7 5 2", b"error: unknown machine: wide\n"),
        ("range f11 5 2", b"error: unknown field: f11\n"),
        ("range f7 7 2", b"error: bad challenge: 7\n"),
        ("range f7 5 007", b"error: bad challenge: 007\n"),
        ("range babybear4 5 2", b"error: bad challenge: 5\n"),
    ];
    for (line, text) in cases {
        expect_refusal(&rt, alloc, line, 1, false, text, 0)?;
    }
    Ok(())
}

/// A report of 32 bytes is cut short, or can't be flushed.
#[test]
fn a_failing_write_ends_the_run(rt: HostRuntime) -> Result<(), Fail> {
    let alloc = rt.alloc();
    for (room, left) in [(0usize, 0usize), (1, 0), (6, 0), (1000, 968)] {
        expect_failing_write(&rt, alloc, b"3 4 1\n", (room, 1000), (left, 1000))?;
    }
    Ok(())
}

#[test]
fn a_refusal_that_cannot_be_written_keeps_its_status(rt: HostRuntime) -> Result<(), Fail> {
    let alloc = rt.alloc();
    for room in [0usize, 5] {
        expect_failing_write(&rt, alloc, b"3 4\n", (1000, room), (1000, 0))?;
    }
    Ok(())
}

/// The report is written whole, and the line of its mismatch has no room, or can't be flushed.
#[test]
fn a_mismatch_that_cannot_be_written_ends_the_run(rt: HostRuntime) -> Result<(), Fail> {
    let alloc = rt.alloc();
    let words = words_of(alloc, "range f7 5 2")?;
    for room in [0usize, 1000] {
        let mut input = b"3 4 1\n".as_slice();
        let mut output = Vec::new(alloc);
        let mut errors = FullWriter { room };
        let code = run::<Offered, _, _, _>(
            alloc,
            words.as_slice(),
            &mut input,
            &mut output,
            &mut errors,
        );
        let text = b"air 0\n0 4\nterminal 4\nunbalanced\n".as_slice();
        assert!(rt;
            code == ExitCode::from(2) && output.as_slice() == text,
            "room {room}"
        );
    }
    Ok(())
}
