//! What a run writes, and its status.
ghost use Rattle.std.specs.Prelude.{◌≡◌, option_map};
ghost use Rattle.std.specs.Process.{exit_status};
ghost use Rattle.program_ending.specs.Endings.{EndsAnswered, AnswerParts};
ghost use Rattle.program_ending.specs.Written.{AppendsFront, WritesFront};

use std::io::{ErrorKind, Write};
use std::process::ExitCode;

/// Writes the text of an answer to `output`, and then its note, if there is one, to `errors`. If the
/// text cannot be written, writes `unwritten` to `errors`, if that is given.
///
/// The status is 0 if the answer is yes, 1 if it is no, and 2 if a write fails. Tested, and not proved:
/// that it is 2 only then, that what goes to `errors` is whole unless a write fails, and that each text
/// is flushed, of which a failure counts as a failed write.
pub fn write_answer<W: Write, E: Write>(
    text: &[u8],
    note: Option<&[u8]>,
    yes: bool,
    unwritten: Option<&[u8]>,
    output: &mut W,
    errors: &mut E,
) -> ExitCode
    ensures { EndsAnswered W.contents E.contents (record {
      text = text.now;
      note = option_map (λ s. s.now) note.entry;
      yes = yes;
      unwritten = option_map (λ s. s.now) unwritten.entry;
    }) output.old output.new errors.old errors.new
        (exit_status result) }
{
    if !write_and_flush(text, output) {
        if let Some(line) = unwritten {
            let _ = write_and_flush(line, errors);
        }
        return ExitCode::from(2);
    }
    if let Some(line) = note {
        if !write_and_flush(line, errors) {
            return ExitCode::from(2);
        }
    }
    if yes {
        ExitCode::SUCCESS
    } else {
        ExitCode::from(1)
    }
}

/// Writes to `errors` a front of the text of a refusal: all of it unless a write fails, which is
/// tested. The status is 2.
pub fn write_refusal<E: Write>(text: &[u8], errors: &mut E) -> ExitCode
    ensures status { exit_status result ≡ 2 }
    ensures written { AppendsFront (E.contents errors.old) (E.contents errors.new) text.now }
{
    let _ = write_and_flush(text, errors);
    ExitCode::from(2)
}

/// As `write_front`, and then flushes, which is tested. Returns `false` as well if flushing fails.
fn write_and_flush<W: Write>(bytes: &[u8], output: &mut W) -> bool
    ensures { WritesFront (W.contents output.old) (W.contents output.new) bytes.now result }
{
    write_front(bytes, output) && output.flush().is_ok()
}

/// Writes a front of some bytes; these are all of them if it returns `true`. That it stops only where a
/// write fails, and asks a writer that is interrupted again, is tested. `write_all` is not used, since
/// its contract does not say what a call that fails has written.
fn write_front<W: Write>(bytes: &[u8], writer: &mut W) -> bool
    ensures { WritesFront (W.contents writer.old) (W.contents writer.new) bytes.now result }
{
    let mut rest = bytes;
    for _ in 0..usize::MAX {
        if rest.is_empty() {
            return true;
        }
        match writer.write(rest) {
            Ok(0) => return false,
            Ok(taken) => rest = &rest[taken..],
            Err(error) if error.kind() == ErrorKind::Interrupted => {}
            Err(_) => return false,
        }
    }
    false
}
