//! The lines that the tool reads.
use std::fmt::Debug;
use std::io::{BufWriter, Stdout, Write};

/// Where the lines go. A given type, since a type parameter more makes a function a quarter dearer to prove.
///
/// Once an input of the calls can't be made, it takes no more lines. So the calls give nothing back: a function
/// that hands a missing input on costs twice as much to prove.
#[derive(Drop)]
pub struct Out {
    lines: BufWriter<Stdout>,
    is_open: bool,
}

impl Out {
    /// Takes lines, and writes them here.
    pub fn new(lines: BufWriter<Stdout>) -> Out {
        Out {
            lines,
            is_open: true,
        }
    }

    /// Takes no more lines, since an input can't be made.
    pub fn close(&mut self) {
        self.is_open = false;
    }

    /// Writes the answer to a text.
    pub fn write(&mut self, text: String) {
        let _ = writeln!(self.lines, "read: {text}");
    }

    /// Whether the lines of all calls have been written.
    pub fn has_all(&mut self) -> bool {
        self.lines.flush().is_ok() && self.is_open
    }
}

/// Writes a line: the name of a call and its answer; or `before`, `after`, `left`, `count`, `filled` or `input`,
/// and what a call is made on or leaves.
pub fn show<T: Debug + Drop>(out: &mut Out, name: &str, value: T) {
    if out.is_open {
        let _ = writeln!(out.lines, "{name}: {value:?}");
    }
}

/// The input that a call makes. Without one no more lines are written.
pub fn input<T: Drop, E: Drop>(out: &mut Out, made: Result<T, E>) -> Option<T> {
    match made {
        Ok(value) => Some(value),
        Err(_) => {
            out.close();
            None
        }
    }
}
