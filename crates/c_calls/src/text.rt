//! Texts in arrays of a caller.
ghost use Rattle.std.specs.Prelude.{◌≡◌, ◌<◌, Some, length, slice_get};

use crate::fault::Fault;
use std::fmt;
use std::fmt::Write;

/// A text that is written into the bytes of a caller, as far as these go.
#[derive(Drop)]
struct Text<'a> {
    bytes: &'a mut [u8],
    length: usize,
}

impl fmt::Write for Text<'_> {
    fn write_str(&mut self, s: &str) -> fmt::Result {
        for byte in s.as_bytes() {
            let bytes = &mut *self.bytes;
            if self.length < bytes.len() {
                bytes[self.length] = *byte;
            }
            self.length = self.length.saturating_add(1);
        }
        Ok(())
    }
}

/// Writes the text of a fault, cut to the room there is, with a zero after it where there is room for one. Returns the
/// length of the whole without that zero.
///
/// Asks for no memory.
pub(crate) fn write_text(fault: &Fault, bytes: &mut [u8]) -> usize
    ensures closed { result < length bytes.old → slice_get bytes.new result ≡ Some 0 }
{
    let mut text = Text {
        bytes: &mut *bytes,
        length: 0,
    };
    let _ = write!(text, "{fault}");
    let length = text.length;
    if length < bytes.len() {
        bytes[length] = 0;
    }
    length
}
