//! Lines and columns.
ghost use Rattle.std.specs.Prelude.{◌≡◌, ◌+◌, ℕ, count_by, drop, length};
ghost use Rattle.language.specs.Places.{BeginsLastLine, begins_character, is_line_end, mark_length, read_before};

/// A line and a column of a text, both from 1. A column is a character.
#[derive(Debug, Clone, Copy, PartialEq, Eq)]
pub struct Place {
    pub line: usize,
    pub column: usize,
}

/// The place of the byte at this index of a text, or of the text's end where the index is past it.
/// A byte-order mark takes no column.
pub fn place_of(text: &[u8], at: usize) -> Place
    ensures line { result.line ≡ 1 + count_by is_line_end (read_before text.now at) }
    ensures column { (start : ℕ) × BeginsLastLine (read_before text.now at) start
        × (result.column ≡ 1 + count_by begins_character (drop start (read_before text.now at))) }
{
    let front = before(text, at);
    let mut line = 1;
    let mut start = 0;
    for (index, byte) in front.iter().enumerate() {
        if *byte == b'\n' {
            line += 1;
            start = index + 1;
        }
    }
    Place {
        line,
        column: 1 + characters(&front[start..]),
    }
}

/// How many characters some bytes have.
fn characters(bytes: &[u8]) -> usize
    ensures { result ≡ count_by begins_character bytes.now }
{
    bytes
        .iter()
        .filter(|byte| **byte < 128 || **byte >= 192)
        .count()
}

/// The bytes before an index, without the byte-order mark.
fn before(text: &[u8], at: usize) -> &[u8]
    ensures { result.now ≡ read_before text.now at }
{
    let mark = mark_length(text);
    let front = if at < text.len() { &text[..at] } else { text };
    if mark < front.len() {
        &front[mark..]
    } else {
        &front[..0]
    }
}

/// How many bytes the byte-order mark at the front of a text takes.
pub(crate) fn mark_length(text: &[u8]) -> usize
    ensures { result ≡ mark_length text.now }
{
    if text.len() >= 3 && (text[0] == 0xef && (text[1] == 0xbb && text[2] == 0xbf)) {
        3
    } else {
        0
    }
}
