//! Text that grows, and lines whose cells stand below each other.
ghost use Rattle.std.specs.Prelude.{◌≡◌, ◌++◌, [], OnOk, decimal, map};
ghost use Rattle.check_page.specs.Shown.{comma_before, in_threes, shown_byte};

use std::alloc::{AllocError, Global};

/// Text that grows.
#[derive(Drop)]
pub struct Page {
    alloc: Global,
    pub bytes: Vec<u8>,
}

impl Page {
    /// An empty page.
    pub fn new(alloc: Global) -> Page
        ensures { result.bytes.items ≡ [] }
    {
        Page {
            alloc,
            bytes: Vec::new(alloc),
        }
    }

    /// Where its memory comes from.
    pub fn alloc(&self) -> Global {
        self.alloc
    }

    /// Appends a word.
    pub fn word(&mut self, word: &str) -> Result<(), AllocError>
        ensures { OnOk result (self.new.bytes.items ≡ self.old.bytes.items ++ word.now) }
    {
        self.bytes.extend_from_slice(word.as_bytes())
    }

    /// Appends bytes of a file, each ASCII control character as a question mark.
    pub fn shown(&mut self, bytes: &[u8]) -> Result<(), AllocError>
        ensures { OnOk result (self.new.bytes.items
            ≡ self.old.bytes.items ++ map shown_byte bytes.now) }
    {
        for byte in bytes {
            self.bytes.push(shown_byte(*byte))?;
        }
        Ok(())
    }

    /// Appends a number in decimal digits.
    pub fn number(&mut self, number: u128) -> Result<(), AllocError>
        ensures { OnOk result (self.new.bytes.items ≡ self.old.bytes.items ++ decimal number) }
    {
        let text = format!(in self.alloc; "{number}")?;
        self.word(text.as_str())
    }

    /// Appends a number in decimal digits, with a comma between each three of them.
    pub fn grouped(&mut self, number: u128) -> Result<(), AllocError>
        ensures { OnOk result (self.new.bytes.items
            ≡ self.old.bytes.items ++ in_threes (decimal number)) }
    {
        let text = format!(in self.alloc; "{number}")?;
        self.in_threes(text.as_bytes())
    }

    /// Appends digits, with a comma between each three of them.
    fn in_threes(&mut self, digits: &[u8]) -> Result<(), AllocError>
        ensures { OnOk result (self.new.bytes.items
            ≡ self.old.bytes.items ++ in_threes digits.now) }
    {
        for index in 0..digits.len() {
            self.bytes.push(digits[index])?;
            self.comma_before(digits.len() - (index + 1))?;
        }
        Ok(())
    }

    /// Appends what is between a digit and the so many that follow.
    fn comma_before(&mut self, count: usize) -> Result<(), AllocError>
        ensures { OnOk result (self.new.bytes.items ≡ self.old.bytes.items ++ comma_before count) }
    {
        if count > 0 && count % 3 == 0 {
            self.word(",")
        } else {
            self.word("")
        }
    }

    /// Appends so many blanks.
    pub fn blanks(&mut self, count: usize) -> Result<(), AllocError> {
        for _ in 0..count {
            self.bytes.push(b' ')?;
        }
        Ok(())
    }

    /// Appends lines of cells: each column is as wide as its widest cell, and two blanks stand
    /// before it. A column of this list is set to the right.
    pub fn table(&mut self, lines: &[Vec<Vec<u8>>], right: &[bool]) -> Result<(), AllocError> {
        self.noted_table(lines, &[], right)
    }

    /// The same with a note below each line, as long as there are notes: lines of their own, or none.
    pub fn noted_table(
        &mut self,
        lines: &[Vec<Vec<u8>>],
        notes: &[Vec<u8>],
        right: &[bool],
    ) -> Result<(), AllocError> {
        let mut widths = Vec::new(self.alloc);
        for column in 0..right.len() {
            widths.push(widest_cell(lines, column))?;
        }
        for (index, line) in lines.iter().enumerate() {
            self.table_line(line, &widths, right)?;
            if let Some(note) = notes.get(index) {
                self.bytes.extend_from_slice(note)?;
            }
        }
        Ok(())
    }

    fn table_line(
        &mut self,
        line: &[Vec<u8>],
        widths: &[usize],
        right: &[bool],
    ) -> Result<(), AllocError> {
        let mut missing = 0;
        for ((cell, width), right) in line.iter().zip(widths).zip(right) {
            self.blanks(missing)?;
            self.word("  ")?;
            missing = width.saturating_sub(characters(cell));
            if *right {
                self.blanks(missing)?;
                missing = 0;
            }
            self.bytes.extend_from_slice(cell)?;
        }
        self.word("\n")
    }
}

/// A byte as it is shown.
fn shown_byte(byte: u8) -> u8
    ensures { result ≡ shown_byte byte }
{
    if byte < 32 || byte == 127 { b'?' } else { byte }
}

/// How many characters some bytes have.
pub fn characters(bytes: &[u8]) -> usize {
    bytes
        .iter()
        .filter(|byte| **byte < 128 || **byte >= 192)
        .count()
}

/// The most characters of a cell of a column.
fn widest_cell(lines: &[Vec<Vec<u8>>], column: usize) -> usize {
    let mut most = 0;
    for line in lines {
        if let Some(cell) = line.get(column) {
            most = most.max(characters(cell));
        }
    }
    most
}

/// A cell with a word.
pub fn word_cell(alloc: Global, word: &str) -> Result<Vec<u8>, AllocError> {
    Vec::from_slice(alloc, word.as_bytes())
}

/// A cell with bytes of a file.
pub fn shown_cell(alloc: Global, bytes: &[u8]) -> Result<Vec<u8>, AllocError> {
    let mut page = Page::new(alloc);
    page.shown(bytes)?;
    Ok(page.bytes)
}

/// A cell with a number, grouped.
pub fn number_cell(alloc: Global, number: u128) -> Result<Vec<u8>, AllocError> {
    let mut page = Page::new(alloc);
    page.grouped(number)?;
    Ok(page.bytes)
}

/// A cell with numbers between blanks.
pub fn numbers_cell(alloc: Global, numbers: &[usize]) -> Result<Vec<u8>, AllocError> {
    let mut page = Page::new(alloc);
    for (index, number) in numbers.iter().enumerate() {
        if index > 0 {
            page.blanks(1)?;
        }
        page.number(*number as u128)?;
    }
    Ok(page.bytes)
}

/// A line of words.
pub fn head(alloc: Global, words: &[&str]) -> Result<Vec<Vec<u8>>, AllocError> {
    let mut cells = Vec::new(alloc);
    for word in words {
        cells.push(word_cell(alloc, word)?)?;
    }
    Ok(cells)
}
