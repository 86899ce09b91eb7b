//! The files that a text names.
ghost use Rattle.std.specs.Prelude.{◌≡◌, ◌++◌, IfOk, OnOk, map, option_map};
ghost use Rattle.language.specs.Batches.{section_of};
ghost use Rattle.language.specs.Items.{placed_of};
ghost use Rattle.language_meaning.specs.Files.{content_of, file_of, files_in, files_of_items, named_of};
ghost use Rattle.language_meaning.specs.Tables.{names_in};

use crate::scope::bytes_of;
use language::{BatchText, ItemText, PlacedItem, SectionText};
use std::alloc::{AllocError, Global};

/// A file by its name, and what it holds: `None` where it cannot be read.
#[derive(Debug, Drop)]
pub struct NamedFile {
    pub name: Vec<u8>,
    pub content: Option<Vec<u8>>,
}

/// The names of the files with traces, in the order of the text. A file that is named twice is
/// listed twice.
///
/// Fails only when out of memory.
pub fn files_of(alloc: Global, text: &[u8], batch: &BatchText) -> Result<Vec<Vec<u8>>, AllocError>
    ensures { IfOk result (λ v. names_in v.items
        ≡ files_in text.now (map section_of batch.now.sections.items)) }
{
    let mut files = Vec::new(alloc);
    for section in &batch.sections {
        if let SectionText::Air(air) = section {
            push_files(alloc, &mut files, text, &air.items)?;
        }
    }
    Ok(files)
}

/// Appends the names of the files of some items.
fn push_files(
    alloc: Global,
    files: &mut Vec<Vec<u8>>,
    text: &[u8],
    items: &[PlacedItem],
) -> Result<(), AllocError>
    ensures { OnOk result (names_in files.new.items
        ≡ names_in files.old.items ++ files_of_items text.now (map placed_of items.now)) }
{
    for item in items {
        match &item.item {
            ItemText::Trace(file) | ItemText::Preprocessed(file) => {
                files.push(Vec::from_slice(alloc, bytes_of(text, *file))?)?;
            }
            _ => {}
        }
    }
    Ok(())
}

/// What the first file with a name holds, `None` where there is none or it cannot be read.
pub fn content_of<'a>(files: &'a [NamedFile], name: &[u8]) -> Option<&'a [u8]>
    ensures { option_map (λ x. x.now) result ≡ content_of name.now (map named_of files.now) }
{
    for file in files {
        if file.name.as_slice() == name {
            return match &file.content {
                Some(content) => Some(content.as_slice()),
                None => None,
            };
        }
    }
    None
}
