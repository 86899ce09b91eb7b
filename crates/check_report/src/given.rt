//! What a run is given.
use language_meaning::NamedFile;

/// A file with a batch, by its name and its bytes, the files that it names, and that of a witness.
#[derive(Clone, Copy)]
pub struct Given<'a> {
    pub file: &'a [u8],
    pub text: &'a [u8],
    pub files: &'a [NamedFile],
    pub witness: &'a [u8],
}
