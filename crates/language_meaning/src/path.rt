//! Paths of files that a text names.
ghost use Rattle.std.specs.Prelude.{◌≡◌, IfOk};
ghost use Rattle.language_meaning.specs.Paths.{folder_of, path_beside};

use std::alloc::{AllocError, Global};

/// The path of a file with this name beside another one. A name that begins with a slash is a path of
/// its own.
///
/// Fails only when out of memory.
pub fn path_beside(alloc: Global, file: &[u8], name: &[u8]) -> Result<Vec<u8>, AllocError>
    ensures { IfOk result (λ v. v.items ≡ path_beside file.now name.now) }
{
    let folder = match name {
        [b'/', ..] => &[],
        _ => folder_of(file),
    };
    let mut path = Vec::from_slice(alloc, folder)?;
    path.extend_from_slice(name)?;
    Ok(path)
}

/// The folder of a file, up to and with the last slash of its path.
fn folder_of(file: &[u8]) -> &[u8]
    ensures { result.now ≡ folder_of file.now }
{
    let mut folder = file;
    while let [front @ .., last] = folder {
        if *last == b'/' {
            break;
        }
        folder = front;
    }
    folder
}
