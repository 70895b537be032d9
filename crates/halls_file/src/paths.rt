//! Paths that a file has.
ghost use Rattle.std.specs.Prelude.{◌≡◌, ◌∷◌, ◌++◌, string_bytes, IfOk, MatchOption};
ghost use Rattle.halls_file.specs.Paths.{HasNoSlash, IsBeside, IsIn, is_absolute};

use std::alloc::{AllocError, Global};

fn is_absolute(path: &str) -> bool
    ensures { result ≡ is_absolute path.now }
{
    matches!(path.as_bytes(), [b'/', ..])
}

// The folder of a file, without its last `/`.
fn folder_of(file: &str) -> Option<&str>
    ensures { MatchOption result (HasNoSlash file.now) (λ folder. IsIn folder.now file.now) }
{
    match file.rsplit_once('/') {
        Some((folder, _)) => Some(folder),
        None => None,
    }
}

fn joined(alloc: Global, folder: &str, path: &str) -> Result<String, AllocError>
    ensures { IfOk result (λ full. string_bytes full ≡ folder.now ++ 47 ∷ path.now) }
{
    format!(in alloc; "{folder}/{path}")
}

/// A path that a file has, as it is found: a path as it is if it begins with `/`, else in the folder of the file.
pub fn beside(alloc: Global, file: &str, path: &str) -> Result<String, AllocError>
    ensures { IfOk result (λ full. IsBeside file.now path.now (string_bytes full)) }
{
    if is_absolute(path) {
        return String::from_str(alloc, path);
    }
    match folder_of(file) {
        Some(folder) => joined(alloc, folder, path),
        None => String::from_str(alloc, path),
    }
}
