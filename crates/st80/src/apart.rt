// Files that are one, by whatever name, and may not be.
use crate::rows::clash_failed;
use loom_outside::Identity;
use st80_files::{Failure, STREAM};
use st80_words::Clash;

/// A file, by what it is called in what is said, by its path, and by which file of the system it is.
#[derive(Clone, Copy)]
pub struct Known<'a> {
    what: &'static str,
    path: &'a str,
    identity: Option<Identity>,
}

/// The file of a word, where there is one that names a file.
pub fn file_of<'a>(rt: HostRuntime, what: &'static str, word: Option<&'a str>) -> Known<'a> {
    let path = match word {
        Some(word) if word != STREAM => word,
        _ => "",
    };
    let identity = Identity::named(&rt, path);
    Known {
        what,
        path,
        identity,
    }
}

// Whether two words name one file. What keeps no bytes, as the null device, has no identity, and may be shared by other names.
fn are_one(one: &Known<'_>, other: &Known<'_>) -> bool {
    let has_word = !one.path.is_empty() && one.path == other.path;
    has_word || one.identity.is_some() && one.identity == other.identity
}

// What another one of the files is called that is this one.
fn twin_in(file: &Known<'_>, files: &[Known<'_>]) -> Option<&'static str> {
    for other in files {
        if other.what != file.what && are_one(file, other) {
            return Some(other.what);
        }
    }
    None
}

/// Refuses files of which two are one. No two of them are called alike.
pub fn expect_apart(rt: HostRuntime, files: &[Known<'_>]) -> Result<(), Failure> {
    for file in files {
        if let Some(other) = twin_in(file, files) {
            let one = file.what;
            return Err(clash_failed(rt, Clash { one, other }));
        }
    }
    Ok(())
}
