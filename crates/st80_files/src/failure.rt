// Why the program ends before `loom` would.
ghost use Rattle.st80_files.specs.Codes.{IsToldBy};

use crate::codes::Code;
use std::alloc::{AllocError, Global};
use std::io::{self, ErrorKind};

/// Why it ends: by want of memory, or with a code and what is said of it.
#[derive(Debug, Drop)]
pub enum Failure {
    Memory,
    Told { code: Code, text: String },
}

impl From<AllocError> for Failure {
    ghost use Rattle.std.specs.Prelude.{◌≡◌};
    ghost use Rattle.st80_files.specs.declared.failure.Failure.TheVariants.{Memory};

    ghost from_gives = { λ _ e. e ≡ Memory };

    fn from(_: AllocError) -> Failure {
        Failure::Memory
    }
}

/// A failure with this text.
pub fn failed(alloc: Global, code: Code, text: &str) -> Failure
    ensures { IsToldBy code result }
{
    match String::from_str(alloc, text) {
        Ok(text) => Failure::Told { code, text },
        Err(_) => Failure::Memory,
    }
}

/// A file, what was tried with it, and the system's reason.
pub fn file_failed(alloc: Global, code: Code, path: &str, tried: &str, error: &io::Error) -> Failure
    ensures { IsToldBy code result }
{
    if error.kind() == ErrorKind::OutOfMemory {
        return Failure::Memory;
    }
    match format!(in alloc; "{path} can't be {tried}: {error}") {
        Ok(text) => Failure::Told { code, text },
        Err(_) => Failure::Memory,
    }
}
