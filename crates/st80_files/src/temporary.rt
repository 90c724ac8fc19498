// A folder of the run's own in the temporary folder of the system.
ghost use Rattle.std.specs.Prelude.{◌≡◌, IfErr, IfOk, string_bytes};
ghost use Rattle.st80_files.specs.Codes.{IsToldBy};
ghost use Rattle.st80_files.specs.Inside.{file_in, folder_at};
ghost use Rattle.st80_files.specs.declared.codes.Code.TheVariants as code;

use crate::codes::Code;
use crate::failure::{Failure, file_failed};
use std::alloc::AllocError;
use std::env;
use std::fs::DirBuilder;
use std::io::{self, ErrorKind};
use std::os::unix::fs::DirBuilderExt;
use std::rt::Files;
use std::time::{SystemTime, UNIX_EPOCH};

// How many names are tried.
const MOST_TRIES: u32 = 1_000;

/// A folder that nobody else has, which goes with the run.
#[derive(Drop)]
pub struct Temporary {
    path: String,
}

// A number that differs from run to run, mostly.
fn moment(rt: HostRuntime) -> u64 {
    match SystemTime::now(&rt) {
        Ok(now) => match now.duration_since(UNIX_EPOCH) {
            Ok(since) => since
                .as_secs()
                .wrapping_mul(1_000_000_000)
                .wrapping_add(since.subsec_nanos() as u64),
            Err(_) => 0,
        },
        Err(_) => 0,
    }
}

fn new_folder(rt: HostRuntime, base: &str) -> io::Result<String> {
    let moment = moment(rt);
    for attempt in 0..MOST_TRIES {
        let path = format!(in rt.alloc(); "{base}/st80.{moment:x}.{attempt}")?;
        match DirBuilder::new().mode(0o700).create(&rt, path.as_str()) {
            Ok(()) => return Ok(path),
            Err(error) if error.kind() == ErrorKind::AlreadyExists => {}
            Err(error) => return Err(error),
        }
    }
    Err(io::Error::from(ErrorKind::AlreadyExists))
}

impl Temporary {
    /// A new one.
    pub fn new(rt: HostRuntime) -> Result<Temporary, Failure>
        ensures { IfErr result (IsToldBy code.NoTemporary) }
    {
        let alloc = rt.alloc();
        let base = match env::temp_dir(&rt) {
            Ok(base) => base,
            Err(error) => {
                return Err(file_failed(
                    alloc,
                    Code::NoTemporary,
                    "the temporary folder",
                    "found",
                    &error,
                ));
            }
        };
        let base = base.into_string();
        match new_folder(rt, base.as_str()) {
            Ok(path) => Ok(Temporary { path }),
            Err(error) => {
                let what = format!(in alloc; "a folder in {base}")?;
                Err(file_failed(alloc, Code::NoTemporary, what.as_str(), "made", &error))
            }
        }
    }

    /// The path of a file in it.
    #[tactic(auto, unfolding(crate::specs::Inside::folder_at))]
    pub fn file(&self, rt: HostRuntime, name: &str) -> Result<String, AllocError>
        ensures { IfOk result (λ path. string_bytes path ≡ file_in (folder_at self.now) name.now) }
    {
        let folder = self.path.as_str();
        format!(in rt.alloc(); "{folder}/{name}")
    }

    /// Removes it, with all that is in it. Nothing more can be done where that fails.
    pub fn clear(self, rt: HostRuntime) {
        let _ = rt.remove_dir_all(rt.alloc(), self.path.as_str());
    }
}
