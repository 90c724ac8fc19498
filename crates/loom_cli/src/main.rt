//! The program `loom`: it runs `loom_kept` of `loom_guard` over the files and the standard streams of its process.
//!
//! `answer` says that the process ends with the code of a status which `loom_kept` promises for the words after the program's name
//! (`promised`), or with 12 and the host and the vault as they were where memory for them is refused (`refused`). Before anything else the
//! standard streams that are closed are filled with the null device, so that no file of the run becomes one. Then `told_words` tells the host and
//! the vault of the files of the command, exactly as the table in `specs/Files.antt` of `loom_words` has it (`tellings`), so that none takes a
//! file that another keeps. Over the host of the files stands one with windows over the work file.
//!
//! There is no other code here: read `specs/Promise.antt` of `loom_guard`, and for the commands without a vault that of `loom_run`. What
//! files and streams do isn't promised; `tests/edge.sh` tries the program on them, and `tests/kills.sh` stops runs that keep checkpoints.
//!
//! - Proved: The process ends with the code of a status that `loom_kept` promises for its words, or with 12, and host and vault as they
//!   were, where memory for the words is refused.
//! - Tested: The program on real files and streams (`tests/edge.sh`), and its stored run by both compilers.
//! - Not said: What files and streams do.
#![tactic(auto)]

ghost use Rattle.std.specs.Prelude.{◌≡◌, ◌≢◌, ◌++◌, [], IfErr, IfOk, IsErr, IsOkAnd, IsTrue, drop, false};
ghost use Rattle.std.specs.IoError.{error_kind};
ghost use Rattle.std.specs.Process.{exit_status};
ghost use Rattle.std.specs.Vec.Iter.{into_iter_items};
ghost use Rattle.std.specs.declared.io.ErrorKind.TheVariants.{OutOfMemory};
ghost use Rattle.loom_words.specs.declared.status.Status.{Status};
ghost use Rattle.loom_run.specs.Meanings.{meanings};
ghost use Rattle.loom_guard.specs.Promise.{KeptPromise};
ghost use Rattle.loom_guard.specs.Vaults.{vault_meanings};
ghost use Rattle.loom_words.specs.Files.{tellings};
ghost use Rattle.loom_words.specs.Status.{code_of};
ghost use Rattle.loom_words.specs.Words.{texts_of};

use checkpoint::Vault;
use loom_guard::loom_kept;
use loom_outside::{Host, RealHost, Role};
use loom_words::{KeepsApart, Listener, Status, keep_apart};
use real_vault::RealVault;
use std::alloc::{AllocError, Global};
use std::env::{self, Args};
use std::fs::File;
use std::io::{self, ErrorKind, Write};
use std::process::ExitCode;
use std::rt::Files;
use work_windows::Windowed;

const NULL_DEVICE: &str = "/dev/null";

// Takes the places of the standard streams that are closed, so that no file of the run becomes one: a new descriptor is
// always the lowest that is free. What it opens is for reading only, so a write to a closed stream still fails. Where a
// stream is open it has one more descriptor, which nothing uses.
fn fill_streams<R: Files>(rt: &R) -> io::Result<[R::File; 3]> {
    Ok([
        File::open(rt, NULL_DEVICE)?,
        File::open(rt, NULL_DEVICE)?,
        File::open(rt, NULL_DEVICE)?,
    ])
}

// The words after the program's name; none where they can't be had as text.
fn words_of(alloc: Global, args: io::Result<Args>) -> Result<Vec<String>, AllocError>
    ensures words { IfOk args (λ args. IfOk result (λ words. words.items ≡ drop 1 (into_iter_items args))) }
    ensures memory { IfErr args (λ error. error_kind error ≡ OutOfMemory → IsErr result) }
    ensures no_text { IfErr args (λ error. error_kind error ≢ OutOfMemory → IsOkAnd result (λ words. words.items ≡ [])) }
{
    match args {
        Ok(args) => args.skip(1).collect(alloc),
        Err(error) if error.kind() == ErrorKind::OutOfMemory => Err(AllocError),
        Err(_) => Ok(Vec::new(alloc)),
    }
}

// What the process ends with, by the words after the program's name or the refusal of memory for them.
fn answer<H: Host, V: Vault>(
    alloc: Global,
    host: &mut H,
    vault: &mut V,
    words: Result<Vec<String>, AllocError>,
) -> ExitCode
    // Without memory for the words it does and says nothing.
    ensures refused { IsErr words → (exit_status result ≡ 12) × (host.new ≡ host.old) × (vault.new ≡ vault.old) }
    // It is the code of a status that is promised for these words.
    ensures promised { IfOk words (λ words. (status : Status) × (exit_status result ≡ code_of status)
        × KeptPromise H.tells V.tells (meanings H.Host host.old) (meanings H.Host host.new)
        (vault_meanings V.Vault vault.old) (vault_meanings V.Vault vault.new) (texts_of words.items) status) }
{
    let status = match words {
        Ok(words) => loom_kept(alloc, host, vault, &words),
        Err(_) => Status::OutOfMemory,
    };
    ExitCode::from(status.code())
}

// The host and the vault, before any file is opened. They tell nothing of what they were told.
#[derive(Drop)]
struct Outside<T: Write, N: Write> {
    host: RealHost<HostRuntime, T, N>,
    vault: RealVault<HostRuntime>,
}

impl<T: Write, N: Write> KeepsApart for Outside<T, N> {
    ghost tells = { false };

    ghost told = { λ _. [] };

    fn expect(&mut self, listener: Listener, role: Role, name: &str) {
        match listener {
            Listener::Host => self.host.expect(role, name),
            Listener::Vault => self.vault.expect(role, name),
        }
    }

    fn keep_inputs(&mut self) {
        self.host.keep_inputs();
    }

    fn protect(&mut self, name: &str) -> Result<(), AllocError> {
        self.host.protect(name)
    }
}

// The words after the program's name, of whose files the host and the vault were told.
fn told_words<K: KeepsApart>(
    alloc: Global,
    outside: &mut K,
    args: io::Result<Args>,
) -> Result<Vec<String>, AllocError>
    ensures words { IfOk args (λ args. IfOk result (λ words. words.items ≡ drop 1 (into_iter_items args))) }
    ensures told { IsTrue K.tells → IfOk result (λ words. K.told outside.new ≡ K.told outside.old ++ tellings (texts_of words.items)) }
{
    let words = words_of(alloc, args)?;
    keep_apart(outside, &words)?;
    Ok(words)
}

fn main(rt: HostRuntime) -> ExitCode {
    let Ok(_streams) = fill_streams(&rt) else {
        return ExitCode::FAILURE;
    };
    let mut outside = Outside {
        host: RealHost::new(rt, rt.stdout(), rt.stderr()),
        vault: RealVault::new(rt),
    };
    let words = told_words(rt.alloc(), &mut outside, env::args(&rt));
    let Outside { host, mut vault } = outside;
    let mut host = Windowed::new(rt.alloc(), host);
    answer(rt.alloc(), &mut host, &mut vault, words)
}
