// The host and the vault of a run, which are told of the files of its row, and the run.
ghost use Rattle.std.specs.Prelude.{◌≡◌, [], false, IfOk};
ghost use Rattle.loom_words.specs.Words.{texts_of};
ghost use Rattle.st80_outside.specs.Ran.{status_of, words_of};
ghost use Rattle.st80_outside.specs.Right.{IsRight};

use crate::following::Following;
use crate::progress::{Said, Screen};
use crate::watched::{Watched, WatchedVault};
use loom_guard::loom_kept_observed;
use loom_outside::{RealHost, Role};
use loom_words::{KeepsApart, Listener, Status, keep_apart};
use real_vault::RealVault;
use std::alloc::AllocError;
use std::io::{self, IsTerminal, Write};
use work_windows::Windowed;

/// Who hears a run.
#[derive(Clone, Copy, Debug, PartialEq, Eq)]
pub enum Hearing {
    /// What the machine says goes to standard output, and the last line to standard error.
    Output,
    /// Both go to standard error.
    Errors,
    Nobody,
}

/// A row of words that was run, and how that ended. Only `ran_row` makes one.
#[derive(Debug, Drop)]
pub struct Ran {
    row: Vec<String>,
    status: Status,
}

impl Ran {
    /// The words that were run.
    #[tactic(auto, unfolding(crate::specs::Ran::words_of))]
    pub fn row(&self) -> &[String]
        ensures { texts_of result.now ≡ words_of self.now }
    {
        &self.row
    }

    /// How that ended.
    #[tactic(auto, unfolding(crate::specs::Ran::status_of))]
    pub fn status(&self) -> &Status
        ensures { result.now ≡ status_of self.now }
    {
        &self.status
    }
}

#[derive(Drop)]
struct Outside<T: Write, N: Write> {
    host: RealHost<HostRuntime, T, N>,
    vault: RealVault<HostRuntime>,
}

impl<T: Write, N: Write> KeepsApart for Outside<T, N> {
    ghost tells = { false };

    ghost told = { λ _. [] };

    fn expect(&mut self, listener: Listener, role: Role, name: &str) {
        match listener {
            Listener::Host => self.host.expect(role, name),
            Listener::Vault => self.vault.expect(role, name),
        }
    }

    fn keep_inputs(&mut self) {
        self.host.keep_inputs();
    }

    fn protect(&mut self, name: &str) -> Result<(), AllocError> {
        self.host.protect(name)
    }
}

// The writers are those of what the machine says and of the last line.
fn run_over<T: Write + Drop, N: Write + Drop>(
    rt: HostRuntime,
    screen: &Screen,
    transcript: T,
    notes: N,
    row: &Vec<String>,
) -> Result<Status, AllocError> {
    let mut outside = Outside {
        host: RealHost::new(rt, transcript, notes),
        vault: RealVault::new(rt),
    };
    keep_apart(&mut outside, row)?;
    let Outside { host, vault } = outside;
    let mut host = Windowed::new(rt.alloc(), Watched::new(host, screen));
    let mut vault = WatchedVault::new(vault, screen);
    let mut following = Following::new(screen);
    let status = loom_kept_observed(rt.alloc(), &mut host, &mut vault, row, &mut following);
    screen.clear();
    Ok(status)
}

fn status_in(rt: HostRuntime, hearing: Hearing, row: &Vec<String>) -> Result<Status, AllocError> {
    let screen = &Screen::new(rt);
    let errors = rt.stderr().is_terminal();
    match hearing {
        Hearing::Output => {
            let said = Said::new(rt.stdout(), screen, rt.stdout().is_terminal());
            run_over(
                rt,
                screen,
                said,
                Said::new(rt.stderr(), screen, errors),
                row,
            )
        }
        Hearing::Errors => {
            let said = Said::new(rt.stderr(), screen, errors);
            run_over(
                rt,
                screen,
                said,
                Said::new(rt.stderr(), screen, errors),
                row,
            )
        }
        Hearing::Nobody => run_over(rt, screen, io::sink(), io::sink(), row),
    }
}

/// Does what the words of a row ask for, as the program `loom` does. The row is one that `loom` finds right. Where standard error is a terminal, it
/// shows how far that is.
pub fn run_row(rt: HostRuntime, hearing: Hearing, row: &Vec<String>) -> Result<Status, AllocError>
    requires right { IsRight (texts_of row.now.items) }
{
    status_in(rt, hearing, row)
}

/// Does what `run_row` does, and answers which row was run beside how that ended.
#[tactic(auto, unfolding(crate::specs::Ran::words_of))]
pub fn ran_row(rt: HostRuntime, hearing: Hearing, row: Vec<String>) -> Result<Ran, AllocError>
    requires right { IsRight (texts_of row.items) }
    ensures { IfOk result (λ ran. words_of ran ≡ texts_of row.items) }
{
    let status = status_in(rt, hearing, &row)?;
    Ok(Ran { row, status })
}
