//! What the answers mean.
ghost use Rattle.std.specs.Prelude.{◌≡◌};
ghost use Rattle.st80_explain.specs.Sentences.{role_text};

use crate::causes::put_cause;
use loom_host::Role;
use loom_words::Status;
use st80_objects::{put_decimal, rule_sentence};
use std::alloc::AllocError;

/// The paths of a command's files, each empty where it has none.
#[derive(Clone, Copy, Debug)]
pub struct Files<'a> {
    pub image: &'a str,
    pub events: &'a str,
    pub work: &'a str,
    pub saved: &'a str,
    pub display: &'a str,
    pub vault: &'a str,
}

/// The path of a role's file.
fn path_of<'a>(files: &Files<'a>, role: Role) -> &'a str {
    match role {
        Role::Image => files.image,
        Role::Events => files.events,
        Role::Work => files.work,
        Role::Saved => files.saved,
        Role::Display => files.display,
        Role::Transcript => "standard output",
        Role::Notes => "standard error",
    }
}

/// What a role is, for people.
fn role_words(role: Role) -> &'static str
    ensures { result.now ≡ role_text role }
{
    match role {
        Role::Image => "the image",
        Role::Events => "the event file",
        Role::Work => "the work file",
        Role::Saved => "the file that is saved",
        Role::Display => "the picture",
        Role::Transcript => "what the image says",
        Role::Notes => "the last line",
    }
}

fn put_path(out: &mut String, path: &str) -> Result<(), AllocError> {
    if path.is_empty() {
        return Ok(());
    }
    out.push_str(" (")?;
    out.push_str(path)?;
    out.push(')')
}

/// Puts a line on a fault of a role.
fn put_fault(
    out: &mut String,
    files: &Files<'_>,
    role: Role,
    verb: &str,
) -> Result<(), AllocError> {
    let what = role_words(role);
    write!(out, "A {verb} of {what}")?;
    put_path(out, path_of(files, role))?;
    out.push_str(" failed.\n")
}

/// Puts a line on a fault of the vault.
fn put_vault(
    out: &mut String,
    files: &Files<'_>,
    before: &str,
    behind: &str,
) -> Result<(), AllocError> {
    out.push_str(before)?;
    put_path(out, files.vault)?;
    out.push_str(behind)?;
    out.push('\n')
}

fn put_ended(out: &mut String, status: &Status) -> Result<(), AllocError> {
    match status {
        Status::Done { ran } => {
            out.push_str("The run went through: ")?;
            put_decimal(out, u64::from(*ran))?;
            out.push_str(" bytecodes were run, and there are more. `--steps N` says how many.\n")
        }
        Status::Quit { ran } => {
            out.push_str("The image ended itself after ")?;
            put_decimal(out, u64::from(*ran))?;
            out.push_str(" bytecodes.\n")
        }
        Status::Made { objects } | Status::Listed { objects } | Status::Assembled { objects } => {
            out.push_str("It is written, with ")?;
            put_decimal(out, u64::from(*objects))?;
            out.push_str(" objects.\n")
        }
        _ => Ok(()),
    }
}

fn put_broken(out: &mut String, status: &Status, files: &Files<'_>) -> Result<(), AllocError> {
    match status {
        Status::ImageBad { rule, .. } => {
            out.push_str("The image")?;
            put_path(out, files.image)?;
            write!(out, " breaks rule {rule}: ")?;
            out.push_str(rule_sentence(*rule))?;
            out.push_str(".\n")
        }
        Status::TextBad { line, rule } => {
            out.push_str("The text")?;
            put_path(out, files.image)?;
            write!(out, " breaks rule {rule} at line {line}: ")?;
            out.push_str(rule_sentence(*rule))?;
            out.push_str(".\n")
        }
        Status::EventsBad { line } => {
            out.push_str("The event file")?;
            put_path(out, files.events)?;
            write!(
                out,
                " has a bad line {line}: a line is `COUNT word N`, `COUNT purge` or `COUNT compact`, and counts never fall.\n"
            )
        }
        _ => Ok(()),
    }
}

fn put_stopped(out: &mut String, status: &Status) -> Result<(), AllocError> {
    match status {
        Status::Stuck { cause, ran } => {
            out.push_str("After ")?;
            put_decimal(out, u64::from(*ran))?;
            out.push_str(" bytecodes the machine can't go on.\n")?;
            put_cause(out, *cause)
        }
        Status::CoreFull { ran, .. } => {
            out.push_str("After ")?;
            put_decimal(out, u64::from(*ran))?;
            out.push_str(
                " bytecodes the core is too small. `--core N` and `--entries N` make it larger.\n",
            )
        }
        Status::NamesSpent { ran } => {
            out.push_str("After ")?;
            put_decimal(out, u64::from(*ran))?;
            out.push_str(
                " bytecodes this image has no name left for a new object: there are 2,147,483,646, and none is used twice.\n",
            )
        }
        Status::WorkFull { .. } => {
            out.push_str("There is no room for so many objects. `--room N` makes more.\n")
        }
        Status::OutOfMemory => {
            out.push_str("There is no memory. A smaller `--core` takes less.\n")
        }
        _ => Ok(()),
    }
}

fn put_faults(out: &mut String, status: &Status, files: &Files<'_>) -> Result<(), AllocError> {
    match status {
        Status::ReadFault { role, .. } => put_fault(out, files, *role, "read"),
        Status::WriteFault { role, .. } => put_fault(out, files, *role, "write"),
        Status::WorkFault { .. } => put_fault(out, files, Role::Work, "read or write"),
        Status::Damaged { name, .. } => {
            out.push_str("The work file")?;
            put_path(out, files.work)?;
            write!(
                out,
                " no longer holds what was put there, by object {name}: another program writes it, or its disk loses what it takes.\n"
            )
        }
        Status::VaultFault { .. } => put_vault(
            out,
            files,
            "A read or write of the vault",
            " failed, or the file is no vault.",
        ),
        Status::NoCheckpoint => put_vault(
            out,
            files,
            "The vault",
            " has no checkpoint: nothing was kept yet. Begin by `st80 guard`.",
        ),
        Status::VaultBad { .. } => put_vault(
            out,
            files,
            "The vault",
            " has an open gate in front of what is no checkpoint: the file is no vault, or was changed.",
        ),
        _ => Ok(()),
    }
}

/// Puts what an answer means, in a line or two, with the paths of the files that it speaks of. Of words nothing is said but which one is bad.
pub fn put_status(out: &mut String, status: &Status, files: &Files<'_>) -> Result<(), AllocError> {
    if let Status::Usage { word } = status {
        return write!(out, "Word {word} of the row is bad, missing or too many.\n");
    }
    put_ended(out, status)?;
    put_broken(out, status, files)?;
    put_stopped(out, status)?;
    put_faults(out, status, files)
}
