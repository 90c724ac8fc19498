// The row of words that a run is asked for by, and how it is printed.
ghost use Rattle.std.specs.Prelude.{◌≡◌, [], IfOk, IsNone, IsOk};
ghost use Rattle.loom_words.specs.Command.{HasLimits, row_for};
ghost use Rattle.loom_words.specs.Kept.{IsGuard, IsResume};
ghost use Rattle.loom_words.specs.Words.{IsRow, texts_of};
ghost use Rattle.st80.specs.Rows.{IsRowOf, imageless};
ghost use Rattle.st80_outside.specs.Right.{IsRight};

use loom_words::Command;
use st80_files::{Code, Failure};
use st80_words::{
    Clash, file_clash, guard_row, image_clash, resume_row, run_row as row_of_run, vault_clash,
};

/// What runs: an image, an image that keeps checkpoints in a vault, or what a vault keeps.
#[derive(Clone, Copy, Debug)]
pub enum Source<'a> {
    Image(&'a str),
    Guarded(&'a str, &'a str),
    Kept(&'a str),
}

/// Two files that are one and may not be.
pub fn clash_failed(rt: HostRuntime, clash: Clash) -> Failure {
    let one = clash.one;
    let other = clash.other;
    match format!(in rt.alloc(); "the {one} and the {other} are one file: give another") {
        Ok(text) => Failure::Told {
            code: Code::Words,
            text,
        },
        Err(_) => Failure::Memory,
    }
}

// No two files are one that may not be.
fn apart(rt: HostRuntime, clash: Option<Clash>) -> Result<(), Failure>
    ensures { IsOk result → IsNone clash }
{
    match clash {
        Some(clash) => Err(clash_failed(rt, clash)),
        None => Ok(()),
    }
}

fn image_row(rt: HostRuntime, command: &Command<'_>) -> Result<Vec<String>, Failure>
    requires limits { HasLimits command.now }
    ensures { IfOk result (λ words. IsRow (texts_of words.items) (row_for command.now)) }
{
    apart(rt, file_clash(command))?;
    apart(rt, image_clash(command))?;
    Ok(row_of_run(rt.alloc(), command)?)
}

fn guarded_row(rt: HostRuntime, command: &Command<'_>, vault: &str) -> Result<Vec<String>, Failure>
    requires limits { HasLimits command.now }
    ensures { IfOk result (λ words. IsGuard (texts_of words.items) (row_for command.now) vault.now) }
{
    apart(rt, file_clash(command))?;
    apart(rt, image_clash(command))?;
    apart(rt, vault_clash(vault, command))?;
    if vault == command.image {
        let clash = Clash {
            one: "vault",
            other: "image",
        };
        return Err(clash_failed(rt, clash));
    }
    Ok(guard_row(rt.alloc(), command, vault)?)
}

// Its image is the one in the vault.
fn kept_row(rt: HostRuntime, command: &Command<'_>, vault: &str) -> Result<Vec<String>, Failure>
    requires limits { HasLimits command.now }
    requires imageless { command.now.image.now ≡ [] }
    ensures { IfOk result (λ words. IsResume (texts_of words.items) (row_for command.now) vault.now) }
{
    apart(rt, file_clash(command))?;
    apart(rt, vault_clash(vault, command))?;
    Ok(resume_row(rt.alloc(), command, vault)?)
}

fn without_image<'a>(command: &Command<'a>) -> Command<'a>
    requires limits { HasLimits command.now }
    ensures limits { HasLimits result }
    ensures image { result.image.now ≡ [] }
    ensures others { row_for result ≡ imageless (row_for command.now) }
{
    Command {
        image: "",
        ..*command
    }
}

/// The row of words for `loom`, where no two of its files are one that may not be. It is a right one, of these files and numbers.
pub fn row_of(
    rt: HostRuntime,
    source: Source<'_>,
    command: &Command<'_>,
) -> Result<Vec<String>, Failure>
    requires limits { HasLimits command.now }
    ensures row { IfOk result (λ words. IsRowOf source.entry command.now (texts_of words.items)) }
    ensures right { IfOk result (λ words. IsRight (texts_of words.items)) }
{
    match source {
        Source::Image(_) => image_row(rt, command),
        Source::Guarded(_, vault) => guarded_row(rt, command, vault),
        Source::Kept(vault) => kept_row(rt, &without_image(command), vault),
    }
}

// Whether a shell takes the word as it stands.
fn is_plain(word: &str) -> bool {
    !word.is_empty()
        && word.as_bytes().iter().all(|&byte| byte.is_ascii_alphanumeric()
            || b"/._-+:,@%".contains(&byte))
}

fn print_word(rt: HostRuntime, word: &str) {
    if is_plain(word) {
        let _ = rt.eprint(format_args!(" {word}"));
        return;
    }
    let _ = rt.eprint(" '");
    for part in word.chars() {
        if part == '\'' {
            let _ = rt.eprint("'\\''");
        } else {
            let _ = rt.eprint(part);
        }
    }
    let _ = rt.eprint("'");
}

/// Prints the row on standard error, as a shell takes it.
pub fn print_row(rt: HostRuntime, row: &[String]) {
    let _ = rt.eprint("$ loom");
    for word in row {
        print_word(rt, word.as_str());
    }
    let _ = rt.eprintln("");
}
