// Rows of words for the program `loom`.
ghost use Rattle.std.specs.Prelude.{◌≡◌, ◌≢◌, ◌++◌, ◌∷◌, ◌≤◌, [], codes, decimal, IfOk, IsNone, IsSome, OnOk};
ghost use Rattle.loom_gen.specs.declared.generator.TheConstants.{LAST_NUMBER};
ghost use Rattle.loom_words.specs.Command.{HasLimits, make_for, paths_for, row_for};
ghost use Rattle.loom_words.specs.Kept.{IsGuard, IsResume};
ghost use Rattle.loom_words.specs.Words.{ArePaths, IsMake, IsRow, texts_of};
ghost use Rattle.st80_words.specs.declared.rows.Unused.{Unused};
ghost use Rattle.st80_words.specs.Rows.{HasFilesApart, HasImageApart, HasVaultApart, null_text};

use itoa::Buffer;
use loom_words::{Command, Conversion, Making};
use std::alloc::{AllocError, Global};

/// A role of a run that has no file.
#[derive(Clone, Copy)]
pub enum Unused {
    Events,
    Saved,
    Display,
}

/// The file of a role that has none: each role has another spelling of the null device, since `loom` refuses a word that stands twice.
pub fn null_path(unused: Unused) -> &'static str
    ensures { result.now ≡ null_text unused }
{
    match unused {
        Unused::Events => "/dev/null",
        Unused::Saved => "/dev/../dev/null",
        Unused::Display => "/dev/../dev/../dev/null",
    }
}

/// No two roles have the same spelling.
pub fn null_paths_are_apart()
    ensures { (a b : Unused) → null_text a ≡ null_text b → a ≡ b }
{}

/// Two words that name one file and may not.
#[derive(Clone, Copy)]
pub struct Clash {
    pub one: &'static str,
    pub other: &'static str,
}

fn found(one: &'static str, other: &'static str) -> Option<Clash>
    ensures { IsSome result }
{
    Some(Clash { one, other })
}

/// The files of a run that are one and may not be, but for its image and its vault; None where they are apart.
pub fn file_clash(command: &Command<'_>) -> Option<Clash>
    ensures { IsNone result → HasFilesApart command.now }
{
    if command.work == command.events {
        return found("work file", "events");
    }
    if command.work == command.saved {
        return found("work file", "saved image");
    }
    if command.work == command.display {
        return found("work file", "picture");
    }
    if command.display == command.events {
        return found("picture", "events");
    }
    if command.display == command.saved {
        return found("picture", "saved image");
    }
    None
}

/// The same of its image.
pub fn image_clash(command: &Command<'_>) -> Option<Clash>
    ensures { IsNone result → HasImageApart command.now }
{
    if command.work == command.image {
        return found("work file", "image");
    }
    if command.display == command.image {
        return found("picture", "image");
    }
    None
}

/// The same of its vault.
pub fn vault_clash(vault: &str, command: &Command<'_>) -> Option<Clash>
    ensures { IsNone result → HasVaultApart vault.now command.now }
{
    if vault == command.events {
        return found("vault", "events");
    }
    if vault == command.work {
        return found("vault", "work file");
    }
    if vault == command.saved {
        return found("vault", "saved image");
    }
    if vault == command.display {
        return found("vault", "picture");
    }
    None
}

// One word more.
fn push_word(alloc: Global, words: &mut Vec<String>, word: &str) -> Result<(), AllocError>
    ensures { OnOk result (texts_of words.new.items ≡ texts_of words.old.items ++ word.now ∷ []) }
{
    words.push(String::from_str(alloc, word)?)?;
    Ok(())
}

fn push_number(alloc: Global, words: &mut Vec<String>, number: u32) -> Result<(), AllocError>
    ensures { OnOk result (texts_of words.new.items ≡ texts_of words.old.items ++ decimal number ∷ []) }
{
    let mut buffer = Buffer::new();
    push_word(alloc, words, buffer.format(number))
}

// `EVENTS WORK SAVED DISPLAY`
fn push_files(
    alloc: Global,
    words: &mut Vec<String>,
    command: &Command<'_>,
) -> Result<(), AllocError>
    ensures { OnOk result (texts_of words.new.items ≡ texts_of words.old.items ++ command.now.events.now ∷ command.now.work.now ∷ command.now.saved.now ∷ command.now.display.now ∷ []) }
{
    push_word(alloc, words, command.events)?;
    push_word(alloc, words, command.work)?;
    push_word(alloc, words, command.saved)?;
    push_word(alloc, words, command.display)
}

// `CORE ENTRIES ROOM STEPS`
fn push_numbers(
    alloc: Global,
    words: &mut Vec<String>,
    command: &Command<'_>,
) -> Result<(), AllocError>
    ensures { OnOk result (texts_of words.new.items ≡ texts_of words.old.items ++ decimal command.now.core ∷ decimal command.now.entries ∷ decimal command.now.room ∷ decimal command.now.steps ∷ []) }
{
    push_number(alloc, words, command.core)?;
    push_number(alloc, words, command.entries as u32)?;
    push_number(alloc, words, command.room)?;
    push_number(alloc, words, command.steps)
}

// `COMMAND FIRST EVENTS WORK SAVED DISPLAY CORE ENTRIES ROOM STEPS`
fn running_words(
    alloc: Global,
    verb: &str,
    first: &str,
    command: &Command<'_>,
) -> Result<Vec<String>, AllocError>
    ensures { IfOk result (λ words. texts_of words.items ≡ verb.now ∷ first.now ∷ command.now.events.now ∷ command.now.work.now ∷ command.now.saved.now ∷ command.now.display.now
        ∷ decimal command.now.core ∷ decimal command.now.entries ∷ decimal command.now.room ∷ decimal command.now.steps ∷ []) }
{
    let mut words = Vec::new(alloc);
    push_word(alloc, &mut words, verb)?;
    push_word(alloc, &mut words, first)?;
    push_files(alloc, &mut words, command)?;
    push_numbers(alloc, &mut words, command)?;
    Ok(words)
}

/// `run IMAGE EVENTS WORK SAVED DISPLAY CORE ENTRIES ROOM STEPS`
pub fn run_row(alloc: Global, command: &Command<'_>) -> Result<Vec<String>, AllocError>
    requires limits { HasLimits command.now }
    requires files { HasFilesApart command.now }
    requires image { HasImageApart command.now }
    ensures { IfOk result (λ words. IsRow (texts_of words.items) (row_for command.now)) }
{
    running_words(alloc, "run", command.image, command)
}

/// `guard IMAGE EVENTS WORK SAVED DISPLAY CORE ENTRIES ROOM STEPS VAULT`
pub fn guard_row(
    alloc: Global,
    command: &Command<'_>,
    vault: &str,
) -> Result<Vec<String>, AllocError>
    requires limits { HasLimits command.now }
    requires files { HasFilesApart command.now }
    requires image { HasImageApart command.now }
    requires vault { HasVaultApart vault.now command.now }
    requires vault_image { vault.now ≢ command.now.image.now }
    ensures { IfOk result (λ words. IsGuard (texts_of words.items) (row_for command.now) vault.now) }
{
    let mut words = running_words(alloc, "guard", command.image, command)?;
    push_word(alloc, &mut words, vault)?;
    Ok(words)
}

/// `resume VAULT EVENTS WORK SAVED DISPLAY CORE ENTRIES ROOM STEPS`
pub fn resume_row(
    alloc: Global,
    command: &Command<'_>,
    vault: &str,
) -> Result<Vec<String>, AllocError>
    requires limits { HasLimits command.now }
    requires files { HasFilesApart command.now }
    requires imageless { command.now.image.now ≡ [] }
    requires vault { HasVaultApart vault.now command.now }
    ensures { IfOk result (λ words. IsResume (texts_of words.items) (row_for command.now) vault.now) }
{
    running_words(alloc, "resume", vault, command)
}

/// `make NUMBER FILE`
pub fn make_row(alloc: Global, making: &Making<'_>) -> Result<Vec<String>, AllocError>
    requires { making.now.number ≤ LAST_NUMBER }
    ensures { IfOk result (λ words. IsMake (texts_of words.items) (make_for making.now)) }
{
    let mut words = Vec::new(alloc);
    push_word(alloc, &mut words, "make")?;
    push_number(alloc, &mut words, making.number as u32)?;
    push_word(alloc, &mut words, making.file)?;
    Ok(words)
}

// `COMMAND SOURCE WORK TARGET`
fn conversion_words(
    alloc: Global,
    verb: &str,
    conversion: &Conversion<'_>,
) -> Result<Vec<String>, AllocError>
    ensures { IfOk result (λ words. texts_of words.items ≡ verb.now ∷ conversion.now.source.now ∷ conversion.now.work.now ∷ conversion.now.target.now ∷ []) }
{
    let mut words = Vec::new(alloc);
    push_word(alloc, &mut words, verb)?;
    push_word(alloc, &mut words, conversion.source)?;
    push_word(alloc, &mut words, conversion.work)?;
    push_word(alloc, &mut words, conversion.target)?;
    Ok(words)
}

/// `list IMAGE WORK TEXT`
pub fn list_row(alloc: Global, conversion: &Conversion<'_>) -> Result<Vec<String>, AllocError>
    requires source { conversion.now.work.now ≢ conversion.now.source.now }
    requires target { conversion.now.work.now ≢ conversion.now.target.now }
    ensures { IfOk result (λ words. ArePaths (codes "list") (texts_of words.items) (paths_for conversion.now)) }
{
    conversion_words(alloc, "list", conversion)
}

/// `asm TEXT WORK IMAGE`
pub fn asm_row(alloc: Global, conversion: &Conversion<'_>) -> Result<Vec<String>, AllocError>
    requires source { conversion.now.work.now ≢ conversion.now.source.now }
    requires target { conversion.now.work.now ≢ conversion.now.target.now }
    ensures { IfOk result (λ words. ArePaths (codes "asm") (texts_of words.items) (paths_for conversion.now)) }
{
    conversion_words(alloc, "asm", conversion)
}
