// The texts of sources, each under the word that it was asked for by.
ghost use Rattle.std.specs.Prelude.{◌≡◌, ◌++◌, ◌∷◌, [], codes, string_bytes, IfErr, IfOk, OnOk};
ghost use Rattle.st80_files.specs.Codes.{IsToldBy};
ghost use Rattle.st80_files.specs.declared.codes.Code.TheVariants as code;
ghost use Rattle.st80_make.specs.Asked.{AreAsked, AreKernel, end_name, files_in, words_at, words_in};

use crate::kernel::{KERNEL, kernel_folder};
use st80_files::{Failure, bytes_or_input};
use st80_source::MARK;
use st80_words::Sources;
use std::alloc::{AllocError, Global};

/// The text of a source, and the word that it was asked for by.
#[derive(Drop)]
pub struct Text {
    pub word: String,
    pub bytes: Vec<u8>,
}

fn read(rt: HostRuntime, word: &str) -> Result<Text, Failure>
    ensures word { IfOk result (λ text. string_bytes text.word ≡ word.now) }
    ensures failed { IfErr result (IsToldBy code.CantRead) }
{
    let bytes = bytes_or_input(rt, word)?;
    let word = String::from_str(rt.alloc(), word)?;
    Ok(Text { word, bytes })
}

fn put(texts: &mut Vec<Text>, text: Text) -> Result<(), AllocError>
    ensures { OnOk result (words_in texts.new.items ≡ words_in texts.old.items ++ string_bytes text.word ∷ []) }
{
    texts.push(text)?;
    Ok(())
}

/// Files in a folder.
fn read_in(
    rt: HostRuntime,
    texts: &mut Vec<Text>,
    folder: &str,
    names: &[&str],
) -> Result<(), Failure>
    ensures words { OnOk result (words_in texts.new.items ≡ words_in texts.old.items ++ files_in folder.now (words_at names.now)) }
    ensures failed { IfErr result (IsToldBy code.CantRead) }
{
    'each: for name in names {
        let path = format!(in rt.alloc(); "{folder}/{name}")?;
        put(texts, read(rt, path.as_str())?)?;
    }
    Ok(())
}

/// Files by their words, of which `-` is standard input.
fn read_all(rt: HostRuntime, texts: &mut Vec<Text>, words: &[&str]) -> Result<(), Failure>
    ensures words { OnOk result (words_in texts.new.items ≡ words_in texts.old.items ++ words_at words.now) }
    ensures failed { IfErr result (IsToldBy code.CantRead) }
{
    'each: for word in words {
        put(texts, read(rt, word)?)?;
    }
    Ok(())
}

/// The files of the kernel, where it is asked for, and behind them this one.
fn read_kernel(rt: HostRuntime, sources: &Sources<'_>, end: &str) -> Result<Vec<Text>, Failure>
    ensures asked { IfOk result (λ texts. AreKernel sources.now end.now texts.items) }
    ensures failed { IfErr result (IsToldBy code.CantRead) }
{
    let mut texts = Vec::new(rt.alloc());
    let folder = kernel_folder(rt, sources.kernel)?;
    if sources.on_kernel {
        read_in(rt, &mut texts, folder.as_str(), &KERNEL)?;
        read_in(rt, &mut texts, folder.as_str(), &[end])?;
    }
    Ok(texts)
}

/// What stands behind the kernel: what ends the run, or prints the value of statements before.
fn end_of(statements: Option<&str>) -> &'static str
    ensures { result.now ≡ end_name statements.entry }
{
    match statements {
        None => "end.st",
        Some(_) => "eval.st",
    }
}

/// Statements as a chunk: each mark in them twice, and one behind them.
fn chunk_of(alloc: Global, statements: &str) -> Result<Vec<u8>, AllocError> {
    let mut bytes = Vec::new(alloc);
    for b in statements.as_bytes() {
        bytes.push(*b)?;
        if *b == MARK {
            bytes.push(MARK)?;
        }
    }
    bytes.push(MARK)?;
    Ok(bytes)
}

fn add_statements(alloc: Global, texts: &mut Vec<Text>, statements: &str) -> Result<(), AllocError>
    ensures { OnOk result (words_in texts.new.items ≡ words_in texts.old.items ++ codes "statements" ∷ []) }
{
    let word = String::from_str(alloc, "statements")?;
    let bytes = chunk_of(alloc, statements)?;
    put(texts, Text { word, bytes })
}

/// The texts that sources ask for: those of the kernel, those of the files, and statements whose value is printed.
pub fn texts_of(
    rt: HostRuntime,
    sources: &Sources<'_>,
    statements: Option<&str>,
) -> Result<Vec<Text>, Failure>
    ensures asked { IfOk result (λ texts. AreAsked sources.now statements.entry texts.items) }
    ensures failed { IfErr result (IsToldBy code.CantRead) }
{
    let mut texts = read_kernel(rt, sources, end_of(statements))?;
    read_all(rt, &mut texts, sources.files.as_slice())?;
    if let Some(statements) = statements {
        add_statements(rt.alloc(), &mut texts, statements)?;
    }
    Ok(texts)
}
