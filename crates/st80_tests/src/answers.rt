// Instructions in words.
use anyhow::{Context, Result, bail};
use long_names::Name;
use st80_code::{code_of, decode, put_instruction};
use st80_view::View;
use std::fs;

/// The image whose method has the literals, and the method.
const IMAGE: &str = "words.loom";

const METHOD: u32 = 64;

/// The view of an image file.
pub(crate) fn view_of(rt: HostRuntime, file: &str) -> Result<View> {
    let bytes = fs::read(&rt, file).context("an image")?;
    Ok(View::open(rt.alloc(), &bytes)?)
}

/// The bytes that words of hexadecimal digits are.
pub(crate) fn bytes_of(rt: HostRuntime, digits: &str) -> Result<Vec<u8>> {
    let mut bytes = Vec::new(rt.alloc());
    for word in digits.split(' ') {
        bytes.push(u8::from_str_radix(word, 16).context("two digits")?)?;
    }
    Ok(bytes)
}

/// The first instruction of this code in words, in the method of `words.loom`.
pub(crate) fn code_answer(rt: HostRuntime, asked: &str) -> Result<String> {
    let view = view_of(rt, IMAGE)?;
    let method = Name::new(METHOD).context("a name")?;
    let (literals, _code) = code_of(&view, method).context("a method")?;
    let code = bytes_of(rt, asked)?;
    if code.is_empty() {
        bail!("no code");
    }
    let mut out = String::new(rt.alloc());
    put_instruction(&mut out, &view, literals, &decode(&code, 0))?;
    Ok(out)
}
