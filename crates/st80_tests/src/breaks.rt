// What an edited image breaks.
use anyhow::{Context, Result};
use st80_objects::ImageFault;
use st80_view::{Finding, View};
use std::fs;

/// The image that is edited.
const BASE: &str = "base.loom";

/// Puts one byte or more into the bytes of an image, or cuts them.
fn edit(rt: HostRuntime, bytes: &mut Vec<u8>, word: &str) -> Result<()> {
    let (place, digits) = word.split_once(':').context("no edit")?;
    if place == "cut" {
        bytes.truncate(digits.parse::<usize>()?);
        return Ok(());
    }
    if place == "add" {
        bytes.push(u8::from_str_radix(digits, 16)?)?;
        return Ok(());
    }
    let at = place.parse::<usize>()?;
    let value = u8::from_str_radix(digits, 16)?;
    let byte = bytes.get_mut(at).context("no such byte")?;
    *byte = value;
    let _ = rt;
    Ok(())
}

/// The rule and place of the first finding.
fn first_finding(rt: HostRuntime, view: &View) -> Result<String> {
    let findings = view.findings(rt.alloc())?;
    match findings.first() {
        Some(finding) => pair(rt, finding),
        None => Ok(String::from_str(rt.alloc(), "ok")?),
    }
}

fn pair(rt: HostRuntime, finding: &Finding) -> Result<String> {
    let rule = finding.rule();
    let place = finding.place();
    Ok(format!(in rt.alloc(); "{rule} {place}")?)
}

/// The rule that the base image breaks once it is edited, and its place.
pub(crate) fn break_answer(rt: HostRuntime, asked: &str) -> Result<String> {
    let mut bytes = fs::read(&rt, BASE).context("the base image")?;
    for word in asked.split(' ') {
        edit(rt, &mut bytes, word)?;
    }
    match View::open(rt.alloc(), &bytes) {
        Ok(view) => first_finding(rt, &view),
        Err(ImageFault::Broken(broken)) => {
            let rule = broken.rule;
            let place = broken.place;
            Ok(format!(in rt.alloc(); "{rule} {place}")?)
        }
        Err(ImageFault::Memory) => Ok(String::from_str(rt.alloc(), "no memory")?),
    }
}
