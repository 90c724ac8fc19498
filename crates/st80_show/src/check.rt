// Which rules an image breaks.
use image_format::Break;
use st80_objects::rule_sentence;
use st80_view::{Finding, Part, StateRole, View};
use std::alloc::{AllocError, Global};

/// Puts the first of the rules 1 to 9 and 13 that bytes break: its number and place, what stands there, and the rule in a sentence.
pub fn show_break(out: &mut String, bytes: &[u8], broken: &Break) -> Result<(), AllocError> {
    let rule = broken.rule;
    let place = broken.place;
    write!(out, "rule {rule} at byte {place}: ")?;
    out.push_str(rule_sentence(rule))?;
    out.push_str("\n  there ")?;
    let rest = usize::try_from(place).ok().and_then(|at| bytes.get(at..));
    match rest {
        Some([]) | None => out.push_str("the file ends\n"),
        Some(rest) => put_front(out, rest),
    }
}

/// Puts the first bytes.
fn put_front(out: &mut String, bytes: &[u8]) -> Result<(), AllocError> {
    out.push_str("stands")?;
    for (i, byte) in bytes.iter().enumerate() {
        if i < 8 {
            write!(out, " {byte:02x}")?;
        }
    }
    if bytes.len() > 8 {
        out.push_str(" ..")?;
    }
    out.push('\n')
}

/// Puts each place that breaks one of the rules 10, 11, 12 and 14, under the rule in a sentence, and answers how many there are.
pub fn show_findings(alloc: Global, out: &mut String, view: &View) -> Result<u64, AllocError> {
    let findings = view.findings(alloc)?;
    let mut last = 0u8;
    for finding in findings.iter() {
        let rule = finding.rule();
        if rule != last {
            write!(out, "rule {rule}: ")?;
            out.push_str(rule_sentence(rule))?;
            out.push('\n')?;
            last = rule;
        }
        put_finding(out, view, finding)?;
    }
    Ok(findings.len() as u64)
}

fn put_finding(out: &mut String, view: &View, finding: &Finding) -> Result<(), AllocError> {
    let place = finding.place();
    write!(out, "  {place}: ")?;
    match finding {
        Finding::Lost { holder, part, name } => {
            view.put_object(out, *holder)?;
            put_part(out, part)?;
            let name = name.get();
            write!(out, " {name}, which is no object")?;
        }
        Finding::Miscounted {
            name,
            stated,
            counted,
        } => {
            view.put_object(out, *name)?;
            write!(out, " has the count {stated}, and {counted} words hold it")?;
        }
        Finding::Unheld { name } => {
            view.put_object(out, *name)?;
            out.push_str(" is held by nothing")?;
        }
        Finding::Missing { name: _ } => out.push_str("this known object isn't there")?,
        Finding::StateLost { role, name: _ } => {
            out.push_str(role_word(role))?;
            out.push_str(" of the state is no object")?;
        }
    }
    out.push('\n')
}

fn put_part(out: &mut String, part: &Part) -> Result<(), AllocError> {
    match part {
        Part::Class => out.push_str(" has the class"),
        Part::Field(i) => write!(out, " holds in field {i}"),
        Part::Literal(i) => write!(out, " holds in literal {i}"),
    }
}

fn role_word(role: &StateRole) -> &'static str {
    match role {
        StateRole::Display => "the display",
        StateRole::Input => "the input semaphore",
        StateRole::Timer => "the timer's semaphore",
    }
}
