// A line for each problem.
ghost use Rattle.std.specs.Prelude.{◌++◌, IfOk, OnOk, string_bytes};
ghost use Rattle.st80_complain.specs.Said.{Begins, place_text};

use st80_compile::Refusal;
use st80_parser::Expected;
use st80_program::{Problem, What};
use st80_scope::Reason;
use st80_source::{column_of, line_of};
use st80_syntax::Fault;
use std::alloc::{AllocError, Global};
use std::str;

/// Why no token begins there.
pub fn fault_words(fault: Fault) -> &'static str {
    match fault {
        Fault::Foreign => "no token begins with this character",
        Fault::Remark => "a comment without its second \"",
        Fault::Character => "a $ with no character behind it",
        Fault::Text => "a string without its last quote",
        Fault::Symbol => "a # with no name, selector or ( behind it",
        Fault::Radix => "a radix with no digits behind it",
        Fault::Float => "a float; numbers are integers here",
    }
}

/// What could stand there.
pub fn expected_words(expected: Expected) -> &'static str {
    match expected {
        Expected::Expression => "an expression is expected",
        Expected::Pattern => "a selector is expected, with names for its arguments",
        Expected::Name => "a name is expected",
        Expected::Message => "a message is expected",
        Expected::Number => "an integer is expected",
        Expected::Keyword => "primitive: is expected",
        Expected::Sign => "> is expected",
        Expected::Bar => "| is expected, behind the arguments of the block",
        Expected::Close => ") is expected",
        Expected::CloseBlock => "] or a period is expected",
        Expected::Period => "a period or ! is expected",
        Expected::Shallower => "nested too deep",
    }
}

fn reason_words(reason: &Reason) -> &'static str {
    match reason {
        Reason::Unknown(_) => "unknown name",
        Reason::Super => "super stands where it receives no message",
        Reason::Fixed => "this can't be assigned",
        Reason::Twice => "this name is taken",
        Reason::Arguments => "more than 31 arguments",
        Reason::Temporaries => "more than 31 temporaries, arguments and those of blocks among them",
        Reason::Fields => "a field behind the 256th",
        Reason::Range => "no integer of this radix from -(2^127) to 2^127 - 1",
        Reason::Message => "a message is expected before the semicolon",
        Reason::Primitive => "<primitive: n> is expected, with n from 1 to 255",
        Reason::Deep => "nested too deep",
        Reason::Literals => "too many literals in the program",
    }
}

/// Why a method has no code.
pub fn refusal_words(refusal: Refusal) -> &'static str {
    match refusal {
        Refusal::TooManyArguments => "more than 31 arguments",
        Refusal::TooManyTemporaries => "more than 31 temporaries",
        Refusal::TooManyLiterals => "more than 63 literals",
        Refusal::FieldTooFar => "a field behind the sixty-fourth",
        Refusal::UnknownTemporary => "a temporary that the method doesn't have",
        Refusal::UnknownLiteral => "a literal that the method doesn't have",
        Refusal::JumpTooLong => "a jump over more than 1,023 bytes, or back over more than 1,024",
        Refusal::StackTooDeep => "more than 32 temporaries and values on the stack",
    }
}

fn what_words(what: &What) -> &'static str {
    match what {
        What::Unended => "no ! ends this",
        What::Fault(fault) => fault_words(*fault),
        What::Expected(expected) => expected_words(*expected),
        What::Reason(reason) => reason_words(reason),
        What::NoClass(_) => "unknown class",
        What::ClassTwice => "a class of this name was defined before",
        What::MethodTwice => "the class has a method of this selector already",
        What::NoHeader => "a header is expected, as Object methodsFor: 'comparing'",
        What::NoDefinition => "the definition of a class has other keywords or arguments",
        What::NotUnderstood(_) => "no class has a method of this selector",
        What::StartTwice => "there are statements to begin with already",
    }
}

/// What was probably meant.
fn near_of(what: &What) -> Option<&[u8]> {
    match what {
        What::NoClass(Some(name)) => Some(name.as_slice()),
        What::NotUnderstood(Some(name)) => Some(name.as_slice()),
        What::Reason(Reason::Unknown(Some(name))) => Some(name.as_slice()),
        _ => None,
    }
}

/// A source file: what it is called, and its text.
#[derive(Clone, Copy)]
pub struct Source<'s> {
    pub name: &'s str,
    pub text: &'s [u8],
}

/// Where the line of a place begins.
fn begin_of_line(text: &[u8], place: usize) -> usize {
    let mut begin = 0;
    for (i, b) in text.iter().enumerate() {
        if i < place && *b == b'\n' {
            begin = i.saturating_add(1);
        }
    }
    begin
}

/// The line of a place.
fn line_with(text: &[u8], place: usize) -> &[u8] {
    let rest = text.get(begin_of_line(text, place)..).unwrap_or(&[]);
    match rest.iter().position(|b| *b == b'\n') {
        Some(end) => rest.get(..end).unwrap_or(&[]),
        None => rest,
    }
}

/// What stands before a mark below a place, so that the mark stands right below it: tabs for tabs, and blanks for the other characters.
fn put_indent(out: &mut String, before: &[u8]) -> Result<(), AllocError>
    ensures { OnOk result (Begins (string_bytes out.old) (string_bytes out.new)) }
{
    'each: for b in before {
        if *b == b'\t' {
            out.push('\t')?;
        } else if *b < 128 || 192 <= *b {
            out.push(' ')?;
        }
    }
    Ok(())
}

/// The line of a place, and a mark below the place. Nothing where the line is no text.
fn put_line(out: &mut String, text: &[u8], place: usize) -> Result<(), AllocError>
    ensures { OnOk result (Begins (string_bytes out.old) (string_bytes out.new)) }
{
    let line = line_with(text, place);
    let Ok(shown) = str::from_utf8(line) else {
        return Ok(());
    };
    out.push('\n')?;
    out.push_str(shown)?;
    out.push('\n')?;
    let before = text.get(begin_of_line(text, place)..place).unwrap_or(&[]);
    put_indent(out, before)?;
    out.push('^')
}

/// What was probably meant, where it is text.
fn put_near(out: &mut String, near: Option<&[u8]>) -> Result<(), AllocError>
    ensures { OnOk result (Begins (string_bytes out.old) (string_bytes out.new)) }
{
    let near = match near {
        Some(name) => str::from_utf8(name).ok(),
        None => None,
    };
    if let Some(name) = near {
        out.push_str("; is ")?;
        out.push_str(name)?;
        out.push_str(" meant?")?;
    }
    Ok(())
}

/// What is said of a place of a source file: the file, the line, the column and these words, what was probably meant, and the line itself with a
/// mark below the place.
pub fn said_at(
    alloc: Global,
    source: Source<'_>,
    place: usize,
    words: &str,
    near: Option<&[u8]>,
) -> Result<String, AllocError>
    ensures { IfOk result (λ said. Begins (place_text source.entry.name.now source.entry.text.now place ++ words.now) (string_bytes said)) }
{
    let line = line_of(source.text, place);
    let column = column_of(source.text, place);
    let file = source.name;
    let mut out = format!(in alloc; "{file}:{line}:{column}: {words}")?;
    put_near(&mut out, near)?;
    put_line(&mut out, source.text, place)?;
    Ok(out)
}

/// What is said of a problem, which stands in this source file.
pub fn said_of(alloc: Global, source: Source<'_>, problem: &Problem) -> Result<String, AllocError>
    ensures { IfOk result (λ said. Begins (place_text source.entry.name.now source.entry.text.now problem.now.place) (string_bytes said)) }
{
    let words = what_words(&problem.what);
    said_at(alloc, source, problem.place, words, near_of(&problem.what))
}
