// The commands that look at images: `show`, `diff` and `check`.
ghost use Rattle.std.specs.Prelude.{◌≡◌, ◌⊎◌, List, IfOk, ℕ};
ghost use Rattle.st80_files.specs.declared.codes.Code.TheVariants as code;
ghost use Rattle.st80_looks.specs.Checked.{IsChecked, IsRead};
ghost use Rattle.st80_objects.specs.Images.{IsImageOf};
ghost use Rattle.st80_view.specs.Viewed.{image_of};

use crate::explaining::{put_bad_image, put_bad_text};
use image_format::Break;
use st80_explain::{FileKind, Wanted, file_kind, put_kind};
use st80_files::{Code, Failure, STREAM, bytes_of, bytes_or_input, failed, put_bytes};
use st80_objects::{ImageFault, LabelFault, Labels};
use st80_show::{Asked, Found, show, show_difference, show_findings};
use st80_view::View;
use st80_words::Shown;
use std::rt::Files;

// What is said of bytes that are no image: what they are, or the rule that breaks.
fn broken(rt: HostRuntime, word: &str, bytes: &[u8], fault: &Break) -> Failure {
    match broken_text(rt, word, bytes, fault) {
        Ok(text) => Failure::Told {
            code: Code::ImageBad,
            text,
        },
        Err(failure) => failure,
    }
}

fn broken_text(
    rt: HostRuntime,
    word: &str,
    bytes: &[u8],
    fault: &Break,
) -> Result<String, Failure> {
    let mut text = format!(in rt.alloc(); "{word} is no image.\n")?;
    put_bad_image(rt, &mut text, bytes, fault.rule, fault.place)?;
    Ok(text)
}

/// The view of an image, by its bytes; `word` is what it is called.
fn view_of(rt: HostRuntime, word: &str, bytes: &[u8]) -> Result<View, Failure>
    ensures { IfOk result (λ view. IsImageOf bytes.now (image_of view)) }
{
    match View::open(rt.alloc(), bytes) {
        Ok(view) => Ok(view),
        Err(ImageFault::Memory) => Err(Failure::Memory),
        Err(ImageFault::Broken(fault)) => Err(broken(rt, word, bytes, &fault)),
    }
}

fn labels_in(rt: HostRuntime, path: &str) -> Result<Labels, Failure> {
    let bytes = bytes_of(rt, path)?;
    match Labels::read(rt.alloc(), &bytes) {
        Ok(labels) => Ok(labels),
        Err(LabelFault::Memory) => Err(Failure::Memory),
        Err(LabelFault::Line(line)) => {
            let text = format!(in rt.alloc(); "{path}: line {line} isn't NUMBER NAME")?;
            Err(failed(rt.alloc(), Code::CantRead, text.as_str()))
        }
    }
}

// Gives the objects of a view the names of a file: the one that was asked for, or the one beside the image where it is there.
fn label(rt: HostRuntime, view: &mut View, word: &str, names: Option<&str>) -> Result<(), Failure>
    ensures { image_of view.new ≡ image_of view.old }
{
    if let Some(path) = names {
        view.set_labels(labels_in(rt, path)?);
        return Ok(());
    }
    let path = format!(in rt.alloc(); "{word}.names")?;
    if word != STREAM && rt.metadata(path.as_str()).is_ok() {
        view.set_labels(labels_in(rt, path.as_str())?);
    }
    Ok(())
}

/// The view of an image with names.
pub fn labelled(
    rt: HostRuntime,
    word: &str,
    bytes: &[u8],
    names: Option<&str>,
) -> Result<View, Failure>
    ensures { IfOk result (λ view. IsImageOf bytes.now (image_of view)) }
{
    let mut view = view_of(rt, word, bytes)?;
    label(rt, &mut view, word, names)?;
    Ok(view)
}

fn asked_of<'a>(shown: Shown<'a>) -> Asked<'a> {
    match shown {
        Shown::Summary => Asked::Image,
        Shown::Object(name) => Asked::Object(name),
        Shown::Class(name) => Asked::Class(name),
        Shown::Method(class, selector) => Asked::Method { class, selector },
        Shown::Processes => Asked::Processes,
        Shown::Stack => Asked::Stack,
        Shown::Counts => Asked::Counts,
    }
}

/// The command `show`.
pub fn look(
    rt: HostRuntime,
    word: &str,
    shown: Shown<'_>,
    names: Option<&str>,
) -> Result<Code, Failure>
    ensures { IfOk result (λ end. (end ≡ code.Well) ⊎ (end ≡ code.NotThere)) }
{
    let bytes = bytes_or_input(rt, word)?;
    let view = labelled(rt, word, &bytes, names)?;
    let mut text = String::new(rt.alloc());
    match show(rt.alloc(), &mut text, &view, &asked_of(shown))? {
        Found::Shown => {
            put_bytes(rt, STREAM, text.as_bytes())?;
            Ok(Code::Well)
        }
        Found::Nothing => {
            let _ = rt.eprint(text);
            Ok(Code::NotThere)
        }
    }
}

/// The command `diff`.
pub fn compare(rt: HostRuntime, a: &str, b: &str, names: Option<&str>) -> Result<Code, Failure>
    ensures { IfOk result (λ end. (end ≡ code.Well) ⊎ (end ≡ code.Differs)) }
{
    if a == STREAM && b == STREAM {
        let text = "only one file can come from standard input";
        return Err(failed(rt.alloc(), Code::Words, text));
    }
    let before = bytes_or_input(rt, a)?;
    let before = labelled(rt, a, &before, names)?;
    let after = bytes_or_input(rt, b)?;
    let after = labelled(rt, b, &after, names)?;
    let mut text = String::new(rt.alloc());
    let differs = show_difference(&mut text, &before, &after)?;
    put_bytes(rt, STREAM, text.as_bytes())?;
    Ok(if differs { Code::Differs } else { Code::Well })
}

// What is wrong with an image.
fn check_image(
    rt: HostRuntime,
    word: &str,
    bytes: &[u8],
    names: Option<&str>,
) -> Result<Code, Failure>
    ensures end { IfOk result (λ end. (end ≡ code.Well) ⊎ (end ≡ code.ImageBad)) }
    ensures read { IfOk result (λ end. IsRead bytes.now) }
{
    let view = labelled(rt, word, bytes, names)?;
    let mut text = String::new(rt.alloc());
    let findings = show_findings(rt.alloc(), &mut text, &view)?;
    if findings == 0 {
        write!(text, "{word} is an image, and breaks no rule\n")?;
    }
    put_bytes(rt, STREAM, text.as_bytes())?;
    Ok(if findings == 0 {
        Code::Well
    } else {
        Code::ImageBad
    })
}

// What is wrong with a text.
fn check_text(rt: HostRuntime, word: &str, bytes: &[u8]) -> Result<Code, Failure>
    ensures { IfOk result (λ end. (end ≡ code.Well) ⊎ (end ≡ code.TextBad)) }
{
    let mut text = String::new(rt.alloc());
    let is_bad = put_bad_text(rt, &mut text, bytes)?;
    if !is_bad {
        write!(text, "{word} is the text of an image, and breaks no rule\n")?;
    }
    put_bytes(rt, STREAM, text.as_bytes())?;
    Ok(if is_bad { Code::TextBad } else { Code::Well })
}

// What is wrong with these bytes, which are an image, a text, or neither.
fn check_bytes(
    rt: HostRuntime,
    word: &str,
    bytes: &[u8],
    names: Option<&str>,
) -> Result<Code, Failure>
    ensures { IfOk result (IsChecked bytes.now) }
{
    match file_kind(bytes) {
        FileKind::Image => check_image(rt, word, bytes, names),
        FileKind::Text => check_text(rt, word, bytes),
        _ => {
            let mut text = format!(in rt.alloc();
                "{word} is neither an image nor the text of one.\n"
            )?;
            put_kind(&mut text, bytes, Wanted::Image)?;
            Err(failed(rt.alloc(), Code::CantRead, text.as_str()))
        }
    }
}

/// The command `check`. It ends well, or with the code of an image or of a text that breaks a rule, only where the file begins as one.
pub fn check(rt: HostRuntime, word: &str, names: Option<&str>) -> Result<Code, Failure>
    ensures { IfOk result (λ end. (bytes : List ℕ) × IsChecked bytes end) }
{
    let bytes = bytes_or_input(rt, word)?;
    check_bytes(rt, word, &bytes, names)
}
