//! What kind of file bytes are.
ghost use Rattle.std.specs.Prelude.{◌≡◌, ◌↔◌, [], codes, IsTrue};
ghost use Rattle.st80_explain.specs.Kinds.{begins};
ghost use Rattle.st80_explain.specs.Sentences.{kind_text};

use std::alloc::AllocError;

/// What a file is, by how it begins.
#[derive(Clone, Copy, Debug, PartialEq, Eq)]
pub enum FileKind {
    Empty,
    Image,
    Text,
    Picture,
    Png,
    Vault,
    Events,
    Other,
}

/// What a word asks for.
#[derive(Clone, Copy, Debug, PartialEq, Eq)]
pub enum Wanted {
    Image,
    Text,
    Events,
    Picture,
}

/// The least length of a vault with a checkpoint.
const LEAST_VAULT: usize = 4_096;

/// What a file is, by how it begins.
pub fn file_kind(bytes: &[u8]) -> FileKind
    ensures empty { (result ≡ FileKind.Empty) ↔ (bytes.now ≡ []) }
    ensures image { (result ≡ FileKind.Image) ↔ IsTrue (begins (codes "LOOM") bytes.now) }
    ensures text { (result ≡ FileKind.Text) ↔ IsTrue (begins (codes "loom ") bytes.now) }
{
    if bytes.is_empty() {
        return FileKind::Empty;
    }
    if bytes.starts_with(b"LOOM") {
        return FileKind::Image;
    }
    if bytes.starts_with(b"loom ") {
        return FileKind::Text;
    }
    if bytes.starts_with(b"P4") || bytes.starts_with(b"P1") {
        return FileKind::Picture;
    }
    if bytes.starts_with(b"\x89PNG") {
        return FileKind::Png;
    }
    if is_vault(bytes) {
        return FileKind::Vault;
    }
    if is_events(bytes) {
        return FileKind::Events;
    }
    FileKind::Other
}

/// Whether both gates may be gates, and one of them is open.
fn is_vault(bytes: &[u8]) -> bool {
    if bytes.len() < LEAST_VAULT {
        return false;
    }
    match (bytes[0], bytes[512]) {
        (1, 0 | 1) | (0, 1) => true,
        _ => false,
    }
}

/// Whether the file begins with digits and the word of an event.
fn is_events(bytes: &[u8]) -> bool {
    let digits = bytes.iter().take_while(|b| b.is_ascii_digit()).count();
    let rest = bytes.get(digits..).unwrap_or(b"");
    digits > 0
        && (rest.starts_with(b" word ")
            || rest.starts_with(b" purge")
            || rest.starts_with(b" compact"))
}

/// What such a file is called, with its article.
fn kind_words(kind: FileKind) -> &'static str
    ensures { result.now ≡ kind_text kind }
{
    match kind {
        FileKind::Empty => "an empty file",
        FileKind::Image => "an image",
        FileKind::Text => "the text of an image",
        FileKind::Picture => "a picture (PBM)",
        FileKind::Png => "a picture (PNG)",
        FileKind::Vault => "a vault with a checkpoint",
        FileKind::Events => "an event file",
        FileKind::Other => "none of the files that this program writes",
    }
}

/// What makes of such a file what is wanted.
fn advice(kind: FileKind, wanted: Wanted) -> &'static str {
    match (kind, wanted) {
        (FileKind::Text, Wanted::Image) => "`st80 asm TEXT IMAGE` makes an image of it.",
        (FileKind::Image, Wanted::Text) => "`st80 list IMAGE TEXT` makes a text of it.",
        (FileKind::Vault, Wanted::Image) => "`st80 resume VAULT --steps 0` takes its image out.",
        (FileKind::Empty, Wanted::Image) => "`st80 make 0 FILE` makes an image to begin with.",
        (FileKind::Image | FileKind::Text, Wanted::Events) => {
            "Give the image first and the events behind `--events`."
        }
        (FileKind::Events, Wanted::Image) => "Give it behind `--events`, and the image first.",
        (FileKind::Empty, Wanted::Picture) => {
            "It is so where the image has no form as its display."
        }
        _ => "",
    }
}

fn is_wanted(kind: FileKind, wanted: Wanted) -> bool {
    match wanted {
        Wanted::Image => kind == FileKind::Image,
        Wanted::Text => kind == FileKind::Text,
        Wanted::Events => matches!(kind, FileKind::Events | FileKind::Other),
        Wanted::Picture => kind == FileKind::Picture,
    }
}

/// Puts a line that says what a file is, and what makes of it what is wanted. Nothing where it may be what is wanted.
pub fn put_kind(out: &mut String, bytes: &[u8], wanted: Wanted) -> Result<(), AllocError> {
    let kind = file_kind(bytes);
    if is_wanted(kind, wanted) {
        return Ok(());
    }
    out.push_str("This is ")?;
    out.push_str(kind_words(kind))?;
    out.push('.')?;
    let advice = advice(kind, wanted);
    if !advice.is_empty() {
        out.push(' ')?;
        out.push_str(advice)?;
    }
    out.push('\n')
}
