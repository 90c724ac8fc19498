// The lines of an image's text: what each states.
ghost use Rattle.std.specs.Prelude.{◌≡◌, ◌≢◌, ◌∷◌, List, ℕ, length, Some, None, IfOk, IfSome, IfNone, option_map};
ghost use Rattle.text_lines.specs.Grammar.{each_of, line_head, line_object, object_of};
ghost use Rattle.text_lines.specs.Inside.{head_as, stated_as};
ghost use Rattle.text_lines.specs.Parts.{parts_behind};
ghost use Rattle.text_lines.specs.Parts as read;

use crate::contents::body_in;
use crate::limits::LONGEST_LINE;
use crate::numbers::{kind_in, long_in, name_in, number_in};
use crate::parts::{Parts, first_part};
use image_format::State;
use long_names::{Body, Kind, Name};
use std::alloc::{AllocError, Global};

/// What the first line states: the next name, and the machine's state.
#[derive(Clone, Copy, Debug)]
pub struct Head {
    pub next: u32,
    pub state: State,
}

/// What an object's line states. The name is any number: one that is too large for a name stands as 4,294,967,296.
#[derive(Debug, Drop)]
pub struct Stated {
    pub name: u64,
    pub class: Name,
    pub body: Body,
}

/// The class and the kind that come next of the parts.
fn class_and_kind(parts: &mut Parts<'_>) -> Option<(Name, Kind)>
    ensures some { IfSome result (λ x. (class : List ℕ) × (kind : List ℕ) × (parts_behind parts.old.tail.now ≡ class ∷ kind ∷ parts_behind parts.new.tail.now) × (read.name_of class ≡ Some x.0) × (read.kind_of kind ≡ Some x.1)) }
    ensures none { IfNone result ((name : List ℕ) → object_of (name ∷ parts_behind parts.old.tail.now) ≡ None) }
{
    let part = parts.next()?;
    let class = name_in(part)?;
    let other = parts.next()?;
    let kind = kind_in(other)?;
    Some((class, kind))
}

/// What an object's line states. None where it breaks the grammar.
pub fn object_in(alloc: Global, line: &[u8]) -> Result<Option<Stated>, AllocError>
    ensures { IfOk result (λ stated. stated ≡ option_map stated_as (line_object line.now)) }
{
    if line.len() > LONGEST_LINE {
        return Ok(None);
    }
    let (part, mut parts) = first_part(line);
    let Some(name) = number_in(part) else {
        return Ok(None);
    };
    let Some((class, kind)) = class_and_kind(&mut parts) else {
        return Ok(None);
    };
    match body_in(alloc, kind, parts)? {
        Some(body) => Ok(Some(Stated { name, class, body })),
        None => Ok(None),
    }
}

/// The numbers that the parts are, if they are six.
fn six_longs(mut parts: Parts<'_>) -> Option<[u32; 6]>
    ensures some { IfSome result (λ longs. (each_of read.long_of (parts_behind parts.entry.tail.now) ≡ Some longs) × (length longs ≡ 6)) }
    ensures none { IfNone result ((longs : List ℕ) → length longs ≡ 6 → each_of read.long_of (parts_behind parts.entry.tail.now) ≢ Some longs) }
{
    let mut longs = [0; 6];
    for i in 0..6 {
        let part = parts.next()?;
        let long = long_in(part)?;
        longs[i] = long;
    }
    match parts.next() {
        Some(_) => None,
        None => Some(longs),
    }
}

/// What the first line states. None where it breaks the grammar.
pub fn head_in(line: &[u8]) -> Option<Head>
    ensures { result ≡ option_map head_as (line_head line.now) }
{
    if line.len() > LONGEST_LINE {
        return None;
    }
    let (part, parts) = first_part(line);
    if part != b"loom".as_slice() {
        return None;
    }
    let longs = six_longs(parts)?;
    Some(Head {
        next: longs[0],
        state: State {
            clock: longs[1],
            display: longs[2],
            input: longs[3],
            timer: longs[4],
            tick: longs[5],
        },
    })
}
