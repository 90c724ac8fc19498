// A chunk is what stands up to the first mark that isn't doubled, with each doubled mark as one.
ghost use Rattle.std.specs.Prelude.{◌≡◌, ◌<◌, ◌≤◌, ◌+◌, ◌++◌, IfOk, IfSome, IfNone, length, slice_index, slice_get, take};
ghost use Rattle.std.specs.List.{list_all};
ghost use Rattle.st80_source.specs.Chunks.{HasNoChunk, IsChunk, IsLone, is_blank_byte, written};

use std::alloc::{AllocError, Global};

/// What ends a chunk: an exclamation mark.
pub const MARK: u8 = b'!';

/// A chunk: its bytes, the place in the file of each, and the place behind its mark.
#[derive(Debug, Drop)]
pub struct Chunk {
    pub bytes: Vec<u8>,
    pub places: Vec<usize>,
    pub end: usize,
}

/// How many bytes stand for one at this place: two where it is a doubled mark. None at a mark that stands alone.
fn width_at(text: &[u8], at: usize) -> Option<usize>
    requires { at < length text.now }
    ensures some { IfSome result (λ n. take (at + n) text.now ≡ take at text.now ++ written (slice_index text.now at)) }
    ensures within { IfSome result (λ n. at + n ≤ length text.now) }
    ensures forth { IfSome result (λ n. 0 < n) }
    ensures none { IfNone result (IsLone text.now at) }
{
    if text[at] != MARK {
        return Some(1);
    }
    let next = at + 1;
    if next < text.len() && text[next] == MARK {
        return Some(2);
    }
    None
}

/// The chunk that begins at a place. None where no mark stands alone from there on.
pub fn chunk_at(alloc: Global, text: &[u8], from: usize) -> Result<Option<Chunk>, AllocError>
    ensures chunk { IfOk result (λ found. IfSome found (λ chunk. IsChunk text.now from chunk)) }
    ensures none { IfOk result (λ found. IfNone found (HasNoChunk text.now from)) }
{
    let mut bytes = Vec::new(alloc);
    let mut places = Vec::new(alloc);
    let mut at = from;
    'each: while at < text.len() {
        let Some(width) = width_at(text, at) else {
            return Ok(Some(Chunk {
                bytes,
                places,
                end: at + 1,
            }));
        };
        bytes.push(text[at])?;
        places.push(at)?;
        at += width;
    }
    Ok(None)
}

/// Whether these bytes are all spaces, tabs, newlines and the like.
pub fn is_blank(bytes: &[u8]) -> bool
    ensures { result ≡ list_all is_blank_byte bytes.now }
{
    bytes.iter().all(|b| *b == 32 || (9 <= *b && *b <= 13))
}
