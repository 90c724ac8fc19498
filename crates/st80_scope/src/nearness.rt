// What a misspelt name was probably meant to be.
ghost use Rattle.std.specs.Prelude.{◌<◌, IfOk, IfSome, length};

use std::alloc::{AllocError, Global};
use std::str;
use strsim::osa_distance;

/// How many edits a misspelt name may be away.
const MOST_EDITS: usize = 2;

fn distance(alloc: Global, name: &[u8], other: &[u8]) -> Result<usize, AllocError> {
    match (str::from_utf8(name), str::from_utf8(other)) {
        (Ok(name), Ok(other)) => osa_distance(alloc, name, other),
        _ => Ok(MOST_EDITS + 1),
    }
}

/// Of some names the place of the nearest to this one, and how many edits it is away, if these are fewer than so many.
pub fn nearest(
    alloc: Global,
    name: &[u8],
    among: &[Vec<u8>],
    below: usize,
) -> Result<Option<(usize, usize)>, AllocError>
    ensures within { IfOk result (λ found. IfSome found (λ one. one.0 < length among.now)) }
    ensures near { IfOk result (λ found. IfSome found (λ one. one.1 < below)) }
{
    let mut best = None;
    let mut least = below.min(name.len()).min(MOST_EDITS + 1);
    for (i, other) in among.iter().enumerate() {
        let edits = distance(alloc, name, other.as_slice())?;
        if edits < least {
            least = edits;
            best = Some((i, edits));
        }
    }
    Ok(best)
}
