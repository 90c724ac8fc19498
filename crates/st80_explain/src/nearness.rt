//! What a misspelt word was probably meant to be.
use std::alloc::{AllocError, Global};
use strsim::osa_distance;

/// How many edits a misspelt word may be away.
const MOST_EDITS: usize = 2;

/// Of some words the nearest to this one, within two edits, of which the swap of two neighbours is one, and fewer than it has bytes. Of several the first.
pub fn nearest<'a>(
    alloc: Global,
    word: &str,
    among: &[&'a str],
) -> Result<Option<&'a str>, AllocError> {
    let mut best = None;
    let mut least = word.len().min(MOST_EDITS + 1);
    for other in among {
        let edits = osa_distance(alloc, word, other)?;
        if edits < least {
            least = edits;
            best = Some(*other);
        }
    }
    Ok(best)
}
