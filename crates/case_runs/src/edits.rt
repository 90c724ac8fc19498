// What a case changes of an image.
ghost use Rattle.std.specs.Prelude.{◌≡◌, ◌+◌, ◌<◌, ◌↔◌, ◌++◌, length, take, drop, OnOk, OnErr, IsErr};

use std::alloc::{AllocError, Global};
use thiserror::Error;

/// A change outside an image.
#[derive(Clone, Copy, Debug, PartialEq, Eq, Error)]
pub enum EditError {
    /// It reaches past the end of the image.
    #[error("past the end of the image")]
    PastEnd,
}

/// Puts bytes in the place of those from a place on.
pub fn patch(image: &mut [u8], at: usize, bytes: &[u8]) -> Result<(), EditError>
    ensures ok { OnOk result (image.new ≡ take at image.old ++ (bytes.now ++ drop (at + length bytes.now) image.old)) }
    ensures past_end { IsErr result ↔ (length image.old < at + length bytes.now) }
    ensures err { OnErr result (image.new ≡ image.old) }
{
    if at > image.len() || bytes.len() > image.len() - at {
        return Err(EditError::PastEnd);
    }
    image[at..at + bytes.len()].copy_from_slice(bytes);
    Ok(())
}

/// Leaves so many bytes of an image.
pub fn cut(image: &mut Vec<u8>, len: usize) -> Result<(), EditError>
    ensures ok { OnOk result (image.new.items ≡ take len image.old.items) }
    ensures past_end { IsErr result ↔ (length image.old.items < len) }
    ensures err { OnErr result (image.new.items ≡ image.old.items) }
{
    if len > image.len() {
        return Err(EditError::PastEnd);
    }
    image.truncate(len);
    Ok(())
}

/// The first bytes of an image of version 1, and of one of version 2.
const VERSION_1: &[u8] = b"LOOM\0\0\0\x01";

const VERSION_2: &[u8] = b"LOOM\0\0\0\x02";

/// Where the version ends, and where the records of an image of version 1 begin.
const VERSION_END: usize = 8;

const RECORDS: usize = 16;

/// The numbers that version 2 has before the records, where there is no clock, display, input or timer.
const NO_STATE: [u8; 20] = [0; 20];

/// An image of version 1 as one of version 2 with an empty state. Every other file stays as it is.
pub fn as_version_2(alloc: Global, image: &[u8]) -> Result<Vec<u8>, AllocError> {
    if image.len() < RECORDS || !image.starts_with(VERSION_1) {
        return image.to_vec(alloc);
    }
    let mut file = VERSION_2.to_vec(alloc)?;
    file.extend_from_slice(&image[VERSION_END..RECORDS])?;
    file.extend_from_slice(&NO_STATE)?;
    file.extend_from_slice(&image[RECORDS..])?;
    Ok(file)
}
