// The size classes of blocks: each has twice the bytes of the one before.
ghost use Rattle.std.specs.Prelude.{◌≡◌, ◌<◌, ◌≤◌, ◌^◌, ◌*◌, ℕ, IfSome, IfNone};
ghost use Rattle.work_space.specs.Blocks.{block_size};

use crate::limits::{SIZE_CLASSES, SMALLEST_BLOCK};

/// The bytes of a block of a size class.
#[inline(always)]
pub fn block_bytes(c: u8) -> u64
    requires { c < SIZE_CLASSES }
    ensures size { result ≡ block_size c }
    ensures most { result ≤ 2 ^ 19 }
{
    SMALLEST_BLOCK << c
}

/// The smallest size class whose blocks have so many bytes; None above the largest.
pub fn size_class_of(bytes: u64) -> Option<u8>
    ensures class { IfSome result (λ c. c < SIZE_CLASSES) }
    ensures room { IfSome result (λ c. bytes ≤ block_size c) }
    ensures smallest { IfSome result (λ c. (d : ℕ) → bytes ≤ block_size d → c ≤ d) }
    ensures none { IfNone result (2 ^ 19 < bytes) }
{
    for c in 0..SIZE_CLASSES as u8 {
        if bytes <= block_bytes(c) {
            return Some(c);
        }
    }
    None
}
